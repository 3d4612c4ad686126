// Examples of books, as tests: reading, refusing at every edge, writing, and the text.
#![tactic(auto)]

#[cfg(test)]
use std::alloc::Global;
#[cfg(test)]
use std::process::Abort;
#[cfg(test)]
use std::test::Fail;

#[cfg(test)]
mod reading;
#[cfg(test)]
mod texts;
#[cfg(test)]
mod writing;

// The largest book, of one record, and an octet more.
#[cfg(test)]
fn too_large(rt: &impl Abort, heap: Global) -> Result<Vec<u8>, Fail> {
    let mut octets = vec![in heap; 0u8; 65_536]?;
    assert!(rt; octets.len() == 65_536);
    octets[0] = 1;
    octets[1] = 255;
    octets[2] = 252;
    octets[3] = 3;
    Ok(octets)
}
