// Reads the table of vectors from standard input, and prints each line that does not agree with the code.
#![tactic(auto)]

ghost use Rattle.std.specs.Prelude.{Some};
ghost use Rattle.vectors.specs.Hex.{hex_text};

mod checks;
mod table;
mod verdict;

use checks::check_value;
use std::alloc::Global;
use std::fmt;
use std::io::{BufRead, BufReader};
use verdict::{Verdict, judge};

// Octets as the table writes them.
#[derive(Clone, Copy)]
struct Hex<'a>(&'a [u8]);

impl fmt::Display for Hex<'_> {
    ghost output = { λ x. Some (hex_text x.0.now) };

    fn fmt<W: fmt::Write>(&self, f: &mut fmt::Formatter<W>) -> fmt::Result {
        for &o in self.0 {
            write!(f, "{o:02x}")?;
        }
        Ok(())
    }
}

fn tell_differing(rt: &HostRuntime, count: u64, answer: &[u8], given: &[u8]) -> anyhow::Result<()> {
    let expected = Hex(answer);
    let got = Hex(given);
    println!(rt; "line {count}: expected {expected}, got {got}")?;
    Ok(())
}

// Whether a line agrees with the code; one that does not is printed, and so is a malformed one.
fn agrees(rt: &HostRuntime, line: &str, count: u64) -> anyhow::Result<bool> {
    match &judge(rt.alloc(), line)? {
        Verdict::Agrees(_) => return Ok(true),
        Verdict::Differs { vector, given } => tell_differing(rt, count, &vector.answer, given)?,
        Verdict::Malformed => println!(rt; "line {count}: malformed")?,
    }
    Ok(false)
}

// The same of a line that states the check value of a block, by its fields.
fn agrees_on_block(rt: &HostRuntime, fields: &str, count: u64) -> anyhow::Result<bool> {
    let Some(found) = check_value(rt.alloc(), fields)? else {
        println!(rt; "line {count}: malformed")?;
        return Ok(false);
    };
    let given = found.given.to_be_bytes();
    let same = found.answer.as_slice() == given.as_slice();
    if !same {
        tell_differing(rt, count, &found.answer, &given)?;
    }
    Ok(same)
}

// A malformed line counts as one that differs. Lines are counted by hand: `enumerate` would not
// save the count, which the last line prints.
fn examine(rt: &HostRuntime) -> anyhow::Result<()> {
    let mut count = 0u64;
    let mut differ = 0u64;
    for line in BufReader::new(rt.alloc(), rt.stdin())?.lines(rt.alloc()) {
        let line = line?;
        count = count.saturating_add(1);
        let good = match line.strip_prefix("crc ") {
            Some(fields) => agrees_on_block(rt, fields, count)?,
            None => agrees(rt, &line, count)?,
        };
        if !good {
            differ = differ.saturating_add(1);
        }
    }
    println!(rt; "{count} vectors, {differ} differ")?;
    Ok(())
}

fn main(rt: HostRuntime) -> anyhow::Result<()> {
    examine(&rt)
}
