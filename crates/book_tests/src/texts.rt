// What is printed of a book that starts no pair: the records are turned down and the run goes on.
use super::too_large;
use std::test::Fail;
use transcript::transcript;

#[test]
fn the_text_of_some_books(rt: HostRuntime) -> Result<(), Fail> {
    let table: [(&[u8], &str); 6] = [
        (b"", "refused 15 0\n"),
        (b"\x01", "end 1 0\n"),
        (b"\x01\x00\x02\x08\x01", "1 button refused 18 1\nend 5 1\n"),
        (
            b"\x01\x00\x03\x06\x00\x64\x00\x03\x07\x00\x64\x00",
            "1 host-ticks refused 18 1\n6 device-ticks refused 18 6\nrefused 16 11\n",
        ),
        (
            b"\x01\x00\x02\x08\x01\x00\x01\x09",
            "1 button refused 18 1\nrefused 17 5\n",
        ),
        (
            b"\x01\x00\x0d\x01\x00\x00\x08\x40\x00\x01\x00\x02\x00\x64\xc3\x58\x00\x01\x05",
            "1 block refused 2 14\n16 to-host refused 18 16\nend 19 2\n",
        ),
    ];
    for (octets, text) in table {
        let said = transcript(rt.alloc(), octets)?;
        assert_eq!(rt; said.as_str(), text);
    }
    Ok(())
}

#[test]
fn the_text_of_the_largest_book(rt: HostRuntime) -> Result<(), Fail> {
    let mut octets = too_large(&rt, rt.alloc())?;
    let said = transcript(rt.alloc(), &octets)?;
    assert_eq!(rt; said.as_str(), "refused 15 0\n");
    octets.truncate(65_535);
    let said = transcript(rt.alloc(), &octets)?;
    assert_eq!(rt; said.as_str(), "1 to-device refused 18 1\nend 65535 1\n");
    Ok(())
}
