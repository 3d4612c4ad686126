// Books read record by record, and the edges where reading refuses.
use super::too_large;
use book::{Book, Kind};
use refusal::Layer;
use std::test::Fail;

const WORKED: &[u8] =
    b"\x01\x00\x0d\x01\x00\x00\x08\x40\x00\x01\x00\x02\x00\x64\xc3\x57\x00\x02\x02\x00\x00\x05\x03\x14\xbe\xa3\x1f\x00\x02\x04\x00\x00\x05\x05\x50\xa1\x0c\x1e";

// How many records there are, and then the number and the place of the refusal, or 0 and the size. They
// are counted by hand, since what ends the reading is told beside them; one row of a table has both.
fn reading(octets: &[u8]) -> (usize, u8, usize) {
    let mut records = 0usize;
    let book = match Book::open(octets) {
        Ok(book) => book,
        Err(refusal) => return (0, refusal.reason.number(), refusal.place),
    };
    for item in book {
        match item {
            Ok(_) => records = records.saturating_add(1),
            Err(refusal) => return (records, refusal.reason.number(), refusal.place),
        }
    }
    (records, 0, octets.len())
}

// The same of a book of one record, with `size` octets of body, without the place.
fn reading_of_one(kind: u8, size: u8) -> (usize, u8) {
    let mut octets = [0u8; 260];
    octets[0] = 1;
    octets[2] = size.saturating_add(1);
    octets[3] = kind;
    let (records, number, _) = reading(&octets[0..usize::from(size) + 4]);
    (records, number)
}

#[test]
fn the_worked_book_has_five_records(rt: HostRuntime) -> Result<(), Fail> {
    let expected = [
        (1, Kind::Block, 12),
        (16, Kind::HostOffer, 1),
        (20, Kind::ToDevice, 4),
        (27, Kind::DeviceOffer, 1),
        (31, Kind::ToHost, 4),
    ];
    let mut book = Book::open(WORKED)?;
    for (place, kind, size) in expected {
        let placed = book.next().ok_or("too few records")??;
        assert_eq!(rt; placed.place, place);
        assert_eq!(rt; placed.record.kind(), kind);
        assert_eq!(rt; placed.record.body().len(), size);
    }
    assert!(rt; book.next().is_none());
    Ok(())
}

#[test]
fn a_body_is_a_part_of_the_book(rt: HostRuntime) -> Result<(), Fail> {
    let mut book = Book::open(b"\x01\x00\x03\x06\x01\x2c")?;
    let placed = book.next().ok_or("no record")??;
    assert_eq!(rt; placed.record.body(), [1, 44].as_slice());
    Ok(())
}

#[test]
fn refusals_at_their_edges(rt: HostRuntime) {
    let table: [(&[u8], usize, u8, usize); 12] = [
        (b"", 0, 15, 0),
        (b"\x00", 0, 15, 0),
        (b"\x02", 0, 15, 0),
        (b"\x01", 0, 0, 1),
        (b"\x01\x00", 0, 16, 1),
        (b"\x01\x00\x00", 0, 16, 1),
        (b"\x01\x00\x01", 0, 16, 1),
        (b"\x01\x00\x02\x03", 0, 16, 1),
        (b"\x01\x00\x01\x00", 0, 17, 1),
        (b"\x01\x00\x01\x09", 0, 17, 1),
        (b"\x01\x00\x02\x08\x01\x00", 1, 16, 5),
        (b"\x01\x00\x02\x08\x01\x00\x01\x08", 1, 17, 5),
    ];
    for (octets, records, number, place) in table {
        assert_eq!(rt; reading(octets), (records, number, place));
    }
}

#[test]
fn each_kind_takes_its_lengths(rt: HostRuntime) {
    let table: [(u8, u8, bool); 20] = [
        (1, 11, false),
        (1, 12, true),
        (1, 13, false),
        (2, 0, false),
        (2, 1, true),
        (2, 200, true),
        (3, 0, true),
        (3, 200, true),
        (4, 0, false),
        (4, 1, true),
        (5, 0, true),
        (6, 1, false),
        (6, 2, true),
        (6, 3, false),
        (7, 1, false),
        (7, 2, true),
        (7, 3, false),
        (8, 0, false),
        (8, 1, true),
        (8, 2, false),
    ];
    for (kind, size, good) in table {
        let expected = if good { (1, 0) } else { (0, 17) };
        assert_eq!(rt; reading_of_one(kind, size), expected);
    }
}

#[test]
fn each_octet_stands_for_its_kind(rt: HostRuntime) -> Result<(), Fail> {
    let table = [
        (1, "block"),
        (2, "host-offer"),
        (3, "to-device"),
        (4, "device-offer"),
        (5, "to-host"),
        (6, "host-ticks"),
        (7, "device-ticks"),
        (8, "button"),
    ];
    for (octet, word) in table {
        let kind = Kind::try_from(octet)?;
        assert_eq!(rt; u8::from(kind), octet);
        let printed = format!(in rt.alloc(); "{kind}")?;
        assert_eq!(rt; printed.as_str(), word);
    }
    let unknown = Kind::try_from(9).err().ok_or("a ninth kind")?;
    let printed = format!(in rt.alloc(); "{unknown}")?;
    assert_eq!(rt; printed.as_str(), "no kind of record has the octet 9");
    Ok(())
}

#[test]
fn the_largest_book_and_one_octet_more(rt: HostRuntime) -> Result<(), Fail> {
    let mut octets = too_large(&rt, rt.alloc())?;
    assert_eq!(rt; reading(&octets), (0, 15, 0));
    octets.truncate(65_535);
    assert_eq!(rt; reading(&octets), (1, 0, 65_535));
    octets.truncate(65_534);
    assert_eq!(rt; reading(&octets), (0, 16, 1));
    Ok(())
}

#[test]
fn a_refusal_names_its_layer(rt: HostRuntime) -> Result<(), Fail> {
    let refusal = Book::open(b"").err().ok_or("opened")?;
    assert_eq!(rt; refusal.reason.layer(), Layer::Book);
    Ok(())
}
