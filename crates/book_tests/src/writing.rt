// Books written record by record, and read again.
use book::{Book, Record, Writer};
use refusal::Refusal;
use std::process::Abort;
use std::test::Fail;

// The number and the place of a refusal, or 0 and the size.
fn answer(res: Result<usize, Refusal>) -> (u8, usize) {
    match res {
        Ok(size) => (0, size),
        Err(refusal) => (refusal.reason.number(), refusal.place),
    }
}

#[test]
fn only_the_octets_of_a_record_are_written(rt: HostRuntime) -> Result<(), Fail> {
    let mut out = [9u8; 10];
    let mut writer = Writer::begin(&mut out)?;
    assert_eq!(rt;
        answer(writer.put(&mut out, Record::HostTicks(&[0, 100]))),
        (0, 6)
    );
    assert_eq!(rt; &out, &[1, 0, 3, 6, 0, 100, 9, 9, 9, 9]);
    assert_eq!(rt; answer(writer.put(&mut out, Record::ToHost(&[]))), (0, 9));
    assert_eq!(rt; &out, &[1, 0, 3, 6, 0, 100, 0, 1, 5, 9]);
    Ok(())
}

#[test]
fn a_refusal_writes_nothing(rt: HostRuntime) -> Result<(), Fail> {
    let mut out = [9u8; 8];
    let mut writer = Writer::begin(&mut out)?;
    assert_eq!(rt; answer(writer.put(&mut out, Record::Button(&[]))), (17, 1));
    assert_eq!(rt;
        answer(writer.put(&mut out, Record::HostOffer(&[0]))),
        (0, 5)
    );
    assert_eq!(rt; answer(writer.put(&mut out, Record::Button(&[0]))), (13, 0));
    assert_eq!(rt;
        answer(writer.put(&mut out, Record::Button(&[0, 0]))),
        (17, 5)
    );
    assert_eq!(rt; writer.size(), 5);
    assert_eq!(rt; &out, &[1, 0, 2, 2, 0, 9, 9, 9]);
    let mut none = [0u8; 0];
    let refusal = Writer::begin(&mut none).err().ok_or("begun in no buffer")?;
    assert_eq!(rt; (refusal.reason.number(), refusal.place), (13, 0));
    Ok(())
}

fn grow_to_the_limit(rt: &impl Abort, out: &mut [u8], body: &[u8]) -> Result<(), Fail> {
    assert!(rt; body.len() == 65_532);
    let mut writer = Writer::begin(out)?;
    assert_eq!(rt; answer(writer.put(out, Record::ToDevice(body))), (15, 0));
    assert_eq!(rt;
        answer(writer.put(out, Record::ToDevice(&body[0..65_531]))),
        (0, 65_535)
    );
    assert_eq!(rt; answer(writer.put(out, Record::ToHost(&[]))), (15, 0));
    Ok(())
}

#[test]
fn a_book_grows_up_to_its_limit(rt: HostRuntime) -> Result<(), Fail> {
    let mut out = vec![in rt.alloc(); 0u8; 65_600]?;
    let body = vec![in rt.alloc(); 7u8; 65_532]?;
    grow_to_the_limit(&rt, &mut out, &body)
}

fn write_all(rt: &impl Abort, out: &mut [u8], records: &[Record<'_>]) -> Result<usize, Fail> {
    let mut writer = Writer::begin(out)?;
    for record in records {
        assert_eq!(rt; answer(writer.put(out, *record)).0, 0);
    }
    Ok(writer.size())
}

fn read_all(rt: &impl Abort, octets: &[u8], records: &[Record<'_>]) -> Result<(), Fail> {
    let mut book = Book::open(octets)?;
    for record in records {
        let placed = book.next().ok_or("too few records")??;
        assert_eq!(rt; placed.record.kind(), record.kind());
        assert_eq!(rt; placed.record.body(), record.body());
    }
    assert!(rt; book.next().is_none());
    Ok(())
}

#[test]
fn what_was_written_is_read(rt: HostRuntime) -> Result<(), Fail> {
    let records = [
        Record::Block(&[0, 0, 8, 64, 0, 1, 0, 2, 0, 100, 195, 87]),
        Record::HostOffer(&[0, 1, 2]),
        Record::ToDevice(&[]),
        Record::DeviceOffer(&[3]),
        Record::ToHost(&[80, 161, 12, 30]),
        Record::HostTicks(&[255, 255]),
        Record::DeviceTicks(&[0, 1]),
        Record::Button(&[1]),
    ];
    let mut out = [0u8; 64];
    let size = write_all(&rt, &mut out, &records)?;
    let octets = out.get(..size).ok_or("more octets than there is room for")?;
    read_all(&rt, octets, &records)
}
