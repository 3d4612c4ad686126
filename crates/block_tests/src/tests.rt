// Blocks at the limits of each field: which are accepted, and which refusal the others get.
use block::{Own, RawBlock, Setup, par_crc};
use kinds::{C3, S3, S4};
use signature::SignatureKind;
use std::process::Abort;
use std::test::Fail;

// The number and the octet place of a refusal; none if the block is accepted.
type Refused = Option<(u8, usize)>;

// The first eight octets of a good block, and the whole.
const FIRST: [u8; 8] = [0x08, 0x40, 0x00, 0x01, 0x00, 0x02, 0x00, 0x64];

const WHOLE: [u8; 10] = [0x08, 0x40, 0x00, 0x01, 0x00, 0x02, 0x00, 0x64, 0xc3, 0x57];

// An end of this address, SIL rank and data octets.
fn end(address: u16, rank: u8, out_len: usize, in_len: usize) -> Own {
    Own {
        address,
        rank,
        out_len,
        in_len,
    }
}

fn refusal_of<K: SignatureKind>(octets: &[u8], own: Own) -> Refused {
    let refusal = (RawBlock { octets }).check::<K>(own).err()?;
    Some((refusal.reason.number(), refusal.place))
}

// Checks a block of the eight octets and the check value that belongs to them.
fn sealed<K: SignatureKind>(first: [u8; 8], own: Own) -> Refused {
    let [high, low] = par_crc(&first).to_be_bytes();
    let [a, b, c, d, e, f, g, h] = first;
    refusal_of::<K>(&[a, b, c, d, e, f, g, h, high, low], own)
}

#[test]
fn flags(rt: HostRuntime) {
    let cases = [
        (0x08, 0x40, None),
        (0x09, 0x40, None),
        (0x0a, 0x40, Some((3, 0))),
        (0x48, 0x40, Some((3, 0))),
        (0x88, 0x40, Some((3, 0))),
        (0x08, 0x41, Some((3, 1))),
        (0x08, 0x42, Some((3, 1))),
        (0x08, 0x44, Some((3, 1))),
        (0x08, 0x48, Some((3, 1))),
        (0x08, 0x50, Some((3, 1))),
        (0x08, 0x60, Some((3, 1))),
        (0x08, 0x00, Some((3, 1))),
        (0x08, 0x80, Some((3, 1))),
        (0x08, 0xc0, Some((3, 1))),
        (0x0a, 0x00, Some((3, 0))),
    ];
    for (flag1, flag2, refused) in &cases {
        let first = [*flag1, *flag2, 0, 1, 0, 2, 0, 100];
        assert_eq!(rt; sealed::<S3>(first, end(2, 3, 0, 0)), *refused);
    }
}

#[test]
fn addresses_and_watch_time(rt: HostRuntime) {
    let cases = [
        (0x0000, 2, 2, 100, Some((4, 2))),
        (0xffff, 2, 2, 100, Some((4, 2))),
        (0xfffe, 2, 2, 100, None),
        (1, 0x0000, 0x0000, 100, Some((5, 4))),
        (1, 0xffff, 0xffff, 100, Some((5, 4))),
        (1, 0xfffe, 0xfffe, 100, None),
        (1, 2, 3, 100, Some((6, 4))),
        (1, 2, 0x0102, 100, Some((6, 4))),
        (1, 2, 2, 0, Some((7, 6))),
        (1, 2, 2, 1, None),
        (1, 2, 2, 0xffff, None),
    ];
    for (source, destination, own, watch, refused) in &cases {
        let [a, b] = u16::to_be_bytes(*source);
        let [c, d] = u16::to_be_bytes(*destination);
        let [e, f] = u16::to_be_bytes(*watch);
        let first = [0x08, 0x40, a, b, c, d, e, f];
        assert_eq!(rt; sealed::<S3>(first, end(*own, 3, 0, 0)), *refused);
    }
}

#[test]
fn ranks(rt: HostRuntime) {
    let cases = [
        (0x00, 0, Some((8, 0))),
        (0x00, 1, None),
        (0x04, 1, Some((8, 0))),
        (0x04, 2, None),
        (0x08, 2, Some((8, 0))),
        (0x08, 255, None),
        (0x0c, 0, None),
    ];
    for (flag1, own, refused) in &cases {
        let first = [*flag1, 0x40, 0, 1, 0, 2, 0, 100];
        assert_eq!(rt; sealed::<S3>(first, end(2, *own, 0, 0)), *refused);
    }
}

// Under one kind: the flag octet, the lengths and the refusal.
fn widths<K: SignatureKind>(rt: &impl Abort, cases: &[(u8, (usize, usize), Refused)]) {
    for (flag1, (out_len, in_len), refused) in cases {
        let first = [*flag1, 0x40, 0, 1, 0, 2, 0, 100];
        assert_eq!(rt; sealed::<K>(first, end(2, 3, *out_len, *in_len)), *refused);
    }
}

#[test]
fn widths_and_limits(rt: HostRuntime) {
    widths::<S3>(
        &rt,
        &[
            (0x18, (0, 0), Some((9, 0))),
            (0x28, (0, 0), Some((9, 0))),
            (0x38, (0, 0), Some((9, 0))),
            (0x08, (12, 12), None),
            (0x08, (13, 0), Some((9, 0))),
            (0x08, (0, 13), Some((9, 0))),
            (0x08, (256, 0), Some((9, 0))),
            (0x08, (0, usize::MAX), Some((9, 0))),
        ],
    );
    widths::<C3>(
        &rt,
        &[(0x08, (12, 12), None), (0x08, (12, 13), Some((9, 0)))],
    );
    widths::<S4>(
        &rt,
        &[
            (0x28, (123, 123), None),
            (0x28, (124, 0), Some((9, 0))),
            (0x28, (0, 124), Some((9, 0))),
            (0x08, (0, 0), Some((9, 0))),
        ],
    );
}

// Each block has the fault of its line and the later ones.
#[test]
fn lower_number_first(rt: HostRuntime) {
    assert_eq!(rt; refusal_of::<S3>(&[], end(2, 2, 13, 13)), Some((1, 0)));
    assert_eq!(rt;
        refusal_of::<S3>(&[0x5a; 9], end(2, 2, 13, 13)),
        Some((1, 0))
    );
    assert_eq!(rt;
        refusal_of::<S3>(&[0x5a; 11], end(2, 2, 13, 13)),
        Some((1, 0))
    );
    assert_eq!(rt;
        refusal_of::<S3>(&[0x5a; 10], end(2, 2, 13, 13)),
        Some((2, 8))
    );
    let cases = [
        ([0x5a, 0x00, 0, 0, 0, 0, 0, 0], 2, (3, 0)),
        ([0x18, 0x00, 0, 0, 0, 0, 0, 0], 2, (3, 1)),
        ([0x18, 0x40, 0, 0, 0, 0, 0, 0], 2, (4, 2)),
        ([0x18, 0x40, 0, 1, 0, 0, 0, 0], 2, (5, 4)),
        ([0x18, 0x40, 0, 1, 0, 3, 0, 0], 2, (6, 4)),
        ([0x18, 0x40, 0, 1, 0, 2, 0, 0], 2, (7, 6)),
        ([0x18, 0x40, 0, 1, 0, 2, 0, 1], 2, (8, 0)),
        ([0x18, 0x40, 0, 1, 0, 2, 0, 1], 3, (9, 0)),
    ];
    for (first, own, refused) in &cases {
        assert_eq!(rt; sealed::<S3>(*first, end(2, *own, 13, 13)), Some(*refused));
    }
}

#[test]
fn check_values(rt: HostRuntime) {
    assert_eq!(rt; par_crc(&FIRST), 0xc357);
    assert_eq!(rt; par_crc(&[]), 0);
    assert_eq!(rt; refusal_of::<S3>(&WHOLE, end(2, 3, 0, 0)), None);
    let mut wrong = WHOLE;
    wrong[9] = 0x56;
    assert_eq!(rt; refusal_of::<S3>(&wrong, end(2, 3, 0, 0)), Some((2, 8)));
    let zero = [0x08, 0x40, 0x00, 0x01, 0x00, 0x02, 0xde, 0x03, 0x00, 0x00];
    assert_eq!(rt; refusal_of::<S3>(&zero, end(2, 3, 0, 0)), None);
}

#[test]
fn accepted_setup(rt: HostRuntime) -> Result<(), Fail> {
    let block = (RawBlock { octets: &WHOLE }).check::<S3>(end(2, 3, 12, 5))?;
    let due = Setup {
        crc: 0xc357,
        watch: 100,
        out_len: 12,
        in_len: 5,
    };
    assert_eq!(rt; block.into_setup(), due);
    Ok(())
}
