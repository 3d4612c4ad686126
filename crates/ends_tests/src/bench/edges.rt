// Refused calls at their edges, which change nothing; kept frames; blocks; numbers.
use super::{Bench, INTO_RUN, Row, Step, end, follow, said};
use block::RawBlock;
use frame::first;
use kinds::S3;
use machine::Outcome;
use refusal::Refusal;
use signature::{Number, SignatureKind, TooLarge};
use std::process::Abort;
use std::test::Fail;

// Values offered, the wish, the room in the buffer, and the refusal. A host frame has six octets.
const HOST_OFFERS: [(usize, u8, usize, &str); 7] = [
    (1, 0, 12, "refused 11"),
    (3, 0, 12, "refused 11"),
    (1, 2, 5, "refused 11"),
    (2, 2, 12, "refused 12"),
    (2, 255, 5, "refused 12"),
    (2, 0, 5, "refused 13"),
    (2, 1, 0, "refused 13"),
];

// The same with flags. A device frame has seven octets.
const DEVICE_OFFERS: [(usize, u8, usize, &str); 7] = [
    (2, 0, 12, "refused 11"),
    (4, 0, 12, "refused 11"),
    (2, 4, 6, "refused 11"),
    (3, 4, 12, "refused 12"),
    (3, 255, 6, "refused 12"),
    (3, 0, 6, "refused 13"),
    (3, 3, 0, "refused 13"),
];

// Offers at one end, each into a buffer of its own.
fn refused_offers<F>(rt: &impl Abort, offers: &[(usize, u8, usize, &str)], mut offer: F)
where
    F: FnMut(&[u8], u8, &mut [u8]) -> Result<Outcome, Refusal>,
    requires { F.IsAlwaysCallable offer }
{
    for (count, wish, room, word) in offers {
        let mut buffer = [7u8; 12];
        assert!(rt; *room <= 12);
        let answer = offer(first(&[9, 9, 9, 9], *count), *wish, &mut buffer[0..*room]);
        assert_eq!(rt; said(answer), *word);
        assert_eq!(rt; buffer, [7u8; 12]);
    }
}

// Frames to one end, of lengths that it does not take.
fn refused_frames<F>(rt: &impl Abort, octet: u8, sizes: [usize; 3], mut take: F)
where
    F: FnMut(&[u8]) -> Result<Outcome, Refusal>,
    requires { F.IsAlwaysCallable take }
{
    for size in sizes {
        assert_eq!(rt; said(take(first(&[octet; 12], size))), "refused 10");
    }
}

// Readings into buffers that are one octet too short.
fn refused_readings(rt: &impl Abort, bench: &Bench<S3>) {
    let mut small = [7u8; 2];
    let host = bench.host.read(&mut small);
    assert_eq!(rt; said(host), "refused 13");
    assert_eq!(rt; small, [7u8; 2]);
    let mut tiny = [7u8; 1];
    let device = bench.device.read(&mut tiny);
    assert_eq!(rt; said(device), "refused 13");
    assert_eq!(rt; tiny, [7u8; 1]);
}

// A round up to the answer, which both ends then keep.
const COMPOSED: [Row; 3] = [
    (Step::HostOffer([1, 2], 0), "fresh"),
    (Step::ToDevice, "fresh"),
    (Step::DeviceOffer([3, 4, 5], 0), "fresh"),
];

const REPEATED: [Row; 2] = [
    (Step::HostOffer([9, 9], 1), "repeat"),
    (Step::DeviceOffer([9, 9, 9], 3), "repeat"),
];

// Refused calls on a bench; then it goes on, and so does its twin, on which none were made.
fn in_step(rt: &impl Abort, bench: &mut Bench<S3>, twin: &mut Bench<S3>, rows: &[Row]) {
    refused_offers(rt, &HOST_OFFERS, |values, wish, buffer| {
        bench.host.offer(values, wish, buffer)
    });
    refused_offers(rt, &DEVICE_OFFERS, |values, flags, buffer| {
        bench.device.offer(values, flags, buffer)
    });
    refused_frames(rt, 0x14, [0, 5, 7], |frame| bench.device.take(frame));
    refused_frames(rt, 0x50, [0, 6, 8], |frame| bench.host.take(frame));
    refused_readings(rt, bench);
    follow(rt, bench, rows);
    follow(rt, twin, rows);
    assert_eq!(rt; bench.to_device, twin.to_device);
    assert_eq!(rt; bench.to_host, twin.to_host);
}

#[test]
fn refused_calls_change_nothing(rt: HostRuntime) -> Result<(), Fail> {
    let mut bench = Bench::<S3>::start(0x08)?;
    let mut twin = Bench::<S3>::start(0x08)?;
    in_step(&rt, &mut bench, &mut twin, &INTO_RUN);
    in_step(&rt, &mut bench, &mut twin, &COMPOSED);
    in_step(&rt, &mut bench, &mut twin, &REPEATED);
    Ok(())
}

fn lines_begin(rt: &impl Abort, bench: &Bench<S3>, out: &[u8], back: &[u8]) {
    assert_eq!(rt; first(&bench.to_device, out.len()), out);
    assert_eq!(rt; first(&bench.to_host, back.len()), back);
}

#[test]
fn a_repeat_is_the_kept_frame(rt: HostRuntime) -> Result<(), Fail> {
    let mut bench = Bench::<S3>::start(0x08)?;
    follow(&rt, &mut bench, &INTO_RUN);
    follow(&rt, &mut bench, &COMPOSED);
    lines_begin(&rt, &bench, &[1, 2, 0x20], &[3, 4, 5, 0x20]);
    let out = bench.to_device;
    let back = bench.to_host;
    bench.to_device = [0; 12];
    bench.to_host = [0; 12];
    follow(&rt, &mut bench, &REPEATED);
    assert_eq!(rt; bench.to_device, out);
    assert_eq!(rt; bench.to_host, back);
    Ok(())
}

// Without a release there is no press; one in restart, one before an answer is taken and one without the stop mark are
// refused, and each is used up.
#[test]
fn presses(rt: HostRuntime) -> Result<(), Fail> {
    let mut bench = Bench::<S3>::start(0x08)?;
    follow(
        &rt,
        &mut bench,
        &[
            (Step::Button(1), "quiet"),
            (Step::Button(0), "quiet"),
            (Step::Button(2), "refused 12"),
            (Step::Button(1), "refused 14"),
            (Step::Button(1), "quiet"),
            (Step::HostOffer([1, 2], 0), "fresh"),
            (Step::ToDevice, "restart"),
            (Step::DeviceOffer([3, 4, 5], 0), "fresh"),
            (Step::ToHost, "fresh"),
            (Step::Button(0), "quiet"),
            (Step::Button(1), "refused 14"),
            (Step::HostOffer([1, 2], 0), "fresh"),
            (Step::ToDevice, "fresh"),
            (Step::DeviceOffer([3, 4, 5], 0), "fresh"),
            (Step::ToHost, "fresh"),
            (Step::Button(0), "quiet"),
            (Step::Button(1), "taken"),
            (Step::Button(0), "quiet"),
            (Step::Button(1), "refused 14"),
        ],
    );
    Ok(())
}

// Process values and fail-safe values, at the front of the buffer.
#[test]
fn readings(rt: HostRuntime) -> Result<(), Fail> {
    let mut bench = Bench::<S3>::start(0x08)?;
    let mut buffer = [7u8; 5];
    assert_eq!(rt; said(bench.host.read(&mut buffer)), "fail-safe");
    assert_eq!(rt; &buffer, &[0, 0, 0, 7, 7]);
    follow(&rt, &mut bench, &INTO_RUN);
    assert_eq!(rt; said(bench.host.read(&mut buffer)), "process");
    assert_eq!(rt; &buffer, &[3, 4, 5, 7, 7]);
    assert_eq!(rt; said(bench.device.read(&mut buffer)), "process");
    assert_eq!(rt; &buffer, &[1, 2, 5, 7, 7]);
    assert_eq!(rt; said(bench.device.tick(100)), "fault");
    assert_eq!(rt; said(bench.device.read(&mut buffer)), "fail-safe");
    assert_eq!(rt; &buffer, &[0, 0, 5, 7, 7]);
    Ok(())
}

// Refusals of a block that no book can show: number and place.
#[test]
fn blocks_of_other_ends(rt: HostRuntime) {
    let whole = [
        0x08, 0x40, 0x00, 0x01, 0x00, 0x02, 0x00, 0x64, 0xc3, 0x57, 0x00,
    ];
    let table = [
        (9, 2, 3, (1, 0)),
        (11, 2, 3, (1, 0)),
        (10, 3, 3, (6, 4)),
        (10, 2, 2, (8, 0)),
    ];
    for (size, address, rank, due) in &table {
        let octets = first(&whole, *size);
        let checked = (RawBlock { octets }).check::<S3>(end(*address, *rank));
        let refused = checked
            .err()
            .map(|refusal| (refusal.reason.number(), refusal.place));
        assert_eq!(rt; refused, Some(*due));
    }
}

#[test]
fn numbers_go_round_to_one(rt: HostRuntime) -> Result<(), Fail> {
    for (number, next) in [(0, 1), (1, 2), (0xfffffe, 0xffffff), (0xffffff, 1)] {
        let before = Number::try_from(number)?;
        assert_eq!(rt; u32::from(before.next()), next);
    }
    assert_eq!(rt; Number::try_from(0x1000000), Err(TooLarge(0x1000000)));
    Ok(())
}
