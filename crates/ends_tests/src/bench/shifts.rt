// A whole shift by direct calls, under each kind, with every fault at both ends.
use super::{Bench, INTO_RUN, Row, Step, follow};
use kinds::{C3, S3, S4};
use signature::SignatureKind;
use std::process::Abort;
use std::test::Fail;

const SAFE: &str = "fail-safe";

const PROCESS: &str = "process";

// Repeats do not restart the count of ticks.
const TIME_AT_THE_HOST: [Row; 6] = [
    (Step::HostTicks(60), "quiet"),
    (Step::ToHost, "repeat"),
    (Step::HostOffer([8, 8], 0), "fresh"),
    (Step::HostOffer([9, 9], 0), "repeat"),
    (Step::HostTicks(39), "quiet"),
    (Step::HostTicks(1), "fault"),
];

const TIME_AT_THE_DEVICE: [Row; 5] = [
    (Step::DeviceTicks(60), "quiet"),
    (Step::ToDevice, "repeat"),
    (Step::DeviceOffer([9, 9, 9], 0), "repeat"),
    (Step::DeviceTicks(39), "quiet"),
    (Step::DeviceTicks(1), "fault"),
];

const DEVICE_TELLS: [Row; 3] = [
    (Step::ToDevice, "ignored"),
    (Step::DeviceOffer([3, 4, 5], 0), "waiting"),
    (Step::ToHost, "fault"),
];

const SIGNATURE_AT_THE_HOST: [Row; 5] = [
    (Step::HostOffer([1, 2], 0), "fresh"),
    (Step::ToDevice, "fresh"),
    (Step::DeviceOffer([3, 4, 5], 0), "fresh"),
    (Step::DamagedToHost, "fault"),
    (Step::ToHost, "ignored"),
];

const SIGNATURE_AT_THE_DEVICE: [Row; 2] = [
    (Step::HostOffer([1, 2], 0), "fresh"),
    (Step::DamagedToDevice, "fault"),
];

// The causes that host and device noted, and what each reads.
fn standing<K: SignatureKind>(bench: &Bench<K>) -> (u8, u8, &'static str, &'static str) {
    (
        bench.host.cause().number(),
        bench.device.cause().number(),
        bench.host.reading().name(),
        bench.device.reading().name(),
    )
}

fn shift<K: SignatureKind>(rt: &impl Abort, flag1: u8) -> Result<(), Fail> {
    let mut bench = Bench::<K>::start(flag1)?;
    assert_eq!(rt; standing(&bench), (0, 0, SAFE, SAFE));
    let stages: [(&[Row], (u8, u8, &str, &str)); 10] = [
        (&INTO_RUN, (0, 0, PROCESS, PROCESS)),
        (&TIME_AT_THE_HOST, (2, 0, SAFE, PROCESS)),
        (&INTO_RUN, (2, 0, PROCESS, PROCESS)),
        (&TIME_AT_THE_DEVICE, (2, 2, PROCESS, SAFE)),
        (&DEVICE_TELLS, (3, 2, SAFE, SAFE)),
        (&INTO_RUN, (3, 0, PROCESS, PROCESS)),
        (&SIGNATURE_AT_THE_HOST, (1, 0, SAFE, PROCESS)),
        (&INTO_RUN, (1, 0, PROCESS, PROCESS)),
        (&SIGNATURE_AT_THE_DEVICE, (1, 1, PROCESS, SAFE)),
        (&DEVICE_TELLS, (3, 1, SAFE, SAFE)),
    ];
    for (rows, due) in stages {
        follow(rt, &mut bench, rows);
        assert_eq!(rt; standing(&bench), due);
    }
    Ok(())
}

#[test]
fn a_shift_with_every_fault(rt: HostRuntime) -> Result<(), Fail> {
    shift::<S3>(&rt, 0x08)?;
    shift::<S4>(&rt, 0x28)?;
    shift::<C3>(&rt, 0x08)
}
