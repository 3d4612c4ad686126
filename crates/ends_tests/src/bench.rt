// A bench for the tests: both ends, a button, and the frame that was last on each line.
use block::{CheckedBlock, Own, RawBlock, par_crc};
use device::Device;
use frame::first;
use host::{Button, Host};
use machine::Outcome;
use refusal::Refusal;
use signature::SignatureKind;
use std::process::Abort;

mod edges;
mod pairs;
mod shifts;

// A step of a shift, as data, so that tables hold them. A damaged frame has one bit turned.
#[derive(Clone, Copy)]
enum Step {
    HostOffer([u8; 2], u8),
    ToDevice,
    DamagedToDevice,
    DeviceOffer([u8; 3], u8),
    ToHost,
    DamagedToHost,
    HostTicks(u16),
    DeviceTicks(u16),
    Button(u8),
}

// Two data octets out, three in. The lines are buffers as a caller lends them: longer than a frame, which stands at the
// front.
#[derive(Drop)]
struct Bench<K: SignatureKind> {
    host: Host<K>,
    device: Device<K>,
    button: Button,
    to_device: [u8; 12],
    to_host: [u8; 12],
}

// A step and what it answers.
type Row = (Step, &'static str);

// From a restart of the host to process values at both ends.
const INTO_RUN: [Row; 14] = [
    (Step::HostOffer([1, 2], 0), "fresh"),
    (Step::ToDevice, "restart"),
    (Step::DeviceOffer([3, 4, 5], 0), "fresh"),
    (Step::ToHost, "fresh"),
    (Step::HostOffer([1, 2], 0), "fresh"),
    (Step::ToDevice, "fresh"),
    (Step::DeviceOffer([3, 4, 5], 0), "fresh"),
    (Step::ToHost, "fresh"),
    (Step::Button(0), "quiet"),
    (Step::Button(1), "taken"),
    (Step::HostOffer([1, 2], 0), "fresh"),
    (Step::ToDevice, "fresh"),
    (Step::DeviceOffer([3, 4, 5], 0), "fresh"),
    (Step::ToHost, "fresh"),
];

// The outcome's word, or the number of an end's refusal.
fn said(answer: Result<Outcome, Refusal>) -> &'static str {
    match answer {
        Ok(outcome) => outcome.name(),
        Err(refusal) => match refusal.reason.number() {
            10 => "refused 10",
            11 => "refused 11",
            12 => "refused 12",
            13 => "refused 13",
            14 => "refused 14",
            _ => "refused",
        },
    }
}

// Makes the steps of a table one after another.
fn follow<K: SignatureKind>(rt: &impl Abort, bench: &mut Bench<K>, rows: &[Row]) {
    for (step, word) in rows {
        assert_eq!(rt; bench.make(*step), *word);
    }
}

// A frame with one bit of its first octet turned.
fn damaged(mut octets: [u8; 12], bit: u8) -> [u8; 12] {
    octets[0] ^= bit;
    octets
}

// An end of two data octets out and three in.
fn end(address: u16, rank: u8) -> Own {
    Own {
        address,
        rank,
        out_len: 2,
        in_len: 3,
    }
}

// A good block of watch time 100 under a kind, with the first flag octet that goes with it.
fn checked<K: SignatureKind>(flag1: u8) -> Result<CheckedBlock<K>, Refusal> {
    let [high, low] = par_crc(&[flag1, 0x40, 0, 1, 0, 2, 0, 100]).to_be_bytes();
    let octets = [flag1, 0x40, 0, 1, 0, 2, 0, 100, high, low];
    (RawBlock { octets: &octets }).check::<K>(end(2, 3))
}

impl<K: SignatureKind> Bench<K> {
    fn start(flag1: u8) -> Result<Bench<K>, Refusal> {
        Ok(Bench {
            host: Host::start(checked::<K>(flag1)?),
            device: Device::start(checked::<K>(flag1)?),
            button: Button::new(),
            to_device: [0; 12],
            to_host: [0; 12],
        })
    }

    fn pressed(&mut self, reading: u8) -> Result<Outcome, Refusal> {
        let press = self.button.read(reading)?;
        self.host.press(press)
    }

    fn make(&mut self, step: Step) -> &'static str {
        said(match step {
            Step::HostOffer(values, wish) => self.host.offer(&values, wish, &mut self.to_device),
            Step::ToDevice => self.device.take(first(&self.to_device, 3 + K::width())),
            Step::DamagedToDevice => {
                let octets = damaged(self.to_device, 1);
                self.device.take(first(&octets, 3 + K::width()))
            }
            Step::DeviceOffer(values, flags) => {
                self.device.offer(&values, flags, &mut self.to_host)
            }
            Step::ToHost => self.host.take(first(&self.to_host, 4 + K::width())),
            Step::DamagedToHost => {
                let octets = damaged(self.to_host, 128);
                self.host.take(first(&octets, 4 + K::width()))
            }
            Step::HostTicks(ticks) => self.host.tick(ticks),
            Step::DeviceTicks(ticks) => self.device.tick(ticks),
            Step::Button(reading) => self.pressed(reading),
        })
    }
}
