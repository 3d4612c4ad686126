// What is to be seen of a pair from outside.
ghost use Rattle.std.specs.Prelude.{◌≡◌, Some};
ghost use Rattle.pair.specs.Seeing.{device_phase_letter, host_phase_letter, reading_letter, saw, seen_at};
ghost use Rattle.pair.specs.Views.{ends};

use super::Pair;
use machine::{DevicePhase, HostPhase, Outcome};
use signature::SignatureKind;
use std::fmt;

// Phase and number of each end, and what a reading of each would answer.
#[derive(Clone, Copy)]
pub struct Seen {
    pub host_phase: HostPhase,
    pub host_number: u32,
    pub device_phase: DevicePhase,
    pub device_number: u32,
    pub host_reads: Outcome,
    pub device_reads: Outcome,
}

impl<H: SignatureKind, D: SignatureKind> Pair<H, D> {
    pub fn seen(&self) -> Seen
        ensures { result ≡ seen_at self.now.host.setup self.now.device.setup (ends self.now).host (ends self.now).device }
    {
        Seen {
            host_phase: self.host.phase(),
            host_number: u32::from(self.host.number()),
            device_phase: self.device.phase(),
            device_number: u32::from(self.device.number()),
            host_reads: self.host.reading(),
            device_reads: self.device.reading(),
        }
    }
}

fn host_phase_letter(phase: HostPhase) -> &'static str
    ensures { result.now ≡ host_phase_letter phase }
{
    match phase {
        HostPhase::Restart => "R",
        HostPhase::Run => "N",
    }
}

fn device_phase_letter(phase: DevicePhase) -> &'static str
    ensures { result.now ≡ device_phase_letter phase }
{
    match phase {
        DevicePhase::Waiting => "W",
        DevicePhase::Run => "N",
    }
}

// P for process values, F for everything else.
fn reading_letter(outcome: Outcome) -> &'static str
    ensures { result.now ≡ reading_letter outcome }
{
    match outcome {
        Outcome::Process => "P",
        _ => "F",
    }
}

// As a line prints it: "R0 W0 FF" of a blank pair.
impl fmt::Display for Seen {
    ghost output = { λ x. Some (saw x) };

    fn fmt<W: fmt::Write>(&self, f: &mut fmt::Formatter<W>) -> fmt::Result {
        write!(
            f,
            "{}{} {}{} {}{}",
            host_phase_letter(self.host_phase),
            self.host_number,
            device_phase_letter(self.device_phase),
            self.device_number,
            reading_letter(self.host_reads),
            reading_letter(self.device_reads)
        )
    }
}
