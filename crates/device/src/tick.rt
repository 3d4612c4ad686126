// Ticks: the device's watch time.
ghost use Rattle.std.specs.Prelude.{◌≡◌};
ghost use Rattle.machine.specs.DeviceEnd.{device_ticks_answer, device_ticks_next};

use crate::Device;
use machine::{Cause, DevicePhase, Outcome, counted};
use refusal::Refusal;
use signature::SignatureKind;

impl<K: SignatureKind> Device<K> {
    // The host's ticks are much the same, but what a fault does to an end is not.
    // Ticks count in run; when they reach the watch time, that is a fault. Nothing is refused.
    pub fn tick(&mut self, ticks: u16) -> Result<Outcome, Refusal>
        ensures answer { result ≡ device_ticks_answer self.old.setup self.old.state ticks }
        ensures next { self.new ≡ record self.old { state = device_ticks_next self.old.setup self.old.state ticks } }
    {
        match self.phase {
            DevicePhase::Waiting => Ok(Outcome::Quiet),
            DevicePhase::Run => {
                let Some(sum) = counted(self.setup, self.ticks, ticks) else {
                    self.fault(Cause::Time);
                    return Ok(Outcome::Fault);
                };
                self.ticks = sum;
                Ok(Outcome::Quiet)
            }
        }
    }
}
