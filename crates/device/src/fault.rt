// How a device notes a fault, and how it begins anew.
ghost use Rattle.std.specs.Prelude.{◌≡◌};
ghost use Rattle.machine.specs.DeviceEnd.{device_faulted, device_restarted};

use crate::Device;
use machine::{Cause, DevicePhase};
use signature::SignatureKind;

impl<K: SignatureKind> Device<K> {
    // Notes a fault: the device waits, and hands out fail-safe values.
    pub(crate) fn fault(&mut self, cause: Cause)
        ensures { self.new ≡ record self.old { state = device_faulted self.old.state cause } }
    {
        self.phase = DevicePhase::Waiting;
        self.kept = None;
        self.frame = None;
        self.cause = cause;
    }

    // Begins anew with number 0.
    pub(crate) fn restart(&mut self)
        ensures { self.new ≡ record self.old { state = device_restarted } }
    {
        *self = Device::at_zero(self.setup, DevicePhase::Run);
    }
}
