// The phases of the two ends, and why an end last restarted.
ghost use Rattle.std.specs.Prelude.{◌≡◌};
ghost use Rattle.machine.specs.Words.{cause_number};

// A type for each end, since what the host does in restart is not what the device does while it waits.
#[derive(Clone, Copy, Debug, PartialEq)]
pub enum HostPhase {
    Restart,
    Run,
}

#[derive(Clone, Copy, Debug, PartialEq)]
pub enum DevicePhase {
    Waiting,
    Run,
}

// Told is the host's alone: the device has said that it noted a fault.
#[derive(Clone, Copy, Debug, PartialEq)]
pub enum Cause {
    Start = 0,
    Signature = 1,
    Time = 2,
    Told = 3,
}

impl Cause {
    pub fn number(self) -> u8
        ensures { result ≡ cause_number self }
    {
        self as u8
    }
}
