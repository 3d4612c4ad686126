// The device end: it takes the host's frames and offers answers to them.
#![tactic(auto)]

ghost use Rattle.std.specs.Prelude.{◌≡◌};
ghost use Rattle.std.specs.Option.{option_map};
ghost use Rattle.signature.specs.Numbers.{numeral};
ghost use Rattle.machine.specs.DeviceEnd.{device_started};
ghost use Rattle.frame.specs.Held.{framed};
ghost use Rattle.device.specs.View.{DeviceEnd};

mod fault;
mod offer;
mod read;
mod take;
mod tick;

use block::{CheckedBlock, Setup};
use frame::Frame;
use machine::{Cause, DevicePhase};
use signature::{Number, SignatureKind};
use std::marker::{Model, PhantomData};

// In run it keeps the answer of its present number once it is composed, and the host frame that it
// took last. It is neither copied nor cloned: a block starts one device.
#[derive(Drop)]
pub struct Device<K: SignatureKind> {
    phase: DevicePhase,
    number: Number,
    toggle: bool,
    ticks: u16,
    kept: Option<Frame>,
    frame: Option<Frame>,
    cause: Cause,
    setup: Setup,
    kind: PhantomData<K>,
}

impl<K: SignatureKind> Model for Device<K> {
    ghost Value = { DeviceEnd };

    ghost view = { λ d. record { setup = d.setup; state = record { phase = d.phase; number = numeral d.number; toggle = d.toggle; ticks = d.ticks; kept = option_map framed d.kept; frame = option_map framed d.frame; cause = d.cause } } };
}

impl<K: SignatureKind> Device<K> {
    // Starts a device from a checked block, which is used up.
    pub fn start(checked: CheckedBlock<K>) -> Device<K>
        ensures { result ≡ record { setup = checked.setup; state = device_started } }
    {
        Device::at_zero(checked.into_setup(), DevicePhase::Waiting)
    }

    // A device that has number 0 and has noted no fault.
    fn at_zero(setup: Setup, phase: DevicePhase) -> Device<K>
        ensures { result ≡ record { setup = setup; state = record device_started { phase = phase } } }
    {
        Device {
            phase,
            number: Number::zero(),
            toggle: false,
            ticks: 0,
            kept: None,
            frame: None,
            cause: Cause::Start,
            setup,
            kind: PhantomData,
        }
    }

    // Phase, number and cause stand at both ends, see the host's.
    pub fn phase(&self) -> DevicePhase
        ensures { result ≡ self.now.state.phase }
    {
        self.phase
    }

    // The number of the frame that was taken last, 0 after a restart.
    pub fn number(&self) -> Number
        ensures { numeral result ≡ self.now.state.number }
    {
        self.number
    }

    // The fault that the device noted last; Start if it noted none since its start or last restart.
    pub fn cause(&self) -> Cause
        ensures { result ≡ self.now.state.cause }
    {
        self.cause
    }

    pub fn setup(&self) -> Setup
        ensures { result ≡ self.now.setup }
    {
        self.setup
    }
}
