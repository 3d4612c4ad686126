// Frames handed in: how the device judges them, and what it does with them.
ghost use Rattle.std.specs.Prelude.{◌≡◌};
ghost use Rattle.signature.specs.Numbers.{numeral};
ghost use Rattle.machine.specs.DeviceEnd.{asks_restart, device_held_against, device_judged, device_take_answer, device_take_next, turns_toggle};

use crate::Device;
use frame::control::{R_CONS_NR, TOGGLE_H};
use frame::{Frame, check_length, has, octet_at};
use machine::{Cause, DeviceJudged, DevicePhase, Outcome};
use refusal::Refusal;
use signature::{Number, SignatureKind};

impl<K: SignatureKind> Device<K> {
    fn asks_restart(&self, frame: &[u8]) -> bool
        ensures { result ≡ asks_restart self.now.setup frame.now }
    {
        has(octet_at(frame, usize::from(self.setup.out_len)), R_CONS_NR)
    }

    fn turns_toggle(&self, frame: &[u8]) -> bool
        ensures { result ≡ turns_toggle self.now.setup self.now.state frame.now }
    {
        has(octet_at(frame, usize::from(self.setup.out_len)), TOGGLE_H) != self.toggle
    }

    // The number that a frame is held against: 0 if it asks for a restart, the next one if its
    // toggle has turned, else the present one.
    fn held_against(&self, frame: &[u8]) -> Number
        ensures { numeral result ≡ device_held_against self.now.setup self.now.state frame.now }
    {
        if self.asks_restart(frame) {
            Number::zero()
        } else if self.turns_toggle(frame) {
            self.number.next()
        } else {
            self.number
        }
    }

    // What a frame is to the device.
    fn judge(&self, frame: &[u8]) -> DeviceJudged
        ensures { result ≡ device_judged K.SignatureKind.model self.now.setup self.now.state frame.now }
    {
        if !self
            .setup
            .signing(self.held_against(frame))
            .fits::<K>(frame)
        {
            DeviceJudged::Unfit
        } else if self.asks_restart(frame) {
            DeviceJudged::Zero
        } else if self.turns_toggle(frame) {
            DeviceJudged::Next
        } else {
            DeviceJudged::Same
        }
    }

    // A frame handed in, if it is as long as a host frame. A new one is taken.
    pub fn take(&mut self, frame: &[u8]) -> Result<Outcome, Refusal>
        ensures answer { result ≡ device_take_answer K.SignatureKind.model self.old.setup self.old.state frame.now }
        ensures next { self.new ≡ record self.old { state = device_take_next K.SignatureKind.model self.old.setup self.old.state frame.now } }
    {
        check_length::<K>(frame, self.setup.out_len)?;
        match (self.phase, self.judge(frame)) {
            (DevicePhase::Waiting, DeviceJudged::Zero) => {
                self.restart();
                Ok(Outcome::Restart)
            }
            (DevicePhase::Waiting, _) => Ok(Outcome::Ignored),
            (DevicePhase::Run, DeviceJudged::Unfit) => {
                self.fault(Cause::Signature);
                Ok(Outcome::Fault)
            }
            (DevicePhase::Run, DeviceJudged::Zero) => {
                if self.number.is_zero() {
                    return Ok(Outcome::Repeat);
                }
                self.restart();
                Ok(Outcome::Restart)
            }
            (DevicePhase::Run, DeviceJudged::Next) => {
                self.number = self.number.next();
                self.toggle = !self.toggle;
                self.ticks = 0;
                self.kept = None;
                self.frame = Some(Frame::of(frame));
                Ok(Outcome::Fresh)
            }
            (DevicePhase::Run, DeviceJudged::Same) => Ok(Outcome::Repeat),
        }
    }
}
