// Offers: how the device composes an answer, keeps it and writes it.
ghost use Rattle.std.specs.Prelude.{◌≡◌, length};
ghost use Rattle.machine.specs.Answers.{written};
ghost use Rattle.machine.specs.DeviceEnd.{cause_bit, device_composed, device_offer_answer, device_offer_next, device_offer_octets, device_safe, device_status};
ghost use Rattle.frame.specs.Held.{framed};

use crate::Device;
use frame::status::{CE_CRC, CONS_NR_R, DEVICE_FAULT, FV_ACTIVATED, TOGGLE_D, WD_TIMEOUT};
use frame::{Frame, Values, flag, has};
use machine::{Cause, DevicePhase, Outcome};
use refusal::{Reason, Refusal};
use signature::SignatureKind;

// The flag of an offer by which the device says that it has a fault.
const HAS_FAULT: u8 = 1;

// The flag of an offer by which the device asks for fail-safe values.
const FAIL_SAFE: u8 = 2;

// The bit by which a waiting device tells the host of the fault that it noted.
fn cause_bit(cause: Cause) -> u8
    ensures { result ≡ cause_bit cause }
{
    match cause {
        Cause::Signature => CE_CRC,
        Cause::Time => WD_TIMEOUT,
        Cause::Start | Cause::Told => 0,
    }
}

impl<K: SignatureKind> Device<K> {
    // In run, whether fail-safe values go out.
    fn safe(&self, flags: u8) -> bool
        ensures { result ≡ device_safe self.now.state flags }
    {
        self.number.is_zero() || has(flags, FAIL_SAFE)
    }

    // The status octet of an offer. While the device waits, it tells of the fault that was noted.
    fn status(&self, flags: u8) -> u8
        ensures { result ≡ device_status self.now.state.phase self.now.state flags }
    {
        let fault = flag(has(flags, HAS_FAULT), DEVICE_FAULT);
        let toggle = flag(self.toggle, TOGGLE_D);
        match self.phase {
            DevicePhase::Waiting => fault | cause_bit(self.cause) | FV_ACTIVATED | toggle,
            DevicePhase::Run => {
                fault
                    | flag(self.safe(flags), FV_ACTIVATED)
                    | toggle
                    | flag(self.number.is_zero(), CONS_NR_R)
            }
        }
    }

    // The frame that an offer composes.
    fn composed(&self, values: Values<'_>, flags: u8) -> Frame
        ensures { framed result ≡ device_composed K.SignatureKind.model self.now.setup self.now.state values.entry.octets.now flags }
    {
        let sent = match self.phase {
            DevicePhase::Run if !self.safe(flags) => Some(values),
            _ => None,
        };
        let signing = self.setup.signing(self.number);
        Frame::offered::<K>(signing, sent, self.setup.in_len, self.status(flags))
    }

    // Writes an answer to the front of a buffer: in run the kept one again, or a new one, which is
    // then kept; while the device waits, one that tells of its fault. The flags are an octet, since any
    // is answered: one above 3 is refused.
    pub fn offer(&mut self, values: &[u8], flags: u8, buffer: &mut [u8]) -> Result<Outcome, Refusal>
        ensures answer { result ≡ device_offer_answer K.SignatureKind.model self.old.setup self.old.state values.now flags (length buffer.old) }
        ensures next { self.new ≡ record self.old { state = device_offer_next K.SignatureKind.model self.old.setup self.old.state values.now flags (length buffer.old) } }
        ensures buffer { buffer.new ≡ written (device_offer_octets K.SignatureKind.model self.old.setup self.old.state values.now flags (length buffer.old)) buffer.old }
    {
        let values = Values::of(values, self.setup.in_len)?;
        if flags > 3 {
            return Err(Refusal::at(Reason::InputRange, 0));
        }
        if let (DevicePhase::Run, Some(kept)) = (self.phase, &self.kept) {
            kept.write(buffer)?;
            return Ok(Outcome::Repeat);
        }
        let frame = self.composed(values, flags);
        frame.write(buffer)?;
        match self.phase {
            DevicePhase::Waiting => Ok(Outcome::Waiting),
            DevicePhase::Run => {
                self.kept = Some(frame);
                Ok(Outcome::Fresh)
            }
        }
    }
}
