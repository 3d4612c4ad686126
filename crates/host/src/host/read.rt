// What a host shows of itself, and the readings that it hands out. The device shows the same of its own: a trait for
// both would have a type of phases, a type of states and a law for each method, for three methods of a line.
ghost use Rattle.std.specs.Prelude.{◌≡◌, length};
ghost use Rattle.std.specs.Option.{option_copied};
ghost use Rattle.signature.specs.Numbers.{numeral};
ghost use Rattle.machine.specs.Answers.{read_says, written};
ghost use Rattle.machine.specs.HostEnd.{host_read_answer, host_read_octets, host_values};
ghost use Rattle.frame.specs.Held.{data_in};

use super::Host;
use frame::{Frame, hand_out, has, read_as, status};
use machine::{Cause, HostPhase, Outcome};
use refusal::Refusal;
use signature::{Number, SignatureKind};

impl<K: SignatureKind> Host<K> {
    pub fn phase(&self) -> HostPhase
        ensures { result ≡ self.now.state.phase }
    {
        self.phase
    }

    pub fn number(&self) -> Number
        ensures { numeral result ≡ self.now.state.number }
    {
        self.number
    }

    // Why the host last restarted.
    pub fn cause(&self) -> Cause
        ensures { result ≡ self.now.state.cause }
    {
        self.cause
    }

    // What a reading would answer.
    pub fn reading(&self) -> Outcome
        ensures { result ≡ read_says (host_values self.now.setup self.now.state) }
    {
        read_as(self.usable())
    }

    // Writes the process values, or zeros if there are none to hand out.
    pub fn read(&self, buffer: &mut [u8]) -> Result<Outcome, Refusal>
        ensures answer { result ≡ host_read_answer self.now.setup self.now.state (length buffer.old) }
        ensures buffer { buffer.new ≡ written (host_read_octets self.now.setup self.now.state (length buffer.old)) buffer.old }
    {
        hand_out(self.usable(), self.setup.in_len, buffer)
    }

    // The answer, if its data may be handed out as process values.
    fn usable(&self) -> Option<&Frame>
        ensures { data_in self.now.setup.in_len (option_copied result) ≡ host_values self.now.setup self.now.state }
    {
        let answer = self.answer.as_ref()?;
        let status = answer.octet(usize::from(self.setup.in_len));
        let usable = matches!(self.phase, HostPhase::Run)
            && !self.stop
            && !has(status, status::FV_ACTIVATED)
            && !has(status, status::DEVICE_FAULT);
        usable.then_some(answer)
    }
}
