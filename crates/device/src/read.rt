// Readings: what the device hands out to the process.
ghost use Rattle.std.specs.Prelude.{◌≡◌, length};
ghost use Rattle.std.specs.Option.{option_copied};
ghost use Rattle.machine.specs.Answers.{read_says, written};
ghost use Rattle.machine.specs.DeviceEnd.{device_read_answer, device_read_octets, device_values};
ghost use Rattle.frame.specs.Held.{data_in};

use crate::Device;
use frame::control::ACTIVATE_FV;
use frame::{Frame, hand_out, has, read_as};
use machine::{DevicePhase, Outcome};
use refusal::Refusal;
use signature::SignatureKind;

impl<K: SignatureKind> Device<K> {
    // The taken frame, if its data may be handed out as process values.
    fn usable(&self) -> Option<&Frame>
        ensures { data_in self.now.setup.out_len (option_copied result) ≡ device_values self.now.setup self.now.state }
    {
        let frame = self.frame.as_ref()?;
        let control = frame.octet(usize::from(self.setup.out_len));
        let usable = matches!(self.phase, DevicePhase::Run) && !has(control, ACTIVATE_FV);
        usable.then_some(frame)
    }

    // What a reading would answer: process or fail-safe values.
    pub fn reading(&self) -> Outcome
        ensures { result ≡ read_says (device_values self.now.setup self.now.state) }
    {
        read_as(self.usable())
    }

    // Writes the process values to the front of a buffer, or zeros where there are none to use.
    pub fn read(&self, buffer: &mut [u8]) -> Result<Outcome, Refusal>
        ensures answer { result ≡ device_read_answer self.now.setup self.now.state (length buffer.old) }
        ensures buffer { buffer.new ≡ written (device_read_octets self.now.setup self.now.state (length buffer.old)) buffer.old }
    {
        hand_out(self.usable(), self.setup.out_len, buffer)
    }
}
