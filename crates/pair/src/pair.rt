// A host end, a device end and the operator's button.
ghost use Rattle.std.specs.Prelude.{◌≡◌, true, false, List, length, is_some, if◌then◌else◌};
ghost use Rattle.machine.specs.Answers.{unless};
ghost use Rattle.machine.specs.Button.{button_answer, button_next, button_refused, yields_press};
ghost use Rattle.machine.specs.HostEnd.{host_press_answer, host_press_next};
ghost use Rattle.machine.specs.Lines.{Entry};
ghost use Rattle.pair.specs.Callings.{at_end, call_of, hand_after};
ghost use Rattle.pair.specs.Made.{Made};
ghost use Rattle.pair.specs.Views.{blank_ends, ends};

use crate::call::Call;
use block::CheckedBlock;
use device::Device;
use host::{Button, Host, Press};
use machine::Outcome;
use refusal::Refusal;
use signature::SignatureKind;

// The press is what the button yielded and has not been handed over yet.
#[derive(Drop)]
pub struct Pair<H: SignatureKind, D: SignatureKind> {
    host: Host<H>,
    device: Device<D>,
    button: Button,
    press: Option<Press>,
}

mod seen;

pub use seen::Seen;

impl<H: SignatureKind, D: SignatureKind> Pair<H, D> {
    // Starts both ends from their checked blocks, which are used up, and a new button.
    pub fn start(host: CheckedBlock<H>, device: CheckedBlock<D>) -> Pair<H, D>
        ensures blank { ends result ≡ blank_ends }
        ensures host { result.host.setup ≡ host.setup }
        ensures device { result.device.setup ≡ device.setup }
    {
        Pair {
            host: Host::start(host),
            device: Device::start(device),
            button: Button::new(),
            press: None,
        }
    }

    // Reads the button; a press that it yields waits to be handed over.
    fn read_button(&mut self, reading: u8) -> Result<Outcome, Refusal>
        ensures answer { result ≡ button_answer reading }
        ensures held { self.new.button ≡ button_next self.old.button reading }
        ensures hand { is_some self.new.press ≡ unless (button_refused reading) (is_some self.old.press) (if yields_press self.old.button reading then true else is_some self.old.press) }
        ensures host { self.new.host ≡ self.old.host }
        ensures device { self.new.device ≡ self.old.device }
    {
        if let Some(press) = self.button.read(reading)? {
            self.press = Some(press);
        }
        Ok(Outcome::Quiet)
    }

    // Hands the host the press that waits, or tells it that there is none.
    fn hand_press(&mut self) -> Result<Outcome, Refusal>
        ensures answer { result ≡ host_press_answer self.old.host.state (is_some self.old.press) }
        ensures next { self.new.host ≡ record self.old.host { state = host_press_next self.old.host.state (is_some self.old.press) } }
        ensures hand { is_some self.new.press ≡ false }
        ensures button { self.new.button ≡ self.old.button }
        ensures device { self.new.device ≡ self.old.device }
    {
        let press = self.press.take();
        self.host.press(press)
    }

    // Makes one call.
    pub fn call(&mut self, call: Call<'_>, buffer: &mut [u8]) -> Result<Outcome, Refusal>
        ensures made { (outward inward : List Entry) → D.SignatureKind.model ≡ H.SignatureKind.model → self.old.device.setup ≡ self.old.host.setup → Made H.SignatureKind.model self.old.host.setup (ends self.old) (ends self.new) call.entry outward inward result buffer.old buffer.new }
        ensures alone { (outward inward : List Entry) → Made (at_end call.entry H.SignatureKind.model D.SignatureKind.model) (at_end call.entry self.old.host.setup self.old.device.setup) (ends self.old) (ends self.new) call.entry outward inward result buffer.old buffer.new }
        ensures host_setup { self.new.host.setup ≡ self.old.host.setup }
        ensures device_setup { self.new.device.setup ≡ self.old.device.setup }
    {
        match call {
            Call::HostOffer { values, wish } => self.host.offer(values, wish, buffer),
            Call::ToDevice(frame) => self.device.take(frame),
            Call::DeviceOffer { values, flags } => self.device.offer(values, flags, buffer),
            Call::ToHost(frame) => self.host.take(frame),
            Call::HostTicks(ticks) => self.host.tick(ticks),
            Call::DeviceTicks(ticks) => self.device.tick(ticks),
            Call::Button(reading) => self.read_button(reading),
            Call::Press => self.hand_press(),
            Call::HostRead => self.host.read(buffer),
            Call::DeviceRead => self.device.read(buffer),
        }
    }
}
