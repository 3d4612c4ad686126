// The operator's button and its presses.
ghost use Rattle.std.specs.Prelude.{◌≡◌, Bool};
ghost use Rattle.machine.specs.Button.{button_next, button_reads, button_started};
ghost use Rattle.host.specs.Presses.{a_press};

use refusal::{Reason, Refusal};
use std::marker::Model;

// A press of the button. Only a reading makes one. It is not copied, so that it is handed to one host
// at most, once; one that is never handed in is lost, which is the safe side.
#[derive(Drop)]
pub struct Press {
    made: (),
}

// Whether the button was held at the last reading.
#[derive(Drop)]
pub struct Button {
    held: bool,
}

impl Model for Button {
    ghost Value = { Bool };

    ghost view = { λ b. b.held };
}

impl Button {
    // A new button counts as held, so that its first press comes after a release.
    pub fn new() -> Button
        ensures { result ≡ button_started }
    {
        Button { held: true }
    }

    // A reading, 1 while the button is pressed; it yields a press if the button was not held. An octet,
    // as books bring it: one above 1 is refused.
    pub fn read(&mut self, reading: u8) -> Result<Option<Press>, Refusal>
        ensures answer { result ≡ button_reads a_press self.old reading }
        ensures next { self.new ≡ button_next self.old reading }
    {
        if reading > 1 {
            return Err(Refusal::at(Reason::InputRange, 0));
        }
        let rises = reading == 1 && !self.held;
        self.held = reading == 1;
        Ok(rises.then_some(Press { made: () }))
    }
}
