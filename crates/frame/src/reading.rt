// Readings: what an end hands out of a frame.
ghost use Rattle.std.specs.Prelude.{◌≡◌, ℕ, [], length};
ghost use Rattle.std.specs.Option.{option_copied};
ghost use Rattle.machine.specs.Answers.{answered, read_refused, read_says, read_values, unless, written};
ghost use Rattle.frame.specs.Held.{data_in};

use crate::{Frame, write_front};
use machine::Outcome;
use refusal::{Reason, Refusal};

// What a reading answers: process values if there is a frame whose data may be used.
pub fn read_as(frame: Option<&Frame>) -> Outcome
    ensures { (count : ℕ) → result ≡ read_says (data_in count (option_copied frame.entry)) }
{
    match frame {
        Some(_) => Outcome::Process,
        None => Outcome::FailSafe,
    }
}

// Writes the data of a frame to the front of a buffer as process values, or zeros if there is none to use.
pub fn hand_out(frame: Option<&Frame>, count: u8, buffer: &mut [u8]) -> Result<Outcome, Refusal>
    ensures answer { result ≡ answered (read_refused count (length buffer.old)) (read_says (data_in count (option_copied frame.entry))) }
    ensures buffer { buffer.new ≡ written (unless (read_refused count (length buffer.old)) [] (read_values (data_in count (option_copied frame.entry)) count)) buffer.old }
{
    let size = usize::from(count);
    if buffer.len() < size {
        return Err(Refusal::at(Reason::BufferLength, 0));
    }
    match frame {
        Some(frame) => write_front(buffer, frame.front(size)),
        None => write_front(buffer, Frame::zeros(count).as_slice()),
    }
    Ok(read_as(frame))
}
