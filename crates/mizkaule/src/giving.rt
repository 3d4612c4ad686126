// Octets given into a buffer of C's, which may be too short.
ghost use Rattle.std.specs.Prelude.{◌≡◌, [], cond, length, Ok, Err, nat_lt};
ghost use Rattle.refusal.specs.declared.reason.Reason.TheVariants.{BufferLength};
ghost use Rattle.refusal.specs.Refusals.{refusal_at};
ghost use Rattle.machine.specs.Answers.{written};
ghost use Rattle.mizkaule.specs.declared.answer.Failure.TheVariants.{TurnedDown};

use crate::answer::{Failure, Verdict};
use frame::write_front;
use refusal::{Reason, Refusal};

// Turns a buffer down that has no room for so many octets.
pub(crate) fn check_room(out: &[u8], size: usize) -> Result<(), Failure>
    ensures { result ≡ cond (nat_lt (length out.now) size) (Err (TurnedDown (refusal_at BufferLength 0) size)) (Ok tt) }
{
    if out.len() < size {
        let refusal = Refusal::at(Reason::BufferLength, 0);
        return Err(Failure::TurnedDown(refusal, size));
    }
    Ok(())
}

// All octets at the front of the buffer, or none and how many they are.
pub(crate) fn give(octets: &[u8], out: &mut [u8]) -> Verdict
    ensures told { result ≡ cond (nat_lt (length out.old) (length octets.now)) (Err (TurnedDown (refusal_at BufferLength 0) (length octets.now))) (Ok (length octets.now)) }
    ensures buffer { out.new ≡ written (cond (nat_lt (length out.old) (length octets.now)) [] octets.now) out.old }
{
    let size = octets.len();
    check_room(out, size)?;
    write_front(out, octets);
    Ok(size)
}
