// The length of a frame that is handed in.
ghost use Rattle.std.specs.Prelude.{◌≡◌, Some, None, cond, not, length, ◌==◌};
ghost use Rattle.machine.specs.Answers.{answered};
ghost use Rattle.machine.specs.Frames.{frame_length};
ghost use Rattle.refusal.specs.declared.reason.Reason.TheVariants.{FrameLength};

use refusal::{Reason, Refusal};
use signature::SignatureKind;

// Turns a frame down that does not consist of as many octets of data as are due, one octet and a signature.
pub fn check_length<K: SignatureKind>(frame: &[u8], due: u8) -> Result<(), Refusal>
    ensures { result ≡ answered (cond (not (length frame.now == frame_length K.SignatureKind.model due)) (Some FrameLength) None) tt }
{
    if frame.len() != usize::from(due) + 1 + K::width() {
        return Err(Refusal::at(Reason::FrameLength, 0));
    }
    Ok(())
}
