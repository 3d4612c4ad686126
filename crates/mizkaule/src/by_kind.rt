// Judging, signing and fitting under one kind.
ghost use Rattle.std.specs.Prelude.{◌≡◌, length};
ghost use Rattle.machine.specs.Answers.{written};
ghost use Rattle.mizkaule.specs.Kinds.{fitted, judged, signs, signs_octets};

use crate::answer::Verdict;
use crate::giving::{check_room, give};
use block::{Own, RawBlock};
use signature::{Number, SignatureKind, Signing};

pub(crate) fn judge<K: SignatureKind>(octets: &[u8], own: Own) -> Verdict
    ensures { result ≡ judged K.SignatureKind.model.width K.SignatureKind.limit octets.now own }
{
    (RawBlock { octets }).check::<K>(own)?;
    Ok(0)
}

// Check value and number come apart, since C's number may have more than 24 bits. A buffer that is too short is turned
// down before any octet is signed.
pub(crate) fn put<K: SignatureKind>(crc: u16, number: u32, octets: &[u8], out: &mut [u8]) -> Verdict
    ensures told { result ≡ signs K.SignatureKind.model number (length out.old) }
    ensures buffer { out.new ≡ written (signs_octets K.SignatureKind.model crc number octets.now (length out.old)) out.old }
{
    let number = Number::try_from(number)?;
    check_room(out, K::width())?;
    let padded = Signing { crc, number }.sign::<K>(octets);
    give(&padded[..K::width()], out)
}

pub(crate) fn fit<K: SignatureKind>(crc: u16, number: u32, frame: &[u8]) -> Verdict
    ensures { result ≡ fitted K.SignatureKind.model crc number frame.now }
{
    let number = Number::try_from(number)?;
    let fits = Signing { crc, number }.fits::<K>(frame);
    Ok(usize::from(fits))
}
