// What the code answers to a vector, and whether that is what its line says.
ghost use Rattle.std.specs.Prelude.{◌≡◌, take, IfOk, Decides};
ghost use Rattle.signature.specs.Kind.{feed};
ghost use Rattle.kinds.specs.Names.{model_of};
ghost use Rattle.vectors.specs.Due.{answered};
ghost use Rattle.vectors.specs.Verdicts.{Judges};

use crate::table::{Asked, Vector, read};
use kinds::{KindName, under};
use signature::{SignatureKind, register_after};
use std::alloc::{AllocError, Global};

// What comes of a line. No Result: a line that differs is an answer, with what it says and what the code gives, and one
// that writes no vector has nothing to give; both are printed.
#[derive(Drop)]
pub enum Verdict {
    // It says what the code answers.
    Agrees(Vector),
    // The code answers something else.
    Differs { vector: Vector, given: Vec<u8> },
    // It writes no vector.
    Malformed,
}

// The octets of a signature, without the zeros after them.
fn leading<K: SignatureKind>(heap: Global, padded: [u8; 4]) -> Result<Vec<u8>, AllocError>
    ensures { IfOk result (λ v. v.items ≡ take K.SignatureKind.model.width padded) }
{
    Vec::from_slice(heap, &padded[0..K::width()])
}

fn answer_under<K: SignatureKind>(
    heap: Global,
    asked: Asked,
    body: &[u8],
) -> Result<Vec<u8>, AllocError>
    ensures { IfOk result (λ v. v.items ≡ answered K.SignatureKind.model asked body.now) }
{
    match asked {
        Asked::Sign(s) => leading::<K>(heap, s.sign::<K>(body)),
        Asked::Fits(s) => Vec::from_slice(heap, &[u8::from(s.fits::<K>(body))]),
        Asked::Run(start) => leading::<K>(heap, K::signature(register_after::<K>(start, body))),
    }
}

// What the code answers.
fn answer(heap: Global, kind: KindName, asked: Asked, body: &[u8]) -> Result<Vec<u8>, AllocError>
    ensures { IfOk result (λ v. v.items ≡ answered (model_of kind) asked body.now) }
{
    under!(kind, answer_under(heap, asked, body))
}

// What comes of a line of the table.
pub fn judge(heap: Global, line: &str) -> Result<Verdict, AllocError>
    ensures { IfOk result (λ v. Judges line.now v) }
{
    let Some(vector) = read(heap, line)? else {
        return Ok(Verdict::Malformed);
    };
    let given = answer(heap, vector.kind, vector.asked, &vector.octets)?;
    if vector.answer == given {
        Ok(Verdict::Agrees(vector))
    } else {
        Ok(Verdict::Differs { vector, given })
    }
}
