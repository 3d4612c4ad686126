// Signing for C and Rust: numbers pass as themselves, and octets as a pointer and a length.
#![tactic(auto)]

ghost use Rattle.std.specs.Prelude.{cond, ◌≡◌, ◌%◌, ◌^◌, eqb, length};
ghost use Rattle.signature.specs.Kind.{signature};
ghost use Rattle.kinds.specs.Kinds.{s3, s4};

use kinds::{S3, S4};
use signature::{Number, SignatureKind, Signing};

// Writes the signature of a frame's octets under the 24 lowest bits of a number, if `out` has just
// its length; else `out` stays as it is.
fn put<K: SignatureKind>(crc: u16, number: u32, body: &[u8], out: &mut [u8]) -> bool
    ensures told { result ≡ eqb (length out.old) K.SignatureKind.model.width }
    ensures after { out.new ≡ cond result (signature K.SignatureKind.model crc (number % 2 ^ 24) body.now) out.old }
{
    let width = K::width();
    if out.len() != width {
        return false;
    }
    let number = Number::lowest(number);
    let padded = Signing { crc, number }.sign::<K>(body);
    out.copy_from_slice(&padded[0..width]);
    true
}

// One name for each kind: C has no generic functions.
#[unsafe(no_mangle)]
pub extern "C" fn sign_s3(crc: u16, number: u32, body: &[u8], out: &mut [u8]) -> bool
    ensures told { result ≡ eqb (length out.old) 3 }
    ensures after { out.new ≡ cond result (signature s3 crc (number % 2 ^ 24) body.now) out.old }
{
    put::<S3>(crc, number, body, out)
}

#[unsafe(no_mangle)]
pub extern "C" fn sign_s4(crc: u16, number: u32, body: &[u8], out: &mut [u8]) -> bool
    ensures told { result ≡ eqb (length out.old) 4 }
    ensures after { out.new ≡ cond result (signature s4 crc (number % 2 ^ 24) body.now) out.old }
{
    put::<S4>(crc, number, body, out)
}
