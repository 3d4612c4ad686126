// Runs that show the safety statement to say something: process values are handed out, and as old as they may be.
#![tactic(auto)]

ghost use Rattle.kinds.specs.Kinds.{c3, s3};
ghost use Rattle.signature.specs.Laws.{Laws};
ghost use Rattle.witness.specs.Runs.{ReachedByC3, ReachedByS3};

use kinds::{C3, S3};
use signature::SignatureKind;

// Every signature kind keeps the laws that the statement asks for.
fn lawful<K: SignatureKind>()
    ensures { Laws K.SignatureKind.model }
{}

// The statement speaks of the three-octet kind of the field. One function for each kind, since its name and its law
// are all that it has.
pub fn s3_is_lawful()
    ensures { Laws s3 }
{
    lawful::<S3>();
}

// It speaks of the bench kind too.
pub fn c3_is_lawful()
    ensures { Laws c3 }
{
    lawful::<C3>();
}

// The run under the three-octet kind of the field.
pub fn reached_by_s3()
    ensures { ReachedByS3 }
{}

// The run under the bench kind: a run of its own, with other octets.
pub fn reached_by_c3()
    ensures { ReachedByC3 }
{}
