// The kinds that follow the bit rule, each from its table of 256 registers. Their step is one, that of a table; what they
// say here (model, width, limit, laws) is what makes them two kinds.
ghost use Rattle.kinds.specs.Kinds.{s3, s4};
ghost use Rattle.kinds.specs.Lawful.{s3_laws, s4_laws};
ghost use Rattle.std.proofs.Common.{rules};

use crate::tables::{S3_TABLE, S4_TABLE};
use signature::SignatureKind;

// Three octets, polynomial 5D6DCBh.
pub struct S3;

impl SignatureKind for S3 {
    ghost model = { s3 };

    ghost limit = { 12 };

    ghost lawful = { s3_laws };

    ghost limited = { Prim.search rules };

    fn width() -> usize {
        3
    }

    fn limit() -> usize {
        12
    }

    fn step(register: u32, octet: u8) -> u32 {
        S3_TABLE.step(register, octet)
    }
}

// Four octets, polynomial F4ACFB13h.
pub struct S4;

impl SignatureKind for S4 {
    ghost model = { s4 };

    ghost limit = { 123 };

    ghost lawful = { s4_laws };

    ghost limited = { Prim.search rules };

    fn width() -> usize {
        4
    }

    fn limit() -> usize {
        123
    }

    fn step(register: u32, octet: u8) -> u32 {
        S4_TABLE.step(register, octet)
    }
}
