// The parameter block, as it came and checked. Only a checked block starts an end.
ghost use Rattle.std.specs.Prelude.{◌^◌, ◌<◌};

use crate::setup::Setup;
use signature::SignatureKind;
use std::marker::PhantomData;

// A block as it came, of which nothing is known.
#[derive(Clone, Copy)]
pub struct RawBlock<'a> {
    pub octets: &'a [u8],
}

// A block that passed the checks under a signature kind. It cannot be made otherwise or copied.
#[derive(Drop)]
pub struct CheckedBlock<K: SignatureKind> {
    setup: Setup,
    kind: PhantomData<K>,
    ghost watched: { 0 < setup.watch },
    ghost small: { setup.crc < 2 ^ 16 },
}

mod check;

pub use check::checks_in_order;
