// The bench kind, a rotation.
ghost use Rattle.std.specs.Prelude.{◌≡◌};
ghost use Rattle.kinds.specs.Kinds.{c3, rotated};
ghost use Rattle.kinds.specs.Lawful.{c3_laws};
ghost use Rattle.std.proofs.Common.{rules};

use signature::SignatureKind;

// Three octets; the register rotates left by an octet.
pub struct C3;

impl SignatureKind for C3 {
    ghost model = { c3 };

    ghost limit = { 12 };

    ghost lawful = { c3_laws };

    ghost limited = { Prim.search rules };

    fn width() -> usize {
        3
    }

    fn limit() -> usize {
        12
    }

    fn step(register: u32, octet: u8) -> u32
        ensures { result ≡ rotated register octet }
    {
        let high = (register >> 16) & 0xff;
        ((register & 0xffff) << 8) ^ high ^ u32::from(octet)
    }
}
