// The named bits of a control or status octet.
ghost use Rattle.std.specs.Prelude.{◌≡◌};
ghost use Rattle.machine.specs.Frames.{flag as flagOf, has as hasBit};

// Whether an octet has the bit of a mask.
pub fn has(octet: u8, mask: u8) -> bool
    ensures { result ≡ hasBit octet mask }
{
    octet & mask != 0
}

// The bit of a mask, if it is set.
pub fn flag(set: bool, mask: u8) -> u8
    ensures { result ≡ flagOf set mask }
{
    if set { mask } else { 0 }
}
