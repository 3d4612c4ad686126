// What a signature kind is: a width, a register, a step for an octet, and the laws that they keep.
ghost use Rattle.std.specs.Prelude.{◌≡◌, ℕ, ◌-◌, ◌≤◌, take, drop, replicate};
ghost use Rattle.signature.specs.Kind.{Model, octets};
ghost use Rattle.signature.specs.Laws.{Laws};
ghost use Rattle.signature.specs.Limits.{most_data};

pub trait SignatureKind {
    // The kind as mathematics. Two types may have the same.
    ghost model: { Model };

    // How many data octets a frame may have. Two types of one model may differ in it.
    ghost limit: { ℕ };

    // The octets of a register: three or four.
    fn width() -> usize
        ensures width { result ≡ model.width }
        ensures few { (3 ≤ result) × (result ≤ 4) };

    // How many data octets a frame may have.
    fn limit() -> usize
        ensures limit { result ≡ limit }
        ensures few { result ≤ 123 };

    // The register that an octet makes of a register.
    fn step(register: u32, octet: u8) -> u32
        ensures { result ≡ model.step register octet };

    // The register that starts from a block's check value.
    fn start(crc: u16) -> u32
        ensures { result ≡ crc }
    {
        u32::from(crc)
    }

    // A register's octets, the highest first, and zeros after them: an end keeps no heap memory, and
    // no array's length is computed from the width.
    fn signature(register: u32) -> [u8; 4]
        ensures signature { take model.width result ≡ octets model.width register }
        ensures rest { drop model.width result ≡ replicate (4 - model.width) 0 }
    {
        lowest_octets(register, Self::width())
    }

    ghost lawful: { Laws model };

    ghost limited: { limit ≤ most_data model.width };
}

// The three or four lowest octets of a register, the highest first, and zeros after them.
fn lowest_octets(register: u32, count: usize) -> [u8; 4]
    requires { (3 ≤ count) × (count ≤ 4) }
    ensures octets { take count result ≡ octets count register }
    ensures rest { drop count result ≡ replicate (4 - count) 0 }
{
    let [a, b, c, d] = register.to_be_bytes();
    if count == 3 {
        [b, c, d, 0]
    } else {
        [a, b, c, d]
    }
}
