// The signature of a frame under a check value and a number, and whether a frame fits them, for any kind.
ghost use Rattle.std.specs.Prelude.{◌≡◌, ℕ, ◌-◌, false, take, drop, replicate, MatchOption};
ghost use Rattle.std.specs.Str.{bytes_eq};
ghost use Rattle.signature.specs.Kind.{feed, fits_number, octets, signature, signed};
ghost use Rattle.signature.specs.Numbers.{numeral};
ghost use Rattle.signature.specs.Told.{NoBurst, OneNumber, SignedFits};

use crate::kind::SignatureKind;
use crate::number::Number;

// What a frame is signed under: the check value of its block, and its number.
#[derive(Clone, Copy, Debug, PartialEq)]
pub struct Signing {
    pub crc: u16,
    pub number: Number,
}

// The register after the octets of a slice.
pub fn register_after<K: SignatureKind>(register: u32, body: &[u8]) -> u32
    ensures { result ≡ feed K.SignatureKind.model register body.now }
{
    body.iter().fold(register, |r, o| K::step(r, *o))
}

impl Signing {
    // The register that signs a frame's octets.
    fn register<K: SignatureKind>(self, body: &[u8]) -> u32
        ensures register { result ≡ signed K.SignatureKind.model self.crc (numeral self.number) body.now }
        ensures signature { octets K.SignatureKind.model.width result ≡ signature K.SignatureKind.model self.crc (numeral self.number) body.now }
    {
        let Number { high, middle, low } = self.number;
        let numbered = register_after::<K>(K::start(self.crc), &[high, middle, low]);
        register_after::<K>(numbered, body)
    }

    // The signature of a frame's octets, and zeros after it.
    pub fn sign<K: SignatureKind>(self, body: &[u8]) -> [u8; 4]
        ensures signature { take K.SignatureKind.model.width result ≡ signature K.SignatureKind.model self.crc (numeral self.number) body.now }
        ensures rest { drop K.SignatureKind.model.width result ≡ replicate (4 - K.SignatureKind.model.width) 0 }
    {
        K::signature(self.register::<K>(body))
    }

    // Whether a frame ends in the signature that it has under this check value and number.
    pub fn fits<K: SignatureKind>(self, frame: &[u8]) -> bool
        ensures { result ≡ fits_number K.SignatureKind.model self.crc (numeral self.number) frame.now }
    {
        let Some((body, last)) = parts::<K>(frame) else {
            return false;
        };
        let due = self.sign::<K>(body);
        last == &due[0..K::width()]
    }
}

// A frame as the octets before its signature, and its signature; none if it is shorter than that.
fn parts<K: SignatureKind>(frame: &[u8]) -> Option<(&[u8], &[u8])>
    ensures { MatchOption result ((crc n : ℕ) → fits_number K.SignatureKind.model crc n frame.now ≡ false) (λ p. (crc n : ℕ) → fits_number K.SignatureKind.model crc n frame.now ≡ bytes_eq p.1.now (signature K.SignatureKind.model crc n p.0.now)) }
{
    let width = K::width();
    if frame.len() < width {
        return None;
    }
    Some(frame.split_at(frame.len() - width))
}

// What a signature tells of a frame, under every kind: a signed frame fits its number, no frame
// fits two numbers, and none still fits after a burst of changed bits.
pub fn frames_tell<K: SignatureKind>()
    ensures signed_fits { SignedFits K.SignatureKind.model }
    ensures one_number { OneNumber K.SignatureKind.model }
    ensures no_burst { NoBurst K.SignatureKind.model }
{}
