// The lines of the table of vectors, and how a vector is read from its line.
ghost use Rattle.std.specs.Prelude.{◌≡◌, ℕ, ◌<◌, List, ◌++◌, length, IfOk, MatchOption, ◌≢◌};
ghost use Rattle.std.specs.Str.Iter.{LacksByte};
ghost use Rattle.std.specs.Char.{digit_char};
ghost use Rattle.vectors.specs.Hex.{AreOctets, hex_text, pair};
ghost use Rattle.vectors.specs.Lines.{form_word, headed, line_of, opened, signed_under, spaced, written};

use kinds::KindName;
use signature::{Number, Signing};
use std::alloc::{AllocError, Global};

// What a line asks of the octets that it has.
#[derive(Clone, Copy)]
pub enum Asked {
    // Their signature.
    Sign(Signing),
    // Whether they are a frame that fits the number.
    Fits(Signing),
    // The register that they make of this one.
    Run(u32),
}

// One line of the table.
#[derive(Drop)]
pub struct Vector {
    pub kind: KindName,
    pub asked: Asked,
    pub octets: Vec<u8>,
    // What the line says that the answer is.
    pub answer: Vec<u8>,
}

// The value of a digit.
fn digit(c: u8) -> Option<u8>
    ensures { MatchOption result ((d : ℕ) → d < 16 → c ≢ digit_char d) (λ d. (d < 16) × (c ≡ digit_char d)) }
{
    match c {
        b'0'..=b'9' => Some(c - b'0'),
        b'a'..=b'f' => Some(c - b'a' + 10),
        _ => None,
    }
}

// The octet that a text begins with, and what follows its two digits.
fn first_octet(text: &[u8]) -> Option<(u8, &[u8])>
    ensures { MatchOption result ((o : ℕ) (rest : List ℕ) → text.now ≢ pair o ++ rest) (λ p. (text.now ≡ pair p.0 ++ p.1.now) × (p.0 < 256)) }
{
    let (high, after) = text.split_first()?;
    let (low, rest) = after.split_first()?;
    let h = digit(*high)?;
    let l = digit(*low)?;
    Some((h * 16 + l, rest))
}

// The octets that a text writes; none if it is not made of pairs of digits.
fn decode(heap: Global, text: &[u8]) -> Result<Option<Vec<u8>>, AllocError>
    ensures { IfOk result (λ o. MatchOption o ((os : List ℕ) → text.now ≢ hex_text os) (λ v. text.now ≡ hex_text v.items)) }
{
    let mut octets = Vec::new(heap);
    let mut left = text;
    while let Some((o, rest)) = first_octet(left) {
        octets.push(o)?;
        left = rest;
    }
    Ok(left.is_empty().then_some(octets))
}

// The N octets that a text writes; none if it writes no octets, or another count of them.
fn figure<const N: usize>(text: &[u8]) -> Option<[u8; N]>
    ensures { MatchOption result ((os : List ℕ) → length os ≡ N → text.now ≢ hex_text os) (λ a. (text.now ≡ hex_text a) × AreOctets N a) }
{
    let mut octets = [0; N];
    let mut left = text;
    for o in octets.iter_mut() {
        let (octet, rest) = first_octet(left)?;
        *o = octet;
        left = rest;
    }
    left.is_empty().then_some(octets)
}

// The first field of a text, and what follows its space.
fn cut(text: &str) -> Option<(&str, &str)>
    ensures { MatchOption result ((field rest : List ℕ) → text.now ≢ spaced field rest) (λ p. (text.now ≡ spaced p.0.now p.1.now) × LacksByte 32 p.0.now) }
{
    text.split_once(' ')
}

// The N octets in the first field of a text, and the rest of the text.
fn read_figure<const N: usize>(text: &str) -> Option<([u8; N], &str)>
    ensures { MatchOption result ((os rest : List ℕ) → length os ≡ N → text.now ≢ spaced (hex_text os) rest) (λ p. (text.now ≡ spaced (hex_text p.0) p.1.now) × AreOctets N p.0) }
{
    let (field, rest) = cut(text)?;
    let octets = figure(field.as_bytes())?;
    Some((octets, rest))
}

// What a frame is signed under, and the rest of the text.
fn read_signing(text: &str) -> Option<(Signing, &str)>
    ensures { MatchOption result ((s : Signing) (rest : List ℕ) → text.now ≢ signed_under s rest) (λ p. text.now ≡ signed_under p.0 p.1.now) }
{
    let (crc, after) = read_figure(text)?;
    let ([high, middle, low], rest) = read_figure::<3>(after)?;
    let crc = u16::from_be_bytes(crc);
    let number = Number { high, middle, low };
    Some((Signing { crc, number }, rest))
}

// The octets of a line and its answer, which are its last two fields.
pub fn read_octets(heap: Global, text: &str) -> Result<Option<(Vec<u8>, Vec<u8>)>, AllocError>
    ensures { IfOk result (λ o. MatchOption o ((os answer : List ℕ) → text.now ≢ spaced (hex_text os) (hex_text answer)) (λ p. text.now ≡ spaced (hex_text p.0.items) (hex_text p.1.items))) }
{
    let Some((field, rest)) = cut(text) else {
        return Ok(None);
    };
    // Where the octets are malformed, the answer takes neither memory nor time.
    let Some(octets) = decode(heap, field.as_bytes())? else {
        return Ok(None);
    };
    let answer = decode(heap, rest.as_bytes())?;
    Ok(Some(octets).zip(answer))
}

// What a form asks, and the rest of the text.
fn read_asked<'a>(form: &str, text: &'a str) -> Option<(Asked, &'a str)>
    ensures { MatchOption result ((a : Asked) (rest : List ℕ) → form.now ≡ form_word a → text.now ≢ headed a rest) (λ p. (form.now ≡ form_word p.0) × (text.now ≡ headed p.0 p.1.now)) }
{
    match form {
        "sign" => read_signing(text).map(|(signing, rest)| (Asked::Sign(signing), rest)),
        "fits" => read_signing(text).map(|(signing, rest)| (Asked::Fits(signing), rest)),
        "run" => read_figure(text).map(|(start, rest)| (
            Asked::Run(u32::from_be_bytes(start)),
            rest,
        )),
        _ => None,
    }
}

// The kind and the question that a line begins with, and the rest of the line.
fn read_head(line: &str) -> Option<(KindName, Asked, &str)>
    ensures { MatchOption result ((k : KindName) (a : Asked) (rest : List ℕ) → line.now ≢ opened k a rest) (λ p. line.now ≡ opened p.0 p.1 p.2.now) }
{
    let (form, after_form) = cut(line)?;
    let (word, after_kind) = cut(after_form)?;
    let kind = word.parse::<KindName>().ok()?;
    let (asked, rest) = read_asked(form, after_kind)?;
    Some((kind, asked, rest))
}

// The vector that a line writes; none if it writes none.
pub fn read(heap: Global, line: &str) -> Result<Option<Vector>, AllocError>
    ensures { IfOk result (λ o. MatchOption o ((k : KindName) (a : Asked) (os answer : List ℕ) → line.now ≢ written k a os answer) (λ v. line.now ≡ line_of v)) }
{
    let Some((kind, asked, rest)) = read_head(line) else {
        return Ok(None);
    };
    let fields = read_octets(heap, rest)?;
    Ok(fields.map(|(octets, answer)| Vector {
        kind,
        asked,
        octets,
        answer,
    }))
}
