// A frame in fixed memory.
ghost use Rattle.std.specs.Prelude.{◌≡◌, ℕ, ◌+◌, ◌≤◌, [], ◌∷◌, ◌++◌, length, take, replicate, slice_index, MatchOption};
ghost use Rattle.signature.specs.Kind.{signature};
ghost use Rattle.signature.specs.Numbers.{numeral};
ghost use Rattle.machine.specs.Answers.{answered, read_refused, unless, written};
ghost use Rattle.machine.specs.Frames.{composed, zeros};
ghost use Rattle.frame.specs.Held.{framed};

use crate::octets::{append_at, first, octet_at, write_front};
use crate::values::Values;
use refusal::{Reason, Refusal};
use signature::{SignatureKind, Signing};

// The most octets of a frame: 255 of data, the control or status octet and a signature of four.
const ROOM: usize = 260;

// The octets from `size` on are no part of the frame. An array and a size, because an end keeps no heap memory and
// callers copy frames: the library's ArrayVec is not Copy.
#[derive(Clone, Copy)]
pub struct Frame {
    octets: [u8; ROOM],
    size: usize,
}

impl Frame {
    // Fail-safe data.
    pub fn zeros(count: u8) -> Frame
        ensures zeros { framed result ≡ zeros count }
        ensures size { length (framed result) ≡ count }
    {
        Frame {
            size: usize::from(count),
            octets: [0; ROOM],
        }
    }

    // A frame of the octets of a slice, of its first 260 if it has more.
    pub fn of(octets: &[u8]) -> Frame
        ensures front { framed result ≡ take 260 octets.now }
        ensures whole { length octets.now ≤ 260 → framed result ≡ octets.now }
    {
        let mut frame = Frame::zeros(0);
        frame.push(octets);
        frame
    }

    // Holds the octets of a slice in place of its own, the first 260 if it has more.
    pub fn set(&mut self, octets: &[u8])
        ensures front { framed self.new ≡ take 260 octets.now }
        ensures whole { length octets.now ≤ 260 → framed self.new ≡ octets.now }
    {
        self.size = 0;
        self.push(octets);
    }

    // Data and an octet, signed; of more than 255 octets of data the first 255.
    pub fn compose<K: SignatureKind>(signing: Signing, values: &[u8], octet: u8) -> Frame
        ensures front { framed result ≡ composed K.SignatureKind.model signing.crc (numeral signing.number) (take 255 values.now) octet }
        ensures whole { length values.now ≤ 255 → framed result ≡ composed K.SignatureKind.model signing.crc (numeral signing.number) values.now octet }
    {
        let mut frame = Frame::of(first(values, 255));
        frame.push(&[octet]);
        let signature = signing.sign::<K>(frame.as_slice());
        frame.push(&signature[..K::width()]);
        frame
    }

    // The frame of an offer: with its values, or with zeros where fail-safe values go out.
    pub fn offered<K: SignatureKind>(
        signing: Signing,
        values: Option<Values<'_>>,
        due: u8,
        octet: u8,
    ) -> Frame
        ensures { MatchOption values.entry (framed result ≡ composed K.SignatureKind.model signing.crc (numeral signing.number) (zeros due) octet) (λ v. framed result ≡ composed K.SignatureKind.model signing.crc (numeral signing.number) v.octets.now octet) }
    {
        match values {
            Some(values) => Frame::compose::<K>(signing, values.as_slice(), octet),
            None => Frame::compose::<K>(signing, Frame::zeros(due).as_slice(), octet),
        }
    }

    // More octets at the end, as many as there is room for.
    fn push(&mut self, more: &[u8])
        ensures front { framed self.new ≡ take 260 (framed self.old ++ more.now) }
        ensures whole { length (framed self.old) + length more.now ≤ 260 → framed self.new ≡ framed self.old ++ more.now }
    {
        self.size = append_at(&mut self.octets, self.size, more);
    }

    pub fn as_slice(&self) -> &[u8]
        ensures { result.now ≡ framed self.now }
    {
        first(&self.octets, self.size)
    }

    // Writes the frame to the front of a buffer, if there is room for it.
    pub fn write(&self, buffer: &mut [u8]) -> Result<(), Refusal>
        ensures answer { result ≡ answered (read_refused (length (framed self.now)) (length buffer.old)) tt }
        ensures buffer { buffer.new ≡ written (unless (read_refused (length (framed self.now)) (length buffer.old)) [] (framed self.now)) buffer.old }
    {
        let octets = self.as_slice();
        if buffer.len() < octets.len() {
            return Err(Refusal::at(Reason::BufferLength, 0));
        }
        write_front(buffer, octets);
        Ok(())
    }

    // The octet at a place, 0 past the end.
    pub fn octet(&self, place: usize) -> u8
        ensures { result ≡ slice_index (framed self.now) place }
    {
        octet_at(self.as_slice(), place)
    }

    // The first octets, or all if there are fewer.
    pub fn front(&self, count: usize) -> &[u8]
        ensures front { result.now ≡ take count (framed self.now) }
        ensures few { length result.now ≤ count }
    {
        first(self.as_slice(), count)
    }
}
