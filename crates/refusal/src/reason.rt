// The eighteen reasons for turning a call down, each with its number, its layer and its text.
ghost use Rattle.std.specs.Prelude.{◌≡◌, Some, ◌==◌};
ghost use Rattle.refusal.specs.Reasons.{OneReason, layer_of, layer_name, number_of, text_of};

use std::fmt;

// The part of the coupler that turns a call down.
#[derive(Clone, Copy, Debug, PartialEq)]
pub enum Layer {
    Block,
    End,
    Book,
}

// The number of a case is its place in this list, from 1; checks run down the list.
#[derive(Clone, Copy, PartialEq, Debug)]
pub enum Reason {
    BlockLength = 1,
    BlockSignature,
    BlockFlags,
    SourceAddress,
    DestinationAddress,
    OtherDestination,
    NoWatchTime,
    SilRank,
    WidthOrLimit,
    FrameLength,
    ValuesLength,
    InputRange,
    BufferLength,
    NoPressAwaited,
    BookHead,
    RecordLength,
    RecordKind,
    RecordOrder,
}

impl Layer {
    pub fn name(self) -> &'static str
        ensures { result.now ≡ layer_name self }
    {
        match self {
            Layer::Block => "block",
            Layer::End => "end",
            Layer::Book => "book",
        }
    }
}

impl fmt::Display for Layer {
    ghost output = { λ x. Some (layer_name x) };

    fn fmt<W: fmt::Write>(&self, f: &mut fmt::Formatter<W>) -> fmt::Result {
        let name = self.name();
        write!(f, "{name}")
    }
}

impl Reason {
    // As the pages call it, beside layer and text; the language converts.
    pub fn number(self) -> u8
        ensures { result ≡ number_of self }
    {
        self as u8
    }

    // Whether it is this reason: what the derived `==` answers, which is equality of the numbers.
    pub fn is(self, other: Reason) -> bool
        ensures { result ≡ (number_of self == number_of other) }
    {
        self == other
    }

    // By number, as the pages give the layers; eighteen cases in its place would be no plainer.
    pub fn layer(self) -> Layer
        ensures { result ≡ layer_of self }
    {
        match self.number() {
            1..=9 => Layer::Block,
            10..=14 => Layer::End,
            _ => Layer::Book,
        }
    }

    // What is wrong, for people.
    pub fn text(self) -> &'static str
        ensures { result.now ≡ text_of self }
    {
        match self {
            Reason::BlockLength => "the parameter block has not ten octets",
            Reason::BlockSignature => "F_Par_CRC is not the check value of the block",
            Reason::BlockFlags =>
                "a flag octet has a version, a block kind or a bit that is not allowed",
            Reason::SourceAddress => "F_Source_Add is 0 or 65535",
            Reason::DestinationAddress => "F_Dest_Add is 0 or 65535",
            Reason::OtherDestination => "F_Dest_Add is another device's address",
            Reason::NoWatchTime => "F_WD_Time is 0",
            Reason::SilRank => "F_SIL asks for a higher rank than the end has",
            Reason::WidthOrLimit => {
                "F_CRC_Length or a data length does not go with the signature kind"
            }
            Reason::FrameLength => "the frame has the wrong length",
            Reason::ValuesLength => "the values have the wrong length",
            Reason::InputRange => "a wish or a reading is above 1, or flags are above 3",
            Reason::BufferLength => "the caller's buffer is too short",
            Reason::NoPressAwaited => "no press is awaited",
            Reason::BookHead => "the book is empty, above 65535 octets or of another version",
            Reason::RecordLength => "a record's length is cut, 0 or past the end of the book",
            Reason::RecordKind => "a record's kind is unknown, or its body has the wrong length",
            Reason::RecordOrder => {
                "a record stands before the accepted block, or a block after it"
            }
        }
    }
}

// Reasons are equal if their numbers are, so that a number shown in a line or to C tells the reason.
pub fn a_number_tells_its_reason()
    ensures { OneReason }
{}
