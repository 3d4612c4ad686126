// What to tell a person about input that is no book, or about a book that breaks off.
ghost use Rattle.std.specs.Prelude.{◌≡◌, Some};
ghost use Rattle.lines.specs.Advices.{advice_on, advice_text, head_advice, words_of};

use book::LARGEST;
use refusal::{Reason, Refusal};
use std::fmt;

#[derive(Clone, Copy)]
pub enum Advice {
    // There was nothing to read.
    NoOctets,
    // There are more octets than a book has.
    TooLarge,
    // The first octet is not a book's, and begins a text.
    LooksLikeText,
    // The first octet is not a book's.
    OtherVersion(u8),
    // The book stops being one at a record.
    BreaksOff(Refusal),
}

impl Advice {
    // What there is to say of octets that have not the head of a book.
    fn head(octets: &[u8]) -> Advice
        ensures { result ≡ head_advice octets.now }
    {
        if octets.len() > LARGEST {
            return Advice::TooLarge;
        }
        match octets.first() {
            None => Advice::NoOctets,
            Some(b' '..=b'~') => Advice::LooksLikeText,
            Some(&first) => Advice::OtherVersion(first),
        }
    }

    // What there is to say of octets whose reading ended so.
    pub fn on(octets: &[u8], ending: Option<Refusal>) -> Option<Advice>
        ensures { result ≡ advice_on octets.now ending }
    {
        let refusal = ending?;
        Some(match refusal.reason {
            Reason::BookHead => Advice::head(octets),
            _ => Advice::BreaksOff(refusal),
        })
    }

    // What is said, up to what was found.
    pub fn words(self) -> &'static str
        ensures { result.now ≡ words_of self }
    {
        match self {
            Advice::NoOctets => "no octets came in; give it a shift book: shiftbook < FILE",
            Advice::TooLarge => "this is no shift book: it has more than 65535 octets",
            Advice::LooksLikeText => "this is no shift book: it looks like a text",
            Advice::OtherVersion(_) => "a shift book begins with the octet 1, and this with ",
            Advice::BreaksOff(_) => "the book breaks off; what stands before was read: ",
        }
    }
}

impl fmt::Display for Advice {
    ghost output = { λ x. Some (advice_text x) };

    fn fmt<W: fmt::Write>(&self, f: &mut fmt::Formatter<W>) -> fmt::Result {
        let words = self.words();
        match self {
            Advice::OtherVersion(first) => write!(f, "{words}{first}"),
            Advice::BreaksOff(refusal) => write!(f, "{words}{refusal}"),
            _ => f.write_str(words),
        }
    }
}
