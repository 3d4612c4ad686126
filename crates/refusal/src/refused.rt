// A refusal: the reason, and the octet where it was found.
ghost use Rattle.std.specs.Prelude.{◌≡◌, Some};
ghost use Rattle.refusal.specs.Refusals.{refusal_at, refusal_text};

use crate::reason::{Layer, Reason};
use std::fmt;

#[derive(Clone, Copy, Debug, PartialEq)]
pub struct Refusal {
    pub reason: Reason,
    pub place: usize,
}

impl Refusal {
    // The refusal for a reason. Its place follows from the reason; only a wrong flag octet and a
    // record stand where the caller found them.
    pub fn at(reason: Reason, found: usize) -> Refusal
        ensures { result ≡ refusal_at reason found }
    {
        let place = match reason {
            Reason::BlockFlags | Reason::RecordLength | Reason::RecordKind | Reason::RecordOrder =>
                found,
            Reason::SourceAddress => 2,
            Reason::DestinationAddress | Reason::OtherDestination => 4,
            Reason::NoWatchTime => 6,
            Reason::BlockSignature => 8,
            _ => 0,
        };
        Refusal { reason, place }
    }
}

impl fmt::Display for Refusal {
    ghost output = { λ x. Some (refusal_text x) };

    fn fmt<W: fmt::Write>(&self, f: &mut fmt::Formatter<W>) -> fmt::Result {
        let number = self.reason.number();
        let layer = self.reason.layer();
        let text = self.reason.text();
        let place = self.place;
        write!(f, "{layer} refusal {number} at octet {place}: {text}")
    }
}
