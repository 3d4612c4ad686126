// What a record's line begins with, and the lines that begin so.
ghost use Rattle.std.specs.Prelude.{◌≡◌};
ghost use Rattle.book.specs.Records.{kind_of_record};
ghost use Rattle.transcript.specs.Replays.{answer_line, out_of_turn, turned_down};

use book::{Kind, Placed};
use lines::Line;
use machine::Outcome;
use pair::Seen;
use refusal::{Reason, Refusal};

// A record's body begins so many octets behind its place.
const BODY: u8 = 3;

// A record's place and kind.
#[derive(Clone, Copy)]
pub struct Heading {
    pub place: usize,
    pub kind: Kind,
}

impl Heading {
    // The line of a refusal, whose place counts from `into` octets behind the record's place.
    pub fn turned_down(self, into: u8, refusal: Refusal) -> Line
        ensures { result ≡ turned_down self.place self.kind into refusal }
    {
        let Heading { place, kind } = self;
        Line::TurnedDown {
            place,
            kind,
            reason: refusal.reason,
            octet: place as u128 + u128::from(into) + refusal.place as u128,
        }
    }

    // The line of a record before the accepted block, or of a block after it.
    pub fn out_of_turn(self) -> Line
        ensures { result ≡ out_of_turn self.place self.kind }
    {
        let Heading { place, kind } = self;
        let refusal = Refusal::at(Reason::RecordOrder, place);
        Line::TurnedDown {
            place,
            kind,
            reason: refusal.reason,
            octet: refusal.place as u128,
        }
    }

    // The line of the record's answer.
    pub fn answered(self, answer: Result<Outcome, Refusal>, seen: Seen) -> Line
        ensures { result ≡ answer_line self.place self.kind answer seen }
    {
        let Heading { place, kind } = self;
        match answer {
            Ok(outcome) => Line::Done {
                place,
                kind,
                outcome,
                seen,
            },
            Err(refusal) => self.turned_down(BODY, refusal),
        }
    }
}

// The heading of a record's line.
impl From<Placed<'_>> for Heading {
    ghost from_gives = { λ x h. (h.place ≡ x.place) × (h.kind ≡ kind_of_record x.record) };

    fn from(placed: Placed<'_>) -> Heading {
        Heading {
            place: placed.place,
            kind: placed.record.kind(),
        }
    }
}
