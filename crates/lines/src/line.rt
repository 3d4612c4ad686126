// The lines that are printed of a book, and the text of each.
ghost use Rattle.std.specs.Prelude.{Some};
ghost use Rattle.lines.specs.Lines.{Short, said};

use book::Kind;
use machine::Outcome;
use pair::Seen;
use refusal::{Reason, Refusal};
use std::fmt;

#[derive(Clone, Copy)]
pub enum Line {
    // A record's call was accepted.
    Done {
        place: usize,
        kind: Kind,
        outcome: Outcome,
        seen: Seen,
    },
    // A record's call was refused, for a reason that was found at an octet of the book.
    TurnedDown {
        place: usize,
        kind: Kind,
        reason: Reason,
        octet: u128,
    },
    // The book ended: its size in octets, and how many records it has.
    Ended {
        size: usize,
        records: usize,
    },
    // What was read is no book, or stops being one there.
    Refused(Refusal),
}

impl fmt::Display for Line {
    ghost output = { λ x. Some (said x) };

    fn fmt<W: fmt::Write>(&self, f: &mut fmt::Formatter<W>) -> fmt::Result {
        match self {
            Line::Done {
                place,
                kind,
                outcome,
                seen,
            } => write!(f, "{place} {kind} {outcome} {seen}"),
            Line::TurnedDown {
                place,
                kind,
                reason,
                octet,
            } => write!(f, "{place} {kind} refused {} {octet}", reason.number()),
            Line::Ended { size, records } => write!(f, "end {size} {records}"),
            Line::Refused(Refusal { reason, place }) => {
                write!(f, "refused {} {place}", reason.number())
            }
        }
    }
}

// Room for 256 octets holds any line with its end of line.
pub fn lines_are_short()
    ensures { Short }
{}
