// What a call through the C interface answers.
ghost use Rattle.std.specs.Prelude.{◌≡◌};
ghost use Rattle.mizkaule.specs.Answers.{answer_of, layer_figure, plain};
ghost use Rattle.mizkaule.specs.declared.answer.Failure.TheVariants.{TurnedDown, NoSuch, NoMemory};

use kinds::NoSuchKind;
use refusal::{Layer, Refusal};
use signature::TooLarge;
use std::alloc::AllocError;

// As C has it: the header says what each figure means.
#[repr(C)]
#[derive(Clone, Copy)]
pub struct Answer {
    pub status: u8,
    pub number: u8,
    pub layer: u8,
    pub place: usize,
    pub size: usize,
}

// Why a call does not do what it is asked for.
#[derive(Clone, Copy, Debug, PartialEq)]
pub enum Failure {
    // Refused; where a buffer was too short, with the octets that it needs.
    TurnedDown(Refusal, usize),
    // An argument names no kind or no number.
    NoSuch,
    NoMemory,
}

// So many octets were written, or the figure that was asked for.
pub type Verdict = Result<usize, Failure>;

impl From<Refusal> for Failure {
    ghost from_gives = { λ e f. f ≡ TurnedDown e 0 };

    fn from(refusal: Refusal) -> Failure {
        Failure::TurnedDown(refusal, 0)
    }
}

impl From<NoSuchKind> for Failure {
    ghost from_gives = { λ _ f. f ≡ NoSuch };

    fn from(_error: NoSuchKind) -> Failure {
        Failure::NoSuch
    }
}

impl From<TooLarge> for Failure {
    ghost from_gives = { λ _ f. f ≡ NoSuch };

    fn from(_error: TooLarge) -> Failure {
        Failure::NoSuch
    }
}

impl From<AllocError> for Failure {
    ghost from_gives = { λ _ f. f ≡ NoMemory };

    fn from(_error: AllocError) -> Failure {
        Failure::NoMemory
    }
}

// As the header has it: the figures are C's, and not the library's, so that they stand here.
fn layer_figure(layer: Layer) -> u8
    ensures { result ≡ layer_figure layer }
{
    match layer {
        Layer::Block => 1,
        Layer::End => 2,
        Layer::Book => 3,
    }
}

impl Answer {
    // An answer that tells of no refusal.
    fn plain(status: u8, size: usize) -> Answer
        ensures { result ≡ plain status size }
    {
        Answer {
            status,
            number: 0,
            layer: 0,
            place: 0,
            size,
        }
    }
}

impl From<Verdict> for Answer {
    ghost from_gives = { λ v a. a ≡ answer_of v };

    fn from(verdict: Verdict) -> Answer {
        match verdict {
            Ok(size) => Answer::plain(0, size),
            Err(Failure::TurnedDown(refusal, size)) => Answer {
                status: 1,
                number: refusal.reason.number(),
                layer: layer_figure(refusal.reason.layer()),
                place: refusal.place,
                size,
            },
            Err(Failure::NoSuch) => Answer::plain(2, 0),
            Err(Failure::NoMemory) => Answer::plain(3, 0),
        }
    }
}
