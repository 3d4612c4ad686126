// What a call that is not refused comes to.
ghost use Rattle.std.specs.Prelude.{◌≡◌, Some};
ghost use Rattle.machine.specs.Words.{outcome_name};

use std::fmt;

#[derive(Clone, Copy, Debug, PartialEq)]
pub enum Outcome {
    Fresh,
    Repeat,
    Waiting,
    Ignored,
    Fault,
    Restart,
    Quiet,
    Taken,
    Process,
    FailSafe,
}

impl Outcome {
    // The word that stands for the outcome in a listing.
    pub fn name(self) -> &'static str
        ensures { result.now ≡ outcome_name self }
    {
        match self {
            Outcome::Fresh => "fresh",
            Outcome::Repeat => "repeat",
            Outcome::Waiting => "waiting",
            Outcome::Ignored => "ignored",
            Outcome::Fault => "fault",
            Outcome::Restart => "restart",
            Outcome::Quiet => "quiet",
            Outcome::Taken => "taken",
            Outcome::Process => "process",
            Outcome::FailSafe => "fail-safe",
        }
    }
}

impl fmt::Display for Outcome {
    ghost output = { λ o. Some (outcome_name o) };

    fn fmt<W: fmt::Write>(&self, f: &mut fmt::Formatter<W>) -> fmt::Result {
        f.write_str(self.name())
    }
}
