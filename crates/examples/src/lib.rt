// Known figures, proved of the definitions by one finite check.
#![tactic(auto)]

ghost use Rattle.std.specs.Prelude.{◌≡◌, true};
ghost use Rattle.examples.specs.Known.{known};

// The definitions give the known table entries, signatures, check value and fitting frames, and the watch time runs out
// when it is reached.
pub fn figures_are_known()
    ensures { known ≡ true }
{}
