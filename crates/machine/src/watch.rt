// The watch time of both ends.
ghost use Rattle.std.specs.Prelude.{◌≡◌, ◌+◌, true, false, MatchOption};
ghost use Rattle.machine.specs.Watch.{expired};

use block::Setup;

// The ticks counted so far and some more; none if they reach the watch time.
pub fn counted(setup: Setup, ticks: u16, more: u16) -> Option<u16>
    ensures { MatchOption result (expired setup (ticks + more) ≡ true) (λ sum. (expired setup (ticks + more) ≡ false) × (sum ≡ ticks + more)) }
{
    let sum = ticks.checked_add(more)?;
    (sum < setup.watch).then_some(sum)
}
