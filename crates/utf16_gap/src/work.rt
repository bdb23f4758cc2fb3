//! Counting of work.

ghost use Rattle.std.specs.Prelude.{◌≡◌, ◌+◌};

use edit_base::Steps;
use std::sync::ledger::Ledger;

/// Counts so many steps. A tick has no bytes when the program runs, and so has no turn of the loop.
pub fn count<L: Ledger>(steps: &mut Steps<L>, ticks: u32)
    ensures { steps.new ≡ steps.old + ticks }
{
    for _ in 0..ticks {
        steps.tick();
    }
}
