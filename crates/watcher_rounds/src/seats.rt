//! The seats of watchers in a text, and who is told of an edit.

ghost use Rattle.std.specs.Prelude.{ℕ, ◌≡◌, ◌<◌, IfOk};
ghost use Rattle.std.specs.List.{All};
ghost use Rattle.edit_model.specs.Rows.{spans_in};
ghost use Rattle.edit_model.specs.WellFormed.{IsSeated, IsWellFormed};
ghost use Rattle.edit_model.specs.Events.{slot_of, listeners};
ghost use Rattle.watcher_rounds.specs.Seats.{seats_in, slots_over};

use edit_base::{Limits, NoMemory, Pick, SpanRow, Steps, What};
use edit_model::Step;
use replace_engine::SpannedText;
use span_flags::{lies_over, place_of};
use std::alloc::Global;
use std::sync::ledger::Ledger;

/// The seats of a text's watchers, in a query's order. Where there are no slots there is no seat, and no query: no step
/// is counted.
pub fn seats<L: Ledger>(
    alloc: Global,
    slots: u8,
    text: &SpannedText,
    steps: &mut Steps<L>,
) -> Result<Vec<SpanRow>, NoMemory>
    requires seated { IsSeated slots text.now.state.spans }
    ensures seats { IfOk result (λ rows. spans_in rows.items ≡ seats_in text.now.state) }
    ensures well_formed { IsWellFormed text.now.state }
    ensures steps { slots ≡ 0 → steps.new ≡ steps.old }
{
    let length = text.len();
    let mut rows = Vec::new(alloc);
    if slots == 0 {
        return Ok(rows);
    }
    text.spans_over(0, length, Pick::Watches, &mut rows, steps)?;
    Ok(rows)
}

/// The slots of the watchers that are told of an edit's text, by the seats before it.
#[tactic(auto, unfolding(edit_model::specs::Events::listeners))]
pub fn listeners(
    alloc: Global,
    step: &Step,
    text: &SpannedText,
    seats: &[SpanRow],
) -> Result<Vec<u8>, NoMemory>
    requires seats { spans_in seats.now ≡ seats_in text.now.state }
    ensures listeners { IfOk result (λ slots. slots.items ≡ listeners text.now.state step.now) }
    ensures seated { (count : ℕ) → IsSeated count text.now.state.spans
        → IfOk result (λ slots. All (λ slot. slot < count) slots.items) }
{
    prove!(text.len() <= Limits::TEXT);
    match step {
        Step::Replace { start, end, .. } => {
            slots_over(alloc, place_of(*start), place_of(*end), seats)
        }
        Step::Set { .. } => Ok(Vec::new(alloc)),
        Step::Remove { .. } => Ok(Vec::new(alloc)),
        Step::Select { .. } => Ok(Vec::new(alloc)),
        Step::Deselect => Ok(Vec::new(alloc)),
        Step::Drop => Ok(Vec::new(alloc)),
        Step::Mark { .. } => Ok(Vec::new(alloc)),
    }
}

// The slots of the seats over a range.
fn slots_over(alloc: Global, start: u32, end: u32, seats: &[SpanRow]) -> Result<Vec<u8>, NoMemory>
    ensures { IfOk result (λ slots. slots.items ≡ slots_over start end (spans_in seats.now)) }
{
    let mut slots = Vec::new(alloc);
    for seat in seats {
        if lies_over(seat, start, end) {
            slots.push(slot_of(seat.what))?;
        }
    }
    Ok(slots)
}

/// The slot of the watcher whose seat this is.
pub fn slot_of(what: What) -> u8
    ensures { result ≡ slot_of what }
{
    match what {
        What::Tag(_) => 0,
        What::Face(_) => 0,
        What::Margin { .. } => 0,
        What::Float { .. } => 0,
        What::Watch(slot) => slot,
        What::SelStart => 0,
        What::SelEnd => 0,
        What::Composing => 0,
    }
}
