//! Who is told of the spans that an edit removed, moved and added.

ghost use Rattle.std.specs.Prelude.{◌≡◌, ◌++◌, ◌&&◌, ◌==◌, not, [], length, IfOk, OnOk};
ghost use Rattle.std.specs.List.{flat_map};
ghost use Rattle.edit_model.specs.Rows.{span_of, spans_in};
ghost use Rattle.edit_model.specs.WellFormed.{IsSeated, IsWellFormed};
ghost use Rattle.edit_model.specs.Over.{lies_over};
ghost use Rattle.edit_model.specs.Events.{span_event, callbacks};
ghost use Rattle.span_changes.specs.Changes.{effect_of};
ghost use Rattle.moved_rows.specs.Moves.{moved_of};
ghost use Rattle.watcher_rounds.specs.Seats.{seats_in, slots_beside, told_there, told_moved, seats_told};

use crate::seats::{seats, slot_of};
use edit_base::{NoMemory, SpanRow, Steps};
use edit_model::{SpanCallback, SpanChange, SpanEvent};
use replace_engine::{Change, MovedRows, SpannedText};
use span_flags::lies_over;
use std::alloc::Global;
use std::sync::ledger::Ledger;

/// Who is told of what the last edit did to spans, with the seats before it. Where there are no slots no step is
/// counted.
pub fn span_callbacks<L: Ledger>(
    alloc: Global,
    depth: u32,
    slots: u8,
    before: &[SpanRow],
    text: &SpannedText,
    steps: &mut Steps<L>,
) -> Result<Vec<SpanCallback>, NoMemory>
    requires seated { IsSeated slots text.now.state.spans }
    ensures told { IfOk result (λ told. told.items ≡ seats_told depth (spans_in before.now) (seats_in text.now.state)
        (length text.now.state.units) text.now.effect) }
    ensures well_formed { IsWellFormed text.now.state }
    ensures steps { slots ≡ 0 → steps.new ≡ steps.old }
{
    let after = seats(alloc, slots, text, steps)?;
    let mut told = Vec::new(alloc);
    if before.is_empty() && after.is_empty() {
        return Ok(told);
    }
    tell_change(depth, before, &after, text.len(), text.change(), &mut told)?;
    Ok(told)
}

// Those who are told of a change, by the seats before it and after it, in a text of this length now.
fn tell_change(
    depth: u32,
    before: &[SpanRow],
    after: &[SpanRow],
    length: u32,
    change: &Change,
    told: &mut Vec<SpanCallback>,
) -> Result<(), NoMemory>
    requires none { told.old.items ≡ [] }
    ensures { OnOk result (told.new.items
        ≡ seats_told depth (spans_in before.now) (spans_in after.now) length (effect_of change.now)) }
{
    tell_there(depth, SpanChange::Removed, &change.removed, before, told)?;
    tell_moved(depth, &change.moved, after, length, told)?;
    tell_there(depth, SpanChange::Added, &change.added, after, told)
}

// Those who are told of spans that came or went.
fn tell_there(
    depth: u32,
    change: SpanChange,
    rows: &[SpanRow],
    seats: &[SpanRow],
    told: &mut Vec<SpanCallback>,
) -> Result<(), NoMemory>
    ensures { OnOk result (told.new.items
        ≡ told.old.items ++ flat_map (told_there depth change (spans_in seats.now)) (spans_in rows.now)) }
{
    for row in rows {
        tell_beside(
            seats,
            row.start,
            row.end,
            span_event(depth, change, row, row),
            told,
        )?;
    }
    Ok(())
}

// Those who are told of spans that moved, in a text of this length now.
fn tell_moved(
    depth: u32,
    moved: &MovedRows,
    seats: &[SpanRow],
    length: u32,
    told: &mut Vec<SpanCallback>,
) -> Result<(), NoMemory>
    ensures { OnOk result (told.new.items
        ≡ told.old.items ++ flat_map (told_moved depth length (spans_in seats.now)) (moved_of moved.now)) }
{
    for row in moved.iter() {
        let start = row.from.start.min(row.to.start);
        let end = row.from.end.max(row.to.end).min(length);
        let event = span_event(depth, SpanChange::Moved, &row.from, &row.to);
        tell_beside(seats, start, end, event, told)?;
    }
    Ok(())
}

// Those over a range, but for the span itself.
fn tell_beside(
    seats: &[SpanRow],
    start: u32,
    end: u32,
    event: SpanEvent,
    told: &mut Vec<SpanCallback>,
) -> Result<(), NoMemory>
    ensures { OnOk result (told.new.items
        ≡ told.old.items ++ callbacks event (slots_beside event.id start end (spans_in seats.now))) }
{
    for seat in seats {
        if lies_beside(seat, event.id, start, end) {
            let slot = slot_of(seat.what);
            told.push(SpanCallback { slot, event })?;
        }
    }
    Ok(())
}

// Whether a seat lies over a range, and isn't the span of this id.
fn lies_beside(seat: &SpanRow, id: u32, start: u32, end: u32) -> bool
    ensures { result ≡ (not (seat.now.id == id) && lies_over start end (span_of seat.now)) }
{
    seat.id != id && lies_over(seat, start, end)
}

// What is told of a span, before an edit and after it.
fn span_event(depth: u32, change: SpanChange, from: &SpanRow, to: &SpanRow) -> SpanEvent
    ensures { result ≡ span_event depth change (span_of from.now) (span_of to.now) }
{
    SpanEvent {
        depth,
        id: to.id,
        change,
        old_start: from.start,
        old_end: from.end,
        start: to.start,
        end: to.end,
    }
}
