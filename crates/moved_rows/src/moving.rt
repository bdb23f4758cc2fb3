//! Rows as a replacement moves them.

ghost use Rattle.std.specs.Prelude.{◌≡◌, ◌≤◌, ◌<◌, ◌+◌, ◌-◌, ◌⊎◌, None, Some, true, false, length, map};
ghost use Rattle.std.specs.List.{All, slice_set};
ghost use Rattle.std.specs.List.Sorted.{IsPermutation};
ghost use Rattle.edit_model.specs.Boundaries.{next_boundary};
ghost use Rattle.edit_model.specs.Replaced.{moved_span};
ghost use Rattle.edit_model.specs.Rows.{IsAtOrder, span_of, spans_in};
ghost use Rattle.interval_tree.specs.Answers.{IsForward, orders_of, touching};
ghost use Rattle.span_table.specs.Numbers.{bound};
ghost use Rattle.span_table.specs.Table.{span_at, spans_of};
ghost use Rattle.moved_rows.specs.Moves.{IsBegun, moved_of, moved_shifts};
ghost use Rattle.moved_rows.specs.Moving.{AreTouched, IsSpanWithin, cleared, cleared_span, is_appended, landed, landed_span};
ghost use Rattle.text_cut.specs.Halves.{joined};
ghost use Rattle.text_cut.specs.Pulled.{has_pulled_end, pulls_one};

use crate::moved::MovedRows;
use edit_base::SpanRow;
use span_flags::{end_of_kind, kind_of_word, start_of};
use span_table::is_point;
use text_cut::{Cut, Halves};

/// Every row goes where the rule for its ends takes it when the range becomes other units, and the gap from the end of
/// the range to the end of what comes. Of the rows only those that touch the range are looked at, which are given, each
/// with its place as its order. No row is emptied: those that are were removed before.
pub fn move_rows(moved: &mut MovedRows, touched: &[SpanRow], cut: &Cut)
    requires begun { IsBegun moved.old }
    requires gap { moved.old.rows.gap ≡ cut.now.end }
    requires touched { IsPermutation (touching cut.now.start cut.now.end moved.old.before) (orders_of touched.now) }
    requires orders { All (IsAtOrder moved.old.before) touched.now }
    requires over { All (IsSpanWithin (length (joined cut.now.text))) moved.old.before }
    requires boundary { pulls_one cut.now.start cut.now.end (spans_in touched.now) ≡ true
        → cut.now.boundary ≡ Some (next_boundary (joined cut.now.text) cut.now.end) }
    requires room { moved.old.rows.room + (cut.now.end - cut.now.start) < bound }
    requires grown { cut.now.grown ≤ moved.old.rows.room + (cut.now.end - cut.now.start) }
    ensures spans { spans_of moved.new.rows
        ≡ map (moved_span cut.now.start cut.now.end cut.now.grown (joined cut.now.text)) moved.old.before }
    ensures moved { moved_of moved.new
        ≡ moved_shifts (moved_span cut.now.start cut.now.end cut.now.grown (joined cut.now.text)) moved.old.before }
    ensures gap { moved.new.rows.gap ≡ cut.now.start + cut.now.grown }
    ensures room_left { moved.new.rows.room ≡ moved.old.rows.room + (cut.now.end - cut.now.start) - cut.now.grown }
    ensures spare { moved.old.rows.spare ≤ moved.new.rows.spare }
    ensures before { moved.new.before ≡ moved.old.before }
    ensures told { moved.new.told ≡ None }
{
    clear_touched(moved, touched, cut.start, cut.end);
    moved.closed(cut.start);
    moved.typed(cut.grown);
    finish(moved, touched, cut);
}

/// Units come where none go: every row goes where the rule for its ends takes it, by the gap alone. No span whose ends
/// stay at boundaries of paragraphs may be there where they come behind the last unit.
#[tactic(auto, using(crate::proofs::Inserted::inserted))]
pub fn insert_units(moved: &mut MovedRows, grown: u32, units: &Halves)
    requires begun { IsBegun moved.old }
    requires plain { All (λ span. is_appended moved.old.rows.gap (length (joined units.now)) span ≡ false)
        moved.old.before }
    requires over { All (IsSpanWithin (length (joined units.now))) moved.old.before }
    requires room { grown ≤ moved.old.rows.room }
    requires fits { length (joined units.now) + grown < bound }
    requires within { moved.old.rows.gap ≤ length (joined units.now) }
    ensures spans { spans_of moved.new.rows
        ≡ map (moved_span moved.old.rows.gap moved.old.rows.gap grown (joined units.now)) moved.old.before }
    ensures gap { moved.new.rows.gap ≡ moved.old.rows.gap + grown }
    ensures room_left { moved.new.rows.room ≡ moved.old.rows.room - grown }
    ensures spare { moved.old.rows.spare ≤ moved.new.rows.spare }
    ensures before { moved.new.before ≡ moved.old.before }
    ensures told { moved.new.told ≡ None }
{
    moved.typed(grown);
}

/// Each end that stands in the range goes to the end of the range on its side.
fn clear_touched(moved: &mut MovedRows, touched: &[SpanRow], start: u32, end: u32)
    requires touched { AreTouched start end moved.old.before touched.now }
    requires ordered { All IsForward moved.old.before }
    requires spans { spans_of moved.old.rows ≡ moved.old.before }
    ensures spans { spans_of moved.new.rows ≡ map (cleared_span start end) moved.old.before }
    ensures gap { moved.new.rows.gap ≡ moved.old.rows.gap }
    ensures room { moved.new.rows.room ≡ moved.old.rows.room }
    ensures spare { moved.old.rows.spare ≤ moved.new.rows.spare }
    ensures before { moved.new.before ≡ moved.old.before }
    ensures told { moved.new.told ≡ moved.old.told }
{
    for row in touched {
        clear_row(moved, row, start, end);
    }
}

fn clear_row(moved: &mut MovedRows, row: &SpanRow, start: u32, end: u32)
    requires within { row.now.order < length moved.old.before }
    requires stands { (span_at (spans_of moved.old.rows) row.now.order ≡ span_of row.now)
        ⊎ (span_at (spans_of moved.old.rows) row.now.order ≡ cleared_span start end (span_of row.now)) }
    ensures spans { spans_of moved.new.rows
        ≡ slice_set (spans_of moved.old.rows) row.now.order (cleared_span start end (span_of row.now)) }
    ensures gap { moved.new.rows.gap ≡ moved.old.rows.gap }
    ensures room { moved.new.rows.room ≡ moved.old.rows.room }
    ensures spare { moved.old.rows.spare ≤ moved.new.rows.spare }
    ensures before { moved.new.before ≡ moved.old.before }
    ensures told { moved.new.told ≡ moved.old.told }
{
    let to = cleared_row(row, start, end);
    stand(moved, row, &to);
}

/// The rows go from where the gap's moves left them to where the rule for their ends takes them.
fn finish(moved: &mut MovedRows, touched: &[SpanRow], cut: &Cut)
    requires touched { AreTouched cut.now.start cut.now.end moved.old.before touched.now }
    requires over { All (IsSpanWithin (length (joined cut.now.text))) moved.old.before }
    requires boundary { pulls_one cut.now.start cut.now.end (spans_in touched.now) ≡ true
        → cut.now.boundary ≡ Some (next_boundary (joined cut.now.text) cut.now.end) }
    requires spans { spans_of moved.old.rows
        ≡ map (landed_span cut.now.start cut.now.end cut.now.grown) moved.old.before }
    ensures spans { spans_of moved.new.rows
        ≡ map (moved_span cut.now.start cut.now.end cut.now.grown (joined cut.now.text)) moved.old.before }
    ensures gap { moved.new.rows.gap ≡ moved.old.rows.gap }
    ensures room { moved.new.rows.room ≡ moved.old.rows.room }
    ensures spare { moved.old.rows.spare ≤ moved.new.rows.spare }
    ensures before { moved.new.before ≡ moved.old.before }
    ensures told { moved.new.told ≡ moved.old.told }
{
    for row in touched {
        finish_row(moved, row, cut);
    }
}

fn finish_row(moved: &mut MovedRows, row: &SpanRow, cut: &Cut)
    requires within { row.now.order < length moved.old.before }
    requires over { IsSpanWithin (length (joined cut.now.text)) (span_of row.now) }
    requires boundary { has_pulled_end cut.now.start cut.now.end (span_of row.now) ≡ true
        → cut.now.boundary ≡ Some (next_boundary (joined cut.now.text) cut.now.end) }
    requires stands { (span_at (spans_of moved.old.rows) row.now.order
        ≡ landed_span cut.now.start cut.now.end cut.now.grown (span_of row.now))
        ⊎ (span_at (spans_of moved.old.rows) row.now.order
        ≡ moved_span cut.now.start cut.now.end cut.now.grown (joined cut.now.text) (span_of row.now)) }
    ensures spans { spans_of moved.new.rows ≡ slice_set (spans_of moved.old.rows) row.now.order
        (moved_span cut.now.start cut.now.end cut.now.grown (joined cut.now.text) (span_of row.now)) }
    ensures gap { moved.new.rows.gap ≡ moved.old.rows.gap }
    ensures room { moved.new.rows.room ≡ moved.old.rows.room }
    ensures spare { moved.old.rows.spare ≤ moved.new.rows.spare }
    ensures before { moved.new.before ≡ moved.old.before }
    ensures told { moved.new.told ≡ moved.old.told }
{
    let from = landed_row(row, cut);
    let to = moved_row(row, cut);
    stand(moved, &from, &to);
}

/// The row at the order of `to` becomes `to`, where it isn't that already, as `from` says.
fn stand(moved: &mut MovedRows, from: &SpanRow, to: &SpanRow)
    requires within { to.now.order < length moved.old.before }
    requires id { to.now.id ≡ (span_at (spans_of moved.old.rows) to.now.order).id }
    requires stands { from.now.start ≡ to.now.start → from.now.end ≡ to.now.end
        → span_at (spans_of moved.old.rows) to.now.order ≡ span_of to.now }
    ensures spans { spans_of moved.new.rows ≡ slice_set (spans_of moved.old.rows) to.now.order (span_of to.now) }
    ensures gap { moved.new.rows.gap ≡ moved.old.rows.gap }
    ensures room { moved.new.rows.room ≡ moved.old.rows.room }
    ensures spare { moved.old.rows.spare ≤ moved.new.rows.spare }
    ensures before { moved.new.before ≡ moved.old.before }
    ensures told { moved.new.told ≡ moved.old.told }
{
    let _count = moved.count();
    if from.start != to.start || from.end != to.end {
        moved.put(to.order as u32, to);
    }
}

/// The row with each end that stands in the range at the end of the range on its side.
fn cleared_row(row: &SpanRow, start: u32, end: u32) -> SpanRow
    ensures span { span_of result ≡ cleared_span start end (span_of row.now) }
    ensures order { result.order ≡ row.now.order }
{
    let kind = kind_of_word(row.flags);
    SpanRow {
        start: cleared(start, end, is_point(start_of(kind)), row.start),
        end: cleared(start, end, is_point(end_of_kind(kind)), row.end),
        ..*row
    }
}

/// The row as it stands once the range is cleared and the gap has closed over it and taken what comes.
fn landed_row(row: &SpanRow, cut: &Cut) -> SpanRow
    requires over { IsSpanWithin (length (joined cut.now.text)) (span_of row.now) }
    ensures span { span_of result ≡ landed_span cut.now.start cut.now.end cut.now.grown (span_of row.now) }
    ensures order { result.order ≡ row.now.order }
{
    let kind = kind_of_word(row.flags);
    SpanRow {
        start: landed(cut, is_point(start_of(kind)), row.start),
        end: landed(cut, is_point(end_of_kind(kind)), row.end),
        ..*row
    }
}

/// The row with its ends where the rule for them takes them.
fn moved_row(row: &SpanRow, cut: &Cut) -> SpanRow
    requires over { IsSpanWithin (length (joined cut.now.text)) (span_of row.now) }
    requires boundary { has_pulled_end cut.now.start cut.now.end (span_of row.now) ≡ true
        → cut.now.boundary ≡ Some (next_boundary (joined cut.now.text) cut.now.end) }
    ensures span { span_of result
        ≡ moved_span cut.now.start cut.now.end cut.now.grown (joined cut.now.text) (span_of row.now) }
    ensures order { result.order ≡ row.now.order }
{
    let kind = kind_of_word(row.flags);
    SpanRow {
        start: cut.end_after(row.id, start_of(kind), row.start),
        end: cut.end_after(row.id, end_of_kind(kind), row.end),
        ..*row
    }
}

/// Where an end goes that is to leave the range free.
fn cleared(start: u32, end: u32, points: bool, place: u32) -> u32
    ensures { result ≡ cleared start end points place }
{
    if place < start || end < place {
        return place;
    }
    if points { end } else { start }
}

/// Where it stands when the gap has closed over the range and taken what comes.
fn landed(cut: &Cut, points: bool, place: u32) -> u32
    requires { place ≤ length (joined cut.now.text) }
    ensures { result ≡ landed cut.now.start cut.now.end cut.now.grown points place }
{
    let free = cleared(cut.start, cut.end, points, place);
    let drawn = if free <= cut.start {
        free
    } else {
        free - (cut.end - cut.start)
    };
    if drawn > cut.start || (drawn == cut.start && points) {
        drawn + cut.grown
    } else {
        drawn
    }
}
