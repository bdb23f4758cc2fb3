//! Spans that a replacement empties and moves.

ghost use Rattle.std.specs.Prelude.{◌≡◌, ◌≤◌, ◌+◌, ◌-◌, [], true, Some, None, filter, length, vec_capacity, map};
ghost use Rattle.std.specs.List.{All, list_any};
ghost use Rattle.std.specs.List.Sorted.{IsNonDecreasingBy, IsPermutation};
ghost use Rattle.edit_model.specs.Boundaries.{next_boundary};
ghost use Rattle.edit_model.specs.Replaced.{emptied_spans, is_emptied, kept_spans, moved_span};
ghost use Rattle.edit_model.specs.Rows.{IsAtOrder, span_of, spans_in};
ghost use Rattle.interval_tree.specs.Answers.{IsForward, orders_of};
ghost use Rattle.moved_rows.specs.Moves.{IsBegun};
ghost use Rattle.moved_rows.specs.Moving.{IsSpanWithin};
ghost use Rattle.moved_rows.specs.Removing.{passing};
ghost use Rattle.span_table.specs.Table.{spans_of};
ghost use Rattle.text_cut.specs.Halves.{joined};
ghost use Rattle.text_cut.specs.Pulled.{pulls_one};
ghost use Rattle.replace_engine.specs.Moved.{AreLeft, is_paragraph_span, is_plain};
ghost use Rattle.replace_engine.specs.Rows.{whole};

use edit_base::{SpanRow, Steps};
use interval_tree::SpanIndex;
use moved_rows::{MovedRows, insert_units, move_rows, remove_rows};
use span_flags::is_emptied;
use std::sync::ledger::Ledger;
use text_cut::Cut;

/// The spans that are emptied when the units from `start` to `end` become `grown` units go to the removed ones, in order
/// of attachment. Of the rows only those that touch the range are read. The list has room for all rows.
pub fn drop_emptied<L: Ledger>(
    moved: &mut MovedRows,
    start: u32,
    end: u32,
    grown: u32,
    removed: &mut Vec<SpanRow>,
    steps: &mut Steps<L>,
)
    requires none { removed.old.items ≡ [] }
    requires begun { IsBegun moved.old }
    requires forward { All IsForward (spans_of moved.old.rows) }
    requires room { length moved.old.rows.kept ≤ vec_capacity removed.old }
    ensures begun { IsBegun moved.new }
    ensures kept { spans_of moved.new.rows ≡ kept_spans start end grown (spans_of moved.old.rows) }
    ensures removed { spans_in removed.new.items ≡ emptied_spans start end grown (spans_of moved.old.rows) }
    ensures gap { moved.new.rows.gap ≡ moved.old.rows.gap }
    ensures gap_room { moved.new.rows.room ≡ moved.old.rows.room }
    ensures spare { moved.old.rows.spare ≤ moved.new.rows.spare }
    ensures fewer { length moved.new.rows.kept ≤ length moved.old.rows.kept }
    ensures capacity { vec_capacity removed.old ≤ vec_capacity removed.new }
    ensures none_cut { start ≡ end → moved.new ≡ moved.old }
    ensures idle { start ≡ end → steps.new ≡ steps.old }
    ensures more { steps.old ≤ steps.new }
    ensures ticks { steps.new ≤ steps.old + length moved.old.rows.kept }
{
    if start == end {
        return;
    }
    find_emptied(moved.rows(), start, end, grown, removed, steps);
    remove_rows(moved, removed);
}

/// The rows that are emptied, in order of attachment. `found` is cleared first, and has room for all rows.
fn find_emptied<L: Ledger>(
    rows: &SpanIndex,
    start: u32,
    end: u32,
    grown: u32,
    found: &mut Vec<SpanRow>,
    steps: &mut Steps<L>,
)
    requires forward { All IsForward (spans_of rows.now) }
    requires room { length rows.now.kept ≤ vec_capacity found.old }
    ensures spans { spans_in found.new.items ≡ emptied_spans start end grown (spans_of rows.now) }
    ensures orders { orders_of found.new.items ≡ passing (is_emptied start end grown) (spans_of rows.now) }
    ensures capacity { vec_capacity found.old ≤ vec_capacity found.new }
    ensures more { steps.old ≤ steps.new }
    ensures ticks { steps.new ≤ steps.old + length rows.now.kept }
{
    // There is room, so this succeeds.
    let _ = rows.touching(start, end, found, steps);
    keep_emptied(found, start, end, grown);
    sort_by_order(found);
}

/// Of these rows those that are emptied.
fn keep_emptied(rows: &mut Vec<SpanRow>, start: u32, end: u32, grown: u32)
    ensures rows { rows.new.items ≡ filter (λ row. is_emptied start end grown (span_of row)) rows.old.items }
    ensures capacity { vec_capacity rows.new ≡ vec_capacity rows.old }
{
    rows.retain(|row| is_emptied(row, start, end, grown));
}

fn sort_by_order(rows: &mut Vec<SpanRow>)
    ensures permutation { IsPermutation rows.old.items rows.new.items }
    ensures rising { IsNonDecreasingBy (λ row. row.order) rows.new.items }
    ensures capacity { vec_capacity rows.new ≡ vec_capacity rows.old }
{
    rows.sort_unstable_by_key(order);
}

fn order(row: &SpanRow) -> u64
    ensures { result ≡ row.now.order }
{
    row.order
}

/// Whether the gap alone moves all ends: no unit goes, and those that come don't come behind the last one of a text in
/// which a span's ends stay at boundaries of paragraphs.
fn is_plain(moved: &MovedRows, start: u32, end: u32, len: u32) -> bool
    ensures { result ≡ is_plain start end len (spans_of moved.now.rows) }
{
    start == end && !(end == len && has_paragraphs(moved))
}

/// Whether a span's ends stay at boundaries of paragraphs.
fn has_paragraphs(moved: &MovedRows) -> bool
    ensures { result ≡ list_any is_paragraph_span (spans_of moved.now.rows) }
{
    moved.rows().paragraphs() > 0
}

/// The rows that a replacement of the units from `start` to `end` moves otherwise than by the gap alone: those that
/// touch the range. Where it moves none so, no row is read. `touched` has room for all rows.
pub fn touch<L: Ledger>(
    moved: &MovedRows,
    start: u32,
    end: u32,
    len: u32,
    touched: &mut Vec<SpanRow>,
    steps: &mut Steps<L>,
)
    requires room { length moved.now.rows.kept ≤ vec_capacity touched.old }
    ensures rows { All (IsAtOrder (spans_of moved.now.rows)) touched.new.items }
    ensures rest { AreLeft start end len (spans_of moved.now.rows) touched.new.items }
    ensures capacity { vec_capacity touched.old ≤ vec_capacity touched.new }
    ensures idle { is_plain start end len (spans_of moved.now.rows) ≡ true → steps.new ≡ steps.old }
    ensures more { steps.old ≤ steps.new }
    ensures ticks { steps.new ≤ steps.old + length moved.now.rows.kept }
{
    touched.clear();
    if is_plain(moved, start, end, len) {
        return;
    }
    // There is room, so this succeeds.
    let _ = moved.rows().touching(start, end, touched, steps);
}

/// Every end goes where the end table takes it. The gap stands at the end of the cut, and no emptied span is left.
pub fn move_spans(cut: &Cut, touched: &[SpanRow], moved: &mut MovedRows)
    requires begun { IsBegun moved.old }
    requires gap { moved.old.rows.gap ≡ cut.now.end }
    requires rows { All (IsAtOrder (spans_of moved.old.rows)) touched.now }
    requires rest { AreLeft cut.now.start cut.now.end (length (joined cut.now.text)) (spans_of moved.old.rows)
        touched.now }
    requires boundary { pulls_one cut.now.start cut.now.end (spans_in touched.now) ≡ true
        → cut.now.boundary ≡ Some (next_boundary (joined cut.now.text) cut.now.end) }
    requires over { All (IsSpanWithin (length (joined cut.now.text))) (spans_of moved.old.rows) }
    requires room { moved.old.rows.room + length (joined cut.now.text) ≡ whole }
    ensures spans { spans_of moved.new.rows
        ≡ map (moved_span cut.now.start cut.now.end cut.now.grown (joined cut.now.text)) (spans_of moved.old.rows) }
    ensures before { moved.new.before ≡ spans_of moved.old.rows }
    ensures told { moved.new.told ≡ None }
    ensures gap { moved.new.rows.gap ≡ cut.now.start + cut.now.grown }
    ensures gap_room { moved.new.rows.room + cut.now.grown ≡ moved.old.rows.room + (cut.now.end - cut.now.start) }
    ensures spare { moved.old.rows.spare ≤ moved.new.rows.spare }
{
    if is_plain(moved, cut.start, cut.end, cut.text.len()) {
        insert_units(moved, cut.grown, &cut.text);
    } else {
        move_rows(moved, touched, cut);
    }
}
