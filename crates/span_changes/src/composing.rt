//! The composing region, and the spans that go together with it.

ghost use Rattle.std.specs.Prelude.{ℕ, List, ◌≡◌, ◌≤◌, ◌<◌, ◌+◌, ◌++◌, ◌∷◌, ◌&&◌, [], length, filter, not, true, false, is_some, vec_capacity, vec_len, OnOk, OnErr, IsOk, if◌then◌else◌};
ghost use Rattle.std.specs.List.{list_any};
ghost use Rattle.edit_base.specs.declared.bounds.TheConstants.Limits.{SPANS};
ghost use Rattle.edit_model.specs.declared.steps.Step.TheVariants.{Drop, Mark};
ghost use Rattle.edit_model.specs.Attached.{has_id};
ghost use Rattle.edit_model.specs.Changed.{spans_effect};
ghost use Rattle.edit_model.specs.Flags.{is_composing};
ghost use Rattle.edit_model.specs.Rows.{span_of, spans_in};
ghost use Rattle.edit_model.specs.Selection.{has_region, is_dropped, region, region_span};
ghost use Rattle.edit_model.specs.Verdicts.{judged};
ghost use Rattle.edit_model.specs.WellFormed.{HasDistinctIds};
ghost use Rattle.interval_tree.specs.Answers.{orders_of};
ghost use Rattle.moved_rows.specs.Removing.{passing};
ghost use Rattle.span_table.specs.Table.{spans_of};
ghost use Rattle.span_changes.specs.Changes.{effect_of};
ghost use Rattle.span_changes.specs.Rows.{HasRoom, IsTold, KeepsRoom, SeesGap, span_room, state_with};

use crate::attached::is_attached;
use crate::changes::Change;
use crate::setting::{remove_row, set_row};
use edit_base::{Limits, NoMemory, Refusal, SpanRow, Verdict, What};
use interval_tree::SpanIndex;
use moved_rows::remove_rows;
use span_flags::is_composing;
use span_table::push_within;

/// Where the composing region stands; none where it isn't attached.
pub fn region_of(rows: &SpanIndex) -> Option<(u32, u32)>
    ensures region { result ≡ region (spans_of rows.now) }
    ensures attached { is_some result ≡ has_region (spans_of rows.now) }
{
    let row = rows.rows().read(rows.find(2)?);
    Some((row.start, row.end))
}

/// The verdict of a mark in a text of this length.
#[tactic(auto, using(crate::proofs::Lists::lengths), unfolding(edit_model::specs::Verdicts::judged))]
pub fn judge_mark(len: u32, rows: &SpanIndex, start: u32, end: u32) -> Verdict
    requires few { length rows.now.kept ≤ Limits.SPANS }
    ensures { (units : List ℕ) (slots : ℕ) → length units ≡ len
        → result ≡ judged (state_with units rows.now) slots (Mark start end) }
{
    if start > len || end > len {
        return Verdict::Refused(Refusal::Beyond);
    }
    if start == end {
        return Verdict::Ignored;
    }
    if rows.rows().count() >= Limits::SPANS {
        return Verdict::Refused(Refusal::SpansFull);
    }
    Verdict::Done
}

/// The region comes behind all other rows, and the change says so. Where there is room for one more it asks for no
/// memory, and without memory nothing changes.
pub fn mark_row(
    start: u32,
    end: u32,
    touched: &mut Vec<SpanRow>,
    change: &mut Change,
) -> Result<(), NoMemory>
    requires distinct { HasDistinctIds (spans_of change.old.moved.rows) }
    requires absent { has_region (spans_of change.old.moved.rows) ≡ false }
    requires few { length change.old.moved.rows.kept ≤ SPANS }
    requires told { HasRoom (length change.old.moved.rows.kept) (vec_capacity touched.old) change.old }
    ensures rows { OnOk result (spans_of change.new.moved.rows
        ≡ spans_of change.old.moved.rows ++ region_span start end ∷ []) }
    ensures effect { OnOk result (effect_of change.new ≡ spans_effect [] [] (region_span start end ∷ [])) }
    ensures tells { IsTold change.old → IsTold change.new }
    ensures told { HasRoom (length change.new.moved.rows.kept) (vec_capacity touched.new) change.new }
    ensures err { OnErr result ((spans_of change.new.moved.rows ≡ spans_of change.old.moved.rows)
        × (effect_of change.new ≡ effect_of change.old)) }
    ensures gap { SeesGap change.old.moved.rows change.new.moved.rows }
    ensures room { length change.old.moved.rows.kept < span_room (vec_capacity touched.old) change.old → IsOk result }
    ensures touched { vec_capacity touched.old ≤ vec_capacity touched.new }
    ensures lists { KeepsRoom change.old change.new }
    ensures spare { length change.old.moved.rows.kept + change.old.moved.rows.spare
        ≤ length change.new.moved.rows.kept + change.new.moved.rows.spare }
{
    let row = SpanRow {
        id: 2,
        start,
        end,
        flags: 289,
        order: 0,
        what: What::Composing,
    };
    set_row(&row, touched, change)
}

// ---- spans that go together

/// The verdict of a drop.
#[tactic(auto, unfolding(edit_model::specs::Verdicts::judged))]
pub fn judge_drop(rows: &SpanIndex) -> Verdict
    ensures { (units : List ℕ) (slots : ℕ) → result ≡ judged (state_with units rows.now) slots Drop }
{
    if has_dropped(rows) {
        Verdict::Done
    } else {
        Verdict::NoChange
    }
}

/// Whether a drop takes a span. No row is read.
fn has_dropped(rows: &SpanIndex) -> bool
    ensures { result ≡ list_any is_dropped (spans_of rows.now) }
{
    is_attached(rows, 2) || rows.composing() > 0
}

/// The region goes, and all spans that are part of a composing text, and the change says so. All rows are read only
/// where one goes that isn't the region. There is room for telling of all rows.
pub fn drop_rows(change: &mut Change)
    requires distinct { HasDistinctIds (spans_of change.old.moved.rows) }
    requires room { length change.old.moved.rows.kept ≤ vec_capacity change.old.removed }
    ensures rows { spans_of change.new.moved.rows
        ≡ filter (λ span. not (is_dropped span)) (spans_of change.old.moved.rows) }
    ensures effect { effect_of change.new
        ≡ spans_effect (filter is_dropped (spans_of change.old.moved.rows)) [] [] }
    ensures tells { IsTold change.new }
    ensures fewer { length change.new.moved.rows.kept ≤ length change.old.moved.rows.kept }
    ensures gap { SeesGap change.old.moved.rows change.new.moved.rows }
    ensures spare { change.old.moved.rows.spare ≤ change.new.moved.rows.spare }
    ensures lists { KeepsRoom change.old change.new }
{
    if is_region_alone(change.moved.rows()) {
        remove_row(2, change);
    } else {
        drop_all(change);
    }
}

/// Whether no span but the region is part of a composing text. No row but the region's is read.
fn is_region_alone(rows: &SpanIndex) -> bool
    requires { HasDistinctIds (spans_of rows.now) }
    ensures { result ≡ not (list_any (λ span. not (has_id 2 span) && is_composing span.flags) (spans_of rows.now)) }
{
    rows.composing() == region_count(rows)
}

/// How many spans with the region's id are part of a composing text.
fn region_count(rows: &SpanIndex) -> u32
    requires { HasDistinctIds (spans_of rows.now) }
    ensures { result ≡ length (filter (λ span. has_id 2 span && is_composing span.flags) (spans_of rows.now)) }
{
    match rows.find(2) {
        Some(at) => count_composing(&rows.rows().read(at)),
        None => 0,
    }
}

fn count_composing(row: &SpanRow) -> u32
    ensures { result ≡ (if is_composing row.now.flags then 1 else 0) }
{
    if is_composing(row.flags) { 1 } else { 0 }
}

/// Each span that a drop takes goes, and the change says so.
fn drop_all(change: &mut Change)
    requires room { length change.old.moved.rows.kept ≤ vec_capacity change.old.removed }
    ensures rows { spans_of change.new.moved.rows
        ≡ filter (λ span. not (is_dropped span)) (spans_of change.old.moved.rows) }
    ensures effect { effect_of change.new
        ≡ spans_effect (filter is_dropped (spans_of change.old.moved.rows)) [] [] }
    ensures tells { IsTold change.new }
    ensures fewer { length change.new.moved.rows.kept ≤ length change.old.moved.rows.kept }
    ensures gap { SeesGap change.old.moved.rows change.new.moved.rows }
    ensures spare { change.old.moved.rows.spare ≤ change.new.moved.rows.spare }
    ensures lists { KeepsRoom change.old change.new }
{
    change.start(0, 0, 0);
    change.moved.begin();
    find_dropped(change.moved.rows(), &mut change.removed);
    remove_rows(&mut change.moved, &change.removed);
}

/// The rows that a drop takes, in order of attachment, in a list that has room for all rows.
fn find_dropped(rows: &SpanIndex, found: &mut Vec<SpanRow>)
    requires none { found.old.items ≡ [] }
    requires room { length rows.now.kept ≤ vec_capacity found.old }
    ensures spans { spans_in found.new.items ≡ filter is_dropped (spans_of rows.now) }
    ensures orders { orders_of found.new.items ≡ passing is_dropped (spans_of rows.now) }
    ensures capacity { vec_capacity found.old ≤ vec_capacity found.new }
{
    for i in 0..rows.rows().count() {
        push_dropped(rows.rows().read(i), found);
    }
}

/// The row goes behind those that are found, where a drop takes it.
fn push_dropped(row: SpanRow, found: &mut Vec<SpanRow>)
    requires room { vec_len found.old < vec_capacity found.old }
    ensures found { found.new.items
        ≡ (if is_dropped (span_of row) then found.old.items ++ row ∷ [] else found.old.items) }
    ensures capacity { vec_capacity found.old ≤ vec_capacity found.new }
{
    if row.id == 2 || is_composing(row.flags) {
        push_within(found, row);
    }
}
