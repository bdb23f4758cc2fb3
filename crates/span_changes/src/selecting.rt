//! The selection: two spans of length 0, both attached or neither.

ghost use Rattle.std.specs.Prelude.{ℕ, List, pos, ◌≤ℤ◌, ◌≡◌, ◌≤◌, ◌<◌, ◌+◌, ◌-◌, ◌++◌, ◌∷◌, [], filter, length, map, not, true, false, is_some, vec_capacity, vec_len, OnOk, OnErr, IsOk};
ghost use Rattle.edit_base.specs.declared.bounds.TheConstants.Limits.{SPANS};
ghost use Rattle.edit_base.specs.declared.verdicts.Verdict.TheVariants.{Done};
ghost use Rattle.edit_model.specs.declared.steps.Step.TheVariants.{Select, Deselect};
ghost use Rattle.edit_model.specs.Attached.{is_attached, spans_of as spans_with};
ghost use Rattle.edit_model.specs.Changed.{select_effect, selected_spans, spans_effect};
ghost use Rattle.std.specs.List.{slice_set};
ghost use Rattle.edit_model.specs.Rows.{spans_in};
ghost use Rattle.edit_model.specs.Selection.{are_ends, at_place, has_selection, is_of_selection, selection, selection_end, selection_start, with_ends};
ghost use Rattle.edit_model.specs.Verdicts.{first_of, judged, span_count_after_select};
ghost use Rattle.edit_model.specs.WellFormed.{HasDistinctIds};
ghost use Rattle.span_table.specs.Table.{row_place, span_at, spans_of};
ghost use Rattle.span_changes.specs.Changes.{effect_of};
ghost use Rattle.span_changes.specs.SelectVerdicts.{selection_lines};
ghost use Rattle.span_changes.specs.Rows.{HasRoom, IsTold, KeepsRoom, SeesGap, IsFurther, span_room, state_with};

use crate::attached::is_attached;
use crate::changes::Change;
use crate::setting::remove_also;
use edit_base::{Limits, NoMemory, Refusal, SpanRow, Verdict, What};
use interval_tree::SpanIndex;
use span_flags::{goes_below, goes_beyond, place_of};
use span_table::push_within;

/// Where the selection's start and end stand; none where it isn't attached.
pub fn selection_of(rows: &SpanIndex) -> Option<(u32, u32)>
    requires { is_attached 0 (spans_of rows.now) ≡ is_attached 1 (spans_of rows.now) }
    ensures ends { result ≡ selection (spans_of rows.now) }
    ensures attached { is_some result ≡ has_selection (spans_of rows.now) }
{
    let first = rows.find(0)?;
    let last = rows.find(1)?;
    Some((rows.rows().read(first).start, rows.rows().read(last).start))
}

/// Whether these are the ends.
fn are_ends(start: u32, end: u32, ends: Option<(u32, u32)>) -> bool
    ensures { result ≡ are_ends start end ends }
{
    match ends {
        Some(range) => range.0 == start && range.1 == end,
        None => false,
    }
}

/// The verdict of a select in a text of this length.
#[tactic(auto, unfolding(edit_model::specs::Verdicts::judged))]
pub fn judge_select(len: u32, rows: &SpanIndex, start: i32, end: i32) -> Verdict
    requires few { length rows.now.kept ≤ Limits.SPANS }
    requires both { is_attached 0 (spans_of rows.now) ≡ is_attached 1 (spans_of rows.now) }
    ensures verdict { (units : List ℕ) (slots : ℕ) → length units ≡ len
        → result ≡ judged (state_with units rows.now) slots (Select start end) }
    ensures starts { result ≡ Done → pos 0 ≤ℤ start }
    ensures ends { result ≡ Done → pos 0 ≤ℤ end }
{
    if goes_beyond(len, start, end) {
        return Verdict::Refused(Refusal::Beyond);
    }
    if goes_below(start, end) {
        return Verdict::Refused(Refusal::Below);
    }
    judge_ends(rows, place_of(start), place_of(end))
}

/// The verdict of a select whose places lie in the text.
fn judge_ends(rows: &SpanIndex, start: u32, end: u32) -> Verdict
    requires few { length rows.now.kept ≤ Limits.SPANS }
    requires both { is_attached 0 (spans_of rows.now) ≡ is_attached 1 (spans_of rows.now) }
    ensures { result ≡ first_of (selection_lines start end (state_with [] rows.now)) }
{
    if are_ends(start, end, selection_of(rows)) {
        return Verdict::NoChange;
    }
    if span_count_after_select(rows) > Limits::SPANS {
        return Verdict::Refused(Refusal::SpansFull);
    }
    Verdict::Done
}

/// How many spans are attached after a select.
#[tactic(auto, using(crate::proofs::Lists::lengths))]
pub fn span_count_after_select(rows: &SpanIndex) -> u32
    requires { length rows.now.kept ≤ Limits.SPANS }
    ensures { result ≡ span_count_after_select (state_with [] rows.now) }
{
    if is_attached(rows, 0) {
        rows.rows().count()
    } else {
        rows.rows().count() + 2
    }
}

/// The verdict of a deselect.
#[tactic(auto, unfolding(edit_model::specs::Verdicts::judged))]
pub fn judge_deselect(rows: &SpanIndex) -> Verdict
    ensures { (units : List ℕ) (slots : ℕ) → result ≡ judged (state_with units rows.now) slots Deselect }
{
    if is_attached(rows, 0) {
        Verdict::Done
    } else {
        Verdict::Absent
    }
}

/// The selection's ends go to their new places, or come behind all other rows, the start first, and the change says so.
/// Where they are attached, or there is room for two more, it asks for no memory, and without memory nothing changes.
pub fn select_rows(
    start: u32,
    end: u32,
    touched: &mut Vec<SpanRow>,
    change: &mut Change,
) -> Result<(), NoMemory>
    requires distinct { HasDistinctIds (spans_of change.old.moved.rows) }
    requires both { is_attached 0 (spans_of change.old.moved.rows) ≡ is_attached 1 (spans_of change.old.moved.rows) }
    requires few { length change.old.moved.rows.kept ≤ SPANS }
    requires told { HasRoom (length change.old.moved.rows.kept) (vec_capacity touched.old) change.old }
    ensures rows { OnOk result (spans_of change.new.moved.rows
        ≡ selected_spans start end (spans_of change.old.moved.rows)) }
    ensures effect { OnOk result (effect_of change.new
        ≡ select_effect (state_with [] change.old.moved.rows) start end) }
    ensures tells { IsTold change.old → IsTold change.new }
    ensures told { HasRoom (length change.new.moved.rows.kept) (vec_capacity touched.new) change.new }
    ensures err { OnErr result ((spans_of change.new.moved.rows ≡ spans_of change.old.moved.rows)
        × (effect_of change.new ≡ effect_of change.old)) }
    ensures gap { SeesGap change.old.moved.rows change.new.moved.rows }
    ensures attached { has_selection (spans_of change.old.moved.rows) ≡ true → IsOk result }
    ensures room { length change.old.moved.rows.kept + 2 ≤ span_room (vec_capacity touched.old) change.old → IsOk result }
    ensures touched { vec_capacity touched.old ≤ vec_capacity touched.new }
    ensures lists { KeepsRoom change.old change.new }
    ensures spare { length change.old.moved.rows.kept + change.old.moved.rows.spare
        ≤ length change.new.moved.rows.kept + change.new.moved.rows.spare }
{
    let rows = change.moved.rows();
    match (rows.find(0), rows.find(1)) {
        (Some(first), Some(last)) => {
            move_ends(first, last, start, end, change);
            Ok(())
        }
        _ => append_ends(start, end, touched, change),
    }
}

/// The ends of the selection at these places go to their new places, and the change says so.
fn move_ends(first: u32, last: u32, start: u32, end: u32, change: &mut Change)
    requires distinct { HasDistinctIds (spans_of change.old.moved.rows) }
    requires first { row_place 0 (spans_of change.old.moved.rows) ≡ Some first }
    requires last { row_place 1 (spans_of change.old.moved.rows) ≡ Some last }
    ensures rows { spans_of change.new.moved.rows ≡ map (with_ends start end) (spans_of change.old.moved.rows) }
    ensures effect { effect_of change.new ≡ select_effect (state_with [] change.old.moved.rows) start end }
    ensures tells { IsTold change.new }
    ensures count { length change.new.moved.rows.kept ≡ length change.old.moved.rows.kept }
    ensures gap { SeesGap change.old.moved.rows change.new.moved.rows }
    ensures spare { change.old.moved.rows.spare ≤ change.new.moved.rows.spare }
    ensures lists { KeepsRoom change.old change.new }
{
    change.start(0, 0, 0);
    change.moved.begin();
    move_end(first, start, change);
    move_end(last, end, change);
}

/// The row goes to a place, with both its ends.
fn move_end(at: u32, place: u32, change: &mut Change)
    requires within { at < length change.old.moved.before }
    requires stood { length change.old.moved.before ≡ length change.old.moved.rows.kept }
    ensures spans { spans_of change.new.moved.rows ≡ slice_set (spans_of change.old.moved.rows) at
        (at_place place (span_at (spans_of change.old.moved.rows) at)) }
    ensures further { IsFurther change.old change.new }
    ensures added { change.new.added ≡ change.old.added }
    ensures spare { change.old.moved.rows.spare ≤ change.new.moved.rows.spare }
{
    let row = SpanRow {
        start: place,
        end: place,
        ..change.moved.rows().rows().read(at)
    };
    change.moved.put(at, &row);
}

/// The ends of the selection come behind all other rows, the start first, and the change says so.
fn append_ends(
    start: u32,
    end: u32,
    touched: &mut Vec<SpanRow>,
    change: &mut Change,
) -> Result<(), NoMemory>
    requires absent { is_attached 0 (spans_of change.old.moved.rows) ≡ false }
    requires absent_too { is_attached 1 (spans_of change.old.moved.rows) ≡ false }
    requires few { length change.old.moved.rows.kept ≤ SPANS }
    ensures rows { OnOk result (spans_of change.new.moved.rows
        ≡ spans_of change.old.moved.rows ++ selection_start start ∷ selection_end end ∷ []) }
    ensures effect { OnOk result (effect_of change.new
        ≡ select_effect (state_with [] change.old.moved.rows) start end) }
    ensures tells { IsTold change.old → IsTold change.new }
    ensures told { OnOk result (HasRoom (length change.new.moved.rows.kept) (vec_capacity touched.new) change.new) }
    ensures err { OnErr result ((change.new.moved.rows.kept ≡ change.old.moved.rows.kept)
        × (spans_of change.new.moved.rows ≡ spans_of change.old.moved.rows)
        × (effect_of change.new ≡ effect_of change.old)) }
    ensures gap { SeesGap change.old.moved.rows change.new.moved.rows }
    ensures room { length change.old.moved.rows.kept + 2 ≤ span_room (vec_capacity touched.old) change.old → IsOk result }
    ensures touched { vec_capacity touched.old ≤ vec_capacity touched.new }
    ensures lists { KeepsRoom change.old change.new }
    ensures spare { length change.old.moved.rows.kept + change.old.moved.rows.spare
        ≤ length change.new.moved.rows.kept + change.new.moved.rows.spare }
{
    change.reserve(2, touched)?;
    change.start(0, 0, 0);
    change.moved.begin();
    append(0, start, 546, What::SelStart, change);
    append(1, end, 34, What::SelEnd, change);
    Ok(())
}

/// A row of no length comes behind all others, within the room that there is.
fn append(id: u32, place: u32, flags: u32, what: What, change: &mut Change)
    requires absent { is_attached id (spans_of change.old.moved.rows) ≡ false }
    requires few { length change.old.moved.rows.kept < 4294967295 }
    requires spare { 0 < change.old.moved.rows.spare }
    requires room { vec_len change.old.added < vec_capacity change.old.added }
    ensures spans { spans_of change.new.moved.rows ≡ spans_of change.old.moved.rows
        ++ record { id = id; start = place; end = place; flags = flags; what = what } ∷ [] }
    ensures further { IsFurther change.old change.new }
    ensures added { spans_in change.new.added.items ≡ spans_in change.old.added.items
        ++ record { id = id; start = place; end = place; flags = flags; what = what } ∷ [] }
    ensures spare { change.old.moved.rows.spare ≤ change.new.moved.rows.spare + 1 }
{
    let row = SpanRow {
        id,
        start: place,
        end: place,
        flags,
        order: u64::from(change.moved.rows().rows().count()),
        what,
    };
    push_within(&mut change.added, row);
    // There is room, so this succeeds.
    let _ = change.moved.add(&row);
}

/// The ends of the selection go, and the change says so.
pub fn remove_ends(change: &mut Change)
    requires distinct { HasDistinctIds (spans_of change.old.moved.rows) }
    requires room { length change.old.moved.rows.kept ≤ vec_capacity change.old.removed }
    ensures rows { spans_of change.new.moved.rows
        ≡ filter (λ span. not (is_of_selection span)) (spans_of change.old.moved.rows) }
    ensures effect { effect_of change.new
        ≡ spans_effect (filter is_of_selection (spans_of change.old.moved.rows)) [] [] }
    ensures tells { IsTold change.new }
    ensures fewer { length change.new.moved.rows.kept ≤ length change.old.moved.rows.kept }
    ensures gap { SeesGap change.old.moved.rows change.new.moved.rows }
    ensures spare { change.old.moved.rows.spare ≤ change.new.moved.rows.spare }
    ensures lists { KeepsRoom change.old change.new }
{
    change.start(0, 0, 0);
    let first = first_end(change.moved.rows());
    remove_also(first, change);
    remove_also(1 - first, change);
}

/// The id of the selection's end that comes first in the order of attachment.
fn first_end(rows: &SpanIndex) -> u32
    requires { HasDistinctIds (spans_of rows.now) }
    ensures within { result ≤ 1 }
    ensures order { spans_with result (spans_of rows.now) ++ spans_with (1 - result) (spans_of rows.now)
        ≡ filter is_of_selection (spans_of rows.now) }
{
    let Some(start) = rows.find(0) else {
        return 0;
    };
    let Some(end) = rows.find(1) else {
        return 1;
    };
    if start < end { 0 } else { 1 }
}
