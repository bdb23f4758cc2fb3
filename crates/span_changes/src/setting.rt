//! Spans that are set and removed.

ghost use Rattle.std.specs.Prelude.{◌≡◌, ◌≤◌, ◌<◌, ◌+◌, ◌++◌, [], true, false, Some, length, vec_capacity, OnOk, OnErr, IsOk};
ghost use Rattle.edit_base.specs.declared.bounds.TheConstants.Limits.{SPANS};
ghost use Rattle.edit_model.specs.Attached.{is_attached, with_span, without_span, spans_of as spans_with};
ghost use Rattle.edit_model.specs.Changed.{set_effect, spans_effect};
ghost use Rattle.edit_model.specs.Rows.{span_of, spans_in};
ghost use Rattle.edit_model.specs.WellFormed.{HasDistinctIds};
ghost use Rattle.moved_rows.specs.Moves.{IsBegun};
ghost use Rattle.span_table.specs.Table.{row_place, spans_of};
ghost use Rattle.span_changes.specs.Changes.{effect_of};
ghost use Rattle.span_changes.specs.Rows.{HasRoom, IsTold, KeepsRoom, SeesGap, span_room, state_with};

use crate::changes::Change;
use edit_base::{NoMemory, SpanRow};
use span_table::push_within;

/// The row comes to the place of the one with its id, else behind all others, and the change says so. Of an attached
/// id, or where there is room for one more, it asks for no memory, and without memory nothing changes.
pub fn set_row(
    row: &SpanRow,
    touched: &mut Vec<SpanRow>,
    change: &mut Change,
) -> Result<(), NoMemory>
    requires distinct { HasDistinctIds (spans_of change.old.moved.rows) }
    requires few { length change.old.moved.rows.kept ≤ SPANS }
    requires told { HasRoom (length change.old.moved.rows.kept) (vec_capacity touched.old) change.old }
    ensures rows { OnOk result (spans_of change.new.moved.rows
        ≡ with_span (span_of row.now) (spans_of change.old.moved.rows)) }
    ensures effect { OnOk result (effect_of change.new
        ≡ set_effect (state_with [] change.old.moved.rows) (span_of row.now)) }
    ensures tells { IsTold change.old → IsTold change.new }
    ensures told { HasRoom (length change.new.moved.rows.kept) (vec_capacity touched.new) change.new }
    ensures err { OnErr result ((spans_of change.new.moved.rows ≡ spans_of change.old.moved.rows)
        × (effect_of change.new ≡ effect_of change.old)) }
    ensures gap { SeesGap change.old.moved.rows change.new.moved.rows }
    ensures attached { is_attached row.now.id (spans_of change.old.moved.rows) ≡ true → IsOk result }
    ensures room { length change.old.moved.rows.kept < span_room (vec_capacity touched.old) change.old → IsOk result }
    ensures touched { vec_capacity touched.old ≤ vec_capacity touched.new }
    ensures lists { KeepsRoom change.old change.new }
    ensures spare { length change.old.moved.rows.kept + change.old.moved.rows.spare
        ≤ length change.new.moved.rows.kept + change.new.moved.rows.spare }
{
    match change.moved.rows().find(row.id) {
        Some(at) => {
            replace_row(at, row, change);
            Ok(())
        }
        None => append_row(row, touched, change),
    }
}

// The row comes to the place of the one with its id, and the change says so.
fn replace_row(at: u32, row: &SpanRow, change: &mut Change)
    requires distinct { HasDistinctIds (spans_of change.old.moved.rows) }
    requires few { length change.old.moved.rows.kept ≤ SPANS }
    requires at { row_place row.now.id (spans_of change.old.moved.rows) ≡ Some at }
    ensures rows { spans_of change.new.moved.rows ≡ with_span (span_of row.now) (spans_of change.old.moved.rows) }
    ensures effect { effect_of change.new ≡ set_effect (state_with [] change.old.moved.rows) (span_of row.now) }
    ensures tells { IsTold change.new }
    ensures count { length change.new.moved.rows.kept ≡ length change.old.moved.rows.kept }
    ensures gap { SeesGap change.old.moved.rows change.new.moved.rows }
    ensures spare { change.old.moved.rows.spare ≤ change.new.moved.rows.spare }
    ensures lists { KeepsRoom change.old change.new }
{
    change.start(0, 0, 0);
    change.moved.begin();
    change.moved.set(
        at,
        &SpanRow {
            order: u64::from(at),
            ..*row
        },
    );
}

// The row comes behind all others, and the change says so.
fn append_row(
    row: &SpanRow,
    touched: &mut Vec<SpanRow>,
    change: &mut Change,
) -> Result<(), NoMemory>
    requires absent { is_attached row.now.id (spans_of change.old.moved.rows) ≡ false }
    requires few { length change.old.moved.rows.kept ≤ SPANS }
    ensures rows { OnOk result (spans_of change.new.moved.rows
        ≡ with_span (span_of row.now) (spans_of change.old.moved.rows)) }
    ensures effect { OnOk result (effect_of change.new
        ≡ set_effect (state_with [] change.old.moved.rows) (span_of row.now)) }
    ensures tells { IsTold change.old → IsTold change.new }
    ensures told { OnOk result (HasRoom (length change.new.moved.rows.kept) (vec_capacity touched.new) change.new) }
    ensures err { OnErr result ((change.new.moved.rows.kept ≡ change.old.moved.rows.kept)
        × (spans_of change.new.moved.rows ≡ spans_of change.old.moved.rows)
        × (effect_of change.new ≡ effect_of change.old)) }
    ensures gap { SeesGap change.old.moved.rows change.new.moved.rows }
    ensures room { length change.old.moved.rows.kept < span_room (vec_capacity touched.old) change.old → IsOk result }
    ensures touched { vec_capacity touched.old ≤ vec_capacity touched.new }
    ensures lists { KeepsRoom change.old change.new }
    ensures spare { length change.old.moved.rows.kept + change.old.moved.rows.spare
        ≤ length change.new.moved.rows.kept + change.new.moved.rows.spare }
{
    change.reserve(1, touched)?;
    change.start(0, 0, 0);
    change.moved.begin();
    let row = SpanRow {
        order: u64::from(change.moved.rows().rows().count()),
        ..*row
    };
    push_within(&mut change.added, row);
    // There is room, so this succeeds.
    let _ = change.moved.add(&row);
    Ok(())
}

/// The row of this id goes, and the change says so.
pub fn remove_row(id: u32, change: &mut Change)
    requires distinct { HasDistinctIds (spans_of change.old.moved.rows) }
    requires room { length change.old.moved.rows.kept ≤ vec_capacity change.old.removed }
    ensures rows { spans_of change.new.moved.rows ≡ without_span id (spans_of change.old.moved.rows) }
    ensures effect { effect_of change.new ≡ spans_effect (spans_with id (spans_of change.old.moved.rows)) [] [] }
    ensures tells { IsTold change.new }
    ensures fewer { length change.new.moved.rows.kept ≤ length change.old.moved.rows.kept }
    ensures gap { SeesGap change.old.moved.rows change.new.moved.rows }
    ensures spare { change.old.moved.rows.spare ≤ change.new.moved.rows.spare }
    ensures lists { KeepsRoom change.old change.new }
{
    change.start(0, 0, 0);
    remove_also(id, change);
}

/// The row of this id goes, and the change tells of it behind those that went before.
pub fn remove_also(id: u32, change: &mut Change)
    requires distinct { HasDistinctIds (spans_of change.old.moved.rows) }
    requires room { length change.old.removed.items + length change.old.moved.rows.kept
        ≤ vec_capacity change.old.removed }
    ensures rows { spans_of change.new.moved.rows ≡ without_span id (spans_of change.old.moved.rows) }
    ensures removed { spans_in change.new.removed.items
        ≡ spans_in change.old.removed.items ++ spans_with id (spans_of change.old.moved.rows) }
    ensures begun { IsBegun change.new.moved }
    ensures fewer { length change.new.removed.items + length change.new.moved.rows.kept
        ≤ length change.old.removed.items + length change.old.moved.rows.kept }
    ensures left { length change.new.moved.rows.kept ≤ length change.old.moved.rows.kept }
    ensures start { change.new.start ≡ change.old.start }
    ensures old_end { change.new.old_end ≡ change.old.old_end }
    ensures grown { change.new.grown ≡ change.old.grown }
    ensures added { change.new.added.items ≡ change.old.added.items }
    ensures gap { SeesGap change.old.moved.rows change.new.moved.rows }
    ensures spare { change.old.moved.rows.spare ≤ change.new.moved.rows.spare }
    ensures lists { KeepsRoom change.old change.new }
{
    match change.moved.rows().find(id) {
        Some(at) => {
            push_within(&mut change.removed, change.moved.rows().rows().read(at));
            change.moved.remove(at);
        }
        None => change.moved.begin(),
    }
}
