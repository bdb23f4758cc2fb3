//! Rows that go together.

ghost use Rattle.std.specs.Prelude.{◌≡◌, ◌≤◌, ◌<◌, Bool, [], filter, length, not};
ghost use Rattle.std.specs.List.{All};
ghost use Rattle.edit_model.specs.State.{Span};
ghost use Rattle.interval_tree.specs.Answers.{IsRising, orders_of};
ghost use Rattle.span_table.specs.Table.{spans_of, without_at};
ghost use Rattle.moved_rows.specs.Moves.{IsBegun};
ghost use Rattle.moved_rows.specs.Removing.{passing};

use crate::moved::MovedRows;
use edit_base::SpanRow;

/// Removes the rows at the places that are the orders of these, which rise. The last one goes first, so that those that
/// are still to go stay at their places. Where these are all rows whose spans pass a test, all others are left.
pub fn remove_rows(moved: &mut MovedRows, rows: &[SpanRow])
    requires begun { IsBegun moved.old }
    requires rising { IsRising (orders_of rows.now) }
    requires within { All (λ i. i < length moved.old.rows.kept) (orders_of rows.now) }
    ensures spans { (test : Span → Bool) → orders_of rows.now ≡ passing test (spans_of moved.old.rows)
        → spans_of moved.new.rows ≡ filter (λ span. not (test span)) (spans_of moved.old.rows) }
    ensures none { rows.now ≡ [] → moved.new ≡ moved.old }
    ensures fewer { length moved.new.rows.kept ≤ length moved.old.rows.kept }
    ensures gap { moved.new.rows.gap ≡ moved.old.rows.gap }
    ensures room { moved.new.rows.room ≡ moved.old.rows.room }
    ensures spare { moved.old.rows.spare ≤ moved.new.rows.spare }
    ensures begun { IsBegun moved.new }
{
    for at in (0..rows.len()).rev() {
        remove_row(moved, &rows[at]);
    }
}

/// Removes the row at the order of this one.
fn remove_row(moved: &mut MovedRows, row: &SpanRow)
    requires { row.now.order < length moved.old.rows.kept }
    ensures kept { moved.new.rows.kept ≡ without_at row.now.order moved.old.rows.kept }
    ensures spans { spans_of moved.new.rows ≡ without_at row.now.order (spans_of moved.old.rows) }
    ensures gap { moved.new.rows.gap ≡ moved.old.rows.gap }
    ensures room { moved.new.rows.room ≡ moved.old.rows.room }
    ensures spare { moved.old.rows.spare ≤ moved.new.rows.spare }
    ensures begun { IsBegun moved.new }
{
    // The call tells that places fit 32 bits.
    let _count = moved.rows().rows().count();
    moved.remove(row.order as u32);
}
