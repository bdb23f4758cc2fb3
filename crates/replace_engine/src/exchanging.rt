//! What a replacement makes of the spans.

ghost use Rattle.std.specs.Prelude.{◌≡◌, ◌≤◌, ◌+◌, ◌-◌, ◌*◌, ◌++◌, true, length, vec_capacity};
ghost use Rattle.edit_base.specs.declared.bounds.TheConstants.Limits.{SPANS, TEXT};
ghost use Rattle.edit_model.specs.Changed.{replaced_effect};
ghost use Rattle.edit_model.specs.Replaced.{spliced_length};
ghost use Rattle.edit_model.specs.WellFormed.{IsWellFormed};
ghost use Rattle.text_cut.specs.Halves.{joined};
ghost use Rattle.span_table.specs.Table.{spans_of};
ghost use Rattle.span_changes.specs.Changes.{effect_of};
ghost use Rattle.replace_engine.specs.Exchange.{comes, stays};
ghost use Rattle.replace_engine.specs.Moved.{is_plain};
ghost use Rattle.replace_engine.specs.Rows.{whole};
ghost use Rattle.span_changes.specs.Rows.{HasRoom, IsTold, KeepsRoom, state_with};

use crate::arriving::attach_coming;
use crate::moving::{drop_emptied, move_spans, touch};
use edit_base::{SpanRow, Steps};
use span_changes::Change;
use std::sync::ledger::Ledger;
use text_cut::{Coming, Cut, Halves, boundary_behind};

/// A replacement of the units from `start` to `end` by these, with the spans that come.
#[derive(Clone, Copy)]
pub struct Exchange<'a> {
    pub text: Halves<'a>,
    pub start: u32,
    pub end: u32,
    pub brought: &'a [u16],
    pub coming: Coming<'a>,
}

/// Emptied spans go, every other end moves, the spans that come stand behind them, and the change says so. `touched`
/// has room for all rows.
pub fn exchange_spans<L: Ledger>(
    asked: &Exchange,
    touched: &mut Vec<SpanRow>,
    change: &mut Change,
    steps: &mut Steps<L>,
)
    requires order { asked.now.start ≤ asked.now.end }
    requires within { asked.now.end ≤ length (joined asked.now.text) }
    requires short { spliced_length (length (joined asked.now.text)) asked.now.start asked.now.end
        (length asked.now.brought.now) ≤ TEXT }
    requires formed { IsWellFormed (state_with (joined asked.now.text) change.old.moved.rows) }
    requires width { change.old.moved.rows.room + length (joined asked.now.text) ≡ whole }
    requires room { HasRoom (length change.old.moved.rows.kept) (vec_capacity touched.old) change.old }
    requires few { length (stays asked.now (spans_of change.old.moved.rows)
        ++ comes asked.now (spans_of change.old.moved.rows)) ≤ SPANS }
    requires spare { length (comes asked.now (spans_of change.old.moved.rows)) ≤ change.old.moved.rows.spare }
    requires added { length (comes asked.now (spans_of change.old.moved.rows)) ≤ vec_capacity change.old.added }
    ensures rows { spans_of change.new.moved.rows
        ≡ stays asked.now (spans_of change.old.moved.rows) ++ comes asked.now (spans_of change.old.moved.rows) }
    ensures effect { effect_of change.new ≡ replaced_effect (state_with (joined asked.now.text) change.old.moved.rows)
        asked.now.start asked.now.end (length asked.now.brought.now)
        (comes asked.now (spans_of change.old.moved.rows)) }
    ensures tells { IsTold change.new }
    ensures gap { change.new.moved.rows.gap ≡ asked.now.start + length asked.now.brought.now }
    ensures gap_room { change.new.moved.rows.room + length asked.now.brought.now
        ≡ change.old.moved.rows.room + (asked.now.end - asked.now.start) }
    ensures count { length change.new.moved.rows.kept
        ≤ length change.old.moved.rows.kept + length (comes asked.now (spans_of change.old.moved.rows)) }
    ensures left { change.old.moved.rows.spare
        ≤ change.new.moved.rows.spare + length (comes asked.now (spans_of change.old.moved.rows)) }
    ensures touched { vec_capacity touched.old ≤ vec_capacity touched.new }
    ensures lists { KeepsRoom change.old change.new }
    ensures idle { is_plain asked.now.start asked.now.end (length (joined asked.now.text))
        (spans_of change.old.moved.rows) ≡ true → steps.new ≡ steps.old }
    ensures more { steps.old ≤ steps.new }
    ensures ticks { steps.new ≤ steps.old + 2 * length change.old.moved.rows.kept }
{
    let Exchange {
        text,
        start,
        end,
        brought,
        coming,
    } = *asked;
    change.start(start, end, brought.len() as u32);
    change.moved.bring_gap(end);
    drop_emptied(
        &mut change.moved,
        start,
        end,
        brought.len() as u32,
        &mut change.removed,
        steps,
    );
    touch(&change.moved, start, end, text.len(), touched, steps);
    let boundary = boundary_behind(&text, touched, start, end);
    let cut = Cut::new(&text, start, end, brought, boundary);
    move_spans(&cut, touched, &mut change.moved);
    attach_coming(&coming, &cut, &mut change.moved, &mut change.added);
}
