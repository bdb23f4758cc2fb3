//! What the two deletions ask for: units or characters round the selection go, and it stays with the composing region.

ghost use Rattle.std.specs.Prelude.{◌≡◌, ◌<◌, IfOk};
ghost use Rattle.text_cut.specs.Halves.{joined};
ghost use Rattle.trace_model.specs.Items.{no_incoming, deletions, spared, around, points_around, delete_around, delete_points};
ghost use Rattle.edit_model.specs.declared.items.Planned.TheVariants as plan;
ghost use Rattle.replace_engine.specs.Places.{LiesIn};

use crate::counting::{counted_back, counted_on};
use edit_base::{Incoming, Items, NoMemory, Steps};
use edit_model::{Item, Planned};
use replace_engine::SpannedText;
use selection_ops::halves_of;
use std::alloc::Global;
use std::marker::Brand;
use std::sync::ledger::{Blank, Ledger};
use text_cut::Halves;

/// What a deletion leaves: all from the first to the last place of selection and region.
fn spared(chosen: (u32, u32), region: Option<(u32, u32)>) -> (u32, u32)
    ensures { result ≡ spared chosen region }
{
    let start = chosen.0.min(chosen.1);
    let end = chosen.0.max(chosen.1);
    match region {
        Some(range) => (start.min(range.0), end.max(range.1)),
        None => (start, end),
    }
}

/// Nothing comes.
fn no_incoming(alloc: Global) -> Incoming
    ensures { result ≡ no_incoming }
{
    Incoming {
        units: Items::from_vec(Vec::new(alloc)),
        spans: Items::from_vec(Vec::new(alloc)),
        composing: false,
    }
}

/// So many units before a range go, and then so many behind it, which has come as much nearer by then.
fn deletions(alloc: Global, kept: (u32, u32), before: u32, after: u32) -> Result<Planned, NoMemory>
    ensures { IfOk result (λ planned. planned ≡ plan.Items (deletions kept.0 kept.1 before after)) }
{
    let first = Item::Write {
        start: i64::from(kept.0.saturating_sub(before)),
        end: i64::from(kept.0),
        incoming: no_incoming(alloc),
    };
    let place = i64::from(kept.1.saturating_sub(before));
    let second = Item::Write {
        start: place,
        end: place + i64::from(after),
        incoming: no_incoming(alloc),
    };
    Ok(Planned::Items(Items::from_vec(Vec::from_array(alloc, [first, second])?)))
}

/// At most `before` units before a range go, and `after` units behind it.
fn around(alloc: Global, kept: (u32, u32), before: u32, after: u32) -> Result<Planned, NoMemory>
    ensures { IfOk result (λ planned. planned ≡ around kept before after) }
{
    deletions(alloc, kept, before.min(kept.0), after)
}

/// Units round the selection go; without one there is nothing to work on.
#[tactic(auto, unfolding(trace_model::specs::Items::delete_around))]
pub fn delete_around(
    alloc: Global,
    text: &SpannedText,
    before: u32,
    after: u32,
) -> Result<Planned, NoMemory>
    ensures { IfOk result (λ planned. planned ≡ delete_around text.now.state before after) }
{
    match text.selection() {
        Some(chosen) => around(alloc, spared(chosen, text.composing()), before, after),
        None => Ok(Planned::Absent),
    }
}

/// Characters round the selection go. Where a count meets half of a pair, nothing goes. It starts a counter of its own.
#[tactic(auto, unfolding(trace_model::specs::Items::delete_points))]
pub fn delete_points(
    alloc: Global,
    text: &SpannedText,
    before: u32,
    after: u32,
) -> Result<Planned, NoMemory>
    ensures { IfOk result (λ planned. planned ≡ delete_points text.now.state before after) }
{
    match text.selection() {
        Some(chosen) => {
            let kept = spared(chosen, text.composing());
            points_around::<Brand>(alloc, &halves_of(text), kept, before, after, Blank::new(1))
        }
        None => Ok(Planned::Absent),
    }
}

/// Characters round a range go, which are counted on a counter with this blank.
fn points_around<L: Ledger>(
    alloc: Global,
    text: &Halves,
    kept: (u32, u32),
    before: u32,
    after: u32,
    blank: Blank,
) -> Result<Planned, NoMemory>
    requires within { LiesIn (joined text.now) kept }
    requires name { blank.name ≡ L.name }
    requires parts { blank.parts ≡ L.parts }
    requires some { 0 < blank.parts }
    ensures { IfOk result (λ planned. planned ≡ points_around (joined text.now) kept before after) }
{
    let mut steps = Steps::<L>::start(blank);
    let Some(first) = counted_back(text, before, kept.0, &mut steps) else {
        return Ok(Planned::Ignored);
    };
    let Some(last) = counted_on(text, after, kept.1, &mut steps) else {
        return Ok(Planned::Ignored);
    };
    deletions(alloc, kept, kept.0 - first, last - kept.1)
}
