//! Items and edits resolved to steps, and their texts filtered.

ghost use Rattle.std.specs.Prelude.{◌≡◌, ◌≤◌, length, IfOk, if◌then◌else◌};
ghost use Rattle.edit_base.specs.declared.bounds.TheConstants.Limits.{TEXT};
ghost use Rattle.edit_model.specs.declared.steps.Step.TheVariants.{Replace};
ghost use Rattle.edit_model.specs.State.{State, place};
ghost use Rattle.edit_model.specs.Brought.{IsBrought};
ghost use Rattle.edit_model.specs.Filtered.{lies_within, filtered, filtered_step};
ghost use Rattle.edit_model.specs.Fitting.{IsFittingStep, IsFittingItem, HasTurn};
ghost use Rattle.edit_model.specs.Laws.{BringsOrdered};
ghost use Rattle.edit_model.specs.Machine.{alone, resolved_edit, clamped, resolved};

use edit_base::{Edit, Incoming, Items, NoMemory};
use edit_model::{Filter, Item, Step};
use input_filters::filter_all;
use replace_engine::SpannedText;
use span_flags::{goes_below, goes_beyond, place_of};
use std::alloc::Global;

/// The step that an item is resolved to at its turn, in the text that stands then.
#[tactic(auto, unfolding(edit_model::specs::Machine::resolved))]
pub fn resolve(alloc: Global, item: &Item, text: &SpannedText) -> Result<Step, NoMemory>
    requires fitting { IsFittingItem item.now }
    requires ready { HasTurn text.now.state item.now }
    ensures step { IfOk result (λ step. step ≡ resolved text.now.state item.now) }
    ensures fitting { IfOk result IsFittingStep }
    ensures ordered { IfOk result (BringsOrdered text.now.state) }
{
    match item {
        Item::Edit(edit) => resolve_edit(alloc, edit),
        Item::Replace {
            start,
            end,
            incoming,
        } => replacement(alloc, *start, *end, incoming),
        Item::Write {
            start,
            end,
            incoming,
        } => replacement(
            alloc,
            clamp(*start, text) as i32,
            clamp(*end, text) as i32,
            incoming,
        ),
        Item::Cursor { at } => {
            let at = clamp(*at, text) as i32;
            Ok(Step::Select { start: at, end: at })
        }
        Item::Mark { start, end } => {
            let (start, end) = (clamp(*start, text), clamp(*end, text));
            Ok(Step::Mark {
                start: start.min(end),
                end: start.max(end),
            })
        }
        Item::Drop => Ok(Step::Drop),
        Item::Deselect => Ok(Step::Deselect),
    }
}

// A place of a connection's item, in the text: one before it goes to its start, and one behind it to its end.
fn clamp(at: i64, text: &SpannedText) -> u32
    ensures place { result ≡ clamped text.now.state at }
    ensures limit { result ≤ TEXT }
{
    let length = text.len();
    if at < 0 {
        return 0;
    }
    if at > i64::from(length) {
        return length;
    }
    at as u32
}

// A replacement by what comes.
fn replacement(alloc: Global, start: i32, end: i32, incoming: &Incoming) -> Result<Step, NoMemory>
    ensures { IfOk result (λ step. step ≡ Replace start end incoming.now) }
{
    Ok(Step::Replace {
        start,
        end,
        incoming: incoming.copy(alloc)?,
    })
}

/// The step that an edit is resolved to.
#[tactic(auto, unfolding(edit_model::specs::Machine::resolved_edit))]
pub fn resolve_edit(alloc: Global, edit: &Edit) -> Result<Step, NoMemory>
    ensures step { IfOk result (λ step. step ≡ resolved_edit edit.now) }
    ensures fitting { IfOk result IsFittingStep }
    ensures ordered { (state : State) → IfOk result (BringsOrdered state) }
{
    match edit {
        Edit::Replace { start, end, text } => Ok(Step::Replace {
            start: *start,
            end: *end,
            incoming: come_alone(alloc, text.as_slice())?,
        }),
        Edit::SetSpan {
            id,
            start,
            end,
            flags,
            what,
        } => Ok(Step::Set {
            id: *id,
            start: *start,
            end: *end,
            flags: *flags,
            what: *what,
        }),
        Edit::RemoveSpan { id } => Ok(Step::Remove { id: *id }),
        Edit::Select { start, end } => Ok(Step::Select {
            start: *start,
            end: *end,
        }),
    }
}

// Units that come without spans.
fn come_alone(alloc: Global, units: &[u16]) -> Result<Incoming, NoMemory>
    requires { length units.now ≤ Incoming.MOST }
    ensures incoming { IfOk result (λ it. it ≡ alone units.now) }
    ensures brought { IfOk result IsBrought }
{
    Ok(Incoming {
        units: Items::from_vec(units.to_vec(alloc)?),
        spans: Items::from_vec(Vec::new(alloc)),
        composing: false,
    })
}

/// A step with its text filtered, where its places lie in the text.
pub fn bring(
    alloc: Global,
    filters: &[Filter],
    step: &Step,
    text: &SpannedText,
) -> Result<Step, NoMemory>
    requires fitting { IsFittingStep step.now }
    requires ordered { BringsOrdered text.now.state step.now }
    ensures step { IfOk result (λ it. it ≡ filtered_step filters.now text.now.state step.now) }
    ensures fitting { IfOk result IsFittingStep }
    ensures ordered { IfOk result (BringsOrdered text.now.state) }
{
    match step {
        Step::Replace {
            start,
            end,
            incoming,
        } => Ok(Step::Replace {
            start: *start,
            end: *end,
            incoming: filter(alloc, filters, *start, *end, incoming, text)?,
        }),
        Step::Set {
            id,
            start,
            end,
            flags,
            what,
        } => Ok(Step::Set {
            id: *id,
            start: *start,
            end: *end,
            flags: *flags,
            what: *what,
        }),
        Step::Remove { id } => Ok(Step::Remove { id: *id }),
        Step::Select { start, end } => Ok(Step::Select {
            start: *start,
            end: *end,
        }),
        Step::Deselect => Ok(Step::Deselect),
        Step::Drop => Ok(Step::Drop),
        Step::Mark { start, end } => Ok(Step::Mark {
            start: *start,
            end: *end,
        }),
    }
}

// What the filters make of an incoming text, where its places lie in the text, and else a copy.
fn filter(
    alloc: Global,
    filters: &[Filter],
    start: i32,
    end: i32,
    incoming: &Incoming,
    text: &SpannedText,
) -> Result<Incoming, NoMemory>
    requires { IsBrought incoming.now }
    ensures incoming { IfOk result (λ it. it ≡ (if lies_within text.now.state start end
        then filtered filters.now incoming.now (length text.now.state.units) (place start) (place end)
        else incoming.now)) }
    ensures brought { IfOk result IsBrought }
{
    if !lies_within(start, end, text) {
        return incoming.copy(alloc);
    }
    filter_all(
        alloc,
        filters,
        incoming,
        text.len(),
        place_of(start),
        place_of(end),
    )
}

// Whether the places lie in the text, in order.
fn lies_within(start: i32, end: i32, text: &SpannedText) -> bool
    ensures { result ≡ lies_within text.now.state start end }
{
    end >= start && !goes_beyond(text.len(), start, end) && !goes_below(start, end)
}
