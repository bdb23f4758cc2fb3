//! What a command asks its text for.

ghost use Rattle.std.specs.Prelude.{◌≡◌, [], ◌∷◌, IfOk};
ghost use Rattle.edit_model.specs.declared.items.Item.TheVariants as item;
ghost use Rattle.edit_model.specs.declared.items.Planned.TheVariants as planned;
ghost use Rattle.trace_model.specs.Items.{items_of, items_in, selection_planned};

use edit_base::{Edit, Incoming, Items, NoMemory};
use edit_model::{Item, Planned};
use input_link::{
    commit, compose, delete_around, delete_points, deselect_items, finish, region, select_items,
};
use replace_engine::SpannedText;
use span_flags::{goes_below, goes_beyond};
use std::alloc::Global;
use trace_model::Command;

/// The items of a command, or that there is nothing to work on. A query, and a batch that begins or ends, have none.
#[tactic(auto, unfolding(trace_model::specs::Items::items_of))]
pub fn plan(alloc: Global, text: &SpannedText, command: &Command) -> Result<Planned, NoMemory>
    ensures { IfOk result (λ it. it ≡ items_of text.now.state command.now) }
{
    match command {
        Command::Replace {
            start,
            end,
            incoming,
        } => replacement(alloc, *start, *end, incoming),
        Command::SetSpan {
            id,
            start,
            end,
            flags,
            what,
        } => {
            let edit = Edit::SetSpan {
                id: *id,
                start: *start,
                end: *end,
                flags: *flags,
                what: *what,
            };
            one(alloc, Item::Edit(edit))
        }
        Command::RemoveSpan { id } => one(alloc, Item::Edit(Edit::RemoveSpan { id: *id })),
        Command::Select { start, end } => one(alloc, select_items(*start, *end)),
        Command::Deselect => one(alloc, deselect_items()),
        Command::Compose { incoming, cursor } => Ok(listed(compose(
            alloc, text, incoming, *cursor,
        )?)),
        Command::Commit { incoming, cursor } => Ok(listed(commit(alloc, text, incoming, *cursor)?)),
        Command::Finish => Ok(listed(finish(alloc)?)),
        Command::Region { start, end } => Ok(listed(region(alloc, *start, *end)?)),
        Command::DeleteAround { before, after } => delete_around(alloc, text, *before, *after),
        Command::DeletePoints { before, after } => delete_points(alloc, text, *before, *after),
        Command::SetSelection { start, end } => selection(alloc, text, *start, *end),
        Command::SpansOver { .. } => Ok(none(alloc)),
        Command::NextEdge { .. } => Ok(none(alloc)),
        Command::TextBefore { .. } => Ok(none(alloc)),
        Command::TextAfter { .. } => Ok(none(alloc)),
        Command::Selected => Ok(none(alloc)),
        Command::Begin => Ok(none(alloc)),
        Command::End => Ok(none(alloc)),
    }
}

/// The items, if there are some.
pub fn items_in(planned: &Planned) -> &[Item]
    ensures { result.now ≡ items_in planned.now }
{
    match planned {
        Planned::Items(items) => items.as_slice(),
        Planned::Absent => &[],
        Planned::Ignored => &[],
    }
}

// No items.
fn none(alloc: Global) -> Planned
    ensures { result ≡ planned.Items [] }
{
    listed(Vec::new(alloc))
}

// One item.
fn one(alloc: Global, item: Item) -> Result<Planned, NoMemory>
    ensures { IfOk result (λ it. it ≡ planned.Items (item ∷ [])) }
{
    Ok(listed(Vec::from_array(alloc, [item])?))
}

// These items.
fn listed(items: Vec<Item>) -> Planned
    ensures { result ≡ planned.Items items.items }
{
    Planned::Items(Items::from_vec(items))
}

// A replacement by what comes.
fn replacement(
    alloc: Global,
    start: i32,
    end: i32,
    incoming: &Incoming,
) -> Result<Planned, NoMemory>
    ensures { IfOk result (λ it. it ≡ planned.Items (item.Replace start end incoming.now ∷ [])) }
{
    let incoming = incoming.copy(alloc)?;
    one(
        alloc,
        Item::Replace {
            start,
            end,
            incoming,
        },
    )
}

// A connection's selection, which is passed over where an end lies outside the text.
fn selection(alloc: Global, text: &SpannedText, start: i32, end: i32) -> Result<Planned, NoMemory>
    ensures { IfOk result (λ it. it ≡ selection_planned text.now.state start end) }
{
    if goes_beyond(text.len(), start, end) || goes_below(start, end) {
        Ok(Planned::Ignored)
    } else {
        one(alloc, select_items(start, end))
    }
}
