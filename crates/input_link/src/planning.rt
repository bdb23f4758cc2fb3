//! What a connection's commands ask for, in order.

ghost use Rattle.std.specs.Prelude.{◌≡◌, [], ◌∷◌, pos, true, false, IfOk};
ghost use Rattle.edit_model.specs.declared.items.Item.TheVariants as item;
ghost use Rattle.trace_model.specs.Items.{cursor_place, with_region, text_items, compose_items, commit_items, finish_items, region_items, select_item};
ghost use Rattle.edit_model.specs.Selection.{lesser, greater};

use edit_base::{Edit, Incoming, NoMemory};
use edit_model::Item;
use replace_engine::SpannedText;
use selection_ops::cursor_place;
use std::alloc::Global;

/// The text becomes the composing text, in the place of the composing region or else of the selection.
#[tactic(auto, unfolding(trace_model::specs::Items::compose_items))]
pub fn compose(
    alloc: Global,
    text: &SpannedText,
    incoming: &Incoming,
    cursor: i32,
) -> Result<Vec<Item>, NoMemory>
    ensures { IfOk result (λ items. items.items ≡ compose_items text.now.state incoming.now cursor) }
{
    plan_text(alloc, text, copied(alloc, incoming, true)?, cursor)
}

/// The text comes in the place of the composing region or else of the selection, and nothing is composed any more.
#[tactic(auto, unfolding(trace_model::specs::Items::commit_items))]
pub fn commit(
    alloc: Global,
    text: &SpannedText,
    incoming: &Incoming,
    cursor: i32,
) -> Result<Vec<Item>, NoMemory>
    ensures { IfOk result (λ items. items.items ≡ commit_items text.now.state incoming.now cursor) }
{
    plan_text(alloc, text, copied(alloc, incoming, false)?, cursor)
}

/// The composing text goes, where there is a region, and the text comes.
fn plan_text(
    alloc: Global,
    text: &SpannedText,
    incoming: Incoming,
    cursor: i32,
) -> Result<Vec<Item>, NoMemory>
    ensures { IfOk result (λ items. items.items ≡ text_items text.now.state incoming cursor) }
{
    match text.composing() {
        Some(range) => {
            let [place, write] = text_over(range, incoming, cursor);
            Ok(Vec::from_array(alloc, [Item::Drop, place, write])?)
        }
        None => {
            let range = text.selection().unwrap_or((0, 0));
            let [place, write] = text_over(range, incoming, cursor);
            Ok(Vec::from_array(alloc, [place, write])?)
        }
    }
}

/// The cursor is placed in the old text, and then the text comes in the range's place.
fn text_over(range: (u32, u32), incoming: Incoming, cursor: i32) -> [Item; 2]
    ensures { result ≡ item.Cursor (cursor_place (lesser range) (greater range) cursor)
        ∷ item.Write (pos (lesser range)) (pos (greater range)) incoming ∷ [] }
{
    let start = range.0.min(range.1);
    let end = range.0.max(range.1);
    let place = Item::Cursor {
        at: cursor_place(start, end, cursor),
    };
    let write = Item::Write {
        start: i64::from(start),
        end: i64::from(end),
        incoming,
    };
    [place, write]
}

/// A copy, with the composing region over its units or without one.
fn copied(alloc: Global, incoming: &Incoming, composing: bool) -> Result<Incoming, NoMemory>
    ensures { IfOk result (λ copy. copy ≡ with_region composing incoming.now) }
{
    let mut copy = incoming.copy(alloc)?;
    copy.composing = composing;
    Ok(copy)
}

/// The composing text goes.
pub fn finish(alloc: Global) -> Result<Vec<Item>, NoMemory>
    ensures { IfOk result (λ items. items.items ≡ finish_items) }
{
    Ok(Vec::from_array(alloc, [Item::Drop])?)
}

/// The units between the two places become the composing region, whichever place is the lesser.
pub fn region(alloc: Global, start: i32, end: i32) -> Result<Vec<Item>, NoMemory>
    ensures { IfOk result (λ items. items.items ≡ region_items start end) }
{
    let mark = Item::Mark {
        start: i64::from(start),
        end: i64::from(end),
    };
    Ok(Vec::from_array(alloc, [Item::Drop, mark])?)
}

/// The selection goes to these places.
pub fn select_items(start: i32, end: i32) -> Item
    ensures { result ≡ select_item start end }
{
    Item::Edit(Edit::Select { start, end })
}

/// The selection goes.
pub fn deselect_items() -> Item
    ensures { result ≡ item.Deselect }
{
    Item::Deselect
}
