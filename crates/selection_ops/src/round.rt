//! The text round the selection. Without one, counting starts at the text's start.

ghost use Rattle.std.specs.Prelude.{◌≡◌, IfOk};
ghost use Rattle.std.specs.Option.{option_map};
ghost use Rattle.text_cut.specs.Halves.{joined};
ghost use Rattle.edit_model.specs.Selection.{text_before, text_after, selected};

use crate::copying::stretch;
use edit_base::NoMemory;
use replace_engine::SpannedText;
use std::alloc::Global;
use text_cut::Halves;

/// The text as two halves.
pub fn halves_of(text: &SpannedText) -> Halves<'_>
    ensures { joined result ≡ text.now.state.units }
{
    let (left, right) = text.halves();
    Halves { left, right }
}

/// At most `count` units before the selection's lesser end.
#[tactic(auto, unfolding(edit_model::specs::Selection::text_before))]
pub fn text_before(alloc: Global, text: &SpannedText, count: u32) -> Result<Vec<u16>, NoMemory>
    ensures { IfOk result (λ units. units.items ≡ text_before text.now.state count) }
{
    let (a, b) = text.selection().unwrap_or((0, 0));
    let to = a.min(b);
    stretch(alloc, &halves_of(text), to.saturating_sub(count), to)
}

/// At most `count` units behind the selection's greater end.
#[tactic(auto, unfolding(edit_model::specs::Selection::text_after))]
pub fn text_after(alloc: Global, text: &SpannedText, count: u32) -> Result<Vec<u16>, NoMemory>
    ensures { IfOk result (λ units. units.items ≡ text_after text.now.state count) }
{
    let (start, end) = text.selection().unwrap_or((0, 0));
    let from = start.max(end);
    stretch(
        alloc,
        &halves_of(text),
        from,
        from + count.min(text.len() - from),
    )
}

/// The units that are selected, where there are some.
#[tactic(auto, unfolding(edit_model::specs::Selection::selected))]
pub fn selected(alloc: Global, text: &SpannedText) -> Result<Option<Vec<u16>>, NoMemory>
    ensures { IfOk result (λ units. option_map (λ list. list.items) units ≡ selected text.now.state) }
{
    match text.selection() {
        Some((a, b)) if a != b => Ok(Some(stretch(alloc, &halves_of(text), a.min(b), a.max(b))?)),
        _ => Ok(None),
    }
}
