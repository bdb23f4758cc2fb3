//! Answers of one edit.

ghost use Rattle.std.specs.Prelude.{◌≡◌, ◌≤◌, ◌<◌, ◌+◌, ◌^◌, pos, [], ◌∷◌};
ghost use Rattle.edit_base.specs.declared.edits.Edit.TheVariants.{SetSpan, RemoveSpan};
ghost use Rattle.edit_model.specs.Minds.{replaces};

use edit_base::{Edit, SmallText, What};
use watcher_api::Answer;

// The edit alone.
fn one(edit: Edit) -> Answer
    ensures { result.items ≡ edit ∷ [] }
{
    let mut answer = Answer::new();
    answer.push(edit);
    answer
}

// The units between two places become those of a text.
fn replace(start: u32, end: u32, text: SmallText) -> Answer
    requires start { start < 2 ^ 31 }
    requires end { end < 2 ^ 31 }
    ensures { result.items ≡ replaces start end text.items }
{
    one(Edit::Replace {
        start: start as i32,
        end: end as i32,
        text,
    })
}

// A unit alone.
fn text_of(unit: u16) -> SmallText
    ensures { result.items ≡ unit ∷ [] }
{
    let mut text = SmallText::new();
    text.push(unit);
    text
}

/// A unit comes at a place.
pub fn insert(at: u32, unit: u16) -> Answer
    requires { at < 2 ^ 31 }
    ensures { result.items ≡ replaces at at (unit ∷ []) }
{
    replace(at, at, text_of(unit))
}

/// The unit at a place becomes this one.
pub fn exchange(at: u32, unit: u16) -> Answer
    requires { at + 1 < 2 ^ 31 }
    ensures { result.items ≡ replaces at (at + 1) (unit ∷ []) }
{
    replace(at, at + 1, text_of(unit))
}

/// The units between two places go.
pub fn delete(start: u32, end: u32) -> Answer
    requires start { start < 2 ^ 31 }
    requires end { end < 2 ^ 31 }
    ensures { result.items ≡ replaces start end [] }
{
    replace(start, end, SmallText::new())
}

/// A span comes, or an attached one goes, to these places, with these flags and this what.
pub fn set_span(id: u32, start: u32, end: u32, flags: u32, what: What) -> Answer
    requires start { start < 2 ^ 31 }
    requires end { end < 2 ^ 31 }
    ensures { result.items ≡ SetSpan id (pos start) (pos end) flags what ∷ [] }
{
    one(Edit::SetSpan {
        id,
        start: start as i32,
        end: end as i32,
        flags,
        what,
    })
}

/// A span goes.
pub fn remove_span(id: u32) -> Answer
    ensures { result.items ≡ RemoveSpan id ∷ [] }
{
    one(Edit::RemoveSpan { id })
}
