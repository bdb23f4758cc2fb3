//! An edit that a command or a watcher's answer asks for.

use crate::kinds::What;
use arrayvec::ArrayVec;

/// At most 64 UTF-16 units, without an allocator.
pub type SmallText = ArrayVec<u16, 64>;

/// An edit. Places count UTF-16 units; one out of range is refused where the edit is judged.
#[derive(Drop)]
pub enum Edit {
    /// The units from `start` to `end` become those of `text`.
    Replace {
        start: i32,
        end: i32,
        text: SmallText,
    },
    /// A span is attached, or an attached one is given these places, flags and what.
    SetSpan {
        id: u32,
        start: i32,
        end: i32,
        flags: u32,
        what: What,
    },
    /// An attached span goes.
    RemoveSpan {
        id: u32,
    },
    /// The selection goes to these places; its start may lie behind its end.
    Select {
        start: i32,
        end: i32,
    },
}

impl Default for Edit {
    ghost use Rattle.edit_base.specs.Empty.{IsEmptyReplacement};

    ghost is_default = { IsEmptyReplacement };

    /// The replacement of nothing at 0 by nothing.
    fn default() -> Edit {
        Edit::Replace {
            start: 0,
            end: 0,
            text: SmallText::new(),
        }
    }
}
