//! The edits of a text, each as a step that is judged and done.

use edit_base::{Incoming, What};

/// One edit of a text. Places count UTF-16 units; one out of range is refused where the edit is judged.
#[derive(Drop)]
pub enum Step {
    /// The units from `start` to `end` become the incoming ones.
    Replace {
        start: i32,
        end: i32,
        incoming: Incoming,
    },
    /// A span is attached, or an attached one is given these places, flags and what.
    Set {
        id: u32,
        start: i32,
        end: i32,
        flags: u32,
        what: What,
    },
    /// An attached span goes.
    Remove {
        id: u32,
    },
    /// The selection goes to these places, or is attached there; its start may lie behind its end.
    Select {
        start: i32,
        end: i32,
    },
    /// The selection goes.
    Deselect,
    /// The composing region goes, and every span whose flags word says that it is part of a composing text.
    Drop,
    /// The units from `start` to `end` become the composing region.
    Mark {
        start: u32,
        end: u32,
    },
}
