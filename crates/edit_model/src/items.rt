//! What a command comes to, one item after another.

use edit_base::{Edit, Incoming, Items};

/// An item of a command. It is resolved to a step at its turn, in the text that stands then: the places of `Write`,
/// `Cursor` and `Mark` that lie outside the text go to its start or its end.
#[derive(Drop)]
pub enum Item {
    /// An edit, as a watcher may answer it.
    Edit(Edit),
    /// The units from `start` to `end` become the incoming ones.
    Replace {
        start: i32,
        end: i32,
        incoming: Incoming,
    },
    /// The same for a connection.
    Write {
        start: i64,
        end: i64,
        incoming: Incoming,
    },
    /// Both ends of the selection go to a place.
    Cursor {
        at: i64,
    },
    /// The units between the two places become the composing region, whichever is the lesser.
    Mark {
        start: i64,
        end: i64,
    },
    /// The composing region goes, and every span of a composing text.
    Drop,
    /// The selection goes.
    Deselect,
}

/// What a command of a connection comes to.
#[derive(Drop)]
pub enum Planned {
    /// These items, one behind the other.
    Items(Items<Item>),
    /// There is no selection that it could work on.
    Absent,
    /// It is passed over: an end of a selection lies outside the text, or a count of characters met half of a pair.
    Ignored,
}
