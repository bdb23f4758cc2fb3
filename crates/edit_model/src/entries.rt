//! What is logged of a command.

use crate::events::{SpanEvent, TextEvent};
use edit_base::Verdict;

/// A verdict, and the number that is printed behind its name: the present length behind `order`, `beyond` and `below`,
/// the length that would stand behind `too-long`, the number of spans that would stand behind `spans-full`, and 0,
/// unprinted, behind every other.
#[derive(Clone, Copy, Debug, PartialEq, Eq)]
pub struct Logged {
    pub verdict: Verdict,
    pub number: u32,
}

/// One entry for each edit and for each callback. `depth` is 0 for a command's own edits.
#[derive(Clone, Copy, Debug, PartialEq, Eq)]
pub enum LogEntry {
    /// A replacement with its places as asked, or as clamped at its turn where a connection asks; `units` counts the
    /// incoming units as given.
    Replace {
        depth: u32,
        start: i64,
        end: i64,
        units: u32,
        logged: Logged,
    },
    /// A set of a span, with its places as asked.
    Set {
        depth: u32,
        id: u32,
        start: i64,
        end: i64,
        flags: u32,
        logged: Logged,
    },
    /// A removal of a span.
    Remove {
        depth: u32,
        id: u32,
        logged: Logged,
    },
    /// A select, with its places as asked, or as clamped at its turn where it places a connection's cursor.
    Select {
        depth: u32,
        start: i64,
        end: i64,
        logged: Logged,
    },
    /// A removal of the selection.
    Deselect {
        depth: u32,
        logged: Logged,
    },
    /// A removal of the composing region and of the spans of a composing text.
    Drop {
        depth: u32,
        logged: Logged,
    },
    /// A mark of a composing region, with its places as clamped at its turn, the lesser first.
    Mark {
        depth: u32,
        start: i64,
        end: i64,
        logged: Logged,
    },
    /// The watcher in a slot was told of a replacement before it.
    Before {
        slot: u8,
        event: TextEvent,
    },
    /// It was told of the replacement right after it.
    Changed {
        slot: u8,
        event: TextEvent,
    },
    /// It was told of the replacement when every other had been told of it too, and could answer.
    After {
        slot: u8,
        event: TextEvent,
    },
    /// It was told of a span that an edit added, moved or removed, and could answer.
    Span {
        slot: u8,
        event: SpanEvent,
    },
}
