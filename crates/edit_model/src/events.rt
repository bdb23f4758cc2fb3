//! What watchers are told of.

/// A replacement of text: at `start`, `before` units became `after` units. `depth` is 0 for a command's own edit, and
/// one more for each answer that it stands in. The places and counts are those of the edit as it was done, its text
/// filtered.
#[derive(Clone, Copy, Debug, PartialEq, Eq)]
pub struct TextEvent {
    pub depth: u32,
    pub start: u32,
    pub before: u32,
    pub after: u32,
}

/// What became of a span.
#[derive(Clone, Copy, Debug, PartialEq, Eq)]
pub enum SpanChange {
    /// It was attached.
    Added,
    /// Its start or its end went elsewhere, or it was set anew.
    Moved,
    /// It was dropped.
    Removed,
}

/// A span that an edit added, moved or removed, with its places before and after. Of an added and of a removed span
/// both are the same.
#[derive(Clone, Copy, Debug, PartialEq, Eq)]
pub struct SpanEvent {
    pub depth: u32,
    pub id: u32,
    pub change: SpanChange,
    pub old_start: u32,
    pub old_end: u32,
    pub start: u32,
    pub end: u32,
}

/// A callback for a span that an edit added, moved or removed: the slot of a watcher that is told, and the event.
#[derive(Clone, Copy, Debug, PartialEq, Eq)]
pub struct SpanCallback {
    pub slot: u8,
    pub event: SpanEvent,
}
