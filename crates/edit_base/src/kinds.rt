//! What a span carries.

/// What a span carries. Its kind of ends, priority and marks are in its flags word.
#[derive(Clone, Copy, Debug, PartialEq, Eq)]
pub enum What {
    /// A number that the buffer gives no meaning.
    Tag(u32),
    /// The face of the units that the span covers, by number.
    Face(u8),
    /// Indents of a paragraph's first line and of its other lines.
    Margin { first: u16, rest: u16 },
    /// An indent of the `lines` lines from the first line of the paragraph that holds the span's start.
    Float { margin: u16, lines: u16 },
    /// The seat of the watcher in a slot.
    Watch(u8),
    /// The selection's start.
    SelStart,
    /// The selection's end.
    SelEnd,
    /// The composing region.
    Composing,
}
