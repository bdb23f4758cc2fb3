//! The kinds of spans and of their ends.

/// How the two ends of a span move, by the low byte of its flags word.
#[derive(Clone, Copy, Debug, PartialEq, Eq)]
pub enum Kind {
    /// 0x11: both ends stay before what is inserted at them.
    MarkMark,
    /// 0x12: grows at both ends.
    MarkPoint,
    /// 0x21: shrinks at both ends, and is never empty.
    PointMark,
    /// 0x22: both ends stay behind what is inserted at them.
    PointPoint,
    /// 0x33: both ends stay at paragraph boundaries.
    Paragraph,
}

/// How one end of a span moves.
#[derive(Clone, Copy, Debug, PartialEq, Eq)]
pub enum EndKind {
    /// Stays before what is inserted at it.
    Mark,
    /// Stays behind what is inserted at it.
    Point,
    /// Stays at a paragraph boundary.
    Paragraph,
}
