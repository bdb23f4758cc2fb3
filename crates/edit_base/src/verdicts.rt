//! What an edit is answered.

ghost use Rattle.std.specs.Prelude.{◌≡◌, ◌≤◌};
ghost use Rattle.edit_base.specs.Numbers.{number_of};

/// Why an edit or a command is refused. The numbers run from 1 to 14 in this order.
#[derive(Clone, Copy, Debug, PartialEq, Eq)]
pub enum Refusal {
    Depth = 1,
    Budget,
    Reserved,
    Slot,
    Order,
    Beyond,
    Below,
    ParagraphStart,
    ParagraphEnd,
    TooLong,
    SpansFull,
    Flags,
    NotInBatch,
    NestingFull,
}

impl Refusal {
    /// The number that traces of this format know the refusal by.
    pub fn number(self) -> u8
        ensures number { result ≡ number_of self }
        ensures least { 1 ≤ result }
        ensures greatest { result ≤ 14 }
    {
        self as u8
    }
}

/// The one answer that an edit has.
#[derive(Clone, Copy, Debug, PartialEq, Eq)]
pub enum Verdict {
    /// The edit took place.
    Done,
    /// There was nothing to change.
    NoChange,
    /// A span that may not be empty would have been.
    Ignored,
    /// What the edit names isn't attached.
    Absent,
    /// A rule forbids the edit.
    Refused(Refusal),
}
