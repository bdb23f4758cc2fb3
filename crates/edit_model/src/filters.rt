//! The filters that incoming text goes through.

use edit_base::Items;

/// The UTF-16 units from `low` to `high`, both counted; none where `low` is the greater.
#[derive(Clone, Copy, Debug, PartialEq, Eq)]
pub struct UnitRange {
    pub low: u16,
    pub high: u16,
}

/// What is kept of an incoming text, and what becomes of it.
#[derive(Debug, Drop)]
pub enum Filter {
    /// As many of the first units as leave the text at most this long; where a pair would be cut, one fewer.
    Length(u32),
    /// Every unit; `a` to `z` become `A` to `Z`.
    AsciiUpper,
    /// The units that lie in one of these ranges.
    Allow(Items<UnitRange>),
    /// The units that are no line feed.
    NoNewline,
}
