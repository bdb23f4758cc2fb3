//! What lines are laid out with: faces, and the measures of a layout.

use edit_base::Items;

/// The characters from `low` to `high`, both counted, have this advance. Code points; a surrogate that stands alone is
/// looked up by its own number.
#[derive(Clone, Copy, Debug, PartialEq, Eq)]
pub struct AdvanceRange {
    pub low: u32,
    pub high: u32,
    pub advance: u16,
}

/// A face: how far its lines reach above and below, and how wide its characters are. `fallback` is the advance of a
/// character that lies in none of the ranges.
#[derive(Debug, Drop)]
pub struct Face {
    pub ascent: u16,
    pub descent: u16,
    pub fallback: u16,
    pub ranges: Items<AdvanceRange>,
}

/// The measures of a layout: the width that lines are cut to, in advances; the distance of tab stops, 0 where there are
/// none; and how far lines stand apart, a fraction `num / den` of a line's height with `add` behind it.
#[derive(Clone, Copy, Debug, PartialEq, Eq)]
pub struct Metrics {
    pub width: u32,
    pub tab: u32,
    pub num: u32,
    pub den: u32,
    pub add: u32,
}
