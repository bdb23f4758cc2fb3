//! Places in a list in blocks, and what a change tells of its blocks.

/// A place in a list in blocks: before an entry of a block, or at a block's end.
#[derive(Clone, Copy)]
pub struct Place {
    /// The place's block, counted from 0. Behind all blocks it is how many there are.
    pub block: usize,
    /// How many slots of the block stand before the place.
    pub index: usize,
}

/// Which blocks a change made anew: those from `first` up to `old_end` became those from `first` up to `end`.
#[derive(Clone, Copy)]
pub struct Changed {
    /// The first block that changed.
    pub first: usize,
    /// The first block behind that stayed, as it was counted before the change.
    pub old_end: usize,
    /// The same block, as it is counted now.
    pub end: usize,
}
