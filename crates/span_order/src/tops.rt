//! The greatest ends of a block of slots.

ghost use Rattle.std.specs.Prelude.{◌≡◌, ◌≤◌, ◌<◌, ◌⊎◌, ℕ, length, slice_index};
ghost use Rattle.std.specs.List.{All};
ghost use Rattle.span_order.specs.Tops.{IsTop};

/// How many entries share a slot that ends last.
pub const FOUR: usize = 4;

/// What a block of at most 64 slots has that ends last.
#[derive(Clone, Copy, Drop)]
pub struct Top {
    /// The slot that ends last of each four entries that follow one another.
    pub fours: [u32; 16],
    /// The greatest end of all, or 0 where there is none.
    pub crest: u64,
}

impl Top {
    /// What a block of no slots has.
    pub const NONE: Top = Top {
        fours: [0; 16],
        crest: 0,
    };
}

/// The greatest ends of a block.
pub fn top_of(ends: &[u64], slots: &[u32]) -> Top
    requires few { length slots.now ≤ 64 }
    requires within { All (λ slot. slot < length ends.now) slots.now }
    ensures { IsTop ends.now slots.now result }
{
    let mut top = Top::NONE;
    for four in 0..slots.len().div_ceil(FOUR) {
        let from = FOUR * four;
        let to = (from + FOUR).min(slots.len());
        let last = last_of(ends, slots, from, to);
        top.fours[four] = last;
        top.crest = top.crest.max(ends[last as usize]);
    }
    top
}

/// The slot that ends last of the entries from one up to another.
fn last_of(ends: &[u64], slots: &[u32], from: usize, to: usize) -> u32
    requires slots { All (λ slot. slot < length ends.now) slots.now }
    requires order { from < to }
    requires within { to ≤ length slots.now }
    ensures there { (at : ℕ) × ((from ≤ at) × ((at < to) × (slice_index slots.now at ≡ result))) }
    ensures last { (at : ℕ) → from ≤ at → at < to
        → slice_index ends.now (slice_index slots.now at) ≤ slice_index ends.now result }
{
    let mut last = slots[from];
    for at in from + 1..to {
        last = later(ends, last, slots[at]);
    }
    last
}

/// The one of two slots that ends later.
fn later(ends: &[u64], one: u32, other: u32) -> u32
    requires one { one < length ends.now }
    requires other { other < length ends.now }
    ensures is { (result ≡ one) ⊎ (result ≡ other) }
    ensures one { slice_index ends.now one ≤ slice_index ends.now result }
    ensures other { slice_index ends.now other ≤ slice_index ends.now result }
{
    if ends[one as usize] < ends[other as usize] {
        other
    } else {
        one
    }
}
