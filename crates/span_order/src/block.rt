//! A block of slots.

ghost use Rattle.std.specs.Prelude.{◌≡◌, ◌≤◌, ◌<◌, ◌+◌, ◌-◌, ◌++◌, [], length, map, take, drop, slice_index};
ghost use Rattle.slot_ranks.specs.Slots.{rank};

use slot_ranks::SlotRanks;
use std::marker::Model;

/// How many slots a block has room for.
pub const BLOCK: usize = 64;

/// Up to 64 slots, in order.
#[derive(Drop)]
pub struct Block {
    slots: [u32; 64],
    /// How many slots there are.
    count: usize,
}

impl Model for Block {
    ghost use Rattle.std.specs.Prelude.{ℕ, List, take, ◌≤◌};

    ghost Value = { List ℕ };

    ghost view = { λ it. take it.count it.slots };

    ghost invariant = { λ it. it.count ≤ 64 };
}

impl Block {
    /// A block with no slots.
    pub fn new() -> Block
        ensures { result ≡ [] }
    {
        Block {
            slots: [0; 64],
            count: 0,
        }
    }

    /// A block with these slots.
    pub fn of(slots: &[u32]) -> Block
        requires { length slots.now ≤ 64 }
        ensures { result ≡ slots.now }
    {
        let mut block = Block::new();
        block.extend(slots);
        block
    }

    /// How many slots there are.
    pub fn len(&self) -> usize
        ensures len { result ≡ length self.now }
        ensures few { length self.now ≤ 64 }
    {
        self.count
    }

    /// The slots.
    pub fn as_slice(&self) -> &[u32]
        ensures slots { result.now ≡ self.now }
        ensures few { length self.now ≤ 64 }
    {
        &self.slots[..self.count]
    }

    /// The first slot.
    pub fn first(&self) -> u32
        requires { 0 < length self.now }
        ensures { result ≡ slice_index self.now 0 }
    {
        self.slots[0]
    }

    /// Slots come behind the others.
    pub fn extend(&mut self, slots: &[u32])
        requires { length self.old + length slots.now ≤ 64 }
        ensures { self.new ≡ self.old ++ slots.now }
    {
        let end = self.count + slots.len();
        self.slots[self.count..end].copy_from_slice(slots);
        self.count = end;
    }

    /// The slots from one place up to another become these.
    pub fn replace(&mut self, from: usize, to: usize, slots: &[u32])
        requires order { from ≤ to }
        requires within { to ≤ length self.old }
        requires room { length self.old + length slots.now ≤ 64 + (to - from) }
        ensures { self.new ≡ take from self.old ++ (slots.now ++ drop to self.old) }
    {
        let behind = from + slots.len();
        self.slots.copy_within(to..self.count, behind);
        self.slots[from..behind].copy_from_slice(slots);
        self.count = self.count - to + behind;
    }

    /// Each slot becomes the number of live slots before it.
    pub fn renumber(&mut self, ranks: &SlotRanks)
        ensures { self.new ≡ map (rank ranks.now.live) self.old }
    {
        renumber_slots(&mut self.slots[..self.count], ranks);
    }
}

/// Each slot becomes the number of live slots before it.
fn renumber_slots(slots: &mut [u32], ranks: &SlotRanks)
    ensures { slots.new ≡ map (rank ranks.now.live) slots.old }
{
    for at in 0..slots.len() {
        slots[at] = ranks.rank(slots[at]);
    }
}
