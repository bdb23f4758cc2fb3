//! Counts of live slots, by blocks of 64 slots.

ghost use Rattle.std.specs.Prelude.{◌≡◌, ◌≤◌, ◌<◌, ◌+◌, ◌-◌, ◌*◌, ◌/◌, ◌%◌, ℕ, true, false, not, ◌&&◌, length, slice_index, vec_capacity};
ghost use Rattle.std.specs.List.{All};
ghost use Rattle.std.specs.List.Sorted.{IsNonDecreasingBy};
ghost use Rattle.slot_ranks.specs.Slots.{is_among, is_live, rank};
ghost use Rattle.slot_ranks.specs.Ranks.{AreAhead, AreWithin, IsLowered, blocks_for, next_blocks, rank_within};

use crate::room::push_within;

/// How many slots a block has.
pub const BLOCK: usize = 64;

/// The last block that no more than so many live slots stand before.
pub fn block_at(before: &[u32], at: u32) -> usize
    requires first { 0 < length before.now }
    requires least { slice_index before.now 0 ≤ at }
    requires rising { IsNonDecreasingBy (λ count. count) before.now }
    ensures within { result < length before.now }
    ensures from { slice_index before.now result ≤ at }
    ensures last { (block : ℕ) → result < block → block < length before.now → at < slice_index before.now block }
{
    before.partition_point(|&count| count <= at) - 1
}

/// The last slot of a block that no more than so many live slots of it stand before, counted from the block's start.
pub fn slot_within(inner: &[u8], at: u32) -> usize
    requires first { 0 < length inner.now }
    requires least { slice_index inner.now 0 ≤ at }
    requires rising { IsNonDecreasingBy (λ count. count) inner.now }
    ensures within { result < length inner.now }
    ensures from { slice_index inner.now result ≤ at }
    ensures last { (slot : ℕ) → result < slot → slot < length inner.now → at < slice_index inner.now slot }
{
    inner.partition_point(|&count| u32::from(count) <= at) - 1
}

/// Counts the block of a slot that comes behind so many, where it begins one. There is room for it.
pub fn push_block(before: &mut Vec<u32>, slots: usize, count: u32)
    requires blocks { length before.old.items ≡ blocks_for slots }
    requires room { slots < 64 * vec_capacity before.old }
    ensures blocks { before.new.items ≡ next_blocks slots count before.old.items }
    ensures capacity { vec_capacity before.old ≤ vec_capacity before.new }
{
    if slots % BLOCK == 0 {
        push_within(before, count);
    }
}

/// The counts of the slots from one up to another fall by one.
pub fn lower_slots(inner: &mut [u8], from: usize, to: usize)
    requires order { from ≤ to }
    requires within { to ≤ length inner.old }
    requires some { (at : ℕ) → from ≤ at → at < to → 0 < slice_index inner.old at }
    ensures { IsLowered inner.old inner.new from to }
{
    for at in from..to {
        inner[at] -= 1;
    }
}

/// The counts of the blocks from one on fall by one.
pub fn lower_blocks(before: &mut [u32], from: usize)
    requires within { from ≤ length before.old }
    requires some { (at : ℕ) → from ≤ at → at < length before.old → 0 < slice_index before.old at }
    ensures { IsLowered before.old before.new from (length before.old) }
{
    for at in from..before.len() {
        before[at] -= 1;
    }
}

/// These slots are dead now.
pub fn mark_dead(live: &mut [bool], slots: &[u32])
    requires { All (λ slot. slot < length live.old) slots.now }
    ensures { (slot : ℕ) → is_live live.new slot ≡ (is_live live.old slot && not (is_among slots.now slot)) }
{
    for slot in slots {
        live[*slot as usize] = false;
    }
}

/// Counts the slots of a block anew.
pub fn count_slots(live: &[bool], inner: &mut [u8], block: usize)
    requires long { length inner.old ≡ length live.now }
    requires fits { 64 * block ≤ length live.now }
    ensures there { (slot : ℕ) → slot < length live.now → slot / 64 ≡ block
        → slice_index inner.new slot ≡ rank_within live.now slot }
    ensures others { (slot : ℕ) → (slot / 64 ≡ block → ⊥) → slice_index inner.new slot ≡ slice_index inner.old slot }
{
    let from = BLOCK * block;
    let to = live.len().min(from + BLOCK);
    let mut count = 0;
    for slot in from..to {
        inner[slot] = count;
        count += u8::from(live[slot]);
    }
}

/// Counts the slots of these slots' blocks anew.
pub fn count_touched(live: &[bool], inner: &mut [u8], slots: &[u32])
    requires long { length inner.old ≡ length live.now }
    requires within { All (λ slot. slot < length live.now) slots.now }
    requires others { (slot : ℕ) → slot < length live.now → All (λ other. slot / 64 ≡ other / 64 → ⊥) slots.now
        → slice_index inner.old slot ≡ rank_within live.now slot }
    ensures { AreWithin live.now inner.new }
{
    let mut last = usize::MAX;
    for slot in slots {
        let block = *slot as usize / BLOCK;
        if block != last {
            count_slots(live, inner, block);
            last = block;
        }
    }
}

/// Counts the blocks anew, by the counts in them, and gives how many slots are live.
pub fn count_blocks(live: &[bool], inner: &[u8], before: &mut [u32]) -> u32
    requires few { length live.now < 4294967296 }
    requires slots { length inner.now ≡ length live.now }
    requires blocks { length before.old ≡ blocks_for (length live.now) }
    requires within { AreWithin live.now inner.now }
    ensures ahead { AreAhead live.now before.new }
    ensures count { result ≡ rank live.now (length live.now) }
{
    let mut count = 0;
    for block in 0..before.len() {
        before[block] = count;
        let last = (BLOCK * block + BLOCK).min(live.len()) - 1;
        count += u32::from(inner[last]) + u32::from(live[last]);
    }
    count
}

/// Counts the slots where all are live.
pub fn count_whole_slots(inner: &mut [u8])
    ensures { (slot : ℕ) → slot < length inner.old → slice_index inner.new slot ≡ slot % 64 }
{
    for slot in 0..inner.len() {
        inner[slot] = (slot % BLOCK) as u8;
    }
}

/// Counts the blocks where all slots are live.
pub fn count_whole_blocks(before: &mut [u32])
    requires { 64 * length before.old < 4294967360 }
    ensures { (block : ℕ) → block < length before.old → slice_index before.new block ≡ 64 * block }
{
    for block in 0..before.len() {
        before[block] = (BLOCK * block) as u32;
    }
}
