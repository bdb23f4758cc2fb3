//! The place of a rank in a list in blocks.

ghost use Rattle.std.specs.Prelude.{◌≡◌, ◌≤◌, ◌<◌, ◌-◌, length, nat_lt, slice_index};
ghost use Rattle.std.specs.List.{concat};
ghost use Rattle.std.specs.List.Sorted.{IsNonDecreasingBy};
ghost use Rattle.span_order.specs.Blocks.{IsPlace, Packed, block_at, number_of};
ghost use Rattle.span_order.specs.Ranked.{IsParted, rank_in, rank_of};

use crate::block::Block;
use crate::places::Place;

/// The number of a slot, or 0 where it has none.
fn key_at(keys: &[u64], slot: u32) -> u64
    ensures { result ≡ slice_index keys.now slot }
{
    let at = slot as usize;
    if at < keys.len() { keys[at] } else { 0 }
}

/// Whether an entry ranks below a slot with a number.
fn ranks_below(keys: &[u64], entry: u32, number: u64, slot: u32) -> bool
    ensures { result ≡ nat_lt (rank_in keys.now entry) (rank_of number slot) }
{
    let key = key_at(keys, entry);
    if key == number {
        entry < slot
    } else {
        key < number
    }
}

/// The place behind all slots that rank below a slot with a number, in a list that rises by rank: in the block of the
/// last of them.
pub fn place_from(blocks: &[Block], keys: &[u64], number: u64, slot: u32) -> Place
    requires packed { Packed blocks.now }
    ensures place { IsPlace blocks.now result }
    ensures parted { IsNonDecreasingBy (rank_in keys.now) (concat blocks.now)
        → IsParted keys.now (concat blocks.now) (rank_of number slot) (number_of blocks.now result) }
    ensures behind { 0 < result.block → 0 < result.index }
{
    let next = block_from(blocks, keys, number, slot);
    if next == 0 {
        return Place { block: 0, index: 0 };
    }
    let block = next - 1;
    let index = index_from(blocks[block].as_slice(), keys, number, slot);
    Place { block, index }
}

/// The first block whose first slot doesn't rank below a slot with a number.
fn block_from(blocks: &[Block], keys: &[u64], number: u64, slot: u32) -> usize
    requires packed { Packed blocks.now }
    ensures within { result ≤ length blocks.now }
    ensures before { 0 < result
        → rank_in keys.now (slice_index (block_at blocks.now (result - 1)) 0) < rank_of number slot }
    ensures from { result < length blocks.now
        → rank_of number slot ≤ rank_in keys.now (slice_index (block_at blocks.now result) 0) }
{
    let mut low = 0;
    let mut high = blocks.len();
    while low < high {
        let middle = low + (high - low) / 2;
        if ranks_below(keys, blocks[middle].first(), number, slot) {
            low = middle + 1;
        } else {
            high = middle;
        }
    }
    low
}

/// The first of some slots that doesn't rank below a slot with a number.
fn index_from(slots: &[u32], keys: &[u64], number: u64, slot: u32) -> usize
    ensures within { result ≤ length slots.now }
    ensures before { 0 < result → rank_in keys.now (slice_index slots.now (result - 1)) < rank_of number slot }
    ensures from { result < length slots.now → rank_of number slot ≤ rank_in keys.now (slice_index slots.now result) }
{
    let mut low = 0;
    let mut high = slots.len();
    while low < high {
        let middle = low + (high - low) / 2;
        if ranks_below(keys, slots[middle], number, slot) {
            low = middle + 1;
        } else {
            high = middle;
        }
    }
    low
}
