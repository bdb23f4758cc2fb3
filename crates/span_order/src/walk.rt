//! Walks over the slots of a list in blocks.

ghost use Rattle.std.specs.Prelude.{◌≡◌, ◌≤◌, ◌<◌, ◌+◌, ◌-◌, ◌++◌, length, take, drop, slice_get, vec_len, vec_capacity};
ghost use Rattle.std.specs.List.{concat};
ghost use Rattle.span_order.specs.Blocks.{IsPlace, Packed, block_at, number_of};

use crate::block::Block;
use crate::places::Place;

/// How many slots stand from one place up to another.
pub fn count_between(blocks: &[Block], from: Place, to: Place) -> usize
    requires from { IsPlace blocks.now from }
    requires to { IsPlace blocks.now to }
    requires order { from.block ≤ to.block }
    requires same { from.block ≡ to.block → from.index ≤ to.index }
    requires few { length (concat blocks.now) < 4294967296 }
    ensures { number_of blocks.now from + result ≡ number_of blocks.now to }
{
    let mut count = 0;
    for block in from.block..to.block {
        count += blocks[block].len();
    }
    count + to.index - from.index
}

/// The slot behind a place.
pub fn slot_behind(blocks: &[Block], place: Place) -> Option<u32>
    requires packed { Packed blocks.now }
    requires place { IsPlace blocks.now place }
    ensures { result ≡ slice_get (concat blocks.now) (number_of blocks.now place) }
{
    if place.block >= blocks.len() {
        return None;
    }
    let slots = blocks[place.block].as_slice();
    if place.index < slots.len() {
        return Some(slots[place.index]);
    }
    let next = place.block + 1;
    if next < blocks.len() {
        Some(blocks[next].first())
    } else {
        None
    }
}

/// The place one slot on, in the block of that slot.
pub fn place_behind(blocks: &[Block], place: Place) -> Place
    requires packed { Packed blocks.now }
    requires place { IsPlace blocks.now place }
    requires some { number_of blocks.now place < length (concat blocks.now) }
    ensures place { IsPlace blocks.now result }
    ensures number { number_of blocks.now result ≡ number_of blocks.now place + 1 }
    ensures order { place.block ≤ result.block }
    ensures same { place.block ≡ result.block → place.index ≤ result.index }
    ensures behind { 0 < result.index }
{
    if place.index < blocks[place.block].len() {
        Place {
            block: place.block,
            index: place.index + 1,
        }
    } else {
        Place {
            block: place.block + 1,
            index: 1,
        }
    }
}

/// The slots from one place up to another come behind those of a list that has room for them.
pub fn push_between(blocks: &[Block], from: Place, to: Place, out: &mut Vec<u32>)
    requires from { IsPlace blocks.now from }
    requires to { IsPlace blocks.now to }
    requires order { from.block ≤ to.block }
    requires same { from.block ≡ to.block → from.index ≤ to.index }
    requires room { vec_len out.old + (number_of blocks.now to - number_of blocks.now from) ≤ vec_capacity out.old }
    ensures { out.new.items ≡ out.old.items
        ++ take (number_of blocks.now to - number_of blocks.now from)
        (drop (number_of blocks.now from) (concat blocks.now)) }
{
    let mut index = from.index;
    for block in from.block..to.block {
        extend_within(out, &blocks[block].as_slice()[index..]);
        index = 0;
    }
    if to.block < blocks.len() {
        extend_within(out, &blocks[to.block].as_slice()[index..to.index]);
    }
}

/// Adds slots to a list that has room for them.
fn extend_within(list: &mut Vec<u32>, slots: &[u32])
    requires room { vec_len list.old + length slots.now ≤ vec_capacity list.old }
    ensures items { list.new.items ≡ list.old.items ++ slots.now }
    ensures len { vec_len list.new ≡ vec_len list.old + length slots.now }
    ensures capacity { vec_capacity list.old ≤ vec_capacity list.new }
{
    // There is room, so this succeeds.
    let _ = list.extend_from_slice(slots);
}
