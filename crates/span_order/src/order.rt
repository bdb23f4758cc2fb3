//! A list of slots in blocks.

ghost use Rattle.std.specs.Prelude.{◌≡◌, ◌≤◌, ◌<◌, ◌+◌, ◌-◌, ◌*◌, ◌++◌, [], length, map, take, drop, slice_get, vec_len, vec_capacity, OnOk, OnErr, IsOk};
ghost use Rattle.std.specs.List.{concat};
ghost use Rattle.std.specs.List.Sorted.{IsNonDecreasingBy};
ghost use Rattle.slot_ranks.specs.Slots.{rank};
ghost use Rattle.span_order.specs.Blocks.{IsPlace, Keeps, block_at, number_of};
ghost use Rattle.span_order.specs.Ranked.{IsParted, rank_in, rank_of};

use crate::block::Block;
use crate::places::{Changed, Place};
use crate::search::place_from;
use crate::walk::{count_between, place_behind, push_between, slot_behind};
use crate::window::splice_blocks;
use edit_base::NoMemory;
use slot_ranks::SlotRanks;
use std::alloc::Global;
use std::marker::Model;

/// Slots in an order, in blocks of at most 64. Only `reserve` asks for memory.
#[derive(Drop)]
pub struct Order {
    blocks: Vec<Block>,
    /// How many slots there are.
    count: usize,
    /// How many more slots there is room for, however the blocks part them.
    spare: usize,
}

impl Model for Order {
    ghost use Rattle.std.specs.Prelude.{vec_capacity};
    ghost use Rattle.span_order.specs.Blocks.{IsOrder, Row};

    ghost Value = { Row };

    ghost view = { λ it. record { blocks = it.blocks.items; spare = it.spare } };

    ghost invariant = { λ it. IsOrder it.blocks.items (vec_capacity it.blocks) it.count it.spare };
}

impl Order {
    /// No slots. No memory is asked for.
    pub fn new(alloc: Global) -> Order
        ensures blocks { result.blocks ≡ [] }
        ensures spare { result.spare ≡ 0 }
    {
        Order {
            blocks: Vec::new(alloc),
            count: 0,
            spare: 0,
        }
    }

    /// How many slots there are.
    pub fn len(&self) -> usize
        ensures len { result ≡ length (concat self.now.blocks) }
        ensures few { result + self.now.spare < 4294967296 }
    {
        self.count
    }

    /// How many blocks there are. They are never many beside the slots.
    pub fn block_count(&self) -> usize
        ensures count { result ≡ length self.now.blocks }
        ensures few { 16 * result ≤ length (concat self.now.blocks) + 16 }
    {
        self.blocks.len()
    }

    /// The slots of a block, counted from 0. There are some, and at most 64.
    pub fn slots(&self, block: usize) -> &[u32]
        requires { block < length self.now.blocks }
        ensures slots { result.now ≡ block_at self.now.blocks block }
        ensures some { 0 < length result.now }
        ensures few { length result.now ≤ 64 }
    {
        self.blocks[block].as_slice()
    }

    /// The place before all slots.
    pub fn start(&self) -> Place
        ensures place { IsPlace self.now.blocks result }
        ensures number { number_of self.now.blocks result ≡ 0 }
    {
        Place { block: 0, index: 0 }
    }

    /// The place behind all slots.
    pub fn end(&self) -> Place
        ensures place { IsPlace self.now.blocks result }
        ensures number { number_of self.now.blocks result ≡ length (concat self.now.blocks) }
    {
        Place {
            block: self.blocks.len(),
            index: 0,
        }
    }

    /// The slot behind a place, be it the first one of the next block; none at the list's end.
    pub fn get(&self, place: Place) -> Option<u32>
        requires { IsPlace self.now.blocks place }
        ensures { result ≡ slice_get (concat self.now.blocks) (number_of self.now.blocks place) }
    {
        slot_behind(&self.blocks, place)
    }

    /// The place one slot on, in the block of that slot.
    pub fn forward(&self, place: Place) -> Place
        requires place { IsPlace self.now.blocks place }
        requires some { number_of self.now.blocks place < length (concat self.now.blocks) }
        ensures place { IsPlace self.now.blocks result }
        ensures number { number_of self.now.blocks result ≡ number_of self.now.blocks place + 1 }
        ensures order { place.block ≤ result.block }
        ensures same { place.block ≡ result.block → place.index ≤ result.index }
        ensures behind { 0 < result.index }
    {
        place_behind(&self.blocks, place)
    }

    /// The place of a slot with a number among slots that rise by their numbers, and by themselves where those are
    /// equal: behind all that rank below it, in the block of the last of them. Takes time by the logarithm of their
    /// count.
    pub fn seek(&self, keys: &[u64], number: u64, slot: u32) -> Place
        ensures place { IsPlace self.now.blocks result }
        ensures parted { IsNonDecreasingBy (rank_in keys.now) (concat self.now.blocks)
            → IsParted keys.now (concat self.now.blocks) (rank_of number slot) (number_of self.now.blocks result) }
        ensures behind { 0 < result.block → 0 < result.index }
    {
        place_from(&self.blocks, keys, number, slot)
    }

    /// The slots from one place up to another come behind those of a list. Where it has room for them no memory is
    /// asked for. On an error the list stays.
    pub fn run_into(&self, from: Place, to: Place, out: &mut Vec<u32>) -> Result<(), NoMemory>
        requires from { IsPlace self.now.blocks from }
        requires to { IsPlace self.now.blocks to }
        requires order { from.block ≤ to.block }
        requires same { from.block ≡ to.block → from.index ≤ to.index }
        ensures ok { OnOk result (out.new.items ≡ out.old.items
            ++ take (number_of self.now.blocks to - number_of self.now.blocks from)
            (drop (number_of self.now.blocks from) (concat self.now.blocks))) }
        ensures err { OnErr result (out.new.items ≡ out.old.items) }
        ensures within { vec_len out.old + (number_of self.now.blocks to - number_of self.now.blocks from)
            ≤ vec_capacity out.old → IsOk result }
    {
        let count = count_between(&self.blocks, from, to);
        out.reserve(count)?;
        push_between(&self.blocks, from, to, out);
        Ok(())
    }

    /// No slots are left, and their room is.
    pub fn clear(&mut self)
        ensures blocks { self.new.blocks ≡ [] }
        ensures spare { self.new.spare ≡ length (concat self.old.blocks) + self.old.spare }
    {
        self.blocks.clear();
        self.spare += self.count;
        self.count = 0;
    }

    /// Makes room for so many more slots. Where there is room already no memory is asked for. There may be as many as
    /// a u32 counts.
    pub fn reserve(&mut self, slots: u32) -> Result<(), NoMemory>
        ensures ok { OnOk result (slots ≤ self.new.spare) }
        ensures blocks { self.new.blocks ≡ self.old.blocks }
        ensures spare { self.old.spare ≤ self.new.spare }
        ensures err { OnErr result (self.new ≡ self.old) }
        ensures within { slots ≤ self.old.spare → IsOk result }
    {
        let more = slots as usize;
        if more <= self.spare {
            return Ok(());
        }
        let all = self.count + more;
        if all > u32::MAX as usize {
            return Err(NoMemory);
        }
        let blocks = all / 16 + 4;
        self.blocks
            .reserve(blocks.saturating_sub(self.blocks.len()))?;
        self.spare = more;
        Ok(())
    }

    /// The slots from one place up to another become these. Tells which blocks it made anew. No memory is asked for.
    pub fn splice(&mut self, from: Place, to: Place, slots: &[u32]) -> Changed
        requires from { IsPlace self.old.blocks from }
        requires to { IsPlace self.old.blocks to }
        requires order { from.block ≤ to.block }
        requires same { from.block ≡ to.block → from.index ≤ to.index }
        requires room { length slots.now
            ≤ (number_of self.old.blocks to - number_of self.old.blocks from) + self.old.spare }
        ensures all { concat self.new.blocks ≡ take (number_of self.old.blocks from) (concat self.old.blocks)
            ++ (slots.now ++ drop (number_of self.old.blocks to) (concat self.old.blocks)) }
        ensures keeps { Keeps self.old.blocks self.new.blocks result }
        ensures spare { length (concat self.new.blocks) + self.new.spare
            ≡ length (concat self.old.blocks) + self.old.spare }
    {
        let gone = count_between(&self.blocks, from, to);
        let changed = splice_blocks(&mut self.blocks, from, to, slots);
        self.count = self.count - gone + slots.len();
        self.spare = self.spare + gone - slots.len();
        changed
    }

    /// Each slot becomes the number of live slots before it.
    pub fn renumber(&mut self, ranks: &SlotRanks)
        ensures blocks { self.new.blocks ≡ map (map (rank ranks.now.live)) self.old.blocks }
        ensures all { concat self.new.blocks ≡ map (rank ranks.now.live) (concat self.old.blocks) }
        ensures spare { self.new.spare ≡ self.old.spare }
    {
        renumber_blocks(&mut self.blocks, ranks);
    }
}

/// Each slot of some blocks becomes the number of live slots before it.
fn renumber_blocks(blocks: &mut [Block], ranks: &SlotRanks)
    ensures { blocks.new ≡ map (map (rank ranks.now.live)) blocks.old }
{
    for at in 0..blocks.len() {
        blocks[at].renumber(ranks);
    }
}
