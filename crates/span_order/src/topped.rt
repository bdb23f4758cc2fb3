//! A list of slots in blocks, with the greatest ends of each block.

ghost use Rattle.std.specs.Prelude.{◌≡◌, ◌≤◌, ◌<◌, ◌+◌, ◌-◌, ◌*◌, ◌^◌, ◌==◌, ◌∷◌, [], ℕ, List, not, length, map, drop, slice_index, IfSome, IfNone, OnOk, IsOk};
ghost use Rattle.std.specs.List.{All, Contains, concat, filter};
ghost use Rattle.std.specs.List.Sorted.{IsNonDecreasingBy, IsPermutation};
ghost use Rattle.slot_ranks.specs.Slots.{rank};
ghost use Rattle.span_order.specs.Blocks.{IsPlace, number_of};
ghost use Rattle.span_order.specs.Ranked.{rank_in};
ghost use Rattle.span_order.specs.Hits.{is_hit, rest};
ghost use Rattle.span_order.specs.Topped.{AreApart, AreCarried, IsTopped, IsToppedBut, carried, spliced, top_at};

use crate::hits::Asked;
use crate::order::Order;
use crate::places::Place;
use crate::pull::next_hit;
use crate::raise::{raise, splice_raised};
use crate::tops::Top;
use edit_base::{NoMemory, Steps};
use slot_ranks::SlotRanks;
use std::alloc::Global;
use std::marker::Model;
use std::sync::ledger::Ledger;

/// A list of slots in blocks, with the greatest ends of each block. The ends are the caller's: contracts say for which
/// numbers the tops are right.
#[derive(Drop)]
pub struct ToppedOrder {
    order: Order,
    tops: Vec<Top>,
}

impl Model for ToppedOrder {
    ghost use Rattle.std.specs.Prelude.{◌≡◌, ◌≤◌, ◌+◌, ◌-◌, ◌*◌, length, vec_capacity};
    ghost use Rattle.std.specs.List.{concat};
    ghost use Rattle.span_order.specs.Topped.{ToppedRow, spare_of};

    ghost Value = { ToppedRow };

    ghost view = { λ it. record {
      blocks = it.order.blocks;
      tops = it.tops.items;
      spare = spare_of (length (concat it.order.blocks)) it.order.spare (vec_capacity it.tops);
    } };

    ghost invariant = { λ it. record {
      long : length it.tops.items ≡ length it.order.blocks;
      room : length (concat it.order.blocks) ≤ 16 * (vec_capacity it.tops - 1);
    } };
}

impl ToppedOrder {
    /// No slots. No memory is asked for.
    pub fn new(alloc: Global) -> ToppedOrder
        ensures blocks { result.blocks ≡ [] }
        ensures tops { result.tops ≡ [] }
        ensures spare { result.spare ≡ 0 }
    {
        ToppedOrder {
            order: Order::new(alloc),
            tops: Vec::new(alloc),
        }
    }

    /// How many slots there are.
    pub fn len(&self) -> usize
        ensures { result ≡ length (concat self.now.blocks) }
    {
        self.order.len()
    }

    /// The list of slots.
    pub fn order(&self) -> &Order
        ensures { result.now.blocks ≡ self.now.blocks }
    {
        &self.order
    }

    /// The first slot from a place on that ends no earlier than the bound and starts no later than the stop. The place is
    /// behind it then, or at the end of the list where there is none. Calls that follow one another look at no more than
    /// four entries for each slot that they give, and four besides.
    pub fn next_hit<L: Ledger>(
        &self,
        starts: &[u64],
        ends: &[u64],
        at: &mut Place,
        bound: u64,
        stop: u64,
        steps: &mut Steps<L>,
    ) -> Option<u32>
        requires few { length starts.now ≤ 4294967296 }
        requires rising { IsNonDecreasingBy (rank_in starts.now) (concat self.now.blocks) }
        requires starts { All (λ slot. slot < length starts.now) (concat self.now.blocks) }
        requires ends { All (λ slot. slot < length ends.now) (concat self.now.blocks) }
        requires topped { IsTopped ends.now self.now.blocks self.now.tops }
        requires place { IsPlace self.now.blocks at.old }
        ensures place { IsPlace self.now.blocks at.new }
        ensures some { IfSome result (λ slot. filter (is_hit starts.now ends.now bound stop)
            (drop (number_of self.now.blocks at.old) (concat self.now.blocks))
            ≡ slot ∷ filter (is_hit starts.now ends.now bound stop)
            (drop (number_of self.now.blocks at.new) (concat self.now.blocks))) }
        ensures none { IfNone result (filter (is_hit starts.now ends.now bound stop)
            (drop (number_of self.now.blocks at.old) (concat self.now.blocks)) ≡ []) }
        ensures end { IfNone result (number_of self.now.blocks at.new ≡ length (concat self.now.blocks)) }
        ensures ticks { steps.new + rest at.new.index ≤ steps.old + rest at.old.index + 4 }
        ensures looked { steps.new + number_of self.now.blocks at.old
            ≤ steps.old + number_of self.now.blocks at.new }
        ensures more { steps.old ≤ steps.new }
    {
        let asked = Asked {
            starts,
            ends,
            bound,
            stop,
        };
        next_hit(&self.order, &self.tops, &asked, at, steps)
    }

    // ---- changes

    /// Makes room for so many more slots. Where there is room already no memory is asked for.
    pub fn reserve(&mut self, slots: u32) -> Result<(), NoMemory>
        ensures ok { OnOk result (slots ≤ self.new.spare) }
        ensures blocks { self.new.blocks ≡ self.old.blocks }
        ensures tops { self.new.tops ≡ self.old.tops }
        ensures spare { self.old.spare ≤ self.new.spare }
        ensures within { slots ≤ self.old.spare → IsOk result }
    {
        let all = self.order.len() + slots as usize;
        let missing = places_for(all).saturating_sub(self.tops.len());
        self.tops.reserve(missing)?;
        self.order.reserve(slots)
    }

    /// No slots are left, and their room is.
    pub fn clear(&mut self)
        ensures blocks { self.new.blocks ≡ [] }
        ensures tops { self.new.tops ≡ [] }
        ensures spare { length (concat self.old.blocks) + self.old.spare ≤ self.new.spare }
    {
        self.order.clear();
        self.tops.clear();
    }

    /// The slots from one place up to another become these, and the greatest ends of the blocks that changed are raised.
    /// Those of blocks that neither place is in, nor any between, are right already. No memory is asked for.
    pub fn splice(&mut self, from: Place, to: Place, slots: &[u32], ends: &[u64])
        requires from { IsPlace self.old.blocks from }
        requires to { IsPlace self.old.blocks to }
        requires order { from.block ≤ to.block }
        requires same { from.block ≡ to.block → from.index ≤ to.index }
        requires room { length slots.now ≤ (number_of self.old.blocks to - number_of self.old.blocks from) + self.old.spare }
        requires topped { IsToppedBut ends.now self.old.blocks self.old.tops from.block (to.block + 1) }
        requires ends { All (λ slot. slot < length ends.now) (spliced self.old.blocks from to slots.now) }
        ensures all { concat self.new.blocks ≡ spliced self.old.blocks from to slots.now }
        ensures topped { IsTopped ends.now self.new.blocks self.new.tops }
        ensures spare { length (concat self.old.blocks) + self.old.spare
            ≤ length (concat self.new.blocks) + self.new.spare }
    {
        splice_raised(&mut self.order, &mut self.tops, from, to, slots, ends);
    }

    /// A slot comes at its place by the starts. There is room for it.
    pub fn insert(&mut self, starts: &[u64], ends: &[u64], slot: u32)
        requires start { slot < length starts.now }
        requires end { slot < length ends.now }
        requires ends { All (λ other. other < length ends.now) (concat self.old.blocks) }
        requires rising { IsNonDecreasingBy (rank_in starts.now) (concat self.old.blocks) }
        requires topped { IsTopped ends.now self.old.blocks self.old.tops }
        requires room { 0 < self.old.spare }
        ensures all { IsPermutation (slot ∷ concat self.old.blocks) (concat self.new.blocks) }
        ensures rising { IsNonDecreasingBy (rank_in starts.now) (concat self.new.blocks) }
        ensures topped { IsTopped ends.now self.new.blocks self.new.tops }
        ensures spare { self.old.spare ≤ self.new.spare + 1 }
    {
        let at = self.order.seek(starts, starts[slot as usize], slot);
        self.splice(at, at, &[slot], ends);
    }

    /// A slot that is there goes. No other is the same.
    pub fn take_out(&mut self, starts: &[u64], ends: &[u64], slot: u32)
        requires few { length starts.now ≤ 4294967296 }
        requires starts { All (λ other. other < length starts.now) (concat self.old.blocks) }
        requires ends { All (λ other. other < length ends.now) (concat self.old.blocks) }
        requires there { Contains (concat self.old.blocks) slot }
        requires apart { AreApart (concat self.old.blocks) }
        requires rising { IsNonDecreasingBy (rank_in starts.now) (concat self.old.blocks) }
        requires topped { IsTopped ends.now self.old.blocks self.old.tops }
        ensures all { concat self.new.blocks ≡ filter (λ other. not (other == slot)) (concat self.old.blocks) }
        ensures topped { IsTopped ends.now self.new.blocks self.new.tops }
        ensures spare { self.old.spare + 1 ≤ self.new.spare }
    {
        let from = self.order.seek(starts, starts[slot as usize], slot);
        let to = self.order.forward(from);
        self.splice(from, to, &[], ends);
    }

    /// Each slot becomes the number of live slots before it. The greatest ends have to be raised then.
    pub fn renumber(&mut self, ranks: &SlotRanks)
        ensures blocks { self.new.blocks ≡ map (map (rank ranks.now.live)) self.old.blocks }
        ensures all { concat self.new.blocks ≡ map (rank ranks.now.live) (concat self.old.blocks) }
        ensures spare { self.new.spare ≡ self.old.spare }
    {
        self.order.renumber(ranks);
    }

    /// The greatest ends of all blocks are raised anew.
    pub fn raise(&mut self, ends: &[u64])
        requires { All (λ slot. slot < length ends.now) (concat self.old.blocks) }
        ensures blocks { self.new.blocks ≡ self.old.blocks }
        ensures topped { IsTopped ends.now self.new.blocks self.new.tops }
        ensures spare { self.new.spare ≡ self.old.spare }
    {
        let count = self.tops.len();
        raise(&self.order, &mut self.tops, ends, 0, count);
    }

    /// The ends behind a number, and not behind another, went up and down, and rise as before: the greatest ends go with
    /// them. Takes time by the number of blocks.
    pub fn carry(&mut self, low: u64, high: u64, up: u64, down: u64)
        requires fits { high + up < 2 ^ 64 }
        requires down { down ≤ low }
        ensures blocks { self.new.blocks ≡ self.old.blocks }
        ensures topped { (old ends : List ℕ) → IsTopped old self.old.blocks self.old.tops
            → AreCarried low high up down old ends (concat self.old.blocks) → IsTopped ends self.new.blocks self.new.tops }
        ensures spare { self.new.spare ≡ self.old.spare }
    {
        carry_crests(&mut self.tops, low, high, up, down);
    }
}

/// The greatest ends of blocks go up and down where they lie behind a number, and not behind another.
fn carry_crests(tops: &mut [Top], low: u64, high: u64, up: u64, down: u64)
    requires fits { high + up < 2 ^ 64 }
    requires down { down ≤ low }
    ensures { (at : ℕ) → at < length tops.old → top_at tops.new at
        ≡ record (top_at tops.old at) { crest = carried low high up down (top_at tops.old at).crest } }
{
    for at in 0..tops.len() {
        tops[at].crest = carried(tops[at].crest, low, high, up, down);
    }
}

/// A number that goes up and down where it lies behind one, and not behind another.
fn carried(number: u64, low: u64, high: u64, up: u64, down: u64) -> u64
    requires fits { high + up < 2 ^ 64 }
    requires down { down ≤ low }
    ensures { result ≡ carried low high up down number }
{
    if low < number && number <= high {
        number + up - down
    } else {
        number
    }
}

/// How many blocks so many slots may have.
fn places_for(slots: usize) -> usize
    requires { slots < 2 ^ 33 }
    ensures room { slots ≤ 16 * (result - 1) }
    ensures least { (places : ℕ) → slots ≤ 16 * (places - 1) → result ≤ places }
{
    if slots == 0 {
        0
    } else {
        slots.div_ceil(16) + 1
    }
}
