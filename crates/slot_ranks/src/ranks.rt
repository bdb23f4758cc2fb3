//! The live slots of a table, with their ranks.

ghost use Rattle.std.specs.Prelude.{◌≡◌, ◌≤◌, ◌<◌, ◌+◌, ◌-◌, ◌++◌, ◌∷◌, [], ℕ, true, false, not, ◌&&◌, length, take, replicate, slice_get, slice_index, slice_set, IfSome, OnOk, IsOk};
ghost use Rattle.std.specs.List.{All, filter, range_with_len};
ghost use Rattle.slot_ranks.specs.Iterated.{slots_left};
ghost use Rattle.slot_ranks.specs.Slots.{cleared, is_among, is_live, line, rank, without};

use crate::counts::{
    BLOCK, block_at, count_blocks, count_touched, count_whole_blocks, count_whole_slots,
    lower_blocks, lower_slots, mark_dead, push_block, slot_within,
};
use crate::iter::LiveSlots;
use crate::room::push_within;
use edit_base::NoMemory;
use std::alloc::Global;
use std::marker::Model;

/// Slots that are live or dead. One that comes stands behind all others, and none moves, so that a slot is a name for
/// good. Only `reserve` asks for memory.
#[derive(Drop)]
pub struct SlotRanks {
    live: Vec<bool>,
    /// How many live slots stand before a slot in its block of 64.
    inner: Vec<u8>,
    /// How many live slots stand before a block.
    before: Vec<u32>,
    /// How many slots are live.
    count: u32,
}

impl Model for SlotRanks {
    ghost use Rattle.std.specs.Prelude.{◌≡◌, ◌-◌, ◌*◌, ◌<◌, length, min, vec_capacity};
    ghost use Rattle.slot_ranks.specs.Slots.{Slots, line};
    ghost use Rattle.slot_ranks.specs.Ranks.{AreRanks};

    ghost Value = { Slots };

    ghost view = { λ it. record {
      live = it.live.items;
      spare = min (vec_capacity it.live - length it.live.items)
          (min (vec_capacity it.inner - length it.live.items) (64 * vec_capacity it.before - length it.live.items));
    } };

    ghost invariant = { λ it. record {
      ranks : AreRanks it.live.items it.inner.items it.before.items;
      count : it.count ≡ length (line it.live.items);
      few : length it.live.items < 4294967296;
    } };
}

impl SlotRanks {
    /// No slots. No memory is asked for.
    pub fn new(alloc: Global) -> SlotRanks
        ensures live { result.live ≡ [] }
        ensures spare { result.spare ≡ 0 }
    {
        SlotRanks {
            live: Vec::new(alloc),
            inner: Vec::new(alloc),
            before: Vec::new(alloc),
            count: 0,
        }
    }

    /// How many slots there are, live and dead.
    pub fn len(&self) -> u32
        ensures len { result ≡ length self.now.live }
        ensures fits { length self.now.live < 4294967296 }
    {
        self.live.len() as u32
    }

    /// How many slots are live.
    pub fn count(&self) -> u32
        ensures count { result ≡ length (line self.now.live) }
        ensures within { result ≤ length self.now.live }
    {
        self.count
    }

    /// Whether a slot is live.
    pub fn is_live(&self, slot: u32) -> bool
        ensures { result ≡ is_live self.now.live slot }
    {
        let at = slot as usize;
        at < self.live.len() && self.live[at]
    }

    /// How many live slots stand before a slot; all of them before one past the last.
    pub fn rank(&self, slot: u32) -> u32
        ensures rank { result ≡ rank self.now.live slot }
        ensures within { result ≤ slot }
    {
        if slot < self.len() {
            self.rank_within(slot)
        } else {
            self.count
        }
    }

    /// How many live slots stand before a slot of the table.
    fn rank_within(&self, slot: u32) -> u32
        requires { slot < length self.now.live }
        ensures rank { result ≡ rank self.now.live slot }
        ensures within { result ≤ slot }
    {
        let at = slot as usize;
        self.before[at / BLOCK] + u32::from(self.inner[at])
    }

    /// The live slot that so many live ones stand before.
    pub fn slot_at(&self, place: u32) -> u32
        requires { place < length (line self.now.live) }
        ensures slot { result ≡ slice_index (line self.now.live) place }
        ensures live { is_live self.now.live result ≡ true }
        ensures rank { rank self.now.live result ≡ place }
    {
        let block = block_at(&self.before, place);
        let from = BLOCK * block;
        let to = self.live.len().min(from + BLOCK);
        (from + slot_within(&self.inner[from..to], place - self.before[block])) as u32
    }

    /// The first live slot that doesn't stand before this one.
    pub fn live_from(&self, slot: u32) -> Option<u32>
        ensures slot { result ≡ slice_get (line self.now.live) (rank self.now.live slot) }
        ensures within { IfSome result (λ next. next < length self.now.live) }
        ensures fits { length self.now.live < 4294967296 }
    {
        let at = slot as usize;
        if at >= self.live.len() {
            return None;
        }
        if self.live[at] {
            return Some(slot);
        }
        let place = self.rank(slot);
        if place == self.count {
            None
        } else {
            Some(self.slot_at(place))
        }
    }

    /// The live slots, rising.
    pub fn iter(&self) -> LiveSlots<'_>
        ensures { slots_left result ≡ line self.now.live }
    {
        LiveSlots::new(self)
    }

    /// Makes room for so many slots. Where there is room already no memory is asked for.
    pub fn reserve(&mut self, slots: u32) -> Result<(), NoMemory>
        ensures ok { OnOk result (slots ≤ self.new.spare) }
        ensures live { self.new.live ≡ self.old.live }
        ensures spare { self.old.spare ≤ self.new.spare }
        ensures within { slots ≤ self.old.spare → IsOk result }
    {
        let more = slots as usize;
        let blocks = (self.live.len() + more).div_ceil(BLOCK);
        self.live.reserve(more)?;
        self.inner.reserve(more)?;
        self.before.reserve(blocks - self.before.len())?;
        Ok(())
    }

    /// A live slot comes behind all others, and its number is given. No memory is asked for.
    pub fn push(&mut self) -> u32
        requires room { 0 < self.old.spare }
        requires few { length self.old.live < 4294967295 }
        ensures slot { result ≡ length self.old.live }
        ensures live { self.new.live ≡ self.old.live ++ true ∷ [] }
        ensures line { line self.new.live ≡ line self.old.live ++ length self.old.live ∷ [] }
        ensures spare { self.old.spare ≤ self.new.spare + 1 }
    {
        let slot = self.live.len();
        push_block(&mut self.before, slot, self.count);
        let inner = self.count - self.before[slot / BLOCK];
        push_within(&mut self.inner, inner as u8);
        push_within(&mut self.live, true);
        self.count += 1;
        slot as u32
    }

    /// A live slot is dead now. The last slot goes, so that one that comes next takes its number.
    pub fn clear(&mut self, slot: u32)
        requires { is_live self.old.live slot ≡ true }
        ensures live { self.new.live ≡ cleared self.old.live slot }
        ensures line { line self.new.live ≡ without (rank self.old.live slot) (line self.old.live) }
        ensures spare { length self.old.live + self.old.spare ≤ length self.new.live + self.new.spare }
    {
        if slot as usize + 1 == self.live.len() {
            self.clear_last();
        } else {
            self.clear_inside(slot);
        }
    }

    /// The last slot, a live one, goes.
    fn clear_last(&mut self)
        requires some { 0 < length self.old.live }
        requires live { is_live self.old.live (length self.old.live - 1) ≡ true }
        ensures live { self.new.live ≡ take (length self.old.live - 1) self.old.live }
        ensures spare { length self.old.live + self.old.spare ≤ length self.new.live + self.new.spare }
    {
        let last = self.live.len() - 1;
        self.live.truncate(last);
        self.inner.truncate(last);
        self.before.truncate(last.div_ceil(BLOCK));
        self.count -= 1;
    }

    /// A live slot that isn't the last one is dead now.
    fn clear_inside(&mut self, slot: u32)
        requires live { is_live self.old.live slot ≡ true }
        requires inside { slot + 1 < length self.old.live }
        ensures live { self.new.live ≡ slice_set self.old.live slot false }
        ensures spare { self.old.spare ≤ self.new.spare }
    {
        let at = slot as usize;
        self.live[at] = false;
        let end = self.live.len().min(BLOCK * (at / BLOCK) + BLOCK);
        lower_slots(&mut self.inner, at + 1, end);
        lower_blocks(&mut self.before, at / BLOCK + 1);
        self.count -= 1;
    }

    /// These slots are dead now. The slots of a block are counted once where those that are cleared there follow one
    /// another, as they do where they rise.
    pub fn clear_many(&mut self, slots: &[u32])
        requires { All (λ slot. slot < length self.old.live) slots.now }
        ensures live { (slot : ℕ) → is_live self.new.live slot
            ≡ (is_live self.old.live slot && not (is_among slots.now slot)) }
        ensures len { length self.new.live ≡ length self.old.live }
        ensures line { line self.new.live ≡ filter (λ slot. not (is_among slots.now slot)) (line self.old.live) }
        ensures spare { self.old.spare ≤ self.new.spare }
    {
        mark_dead(&mut self.live, slots);
        count_touched(&self.live, &mut self.inner, slots);
        self.count = count_blocks(&self.live, &self.inner, &mut self.before);
    }

    /// No slots are left, and their room is.
    pub fn clear_all(&mut self)
        ensures live { self.new.live ≡ [] }
        ensures spare { length self.old.live + self.old.spare ≤ self.new.spare }
    {
        self.live.clear();
        self.inner.clear();
        self.before.clear();
        self.count = 0;
    }

    /// All dead slots go, and each live one gets its rank as its number: what is kept by slots has to be put at ranks
    /// first.
    pub fn squeeze(&mut self)
        ensures live { self.new.live ≡ replicate (length (line self.old.live)) true }
        ensures line { line self.new.live ≡ range_with_len 0 (length (line self.old.live)) }
        ensures spare { length self.old.live + self.old.spare ≤ length (line self.old.live) + self.new.spare }
    {
        let count = self.count as usize;
        self.live.truncate(count);
        self.inner.truncate(count);
        self.before.truncate(count.div_ceil(BLOCK));
        self.live.fill(true);
        count_whole_slots(&mut self.inner);
        count_whole_blocks(&mut self.before);
    }
}
