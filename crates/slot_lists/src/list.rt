//! A rising list of slots.

ghost use Rattle.std.specs.Prelude.{◌≡◌, ◌≤◌, ◌<◌, ◌+◌, ◌++◌, ◌∷◌, [], length, map, not, OnOk, IsOk};
ghost use Rattle.std.specs.List.{All, filter};
ghost use Rattle.std.specs.List.Sorted.{IsStrictlyIncreasing};
ghost use Rattle.slot_ranks.specs.Slots.{is_among, rank};
ghost use Rattle.slot_lists.specs.Rising.{with_slot, without_slot};

use crate::edits::{insert_slot, place_of, remove_slot, remove_slots, renumber_slots};
use edit_base::NoMemory;
use slot_ranks::{SlotRanks, push_within};
use std::alloc::Global;
use std::marker::Model;

/// Slots that rise. Only `reserve` asks for memory.
#[derive(Drop)]
pub struct SlotList {
    slots: Vec<u32>,
}

impl Model for SlotList {
    ghost use Rattle.std.specs.Prelude.{◌-◌, length, vec_capacity};
    ghost use Rattle.std.specs.List.Sorted.{IsStrictlyIncreasing};
    ghost use Rattle.slot_lists.specs.Rising.{Rising};

    ghost Value = { Rising };

    ghost view = { λ it. record {
      slots = it.slots.items;
      spare = vec_capacity it.slots - length it.slots.items;
    } };

    ghost invariant = { λ it. IsStrictlyIncreasing it.slots.items };
}

impl SlotList {
    /// No slots. No memory is asked for.
    pub fn new(alloc: Global) -> SlotList
        ensures slots { result.slots ≡ [] }
        ensures spare { result.spare ≡ 0 }
    {
        SlotList {
            slots: Vec::new(alloc),
        }
    }

    /// How many slots there are.
    pub fn len(&self) -> usize
        ensures { result ≡ length self.now.slots }
    {
        self.slots.len()
    }

    /// The slots, rising.
    pub fn as_slice(&self) -> &[u32]
        ensures slots { result.now ≡ self.now.slots }
        ensures rising { IsStrictlyIncreasing self.now.slots }
    {
        &self.slots
    }

    /// Whether a slot is among them: a binary search.
    pub fn contains(&self, slot: u32) -> bool
        ensures { result ≡ is_among self.now.slots slot }
    {
        match place_of(&self.slots, slot) {
            Ok(_) => true,
            Err(_) => false,
        }
    }

    /// Makes room for so many slots. Where there is room already no memory is asked for.
    pub fn reserve(&mut self, slots: u32) -> Result<(), NoMemory>
        ensures ok { OnOk result (slots ≤ self.new.spare) }
        ensures slots { self.new.slots ≡ self.old.slots }
        ensures spare { self.old.spare ≤ self.new.spare }
        ensures within { slots ≤ self.old.spare → IsOk result }
    {
        self.slots.reserve(slots as usize)?;
        Ok(())
    }

    /// A slot greater than all others comes behind them. No memory is asked for.
    pub fn push(&mut self, slot: u32)
        requires behind { All (λ other. other < slot) self.old.slots }
        requires room { 0 < self.old.spare }
        ensures slots { self.new.slots ≡ self.old.slots ++ slot ∷ [] }
        ensures spare { self.old.spare ≤ self.new.spare + 1 }
    {
        push_within(&mut self.slots, slot);
    }

    /// A slot is among them now, at its place: a binary search. No memory is asked for.
    pub fn insert(&mut self, slot: u32)
        requires { 0 < self.old.spare }
        ensures slots { self.new.slots ≡ with_slot slot self.old.slots }
        ensures spare { self.old.spare ≤ self.new.spare + 1 }
        ensures places { length self.old.slots + self.old.spare ≤ length self.new.slots + self.new.spare }
    {
        insert_slot(&mut self.slots, slot);
    }

    /// A slot isn't among them now: a binary search.
    pub fn remove(&mut self, slot: u32)
        ensures slots { self.new.slots ≡ without_slot slot self.old.slots }
        ensures spare { length self.old.slots + self.old.spare ≤ length self.new.slots + self.new.spare }
    {
        remove_slot(&mut self.slots, slot);
    }

    /// These slots aren't among them now: a binary search for each.
    pub fn remove_all(&mut self, gone: &[u32])
        ensures slots { self.new.slots ≡ filter (λ slot. not (is_among gone.now slot)) self.old.slots }
        ensures spare { length self.old.slots + self.old.spare ≤ length self.new.slots + self.new.spare }
    {
        remove_slots(&mut self.slots, gone);
    }

    /// No slots are left, and their room is.
    pub fn clear(&mut self)
        ensures slots { self.new.slots ≡ [] }
        ensures spare { length self.old.slots + self.old.spare ≤ self.new.spare }
    {
        self.slots.clear();
    }

    /// Each slot becomes the number of live slots before it. They rise still.
    pub fn renumber(&mut self, ranks: &SlotRanks)
        requires { IsStrictlyIncreasing (map (rank ranks.now.live) self.old.slots) }
        ensures slots { self.new.slots ≡ map (rank ranks.now.live) self.old.slots }
        ensures spare { self.new.spare ≡ self.old.spare }
    {
        renumber_slots(&mut self.slots, ranks);
    }
}
