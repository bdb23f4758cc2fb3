//! Ids, each with its slot.

ghost use Rattle.std.specs.Prelude.{◌≡◌, ◌≤◌, ◌<◌, ◌+◌, ◌==◌, ◌++◌, ◌∷◌, [], ℕ, List, length, map, nat_eq, slice_index, None, Some, IsSome, OnOk, IsOk, if◌then◌else◌};
ghost use Rattle.std.specs.List.{IsDistinct};
ghost use Rattle.std.specs.Option.{option_map};
ghost use Rattle.slot_ranks.specs.Slots.{rank, without};
ghost use Rattle.id_slots.specs.Named.{AreNamed, slot_in};

use edit_base::NoMemory;
use slot_ranks::SlotRanks;
use std::alloc::Global;
use std::collections::HashMap;
use std::marker::Model;

/// Ids, each with the slot in which its span is kept. Only `reserve` asks for memory.
#[derive(Drop)]
pub struct IdSlots {
    slots: HashMap<u32, u32>,
}

impl Model for IdSlots {
    ghost use Rattle.std.specs.HashMap.{spare};
    ghost use Rattle.id_slots.specs.Named.{Names};

    ghost Value = { Names };

    ghost view = { λ it. record {
      entries = it.slots.entries;
      spare = spare it.slots;
    } };
}

impl IdSlots {
    /// No ids. No memory is asked for.
    pub fn new(alloc: Global) -> IdSlots
        ensures slots { (id : ℕ) → slot_in result id ≡ None }
        ensures count { length result.entries ≡ 0 }
        ensures named { AreNamed [] [] result }
    {
        IdSlots {
            slots: HashMap::new(alloc),
        }
    }

    /// The slot of an id, or none where the id isn't there.
    pub fn get(&self, id: u32) -> Option<u32>
        ensures { result ≡ slot_in self.now id }
    {
        self.slots.get(&id).copied()
    }

    /// Makes room for so many ids. Where there is room already no memory is asked for.
    pub fn reserve(&mut self, ids: u32) -> Result<(), NoMemory>
        ensures ok { OnOk result (ids ≤ self.new.spare) }
        ensures slots { (id : ℕ) → slot_in self.new id ≡ slot_in self.old id }
        ensures count { length self.new.entries ≡ length self.old.entries }
        ensures named { (ids slots : List ℕ) → AreNamed ids slots self.old → AreNamed ids slots self.new }
        ensures spare { self.old.spare ≤ self.new.spare }
        ensures within { ids ≤ self.old.spare → IsOk result }
    {
        self.slots.reserve(ids as usize)?;
        Ok(())
    }

    /// An id that isn't there comes, with its slot. No memory is asked for.
    pub fn insert(&mut self, id: u32, slot: u32)
        requires absent { slot_in self.old id ≡ None }
        requires room { 0 < self.old.spare }
        ensures slots { (other : ℕ) → slot_in self.new other ≡ (if other == id then Some slot else slot_in self.old other) }
        ensures count { length self.new.entries ≡ length self.old.entries + 1 }
        ensures named { (ids slots : List ℕ) → AreNamed ids slots self.old
            → AreNamed (ids ++ id ∷ []) (slots ++ slot ∷ []) self.new }
        ensures spare { self.old.spare ≤ self.new.spare + 1 }
    {
        // There is room, so this succeeds.
        let _ = self.slots.insert(id, slot);
    }

    /// An id that is there goes.
    pub fn remove(&mut self, id: u32)
        requires { IsSome (slot_in self.old id) }
        ensures slots { (other : ℕ) → slot_in self.new other ≡ (if other == id then None else slot_in self.old other) }
        ensures count { length self.new.entries + 1 ≡ length self.old.entries }
        ensures named { (ids slots : List ℕ) (place : ℕ) → IsDistinct nat_eq ids → AreNamed ids slots self.old
            → place < length ids → slice_index ids place ≡ id
            → AreNamed (without place ids) (without place slots) self.new }
        ensures spare { self.old.spare ≤ self.new.spare }
    {
        let _ = self.slots.remove(&id);
    }

    /// No ids are left, and their room is.
    pub fn clear(&mut self)
        ensures slots { (id : ℕ) → slot_in self.new id ≡ None }
        ensures count { length self.new.entries ≡ 0 }
        ensures named { AreNamed [] [] self.new }
        ensures spare { length self.old.entries + self.old.spare ≤ self.new.spare }
    {
        self.slots.clear();
    }

    /// Each slot becomes the number of live slots before it. No memory is asked for.
    pub fn renumber(&mut self, ranks: &SlotRanks)
        ensures slots { (id : ℕ) → slot_in self.new id ≡ option_map (rank ranks.now.live) (slot_in self.old id) }
        ensures count { length self.new.entries ≡ length self.old.entries }
        ensures named { (ids slots : List ℕ) → AreNamed ids slots self.old
            → AreNamed ids (map (rank ranks.now.live) slots) self.new }
        ensures spare { self.old.spare ≤ self.new.spare }
    {
        self.slots.retain(|_id, slot| {
            *slot = ranks.rank(*slot);
            true
        });
    }
}
