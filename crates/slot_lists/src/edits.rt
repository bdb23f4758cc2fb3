//! What becomes of a rising list of slots.

ghost use Rattle.std.specs.Prelude.{◌≡◌, ◌≤◌, ◌<◌, ◌+◌, map, not, vec_len, vec_capacity, IfOk, IfErr};
ghost use Rattle.std.specs.List.{filter};
ghost use Rattle.std.specs.List.Sorted.{IsStrictlyIncreasing};
ghost use Rattle.slot_ranks.specs.Slots.{is_among, rank};
ghost use Rattle.slot_lists.specs.Rising.{BelongsAt, StandsAt, with_slot, without_slot};

use crate::room::insert_within;
use slot_ranks::SlotRanks;

/// The place of a slot, or, as an error, the one where it would stand: a binary search.
pub fn place_of(slots: &[u32], slot: u32) -> Result<usize, usize>
    requires rising { IsStrictlyIncreasing slots.now }
    ensures ok { IfOk result (StandsAt slots.now slot) }
    ensures err { IfErr result (BelongsAt slots.now slot) }
{
    slots.binary_search(&slot)
}

/// A slot comes to its place, if it isn't there. There is room for it.
pub fn insert_slot(slots: &mut Vec<u32>, slot: u32)
    requires rising { IsStrictlyIncreasing slots.old.items }
    requires room { vec_len slots.old < vec_capacity slots.old }
    ensures slots { slots.new.items ≡ with_slot slot slots.old.items }
    ensures len { vec_len slots.new ≤ vec_len slots.old + 1 }
    ensures capacity { vec_capacity slots.old ≤ vec_capacity slots.new }
{
    match place_of(slots, slot) {
        Ok(_) => {}
        Err(place) => insert_within(slots, place, slot),
    }
}

/// A slot goes, if it is there.
pub fn remove_slot(slots: &mut Vec<u32>, slot: u32)
    requires rising { IsStrictlyIncreasing slots.old.items }
    ensures slots { slots.new.items ≡ without_slot slot slots.old.items }
    ensures capacity { vec_capacity slots.old ≤ vec_capacity slots.new }
{
    match place_of(slots, slot) {
        Ok(place) => {
            let _ = slots.remove(place);
        }
        Err(_) => {}
    }
}

/// These slots go, where they are there: a binary search for each.
pub fn remove_slots(slots: &mut Vec<u32>, gone: &[u32])
    requires rising { IsStrictlyIncreasing slots.old.items }
    ensures slots { slots.new.items ≡ filter (λ slot. not (is_among gone.now slot)) slots.old.items }
    ensures capacity { vec_capacity slots.old ≤ vec_capacity slots.new }
{
    for slot in gone {
        remove_slot(slots, *slot);
    }
}

/// Each slot becomes the number of live slots before it.
pub fn renumber_slots(slots: &mut [u32], ranks: &SlotRanks)
    ensures { slots.new ≡ map (rank ranks.now.live) slots.old }
{
    for slot in slots.iter_mut() {
        *slot = ranks.rank(*slot);
    }
}
