//! The tally of rows that come, go and change.

ghost use Rattle.std.specs.Prelude.{◌≡◌, ◌≤◌, ◌<◌, ◌+◌, ◌++◌, ◌∷◌, [], ℕ, List, true, false, length, map, slice_index, OnOk, IsOk};
ghost use Rattle.std.specs.List.{All, slice_set};
ghost use Rattle.std.specs.List.Sorted.{IsStrictlyIncreasing};
ghost use Rattle.slot_ranks.specs.Slots.{rank};
ghost use Rattle.span_table.specs.declared.kept.KeptRow.{KeptRow};
ghost use Rattle.span_table.specs.Table.{kept_at, without_at};
ghost use Rattle.row_kinds.specs.Kinds.{Climbs, IsTally, is_composing_row, is_paragraph_row, is_seat_row, one_if, places_of, turned};

use edit_base::NoMemory;
use slot_lists::SlotList;
use slot_ranks::SlotRanks;
use span_flags::{is_composing, is_paragraph, is_watch, kind_of_word};
use span_table::KeptRow;
use std::alloc::Global;

/// How many rows have ends that stay at boundaries of paragraphs, and the slots, rising, of those that are part of a
/// composing text and of the seats of watchers.
#[derive(Drop)]
pub struct Tally {
    pub paragraphs: u32,
    pub composing: SlotList,
    pub seats: SlotList,
}

impl Tally {
    /// Of no rows. No memory is asked for.
    pub fn new(alloc: Global) -> Tally
        ensures tally { IsTally [] [] result.paragraphs result.composing.slots result.seats.slots }
    {
        Tally {
            paragraphs: 0,
            composing: SlotList::new(alloc),
            seats: SlotList::new(alloc),
        }
    }

    /// Makes room for so many slots in each list, with those that are there. Where there is room already no memory is asked
    /// for.
    pub fn reserve(&mut self, places: u32) -> Result<(), NoMemory>
        ensures composing_ok { OnOk result (places ≤ places_of self.new.composing) }
        ensures seats_ok { OnOk result (places ≤ places_of self.new.seats) }
        ensures paragraphs { self.new.paragraphs ≡ self.old.paragraphs }
        ensures composing { self.new.composing.slots ≡ self.old.composing.slots }
        ensures seats { self.new.seats.slots ≡ self.old.seats.slots }
        ensures composing_spare { self.old.composing.spare ≤ self.new.composing.spare }
        ensures seats_spare { self.old.seats.spare ≤ self.new.seats.spare }
        ensures within { places ≤ places_of self.old.composing
            → places ≤ places_of self.old.seats → IsOk result }
    {
        reserve_places(&mut self.composing, places)?;
        reserve_places(&mut self.seats, places)
    }

    /// A row comes behind the others, in a slot behind theirs.
    pub fn enter(&mut self, slot: u32, row: &KeptRow)
        requires few { self.old.paragraphs < 4294967295 }
        requires composing_room { 0 < self.old.composing.spare }
        requires seats_room { 0 < self.old.seats.spare }
        ensures tally { (kept : List KeptRow) (slots : List ℕ) → length slots ≡ length kept → All (λ other. other < slot) slots
            → IsTally kept slots self.old.paragraphs self.old.composing.slots self.old.seats.slots
            → IsTally (kept ++ row.now ∷ []) (slots ++ slot ∷ [])
            self.new.paragraphs self.new.composing.slots self.new.seats.slots }
        ensures composing_places { places_of self.old.composing ≤ places_of self.new.composing }
        ensures seats_places { places_of self.old.seats ≤ places_of self.new.seats }
    {
        self.paragraphs += standing(row);
        turn(&mut self.composing, slot, false, is_composing(row.flags));
        turn(&mut self.seats, slot, false, is_watch(row.what));
    }

    /// The row in a slot becomes another one.
    pub fn change(&mut self, slot: u32, old: &KeptRow, new: &KeptRow)
        requires few { is_paragraph_row old.now ≡ false → self.old.paragraphs < 4294967295 }
        requires counted { is_paragraph_row old.now ≡ true → 0 < self.old.paragraphs }
        requires composing_room { is_composing_row old.now ≡ false → 0 < self.old.composing.spare }
        requires seats_room { is_seat_row old.now ≡ false → 0 < self.old.seats.spare }
        ensures tally { (kept : List KeptRow) (slots : List ℕ) (place : ℕ) → length slots ≡ length kept → Climbs slots
            → place < length kept → slice_index slots place ≡ slot → kept_at kept place ≡ old.now
            → IsTally kept slots self.old.paragraphs self.old.composing.slots self.old.seats.slots
            → IsTally (slice_set kept place new.now) slots
            self.new.paragraphs self.new.composing.slots self.new.seats.slots }
        ensures composing_places { places_of self.old.composing ≤ places_of self.new.composing }
        ensures seats_places { places_of self.old.seats ≤ places_of self.new.seats }
    {
        self.paragraphs -= standing(old);
        self.paragraphs += standing(new);
        turn(
            &mut self.composing,
            slot,
            is_composing(old.flags),
            is_composing(new.flags),
        );
        turn(
            &mut self.seats,
            slot,
            is_watch(old.what),
            is_watch(new.what),
        );
    }

    /// The row in a slot goes.
    pub fn leave(&mut self, slot: u32, row: &KeptRow)
        requires counted { is_paragraph_row row.now ≡ true → 0 < self.old.paragraphs }
        ensures tally { (kept : List KeptRow) (slots : List ℕ) (place : ℕ) → length slots ≡ length kept → Climbs slots
            → place < length kept → slice_index slots place ≡ slot → kept_at kept place ≡ row.now
            → IsTally kept slots self.old.paragraphs self.old.composing.slots self.old.seats.slots
            → IsTally (without_at place kept) (without_at place slots)
            self.new.paragraphs self.new.composing.slots self.new.seats.slots }
        ensures composing_places { places_of self.old.composing ≤ places_of self.new.composing }
        ensures seats_places { places_of self.old.seats ≤ places_of self.new.seats }
    {
        self.paragraphs -= standing(row);
        turn(&mut self.composing, slot, is_composing(row.flags), false);
        turn(&mut self.seats, slot, is_watch(row.what), false);
    }

    /// No row is left, and the room is.
    pub fn clear(&mut self)
        ensures tally { IsTally [] [] self.new.paragraphs self.new.composing.slots self.new.seats.slots }
        ensures composing_places { places_of self.old.composing ≤ places_of self.new.composing }
        ensures seats_places { places_of self.old.seats ≤ places_of self.new.seats }
    {
        self.paragraphs = 0;
        self.composing.clear();
        self.seats.clear();
    }

    /// Each slot becomes the number of live slots before it.
    pub fn renumber(&mut self, ranks: &SlotRanks)
        requires composing { IsStrictlyIncreasing (map (rank ranks.now.live) self.old.composing.slots) }
        requires seats { IsStrictlyIncreasing (map (rank ranks.now.live) self.old.seats.slots) }
        ensures tally { (kept : List KeptRow) (slots : List ℕ)
            → IsTally kept slots self.old.paragraphs self.old.composing.slots self.old.seats.slots
            → IsTally kept (map (rank ranks.now.live) slots)
            self.new.paragraphs self.new.composing.slots self.new.seats.slots }
        ensures composing_places { places_of self.old.composing ≤ places_of self.new.composing }
        ensures seats_places { places_of self.old.seats ≤ places_of self.new.seats }
    {
        self.composing.renumber(ranks);
        self.seats.renumber(ranks);
    }
}

/// Makes room in a list for so many slots, with those that are there.
fn reserve_places(list: &mut SlotList, places: u32) -> Result<(), NoMemory>
    ensures ok { OnOk result (places ≤ places_of list.new) }
    ensures slots { list.new.slots ≡ list.old.slots }
    ensures spare { list.old.spare ≤ list.new.spare }
    ensures within { places ≤ places_of list.old → IsOk result }
{
    list.reserve((places as usize).saturating_sub(list.len()) as u32)
}

/// A slot comes into a list or goes out of it.
fn turn(list: &mut SlotList, slot: u32, was: bool, is: bool)
    requires room { was ≡ false → is ≡ true → 0 < list.old.spare }
    ensures slots { list.new.slots ≡ turned was is slot list.old.slots }
    ensures places { places_of list.old ≤ places_of list.new }
{
    if was && !is {
        list.remove(slot);
    } else if is && !was {
        list.insert(slot);
    }
}

/// 1 for a row whose ends stay at boundaries of paragraphs, else 0.
fn standing(row: &KeptRow) -> u32
    ensures { result ≡ one_if (is_paragraph_row row.now) }
{
    u32::from(is_paragraph(kind_of_word(row.flags)))
}
