//! The rows in order of attachment, each in a slot of its own.

ghost use Rattle.std.specs.Prelude.{◌≡◌, ◌≤◌, ◌<◌, ◌+◌, ◌-◌, ◌++◌, [], ◌∷◌, ℕ, true, false, not, length, map, slice_index, take, IfOk, OnOk, OnErr, IsOk};
ghost use Rattle.std.specs.List.{All, filter, range_with_len, slice_set};
ghost use Rattle.std.specs.List.Sorted.{IsPermutation, IsStrictlyIncreasing};
ghost use Rattle.edit_model.specs.Rows.{span_of};
ghost use Rattle.slot_ranks.specs.Slots.{is_among, line};
ghost use Rattle.span_table.specs.Numbers.{bound, opened, shut};
ghost use Rattle.span_table.specs.Slots.{crossing, places_without};
ghost use Rattle.span_table.specs.Table.{AreNumbers, HasRoomFor, IsAppended, IsClearOf, closed_span, pushed_span};
ghost use Rattle.span_table.specs.Table.{kept_at, kept_span, row_place, seen, span_at, spans_of, squeezed, with_ends, without_at};

use crate::kept::KeptRow;
use crate::numbers::{ends_behind, number_at, starts_behind};
use crate::slots::{Fixed, bring_run, carry_live, pack, places, row_in, slots_for};
use edit_base::{NoMemory, SpanRow, Steps};
use slot_ranks::{SlotRanks, push_within};
use std::alloc::Global;
use std::marker::{Brand, Model};
use std::sync::ledger::{Blank, Ledger};

/// Spans in order of attachment, round a gap of a text. A row that is read has its place in this list as its order.
///
/// A row stays in its slot while others come and go. Slots rise in order of attachment, and those whose rows are gone are
/// squeezed out only where no other ones are left.
#[derive(Drop)]
pub struct SpanRows {
    /// By slot.
    fixed: Vec<Fixed>,
    /// The numbers of the starts, by slot.
    starts: Vec<u64>,
    /// The numbers of the ends, by slot.
    ends: Vec<u64>,
    /// Which slots have rows.
    ranks: SlotRanks,
    /// How many slots there is memory for.
    reserved: u32,
    /// The gap's place.
    gap: u32,
    /// The gap's length, which is added to every end behind it.
    room: u32,
}

impl Model for SpanRows {
    ghost use Rattle.std.specs.Prelude.{◌-◌, ◌<◌, length, vec_capacity};
    ghost use Rattle.slot_ranks.specs.Slots.{line};
    ghost use Rattle.span_table.specs.Numbers.{bound};
    ghost use Rattle.span_table.specs.Slots.{AreKept, HaveRoom, places, rows_in};
    ghost use Rattle.span_table.specs.Table.{Rows};

    ghost Value = { Rows };

    ghost view = { λ it. record {
      kept = rows_in it.fixed.items it.starts.items it.ends.items (line it.ranks.live);
      gap = it.gap;
      room = it.room;
      spare = places it.reserved - length (line it.ranks.live);
      slots = line it.ranks.live;
      starts = it.starts.items;
      ends = it.ends.items;
      left = it.reserved - length it.starts.items;
    } };

    ghost invariant = { λ it. record {
      rows : AreKept it.gap it.room it.fixed.items it.starts.items it.ends.items it.ranks.live;
      memory : HaveRoom it.reserved (length (line it.ranks.live)) (length it.ranks.live) it.ranks.spare
          (vec_capacity it.fixed) (vec_capacity it.starts) (vec_capacity it.ends);
      few : it.reserved < bound;
      gap_fits : it.gap < bound;
      room_fits : it.room < bound;
    } };
}

impl SpanRows {
    /// No rows, at the gap place 0 with no room. No memory is asked for.
    pub fn new(alloc: Global) -> Result<SpanRows, NoMemory>
        ensures made { IsOk result }
        ensures ok { IfOk result (λ rows. rows.kept ≡ []) }
        ensures gap { IfOk result (λ rows. rows.gap ≡ 0) }
        ensures room { IfOk result (λ rows. rows.room ≡ 0) }
        ensures slots { IfOk result (λ rows. rows.slots ≡ []) }
        ensures starts { IfOk result (λ rows. rows.starts ≡ []) }
        ensures ends { IfOk result (λ rows. rows.ends ≡ []) }
    {
        Ok(SpanRows {
            fixed: Vec::new(alloc),
            starts: Vec::new(alloc),
            ends: Vec::new(alloc),
            ranks: SlotRanks::new(alloc),
            reserved: 0,
            gap: 0,
            room: 0,
        })
    }

    /// How many rows there are.
    pub fn count(&self) -> u32
        ensures count { result ≡ length self.now.kept }
        ensures bound { length self.now.kept < bound }
        ensures numbers { All (AreNumbers self.now.gap self.now.room) self.now.kept }
        ensures gap { self.now.gap < bound }
        ensures room { self.now.room < bound }
        ensures rising { IsStrictlyIncreasing self.now.slots }
        ensures placed { length self.now.slots ≡ length self.now.kept }
        ensures below { All (λ slot. slot < length self.now.starts) self.now.slots }
        ensures few { length self.now.starts < bound }
        ensures spare { length self.now.kept + self.now.spare < bound }
        ensures ends { length self.now.ends ≡ length self.now.starts }
        ensures start_numbers { (i : ℕ) → i < length self.now.kept
            → (kept_at self.now.kept i).start ≡ slice_index self.now.starts (slice_index self.now.slots i) }
        ensures end_numbers { (i : ℕ) → i < length self.now.kept
            → (kept_at self.now.kept i).end ≡ slice_index self.now.ends (slice_index self.now.slots i) }
    {
        self.ranks.count()
    }

    /// The gap's place.
    pub fn gap(&self) -> u32
        ensures { result ≡ self.now.gap }
    {
        self.gap
    }

    /// The gap's length.
    pub fn room(&self) -> u32
        ensures { result ≡ self.now.room }
    {
        self.room
    }

    /// The place of the first row with this id, or none where the id isn't there.
    pub fn find(&self, id: u32) -> Option<u32>
        ensures { result ≡ row_place id (spans_of self.now) }
    {
        for place in 0..self.ranks.count() {
            if self.fixed[self.ranks.slot_at(place) as usize].id == id {
                return Some(place);
            }
        }
        None
    }

    /// The row at a place, which is its order. One step.
    pub fn row<L: Ledger>(&self, i: u32, steps: &mut Steps<L>) -> SpanRow
        requires { i < length self.now.kept }
        ensures span { span_of result ≡ span_at (spans_of self.now) i }
        ensures order { result.order ≡ i }
        ensures tick { steps.new ≡ steps.old + 1 }
    {
        steps.tick();
        self.kept(i).seen(self.gap, self.room, u64::from(i))
    }

    /// The row at a place, which is its order, read with a counter of its own.
    pub fn read(&self, i: u32) -> SpanRow
        requires { i < length self.now.kept }
        ensures span { span_of result ≡ span_at (spans_of self.now) i }
        ensures order { result.order ≡ i }
    {
        read_counted::<Brand>(self, i, Blank::new(1))
    }

    /// The row at a place as it is kept.
    pub fn kept(&self, i: u32) -> KeptRow
        requires { i < length self.now.kept }
        ensures row { result ≡ kept_at self.now.kept i }
        ensures numbers { AreNumbers self.now.gap self.now.room result }
        ensures span { seen self.now.gap self.now.room result ≡ span_at (spans_of self.now) i }
    {
        row_in(&self.fixed, &self.starts, &self.ends, self.ranks.slot_at(i))
    }

    /// The slot of the row at a place.
    pub fn slot_at(&self, place: u32) -> u32
        requires { place < length self.now.kept }
        ensures slot { result ≡ slice_index self.now.slots place }
        ensures within { result < length self.now.starts }
        ensures live { is_among self.now.slots result ≡ true }
    {
        self.ranks.slot_at(place)
    }

    /// Whether a slot has a row.
    pub fn is_live(&self, slot: u32) -> bool
        ensures { result ≡ is_among self.now.slots slot }
    {
        self.ranks.is_live(slot)
    }

    /// The place of the row in a slot.
    pub fn rank_of(&self, slot: u32) -> u32
        requires { is_among self.now.slots slot ≡ true }
        ensures slot { slice_index self.now.slots result ≡ slot }
        ensures within { result < length self.now.kept }
        ensures only { (i : ℕ) → i < length self.now.kept → slice_index self.now.slots i ≡ slot → i ≡ result }
    {
        self.ranks.rank(slot)
    }

    /// The row in a slot as it is kept.
    pub fn kept_in(&self, slot: u32) -> KeptRow
        requires { is_among self.now.slots slot ≡ true }
        ensures row { (i : ℕ) → i < length self.now.kept → slice_index self.now.slots i ≡ slot
            → result ≡ kept_at self.now.kept i }
        ensures start { result.start ≡ slice_index self.now.starts slot }
        ensures end { result.end ≡ slice_index self.now.ends slot }
        ensures numbers { AreNumbers self.now.gap self.now.room result }
    {
        row_in(&self.fixed, &self.starts, &self.ends, slot)
    }

    /// The row in a slot, with its place as its order. One step.
    pub fn row_in<L: Ledger>(&self, slot: u32, steps: &mut Steps<L>) -> SpanRow
        requires { is_among self.now.slots slot ≡ true }
        ensures span { (i : ℕ) → i < length self.now.kept → slice_index self.now.slots i ≡ slot
            → span_of result ≡ span_at (spans_of self.now) i }
        ensures order { slice_index self.now.slots result.order ≡ slot }
        ensures within { result.order < length self.now.kept }
        ensures tick { steps.new ≡ steps.old + 1 }
    {
        self.row(self.rank_of(slot), steps)
    }

    /// The row in a slot, with its place as its order, read with a counter of its own.
    pub fn read_in(&self, slot: u32) -> SpanRow
        requires { is_among self.now.slots slot ≡ true }
        ensures span { (i : ℕ) → i < length self.now.kept → slice_index self.now.slots i ≡ slot
            → span_of result ≡ span_at (spans_of self.now) i }
        ensures order { slice_index self.now.slots result.order ≡ slot }
        ensures within { result.order < length self.now.kept }
    {
        self.read(self.rank_of(slot))
    }

    /// Which slots have rows, with their ranks.
    pub fn ranks(&self) -> &SlotRanks
        ensures { line result.now.live ≡ self.now.slots }
    {
        &self.ranks
    }

    /// The numbers of the starts, by slot.
    pub fn starts(&self) -> &[u64]
        ensures { result.now ≡ self.now.starts }
    {
        &self.starts
    }

    /// The numbers of the ends, by slot.
    pub fn ends(&self) -> &[u64]
        ensures { result.now ≡ self.now.ends }
    {
        &self.ends
    }

    /// How many slots there are, with those whose rows are gone.
    pub fn slot_count(&self) -> u32
        ensures { result ≡ length self.now.starts }
    {
        self.starts.len() as u32
    }

    /// How many slots may come before those whose rows are gone have to be squeezed out.
    pub fn left(&self) -> u32
        ensures { result ≡ self.now.left }
    {
        self.reserved - self.starts.len() as u32
    }

    /// How many rows may come before memory is asked for.
    fn spare(&self) -> u32
        ensures { result ≡ self.now.spare }
    {
        places(self.reserved) - self.ranks.count()
    }

    /// Makes room for so many rows. Where there is room already no memory is asked for.
    ///
    /// # Errors
    /// `NoMemory`, also where the rows would be over 3,435,973,836.
    pub fn reserve(&mut self, rows: u32) -> Result<(), NoMemory>
        ensures ok { OnOk result (rows ≤ self.new.spare) }
        ensures kept { self.new.kept ≡ self.old.kept }
        ensures gap { self.new.gap ≡ self.old.gap }
        ensures room { self.new.room ≡ self.old.room }
        ensures spare { self.old.spare ≤ self.new.spare }
        ensures within { rows ≤ self.old.spare → IsOk result }
        ensures slots { self.new.slots ≡ self.old.slots }
        ensures starts { self.new.starts ≡ self.old.starts }
        ensures ends { self.new.ends ≡ self.old.ends }
        ensures left { self.old.left ≤ self.new.left }
        ensures more { OnOk result (self.old.spare < rows → self.old.left < self.new.left) }
    {
        if rows <= self.spare() {
            return Ok(());
        }
        let slots = slots_for(self.ranks.count(), rows)?;
        let more = slots - self.starts.len() as u32;
        self.fixed.reserve(more as usize)?;
        self.starts.reserve(more as usize)?;
        self.ends.reserve(more as usize)?;
        self.ranks.reserve(more)?;
        self.reserved = slots;
        Ok(())
    }

    /// Adds a row behind the others, whatever its order says. Without memory nothing changes, and where a spare row is
    /// left none is asked for. The row gets a slot behind all others; where none is left, the others are squeezed first.
    ///
    /// # Errors
    /// `NoMemory`, also where there are 3,435,973,836 rows.
    pub fn add(&mut self, row: &SpanRow) -> Result<(), NoMemory>
        requires { length self.old.kept < 4294967295 }
        ensures ok { OnOk result (self.new.kept
            ≡ self.old.kept ++ kept_span self.old.gap self.old.room (span_of row.now) ∷ []) }
        ensures spans { OnOk result (spans_of self.new ≡ spans_of self.old ++ span_of row.now ∷ []) }
        ensures err { OnErr result (self.new.kept ≡ self.old.kept) }
        ensures gap { self.new.gap ≡ self.old.gap }
        ensures room { self.new.room ≡ self.old.room }
        ensures spare { self.old.spare ≤ self.new.spare + 1 }
        ensures err_spare { OnErr result (self.old.spare ≤ self.new.spare) }
        ensures within { 0 < self.old.spare → IsOk result }
        ensures slots { OnOk result (0 < self.old.left → self.new.slots ≡ self.old.slots ++ length self.old.starts ∷ []) }
        ensures starts { OnOk result (0 < self.old.left → self.new.starts
            ≡ self.old.starts ++ (kept_span self.old.gap self.old.room (span_of row.now)).start ∷ []) }
        ensures ends { OnOk result (0 < self.old.left → self.new.ends
            ≡ self.old.ends ++ (kept_span self.old.gap self.old.room (span_of row.now)).end ∷ []) }
        ensures left { OnOk result (0 < self.old.left → self.old.left ≤ self.new.left + 1) }
        ensures squeezed { OnOk result (0 < self.old.spare → self.old.left ≡ 0
            → IsAppended (kept_span self.old.gap self.old.room (span_of row.now)) (squeezed self.old) self.new) }
        ensures grown { OnOk result (self.old.spare ≡ 0
            → IsAppended (kept_span self.old.gap self.old.room (span_of row.now)) self.old self.new) }
        ensures err_slots { OnErr result (self.new.slots ≡ self.old.slots) }
        ensures err_starts { OnErr result (self.new.starts ≡ self.old.starts) }
        ensures err_ends { OnErr result (self.new.ends ≡ self.old.ends) }
        ensures err_left { OnErr result (self.old.left ≤ self.new.left) }
    {
        self.make_room()?;
        self.make_slot();
        self.append(row);
        Ok(())
    }

    /// There is room for a row.
    fn make_room(&mut self) -> Result<(), NoMemory>
        ensures ok { OnOk result (0 < self.new.spare) }
        ensures kept { self.new.kept ≡ self.old.kept }
        ensures gap { self.new.gap ≡ self.old.gap }
        ensures room { self.new.room ≡ self.old.room }
        ensures spare { self.old.spare ≤ self.new.spare }
        ensures within { 0 < self.old.spare → IsOk result }
        ensures slots { self.new.slots ≡ self.old.slots }
        ensures starts { self.new.starts ≡ self.old.starts }
        ensures ends { self.new.ends ≡ self.old.ends }
        ensures left { self.old.left ≤ self.new.left }
        ensures more { OnOk result (self.old.spare ≡ 0 → self.old.left < self.new.left) }
        ensures same { OnOk result (0 < self.old.spare → self.new.left ≡ self.old.left) }
    {
        if self.spare() > 0 {
            return Ok(());
        }
        let count = self.ranks.count();
        self.reserve(count / 2 + 4)
    }

    /// A slot is left for a row.
    fn make_slot(&mut self)
        requires { 0 < self.old.spare }
        ensures some { 0 < self.new.left }
        ensures kept { self.new.kept ≡ self.old.kept }
        ensures gap { self.new.gap ≡ self.old.gap }
        ensures room { self.new.room ≡ self.old.room }
        ensures spare { self.new.spare ≡ self.old.spare }
        ensures slots { 0 < self.old.left → self.new.slots ≡ self.old.slots }
        ensures starts { 0 < self.old.left → self.new.starts ≡ self.old.starts }
        ensures ends { 0 < self.old.left → self.new.ends ≡ self.old.ends }
        ensures left { 0 < self.old.left → self.new.left ≡ self.old.left }
        ensures squeezed_slots { self.old.left ≡ 0 → self.new.slots ≡ (squeezed self.old).slots }
        ensures squeezed_starts { self.old.left ≡ 0 → self.new.starts ≡ (squeezed self.old).starts }
        ensures squeezed_ends { self.old.left ≡ 0 → self.new.ends ≡ (squeezed self.old).ends }
    {
        if self.left() == 0 {
            self.squeeze();
        }
    }

    /// Adds a row in a slot that is left.
    fn append(&mut self, row: &SpanRow)
        requires spare { 0 < self.old.spare }
        requires left { 0 < self.old.left }
        ensures kept { self.new.kept ≡ self.old.kept ++ kept_span self.old.gap self.old.room (span_of row.now) ∷ [] }
        ensures spans { spans_of self.new ≡ spans_of self.old ++ span_of row.now ∷ [] }
        ensures gap { self.new.gap ≡ self.old.gap }
        ensures room { self.new.room ≡ self.old.room }
        ensures spare { self.old.spare ≡ self.new.spare + 1 }
        ensures slots { self.new.slots ≡ self.old.slots ++ length self.old.starts ∷ [] }
        ensures starts { self.new.starts
            ≡ self.old.starts ++ (kept_span self.old.gap self.old.room (span_of row.now)).start ∷ [] }
        ensures ends { self.new.ends
            ≡ self.old.ends ++ (kept_span self.old.gap self.old.room (span_of row.now)).end ∷ [] }
        ensures left { self.old.left ≡ self.new.left + 1 }
    {
        let kept = KeptRow::new(row, self.gap, self.room);
        push_within(
            &mut self.fixed,
            Fixed {
                id: kept.id,
                flags: kept.flags,
                what: kept.what,
            },
        );
        push_within(&mut self.starts, kept.start);
        push_within(&mut self.ends, kept.end);
        let _slot = self.ranks.push();
    }

    /// The slots whose rows are gone go, and each other row gets its place as its slot.
    pub fn squeeze(&mut self)
        ensures kept { self.new.kept ≡ self.old.kept }
        ensures gap { self.new.gap ≡ self.old.gap }
        ensures room { self.new.room ≡ self.old.room }
        ensures spare { self.new.spare ≡ self.old.spare }
        ensures slots { self.new.slots ≡ range_with_len 0 (length self.old.kept) }
        ensures starts { self.new.starts ≡ map (slice_index self.old.starts) self.old.slots }
        ensures ends { self.new.ends ≡ map (slice_index self.old.ends) self.old.slots }
        ensures left { self.old.left ≤ self.new.left }
        ensures free { self.new.spare ≤ self.new.left }
    {
        pack(&mut self.fixed, &self.ranks);
        pack(&mut self.starts, &self.ranks);
        pack(&mut self.ends, &self.ranks);
        self.ranks.squeeze();
    }

    /// The row at a place becomes this one, of the same id and order.
    pub fn put(&mut self, i: u32, row: &SpanRow)
        requires within { i < length self.old.kept }
        requires id { row.now.id ≡ (span_at (spans_of self.old) i).id }
        requires order { row.now.order ≡ i }
        ensures kept { self.new.kept
            ≡ slice_set self.old.kept i (kept_span self.old.gap self.old.room (span_of row.now)) }
        ensures spans { spans_of self.new ≡ slice_set (spans_of self.old) i (span_of row.now) }
        ensures gap { self.new.gap ≡ self.old.gap }
        ensures room { self.new.room ≡ self.old.room }
        ensures spare { self.old.spare ≤ self.new.spare }
        ensures slots { self.new.slots ≡ self.old.slots }
        ensures starts { self.new.starts ≡ slice_set self.old.starts (slice_index self.old.slots i)
            (kept_span self.old.gap self.old.room (span_of row.now)).start }
        ensures ends { self.new.ends ≡ slice_set self.old.ends (slice_index self.old.slots i)
            (kept_span self.old.gap self.old.room (span_of row.now)).end }
        ensures left { self.new.left ≡ self.old.left }
    {
        let at = self.ranks.slot_at(i) as usize;
        let kept = KeptRow::new(row, self.gap, self.room);
        self.fixed[at] = Fixed {
            id: kept.id,
            flags: kept.flags,
            what: kept.what,
        };
        self.starts[at] = kept.start;
        self.ends[at] = kept.end;
    }

    /// The ends of the row at a place become these.
    pub fn move_ends(&mut self, i: u32, start: u32, end: u32)
        requires within { i < length self.old.kept }
        requires order { start ≤ end }
        ensures spans { spans_of self.new
            ≡ slice_set (spans_of self.old) i (with_ends start end (span_at (spans_of self.old) i)) }
        ensures kept { self.new.kept ≡ slice_set self.old.kept i (kept_span self.old.gap self.old.room
            (with_ends start end (span_at (spans_of self.old) i))) }
        ensures gap { self.new.gap ≡ self.old.gap }
        ensures room { self.new.room ≡ self.old.room }
        ensures spare { self.old.spare ≤ self.new.spare }
        ensures slots { self.new.slots ≡ self.old.slots }
        ensures starts { self.new.starts ≡ slice_set self.old.starts (slice_index self.old.slots i)
            (kept_span self.old.gap self.old.room (with_ends start end (span_at (spans_of self.old) i))).start }
        ensures ends { self.new.ends ≡ slice_set self.old.ends (slice_index self.old.slots i)
            (kept_span self.old.gap self.old.room (with_ends start end (span_at (spans_of self.old) i))).end }
        ensures left { self.new.left ≡ self.old.left }
    {
        let row = self.read(i);
        self.put(i, &SpanRow { start, end, ..row });
    }

    /// Removes the row at a place; those behind it take the places before theirs.
    pub fn remove(&mut self, i: u32)
        requires { i < length self.old.kept }
        ensures kept { self.new.kept ≡ without_at i self.old.kept }
        ensures spans { spans_of self.new ≡ without_at i (spans_of self.old) }
        ensures gap { self.new.gap ≡ self.old.gap }
        ensures room { self.new.room ≡ self.old.room }
        ensures spare { self.old.spare ≤ self.new.spare }
        ensures slots { self.new.slots ≡ without_at i self.old.slots }
        ensures starts { self.new.starts ≡ take (length self.new.starts) self.old.starts }
        ensures ends { self.new.ends ≡ take (length self.new.ends) self.old.ends }
        ensures left { self.old.left ≤ self.new.left }
    {
        let slot = self.ranks.slot_at(i);
        self.ranks.clear(slot);
        let slots = self.ranks.len() as usize;
        self.fixed.truncate(slots);
        self.starts.truncate(slots);
        self.ends.truncate(slots);
    }

    /// Removes the rows in these slots. The counts of slots are put right once for a block of slots where these rise.
    pub fn remove_all(&mut self, gone: &[u32])
        requires { All (λ slot. is_among self.old.slots slot ≡ true) gone.now }
        ensures kept { self.new.kept ≡ map (kept_at self.old.kept) (places_without gone.now self.old.slots) }
        ensures spans { spans_of self.new ≡ map (span_at (spans_of self.old)) (places_without gone.now self.old.slots) }
        ensures gap { self.new.gap ≡ self.old.gap }
        ensures room { self.new.room ≡ self.old.room }
        ensures spare { self.old.spare ≤ self.new.spare }
        ensures slots { self.new.slots ≡ filter (λ slot. not (is_among gone.now slot)) self.old.slots }
        ensures starts { self.new.starts ≡ self.old.starts }
        ensures ends { self.new.ends ≡ self.old.ends }
        ensures left { self.new.left ≡ self.old.left }
    {
        self.ranks.clear_many(gone);
    }

    /// No rows are left, and their room is.
    pub fn clear(&mut self)
        ensures kept { self.new.kept ≡ [] }
        ensures gap { self.new.gap ≡ self.old.gap }
        ensures room { self.new.room ≡ self.old.room }
        ensures spare { length self.old.kept + self.old.spare ≤ self.new.spare }
        ensures slots { self.new.slots ≡ [] }
        ensures starts { self.new.starts ≡ [] }
        ensures ends { self.new.ends ≡ [] }
        ensures left { length self.old.starts + self.old.left ≤ self.new.left }
    {
        self.fixed.clear();
        self.starts.clear();
        self.ends.clear();
        self.ranks.clear_all();
    }

    /// The gap goes to another place and gets another length; every row is kept anew and seen as before.
    pub fn shift_for_gap(&mut self, old_gap: u32, new_gap: u32, old_room: u32, new_room: u32)
        requires gap { old_gap ≡ self.old.gap }
        requires room { old_room ≡ self.old.room }
        ensures spans { spans_of self.new ≡ spans_of self.old }
        ensures kept { self.new.kept ≡ map (kept_span new_gap new_room) (spans_of self.old) }
        ensures gap { self.new.gap ≡ new_gap }
        ensures room { self.new.room ≡ new_room }
        ensures spare { self.old.spare ≤ self.new.spare }
        ensures slots { self.new.slots ≡ self.old.slots }
        ensures left { self.new.left ≡ self.old.left }
    {
        carry_live(
            &mut self.starts,
            &self.ranks,
            old_gap,
            old_room,
            new_gap,
            new_room,
        );
        carry_live(
            &mut self.ends,
            &self.ranks,
            old_gap,
            old_room,
            new_gap,
            new_room,
        );
        self.gap = new_gap;
        self.room = new_room;
    }

    /// The gap goes to another place and stays as long; every row is seen as before. Only the numbers of the slots of both
    /// lists are written: those of the rows whose start, or end, stands between both places of the gap.
    pub fn bring_gap(&mut self, to: u32, starts_run: &[u32], ends_run: &[u32])
        requires starts { IsPermutation (crossing self.old.gap to self.old.room self.old.starts self.old.slots) starts_run.now }
        requires ends { IsPermutation (crossing self.old.gap to self.old.room self.old.ends self.old.slots) ends_run.now }
        ensures spans { spans_of self.new ≡ spans_of self.old }
        ensures kept { self.new.kept ≡ map (kept_span to self.old.room) (spans_of self.old) }
        ensures gap { self.new.gap ≡ to }
        ensures room { self.new.room ≡ self.old.room }
        ensures spare { self.new.spare ≡ self.old.spare }
        ensures slots { self.new.slots ≡ self.old.slots }
        ensures starts { (slot : ℕ) → is_among self.old.slots slot ≡ true → slice_index self.new.starts slot
            ≡ opened to self.old.room (shut self.old.gap self.old.room (slice_index self.old.starts slot)) }
        ensures ends { (slot : ℕ) → is_among self.old.slots slot ≡ true → slice_index self.new.ends slot
            ≡ opened to self.old.room (shut self.old.gap self.old.room (slice_index self.old.ends slot)) }
        ensures other_starts { (slot : ℕ) → is_among starts_run.now slot ≡ false
            → slice_index self.new.starts slot ≡ slice_index self.old.starts slot }
        ensures other_ends { (slot : ℕ) → is_among ends_run.now slot ≡ false
            → slice_index self.new.ends slot ≡ slice_index self.old.ends slot }
        ensures long { length self.new.starts ≡ length self.old.starts }
        ensures left { self.new.left ≡ self.old.left }
    {
        let gap = self.gap;
        let room = self.room;
        bring_run(&mut self.starts, starts_run, gap, to, room);
        bring_run(&mut self.ends, ends_run, gap, to, room);
        self.gap = to;
    }

    /// So many units come at the gap: it is that much shorter and stands behind them. No row changes.
    pub fn typed(&mut self, units: u32)
        requires room { units ≤ self.old.room }
        requires place { self.old.gap + units < bound }
        requires fits { All (HasRoomFor units) (spans_of self.old) }
        ensures spans { spans_of self.new ≡ map (pushed_span self.old.gap units) (spans_of self.old) }
        ensures kept { self.new.kept ≡ self.old.kept }
        ensures gap { self.new.gap ≡ self.old.gap + units }
        ensures room_left { self.new.room ≡ self.old.room - units }
        ensures spare { self.new.spare ≡ self.old.spare }
        ensures slots { self.new.slots ≡ self.old.slots }
        ensures starts { self.new.starts ≡ self.old.starts }
        ensures ends { self.new.ends ≡ self.old.ends }
        ensures left { self.new.left ≡ self.old.left }
    {
        self.gap += units;
        self.room -= units;
    }

    /// The units from `start` to the gap go: it stands at `start` and is that much longer. No row changes, since no end
    /// stands inside that range, nor at one of its ends on the side that falls into the gap.
    pub fn closed(&mut self, start: u32)
        requires order { start ≤ self.old.gap }
        requires room { self.old.room + (self.old.gap - start) < bound }
        requires clear { All (IsClearOf start self.old.gap) (spans_of self.old) }
        ensures spans { spans_of self.new ≡ map (closed_span start self.old.gap) (spans_of self.old) }
        ensures kept { self.new.kept ≡ self.old.kept }
        ensures gap { self.new.gap ≡ start }
        ensures room_left { self.new.room ≡ self.old.room + (self.old.gap - start) }
        ensures spare { self.new.spare ≡ self.old.spare }
        ensures slots { self.new.slots ≡ self.old.slots }
        ensures starts { self.new.starts ≡ self.old.starts }
        ensures ends { self.new.ends ≡ self.old.ends }
        ensures left { self.new.left ≡ self.old.left }
    {
        self.room += self.gap - start;
        self.gap = start;
    }
}

fn read_counted<L: Ledger>(rows: &SpanRows, i: u32, blank: Blank) -> SpanRow
    requires within { i < length rows.now.kept }
    requires name { blank.name ≡ L.name }
    requires parts { blank.parts ≡ L.parts }
    requires some { 0 < blank.parts }
    ensures span { span_of result ≡ span_at (spans_of rows.now) i }
    ensures order { result.order ≡ i }
{
    let mut steps = Steps::<L>::start(blank);
    rows.row(i, &mut steps)
}
