//! The rows with all that is kept beside them.

ghost use Rattle.std.specs.Prelude.{◌≡◌, ◌≤◌, ◌<◌, ◌↔◌, ◌+◌, ◌-◌, ◌*◌, ◌^◌, ◌++◌, [], ◌∷◌};
ghost use Rattle.std.specs.Prelude.{ℕ, true, false, is_some, length, map, vec_len, vec_capacity, IfOk, OnOk, OnErr, IsOk};
ghost use Rattle.std.specs.List.{All, IsDistinct, concat, slice_set};
ghost use Rattle.std.specs.List.Sorted.{IsPermutation};
ghost use Rattle.edit_model.specs.Attached.{is_attached};
ghost use Rattle.edit_model.specs.Over.{next_edge, over};
ghost use Rattle.edit_model.specs.Rows.{IsAtOrder, span_of, spans_in};
ghost use Rattle.span_table.specs.Numbers.{bound};
ghost use Rattle.span_table.specs.Table.{HasRoomFor, IsClearOf, closed_span, kept_span};
ghost use Rattle.span_table.specs.Table.{row_place, pushed_span, span_at, spans_of, without_at};
ghost use Rattle.interval_tree.specs.Answers.{IsRising, IsWithin, first_emptied, orders_of, touching};
ghost use Rattle.interval_tree.specs.Ids.{HaveDistinctIds, ids_given, same_number};
ghost use Rattle.interval_tree.specs.Orders.{IsOrder};
ghost use Rattle.span_order.specs.Topped.{IsTopped};
ghost use Rattle.row_kinds.specs.Kinds.{composing_count, paragraph_count};

use crate::orders::Orders;
use crate::query::{Tree, next_edge, over, seats_over, touching};
use edit_base::{NoMemory, Pick, SpanRow, Steps};
use id_slots::IdSlots;
use row_kinds::Tally;
use span_flags::is_emptied;
use span_table::SpanRows;
use std::alloc::Global;
use std::marker::Model;
use std::sync::ledger::Ledger;

/// Spans in order of attachment, round a gap of a text, with their ids and with their slots in order by start and by end.
/// Ids differ. A row that is read has its place in the list as its order.
#[derive(Drop)]
pub struct SpanIndex {
    rows: SpanRows,
    ids: IdSlots,
    orders: Orders,
    tally: Tally,
}

impl Model for SpanIndex {
    ghost use Rattle.span_table.specs.Table.{Rows};
    ghost use Rattle.interval_tree.specs.Whole.{IsWhole, spare_of};

    ghost Value = { Rows };

    ghost view = { λ it. record {
      kept = it.rows.kept;
      slots = it.rows.slots;
      starts = it.rows.starts;
      ends = it.rows.ends;
      left = it.rows.left;
      gap = it.rows.gap;
      room = it.rows.room;
      spare = spare_of it.rows it.ids it.orders.by_start it.orders.by_end it.tally.composing it.tally.seats;
    } };

    ghost invariant = { λ it. IsWhole it.rows it.ids it.orders.by_start it.orders.by_end
        it.tally.paragraphs it.tally.composing it.tally.seats };
}

impl SpanIndex {
    /// No rows, at the gap place 0 with no room. No memory is asked for.
    pub fn new(alloc: Global) -> Result<SpanIndex, NoMemory>
        ensures made { IsOk result }
        ensures ok { IfOk result (λ index. index.kept ≡ []) }
        ensures gap { IfOk result (λ index. index.gap ≡ 0) }
        ensures room { IfOk result (λ index. index.room ≡ 0) }
    {
        Ok(SpanIndex {
            rows: SpanRows::new(alloc)?,
            ids: IdSlots::new(alloc),
            orders: Orders::new(alloc),
            tally: Tally::new(alloc),
        })
    }

    /// The rows.
    pub fn rows(&self) -> &SpanRows
        ensures kept { result.now.kept ≡ self.now.kept }
        ensures gap { result.now.gap ≡ self.now.gap }
        ensures room { result.now.room ≡ self.now.room }
        ensures spare { self.now.spare ≤ result.now.spare }
        ensures distinct { HaveDistinctIds self.now.kept }
    {
        &self.rows
    }

    /// How many rows there are.
    fn count(&self) -> u32
        ensures count { result ≡ length self.now.kept }
    {
        self.rows.count()
    }

    /// The place of the row with this id, or none where the id isn't there.
    pub fn find(&self, id: u32) -> Option<u32>
        ensures place { result ≡ row_place id (spans_of self.now) }
        ensures attached { is_some result ≡ is_attached id (spans_of self.now) }
    {
        // What is known of the rows comes with their number.
        let _count = self.rows.count();
        match self.ids.get(id) {
            Some(slot) => Some(self.rows.rank_of(slot)),
            None => None,
        }
    }

    /// How many rows have ends that stay at boundaries of paragraphs.
    pub fn paragraphs(&self) -> u32
        ensures { result ≡ paragraph_count self.now.kept }
    {
        self.tally.paragraphs
    }

    /// How many rows are part of a composing text, by their flags.
    pub fn composing(&self) -> u32
        ensures { result ≡ composing_count (spans_of self.now) }
    {
        // What is known of the rows comes with their number.
        let _count = self.rows.count();
        self.tally.composing.len() as u32
    }

    // ---- queries

    /// The spans over a range that are picked, by priority, highest first, and then in order of attachment. `out` is
    /// cleared first, and empty where there is no memory.
    pub fn over<L: Ledger>(
        &self,
        qs: u32,
        qe: u32,
        pick: Pick,
        out: &mut Vec<SpanRow>,
        steps: &mut Steps<L>,
    ) -> Result<(), NoMemory>
        ensures ok { OnOk result (spans_in out.new.items ≡ over qs qe pick (spans_of self.now)) }
        ensures orders { All (IsAtOrder (spans_of self.now)) out.new.items }
        ensures err { OnErr result (out.new.items ≡ []) }
        ensures more { steps.old ≤ steps.new }
        ensures ticks { IsWithin qs qe (spans_of self.now) (steps.new - steps.old) }
        ensures room { length self.now.kept ≤ vec_capacity out.old → IsOk result }
        ensures capacity { vec_capacity out.old ≤ vec_capacity out.new }
    {
        let seats = self.tally.seats.as_slice();
        if matches!(pick, Pick::Watches) && has_few(seats.len(), self.rows.count() as usize) {
            seats_over(&self.rows, seats, qs, qe, out, steps)
        } else {
            over(self.tree(), qs, qe, pick, out, steps)
        }
    }

    /// The rows that touch a range, in any order. `out` is cleared first, and empty where there is no memory.
    pub fn touching<L: Ledger>(
        &self,
        start: u32,
        end: u32,
        out: &mut Vec<SpanRow>,
        steps: &mut Steps<L>,
    ) -> Result<(), NoMemory>
        ensures ok { OnOk result (IsPermutation (touching start end (spans_of self.now)) (orders_of out.new.items)) }
        ensures orders { All (IsAtOrder (spans_of self.now)) out.new.items }
        ensures err { OnErr result (out.new.items ≡ []) }
        ensures more { steps.old ≤ steps.new }
        ensures ticks { IsWithin start end (spans_of self.now) (steps.new - steps.old) }
        ensures room { length self.now.kept ≤ vec_capacity out.old → IsOk result }
        ensures capacity { vec_capacity out.old ≤ vec_capacity out.new }
    {
        touching(self.tree(), start, end, out, steps)
    }

    /// The least place behind `start` and below `limit` where a span starts or ends, else `limit`.
    pub fn next_edge(&self, start: u32, limit: u32) -> u32
        ensures { result ≡ next_edge start limit (spans_of self.now) }
    {
        next_edge(
            &self.rows,
            self.orders.by_start.order(),
            &self.orders.by_end,
            start,
            limit,
        )
    }

    /// The place of the first row, in order of attachment, that is emptied when the units from `start` to `end` become
    /// `grown` units, or none where no row is. Each row is read.
    pub fn first_emptied(&self, start: u32, end: u32, grown: u32) -> Option<u32>
        ensures { result ≡ first_emptied start end grown (spans_of self.now) }
    {
        first_by_one(&self.rows, start, end, grown)
    }

    fn tree(&self) -> Tree<'_>
        ensures order { IsOrder result.rows.now.starts result.rows.now.slots (concat result.by_start.now.blocks) }
        ensures topped { IsTopped result.rows.now.ends result.by_start.now.blocks result.by_start.now.tops }
        ensures kept { result.rows.now.kept ≡ self.now.kept }
        ensures spans { spans_of result.rows.now ≡ spans_of self.now }
    {
        Tree {
            rows: &self.rows,
            by_start: &self.orders.by_start,
        }
    }

    // ---- changes

    /// Makes room for so many rows. Where there is room already no memory is asked for. The rows stay as they are, and
    /// there is room for no fewer, in want of memory too.
    pub fn reserve(&mut self, spans: u32) -> Result<(), NoMemory>
        ensures ok { OnOk result (spans ≤ self.new.spare) }
        ensures kept { self.new.kept ≡ self.old.kept }
        ensures gap { self.new.gap ≡ self.old.gap }
        ensures room { self.new.room ≡ self.old.room }
        ensures spare { self.old.spare ≤ self.new.spare }
        ensures within { spans ≤ self.old.spare → IsOk result }
    {
        self.rows.reserve(spans)?;
        self.ids.reserve(spans)?;
        self.orders.reserve(spans)?;
        self.tally.reserve(self.rows.count() + spans)?;
        Ok(())
    }

    /// Adds a row behind the others. Without memory nothing changes, and where a spare row is left
    /// none is asked for.
    pub fn add(&mut self, row: &SpanRow) -> Result<(), NoMemory>
        requires bound { length self.old.kept < 4294967295 }
        requires id { is_attached row.now.id (spans_of self.old) ≡ false }
        requires order { length self.old.kept ≤ row.now.order }
        ensures ok { OnOk result (self.new.kept
            ≡ self.old.kept ++ kept_span self.old.gap self.old.room (span_of row.now) ∷ []) }
        ensures spans { OnOk result (spans_of self.new ≡ spans_of self.old ++ span_of row.now ∷ []) }
        ensures err { OnErr result (self.new.kept ≡ self.old.kept) }
        ensures gap { self.new.gap ≡ self.old.gap }
        ensures room { self.new.room ≡ self.old.room }
        ensures spare { self.old.spare ≤ self.new.spare + 1 }
        ensures err_spare { OnErr result (self.old.spare ≤ self.new.spare) }
        ensures within { 0 < self.old.spare → IsOk result }
    {
        self.reserve(1)?;
        self.squeeze();
        self.append(row);
        Ok(())
    }

    /// Adds a row behind the others, which there is room and a slot for.
    fn append(&mut self, row: &SpanRow)
        requires bound { length self.old.kept < 4294967295 }
        requires id { is_attached row.now.id (spans_of self.old) ≡ false }
        requires spare { 0 < self.old.spare }
        requires left { 0 < self.old.left }
        ensures kept { self.new.kept ≡ self.old.kept ++ kept_span self.old.gap self.old.room (span_of row.now) ∷ [] }
        ensures spans { spans_of self.new ≡ spans_of self.old ++ span_of row.now ∷ [] }
        ensures gap { self.new.gap ≡ self.old.gap }
        ensures room { self.new.room ≡ self.old.room }
        ensures spare { self.old.spare ≤ self.new.spare + 1 }
    {
        let place = self.rows.count();
        // There is room, so this succeeds.
        let _ = self.rows.add(row);
        let slot = self.rows.slot_at(place);
        self.ids.insert(row.id, slot);
        self.orders.enter(&self.rows, slot);
        self.tally.enter(slot, &self.rows.kept(place));
    }

    /// Where no slot is left, slots without a row are squeezed out.
    fn squeeze(&mut self)
        ensures left { 0 < self.old.spare → 0 < self.new.left }
        ensures kept { self.new.kept ≡ self.old.kept }
        ensures gap { self.new.gap ≡ self.old.gap }
        ensures room { self.new.room ≡ self.old.room }
        ensures spare { self.old.spare ≤ self.new.spare }
    {
        if self.rows.left() > 0 {
            return;
        }
        // What is known of the rows comes with their number.
        let _count = self.rows.count();
        let ranks = self.rows.ranks();
        self.ids.renumber(ranks);
        self.orders.renumber(ranks);
        self.tally.renumber(ranks);
        self.rows.squeeze();
        self.orders.raise(&self.rows);
    }

    /// The row at a place becomes this one, of the same id and order.
    pub fn put(&mut self, i: u32, row: &SpanRow)
        requires within { i < length self.old.kept }
        requires id { row.now.id ≡ (span_at (spans_of self.old) i).id }
        requires order { row.now.order ≡ i }
        ensures kept { self.new.kept
            ≡ slice_set self.old.kept i (kept_span self.old.gap self.old.room (span_of row.now)) }
        ensures spans { spans_of self.new ≡ slice_set (spans_of self.old) i (span_of row.now) }
        ensures gap { self.new.gap ≡ self.old.gap }
        ensures room { self.new.room ≡ self.old.room }
        ensures spare { self.old.spare ≤ self.new.spare }
    {
        // What is known of the rows comes with their number.
        let _count = self.rows.count();
        let slot = self.rows.slot_at(i);
        let old = self.rows.kept(i);
        self.orders.leave(&self.rows, slot);
        self.rows.put(i, row);
        self.orders.enter(&self.rows, slot);
        self.tally.change(slot, &old, &self.rows.kept(i));
    }

    /// Removes the row at a place; those behind it take the places before theirs.
    pub fn remove(&mut self, i: u32)
        requires { i < length self.old.kept }
        ensures kept { self.new.kept ≡ without_at i self.old.kept }
        ensures spans { spans_of self.new ≡ without_at i (spans_of self.old) }
        ensures gap { self.new.gap ≡ self.old.gap }
        ensures room { self.new.room ≡ self.old.room }
        ensures spare { self.old.spare ≤ self.new.spare }
    {
        // What is known of the rows comes with their number.
        let _count = self.rows.count();
        let slot = self.rows.slot_at(i);
        let row = self.rows.kept(i);
        self.orders.leave(&self.rows, slot);
        self.ids.remove(row.id);
        self.tally.leave(slot, &row);
        self.rows.remove(i);
        // What is known of those that are left comes with their number.
        let _left = self.rows.count();
    }

    /// The list becomes these rows. Without memory nothing changes, and none is asked for where no more rows are given
    /// than there were with the spare ones.
    pub fn set_rows<L: Ledger>(
        &mut self,
        rows: &[SpanRow],
        steps: &mut Steps<L>,
    ) -> Result<(), NoMemory>
        requires bound { length rows.now ≤ 4294967295 }
        requires distinct { IsDistinct same_number (ids_given rows.now) }
        requires rising { IsRising (orders_of rows.now) }
        ensures ok { OnOk result (self.new.kept ≡ map (kept_span self.old.gap self.old.room) (spans_in rows.now)) }
        ensures spans { OnOk result (spans_of self.new ≡ spans_in rows.now) }
        ensures err { OnErr result (self.new.kept ≡ self.old.kept) }
        ensures gap { self.new.gap ≡ self.old.gap }
        ensures room { self.new.room ≡ self.old.room }
        ensures spare { length self.old.kept + self.old.spare ≤ length self.new.kept + self.new.spare }
        ensures err_spare { OnErr result (self.old.spare ≤ self.new.spare) }
        ensures within { length rows.now ≤ length self.old.kept + self.old.spare → IsOk result }
        ensures more { steps.old ≤ steps.new }
        ensures ticks { steps.new ≤ steps.old + 2 * (length self.old.kept + length rows.now) }
    {
        let missing = (rows.len() as u32).saturating_sub(self.count());
        self.reserve(missing)?;
        self.clear();
        self.refill(rows, steps);
        Ok(())
    }

    /// No rows are left, and their room is.
    fn clear(&mut self)
        ensures kept { self.new.kept ≡ [] }
        ensures gap { self.new.gap ≡ self.old.gap }
        ensures room { self.new.room ≡ self.old.room }
        ensures spare { length self.old.kept + self.old.spare ≤ self.new.spare }
    {
        self.rows.clear();
        self.ids.clear();
        self.orders.clear();
        self.tally.clear();
    }

    /// Adds rows, which there is room for, where there are none, one step for each.
    fn refill<L: Ledger>(&mut self, rows: &[SpanRow], steps: &mut Steps<L>)
        requires none { self.old.kept ≡ [] }
        requires fits { length rows.now ≤ self.old.spare }
        requires bound { length rows.now ≤ 4294967295 }
        requires distinct { IsDistinct same_number (ids_given rows.now) }
        requires rising { IsRising (orders_of rows.now) }
        ensures kept { self.new.kept ≡ map (kept_span self.old.gap self.old.room) (spans_in rows.now) }
        ensures gap { self.new.gap ≡ self.old.gap }
        ensures room { self.new.room ≡ self.old.room }
        ensures spare { self.old.spare ≤ length self.new.kept + self.new.spare }
        ensures ticks { steps.new ≡ steps.old + length rows.now }
    {
        for row in rows {
            steps.tick();
            // There is room, so this succeeds.
            let _ = self.add(row);
        }
    }

    /// The gap goes to another place and gets another length; every row is seen as before. Both orders stay.
    pub fn shift_for_gap(&mut self, old_gap: u32, new_gap: u32, old_room: u32, new_room: u32)
        requires gap { old_gap ≡ self.old.gap }
        requires room { old_room ≡ self.old.room }
        ensures spans { spans_of self.new ≡ spans_of self.old }
        ensures kept { self.new.kept ≡ map (kept_span new_gap new_room) (spans_of self.old) }
        ensures gap { self.new.gap ≡ new_gap }
        ensures room { self.new.room ≡ new_room }
        ensures spare { self.old.spare ≤ self.new.spare }
    {
        // What is known of the rows comes with their number.
        let _count = self.rows.count();
        self.rows
            .shift_for_gap(old_gap, new_gap, old_room, new_room);
        let _anew = self.rows.count();
        self.orders.raise(&self.rows);
    }

    /// So many units come at the gap: it is that much shorter and stands behind them. No row changes.
    pub fn typed(&mut self, units: u32)
        requires room { units ≤ self.old.room }
        requires place { self.old.gap + units < bound }
        requires fits { All (HasRoomFor units) (spans_of self.old) }
        ensures spans { spans_of self.new ≡ map (pushed_span self.old.gap units) (spans_of self.old) }
        ensures kept { self.new.kept ≡ self.old.kept }
        ensures gap { self.new.gap ≡ self.old.gap + units }
        ensures room_left { self.new.room ≡ self.old.room - units }
        ensures spare { self.new.spare ≡ self.old.spare }
    {
        self.rows.typed(units);
    }

    /// The units from `start` to the gap go: it stands at `start` and is that much longer. No row changes, since no end
    /// stands inside that range, nor at one of its ends on the side that falls into the gap.
    pub fn closed(&mut self, start: u32)
        requires order { start ≤ self.old.gap }
        requires room { self.old.room + (self.old.gap - start) < bound }
        requires clear { All (IsClearOf start self.old.gap) (spans_of self.old) }
        ensures spans { spans_of self.new ≡ map (closed_span start self.old.gap) (spans_of self.old) }
        ensures kept { self.new.kept ≡ self.old.kept }
        ensures gap { self.new.gap ≡ start }
        ensures room_left { self.new.room ≡ self.old.room + (self.old.gap - start) }
        ensures spare { self.new.spare ≡ self.old.spare }
    {
        self.rows.closed(start);
    }
}

/// The place of the first row that is emptied: each row is read.
fn first_by_one(rows: &SpanRows, start: u32, end: u32, grown: u32) -> Option<u32>
    ensures { result ≡ first_emptied start end grown (spans_of rows.now) }
{
    for place in 0..rows.count() {
        if is_emptied(&rows.read(place), start, end, grown) {
            return Some(place);
        }
    }
    None
}

/// Whether so few seats are read with no more steps than a walk over a tree of so many rows may take.
fn has_few(seats: usize, rows: usize) -> bool
    requires { rows < 2 ^ 32 }
    ensures { (result ≡ true) ↔ ((h : ℕ) → rows < 2 ^ h → seats ≤ h + 1) }
{
    seats <= (usize::BITS - rows.leading_zeros()) as usize + 1
}
