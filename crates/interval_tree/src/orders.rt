//! The slots of rows in order by start and in order by end.

ghost use Rattle.std.specs.Prelude.{◌≡◌, ◌≤◌, ◌<◌, ◌+◌, ◌∷◌, [], ℕ, List, length, map, OnOk, IsOk};
ghost use Rattle.std.specs.List.{All, Contains, concat, filter};
ghost use Rattle.slot_ranks.specs.Slots.{rank};
ghost use Rattle.row_kinds.specs.Kinds.{Climbs, is_other};
ghost use Rattle.interval_tree.specs.Orders.{AreOrders, IsOrder};

use edit_base::NoMemory;
use slot_ranks::SlotRanks;
use span_order::{Order, ToppedOrder};
use span_table::SpanRows;
use std::alloc::Global;

/// Slots in order by start, with the greatest ends over it, and in order by end.
#[derive(Drop)]
pub struct Orders {
    pub by_start: ToppedOrder,
    pub by_end: Order,
}

impl Orders {
    /// No slots. No memory is asked for.
    pub fn new(alloc: Global) -> Orders
        ensures orders { (starts ends : List ℕ) → AreOrders starts ends [] result.by_start result.by_end }
    {
        Orders {
            by_start: ToppedOrder::new(alloc),
            by_end: Order::new(alloc),
        }
    }

    /// Makes room for so many slots in both. Where there is room already no memory is asked for.
    pub fn reserve(&mut self, slots: u32) -> Result<(), NoMemory>
        ensures start_ok { OnOk result (slots ≤ self.new.by_start.spare) }
        ensures end_ok { OnOk result (slots ≤ self.new.by_end.spare) }
        ensures start_blocks { self.new.by_start.blocks ≡ self.old.by_start.blocks }
        ensures tops { self.new.by_start.tops ≡ self.old.by_start.tops }
        ensures end_blocks { self.new.by_end.blocks ≡ self.old.by_end.blocks }
        ensures start_spare { self.old.by_start.spare ≤ self.new.by_start.spare }
        ensures end_spare { self.old.by_end.spare ≤ self.new.by_end.spare }
        ensures within { slots ≤ self.old.by_start.spare → slots ≤ self.old.by_end.spare → IsOk result }
    {
        self.by_start.reserve(slots)?;
        self.by_end.reserve(slots)?;
        Ok(())
    }

    /// The slot of a row goes in among those of all others.
    pub fn enter(&mut self, rows: &SpanRows, slot: u32)
        requires among { Contains rows.now.slots slot }
        requires others { AreOrders rows.now.starts rows.now.ends (filter (is_other slot) rows.now.slots)
            self.old.by_start self.old.by_end }
        requires start_room { 0 < self.old.by_start.spare }
        requires end_room { 0 < self.old.by_end.spare }
        ensures orders { AreOrders rows.now.starts rows.now.ends rows.now.slots self.new.by_start self.new.by_end }
        ensures start_spare { self.old.by_start.spare ≤ self.new.by_start.spare + 1 }
        ensures end_spare { self.old.by_end.spare ≤ self.new.by_end.spare + 1 }
    {
        // What is known of the rows comes with their number.
        let _count = rows.count();
        self.by_start.insert(rows.starts(), rows.ends(), slot);
        self.by_end.insert(rows.ends(), slot);
    }

    /// The slot of a row goes, and those of all others stay.
    pub fn leave(&mut self, rows: &SpanRows, slot: u32)
        requires among { Contains rows.now.slots slot }
        requires all { AreOrders rows.now.starts rows.now.ends rows.now.slots self.old.by_start self.old.by_end }
        ensures orders { AreOrders rows.now.starts rows.now.ends (filter (is_other slot) rows.now.slots)
            self.new.by_start self.new.by_end }
        ensures start_spare { self.old.by_start.spare + 1 ≤ self.new.by_start.spare }
        ensures end_spare { self.old.by_end.spare + 1 ≤ self.new.by_end.spare }
    {
        // What is known of the rows comes with their number.
        let _count = rows.count();
        self.by_start.take_out(rows.starts(), rows.ends(), slot);
        self.by_end.take_out(rows.ends(), slot);
    }

    /// Each slot becomes the number of live slots before it. The greatest ends have to be raised then.
    pub fn renumber(&mut self, ranks: &SlotRanks)
        ensures starting { concat self.new.by_start.blocks ≡ map (rank ranks.now.live) (concat self.old.by_start.blocks) }
        ensures ending { concat self.new.by_end.blocks ≡ map (rank ranks.now.live) (concat self.old.by_end.blocks) }
        ensures start_spare { self.new.by_start.spare ≡ self.old.by_start.spare }
        ensures end_spare { self.new.by_end.spare ≡ self.old.by_end.spare }
    {
        self.by_start.renumber(ranks);
        self.by_end.renumber(ranks);
    }

    /// The greatest ends over the order by start are raised for the ends of the rows.
    pub fn raise(&mut self, rows: &SpanRows)
        requires starting { IsOrder rows.now.starts rows.now.slots (concat self.old.by_start.blocks) }
        requires ending { IsOrder rows.now.ends rows.now.slots (concat self.old.by_end.blocks) }
        ensures orders { AreOrders rows.now.starts rows.now.ends rows.now.slots self.new.by_start self.new.by_end }
        ensures start_spare { self.new.by_start.spare ≡ self.old.by_start.spare }
        ensures end_spare { self.new.by_end.spare ≡ self.old.by_end.spare }
    {
        // What is known of the rows comes with their number.
        let _count = rows.count();
        self.by_start.raise(rows.ends());
    }

    /// No slots are left, and their room is.
    pub fn clear(&mut self)
        ensures orders { (starts ends : List ℕ) → AreOrders starts ends [] self.new.by_start self.new.by_end }
        ensures start_spare { length (concat self.old.by_start.blocks) + self.old.by_start.spare ≤ self.new.by_start.spare }
        ensures end_spare { length (concat self.old.by_end.blocks) + self.old.by_end.spare ≤ self.new.by_end.spare }
    {
        self.by_start.clear();
        self.by_end.clear();
    }
}
