//! A text whose units stand round a gap.

ghost use Rattle.std.specs.Prelude.{◌≡◌, ◌≤◌, ◌<◌, ◌+◌, ◌-◌, ◌++◌, [], length, take, drop, slice_index, IfOk, OnOk, OnErr, IsOk};
ghost use Rattle.std.specs.Int.{abs_diff};
ghost use Rattle.utf16_gap.specs.Gap.{greatest, growth};

use crate::buffer::{move_gap, widen, write};
use crate::work::count;
use edit_base::{NoMemory, Steps};
use std::alloc::Global;
use std::marker::Model;
use std::sync::ledger::Ledger;

/// The UTF-16 units of a text, round a gap that takes the units of the next replacements. Its length is the spare: the
/// units that come without memory. Places count the units of the text alone.
#[derive(Drop)]
pub struct GapText {
    /// The units before the gap, the gap, and those behind it.
    buffer: Vec<u16>,
    /// How many units stand before the gap.
    gap: u32,
    /// How many units the gap has, whose values mean nothing.
    spare: u32,
}

impl Model for GapText {
    ghost use Rattle.std.specs.Prelude.{◌≤◌, ◌+◌, vec_len};
    ghost use Rattle.utf16_gap.specs.Gap.{Gapped, around, greatest};

    ghost Value = { Gapped };

    ghost view = { λ it. record {
      units = around it.buffer.items it.gap it.spare;
      gap = it.gap;
      spare = it.spare;
    } };

    ghost invariant = { λ it. record {
      gap : it.gap + it.spare ≤ vec_len it.buffer;
      fits : vec_len it.buffer ≤ greatest;
    } };
}

impl GapText {
    /// The empty text, with room for so many units. Where that is none, no memory is asked for.
    pub fn new(alloc: Global, room: u32) -> Result<GapText, NoMemory>
        ensures units { IfOk result (λ text. text.units ≡ []) }
        ensures gap { IfOk result (λ text. text.gap ≡ 0) }
        ensures room { IfOk result (λ text. room ≤ text.spare) }
        ensures none { room ≡ 0 → IsOk result }
    {
        let mut buffer = Vec::new(alloc);
        buffer.resize(room as usize, 0)?;
        Ok(GapText {
            buffer,
            gap: 0,
            spare: room,
        })
    }

    /// The length in UTF-16 units.
    pub fn len(&self) -> u32
        ensures len { result ≡ length self.now.units }
        ensures fits { result + self.now.spare ≤ greatest }
    {
        self.buffer.len() as u32 - self.spare
    }

    /// How many units stand before the gap.
    pub fn gap(&self) -> u32
        ensures gap { result ≡ self.now.gap }
        ensures within { result ≤ length self.now.units }
    {
        self.gap
    }

    /// How many units come without memory.
    pub fn spare(&self) -> u32
        ensures spare { result ≡ self.now.spare }
        ensures fits { length self.now.units + result ≤ greatest }
    {
        self.spare
    }

    /// The unit at a place.
    pub fn unit(&self, at: u32) -> u16
        requires { at < length self.now.units }
        ensures { result ≡ slice_index self.now.units at }
    {
        if at < self.gap {
            self.buffer[at as usize]
        } else {
            self.buffer[at as usize + self.spare as usize]
        }
    }

    /// The units before the gap and those behind it.
    pub fn halves(&self) -> (&[u16], &[u16])
        ensures joined { result.0.now ++ result.1.now ≡ self.now.units }
        ensures cut { length result.0.now ≡ self.now.gap }
        ensures fits { length (result.0.now ++ result.1.now) + self.now.spare ≤ greatest }
    {
        let behind = self.gap as usize + self.spare as usize;
        (&self.buffer[..self.gap as usize], &self.buffer[behind..])
    }

    /// Makes room for so many units. Where the spare has it, no memory is asked for and nothing changes.
    pub fn reserve(&mut self, units: u32) -> Result<(), NoMemory>
        requires { length self.old.units + units ≤ greatest }
        ensures units { self.new.units ≡ self.old.units }
        ensures gap { self.new.gap ≡ self.old.gap }
        ensures room { OnOk result (units ≤ self.new.spare) }
        ensures spare { self.old.spare ≤ self.new.spare }
        ensures within { units ≤ self.old.spare → IsOk result }
        ensures stays { units ≤ self.old.spare → self.new.spare ≡ self.old.spare }
    {
        if units > self.spare {
            self.grow(units - self.spare)?;
        }
        Ok(())
    }

    /// The units from `start` to `end` become these, and the gap stands behind them. Where the spare and the units that
    /// go have room for them, no memory is asked for; else the gap grows first, which counts no step. Without memory
    /// nothing changes.
    pub fn replace<L: Ledger>(
        &mut self,
        start: u32,
        end: u32,
        units: &[u16],
        steps: &mut Steps<L>,
    ) -> Result<(), NoMemory>
        requires order { start ≤ end }
        requires within { end ≤ length self.old.units }
        requires fits { length self.old.units - (end - start) + length units.now ≤ greatest }
        ensures units { OnOk result (self.new.units
            ≡ take start self.old.units ++ units.now ++ drop end self.old.units) }
        ensures gap { OnOk result (self.new.gap ≡ start + length units.now) }
        ensures err { OnErr result ((self.new.units ≡ self.old.units) × (self.new.gap ≡ self.old.gap)
            × (self.old.spare ≤ self.new.spare)) }

        // Where there is room.
        ensures room { length units.now ≤ self.old.spare + (end - start) → IsOk result }
        ensures spare { length units.now ≤ self.old.spare + (end - start)
            → self.new.spare ≡ self.old.spare + (end - start) - length units.now }
        ensures ticks { length units.now ≤ self.old.spare + (end - start)
            → steps.new ≡ steps.old + abs_diff self.old.gap end + length units.now }
    {
        let brought = units.len() as u32;
        let cut = end - start;
        if brought > cut && brought - cut > self.spare {
            self.grow(brought - cut - self.spare)?;
        }
        self.exchange(start, end, units, steps);
        Ok(())
    }

    /// Makes the gap longer by at least so many units and by half of the buffer, so that insertions one by one move
    /// each unit but a few times; never past a u32.
    fn grow(&mut self, least: u32) -> Result<(), NoMemory>
        requires { length self.old.units + self.old.spare + least ≤ greatest }
        ensures units { self.new.units ≡ self.old.units }
        ensures gap { self.new.gap ≡ self.old.gap }
        ensures ok { OnOk result (self.new.spare
            ≡ self.old.spare + growth (length self.old.units + self.old.spare) least) }
        ensures least { OnOk result (self.old.spare + least ≤ self.new.spare) }
        ensures err { OnErr result (self.new.spare ≡ self.old.spare) }
    {
        let size = self.buffer.len() as u32;
        let more = least.max(size / 2).min(u32::MAX - size);
        widen(
            &mut self.buffer,
            self.gap as usize,
            self.spare as usize,
            more as usize,
        )?;
        self.spare += more;
        Ok(())
    }

    /// The units from `start` to `end` become these, for which there is room. The gap goes to `end`, where those that
    /// go fall into it, so that an edit where the last one ended moves nothing.
    fn exchange<L: Ledger>(&mut self, start: u32, end: u32, units: &[u16], steps: &mut Steps<L>)
        requires order { start ≤ end }
        requires within { end ≤ length self.old.units }
        requires room { length units.now ≤ self.old.spare + (end - start) }
        ensures units { self.new.units ≡ take start self.old.units ++ units.now ++ drop end self.old.units }
        ensures gap { self.new.gap ≡ start + length units.now }
        ensures spare { self.new.spare ≡ self.old.spare + (end - start) - length units.now }
        ensures ticks { steps.new ≡ steps.old + abs_diff self.old.gap end + length units.now }
    {
        self.bring_gap(end, steps);
        self.let_go(start, end);
        self.put(units, steps);
    }

    /// Brings the gap to a place, with a step for each unit between.
    fn bring_gap<L: Ledger>(&mut self, to: u32, steps: &mut Steps<L>)
        requires { to ≤ length self.old.units }
        ensures units { self.new.units ≡ self.old.units }
        ensures gap { self.new.gap ≡ to }
        ensures spare { self.new.spare ≡ self.old.spare }
        ensures ticks { steps.new ≡ steps.old + abs_diff self.old.gap to }
    {
        count(steps, self.gap.abs_diff(to));
        move_gap(
            &mut self.buffer,
            self.gap as usize,
            self.spare as usize,
            to as usize,
        );
        self.gap = to;
    }

    /// The units from `start` to `end`, on both sides of the gap, fall into it.
    #[tactic(auto, using(crate::proofs::Moves::let_go))]
    fn let_go(&mut self, start: u32, end: u32)
        requires start { start ≤ self.old.gap }
        requires end { self.old.gap ≤ end }
        requires within { end ≤ length self.old.units }
        ensures units { self.new.units ≡ take start self.old.units ++ drop end self.old.units }
        ensures gap { self.new.gap ≡ start }
        ensures spare { self.new.spare ≡ self.old.spare + (end - start) }
    {
        self.gap = start;
        self.spare += end - start;
    }

    /// Puts units before the gap, which has room for them, with a step for each.
    fn put<L: Ledger>(&mut self, units: &[u16], steps: &mut Steps<L>)
        requires { length units.now ≤ self.old.spare }
        ensures units { self.new.units
            ≡ take self.old.gap self.old.units ++ units.now ++ drop self.old.gap self.old.units }
        ensures gap { self.new.gap ≡ self.old.gap + length units.now }
        ensures spare { self.new.spare ≡ self.old.spare - length units.now }
        ensures ticks { steps.new ≡ steps.old + length units.now }
    {
        write(
            &mut self.buffer,
            self.gap as usize,
            self.spare as usize,
            units,
        );
        let brought = units.len() as u32;
        count(steps, brought);
        self.gap += brought;
        self.spare -= brought;
    }
}
