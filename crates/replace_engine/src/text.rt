//! The text with its spans.

ghost use Rattle.std.specs.Prelude.{ℕ, pos, ◌≤ℤ◌, ◌≡◌, ◌≢◌, ◌≤◌, ◌<◌, ◌+◌, ◌-◌, ◌*◌, ◌++◌, [], true, false, length, slice_index, slice_get, Some, is_some, IfOk, IfSome, OnOk, OnErr, IsOk};
ghost use Rattle.std.specs.List.{All};
ghost use Rattle.edit_base.specs.declared.verdicts.Refusal.TheVariants.{SpansFull};
ghost use Rattle.edit_base.specs.declared.verdicts.Verdict.TheVariants.{Done, Refused};
ghost use Rattle.edit_model.specs.declared.steps.Step.TheVariants.{Replace, Set, Remove, Select, Deselect, Drop, Mark};
ghost use Rattle.edit_model.specs.Selection.{has_region, has_selection, region, selection};
ghost use Rattle.edit_model.specs.State.{empty_state, place, text_end};
ghost use Rattle.edit_model.specs.Attached.{is_attached};
ghost use Rattle.edit_model.specs.WellFormed.{IsWellFormed, IsSeated};
ghost use Rattle.edit_model.specs.Verdicts.{judged, length_after, span_count_then};
ghost use Rattle.edit_model.specs.Brought.{IsBrought, coming_spans};
ghost use Rattle.edit_model.specs.Replaced.{replaced, came_spans, spliced_length};
ghost use Rattle.edit_model.specs.Rows.{span_of};
ghost use Rattle.edit_model.specs.Changed.{no_effect, replaced_effect, on_done, stepped, change_of, state_after, effect_after};
ghost use Rattle.interval_tree.specs.Answers.{IsWithin};
ghost use Rattle.span_changes.specs.Changes.{effect_of};
ghost use Rattle.moved_rows.specs.Moves.{ArePlaced};
ghost use Rattle.edit_model.specs.Over.{next_edge, over};
ghost use Rattle.edit_model.specs.Rows.{spans_in};
ghost use Rattle.span_table.specs.Table.{spans_of};
ghost use Rattle.text_cut.specs.Halves.{joined};
ghost use Rattle.utf16_gap.specs.Gap.{greatest};
ghost use Rattle.replace_engine.specs.Rows.{appended_by_select, appended_by_set};
ghost use Rattle.replace_engine.specs.EditVerdicts.{set_of};
ghost use Rattle.replace_engine.specs.Moved.{is_plain};
ghost use Rattle.replace_engine.specs.Places.{LiesIn};
ghost use Rattle.replace_engine.specs.Work.{inserted_in, replaced_within};
ghost use Rattle.std.specs.Int.{abs_diff};

use crate::arriving::count_spans_then;
use crate::exchanging::{Exchange, exchange_spans};
use crate::judging::{AskedSpan, judge_remove, judge_replace, judge_set};
use edit_base::{Incoming, Limits, NoMemory, Pick, SpanRow, Steps, Verdict, What};
use edit_model::Step;
use interval_tree::SpanIndex;
use moved_rows::MovedRows;
use span_changes::{
    Change, drop_rows, judge_deselect, judge_drop, judge_mark, judge_select, mark_row, region_of,
    remove_ends, remove_row, select_rows, selection_of, set_row,
};
use span_flags::place_of;
use std::alloc::Global;
use std::marker::Model;
use std::sync::ledger::Ledger;
use text_cut::{Cut, Halves, coming_with};
use utf16_gap::GapText;

/// The length of the gap that the spans see, with the units of the text: more than a text may have, so that it is never
/// used up.
const ROOM: u32 = 2 * Limits::TEXT;

/// A text of at most 1,048,576 UTF-16 units, with its spans and what the last edit changed.
#[derive(Drop)]
pub struct SpannedText {
    units: GapText,
    /// The rows that a replacement touches, with room for all of them; used again.
    touched: Vec<SpanRow>,
    /// The spans, and what the last edit changed.
    change: Change,
}

impl Model for SpannedText {
    ghost use Rattle.std.specs.Prelude.{◌-◌, length, vec_capacity};
    ghost use Rattle.span_changes.specs.Changes.{effect_of};
    ghost use Rattle.replace_engine.specs.Seen.{Seen};
    ghost use Rattle.replace_engine.specs.Rows.{IsSound};
    ghost use Rattle.span_changes.specs.Rows.{span_room, state_with};

    ghost Value = { Seen };

    ghost view = { λ it. record {
      state = state_with it.units.units it.change.moved.rows;
      gap = it.units.gap;
      effect = effect_of it.change;
      spare_units = it.units.spare;
      spare_spans = span_room (vec_capacity it.touched) it.change - length it.change.moved.rows.kept;
    } };

    ghost invariant = { λ it. IsSound it.units.units it.units.gap (vec_capacity it.touched) it.change };
}

/// The text of these units as two halves. They are made here alone.
fn halves_of(units: &GapText) -> Halves<'_>
    requires { length units.now.units ≤ Limits.TEXT }
    ensures joined { joined result ≡ units.now.units }
    ensures cut { length result.left.now ≡ units.now.gap }
{
    let (left, right) = units.halves();
    Halves { left, right }
}

impl SpannedText {
    /// The empty text without spans, which nothing has changed.
    pub fn new(alloc: Global) -> Result<SpannedText, NoMemory>
        ensures state { IfOk result (λ text. text.state ≡ empty_state) }
        ensures gap { IfOk result (λ text. text.gap ≡ 0) }
        ensures effect { IfOk result (λ text. text.effect ≡ no_effect) }
        ensures well_formed { IfOk result (λ text. IsWellFormed text.state) }
    {
        Ok(SpannedText {
            units: GapText::new(alloc, 0)?,
            touched: Vec::new(alloc),
            change: Change {
                start: 0,
                old_end: 0,
                grown: 0,
                removed: Vec::new(alloc),
                moved: MovedRows::new(alloc, ROOM)?,
                added: Vec::new(alloc),
            },
        })
    }

    /// Makes room for so many units and so many spans more. Where there is room already no memory is asked for. The text,
    /// its spans and what is told of the last edit stay as they are, and there is room for no fewer, in want of memory
    /// too.
    pub fn reserve(&mut self, units: u32, spans: u32) -> Result<(), NoMemory>
        requires { length self.old.state.units + units ≤ greatest }
        ensures ok { OnOk result (units ≤ self.new.spare_units) }
        ensures ok_spans { OnOk result (spans ≤ self.new.spare_spans) }
        ensures state { self.new.state ≡ self.old.state }
        ensures gap { self.new.gap ≡ self.old.gap }
        ensures effect { self.new.effect ≡ self.old.effect }
        ensures spare_units { self.old.spare_units ≤ self.new.spare_units }
        ensures spare_spans { self.old.spare_spans ≤ self.new.spare_spans }
        ensures within { units ≤ self.old.spare_units → spans ≤ self.old.spare_spans → IsOk result }
    {
        self.units.reserve(units)?;
        self.change.reserve(spans, &mut self.touched)
    }

    fn index(&self) -> &SpanIndex
        ensures spans { spans_of result.now ≡ self.now.state.spans }
        ensures few { length result.now.kept ≤ Limits.SPANS }
    {
        self.change.moved.rows()
    }

    /// The length in UTF-16 units.
    pub fn len(&self) -> u32
        ensures len { result ≡ length self.now.state.units }
        ensures limit { result ≤ Limits.TEXT }
        ensures well_formed { IsWellFormed self.now.state }
    {
        self.units.len()
    }

    /// The unit at a place.
    pub fn unit(&self, at: u32) -> u16
        requires { at < length self.now.state.units }
        ensures { result ≡ slice_index self.now.state.units at }
    {
        self.units.unit(at)
    }

    /// Two slices whose joining is the text, cut at the gap place.
    pub fn halves(&self) -> (&[u16], &[u16])
        ensures joined { result.0.now ++ result.1.now ≡ self.now.state.units }
        ensures cut { length result.0.now ≡ self.now.gap }
        ensures limit { length (result.0.now ++ result.1.now) ≤ Limits.TEXT }
    {
        let text = halves_of(&self.units);
        (text.left, text.right)
    }

    /// Where the selection's start and end stand in the text, either of which may be the lesser; none where it isn't
    /// attached.
    pub fn selection(&self) -> Option<(u32, u32)>
        ensures selection { result ≡ selection self.now.state.spans }
        ensures attached { is_some result ≡ has_selection self.now.state.spans }
        ensures within { IfSome result (LiesIn self.now.state.units) }
        ensures well_formed { IsWellFormed self.now.state }
    {
        selection_of(self.change.moved.rows())
    }

    /// Where the composing region stands in the text; none where it isn't attached.
    pub fn composing(&self) -> Option<(u32, u32)>
        ensures region { result ≡ region self.now.state.spans }
        ensures attached { is_some result ≡ has_region self.now.state.spans }
        ensures within { IfSome result (LiesIn self.now.state.units) }
        ensures well_formed { IsWellFormed self.now.state }
    {
        region_of(self.change.moved.rows())
    }

    /// How many spans are attached.
    #[tactic(auto, using(span_changes::proofs::Lists::lengths))]
    pub fn span_count(&self) -> u32
        ensures count { result ≡ length self.now.state.spans }
        ensures limit { result ≤ Limits.SPANS }
    {
        self.index().rows().count()
    }

    /// The span at a place of the order of attachment, with that place as its order.
    pub fn span_at(&self, i: u32) -> SpanRow
        requires { i < length self.now.state.spans }
        ensures span { slice_get self.now.state.spans i ≡ Some (span_of result) }
        ensures order { result.order ≡ i }
    {
        self.index().rows().read(i)
    }

    /// The spans over a range that are picked, by priority, highest first, and then in order of attachment. `out` is
    /// cleared first, and empty where there is no memory.
    pub fn spans_over<L: Ledger>(
        &self,
        qs: u32,
        qe: u32,
        pick: Pick,
        out: &mut Vec<SpanRow>,
        steps: &mut Steps<L>,
    ) -> Result<(), NoMemory>
        ensures ok { OnOk result (spans_in out.new.items ≡ over qs qe pick self.now.state.spans) }
        ensures orders { All (λ row. slice_get self.now.state.spans row.order ≡ Some (span_of row)) out.new.items }
        ensures err { OnErr result (out.new.items ≡ []) }
        ensures more { steps.old ≤ steps.new }
        ensures ticks { IsWithin qs qe self.now.state.spans (steps.new - steps.old) }
    {
        self.index().over(qs, qe, pick, out, steps)
    }

    /// The least place behind `start` and below `limit` where a span starts or ends, else `limit`.
    pub fn next_edge(&self, start: u32, limit: u32) -> u32
        ensures { result ≡ next_edge start limit self.now.state.spans }
    {
        self.index().next_edge(start, limit)
    }

    /// What the last edit that was done changed.
    pub fn change(&self) -> &Change
        ensures effect { effect_of result.now ≡ self.now.effect }
        ensures stood { length result.now.moved.before + length result.now.added.items ≡ length self.now.state.spans }
        ensures placed { ArePlaced self.now.state.spans result.now.moved }
    {
        &self.change
    }

    /// The verdict of an edit that isn't nested, with so many watchers loaded and its incoming text filtered already.
    pub fn judge(&self, step: &Step, slots: u8) -> Verdict
        ensures { result ≡ judged self.now.state slots step.now }
    {
        match step {
            Step::Replace {
                start,
                end,
                incoming,
            } => judge_replace(
                &halves_of(&self.units),
                self.index(),
                *start,
                *end,
                incoming,
            ),
            Step::Set {
                id,
                start,
                end,
                flags,
                what,
            } => {
                let asked = AskedSpan {
                    id: *id,
                    start: *start,
                    end: *end,
                    flags: *flags,
                    what: *what,
                };
                judge_set(&halves_of(&self.units), self.index(), &asked, slots)
            }
            Step::Remove { id } => judge_remove(self.index(), *id),
            Step::Select { start, end } => { judge_select(self.len(), self.index(), *start, *end) }
            Step::Deselect => judge_deselect(self.index()),
            Step::Drop => judge_drop(self.index()),
            Step::Mark { start, end } => judge_mark(self.len(), self.index(), *start, *end),
        }
    }

    /// Makes the units from `start` to `end` the incoming ones, where the verdict is done; else nothing changes. Spans
    /// that may not be empty and are emptied go, the ends of the others move, and the incoming spans come behind them,
    /// but for those whose id is attached and those that may not stand where they would. No memory is asked for where
    /// the incoming units fit the spare ones and the incoming spans the spare spans.
    #[tactic(auto, using(crate::proofs::Done::by_verdict), unfolding(edit_model::specs::Changed::stepped, edit_model::specs::Changed::change_of))]
    pub fn replace<L: Ledger>(
        &mut self,
        start: i32,
        end: i32,
        incoming: &Incoming,
        steps: &mut Steps<L>,
    ) -> Result<Verdict, NoMemory>
        requires { IsBrought incoming.now }
        ensures verdict { (slots : ℕ)
            → IfOk result (λ verdict. verdict ≡ judged self.old.state slots (Replace start end incoming.now)) }
        ensures state { (slots : ℕ)
            → OnOk result (self.new.state ≡ state_after self.old.state slots (Replace start end incoming.now)) }
        ensures effect { (slots : ℕ) → OnOk result (self.new.effect
            ≡ effect_after self.old.state slots (Replace start end incoming.now) self.old.effect) }
        ensures gap { IfOk result (λ verdict. verdict ≡ Done → self.new.gap ≡ place start + length incoming.now.units) }
        ensures gap_stays { IfOk result (λ verdict. verdict ≢ Done → self.new.gap ≡ self.old.gap) }
        ensures err { OnErr result ((self.new.state ≡ self.old.state) × (self.new.effect ≡ self.old.effect)
            × (self.new.gap ≡ self.old.gap)) }

        // Where the incoming units fit the spare ones, and the incoming spans the spare spans, the composing region and
        // those that are skipped counted, it succeeds. A replacement takes at most as many spare units as it brings
        // units, and at most one spare span for each span that is attached.
        ensures room { length incoming.now.units ≤ self.old.spare_units
            → length (coming_spans incoming.now) ≤ self.old.spare_spans → IsOk result }
        ensures spare_units { IfOk result (λ verdict. self.old.spare_units
            ≤ self.new.spare_units + on_done verdict (length incoming.now.units) 0) }
        ensures spare_spans { IfOk result (λ verdict. self.old.spare_spans
            ≤ self.new.spare_spans + on_done verdict
            (length (came_spans self.old.state (place start) (place end) incoming.now)) 0) }
        ensures spare_stays { OnErr result
            ((self.old.spare_units ≤ self.new.spare_units) × (self.old.spare_spans ≤ self.new.spare_spans)) }

        // Within both spares it moves no more units than stand between the gap and the end of the range, writes those
        // that come, and reads each span a few times at most.
        ensures ticks { length incoming.now.units ≤ self.old.spare_units
            → length (came_spans self.old.state (place start) (place end) incoming.now) ≤ self.old.spare_spans
            → IfOk result (λ verdict. verdict ≡ Done
            → steps.new ≤ steps.old + replaced_within self.old.gap end incoming.now (length self.old.state.spans)) }

        // An insertion reads no span where the gap alone moves all ends, and so takes no step at the gap but one for each
        // unit that it writes. Where the verdict isn't done no step is taken, nor in want of memory.
        ensures insertion { IfOk result (λ verdict. verdict ≡ Done
            → is_plain (place start) (place end) (length self.old.state.units) self.old.state.spans ≡ true
            → steps.new ≡ steps.old + inserted_in self.old.gap end incoming.now) }
        ensures idle { IfOk result (λ verdict. verdict ≢ Done → steps.new ≡ steps.old) }
        ensures idle_err { OnErr result (steps.new ≡ steps.old) }

        ensures well_formed { IsWellFormed self.new.state }
        ensures seated { (slots : ℕ) → IsSeated slots self.old.state.spans → IsSeated slots self.new.state.spans }
    {
        let verdict = self.judge_replacement(start, end, incoming);
        let Verdict::Done = verdict else {
            return Ok(verdict);
        };
        self.exchange(place_of(start), place_of(end), incoming, steps)?;
        Ok(verdict)
    }

    /// The verdict of a replacement that isn't nested, its incoming text being filtered already. It doesn't depend on
    /// how many watchers are loaded.
    pub fn judge_replacement(&self, start: i32, end: i32, incoming: &Incoming) -> Verdict
        ensures verdict { (slots : ℕ) → result ≡ judged self.now.state slots (Replace start end incoming.now) }
        ensures least { result ≡ Done → pos 0 ≤ℤ start }
        ensures least_end { result ≡ Done → pos 0 ≤ℤ end }
        ensures order { result ≡ Done → start ≤ℤ end }
        ensures within { result ≡ Done → end ≤ℤ text_end self.now.state }
        ensures limit { result ≡ Done → length_after self.now.state start end incoming.now ≤ Limits.TEXT }
        ensures few { result ≡ Done → span_count_then self.now.state start end incoming.now ≤ Limits.SPANS }
        ensures well_formed { IsWellFormed self.now.state }
    {
        judge_replace(&halves_of(&self.units), self.index(), start, end, incoming)
    }

    /// The units from `start` to `end` become the incoming ones, the spans with them, and the change says so. Without
    /// memory nothing changes, and none is asked for where the incoming units fit the spare ones and the incoming spans
    /// the spare spans.
    fn exchange<L: Ledger>(
        &mut self,
        start: u32,
        end: u32,
        incoming: &Incoming,
        steps: &mut Steps<L>,
    ) -> Result<(), NoMemory>
        requires brought { IsBrought incoming.now }
        requires order { start ≤ end }
        requires within { end ≤ length self.old.state.units }
        requires limit { spliced_length (length self.old.state.units) start end (length incoming.now.units)
            ≤ Limits.TEXT }
        requires few { length (replaced self.old.state start end incoming.now).spans ≤ Limits.SPANS }
        requires done { judged self.old.state 0 (Replace (pos start) (pos end) incoming.now) ≡ Done }
        ensures state { OnOk result (self.new.state ≡ replaced self.old.state start end incoming.now) }
        ensures effect { OnOk result (self.new.effect
            ≡ replaced_effect self.old.state start end (length incoming.now.units)
            (came_spans self.old.state start end incoming.now)) }
        ensures err { OnErr result ((self.new.state ≡ self.old.state) × (self.new.effect ≡ self.old.effect)
            × (self.new.gap ≡ self.old.gap)) }
        ensures gap { OnOk result (self.new.gap ≡ start + length incoming.now.units) }
        ensures ticks { OnOk result (steps.new ≤ steps.old + abs_diff self.old.gap end + length incoming.now.units
            + 2 * length self.old.state.spans) }
        ensures plain { OnOk result (is_plain start end (length self.old.state.units) self.old.state.spans ≡ true
            → steps.new ≡ steps.old + abs_diff self.old.gap end + length incoming.now.units) }
        ensures idle { OnErr result (steps.new ≡ steps.old) }
        ensures room { length incoming.now.units ≤ self.old.spare_units
            → length (coming_spans incoming.now) ≤ self.old.spare_spans → IsOk result }
        ensures spare_units { OnOk result (self.old.spare_units ≤ self.new.spare_units + length incoming.now.units) }
        ensures spare_spans { OnOk result (self.old.spare_spans
            ≤ self.new.spare_spans + length (came_spans self.old.state start end incoming.now)) }
        ensures spare_stays { OnErr result
            ((self.old.spare_units ≤ self.new.spare_units) × (self.old.spare_spans ≤ self.new.spare_spans)) }
        ensures well_formed { IsWellFormed self.new.state }
        ensures seated { (slots : ℕ) → IsSeated slots self.old.state.spans → IsSeated slots self.new.state.spans }
    {
        self.units.reserve(incoming.units.len() as u32)?;
        let coming = coming_with(incoming);
        let most = coming.len().min(Limits::SPANS as usize);
        self.change.reserve(most as u32, &mut self.touched)?;
        let asked = Exchange {
            text: halves_of(&self.units),
            start,
            end,
            brought: incoming.units.as_slice(),
            coming,
        };
        exchange_spans(&asked, &mut self.touched, &mut self.change, steps);
        // There is room, so this succeeds.
        let _ = self
            .units
            .replace(start, end, incoming.units.as_slice(), steps);
        Ok(())
    }

    /// How many spans would stand after a replacement that is refused since they are too many.
    pub fn span_count_then(&self, start: i32, end: i32, incoming: &Incoming) -> u32
        requires brought { IsBrought incoming.now }
        requires full { judged self.now.state 0 (Replace start end incoming.now) ≡ Refused SpansFull }
        ensures { result ≡ span_count_then self.now.state start end incoming.now }
    {
        self.count_spans_behind(place_of(start), place_of(end), incoming)
    }

    /// How many spans stand after a replacement.
    fn count_spans_behind(&self, start: u32, end: u32, incoming: &Incoming) -> u32
        requires brought { IsBrought incoming.now }
        requires order { start ≤ end }
        requires within { end ≤ length self.now.state.units }
        requires limit { spliced_length (length self.now.state.units) start end (length incoming.now.units)
            ≤ Limits.TEXT }
        ensures { result ≡ length (replaced self.now.state start end incoming.now).spans }
    {
        let cut = Cut::new(
            &halves_of(&self.units),
            start,
            end,
            incoming.units.as_slice(),
            None,
        );
        count_spans_then(&coming_with(incoming), &cut, self.index()) as u32
    }

    /// Gives an attached span these places, flags and what, in its place of the order, or attaches a span behind all
    /// others, where the verdict is done; else nothing changes. No memory is asked for where the id is attached, or a
    /// spare span is left.
    #[tactic(auto, using(crate::proofs::Done::by_verdict))]
    pub fn set_span<L: Ledger>(
        &mut self,
        id: u32,
        start: i32,
        end: i32,
        flags: u32,
        what: What,
        slots: u8,
        steps: &mut Steps<L>,
    ) -> Result<Verdict, NoMemory>
        ensures verdict { IfOk result (λ verdict. verdict ≡ judged self.old.state slots (Set id start end flags what)) }
        ensures state { OnOk result (self.new.state ≡ state_after self.old.state slots (Set id start end flags what)) }
        ensures effect { OnOk result (self.new.effect
            ≡ effect_after self.old.state slots (Set id start end flags what) self.old.effect) }
        ensures gap { self.new.gap ≡ self.old.gap }
        ensures err { OnErr result ((self.new.state ≡ self.old.state) × (self.new.effect ≡ self.old.effect)) }

        // Of an attached id, or within the spare spans, it succeeds, and it takes at most one of them.
        ensures attached { is_attached id self.old.state.spans ≡ true → IsOk result }
        ensures room { 0 < self.old.spare_spans → IsOk result }
        ensures spare_spans { IfOk result (λ verdict. self.old.spare_spans
            ≤ self.new.spare_spans + on_done verdict (appended_by_set id self.old.state.spans) 0) }
        ensures spare_stays { OnErr result (self.old.spare_spans ≤ self.new.spare_spans) }
        ensures spare_units { self.old.spare_units ≤ self.new.spare_units }

        ensures well_formed { IsWellFormed self.new.state }
        ensures seated { IsSeated slots self.old.state.spans → IsSeated slots self.new.state.spans }
    {
        let asked = AskedSpan {
            id,
            start,
            end,
            flags,
            what,
        };
        let verdict = self.judge_setting(&asked, slots);
        let Verdict::Done = verdict else {
            return Ok(verdict);
        };
        self.attach(&asked, slots)?;
        Ok(verdict)
    }

    /// The verdict of a set.
    fn judge_setting(&self, asked: &AskedSpan, slots: u8) -> Verdict
        ensures verdict { result ≡ judged self.now.state slots (set_of asked.now) }
        ensures starts { result ≡ Done → pos 0 ≤ℤ asked.now.start }
        ensures ends { result ≡ Done → pos 0 ≤ℤ asked.now.end }
        ensures well_formed { IsWellFormed self.now.state }
    {
        judge_set(&halves_of(&self.units), self.index(), asked, slots)
    }

    /// Sets a span whose set is done with so many watchers loaded, and the change says so. Without memory nothing
    /// changes, and none is asked for where the id is attached, or a spare span is left.
    #[tactic(auto, unfolding(edit_model::specs::Changed::stepped, edit_model::specs::Changed::change_of))]
    fn attach(&mut self, asked: &AskedSpan, slots: u8) -> Result<(), NoMemory>
        requires done { judged self.old.state slots (set_of asked.now) ≡ Done }
        requires starts { pos 0 ≤ℤ asked.now.start }
        requires ends { pos 0 ≤ℤ asked.now.end }
        ensures state { OnOk result (self.new.state ≡ stepped self.old.state (set_of asked.now)) }
        ensures effect { OnOk result (self.new.effect ≡ change_of self.old.state (set_of asked.now)) }
        ensures gap { self.new.gap ≡ self.old.gap }
        ensures err { OnErr result ((self.new.state ≡ self.old.state) × (self.new.effect ≡ self.old.effect)) }
        ensures attached { is_attached asked.now.id self.old.state.spans ≡ true → IsOk result }
        ensures room { 0 < self.old.spare_spans → IsOk result }
        ensures spare_spans { OnOk result (self.old.spare_spans
            ≤ self.new.spare_spans + appended_by_set asked.now.id self.old.state.spans) }
        ensures spare_stays { OnErr result (self.old.spare_spans ≤ self.new.spare_spans) }
        ensures spare_units { self.old.spare_units ≤ self.new.spare_units }
        ensures well_formed { IsWellFormed self.new.state }
        ensures seated { IsSeated slots self.old.state.spans → IsSeated slots self.new.state.spans }
    {
        let row = SpanRow {
            id: asked.id,
            start: place_of(asked.start),
            end: place_of(asked.end),
            flags: asked.flags,
            order: 0,
            what: asked.what,
        };
        set_row(&row, &mut self.touched, &mut self.change)?;
        Ok(())
    }

    /// Removes an attached span, where the verdict is done; else nothing changes. No memory is asked for.
    #[tactic(auto, using(crate::proofs::Done::by_verdict))]
    pub fn remove_span(&mut self, id: u32) -> Verdict
        ensures verdict { (slots : ℕ) → result ≡ judged self.old.state slots (Remove id) }
        ensures state { (slots : ℕ) → self.new.state ≡ state_after self.old.state slots (Remove id) }
        ensures effect { (slots : ℕ) → self.new.effect ≡ effect_after self.old.state slots (Remove id) self.old.effect }
        ensures gap { self.new.gap ≡ self.old.gap }
        ensures spare_units { self.old.spare_units ≤ self.new.spare_units }
        ensures spare_spans { self.old.spare_spans ≤ self.new.spare_spans }
        ensures well_formed { IsWellFormed self.new.state }
        ensures seated { (slots : ℕ) → IsSeated slots self.old.state.spans → IsSeated slots self.new.state.spans }
    {
        let verdict = self.judge_removal(id);
        let Verdict::Done = verdict else {
            return verdict;
        };
        self.detach(id);
        verdict
    }

    /// The verdict of a removal.
    fn judge_removal(&self, id: u32) -> Verdict
        ensures verdict { (slots : ℕ) → result ≡ judged self.now.state slots (Remove id) }
        ensures well_formed { IsWellFormed self.now.state }
    {
        judge_remove(self.change.moved.rows(), id)
    }

    /// Removes a span whose removal is done, and the change says so.
    #[tactic(auto, unfolding(edit_model::specs::Changed::stepped, edit_model::specs::Changed::change_of))]
    fn detach(&mut self, id: u32)
        requires { judged self.old.state 0 (Remove id) ≡ Done }
        ensures state { self.new.state ≡ stepped self.old.state (Remove id) }
        ensures effect { self.new.effect ≡ change_of self.old.state (Remove id) }
        ensures gap { self.new.gap ≡ self.old.gap }
        ensures spare_units { self.old.spare_units ≤ self.new.spare_units }
        ensures spare_spans { self.old.spare_spans ≤ self.new.spare_spans }
        ensures well_formed { IsWellFormed self.new.state }
        ensures seated { (slots : ℕ) → IsSeated slots self.old.state.spans → IsSeated slots self.new.state.spans }
    {
        remove_row(id, &mut self.change);
    }

    /// The selection goes to these places, or comes behind all other spans, its start first, where the verdict is done;
    /// else nothing changes. Its start may lie behind its end. Of an attached selection an end that stays where it was
    /// isn't told of. No memory is asked for where the selection is attached, or two spare spans are left.
    #[tactic(auto, using(crate::proofs::Done::by_verdict))]
    pub fn select(&mut self, start: i32, end: i32) -> Result<Verdict, NoMemory>
        ensures verdict { (slots : ℕ)
            → IfOk result (λ verdict. verdict ≡ judged self.old.state slots (Select start end)) }
        ensures state { (slots : ℕ)
            → OnOk result (self.new.state ≡ state_after self.old.state slots (Select start end)) }
        ensures effect { (slots : ℕ) → OnOk result
            (self.new.effect ≡ effect_after self.old.state slots (Select start end) self.old.effect) }
        ensures gap { self.new.gap ≡ self.old.gap }
        ensures err { OnErr result ((self.new.state ≡ self.old.state) × (self.new.effect ≡ self.old.effect)) }
        ensures attached { has_selection self.old.state.spans ≡ true → IsOk result }
        ensures room { 2 ≤ self.old.spare_spans → IsOk result }
        ensures spare_spans { IfOk result (λ verdict. self.old.spare_spans
            ≤ self.new.spare_spans + on_done verdict (appended_by_select self.old.state.spans) 0) }
        ensures spare_stays { OnErr result (self.old.spare_spans ≤ self.new.spare_spans) }
        ensures spare_units { self.old.spare_units ≤ self.new.spare_units }
        ensures well_formed { IsWellFormed self.new.state }
        ensures seated { (slots : ℕ) → IsSeated slots self.old.state.spans → IsSeated slots self.new.state.spans }
    {
        let verdict = self.judge_selection(start, end);
        let Verdict::Done = verdict else {
            return Ok(verdict);
        };
        self.place_selection(start, end)?;
        Ok(verdict)
    }

    /// The verdict of a select.
    fn judge_selection(&self, start: i32, end: i32) -> Verdict
        ensures verdict { (slots : ℕ) → result ≡ judged self.now.state slots (Select start end) }
        ensures starts { result ≡ Done → pos 0 ≤ℤ start }
        ensures ends { result ≡ Done → pos 0 ≤ℤ end }
        ensures well_formed { IsWellFormed self.now.state }
    {
        judge_select(self.units.len(), self.change.moved.rows(), start, end)
    }

    /// Places a selection whose select is done, and the change says so. Without memory nothing changes.
    #[tactic(auto, unfolding(edit_model::specs::Changed::stepped, edit_model::specs::Changed::change_of))]
    fn place_selection(&mut self, start: i32, end: i32) -> Result<(), NoMemory>
        requires done { judged self.old.state 0 (Select start end) ≡ Done }
        requires starts { pos 0 ≤ℤ start }
        requires ends { pos 0 ≤ℤ end }
        ensures state { OnOk result (self.new.state ≡ stepped self.old.state (Select start end)) }
        ensures effect { OnOk result (self.new.effect ≡ change_of self.old.state (Select start end)) }
        ensures gap { self.new.gap ≡ self.old.gap }
        ensures err { OnErr result ((self.new.state ≡ self.old.state) × (self.new.effect ≡ self.old.effect)) }
        ensures attached { has_selection self.old.state.spans ≡ true → IsOk result }
        ensures room { 2 ≤ self.old.spare_spans → IsOk result }
        ensures spare_spans { OnOk result (self.old.spare_spans
            ≤ self.new.spare_spans + appended_by_select self.old.state.spans) }
        ensures spare_stays { OnErr result (self.old.spare_spans ≤ self.new.spare_spans) }
        ensures spare_units { self.old.spare_units ≤ self.new.spare_units }
        ensures well_formed { IsWellFormed self.new.state }
        ensures seated { (slots : ℕ) → IsSeated slots self.old.state.spans → IsSeated slots self.new.state.spans }
    {
        select_rows(
            place_of(start),
            place_of(end),
            &mut self.touched,
            &mut self.change,
        )?;
        Ok(())
    }

    /// The selection goes, where the verdict is done; else nothing changes. No memory is asked for.
    #[tactic(auto, using(crate::proofs::Done::by_verdict))]
    pub fn deselect(&mut self) -> Verdict
        ensures verdict { (slots : ℕ) → result ≡ judged self.old.state slots Deselect }
        ensures state { (slots : ℕ) → self.new.state ≡ state_after self.old.state slots Deselect }
        ensures effect { (slots : ℕ) → self.new.effect ≡ effect_after self.old.state slots Deselect self.old.effect }
        ensures gap { self.new.gap ≡ self.old.gap }
        ensures spare_units { self.old.spare_units ≤ self.new.spare_units }
        ensures spare_spans { self.old.spare_spans ≤ self.new.spare_spans }
        ensures well_formed { IsWellFormed self.new.state }
        ensures seated { (slots : ℕ) → IsSeated slots self.old.state.spans → IsSeated slots self.new.state.spans }
    {
        let verdict = self.judge_deselection();
        let Verdict::Done = verdict else {
            return verdict;
        };
        self.remove_selection();
        verdict
    }

    /// The verdict of a deselect.
    fn judge_deselection(&self) -> Verdict
        ensures verdict { (slots : ℕ) → result ≡ judged self.now.state slots Deselect }
        ensures well_formed { IsWellFormed self.now.state }
    {
        judge_deselect(self.change.moved.rows())
    }

    /// Removes both ends of the selection, and the change says so.
    #[tactic(auto, unfolding(edit_model::specs::Changed::stepped, edit_model::specs::Changed::change_of))]
    fn remove_selection(&mut self)
        ensures state { self.new.state ≡ stepped self.old.state Deselect }
        ensures effect { self.new.effect ≡ change_of self.old.state Deselect }
        ensures gap { self.new.gap ≡ self.old.gap }
        ensures spare_units { self.old.spare_units ≤ self.new.spare_units }
        ensures spare_spans { self.old.spare_spans ≤ self.new.spare_spans }
        ensures well_formed { IsWellFormed self.new.state }
        ensures seated { (slots : ℕ) → IsSeated slots self.old.state.spans → IsSeated slots self.new.state.spans }
    {
        remove_ends(&mut self.change);
    }

    /// The composing region goes, and every span whose flags word says that it is part of a composing text, where the
    /// verdict is done; else nothing changes. No memory is asked for, and so it succeeds.
    #[tactic(auto, using(crate::proofs::Done::by_verdict))]
    pub fn drop_composing(&mut self) -> Result<Verdict, NoMemory>
        ensures verdict { (slots : ℕ) → IfOk result (λ verdict. verdict ≡ judged self.old.state slots Drop) }
        ensures state { (slots : ℕ) → self.new.state ≡ state_after self.old.state slots Drop }
        ensures effect { (slots : ℕ) → self.new.effect ≡ effect_after self.old.state slots Drop self.old.effect }
        ensures gap { self.new.gap ≡ self.old.gap }
        ensures ok { IsOk result }
        ensures spare_units { self.old.spare_units ≤ self.new.spare_units }
        ensures spare_spans { self.old.spare_spans ≤ self.new.spare_spans }
        ensures well_formed { IsWellFormed self.new.state }
        ensures seated { (slots : ℕ) → IsSeated slots self.old.state.spans → IsSeated slots self.new.state.spans }
    {
        let verdict = self.judge_dropping();
        let Verdict::Done = verdict else {
            return Ok(verdict);
        };
        self.drop_spans();
        Ok(verdict)
    }

    /// The verdict of a drop.
    fn judge_dropping(&self) -> Verdict
        ensures verdict { (slots : ℕ) → result ≡ judged self.now.state slots Drop }
        ensures well_formed { IsWellFormed self.now.state }
    {
        judge_drop(self.change.moved.rows())
    }

    /// Removes the region and the other spans that a drop takes, and the change says so.
    #[tactic(auto, unfolding(edit_model::specs::Changed::stepped, edit_model::specs::Changed::change_of))]
    fn drop_spans(&mut self)
        ensures state { self.new.state ≡ stepped self.old.state Drop }
        ensures effect { self.new.effect ≡ change_of self.old.state Drop }
        ensures gap { self.new.gap ≡ self.old.gap }
        ensures spare_units { self.old.spare_units ≤ self.new.spare_units }
        ensures spare_spans { self.old.spare_spans ≤ self.new.spare_spans }
        ensures well_formed { IsWellFormed self.new.state }
        ensures seated { (slots : ℕ) → IsSeated slots self.old.state.spans → IsSeated slots self.new.state.spans }
    {
        drop_rows(&mut self.change);
    }

    /// Makes these units the composing region, behind all other spans, where the verdict is done; else nothing changes.
    /// No memory is asked for where a spare span is left.
    #[tactic(auto, using(crate::proofs::Done::by_verdict))]
    pub fn mark_composing(&mut self, start: u32, end: u32) -> Result<Verdict, NoMemory>
        requires order { start ≤ end }
        requires within { end ≤ length self.old.state.units }
        requires absent { has_region self.old.state.spans ≡ false }
        ensures verdict { (slots : ℕ)
            → IfOk result (λ verdict. verdict ≡ judged self.old.state slots (Mark start end)) }
        ensures state { (slots : ℕ) → OnOk result (self.new.state ≡ state_after self.old.state slots (Mark start end)) }
        ensures effect { (slots : ℕ) → OnOk result
            (self.new.effect ≡ effect_after self.old.state slots (Mark start end) self.old.effect) }
        ensures gap { self.new.gap ≡ self.old.gap }
        ensures err { OnErr result ((self.new.state ≡ self.old.state) × (self.new.effect ≡ self.old.effect)) }
        ensures room { 0 < self.old.spare_spans → IsOk result }
        ensures spare_spans { IfOk result (λ verdict. self.old.spare_spans
            ≤ self.new.spare_spans + on_done verdict 1 0) }
        ensures spare_stays { OnErr result (self.old.spare_spans ≤ self.new.spare_spans) }
        ensures spare_units { self.old.spare_units ≤ self.new.spare_units }
        ensures well_formed { IsWellFormed self.new.state }
        ensures seated { (slots : ℕ) → IsSeated slots self.old.state.spans → IsSeated slots self.new.state.spans }
    {
        let verdict = self.judge_marking(start, end);
        let Verdict::Done = verdict else {
            return Ok(verdict);
        };
        self.place_region(start, end)?;
        Ok(verdict)
    }

    /// The verdict of a mark.
    fn judge_marking(&self, start: u32, end: u32) -> Verdict
        ensures verdict { (slots : ℕ) → result ≡ judged self.now.state slots (Mark start end) }
        ensures well_formed { IsWellFormed self.now.state }
    {
        judge_mark(self.units.len(), self.change.moved.rows(), start, end)
    }

    /// Attaches a region whose mark is done, and the change says so. Without memory nothing changes.
    #[tactic(auto, unfolding(edit_model::specs::Changed::stepped, edit_model::specs::Changed::change_of))]
    fn place_region(&mut self, start: u32, end: u32) -> Result<(), NoMemory>
        requires done { judged self.old.state 0 (Mark start end) ≡ Done }
        requires order { start ≤ end }
        requires absent { has_region self.old.state.spans ≡ false }
        ensures state { OnOk result (self.new.state ≡ stepped self.old.state (Mark start end)) }
        ensures effect { OnOk result (self.new.effect ≡ change_of self.old.state (Mark start end)) }
        ensures gap { self.new.gap ≡ self.old.gap }
        ensures err { OnErr result ((self.new.state ≡ self.old.state) × (self.new.effect ≡ self.old.effect)) }
        ensures room { 0 < self.old.spare_spans → IsOk result }
        ensures spare_spans { OnOk result (self.old.spare_spans ≤ self.new.spare_spans + 1) }
        ensures spare_stays { OnErr result (self.old.spare_spans ≤ self.new.spare_spans) }
        ensures spare_units { self.old.spare_units ≤ self.new.spare_units }
        ensures well_formed { IsWellFormed self.new.state }
        ensures seated { (slots : ℕ) → IsSeated slots self.old.state.spans → IsSeated slots self.new.state.spans }
    {
        mark_row(start, end, &mut self.touched, &mut self.change)?;
        Ok(())
    }
}
