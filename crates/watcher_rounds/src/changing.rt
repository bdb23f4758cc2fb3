//! An edit whose verdict is done: its change, which the follower is told of, and the callbacks around it.

ghost use Rattle.std.specs.Prelude.{◌≡◌, ◌<◌, ◌⊎◌, ◌∷◌, ◌++◌, [], length, map, IfOk, OnOk, OnErr};
ghost use Rattle.std.specs.List.{All};
ghost use Rattle.edit_base.specs.declared.verdicts.Verdict.TheVariants.{Done};
ghost use Rattle.edit_model.specs.WellFormed.{IsSeated};
ghost use Rattle.edit_model.specs.Verdicts.{judged};
ghost use Rattle.edit_model.specs.Changed.{stepped, change_of, on_done};
ghost use Rattle.edit_model.specs.Fitting.{IsFittingStep};
ghost use Rattle.edit_model.specs.Laws.{BringsOrdered};
ghost use Rattle.edit_model.specs.Minds.{IsTold};
ghost use Rattle.edit_model.specs.Events.{IsCallback};
ghost use Rattle.edit_model.specs.Machine.{tell_after, events};
ghost use Rattle.watcher_rounds.specs.Rounds.{setup_of, slot_count, stands, tell_one, MayRun, TakesLast, Led, Passed};

use crate::logging::Judged;
use crate::round::{Log, Round};
use crate::seats::{listeners, seats};
use crate::shelf::Shelf;
use crate::spans::span_callbacks;
use crate::telling::{event_of, tell_all_before, tell_all_changed};
use edit_base::{NoMemory, Steps};
use edit_model::{SpanCallback, Step, TextEvent};
use replace_engine::{Follower, SpannedText};
use std::alloc::Global;
use std::sync::ledger::Ledger;

/// Who may answer an edit that was done: the slots of the watchers that are told of its text, and the callbacks of its
/// spans.
#[derive(Drop)]
pub struct ToAsk {
    pub slots: Vec<u8>,
    pub event: TextEvent,
    pub spans: Vec<SpanCallback>,
}

/// Does an edit whose verdict is done: its watchers are told before it and right after it. Who may answer is known when
/// the change is made.
pub fn carry_out<S: Shelf, F: Follower, L: Ledger>(
    alloc: Global,
    round: &Round<'_>,
    found: &Judged,
    depth: u32,
    text: &mut SpannedText,
    shelf: &mut S,
    follower: &mut F,
    spent: u32,
    log: &mut Log,
    steps: &mut Steps<L>,
) -> Result<ToAsk, NoMemory>
    requires done { found.now.verdict ≡ Done }
    requires verdict { found.now.verdict ≡ judged text.old.state (slot_count round.now) found.now.brought }
    requires fitting { IsFittingStep found.now.brought }
    requires ordered { BringsOrdered text.old.state found.now.brought }
    requires ready { MayRun round.now.slots.now.items text.old.state (S.minds shelf.old) spent }
    requires followed { F.follows follower.old text.old.state }
    ensures ok { IfOk result (λ told. Led (TakesLast F.takes) (setup_of round.now)
        (on_done found.now.verdict (events text.old.state depth found.now.brought) [])
        (map (λ slot. tell_after slot told.event) told.slots.items ++ map tell_one told.spans.items)
        (stands text.old.state (S.minds shelf.old) log.old.items spent)
        (stands text.new.state (S.minds shelf.new) log.new.items spent)
        (follower.old, text.old.effect) (follower.new, text.new.effect)) }
    ensures err { OnErr result (Passed (setup_of round.now)
        (on_done found.now.verdict (events text.old.state depth found.now.brought) [])
        (stands text.old.state (S.minds shelf.old) log.old.items spent)
        (stands text.new.state (S.minds shelf.new) log.new.items spent)) }
    ensures slots { IfOk result (λ told. All (λ slot. slot < slot_count round.now) told.slots.items) }
    ensures told { IfOk result (λ told. IsTold told.event) }
    ensures depth { IfOk result (λ told. told.event.depth ≡ depth) }
    ensures spans { IfOk result (λ told. All (IsCallback (slot_count round.now) depth) told.spans.items) }
    ensures ready { MayRun round.now.slots.now.items text.new.state (S.minds shelf.new) spent }
    ensures followed { OnOk result (F.follows follower.new text.new.state) }
    ensures layout_ground { F.layout_ground follower.new ≡ F.layout_ground follower.old }
{
    let count = round.slots.len() as u8;
    let event = event_of(&found.brought, depth, count, text);
    let rows = seats(alloc, count, text, steps)?;
    let before = rows.as_slice();
    let slots = listeners(alloc, &found.brought, text, before)?;
    let told = slots.as_slice();
    tell_all_before(round, told, &event, text, shelf, log)?;
    change(&found.brought, count, text, follower, steps)?;
    let spans = span_callbacks(alloc, depth, count, before, text, steps)?;
    tell_all_changed(round, told, &event, text, shelf, log)?;
    Ok(ToAsk {
        slots,
        event,
        spans,
    })
}

/// Does an edit, and tells the follower of it. Where there is no memory for telling, the edit was done.
pub fn change<F: Follower, L: Ledger>(
    step: &Step,
    slots: u8,
    text: &mut SpannedText,
    follower: &mut F,
    steps: &mut Steps<L>,
) -> Result<(), NoMemory>
    requires done { judged text.old.state slots step.now ≡ Done }
    requires fitting { IsFittingStep step.now }
    requires ordered { BringsOrdered text.old.state step.now }
    requires followed { F.follows follower.old text.old.state }
    ensures state { OnOk result (text.new.state ≡ stepped text.old.state step.now) }
    ensures effect { OnOk result (text.new.effect ≡ change_of text.old.state step.now) }
    ensures takes { OnOk result (F.takes follower.old (change_of text.old.state step.now ∷ []) follower.new) }
    ensures followed { OnOk result (F.follows follower.new text.new.state) }
    ensures layout_ground { F.layout_ground follower.new ≡ F.layout_ground follower.old }
    ensures err { OnErr result ((text.new.state ≡ text.old.state)
        ⊎ (text.new.state ≡ stepped text.old.state step.now)) }
    ensures seated { IsSeated slots text.old.state.spans → IsSeated slots text.new.state.spans }
{
    do_step(step, slots, text, steps)?;
    let text: &SpannedText = text;
    follower.told(text, text.change(), steps)
}

// Does an edit whose verdict is done. Without memory nothing changes.
fn do_step<L: Ledger>(
    step: &Step,
    slots: u8,
    text: &mut SpannedText,
    steps: &mut Steps<L>,
) -> Result<(), NoMemory>
    requires done { judged text.old.state slots step.now ≡ Done }
    requires fitting { IsFittingStep step.now }
    requires ordered { BringsOrdered text.old.state step.now }
    ensures state { OnOk result (text.new.state ≡ stepped text.old.state step.now) }
    ensures effect { OnOk result (text.new.effect ≡ change_of text.old.state step.now) }
    ensures err { OnErr result (text.new.state ≡ text.old.state) }
    ensures seated { IsSeated slots text.old.state.spans → IsSeated slots text.new.state.spans }
{
    match step {
        Step::Replace {
            start,
            end,
            incoming,
        } => {
            text.replace(*start, *end, incoming, steps)?;
        }
        Step::Set {
            id,
            start,
            end,
            flags,
            what,
        } => {
            text.set_span(*id, *start, *end, *flags, *what, slots, steps)?;
        }
        Step::Remove { id } => {
            text.remove_span(*id);
        }
        Step::Select { start, end } => {
            text.select(*start, *end)?;
        }
        Step::Deselect => {
            text.deselect();
        }
        Step::Drop => {
            text.drop_composing()?;
        }
        Step::Mark { start, end } => {
            text.mark_composing(*start, *end)?;
        }
    }
    Ok(())
}
