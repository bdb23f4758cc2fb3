//! The engine: an item with its callbacks, and the edits that they answer.

ghost use Rattle.std.specs.Prelude.{◌≡◌, ◌≤◌, ◌<◌, ◌+◌, List, [], ◌∷◌, length, map, if◌then◌else◌, OnOk, OnErr, IfOk};
ghost use Rattle.std.specs.List.{All};
ghost use Rattle.edit_base.specs.declared.edits.Edit.{Edit as AnswerEdit};
ghost use Rattle.edit_model.specs.Verdicts.{judged};
ghost use Rattle.edit_model.specs.Changed.{on_done};
ghost use Rattle.edit_model.specs.Minds.{IsTold};
ghost use Rattle.edit_model.specs.Fitting.{IsFittingStep, IsFittingItem, HasTurn};
ghost use Rattle.edit_model.specs.Laws.{BringsOrdered};
ghost use Rattle.edit_model.specs.Events.{IsCallback};
ghost use Rattle.edit_model.specs.Machine.{run_item, do_rest, tell_after, tell_span, rest_of, resolved, verdict_at, events};
ghost use Rattle.edit_model.specs.Outcome.{outcome};
ghost use Rattle.edit_model.specs.WellFormed.{IsSeated};
ghost use Rattle.watcher_rounds.specs.Rounds.{setup_with, tell_one, last_of, Runs, ComesThrough, setup_of, slot_count, stands, MayRun, TakesLast, Led, Passed};

use crate::changing::carry_out;
use crate::judging::is_barred;
use crate::logging::{Judged, judge_and_log, log_barred};
use crate::resolving::{resolve, resolve_edit};
use crate::round::{Log, Round};
use crate::shelf::Shelf;
use crate::telling::{tell_after, tell_span};
use edit_base::{Edit, Limits, NoMemory, Steps, Verdict};
use edit_model::{Filter, Item, SpanCallback, TextEvent};
use replace_engine::{Follower, SpannedText};
use std::alloc::Global;
use std::sync::ledger::Ledger;
use watcher_api::{Answer, Slots, Watcher};

/// Runs one item of a command, with all its callbacks and nested edits, and answers the item's own verdict.
///
/// `slots` has for each slot the shelf place of its watcher. `depth` is the greatest depth of a nested edit, and
/// `spent` is the number of nested edits that have begun in this command. Edits bring their texts through `filters`. An
/// item's places are read at its turn: a connection's go to the start or the end of the text that stands then, and a region
/// may be marked where none is attached.
/// What is left behind is what the agenda machine's run of the item leaves: text, minds, log and `spent`. The follower
/// is told of each change, nested or not, before any watcher is told that it was made, and of nothing else, in order.
/// What the text tells of then is the last change of the run, or what it told of before where the run changed nothing.
///
/// Without memory text, minds, log and `spent` are those of a scene that the run comes through.
pub fn apply<F: Follower, L: Ledger>(
    alloc: Global,
    text: &mut SpannedText,
    filters: &[Filter],
    shelf: &mut Vec<Box<dyn Watcher>>,
    slots: &Slots,
    follower: &mut F,
    item: &Item,
    depth: u32,
    spent: &mut u32,
    log: &mut Log,
    steps: &mut Steps<L>,
) -> Result<Verdict, NoMemory>
    requires depth { depth ≤ Limits.DEPTH }
    requires spent { spent.old ≤ Limits.NESTED_EDITS }
    requires slots { All (λ place. place < length shelf.old.items) slots.now.items }
    requires seats { IsSeated (length slots.now.items) text.old.state.spans }
    requires follows { F.follows follower.old text.old.state }
    requires item { IsFittingItem item.now }
    requires ready { HasTurn text.old.state item.now }
    ensures verdict { IfOk result (λ verdict. verdict ≡ verdict_at (setup_with filters.now slots.now.items depth) 0
        (resolved text.old.state item.now) text.old.state spent.old) }
    ensures ok { OnOk result (Runs F.takes (setup_with filters.now slots.now.items depth) item.now
        (stands text.old.state (map (λ b. mind b) shelf.old.items) log.old.items spent.old)
        (stands text.new.state (map (λ b. mind b) shelf.new.items) log.new.items spent.new)
        follower.old follower.new) }
    ensures change { OnOk result (text.new.effect ≡ last_of (outcome (setup_with filters.now slots.now.items depth) item.now
        (stands text.old.state (map (λ b. mind b) shelf.old.items) log.old.items spent.old [])).effects text.old.effect) }
    ensures err { OnErr result (ComesThrough (setup_with filters.now slots.now.items depth) item.now
        (stands text.old.state (map (λ b. mind b) shelf.old.items) log.old.items spent.old)
        (stands text.new.state (map (λ b. mind b) shelf.new.items) log.new.items spent.new)) }
    ensures follows { OnOk result (F.follows follower.new text.new.state) }
    ensures layout_ground { F.layout_ground follower.new ≡ F.layout_ground follower.old }
    ensures slots { All (λ place. place < length shelf.new.items) slots.now.items }
    ensures spent { spent.new ≤ Limits.NESTED_EDITS }
    ensures seats { IsSeated (length slots.now.items) text.new.state.spans }
{
    let round = Round {
        filters,
        slots,
        depth,
    };
    do_item(
        alloc, &round, item, text, shelf, follower, spent, log, steps,
    )
}

// Judges and logs the item's edit, and does what it sets off.
fn do_item<S: Shelf, F: Follower, L: Ledger>(
    alloc: Global,
    round: &Round<'_>,
    item: &Item,
    text: &mut SpannedText,
    shelf: &mut S,
    follower: &mut F,
    spent: &mut u32,
    log: &mut Log,
    steps: &mut Steps<L>,
) -> Result<Verdict, NoMemory>
    requires fitting { IsFittingItem item.now }
    requires turn { HasTurn text.old.state item.now }
    requires ready { MayRun round.now.slots.now.items text.old.state (S.minds shelf.old) spent.old }
    requires limit { round.now.depth ≤ Limits.DEPTH }
    requires followed { F.follows follower.old text.old.state }
    ensures ok { OnOk result (Led (TakesLast F.takes) (setup_of round.now) (run_item item.now ∷ []) []
        (stands text.old.state (S.minds shelf.old) log.old.items spent.old)
        (stands text.new.state (S.minds shelf.new) log.new.items spent.new)
        (follower.old, text.old.effect) (follower.new, text.new.effect)) }
    ensures err { OnErr result (Passed (setup_of round.now) (run_item item.now ∷ [])
        (stands text.old.state (S.minds shelf.old) log.old.items spent.old)
        (stands text.new.state (S.minds shelf.new) log.new.items spent.new)) }
    ensures ready { MayRun round.now.slots.now.items text.new.state (S.minds shelf.new) spent.new }
    ensures followed { OnOk result (F.follows follower.new text.new.state) }
    ensures layout_ground { F.layout_ground follower.new ≡ F.layout_ground follower.old }
    ensures verdict { IfOk result (λ verdict. verdict
        ≡ verdict_at (setup_of round.now) 0 (resolved text.old.state item.now) text.old.state spent.old) }
{
    let step = resolve(alloc, item, text)?;
    let judged = judge_and_log(alloc, round, &step, 0, *spent, text, log)?;
    set_off(
        alloc, round, &judged, 0, text, shelf, follower, spent, log, steps,
    )?;
    Ok(judged.verdict)
}

// Makes an edit's change where it is done, with its callbacks and what they answer.
#[cycle(rounds)]
fn set_off<S: Shelf, F: Follower, L: Ledger>(
    alloc: Global,
    round: &Round<'_>,
    found: &Judged,
    depth: u32,
    text: &mut SpannedText,
    shelf: &mut S,
    follower: &mut F,
    spent: &mut u32,
    log: &mut Log,
    steps: &mut Steps<L>,
) -> Result<(), NoMemory>
    requires verdict { found.now.verdict ≡ judged text.old.state (slot_count round.now) found.now.brought }
    requires fitting { IsFittingStep found.now.brought }
    requires ordered { BringsOrdered text.old.state found.now.brought }
    requires depth { depth ≤ round.now.depth }
    requires ready { MayRun round.now.slots.now.items text.old.state (S.minds shelf.old) spent.old }
    requires limit { round.now.depth ≤ Limits.DEPTH }
    requires followed { F.follows follower.old text.old.state }
    ensures ok { OnOk result (Led (TakesLast F.takes) (setup_of round.now)
        (on_done found.now.verdict (events text.old.state depth found.now.brought) []) []
        (stands text.old.state (S.minds shelf.old) log.old.items spent.old)
        (stands text.new.state (S.minds shelf.new) log.new.items spent.new)
        (follower.old, text.old.effect) (follower.new, text.new.effect)) }
    ensures err { OnErr result (Passed (setup_of round.now)
        (on_done found.now.verdict (events text.old.state depth found.now.brought) [])
        (stands text.old.state (S.minds shelf.old) log.old.items spent.old)
        (stands text.new.state (S.minds shelf.new) log.new.items spent.new)) }
    ensures ready { MayRun round.now.slots.now.items text.new.state (S.minds shelf.new) spent.new }
    ensures followed { OnOk result (F.follows follower.new text.new.state) }
    ensures layout_ground { F.layout_ground follower.new ≡ F.layout_ground follower.old }
{
    let Verdict::Done = found.verdict else {
        return Ok(());
    };
    let told = carry_out(
        alloc, round, found, depth, text, shelf, follower, *spent, log, steps,
    )?;
    ask_all(
        alloc,
        round,
        &told.slots,
        &told.event,
        text,
        shelf,
        follower,
        spent,
        log,
        steps,
    )?;
    ask_of_spans(
        alloc,
        round,
        depth,
        &told.spans,
        text,
        shelf,
        follower,
        spent,
        log,
        steps,
    )
}

// Tells each of an edit that was done, and does what each answers before the next is told.
#[cycle(rounds)]
fn ask_all<S: Shelf, F: Follower, L: Ledger>(
    alloc: Global,
    round: &Round<'_>,
    slots: &[u8],
    event: &TextEvent,
    text: &mut SpannedText,
    shelf: &mut S,
    follower: &mut F,
    spent: &mut u32,
    log: &mut Log,
    steps: &mut Steps<L>,
) -> Result<(), NoMemory>
    requires slots { All (λ slot. slot < slot_count round.now) slots.now }
    requires event { IsTold event.now }
    requires depth { event.now.depth ≤ round.now.depth }
    requires ready { MayRun round.now.slots.now.items text.old.state (S.minds shelf.old) spent.old }
    requires limit { round.now.depth ≤ Limits.DEPTH }
    requires followed { F.follows follower.old text.old.state }
    ensures ok { OnOk result (Led (TakesLast F.takes) (setup_of round.now) (map (λ slot. tell_after slot event.now) slots.now) []
        (stands text.old.state (S.minds shelf.old) log.old.items spent.old)
        (stands text.new.state (S.minds shelf.new) log.new.items spent.new)
        (follower.old, text.old.effect) (follower.new, text.new.effect)) }
    ensures err { OnErr result (Passed (setup_of round.now) (map (λ slot. tell_after slot event.now) slots.now)
        (stands text.old.state (S.minds shelf.old) log.old.items spent.old)
        (stands text.new.state (S.minds shelf.new) log.new.items spent.new)) }
    ensures ready { MayRun round.now.slots.now.items text.new.state (S.minds shelf.new) spent.new }
    ensures followed { OnOk result (F.follows follower.new text.new.state) }
    ensures layout_ground { F.layout_ground follower.new ≡ F.layout_ground follower.old }
{
    for slot in slots {
        ask_one(
            alloc, round, *slot, event, text, shelf, follower, spent, log, steps,
        )?;
    }
    Ok(())
}

// Tells the watcher in a slot of an edit that was done, and does what it answers.
#[cycle(rounds)]
fn ask_one<S: Shelf, F: Follower, L: Ledger>(
    alloc: Global,
    round: &Round<'_>,
    slot: u8,
    event: &TextEvent,
    text: &mut SpannedText,
    shelf: &mut S,
    follower: &mut F,
    spent: &mut u32,
    log: &mut Log,
    steps: &mut Steps<L>,
) -> Result<(), NoMemory>
    requires slot { slot < slot_count round.now }
    requires event { IsTold event.now }
    requires depth { event.now.depth ≤ round.now.depth }
    requires ready { MayRun round.now.slots.now.items text.old.state (S.minds shelf.old) spent.old }
    requires limit { round.now.depth ≤ Limits.DEPTH }
    requires followed { F.follows follower.old text.old.state }
    ensures ok { OnOk result (Led (TakesLast F.takes) (setup_of round.now) (tell_after slot event.now ∷ []) []
        (stands text.old.state (S.minds shelf.old) log.old.items spent.old)
        (stands text.new.state (S.minds shelf.new) log.new.items spent.new)
        (follower.old, text.old.effect) (follower.new, text.new.effect)) }
    ensures err { OnErr result (Passed (setup_of round.now) (tell_after slot event.now ∷ [])
        (stands text.old.state (S.minds shelf.old) log.old.items spent.old)
        (stands text.new.state (S.minds shelf.new) log.new.items spent.new)) }
    ensures ready { MayRun round.now.slots.now.items text.new.state (S.minds shelf.new) spent.new }
    ensures followed { OnOk result (F.follows follower.new text.new.state) }
    ensures layout_ground { F.layout_ground follower.new ≡ F.layout_ground follower.old }
{
    let answer = tell_after(round, slot, event, text, shelf, log)?;
    do_answer(
        alloc,
        round,
        &answer,
        event.depth + 1,
        text,
        shelf,
        follower,
        spent,
        log,
        steps,
    )
}

// Tells of each span that an edit removed, moved or added, and does what is answered before the next is told of.
#[cycle(rounds)]
fn ask_of_spans<S: Shelf, F: Follower, L: Ledger>(
    alloc: Global,
    round: &Round<'_>,
    depth: u32,
    told: &[SpanCallback],
    text: &mut SpannedText,
    shelf: &mut S,
    follower: &mut F,
    spent: &mut u32,
    log: &mut Log,
    steps: &mut Steps<L>,
) -> Result<(), NoMemory>
    requires callbacks { All (IsCallback (slot_count round.now) depth) told.now }
    requires depth { depth ≤ round.now.depth }
    requires ready { MayRun round.now.slots.now.items text.old.state (S.minds shelf.old) spent.old }
    requires limit { round.now.depth ≤ Limits.DEPTH }
    requires followed { F.follows follower.old text.old.state }
    ensures ok { OnOk result (Led (TakesLast F.takes) (setup_of round.now) (map tell_one told.now) []
        (stands text.old.state (S.minds shelf.old) log.old.items spent.old)
        (stands text.new.state (S.minds shelf.new) log.new.items spent.new)
        (follower.old, text.old.effect) (follower.new, text.new.effect)) }
    ensures err { OnErr result (Passed (setup_of round.now) (map tell_one told.now)
        (stands text.old.state (S.minds shelf.old) log.old.items spent.old)
        (stands text.new.state (S.minds shelf.new) log.new.items spent.new)) }
    ensures ready { MayRun round.now.slots.now.items text.new.state (S.minds shelf.new) spent.new }
    ensures followed { OnOk result (F.follows follower.new text.new.state) }
    ensures layout_ground { F.layout_ground follower.new ≡ F.layout_ground follower.old }
{
    for callback in told {
        ask_of_span(
            alloc, round, callback, text, shelf, follower, spent, log, steps,
        )?;
    }
    Ok(())
}

// Tells a watcher of a span, and does what it answers.
#[cycle(rounds)]
fn ask_of_span<S: Shelf, F: Follower, L: Ledger>(
    alloc: Global,
    round: &Round<'_>,
    callback: &SpanCallback,
    text: &mut SpannedText,
    shelf: &mut S,
    follower: &mut F,
    spent: &mut u32,
    log: &mut Log,
    steps: &mut Steps<L>,
) -> Result<(), NoMemory>
    requires callback { IsCallback (slot_count round.now) callback.now.event.depth callback.now }
    requires depth { callback.now.event.depth ≤ round.now.depth }
    requires ready { MayRun round.now.slots.now.items text.old.state (S.minds shelf.old) spent.old }
    requires limit { round.now.depth ≤ Limits.DEPTH }
    requires followed { F.follows follower.old text.old.state }
    ensures ok { OnOk result (Led (TakesLast F.takes) (setup_of round.now) (tell_span callback.now.slot callback.now.event ∷ []) []
        (stands text.old.state (S.minds shelf.old) log.old.items spent.old)
        (stands text.new.state (S.minds shelf.new) log.new.items spent.new)
        (follower.old, text.old.effect) (follower.new, text.new.effect)) }
    ensures err { OnErr result (Passed (setup_of round.now) (tell_span callback.now.slot callback.now.event ∷ [])
        (stands text.old.state (S.minds shelf.old) log.old.items spent.old)
        (stands text.new.state (S.minds shelf.new) log.new.items spent.new)) }
    ensures ready { MayRun round.now.slots.now.items text.new.state (S.minds shelf.new) spent.new }
    ensures followed { OnOk result (F.follows follower.new text.new.state) }
    ensures layout_ground { F.layout_ground follower.new ≡ F.layout_ground follower.old }
{
    let answer = tell_span(round, callback, text, shelf, log)?;
    do_answer(
        alloc,
        round,
        &answer,
        callback.event.depth + 1,
        text,
        shelf,
        follower,
        spent,
        log,
        steps,
    )
}

// Does the edits of an answer, until one is barred.
#[cycle(rounds)]
fn do_answer<S: Shelf, F: Follower, L: Ledger>(
    alloc: Global,
    round: &Round<'_>,
    answer: &Answer,
    depth: u32,
    text: &mut SpannedText,
    shelf: &mut S,
    follower: &mut F,
    spent: &mut u32,
    log: &mut Log,
    steps: &mut Steps<L>,
) -> Result<(), NoMemory>
    requires depth { depth ≤ round.now.depth + 1 }
    requires nested { 0 < depth }
    requires ready { MayRun round.now.slots.now.items text.old.state (S.minds shelf.old) spent.old }
    requires limit { round.now.depth ≤ Limits.DEPTH }
    requires followed { F.follows follower.old text.old.state }
    ensures ok { OnOk result (Led (TakesLast F.takes) (setup_of round.now) (rest_of answer.now.items depth) []
        (stands text.old.state (S.minds shelf.old) log.old.items spent.old)
        (stands text.new.state (S.minds shelf.new) log.new.items spent.new)
        (follower.old, text.old.effect) (follower.new, text.new.effect)) }
    ensures err { OnErr result (Passed (setup_of round.now) (rest_of answer.now.items depth)
        (stands text.old.state (S.minds shelf.old) log.old.items spent.old)
        (stands text.new.state (S.minds shelf.new) log.new.items spent.new)) }
    ensures ready { MayRun round.now.slots.now.items text.new.state (S.minds shelf.new) spent.new }
    ensures followed { OnOk result (F.follows follower.new text.new.state) }
    ensures layout_ground { F.layout_ground follower.new ≡ F.layout_ground follower.old }
{
    for edit in answer.as_slice() {
        if !do_edit(
            alloc, round, edit, depth, text, shelf, follower, spent, log, steps,
        )? {
            return Ok(());
        }
    }
    Ok(())
}

// Does one edit of an answer, unless it is barred: then it is logged, and nothing of the answer is left.
#[cycle(rounds)]
fn do_edit<S: Shelf, F: Follower, L: Ledger>(
    alloc: Global,
    round: &Round<'_>,
    edit: &Edit,
    depth: u32,
    text: &mut SpannedText,
    shelf: &mut S,
    follower: &mut F,
    spent: &mut u32,
    log: &mut Log,
    steps: &mut Steps<L>,
) -> Result<bool, NoMemory>
    requires depth { depth ≤ round.now.depth + 1 }
    requires nested { 0 < depth }
    requires ready { MayRun round.now.slots.now.items text.old.state (S.minds shelf.old) spent.old }
    requires limit { round.now.depth ≤ Limits.DEPTH }
    requires followed { F.follows follower.old text.old.state }
    ensures ok { (others : List AnswerEdit) → IfOk result (λ more. Led (TakesLast F.takes) (setup_of round.now)
        (do_rest edit.now others depth ∷ []) (if more then rest_of others depth else [])
        (stands text.old.state (S.minds shelf.old) log.old.items spent.old)
        (stands text.new.state (S.minds shelf.new) log.new.items spent.new)
        (follower.old, text.old.effect) (follower.new, text.new.effect)) }
    ensures err { (others : List AnswerEdit) → OnErr result (Passed (setup_of round.now) (do_rest edit.now others depth ∷ [])
        (stands text.old.state (S.minds shelf.old) log.old.items spent.old)
        (stands text.new.state (S.minds shelf.new) log.new.items spent.new)) }
    ensures ready { MayRun round.now.slots.now.items text.new.state (S.minds shelf.new) spent.new }
    ensures followed { OnOk result (F.follows follower.new text.new.state) }
    ensures layout_ground { F.layout_ground follower.new ≡ F.layout_ground follower.old }
{
    let step = resolve_edit(alloc, edit)?;
    if is_barred(round.depth, depth, *spent) {
        log_barred(round, &step, depth, *spent, log)?;
        return Ok(false);
    }
    let judged = judge_and_log(alloc, round, &step, depth, *spent, text, log)?;
    *spent += 1;
    set_off(
        alloc, round, &judged, depth, text, shelf, follower, spent, log, steps,
    )?;
    Ok(true)
}
