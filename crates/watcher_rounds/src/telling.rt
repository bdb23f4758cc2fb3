//! What watchers are told of an edit, and the telling.

ghost use Rattle.std.specs.Prelude.{ℕ, ◌≡◌, ◌≤◌, ◌<◌, ◌+◌, ◌∷◌, [], length, map, slice_index_or, OnOk, OnErr, IfOk};
ghost use Rattle.std.specs.List.{All};
ghost use Rattle.edit_base.specs.declared.verdicts.Verdict.TheVariants.{Done};
ghost use Rattle.edit_model.specs.Verdicts.{judged};
ghost use Rattle.edit_model.specs.Events.{IsCallback, no_text_event, text_event};
ghost use Rattle.edit_model.specs.Minds.{IsTold, blank_mind, answer_after};
ghost use Rattle.edit_model.specs.Fitting.{IsFittingStep};
ghost use Rattle.edit_model.specs.Machine.{tell_before, tell_changed, tell_after, tell_span, rest_of, mind_in};
ghost use Rattle.watcher_rounds.specs.Rounds.{setup_of, slot_count, stands, AreOnShelf, Tells, Passed};

use crate::round::{Log, Round};
use crate::shelf::Shelf;
use edit_base::{Limits, NoMemory};
use edit_model::{LogEntry, SpanCallback, Step, TextEvent};
use replace_engine::SpannedText;
use span_flags::place_of;
use watcher_api::Answer;

/// What they are told of an edit that is done.
#[tactic(auto, unfolding(edit_model::specs::Events::text_event))]
pub fn event_of(step: &Step, depth: u32, slots: u8, text: &SpannedText) -> TextEvent
    requires { judged text.now.state slots step.now ≡ Done }
    ensures event { result ≡ text_event depth step.now }
    ensures depth { result.depth ≡ depth }
    ensures told { IsTold result }
{
    prove!(text.len() <= Limits::TEXT);
    match step {
        Step::Replace {
            start,
            end,
            incoming,
        } => TextEvent {
            depth,
            start: place_of(*start),
            before: place_of(*end) - place_of(*start),
            after: incoming.units.len() as u32,
        },
        Step::Set { .. } => no_text_event(depth),
        Step::Remove { .. } => no_text_event(depth),
        Step::Select { .. } => no_text_event(depth),
        Step::Deselect => no_text_event(depth),
        Step::Drop => no_text_event(depth),
        Step::Mark { .. } => no_text_event(depth),
    }
}

// Of an edit of spans alone nobody is told as of a text's.
fn no_text_event(depth: u32) -> TextEvent
    ensures { result ≡ no_text_event depth }
{
    TextEvent {
        depth,
        start: 0,
        before: 0,
        after: 0,
    }
}

/// Tells each that the change will be made.
pub fn tell_all_before<S: Shelf>(
    round: &Round<'_>,
    slots: &[u8],
    event: &TextEvent,
    text: &SpannedText,
    shelf: &mut S,
    log: &mut Log,
) -> Result<(), NoMemory>
    requires slots { All (λ slot. slot < slot_count round.now) slots.now }
    requires shelf { AreOnShelf round.now.slots.now.items (S.minds shelf.old) }
    requires event { IsTold event.now }
    ensures ok { (begun : ℕ) → OnOk result (Tells (setup_of round.now)
        (map (λ slot. tell_before slot event.now) slots.now) []
        (stands text.now.state (S.minds shelf.old) log.old.items begun)
        (stands text.now.state (S.minds shelf.new) log.new.items begun)) }
    ensures err { (begun : ℕ) → OnErr result (Passed (setup_of round.now)
        (map (λ slot. tell_before slot event.now) slots.now)
        (stands text.now.state (S.minds shelf.old) log.old.items begun)
        (stands text.now.state (S.minds shelf.new) log.new.items begun)) }
    ensures shelf { AreOnShelf round.now.slots.now.items (S.minds shelf.new) }
{
    for slot in slots {
        tell_before(round, *slot, event, text, shelf, log)?;
    }
    Ok(())
}

/// Tells each that the change was made.
pub fn tell_all_changed<S: Shelf>(
    round: &Round<'_>,
    slots: &[u8],
    event: &TextEvent,
    text: &SpannedText,
    shelf: &mut S,
    log: &mut Log,
) -> Result<(), NoMemory>
    requires slots { All (λ slot. slot < slot_count round.now) slots.now }
    requires shelf { AreOnShelf round.now.slots.now.items (S.minds shelf.old) }
    requires event { IsTold event.now }
    ensures ok { (begun : ℕ) → OnOk result (Tells (setup_of round.now)
        (map (λ slot. tell_changed slot event.now) slots.now) []
        (stands text.now.state (S.minds shelf.old) log.old.items begun)
        (stands text.now.state (S.minds shelf.new) log.new.items begun)) }
    ensures err { (begun : ℕ) → OnErr result (Passed (setup_of round.now)
        (map (λ slot. tell_changed slot event.now) slots.now)
        (stands text.now.state (S.minds shelf.old) log.old.items begun)
        (stands text.now.state (S.minds shelf.new) log.new.items begun)) }
    ensures shelf { AreOnShelf round.now.slots.now.items (S.minds shelf.new) }
{
    for slot in slots {
        tell_changed(round, *slot, event, text, shelf, log)?;
    }
    Ok(())
}

// Tells the watcher in a slot that the change will be made.
fn tell_before<S: Shelf>(
    round: &Round<'_>,
    slot: u8,
    event: &TextEvent,
    text: &SpannedText,
    shelf: &mut S,
    log: &mut Log,
) -> Result<(), NoMemory>
    requires slot { slot < slot_count round.now }
    requires shelf { AreOnShelf round.now.slots.now.items (S.minds shelf.old) }
    requires event { IsTold event.now }
    ensures ok { (begun : ℕ) → OnOk result (Tells (setup_of round.now) (tell_before slot event.now ∷ []) []
        (stands text.now.state (S.minds shelf.old) log.old.items begun)
        (stands text.now.state (S.minds shelf.new) log.new.items begun)) }
    ensures err { OnErr result ((S.minds shelf.new ≡ S.minds shelf.old) × (log.new.items ≡ log.old.items)) }
    ensures shelf { AreOnShelf round.now.slots.now.items (S.minds shelf.new) }
{
    log.push(LogEntry::Before {
        slot,
        event: *event,
    })?;
    let (left, right) = text.halves();
    shelf.before(round.slots[slot as usize], event, left, right);
    Ok(())
}

// Tells the watcher in a slot that the change was made.
fn tell_changed<S: Shelf>(
    round: &Round<'_>,
    slot: u8,
    event: &TextEvent,
    text: &SpannedText,
    shelf: &mut S,
    log: &mut Log,
) -> Result<(), NoMemory>
    requires slot { slot < slot_count round.now }
    requires shelf { AreOnShelf round.now.slots.now.items (S.minds shelf.old) }
    requires event { IsTold event.now }
    ensures ok { (begun : ℕ) → OnOk result (Tells (setup_of round.now) (tell_changed slot event.now ∷ []) []
        (stands text.now.state (S.minds shelf.old) log.old.items begun)
        (stands text.now.state (S.minds shelf.new) log.new.items begun)) }
    ensures err { OnErr result ((S.minds shelf.new ≡ S.minds shelf.old) × (log.new.items ≡ log.old.items)) }
    ensures shelf { AreOnShelf round.now.slots.now.items (S.minds shelf.new) }
{
    log.push(LogEntry::Changed {
        slot,
        event: *event,
    })?;
    let (left, right) = text.halves();
    shelf.changed(round.slots[slot as usize], event, left, right);
    Ok(())
}

/// Tells the watcher in a slot of a change that all were told of, and takes its answer.
pub fn tell_after<S: Shelf>(
    round: &Round<'_>,
    slot: u8,
    event: &TextEvent,
    text: &SpannedText,
    shelf: &mut S,
    log: &mut Log,
) -> Result<Answer, NoMemory>
    requires slot { slot < slot_count round.now }
    requires shelf { AreOnShelf round.now.slots.now.items (S.minds shelf.old) }
    requires event { IsTold event.now }
    ensures ok { (begun : ℕ) → IfOk result (λ answer. Tells (setup_of round.now)
        (tell_after slot event.now ∷ []) (rest_of answer.items (event.now.depth + 1))
        (stands text.now.state (S.minds shelf.old) log.old.items begun)
        (stands text.now.state (S.minds shelf.new) log.new.items begun)) }
    ensures err { OnErr result ((S.minds shelf.new ≡ S.minds shelf.old) × (log.new.items ≡ log.old.items)) }
    ensures shelf { AreOnShelf round.now.slots.now.items (S.minds shelf.new) }
{
    log.push(LogEntry::After {
        slot,
        event: *event,
    })?;
    let (left, right) = text.halves();
    Ok(shelf.after(round.slots[slot as usize], event, left, right))
}

/// Tells a watcher of a span that an edit added, moved or removed, and takes its answer.
pub fn tell_span<S: Shelf>(
    round: &Round<'_>,
    callback: &SpanCallback,
    text: &SpannedText,
    shelf: &mut S,
    log: &mut Log,
) -> Result<Answer, NoMemory>
    requires callback { IsCallback (slot_count round.now) callback.now.event.depth callback.now }
    requires shelf { AreOnShelf round.now.slots.now.items (S.minds shelf.old) }
    ensures ok { (begun : ℕ) → IfOk result (λ answer. Tells (setup_of round.now)
        (tell_span callback.now.slot callback.now.event ∷ []) (rest_of answer.items (callback.now.event.depth + 1))
        (stands text.now.state (S.minds shelf.old) log.old.items begun)
        (stands text.now.state (S.minds shelf.new) log.new.items begun)) }
    ensures err { OnErr result ((S.minds shelf.new ≡ S.minds shelf.old) × (log.new.items ≡ log.old.items)) }
    ensures shelf { AreOnShelf round.now.slots.now.items (S.minds shelf.new) }
{
    log.push(LogEntry::Span {
        slot: callback.slot,
        event: callback.event,
    })?;
    let (left, right) = text.halves();
    Ok(shelf.span(
        round.slots[callback.slot as usize],
        &callback.event,
        left,
        right,
    ))
}
