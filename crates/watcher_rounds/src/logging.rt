//! What is logged of an edit.

ghost use Rattle.std.specs.Prelude.{◌≡◌, ◌++◌, [], ◌∷◌, true, false, OnOk, OnErr, IfOk};
ghost use Rattle.edit_model.specs.State.{State};
ghost use Rattle.edit_model.specs.Verdicts.{judged};
ghost use Rattle.edit_model.specs.Log.{entry_of};
ghost use Rattle.edit_model.specs.Fitting.{IsFittingStep};
ghost use Rattle.edit_model.specs.Laws.{BringsOrdered};
ghost use Rattle.edit_model.specs.Machine.{is_barred, as_brought, edit_entry};
ghost use Rattle.watcher_rounds.specs.Rounds.{setup_of, slot_count};

use crate::judging::{barring, judge};
use crate::resolving::bring;
use crate::round::{Log, Round};
use edit_base::{NoMemory, Verdict};
use edit_model::{LogEntry, Logged, Step};
use replace_engine::SpannedText;
use std::alloc::Global;

/// An edit that was judged and logged: its verdict, and the edit with its text filtered.
#[derive(Drop)]
pub struct Judged {
    pub verdict: Verdict,
    pub brought: Step,
}

/// Judges and logs an edit that may begin. Without memory nothing is logged.
#[tactic(auto, unfolding(edit_model::specs::Machine::edit_entry))]
pub fn judge_and_log(
    alloc: Global,
    round: &Round<'_>,
    step: &Step,
    depth: u32,
    begun: u32,
    text: &SpannedText,
    log: &mut Log,
) -> Result<Judged, NoMemory>
    requires begins { is_barred round.now.depth depth begun ≡ false }
    requires fitting { IsFittingStep step.now }
    requires ordered { BringsOrdered text.now.state step.now }
    ensures brought { IfOk result (λ it. it.brought ≡ as_brought (setup_of round.now) step.now text.now.state) }
    ensures verdict { IfOk result (λ it. it.verdict ≡ judged text.now.state (slot_count round.now) it.brought) }
    ensures fitting { IfOk result (λ it. IsFittingStep it.brought) }
    ensures ordered { IfOk result (λ it. BringsOrdered text.now.state it.brought) }
    ensures log { OnOk result (log.new.items
        ≡ log.old.items ++ edit_entry (setup_of round.now) depth step.now text.now.state begun ∷ []) }
    ensures err { OnErr result (log.new.items ≡ log.old.items) }
{
    let brought = bring(alloc, round.filters, step, text)?;
    let logged = judge(&brought, round.slots.len() as u8, text);
    log.push(entry_of(depth, step, logged))?;
    Ok(Judged {
        verdict: logged.verdict,
        brought,
    })
}

/// Logs an edit that is barred. Without memory nothing is logged.
#[tactic(auto, unfolding(edit_model::specs::Machine::edit_entry))]
pub fn log_barred(
    round: &Round<'_>,
    step: &Step,
    depth: u32,
    begun: u32,
    log: &mut Log,
) -> Result<(), NoMemory>
    requires barred { is_barred round.now.depth depth begun ≡ true }
    requires fitting { IsFittingStep step.now }
    ensures log { (state : State) → OnOk result (log.new.items
        ≡ log.old.items ++ edit_entry (setup_of round.now) depth step.now state begun ∷ []) }
    ensures err { OnErr result (log.new.items ≡ log.old.items) }
{
    let entry = entry_of(depth, step, barring(round.depth, depth, begun));
    log.push(entry)?;
    Ok(())
}

// The entry of an edit as it was asked for, with what became of it.
fn entry_of(depth: u32, step: &Step, logged: Logged) -> LogEntry
    requires { IsFittingStep step.now }
    ensures { result ≡ entry_of depth step.now logged }
{
    match step {
        Step::Replace {
            start,
            end,
            incoming,
        } => LogEntry::Replace {
            depth,
            start: i64::from(*start),
            end: i64::from(*end),
            units: incoming.units.len() as u32,
            logged,
        },
        Step::Set {
            id,
            start,
            end,
            flags,
            ..
        } => LogEntry::Set {
            depth,
            id: *id,
            start: i64::from(*start),
            end: i64::from(*end),
            flags: *flags,
            logged,
        },
        Step::Remove { id } => LogEntry::Remove {
            depth,
            id: *id,
            logged,
        },
        Step::Select { start, end } => LogEntry::Select {
            depth,
            start: i64::from(*start),
            end: i64::from(*end),
            logged,
        },
        Step::Deselect => LogEntry::Deselect { depth, logged },
        Step::Drop => LogEntry::Drop { depth, logged },
        Step::Mark { start, end } => LogEntry::Mark {
            depth,
            start: i64::from(*start),
            end: i64::from(*end),
            logged,
        },
    }
}
