//! The items of a command, run one behind the other, and what is logged of them.
#![tactic(auto, using(crate::proofs::Appending::appending))]

ghost use Rattle.settings_reader.specs.Seen.{as_settings};
ghost use Rattle.std.specs.Prelude.{◌≡◌, ◌≤◌, ◌++◌, [], length, map, OnOk, OnErr};
ghost use Rattle.std.specs.List.{All, flat_map};
ghost use Rattle.edit_base.specs.declared.bounds.TheConstants.Limits.{DEPTH};
ghost use Rattle.edit_model.specs.Fitting.{IsFittingItem};
ghost use Rattle.edit_model.specs.WellFormed.{IsSeated};
ghost use Rattle.edit_model.specs.Outcome.{outcomes};
ghost use Rattle.trace_model.specs.Printed.{entry_line};
ghost use Rattle.trace_model.specs.Output.{setup};
ghost use Rattle.watcher_rounds.specs.Rounds.{AreOnShelf};
ghost use Rattle.reply_text.specs.Appended.{Extends};
ghost use Rattle.edit_model.specs.Machine.{scene_at};
ghost use Rattle.editor_core.specs.Editors.{HaveTurns, ComesBy};

use edit_base::{NoMemory, Steps};
use edit_model::{Item, LogEntry};
use replace_engine::{SpannedText, Unfollowed};
use reply_text::print_entry;
use settings_reader::Settings;
use std::alloc::Global;
use std::sync::ledger::Ledger;
use watcher_api::{Slots, Watcher};
use watcher_rounds::{Log, apply};

/// Runs items with all their callbacks and nested edits, which are counted together, on an empty log.
pub fn run_items<L: Ledger>(
    alloc: Global,
    settings: &Settings,
    slots: &Slots,
    items: &[Item],
    text: &mut SpannedText,
    shelf: &mut Vec<Box<dyn Watcher>>,
    log: &mut Log,
    steps: &mut Steps<L>,
) -> Result<(), NoMemory>
    requires fitting { All IsFittingItem items.now }
    requires turns { HaveTurns (setup (as_settings settings.now) slots.now.items) items.now
        (scene_at text.old.state (map (λ b. mind b) shelf.old.items)) }
    requires depth { settings.now.depth ≤ DEPTH }
    requires slots { AreOnShelf slots.now.items (map (λ b. mind b) shelf.old.items) }
    requires seats { IsSeated (length slots.now.items) text.old.state.spans }
    requires empty { log.old.items ≡ [] }
    ensures state { OnOk result (text.new.state ≡ (outcomes (setup (as_settings settings.now) slots.now.items) items.now
        (scene_at text.old.state (map (λ b. mind b) shelf.old.items))).state) }
    ensures minds { OnOk result (map (λ b. mind b) shelf.new.items
        ≡ (outcomes (setup (as_settings settings.now) slots.now.items) items.now
        (scene_at text.old.state (map (λ b. mind b) shelf.old.items))).minds) }
    ensures log { OnOk result (log.new.items ≡ (outcomes (setup (as_settings settings.now) slots.now.items) items.now
        (scene_at text.old.state (map (λ b. mind b) shelf.old.items))).log) }
    ensures within { ComesBy (setup (as_settings settings.now) slots.now.items) items.now
        (scene_at text.old.state (map (λ b. mind b) shelf.old.items)) text.new.state (map (λ b. mind b) shelf.new.items) }
    ensures idle { items.now ≡ [] → steps.new ≡ steps.old }
    ensures slots { AreOnShelf slots.now.items (map (λ b. mind b) shelf.new.items) }
    ensures seats { IsSeated (length slots.now.items) text.new.state.spans }
{
    let mut spent = 0;
    for item in items {
        apply(
            alloc,
            text,
            settings.filters.as_slice(),
            shelf,
            slots,
            &mut Unfollowed,
            item,
            settings.depth,
            &mut spent,
            log,
            steps,
        )?;
    }
    Ok(())
}

/// Prints a line for each entry.
pub fn print_log(log: &[LogEntry], out: &mut Vec<u8>) -> Result<(), NoMemory>
    ensures ok { OnOk result (out.new.items ≡ out.old.items ++ flat_map entry_line log.now) }
    ensures err { OnErr result (Extends out.old.items out.new.items) }
{
    for entry in log {
        print_entry(entry, out)?;
    }
    Ok(())
}
