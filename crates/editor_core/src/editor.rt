//! The editor: what it keeps between commands, and its calls.
#![tactic(auto, using(crate::proofs::Appending::appending))]

ghost use Rattle.settings_reader.specs.Seen.{as_settings};
ghost use Rattle.std.specs.Prelude.{◌≡◌, ◌≤◌, ◌++◌, [], length, map, true, false, IsErr, IfOk, OnOk, OnErr};
ghost use Rattle.std.specs.List.{All};
ghost use Rattle.edit_base.specs.declared.bounds.TheConstants.Limits.{DEPTH};
ghost use Rattle.edit_model.specs.Fitting.{IsFittingItem};
ghost use Rattle.trace_model.specs.Items.{items_of, items_in};
ghost use Rattle.edit_model.specs.Outcome.{outcomes};
ghost use Rattle.trace_model.specs.Report.{nesting_behind, last_report};
ghost use Rattle.trace_model.specs.Reading.{IsFitting};
ghost use Rattle.trace_model.specs.Printed.{end_block};
ghost use Rattle.trace_model.specs.Output.{setup, log_lines, reply_lines, report_lines, command_bytes, session_behind};
ghost use Rattle.watcher_rounds.specs.Rounds.{AreOnShelf};
ghost use Rattle.reply_text.specs.Appended.{Extends};
ghost use Rattle.edit_model.specs.Machine.{scene_at};
ghost use Rattle.editor_core.specs.Editors.{Editing, fresh, spent, session_with, FindsNoSpan, IsIdle, HaveTurns, ComesBy, StoodBy};

use crate::end_block::print_end;
use crate::planning::{items_in, plan};
use crate::queries::{print_next_edge, print_spans_over};
use crate::replies::{
    print_after, print_before, print_planned, print_report, print_selected, print_verdict,
};
use crate::running::{print_log, run_items};
use edit_base::{NoMemory, SpanRow, Steps};
use edit_model::Planned;
use input_link::Link;
use replace_engine::SpannedText;
use reply_text::print_header;
use settings_reader::Settings;
use std::alloc::Global;
use std::marker::Model;
use std::sync::ledger::Ledger;
use trace_model::Command;
use trace_words::op_name;
use watcher_api::{Slots, Watcher};
use watcher_rounds::Log;

/// A text with its spans and its connection, under settings and with watchers. Once a call of it has answered
/// `NoMemory`, each later one does.
#[derive(Drop)]
pub struct Editor {
    alloc: Global,
    settings: Settings,
    slots: Slots,
    text: SpannedText,
    link: Link,
    /// Lists that every command reuses: for the rows that a query finds, and for what is logged of items.
    rows: Vec<SpanRow>,
    log: Log,
    is_spent: bool,
}

impl Model for Editor {
    ghost use Rattle.std.specs.Prelude.{◌≤◌, length};
    ghost use Rattle.edit_base.specs.declared.bounds.TheConstants.Limits.{DEPTH};
    ghost use Rattle.edit_model.specs.WellFormed.{IsSeated};
    ghost use Rattle.trace_model.specs.Output.{setup};
    ghost use Rattle.settings_reader.specs.Seen.{as_settings};
    ghost use Rattle.editor_core.specs.Editors.{Editing};

    ghost Value = { Editing };

    ghost view = { λ it. record {
      setup = setup (as_settings it.settings) it.slots.items;
      state = it.text.state;
      nesting = it.link.nesting;
      last = it.link.last;
      is_spent = it.is_spent;
    } };

    ghost invariant = { λ it. (it.settings.depth ≤ DEPTH) × IsSeated (length it.slots.items) it.text.state.spans };
}

/// How much an editor holds.
#[derive(Clone, Copy, Debug, PartialEq, Eq)]
pub struct Summary {
    /// The length of the text in units.
    pub length: u32,
    /// How many spans are attached.
    pub spans: u32,
}

impl Editor {
    /// An empty text without spans, under these settings and with the watchers in these slots.
    pub fn new(alloc: Global, settings: Settings, slots: Slots) -> Result<Editor, NoMemory>
        requires { settings.depth ≤ DEPTH }
        ensures { IfOk result (λ editor. editor ≡ fresh (setup (as_settings settings) slots.items)) }
    {
        Ok(Editor {
            alloc,
            settings,
            slots,
            text: SpannedText::new(alloc)?,
            link: Link::new(),
            rows: Vec::new(alloc),
            log: Vec::new(alloc),
            is_spent: false,
        })
    }

    /// Runs a command with the watchers of the shelf that stand in the slots, and appends its output: its header with
    /// this number, what is logged of its items, its reply and a report. Without memory `out`, the open batches and the
    /// last report are as they were, and the text and what the watchers keep are those of some step of the command.
    pub fn command<L: Ledger>(
        &mut self,
        shelf: &mut Vec<Box<dyn Watcher>>,
        number: u32,
        command: &Command,
        out: &mut Vec<u8>,
        steps: &mut Steps<L>,
    ) -> Result<(), NoMemory>
        requires fitting { IsFitting command.now }
        requires slots { AreOnShelf self.old.setup.slots (map (λ b. mind b) shelf.old.items) }
        ensures bytes { OnOk result (out.new.items ≡ out.old.items ++ command_bytes self.old.setup number
            (session_with self.old (map (λ b. mind b) shelf.old.items)) command.now) }
        ensures session { OnOk result (session_with self.new (map (λ b. mind b) shelf.new.items)
            ≡ session_behind self.old.setup (session_with self.old (map (λ b. mind b) shelf.old.items)) command.now) }
        ensures whole { OnOk result (self.new.is_spent ≡ false) }
        ensures unprinted { OnErr result (out.new.items ≡ out.old.items) }
        ensures nesting { OnErr result (self.new.nesting ≡ self.old.nesting) }
        ensures last { OnErr result (self.new.last ≡ self.old.last) }
        ensures spent { OnErr result (self.new.is_spent ≡ true) }
        ensures within { StoodBy self.old.setup command.now (session_with self.old (map (λ b. mind b) shelf.old.items))
            self.new.state (map (λ b. mind b) shelf.new.items) }
        ensures idle { IsIdle self.old.state command.now → steps.new ≡ steps.old }
        ensures still { self.old.is_spent ≡ true → IsErr result × (self.new ≡ self.old)
            × (map (λ b. mind b) shelf.new.items ≡ map (λ b. mind b) shelf.old.items) × (out.new.items ≡ out.old.items) }
        ensures setup { self.new.setup ≡ self.old.setup }
        ensures slots { AreOnShelf self.new.setup.slots (map (λ b. mind b) shelf.new.items) }
    {
        if self.is_spent {
            return Err(NoMemory);
        }
        let (link, printed) = (self.link, out.len());
        match self.perform(shelf, number, command, out, steps) {
            Ok(()) => Ok(()),
            Err(NoMemory) => {
                self.link = link;
                self.is_spent = true;
                out.truncate(printed);
                Err(NoMemory)
            }
        }
    }

    // Runs a command that finds memory, or doesn't and leaves it to the caller to say so and to take back what it
    // printed. A reply is one to the text as it stands before the items: a command that has items has no reply.
    fn perform<L: Ledger>(
        &mut self,
        shelf: &mut Vec<Box<dyn Watcher>>,
        number: u32,
        command: &Command,
        out: &mut Vec<u8>,
        steps: &mut Steps<L>,
    ) -> Result<(), NoMemory>
        requires fitting { IsFitting command.now }
        requires slots { AreOnShelf self.old.setup.slots (map (λ b. mind b) shelf.old.items) }
        ensures bytes { OnOk result (out.new.items ≡ out.old.items ++ command_bytes self.old.setup number
            (session_with self.old (map (λ b. mind b) shelf.old.items)) command.now) }
        ensures session { OnOk result (session_with self.new (map (λ b. mind b) shelf.new.items)
            ≡ session_behind self.old.setup (session_with self.old (map (λ b. mind b) shelf.old.items)) command.now) }
        ensures prefix { OnErr result (Extends out.old.items out.new.items) }
        ensures within { StoodBy self.old.setup command.now (session_with self.old (map (λ b. mind b) shelf.old.items))
            self.new.state (map (λ b. mind b) shelf.new.items) }
        ensures idle { IsIdle self.old.state command.now → steps.new ≡ steps.old }
        ensures setup { self.new.setup ≡ self.old.setup }
        ensures is_spent { self.new.is_spent ≡ self.old.is_spent }
        ensures slots { AreOnShelf self.new.setup.slots (map (λ b. mind b) shelf.new.items) }
    {
        print_header(number, op_name(command.op()), out)?;
        let planned = plan(self.alloc, &self.text, command)?;
        self.reply(command, &planned, out, steps)?;
        self.run(&planned, shelf, out, steps)?;
        self.report(out)?;
        Ok(())
    }

    // Prints what is answered to a command; a batch begins or ends.
    #[tactic(auto, using(crate::proofs::Appending::appending), unfolding(trace_model::specs::Output::reply_lines, trace_model::specs::Report::nesting_behind))]
    fn reply<L: Ledger>(
        &mut self,
        command: &Command,
        planned: &Planned,
        out: &mut Vec<u8>,
        steps: &mut Steps<L>,
    ) -> Result<(), NoMemory>
        requires { planned.now ≡ items_of self.old.state command.now }
        ensures bytes { OnOk result (out.new.items
            ≡ out.old.items ++ reply_lines self.old.state self.old.nesting command.now) }
        ensures prefix { OnErr result (Extends out.old.items out.new.items) }
        ensures nesting { self.new.nesting ≡ nesting_behind self.old.nesting command.now }
        ensures idle { FindsNoSpan self.old.state command.now → steps.new ≡ steps.old }
        ensures state { self.new.state ≡ self.old.state }
        ensures last { self.new.last ≡ self.old.last }
        ensures setup { self.new.setup ≡ self.old.setup }
        ensures is_spent { self.new.is_spent ≡ self.old.is_spent }
    {
        let text = &self.text;
        match command {
            Command::SpansOver { start, end } => {
                print_spans_over(*start, *end, text, &mut self.rows, out, steps)
            }
            Command::NextEdge { start, limit } => print_next_edge(*start, *limit, text, out),
            Command::TextBefore { count } => print_before(self.alloc, *count, text, out),
            Command::TextAfter { count } => print_after(self.alloc, *count, text, out),
            Command::Selected => print_selected(self.alloc, text, out),
            Command::Begin => print_verdict(self.link.begin(), out),
            Command::End => print_verdict(self.link.end(), out),
            _ => print_planned(planned, out),
        }
    }

    // Runs the items, and prints what is logged of them.
    fn run<L: Ledger>(
        &mut self,
        planned: &Planned,
        shelf: &mut Vec<Box<dyn Watcher>>,
        out: &mut Vec<u8>,
        steps: &mut Steps<L>,
    ) -> Result<(), NoMemory>
        requires fitting { All IsFittingItem (items_in planned.now) }
        requires turns { HaveTurns self.old.setup (items_in planned.now) (scene_at self.old.state (map (λ b. mind b) shelf.old.items)) }
        requires slots { AreOnShelf self.old.setup.slots (map (λ b. mind b) shelf.old.items) }
        ensures bytes { OnOk result (out.new.items ≡ out.old.items ++ log_lines (outcomes self.old.setup (items_in planned.now)
            (scene_at self.old.state (map (λ b. mind b) shelf.old.items)))) }
        ensures text { OnOk result (self.new.state ≡ (outcomes self.old.setup (items_in planned.now)
            (scene_at self.old.state (map (λ b. mind b) shelf.old.items))).state) }
        ensures minds { OnOk result (map (λ b. mind b) shelf.new.items ≡ (outcomes self.old.setup (items_in planned.now)
            (scene_at self.old.state (map (λ b. mind b) shelf.old.items))).minds) }
        ensures prefix { OnErr result (Extends out.old.items out.new.items) }
        ensures within { ComesBy self.old.setup (items_in planned.now) (scene_at self.old.state (map (λ b. mind b) shelf.old.items))
            self.new.state (map (λ b. mind b) shelf.new.items) }
        ensures idle { items_in planned.now ≡ [] → steps.new ≡ steps.old }
        ensures nesting { self.new.nesting ≡ self.old.nesting }
        ensures last { self.new.last ≡ self.old.last }
        ensures setup { self.new.setup ≡ self.old.setup }
        ensures is_spent { self.new.is_spent ≡ self.old.is_spent }
        ensures slots { AreOnShelf self.new.setup.slots (map (λ b. mind b) shelf.new.items) }
    {
        self.log.clear();
        run_items(
            self.alloc,
            &self.settings,
            &self.slots,
            items_in(planned),
            &mut self.text,
            shelf,
            &mut self.log,
            steps,
        )?;
        print_log(self.log.as_slice(), out)
    }

    // Prints the report behind a command, where one is made.
    fn report(&mut self, out: &mut Vec<u8>) -> Result<(), NoMemory>
        ensures bytes { OnOk result (out.new.items
            ≡ out.old.items ++ report_lines self.old.state self.old.nesting self.old.last) }
        ensures prefix { OnErr result (Extends out.old.items out.new.items) }
        ensures last { self.new.last ≡ last_report self.old.state self.old.nesting self.old.last }
        ensures state { self.new.state ≡ self.old.state }
        ensures nesting { self.new.nesting ≡ self.old.nesting }
        ensures setup { self.new.setup ≡ self.old.setup }
        ensures is_spent { self.new.is_spent ≡ self.old.is_spent }
    {
        print_report(self.link.report(&self.text), out)
    }

    /// Appends the end block. Without memory `out` is as it was.
    pub fn finish(&mut self, out: &mut Vec<u8>) -> Result<(), NoMemory>
        ensures bytes { OnOk result (out.new.items ≡ out.old.items ++ end_block self.old.state) }
        ensures kept { OnOk result (self.new ≡ self.old) }
        ensures unprinted { OnErr result (out.new.items ≡ out.old.items) }
        ensures spent { OnErr result (self.new ≡ spent self.old) }
        ensures still { self.old.is_spent ≡ true → IsErr result × (out.new.items ≡ out.old.items) }
    {
        if self.is_spent {
            return Err(NoMemory);
        }
        let printed = out.len();
        match print_end(&self.text, out) {
            Ok(()) => Ok(()),
            Err(NoMemory) => {
                self.is_spent = true;
                out.truncate(printed);
                Err(NoMemory)
            }
        }
    }

    /// How much it holds, where no call of it has answered `NoMemory`.
    pub fn summary(&self) -> Summary
        requires { self.now.is_spent ≡ false }
        ensures length { result.length ≡ length self.now.state.units }
        ensures spans { result.spans ≡ length self.now.state.spans }
    {
        Summary {
            length: self.text.len(),
            spans: self.text.span_count(),
        }
    }
}
