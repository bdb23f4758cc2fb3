//! The lines of a trace, run one by one by an editor.

ghost use Rattle.std.specs.Prelude.{◌≡◌, ◌≢◌, ◌≤◌, true, false, List, Option, length, map, ℕ};
ghost use Rattle.edit_base.specs.declared.bounds.TheConstants.Limits.{TRACE_BYTES};
ghost use Rattle.edit_model.specs.Minds.{Mind};
ghost use Rattle.trace_model.specs.Reading.{IsFitting};
ghost use Rattle.trace_model.specs.Output.{command_bytes, session_behind, run_lines, ended, stopped, cut_off, too_long};
ghost use Rattle.replay_io.specs.Outside.{Rose};
ghost use Rattle.watcher_rounds.specs.Rounds.{AreOnShelf};
ghost use Rattle.editor_core.specs.Editors.{session_with};
ghost use Rattle.replay_cli.specs.Runs.{Ends};
ghost use Rattle.replay_cli.specs.Steps.{LineGives, CommandGives, close_of, lines_in};

use crate::lines::{LineKind, line_kind, next_line};
use crate::status::Status;
use edit_base::{Limits, NoMemory, Steps};
use editor_core::Editor;
use replay_io::{Sink, write_all_of};
use std::alloc::Global;
use std::sync::ledger::Ledger;
use trace_model::{Command, TraceFault};
use watcher_api::Watcher;

/// What became of a line.
#[derive(Clone, Copy, Debug, PartialEq, Eq)]
pub enum LineOutcome {
    /// The run goes on.
    Next,
    /// The run has ended.
    Stop(Status),
}

/// Runs the lines of a trace by an editor, with the watchers of the shelf that stand in its slots, or those of its first
/// bytes where more was cut off. The output of each command is written as soon as it is run, and the end block behind
/// the last one.
pub fn play_lines<K: Sink, L: Ledger>(
    alloc: Global,
    trace: &[u8],
    is_cut: bool,
    editor: &mut Editor,
    shelf: &mut Vec<Box<dyn Watcher>>,
    sink: &mut K,
    steps: &mut Steps<L>,
) -> Status
    requires within { length trace.now ≤ TRACE_BYTES }
    requires slots { AreOnShelf editor.old.setup.slots (map (λ b. mind b) shelf.old.items) }
    ensures ends { Ends (run_lines editor.old.setup (close_of is_cut trace.now) 1
        (session_with editor.old (map (λ b. mind b) shelf.old.items)) (lines_in is_cut trace.now)) result
        (K.written sink.old) (K.written sink.new) (map (λ b. mind b) shelf.new.items) }
    ensures whole { result ≡ Status.Done → is_cut ≡ false }
    ensures cut { result ≡ Status.TraceTooLong → is_cut ≡ true }
    ensures failed { result ≡ Status.WriteFault → Rose (K.faults sink.old) (K.faults sink.new) }
    ensures quiet { result ≢ Status.WriteFault → K.faults sink.new ≡ K.faults sink.old }
    ensures counts { K.faults sink.old ≤ K.faults sink.new }
{
    let mut out = Vec::new(alloc);
    let mut rest = trace;
    let mut number = 1u32;
    while let Some((line, others)) = next_line(rest, is_cut) {
        match run_line(alloc, number, line, editor, shelf, &mut out, sink, steps) {
            LineOutcome::Next => (),
            LineOutcome::Stop(status) => return status,
        }
        rest = others;
        number += 1;
    }
    if is_cut {
        stop_at(number, rest)
    } else {
        finish(editor, &mut out, sink)
    }
}

/// How a trace over its limit ends behind its lines: these bytes stand behind the last of them.
pub fn stop_at(number: u32, tail: &[u8]) -> Status
    ensures ends { (minds : List Mind) (known : Option (List ℕ))
        → Ends (stopped (cut_off tail.now too_long number) minds) result known known minds }
    ensures undone { result ≢ Status.Done }
    ensures unfailed { result ≢ Status.WriteFault }
    ensures remembered { result ≢ Status.NoMemory }
{
    if tail.len() > Limits::LINE_BYTES as usize {
        Status::TraceFault {
            line: number,
            kind: TraceFault::LineTooLong,
        }
    } else {
        Status::TraceTooLong
    }
}

/// Runs one line.
pub fn run_line<K: Sink, L: Ledger>(
    alloc: Global,
    number: u32,
    line: &[u8],
    editor: &mut Editor,
    shelf: &mut Vec<Box<dyn Watcher>>,
    out: &mut Vec<u8>,
    sink: &mut K,
    steps: &mut Steps<L>,
) -> LineOutcome
    requires slots { AreOnShelf editor.old.setup.slots (map (λ b. mind b) shelf.old.items) }
    ensures gives { LineGives editor.old.setup number
        (session_with editor.old (map (λ b. mind b) shelf.old.items)) line.now
        (session_with editor.new (map (λ b. mind b) shelf.new.items)) result (K.written sink.old) (K.written sink.new) }
    ensures slots { AreOnShelf editor.new.setup.slots (map (λ b. mind b) shelf.new.items) }
    ensures setup { editor.new.setup ≡ editor.old.setup }
    ensures undone { result ≢ LineOutcome.Stop Status.Done }
    ensures uncut { result ≢ LineOutcome.Stop Status.TraceTooLong }
    ensures failed { result ≡ LineOutcome.Stop Status.WriteFault → Rose (K.faults sink.old) (K.faults sink.new) }
    ensures quiet { result ≢ LineOutcome.Stop Status.WriteFault → K.faults sink.new ≡ K.faults sink.old }
    ensures counts { K.faults sink.old ≤ K.faults sink.new }
{
    match line_kind(alloc, line) {
        Err(NoMemory) => LineOutcome::Stop(Status::NoMemory),
        Ok(LineKind::Blank) => LineOutcome::Next,
        Ok(LineKind::Faulty(kind)) => LineOutcome::Stop(Status::TraceFault { line: number, kind }),
        Ok(LineKind::Command(command)) => {
            write_command(number, &command, editor, shelf, out, sink, steps)
        }
    }
}

// Runs a command and writes its output.
fn write_command<K: Sink, L: Ledger>(
    number: u32,
    command: &Command,
    editor: &mut Editor,
    shelf: &mut Vec<Box<dyn Watcher>>,
    out: &mut Vec<u8>,
    sink: &mut K,
    steps: &mut Steps<L>,
) -> LineOutcome
    requires fitting { IsFitting command.now }
    requires slots { AreOnShelf editor.old.setup.slots (map (λ b. mind b) shelf.old.items) }
    ensures gives { CommandGives (command_bytes editor.old.setup number
        (session_with editor.old (map (λ b. mind b) shelf.old.items)) command.now)
        (session_behind editor.old.setup
        (session_with editor.old (map (λ b. mind b) shelf.old.items)) command.now)
        (session_with editor.new (map (λ b. mind b) shelf.new.items)) result (K.written sink.old) (K.written sink.new) }
    ensures slots { AreOnShelf editor.new.setup.slots (map (λ b. mind b) shelf.new.items) }
    ensures setup { editor.new.setup ≡ editor.old.setup }
    ensures undone { result ≢ LineOutcome.Stop Status.Done }
    ensures uncut { result ≢ LineOutcome.Stop Status.TraceTooLong }
    ensures failed { result ≡ LineOutcome.Stop Status.WriteFault → Rose (K.faults sink.old) (K.faults sink.new) }
    ensures quiet { result ≢ LineOutcome.Stop Status.WriteFault → K.faults sink.new ≡ K.faults sink.old }
    ensures counts { K.faults sink.old ≤ K.faults sink.new }
{
    out.clear();
    match editor.command(shelf, number, command, out, steps) {
        Err(NoMemory) => LineOutcome::Stop(Status::NoMemory),
        Ok(()) => match write_all_of(sink, out.as_slice()) {
            Err(_) => LineOutcome::Stop(Status::WriteFault),
            Ok(()) => LineOutcome::Next,
        },
    }
}

// Writes the end block.
fn finish<K: Sink>(editor: &mut Editor, out: &mut Vec<u8>, sink: &mut K) -> Status
    ensures ends { (number : ℕ) (minds : List Mind) → Ends (ended number (session_with editor.old minds)) result
        (K.written sink.old) (K.written sink.new) minds }
    ensures uncut { result ≢ Status.TraceTooLong }
    ensures failed { result ≡ Status.WriteFault → Rose (K.faults sink.old) (K.faults sink.new) }
    ensures quiet { result ≢ Status.WriteFault → K.faults sink.new ≡ K.faults sink.old }
    ensures counts { K.faults sink.old ≤ K.faults sink.new }
{
    out.clear();
    match editor.finish(out) {
        Err(NoMemory) => Status::NoMemory,
        Ok(()) => match write_all_of(sink, out.as_slice()) {
            Err(_) => Status::WriteFault,
            Ok(()) => Status::Done,
        },
    }
}
