//! The lines of a trace, read and not run.

ghost use Rattle.std.specs.Prelude.{ℕ, ◌≡◌, ◌≢◌, ◌≤◌, true, false, List, length, IfOk};
ghost use Rattle.edit_base.specs.declared.bounds.TheConstants.Limits.{TRACE_BYTES};
ghost use Rattle.edit_model.specs.Minds.{Mind};
ghost use Rattle.trace_model.specs.Output.{check_lines, checked};
ghost use Rattle.replay_io.specs.Outside.{Rose};
ghost use Rattle.replay_cli.specs.Runs.{Ends};
ghost use Rattle.replay_cli.specs.Steps.{CheckGives, close_check, lines_in};

use crate::lines::{LineKind, line_kind, next_line};
use crate::player::stop_at;
use crate::status::Status;
use edit_base::NoMemory;
use replay_io::{Sink, write_all_of};
use reply_text::print_reply;
use std::alloc::Global;
use trace_model::Reply;

/// Reads the lines of a trace, or those of its first bytes where more was cut off, and writes how many commands there
/// are. No watcher is told of anything, so it speaks of any minds that a shelf may have.
pub fn check_trace<K: Sink>(alloc: Global, trace: &[u8], is_cut: bool, sink: &mut K) -> Status
    requires { length trace.now ≤ TRACE_BYTES }
    ensures ends { (minds : List Mind) →
        Ends (check_lines minds (close_check minds is_cut trace.now) 1 0 (lines_in is_cut trace.now)) result
        (K.written sink.old) (K.written sink.new) minds }
    ensures whole { result ≡ Status.Done → is_cut ≡ false }
    ensures cut { result ≡ Status.TraceTooLong → is_cut ≡ true }
    ensures failed { result ≡ Status.WriteFault → Rose (K.faults sink.old) (K.faults sink.new) }
    ensures quiet { result ≢ Status.WriteFault → K.faults sink.new ≡ K.faults sink.old }
    ensures counts { K.faults sink.old ≤ K.faults sink.new }
{
    let mut rest = trace;
    let mut number = 1u32;
    let mut count = 0u32;
    while let Some((line, others)) = next_line(rest, is_cut) {
        match count_of(alloc, number, line) {
            Ok(more) => count += more,
            Err(status) => return status,
        }
        rest = others;
        number += 1;
    }
    if is_cut {
        stop_at(number, rest)
    } else {
        write_count(alloc, count, sink)
    }
}

// How many commands a line holds, or how the reading ends at it.
fn count_of(alloc: Global, number: u32, line: &[u8]) -> Result<u32, Status>
    ensures gives { CheckGives number line.now result }
    ensures one { IfOk result (λ more. more ≤ 1) }
    ensures unwritten { result ≢ Err Status.WriteFault }
    ensures undone { result ≢ Err Status.Done }
    ensures uncut { result ≢ Err Status.TraceTooLong }
{
    match line_kind(alloc, line) {
        Err(NoMemory) => Err(Status::NoMemory),
        Ok(LineKind::Blank) => Ok(0),
        Ok(LineKind::Command(_)) => Ok(1),
        Ok(LineKind::Faulty(kind)) => Err(Status::TraceFault { line: number, kind }),
    }
}

// Writes how many commands there are.
fn write_count<K: Sink>(alloc: Global, count: u32, sink: &mut K) -> Status
    ensures ends { (minds : List Mind) (number : ℕ) →
        Ends (checked minds number count) result (K.written sink.old) (K.written sink.new) minds }
    ensures uncut { result ≢ Status.TraceTooLong }
    ensures failed { result ≡ Status.WriteFault → Rose (K.faults sink.old) (K.faults sink.new) }
    ensures quiet { result ≢ Status.WriteFault → K.faults sink.new ≡ K.faults sink.old }
    ensures counts { K.faults sink.old ≤ K.faults sink.new }
{
    let mut out = Vec::new(alloc);
    match print_reply(&Reply::Checked(count), &mut out) {
        Err(NoMemory) => Status::NoMemory,
        Ok(()) => match write_all_of(sink, out.as_slice()) {
            Err(_) => Status::WriteFault,
            Ok(()) => Status::Done,
        },
    }
}
