//! The lines of what is logged of a command: its header and its edits. Those of callbacks are made by callbacks.rt.
#![tactic(auto, using(crate::proofs::Appending::appending))]

ghost use Rattle.std.specs.Prelude.{◌≡◌, ◌++◌, OnOk, OnErr, codes, decimal};
ghost use Rattle.trace_model.specs.Printed.{spaced, line_end, logged_text, signed_places, header_line, entry_line};
ghost use Rattle.reply_text.specs.Appended.{Extends};

use crate::callbacks::{push_event, push_span_event};
use crate::verdicts::{push_ending, push_numbered_ending};
use crate::words::{push, push_number, push_signed_places, push_word};
use edit_base::NoMemory;
use edit_model::{LogEntry, Logged};

/// Appends the first line of the command on a trace line: the line's number, and the operation's name. Without memory
/// a part of the line may stand in `out`.
pub fn print_header(number: u32, op: &str, out: &mut Vec<u8>) -> Result<(), NoMemory>
    ensures ok { OnOk result (out.new.items ≡ out.old.items ++ header_line number op.now) }
    ensures err { OnErr result (Extends out.old.items out.new.items) }
{
    push(">", out)?;
    push_number(number, out)?;
    push_word(op, out)?;
    push("\n", out)
}

/// Appends the line of one entry of the log. Without memory a part of the line may stand in `out`.
pub fn print_entry(entry: &LogEntry, out: &mut Vec<u8>) -> Result<(), NoMemory>
    ensures ok { OnOk result (out.new.items ≡ out.old.items ++ entry_line entry.now) }
    ensures err { OnErr result (Extends out.old.items out.new.items) }
{
    match entry {
        LogEntry::Replace {
            depth,
            start,
            end,
            units,
            logged,
        } => push_replace(*depth, *start, *end, *units, logged, out),
        LogEntry::Set {
            depth,
            id,
            start,
            end,
            flags,
            logged,
        } => push_set(*depth, *id, *start, *end, *flags, logged, out),
        LogEntry::Remove { depth, id, logged } => push_remove(*depth, *id, logged, out),
        LogEntry::Select {
            depth,
            start,
            end,
            logged,
        } => push_range_edit(*depth, "select", *start, *end, logged, out),
        LogEntry::Deselect { depth, logged } => push_bare_edit(*depth, "deselect", logged, out),
        LogEntry::Drop { depth, logged } => push_bare_edit(*depth, "drop", logged, out),
        LogEntry::Mark {
            depth,
            start,
            end,
            logged,
        } => push_range_edit(*depth, "mark", *start, *end, logged, out),
        LogEntry::Before { slot, event } => push_event("before", *slot, event, out),
        LogEntry::Changed { slot, event } => push_event("changed", *slot, event, out),
        LogEntry::After { slot, event } => push_event("after", *slot, event, out),
        LogEntry::Span { slot, event } => push_span_event(*slot, event, out),
    }
}

fn push_replace(
    depth: u32,
    start: i64,
    end: i64,
    units: u32,
    logged: &Logged,
    out: &mut Vec<u8>,
) -> Result<(), NoMemory>
    ensures ok { OnOk result (out.new.items
        ≡ out.old.items ++ entry_line (LogEntry.Replace depth start end units logged.now)) }
    ensures err { OnErr result (Extends out.old.items out.new.items) }
{
    push_edit(depth, "replace", out)?;
    push_signed_places(start, end, out)?;
    push_numbered_ending(units, logged, out)
}

fn push_set(
    depth: u32,
    id: u32,
    start: i64,
    end: i64,
    flags: u32,
    logged: &Logged,
    out: &mut Vec<u8>,
) -> Result<(), NoMemory>
    ensures ok { OnOk result (out.new.items
        ≡ out.old.items ++ entry_line (LogEntry.Set depth id start end flags logged.now)) }
    ensures err { OnErr result (Extends out.old.items out.new.items) }
{
    push_edit(depth, "set", out)?;
    push_number(id, out)?;
    push_signed_places(start, end, out)?;
    push_numbered_ending(flags, logged, out)
}

fn push_remove(depth: u32, id: u32, logged: &Logged, out: &mut Vec<u8>) -> Result<(), NoMemory>
    ensures ok { OnOk result (out.new.items
        ≡ out.old.items ++ entry_line (LogEntry.Remove depth id logged.now)) }
    ensures err { OnErr result (Extends out.old.items out.new.items) }
{
    push_edit(depth, "remove", out)?;
    push_numbered_ending(id, logged, out)
}

// An edit that has no more than its two places.
fn push_range_edit(
    depth: u32,
    name: &str,
    start: i64,
    end: i64,
    logged: &Logged,
    out: &mut Vec<u8>,
) -> Result<(), NoMemory>
    ensures ok { OnOk result (out.new.items
        ≡ out.old.items ++ (codes "edit" ++ spaced (decimal depth) ++ spaced name.now ++ signed_places start end
        ++ logged_text logged.now ++ line_end)) }
    ensures err { OnErr result (Extends out.old.items out.new.items) }
{
    push_edit(depth, name, out)?;
    push_signed_places(start, end, out)?;
    push_ending(logged, out)
}

// An edit without numbers.
fn push_bare_edit(
    depth: u32,
    name: &str,
    logged: &Logged,
    out: &mut Vec<u8>,
) -> Result<(), NoMemory>
    ensures ok { OnOk result (out.new.items
        ≡ out.old.items ++ (codes "edit" ++ spaced (decimal depth) ++ spaced name.now
        ++ logged_text logged.now ++ line_end)) }
    ensures err { OnErr result (Extends out.old.items out.new.items) }
{
    push_edit(depth, name, out)?;
    push_ending(logged, out)
}

fn push_edit(depth: u32, name: &str, out: &mut Vec<u8>) -> Result<(), NoMemory>
    ensures ok { OnOk result (out.new.items
        ≡ out.old.items ++ (codes "edit" ++ spaced (decimal depth) ++ spaced name.now)) }
    ensures err { OnErr result (Extends out.old.items out.new.items) }
{
    push("edit", out)?;
    push_number(depth, out)?;
    push_word(name, out)
}
