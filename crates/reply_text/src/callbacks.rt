//! The lines of the callbacks of watchers.
#![tactic(auto, using(crate::proofs::Appending::appending))]

ghost use Rattle.std.specs.Prelude.{◌≡◌, ◌++◌, OnOk, OnErr, decimal};
ghost use Rattle.trace_model.specs.Printed.{spaced, line_end, event_line, place_text, change_name, old_place_text, span_event_line};
ghost use Rattle.reply_text.specs.Appended.{Extends};

use crate::words::{push, push_number};
use edit_base::NoMemory;
use edit_model::{SpanChange, SpanEvent, TextEvent};

/// A callback of a replacement.
pub fn push_event(
    name: &str,
    slot: u8,
    event: &TextEvent,
    out: &mut Vec<u8>,
) -> Result<(), NoMemory>
    ensures ok { OnOk result (out.new.items ≡ out.old.items ++ event_line name.now slot event.now) }
    ensures err { OnErr result (Extends out.old.items out.new.items) }
{
    push(name, out)?;
    push_number(event.depth, out)?;
    push_number(u32::from(slot), out)?;
    push_counts(event, out)
}

// Where a replacement started, and how many units went and came.
fn push_counts(event: &TextEvent, out: &mut Vec<u8>) -> Result<(), NoMemory>
    ensures ok { OnOk result (out.new.items ≡ out.old.items ++ (spaced (decimal event.now.start)
        ++ spaced (decimal event.now.before) ++ spaced (decimal event.now.after) ++ line_end)) }
    ensures err { OnErr result (Extends out.old.items out.new.items) }
{
    push_number(event.start, out)?;
    push_number(event.before, out)?;
    push_number(event.after, out)?;
    push("\n", out)
}

/// A callback of a span.
pub fn push_span_event(slot: u8, event: &SpanEvent, out: &mut Vec<u8>) -> Result<(), NoMemory>
    ensures ok { OnOk result (out.new.items ≡ out.old.items ++ span_event_line slot event.now) }
    ensures err { OnErr result (Extends out.old.items out.new.items) }
{
    push(name_of(event.change), out)?;
    push_number(event.depth, out)?;
    push_number(u32::from(slot), out)?;
    push_number(event.id, out)?;
    push_places(event, out)
}

fn name_of(change: SpanChange) -> &'static str
    ensures { result.now ≡ change_name change }
{
    match change {
        SpanChange::Added => "added",
        SpanChange::Moved => "moved",
        SpanChange::Removed => "removed",
    }
}

// Where a span stood, if it moved, and where it stands.
fn push_places(event: &SpanEvent, out: &mut Vec<u8>) -> Result<(), NoMemory>
    ensures ok { OnOk result (out.new.items ≡ out.old.items ++ (old_place_text event.now.change event.now
        ++ place_text event.now.start event.now.end ++ line_end)) }
    ensures err { OnErr result (Extends out.old.items out.new.items) }
{
    push_old_place(event, out)?;
    push_place(event.start, event.end, out)?;
    push("\n", out)
}

fn push_old_place(event: &SpanEvent, out: &mut Vec<u8>) -> Result<(), NoMemory>
    ensures ok { OnOk result (out.new.items ≡ out.old.items ++ old_place_text event.now.change event.now) }
    ensures err { OnErr result (Extends out.old.items out.new.items) }
{
    match event.change {
        SpanChange::Moved => push_place(event.old_start, event.old_end, out),
        SpanChange::Added | SpanChange::Removed => Ok(()),
    }
}

fn push_place(start: u32, end: u32, out: &mut Vec<u8>) -> Result<(), NoMemory>
    ensures ok { OnOk result (out.new.items ≡ out.old.items ++ place_text start end) }
    ensures err { OnErr result (Extends out.old.items out.new.items) }
{
    push_number(start, out)?;
    push_number(end, out)
}
