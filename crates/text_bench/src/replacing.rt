//! The replacements and queries that are measured. None of them makes an incoming text of its own, and at a million units the gap
//! that the text starts with has room for all that comes.

ghost use Rattle.std.specs.Prelude.{◌≤◌};
ghost use Rattle.edit_model.specs.Brought.{IsBrought};

use crate::crowding::{attach_many, empty_spans, insert_near, put_many, remove_many, take_range};
use crate::faults::Fault;
use crate::making::{replace, units};
use crate::random::Random;
use crate::requests::{Kind, Request};
use edit_base::{Incoming, Limits, Pick, Steps};
use replace_engine::SpannedText;
use std::alloc::Global;
use std::sync::ledger::Ledger;

/// Does it so many times. How many spans, or places, its queries found.
pub fn do_many<L: Ledger>(
    alloc: Global,
    text: &mut SpannedText,
    request: &Request,
    steps: &mut Steps<L>,
) -> Result<u64, Fault> {
    let count = request.count;
    match request.kind {
        Kind::Query => ask_points(alloc, text, count, steps),
        Kind::Edge => Ok(ask_edges(text, count)),
        Kind::Clear => {
            let all = units(alloc, text.len())?;
            clear_and_fill(text, count, &all, &units(alloc, 0)?, steps)?;
            Ok(0)
        }
        Kind::New => {
            attach_many(text, request, steps)?;
            Ok(0)
        }
        Kind::Removal => {
            remove_many(text, request)?;
            Ok(0)
        }
        Kind::Put => {
            put_many(text, request, steps)?;
            Ok(0)
        }
        _ => {
            replace_many(alloc, text, request, steps)?;
            Ok(0)
        }
    }
}

// Does so many replacements.
fn replace_many<L: Ledger>(
    alloc: Global,
    text: &mut SpannedText,
    request: &Request,
    steps: &mut Steps<L>,
) -> Result<(), Fault> {
    let count = request.count;
    let one = units(alloc, 1)?;
    let none = units(alloc, 0)?;
    match request.kind {
        Kind::Near => insert_near(text, count, &one, steps),
        Kind::Emptying => empty_spans(text, request, &none, steps),
        Kind::Gone | Kind::Moved => take_range(text, count, &none, steps),
        Kind::Anywhere => insert_anywhere(text, count, &one, steps),
        Kind::Backspace => take_back(text, count, &none, steps),
        Kind::Ends => jump(text, count, &one, steps),
        _ => type_units(text, count, &one, &none, steps),
    }
}

// All units go and these come, time after time.
fn clear_and_fill<L: Ledger>(
    text: &mut SpannedText,
    count: u32,
    all: &Incoming,
    none: &Incoming,
    steps: &mut Steps<L>,
) -> Result<(), Fault>
    requires all { IsBrought all.now }
    requires none { IsBrought none.now }
{
    for _ in 0..count {
        replace(text, 0, text.len(), none, steps)?;
        replace(text, 0, 0, all, steps)?;
    }
    Ok(())
}

// The spans at places that are drawn.
fn ask_points<L: Ledger>(
    alloc: Global,
    text: &SpannedText,
    count: u32,
    steps: &mut Steps<L>,
) -> Result<u64, Fault> {
    let mut random = Random::new();
    let mut rows = Vec::new(alloc);
    let mut found: u64 = 0;
    for _ in 0..count {
        let place = random.place(text.len());
        text.spans_over(place, place, Pick::All, &mut rows, steps)?;
        found = found.wrapping_add(rows.len() as u64);
    }
    Ok(found)
}

// The edges behind places that are drawn.
fn ask_edges(text: &SpannedText, count: u32) -> u64 {
    let mut random = Random::new();
    let mut found: u64 = 0;
    for _ in 0..count {
        let place = random.place(text.len());
        found = found.wrapping_add(u64::from(text.next_edge(place, text.len())));
    }
    found
}

// Units come at a cursor, which is told by the units behind it. Where the text is full, all that came goes at once: one
// replacement more, at which no unit moves, since the gap stands at the cursor.
fn type_units<L: Ledger>(
    text: &mut SpannedText,
    count: u32,
    one: &Incoming,
    none: &Incoming,
    steps: &mut Steps<L>,
) -> Result<(), Fault>
    requires one { IsBrought one.now }
    requires none { IsBrought none.now }
{
    let middle = text.len() / 2;
    let behind = text.len() - middle;
    for _ in 0..count {
        if text.len() == Limits::TEXT {
            replace(text, middle, Limits::TEXT - behind, none, steps)?;
        }
        let cursor = text.len().saturating_sub(behind);
        replace(text, cursor, cursor, one, steps)?;
    }
    Ok(())
}

// Units come at places that are drawn.
fn insert_anywhere<L: Ledger>(
    text: &mut SpannedText,
    count: u32,
    one: &Incoming,
    steps: &mut Steps<L>,
) -> Result<(), Fault>
    requires { IsBrought one.now }
{
    let mut random = Random::new();
    for _ in 0..count {
        let place = random.place(text.len());
        replace(text, place, place, one, steps)?;
    }
    Ok(())
}

// Units before a cursor go, which is told by the units behind it.
fn take_back<L: Ledger>(
    text: &mut SpannedText,
    count: u32,
    none: &Incoming,
    steps: &mut Steps<L>,
) -> Result<(), Fault>
    requires { IsBrought none.now }
{
    let behind = text.len() - text.len() / 2;
    for _ in 0..count {
        let cursor = text.len().saturating_sub(behind);
        replace(text, cursor.saturating_sub(1), cursor, none, steps)?;
    }
    Ok(())
}

// The first unit and the last one become others, in turn.
fn jump<L: Ledger>(
    text: &mut SpannedText,
    count: u32,
    one: &Incoming,
    steps: &mut Steps<L>,
) -> Result<(), Fault>
    requires { IsBrought one.now }
{
    let length = text.len();
    for at in 0..count {
        let start = if at % 2 == 0 {
            0
        } else {
            length.saturating_sub(1)
        };
        replace(text, start, start + 1, one, steps)?;
    }
    Ok(())
}
