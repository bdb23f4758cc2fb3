//! The text that is measured.

ghost use Rattle.std.specs.Prelude.{◌≡◌, ◌≤◌, ◌<◌, IfOk};
ghost use Rattle.edit_base.specs.declared.bounds.TheConstants.Limits.{TEXT, SPANS};
ghost use Rattle.edit_model.specs.Brought.{IsBrought};

use crate::faults::Fault;
use crate::requests::{Kind, RANGE, Request};
use edit_base::{Incoming, Items, Limits, NoMemory, Steps, Verdict, What};
use replace_engine::SpannedText;
use std::alloc::Global;
use std::sync::ledger::Ledger;

/// A text of as many units and spans as are asked for, of which those that are nested come first. Its gap stands in the
/// middle, with room for about half as many units.
pub fn text_with_spans<L: Ledger>(
    alloc: Global,
    request: &Request,
    steps: &mut Steps<L>,
) -> Result<SpannedText, Fault>
    requires some { 1 ≤ request.now.length }
    requires limit { request.now.length ≤ TEXT }
{
    let mut text = SpannedText::new(alloc)?;
    let all = units(alloc, request.length)?;
    replace(&mut text, 0, 0, &all, steps)?;
    for at in 0..request.spans {
        let range = if at < request.nested {
            nested_range(request, at)
        } else {
            short_range(request, at - request.nested)
        };
        set(&mut text, at, range, flags_of(request, at), steps)?;
    }
    // A unit in place of another makes the room that a text needs which has none yet.
    let one = units(alloc, 1)?;
    replace(
        &mut text,
        request.length / 2,
        request.length / 2 + 1,
        &one,
        steps,
    )?;
    Ok(text)
}

/// What brings so many units.
pub fn units(alloc: Global, count: u32) -> Result<Incoming, NoMemory>
    requires { count ≤ TEXT }
    ensures { IfOk result (λ incoming. IsBrought incoming) }
{
    Ok(Incoming {
        units: Items::from_vec(vec![in alloc; 97; count as usize]?),
        spans: Items::from_vec(Vec::new(alloc)),
        composing: false,
    })
}

/// Replaces units, or says that this wasn't done.
pub fn replace<L: Ledger>(
    text: &mut SpannedText,
    start: u32,
    end: u32,
    incoming: &Incoming,
    steps: &mut Steps<L>,
) -> Result<(), Fault>
    requires brought { IsBrought incoming.now }
    requires start { start ≤ TEXT }
    requires end { end ≤ TEXT }
{
    match text.replace(start as i32, end as i32, incoming, steps)? {
        Verdict::Done => Ok(()),
        _ => Err(Fault::NotDone),
    }
}

/// Attaches a span, or sets the one that is attached, or says that this wasn't done.
pub fn set<L: Ledger>(
    text: &mut SpannedText,
    at: u32,
    range: (u32, u32),
    flags: u32,
    steps: &mut Steps<L>,
) -> Result<(), Fault> {
    let start = range.0.min(Limits::TEXT) as i32;
    let end = range.1.min(Limits::TEXT) as i32;
    match text.set_span(id_of(at), start, end, flags, What::Tag(at), 0, steps)? {
        Verdict::Done => Ok(()),
        _ => Err(Fault::NotDone),
    }
}

/// The id of a span.
pub fn id_of(at: u32) -> u32 {
    at.saturating_add(16)
}

// The range of a span that lies in those before it, all of them round the middle.
fn nested_range(request: &Request, at: u32) -> (u32, u32) {
    let apart = request.length / 2 / request.nested.max(1);
    let inset = at.saturating_mul(apart);
    (inset, request.length.saturating_sub(inset))
}

/// The unit under one of the other spans. They are spread over the text, or stand one behind the other from the middle
/// on, or all begin there.
pub fn short_range(request: &Request, number: u32) -> (u32, u32) {
    let middle = request.length / 2;
    let start = match request.kind {
        Kind::Pile => middle,
        Kind::Gone | Kind::Moved => middle.saturating_add(number % RANGE),
        _ => number.saturating_mul(apart_of(request)),
    };
    let start = start.min(request.length.saturating_sub(1));
    (start, start.saturating_add(1))
}

// How many units stand from the start of one span that is spread to that of the next.
fn apart_of(request: &Request) -> u32 {
    request.length / request.spans.saturating_sub(request.nested).max(1)
}

// The flags word of a span, which is given by what is measured, or else of each kind in turn.
fn flags_of(request: &Request, at: u32) -> u32 {
    match request.kind {
        Kind::Emptying | Kind::Gone if request.nested <= at => 33,
        Kind::Moved if request.nested <= at => 34,
        _ => flags_of_tag(at),
    }
}

/// The flags word of a span: every fourth one has the same kind of ends.
pub fn flags_of_tag(at: u32) -> u32 {
    match at % 4 {
        0 => 17,
        1 => 18,
        2 => 33,
        _ => 34,
    }
}
