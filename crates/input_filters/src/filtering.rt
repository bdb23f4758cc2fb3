//! The walk through the filters.

ghost use Rattle.std.specs.Prelude.{◌≡◌, ◌≤◌, ◌-◌, length, IfOk};
ghost use Rattle.edit_model.specs.Brought.{IsBrought};
ghost use Rattle.edit_model.specs.Filtered.{clipped, through, filtered};
ghost use Rattle.input_filters.specs.Kept.{IsClipped};

use crate::places::{clip, filter_places};
use crate::units::filter_units;
use edit_base::{Incoming, Items, NewSpan, NoMemory};
use edit_model::Filter;
use std::alloc::Global;

/// What the filters make of an incoming text for the units from `start` to `end` of a text of `len` units, each of what
/// the one before it left. The units that a filter keeps stay in order, and each place of a span goes to the number of
/// units before it that are kept; at first, places behind the incoming text go to its end. It takes memory for a copy
/// of the units and the spans, and where there are spans for a count at each place, which serves one filter after
/// another.
pub fn filter_all(
    alloc: Global,
    filters: &[Filter],
    incoming: &Incoming,
    len: u32,
    start: u32,
    end: u32,
) -> Result<Incoming, NoMemory>
    requires order { start ≤ end }
    requires within { end ≤ len }
    requires brought { IsBrought incoming.now }
    ensures filtered { IfOk result (λ it. it ≡ filtered filters.now incoming.now len start end) }
    ensures brought { IfOk result IsBrought }
    ensures units { IfOk result (λ it. length it.units ≤ length incoming.now.units) }
{
    let others = units_beside(len, start, end);
    let mut brought = clipped(alloc, incoming)?;
    let mut counts = Vec::new(alloc);
    for filter in filters {
        brought = through(others, brought, filter, &mut counts)?;
    }
    Ok(brought)
}

// How many units of a text stay where those from `start` to `end` go.
fn units_beside(len: u32, start: u32, end: u32) -> u32
    requires order { start ≤ end }
    requires within { end ≤ len }
    ensures { result ≡ len - (end - start) }
{
    len - (end - start)
}

// A copy of what comes, with places behind its text at the end of the text.
fn clipped(alloc: Global, incoming: &Incoming) -> Result<Incoming, NoMemory>
    requires brought { IsBrought incoming.now }
    ensures copy { IfOk result (λ it. it ≡ clipped incoming.now) }
    ensures clipped { IfOk result IsClipped }
{
    let units = incoming.units.as_slice().to_vec(alloc)?;
    let spans = clipped_spans(alloc, incoming)?;
    Ok(Incoming {
        units: Items::from_vec(units),
        spans: Items::from_vec(spans),
        composing: incoming.composing,
    })
}

// Copies of the spans, with places behind the incoming text at its end.
fn clipped_spans(alloc: Global, incoming: &Incoming) -> Result<Vec<NewSpan>, NoMemory>
    requires brought { IsBrought incoming.now }
    ensures { IfOk result (λ spans. spans.items ≡ (clipped incoming.now).spans) }
{
    let mut spans = incoming.spans.as_slice().to_vec(alloc)?;
    clip(&mut spans, incoming.units.len() as u32);
    Ok(spans)
}

// What one filter makes of a text that comes to so many other units, and of the spans over it.
fn through(
    others: u32,
    brought: Incoming,
    filter: &Filter,
    counts: &mut Vec<u32>,
) -> Result<Incoming, NoMemory>
    requires clipped { IsClipped brought }
    ensures through { IfOk result (λ it. it ≡ through others brought filter.now) }
    ensures clipped { IfOk result IsClipped }
{
    let Incoming {
        units,
        spans,
        composing,
    } = brought;
    let mut units = units.into_vec();
    let mut spans = spans.into_vec();
    filter_places(filter, others, &units, &mut spans, counts)?;
    filter_units(filter, others, &mut units);
    Ok(Incoming {
        units: Items::from_vec(units),
        spans: Items::from_vec(spans),
        composing,
    })
}
