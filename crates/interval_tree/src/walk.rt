//! What a query asks of the rows that it is given.

ghost use Rattle.std.specs.Prelude.{◌≡◌, ◌≤◌, ◌<◌, ◌++◌, [], ◌∷◌, length, vec_capacity, if◌then◌else◌, OnOk, IsOk};
ghost use Rattle.edit_model.specs.Rows.{span_of};
ghost use Rattle.interval_tree.specs.Walk.{IsBound, IsStop, answers};

use edit_base::{NoMemory, Pick, SpanRow};
use span_flags::{is_picked, lies_over, touches};
use span_table::number_at;

/// What is asked of a range.
#[derive(Clone, Copy)]
pub enum Asked {
    /// The spans over it that are picked.
    Over(Pick),
    /// The spans that touch it.
    Touching,
}

/// A range, the number below which spans end before it, the number above which they start behind it, and what is asked of
/// it.
#[derive(Clone, Copy)]
pub struct Query {
    pub start: u32,
    pub end: u32,
    pub bound: u64,
    pub stop: u64,
    pub asked: Asked,
}

/// The least number whose place isn't before this one.
#[tactic(auto, using(crate::proofs::NumberOrder::place_bounds))]
pub fn bound_of(gap: u32, room: u32, place: u32) -> u64
    ensures { IsBound gap room place result }
{
    number_at(gap, room, false, place)
}

/// The greatest number whose place isn't behind this one.
#[tactic(auto, using(crate::proofs::NumberOrder::place_stops))]
pub fn stop_of(gap: u32, room: u32, place: u32) -> u64
    ensures { IsStop gap room place result }
{
    number_at(gap, room, true, place)
}

/// Pushes a row that answers a query.
pub fn keep(row: &SpanRow, query: &Query, out: &mut Vec<SpanRow>) -> Result<(), NoMemory>
    ensures ok { OnOk result (out.new.items ≡ out.old.items
        ++ (if answers query.now.asked query.now.start query.now.end (span_of row.now) then row.now ∷ [] else [])) }
    ensures room { length out.old.items < vec_capacity out.old → IsOk result }
    ensures capacity { vec_capacity out.old ≤ vec_capacity out.new }
{
    if answers(row, query) {
        out.push(*row)?;
    }
    Ok(())
}

fn answers(row: &SpanRow, query: &Query) -> bool
    ensures { result ≡ answers query.now.asked query.now.start query.now.end (span_of row.now) }
{
    match query.asked {
        Asked::Over(pick) => { lies_over(row, query.start, query.end) && is_picked(pick, row.what) }
        Asked::Touching => touches(row, query.start, query.end),
    }
}
