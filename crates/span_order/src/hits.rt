//! The search of a block for slots that a query picks.

ghost use Rattle.std.specs.Prelude.{◌≡◌, ◌≤◌, ◌<◌, ◌+◌, ◌-◌, ◌*◌, ◌/◌, ◌%◌, ℕ, true, false, length, min, slice_index, IfSome, IfNone};
ghost use Rattle.span_order.specs.Hits.{AreBefore, HaveNumbers, IsFound, next_four, rest};
ghost use Rattle.span_order.specs.Tops.{IsTop};

use crate::tops::{FOUR, Top};
use edit_base::Steps;
use std::sync::ledger::Ledger;

/// What a query asks of slots: that they end no earlier than the bound, and start no later than the stop.
#[derive(Clone, Copy)]
pub struct Asked<'a> {
    pub starts: &'a [u64],
    pub ends: &'a [u64],
    pub bound: u64,
    pub stop: u64,
}

/// The first entry of these at which a search ends, one step for each that is looked at.
fn found_of<L: Ledger>(
    asked: &Asked<'_>,
    slots: &[u32],
    from: usize,
    to: usize,
    steps: &mut Steps<L>,
) -> Option<usize>
    requires numbers { HaveNumbers asked.now slots.now }
    requires order { from ≤ to }
    requires within { to ≤ length slots.now }
    ensures some { IfSome result (λ at. IsFound asked.now (slice_index slots.now at)) }
    ensures there { IfSome result (λ at. (from ≤ at) × (at < to)) }
    ensures passed { IfSome result (λ at. AreBefore asked.now slots.now from at) }
    ensures ticks { IfSome result (λ at. steps.new + from ≡ steps.old + (at + 1)) }
    ensures none { IfNone result (AreBefore asked.now slots.now from to) }
    ensures none_ticks { IfNone result (steps.new + from ≡ steps.old + to) }
{
    for at in from..to {
        steps.tick();
        let slot = slots[at] as usize;
        if asked.ends[slot] >= asked.bound || asked.starts[slot] > asked.stop {
            return Some(at);
        }
    }
    None
}

/// Whether the four that begin at an entry all end before the bound.
fn is_passed(asked: &Asked<'_>, slots: &[u32], top: &Top, at: usize) -> bool
    requires numbers { HaveNumbers asked.now slots.now }
    requires few { length slots.now ≤ 64 }
    requires top { IsTop asked.now.ends.now slots.now top.now }
    requires within { at < length slots.now }
    requires four { at % 4 ≡ 0 }
    ensures passed { result ≡ true → AreBefore asked.now slots.now at (min (at + 4) (length slots.now)) }
    ensures left { result ≡ false → ((entry : ℕ) × ((at ≤ entry) × ((entry < min (at + 4) (length slots.now))
        × (asked.now.bound ≤ slice_index asked.now.ends.now (slice_index slots.now entry))))) }
{
    let last = top.fours[at / FOUR] as usize;
    asked.ends[last] < asked.bound
}

/// The first entry of the rest of a four at which a search ends. A four that ends before the bound takes no step.
fn found_in_four<L: Ledger>(
    asked: &Asked<'_>,
    slots: &[u32],
    top: &Top,
    from: usize,
    steps: &mut Steps<L>,
) -> Option<usize>
    requires numbers { HaveNumbers asked.now slots.now }
    requires few { length slots.now ≤ 64 }
    requires top { IsTop asked.now.ends.now slots.now top.now }
    requires from { from < length slots.now }
    ensures some { IfSome result (λ at. IsFound asked.now (slice_index slots.now at)) }
    ensures there { IfSome result (λ at. (from ≤ at) × (at < length slots.now)) }
    ensures passed { IfSome result (λ at. AreBefore asked.now slots.now from at) }
    ensures ticks { IfSome result (λ at. steps.new + rest (at + 1) ≤ steps.old + rest from + 4) }
    ensures looked { IfSome result (λ at. steps.new + from ≤ steps.old + (at + 1)) }
    ensures none { IfNone result (AreBefore asked.now slots.now from (min (next_four from) (length slots.now))) }
    ensures none_ticks { IfNone result (steps.new ≤ steps.old + rest from) }
    ensures none_looked { IfNone result (steps.new + from ≤ steps.old + min (next_four from) (length slots.now)) }
    ensures more { steps.old ≤ steps.new }
{
    let to = next_four(from).min(slots.len());
    if from % FOUR == 0 && is_passed(asked, slots, top, from) {
        return None;
    }
    found_of(asked, slots, from, to, steps)
}

/// The first entry of a block from one on at which a search ends. What lies between ends before the bound.
pub fn found_from<L: Ledger>(
    asked: &Asked<'_>,
    slots: &[u32],
    top: &Top,
    from: usize,
    steps: &mut Steps<L>,
) -> Option<usize>
    requires numbers { HaveNumbers asked.now slots.now }
    requires few { length slots.now ≤ 64 }
    requires top { IsTop asked.now.ends.now slots.now top.now }
    requires from { from ≤ length slots.now }
    ensures some { IfSome result (λ at. IsFound asked.now (slice_index slots.now at)) }
    ensures there { IfSome result (λ at. (from ≤ at) × (at < length slots.now)) }
    ensures passed { IfSome result (λ at. AreBefore asked.now slots.now from at) }
    ensures ticks { IfSome result (λ at. steps.new + rest (at + 1) ≤ steps.old + rest from + 4) }
    ensures looked { IfSome result (λ at. steps.new + from ≤ steps.old + (at + 1)) }
    ensures none { IfNone result (AreBefore asked.now slots.now from (length slots.now)) }
    ensures none_ticks { IfNone result (steps.new ≤ steps.old + rest from) }
    ensures none_looked { IfNone result (steps.new + from ≤ steps.old + length slots.now) }
    ensures more { steps.old ≤ steps.new }
{
    let mut at = from;
    while at < slots.len() {
        match found_in_four(asked, slots, top, at, steps) {
            Some(found) => return Some(found),
            None => at = next_four(at),
        }
    }
    None
}

/// Where the next four entries begin.
fn next_four(at: usize) -> usize
    requires { at ≤ 64 }
    ensures { result ≡ next_four at }
{
    at / FOUR * FOUR + FOUR
}
