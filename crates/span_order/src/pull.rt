//! The search of a list for slots that a query picks.

ghost use Rattle.std.specs.Prelude.{◌≡◌, ◌≤◌, ◌<◌, ◌+◌, ◌∷◌, [], length, drop, slice_index, IfSome, IfNone};
ghost use Rattle.std.specs.List.{concat, filter};
ghost use Rattle.std.specs.List.Sorted.{IsNonDecreasingBy};
ghost use Rattle.span_order.specs.Blocks.{IsPlace, block_at, number_of};
ghost use Rattle.span_order.specs.Ranked.{rank_in};
ghost use Rattle.span_order.specs.Hits.{AreBefore, HaveNumbers, IsFound, is_asked, rest};
ghost use Rattle.span_order.specs.Topped.{IsTopped};

use crate::hits::{Asked, found_from};
use crate::order::Order;
use crate::places::Place;
use crate::tops::Top;
use edit_base::Steps;
use std::sync::ledger::Ledger;

/// The first slot from a place on that ends no earlier than the bound and starts no later than the stop. The place is
/// behind it then, or at the end of the list where there is none.
pub fn next_hit<L: Ledger>(
    order: &Order,
    tops: &[Top],
    asked: &Asked<'_>,
    at: &mut Place,
    steps: &mut Steps<L>,
) -> Option<u32>
    requires few { length asked.now.starts.now ≤ 4294967296 }
    requires rising { IsNonDecreasingBy (rank_in asked.now.starts.now) (concat order.now.blocks) }
    requires numbers { HaveNumbers asked.now (concat order.now.blocks) }
    requires topped { IsTopped asked.now.ends.now order.now.blocks tops.now }
    requires place { IsPlace order.now.blocks at.old }
    ensures place { IsPlace order.now.blocks at.new }
    ensures some { IfSome result (λ slot. filter (is_asked asked.now)
        (drop (number_of order.now.blocks at.old) (concat order.now.blocks))
        ≡ slot ∷ filter (is_asked asked.now)
        (drop (number_of order.now.blocks at.new) (concat order.now.blocks))) }
    ensures none { IfNone result (filter (is_asked asked.now)
        (drop (number_of order.now.blocks at.old) (concat order.now.blocks)) ≡ []) }
    ensures end { IfNone result (number_of order.now.blocks at.new ≡ length (concat order.now.blocks)) }
    ensures ticks { steps.new + rest at.new.index ≤ steps.old + rest at.old.index + 4 }
    ensures looked { steps.new + number_of order.now.blocks at.old
        ≤ steps.old + number_of order.now.blocks at.new }
    ensures more { steps.old ≤ steps.new }
{
    let Some(found) = found_from_place(order, tops, asked, *at, steps) else {
        *at = end_of(order);
        return None;
    };
    let slot = order.slots(found.block)[found.index];
    if asked.starts[slot as usize] > asked.stop {
        *at = end_of(order);
        return None;
    }
    *at = Place {
        block: found.block,
        index: found.index + 1,
    };
    Some(slot)
}

/// Where the list ends.
fn end_of(order: &Order) -> Place
    ensures place { IsPlace order.now.blocks result }
    ensures number { number_of order.now.blocks result ≡ length (concat order.now.blocks) }
    ensures index { result.index ≡ 0 }
{
    Place {
        block: order.block_count(),
        index: 0,
    }
}

/// The first entry from a place on at which a search ends. What lies between ends before the bound.
fn found_from_place<L: Ledger>(
    order: &Order,
    tops: &[Top],
    asked: &Asked<'_>,
    from: Place,
    steps: &mut Steps<L>,
) -> Option<Place>
    requires numbers { HaveNumbers asked.now (concat order.now.blocks) }
    requires topped { IsTopped asked.now.ends.now order.now.blocks tops.now }
    requires place { IsPlace order.now.blocks from }
    ensures there { IfSome result (λ at. (at.block < length order.now.blocks) × (at.index < length (block_at order.now.blocks at.block))) }
    ensures some { IfSome result (λ at. IsFound asked.now (slice_index (block_at order.now.blocks at.block) at.index)) }
    ensures passed { IfSome result (λ at. AreBefore asked.now (concat order.now.blocks)
        (number_of order.now.blocks from) (number_of order.now.blocks at)) }
    ensures behind { IfSome result (λ at. number_of order.now.blocks from ≤ number_of order.now.blocks at) }
    ensures ticks { IfSome result (λ at. steps.new + rest (at.index + 1) ≤ steps.old + rest from.index + 4) }
    ensures looked { IfSome result (λ at. steps.new + number_of order.now.blocks from
        ≤ steps.old + number_of order.now.blocks at + 1) }
    ensures none { IfNone result (AreBefore asked.now (concat order.now.blocks)
        (number_of order.now.blocks from) (length (concat order.now.blocks))) }
    ensures none_ticks { IfNone result (steps.new ≤ steps.old + rest from.index) }
    ensures none_looked { IfNone result (steps.new + number_of order.now.blocks from
        ≤ steps.old + length (concat order.now.blocks)) }
    ensures more { steps.old ≤ steps.new }
{
    let mut at = from;
    while at.block < tops.len() {
        match found_in_block(order, tops, asked, at, steps) {
            Some(index) => return Some(Place {
                block: at.block,
                index,
            }),
            None => {
                at = Place {
                    block: at.block + 1,
                    index: 0,
                }
            }
        }
    }
    None
}

/// The first entry of a block from a place on at which a search ends. What lies between ends before the bound. A block
/// that ends before the bound takes no step.
fn found_in_block<L: Ledger>(
    order: &Order,
    tops: &[Top],
    asked: &Asked<'_>,
    from: Place,
    steps: &mut Steps<L>,
) -> Option<usize>
    requires numbers { HaveNumbers asked.now (concat order.now.blocks) }
    requires topped { IsTopped asked.now.ends.now order.now.blocks tops.now }
    requires block { from.block < length order.now.blocks }
    requires index { from.index ≤ length (block_at order.now.blocks from.block) }
    ensures some { IfSome result (λ at. IsFound asked.now (slice_index (block_at order.now.blocks from.block) at)) }
    ensures there { IfSome result (λ at. (from.index ≤ at) × (at < length (block_at order.now.blocks from.block))) }
    ensures passed { IfSome result (λ at. AreBefore asked.now (block_at order.now.blocks from.block) from.index at) }
    ensures ticks { IfSome result (λ at. steps.new + rest (at + 1) ≤ steps.old + rest from.index + 4) }
    ensures looked { IfSome result (λ at. steps.new + from.index ≤ steps.old + (at + 1)) }
    ensures none { IfNone result (AreBefore asked.now (block_at order.now.blocks from.block) from.index
        (length (block_at order.now.blocks from.block))) }
    ensures none_ticks { IfNone result (steps.new ≤ steps.old + rest from.index) }
    ensures none_looked { IfNone result (steps.new + from.index ≤ steps.old + length (block_at order.now.blocks from.block)) }
    ensures more { steps.old ≤ steps.new }
{
    let top = &tops[from.block];
    if top.crest < asked.bound {
        return None;
    }
    found_from(asked, order.slots(from.block), top, from.index, steps)
}
