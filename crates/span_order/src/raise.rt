//! The greatest ends of the blocks that a change made anew.

ghost use Rattle.std.specs.Prelude.{◌≡◌, ◌≤◌, ◌<◌, ◌+◌, ◌-◌, ◌*◌, ◌^◌, ◌++◌, ℕ, length, take, drop, min, max, vec_len, vec_capacity};
ghost use Rattle.std.specs.List.{All, concat};
ghost use Rattle.span_order.specs.Blocks.{IsPlace, number_of};
ghost use Rattle.span_order.specs.Topped.{IsTopped, IsToppedBut, spliced, top_at};

use crate::order::Order;
use crate::places::{Changed, Place};
use crate::tops::{Top, top_of};

/// The slots from one place up to another become these, and the tops of the blocks that changed are raised, with those of
/// the blocks of both places. Those of the others are right. There is room for the slots and for tops of their blocks.
pub fn splice_raised(
    order: &mut Order,
    tops: &mut Vec<Top>,
    from: Place,
    to: Place,
    slots: &[u32],
    ends: &[u64],
)
    requires from { IsPlace order.old.blocks from }
    requires to { IsPlace order.old.blocks to }
    requires order { from.block ≤ to.block }
    requires same { from.block ≡ to.block → from.index ≤ to.index }
    requires spare { length slots.now ≤ (number_of order.old.blocks to - number_of order.old.blocks from) + order.old.spare }
    requires room { length (concat order.old.blocks) + length slots.now
        ≤ (number_of order.old.blocks to - number_of order.old.blocks from) + 16 * (vec_capacity tops.old - 1) }
    requires topped { IsToppedBut ends.now order.old.blocks tops.old.items from.block (to.block + 1) }
    requires ends { All (λ slot. slot < length ends.now) (spliced order.old.blocks from to slots.now) }
    ensures all { concat order.new.blocks ≡ spliced order.old.blocks from to slots.now }
    ensures topped { IsTopped ends.now order.new.blocks tops.new.items }
    ensures spare { length (concat order.new.blocks) + order.new.spare
        ≡ length (concat order.old.blocks) + order.old.spare }
    ensures capacity { vec_capacity tops.old ≤ vec_capacity tops.new }
{
    let end = tops.len().min(to.block + 1);
    let changed = order.splice(from, to, slots);
    let _count = count_blocks(order);
    let changed = spread(changed, from.block, end);
    fit(tops, &changed);
    raise(order, tops, ends, changed.first, changed.end);
}

/// How many blocks a list has: none where it has no slots, and never many beside them.
fn count_blocks(order: &Order) -> usize
    ensures count { result ≡ length order.now.blocks }
    ensures few { 16 * result ≤ length (concat order.now.blocks) + 16 }
    ensures none { length (concat order.now.blocks) ≡ 0 → result ≡ 0 }
{
    let count = order.block_count();
    if count > 0 {
        // The call tells that the first block has slots.
        let _slots = order.slots(0);
    }
    count
}

/// So many tops that follow a place go behind all others.
fn turn(tops: &mut [Top], at: usize, count: usize)
    requires { at + count ≤ length tops.old }
    ensures { tops.new ≡ take at tops.old ++ (drop (at + count) tops.old ++ take count (drop at tops.old)) }
{
    tops[at..].rotate_left(count);
}

/// So many tops come at a place among others. There is room for them.
fn widen(tops: &mut Vec<Top>, at: usize, more: usize)
    requires at { at ≤ length tops.old.items }
    requires room { length tops.old.items + more ≤ vec_capacity tops.old }
    ensures front { take at tops.new.items ≡ take at tops.old.items }
    ensures behind { drop (at + more) tops.new.items ≡ drop at tops.old.items }
    ensures len { length tops.new.items ≡ length tops.old.items + more }
    ensures capacity { vec_capacity tops.old ≤ vec_capacity tops.new }
{
    let old = tops.len();
    lengthen(tops, more);
    turn(tops, at, old - at);
}

/// So many tops come behind the others. There is room for them.
fn lengthen(tops: &mut Vec<Top>, more: usize)
    requires { length tops.old.items + more ≤ vec_capacity tops.old }
    ensures front { take (length tops.old.items) tops.new.items ≡ tops.old.items }
    ensures len { length tops.new.items ≡ length tops.old.items + more }
    ensures capacity { vec_capacity tops.old ≤ vec_capacity tops.new }
{
    // There is room, so this succeeds.
    let _ = tops.resize(tops.len() + more, Top::NONE);
}

/// So many tops go at a place.
fn narrow(tops: &mut Vec<Top>, at: usize, fewer: usize)
    requires { at + fewer ≤ length tops.old.items }
    ensures front { take at tops.new.items ≡ take at tops.old.items }
    ensures behind { drop at tops.new.items ≡ drop (at + fewer) tops.old.items }
    ensures len { length tops.new.items + fewer ≡ length tops.old.items }
    ensures capacity { vec_capacity tops.old ≤ vec_capacity tops.new }
{
    let count = tops.len() - fewer;
    turn(tops, at, fewer);
    tops.truncate(count);
}

/// As many tops stand before those of the blocks behind a change as there are blocks now.
fn fit(tops: &mut Vec<Top>, changed: &Changed)
    requires old_end { changed.now.old_end ≤ length tops.old.items }
    requires room { length tops.old.items + changed.now.end ≤ vec_capacity tops.old + changed.now.old_end }
    ensures before { (block : ℕ) → block < min changed.now.old_end changed.now.end
        → top_at tops.new.items block ≡ top_at tops.old.items block }
    ensures behind { (block : ℕ) → top_at tops.new.items (changed.now.end + block) ≡ top_at tops.old.items (changed.now.old_end + block) }
    ensures len { length tops.new.items + changed.now.old_end ≡ length tops.old.items + changed.now.end }
    ensures capacity { vec_capacity tops.old ≤ vec_capacity tops.new }
{
    if changed.end < changed.old_end {
        narrow(tops, changed.end, changed.old_end - changed.end);
    } else {
        widen(tops, changed.old_end, changed.end - changed.old_end);
    }
}

/// Raises the tops of the blocks from one up to another anew. Those of the others are right.
pub fn raise(order: &Order, tops: &mut [Top], ends: &[u64], from: usize, to: usize)
    requires tops { IsToppedBut ends.now order.now.blocks tops.old from to }
    requires within { to ≤ length order.now.blocks }
    requires slots { All (λ slot. slot < length ends.now) (concat order.now.blocks) }
    ensures { IsTopped ends.now order.now.blocks tops.new }
{
    for block in from..to {
        tops[block] = top_of(ends, order.slots(block));
    }
}

/// A change that made some more blocks anew than it did: those from one up to another, as they were counted before.
fn spread(changed: Changed, from: usize, to: usize) -> Changed
    requires old_order { changed.first ≤ changed.old_end }
    requires order { changed.first ≤ changed.end }
    requires fits { changed.end + (max changed.old_end to - changed.old_end) < 2 ^ 64 }
    ensures first { result.first ≡ min changed.first from }
    ensures old_end { result.old_end ≡ max changed.old_end to }
    ensures end { result.end + changed.old_end ≡ changed.end + result.old_end }
{
    let old_end = changed.old_end.max(to);
    Changed {
        first: changed.first.min(from),
        old_end,
        end: changed.end + (old_end - changed.old_end),
    }
}
