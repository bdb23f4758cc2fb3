//! What queries answer.

ghost use Rattle.std.specs.Prelude.{◌≡◌, ◌≤◌, ◌<◌, ◌+◌, ◌-◌, ◌++◌, [], ◌∷◌, true, length, map, slice_index, vec_capacity, IfSome, IfNone, OnOk, OnErr, IsOk};
ghost use Rattle.std.specs.List.{All, concat, range_with_len};
ghost use Rattle.std.specs.List.Sorted.{IsNonDecreasingBy, IsPermutation};
ghost use Rattle.edit_base.specs.declared.rows.Pick.TheVariants.{Watches};
ghost use Rattle.edit_base.specs.declared.rows.Pick.TheVariants as pick;
ghost use Rattle.interval_tree.specs.declared.walk.Asked.TheVariants.{Over};
ghost use Rattle.edit_model.specs.Over.{next_edge, over};
ghost use Rattle.edit_model.specs.Rows.{IsAtOrder, spans_in};
ghost use Rattle.row_kinds.specs.Kinds.{is_seat_row, slots_where};
ghost use Rattle.slot_ranks.specs.Slots.{is_among};
ghost use Rattle.span_order.specs.Ranked.{rank_in};
ghost use Rattle.span_order.specs.Topped.{IsTopped};
ghost use Rattle.span_table.specs.Numbers.{bound};
ghost use Rattle.span_table.specs.Table.{spans_of};
ghost use Rattle.interval_tree.specs.Answers.{IsWithin, orders_of, touching};
ghost use Rattle.interval_tree.specs.Order.{rank_of};
ghost use Rattle.interval_tree.specs.Orders.{IsOrder};
ghost use Rattle.interval_tree.specs.Walk.{IsBound, IsFirst, IsStop, ends_of, found, nearest, place_in, starts_of};

use crate::walk::{Asked, Query, bound_of, keep, stop_of};
use edit_base::{NoMemory, Pick, SpanRow, Steps};
use span_flags::{lies_over, priority_of_word};
use span_order::{Order, Place, ToppedOrder};
use span_table::SpanRows;
use std::sync::ledger::Ledger;

/// The rows with the order of their slots by start, and the greatest ends over it.
#[derive(Clone, Copy)]
pub struct Tree<'a> {
    pub rows: &'a SpanRows,
    pub by_start: &'a ToppedOrder,
}

/// The spans over a range that are picked, by priority, highest first, and then in order of attachment. `out` is
/// cleared first, and empty where there is no memory.
pub fn over<L: Ledger>(
    tree: Tree,
    start: u32,
    end: u32,
    pick: Pick,
    out: &mut Vec<SpanRow>,
    steps: &mut Steps<L>,
) -> Result<(), NoMemory>
    requires order { IsOrder tree.rows.now.starts tree.rows.now.slots (concat tree.by_start.now.blocks) }
    requires topped { IsTopped tree.rows.now.ends tree.by_start.now.blocks tree.by_start.now.tops }
    ensures ok { OnOk result (spans_in out.new.items ≡ over start end pick (spans_of tree.entry.rows.now)) }
    ensures orders { All (IsAtOrder (spans_of tree.entry.rows.now)) out.new.items }
    ensures err { OnErr result (out.new.items ≡ []) }
    ensures more { steps.old ≤ steps.new }
    ensures ticks { IsWithin start end (spans_of tree.entry.rows.now) (steps.new - steps.old) }
    ensures room { length tree.entry.rows.now.kept ≤ vec_capacity out.old → IsOk result }
    ensures capacity { vec_capacity out.old ≤ vec_capacity out.new }
{
    ask(tree, start, end, Asked::Over(pick), out, steps)?;
    sort(out);
    Ok(())
}

/// The rows that touch a range, in no order that is told. `out` is cleared first, and empty where there is no memory.
pub fn touching<L: Ledger>(
    tree: Tree,
    start: u32,
    end: u32,
    out: &mut Vec<SpanRow>,
    steps: &mut Steps<L>,
) -> Result<(), NoMemory>
    requires order { IsOrder tree.rows.now.starts tree.rows.now.slots (concat tree.by_start.now.blocks) }
    requires topped { IsTopped tree.rows.now.ends tree.by_start.now.blocks tree.by_start.now.tops }
    ensures ok { OnOk result
        (IsPermutation (touching start end (spans_of tree.entry.rows.now)) (orders_of out.new.items)) }
    ensures orders { All (IsAtOrder (spans_of tree.entry.rows.now)) out.new.items }
    ensures err { OnErr result (out.new.items ≡ []) }
    ensures more { steps.old ≤ steps.new }
    ensures ticks { IsWithin start end (spans_of tree.entry.rows.now) (steps.new - steps.old) }
    ensures room { length tree.entry.rows.now.kept ≤ vec_capacity out.old → IsOk result }
    ensures capacity { vec_capacity out.old ≤ vec_capacity out.new }
{
    ask(tree, start, end, Asked::Touching, out, steps)
}

/// The rows that answer what is asked of a range, in order by start. `out` is cleared first, and empty where there is no
/// memory.
fn ask<L: Ledger>(
    tree: Tree,
    start: u32,
    end: u32,
    asked: Asked,
    out: &mut Vec<SpanRow>,
    steps: &mut Steps<L>,
) -> Result<(), NoMemory>
    requires order { IsOrder tree.rows.now.starts tree.rows.now.slots (concat tree.by_start.now.blocks) }
    requires topped { IsTopped tree.rows.now.ends tree.by_start.now.blocks tree.by_start.now.tops }
    ensures ok { OnOk result (out.new.items ≡ found asked start end (spans_of tree.entry.rows.now)
        (map (place_in tree.entry.rows.now.slots) (concat tree.entry.by_start.now.blocks))) }
    ensures err { OnErr result (out.new.items ≡ []) }
    ensures more { steps.old ≤ steps.new }
    ensures ticks { IsWithin start end (spans_of tree.entry.rows.now) (steps.new - steps.old) }
    ensures room { length tree.entry.rows.now.kept ≤ vec_capacity out.old → IsOk result }
    ensures capacity { vec_capacity out.old ≤ vec_capacity out.new }
    ensures few { length tree.entry.rows.now.kept < bound }
    ensures places { IsPermutation (range_with_len 0 (length (spans_of tree.entry.rows.now)))
        (map (place_in tree.entry.rows.now.slots) (concat tree.entry.by_start.now.blocks)) }
{
    out.clear();
    // What is known of the rows comes with their number.
    let _count = tree.rows.count();
    let query = Query {
        start,
        end,
        bound: bound_of(tree.rows.gap(), tree.rows.room(), start),
        stop: stop_of(tree.rows.gap(), tree.rows.room(), end),
        asked,
    };
    match gather(tree, &query, out, steps) {
        Ok(()) => Ok(()),
        Err(error) => Err(give_up(error, out)),
    }
}

/// Pushes the rows that answer a query, in order by start, and looks at few that don't touch its range.
fn gather<L: Ledger>(
    tree: Tree,
    query: &Query,
    out: &mut Vec<SpanRow>,
    steps: &mut Steps<L>,
) -> Result<(), NoMemory>
    requires order { IsOrder tree.rows.now.starts tree.rows.now.slots (concat tree.by_start.now.blocks) }
    requires topped { IsTopped tree.rows.now.ends tree.by_start.now.blocks tree.by_start.now.tops }
    requires bound { IsBound tree.rows.now.gap tree.rows.now.room query.now.start query.now.bound }
    requires stop { IsStop tree.rows.now.gap tree.rows.now.room query.now.end query.now.stop }
    ensures ok { OnOk result (out.new.items ≡ out.old.items
        ++ found query.now.asked query.now.start query.now.end (spans_of tree.entry.rows.now)
        (map (place_in tree.entry.rows.now.slots) (concat tree.entry.by_start.now.blocks))) }
    ensures more { steps.old ≤ steps.new }
    ensures ticks { IsWithin query.now.start query.now.end (spans_of tree.entry.rows.now) (steps.new - steps.old) }
    ensures room { length out.old.items + length tree.entry.rows.now.kept ≤ vec_capacity out.old → IsOk result }
    ensures capacity { vec_capacity out.old ≤ vec_capacity out.new }
{
    // What is known of the rows comes with their number.
    let _count = tree.rows.count();
    let mut at = Place { block: 0, index: 0 };
    while let Some(slot) = tree.by_start.next_hit(
        tree.rows.starts(),
        tree.rows.ends(),
        &mut at,
        query.bound,
        query.stop,
        steps,
    ) {
        take_hit(tree.rows, slot, query, out)?;
    }
    Ok(())
}

/// Pushes the row in a slot where it answers a query.
fn take_hit(
    rows: &SpanRows,
    slot: u32,
    query: &Query,
    out: &mut Vec<SpanRow>,
) -> Result<(), NoMemory>
    requires live { is_among rows.now.slots slot ≡ true }
    ensures ok { OnOk result (out.new.items ≡ out.old.items
        ++ found query.now.asked query.now.start query.now.end (spans_of rows.now) (place_in rows.now.slots slot ∷ [])) }
    ensures room { length out.old.items < vec_capacity out.old → IsOk result }
    ensures capacity { vec_capacity out.old ≤ vec_capacity out.new }
{
    // What is known of the rows comes with their number.
    let _count = rows.count();
    let row = rows.read_in(slot);
    keep(&row, query, out)
}

/// The least place behind `start` and below `limit` where a span starts or ends, else `limit`.
pub fn next_edge(rows: &SpanRows, by_start: &Order, by_end: &Order, start: u32, limit: u32) -> u32
    requires starting { IsOrder rows.now.starts rows.now.slots (concat by_start.now.blocks) }
    requires ending { IsOrder rows.now.ends rows.now.slots (concat by_end.now.blocks) }
    ensures { result ≡ next_edge start limit (spans_of rows.now) }
{
    let first = next_start(rows, by_start, start, limit);
    let second = next_end(rows, by_end, start, limit);
    first.min(second)
}

/// The least place behind `start` and below `limit` where a span starts, else `limit`.
fn next_start(rows: &SpanRows, by_start: &Order, start: u32, limit: u32) -> u32
    requires { IsOrder rows.now.starts rows.now.slots (concat by_start.now.blocks) }
    ensures { result ≡ nearest start limit (starts_of (spans_of rows.now)) }
{
    // What is known of the rows comes with their number.
    let _count = rows.count();
    let stop = stop_of(rows.gap(), rows.room(), start);
    match first_behind(rows.starts(), by_start, stop) {
        Some(slot) => rows.read_in(slot).start.min(limit),
        None => limit,
    }
}

/// The least place behind `start` and below `limit` where a span ends, else `limit`.
fn next_end(rows: &SpanRows, by_end: &Order, start: u32, limit: u32) -> u32
    requires { IsOrder rows.now.ends rows.now.slots (concat by_end.now.blocks) }
    ensures { result ≡ nearest start limit (ends_of (spans_of rows.now)) }
{
    // What is known of the rows comes with their number.
    let _count = rows.count();
    let stop = stop_of(rows.gap(), rows.room(), start);
    match first_behind(rows.ends(), by_end, stop) {
        Some(slot) => rows.read_in(slot).end.min(limit),
        None => limit,
    }
}

/// The first slot whose number is greater than this one, of slots that rise by their numbers.
fn first_behind(keys: &[u64], order: &Order, number: u64) -> Option<u32>
    requires rising { IsNonDecreasingBy (rank_in keys.now) (concat order.now.blocks) }
    requires below { All (λ slot. slot < 4294967295) (concat order.now.blocks) }
    ensures some { IfSome result (λ slot. IsFirst keys.now (concat order.now.blocks) number slot) }
    ensures none { IfNone result (All (λ slot. slice_index keys.now slot ≤ number) (concat order.now.blocks)) }
{
    // No slot is the greatest u32, so that all with this number rank below it.
    let at = order.seek(keys, number, u32::MAX);
    order.get(at)
}

/// The seats over a range, looked for among these slots, which are those of all seats. One step for each of them.
pub fn seats_over<L: Ledger>(
    rows: &SpanRows,
    seats: &[u32],
    start: u32,
    end: u32,
    out: &mut Vec<SpanRow>,
    steps: &mut Steps<L>,
) -> Result<(), NoMemory>
    requires all { seats.now ≡ slots_where is_seat_row rows.now.kept rows.now.slots }
    ensures ok { OnOk result (spans_in out.new.items ≡ over start end Watches (spans_of rows.now)) }
    ensures orders { All (IsAtOrder (spans_of rows.now)) out.new.items }
    ensures err { OnErr result (out.new.items ≡ []) }
    ensures ticks { steps.new ≡ steps.old + length seats.now }
    ensures room { length rows.now.kept ≤ vec_capacity out.old → IsOk result }
    ensures capacity { vec_capacity out.old ≤ vec_capacity out.new }
{
    // What is known of the rows comes with their number.
    let _count = rows.count();
    out.clear();
    match take_seats(rows, seats, start, end, out, steps) {
        Ok(()) => {
            sort(out);
            Ok(())
        }
        Err(no_memory) => Err(give_up(no_memory, out)),
    }
}

/// The rows in these slots that lie over a range, behind none. All of them are read, even where there is no memory.
fn take_seats<L: Ledger>(
    rows: &SpanRows,
    seats: &[u32],
    start: u32,
    end: u32,
    out: &mut Vec<SpanRow>,
    steps: &mut Steps<L>,
) -> Result<(), NoMemory>
    requires none { out.old.items ≡ [] }
    requires live { All (λ seat. is_among rows.now.slots seat ≡ true) seats.now }
    ensures ok { OnOk result (out.new.items
        ≡ found (Over pick.All) start end (spans_of rows.now) (map (place_in rows.now.slots) seats.now)) }
    ensures ticks { steps.new ≡ steps.old + length seats.now }
    ensures room { length seats.now ≤ vec_capacity out.old → IsOk result }
    ensures capacity { vec_capacity out.old ≤ vec_capacity out.new }
{
    let mut so_far = Ok(());
    for seat in seats {
        so_far = take_seat(rows, *seat, start, end, so_far, out, steps);
    }
    so_far
}

/// Reads the row in a slot, and pushes it where it lies over a range and there was memory so far.
fn take_seat<L: Ledger>(
    rows: &SpanRows,
    seat: u32,
    start: u32,
    end: u32,
    so_far: Result<(), NoMemory>,
    out: &mut Vec<SpanRow>,
    steps: &mut Steps<L>,
) -> Result<(), NoMemory>
    requires live { is_among rows.now.slots seat ≡ true }
    ensures so_far { OnOk result (IsOk so_far) }
    ensures ok { OnOk result (out.new.items ≡ out.old.items
        ++ found (Over pick.All) start end (spans_of rows.now) (place_in rows.now.slots seat ∷ [])) }
    ensures tick { steps.new ≡ steps.old + 1 }
    ensures room { IsOk so_far → length out.old.items < vec_capacity out.old → IsOk result }
    ensures capacity { vec_capacity out.old ≤ vec_capacity out.new }
{
    // What is known of the rows comes with their number.
    let _count = rows.count();
    let row = rows.row_in(seat, steps);
    so_far?;
    if lies_over(&row, start, end) {
        out.push(row)?;
    }
    Ok(())
}

/// Nothing is left of an answer that there is no memory for.
fn give_up(error: NoMemory, out: &mut Vec<SpanRow>) -> NoMemory
    ensures none { out.new.items ≡ [] }
    ensures capacity { vec_capacity out.new ≡ vec_capacity out.old }
{
    out.clear();
    error
}

/// Sorts rows by priority, highest first, and then by order.
fn sort(rows: &mut Vec<SpanRow>)
    ensures permutation { IsPermutation rows.old.items rows.new.items }
    ensures rising { IsNonDecreasingBy rank_of rows.new.items }
    ensures capacity { vec_capacity rows.new ≡ vec_capacity rows.old }
{
    rows.sort_unstable_by_key(rank);
}

/// Rows of a lower rank come first. Orders are places of rows, which fit 32 bits, so ranks of rows differ.
fn rank(row: &SpanRow) -> u64
    ensures { result ≡ rank_of row.now }
{
    u64::from(u8::MAX - priority_of_word(row.flags)) * ORDERS + row.order % ORDERS
}

/// One more than the greatest order.
const ORDERS: u64 = 1 << 32;
