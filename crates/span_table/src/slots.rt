//! What is kept by slots.

ghost use Rattle.std.specs.Prelude.{◌≡◌, ◌<◌, ◌≤◌, ◌+◌, ◌-◌, ℕ, true, length, slice_index, vec_capacity, IfOk};
ghost use Rattle.std.specs.List.{All};
ghost use Rattle.slot_ranks.specs.Slots.{is_live, line};
ghost use Rattle.span_table.specs.Numbers.{bound, crosses, opened, shut};
ghost use Rattle.span_table.specs.Slots.{HasOnce, IsPacked, IsShut, IsWritten, places, row_in};

use crate::kept::KeptRow;
use crate::numbers::carried;
use edit_base::{NoMemory, What};
use slot_ranks::SlotRanks;

/// What is kept of a row beside the numbers of its ends.
#[derive(Clone, Copy, Debug, PartialEq, Eq)]
pub struct Fixed {
    pub id: u32,
    pub flags: u32,
    pub what: What,
}

/// The row in a slot.
pub fn row_in(fixed: &[Fixed], starts: &[u64], ends: &[u64], slot: u32) -> KeptRow
    requires fixed { slot < length fixed.now }
    requires starts { slot < length starts.now }
    requires ends { slot < length ends.now }
    ensures { result ≡ row_in fixed.now starts.now ends.now slot }
{
    let at = slot as usize;
    let part = fixed[at];
    KeptRow {
        id: part.id,
        flags: part.flags,
        start: starts[at],
        end: ends[at],
        what: part.what,
    }
}

/// How many rows may be kept in so many slots. One in five stays free, so that slots without a row are squeezed out only
/// once in so many rows that come.
pub fn places(slots: u32) -> u32
    ensures { result ≡ places slots }
{
    slots - slots / 5
}

/// How many slots so many rows and some more of them take.
///
/// # Errors
/// `NoMemory` where slots would have numbers that no u32 counts.
pub fn slots_for(rows: u32, more: u32) -> Result<u32, NoMemory>
    ensures ok { IfOk result (λ slots. rows + more ≤ places slots) }
{
    let rows = u64::from(rows) + u64::from(more);
    let slots = rows + rows / 4;
    if slots > u64::from(u32::MAX) {
        return Err(NoMemory);
    }
    Ok(slots as u32)
}

/// What is kept for live slots goes to their ranks, and what is kept for others goes.
pub fn pack<T: Copy>(items: &mut Vec<T>, ranks: &SlotRanks)
    requires { length items.old.items ≡ length ranks.now.live }
    ensures packed { IsPacked (line ranks.now.live) items.old.items items.new.items }
    ensures capacity { vec_capacity items.old ≤ vec_capacity items.new }
{
    for slot in 0..ranks.len() {
        if !ranks.is_live(slot) {
            continue;
        }
        items[ranks.rank(slot) as usize] = items[slot as usize];
    }
    items.truncate(ranks.count() as usize);
}

/// The numbers of live slots go from one gap to another.
pub fn carry_live(
    numbers: &mut [u64],
    ranks: &SlotRanks,
    old_gap: u32,
    old_room: u32,
    new_gap: u32,
    new_room: u32,
)
    requires long { length numbers.old ≡ length ranks.now.live }
    requires valid { (slot : ℕ) → is_live ranks.now.live slot ≡ true → IsShut old_gap old_room (slice_index numbers.old slot) }
    ensures { (slot : ℕ) → is_live ranks.now.live slot ≡ true → slice_index numbers.new slot
        ≡ opened new_gap new_room (shut old_gap old_room (slice_index numbers.old slot)) }
{
    for slot in 0..ranks.len() {
        if !ranks.is_live(slot) {
            continue;
        }
        let at = slot as usize;
        numbers[at] = carried(numbers[at], old_gap, old_room, new_gap, new_room);
    }
}

/// The numbers of these slots rise.
pub fn raise_run(numbers: &mut [u64], run: &[u32], by: u64)
    requires within { All (λ slot. slot < length numbers.old) run.now }
    requires once { HasOnce run.now }
    requires fits { All (λ slot. slice_index numbers.old slot + by < 18446744073709551616) run.now }
    ensures { IsWritten (λ number. number + by) run.now numbers.old numbers.new }
{
    for slot in run {
        numbers[*slot as usize] += by;
    }
}

/// The numbers of these slots fall.
pub fn lower_run(numbers: &mut [u64], run: &[u32], by: u64)
    requires within { All (λ slot. slot < length numbers.old) run.now }
    requires once { HasOnce run.now }
    requires fits { All (λ slot. by ≤ slice_index numbers.old slot) run.now }
    ensures { IsWritten (λ number. number - by) run.now numbers.old numbers.new }
{
    for slot in run {
        numbers[*slot as usize] -= by;
    }
}

/// The numbers of these slots, whose ends stand between two places of the gap, go from the one to the other.
pub fn bring_run(numbers: &mut [u64], run: &[u32], gap: u32, to: u32, room: u32)
    requires within { All (λ slot. slot < length numbers.old) run.now }
    requires once { HasOnce run.now }
    requires valid { All (λ slot. IsShut gap room (slice_index numbers.old slot)) run.now }
    requires between { All (λ slot. crosses gap to room (slice_index numbers.old slot) ≡ true) run.now }
    ensures { IsWritten (λ number. opened to room (shut gap room number)) run.now numbers.old numbers.new }
{
    let by = 2 * u64::from(room);
    if to < gap {
        raise_run(numbers, run, by);
    } else {
        lower_run(numbers, run, by);
    }
}
