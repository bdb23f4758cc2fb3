//! A change of a run of slots in a list in blocks.

ghost use Rattle.std.specs.Prelude.{◌≡◌, ◌≤◌, ◌<◌, ◌+◌, ◌-◌, ◌*◌, ◌++◌, ◌∷◌, ℕ, List, length, take, drop, nat_lt, vec_len, vec_capacity, if◌then◌else◌};
ghost use Rattle.std.specs.Bool.{OnTrue};
ghost use Rattle.std.specs.List.{concat};
ghost use Rattle.span_order.specs.Blocks.{IsPlace, Keeps, Packed, block_at, number_of, size_before, size_behind};
ghost use Rattle.span_order.specs.Window.{FitsWithin, IsWindow, IsWritten, all_of, least_piece, size_of};

use crate::block::{BLOCK, Block};
use crate::places::{Changed, Place};
use crate::run::Run;

/// Neighbours hold more slots than this together.
const SMALL: usize = 32;

/// Blocks that are made anew.
#[derive(Drop)]
pub struct Window {
    /// The first of them.
    pub first: usize,
    /// The first block behind them.
    pub end: usize,
    /// The slots of these blocks that stay before what comes.
    pub head: Block,
    /// The slots of these blocks that stay behind it.
    pub tail: Block,
}

/// How far the blocks of a window are written.
#[derive(Clone, Copy)]
pub struct Written {
    /// Where the next block goes.
    pub next: usize,
    /// The first block that is not yet written over, as it was counted at first.
    pub over: usize,
}

/// The slots from one place up to another become these.
pub fn splice_blocks(blocks: &mut Vec<Block>, from: Place, to: Place, slots: &[u32]) -> Changed
    requires packed { Packed blocks.old.items }
    requires from { IsPlace blocks.old.items from }
    requires to { IsPlace blocks.old.items to }
    requires order { from.block ≤ to.block }
    requires same { from.block ≡ to.block → from.index ≤ to.index }
    requires room { length (concat blocks.old.items) + length slots.now
        ≤ (number_of blocks.old.items to - number_of blocks.old.items from) + 16 * (vec_capacity blocks.old - 3) }
    ensures all { concat blocks.new.items ≡ take (number_of blocks.old.items from) (concat blocks.old.items)
        ++ (slots.now ++ drop (number_of blocks.old.items to) (concat blocks.old.items)) }
    ensures packed { Packed blocks.new.items }
    ensures keeps { Keeps blocks.old.items blocks.new.items result }
    ensures capacity { vec_capacity blocks.old ≤ vec_capacity blocks.new }
{
    if stays_within(blocks, from, to, slots.len()) {
        return replace_within(blocks, from, to, slots);
    }
    let window = window_around(blocks, from, to, slots.len());
    rewrite(
        blocks,
        window.first,
        window.end,
        &Run {
            head: window.head.as_slice(),
            slots,
            tail: window.tail.as_slice(),
        },
    )
}

/// How many slots the block before a place among blocks holds; none counts as a large one.
fn size_before(blocks: &[Block], at: usize) -> usize
    requires { at ≤ length blocks.now }
    ensures size { result ≡ size_before blocks.now at }
    ensures few { result ≤ 64 }
{
    if at == 0 {
        SMALL + 1
    } else {
        blocks[at - 1].len()
    }
}

/// How many slots the block behind a place among blocks holds; none counts as a large one.
fn size_behind(blocks: &[Block], at: usize) -> usize
    ensures size { result ≡ size_behind blocks.now at }
    ensures few { result ≤ 64 }
{
    if at < blocks.len() {
        blocks[at].len()
    } else {
        SMALL + 1
    }
}

/// Whether so many slots can come within one block, and leave the blocks packed.
fn stays_within(blocks: &[Block], from: Place, to: Place, slots: usize) -> bool
    requires from { IsPlace blocks.now from }
    requires to { IsPlace blocks.now to }
    requires order { from.block ≤ to.block }
    requires same { from.block ≡ to.block → from.index ≤ to.index }
    ensures { OnTrue result (FitsWithin blocks.now from to slots) }
{
    if from.block != to.block || from.block >= blocks.len() || slots > BLOCK {
        return false;
    }
    let count = blocks[from.block].len() - (to.index - from.index) + slots;
    if count == 0 || count > BLOCK {
        return false;
    }
    if count > SMALL {
        return true;
    }
    let before = size_before(blocks, from.block);
    let behind = size_behind(blocks, from.block + 1);
    before + count > SMALL && count + behind > SMALL
}

/// The slots from one place of a block up to another become these, and fit there.
fn replace_within(blocks: &mut Vec<Block>, from: Place, to: Place, slots: &[u32]) -> Changed
    requires packed { Packed blocks.old.items }
    requires from { IsPlace blocks.old.items from }
    requires to { IsPlace blocks.old.items to }
    requires same { from.index ≤ to.index }
    requires fits { FitsWithin blocks.old.items from to (length slots.now) }
    ensures all { concat blocks.new.items ≡ take (number_of blocks.old.items from) (concat blocks.old.items)
        ++ (slots.now ++ drop (number_of blocks.old.items to) (concat blocks.old.items)) }
    ensures packed { Packed blocks.new.items }
    ensures keeps { Keeps blocks.old.items blocks.new.items result }
    ensures capacity { vec_capacity blocks.old ≤ vec_capacity blocks.new }
{
    let first = from.block;
    blocks[first].replace(from.index, to.index, slots);
    Changed {
        first,
        old_end: first + 1,
        end: first + 1,
    }
}

/// The slots of a place's block that stand before it.
fn head_at(blocks: &[Block], place: Place) -> Block
    requires { IsPlace blocks.now place }
    ensures { result ≡ take place.index (block_at blocks.now place.block) }
{
    if place.block < blocks.len() {
        Block::of(&blocks[place.block].as_slice()[..place.index])
    } else {
        Block::new()
    }
}

/// The slots of a place's block that stand behind it.
fn tail_at(blocks: &[Block], place: Place) -> Block
    requires { IsPlace blocks.now place }
    ensures { result ≡ drop place.index (block_at blocks.now place.block) }
{
    if place.block < blocks.len() {
        Block::of(&blocks[place.block].as_slice()[place.index..])
    } else {
        Block::new()
    }
}

/// The blocks in which slots from one place up to another stand.
fn window_of(blocks: &[Block], from: Place, to: Place) -> Window
    requires from { IsPlace blocks.now from }
    requires to { IsPlace blocks.now to }
    requires order { from.block ≤ to.block }
    ensures { IsWindow blocks.now (take (number_of blocks.now from) (concat blocks.now))
        (drop (number_of blocks.now to) (concat blocks.now)) result }
{
    Window {
        first: from.block,
        end: (to.block + 1).min(blocks.len()),
        head: head_at(blocks, from),
        tail: tail_at(blocks, to),
    }
}

/// The blocks that are made anew where so many slots come from one place up to another: those in which the old ones
/// stand, with a neighbour that would be small beside them.
fn window_around(blocks: &[Block], from: Place, to: Place, slots: usize) -> Window
    requires packed { Packed blocks.now }
    requires from { IsPlace blocks.now from }
    requires to { IsPlace blocks.now to }
    requires order { from.block ≤ to.block }
    ensures is { IsWindow blocks.now (take (number_of blocks.now from) (concat blocks.now))
        (drop (number_of blocks.now to) (concat blocks.now)) result }
    ensures before { 32 < size_before blocks.now result.first + size_of result slots }
    ensures behind { 32 < size_of result slots + size_behind blocks.now result.end }
{
    let window = window_of(blocks, from, to);
    let window = widen_front(blocks, window, slots);
    widen_back(blocks, window, slots)
}

/// Takes the block before a window into it where that one would be small beside it.
fn widen_front(blocks: &[Block], window: Window, slots: usize) -> Window
    requires packed { Packed blocks.now }
    requires order { window.first ≤ window.end }
    requires within { window.end ≤ length blocks.now }
    ensures is { (front back : List ℕ) → IsWindow blocks.now front back window → IsWindow blocks.now front back result }
    ensures before { 32 < size_before blocks.now result.first + size_of result slots }
{
    let before = size_before(blocks, window.first);
    let count = size_with(&window, slots);
    if before > SMALL || count > SMALL || before + count > SMALL {
        return window;
    }
    let Window {
        first,
        end,
        head,
        tail,
    } = window;
    let mut wider = Block::of(blocks[first - 1].as_slice());
    wider.extend(head.as_slice());
    Window {
        first: first - 1,
        end,
        head: wider,
        tail,
    }
}

/// Takes the block behind a window into it where that one would be small beside it.
fn widen_back(blocks: &[Block], window: Window, slots: usize) -> Window
    requires packed { Packed blocks.now }
    requires order { window.first ≤ window.end }
    requires within { window.end ≤ length blocks.now }
    requires before { 32 < size_before blocks.now window.first + size_of window slots }
    ensures is { (front back : List ℕ) → IsWindow blocks.now front back window → IsWindow blocks.now front back result }
    ensures before { 32 < size_before blocks.now result.first + size_of result slots }
    ensures behind { 32 < size_of result slots + size_behind blocks.now result.end }
{
    let behind = size_behind(blocks, window.end);
    let count = size_with(&window, slots);
    if behind > SMALL || count > SMALL || count + behind > SMALL {
        return window;
    }
    let Window {
        first,
        end,
        head,
        mut tail,
    } = window;
    tail.extend(blocks[end].as_slice());
    Window {
        first,
        end: end + 1,
        head,
        tail,
    }
}

/// How many slots a window's blocks will hold where so many come; a large number stands for all above it.
fn size_with(window: &Window, slots: usize) -> usize
    ensures small { result ≤ 32 → result ≡ size_of window.now slots }
    ensures large { 32 < result → 32 < size_of window.now slots }
    ensures few { result ≤ 192 }
{
    window.head.len() + slots.min(BLOCK) + window.tail.len()
}

/// The blocks of a window hold a run of slots now, and no others. No memory is asked for.
fn rewrite(blocks: &mut Vec<Block>, first: usize, end: usize, run: &Run<'_>) -> Changed
    requires packed { Packed blocks.old.items }
    requires order { first ≤ end }
    requires within { end ≤ vec_len blocks.old }
    requires before { 32 < size_before blocks.old.items first + length (all_of run.now) }
    requires behind { 32 < length (all_of run.now) + size_behind blocks.old.items end }
    requires room { length (concat (take first blocks.old.items)) + length (all_of run.now)
        + length (concat (drop end blocks.old.items)) ≤ 16 * (vec_capacity blocks.old - 3) }
    ensures all { concat blocks.new.items ≡ concat (take first blocks.old.items)
        ++ (all_of run.now ++ concat (drop end blocks.old.items)) }
    ensures packed { Packed blocks.new.items }
    ensures keeps { Keeps blocks.old.items blocks.new.items result }
    ensures capacity { vec_capacity blocks.old ≤ vec_capacity blocks.new }
    ensures changed { (result.first ≡ first) × (result.old_end ≡ end) }
{
    let written = write_pieces(blocks, first, end, run);
    close(blocks, written.next, end - written.over);
    Changed {
        first,
        old_end: end,
        end: written.next,
    }
}

/// Writes a run of slots over the blocks of a window, and in new blocks where those don't hold them.
fn write_pieces(blocks: &mut Vec<Block>, first: usize, end: usize, run: &Run<'_>) -> Written
    requires order { first ≤ end }
    requires within { end ≤ vec_len blocks.old }
    requires room { 0 < length (all_of run.now)
        → 32 * (first + (vec_len blocks.old - end)) + length (all_of run.now) + 31 ≤ 32 * vec_capacity blocks.old }
    ensures written { IsWritten blocks.old.items blocks.new.items first end (all_of run.now) (least_piece (length (all_of run.now))) result }
    ensures capacity { vec_capacity blocks.old ≤ vec_capacity blocks.new }
{
    let all = run.len();
    let mut written = Written {
        next: first,
        over: first,
    };
    let mut at = 0;
    while at < all {
        let count = piece_size(all - at);
        let block = run.piece(at, count);
        written = put(blocks, written, end, block);
        at += count;
    }
    written
}

/// How many of the slots that are left the next piece holds: the last two pieces share what is over one block.
fn piece_size(left: usize) -> usize
    requires { 0 < left }
    ensures some { 0 < result }
    ensures few { result ≤ 64 }
    ensures within { result ≤ left }
    ensures large { least_piece left ≤ result }
    ensures rest { result < left → 32 + result ≤ left }
{
    if left <= BLOCK {
        left
    } else if left <= 2 * BLOCK {
        left / 2
    } else {
        BLOCK
    }
}

/// Puts a block where the next one goes: over an old one while a window has some, else before what stands behind it.
fn put(blocks: &mut Vec<Block>, written: Written, end: usize, block: Block) -> Written
    requires next { written.next ≤ vec_len blocks.old }
    requires over { written.over < end → written.next < vec_len blocks.old }
    requires room { end ≤ written.over → vec_len blocks.old < vec_capacity blocks.old }
    ensures items { blocks.new.items ≡ take written.next blocks.old.items
        ++ block ∷ drop (written.next + (result.over - written.over)) blocks.old.items }
    ensures next { result.next ≡ written.next + 1 }
    ensures over { result.over ≡ (if nat_lt written.over end then written.over + 1 else written.over) }
    ensures capacity { vec_capacity blocks.old ≤ vec_capacity blocks.new }
{
    if written.over < end {
        blocks[written.next] = block;
        Written {
            next: written.next + 1,
            over: written.over + 1,
        }
    } else {
        // There is room, so this succeeds.
        let _ = blocks.insert(written.next, block);
        Written {
            next: written.next + 1,
            over: written.over,
        }
    }
}

/// Takes out so many blocks from a place on.
fn close(blocks: &mut Vec<Block>, at: usize, count: usize)
    requires { at + count ≤ vec_len blocks.old }
    ensures items { blocks.new.items ≡ take at blocks.old.items ++ drop (at + count) blocks.old.items }
    ensures capacity { vec_capacity blocks.new ≡ vec_capacity blocks.old }
{
    blocks.drain(at..at + count);
}
