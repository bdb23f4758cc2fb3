//! How rows moved at an edit.

ghost use Rattle.std.specs.Prelude.{◌≡◌, ◌≤◌, ◌<◌, ◌+◌, ◌-◌, ◌++◌, ◌||◌, [], ◌∷◌, ℕ, None, Some, false, length, map, filter_map, option_map, vec_capacity, vec_len, IfOk, OnOk, OnErr, IsOk, MatchOption};
ghost use Rattle.std.specs.List.{All, range_with_len, slice_set};
ghost use Rattle.edit_model.specs.Attached.{is_attached};
ghost use Rattle.edit_model.specs.Changed.{has_moved};
ghost use Rattle.edit_model.specs.Rows.{span_of};
ghost use Rattle.span_table.specs.Numbers.{bound};
ghost use Rattle.span_table.specs.Table.{HasRoomFor, IsClearOf, closed_span, kept_at, kept_span, pushed_span, seen, span_at, spans_of, without_at};
ghost use Rattle.moved_rows.specs.Moves.{AreEarlier, ArePlaced, AreNoted, AreStamped, IsBegun, befores, is_set, moved_of, no_old, noted, noted_at, shift_at, shift_of, told_at, told_from};
ghost use Rattle.moved_rows.specs.Iterated.{shifts_left};

use edit_base::{NoMemory, SpanRow, Steps, What};
use interval_tree::SpanIndex;
use span_table::{KeptRow, SpanRows, push_within};
use std::alloc::Global;
use std::marker::Model;
use std::sync::ledger::Ledger;

/// A span before an edit and after it.
#[derive(Clone, Copy, Debug, PartialEq, Eq)]
pub struct MovedRow {
    pub from: SpanRow,
    pub to: SpanRow,
}

/// A row as it stood when the edit with this stamp began.
#[derive(Clone, Copy, Debug)]
struct OldRow {
    stamp: u32,
    row: KeptRow,
}

/// The rows, and how each moved that stood before the last edit and wasn't removed by it, by its place in order of
/// attachment. Nothing is written for a row that an edit leaves at its number: what is told is read from the row, from
/// its note, and from where the gap stood. There is nothing to tell of a row that a replacement left at its places, nor
/// of one that a set or a removal of another span left.
#[derive(Drop)]
pub struct MovedRows {
    rows: SpanIndex,
    /// By place; a note counts where its stamp is that of the last edit.
    olds: Vec<OldRow>,
    /// Of the last edit: its stamp, and the gap and the number of rows as it began.
    stamp: u32,
    gap: u32,
    room: u32,
    stood: u32,
    /// The place of the row that the edit set, which is told of wherever it went.
    told: Option<u32>,
}

impl Model for MovedRows {
    ghost use Rattle.std.specs.Prelude.{◌-◌, min, vec_capacity, vec_len};
    ghost use Rattle.moved_rows.specs.Moves.{AreNoted, Moves, befores};

    ghost Value = { Moves };

    ghost view = { λ it. record {
      rows = record {
        kept = it.rows.kept;
        gap = it.rows.gap;
        room = it.rows.room;
        spare = min it.rows.spare (vec_capacity it.olds - vec_len it.olds);
        slots = it.rows.slots;
        starts = it.rows.starts;
        ends = it.rows.ends;
        left = it.rows.left;
      };
      before = befores it.rows.kept it.olds.items it.stamp it.gap it.room it.stood;
      told = it.told;
    } };

    ghost invariant = { λ it. AreNoted it.rows.kept it.olds.items it.stamp it.gap it.room it.stood };
}

impl MovedRows {
    /// No rows, round a gap at the place 0 of this length.
    pub fn new(alloc: Global, room: u32) -> Result<MovedRows, NoMemory>
        ensures kept { IfOk result (λ moved. moved.rows.kept ≡ []) }
        ensures gap { IfOk result (λ moved. moved.rows.gap ≡ 0) }
        ensures room { IfOk result (λ moved. moved.rows.room ≡ room) }
        ensures begun { IfOk result (λ moved. IsBegun moved) }
    {
        let mut rows = SpanIndex::new(alloc)?;
        rows.shift_for_gap(0, 0, 0, room);
        Ok(MovedRows {
            rows,
            olds: Vec::new(alloc),
            stamp: 0,
            gap: 0,
            room: 0,
            stood: 0,
            told: None,
        })
    }

    /// The rows.
    pub fn rows(&self) -> &SpanIndex
        ensures kept { result.now.kept ≡ self.now.rows.kept }
        ensures gap { result.now.gap ≡ self.now.rows.gap }
        ensures room { result.now.room ≡ self.now.rows.room }
        ensures spans { spans_of result.now ≡ spans_of self.now.rows }
        ensures spare { self.now.rows.spare ≤ result.now.spare }
    {
        &self.rows
    }

    /// Makes room for so many rows. Where there is room already no memory is asked for.
    pub fn reserve(&mut self, spans: u32) -> Result<(), NoMemory>
        ensures ok { OnOk result (spans ≤ self.new.rows.spare) }
        ensures kept { self.new.rows.kept ≡ self.old.rows.kept }
        ensures gap { self.new.rows.gap ≡ self.old.rows.gap }
        ensures room { self.new.rows.room ≡ self.old.rows.room }
        ensures spare { self.old.rows.spare ≤ self.new.rows.spare }
        ensures before { self.new.before ≡ self.old.before }
        ensures told { self.new.told ≡ self.old.told }
        ensures moved { moved_of self.new ≡ moved_of self.old }
        ensures within { spans ≤ self.old.rows.spare → IsOk result }
    {
        self.rows.reserve(spans)?;
        self.olds.reserve(spans as usize)?;
        Ok(())
    }

    // ---- before an edit

    /// An edit begins: the rows stand where it found them.
    pub fn begin(&mut self)
        ensures rows { self.new.rows ≡ self.old.rows }
        ensures begun { IsBegun self.new }
    {
        self.stamp = next_stamp(&mut self.olds, self.stamp);
        let rows = self.rows.rows();
        self.gap = rows.gap();
        self.room = rows.room();
        self.stood = rows.count();
        self.told = None;
    }

    /// The gap goes to a place; every row is seen as before. Nothing is done where it stands there.
    pub fn bring_gap(&mut self, to: u32)
        ensures spans { spans_of self.new.rows ≡ spans_of self.old.rows }
        ensures count { length self.new.rows.kept ≡ length self.old.rows.kept }
        ensures gap { self.new.rows.gap ≡ to }
        ensures room { self.new.rows.room ≡ self.old.rows.room }
        ensures spare { self.old.rows.spare ≤ self.new.rows.spare }
        ensures begun { IsBegun self.new }
    {
        carry_gap(&mut self.rows, to);
        self.stood = 0;
        self.begin();
    }

    /// Removes the row at a place; those behind it take the places before theirs.
    pub fn remove(&mut self, i: u32)
        requires { i < length self.old.rows.kept }
        ensures kept { self.new.rows.kept ≡ without_at i self.old.rows.kept }
        ensures spans { spans_of self.new.rows ≡ without_at i (spans_of self.old.rows) }
        ensures gap { self.new.rows.gap ≡ self.old.rows.gap }
        ensures room { self.new.rows.room ≡ self.old.rows.room }
        ensures spare { self.old.rows.spare ≤ self.new.rows.spare }
        ensures begun { IsBegun self.new }
    {
        self.rows.remove(i);
        self.olds.pop();
        self.stood = 0;
        self.begin();
    }

    // ---- within an edit

    /// The row at a place becomes this one, of the same id and order.
    pub fn put(&mut self, i: u32, row: &SpanRow)
        requires within { i < length self.old.before }
        requires id { row.now.id ≡ (span_at (spans_of self.old.rows) i).id }
        requires order { row.now.order ≡ i }
        ensures kept { self.new.rows.kept
            ≡ slice_set self.old.rows.kept i (kept_span self.old.rows.gap self.old.rows.room (span_of row.now)) }
        ensures spans { spans_of self.new.rows ≡ slice_set (spans_of self.old.rows) i (span_of row.now) }
        ensures gap { self.new.rows.gap ≡ self.old.rows.gap }
        ensures room { self.new.rows.room ≡ self.old.rows.room }
        ensures spare { self.old.rows.spare ≤ self.new.rows.spare }
        ensures before { self.new.before ≡ self.old.before }
        ensures told { self.new.told ≡ self.old.told }
    {
        note(self.rows.rows(), &mut self.olds, i, self.stamp);
        self.rows.put(i, row);
    }

    /// The row at a place becomes this one, of the same id and order, and is told of wherever it went.
    pub fn set(&mut self, i: u32, row: &SpanRow)
        requires within { i < length self.old.before }
        requires id { row.now.id ≡ (span_at (spans_of self.old.rows) i).id }
        requires order { row.now.order ≡ i }
        ensures kept { self.new.rows.kept
            ≡ slice_set self.old.rows.kept i (kept_span self.old.rows.gap self.old.rows.room (span_of row.now)) }
        ensures spans { spans_of self.new.rows ≡ slice_set (spans_of self.old.rows) i (span_of row.now) }
        ensures gap { self.new.rows.gap ≡ self.old.rows.gap }
        ensures room { self.new.rows.room ≡ self.old.rows.room }
        ensures spare { self.old.rows.spare ≤ self.new.rows.spare }
        ensures before { self.new.before ≡ self.old.before }
        ensures told { self.new.told ≡ Some i }
    {
        self.put(i, row);
        self.told = Some(i);
    }

    /// So many units come at the gap: it is that much shorter and stands behind them. No row changes.
    pub fn typed(&mut self, units: u32)
        requires room { units ≤ self.old.rows.room }
        requires place { self.old.rows.gap + units < bound }
        requires fits { All (HasRoomFor units) (spans_of self.old.rows) }
        ensures spans { spans_of self.new.rows ≡ map (pushed_span self.old.rows.gap units) (spans_of self.old.rows) }
        ensures kept { self.new.rows.kept ≡ self.old.rows.kept }
        ensures gap { self.new.rows.gap ≡ self.old.rows.gap + units }
        ensures room_left { self.new.rows.room ≡ self.old.rows.room - units }
        ensures spare { self.new.rows.spare ≡ self.old.rows.spare }
        ensures before { self.new.before ≡ self.old.before }
        ensures told { self.new.told ≡ self.old.told }
    {
        self.rows.typed(units);
    }

    /// The units from `start` to the gap go: it stands at `start` and is that much longer. No row changes, since no end
    /// stands inside that range, nor at one of its ends on the side that falls into the gap.
    pub fn closed(&mut self, start: u32)
        requires order { start ≤ self.old.rows.gap }
        requires room { self.old.rows.room + (self.old.rows.gap - start) < bound }
        requires clear { All (IsClearOf start self.old.rows.gap) (spans_of self.old.rows) }
        ensures spans { spans_of self.new.rows ≡ map (closed_span start self.old.rows.gap) (spans_of self.old.rows) }
        ensures kept { self.new.rows.kept ≡ self.old.rows.kept }
        ensures gap { self.new.rows.gap ≡ start }
        ensures room_left { self.new.rows.room ≡ self.old.rows.room + (self.old.rows.gap - start) }
        ensures spare { self.new.rows.spare ≡ self.old.rows.spare }
        ensures before { self.new.before ≡ self.old.before }
        ensures told { self.new.told ≡ self.old.told }
    {
        self.rows.closed(start);
    }

    /// Adds a row behind the others, which is not among those that stood. Without memory nothing changes, and where a
    /// spare row is left none is asked for.
    pub fn add(&mut self, row: &SpanRow) -> Result<(), NoMemory>
        requires bound { length self.old.rows.kept < 4294967295 }
        requires id { is_attached row.now.id (spans_of self.old.rows) ≡ false }
        requires order { length self.old.rows.kept ≤ row.now.order }
        ensures ok { OnOk result (self.new.rows.kept
            ≡ self.old.rows.kept ++ kept_span self.old.rows.gap self.old.rows.room (span_of row.now) ∷ []) }
        ensures spans { OnOk result (spans_of self.new.rows ≡ spans_of self.old.rows ++ span_of row.now ∷ []) }
        ensures err { OnErr result (self.new.rows.kept ≡ self.old.rows.kept) }
        ensures gap { self.new.rows.gap ≡ self.old.rows.gap }
        ensures room { self.new.rows.room ≡ self.old.rows.room }
        ensures spare { self.old.rows.spare ≤ self.new.rows.spare + 1 }
        ensures err_spare { OnErr result (self.old.rows.spare ≤ self.new.rows.spare) }
        ensures before { self.new.before ≡ self.old.before }
        ensures told { self.new.told ≡ self.old.told }
        ensures moved { moved_of self.new ≡ moved_of self.old }
        ensures within { 0 < self.old.rows.spare → IsOk result }
    {
        self.olds.reserve(1)?;
        self.rows.add(row)?;
        push_within(&mut self.olds, no_old());
        Ok(())
    }

    // ---- what the edit moved

    /// How many rows stood.
    pub fn count(&self) -> u32
        ensures count { result ≡ length self.now.before }
        ensures within { length self.now.before ≤ length self.now.rows.kept }
        ensures listed { moved_of self.now
            ≡ filter_map (told_at self.now) (range_with_len 0 (length self.now.before)) }
        ensures placed { ArePlaced (spans_of self.now.rows) self.now }
    {
        self.stood
    }

    /// How the row at a place moved, or none where there is nothing to tell.
    pub fn at<L: Ledger>(&self, i: u32, steps: &mut Steps<L>) -> Option<MovedRow>
        requires { i < length self.now.before }
        ensures told { option_map shift_of result ≡ told_at self.now i }
        ensures tick { steps.new ≡ steps.old + 1 }
    {
        steps.tick();
        self.told_row(i)
    }

    fn told_row(&self, i: u32) -> Option<MovedRow>
        requires { i < length self.now.before }
        ensures { option_map shift_of result ≡ told_at self.now i }
    {
        let row = self.shift(i);
        if has_moved(&row) || is_set(self.told, i) {
            Some(row)
        } else {
            None
        }
    }

    /// The row at a place as it stood and as it stands.
    fn shift(&self, i: u32) -> MovedRow
        requires { i < length self.now.before }
        ensures { shift_of result ≡ shift_at self.now i }
    {
        let rows = self.rows.rows();
        let row = rows.kept(i);
        let order = u64::from(i);
        MovedRow {
            from: noted(&self.olds[i as usize], row, self.stamp).seen(self.gap, self.room, order),
            to: row.seen(rows.gap(), rows.room(), order),
        }
    }

    /// The rows that are told of, in their order.
    pub fn iter(&self) -> MovedRowsIter<'_>
        ensures { shifts_left result ≡ moved_of self.now }
    {
        MovedRowsIter {
            moved: self,
            place: 0,
        }
    }
}

/// The rows that are told of, in order of attachment.
#[derive(Clone, Copy)]
pub struct MovedRowsIter<'a> {
    moved: &'a MovedRows,
    place: u32,
}

impl Iterator for MovedRowsIter<'_> {
    ghost use Rattle.std.specs.Iterator.{YieldsFirstBy, item_count};
    ghost use Rattle.moved_rows.specs.Iterated.{shifts_left};
    ghost use Rattle.moved_rows.specs.Moves.{shift_of};

    type Item = MovedRow;

    ghost next_gives = { YieldsFirstBy shift_of shifts_left };

    ghost remaining = { item_count shifts_left };

    fn next(&mut self) -> Option<MovedRow> {
        let (place, row) = next_told(self.moved, self.place)?;
        self.place = place + 1;
        Some(row)
    }
}

/// The first row that is told of, from a place on, and its place.
fn next_told(moved: &MovedRows, from: u32) -> Option<(u32, MovedRow)>
    ensures rows { MatchOption result (told_from moved.now from ≡ [])
        (λ found. told_from moved.now from ≡ shift_of found.1 ∷ told_from moved.now (found.0 + 1)) }
    ensures fits { MatchOption result (Unit {0}) (λ found. found.0 < 4294967295) }
{
    for i in from..moved.count() {
        if let Some(row) = moved.told_row(i) {
            return Some((i, row));
        }
    }
    None
}

/// Whether an end of the row differs.
fn has_moved(row: &MovedRow) -> bool
    ensures { result ≡ has_moved (shift_of row.now) }
{
    row.from.start != row.to.start || row.from.end != row.to.end
}

fn is_set(told: Option<u32>, i: u32) -> bool
    ensures { result ≡ is_set told i }
{
    match told {
        Some(place) => place == i,
        None => false,
    }
}

/// No note.
fn no_old() -> OldRow
    ensures { result ≡ no_old }
{
    OldRow {
        stamp: 0,
        row: KeptRow {
            id: 0,
            flags: 0,
            start: 0,
            end: 0,
            what: What::Tag(0),
        },
    }
}

/// The row that was noted with this stamp, else the one that stands.
fn noted(old: &OldRow, row: KeptRow, stamp: u32) -> KeptRow
    ensures { result ≡ noted old.now row stamp }
{
    if old.stamp == stamp { old.row } else { row }
}

/// Notes the row at a place for the edit with this stamp, unless that was done.
fn note(rows: &SpanRows, olds: &mut Vec<OldRow>, i: u32, stamp: u32)
    requires within { i < length rows.now.kept }
    requires long { length olds.old.items ≡ length rows.now.kept }
    requires stamps { AreStamped stamp olds.old.items }
    ensures noted { (j : ℕ) → noted_at rows.now.kept olds.new.items stamp j
        ≡ noted_at rows.now.kept olds.old.items stamp j }
    ensures others { (kept : KeptRow) → noted_at (slice_set rows.now.kept i kept) olds.new.items stamp i
        ≡ noted_at rows.now.kept olds.old.items stamp i }
    ensures long { vec_len olds.new ≡ vec_len olds.old }
    ensures stamps { AreStamped stamp olds.new.items }
    ensures capacity { vec_capacity olds.new ≡ vec_capacity olds.old }
{
    let at = i as usize;
    if olds[at].stamp != stamp {
        olds[at] = OldRow {
            stamp,
            row: rows.kept(i),
        };
    }
}

/// The stamp of an edit that begins, which no note has.
fn next_stamp(olds: &mut Vec<OldRow>, stamp: u32) -> u32
    requires stamps { AreStamped stamp olds.old.items }
    ensures stamps { AreEarlier result olds.new.items }
    ensures long { vec_len olds.new ≡ vec_len olds.old }
    ensures capacity { vec_capacity olds.new ≡ vec_capacity olds.old }
{
    if stamp == u32::MAX {
        clear_stamps(olds);
        return 1;
    }
    stamp + 1
}

/// No note counts for an edit to come.
fn clear_stamps(olds: &mut Vec<OldRow>)
    ensures stamps { AreEarlier 1 olds.new.items }
    ensures long { vec_len olds.new ≡ vec_len olds.old }
    ensures capacity { vec_capacity olds.new ≡ vec_capacity olds.old }
{
    for at in 0..olds.len() {
        olds[at] = no_old();
    }
}

/// The gap goes to a place.
fn carry_gap(rows: &mut SpanIndex, to: u32)
    ensures spans { spans_of rows.new ≡ spans_of rows.old }
    ensures count { length rows.new.kept ≡ length rows.old.kept }
    ensures gap { rows.new.gap ≡ to }
    ensures room { rows.new.room ≡ rows.old.room }
    ensures spare { rows.old.spare ≤ rows.new.spare }
{
    let gap = rows.rows().gap();
    let room = rows.rows().room();
    if gap != to {
        rows.shift_for_gap(gap, to, room, room);
    }
}
