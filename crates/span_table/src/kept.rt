//! A row as it is kept.

ghost use Rattle.std.specs.Prelude.{◌≡◌};
ghost use Rattle.edit_model.specs.Rows.{span_of};
ghost use Rattle.span_table.specs.Table.{AreNumbers, kept_span, seen};

use crate::numbers::{ends_behind, number_at, place_of, starts_behind};
use edit_base::{SpanRow, What};

/// An attached span as it is kept: its ends are numbers round a gap, and its order is its place among the rows.
#[derive(Clone, Copy, Debug, PartialEq, Eq)]
pub struct KeptRow {
    pub id: u32,
    pub flags: u32,
    pub start: u64,
    pub end: u64,
    pub what: What,
}

impl KeptRow {
    /// The row of a span, with such a gap.
    pub fn new(row: &SpanRow, gap: u32, room: u32) -> KeptRow
        ensures row { result ≡ kept_span gap room (span_of row.now) }
        ensures span { seen gap room result ≡ span_of row.now }
        ensures numbers { AreNumbers gap room result }
    {
        KeptRow {
            id: row.id,
            flags: row.flags,
            start: number_at(gap, room, starts_behind(row.flags), row.start),
            end: number_at(gap, room, ends_behind(row.flags), row.end),
            what: row.what,
        }
    }

    /// The span as it is seen with such a gap, and with this order.
    pub fn seen(&self, gap: u32, room: u32, order: u64) -> SpanRow
        requires { AreNumbers gap room self.now }
        ensures span { span_of result ≡ seen gap room self.now }
        ensures order { result.order ≡ order }
    {
        SpanRow {
            id: self.id,
            start: place_of(gap, room, self.start),
            end: place_of(gap, room, self.end),
            flags: self.flags,
            order,
            what: self.what,
        }
    }
}
