//! Which rows lie over a range, which of them a query asks for, and which a replacement empties.

ghost use Rattle.std.specs.Prelude.{◌≡◌};
ghost use Rattle.edit_model.specs.Over.{is_layout, is_picked, is_watch, lies_over, touches};
ghost use Rattle.edit_model.specs.Replaced.{is_emptied};
ghost use Rattle.edit_model.specs.Rows.{span_of};

use crate::flags::{is_point_mark, kind_of_word};
use edit_base::{Pick, SpanRow, What};

/// Whether a span and the range share a place, be it an end of both.
pub fn touches(row: &SpanRow, start: u32, end: u32) -> bool
    ensures { result ≡ touches start end (span_of row.now) }
{
    row.start <= end && start <= row.end
}

/// Whether a span touches the range, and does more than touch it where neither is empty.
pub fn lies_over(row: &SpanRow, start: u32, end: u32) -> bool
    ensures { result ≡ lies_over start end (span_of row.now) }
{
    touches(row, start, end)
        && (row.start == row.end || start == end || (row.start != end && row.end != start))
}

/// Whether a span that may not be empty would be, when the units from `start` to `end` become `grown` units: it lies in
/// the range, and is cut to nothing. One that spans the whole range stays where units come.
pub fn is_emptied(row: &SpanRow, start: u32, end: u32, grown: u32) -> bool
    ensures { result ≡ is_emptied start end grown (span_of row.now) }
{
    is_point_mark(kind_of_word(row.flags))
        && start < end
        && start <= row.start
        && row.end <= end
        && (grown == 0 || start < row.start || row.end < end)
}

/// Whether a query asks for such spans.
pub fn is_picked(pick: Pick, what: What) -> bool
    ensures { result ≡ is_picked pick what }
{
    match pick {
        Pick::All => true,
        Pick::Watches => is_watch(what),
        Pick::Layout => is_layout(what),
    }
}

/// Whether this is the seat of a watcher.
pub fn is_watch(what: What) -> bool
    ensures { result ≡ is_watch what }
{
    matches!(what, What::Watch(_))
}

/// Whether this has a say in the layout: a face, a margin or a float.
pub fn is_layout(what: What) -> bool
    ensures { result ≡ is_layout what }
{
    matches!(
        what,
        What::Face(_) | What::Margin { .. } | What::Float { .. }
    )
}
