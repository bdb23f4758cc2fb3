//! What an edit changed.

use edit_base::SpanRow;
use moved_rows::MovedRows;

/// The spans, and what the last edit that was done changed: the units from `start` to `old_end` became `grown` units, and
/// these spans went, moved and came, each group in order of attachment. The orders of its rows mean nothing. A span of a
/// replaced text has moved where a place of it differs: a PARAGRAPH end that was pulled to a boundary can come out at its
/// old place, and is then not among the moved.
#[derive(Drop)]
pub struct Change {
    pub start: u32,
    pub old_end: u32,
    pub grown: u32,
    pub removed: Vec<SpanRow>,
    pub moved: MovedRows,
    pub added: Vec<SpanRow>,
}
