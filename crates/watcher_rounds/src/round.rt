//! What the edits of a round have in common.

use edit_model::{Filter, LogEntry};
use watcher_api::Slots;

/// An entry for each edit and each callback, in the order in which they came.
pub type Log = Vec<LogEntry>;

/// What no edit changes: the filters, the shelf place of the watcher in each slot, and the greatest depth of a nested
/// edit.
#[derive(Clone, Copy)]
pub struct Round<'a> {
    pub filters: &'a [Filter],
    pub slots: &'a Slots,
    pub depth: u32,
}
