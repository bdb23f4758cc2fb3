//! What an edit changed, and the edits of spans alone: a span that is set or removed, the selection, the composing
//! region, and spans that go together.
#![tactic(auto)]

mod attached;
mod changes;
mod composing;
mod room;
mod selecting;
mod setting;
mod telling;

pub use attached::is_attached;
pub use changes::Change;
pub use composing::{drop_rows, judge_drop, judge_mark, mark_row, region_of};
pub use selecting::{judge_deselect, judge_select, remove_ends, select_rows, selection_of};
pub use setting::{remove_row, set_row};
