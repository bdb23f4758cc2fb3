//! The text with its spans: edits are judged, done, and told of.
#![tactic(auto)]

mod arriving;
mod exchanging;
mod followers;
mod judging;
mod moving;
mod text;

pub use edit_base::{Incoming, NewSpan, Pick};
pub use edit_model::Step;
pub use followers::{Follower, Unfollowed};
pub use moved_rows::{MovedRow, MovedRows, MovedRowsIter};
pub use span_changes::Change;
pub use text::SpannedText;
