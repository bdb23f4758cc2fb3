//! Where a cursor goes that counts from a replaced range, and the text round the selection.
#![tactic(auto)]

mod copying;
mod cursor;
mod round;

pub use cursor::cursor_place;
pub use round::{halves_of, selected, text_after, text_before};
