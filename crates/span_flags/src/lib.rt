//! The flags words of spans, the table of the moves that the ends of spans make at a replacement, and which spans lie
//! over a range or are emptied by a replacement of it.
#![tactic(auto)]

mod flags;
mod moves;
mod over;
mod places;
mod ranges;

pub use edit_model::{EndKind, Kind};
pub use flags::{
    BadFlags, Flags, end_of_kind, flags_of, is_composing, is_paragraph, is_point_mark,
    kind_of_word, priority_of_word, start_of,
};
pub use moves::{Move, MoveTable, move_table, moved};
pub use over::{is_emptied, is_layout, is_picked, is_watch, lies_over, touches};
pub use places::{PlaceClass, end_after, is_pulled};
pub use ranges::{goes_below, goes_beyond, place_of};
