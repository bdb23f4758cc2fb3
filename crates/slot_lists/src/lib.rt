//! Rising lists of slots.
#![tactic(auto)]

mod edits;
mod list;
mod room;

pub use list::SlotList;
