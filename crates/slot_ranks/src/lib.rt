//! Which slots of a table are live: a slot is a name for good, and its rank, how many live slots stand before it, is its
//! place among them.
#![tactic(auto)]

mod counts;
mod iter;
mod ranks;
mod room;

pub use iter::LiveSlots;
pub use ranks::SlotRanks;
pub use room::push_within;
