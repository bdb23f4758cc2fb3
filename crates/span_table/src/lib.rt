//! Rows of spans in order of attachment, each kept in a slot of its own, whose ends are numbers round a gap.
#![tactic(auto)]

mod kept;
mod numbers;
mod slots;
mod table;

pub use kept::KeptRow;
pub use numbers::{is_point, number_at};
pub use slot_ranks::push_within;
pub use slots::Fixed;
pub use table::SpanRows;
