//! The slot in which the span of an id is kept.
#![tactic(auto)]

mod names;

pub use names::IdSlots;
