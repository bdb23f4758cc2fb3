//! What the filters of the settings make of an incoming text, and where they take the spans over it.
#![tactic(auto)]

mod filtering;
mod places;
mod units;

pub use edit_base::Incoming;
pub use edit_model::{Filter, UnitRange};
pub use filtering::filter_all;
