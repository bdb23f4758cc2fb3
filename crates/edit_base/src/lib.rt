//! The shared types: what spans carry, edits and their verdicts, rows, limits, UTF-16 units, and the counter of steps.
#![tactic(auto)]

mod bounds;
mod counter;
mod edits;
mod kinds;
mod list;
mod memory;
mod rows;
mod units;
mod verdicts;

pub use bounds::Limits;
pub use counter::Steps;
pub use edits::{Edit, SmallText};
pub use kinds::What;
pub use list::Items;
pub use memory::NoMemory;
pub use rows::{Incoming, NewSpan, Pick, SpanRow};
pub use units::{NEWLINE, Place, Unit, is_high, is_low, units_of};
pub use verdicts::{Refusal, Verdict};

#[cfg(test)]
mod tests;
