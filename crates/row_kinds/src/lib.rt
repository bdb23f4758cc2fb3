//! Which rows are of the kinds that are looked for apart.
#![tactic(auto)]

mod tally;

pub use tally::Tally;
