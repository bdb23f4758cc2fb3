//! Rows of spans with their ids, and with their slots in order by start and by end, so that no call but a few reads all
//! rows.
#![tactic(auto)]

mod index;
mod orders;
mod query;
mod walk;

pub use index::SpanIndex;
