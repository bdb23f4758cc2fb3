//! The printed lines. Each call appends the bytes of its definition to those that a caller collects; without memory
//! what was there is still their prefix, behind which a part of the line may stand.
#![tactic(auto)]

mod callbacks;
mod entries;
mod replies;
mod spans;
mod units;
mod verdicts;
mod words;

pub use entries::{print_entry, print_header};
pub use replies::print_reply;
pub use spans::print_span;
pub use units::print_units;
