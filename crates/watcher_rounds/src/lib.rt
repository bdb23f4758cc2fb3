//! The engine of nested edits: one item of a command, with all that its watchers are told and answer.
#![tactic(auto)]

mod changing;
mod cuts;
mod judging;
mod logging;
mod resolving;
mod round;
mod rounds;
mod seats;
mod shelf;
mod spans;
mod telling;

pub use cuts::{after_by_any_cut, before_by_any_cut, changed_by_any_cut, span_by_any_cut};
pub use edit_model::{Item, LogEntry, Logged};
pub use round::Log;
pub use rounds::apply;
pub use watcher_api::Slots;
