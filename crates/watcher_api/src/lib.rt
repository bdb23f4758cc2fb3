//! Watchers of a text: what they are told, and what they answer.
#![tactic(auto)]

mod watcher;

pub use edit_model::{SpanChange, SpanEvent, TextEvent};
pub use watcher::{Answer, Slots, Watcher};
