//! The gap text: UTF-16 units round a gap, so that an edit near the last one moves few of them.
#![tactic(auto)]

mod buffer;
mod text;
mod work;

pub use text::GapText;
