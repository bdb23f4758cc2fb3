//! One editor: a text with its spans, its connection and its settings, which runs commands and prints their output.
#![tactic(auto)]

mod editor;
mod end_block;
mod planning;
mod queries;
mod ranges;
mod replies;
mod running;

pub use editor::{Editor, Summary};
