//! The input connection: what its commands ask the text for, and how deep its batches are nested.
#![tactic(auto)]

mod counting;
mod deleting;
mod nesting;
mod planning;
mod reporting;

pub use deleting::{delete_around, delete_points};
pub use nesting::Link;
pub use planning::{commit, compose, deselect_items, finish, region, select_items};
pub use reporting::report_of;
