//! How rows moved at an edit, read as it is asked for.
#![tactic(auto)]

mod moved;
mod moving;
mod removing;

pub use moved::{MovedRow, MovedRows, MovedRowsIter};
pub use moving::{insert_units, move_rows};
pub use removing::remove_rows;
