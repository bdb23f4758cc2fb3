//! The table of operations, and what a line of a trace asks for.
#![tactic(auto)]

mod fields;
mod reading;
mod table;
mod words;

pub use reading::read_line;
pub use table::{OpField, OpTable, op_fields, op_name, op_table};
pub use trace_model::{Command, Op, TraceFault};
