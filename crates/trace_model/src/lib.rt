//! What a trace and its settings are read as, what a connection's command asks for, reports, and every printed line:
//! the definitions in `specs/`, their laws, and the plain types that they speak of.
#![tactic(auto)]

mod commands;
mod examples;
mod faults;
mod laws;
mod operations;
mod replies;
mod reports;
mod settings;
mod shelf_laws;

pub use commands::Command;
pub use examples::{prints_connections, prints_lines, prints_selections, reads_lines};
pub use faults::{SettingsFault, TraceFault};
pub use laws::{
    commands_bring_what_fits, connections_ask_for_what_fits, lines_are_cut_at_newlines,
};
pub use operations::Op;
pub use replies::Reply;
pub use reports::Report;
pub use settings::WatcherSetting;
pub use shelf_laws::{kinds_are_named, shelves_are_loaded};
