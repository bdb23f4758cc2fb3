//! The settings of a run: those built in, and those that a file sets.
#![tactic(auto)]

mod arrays;
mod filters;
mod keys;
mod ranges;
mod reading;
mod settings;
mod shelf;
mod watchers;

pub use reading::{built_in, read_settings};
pub use settings::Settings;
pub use shelf::load_shelf;
pub use trace_model::{SettingsFault, WatcherSetting};
pub use watcher_api::Slots;
