//! What a run is set to.

use edit_base::Items;
use edit_model::Filter;
use trace_model::WatcherSetting;

/// The settings of a run.
#[derive(Debug, Drop)]
pub struct Settings {
    /// How deep edits may nest, 0 to 8.
    pub depth: u32,
    /// The width of the layout, 1 to 16,777,216.
    pub width: u32,
    /// The filters of incoming text, in the order in which it goes through them; at most 8.
    pub filters: Items<Filter>,
    /// The watchers that are asked for, one a slot, in the order of the slots; at most 8, each with at most 8 numbers.
    pub watchers: Items<WatcherSetting>,
}
