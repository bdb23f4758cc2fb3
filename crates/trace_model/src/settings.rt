//! What settings hold beside numbers and filters.

use edit_base::Items;

/// A watcher that the settings ask for.
#[derive(Debug, Drop)]
pub struct WatcherSetting {
    /// The number of its kind.
    pub kind: u32,
    /// What it is loaded with.
    pub numbers: Items<u32>,
}
