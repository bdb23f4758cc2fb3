//! From the bytes of a settings file to its settings or its first fault.

ghost use Rattle.std.specs.Prelude.{◌≡◌, ◌<◌, ◌⊎◌, [], codes, length, IfOk, IfErr, IsOkAnd, ok_or};
ghost use Rattle.toml.specs.View.{table_view};
ghost use Rattle.edit_base.specs.declared.bounds.TheConstants.Limits.{SETTINGS_BYTES};
ghost use Rattle.trace_model.specs.Faults.{Gives, GivesSeen};
ghost use Rattle.trace_model.specs.Settings.{FitsLimits, toml_of, at_key, filters_of as filters_by};
ghost use Rattle.trace_model.specs.Settings.{watchers_of as watchers_by};
ghost use Rattle.trace_model.specs.Settings.{settings_of as settings_by, built_in as built_in_settings};
ghost use Rattle.trace_model.specs.Settings.{read_settings as settings_of_bytes};
ghost use Rattle.settings_reader.specs.Seen.{as_settings};

use crate::filters::filters_of;
use crate::keys::{found_at, number_at, only};
use crate::settings::Settings;
use crate::watchers::watchers_of;
use edit_base::{Items, Limits, NoMemory};
use edit_model::Filter;
use std::alloc::Global;
use toml::Table;
use trace_model::{SettingsFault, WatcherSetting};

// The width of the layout where the settings are silent.
const WIDTH_DEFAULT: u32 = 400;

/// The settings of a run without a file: edits nest 4 deep, a line is 400 wide, and there are no filters and no
/// watchers.
pub fn built_in(alloc: Global) -> Result<Settings, NoMemory>
    ensures settings { IsOkAnd result (λ settings. as_settings settings ≡ built_in_settings) }
    ensures fits { IfOk result (λ settings. FitsLimits (as_settings settings)) }
{
    Ok(Settings {
        depth: Limits::DEPTH_DEFAULT,
        width: WIDTH_DEFAULT,
        filters: no_filters(alloc),
        watchers: no_watchers(alloc),
    })
}

/// Reads the settings from the bytes of a TOML file. What the file is silent about is as built in. An empty array
/// at `filter` means no filters, and one at `watcher` no watchers.
///
/// # Errors
/// The first fault: `Limit` where the file has more than 1,048,576 bytes, `Toml` where it is no TOML, `Key` where
/// it has another key than `depth`, `width`, `filter` and `watcher`; then for each of the two numbers, in this order,
/// `Value` where it is no whole number and `Limit` where it is outside its limits; then for the filters `Value` where
/// they are no array of tables, and `Limit` where there are more than 8. Then table by table: `Key` without a `kind`,
/// `Value` where it names none, `Key` where the table has a key that this kind doesn't take or lacks the one that
/// it takes, and `Value` or `Limit` for what stands at that key: the number `max` of `length`, 0 to 1,048,576, or
/// the array `ranges` of `allow`, at most 1,024 pairs of numbers 0 to 65,535. Behind the filters come the watchers, in
/// the same way; each takes the array `numbers`, at most 8 numbers of 32 bits, whatever its kind. `NoMemory` where
/// there is no memory.
#[tactic(auto, unfolding(trace_model::specs::Settings::read_settings))]
pub fn read_settings(alloc: Global, bytes: &[u8]) -> Result<Settings, SettingsFault>
    ensures ok { IfOk result (λ settings. settings_of_bytes bytes.now ≡ Ok (as_settings settings)) }
    ensures err { IfErr result (λ it. (it ≡ SettingsFault.NoMemory) ⊎ (settings_of_bytes bytes.now ≡ Err it)) }
    ensures long { SETTINGS_BYTES < length bytes.now → result ≡ Err SettingsFault.Limit }
    ensures fits { IfOk result (λ settings. FitsLimits (as_settings settings)) }
{
    if bytes.len() > Limits::SETTINGS_BYTES as usize {
        return Err(SettingsFault::Limit);
    }
    let table = table_of(alloc, bytes)?;
    settings_of(alloc, &table)
}

#[tactic(auto, using(crate::proofs::Documents::documents))]
fn table_of(alloc: Global, bytes: &[u8]) -> Result<Table, SettingsFault>
    ensures { GivesSeen SettingsFault.NoMemory (λ table. table_view table)
        (ok_or (toml_of bytes.now) SettingsFault.Toml) result }
{
    match toml::table_from_slice(alloc, bytes) {
        Ok(table) => Ok(table),
        Err(error) => {
            if error.is_memory() {
                Err(SettingsFault::NoMemory)
            } else {
                Err(SettingsFault::Toml)
            }
        }
    }
}

fn settings_of(alloc: Global, table: &Table) -> Result<Settings, SettingsFault>
    ensures { GivesSeen SettingsFault.NoMemory as_settings (settings_by (table_view table.now)) result }
{
    only(table, &["depth", "width", "filter", "watcher"])?;
    let depth = number_at(table, "depth", Limits::DEPTH_DEFAULT, 0, Limits::DEPTH)?;
    let width = number_at(table, "width", WIDTH_DEFAULT, 1, Limits::WIDTH)?;
    let filters = filters_at(alloc, table)?;
    let watchers = watchers_at(alloc, table)?;
    Ok(Settings {
        depth,
        width,
        filters,
        watchers,
    })
}

fn filters_at(alloc: Global, table: &Table) -> Result<Items<Filter>, SettingsFault>
    ensures { Gives SettingsFault.NoMemory (at_key (codes "filter") [] filters_by (table_view table.now)) result }
{
    match found_at(table, "filter") {
        Some(value) => filters_of(alloc, value),
        None => Ok(no_filters(alloc)),
    }
}

fn no_filters(alloc: Global) -> Items<Filter>
    ensures { result ≡ [] }
{
    Items::from_vec(Vec::new(alloc))
}

fn watchers_at(alloc: Global, table: &Table) -> Result<Items<WatcherSetting>, SettingsFault>
    ensures { Gives SettingsFault.NoMemory (at_key (codes "watcher") [] watchers_by (table_view table.now)) result }
{
    match found_at(table, "watcher") {
        Some(value) => watchers_of(alloc, value),
        None => Ok(no_watchers(alloc)),
    }
}

fn no_watchers(alloc: Global) -> Items<WatcherSetting>
    ensures { result ≡ [] }
{
    Items::from_vec(Vec::new(alloc))
}
