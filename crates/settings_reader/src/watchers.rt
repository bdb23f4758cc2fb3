//! The watchers that a settings file asks for.

ghost use Rattle.std.specs.Prelude.{◌≡◌};
ghost use Rattle.toml.specs.View.{view, table_view};
ghost use Rattle.trace_model.specs.Faults.{Gives};
ghost use Rattle.trace_model.specs.Settings.{watchers_of as watchers_by, watcher_of as watcher_by_table, having};
ghost use Rattle.trace_model.specs.Settings.{watcher_by_kind, kind_named as kind_by_name, numbers_of as numbers_by};

use crate::arrays::{FromValue, each_of, few_of, tables_of, values_of};
use crate::keys::{number_of, only, value_at};
use edit_base::{Items, Limits};
use std::alloc::Global;
use toml::{Table, Value};
use trace_model::{SettingsFault, WatcherSetting};

// How many numbers a watcher may be loaded with.
const NUMBERS_MOST: u32 = 8;

/// The watchers of an array of tables, in its order.
///
/// # Errors
/// `Value` where the value is no array, or one of its values is no table; then `Limit` where there are more than 8;
/// then the first fault of the first table that has one.
pub(crate) fn watchers_of(
    alloc: Global,
    value: &Value,
) -> Result<Items<WatcherSetting>, SettingsFault>
    ensures { Gives SettingsFault.NoMemory (watchers_by (view value.now)) result }
{
    let tables = tables_of(value, Limits::WATCHERS)?;
    each_of(alloc, tables)
}

impl FromValue for WatcherSetting {
    ghost use Rattle.trace_model.specs.Settings.{watcher_in};

    ghost reading = { watcher_in };

    fn from_value(alloc: Global, value: &Value) -> Result<Self, SettingsFault> {
        match value.as_table() {
            Some(table) => watcher_of(alloc, table),
            None => Err(SettingsFault::Value),
        }
    }
}

fn watcher_of(alloc: Global, table: &Table) -> Result<WatcherSetting, SettingsFault>
    ensures { Gives SettingsFault.NoMemory (watcher_by_table (table_view table.now)) result }
{
    let kind = value_at(table, "kind")?;
    match kind.as_str() {
        Some(name) => watcher_by_name(alloc, table, name),
        None => Err(SettingsFault::Value),
    }
}

fn watcher_by_name(
    alloc: Global,
    table: &Table,
    name: &str,
) -> Result<WatcherSetting, SettingsFault>
    ensures { Gives SettingsFault.NoMemory
        (having (kind_by_name name.now) (watcher_by_kind (table_view table.now))) result }
{
    let kind = kind_named(name)?;
    only(table, &["kind", "numbers"])?;
    let numbers = value_at(table, "numbers")?;
    let numbers = numbers_of(alloc, numbers)?;
    Ok(WatcherSetting { kind, numbers })
}

// The number of the kind with this name.
fn kind_named(name: &str) -> Result<u32, SettingsFault>
    ensures { result ≡ kind_by_name name.now }
{
    match name {
        "note" => Ok(0),
        "pair" => Ok(1),
        "swap" => Ok(2),
        "limit" => Ok(3),
        "squeeze" => Ok(4),
        "paint" => Ok(5),
        "follow" => Ok(6),
        "echo" => Ok(7),
        _ => Err(SettingsFault::Value),
    }
}

fn numbers_of(alloc: Global, value: &Value) -> Result<Items<u32>, SettingsFault>
    ensures { Gives SettingsFault.NoMemory (numbers_by (view value.now)) result }
{
    let values = values_of(value)?;
    let numbers = few_of(values, NUMBERS_MOST)?;
    each_of(alloc, numbers)
}

impl FromValue for u32 {
    ghost use Rattle.trace_model.specs.Settings.{number_of as number_by, greatest_number};

    ghost reading = { number_by 0 greatest_number };

    fn from_value(_alloc: Global, value: &Value) -> Result<Self, SettingsFault> {
        number_of(value, 0, u32::MAX)
    }
}
