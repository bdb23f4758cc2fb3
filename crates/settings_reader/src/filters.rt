//! The filters of a settings file.

ghost use Rattle.std.specs.Prelude.{◌≡◌, [], ◌∷◌, codes, Ok};
ghost use Rattle.toml.specs.View.{view, table_view};
ghost use Rattle.trace_model.specs.Faults.{Gives};
ghost use Rattle.trace_model.specs.Settings.{only as only_keys, filters_of as filters_by};
ghost use Rattle.trace_model.specs.Settings.{filter_of as filter_by_table};
ghost use Rattle.trace_model.specs.Settings.{filter_by_kind as filter_of_kind, length_filter as length_by};
ghost use Rattle.trace_model.specs.Settings.{allow_filter as allow_by};

use crate::arrays::{FromValue, each_of, tables_of};
use crate::keys::{number_of, only, value_at};
use crate::ranges::ranges_of;
use edit_base::{Items, Limits};
use edit_model::Filter;
use std::alloc::Global;
use toml::{Table, Value};
use trace_model::SettingsFault;

/// The filters of an array of tables, in its order.
///
/// # Errors
/// `Value` where the value is no array, or one of its values is no table; then `Limit` where there are more than 8;
/// then the first fault of the first table that has one.
pub(crate) fn filters_of(alloc: Global, value: &Value) -> Result<Items<Filter>, SettingsFault>
    ensures { Gives SettingsFault.NoMemory (filters_by (view value.now)) result }
{
    let tables = tables_of(value, Limits::FILTERS)?;
    each_of(alloc, tables)
}

impl FromValue for Filter {
    ghost use Rattle.trace_model.specs.Settings.{filter_in};

    ghost reading = { filter_in };

    fn from_value(alloc: Global, value: &Value) -> Result<Self, SettingsFault> {
        match value.as_table() {
            Some(table) => filter_of(alloc, table),
            None => Err(SettingsFault::Value),
        }
    }
}

fn filter_of(alloc: Global, table: &Table) -> Result<Filter, SettingsFault>
    ensures { Gives SettingsFault.NoMemory (filter_by_table (table_view table.now)) result }
{
    let kind = value_at(table, "kind")?;
    match kind.as_str() {
        Some(kind) => filter_by_kind(alloc, table, kind),
        None => Err(SettingsFault::Value),
    }
}

fn filter_by_kind(alloc: Global, table: &Table, kind: &str) -> Result<Filter, SettingsFault>
    ensures { Gives SettingsFault.NoMemory (filter_of_kind (table_view table.now) kind.now) result }
{
    match kind {
        "length" => length_filter(table),
        "upper" => plain_filter(table, Filter::AsciiUpper),
        "allow" => allow_filter(alloc, table),
        "no-newline" => plain_filter(table, Filter::NoNewline),
        _ => Err(SettingsFault::Value),
    }
}

// A filter that takes no key.
fn plain_filter(table: &Table, filter: Filter) -> Result<Filter, SettingsFault>
    ensures { result ≡ only_keys (codes "kind" ∷ []) (table_view table.now) (Ok filter) }
{
    only(table, &["kind"])?;
    Ok(filter)
}

fn length_filter(table: &Table) -> Result<Filter, SettingsFault>
    ensures { Gives SettingsFault.NoMemory (only_keys (codes "kind" ∷ codes "max" ∷ []) (table_view table.now)
        (length_by (table_view table.now))) result }
{
    only(table, &["kind", "max"])?;
    let most = value_at(table, "max")?;
    Ok(Filter::Length(number_of(most, 0, Limits::TEXT)?))
}

fn allow_filter(alloc: Global, table: &Table) -> Result<Filter, SettingsFault>
    ensures { Gives SettingsFault.NoMemory (only_keys (codes "kind" ∷ codes "ranges" ∷ []) (table_view table.now)
        (allow_by (table_view table.now))) result }
{
    only(table, &["kind", "ranges"])?;
    let ranges = value_at(table, "ranges")?;
    Ok(Filter::Allow(ranges_of(alloc, ranges)?))
}
