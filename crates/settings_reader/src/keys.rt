//! The keys of a table, and the numbers that they hold.

ghost use Rattle.std.specs.Prelude.{◌≡◌, false, true, IfErr, OnOk, map, option_map};
ghost use Rattle.std.specs.List.{list_any};
ghost use Rattle.std.specs.Str.{bytes_eq};
ghost use Rattle.toml.specs.Data.{get_member};
ghost use Rattle.toml.specs.View.{view, table_view};
ghost use Rattle.trace_model.specs.Faults.{GivesSeen};
ghost use Rattle.trace_model.specs.Settings.{has_foreign as has_foreign_key, number_of as number_by};
ghost use Rattle.trace_model.specs.Settings.{within as number_within, value_at as value_by, at_key};

use toml::{Table, Value};
use trace_model::SettingsFault;

/// Asks that a table has no other keys than these.
///
/// # Errors
/// `Key` where it has another one.
pub(crate) fn only(table: &Table, names: &[&str]) -> Result<(), SettingsFault>
    ensures ok { OnOk result (has_foreign_key (map (λ name. name.now) names.now) (table_view table.now) ≡ false) }
    ensures err { IfErr result (λ it. (it ≡ SettingsFault.Key)
        × (has_foreign_key (map (λ name. name.now) names.now) (table_view table.now) ≡ true)) }
{
    if has_foreign(table, names) {
        return Err(SettingsFault::Key);
    }
    Ok(())
}

fn has_foreign(table: &Table, names: &[&str]) -> bool
    ensures { result ≡ has_foreign_key (map (λ name. name.now) names.now) (table_view table.now) }
{
    table.keys().any(|key| !is_listed(names, key.as_str()))
}

fn is_listed(names: &[&str], key: &str) -> bool
    ensures { result ≡ list_any (λ name. bytes_eq name.now key.now) names.now }
{
    names.iter().any(|name| *name == key)
}

/// The value at a key.
///
/// # Errors
/// `Key` where the key is absent.
pub(crate) fn value_at<'a>(table: &'a Table, key: &str) -> Result<&'a Value, SettingsFault>
    ensures { GivesSeen SettingsFault.NoMemory (λ value. view value.now)
        (value_by key.now (table_view table.now)) result }
{
    found_at(table, key).ok_or(SettingsFault::Key)
}

/// The value at a key, and none where the key is absent.
pub(crate) fn found_at<'a>(table: &'a Table, key: &str) -> Option<&'a Value>
    ensures { option_map (λ value. view value.now) result ≡ get_member key.now (table_view table.now) }
{
    table.get(key)
}

/// The number at a key, or `silent` where the key is absent.
///
/// # Errors
/// As [`number_of`].
pub(crate) fn number_at(
    table: &Table,
    key: &str,
    silent: u32,
    least: u32,
    greatest: u32,
) -> Result<u32, SettingsFault>
    ensures { result ≡ at_key key.now silent (number_by least greatest) (table_view table.now) }
{
    match found_at(table, key) {
        Some(value) => number_of(value, least, greatest),
        None => Ok(silent),
    }
}

/// The number that a value is.
///
/// # Errors
/// `Value` where it is no whole number, `Limit` where the number is below `least` or above `greatest`.
pub(crate) fn number_of(value: &Value, least: u32, greatest: u32) -> Result<u32, SettingsFault>
    ensures { result ≡ number_by least greatest (view value.now) }
{
    let number = value.as_integer().ok_or(SettingsFault::Value)?;
    number_within(number, least, greatest)
}

fn number_within(number: i64, least: u32, greatest: u32) -> Result<u32, SettingsFault>
    ensures { result ≡ number_within least greatest number }
{
    let Ok(number) = u32::try_from(number) else {
        return Err(SettingsFault::Limit);
    };
    if number < least || number > greatest {
        return Err(SettingsFault::Limit);
    }
    Ok(number)
}
