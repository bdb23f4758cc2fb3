//! The arrays of a settings file.

ghost use Rattle.std.specs.Prelude.{◌≡◌, ok_or};
ghost use Rattle.toml.specs.Data.{as_array};
ghost use Rattle.toml.specs.View.{view, items_view};
ghost use Rattle.trace_model.specs.Faults.{Gives, GivesSeen};
ghost use Rattle.trace_model.specs.Settings.{are_tables as are_tables_by, few_items, each_of, tables_of as tables_by};

use edit_base::Items;
use std::alloc::Global;
use toml::Value;
use trace_model::SettingsFault;

/// What stands in an array of the settings, and how one value of it is read.
pub(crate) trait FromValue: Drop {
    ghost use Rattle.std.specs.Prelude.{Result};
    ghost use Rattle.toml.specs.Data.{Data};
    ghost use Rattle.trace_model.specs.declared.faults.SettingsFault.{SettingsFault};

    ghost reading: { Data → Result Self SettingsFault };

    /// What this value says.
    ///
    /// # Errors
    /// Its first fault, or `NoMemory`.
    fn from_value(alloc: Global, value: &Value) -> Result<Self, SettingsFault>
        ensures { Gives SettingsFault.NoMemory (reading (view value.now)) result };
}

/// What each of these values says, in their order.
///
/// # Errors
/// The first fault of the first of them that has one, or `NoMemory`.
pub(crate) fn each_of<T: FromValue>(
    alloc: Global,
    values: &[Value],
) -> Result<Items<T>, SettingsFault>
    ensures { Gives SettingsFault.NoMemory (each_of T.reading (items_view values.now)) result }
{
    let mut read = Items::from_vec(Vec::new(alloc));
    for value in values {
        read.push(T::from_value(alloc, value)?)
            .map_err(|_| SettingsFault::NoMemory)?;
    }
    Ok(read)
}

/// The values of an array.
///
/// # Errors
/// `Value` where the value is no array.
pub(crate) fn values_of(value: &Value) -> Result<&[Value], SettingsFault>
    ensures { GivesSeen SettingsFault.NoMemory (λ values. items_view values.now)
        (ok_or (as_array (view value.now)) SettingsFault.Value) result }
{
    let values = value.as_array().ok_or(SettingsFault::Value)?;
    Ok(values.as_slice())
}

/// The values again, where there are no more than so many.
///
/// # Errors
/// `Limit` where there are more.
#[tactic(auto, using(crate::proofs::Values::values))]
pub(crate) fn few_of(values: &[Value], greatest: u32) -> Result<&[Value], SettingsFault>
    ensures { GivesSeen SettingsFault.NoMemory (λ values. items_view values.now)
        (few_items greatest (items_view values.now)) result }
{
    if values.len() > greatest as usize {
        return Err(SettingsFault::Limit);
    }
    Ok(values)
}

/// The values of an array of at most so many tables.
///
/// # Errors
/// `Value` where the value is no array, or one of its values is no table; then `Limit` where there are more.
pub(crate) fn tables_of(value: &Value, greatest: u32) -> Result<&[Value], SettingsFault>
    ensures { GivesSeen SettingsFault.NoMemory (λ tables. items_view tables.now)
        (tables_by greatest (view value.now)) result }
{
    let values = values_of(value)?;
    if !are_tables(values) {
        return Err(SettingsFault::Value);
    }
    few_of(values, greatest)
}

// Whether every value is a table.
fn are_tables(values: &[Value]) -> bool
    ensures { result ≡ are_tables_by (items_view values.now) }
{
    values.iter().all(Value::is_table)
}
