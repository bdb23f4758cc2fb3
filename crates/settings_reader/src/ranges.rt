//! The ranges of units that a filter lets through.

ghost use Rattle.std.specs.Prelude.{◌≡◌};
ghost use Rattle.toml.specs.View.{view, items_view};
ghost use Rattle.edit_base.specs.declared.bounds.TheConstants.Limits.{RANGES};
ghost use Rattle.trace_model.specs.Faults.{Gives, GivesSeen};
ghost use Rattle.trace_model.specs.Settings.{array_of as array_by, ranges_of as ranges_by};
ghost use Rattle.trace_model.specs.Settings.{number_of as number_by, greatest_unit};

use crate::arrays::{FromValue, each_of, few_of, values_of};
use crate::keys::number_of;
use edit_base::{Items, Limits};
use edit_model::UnitRange;
use std::alloc::Global;
use toml::Value;
use trace_model::SettingsFault;

/// The ranges of an array of pairs, in its order.
///
/// # Errors
/// `Value` where the value is no array; then `Limit` where it holds more than 1,024 values; then the first fault of
/// the first of them that has one.
pub(crate) fn ranges_of(alloc: Global, value: &Value) -> Result<Items<UnitRange>, SettingsFault>
    ensures { Gives SettingsFault.NoMemory (ranges_by (view value.now)) result }
{
    let pairs = pairs_of(value)?;
    each_of(alloc, pairs)
}

fn pairs_of(value: &Value) -> Result<&[Value], SettingsFault>
    ensures { GivesSeen SettingsFault.NoMemory (λ pairs. items_view pairs.now)
        (array_by RANGES (view value.now)) result }
{
    let values = values_of(value)?;
    few_of(values, Limits::RANGES)
}

impl FromValue for UnitRange {
    ghost use Rattle.trace_model.specs.Settings.{range_of};

    ghost reading = { range_of };

    #[tactic(auto, using(crate::proofs::Pairs::pairs))]
    fn from_value(_alloc: Global, value: &Value) -> Result<Self, SettingsFault> {
        let [low, high] = values_of(value)? else {
            return Err(SettingsFault::Value);
        };
        let low = unit_of(low)?;
        let high = unit_of(high)?;
        Ok(UnitRange { low, high })
    }
}

fn unit_of(value: &Value) -> Result<u16, SettingsFault>
    ensures { result ≡ number_by 0 greatest_unit (view value.now) }
{
    Ok(number_of(value, 0, u32::from(u16::MAX))? as u16)
}
