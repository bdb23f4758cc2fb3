//! What a filter does to units.

ghost use Rattle.std.specs.Prelude.{◌≡◌, ◌≤◌, map};
ghost use Rattle.edit_model.specs.Filtered.{kept_first, upper, is_in, is_allowed, passed};
ghost use Rattle.input_filters.specs.Kept.{is_kept, kept_of};

use edit_base::{NEWLINE, is_high};
use edit_model::{Filter, UnitRange};

/// The units become those that the filter lets through, where the text has so many others.
pub fn filter_units(filter: &Filter, others: u32, units: &mut Vec<u16>)
    ensures { units.new.items ≡ passed filter.now others units.old.items }
{
    match filter {
        Filter::Length(greatest) => {
            let kept = first_kept(units, greatest.saturating_sub(others));
            units.truncate(kept as usize);
        }
        Filter::AsciiUpper => raise_all(units),
        Filter::Allow(_) | Filter::NoNewline => keep_some(filter, units),
    }
}

/// How many of the first units are kept where so many fit: one fewer where the last would be the first of a pair.
pub fn first_kept(units: &[u16], fit: u32) -> u32
    ensures { result ≡ kept_first fit units.now }
{
    if units.len() <= fit as usize {
        return units.len() as u32;
    }
    let last = fit.saturating_sub(1);
    if is_high(units[last as usize]) {
        last
    } else {
        fit
    }
}

fn raise_all(units: &mut [u16])
    ensures { units.new ≡ map upper units.old }
{
    for unit in units.iter_mut() {
        *unit = raised(*unit);
    }
}

fn raised(unit: u16) -> u16
    ensures { result ≡ upper unit }
{
    if (0x61..=0x7A).contains(&unit) {
        unit - 0x20
    } else {
        unit
    }
}

// Only the units that the filter keeps whatever stands beside them.
fn keep_some(filter: &Filter, units: &mut Vec<u16>)
    ensures { units.new.items ≡ kept_of filter.now units.old.items }
{
    units.retain(|unit| is_kept(filter, *unit));
}

/// Whether the filter keeps a unit, whatever stands beside it. A length filter keeps each, since it goes by places.
pub fn is_kept(filter: &Filter, unit: u16) -> bool
    ensures { result ≡ is_kept filter.now unit }
{
    match filter {
        Filter::Length(_) | Filter::AsciiUpper => true,
        Filter::Allow(ranges) => is_allowed(ranges.as_slice(), unit),
        Filter::NoNewline => unit != NEWLINE,
    }
}

fn is_allowed(ranges: &[UnitRange], unit: u16) -> bool
    ensures { result ≡ is_allowed ranges.now unit }
{
    ranges.iter().any(|range| is_in(unit, range))
}

fn is_in(unit: u16, range: &UnitRange) -> bool
    ensures { result ≡ is_in unit range.now }
{
    range.low <= unit && unit <= range.high
}
