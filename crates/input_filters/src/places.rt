//! Where a filter takes the places of spans.

ghost use Rattle.std.specs.Prelude.{◌≡◌, ◌≤◌, ◌<◌, map, min, length, slice_index, OnOk, OnErr};
ghost use Rattle.std.specs.List.{All};
ghost use Rattle.edit_model.specs.Filtered.{at_places, kept_before};
ghost use Rattle.input_filters.specs.Kept.{is_kept, count_before, AreCounts, LiesIn};

use crate::units::{first_kept, is_kept};
use edit_base::{Incoming, NewSpan, NoMemory};
use edit_model::Filter;

/// Each place goes to the number of units before it that the filter keeps, of these that come to so many others. The
/// counts are a vector to work in. Without memory the spans stay.
pub fn filter_places(
    filter: &Filter,
    others: u32,
    units: &[u16],
    spans: &mut [NewSpan],
    counts: &mut Vec<u32>,
) -> Result<(), NoMemory>
    requires short { length units.now ≤ Incoming.MOST }
    requires inside { All (LiesIn (length units.now)) spans.old }
    ensures ok { OnOk result (spans.new ≡ map (at_places (kept_before filter.now others units.now)) spans.old) }
    ensures err { OnErr result (spans.new ≡ spans.old) }
{
    match filter {
        Filter::Length(greatest) => {
            clip(spans, first_kept(units, greatest.saturating_sub(others)));
            Ok(())
        }
        Filter::AsciiUpper => Ok(()),
        Filter::Allow(_) | Filter::NoNewline => count_places(filter, units, spans, counts),
    }
}

/// Places behind this one go to it.
pub fn clip(spans: &mut [NewSpan], most: u32)
    ensures { spans.new ≡ map (at_places (λ at. min at most)) spans.old }
{
    for span in spans.iter_mut() {
        *span = NewSpan {
            start: span.start.min(most),
            end: span.end.min(most),
            ..*span
        };
    }
}

// Each place goes to the number of units before it that the filter keeps whatever stands beside them. Where there are
// no spans, nothing is counted.
fn count_places(
    filter: &Filter,
    units: &[u16],
    spans: &mut [NewSpan],
    counts: &mut Vec<u32>,
) -> Result<(), NoMemory>
    requires short { length units.now ≤ Incoming.MOST }
    requires inside { All (LiesIn (length units.now)) spans.old }
    ensures ok { OnOk result (spans.new ≡ map (at_places (count_before (is_kept filter.now) units.now)) spans.old) }
    ensures err { OnErr result (spans.new ≡ spans.old) }
{
    if spans.is_empty() {
        return Ok(());
    }
    count_kept(filter, units, counts)?;
    look_up(spans, counts);
    Ok(())
}

// How many units before each place the filter keeps, whatever stands beside them.
fn count_kept(filter: &Filter, units: &[u16], counts: &mut Vec<u32>) -> Result<(), NoMemory>
    requires short { length units.now ≤ Incoming.MOST }
    ensures { OnOk result (AreCounts (is_kept filter.now) units.now counts.new.items) }
{
    counts.clear();
    counts.reserve(units.len() + 1)?;
    let mut kept = 0;
    counts.push(kept)?;
    for unit in units {
        kept += u32::from(is_kept(filter, *unit));
        counts.push(kept)?;
    }
    Ok(())
}

// Each place goes to the count that stands at it.
fn look_up(spans: &mut [NewSpan], counts: &[u32])
    requires inside { All (λ span. (span.start < length counts.now) × (span.end < length counts.now)) spans.old }
    ensures { spans.new ≡ map (at_places (slice_index counts.now)) spans.old }
{
    for span in spans.iter_mut() {
        *span = NewSpan {
            start: counts[span.start as usize],
            end: counts[span.end as usize],
            ..*span
        };
    }
}
