//! The spans that come with a replacement.

ghost use Rattle.std.specs.Prelude.{◌≡◌, ◌≤◌, ◌<◌, ◌^◌, length, option_to_list};
ghost use Rattle.edit_model.specs.Brought.{coming_spans, region_over};
ghost use Rattle.text_cut.specs.Coming.{all_coming};

use edit_base::{Incoming, NewSpan, What};

/// The id and the flags word of the composing region.
const COMPOSING_ID: u32 = 2;

const COMPOSING_FLAGS: u32 = 289;

/// The spans that come: those given, in their order, and the composing region behind them, where it comes.
#[derive(Clone, Copy)]
pub struct Coming<'a> {
    pub spans: &'a [NewSpan],
    pub region: Option<NewSpan>,
}

impl Coming<'_> {
    /// How many there are.
    pub fn len(&self) -> usize
        requires { length self.now.spans.now < 2 ^ 63 }
        ensures { result ≡ length (all_coming self.now) }
    {
        match self.region {
            Some(_) => self.spans.len() + 1,
            None => self.spans.len(),
        }
    }
}

/// The spans that come with these units.
pub fn coming_with(incoming: &Incoming) -> Coming<'_>
    requires { length incoming.now.units < 2 ^ 32 }
    ensures coming { all_coming result ≡ coming_spans incoming.now }
    ensures spans { result.spans.now ≡ incoming.now.spans }
{
    Coming {
        spans: incoming.spans.as_slice(),
        region: region_over(incoming.composing, incoming.units.len() as u32),
    }
}

// The composing region over so many units, where it comes.
fn region_over(composing: bool, units: u32) -> Option<NewSpan>
    ensures { option_to_list result ≡ region_over composing units }
{
    if composing {
        Some(NewSpan {
            id: COMPOSING_ID,
            start: 0,
            end: units,
            flags: COMPOSING_FLAGS,
            what: What::Composing,
        })
    } else {
        None
    }
}
