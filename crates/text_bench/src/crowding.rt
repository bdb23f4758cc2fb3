//! What is measured of a text under many spans: edits that go over their ends, and spans that come, go and are set.

ghost use Rattle.std.specs.Prelude.{◌≤◌};
ghost use Rattle.edit_model.specs.Brought.{IsBrought};

use crate::faults::Fault;
use crate::making::{flags_of_tag, id_of, replace, set, short_range};
use crate::random::Random;
use crate::requests::{RANGE, Request};
use edit_base::{Incoming, Limits, Steps, Verdict};
use replace_engine::SpannedText;
use std::sync::ledger::Ledger;

/// How far off the next unit may come.
const NEAR: u32 = 50;

/// Units come one near the other, from the middle on.
pub fn insert_near<L: Ledger>(
    text: &mut SpannedText,
    count: u32,
    one: &Incoming,
    steps: &mut Steps<L>,
) -> Result<(), Fault>
    requires { IsBrought one.now }
{
    let mut random = Random::new();
    let mut place = text.len() / 2;
    for _ in 0..count {
        let further = place.saturating_add(random.place(2 * NEAR));
        place = further.saturating_sub(NEAR);
        let at = place.min(text.len());
        replace(text, at, at, one, steps)?;
    }
    Ok(())
}

/// The units under the last spans go, one after another.
pub fn empty_spans<L: Ledger>(
    text: &mut SpannedText,
    request: &Request,
    none: &Incoming,
    steps: &mut Steps<L>,
) -> Result<(), Fault>
    requires { IsBrought none.now }
{
    let shorts = request.spans.saturating_sub(request.nested);
    for at in 0..request.count {
        let last = shorts.saturating_sub(1).saturating_sub(at);
        let range = short_range(request, last);
        let end = range.1.min(Limits::TEXT);
        replace(text, range.0.min(end), end, none, steps)?;
    }
    Ok(())
}

/// Units from the middle on go, all at once.
pub fn take_range<L: Ledger>(
    text: &mut SpannedText,
    count: u32,
    none: &Incoming,
    steps: &mut Steps<L>,
) -> Result<(), Fault>
    requires { IsBrought none.now }
{
    for _ in 0..count {
        let middle = text.len() / 2;
        let end = middle.saturating_add(RANGE).min(text.len());
        replace(text, middle, end, none, steps)?;
    }
    Ok(())
}

/// Spans come over units that are drawn.
pub fn attach_many<L: Ledger>(
    text: &mut SpannedText,
    request: &Request,
    steps: &mut Steps<L>,
) -> Result<(), Fault> {
    let mut random = Random::new();
    for at in 0..request.count {
        let start = random.place(text.len().saturating_sub(1));
        let range = (start, start.saturating_add(1));
        let next = request.spans.saturating_add(at);
        set(text, next, range, flags_of_tag(next), steps)?;
    }
    Ok(())
}

/// Spans go, as many apart from one another in the order of attachment as there are spans for each.
pub fn remove_many(text: &mut SpannedText, request: &Request) -> Result<(), Fault> {
    let apart = request.spans / request.count.max(1);
    for at in 0..request.count {
        match text.remove_span(id_of(at.saturating_mul(apart))) {
            Verdict::Done => (),
            _ => return Err(Fault::NotDone),
        }
    }
    Ok(())
}

/// Spans that are drawn, but for those that are nested, go to units that are drawn.
pub fn put_many<L: Ledger>(
    text: &mut SpannedText,
    request: &Request,
    steps: &mut Steps<L>,
) -> Result<(), Fault> {
    let shorts = request.spans.saturating_sub(request.nested);
    let last = shorts.saturating_sub(1).min(Limits::SPANS);
    let mut random = Random::new();
    for _ in 0..request.count {
        let at = request.nested.saturating_add(random.place(last));
        let start = random.place(text.len().saturating_sub(1));
        let range = (start, start.saturating_add(1));
        set(text, at, range, flags_of_tag(at), steps)?;
    }
    Ok(())
}
