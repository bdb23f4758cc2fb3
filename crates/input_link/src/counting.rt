//! Characters, counted from a place on or back: a pair of surrogates is one.

ghost use Rattle.std.specs.Prelude.{◌≡◌, ◌≤◌, ◌<◌, ◌+◌, ◌-◌, length, IfSome, IfNone};
ghost use Rattle.text_cut.specs.Halves.{joined};
ghost use Rattle.trace_model.specs.Items.{is_surrogate, width_before, width_at, counted_back, counted_on};
ghost use Rattle.input_link.specs.Looked.{looked_back, looked_on};

use edit_base::{Steps, is_high, is_low};
use std::sync::ledger::Ledger;
use text_cut::Halves;

/// Whether a unit is half of a pair.
fn is_surrogate(unit: u16) -> bool
    ensures { result ≡ is_surrogate unit }
{
    is_high(unit) || is_low(unit)
}

/// How many units the character has that ends at a place: none at the text's start, and no answer where half of a pair
/// stands alone.
#[tactic(auto, unfolding(trace_model::specs::Items::width_before))]
fn width_before(text: &Halves, at: u32) -> Option<u32>
    requires { at ≤ length (joined text.now) }
    ensures width { result ≡ width_before (joined text.now) at }
    ensures within { IfSome result (λ width. width ≤ at) }
    ensures some { IfSome result (λ width. 0 < at → 0 < width) }
{
    if at == 0 {
        return Some(0);
    }
    let last = text.unit(at - 1);
    if !is_surrogate(last) {
        return Some(1);
    }
    if is_low(last) && at > 1 && is_high(text.unit(at - 2)) {
        return Some(2);
    }
    None
}

/// How many units the character has that starts at a place: none at the text's end, and no answer where half of a pair
/// stands alone.
#[tactic(auto, unfolding(trace_model::specs::Items::width_at))]
fn width_at(text: &Halves, at: u32) -> Option<u32>
    requires { at ≤ length (joined text.now) }
    ensures width { result ≡ width_at (joined text.now) at }
    ensures within { IfSome result (λ width. at + width ≤ length (joined text.now)) }
    ensures some { IfSome result (λ width. at < length (joined text.now) → 0 < width) }
{
    if at >= text.len() {
        return Some(0);
    }
    let first = text.unit(at);
    if !is_surrogate(first) {
        return Some(1);
    }
    if is_high(first) && at + 1 < text.len() && is_low(text.unit(at + 1)) {
        return Some(2);
    }
    None
}

/// The place so many characters back, at least 0; no answer where half of a pair stands alone before it is reached.
/// It takes a step for each character that it looks at: no more than units are passed, or looked at up to that half.
#[tactic(auto, using(crate::proofs::Counted::back_one, crate::proofs::Counted::back_lone, crate::proofs::Counted::back_end, crate::proofs::Counted::back_looked, crate::proofs::Counted::back_looked_lone))]
pub fn counted_back<L: Ledger>(
    text: &Halves,
    count: u32,
    at: u32,
    steps: &mut Steps<L>,
) -> Option<u32>
    requires { at ≤ length (joined text.now) }
    ensures place { result ≡ counted_back (joined text.now) count at }
    ensures within { IfSome result (λ first. first ≤ at) }
    ensures passed { IfSome result (λ first. steps.new ≤ steps.old + (at - first)) }
    ensures looked { IfNone result (steps.new ≤ steps.old + looked_back (joined text.now) count at) }
{
    let mut place = at;
    let mut left = count;
    while left > 0 && place > 0 {
        steps.tick();
        place -= width_before(text, place)?;
        left -= 1;
    }
    Some(place)
}

/// The place so many characters on, at most the text's end; no answer where half of a pair stands alone before it is
/// reached. Its steps are those of a count back.
#[tactic(auto, using(crate::proofs::Counted::on_one, crate::proofs::Counted::on_lone, crate::proofs::Counted::on_end, crate::proofs::Counted::on_looked, crate::proofs::Counted::on_looked_lone))]
pub fn counted_on<L: Ledger>(
    text: &Halves,
    count: u32,
    at: u32,
    steps: &mut Steps<L>,
) -> Option<u32>
    requires { at ≤ length (joined text.now) }
    ensures place { result ≡ counted_on (joined text.now) count at }
    ensures within { IfSome result (λ last. at ≤ last) }
    ensures passed { IfSome result (λ last. steps.new ≤ steps.old + (last - at)) }
    ensures looked { IfNone result (steps.new ≤ steps.old + looked_on (joined text.now) count at) }
{
    let mut place = at;
    let mut left = count;
    while left > 0 && place < text.len() {
        steps.tick();
        place += width_at(text, place)?;
        left -= 1;
    }
    Some(place)
}
