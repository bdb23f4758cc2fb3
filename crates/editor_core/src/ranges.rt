//! The range that a query asks about.

ghost use Rattle.std.specs.Prelude.{◌≡◌, ◌≤◌, length};
ghost use Rattle.edit_base.specs.declared.bounds.TheConstants.Limits.{SPANS};
ghost use Rattle.edit_model.specs.Verdicts.{judged_range};

use edit_base::{Refusal, Verdict};
use replace_engine::SpannedText;
use span_flags::{goes_below, goes_beyond};

/// The verdict on a query's range.
#[tactic(auto, unfolding(edit_model::specs::Verdicts::judged_range))]
pub fn judge_range(start: i32, end: i32, text: &SpannedText) -> Verdict
    ensures verdict { result ≡ judged_range text.now.state start end }
    ensures few { length text.now.state.spans ≤ SPANS }
{
    let length = text.len();
    if end < start {
        return Verdict::Refused(Refusal::Order);
    }
    if goes_beyond(length, start, end) {
        return Verdict::Refused(Refusal::Beyond);
    }
    if goes_below(start, end) {
        return Verdict::Refused(Refusal::Below);
    }
    Verdict::Done
}
