//! The verdict of an edit, with the number behind it, and whether an edit may begin.

ghost use Rattle.std.specs.Prelude.{ℕ, ◌≡◌, ◌≤◌, ◌<◌, true, false};
ghost use Rattle.edit_base.specs.declared.verdicts.Verdict.TheVariants.{Refused};
ghost use Rattle.edit_base.specs.declared.verdicts.Refusal.TheVariants.{SpansFull};
ghost use Rattle.edit_model.specs.declared.steps.Step.{Step as EditStep};
ghost use Rattle.edit_model.specs.State.{State, place};
ghost use Rattle.edit_model.specs.Replaced.{spliced_length};
ghost use Rattle.edit_model.specs.Verdicts.{judged};
ghost use Rattle.edit_model.specs.Log.{length_of, span_count_of, verdict_number, logged};
ghost use Rattle.edit_model.specs.Fitting.{IsFittingStep};
ghost use Rattle.edit_model.specs.Machine.{is_barred, judged_at};

use edit_base::{Incoming, Limits, Refusal, Verdict};
use edit_model::{Logged, Step};
use replace_engine::SpannedText;
use span_flags::place_of;

/// Whether a nested edit is refused for its depth, or for the number that have begun.
#[tactic(auto, unfolding(edit_model::specs::Machine::is_barred))]
pub fn is_barred(limit: u32, depth: u32, begun: u32) -> bool
    ensures barred { result ≡ is_barred limit depth begun }
    ensures shallow { result ≡ false → 0 < depth → depth ≤ limit }
    ensures few { result ≡ false → 0 < depth → begun < Limits.NESTED_EDITS }
{
    depth > 0 && depth > limit || depth > 0 && begun >= Limits::NESTED_EDITS
}

/// Why it is refused.
#[tactic(auto, unfolding(edit_model::specs::Machine::is_barred, edit_model::specs::Machine::judged_at))]
pub fn barring(limit: u32, depth: u32, begun: u32) -> Logged
    requires { is_barred limit depth begun ≡ true }
    ensures { (state : State) (slots : ℕ) (edit : EditStep)
        → result ≡ logged state edit (judged_at state slots limit depth begun edit) }
{
    let refusal = if depth > limit {
        Refusal::Depth
    } else {
        Refusal::Budget
    };
    Logged {
        verdict: Verdict::Refused(refusal),
        number: 0,
    }
}

/// The verdict of an edit that isn't barred, its text being filtered already, and the number behind it.
pub fn judge(step: &Step, slots: u8, text: &SpannedText) -> Logged
    requires { IsFittingStep step.now }
    ensures { result ≡ logged text.now.state step.now (judged text.now.state slots step.now) }
{
    let verdict = text.judge(step, slots);
    let number = number_behind(verdict, step, slots, text);
    Logged { verdict, number }
}

// The number behind an edit's verdict: the present length, the length or the number of spans that would stand, or 0.
fn number_behind(verdict: Verdict, step: &Step, slots: u8, text: &SpannedText) -> u32
    requires fitting { IsFittingStep step.now }
    requires judged { verdict ≡ judged text.now.state slots step.now }
    ensures { result ≡ verdict_number text.now.state step.now verdict }
{
    match verdict {
        Verdict::Done => 0,
        Verdict::NoChange => 0,
        Verdict::Ignored => 0,
        Verdict::Absent => 0,
        Verdict::Refused(refusal) => match refusal {
            Refusal::Depth => 0,
            Refusal::Budget => 0,
            Refusal::Reserved => 0,
            Refusal::Slot => 0,
            Refusal::Order => text.len(),
            Refusal::Beyond => text.len(),
            Refusal::Below => text.len(),
            Refusal::ParagraphStart => 0,
            Refusal::ParagraphEnd => 0,
            Refusal::TooLong => length_then(step, text),
            Refusal::SpansFull => span_count_then(step, slots, text),
            Refusal::Flags => 0,
            Refusal::NotInBatch => 0,
            Refusal::NestingFull => 0,
        },
    }
}

// The length that would stand after an edit.
fn length_then(step: &Step, text: &SpannedText) -> u32
    requires { IsFittingStep step.now }
    ensures { result ≡ length_of text.now.state step.now }
{
    match step {
        Step::Replace {
            start,
            end,
            incoming,
        } => length_after(text.len(), *start, *end, incoming.units.len() as u32),
        Step::Set { .. } => text.len(),
        Step::Remove { .. } => text.len(),
        Step::Select { .. } => text.len(),
        Step::Deselect => text.len(),
        Step::Drop => text.len(),
        Step::Mark { .. } => text.len(),
    }
}

// The length that would stand after a replacement.
fn length_after(length_before: u32, start: i32, end: i32, units: u32) -> u32
    requires text { length_before ≤ Limits.TEXT }
    requires units { units ≤ Incoming.MOST }
    ensures { result ≡ spliced_length length_before (place start) (place end) units }
{
    let cut = place_of(end).saturating_sub(place_of(start));
    length_before.saturating_sub(cut) + units
}

// The number of spans that would stand after an edit that is refused since they are too many.
fn span_count_then(step: &Step, slots: u8, text: &SpannedText) -> u32
    requires fitting { IsFittingStep step.now }
    requires full { judged text.now.state slots step.now ≡ Refused SpansFull }
    ensures { result ≡ span_count_of text.now.state step.now }
{
    match step {
        Step::Replace {
            start,
            end,
            incoming,
        } => text.span_count_then(*start, *end, incoming),
        Step::Set { .. } => text.span_count() + 1,
        Step::Remove { .. } => text.span_count(),
        Step::Select { .. } => text.span_count() + 2,
        Step::Deselect => text.span_count(),
        Step::Drop => text.span_count(),
        Step::Mark { .. } => text.span_count() + 1,
    }
}
