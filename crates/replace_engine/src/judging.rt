//! The verdicts of edits: each the first line of a table that applies.

ghost use Rattle.std.specs.Prelude.{ℕ, List, pos, ◌≤ℤ◌, ◌≡◌, ◌≤◌, ◌+◌, ◌^◌, nat_lt, ◌<◌, ◌&&◌, not, [], length};
ghost use Rattle.std.specs.List.{list_any};
ghost use Rattle.edit_base.specs.declared.verdicts.Verdict.TheVariants.{Done};
ghost use Rattle.edit_model.specs.declared.steps.Step.TheVariants.{Replace, Set, Remove};
ghost use Rattle.edit_model.specs.State.{Span, place};
ghost use Rattle.edit_model.specs.Attached.{has_id, is_attached};
ghost use Rattle.edit_model.specs.Boundaries.{is_boundary};
ghost use Rattle.edit_model.specs.Flags.{is_bad, kind_of, is_paragraph, is_point_mark};
ghost use Rattle.edit_model.specs.Rows.{span_of};
ghost use Rattle.edit_model.specs.Verdicts.{first_of, is_reserved, judged, lacks_slot, span_count_after_set, watches};
ghost use Rattle.edit_model.specs.Over.{is_watch};
ghost use Rattle.edit_model.specs.WellFormed.{is_kept_what};
ghost use Rattle.span_table.specs.Table.{spans_of};
ghost use Rattle.span_changes.specs.Rows.{state_with};
ghost use Rattle.edit_base.specs.declared.bounds.TheConstants.Limits.{SPANS};
ghost use Rattle.text_cut.specs.Halves.{joined};
ghost use Rattle.text_cut.specs.Coming.{all_coming};
ghost use Rattle.replace_engine.specs.Arrivals.{stayed};
ghost use Rattle.replace_engine.specs.EditVerdicts.{kind_lines, place_lines, replacement_lines, exchange_lines, span_lines};

use crate::arriving::{count_coming, count_kept};
use edit_base::{Incoming, Limits, NewSpan, Refusal, SpanRow, Verdict, What};
use interval_tree::SpanIndex;
use span_changes::is_attached;
use span_flags::{
    flags_of, goes_below, goes_beyond, is_paragraph, is_point_mark, is_watch, kind_of_word,
    place_of,
};
use text_cut::{Coming, Cut, Halves, coming_with, is_boundary};

/// A span as it is asked for, its places not looked at yet.
#[derive(Clone, Copy)]
pub struct AskedSpan {
    pub id: u32,
    pub start: i32,
    pub end: i32,
    pub flags: u32,
    pub what: What,
}

/// The verdict of a replacement of the units from `start` to `end`.
#[tactic(auto, unfolding(edit_model::specs::Verdicts::judged))]
pub fn judge_replace(
    text: &Halves,
    rows: &SpanIndex,
    start: i32,
    end: i32,
    incoming: &Incoming,
) -> Verdict
    requires spans { length rows.now.kept ≤ Limits.SPANS }
    ensures verdict { (slots : ℕ)
        → result ≡ judged (state_with (joined text.now) rows.now) slots (Replace start end incoming.now) }
{
    let spans = incoming.spans.as_slice();
    if brings_reserved(spans) {
        return Verdict::Refused(Refusal::Reserved);
    }
    if brings_bad_flags(spans) {
        return Verdict::Refused(Refusal::Flags);
    }
    judge_bounds(text, rows, start, end, incoming)
}

/// Whether an incoming span is none that a replacement may bring.
fn brings_reserved(spans: &[NewSpan]) -> bool
    ensures { result ≡ list_any is_reserved spans.now }
{
    spans.iter().any(is_reserved)
}

fn is_reserved(span: &NewSpan) -> bool
    ensures { result ≡ is_reserved span.now }
{
    span.id < 3 || is_kept_what(span.what) || is_watch(span.what)
}

fn brings_bad_flags(spans: &[NewSpan]) -> bool
    ensures { result ≡ list_any (λ span. is_bad span.flags) spans.now }
{
    spans.iter().any(|span| is_bad(span.flags))
}

/// The verdict of a replacement whose spans may come.
fn judge_bounds(
    text: &Halves,
    rows: &SpanIndex,
    start: i32,
    end: i32,
    incoming: &Incoming,
) -> Verdict
    requires spans { length rows.now.kept ≤ Limits.SPANS }
    ensures { result ≡ first_of (replacement_lines (state_with (joined text.now) rows.now) start end incoming.now) }
{
    if end < start {
        return Verdict::Refused(Refusal::Order);
    }
    if goes_beyond(text.len(), start, end) {
        return Verdict::Refused(Refusal::Beyond);
    }
    if goes_below(start, end) {
        return Verdict::Refused(Refusal::Below);
    }
    judge_exchange(text, rows, place_of(start), place_of(end), incoming)
}

/// The verdict of a replacement whose places lie in the text too.
fn judge_exchange(
    text: &Halves,
    rows: &SpanIndex,
    start: u32,
    end: u32,
    incoming: &Incoming,
) -> Verdict
    requires spans { length rows.now.kept ≤ Limits.SPANS }
    requires order { start ≤ end }
    requires within { end ≤ length (joined text.now) }
    ensures { result ≡ first_of
        (exchange_lines (state_with (joined text.now) rows.now) (pos start) (pos end) incoming.now) }
{
    let kept = text.len() - (end - start);
    if incoming.units.len() > (Limits::TEXT - kept) as usize {
        return Verdict::Refused(Refusal::TooLong);
    }
    let cut = Cut::new(text, start, end, incoming.units.as_slice(), None);
    judge_spans(rows, &cut, &coming_with(incoming))
}

/// The verdict of a replacement whose text isn't too long.
fn judge_spans(rows: &SpanIndex, cut: &Cut, coming: &Coming) -> Verdict
    requires few { length rows.now.kept ≤ Limits.SPANS }
    requires spans { length coming.now.spans.now < 2 ^ 63 }
    ensures { result ≡ first_of (span_lines cut.now (spans_of rows.now) (all_coming coming.now)) }
{
    let arrivals = count_coming(coming, cut, rows);
    if cut.start == cut.end && cut.grown == 0 && arrivals == 0 {
        return Verdict::NoChange;
    }
    if is_full(rows, cut, arrivals) {
        return Verdict::Refused(Refusal::SpansFull);
    }
    Verdict::Done
}

/// Whether too many spans would stand with so many that arrive. Where even all rows leave room for them, none is read.
#[tactic(auto, using(crate::proofs::Arrived::arrived))]
fn is_full(rows: &SpanIndex, cut: &Cut, arrivals: usize) -> bool
    requires { length rows.now.kept ≤ Limits.SPANS }
    ensures { result ≡ nat_lt SPANS (length (stayed cut.now (spans_of rows.now)) + arrivals) }
{
    let most = Limits::SPANS as usize;
    arrivals > most - rows.rows().count() as usize && arrivals > most - count_kept(rows, cut)
}

/// The verdict of a set, with so many watchers loaded.
#[tactic(auto, unfolding(edit_model::specs::Verdicts::judged))]
pub fn judge_set(text: &Halves, rows: &SpanIndex, asked: &AskedSpan, slots: u8) -> Verdict
    requires spans { length rows.now.kept ≤ Limits.SPANS }
    ensures verdict { result ≡ judged (state_with (joined text.now) rows.now) slots
        (Set asked.now.id asked.now.start asked.now.end asked.now.flags asked.now.what) }
    ensures starts { result ≡ Done → pos 0 ≤ℤ asked.now.start }
    ensures ends { result ≡ Done → pos 0 ≤ℤ asked.now.end }
{
    if asked.id < 3 || is_kept_what(asked.what) {
        return Verdict::Refused(Refusal::Reserved);
    }
    if lacks_slot(rows, asked.id, asked.what, slots) {
        return Verdict::Refused(Refusal::Slot);
    }
    if is_bad(asked.flags) {
        return Verdict::Refused(Refusal::Flags);
    }
    judge_places(text, rows, asked)
}

/// The verdict of a set whose id, what and flags are free to it.
fn judge_places(text: &Halves, rows: &SpanIndex, asked: &AskedSpan) -> Verdict
    requires spans { length rows.now.kept ≤ Limits.SPANS }
    ensures verdict { result ≡ first_of (place_lines (state_with (joined text.now) rows.now) asked.now) }
    ensures starts { result ≡ Done → pos 0 ≤ℤ asked.now.start }
    ensures ends { result ≡ Done → pos 0 ≤ℤ asked.now.end }
{
    if asked.end < asked.start {
        return Verdict::Refused(Refusal::Order);
    }
    if goes_beyond(text.len(), asked.start, asked.end) {
        return Verdict::Refused(Refusal::Beyond);
    }
    if goes_below(asked.start, asked.end) {
        return Verdict::Refused(Refusal::Below);
    }
    judge_kind(text, rows, asked)
}

/// The verdict of a set whose places lie in the text too.
fn judge_kind(text: &Halves, rows: &SpanIndex, asked: &AskedSpan) -> Verdict
    requires spans { length rows.now.kept ≤ Limits.SPANS }
    requires starts { pos 0 ≤ℤ asked.now.start }
    requires ends { pos 0 ≤ℤ asked.now.end }
    ensures { result ≡ first_of (kind_lines (state_with (joined text.now) rows.now) asked.now) }
{
    if breaks_paragraph(text, asked.flags, place_of(asked.start)) {
        return Verdict::Refused(Refusal::ParagraphStart);
    }
    if breaks_paragraph(text, asked.flags, place_of(asked.end)) {
        return Verdict::Refused(Refusal::ParagraphEnd);
    }
    if is_point_mark(kind_of_word(asked.flags)) && asked.start == asked.end {
        return Verdict::Ignored;
    }
    if span_count_after_set(rows, asked.id) > Limits::SPANS as usize {
        return Verdict::Refused(Refusal::SpansFull);
    }
    Verdict::Done
}

/// How many spans are attached after a set of this id.
#[tactic(auto, using(span_changes::proofs::Lists::lengths))]
fn span_count_after_set(rows: &SpanIndex, id: u32) -> usize
    requires { length rows.now.kept ≤ Limits.SPANS }
    ensures { result ≡ span_count_after_set (state_with [] rows.now) id }
{
    if is_attached(rows, id) {
        rows.rows().count() as usize
    } else {
        rows.rows().count() as usize + 1
    }
}

/// The verdict of a removal.
#[tactic(auto, unfolding(edit_model::specs::Verdicts::judged))]
pub fn judge_remove(rows: &SpanIndex, id: u32) -> Verdict
    ensures { (units : List ℕ) (slots : ℕ) → result ≡ judged (state_with units rows.now) slots (Remove id) }
{
    if id < 3 {
        return Verdict::Refused(Refusal::Reserved);
    }
    if !is_attached(rows, id) {
        return Verdict::Absent;
    }
    Verdict::Done
}

/// Whether this what watches, and has no slot or one that another span watches for.
fn lacks_slot(rows: &SpanIndex, id: u32, what: What, slots: u8) -> bool
    ensures { (units : List ℕ) → result ≡ lacks_slot (state_with units rows.now) slots id what }
{
    match what {
        What::Watch(slot) => slot >= slots || is_slot_taken(rows, id, slot),
        _ => false,
    }
}

/// Whether a span of another id watches for this slot.
fn is_slot_taken(rows: &SpanIndex, id: u32, slot: u8) -> bool
    ensures { result ≡ list_any (λ span. not (has_id id span) && watches slot span.what) (spans_of rows.now) }
{
    for i in 0..rows.rows().count() {
        if is_other_seat(&rows.rows().read(i), id, slot) {
            return true;
        }
    }
    false
}

/// Whether the span has another id and is the seat of the watcher in this slot.
fn is_other_seat(row: &SpanRow, id: u32, slot: u8) -> bool
    ensures { result ≡ (not (has_id id (span_of row.now)) && watches slot row.now.what) }
{
    row.id != id && watches(row.what, slot)
}

fn watches(what: What, slot: u8) -> bool
    ensures { result ≡ watches slot what }
{
    matches!(what, What::Watch(other) if other == slot)
}

fn is_kept_what(what: What) -> bool
    ensures { result ≡ is_kept_what what }
{
    matches!(what, What::SelStart | What::SelEnd | What::Composing)
}

/// Whether a paragraph span may not start or end at this place.
fn breaks_paragraph(text: &Halves, flags: u32, at: u32) -> bool
    ensures { result ≡ (is_paragraph (kind_of flags) && not (is_boundary (joined text.now) at)) }
{
    is_paragraph(kind_of_word(flags)) && !is_boundary(text, at)
}

/// Whether a flags word is bad.
fn is_bad(flags: u32) -> bool
    ensures { result ≡ is_bad flags }
{
    flags_of(flags).is_err()
}
