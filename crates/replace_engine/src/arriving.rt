//! The spans that a replacement brings: which of them are attached, and where.

ghost use Rattle.std.specs.Prelude.{◌≡◌, ◌≤◌, ◌<◌, ◌+◌, ◌^◌, ◌++◌, ◌&&◌, [], ◌∷◌, true, false, not, map, length, vec_len, vec_capacity, option_to_list, if◌then◌else◌};
ghost use Rattle.std.specs.List.{list_any};
ghost use Rattle.edit_model.specs.Attached.{has_id, is_attached};
ghost use Rattle.edit_model.specs.Brought.{has_place, is_skipped};
ghost use Rattle.edit_model.specs.Replaced.{is_emptied};
ghost use Rattle.edit_model.specs.Rows.{span_of, spans_in};
ghost use Rattle.span_table.specs.Table.{spans_of};
ghost use Rattle.moved_rows.specs.Moves.{IsStill};
ghost use Rattle.text_cut.specs.Coming.{all_coming};
ghost use Rattle.replace_engine.specs.Arrivals.{IsAmong, arrivals, placed, stayed, text_then};

use edit_base::{Incoming, Limits, NewSpan, SpanRow};
use interval_tree::SpanIndex;
use moved_rows::MovedRows;
use span_changes::is_attached;
use span_flags::{Kind, kind_of_word};
use span_table::push_within;
use text_cut::{Coming, Cut};

/// The spans that come and are attached stand behind the rows, one by one, and are told of.
#[tactic(auto, using(crate::proofs::Arrived::one_by_one))]
pub fn attach_coming(coming: &Coming, cut: &Cut, moved: &mut MovedRows, added: &mut Vec<SpanRow>)
    requires none { added.old.items ≡ [] }
    requires room { length (arrivals cut.now (spans_of moved.old.rows) (all_coming coming.now))
        ≤ moved.old.rows.spare }
    requires few { length moved.old.rows.kept
        + length (arrivals cut.now (spans_of moved.old.rows) (all_coming coming.now)) ≤ Limits.SPANS }
    requires told { length (arrivals cut.now (spans_of moved.old.rows) (all_coming coming.now))
        ≤ vec_capacity added.old }
    ensures rows { spans_of moved.new.rows
        ≡ spans_of moved.old.rows ++ arrivals cut.now (spans_of moved.old.rows) (all_coming coming.now) }
    ensures added { spans_in added.new.items ≡ arrivals cut.now (spans_of moved.old.rows) (all_coming coming.now) }
    ensures still { IsStill moved.old moved.new }
    ensures spare { moved.old.rows.spare
        ≤ moved.new.rows.spare + length (arrivals cut.now (spans_of moved.old.rows) (all_coming coming.now)) }
    ensures kept { vec_capacity added.old ≤ vec_capacity added.new }
{
    attach_spans(coming.spans, cut, moved, added);
    attach_region(coming.region, cut, moved, added);
}

// Those of the given spans.
fn attach_spans(spans: &[NewSpan], cut: &Cut, moved: &mut MovedRows, added: &mut Vec<SpanRow>)
    requires none { added.old.items ≡ [] }
    requires room { length (arrivals cut.now (spans_of moved.old.rows) spans.now) ≤ moved.old.rows.spare }
    requires few { length moved.old.rows.kept
        + length (arrivals cut.now (spans_of moved.old.rows) spans.now) ≤ Limits.SPANS }
    requires told { length (arrivals cut.now (spans_of moved.old.rows) spans.now) ≤ vec_capacity added.old }
    ensures rows { spans_of moved.new.rows
        ≡ spans_of moved.old.rows ++ arrivals cut.now (spans_of moved.old.rows) spans.now }
    ensures added { spans_in added.new.items ≡ arrivals cut.now (spans_of moved.old.rows) spans.now }
    ensures still { IsStill moved.old moved.new }
    ensures spare { moved.old.rows.spare
        ≤ moved.new.rows.spare + length (arrivals cut.now (spans_of moved.old.rows) spans.now) }
    ensures kept { vec_capacity added.old ≤ vec_capacity added.new }
{
    for span in spans {
        attach_span(span, cut, moved, added);
    }
}

// That of the composing region, where it comes.
fn attach_region(
    region: Option<NewSpan>,
    cut: &Cut,
    moved: &mut MovedRows,
    added: &mut Vec<SpanRow>,
)
    requires room { length (arrivals cut.now (spans_of moved.old.rows) (option_to_list region))
        ≤ moved.old.rows.spare }
    requires few { length moved.old.rows.kept
        + length (arrivals cut.now (spans_of moved.old.rows) (option_to_list region)) ≤ Limits.SPANS }
    requires told { vec_len added.old + length (arrivals cut.now (spans_of moved.old.rows) (option_to_list region))
        ≤ vec_capacity added.old }
    ensures rows { spans_of moved.new.rows
        ≡ spans_of moved.old.rows ++ arrivals cut.now (spans_of moved.old.rows) (option_to_list region) }
    ensures added { spans_in added.new.items
        ≡ spans_in added.old.items ++ arrivals cut.now (spans_of moved.old.rows) (option_to_list region) }
    ensures still { IsStill moved.old moved.new }
    ensures spare { moved.old.rows.spare
        ≤ moved.new.rows.spare + length (arrivals cut.now (spans_of moved.old.rows) (option_to_list region)) }
    ensures kept { vec_capacity added.old ≤ vec_capacity added.new }
{
    if let Some(span) = region {
        attach_span(&span, cut, moved, added);
    }
}

/// An incoming span comes behind the rows and is told of, unless it is skipped.
fn attach_span(span: &NewSpan, cut: &Cut, moved: &mut MovedRows, added: &mut Vec<SpanRow>)
    requires room { length (arrivals cut.now (spans_of moved.old.rows) (span.now ∷ [])) ≤ moved.old.rows.spare }
    requires few { length moved.old.rows.kept
        + length (arrivals cut.now (spans_of moved.old.rows) (span.now ∷ [])) ≤ Limits.SPANS }
    requires told { vec_len added.old + length (arrivals cut.now (spans_of moved.old.rows) (span.now ∷ []))
        ≤ vec_capacity added.old }
    ensures rows { spans_of moved.new.rows
        ≡ spans_of moved.old.rows ++ arrivals cut.now (spans_of moved.old.rows) (span.now ∷ []) }
    ensures added { spans_in added.new.items
        ≡ spans_in added.old.items ++ arrivals cut.now (spans_of moved.old.rows) (span.now ∷ []) }
    ensures still { IsStill moved.old moved.new }
    ensures spare { moved.old.rows.spare
        ≤ moved.new.rows.spare + length (arrivals cut.now (spans_of moved.old.rows) (span.now ∷ [])) }
    ensures kept { vec_capacity added.old ≤ vec_capacity added.new }
{
    let row = SpanRow {
        order: u64::from(moved.rows().rows().count()),
        ..placed_row(span, cut)
    };
    if is_skipped(&row, cut, moved.rows()) {
        return;
    }
    push_within(added, row);
    // There is room, so this succeeds.
    let _ = moved.add(&row);
}

/// Whether an incoming span isn't attached behind these rows.
fn is_skipped(row: &SpanRow, cut: &Cut, rows: &SpanIndex) -> bool
    requires { IsAmong cut.now row.now }
    ensures { result ≡ is_skipped (text_then cut.now) (spans_of rows.now) (span_of row.now) }
{
    is_attached(rows, row.id) || !has_place(row, cut)
}

/// The row of an incoming span: clipped to the units that come, and moved by the place where they begin.
fn placed_row(span: &NewSpan, cut: &Cut) -> SpanRow
    ensures span { span_of result ≡ placed cut.now span.now }
    ensures among { IsAmong cut.now result }
{
    SpanRow {
        id: span.id,
        start: cut.start + span.start.min(cut.grown),
        end: cut.start + span.end.min(cut.grown),
        flags: span.flags,
        order: 0,
        what: span.what,
    }
}

/// Whether an incoming span may stand at its place: it isn't empty where it may not be, and a paragraph span stands at
/// boundaries of the text that stands then.
fn has_place(row: &SpanRow, cut: &Cut) -> bool
    requires { IsAmong cut.now row.now }
    ensures { result ≡ has_place (text_then cut.now) (span_of row.now) }
{
    match kind_of_word(row.flags) {
        Kind::PointMark => row.start != row.end,
        Kind::Paragraph => cut.is_boundary_then(row.start) && cut.is_boundary_then(row.end),
        Kind::MarkMark | Kind::MarkPoint | Kind::PointPoint => true,
    }
}

// ---- counted before anything changes

/// How many spans stand after a replacement: those that aren't emptied, and those that come and are attached.
pub fn count_spans_then(coming: &Coming, cut: &Cut, rows: &SpanIndex) -> usize
    requires few { length rows.now.kept ≤ Limits.SPANS }
    requires spans { length coming.now.spans.now ≤ Incoming.MOST }
    ensures count { result ≡ length (stayed cut.now (spans_of rows.now)
        ++ arrivals cut.now (stayed cut.now (spans_of rows.now)) (all_coming coming.now)) }
    ensures few { result ≤ Limits.SPANS + Incoming.MOST + 1 }
{
    count_kept(rows, cut) + count_coming(coming, cut, rows)
}

/// How many of the spans that come are attached.
#[tactic(auto, using(crate::proofs::Arrived::one_by_one))]
pub fn count_coming(coming: &Coming, cut: &Cut, rows: &SpanIndex) -> usize
    requires { length coming.now.spans.now < 2 ^ 63 }
    ensures count { result ≡ length (arrivals cut.now (stayed cut.now (spans_of rows.now)) (all_coming coming.now)) }
    ensures few { result ≤ length coming.now.spans.now + 1 }
{
    let count = count_arrivals(coming.spans, cut, rows);
    if region_arrives(coming, cut, rows) {
        count + 1
    } else {
        count
    }
}

// Whether the composing region comes and is attached.
fn region_arrives(coming: &Coming, cut: &Cut, rows: &SpanIndex) -> bool
    ensures { length (arrivals cut.now
        (stayed cut.now (spans_of rows.now)
        ++ arrivals cut.now (stayed cut.now (spans_of rows.now)) coming.now.spans.now)
        (option_to_list coming.now.region)) ≡ (if result then 1 else 0) }
{
    match &coming.region {
        Some(region) => arrives(region, coming.spans, cut, rows),
        None => false,
    }
}

/// How many rows aren't emptied.
pub fn count_kept(rows: &SpanIndex, cut: &Cut) -> usize
    ensures count { result ≡ length (stayed cut.now (spans_of rows.now)) }
    ensures few { result ≤ length rows.now.kept }
{
    let mut count = 0;
    for i in 0..rows.rows().count() {
        if !is_emptied(&rows.rows().read(i), cut) {
            count += 1;
        }
    }
    count
}

// How many of the given spans are attached.
fn count_arrivals(spans: &[NewSpan], cut: &Cut, rows: &SpanIndex) -> usize
    ensures count { result ≡ length (arrivals cut.now (stayed cut.now (spans_of rows.now)) spans.now) }
    ensures few { result ≤ length spans.now }
{
    let mut count = 0;
    for (at, span) in spans.iter().enumerate() {
        if arrives(span, &spans[..at], cut, rows) {
            count += 1;
        }
    }
    count
}

/// Whether an incoming span is attached behind the rows and the incoming spans before it.
fn arrives(span: &NewSpan, before: &[NewSpan], cut: &Cut, rows: &SpanIndex) -> bool
    ensures { result ≡ not (is_skipped (text_then cut.now)
        (stayed cut.now (spans_of rows.now) ++ arrivals cut.now (stayed cut.now (spans_of rows.now)) before.now)
        (placed cut.now span.now)) }
{
    !is_taken(span.id, before, cut, rows) && has_place(&placed_row(span, cut), cut)
}

/// Whether a span with this id is attached behind the rows and some of the incoming spans.
#[tactic(auto, using(crate::proofs::Arrived::arrived))]
fn is_taken(id: u32, before: &[NewSpan], cut: &Cut, rows: &SpanIndex) -> bool
    ensures { result ≡ is_attached id
        (stayed cut.now (spans_of rows.now) ++ arrivals cut.now (stayed cut.now (spans_of rows.now)) before.now) }
{
    stays(rows, cut, id) || is_brought(before, cut, id)
}

/// Whether a span with this id is attached and isn't emptied.
fn stays(rows: &SpanIndex, cut: &Cut, id: u32) -> bool
    ensures { result ≡ is_attached id (stayed cut.now (spans_of rows.now)) }
{
    match rows.find(id) {
        Some(at) => !is_emptied(&rows.rows().read(at), cut),
        None => false,
    }
}

/// Whether one of these incoming spans has this id and may stand at its place.
fn is_brought(before: &[NewSpan], cut: &Cut, id: u32) -> bool
    ensures { result ≡ list_any (λ span. has_id id span && has_place (text_then cut.now) span)
        (map (placed cut.now) before.now) }
{
    before.iter().any(|span| span.id == id && has_place(&placed_row(span, cut), cut))
}

/// Whether a replacement empties the span.
fn is_emptied(row: &SpanRow, cut: &Cut) -> bool
    ensures { result ≡ is_emptied cut.now.start cut.now.end cut.now.grown (span_of row.now) }
{
    span_flags::is_emptied(row, cut.start, cut.end, cut.grown)
}
