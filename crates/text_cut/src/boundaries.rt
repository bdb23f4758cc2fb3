//! Boundaries of paragraphs.

ghost use Rattle.std.specs.Prelude.{◌≡◌, ◌≤◌, ◌<◌, true, length, position, Some, IfSome};
ghost use Rattle.std.specs.List.{list_any};
ghost use Rattle.edit_model.specs.Boundaries.{is_boundary, is_newline, next_boundary};
ghost use Rattle.edit_model.specs.Rows.{span_of, spans_in};
ghost use Rattle.text_cut.specs.Halves.{joined};
ghost use Rattle.text_cut.specs.Pulled.{has_pulled_end, pulls_one};

use crate::halves::Halves;
use edit_base::{NEWLINE, SpanRow};
use span_flags::{is_paragraph, is_pulled, kind_of_word};

/// Whether a place is a boundary of paragraphs.
pub fn is_boundary(text: &Halves, at: u32) -> bool
    ensures { result ≡ is_boundary (joined text.now) at }
{
    at == 0 || at == text.len() || (at <= text.len() && text.unit(at - 1) == NEWLINE)
}

/// The boundary that the ends of paragraph spans are pulled to when the units from `start` to `end` become others: it
/// is looked for only where there is such an end.
pub fn boundary_behind(text: &Halves, rows: &[SpanRow], start: u32, end: u32) -> Option<u32>
    requires place { end ≤ length (joined text.now) }
    ensures next { pulls_one start end (spans_in rows.now) ≡ true
        → result ≡ Some (next_boundary (joined text.now) end) }
    ensures within { IfSome result (λ at. at ≤ length (joined text.now)) }
{
    if start < end && pulls_one(rows, start, end) {
        Some(next_boundary(text, end))
    } else {
        None
    }
}

// Whether an end of one of these is pulled.
fn pulls_one(rows: &[SpanRow], start: u32, end: u32) -> bool
    ensures { result ≡ pulls_one start end (spans_in rows.now) }
{
    rows.iter().any(|row| has_pulled_end(row, start, end))
}

// Whether the span is a paragraph span, and one of its ends lies inside the range or at its end.
fn has_pulled_end(row: &SpanRow, start: u32, end: u32) -> bool
    ensures { result ≡ has_pulled_end start end (span_of row.now) }
{
    (is_pulled(row.start, start, end) || is_pulled(row.end, start, end))
        && is_paragraph(kind_of_word(row.flags))
}

/// The least place behind this one with `\n` right before it, else the length.
pub fn next_boundary(text: &Halves, place: u32) -> u32
    requires { place ≤ length (joined text.now) }
    ensures next { result ≡ next_boundary (joined text.now) place }
    ensures within { result ≤ length (joined text.now) }
{
    match first_newline(&text.from(place)) {
        Some(others) => place + others + 1,
        None => text.len(),
    }
}

fn first_newline(text: &Halves) -> Option<u32>
    ensures first { result ≡ position is_newline (joined text.now) }
    ensures within { IfSome result (λ at. at < length (joined text.now)) }
{
    match newline_in(text.left) {
        Some(at) => Some(at as u32),
        None => match newline_in(text.right) {
            Some(at) => Some((text.left.len() + at) as u32),
            None => None,
        },
    }
}

fn newline_in(units: &[u16]) -> Option<usize>
    ensures first { result ≡ position is_newline units.now }
    ensures within { IfSome result (λ at. at < length units.now) }
{
    units.iter().position(|unit| *unit == NEWLINE)
}
