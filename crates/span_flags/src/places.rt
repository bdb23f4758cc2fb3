//! Where the end of a span stands to a range that is replaced, and where it goes.

ghost use Rattle.std.specs.Prelude.{◌≡◌, ◌<◌, ◌≤◌, ◌^◌, ℕ, true, List, length as length_of, Some, IfSome};
ghost use Rattle.edit_model.specs.Boundaries.{next_boundary};
ghost use Rattle.edit_model.specs.EndTable.{end_of, is_pulled};
ghost use Rattle.edit_model.specs.Replaced.{spliced_length};
ghost use Rattle.span_flags.specs.Moves.{place_by};
ghost use Rattle.span_flags.specs.Places.{class_of};

use crate::moves::{Move, moved};
use edit_model::EndKind;

/// Where a place x stands to the range from s to e of a text.
#[derive(Clone, Copy, Debug, PartialEq, Eq)]
pub enum PlaceClass {
    /// x < s.
    Before,
    /// x = s < e.
    AtStart,
    /// s < x < e.
    Inside,
    /// s < e = x.
    AtEnd,
    /// e < x.
    Behind,
    /// x = s = e, and text stands behind it.
    Point,
    /// x = s = e, at the end of the text.
    PointAtTextEnd,
}

/// The class of the place `x` against the range from `start` to `end` of a text of `length` units.
pub fn place_class(x: u32, start: u32, end: u32, length: u32) -> PlaceClass
    ensures { result ≡ class_of x start end length }
{
    if x < start {
        PlaceClass::Before
    } else if x > end {
        PlaceClass::Behind
    } else if start == end {
        if x == length {
            PlaceClass::PointAtTextEnd
        } else {
            PlaceClass::Point
        }
    } else if x == start {
        PlaceClass::AtStart
    } else if x < end {
        PlaceClass::Inside
    } else {
        PlaceClass::AtEnd
    }
}

/// Where `way` takes the place `x` when the units from `start` to `end` become `grown` units. `boundary` is the place
/// in the old text that an end is pulled to.
pub fn moved_to(way: Move, x: u32, start: u32, end: u32, grown: u32, boundary: u32) -> u32
    requires ordered { start ≤ end }
    requires fits { place_by way x start end grown boundary < 2 ^ 32 }
    ensures { result ≡ place_by way x start end grown boundary }
{
    let cut = end - start;
    match way {
        Move::Stay => x,
        Move::ToStart => start,
        Move::ToGrownEnd => start + grown,
        Move::Shift => x.saturating_sub(cut) + grown,
        Move::Pull => boundary.saturating_sub(cut) + grown,
    }
}

/// Whether a paragraph end at the place `x` is pulled: it lies inside the range or at its end.
pub fn is_pulled(x: u32, start: u32, end: u32) -> bool
    ensures { result ≡ is_pulled x start end }
{
    start < x && x <= end
}

/// Where an end of a span at the place `x` goes when the units from `start` to `end` of a text of `length` units become
/// `grown` units. `boundary` is the least place behind `end` with `\n` right before it, else the length, where it was
/// looked for; only a paragraph end that is pulled asks for it.
pub fn end_after(
    end_kind: EndKind,
    x: u32,
    start: u32,
    end: u32,
    grown: u32,
    length: u32,
    boundary: Option<u32>,
) -> u32
    requires ordered { start ≤ end }
    requires in_text { end ≤ length }
    requires place_in_text { x ≤ length }
    requires boundary_in_text { IfSome boundary (λ at. at ≤ length) }
    requires fits { spliced_length length start end grown < 2 ^ 32 }
    ensures { (units : List ℕ) → length_of units ≡ length
        → (end_kind ≡ EndKind.Paragraph → is_pulled x start end ≡ true → boundary ≡ Some (next_boundary units end))
        → result ≡ end_of end_kind x start end grown units }
{
    let place = place_class(x, start, end, length);
    let way = moved(end_kind, place, end - start, grown);
    moved_to(way, x, start, end, grown, boundary.unwrap_or(length))
}
