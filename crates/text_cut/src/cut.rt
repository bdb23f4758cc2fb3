//! A range of a text that becomes other units, and where the ends of spans go.

ghost use Rattle.std.specs.Prelude.{◌≡◌, ◌≤◌, ◌<◌, ◌+◌, ◌-◌, true, length, slice_index, MatchOption, Some};
ghost use Rattle.std.specs.Option.{ForSome};
ghost use Rattle.edit_base.specs.declared.bounds.TheConstants.Limits.{TEXT};
ghost use Rattle.edit_model.specs.Boundaries.{is_boundary, next_boundary};
ghost use Rattle.edit_model.specs.EndTable.{end_of_span, is_pulled, is_scaled, scaled};
ghost use Rattle.edit_model.specs.Replaced.{spliced, spliced_length};
ghost use Rattle.text_cut.specs.Halves.{joined};

use crate::halves::Halves;
use edit_base::NEWLINE;
use span_flags::{EndKind, end_after};

/// The ids below this one are those of the selection's two spans.
const SELECTION_IDS: u32 = 2;

/// The units from `start` to `end` of a text, which become others.
#[derive(Clone, Copy)]
pub struct Cut<'a> {
    /// The text as it is.
    pub text: Halves<'a>,
    /// The units that come.
    pub brought: &'a [u16],
    pub start: u32,
    pub end: u32,
    /// How many units come.
    pub grown: u32,
    /// The place in the text as it is that paragraph ends are pulled to, where it was looked for.
    pub boundary: Option<u32>,
    ghost ordered: { start ≤ end },
    ghost within: { end ≤ length (joined text) },
    ghost counted: { grown ≡ length brought.now },
    ghost short: { spliced_length (length (joined text)) start end grown ≤ TEXT },
    ghost pulled: { ForSome boundary (λ at. at ≤ length (joined text)) },
}

impl<'a> Cut<'a> {
    /// The units from `start` to `end` become those of `brought`, and paragraph ends are pulled to this boundary.
    pub fn new(
        text: &Halves<'a>,
        start: u32,
        end: u32,
        brought: &'a [u16],
        boundary: Option<u32>,
    ) -> Cut<'a>
        requires ordered { start ≤ end }
        requires within { end ≤ length (joined text.now) }
        requires short { spliced_length (length (joined text.now)) start end (length brought.now) ≤ TEXT }
        requires pulled { ForSome boundary (λ at. at ≤ length (joined text.now)) }
        ensures text { joined result.text ≡ joined text.now }
        ensures brought { result.brought.now ≡ brought.entry.now }
        ensures start { result.start ≡ start }
        ensures end { result.end ≡ end }
        ensures grown { result.grown ≡ length brought.entry.now }
        ensures boundary { result.boundary ≡ boundary }
    {
        Cut {
            text: *text,
            brought,
            start,
            end,
            grown: brought.len() as u32,
            boundary,
        }
    }
}

impl Cut<'_> {
    /// Where an end of the span with this id goes. An end of the selection that stands between the ends of the range,
    /// where units come, goes as far into them as it was into those that go, in proportion and rounded down. Every
    /// other end goes where its kind takes it.
    pub fn end_after(&self, id: u32, end_kind: EndKind, at: u32) -> u32
        requires place { at ≤ length (joined self.now.text) }
        requires boundary { end_kind ≡ EndKind.Paragraph → is_pulled at self.now.start self.now.end ≡ true
            → self.now.boundary ≡ Some (next_boundary (joined self.now.text) self.now.end) }
        ensures { result ≡ end_of_span id end_kind at self.now.start self.now.end self.now.grown (joined self.now.text) }
    {
        if self.is_scaled(id, at) {
            return self.scaled(at);
        }
        end_after(
            end_kind,
            at,
            self.start,
            self.end,
            self.grown,
            self.text.len(),
            self.boundary,
        )
    }

    // Whether it is an end of the selection between the ends of the range, where units come.
    fn is_scaled(&self, id: u32, at: u32) -> bool
        ensures { result ≡ is_scaled id at self.now.start self.now.end self.now.grown }
    {
        id < SELECTION_IDS && self.start < at && at < self.end && self.grown > 0
    }

    // The place as far into the units that come as this one is into those that go. Both counts are those of a text, so
    // that 64 bits hold their product.
    fn scaled(&self, at: u32) -> u32
        requires least { self.now.start < at }
        requires greatest { at < self.now.end }
        ensures { result ≡ scaled at self.now.start self.now.end self.now.grown }
    {
        let product = u64::from(at - self.start) * u64::from(self.grown);
        let part = product / u64::from(self.end - self.start);
        self.start + part as u32
    }

    /// Whether a place among the units that come, counted in the text that stands then, is a boundary of paragraphs.
    pub fn is_boundary_then(&self, at: u32) -> bool
        requires least { self.now.start ≤ at }
        requires greatest { at ≤ self.now.start + self.now.grown }
        ensures { result
            ≡ is_boundary (spliced (joined self.now.text) self.now.start self.now.end self.now.brought.now) at }
    {
        if at - self.start == self.grown && self.end == self.text.len() {
            return true;
        }
        match self.unit_before(at) {
            Some(unit) => unit == NEWLINE,
            None => true,
        }
    }

    // The unit before such a place, in the text that stands then.
    fn unit_before(&self, at: u32) -> Option<u16>
        requires least { self.now.start ≤ at }
        requires greatest { at ≤ self.now.start + self.now.grown }
        ensures { MatchOption result (at ≡ 0) (λ unit. (0 < at)
            × (unit ≡ slice_index
            (spliced (joined self.now.text) self.now.start self.now.end self.now.brought.now)
            (at - 1))) }
    {
        if at > self.start {
            Some(self.brought[(at - self.start) as usize - 1])
        } else if at > 0 {
            Some(self.text.unit(at - 1))
        } else {
            None
        }
    }
}
