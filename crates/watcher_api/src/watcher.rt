//! The trait of watchers.

ghost use Rattle.std.specs.Prelude.{◌≡◌, ◌≤◌, ◌++◌, true, false, length, Some, None};
ghost use Rattle.edit_base.specs.declared.bounds.TheConstants.Limits.{TEXT};
ghost use Rattle.edit_model.specs.Minds.{Mind, loaded_mind, mind_before, mind_changed, mind_after, answer_after, mind_span, answer_span, IsTold, IsToldSpan};

use arrayvec::ArrayVec;
use edit_base::Edit;
use edit_model::{SpanEvent, TextEvent};

/// The edits that a watcher asks for, in order: at most four, without an allocator.
pub type Answer = ArrayVec<Edit, 4>;

/// The shelf place of the watcher in each slot; at most eight, without an allocator.
pub type Slots = ArrayVec<usize, 8>;

/// A watcher is told of changes of a text, and may answer with edits of its own.
///
/// It is seen as its mind: its kind, whether it was loaded, its numbers, how often it was called, and a place. What it
/// answers, and its mind from then on, follow from its mind, the event and the text that is there then. The text comes
/// as two slices, `left` and `right`, and counts as their joining: where it is cut means nothing. It has at most
/// `Limits::TEXT` units, and no place and no number of units of an event is above that. No call takes memory.
pub trait Watcher: Drop {
    /// What it keeps.
    ghost mind: { Self → Mind };

    /// The number of its kind.
    fn kind(&self) -> u32
        ensures { result ≡ (mind self.now).kind };

    /// Loads a blank watcher with numbers that fit its kind. `false`, with nothing changed, exactly where it was loaded
    /// before, or the numbers don't fit.
    fn load(&mut self, numbers: &[u32]) -> bool
        ensures loaded { result ≡ true → loaded_mind (mind self.old) numbers.now ≡ Some (mind self.new) }
        ensures refused { result ≡ false → loaded_mind (mind self.old) numbers.now ≡ None }
        ensures unchanged { result ≡ false → mind self.new ≡ mind self.old };

    /// Tells that a replacement will be done, on the text before it.
    fn before(&mut self, e: &TextEvent, left: &[u16], right: &[u16])
        requires text { length (left.now ++ right.now) ≤ TEXT }
        requires event { IsTold e.now }
        ensures { mind self.new ≡ mind_before (mind self.old) e.now (left.now ++ right.now) };

    /// Tells that a replacement was done, on the text as it is then.
    fn changed(&mut self, e: &TextEvent, left: &[u16], right: &[u16])
        requires text { length (left.now ++ right.now) ≤ TEXT }
        requires event { IsTold e.now }
        ensures { mind self.new ≡ mind_changed (mind self.old) e.now (left.now ++ right.now) };

    /// Tells, once all were told that it was done, of a replacement, and asks for edits.
    fn after(&mut self, e: &TextEvent, left: &[u16], right: &[u16]) -> Answer
        requires text { length (left.now ++ right.now) ≤ TEXT }
        requires event { IsTold e.now }
        ensures mind { mind self.new ≡ mind_after (mind self.old) e.now (left.now ++ right.now) }
        ensures answer { result.items ≡ answer_after (mind self.old) e.now (left.now ++ right.now) };

    /// Tells that a span came, moved or went, and asks for edits.
    fn span(&mut self, e: &SpanEvent, left: &[u16], right: &[u16]) -> Answer
        requires text { length (left.now ++ right.now) ≤ TEXT }
        requires event { IsToldSpan e.now }
        ensures mind { mind self.new ≡ mind_span (mind self.old) e.now (left.now ++ right.now) }
        ensures answer { result.items ≡ answer_span (mind self.old) e.now (left.now ++ right.now) };
}
