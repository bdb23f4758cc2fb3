//! The shelf of watchers, seen as their minds.

ghost use Rattle.std.specs.Prelude.{◌≡◌, ◌≤◌, ◌<◌, ◌++◌, List, length, slice_set, slice_index_or};
ghost use Rattle.edit_base.specs.declared.bounds.TheConstants.Limits.{TEXT};
ghost use Rattle.edit_model.specs.Minds.{Mind, blank_mind, mind_before, mind_changed, mind_after, answer_after, mind_span, answer_span, IsTold, IsToldSpan};

use edit_model::{SpanEvent, TextEvent};
use watcher_api::{Answer, Watcher};

/// Watchers at places. The call for one of them changes its mind alone.
pub trait Shelf {
    ghost minds: { Self → List Mind };

    fn before(&mut self, at: usize, e: &TextEvent, left: &[u16], right: &[u16])
        requires place { at < length (minds self.old) }
        requires text { length (left.now ++ right.now) ≤ TEXT }
        requires event { IsTold e.now }
        ensures { minds self.new ≡ slice_set (minds self.old) at
            (mind_before (slice_index_or (minds self.old) at (blank_mind 0)) e.now (left.now ++ right.now)) };

    fn changed(&mut self, at: usize, e: &TextEvent, left: &[u16], right: &[u16])
        requires place { at < length (minds self.old) }
        requires text { length (left.now ++ right.now) ≤ TEXT }
        requires event { IsTold e.now }
        ensures { minds self.new ≡ slice_set (minds self.old) at
            (mind_changed (slice_index_or (minds self.old) at (blank_mind 0)) e.now (left.now ++ right.now)) };

    fn after(&mut self, at: usize, e: &TextEvent, left: &[u16], right: &[u16]) -> Answer
        requires place { at < length (minds self.old) }
        requires text { length (left.now ++ right.now) ≤ TEXT }
        requires event { IsTold e.now }
        ensures minds { minds self.new ≡ slice_set (minds self.old) at
            (mind_after (slice_index_or (minds self.old) at (blank_mind 0)) e.now (left.now ++ right.now)) }
        ensures answer { result.items
            ≡ answer_after (slice_index_or (minds self.old) at (blank_mind 0)) e.now (left.now ++ right.now) };

    fn span(&mut self, at: usize, e: &SpanEvent, left: &[u16], right: &[u16]) -> Answer
        requires place { at < length (minds self.old) }
        requires text { length (left.now ++ right.now) ≤ TEXT }
        requires event { IsToldSpan e.now }
        ensures minds { minds self.new ≡ slice_set (minds self.old) at
            (mind_span (slice_index_or (minds self.old) at (blank_mind 0)) e.now (left.now ++ right.now)) }
        ensures answer { result.items
            ≡ answer_span (slice_index_or (minds self.old) at (blank_mind 0)) e.now (left.now ++ right.now) };
}

impl Shelf for Vec<Box<dyn Watcher>> {
    ghost use Rattle.std.specs.Prelude.{map};

    ghost minds = { λ shelf. map (λ b. (Watcher-box b).mind b.value) shelf.items };

    fn before(&mut self, at: usize, e: &TextEvent, left: &[u16], right: &[u16]) {
        tell_before(&mut self[at], e, left, right);
    }

    fn changed(&mut self, at: usize, e: &TextEvent, left: &[u16], right: &[u16]) {
        tell_changed(&mut self[at], e, left, right);
    }

    fn after(&mut self, at: usize, e: &TextEvent, left: &[u16], right: &[u16]) -> Answer {
        tell_after(&mut self[at], e, left, right)
    }

    fn span(&mut self, at: usize, e: &SpanEvent, left: &[u16], right: &[u16]) -> Answer {
        tell_span(&mut self[at], e, left, right)
    }
}

// Tells one watcher that a replacement will be done.
fn tell_before(watcher: &mut Box<dyn Watcher>, e: &TextEvent, left: &[u16], right: &[u16])
    requires text { length (left.now ++ right.now) ≤ TEXT }
    requires event { IsTold e.now }
    ensures { mind watcher.new ≡ mind_before (mind watcher.old) e.now (left.now ++ right.now) }
{
    watcher.before(e, left, right);
}

// Tells one watcher that a replacement was done.
fn tell_changed(watcher: &mut Box<dyn Watcher>, e: &TextEvent, left: &[u16], right: &[u16])
    requires text { length (left.now ++ right.now) ≤ TEXT }
    requires event { IsTold e.now }
    ensures { mind watcher.new ≡ mind_changed (mind watcher.old) e.now (left.now ++ right.now) }
{
    watcher.changed(e, left, right);
}

// Tells one watcher of a replacement that all were told of, and takes its answer.
fn tell_after(watcher: &mut Box<dyn Watcher>, e: &TextEvent, left: &[u16], right: &[u16]) -> Answer
    requires text { length (left.now ++ right.now) ≤ TEXT }
    requires event { IsTold e.now }
    ensures mind { mind watcher.new ≡ mind_after (mind watcher.old) e.now (left.now ++ right.now) }
    ensures answer { result.items ≡ answer_after (mind watcher.old) e.now (left.now ++ right.now) }
{
    watcher.after(e, left, right)
}

// Tells one watcher of a span that came, moved or went, and takes its answer.
fn tell_span(watcher: &mut Box<dyn Watcher>, e: &SpanEvent, left: &[u16], right: &[u16]) -> Answer
    requires text { length (left.now ++ right.now) ≤ TEXT }
    requires event { IsToldSpan e.now }
    ensures mind { mind watcher.new ≡ mind_span (mind watcher.old) e.now (left.now ++ right.now) }
    ensures answer { result.items ≡ answer_span (mind watcher.old) e.now (left.now ++ right.now) }
{
    watcher.span(e, left, right)
}
