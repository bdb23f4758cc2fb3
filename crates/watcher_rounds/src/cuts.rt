//! What watchers answer depends on the joined text alone: each law is the contract of a function that shows one text to
//! two watchers, cut at any two places.

ghost use Rattle.std.specs.Prelude.{◌≡◌};
ghost use Rattle.edit_model.specs.Minds.{IsTold, IsToldSpan, mind_before, mind_changed, mind_after, answer_after, mind_span, answer_span};
ghost use Rattle.text_cut.specs.Halves.{joined};

use edit_model::{SpanEvent, TextEvent};
use text_cut::Halves;
use watcher_api::{Answer, Watcher};

/// Two watchers of one mind that are told that a replacement will be done end in one mind.
pub fn before_by_any_cut<W: Watcher>(
    one: &mut W,
    other: &mut W,
    e: &TextEvent,
    text: &Halves<'_>,
    again: &Halves<'_>,
)
    requires mind { W.mind one.old ≡ W.mind other.old }
    requires text { joined text.now ≡ joined again.now }
    requires event { IsTold e.now }
    ensures mind { W.mind one.new ≡ W.mind other.new }
    ensures told { W.mind one.new ≡ mind_before (W.mind one.old) e.now (joined text.now) }
{
    one.before(e, text.left, text.right);
    other.before(e, again.left, again.right);
}

/// Two watchers of one mind that are told that a replacement was done end in one mind.
pub fn changed_by_any_cut<W: Watcher>(
    one: &mut W,
    other: &mut W,
    e: &TextEvent,
    text: &Halves<'_>,
    again: &Halves<'_>,
)
    requires mind { W.mind one.old ≡ W.mind other.old }
    requires text { joined text.now ≡ joined again.now }
    requires event { IsTold e.now }
    ensures mind { W.mind one.new ≡ W.mind other.new }
    ensures told { W.mind one.new ≡ mind_changed (W.mind one.old) e.now (joined text.now) }
{
    one.changed(e, text.left, text.right);
    other.changed(e, again.left, again.right);
}

/// Two watchers of one mind that are told of a replacement that all were told of answer alike and end in one mind.
pub fn after_by_any_cut<W: Watcher>(
    one: &mut W,
    other: &mut W,
    e: &TextEvent,
    text: &Halves<'_>,
    again: &Halves<'_>,
) -> (Answer, Answer)
    requires mind { W.mind one.old ≡ W.mind other.old }
    requires text { joined text.now ≡ joined again.now }
    requires event { IsTold e.now }
    ensures mind { W.mind one.new ≡ W.mind other.new }
    ensures answers { result.0.items ≡ result.1.items }
    ensures told { W.mind one.new ≡ mind_after (W.mind one.old) e.now (joined text.now) }
    ensures answer { result.0.items ≡ answer_after (W.mind one.old) e.now (joined text.now) }
{
    let answer = one.after(e, text.left, text.right);
    (answer, other.after(e, again.left, again.right))
}

/// Two watchers of one mind that are told of a span answer alike and end in one mind.
pub fn span_by_any_cut<W: Watcher>(
    one: &mut W,
    other: &mut W,
    e: &SpanEvent,
    text: &Halves<'_>,
    again: &Halves<'_>,
) -> (Answer, Answer)
    requires mind { W.mind one.old ≡ W.mind other.old }
    requires text { joined text.now ≡ joined again.now }
    requires event { IsToldSpan e.now }
    ensures mind { W.mind one.new ≡ W.mind other.new }
    ensures answers { result.0.items ≡ result.1.items }
    ensures told { W.mind one.new ≡ mind_span (W.mind one.old) e.now (joined text.now) }
    ensures answer { result.0.items ≡ answer_span (W.mind one.old) e.now (joined text.now) }
{
    let answer = one.span(e, text.left, text.right);
    (answer, other.span(e, again.left, again.right))
}
