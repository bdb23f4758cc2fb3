//! What tells one kind of watcher from another.

ghost use Rattle.std.specs.Prelude.{ℕ, ◌≡◌, List, Option, is_some, IfSome};
ghost use Rattle.edit_model.specs.Minds.{IsTold, IsToldSpan, rules_of};
ghost use Rattle.watcher_kit.specs.Texts.{joined};
ghost use Rattle.watcher_kit.specs.Watching.{mind_with};

use crate::text::Text;
use edit_model::{SpanEvent, TextEvent};
use watcher_api::Answer;

// A kind of watcher, as the numbers that one is loaded with.
pub trait Kind: Drop {
    ghost NUMBER: { ℕ };

    // The numbers as a list.
    ghost list: { Self → List ℕ };

    // The number of the kind.
    const NUMBER: u32;

    // The numbers, where they fit the kind.
    fn read(numbers: &[u32]) -> Option<Self>
        ensures fits { is_some result ≡ (rules_of NUMBER).fits numbers.now }
        ensures same { IfSome result (λ it. list it ≡ numbers.now) };

    // What it answers behind a change of the text, and the place that it keeps then.
    fn after(&self, place: &mut Option<u32>, e: &TextEvent, text: &Text) -> Answer
        requires event { IsTold e.now }
        ensures { (calls : ℕ)
            → (rules_of NUMBER).after (mind_with NUMBER (list self.now) calls place.old) e.now (joined text.now)
            ≡ record { edits = result.items; keeps = place.new } };

    // What it answers where a span came, moved or went, whatever its place and the text.
    fn span(&self, e: &SpanEvent) -> Answer
        requires event { IsToldSpan e.now }
        ensures { (calls : ℕ) (place : Option ℕ) (units : List ℕ)
            → (rules_of NUMBER).span (mind_with NUMBER (list self.now) calls place) e.now units ≡ result.items };
}
