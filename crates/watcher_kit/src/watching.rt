//! A watcher of any kind.

ghost use Rattle.std.specs.Prelude.{◌≡◌};
ghost use Rattle.edit_model.specs.Minds.{blank_mind, called};
ghost use Rattle.watcher_kit.specs.Watching.{mind_of};

use crate::kinds::Kind;
use crate::text::Text;
use edit_model::{SpanEvent, TextEvent};
use watcher_api::{Answer, Watcher};

// What a loaded watcher keeps.
#[derive(Drop)]
pub struct Kept<K: Kind> {
    numbers: K,
    calls: u32,
    place: Option<u32>,
}

/// A watcher of a kind. A blank one keeps nothing.
#[derive(Drop)]
pub struct Watching<K: Kind> {
    kept: Option<Kept<K>>,
}

impl<K: Kind> Watching<K> {
    /// A blank watcher.
    pub fn blank() -> Self
        ensures { ⟦<Watching<K> as Watcher>⟧.mind result ≡ blank_mind K.NUMBER }
    {
        Watching { kept: None }
    }

    // One call more, where it is loaded.
    fn count_call(&mut self)
        ensures { mind_of K.NUMBER K.list self.new.kept ≡ called (mind_of K.NUMBER K.list self.old.kept) }
    {
        if let Some(kept) = &mut self.kept {
            kept.calls = kept.calls.saturating_add(1);
        }
    }
}

impl<K: Kind> Watcher for Watching<K> {
    ghost mind = { λ w. mind_of K.NUMBER K.list w.kept };

    fn kind(&self) -> u32 {
        K::NUMBER
    }

    #[tactic(auto, unfolding(edit_model::specs::Minds::loaded_mind))]
    fn load(&mut self, numbers: &[u32]) -> bool {
        if self.kept.is_some() {
            return false;
        }
        match K::read(numbers) {
            None => false,
            Some(numbers) => {
                self.kept = Some(Kept {
                    numbers,
                    calls: 0,
                    place: None,
                });
                true
            }
        }
    }

    #[tactic(auto, unfolding(edit_model::specs::Minds::mind_before))]
    fn before(&mut self, _e: &TextEvent, _left: &[u16], _right: &[u16]) {
        self.count_call();
    }

    #[tactic(auto, unfolding(edit_model::specs::Minds::mind_changed))]
    fn changed(&mut self, _e: &TextEvent, _left: &[u16], _right: &[u16]) {
        self.count_call();
    }

    #[tactic(auto, unfolding(edit_model::specs::Minds::mind_after, edit_model::specs::Minds::answer_after))]
    fn after(&mut self, e: &TextEvent, left: &[u16], right: &[u16]) -> Answer {
        self.count_call();
        match &mut self.kept {
            None => Answer::new(),
            Some(kept) => kept
                .numbers
                .after(&mut kept.place, e, &Text { left, right }),
        }
    }

    #[tactic(auto, unfolding(edit_model::specs::Minds::mind_span, edit_model::specs::Minds::answer_span))]
    fn span(&mut self, e: &SpanEvent, _left: &[u16], _right: &[u16]) -> Answer {
        self.count_call();
        match &self.kept {
            None => Answer::new(),
            Some(kept) => kept.numbers.span(e),
        }
    }
}
