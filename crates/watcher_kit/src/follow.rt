//! `follow`: has one span stand where another stands.

ghost use Rattle.std.specs.Prelude.{[], ◌∷◌};

use crate::answers::{remove_span, set_span};
use crate::kinds::Kind;
use crate::numbers::two_ids;
use crate::text::Text;
use crate::watching::Watching;
use edit_base::What;
use edit_model::{SpanChange, SpanEvent, TextEvent};
use watcher_api::Answer;

// The flags word of the target: both its ends move with what is typed there.
const POINT_POINT: u32 = 0x22;

// The id of the span that is followed, and that of the target, which follows it.
#[derive(Drop)]
pub struct FollowKind {
    id: u32,
    target: u32,
}

/// A watcher that sets a target where a span comes or goes, and removes it with the span.
pub type Follow = Watching<FollowKind>;

impl Kind for FollowKind {
    ghost NUMBER = { 6 };

    ghost list = { λ it. it.id ∷ it.target ∷ [] };

    const NUMBER: u32 = 6;

    fn read(numbers: &[u32]) -> Option<Self> {
        let (id, target) = two_ids(numbers)?;
        Some(FollowKind { id, target })
    }

    fn after(&self, _place: &mut Option<u32>, _e: &TextEvent, _text: &Text) -> Answer {
        Answer::new()
    }

    fn span(&self, e: &SpanEvent) -> Answer {
        if e.id != self.id {
            return Answer::new();
        }
        match e.change {
            SpanChange::Added | SpanChange::Moved => {
                set_span(self.target, e.start, e.end, POINT_POINT, What::Tag(0))
            }
            SpanChange::Removed => remove_span(self.target),
        }
    }
}
