//! `limit`: keeps the text to a length.

ghost use Rattle.std.specs.Prelude.{◌≤◌, [], ◌∷◌};
ghost use Rattle.edit_base.specs.declared.bounds.TheConstants.Limits.{TEXT};

use crate::answers::delete;
use crate::kinds::Kind;
use crate::numbers::one_length;
use crate::text::Text;
use crate::watching::Watching;
use edit_model::{SpanEvent, TextEvent};
use watcher_api::Answer;

// The length.
#[derive(Drop)]
pub struct LimitKind {
    greatest: u32,
    ghost within: { greatest ≤ TEXT },
}

/// A watcher that takes away what stands behind a length.
pub type Limit = Watching<LimitKind>;

impl Kind for LimitKind {
    ghost NUMBER = { 3 };

    ghost list = { λ it. it.greatest ∷ [] };

    const NUMBER: u32 = 3;

    fn read(numbers: &[u32]) -> Option<Self> {
        let greatest = one_length(numbers)?;
        Some(LimitKind { greatest })
    }

    fn after(&self, _place: &mut Option<u32>, _e: &TextEvent, text: &Text) -> Answer {
        if text.len() > self.greatest {
            return delete(self.greatest, text.len());
        }
        Answer::new()
    }

    fn span(&self, _e: &SpanEvent) -> Answer {
        Answer::new()
    }
}
