//! `swap`: has one unit stand for another.

ghost use Rattle.std.specs.Prelude.{[], ◌∷◌};

use crate::answers::exchange;
use crate::kinds::Kind;
use crate::numbers::two_units;
use crate::text::Text;
use crate::watching::Watching;
use edit_model::{SpanEvent, TextEvent};
use watcher_api::Answer;

// The unit that it looks for, and the one that it puts there.
#[derive(Drop)]
pub struct SwapKind {
    sought: u16,
    put: u16,
}

/// A watcher that puts one unit where the first of another came.
pub type Swap = Watching<SwapKind>;

impl Kind for SwapKind {
    ghost NUMBER = { 2 };

    ghost list = { λ it. it.sought ∷ it.put ∷ [] };

    const NUMBER: u32 = 2;

    fn read(numbers: &[u32]) -> Option<Self> {
        let (sought, put) = two_units(numbers)?;
        Some(SwapKind { sought, put })
    }

    fn after(&self, _place: &mut Option<u32>, e: &TextEvent, text: &Text) -> Answer {
        let came = text.first(
            e.start,
            e.start + e.after,
            |at| text.unit(at) == self.sought,
        );
        match came {
            Some(at) => exchange(at, self.put),
            None => Answer::new(),
        }
    }

    fn span(&self, _e: &SpanEvent) -> Answer {
        Answer::new()
    }
}
