//! `pair`: closes what is opened.

ghost use Rattle.std.specs.Prelude.{◌≡◌, [], ◌∷◌};
ghost use Rattle.edit_model.specs.Minds.{IsTold, is_typed, opens, types_over};
ghost use Rattle.watcher_kit.specs.Texts.{joined};

use crate::answers::{delete, insert};
use crate::kinds::Kind;
use crate::numbers::two_units;
use crate::text::Text;
use crate::watching::Watching;
use edit_model::{SpanEvent, TextEvent};
use watcher_api::Answer;

// Its two units.
#[derive(Drop)]
pub struct PairKind {
    opener: u16,
    closer: u16,
}

/// A watcher that puts a closer behind an opener that is typed, and takes a closer away that is typed over.
pub type Pair = Watching<PairKind>;

impl Kind for PairKind {
    ghost NUMBER = { 1 };

    ghost list = { λ it. it.opener ∷ it.closer ∷ [] };

    const NUMBER: u32 = 1;

    fn read(numbers: &[u32]) -> Option<Self> {
        let (opener, closer) = two_units(numbers)?;
        Some(PairKind { opener, closer })
    }

    fn after(&self, place: &mut Option<u32>, e: &TextEvent, text: &Text) -> Answer {
        if self.opens(e, text) {
            *place = Some(e.start + 1);
            return insert(e.start + 1, self.closer);
        }
        if self.types_over(*place, e, text) {
            *place = None;
            return delete(e.start + 1, e.start + 2);
        }
        if e.depth == 0 {
            *place = None;
        }
        Answer::new()
    }

    fn span(&self, _e: &SpanEvent) -> Answer {
        Answer::new()
    }
}

impl PairKind {
    // Whether the opener was typed.
    fn opens(&self, e: &TextEvent, text: &Text) -> bool
        ensures { result ≡ opens self.now.opener e.now (joined text.now) }
    {
        is_typed(e) && text.has(e.start, self.opener)
    }

    // Whether a command typed the closer at the kept place, and a closer stands behind it.
    fn types_over(&self, place: Option<u32>, e: &TextEvent, text: &Text) -> bool
        requires { IsTold e.now }
        ensures { result ≡ types_over self.now.closer place e.now (joined text.now) }
    {
        let is_typed_there = e.depth == 0 && is_typed(e) && place == Some(e.start);
        is_typed_there && text.has(e.start, self.closer) && text.has(e.start + 1, self.closer)
    }
}

// Whether one unit came and none went.
fn is_typed(e: &TextEvent) -> bool
    ensures { result ≡ is_typed e.now }
{
    e.before == 0 && e.after == 1
}
