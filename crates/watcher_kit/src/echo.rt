//! `echo`: says again what is said.

ghost use Rattle.std.specs.Prelude.{[]};

use crate::answers::insert;
use crate::kinds::Kind;
use crate::numbers::no_numbers;
use crate::text::Text;
use crate::watching::Watching;
use edit_model::{SpanEvent, TextEvent};
use watcher_api::Answer;

// It takes no numbers.
#[derive(Drop)]
pub struct EchoKind;

/// A watcher that puts the first unit of an insertion once more before it.
pub type Echo = Watching<EchoKind>;

impl Kind for EchoKind {
    ghost NUMBER = { 7 };

    ghost list = { λ _. [] };

    const NUMBER: u32 = 7;

    fn read(numbers: &[u32]) -> Option<Self> {
        no_numbers(numbers, EchoKind)
    }

    fn after(&self, _place: &mut Option<u32>, e: &TextEvent, text: &Text) -> Answer {
        if e.before == 0 && e.after > 0 && e.start < text.len() {
            return insert(e.start, text.unit(e.start));
        }
        Answer::new()
    }

    fn span(&self, _e: &SpanEvent) -> Answer {
        Answer::new()
    }
}
