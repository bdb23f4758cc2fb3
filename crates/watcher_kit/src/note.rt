//! `note`: is told, and answers nothing.

ghost use Rattle.std.specs.Prelude.{[]};

use crate::kinds::Kind;
use crate::numbers::no_numbers;
use crate::text::Text;
use crate::watching::Watching;
use edit_model::{SpanEvent, TextEvent};
use watcher_api::Answer;

// It takes no numbers.
#[derive(Drop)]
pub struct NoteKind;

/// A watcher that answers nothing.
pub type Note = Watching<NoteKind>;

impl Kind for NoteKind {
    ghost NUMBER = { 0 };

    ghost list = { λ _. [] };

    const NUMBER: u32 = 0;

    fn read(numbers: &[u32]) -> Option<Self> {
        no_numbers(numbers, NoteKind)
    }

    fn after(&self, _place: &mut Option<u32>, _e: &TextEvent, _text: &Text) -> Answer {
        Answer::new()
    }

    fn span(&self, _e: &SpanEvent) -> Answer {
        Answer::new()
    }
}
