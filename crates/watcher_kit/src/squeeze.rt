//! `squeeze`: leaves one space of many.

ghost use Rattle.std.specs.Prelude.{◌≡◌, ◌<◌, [], length, IfSome};
ghost use Rattle.edit_model.specs.Minds.{first_place, has_spaces};
ghost use Rattle.watcher_kit.specs.Texts.{joined};

use crate::answers::delete;
use crate::kinds::Kind;
use crate::numbers::no_numbers;
use crate::text::Text;
use crate::watching::Watching;
use edit_model::{SpanEvent, TextEvent};
use watcher_api::Answer;

const SPACE: u16 = 0x20;

// It takes no numbers.
#[derive(Drop)]
pub struct SqueezeKind;

/// A watcher that takes away the second of two spaces.
pub type Squeeze = Watching<SqueezeKind>;

impl Kind for SqueezeKind {
    ghost NUMBER = { 4 };

    ghost list = { λ _. [] };

    const NUMBER: u32 = 4;

    fn read(numbers: &[u32]) -> Option<Self> {
        no_numbers(numbers, SqueezeKind)
    }

    fn after(&self, _place: &mut Option<u32>, e: &TextEvent, text: &Text) -> Answer {
        match two_spaces(text, e.start.max(1) - 1, e.start + e.after) {
            Some(at) => delete(at + 1, at + 2),
            None => Answer::new(),
        }
    }

    fn span(&self, _e: &SpanEvent) -> Answer {
        Answer::new()
    }
}

// The first place from one on, before another, at which two spaces stand together.
fn two_spaces(text: &Text, from: u32, to: u32) -> Option<u32>
    ensures first { result ≡ first_place (has_spaces (joined text.now)) from to }
    ensures within { IfSome result (λ at. at < length (joined text.now)) }
{
    text.first(from, to, |at| {
        text.has(at, SPACE) && text.has(at + 1, SPACE)
    })
}
