//! `paint`: gives what comes a face.

ghost use Rattle.std.specs.Prelude.{[], ◌∷◌};

use crate::answers::set_span;
use crate::kinds::Kind;
use crate::numbers::id_and_face;
use crate::text::Text;
use crate::watching::Watching;
use edit_base::What;
use edit_model::{SpanEvent, TextEvent};
use watcher_api::Answer;

// The flags word of the span: its start moves with what is typed there, and its end stays.
const POINT_MARK: u32 = 0x21;

// The id of the span, and its face.
#[derive(Drop)]
pub struct PaintKind {
    id: u32,
    face: u8,
}

/// A watcher that puts a span of a face over the units that came.
pub type Paint = Watching<PaintKind>;

impl Kind for PaintKind {
    ghost NUMBER = { 5 };

    ghost list = { λ it. it.id ∷ it.face ∷ [] };

    const NUMBER: u32 = 5;

    fn read(numbers: &[u32]) -> Option<Self> {
        let (id, face) = id_and_face(numbers)?;
        Some(PaintKind { id, face })
    }

    fn after(&self, _place: &mut Option<u32>, e: &TextEvent, text: &Text) -> Answer {
        if e.after > 0 && e.start < text.len() {
            let end = (e.start + e.after).min(text.len());
            return set_span(self.id, e.start, end, POINT_MARK, What::Face(self.face));
        }
        Answer::new()
    }

    fn span(&self, _e: &SpanEvent) -> Answer {
        Answer::new()
    }
}
