//! A range of a text that becomes other units: the text as two halves, the boundaries of its paragraphs, where the
//! ends of spans go, and the spans that come.
#![tactic(auto)]

mod boundaries;
mod coming;
mod cut;
mod halves;

pub use boundaries::{boundary_behind, is_boundary, next_boundary};
pub use coming::{Coming, coming_with};
pub use cut::Cut;
pub use halves::Halves;
