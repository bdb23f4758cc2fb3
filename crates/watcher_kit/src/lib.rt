//! The kinds of watchers.
#![tactic(auto)]

mod answers;
mod echo;
mod follow;
mod kinds;
mod limit;
mod note;
mod numbers;
mod paint;
mod pair;
mod rows;
mod squeeze;
mod swap;
mod text;
mod watching;

pub use echo::Echo;
pub use follow::Follow;
pub use limit::Limit;
pub use note::Note;
pub use paint::Paint;
pub use pair::Pair;
pub use rows::types_are_of_their_kinds;
pub use squeeze::Squeeze;
pub use swap::Swap;
