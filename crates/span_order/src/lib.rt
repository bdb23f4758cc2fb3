//! A list of slots in blocks, so that a change moves few of them, with the greatest ends of each block.
#![tactic(auto)]

mod block;
mod hits;
mod order;
mod places;
mod placing;
mod pull;
mod raise;
mod run;
mod search;
mod topped;
mod tops;
mod walk;
mod window;

pub use order::Order;
pub use places::{Changed, Place};
pub use topped::ToppedOrder;
pub use tops::Top;
