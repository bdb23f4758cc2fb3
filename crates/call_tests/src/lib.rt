//! Tests over public calls, of what no contract says and no run of the program shows: two watchers of one kind on a
//! shelf, a follower that has no memory left, the verdict that an item is answered, and the table of operations against
//! one that was written by hand. What they need beside the calls is the library: a follower that counts.
#![tactic(auto)]

#[cfg(test)]
mod operations;
#[cfg(test)]
mod rounds;
#[cfg(test)]
mod shelves;
mod tally;

pub use tally::Tally;
