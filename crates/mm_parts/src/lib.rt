//! The joined state's middle layer: page frames, words, slots and requests, which name one another,
//! and one call for each move.
//!
//! Its parts show a state of the replay (`mm_move_rules`); each call has the move's condition and the
//! move's effect there.
#![tactic(auto)]

mod backings;
mod homes;
mod laws;
mod line_moves;
mod lists;
mod looks;
mod page_moves;
mod pages;
mod parts;
mod request_moves;
mod requests;

pub use laws::waits_end_as_walks_have_it;
pub use parts::Parts;
