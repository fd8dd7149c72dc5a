//! Laws on page frames that the simulator needs and a reader of logs does not: a frame can always
//! be found, which page goes first, what the steps of a search leave; and where the bytes of keys
//! stand, and what each move leaves of them.
//!
//! What the laws say stands in `specs/`. Each function here has no body: its clauses are laws that
//! are proved over the definitions of `mm_move_rules`, for each state that a log of moves reaches.
#![tactic(auto)]

mod bytes;
pub mod room;
pub mod searches;
pub mod steps;
pub mod victims;
pub mod worked;

pub use bytes::{
    frames_are_taken, keys_come_and_go, lines_keep_bytes, machines_hold_nothing, pages_are_written,
    places_keep_bytes, requests_keep_bytes,
};
