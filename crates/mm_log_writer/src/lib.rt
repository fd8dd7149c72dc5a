//! Moves of page frames as a log has them: their spelling, and a recorder that writes them to a
//! sink.
#![tactic(auto)]

mod at_lines;
mod recorders;
mod spellings;

pub use recorders::{Moves, Recorder};
pub use spellings::spell;
