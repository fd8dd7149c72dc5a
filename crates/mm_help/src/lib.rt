//! What a program tells of itself: its help, its version, and what is wrong with words that are no
//! form of it. `clap` finds the fault and writes the texts.
#![tactic(auto)]

mod telling;

pub use telling::{asks, described, tell};
