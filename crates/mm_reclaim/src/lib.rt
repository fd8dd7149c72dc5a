//! Reclaim over the joined state: a page frame is found, working sets are trimmed, frames are
//! cleared, and write-outs begin.
#![tactic(auto)]

mod choosing;
mod chores;
mod searching;
mod seeking;

pub use choosing::victim;
pub use chores::{trim, write_out, zero};
pub use searching::{NoFrame, find_frame, is_starved};
pub use seeking::try_frame;
