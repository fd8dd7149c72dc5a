//! The frame database: page frames, the lists that they stand on, what each holds, and their bytes.
//!
//! Each call has the effect that the life of the frames (`mm_move_rules`) gives to its move.
#![tactic(auto)]

mod frames;
mod placing;
mod records;
mod standing;
mod tokens;

pub use frames::{FrameCounts, Frames};
pub use standing::Standing;
pub use tokens::{Blank, Dirty, Ended, Stolen};
