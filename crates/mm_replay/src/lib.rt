//! Logs of moves read again: the move of a line, and the replay of a log as a running check.
#![tactic(auto)]

mod conditions;
mod four_lists;
mod free_slots;
mod grids;
mod holdings;
mod in_flight;
mod listings;
mod lives;
mod looks;
mod pairs;
mod readings;
mod records;
mod states;
mod tables;
mod values;

pub use four_lists::FrameList;
pub use lives::{ApplyFault, Life};
pub use readings::{lines_determine_moves, read_key, read_move};
