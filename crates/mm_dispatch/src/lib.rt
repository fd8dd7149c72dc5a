//! A world over any store of pages: one line after another.
//!
//! The calls go by tables without bytes, and the bytes stand in the store. What the two are
//! together is a world of the definitions; each line makes of it what the definitions say, whatever
//! the store.
#![tactic(auto)]

mod access_lines;
mod beginning;
mod built;
mod calling;
mod deciding;
mod fetching;
mod flushing;
mod forgetting;
mod paging_lines;
mod refusals;
mod thread_lines;
mod threads;
mod worlds;

pub use built::is_machine;
pub use worlds::World;
