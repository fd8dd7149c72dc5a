//! The free slots of a paging file: the lowest is taken first, and the file may grow.
#![tactic(auto)]

mod slots;

pub use slots::Slots;
