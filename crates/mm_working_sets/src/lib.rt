//! Working sets: which pages of a process are valid, at which place, and how long ago each was
//! used.
#![tactic(auto)]

mod groups;
mod page_sets;
mod sets;

pub use sets::WorkingSet;
