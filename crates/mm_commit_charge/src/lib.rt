//! Commit charge: how many pages of private memory and of page-file sections the machine has
//! promised to keep, and the commit limit that the promise never passes (Windows Internals, "Commit
//! charge and the system commit limit").
#![tactic(auto)]

mod charges;

pub use charges::{Commit, OverLimit};
