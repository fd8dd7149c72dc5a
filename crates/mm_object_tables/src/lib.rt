//! The tables of a machine: what the calls go by, over a store that keeps the bytes. Each change of
//! them is one call here, which changes tables and store together.
#![tactic(auto)]

mod endings;
mod kept_accesses;
mod keys;
mod looks;
mod private_pages;
mod processes;
mod sections;
mod tables;
mod thread_stacks;
mod views;
mod waiting;
mod watching;

pub use looks::{CommittedRow, HandleSection};
pub use private_pages::new_pages;
pub use tables::Tables;
pub use thread_stacks::ThreadStack;
pub use waiting::Kept;
