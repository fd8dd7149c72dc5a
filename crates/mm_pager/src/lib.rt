//! The store that pages: each call of `PageStore`, over the moves of a joined state.
#![tactic(auto)]

mod calls;
mod completing;
mod copying;
mod faults;
mod flushing;
mod making;
mod pager;
mod releasing;
mod starting;

pub use pager::Pager;
