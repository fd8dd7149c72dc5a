//! The calls of a machine's joined state, as the store of pages above it needs them.
#![tactic(auto)]

mod state_calls;

pub use state_calls::StateCalls;
