//! Laws over the replays of logs.
//!
//! What the laws say stands in `specs/`. Each function here has no body: its clauses are laws that
//! are proved over the definitions of `mm_move_rules`, or worked logs that the definitions compute.
#![tactic(auto)]

pub mod bursts;
pub mod ends;
pub mod laws;
pub mod numbers;
