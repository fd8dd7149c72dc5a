//! Device requests in flight, oldest first, and the read that each thread waits for.
#![tactic(auto)]

mod flights;

pub use flights::{Flight, Waiting};
