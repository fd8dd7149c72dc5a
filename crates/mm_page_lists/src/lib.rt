//! Doubly linked lists over the numbers below a bound, in vectors made once.
//!
//! The frame database keeps its page frames on such lists: zeroed, free, standby, modified. No
//! number stands on two lists, and none twice on one. Each call takes constant time, and none but
//! `new` takes memory.
#![tactic(auto)]

mod lists;

pub use lists::Lists;
