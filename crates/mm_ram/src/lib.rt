//! The bytes of page frames.
//!
//! A frame that was never written has no bytes, and none can be read from it.
#![tactic(auto)]

mod cells;
mod contents;
mod ram;

// A crate can name `Ram` in a contract only if the types of its fields are exported.
#[doc(hidden)]
pub use cells::{Base, Cells, Deed};
#[doc(hidden)]
pub use contents::Contents;
pub use ram::Ram;
