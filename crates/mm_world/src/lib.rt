//! The definitions of unpaged worlds, checked against worked rows, and laws over them.
//!
//! The definitions stand in `specs/`. Each function here has no body: its clause is a worked row
//! that the definitions give by computing alone, or a law that is proved over them.
#![tactic(auto)]

pub mod beside_rows;
pub mod laws;
pub mod paging_rows;
pub mod private_rows;
pub mod refusal_rows;
pub mod run_rows;
pub mod section_rows;
