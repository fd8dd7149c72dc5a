//! What lines that change nothing answered of a run, the charge and the regions of its address
//! spaces: a file of such rows is checked against the run, and packed for the page.
#![tactic(auto)]

mod checking;
mod laws;
mod packing;
mod reading;
mod rows;
mod run_lines;
mod tables;

pub use laws::{packed_rows_are_plain, worked_rows_are_packed};
pub use run_lines::RunLines;
pub use tables::{PackFault, packed};
