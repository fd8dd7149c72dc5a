//! Rows of fields by the rule of csv, and the head of a table, which stands once.
#![tactic(auto)]

mod fields;
mod laws;

pub use fields::{put_field, put_head_left, put_next};
pub use laws::rows_are_read_again;
