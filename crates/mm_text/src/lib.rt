//! The text of scripts and answers: a line's words, the fields that a word can be, a buffer of one
//! line with the calls that write fields into it, and the answer to a line. Nothing of these takes
//! memory. And words and numbers in the columns of a table.
#![tactic(auto)]

mod columns;
mod fields;
mod line_bufs;
mod puts;
mod spans;
mod spells;

pub use columns::{put_left, put_numbers, put_right, put_right_number};
pub use fields::{bytes, name, number};
pub use line_bufs::LineBuf;
pub use puts::{fill_pairs, put_bytes, put_decimal, put_hex_short, put_hex8};
pub use spans::{Numbered, Span, Words};
pub use spells::{LONGEST, spell};
