//! Rows of bits in words of 64, and sets of numbers made of them.
#![tactic(auto)]

mod bits;
mod sets;

pub use bits::{extend, next_bit, put_bit, put_bits, reach};
pub use sets::BitSet;
