//! The joined state: the parts of a machine over two devices and a sink of moves. Each call of a
//! move makes it, notes it and keeps the bytes of every key.
#![tactic(auto)]

mod calls;
mod devices;
mod on_parts;
mod states;
mod tallies;

pub use states::State;
