//! Events drawn from a number: the load that measures of speed and comparisons of two stores are
//! made on.
#![tactic(auto)]

mod events;
mod words;

pub use events::script;
