//! Events: a row of csv for each move of a log, which says what happened in the words of its class.
#![tactic(auto)]

mod columns;
mod rows;
mod tellers;
mod words;

pub use tellers::EventTeller;
