//! The checker of logs: whether a log of moves replays, its counts, and where a page stands at its
//! end.
#![tactic(auto)]

mod checks;
mod endings;
mod fronts;
mod marks;
mod readers;
mod tallies;
mod texts;
mod top;

pub use endings::Ending;
pub use readers::{LogReader, MOST_LINES};
pub use top::{run_log, write_flushed, write_text};
