//! A log as a transcript: each line with its answer, and below it what it did, move by move, in
//! words. Behind a line stand Windows' names of its numbers (`remarks`), behind a page that was
//! taken why (`ages`, `reasons`).
#![tactic(auto)]

mod ages;
mod ends;
mod failures;
mod folds;
mod name_laws;
mod numbers;
mod reasons;
mod remarks;
mod rows;
mod stamps;
mod transcripts;
mod worked;
mod writers;

pub use ages::Ages;
pub use name_laws::{failures_have_names, names_are_read_again};
pub use reasons::{Reason, put_age, put_process};
pub use transcripts::{TranscriptTeller, follow_ages, reason_then};
pub use worked::{rewritten_page_is_told, smallest_set_is_told};
