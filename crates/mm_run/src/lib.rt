//! The top call: a script in, answers out, from bytes to bytes.
#![tactic(auto)]

mod answers;
mod bulk;
mod decisions;
mod endings;
mod forms;
mod laws;
mod machines;
mod readings;
mod top;

pub use endings::Ending;
pub use laws::{
    lines_of_runs_have_one_log, scripts_have_one_log, stages_of_runs_stand,
    watches_give_written_pages,
};
pub use top::run;
