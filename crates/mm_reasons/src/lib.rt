//! Why a written line means nothing, in words, and the run that translates a written file.
#![tactic(auto)]

mod explainers;
mod forms;
mod lines;
mod nearest;
mod numbers;
mod reasons;
mod talks;
mod texts;
mod top;
mod usages;
mod warnings;

pub use forms::Form;
pub use top::run_names;
