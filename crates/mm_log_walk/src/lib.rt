//! A log that is told move by move, with the script and the answers that stand beside it.
#![tactic(auto)]

mod answer_forms;
mod answers;
mod classifiers;
mod closings;
mod files;
mod fitting;
mod lines;
mod pouring;
mod replays;
mod seeking;
mod shown;
mod tellers;
mod words;

pub use answer_forms::answers_are_told_apart;
pub use answers::answered;
pub use classifiers::{Classed, Classifier, Pending};
pub use closings::Closing;
pub use files::{FileFault, named_bytes, named_lines};
pub use fitting::{is_bad_text, is_long_text};
pub use lines::Lines;
pub use seeking::Sought;
pub use shown::put_line;
pub use tellers::Teller;
