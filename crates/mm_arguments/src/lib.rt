//! The words of a program, as a list of forms: each a name, and values after it. `clap` reads them.
#![tactic(auto)]

mod forms;

pub use forms::{Form, Said, read_words};
