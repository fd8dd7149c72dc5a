//! What a log of moves shows, as a page for a browser and as texts for the terminal.
#![tactic(auto)]

mod data;
mod forms;
mod keys;
mod observed;
mod pages;
mod rows;
mod sums;
mod top;
mod words;

pub use forms::{Files, Form};
pub use pages::PageTexts;
pub use rows::rows_are_read_again;
pub use top::{first_file, run_show};
