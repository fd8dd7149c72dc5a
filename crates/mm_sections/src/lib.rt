//! Sections of files and of the paging file (section objects, in Windows Internals): their names
//! and lives, the handles of a process, and which pages of a control area are committed. No page's
//! bytes are here.
#![tactic(auto)]

mod directories;
mod entries;
mod handles;
mod name_keys;
mod section_pages;

pub use directories::{Directory, Section};
pub use handles::Handles;
pub use section_pages::SectionPages;
