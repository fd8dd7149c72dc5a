//! Scripts as people write them: what a written line means, and the plain script that a written
//! file stands for.
#![tactic(auto)]

mod endings;
mod meanings;
mod names;
mod numbers;
mod plains;
mod scripts;
mod sources;
mod texts;
mod tidy;
mod words;

pub use endings::Ending;
pub use meanings::{Meaning, meant};
pub use names::{Given, Names, windows_value};
pub use numbers::value_of;
pub use plains::plain_of;
pub use scripts::{Script, may_stand, plain_files_stay, scripts_begin, translated, without_mark};
pub use sources::read_all;
pub use tidy::{Last, Tidy, tidied};
pub use words::{Kind, Verb, keyword_for, kind_at, lowered, next_number, verb_after, verb_of};
