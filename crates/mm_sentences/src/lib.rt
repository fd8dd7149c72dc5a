//! A move of page frames in words: what it does, the state of its frame before and after it, and
//! why a move that is not legal is none.
#![tactic(auto)]

mod facts;
mod laws;
mod parts;
mod reasons;
mod refusals;
mod sentences;
mod states;
mod words;

pub use facts::{Facts, facts_of, no_facts};
pub use laws::parts_make_the_condition;
pub use parts::Part;
pub use reasons::{put_refusal, put_why};
pub use refusals::refusal;
pub use sentences::put_sentence;
pub use states::{FrameState, put_frame_row, put_row, put_state, state_of};
pub use words::{
    put_counted, put_key, put_kind, put_number, put_numbered, put_pair, put_place, put_words,
};
