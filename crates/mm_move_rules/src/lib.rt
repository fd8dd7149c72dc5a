//! The life of the page frames: what a log of moves may say, what each move does, and the moves of
//! one line, one after another: which page goes first, which frame is written, what housekeeping
//! does.
//!
//! The definitions stand in `specs/`. What stands here are worked logs, replayed by computing the
//! definitions, and laws over them: functions that do nothing and say something.
#![tactic(auto)]

mod sets;
mod worked;

pub use sets::ResidentSet;
pub use worked::{
    any_bytes_fit_at_rest, bytes_stand_in_frames, nothing_but_line_one, other_frame_is_illegal,
    replay_computes_where_moves_lead, rewritten_page_replays, smallest_set_replays,
};
