//! What lines do to the life of page frames, by the worlds and reports before and after them:
//! definitions, and worked lines.
#![tactic(auto)]

mod laws;
mod worked;

pub use laws::lines_have_one_log;
pub use worked::{
    copied_page_soiled, failed_read_is_last, failed_read_resumed, frame_at_hand, full_set,
    moves_due, page_flushed, page_written_out, pages_given_up, pages_made, same_page_again,
    sections_given_up, shared_page_mapped_again, soft_fault, write_left_unsoiled,
};
