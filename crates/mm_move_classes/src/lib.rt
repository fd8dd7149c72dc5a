//! The classes of moves: what each move of a log is in the words of Windows, and how a log with
//! its classes is written for a page that shows it.
#![tactic(auto)]

mod classes;
mod classing;
mod encoding;
mod laws;
mod looks;
mod marks;
mod words;
mod worked;

pub use classes::{Class, Group};
pub use classing::class_of;
pub use encoding::{counts_in, kind_code, put_mark, put_move, put_number};
pub use laws::{
    classes_sum_to_counts, classes_tell_the_state, codes_tell_classes, data_is_plain,
    data_tells_all, moves_have_classes_of_their_word,
};
pub use looks::{
    has_request, is_access, is_again, is_call, is_read, is_thread, is_touch, is_unbind, is_write,
    is_writer, touches, trims,
};
pub use marks::Marks;
pub use words::{code, group, sentence};
pub use worked::{rewritten_page_is_classed, smallest_set_is_classed};
