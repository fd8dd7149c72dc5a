//! The lines of a script, both ways: the event of a line or the place of its first fault, and the
//! shortest line of an event. Nothing here takes memory.
#![tactic(auto)]

mod faults;
mod fields;
mod keywords;
mod pieces;
mod printing;
mod reading;
mod values;

pub use faults::LineFault;
pub use printing::print_event;
pub use reading::{one_event, parse_into, parse_line, without_return};
pub use values::is_text;
