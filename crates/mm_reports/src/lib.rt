//! What a log says of page frames, of faults, and of one frame or page: the counts after each line,
//! all that stands after one line, the faults by process and page, the history of a frame or a page.
#![tactic(auto)]

mod charges;
mod counters;
mod counts;
mod csv_rows;
mod fault_tables;
mod faults;
mod frames;
mod heads;
mod histories;
mod history_rows;
mod kinds;
mod laws;
mod lists;
mod runs;
mod splits;
mod states;
mod styles;
mod subjects;
mod tables;
mod uses;

pub use charges::Charge;
pub use counts::{CountsTeller, UseTeller};
pub use faults::FaultTeller;
pub use histories::HistoryTeller;
pub use laws::{faults_sum_to_classes, uses_add_up};
pub use splits::{after_byte, before};
pub use states::StateTeller;
pub use styles::Style;
pub use subjects::Subject;
pub use uses::{Column, Use};
