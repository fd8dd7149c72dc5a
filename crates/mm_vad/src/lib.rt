//! Virtual address descriptors: the regions of an address space and the pages in them (the VAD tree
//! of Windows Internals), without any page's contents.
#![tactic(auto)]

mod bits;
mod chunks;
mod gaps;
mod ledgers;
mod pages;
mod regions;
mod spaces;
mod trees;
mod written;

pub use bits::Bits;
pub use gaps::Gaps;
pub use ledgers::{Counter, Ledger, Steps, Uncounted};
pub use mm_types::{Kind, View, ViewAccess};
pub use pages::{Row, Rows};
pub use regions::Region;
pub use spaces::Space;
