//! The regions of one process, private ones and views of sections, as the definitions of worlds
//! have them; no page's bytes are here.
#![tactic(auto)]

mod changes;
mod new_regions;
mod queries;
mod ranges;
mod rows;
mod spaces;
mod watched;

pub use new_regions::NewRegion;
pub use queries::{PageInfo, ProtectInfo};
pub use ranges::{PageRange, pages_for};
pub use spaces::{AddressSpace, PageRow, RegionInfo};
