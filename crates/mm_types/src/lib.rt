//! What every crate above names: numbers, machines, protections, events, answers, moves, faults.
//!
//! Plain data without behaviour. The definitions of worlds stand in `mm_world`, those of the life
//! of the frames in `mm_move_rules`; both cite the types of this crate.
#![tactic(auto)]

mod answers;
mod codes;
mod devices;
mod events;
mod faults;
mod frames;
mod machines;
mod moves;
mod numbers;
mod protections;
mod sizes;
mod texts;
mod views;

pub use answers::{Answer, Counts, QueryInfo, Wait, Why};
pub use codes::{Code, Raise};
pub use devices::{Device, Direction};
pub use events::{AccessSpec, Event};
pub use faults::{
    Failed, GrowFault, MakeFault, NoMemory, OpenFault, PageFault, Unmade, WriteFault,
};
pub use frames::{Backing, Held, Record, Request};
pub use machines::Machine;
pub use moves::{LineKind, Move, Stored};
pub use numbers::{Area, Block, Frame, Key, Pid, Place, SectionId, Slot, Tid, Vpn};
pub use protections::{Access, AllocFlags, Prot, permits};
pub use sizes::{
    END_OF_USER_PAGES, FIRST_USER_PAGE, GRANULE_PAGES, GRANULE_SIZE, PAGE_SIZE, THREADS,
};
pub use texts::{ByteBuf, Name, PageList};
pub use views::{Kind, View, ViewAccess};
