//! Calls over any store of pages. On the memory of processes: VirtualAlloc, VirtualFree,
//! VirtualProtect, VirtualQuery, GetWriteWatch, ResetWriteWatch, new processes and a paging file
//! that grows. On sections, views and files: CreateFileMapping, OpenFileMapping, CloseHandle,
//! MapViewOfFile, UnmapViewOfFile, FlushViewOfFile, CreateFile; ExitProcess. And stacks of threads,
//! which grow through their guard page. Each decides by the tables, and changes them by one call of
//! `mm_object_tables`.
#![tactic(auto)]

mod files;
mod machine_calls;
mod memory_calls;
mod parameters;
mod probes;
mod queries;
mod sections;
mod stack_laws;
mod stacks;
mod views;

pub use files::{flush_view, new_file};
pub use machine_calls::{end_process, grow_paging, new_process};
pub use memory_calls::{commit, protect, valloc, vfree};
pub use probes::probe;
pub use queries::{query, reset_watch, watch};
pub use sections::{close, create, create_file, open_section};
pub use stack_laws::{
    growth_stays_above_the_base_page, growth_succeeds_in_the_region,
    overflows_are_raised_where_nothing_is_left, stacks_grow_a_bounded_number_of_times,
    stacks_grow_where_something_is_left,
};
pub use stacks::stack;
pub use views::{map, unmap};
