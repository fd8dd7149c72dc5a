ghost use Rattle.std.specs.Borrow.{sem};
ghost use Rattle.std.specs.Prelude.{◌≡◌, ◌≤◌, ◌+◌, nat_le, true, is_some};
ghost use Rattle.mm_world.specs.{charge, limit, first_world};
ghost use Rattle.mm_world.specs.WellFormed.{WellFormed};
ghost use Rattle.mm_object_tables.specs.References.{IsTidy};
ghost use Rattle.mm_object_tables.specs.Spaces.{LendsSpace, LendsHandles, process_regions, process_handles};

use crate::kept_accesses::no_accesses;
use crate::thread_stacks::Stacks;
use crate::waiting::Kept;
use mm_address_spaces::AddressSpace;
use mm_commit_charge::Commit;
use mm_sections::{Directory, Handles, SectionPages};
use mm_types::{Machine, THREADS};
use std::alloc::Global;
use std::marker::Model;

/// The regions and the handles of a living process.
#[derive(Drop)]
pub(crate) struct Process {
    pub(crate) space: AddressSpace,
    pub(crate) handles: Handles,
}

/// The regions of a living process, to be changed.
pub(crate) fn space_of(process: &mut Option<Process>) -> &mut AddressSpace
    requires lives { is_some process.old ≡ true }
    ensures* writes_back { sem 𝓛 (LendsSpace process.entry result) }
    ensures value { result.now.regions ≡ process_regions process.old }
{
    match process {
        Some(process) => &mut process.space,
        None => unreachable!(),
    }
}

/// The handles of a living process, to be changed.
pub(crate) fn handles_of(process: &mut Option<Process>) -> &mut Handles
    requires lives { is_some process.old ≡ true }
    ensures* writes_back { sem 𝓛 (LendsHandles process.entry result) }
    ensures value { result.now.entries ≡ process_handles process.old }
{
    match process {
        Some(process) => &mut process.handles,
        None => unreachable!(),
    }
}

/// What the calls go by: a machine, its processes with their regions and handles, its sections,
/// control areas and files, and the commit charge, and what access and what stack each thread has.
/// Pages' bytes are not here.
///
/// Contracts see it as the tables of a world.
#[derive(Drop)]
pub struct Tables {
    pub(crate) machine: Machine,
    // That of pid 1 comes first; none where it has ended.
    pub(crate) processes: Vec<Option<Process>>,
    pub(crate) directory: Directory,
    pub(crate) areas: Vec<SectionPages>,
    pub(crate) blocks_used: u32,
    pub(crate) fails_taken: u32,
    pub(crate) commit: Commit,
    // By thread.
    pub(crate) kept: [Option<Kept>; THREADS],
    // Of each thread.
    pub(crate) stacks: Stacks,
}

impl Model for Tables {
    ghost use Rattle.mm_world.specs.{Tables};
    ghost use Rattle.mm_object_tables.specs.Shown.{shown_processes, shown_accesses, tables_with};
    ghost use Rattle.mm_object_tables.specs.Sound.{AreKeptTables};

    ghost Value = { Tables };

    ghost view = { λ t. tables_with t.machine (shown_processes t.processes.items)
        t.directory.entries t.areas.items t.directory.files t.blocks_used t.fails_taken
        (shown_accesses t.kept) t.stacks };

    ghost invariant = { λ t. AreKeptTables
        (tables_with t.machine (shown_processes t.processes.items)
        t.directory.entries t.areas.items t.directory.files t.blocks_used t.fails_taken
        (shown_accesses t.kept) t.stacks)
        t.directory.entries t.commit };
}

impl Tables {
    /// A machine without processes, sections and files.
    pub fn new(alloc: Global, machine: Machine) -> Tables
        ensures { result ≡ first_world machine }
    {
        Tables {
            machine,
            processes: Vec::new(alloc),
            directory: Directory::new(alloc),
            areas: Vec::new(alloc),
            blocks_used: 0,
            fails_taken: 0,
            commit: Commit::new(machine.limit()),
            kept: no_accesses(),
            stacks: Stacks::new(),
        }
    }

    /// Ends the tables: their memory is given back.
    pub fn end(self) {}

    /// The machine, with the page-file slots that there are now.
    pub fn machine(&self) -> Machine
        ensures { result ≡ self.now.machine }
    {
        self.machine
    }

    /// Does nothing: tables are always sound.
    pub fn sound(&self)
        ensures sound { WellFormed self.now }
        ensures tidy { IsTidy self.now }
        ensures within { charge self.now ≤ limit self.now }
    {
        let _ = &self.machine;
    }

    /// The commit charge and the commit limit, in pages.
    pub fn charge(&self) -> (u32, u32)
        ensures charge { result.0 ≡ charge self.now }
        ensures limit { result.1 ≡ limit self.now }
        ensures within { charge self.now ≤ limit self.now }
    {
        (self.commit.now(), self.commit.limit())
    }

    /// Whether the commit limit allows `n` pages more.
    pub fn can_charge(&self, n: u32) -> bool
        ensures { result ≡ nat_le (charge self.now + n) (limit self.now) }
    {
        u64::from(self.commit.now()) + u64::from(n) <= u64::from(self.commit.limit())
    }
}
