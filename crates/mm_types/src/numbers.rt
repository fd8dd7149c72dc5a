/// A process's number, from 1 on; never given again.
#[derive(Clone, Copy, PartialEq, Eq, PartialOrd, Ord, Hash)]
pub struct Pid(pub u8);

/// A thread's number, 0 to 255.
#[derive(Clone, Copy, PartialEq, Eq, PartialOrd, Ord, Hash)]
pub struct Tid(pub u8);

/// A virtual page number: an address divided by 4,096. User pages are 0x10 to 0x7FFEF.
#[derive(Clone, Copy, PartialEq, Eq, PartialOrd, Ord, Hash, Debug)]
pub struct Vpn(pub u32);

/// A page frame's number, below the machine's number of frames.
#[derive(Clone, Copy, PartialEq, Eq, PartialOrd, Ord, Hash)]
pub struct Frame(pub u32);

/// A page-file slot's number, below the number of slots that there are now.
#[derive(Clone, Copy, PartialEq, Eq, PartialOrd, Ord, Hash)]
pub struct Slot(pub u32);

/// A file block's number, below the machine's number of blocks.
#[derive(Clone, Copy, PartialEq, Eq, PartialOrd, Ord, Hash)]
pub struct Block(pub u32);

/// A control area's number. Areas are numbered from 0 as files and page-file sections are made.
#[derive(Clone, Copy, PartialEq, Eq, PartialOrd, Ord, Hash)]
pub struct Area(pub u32);

/// A section's number. Sections are numbered from 0 as they are made, and never again.
#[derive(Clone, Copy, PartialEq, Eq, PartialOrd, Ord, Hash)]
pub struct SectionId(pub u32);

/// What bytes belong to: a page of one process, or a page of a control area by its index there.
#[derive(Clone, Copy, PartialEq, Eq, PartialOrd, Ord, Hash)]
pub enum Key {
    /// A page that its process alone sees: committed private memory, or a copied page of a view.
    Private(Pid, Vpn),
    /// A page of a section, by its control area and its index there.
    Shared(Area, u32),
}

/// Where a page can be valid: a page of the address space of a process.
#[derive(Clone, Copy, PartialEq, Eq, PartialOrd, Ord, Hash)]
pub struct Place {
    pub pid: Pid,
    pub vpn: Vpn,
}
