use crate::{Block, Frame, Key, Slot};

/// Where the bytes of a frame's page stand on a device, if anywhere.
#[derive(Clone, Copy, PartialEq, Eq)]
pub enum Backing {
    None,
    /// A page-file slot, a block of the paging device.
    Slot(Slot),
    /// A block of the file device.
    Block(Block),
}

/// The device request that holds a frame.
#[derive(Clone, Copy, PartialEq, Eq)]
pub enum Request {
    None,
    /// The page is being read.
    Read,
    /// The page is being written.
    Write,
    /// The page is being written, and was changed since.
    WriteAgain,
}

/// What the frame database keeps of a page frame (an entry of the PFN database).
#[derive(Clone, Copy)]
pub struct Record {
    /// The page that the frame holds, if any.
    pub owner: Option<Key>,
    /// Whether the frame differs from its backing.
    pub changed: bool,
    pub backing: Backing,
    /// How many valid entries name the frame.
    pub shares: u32,
    pub request: Request,
}

/// Where a key's bytes stand.
#[derive(Clone, Copy)]
pub enum Held {
    Frame(Frame),
    Slot(Slot),
    Block(Block),
    /// Nowhere: they are zero.
    Zero,
    /// The key is not live.
    Dead,
}
