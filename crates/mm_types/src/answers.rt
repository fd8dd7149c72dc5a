use crate::{ByteBuf, Code, PageList, Pid, Prot, Raise};

/// The read that a thread waits for.
#[derive(Clone, Copy, PartialEq, Eq)]
pub enum Wait {
    /// It waits for nothing.
    None,
    /// The request is in flight.
    InFlight,
    /// The request was done.
    Done,
    /// The request failed.
    Failed,
}

/// What a thread's access waits for.
#[derive(Clone, Copy, PartialEq, Eq)]
pub enum Why {
    /// A read of the page is in flight.
    Read,
    /// A page frame is needed, and there is none to be had.
    Frame,
    /// The page must be read, and as many requests as the depth are in flight.
    Full,
}

/// The frame database and what else `counts` tells: how many frames, slots, requests.
#[derive(Clone, Copy)]
pub struct Counts {
    pub zeroed: u32,
    pub free: u32,
    pub standby: u32,
    pub modified: u32,
    pub active: u32,
    pub transition: u32,
    pub free_slots: u32,
    pub requests: u32,
}

/// What VirtualQuery tells (MEMORY_BASIC_INFORMATION), as numbers: addresses and sizes in bytes.
#[derive(Clone, Copy)]
pub struct QueryInfo {
    pub base: u32,
    pub alloc_base: u32,
    pub alloc_prot: u32,
    pub size: u32,
    pub state: u32,
    pub prot: u32,
    pub kind: u32,
}

/// The answer to a line of a script.
#[derive(Drop)]
pub enum Answer {
    /// A line with no value succeeded.
    Ok,
    /// The commit limit in pages: `machine`, `grow`.
    Limit(u32),
    /// The new process: `process`.
    NewProcess(Pid),
    /// An address: `alloc`, `map`, `probe`.
    At(u32),
    /// The first page's protection before: `protect`.
    OldProt(Prot),
    /// What `query` tells.
    Info(QueryInfo),
    /// A handle, and whether the name existed: `create`, `createfile`.
    Created(u32, bool),
    /// A handle: `open`.
    Opened(u32),
    /// Bytes read.
    Bytes(ByteBuf),
    /// The commit charge and the commit limit, in pages: `charge`.
    Charge(u32, u32),
    /// The eight numbers of `counts`.
    Counts(Counts),
    /// A call was refused.
    Error(Code),
    /// An access raised a status.
    Raised(Raise),
    /// The thread's access waits.
    Pending(Why),
    /// There is nothing to go on with: `none`.
    Nothing,
    /// The thread has something pending already.
    Busy,
    /// There is no room for one more.
    Full,
    /// A device call of the line failed.
    Fault,
    /// The addresses of written pages: `watch`.
    Watched(PageList),
    /// Base, size in bytes, and the guard page's address: `stack`.
    Stack(u32, u32, u32),
}
