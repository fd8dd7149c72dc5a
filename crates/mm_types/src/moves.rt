use crate::{Block, Frame, Key, Pid, Place, Slot};

/// What a line is to the life of the frames.
#[derive(Clone, Copy)]
pub enum LineKind {
    /// `machine`: frames, slots, depth, blocks. The numbers may be any; the rules say which are
    /// legal.
    Machine(u32, u32, u32, u32),
    /// `process` that answers a pid: the pid, min, max.
    Process(Pid, u32, u32),
    /// `exit`, `free`, `unmap` of a live process.
    Unbind(Pid),
    /// `read`, `write`, `exec` of a live process.
    Access(Pid),
    /// `begin` of a live process by a thread that is not busy; `resume` of a pending access.
    Thread(Pid),
    /// `trim` of a live process.
    Trim(Pid),
    Writer,
    Zeroer,
    Io,
    /// Every other line.
    Call,
    /// `grow` that answers `ok`: so many new slots.
    Grow(u32),
}

/// Where a page is written to.
#[derive(Clone, Copy)]
pub enum Stored {
    Slot(Slot),
    Block(Block),
}

/// A move of page frames: one line of a log.
#[derive(Clone, Copy)]
pub enum Move {
    /// `at <line> <kind>`: a line begins.
    At(u32, LineKind),
    /// `add <key> zero`, `add <key> block <b>`: a page comes to be.
    Add(Key, Option<Block>),
    /// `drop <key>`: a page is no more.
    Drop(Key),
    /// `clear <f>`: the first free frame is zeroed.
    Clear(Frame),
    /// `steal <f>`: the first standby frame becomes free.
    Steal(Frame),
    /// `give <f> <key>`: a zeroed frame for a demand-zero page.
    Give(Frame, Key),
    /// `read <f> <key>`: a read of a page into a frame begins.
    Read(Frame, Key),
    /// `got <f>`: the read succeeded.
    Got(Frame),
    /// `bad <f>`: the read failed.
    Bad(Frame),
    /// `map <f> <place>`: a page becomes valid at a place.
    Map(Frame, Place),
    /// `unmap <place>`: it is valid there no more.
    Unmap(Place),
    /// `soil <f>`: a clean frame becomes changed.
    Soil(Frame),
    /// `write <f> slot <s>`, `write <f> block <b>`: a write of a frame begins.
    Write(Frame, Stored),
    /// `wrote <f>`: the write succeeded.
    Wrote(Frame),
    /// `lost <f>`: the write failed.
    Lost(Frame),
}
