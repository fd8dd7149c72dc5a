use mm_types::{Block, Frame, Key, LineKind, Pid, Place, Slot};

/// A part of the condition under which a move is legal.
#[derive(Clone, Copy)]
pub enum Part {
    /// The line's number comes next.
    NextLine(u32),
    /// No more requests are in flight than the depth.
    InDepth,
    /// No line came before.
    FirstLine,
    /// A machine's numbers are in range.
    MachineRange(LineKind),
    /// A line came before.
    Started,
    /// The process's number comes next.
    NextProcess(Pid),
    /// It is one of the numbers that there are.
    FewProcesses(Pid),
    /// The paging file grows by a slot at least.
    SomeSlots(u32),
    /// It has no more slots then than there can be.
    FewSlots(u32),
    /// The page is not live.
    NotLive(Key),
    /// A page more can be committed.
    Commit,
    /// The line is a call, or an access in which the page is a copy.
    CallOrCopy(Key),
    /// The line is a call.
    Call,
    /// The page is one of a section.
    OfSection(Key),
    /// The file device has the block.
    BlockThere(Block),
    /// The block never had a page.
    BlockNew(Block),
    /// The line is a call or an unbind.
    CallOrUnbind,
    /// The page is live, and one of the paging file.
    OfPagingFile(Key),
    /// The page is valid nowhere.
    Unmapped(Key),
    /// The frame is the first free one.
    FirstFree(Frame),
    /// The line is the zero page thread's, or an access where zeroed is empty.
    Zeroes,
    /// The frame is the first standby one.
    FirstStandby(Frame),
    ZeroedEmpty,
    FreeEmpty,
    /// The line is an access, plain or of a thread.
    Access,
    /// The frame is the first zeroed one.
    FirstZeroed(Frame),
    /// The page is all zeros, and in no frame.
    DemandZero(Key),
    /// The frame is the first free one, or where there is none the first zeroed one.
    FirstToRead(Frame),
    /// The page is on a device, and in no frame.
    OnDevice(Key),
    /// The line is a plain access, or a thread's, and a request more may begin.
    AccessReads,
    /// The frame is being read.
    BeingRead(Frame),
    /// The line is `io` or a plain access.
    IoOrAccess,
    /// The frame's page may be valid there.
    FitsPlace(Frame, Place),
    NotBeingRead(Frame),
    /// The place is not valid.
    NotValid(Place),
    /// The line is an access of this process.
    AccessOf(Pid),
    /// Its working set has room.
    BelowMax(Pid),
    /// The place is valid.
    Valid(Place),
    /// The line may end the place.
    MayEnd(Place),
    /// The frame is valid somewhere.
    Active(Frame),
    /// The frame is not changed, or not since its write began.
    Clean(Frame),
    OnModified(Frame),
    /// The frame's page is one of the paging file.
    HoldsPaging(Frame),
    /// The slot is the lowest free one.
    LowestSlot(Slot),
    /// The line is a plain access, or the writer's, and a request more may begin.
    WritesSlot,
    Changed(Frame),
    /// The frame holds a page.
    Owned(Frame),
    /// The frame has no request.
    Quiet(Frame),
    /// The frame's page is the block's.
    OfBlock(Frame, Block),
    /// The line may write the frame to a block.
    WritesBlock(Frame),
    BeingWritten(Frame),
    /// The line is `io`, a plain access or a call.
    IoAccessOrCall,
}
