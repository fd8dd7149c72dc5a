/// What a move is in the words of Windows. Each move but `at` is of one class.
#[derive(Clone, Copy, PartialEq, Eq)]
pub enum Class {
    /// `add`: a committed page of zeros comes to be; it has no frame yet.
    DemandZeroAdded,
    /// `add`: a page of a file comes to be; its bytes stand in a block.
    FilePageAdded,
    /// `add`: a copy-on-write fault: a private page comes to be for a place where a shared one is
    /// valid.
    CopyOnWriteFault,
    /// `drop`: a page is deleted; its frame or slot is free.
    Deleted,
    /// `drop`: a page is deleted while its I/O is in flight; the request keeps the frame.
    DeletedInFlight,
    /// `clear`: the zero page thread zeroes a free frame.
    ZeroedByThread,
    /// `clear`: a free frame is zeroed on demand.
    ZeroedOnDemand,
    /// `steal`: a standby page is repurposed.
    StandbyRepurposed,
    /// `give`: a demand-zero fault.
    DemandZeroFault,
    /// `give`: a zeroed frame for a copy, whose fault is its copy-on-write fault.
    FrameForCopy,
    /// `read`: a hard fault, read from the paging file.
    HardFaultFromPagingFile,
    /// `read`: a hard fault, read from a mapped file.
    HardFaultFromFile,
    /// `got`: a page-in is complete.
    PageInDone,
    /// `got`: a collided fault: the access waits for a page-in that an earlier line began.
    CollidedFault,
    /// `got`: a page-in is complete; its page was deleted meanwhile, and the frame is free.
    PageInDoneDeleted,
    /// `bad`: a page-in failed (STATUS_IN_PAGE_ERROR where the access ends).
    PageInFailed,
    /// `bad`: a page-in failed; its page was deleted meanwhile.
    PageInFailedDeleted,
    /// `map`: the page is valid: the end of this line's own fault.
    MadeValid,
    /// `map`: the first use of a page that an earlier line read in; no fault of its own.
    FirstUse,
    /// `map`: a soft fault from the standby list.
    SoftFaultFromStandby,
    /// `map`: a soft fault from the modified list.
    SoftFaultFromModified,
    /// `map`: a soft fault of a page in transition, which is being written.
    SoftFaultInTransition,
    /// `map`: a soft fault of a page that is valid elsewhere, and is now shared.
    SoftFaultShared,
    /// `unmap`: the place ends, by free, unmap or exit.
    PlaceEnds,
    /// `unmap`: trimmed from its working set by `trim`.
    Trimmed,
    /// `unmap`: trimmed from its working set for want of frames.
    TrimmedForWantOfFrames,
    /// `unmap`: replaced: the working set is at its maximum.
    Replaced,
    /// `unmap`: a shared page makes way for the copy.
    MakesWayForCopy,
    /// `soil`: the first write to a page: it is changed, and its slot, if any, is free.
    FirstWrite,
    /// `soil`: the first write while the page is being written: it stays changed.
    FirstWriteInFlight,
    /// `write`: a write-out by the modified page writer.
    WriteByWriter,
    /// `write`: a write-out for want of frames.
    WriteForWantOfFrames,
    /// `write`: a write-out by a flush.
    WriteByFlush,
    /// `wrote`: a write-out is complete; the page is clean.
    WriteDone,
    /// `wrote`: a write-out is complete, and the page was changed meanwhile.
    WriteDoneChanged,
    /// `wrote`: a write-out is complete; its page was deleted meanwhile, and the frame is free.
    WriteDoneDeleted,
    /// `lost`: a write-out failed; the page stays changed.
    WriteFailed,
    /// `lost`: a write-out failed; its page was deleted meanwhile.
    WriteFailedDeleted,
}

/// The kinds of events that a reader of a log looks for: faults, and what brings frames and takes
/// them.
#[derive(Clone, Copy, PartialEq, Eq)]
pub enum Group {
    /// Hard faults: the page is read from a device.
    Hard,
    /// Soft faults: the page is still in a frame.
    Soft,
    /// Demand-zero faults.
    DemandZero,
    /// Copy-on-write faults.
    Copy,
    /// Collided faults: another access began the page-in.
    Collided,
    /// Frames that are zeroed.
    Zeroing,
    /// Standby pages that are repurposed.
    Steal,
    /// Pages that are trimmed from working sets.
    Trim,
    /// Pages that make room in a full working set.
    Replace,
    /// Write-outs that begin.
    Write,
    /// Page-ins and write-outs that failed.
    Failed,
}
