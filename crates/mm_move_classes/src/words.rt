ghost use Rattle.std.specs.Prelude.{◌≡◌};
ghost use Rattle.mm_move_classes.specs.{code_of, group_of, sentence_of};

use crate::classes::{Class, Group};

/// The letter or digit by which the data of a page names a class.
pub fn code(class: Class) -> u8
    ensures { result ≡ code_of class }
{
    match class {
        Class::DemandZeroAdded => b'c',
        Class::FilePageAdded => b'f',
        Class::CopyOnWriteFault => b'y',
        Class::Deleted => b'd',
        Class::DeletedInFlight => b'D',
        Class::ZeroedByThread => b'z',
        Class::ZeroedOnDemand => b'Z',
        Class::StandbyRepurposed => b's',
        Class::DemandZeroFault => b'g',
        Class::FrameForCopy => b'G',
        Class::HardFaultFromPagingFile => b'h',
        Class::HardFaultFromFile => b'H',
        Class::PageInDone => b'o',
        Class::CollidedFault => b'q',
        Class::PageInDoneDeleted => b'O',
        Class::PageInFailed => b'b',
        Class::PageInFailedDeleted => b'B',
        Class::MadeValid => b'm',
        Class::FirstUse => b'n',
        Class::SoftFaultFromStandby => b'1',
        Class::SoftFaultFromModified => b'2',
        Class::SoftFaultInTransition => b'3',
        Class::SoftFaultShared => b'4',
        Class::PlaceEnds => b'u',
        Class::Trimmed => b't',
        Class::TrimmedForWantOfFrames => b'T',
        Class::Replaced => b'r',
        Class::MakesWayForCopy => b'p',
        Class::FirstWrite => b'w',
        Class::FirstWriteInFlight => b'W',
        Class::WriteByWriter => b'e',
        Class::WriteForWantOfFrames => b'E',
        Class::WriteByFlush => b'F',
        Class::WriteDone => b'k',
        Class::WriteDoneChanged => b'K',
        Class::WriteDoneDeleted => b'j',
        Class::WriteFailed => b'l',
        Class::WriteFailedDeleted => b'L',
    }
}

/// The kind of event that a class is, if it is one to look for.
pub fn group(class: Class) -> Option<Group>
    ensures { result ≡ group_of class }
{
    match class {
        Class::DemandZeroAdded => None,
        Class::FilePageAdded => None,
        Class::CopyOnWriteFault => Some(Group::Copy),
        Class::Deleted => None,
        Class::DeletedInFlight => None,
        Class::ZeroedByThread => Some(Group::Zeroing),
        Class::ZeroedOnDemand => Some(Group::Zeroing),
        Class::StandbyRepurposed => Some(Group::Steal),
        Class::DemandZeroFault => Some(Group::DemandZero),
        Class::FrameForCopy => None,
        Class::HardFaultFromPagingFile => Some(Group::Hard),
        Class::HardFaultFromFile => Some(Group::Hard),
        Class::PageInDone => None,
        Class::CollidedFault => Some(Group::Collided),
        Class::PageInDoneDeleted => None,
        Class::PageInFailed => Some(Group::Failed),
        Class::PageInFailedDeleted => Some(Group::Failed),
        Class::MadeValid => None,
        Class::FirstUse => None,
        Class::SoftFaultFromStandby => Some(Group::Soft),
        Class::SoftFaultFromModified => Some(Group::Soft),
        Class::SoftFaultInTransition => Some(Group::Soft),
        Class::SoftFaultShared => Some(Group::Soft),
        Class::PlaceEnds => None,
        Class::Trimmed => Some(Group::Trim),
        Class::TrimmedForWantOfFrames => Some(Group::Trim),
        Class::Replaced => Some(Group::Replace),
        Class::MakesWayForCopy => None,
        Class::FirstWrite => None,
        Class::FirstWriteInFlight => None,
        Class::WriteByWriter => Some(Group::Write),
        Class::WriteForWantOfFrames => Some(Group::Write),
        Class::WriteByFlush => Some(Group::Write),
        Class::WriteDone => None,
        Class::WriteDoneChanged => None,
        Class::WriteDoneDeleted => None,
        Class::WriteFailed => Some(Group::Failed),
        Class::WriteFailedDeleted => Some(Group::Failed),
    }
}

/// What a class says of its move, one sentence with names in braces: `{k}` the page's key, `{f}`
/// the frame, `{p}` the place, `{i}` the process, `{b}` the block, `{home}` the slot or block,
/// and three endings, `{freed}`, `{unslot}` and `{goes}`, which say what became of the frame or
/// slot.
pub fn sentence(class: Class) -> &'static [u8]
    ensures { result.now ≡ sentence_of class }
{
    match class {
        Class::DemandZeroAdded => b"page {k} comes to be, demand-zero: no frame yet",
        Class::FilePageAdded => b"file page {k} comes to be, its bytes in file block {b}",
        Class::CopyOnWriteFault => b"copy-on-write fault: page {k} becomes private",
        Class::Deleted => b"page {k} is deleted{freed}",
        Class::DeletedInFlight => b"page {k} is deleted; its I/O keeps frame {f} until it ends",
        Class::ZeroedByThread => b"zero page thread clears free frame {f}",
        Class::ZeroedOnDemand => b"free frame {f} is zeroed on demand",
        Class::StandbyRepurposed => b"standby frame {f} is repurposed: {k} is now only in {home}",
        Class::DemandZeroFault => b"demand-zero fault: {k} gets zeroed frame {f}",
        Class::FrameForCopy => b"zeroed frame {f} is taken for the copy {k}",
        Class::HardFaultFromPagingFile => {
            b"hard fault: {k} is read from paging-file {home} into frame {f}"
        }
        Class::HardFaultFromFile => b"hard fault: {k} is read from file {home} into frame {f}",
        Class::PageInDone => b"page-in of {k} into frame {f} is complete",
        Class::CollidedFault => {
            b"collided fault: the page-in of {k} that was in flight completes in frame {f}"
        }
        Class::PageInDoneDeleted => {
            b"page-in into frame {f} is complete; its page was deleted, so the frame is free"
        }
        Class::PageInFailed => b"page-in of {k} FAILED: frame {f} is free again",
        Class::PageInFailedDeleted => {
            b"page-in into frame {f} FAILED; its page was deleted, so the frame is free"
        }
        Class::MadeValid => b"{k} is valid at {p}: frame {f} is active",
        Class::FirstUse => b"{k}, read in by an earlier line, is valid at {p}: frame {f} is active",
        Class::SoftFaultFromStandby => {
            b"soft fault: {k} is found on the standby list, frame {f}, and valid at {p}"
        }
        Class::SoftFaultFromModified => {
            b"soft fault: {k} is found on the modified list, frame {f}, and valid at {p}"
        }
        Class::SoftFaultInTransition => {
            b"soft fault: {k} is found in transition (being written), frame {f}, and valid at {p}"
        }
        Class::SoftFaultShared => {
            b"soft fault: {k} is active already, frame {f}, and now shared at {p}"
        }
        Class::PlaceEnds => b"{p} ends: frame {f} leaves the working set of process {i}{goes}",
        Class::Trimmed => b"{p} is trimmed from the working set of process {i}: frame {f}{goes}",
        Class::TrimmedForWantOfFrames => {
            b"{p} is trimmed from the working set of process {i} for want of frames: \
            frame {f}{goes}"
        }
        Class::Replaced => {
            b"{p} is replaced: the working set of process {i} is full: frame {f}{goes}"
        }
        Class::MakesWayForCopy => {
            b"at {p} the shared page {k} makes way for the copy: frame {f}{goes}"
        }
        Class::FirstWrite => b"first write to {k}: frame {f} is changed{unslot}",
        Class::FirstWriteInFlight => {
            b"first write to {k} while it is being written: frame {f} will stay changed"
        }
        Class::WriteByWriter => b"modified page writer writes {k}: frame {f} to {home}",
        Class::WriteForWantOfFrames => b"write-out for want of frames: {k}, frame {f} to {home}",
        Class::WriteByFlush => b"flush writes {k}: frame {f} to {home}",
        Class::WriteDone => b"write-out of {k} is complete: frame {f} is clean{goes}",
        Class::WriteDoneChanged => {
            b"write-out of {k} is complete, but it was changed meanwhile: \
            frame {f} stays changed{goes}"
        }
        Class::WriteDoneDeleted => {
            b"write-out of frame {f} is complete; its page was deleted, so the frame is free"
        }
        Class::WriteFailed => b"write-out of {k} FAILED: frame {f} stays changed{goes}",
        Class::WriteFailedDeleted => {
            b"write-out of frame {f} FAILED; its page was deleted, so the frame is free"
        }
    }
}
