ghost use Rattle.std.specs.Prelude.{◌≡◌, ◌++◌, OnOk, Some, None, flat_map};
ghost use Rattle.mm_show.specs.{move_word, group_word, class_rows, class_words_row};

use mm_move_classes::{Class, Group, code, group, sentence};
use mm_types::NoMemory;

/// The classes, in the order in which they are told.
pub(crate) const CLASSES: [Class; 38] = [
    Class::DemandZeroAdded,
    Class::FilePageAdded,
    Class::CopyOnWriteFault,
    Class::Deleted,
    Class::DeletedInFlight,
    Class::ZeroedByThread,
    Class::ZeroedOnDemand,
    Class::StandbyRepurposed,
    Class::DemandZeroFault,
    Class::FrameForCopy,
    Class::HardFaultFromPagingFile,
    Class::HardFaultFromFile,
    Class::PageInDone,
    Class::CollidedFault,
    Class::PageInDoneDeleted,
    Class::PageInFailed,
    Class::PageInFailedDeleted,
    Class::MadeValid,
    Class::FirstUse,
    Class::SoftFaultFromStandby,
    Class::SoftFaultFromModified,
    Class::SoftFaultInTransition,
    Class::SoftFaultShared,
    Class::PlaceEnds,
    Class::Trimmed,
    Class::TrimmedForWantOfFrames,
    Class::Replaced,
    Class::MakesWayForCopy,
    Class::FirstWrite,
    Class::FirstWriteInFlight,
    Class::WriteByWriter,
    Class::WriteForWantOfFrames,
    Class::WriteByFlush,
    Class::WriteDone,
    Class::WriteDoneChanged,
    Class::WriteDoneDeleted,
    Class::WriteFailed,
    Class::WriteFailedDeleted,
];

/// What the moves of a class are to the page: the word that they begin with; where more is written
/// of them, another.
fn move_word(class: Class) -> &'static [u8]
    ensures { result.now ≡ move_word class }
{
    match class {
        Class::DemandZeroAdded => b"add",
        Class::FilePageAdded => b"addfile",
        Class::CopyOnWriteFault => b"add",
        Class::Deleted => b"drop",
        Class::DeletedInFlight => b"drop",
        Class::ZeroedByThread => b"clear",
        Class::ZeroedOnDemand => b"clear",
        Class::StandbyRepurposed => b"steal",
        Class::DemandZeroFault => b"give",
        Class::FrameForCopy => b"give",
        Class::HardFaultFromPagingFile => b"read",
        Class::HardFaultFromFile => b"read",
        Class::PageInDone => b"got",
        Class::CollidedFault => b"got",
        Class::PageInDoneDeleted => b"got",
        Class::PageInFailed => b"bad",
        Class::PageInFailedDeleted => b"bad",
        Class::MadeValid => b"map",
        Class::FirstUse => b"map",
        Class::SoftFaultFromStandby => b"map",
        Class::SoftFaultFromModified => b"map",
        Class::SoftFaultInTransition => b"map",
        Class::SoftFaultShared => b"map",
        Class::PlaceEnds => b"unmap",
        Class::Trimmed => b"unmap",
        Class::TrimmedForWantOfFrames => b"unmap",
        Class::Replaced => b"unmap",
        Class::MakesWayForCopy => b"unmap",
        Class::FirstWrite => b"soil",
        Class::FirstWriteInFlight => b"soil",
        Class::WriteByWriter => b"write",
        Class::WriteForWantOfFrames => b"write",
        Class::WriteByFlush => b"write",
        Class::WriteDone => b"wrote",
        Class::WriteDoneChanged => b"wrote",
        Class::WriteDoneDeleted => b"wrote",
        Class::WriteFailed => b"lost",
        Class::WriteFailedDeleted => b"lost",
    }
}

fn group_word(group: Option<Group>) -> &'static [u8]
    ensures { result.now ≡ group_word group }
{
    match group {
        Some(Group::Hard) => b"hard",
        Some(Group::Soft) => b"soft",
        Some(Group::DemandZero) => b"zero",
        Some(Group::Copy) => b"copy",
        Some(Group::Collided) => b"collided",
        Some(Group::Zeroing) => b"zeroing",
        Some(Group::Steal) => b"steal",
        Some(Group::Trim) => b"trim",
        Some(Group::Replace) => b"replace",
        Some(Group::Write) => b"write",
        Some(Group::Failed) => b"failed",
        None => b"-",
    }
}

/// Writes what the page has to know of a class: its code, its move, its group and its sentence.
#[tactic(auto, using(mm_text::proofs::DigitCounts::joined))]
fn put_class(class: Class, text: &mut Vec<u8>) -> Result<(), NoMemory>
    ensures { OnOk result (text.new.items ≡ text.old.items ++ class_words_row class) }
{
    text.push(code(class))?;
    text.push(b' ')?;
    text.extend_from_slice(move_word(class))?;
    text.push(b' ')?;
    text.extend_from_slice(group_word(group(class)))?;
    text.push(b' ')?;
    text.extend_from_slice(sentence(class))?;
    text.push(b'\n')?;
    Ok(())
}

/// Writes a line for each of some classes.
fn put_rows(classes: &[Class], text: &mut Vec<u8>) -> Result<(), NoMemory>
    ensures { OnOk result
        (text.new.items ≡ text.old.items ++ flat_map class_words_row classes.now) }
{
    for class in classes {
        put_class(*class, text)?;
    }
    Ok(())
}

/// Writes a line for each class.
pub(crate) fn put_classes(text: &mut Vec<u8>) -> Result<(), NoMemory>
    ensures { OnOk result (text.new.items ≡ text.old.items ++ class_rows) }
{
    put_rows(&CLASSES, text)
}
