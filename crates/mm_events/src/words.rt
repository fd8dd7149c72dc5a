#![tactic(auto, using(mm_sentences::proofs::Joined::joined))]

ghost use Rattle.std.specs.Prelude.{◌≡◌, ◌++◌, OnOk, codes};
ghost use Rattle.mm_sentences.specs.{home_text};
ghost use Rattle.mm_events.specs.{class_text, kind_word, class_words, block_words, replaced_words, trimmed_words, behind_words, reason_column};

use mm_move_classes::Class;
use mm_sentences::{Facts, put_counted, put_words};
use mm_transcripts::{Reason, put_age, put_process};
use mm_types::{Block, Held, LineKind, NoMemory};

/// What a line is to the frames, in a word.
pub(crate) fn kind_word(kind: LineKind) -> &'static [u8]
    ensures { result.now ≡ kind_word kind }
{
    match kind {
        LineKind::Machine(_, _, _, _) => b"machine",
        LineKind::Process(_, _, _) => b"process",
        LineKind::Grow(_) => b"grow",
        LineKind::Unbind(_) => b"unbind",
        LineKind::Access(_) => b"access",
        LineKind::Thread(_) => b"thread",
        LineKind::Trim(_) => b"trim",
        LineKind::Writer => b"writer",
        LineKind::Zeroer => b"zeroer",
        LineKind::Io => b"io",
        LineKind::Call => b"call",
    }
}

/// What happened.
pub(crate) fn class_text(class: Class) -> &'static [u8]
    ensures { result.now ≡ class_text class }
{
    match class {
        Class::DemandZeroAdded | Class::FilePageAdded => b"added",
        Class::CopyOnWriteFault => b"copy-on-write",
        Class::Deleted | Class::DeletedInFlight => b"deleted",
        Class::ZeroedByThread | Class::ZeroedOnDemand => b"zeroed",
        Class::StandbyRepurposed => b"repurposed",
        Class::DemandZeroFault => b"demand-zero",
        Class::FrameForCopy => b"frame for a copy",
        Class::HardFaultFromPagingFile | Class::HardFaultFromFile => b"hard fault",
        Class::PageInDone | Class::PageInDoneDeleted => b"read in",
        Class::CollidedFault => b"collided fault",
        Class::PageInFailed | Class::PageInFailedDeleted => b"read failed",
        Class::MadeValid => b"made valid",
        Class::FirstUse => b"first use",
        Class::SoftFaultFromStandby
        | Class::SoftFaultFromModified
        | Class::SoftFaultInTransition
        | Class::SoftFaultShared => b"soft fault",
        Class::PlaceEnds | Class::MakesWayForCopy => b"given up",
        Class::Trimmed | Class::TrimmedForWantOfFrames => b"trimmed",
        Class::Replaced => b"replaced",
        Class::FirstWrite | Class::FirstWriteInFlight => b"first write",
        Class::WriteByWriter | Class::WriteForWantOfFrames | Class::WriteByFlush => b"write begun",
        Class::WriteDone | Class::WriteDoneChanged | Class::WriteDoneDeleted => b"written out",
        Class::WriteFailed | Class::WriteFailedDeleted => b"write failed",
    }
}

/// The words of a class in a reason.
fn class_words(class: Class) -> &'static [u8]
    ensures { result.now ≡ class_words class }
{
    match class {
        Class::DemandZeroAdded => b"demand-zero",
        Class::FilePageAdded | Class::HardFaultFromFile => b"file ",
        Class::DeletedInFlight => b"its I/O is in flight",
        Class::ZeroedByThread => b"zero page thread",
        Class::ZeroedOnDemand => b"on demand",
        Class::StandbyRepurposed => b"now only in ",
        Class::HardFaultFromPagingFile => b"paging-file ",
        Class::CollidedFault => b"begun by an earlier line",
        Class::PageInDoneDeleted
        | Class::PageInFailedDeleted
        | Class::WriteDoneDeleted
        | Class::WriteFailedDeleted => b"page deleted meanwhile",
        Class::FirstUse => b"read in by an earlier line",
        Class::SoftFaultFromStandby => b"standby list",
        Class::SoftFaultFromModified => b"modified list",
        Class::SoftFaultInTransition => b"being written",
        Class::SoftFaultShared => b"valid elsewhere",
        Class::PlaceEnds => b"its place ends",
        Class::Trimmed => b"trim",
        Class::TrimmedForWantOfFrames => b"want of frames",
        Class::Replaced => b"working set is full",
        Class::MakesWayForCopy => b"makes way for the copy",
        Class::FirstWriteInFlight => b"while it is being written",
        Class::WriteByWriter => b"modified page writer, to ",
        Class::WriteForWantOfFrames => b"want of frames, to ",
        Class::WriteByFlush => b"flush, to ",
        Class::WriteDoneChanged => b"changed meanwhile",
        _ => b"",
    }
}

fn put_home(home: Held, text: &mut Vec<u8>) -> Result<(), NoMemory>
    ensures { OnOk result (text.new.items ≡ text.old.items ++ home_text home) }
{
    match home {
        Held::Slot(slot) => put_counted(b"slot ", u64::from(slot.0), text),
        Held::Block(block) => put_counted(b"block ", u64::from(block.0), text),
        Held::Frame(_) | Held::Zero | Held::Dead => put_words(b"zeros", text),
    }
}

fn put_block(block: Option<Block>, text: &mut Vec<u8>) -> Result<(), NoMemory>
    ensures { OnOk result (text.new.items ≡ text.old.items ++ block_words block) }
{
    match block {
        Some(block) => put_counted(b"block ", u64::from(block.0), text),
        None => Ok(()),
    }
}

/// Writes how a page stood that made room in its working set, if that is known.
fn put_replaced(reason: &Option<Reason>, text: &mut Vec<u8>) -> Result<(), NoMemory>
    ensures { OnOk result (text.new.items ≡ text.old.items ++ replaced_words reason.now) }
{
    match reason {
        Some(reason) => {
            put_words(b", ", text)?;
            put_age(reason.age, text)
        }
        None => Ok(()),
    }
}

/// Writes how a page stood that was trimmed for want of frames, and its process, if that is known.
fn put_trimmed(reason: &Option<Reason>, text: &mut Vec<u8>) -> Result<(), NoMemory>
    ensures { OnOk result (text.new.items ≡ text.old.items ++ trimmed_words reason.now) }
{
    match reason {
        Some(reason) => {
            put_words(b", ", text)?;
            put_process(reason, text)?;
            put_age(reason.age, text)
        }
        None => Ok(()),
    }
}

fn put_behind(
    class: Class,
    facts: &Facts,
    reason: &Option<Reason>,
    text: &mut Vec<u8>,
) -> Result<(), NoMemory>
    ensures { OnOk result (text.new.items ≡ text.old.items
        ++ behind_words class facts.now reason.now) }
{
    match class {
        Class::FilePageAdded => put_block(facts.block, text),
        Class::StandbyRepurposed
        | Class::HardFaultFromPagingFile
        | Class::HardFaultFromFile
        | Class::WriteByWriter
        | Class::WriteForWantOfFrames
        | Class::WriteByFlush => put_home(facts.home, text),
        Class::Replaced => put_replaced(reason, text),
        Class::TrimmedForWantOfFrames => put_trimmed(reason, text),
        _ => Ok(()),
    }
}

/// Writes why it happened, or by what, where the class does not say.
pub(crate) fn put_reason(
    class: Class,
    facts: &Facts,
    reason: &Option<Reason>,
    text: &mut Vec<u8>,
) -> Result<(), NoMemory>
    ensures { OnOk result (text.new.items ≡ text.old.items
        ++ reason_column class facts.now reason.now) }
{
    put_words(class_words(class), text)?;
    put_behind(class, facts, reason, text)
}
