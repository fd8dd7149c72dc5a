ghost use Rattle.std.specs.Prelude.{◌≡◌, ◌++◌, OnOk};
ghost use Rattle.mm_move_rules.specs.{is_above_min};
ghost use Rattle.mm_transcripts.specs.Reasons.{age_words, process_words, reason_words};

use mm_move_classes::Class;
use mm_move_rules::ResidentSet;
use mm_sentences::{put_counted, put_numbered};
use mm_types::{NoMemory, Pid};

/// How a page stood right before it left its working set.
#[derive(Clone, Copy, PartialEq, Eq)]
pub struct Reason {
    /// The process of the working set.
    pub pid: Pid,
    /// Whether that was above its minimum.
    pub is_above_min: bool,
    /// The age of the page, 0 to 7.
    pub age: u64,
}

pub(crate) fn is_above_min(set: Option<ResidentSet>) -> bool
    ensures { result ≡ is_above_min set }
{
    match set {
        Some(set) => set.min < set.resident,
        None => false,
    }
}

/// Writes the age of a page that left its working set: that it was the oldest, or the lowest of age 0.
pub fn put_age(age: u64, text: &mut Vec<u8>) -> Result<(), NoMemory>
    ensures { OnOk result (text.new.items ≡ text.old.items ++ age_words age) }
{
    if age == 0 {
        text.extend_from_slice(b"lowest page of age 0")?;
        return Ok(());
    }
    put_counted(b"oldest: age ", age, text)
}

/// Writes that the process of the working set was the first above its minimum, if it was.
pub fn put_process(reason: &Reason, text: &mut Vec<u8>) -> Result<(), NoMemory>
    ensures { OnOk result (text.new.items ≡ text.old.items ++ process_words reason.now) }
{
    if !reason.is_above_min {
        return Ok(());
    }
    let pid = u64::from(reason.pid.0);
    put_numbered(b"process ", pid, b" is the first above its minimum; ", text)
}

/// Writes, in brackets and behind a space, why a page was replaced, or was trimmed for want of
/// frames; nothing behind a move of another class. The only error is that memory is refused; then a
/// part may have been written.
#[tactic(auto, using(mm_sentences::proofs::Joined::joined))]
pub(crate) fn put_reason(class: Class, reason: &Reason, text: &mut Vec<u8>) -> Result<(), NoMemory>
    ensures { OnOk result (text.new.items ≡ text.old.items ++ reason_words class reason.now) }
{
    match class {
        Class::Replaced => {}
        Class::TrimmedForWantOfFrames => {}
        _ => return Ok(()),
    }
    text.extend_from_slice(b" [")?;
    if class == Class::TrimmedForWantOfFrames {
        put_process(reason, text)?;
    }
    put_age(reason.age, text)?;
    text.push(b']')?;
    Ok(())
}
