ghost use Rattle.std.specs.Prelude.{◌≡◌, ◌++◌, ◌<◌, OnOk, IfOk, false};
ghost use Rattle.std.specs.Prelude.{slice_index_or};
ghost use Rattle.mm_move_rules.specs.{is_on};
ghost use Rattle.mm_replay.specs.Standing.{life as life_of};
ghost use Rattle.mm_sentences.specs.{state_by};
ghost use Rattle.mm_reports.specs.{AreMarkedBelow, frame_lines, frame_words};

use crate::runs::FrameRun;
use mm_move_classes::{has_request, is_read};
use mm_replay::Life;
use mm_sentences::{FrameState, put_row};
use mm_types::{Frame, NoMemory, Record};
use std::alloc::Global;

/// A mark for each frame below this number: whether it is one of these.
#[tactic(auto, using(crate::proofs::Marks::marks))]
pub(crate) fn marked(alloc: Global, count: usize, frames: &[u32]) -> Result<Vec<bool>, NoMemory>
    ensures { IfOk result (λ v. AreMarkedBelow v.items count frames.now) }
{
    let mut marks = vec![in alloc; false; count]?;
    for frame in frames {
        let at = *frame as usize;
        if at < marks.len() {
            marks[at] = true;
        }
    }
    Ok(marks)
}

/// The state of a frame of which it is known whether it is on the zeroed list. Takes constant time.
fn state_of(life: &Life, frame: Frame, r: &Record, is_zeroed: bool) -> FrameState
    requires { is_zeroed ≡ is_on frame.0 (life_of life.now).frames.zeroed }
    ensures { result ≡ state_by (life_of life.now).frames frame.0 r.now }
{
    if r.shares > 0 {
        FrameState::Active
    } else if is_read(r.request) {
        FrameState::BeingRead
    } else if has_request(r.request) {
        FrameState::BeingWritten
    } else if r.owner.is_none() {
        if is_zeroed {
            FrameState::Zeroed
        } else {
            FrameState::Free
        }
    } else if life.is_on_modified(frame) {
        FrameState::Modified
    } else {
        FrameState::Standby
    }
}

/// Writes what is told of a frame of which it is known whether it is on the zeroed list.
pub(crate) fn put_frame_words(
    life: &Life,
    frame: Frame,
    is_zeroed: bool,
    text: &mut Vec<u8>,
) -> Result<(), NoMemory>
    requires { is_zeroed ≡ is_on frame.0 (life_of life.now).frames.zeroed }
    ensures { OnOk result (text.new.items ≡ text.old.items
        ++ frame_words (life_of life.now).frames frame.0) }
{
    let r = life.record(frame);
    put_row(state_of(life, frame, &r, is_zeroed), &r, text)
}

/// Whether the frame is marked.
fn is_marked(marks: &[bool], frame: u32) -> bool
    ensures { result ≡ slice_index_or marks.now frame false }
{
    match marks.get(frame as usize) {
        Some(mark) => *mark,
        None => false,
    }
}

/// Writes the rows of all frames, where the zeroed ones are marked: one row for frames that follow
/// one another and are told in the same words.
pub(crate) fn put_frames(
    alloc: Global,
    life: &Life,
    zeroed: &[bool],
    text: &mut Vec<u8>,
) -> Result<(), NoMemory>
    requires { AreMarkedBelow zeroed.now (life_of life.now).machine.frames
        (life_of life.now).frames.zeroed }
    ensures { OnOk result (text.new.items ≡ text.old.items
        ++ frame_lines (life_of life.now).frames (life_of life.now).machine.frames) }
{
    let count = life.frames();
    if count == 0 {
        return Ok(());
    }
    let mut run = FrameRun::new(alloc, life, is_marked(zeroed, 0))?;
    for f in 1..count {
        run.take(life, Frame(f), is_marked(zeroed, f), text)?;
    }
    run.end(text)
}
