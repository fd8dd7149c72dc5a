ghost use Rattle.std.specs.Prelude.{◌≡◌, ℕ, ◌+◌, ◌^◌, ◌<◌, ◌≤◌, ◌==◌, true, false, length, OnOk};
ghost use Rattle.std.specs.Prelude.{OnErr, slice_set};
ghost use Rattle.mm_move_classes.specs.Marks.{no_marks, marks_after, with_frame, mark_at, unmarked};
ghost use Rattle.mm_move_classes.specs.Marks.{AreMarkedBefore};

use mm_types::{Frame, Move, NoMemory};
use std::alloc::Global;

/// What is remembered of a frame.
#[derive(Clone, Copy, PartialEq, Eq)]
pub(crate) struct FrameMark {
    /// The line that brought the frame in last, 0 for none.
    line: u64,
    /// Whether its page was read in, and neither made valid nor replaced by a new one since.
    has_arrived: bool,
}

/// Which frames were brought in, by the line that stands, and by reads of pages that were not
/// used since. Each frame is marked with the line that brought it in, so that a new line takes no
/// time. Memory is in proportion to the frames.
#[derive(Drop)]
pub struct Marks {
    /// The line, counted from 1.
    line: u64,
    frames: Vec<FrameMark>,
    ghost earlier: { AreMarkedBefore line frames.items },
}

/// The mark of a frame.
fn mark_of(frames: &[FrameMark], frame: Frame) -> FrameMark
    ensures { result ≡ mark_at frames.now frame.0 }
{
    match frames.get(frame.0 as usize) {
        Some(mark) => *mark,
        None => FrameMark {
            line: 0,
            has_arrived: false,
        },
    }
}

/// Makes room for the mark of a frame.
#[tactic(auto, using(crate::proofs::Marked::marked))]
fn reach(frames: &mut Vec<FrameMark>, frame: Frame) -> Result<(), NoMemory>
    ensures same { (f : ℕ) → mark_at frames.new.items f ≡ mark_at frames.old.items f }
    ensures ok { OnOk result (frame.0 < length frames.new.items) }
{
    let needed = frame.0 as usize + 1;
    if frames.len() < needed {
        frames.resize(
            needed,
            FrameMark {
                line: 0,
                has_arrived: false,
            },
        )?;
    }
    Ok(())
}

/// Sets the mark of a frame for which there is room.
fn set_mark(frames: &mut Vec<FrameMark>, frame: Frame, mark: FrameMark)
    requires { frame.0 < length frames.old.items }
    ensures { frames.new.items ≡ slice_set frames.old.items frame.0 mark }
{
    frames[frame.0 as usize] = mark;
}

#[tactic(auto, using(crate::proofs::Marked::marked))]
impl Marks {
    ghost use Rattle.mm_move_classes.specs.Marking.{marks_of};

    /// No frame was brought in.
    pub fn new(alloc: Global) -> Marks
        ensures { marks_of result ≡ no_marks }
    {
        Marks {
            line: 1,
            frames: Vec::new(alloc),
        }
    }

    /// Whether a frame was given or read in since the line began.
    pub fn is_fresh(&self, frame: Frame) -> bool
        ensures { result ≡ (marks_of self.now).fresh frame.0 }
    {
        mark_of(&self.frames, frame).line == self.line
    }

    /// Whether the page of a frame was read in, and not made valid since.
    pub fn has_arrived(&self, frame: Frame) -> bool
        ensures { result ≡ (marks_of self.now).arrived frame.0 }
    {
        mark_of(&self.frames, frame).has_arrived
    }

    /// Takes the next move. Out of memory comes where there is no room for the mark of its frame,
    /// or the lines can no longer be counted; then nothing has changed.
    pub fn follow(&mut self, m: &Move) -> Result<(), NoMemory>
        ensures ok { OnOk result (marks_of self.new ≡ marks_after (marks_of self.old) m.now) }
        ensures err { OnErr result (marks_of self.new ≡ marks_of self.old) }
    {
        match *m {
            Move::At(_, _) => self.begin_line(),
            Move::Give(frame, _) => self.bring(frame, false),
            Move::Got(frame) => self.bring(frame, true),
            Move::Map(frame, _) => {
                self.use_page(frame);
                Ok(())
            }
            _ => Ok(()),
        }
    }

    /// A line begins.
    fn begin_line(&mut self) -> Result<(), NoMemory>
        ensures ok { OnOk result (marks_of self.new
            ≡ record (marks_of self.old) { fresh = λ _. false }) }
        ensures err { OnErr result (marks_of self.new ≡ marks_of self.old) }
    {
        if self.line == u64::MAX {
            return Err(NoMemory);
        }
        self.line += 1;
        Ok(())
    }

    /// The line brings a frame in, by a read or with a new page.
    fn bring(&mut self, frame: Frame, has_arrived: bool) -> Result<(), NoMemory>
        ensures ok { OnOk result (marks_of self.new ≡ record {
          fresh = with_frame (marks_of self.old).fresh frame.0 true;
          arrived = with_frame (marks_of self.old).arrived frame.0 has_arrived;
        }) }
        ensures err { OnErr result (marks_of self.new ≡ marks_of self.old) }
    {
        reach(&mut self.frames, frame)?;
        set_mark(
            &mut self.frames,
            frame,
            FrameMark {
                line: self.line,
                has_arrived,
            },
        );
        Ok(())
    }

    /// The page of a frame is made valid.
    fn use_page(&mut self, frame: Frame)
        ensures { marks_of self.new ≡ record (marks_of self.old) {
          arrived = with_frame (marks_of self.old).arrived frame.0 false;
        } }
    {
        let mark = mark_of(&self.frames, frame);
        if mark.has_arrived {
            set_mark(
                &mut self.frames,
                frame,
                FrameMark {
                    has_arrived: false,
                    ..mark
                },
            );
        }
    }
}
