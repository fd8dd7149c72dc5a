ghost use Rattle.std.specs.Prelude.{◌≡◌, ℕ, ◌+◌, ◌^◌, ◌<◌, ◌≤◌, ◌==◌, ◌||◌, false, length, slice_index, OnOk};
ghost use Rattle.mm_log_check.specs.Marking.{has_mark};

use mm_types::NoMemory;
use std::alloc::Global;
use std::marker::Model;

/// The frames that were brought in since the line began: each frame is marked with the line in
/// which it was brought in last, so that a new line takes no time. Memory is in proportion to the
/// frames.
#[derive(Drop)]
pub(crate) struct Brought {
    /// The line, counted from 1.
    line: u64,
    /// For each frame its line, 0 for none.
    marks: Vec<u64>,
}

impl Model for Brought {
    ghost use Rattle.mm_log_check.specs.Marking.{LineMarksOf, AreEarlier};

    ghost Value = { LineMarksOf };

    ghost view = { λ b. record { line = b.line; marks = b.marks.items } };

    ghost invariant = { λ b. AreEarlier b.line b.marks.items };
}

/// Makes room for the mark of a frame.
fn reach(marks: &mut Vec<u64>, frame: usize) -> Result<(), NoMemory>
    requires { frame < 2 ^ 32 }
    ensures same { (f : ℕ) → slice_index marks.new.items f ≡ slice_index marks.old.items f }
    ensures ok { OnOk result (frame < length marks.new.items) }
{
    if frame >= marks.len() {
        marks.resize(frame + 1, 0)?;
    }
    Ok(())
}

#[tactic(auto, using(crate::proofs::Marked::marked))]
impl Brought {
    /// No frame was brought in.
    pub(crate) fn new(alloc: Global) -> Brought
        ensures none { (f : ℕ) → has_mark result f ≡ false }
        ensures line { result.line ≡ 1 }
    {
        Brought {
            line: 1,
            marks: Vec::new(alloc),
        }
    }

    /// Whether a frame was brought in since the line began.
    pub(crate) fn has(&self, frame: u32) -> bool
        ensures { result ≡ has_mark self.now frame }
    {
        match self.marks.get(frame as usize) {
            Some(line) => *line == self.line,
            None => false,
        }
    }

    /// A line begins.
    pub(crate) fn begin_line(&mut self)
        requires { self.old.line + 1 < 2 ^ 64 }
        ensures none { (f : ℕ) → has_mark self.new f ≡ false }
        ensures line { self.new.line ≡ self.old.line + 1 }
    {
        self.line += 1;
    }

    /// A frame is brought in.
    pub(crate) fn add(&mut self, frame: u32) -> Result<(), NoMemory>
        ensures ok { OnOk result ((f : ℕ) →
            has_mark self.new f ≡ ((frame == f) || has_mark self.old f)) }
        ensures line { self.new.line ≡ self.old.line }
    {
        reach(&mut self.marks, frame as usize)?;
        self.marks[frame as usize] = self.line;
        Ok(())
    }
}
