ghost use Rattle.std.specs.Prelude.{◌≡◌, ◌+◌, ◌++◌, ℕ, suc, OnOk, IfOk};
ghost use Rattle.mm_move_rules.specs.{is_on};
ghost use Rattle.mm_replay.specs.Standing.{life as life_of};
ghost use Rattle.mm_reports.specs.{frame_words, frames_name, run_line, runs_from};

use crate::frames::put_frame_words;
use mm_replay::Life;
use mm_script::is_text;
use mm_sentences::{put_counted, put_words};
use mm_types::{Frame, NoMemory};
use std::alloc::Global;

/// Writes the numbers of a run of frames: `frame 3`, or `frames 3 to 60`.
#[tactic(auto, using(mm_text::proofs::DigitCounts::joined))]
fn put_name(first: u32, last: u32, text: &mut Vec<u8>) -> Result<(), NoMemory>
    ensures { OnOk result (text.new.items ≡ text.old.items ++ frames_name first last) }
{
    if first == last {
        return put_counted(b"frame ", u64::from(first), text);
    }
    put_counted(b"frames ", u64::from(first), text)?;
    put_counted(b" to ", u64::from(last), text)
}

/// Frames that follow one another and are told in the same words.
#[derive(Drop)]
pub(crate) struct FrameRun {
    first: u32,
    last: u32,
    words: Vec<u8>,
    /// Room for the words of the next frame.
    next: Vec<u8>,
}

impl FrameRun {
    /// The first frame of a machine, of which it is known whether it is on the zeroed list.
    pub(crate) fn new(alloc: Global, life: &Life, is_zeroed: bool) -> Result<FrameRun, NoMemory>
        requires { is_zeroed ≡ is_on 0 (life_of life.now).frames.zeroed }
        ensures first { IfOk result (λ r. r.first ≡ 0) }
        ensures last { IfOk result (λ r. r.last ≡ 0) }
        ensures words { IfOk result (λ r. r.words.items
            ≡ frame_words (life_of life.now).frames 0) }
    {
        let mut words = Vec::new(alloc);
        put_frame_words(life, Frame(0), is_zeroed, &mut words)?;
        Ok(FrameRun {
            first: 0,
            last: 0,
            words,
            next: Vec::new(alloc),
        })
    }

    /// Writes the row of the frames.
    #[tactic(auto, using(mm_text::proofs::DigitCounts::joined))]
    pub(crate) fn end(&self, text: &mut Vec<u8>) -> Result<(), NoMemory>
        ensures { OnOk result (text.new.items ≡ text.old.items
            ++ run_line self.now.first self.now.last self.now.words.items) }
    {
        put_name(self.first, self.last, text)?;
        put_words(b" ", text)?;
        put_words(self.words.as_slice(), text)?;
        put_words(b"\n", text)
    }

    /// Begins a run with a frame whose words are those in the room.
    fn begin(&mut self, frame: Frame) -> Result<(), NoMemory>
        ensures first { OnOk result (self.new.first ≡ frame.0) }
        ensures last { OnOk result (self.new.last ≡ frame.0) }
        ensures words { OnOk result (self.new.words.items ≡ self.old.next.items) }
    {
        self.words.clear();
        self.words.extend_from_slice(self.next.as_slice())?;
        self.first = frame.0;
        self.last = frame.0;
        Ok(())
    }

    /// Takes the frame behind the last, of which it is known whether it is on the zeroed list; if
    /// it is told in other words, the row of those before it is written.
    pub(crate) fn take(
        &mut self,
        life: &Life,
        frame: Frame,
        is_zeroed: bool,
        text: &mut Vec<u8>,
    ) -> Result<(), NoMemory>
        requires next { frame.0 ≡ self.old.last + 1 }
        requires zeroed { is_zeroed ≡ is_on frame.0 (life_of life.now).frames.zeroed }
        ensures last { OnOk result (self.new.last ≡ frame.0) }
        ensures rows { OnOk result ((count : ℕ) → text.new.items
            ++ runs_from (life_of life.now).frames self.new.first self.new.last
            self.new.words.items count
            ≡ text.old.items ++ runs_from (life_of life.now).frames self.old.first self.old.last
            self.old.words.items (suc count)) }
    {
        self.next.clear();
        put_frame_words(life, frame, is_zeroed, &mut self.next)?;
        if is_text(self.next.as_slice(), self.words.as_slice()) {
            self.last = frame.0;
            return Ok(());
        }
        self.end(text)?;
        self.begin(frame)
    }
}
