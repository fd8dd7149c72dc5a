ghost use Rattle.std.specs.Prelude.{◌≡◌, ◌++◌, ◌∷◌, [], Bool, List, OnOk, true, if◌then◌else◌};
ghost use Rattle.mm_types.specs.{Move};
ghost use Rattle.mm_move_rules.specs.{unstarted};
ghost use Rattle.mm_replay.specs.Standing.{life as life_of};
ghost use Rattle.mm_reports.specs.Histories.{history, frame_history, key_history, end_text, history_head};
ghost use Rattle.mm_csv.specs.{head_left};
ghost use Rattle.mm_reports.specs.HistoryRest.{history_rest};
ghost use Rattle.mm_sentences.specs.{why_not};

use crate::heads::{put_end, put_head, put_head_alone};
use crate::history_rows::{Noted, note, put_waiting};
use crate::subjects::Subject;
use mm_log_walk::{Classifier, Teller};
use mm_replay::Life;
use mm_sentences::put_why;
use mm_types::{Key, Move, NoMemory};
use std::alloc::Global;

/// Writes the head of a log with this first move, unless it stands.
fn put_head_left(
    begun: bool,
    subject: Subject,
    m: &Move,
    text: &mut Vec<u8>,
) -> Result<(), NoMemory>
    ensures { OnOk result ((ms : List Move) → text.new.items
        ≡ text.old.items ++ head_left begun (history_head subject (m.now ∷ ms))) }
{
    if begun {
        Ok(())
    } else {
        put_head(subject, m, text)
    }
}

/// Writes the head of a log without moves, unless a move came.
fn put_empty_head_left(begun: bool, subject: Subject, text: &mut Vec<u8>) -> Result<(), NoMemory>
    ensures { OnOk result (text.new.items ≡ text.old.items ++ head_left begun (history_head subject [])) }
{
    if begun {
        Ok(())
    } else {
        put_head_alone(subject, text)
    }
}

/// Tells what became of a page frame, or of a page.
#[derive(Drop)]
pub struct HistoryTeller {
    alloc: Global,
    subject: Subject,
    /// Whether the head stands.
    begun: bool,
    /// What was noted of the move that waits for its class.
    waiting: Option<Noted>,
    classifier: Classifier,
}

impl HistoryTeller {
    /// A teller at the beginning of a log, which tells the history of this frame or page.
    pub fn new(alloc: Global, subject: Subject) -> HistoryTeller
        ensures { (whole : Bool) (moves : List Move)
            → history_rest result whole unstarted moves ≡ history subject whole moves }
    {
        HistoryTeller {
            alloc,
            subject,
            begun: false,
            waiting: None,
            classifier: Classifier::new(alloc),
        }
    }

    /// The history of the page frame of this number.
    pub fn of_frame(alloc: Global, n: u32) -> HistoryTeller
        ensures { (whole : Bool) (moves : List Move)
            → history_rest result whole unstarted moves ≡ frame_history n whole moves }
    {
        HistoryTeller::new(alloc, Subject::Frame(n))
    }

    /// The history of a page.
    pub fn of_key(alloc: Global, key: Key) -> HistoryTeller
        ensures { (whole : Bool) (moves : List Move)
            → history_rest result whole unstarted moves ≡ key_history key whole moves }
    {
        HistoryTeller::new(alloc, Subject::Page(key))
    }
}

/// Writes how the subject stands at the end, if the log is whole.
fn put_end_of(
    subject: Subject,
    whole: bool,
    life: &Life,
    text: &mut Vec<u8>,
) -> Result<(), NoMemory>
    ensures { OnOk result (text.new.items ≡ text.old.items
        ++ (if whole then end_text subject (life_of life.now) else [])) }
{
    if whole {
        put_end(subject, life, text)
    } else {
        Ok(())
    }
}

impl Teller for HistoryTeller {
    ghost rest = { history_rest };

    ghost counted = { λ t. 0 };

    ghost why = { why_not };

    fn take(&mut self, life: &Life, m: &Move, text: &mut Vec<u8>) -> Result<(), NoMemory> {
        put_head_left(self.begun, self.subject, m, text)?;
        self.begun = true;
        let classed = self.classifier.next(life, m)?;
        put_waiting(self.alloc, self.subject, &self.waiting, classed, life, text)?;
        self.waiting = Some(note(life, m));
        Ok(())
    }

    #[tactic(auto, using(mm_text::proofs::DigitCounts::joined))]
    fn finish(&mut self, whole: bool, life: &Life, text: &mut Vec<u8>) -> Result<(), NoMemory> {
        put_empty_head_left(self.begun, self.subject, text)?;
        let last = self.classifier.last();
        put_waiting(self.alloc, self.subject, &self.waiting, last, life, text)?;
        put_end_of(self.subject, whole, life, text)
    }

    fn tell_why(&self, life: &Life, m: &Move, text: &mut Vec<u8>) -> Result<(), NoMemory> {
        put_why(life, m, text)
    }
}
