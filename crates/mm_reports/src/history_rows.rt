#![tactic(auto, using(mm_text::proofs::DigitCounts::joined))]

ghost use Rattle.std.specs.Prelude.{◌≡◌, ◌++◌, ◌∷◌, [], OnOk, IfOk, codes};
ghost use Rattle.mm_types.specs.{decimal};
ghost use Rattle.mm_replay.specs.Standing.{life as life_of};
ghost use Rattle.mm_text.specs.{left_in};
ghost use Rattle.mm_reports.specs.Histories.{frame_state_before, change_text, row_text, history_row};
ghost use Rattle.mm_reports.specs.HistoryRest.{noted, waiting_row};

use crate::subjects::{Subject, is_about};
use mm_log_walk::Classed;
use mm_move_classes::Class;
use mm_replay::Life;
use mm_sentences::{Facts, FrameState, facts_of, put_sentence, put_state, put_words, state_of};
use mm_text::{LineBuf, put_decimal, put_left};
use mm_types::{Frame, Move, NoMemory};
use std::alloc::Global;

/// What has to be known of a move before it is made.
#[derive(Clone, Copy)]
pub(crate) struct Noted {
    pub(crate) line: u32,
    pub(crate) facts: Facts,
    /// The state of its frame, if it has one.
    pub(crate) was: Option<FrameState>,
}

fn frame_state_before(life: &Life, frame: Option<Frame>) -> Option<FrameState>
    ensures { result ≡ frame_state_before (life_of life.now) frame }
{
    match frame {
        None => None,
        Some(frame) => Some(state_of(life, frame)),
    }
}

/// Takes note of a move that comes in this state.
pub(crate) fn note(life: &Life, m: &Move) -> Noted
    ensures { result ≡ noted (life_of life.now) m.now }
{
    let facts = facts_of(life, m);
    Noted {
        line: life.line(),
        facts,
        was: frame_state_before(life, facts.frame),
    }
}

/// Writes the state of a frame before a move and after it, if the move has a frame.
fn put_change(
    was: Option<FrameState>,
    frame: Option<Frame>,
    after: &Life,
    text: &mut Vec<u8>,
) -> Result<(), NoMemory>
    ensures { OnOk result (text.new.items
        ≡ text.old.items ++ change_text was frame (life_of after.now)) }
{
    match (was, frame) {
        (Some(was), Some(frame)) => {
            put_state(was, text)?;
            put_words(b" -> ", text)?;
            put_state(state_of(after, frame), text)
        }
        _ => Ok(()),
    }
}

/// The same as a text.
fn change_of(
    alloc: Global,
    was: Option<FrameState>,
    frame: Option<Frame>,
    after: &Life,
) -> Result<Vec<u8>, NoMemory>
    ensures { IfOk result (λ v. v.items ≡ change_text was frame (life_of after.now)) }
{
    let mut change = Vec::new(alloc);
    put_change(was, frame, after, &mut change)?;
    Ok(change)
}

/// Writes the line of a move, and what became of its frame.
fn put_front(line: u32, change: &[u8], text: &mut Vec<u8>) -> Result<(), NoMemory>
    ensures { OnOk result (text.new.items ≡ text.old.items
        ++ (codes "line " ++ (left_in 7 (decimal line) ++ (32 ∷ [] ++ left_in 26 change.now)))) }
{
    let mut number = LineBuf::new();
    put_decimal(&mut number, u64::from(line));
    put_words(b"line ", text)?;
    put_left(7, number.as_slice(), text)?;
    put_words(b" ", text)?;
    put_left(26, change, text)
}

/// Writes the row of a move of this class.
fn put_row(
    alloc: Global,
    x: &Noted,
    class: Class,
    after: &Life,
    text: &mut Vec<u8>,
) -> Result<(), NoMemory>
    ensures { OnOk result (text.new.items
        ≡ text.old.items ++ row_text x.now.line x.now.was class x.now.facts (life_of after.now)) }
{
    let change = change_of(alloc, x.was, x.facts.frame, after)?;
    put_front(x.line, change.as_slice(), text)?;
    put_words(b" ", text)?;
    put_sentence(class, &x.facts, false, after, text)?;
    put_words(b"\n", text)
}

/// Writes the row of a move, if it is about the subject and begins no line.
fn put_row_of(
    alloc: Global,
    subject: Subject,
    x: &Noted,
    class: Option<Class>,
    after: &Life,
    text: &mut Vec<u8>,
) -> Result<(), NoMemory>
    ensures { OnOk result (text.new.items ≡ text.old.items
        ++ history_row subject x.now.line x.now.was class x.now.facts (life_of after.now)) }
{
    match class {
        None => Ok(()),
        Some(class) => {
            if is_about(subject, &x.facts) {
                put_row(alloc, x, class, after, text)
            } else {
                Ok(())
            }
        }
    }
}

/// Writes the row of the move that waited for its class, if there is one.
pub(crate) fn put_waiting(
    alloc: Global,
    subject: Subject,
    waiting: &Option<Noted>,
    classed: Option<Classed>,
    after: &Life,
    text: &mut Vec<u8>,
) -> Result<(), NoMemory>
    ensures { OnOk result (text.new.items ≡ text.old.items
        ++ waiting_row subject waiting.now classed (life_of after.now)) }
{
    match (waiting, classed) {
        (Some(x), Some(classed)) => put_row_of(alloc, subject, x, classed.class, after, text),
        _ => Ok(()),
    }
}
