#![tactic(auto, using(mm_text::proofs::DigitCounts::joined))]

ghost use Rattle.std.specs.Prelude.{◌≡◌, ◌++◌, ◌∷◌, [], List, OnOk, codes};
ghost use Rattle.mm_types.specs.{Move};
ghost use Rattle.mm_replay.specs.Standing.{life as life_of};
ghost use Rattle.mm_sentences.specs.{frame_row};
ghost use Rattle.mm_reports.specs.{machine_frames, history_head, held_words, end_text};

use crate::subjects::Subject;
use mm_replay::Life;
use mm_sentences::{put_counted, put_frame_row, put_key, put_numbered, put_words};
use mm_types::{Frame, Held, Key, LineKind, Move, NoMemory};

/// The frames of the machine that a log with this first move has.
fn machine_frames(m: &Move) -> u32
    ensures { (ms : List Move) → result ≡ machine_frames (m.now ∷ ms) }
{
    match *m {
        Move::At(_, LineKind::Machine(frames, _, _, _)) => frames,
        _ => 0,
    }
}

/// Writes what stands above the rows of a log with this first move.
pub(crate) fn put_head(subject: Subject, m: &Move, text: &mut Vec<u8>) -> Result<(), NoMemory>
    ensures { OnOk result ((ms : List Move) → text.new.items
        ≡ text.old.items ++ history_head subject (m.now ∷ ms)) }
{
    match subject {
        Subject::Frame(n) => {
            if n < machine_frames(m) {
                put_numbered(b"frame ", u64::from(n), b"\n", text)
            } else {
                Ok(())
            }
        }
        Subject::Page(key) => {
            put_words(b"page ", text)?;
            put_key(key, text)?;
            put_words(b"\n", text)
        }
    }
}

/// Writes what stands above the rows of a log without moves.
pub(crate) fn put_head_alone(subject: Subject, text: &mut Vec<u8>) -> Result<(), NoMemory>
    ensures { OnOk result (text.new.items ≡ text.old.items ++ history_head subject []) }
{
    match subject {
        Subject::Frame(_) => Ok(()),
        Subject::Page(key) => {
            put_words(b"page ", text)?;
            put_key(key, text)?;
            put_words(b"\n", text)
        }
    }
}

fn put_held(held: Held, text: &mut Vec<u8>) -> Result<(), NoMemory>
    ensures { OnOk result (text.new.items ≡ text.old.items ++ held_words held) }
{
    match held {
        Held::Frame(frame) => put_counted(b"frame ", u64::from(frame.0), text),
        Held::Slot(slot) => put_counted(b"slot ", u64::from(slot.0), text),
        Held::Block(block) => put_counted(b"block ", u64::from(block.0), text),
        Held::Zero => put_words(b"zero", text),
        Held::Dead => put_words(b"dead", text),
    }
}

/// Writes how a frame stands at the end.
fn put_standing(n: u32, life: &Life, text: &mut Vec<u8>) -> Result<(), NoMemory>
    ensures { OnOk result (text.new.items ≡ text.old.items
        ++ (codes "at the end: " ++ (frame_row (life_of life.now) n ++ 10 ∷ []))) }
{
    put_words(b"at the end: ", text)?;
    put_frame_row(life, Frame(n), text)?;
    put_words(b"\n", text)?;
    Ok(())
}

/// The same, if there is such a frame.
fn put_frame_end(n: u32, life: &Life, text: &mut Vec<u8>) -> Result<(), NoMemory>
    ensures { OnOk result (text.new.items
        ≡ text.old.items ++ end_text (Subject.Frame n) (life_of life.now)) }
{
    if n < life.frames() {
        put_standing(n, life, text)
    } else {
        Ok(())
    }
}

/// Writes where a page stands at the end.
fn put_page_end(key: Key, life: &Life, text: &mut Vec<u8>) -> Result<(), NoMemory>
    ensures { OnOk result (text.new.items
        ≡ text.old.items ++ end_text (Subject.Page key) (life_of life.now)) }
{
    let held = life.held(key);
    put_words(b"at the end: ", text)?;
    put_held(held, text)?;
    put_words(b"\n", text)?;
    Ok(())
}

/// Writes how the subject stands at the end of a log.
pub(crate) fn put_end(subject: Subject, life: &Life, text: &mut Vec<u8>) -> Result<(), NoMemory>
    ensures { OnOk result (text.new.items
        ≡ text.old.items ++ end_text subject (life_of life.now)) }
{
    match subject {
        Subject::Frame(n) => put_frame_end(n, life, text),
        Subject::Page(key) => put_page_end(key, life, text),
    }
}
