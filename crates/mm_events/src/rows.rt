ghost use Rattle.std.specs.Prelude.{◌≡◌, ◌++◌, ◌∷◌, [], OnOk};
ghost use Rattle.mm_types.specs.{decimal};
ghost use Rattle.mm_csv.specs.{csv_field, csv_next};
ghost use Rattle.mm_replay.specs.Standing.{life as life_of};
ghost use Rattle.mm_events.specs.Columns.{class_text, kind_word};
ghost use Rattle.mm_events.specs.Reasons.{reason_column};
ghost use Rattle.mm_events.specs.Events.{noted_as, event_row, class_row};
ghost use Rattle.mm_events.specs.EventRest.{waiting_event_row};

use crate::columns::{put_frame, put_page, state_in};
use crate::words::{class_text, kind_word, put_reason};
use mm_csv::{put_field, put_next};
use mm_log_walk::Classed;
use mm_move_classes::Class;
use mm_replay::Life;
use mm_sentences::{Facts, FrameState, facts_of};
use mm_text::{LineBuf, put_decimal};
use mm_transcripts::Reason;
use mm_types::{LineKind, Move, NoMemory};

/// What has to be known of a move before it is made.
#[derive(Clone, Copy)]
pub(crate) struct Noted {
    pub(crate) line: u32,
    pub(crate) kind: LineKind,
    pub(crate) facts: Facts,
    /// The state of its frame, if it has one.
    pub(crate) was: Option<FrameState>,
    /// How the page stood that leaves its working set, where ages are known.
    pub(crate) reason: Option<Reason>,
}

/// Takes note of a move that comes in this state.
pub(crate) fn note(life: &Life, m: &Move, reason: Option<Reason>) -> Noted
    ensures { result ≡ noted_as (life_of life.now) m.now reason }
{
    let facts = facts_of(life, m);
    Noted {
        line: life.line(),
        kind: life.kind(),
        facts,
        was: state_in(life, facts.frame),
        reason,
    }
}

/// Writes the line, its kind and what happened.
#[tactic(auto, using(mm_sentences::proofs::Joined::joined))]
fn put_front(x: &Noted, class: Class, text: &mut Vec<u8>) -> Result<(), NoMemory>
    ensures { OnOk result (text.new.items ≡ text.old.items ++ (csv_field (decimal x.now.line)
        ++ (csv_next (kind_word x.now.kind) ++ csv_next (class_text class)))) }
{
    let mut number = LineBuf::new();
    put_decimal(&mut number, u64::from(x.line));
    put_field(number.as_slice(), text)?;
    put_next(kind_word(x.kind), text)?;
    put_next(class_text(class), text)
}

/// Writes why it happened, and the end of the row.
#[tactic(auto, using(mm_sentences::proofs::Joined::joined))]
fn put_back(x: &Noted, class: Class, room: &mut Vec<u8>, text: &mut Vec<u8>) -> Result<(), NoMemory>
    ensures { OnOk result (text.new.items ≡ text.old.items
        ++ (csv_next (reason_column class x.now.facts x.now.reason) ++ 10 ∷ [])) }
{
    room.clear();
    put_reason(class, &x.facts, &x.reason, room)?;
    put_next(room.as_slice(), text)?;
    text.push(b'\n')?;
    Ok(())
}

/// Writes the row of a move of this class.
fn put_row(
    x: &Noted,
    class: Class,
    after: &Life,
    room: &mut Vec<u8>,
    text: &mut Vec<u8>,
) -> Result<(), NoMemory>
    ensures { OnOk result (text.new.items
        ≡ text.old.items ++ event_row x.now class (life_of after.now)) }
{
    put_front(x, class, text)?;
    put_page(&x.facts, x.kind, text)?;
    put_frame(&x.facts, x.was, after, room, text)?;
    put_back(x, class, room, text)?;
    Ok(())
}

/// Writes the row of a move, unless it begins a line.
fn put_class_row(
    x: &Noted,
    class: Option<Class>,
    after: &Life,
    room: &mut Vec<u8>,
    text: &mut Vec<u8>,
) -> Result<(), NoMemory>
    ensures { OnOk result (text.new.items
        ≡ text.old.items ++ class_row x.now class (life_of after.now)) }
{
    match class {
        Some(class) => put_row(x, class, after, room, text),
        None => Ok(()),
    }
}

/// Writes the row of the move that waited for its class, if there is one.
pub(crate) fn put_waiting(
    waiting: &Option<Noted>,
    classed: Option<Classed>,
    after: &Life,
    room: &mut Vec<u8>,
    text: &mut Vec<u8>,
) -> Result<(), NoMemory>
    ensures { OnOk result (text.new.items
        ≡ text.old.items ++ waiting_event_row waiting.now classed (life_of after.now)) }
{
    match (waiting, classed) {
        (Some(x), Some(classed)) => put_class_row(x, classed.class, after, room, text),
        _ => Ok(()),
    }
}
