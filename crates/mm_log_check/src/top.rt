ghost use Rattle.std.specs.Prelude.{◌≡◌, ◌≢◌, ◌⊎◌, ◌≤◌, ◌<◌, ◌+◌, ◌++◌, ℕ, List, Option, Some, map, length, IfOk, IfSome, OnOk, string_bytes, is_err};
ghost use Rattle.mm_types.specs.{Appended, Move};
ghost use Rattle.mm_io.specs.{CountsFaults, Wrote, sink_seen};
ghost use Rattle.mm_move_rules.specs.{FrameLife, unstarted, IsSpelled, AreMoves, spelled_moves, Replays, counts_of_log};
ghost use Rattle.mm_log_check.specs.{Asked, Asks, IsForm, usage_text, yes_text, most_log_bytes, Shows, LogCheckRan, IsRefusedLog, IsStuck, IsFaultStatus};
ghost use Rattle.mm_log_check.specs.{SaysYes, SaysNo, Blames, WritesText};

use crate::checks::{Checker, check_log};
use crate::endings::{Asked, Ending};
use crate::texts::{status_of, text_of};
use mm_arguments::{Form, read_words};
use mm_io::{Sink, Source, write_all};
use mm_replay::read_key;
use mm_types::{Failed, NoMemory};
use std::alloc::Global;

/// The status of a run in which a write to `out` failed, or the flush after it.
const OUT_FAULT: u8 = 5;

/// The status of a run in which memory was refused.
const NO_MEMORY: u8 = 1;

/// What the words ask, where they are a form. A form is told by how many values it has.
/// An `Err` is memory that was refused.
fn asked(alloc: Global, words: &[String]) -> Result<Option<Asked>, NoMemory>
    ensures forms { IfOk result (λ r. IfSome r (Asks (map string_bytes words.now))) }
    ensures all { IfOk result (λ r. (a : Asked) →
        Asks (map string_bytes words.now) a → r ≡ Some a) }
{
    let forms = [
        Form {
            name: "check",
            least: 0,
            most: 0,
        },
        Form {
            name: "where",
            least: 1,
            most: 1,
        },
    ];
    let said = match read_words(alloc, &forms, words)? {
        Some(said) => said,
        None => return Ok(None),
    };
    match said.values.as_slice() {
        [] => Ok(Some(Asked::Check)),
        [key] => match read_key(key.as_bytes()) {
            Some(key) => Ok(Some(Asked::Where(key))),
            None => Ok(None),
        },
        _ => Ok(None),
    }
}

/// Writes a text and flushes it. Where the flush fails all of the text was taken.
pub fn write_flushed<O: Sink>(out: &mut O, text: &[u8]) -> Result<(), Failed>
    ensures wrote { Wrote (O.taken out.old) (O.taken out.new) text.now (is_err result) }
    ensures gave { OnOk result (O.given out.new ≡ O.taken out.new) }
    ensures cause { CountsFaults (O.faults out.old) (O.faults out.new) result }
{
    write_all(out, text)?;
    out.flush()
}

/// Writes the text, if any, and flushes it. Answers the status, or that of a write or flush that
/// failed.
#[tactic(auto, using(crate::proofs::Shown::shown))]
pub fn write_text<O: Sink>(out: &mut O, text: &[u8], status: u8) -> u8
    requires { status ≢ 5 }
    ensures shows { Shows (O.taken out.old) (O.taken out.new) text.now status result }
    ensures counts { Blames 5 (O.faults out.old) (O.faults out.new) result }
    ensures other { result ≢ 5 → result ≡ status }
    ensures gave { result ≢ 5 → 0 < length text.now → O.given out.new ≡ O.taken out.new }
{
    if text.is_empty() {
        return status;
    }
    match write_flushed(out, text) {
        Ok(()) => status,
        Err(Failed) => OUT_FAULT,
    }
}

/// Checks the log and answers what is asked.
fn answer<S: Source, O: Sink>(alloc: Global, asked: Asked, source: &mut S, out: &mut O) -> u8
    ensures ran { LogCheckRan asked (S.left source.old) (S.left source.new) (O.taken out.old)
        (O.taken out.new) result }
    ensures source { Blames 4 (S.faults source.old) (S.faults source.new) result }
    ensures sink { WritesText IsFaultStatus (sink_seen O.Sink out.old) (sink_seen O.Sink out.new)
        result }
    ensures no_usage { result ≢ 2 }
{
    let mut checker = Checker::new(alloc);
    let ending = check_log(&mut checker, source);
    let text = text_of(asked, ending, &checker);
    write_text(out, text.as_slice(), status_of(ending))
}

#[tactic(auto, using(crate::proofs::Exactly::exactly))]
/// Checks the log that the source gives, writes the answer to `out` and flushes it. The words are
/// `check`, or `where` and a key. The status is 0 where the log replays, 1 where memory was
/// refused, 2 where the words are no form, 3 where a line is no legal move, 4 and 5 where the
/// source and the sink failed, 8 where the log has more than 1,000,000,000,000 bytes.
pub fn run_log<S: Source, O: Sink>(
    alloc: Global,
    words: &[String],
    source: &mut S,
    out: &mut O,
) -> u8
    ensures ran { (a : Asked) → Asks (map string_bytes words.now) a →
        LogCheckRan a (S.left source.old) (S.left source.new)
        (O.taken out.old) (O.taken out.new) result }
    ensures yes { (a : Asked) (text : List ℕ) (moves : List Move) (l : FrameLife) →
        Asks (map string_bytes words.now) a → S.left source.old ≡ Some text →
        length text ≤ most_log_bytes
        → IsSpelled moves text → Replays moves unstarted l →
        SaysYes a moves l (O.taken out.old) (O.taken out.new) result ⊎ IsFaultStatus result }
    ensures no { (a : Asked) (text rest : List ℕ) (moves : List Move) (l : FrameLife) →
        Asks (map string_bytes words.now) a → S.left source.old ≡ Some text →
        length text ≤ most_log_bytes
        → AreMoves moves → text ≡ spelled_moves moves ++ rest → Replays moves unstarted l →
        IsStuck l rest → SaysNo (length moves + 1) (O.taken out.old) (O.taken out.new) result ⊎
        IsFaultStatus result }

    // Words that are no form are answered by the usage line, or memory was refused and nothing is
    // written. Nothing is read.
    ensures usage { (IsForm (map string_bytes words.now) → ⊥) →
        Shows (O.taken out.old) (O.taken out.new) usage_text 2 result
        ⊎ IsRefusedLog (O.taken out.old) (O.taken out.new) result }
    ensures unread { (IsForm (map string_bytes words.now) → ⊥) →
        S.left source.new ≡ S.left source.old }
    ensures form { IsForm (map string_bytes words.now) → result ≢ 2 }
    ensures source { Blames 4 (S.faults source.old) (S.faults source.new) result }
    ensures sink { WritesText IsFaultStatus (sink_seen O.Sink out.old) (sink_seen O.Sink out.new)
        result }
{
    match asked(alloc, words) {
        Ok(Some(asked)) => answer(alloc, asked, source, out),
        Ok(None) => write_text(out, b"usage: mmlog check | mmlog where KEY\n", 2),
        Err(NoMemory) => NO_MEMORY,
    }
}
