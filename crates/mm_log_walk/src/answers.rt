ghost use Rattle.std.specs.Prelude.{◌≡◌, ◌≤◌, ◌++◌, ◌∷◌, [], length, codes, OnOk};
ghost use Rattle.mm_types.specs.{Rose, decimal};
ghost use Rattle.mm_move_rules.specs.{unstarted, numbered};
ghost use Rattle.mm_replay.specs.Standing.{life as life_of};
ghost use Rattle.mm_io.specs.{sink_seen};
ghost use Rattle.mm_log_check.specs.{ReadsLog, WritesText};
ghost use Rattle.mm_log_walk.specs.{is_broken, ends_well, closing_status, close_words, refused_words, said_from_first, Answers, IsBroken, beside};

use crate::closings::Closing;
use crate::lines::Lines;
use crate::replays::tell_log;
use crate::seeking::{Sought, put_lacking, sought_status};
use crate::tellers::Teller;
use mm_io::{Sink, Source};
use mm_log_check::{Ending, write_flushed};
use mm_replay::Life;
use mm_text::{LineBuf, put_decimal};
use mm_types::{Failed, Move, NoMemory};
use std::alloc::Global;

/// The status where memory was refused.
const NO_MEMORY: u8 = 1;

/// The status where a write failed.
const OUT_FAULT: u8 = 5;

fn status_of(closing: Closing, sought: Sought, life: &Life) -> u8
    ensures { result ≡ closing_status sought (life_of life.now) closing }
{
    match closing {
        Closing::Ended(Ending::Yes) => sought_status(sought, life),
        Closing::Ended(Ending::No(_, _)) => 3,
        Closing::Ended(Ending::TooLong) => 8,
        Closing::Ended(Ending::ReadFault) => 4,
        Closing::Ended(Ending::NoMemory) => 1,
        Closing::Misfit(_) => 6,
        Closing::Answer(_) => 6,
        Closing::Surplus(_) => 6,
        Closing::OutFault => 5,
    }
}

fn ends_well(closing: Closing) -> bool
    ensures { result ≡ ends_well closing }
{
    match closing {
        Closing::Ended(Ending::Yes) => true,
        _ => false,
    }
}

fn is_broken(closing: Closing) -> bool
    ensures { result ≡ is_broken closing }
{
    match closing {
        Closing::Ended(Ending::NoMemory) => true,
        Closing::OutFault => true,
        _ => false,
    }
}

/// Writes some words and a number.
#[tactic(auto, using(mm_text::proofs::DigitCounts::joined))]
fn put_number(words: &[u8], n: u64, text: &mut Vec<u8>) -> Result<(), NoMemory>
    requires { length words.now ≤ 20 }
    ensures { OnOk result (text.new.items ≡ text.old.items ++ (words.now ++ decimal n)) }
{
    let mut line = LineBuf::new();
    line.push_slice(words);
    put_decimal(&mut line, n);
    text.extend_from_slice(line.as_slice())?;
    Ok(())
}

/// Writes some words, a number and a line feed.
#[tactic(auto, using(mm_text::proofs::DigitCounts::joined))]
pub(crate) fn put_numbered(words: &[u8], n: u64, text: &mut Vec<u8>) -> Result<(), NoMemory>
    requires { length words.now ≤ 20 }
    ensures { OnOk result (text.new.items ≡ text.old.items ++ numbered words.now n (10 ∷ [])) }
{
    let mut line = LineBuf::new();
    line.push_slice(words);
    put_decimal(&mut line, n);
    line.push(b'\n');
    text.extend_from_slice(line.as_slice())?;
    Ok(())
}

/// Writes why the move that a bad line spells is not legal, where the line spells one.
fn put_refused<T: Teller>(
    refused: Option<Move>,
    life: &Life,
    teller: &T,
    text: &mut Vec<u8>,
) -> Result<(), NoMemory>
    ensures { OnOk result (text.new.items ≡ text.old.items
        ++ refused_words T.why (life_of life.now) refused) }
{
    match refused {
        Some(m) => teller.tell_why(life, &m, text),
        None => Ok(()),
    }
}

/// Writes the number of a bad line, and what is wrong with it.
#[tactic(auto, using(mm_text::proofs::DigitCounts::joined))]
fn put_bad_line<T: Teller>(
    line: u64,
    refused: Option<Move>,
    life: &Life,
    teller: &T,
    text: &mut Vec<u8>,
) -> Result<(), NoMemory>
    ensures { OnOk result (text.new.items ≡ text.old.items
        ++ numbered (codes "no line ") line (refused_words T.why (life_of life.now) refused
        ++ 10 ∷ [])) }
{
    put_number(b"no line ", line, text)?;
    put_refused(refused, life, teller, text)?;
    text.push(b'\n')?;
    Ok(())
}

/// Writes what the log lacks, or where it, the script or an answer is bad.
fn put_close<T: Teller>(
    closing: Closing,
    sought: Sought,
    life: &Life,
    teller: &T,
    text: &mut Vec<u8>,
) -> Result<(), NoMemory>
    ensures { OnOk result (text.new.items ≡ text.old.items
        ++ close_words sought T.why (life_of life.now) closing) }
{
    match closing {
        Closing::Ended(Ending::Yes) => put_lacking(sought, life, text),
        Closing::Ended(Ending::No(line, refused)) => {
            put_bad_line(line, refused, life, teller, text)
        }
        Closing::Misfit(line) => put_numbered(b"script line ", u64::from(line), text),
        Closing::Answer(line) => put_numbered(b"answer line ", line, text),
        Closing::Surplus(line) => put_numbered(b"answer line ", line, text),
        Closing::Ended(Ending::TooLong) => {
            text.extend_from_slice(b"too long\n")?;
            Ok(())
        }
        _ => Ok(()),
    }
}

/// Writes what is left to write once a log was told.
fn put_end<T: Teller>(
    closing: Closing,
    sought: Sought,
    life: &Life,
    teller: &mut T,
    text: &mut Vec<u8>,
) -> Result<(), NoMemory>
    ensures { OnOk result (text.new.items
        ≡ (text.old.items ++ T.rest teller.old (ends_well closing) (life_of life.now) [])
        ++ close_words sought T.why (life_of life.now) closing) }
{
    teller.finish(ends_well(closing), life, text)?;
    put_close(closing, sought, life, teller, text)
}

/// Tells a log with a state before its first move.
fn told_on<S: Source, T: Teller, O: Sink>(
    life: &mut Life,
    alloc: Global,
    script: &Option<Lines>,
    answers: &Option<Lines>,
    sought: Sought,
    log: &mut S,
    teller: &mut T,
    out: &mut O,
) -> u8
    requires life { life_of life.old ≡ unstarted }
    requires counted { T.counted teller.old ≡ 0 }
    ensures answers { Answers (S.left log.old) (S.left log.new) (O.taken out.old) (O.taken out.new)
        (beside script.now answers.now) sought (said_from_first (T.rest teller.old)) T.why result }
    ensures source { ReadsLog (S.faults log.old) (S.faults log.new) result }
    ensures read_fault { result ≡ 4 → Rose (S.faults log.old) (S.faults log.new) }
    ensures sink { WritesText IsBroken (sink_seen O.Sink out.old) (sink_seen O.Sink out.new)
        result }
{
    let mut text = Vec::new(alloc);
    let closing = tell_log(life, script, answers, log, teller, &mut text, out);
    if is_broken(closing) {
        return status_of(closing, sought, life);
    }
    match put_end(closing, sought, life, teller, &mut text) {
        Ok(()) => {}
        Err(NoMemory) => return NO_MEMORY,
    }
    match write_flushed(out, text.as_slice()) {
        Ok(()) => status_of(closing, sought, life),
        Err(Failed) => OUT_FAULT,
    }
}

/// Tells a log: writes its text to `out`, in pieces of some 32 KiB while the log is read, and
/// flushes it. The status is 0 where the log replays, fits the script and its answers and has what is
/// sought, 1 where memory was refused, 3 where a line is no legal move, 4 where a read failed, 5
/// where a write failed, 6 where the script or the answers do not fit or the log has not what is
/// sought, 8 where the log is too long. With 1 and 5 a front of the text was written.
pub fn answered<S: Source, T: Teller, O: Sink>(
    alloc: Global,
    script: &Option<Lines>,
    answers: &Option<Lines>,
    sought: Sought,
    log: &mut S,
    teller: &mut T,
    out: &mut O,
) -> u8
    requires { T.counted teller.old ≡ 0 }
    ensures answers { Answers (S.left log.old) (S.left log.new) (O.taken out.old) (O.taken out.new)
        (beside script.now answers.now) sought (said_from_first (T.rest teller.old)) T.why result }
    ensures source { ReadsLog (S.faults log.old) (S.faults log.new) result }
    ensures read_fault { result ≡ 4 → Rose (S.faults log.old) (S.faults log.new) }
    ensures sink { WritesText IsBroken (sink_seen O.Sink out.old) (sink_seen O.Sink out.new)
        result }
{
    let mut life = Life::new(alloc);
    told_on(&mut life, alloc, script, answers, sought, log, teller, out)
}
