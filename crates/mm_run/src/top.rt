ghost use Rattle.std.specs.Prelude.{◌≡◌, ◌≢◌, ◌≤◌, ◌+◌, ◌⊎◌, true, false, ℕ, List, Some, length, ◌++◌};
ghost use Rattle.mm_types.specs.{decimal};
ghost use Rattle.mm_io.specs.{CountsFaults};
ghost use Rattle.mm_run.specs.{IsScriptOf, IsComplete, IsFault, IsRunForm, RanOrRefused, ToldText, last_text, Closed, is_over, IsAccounted, IsBulk};
ghost use Rattle.mm_run.specs.{IsNoBulk, BulkRanOrRefused, counts_seen, open_failed, seen};
ghost use Rattle.mm_io.specs.{sink_seen};
ghost use Rattle.mm_generate.specs.{script_of};

use crate::answers::Kept;
use crate::bulk::bulk;
use crate::endings::Ending;
use crate::forms::{WordsForm, words_form};
use crate::machines::decide_all;
use mm_devices::BlockDevice;
use mm_io::{Sink, Source, write_all};
use mm_text::{LineBuf, put_decimal};
use mm_types::{Failed, NoMemory};
use std::alloc::Global;

/// Writes a number in decimal.
pub(crate) fn put_number(out: &mut LineBuf, n: u32)
    requires given { length out.old ≤ 200 }
    ensures number { out.new ≡ out.old ++ decimal n }
    ensures few { length out.new ≤ length out.old + 10 }
{
    put_decimal(out, n as u64);
}

/// The text after the answers.
fn spell_last(ending: Ending) -> LineBuf
    ensures { result ≡ last_text ending }
{
    let mut text = LineBuf::new();
    match ending {
        Ending::Usage => text.push_slice(b"usage: mmsim run | mmsim bulk SEED COUNT\n"),
        Ending::Script(line, column) => {
            text.push_slice(b"bad line ");
            put_number(&mut text, line);
            text.push_slice(b" column ");
            put_number(&mut text, column);
            text.push(b'\n');
        }
        Ending::TooLong(line) => {
            text.push_slice(b"too long line ");
            put_number(&mut text, line);
            text.push(b'\n');
        }
        _ => {}
    }
    text
}

/// Writes one text and then another, and has the sink give all on.
pub(crate) fn write_both<O: Sink>(out: &mut O, first: &[u8], second: &[u8]) -> Result<(), Failed>
    ensures told { ToldText result (O.taken out.old) (O.taken out.new) (O.given out.new)
        (first.now ++ second.now) }
    ensures cause { CountsFaults (O.faults out.old) (O.faults out.new) result }
{
    write_all(out, first)?;
    write_all(out, second)?;
    out.flush()
}

/// Writes the answers that are kept and the last text, and has the sink give all on.
fn tell_end<O: Sink>(kept: &Kept, out: &mut O, ending: Ending) -> Result<(), Failed>
    ensures told { ToldText result (O.taken out.old) (O.taken out.new) (O.given out.new)
        (kept.now ++ last_text ending) }
    ensures cause { CountsFaults (O.faults out.old) (O.faults out.new) result }
{
    let text = spell_last(ending);
    write_both(out, kept.bytes(), text.as_slice())
}

/// Whether a sink has failed, or the source: nothing more is asked of a sink then.
fn is_over(ending: Ending) -> bool
    ensures { result ≡ is_over ending }
{
    matches!(
        ending,
        Ending::ReadFault | Ending::OutFault | Ending::MovesFault
    )
}

/// Gives on the moves, and then the answers that are kept with the last text, and says with which
/// status the run ends.
fn close<O: Sink, M: Sink>(moves: &mut M, kept: &Kept, out: &mut O, ending: Ending) -> u8
    ensures closed { Closed (sink_seen O.Sink out.old) (sink_seen O.Sink out.new)
        (sink_seen M.Sink moves.old) (sink_seen M.Sink moves.new) ending kept.now result }
    ensures few { length kept.now ≤ 65536 }
    ensures flushed { result ≢ 6 → is_over ending ≡ false → M.given moves.new ≡ M.taken moves.new }
{
    kept.fits();
    if is_over(ending) {
        return ending.status();
    }
    match moves.flush() {
        Ok(()) => {}
        Err(_) => return 6,
    }
    match tell_end(kept, out, ending) {
        Ok(()) => ending.status(),
        Err(_) => 5,
    }
}

/// Runs a script, or says the usage.
fn run_lines<S: Source, O: Sink, M: Sink, P: BlockDevice, F: BlockDevice>(
    alloc: Global,
    is_form: bool,
    source: &mut S,
    out: &mut O,
    moves: &mut M,
    paging: &mut P,
    files: &mut F,
) -> u8
    ensures ran { RanOrRefused
        (seen S.Source O.Sink M.Sink P.BlockDevice F.BlockDevice
        source.old out.old moves.old paging.old files.old)
        (seen S.Source O.Sink M.Sink P.BlockDevice F.BlockDevice
        source.new out.new moves.new paging.new files.new)
        (is_form ≡ true) result }
    ensures faults { IsAccounted result
        (open_failed P.BlockDevice F.BlockDevice paging.old paging.new files.old files.new)
        (counts_seen S.Source O.Sink M.Sink source.old out.old moves.old)
        (counts_seen S.Source O.Sink M.Sink source.new out.new moves.new) }
    ensures idle { S.idle source.new ≤ S.idle source.old + S.last_idle source.new }
{
    let mut kept = match Kept::new(alloc) {
        Ok(kept) => kept,
        Err(NoMemory) => return Ending::NoMemory.status(),
    };
    let ending = decide_all(alloc, is_form, &mut kept, source, out, moves, paging, files);
    close(moves, &kept, out, ending)
}

/// Runs a script from the bytes of its source to the bytes of its answers, and says how it ended: 0
/// where every line was decided, 1 where memory was refused, 2 where the words are no form, 3 at a
/// line that is not in the grammar, 4 where the source failed, 5 where `out` failed, 6 where
/// `moves` failed, 7 where a device failed as it was opened, 8 at a line that is too long. The
/// words are read first, once.
///
/// Where the words are `bulk SEED COUNT` the lines are the events of `mm_generate`'s script of these
/// two numbers, and nothing is read; their answers are not written, but how many there are, how
/// many of them begin with `ok`, how many are `none`, and the charge at the end with its limit.
///
/// At the first line, `machine`, it opens `paging` with the slots and then `files` with the blocks.
/// An answer is given on only after its moves were: the answers of lines are kept, and before more
/// is read, when their room is full and at the end `moves` is flushed, then they are written to
/// `out`, then `out` is flushed. So with status 6 the answers since the last flush do not stand.
pub fn run<S: Source, O: Sink, M: Sink, P: BlockDevice, F: BlockDevice>(
    alloc: Global,
    words: &[String],
    source: &mut S,
    out: &mut O,
    moves: &mut M,
    paging: &mut P,
    files: &mut F,
) -> u8
    // Which lines were decided, with which answers and moves, what the run then came to, what was
    // written, and what is left on devices. Or memory was refused as the words were read, before
    // anything else: status 1, and everything stands as it stood.
    ensures ran { IsNoBulk words.now → RanOrRefused
        (seen S.Source O.Sink M.Sink P.BlockDevice F.BlockDevice
        source.old out.old moves.old paging.old files.old)
        (seen S.Source O.Sink M.Sink P.BlockDevice F.BlockDevice
        source.new out.new moves.new paging.new files.new)
        (IsRunForm words.now) result }
    // Of a generated script, the same of its events.
    ensures bulk { (seed count : ℕ) → IsBulk words.now seed count → BulkRanOrRefused
        (seen S.Source O.Sink M.Sink P.BlockDevice F.BlockDevice
        source.old out.old moves.old paging.old files.old)
        (seen S.Source O.Sink M.Sink P.BlockDevice F.BlockDevice
        source.new out.new moves.new paging.new files.new)
        (script_of seed count) result }
    ensures unread { (seed count : ℕ) → IsBulk words.now seed count → source.new ≡ source.old }

    // A script that comes to something by itself ends with that status and its whole text, unless
    // memory or the outside fails.
    ensures exact { (text : List ℕ) (lines : List (List ℕ)) (e : Ending) →
        S.left source.old ≡ Some text → IsRunForm words.now → IsScriptOf text 0 lines e → IsComplete
        (seen S.Source O.Sink M.Sink P.BlockDevice F.BlockDevice
        source.old out.old moves.old paging.old files.old)
        (seen S.Source O.Sink M.Sink P.BlockDevice F.BlockDevice
        source.new out.new moves.new paging.new files.new)
        (IsRunForm words.now) lines e result ⊎ IsFault result }
    ensures usage { (IsRunForm words.now → ⊥) → IsNoBulk words.now → (result ≡ 2) ⊎ IsFault result }
    ensures form { IsRunForm words.now → result ≢ 2 }

    // A read that took no byte is the last one.
    ensures idle { S.idle source.new ≤ S.idle source.old + S.last_idle source.new }
    ensures faults { IsAccounted result
        (open_failed P.BlockDevice F.BlockDevice paging.old paging.new files.old files.new)
        (counts_seen S.Source O.Sink M.Sink source.old out.old moves.old)
        (counts_seen S.Source O.Sink M.Sink source.new out.new moves.new) }
{
    match words_form(alloc, words) {
        Ok(Some(WordsForm::Bulk { seed, count })) => {
            bulk(alloc, seed, count, out, moves, paging, files)
        }
        Ok(Some(WordsForm::Run)) => run_lines(alloc, true, source, out, moves, paging, files),
        Ok(None) => run_lines(alloc, false, source, out, moves, paging, files),
        Err(NoMemory) => Ending::NoMemory.status(),
    }
}
