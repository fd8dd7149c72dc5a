ghost use Rattle.std.specs.Prelude.{◌≡◌, ◌≢◌, ◌≤◌, ℕ, ◌∷◌, ◌++◌, [], true, List, Option, IfOk, IfErr, OnOk, Err, MatchResult};
ghost use Rattle.mm_types.specs.{Event, Text};
ghost use Rattle.mm_script.specs.{printed, IsWellFormed};
ghost use Rattle.mm_names.specs.{FormedIn, meant, placed_line};
ghost use Rattle.mm_reasons.specs.{GoesWell, Talked, WriteBlamed, Blamed};
ghost use Rattle.mm_io.specs.{sink_seen};
ghost use Rattle.mm_reasons.specs.{HaltsTalk, HaltsAmid, Hears, KeepsByte, ListensOut, SaidAll, StopsTalk};
ghost use Rattle.mm_reasons.specs.{hearing_after, said_by_line, said_of, line_without_mark};

use crate::explainers::Explainer;
use crate::top::write_flushed;
use mm_io::{Sink, Source};
use mm_names::{Ending, Meaning, may_stand, meant, without_mark};
use mm_script::print_event;
use mm_text::LineBuf;
use mm_types::{AccessSpec, Event, Failed, Name, NoMemory};
use std::alloc::Global;

/// The most bytes of a line that are kept: of 65,536 the line, a byte more, which means nothing, and
/// the mark that may stand in front of the first.
const MOST_KEPT: usize = 65_540;

/// The line of an event, with its line feed.
fn line_of(alloc: Global, event: &Event) -> Result<Vec<u8>, NoMemory>
    ensures { IfOk result (λ line. line.items ≡ printed event.now ++ 10 ∷ []) }
{
    let mut text = LineBuf::new();
    print_event(event, &mut text);
    let mut line = Vec::from_slice(alloc, text.as_slice())?;
    line.push(b'\n')?;
    Ok(line)
}

/// Writes the line of an event.
#[tactic(auto, using(crate::proofs::Sayings::sayings, crate::proofs::Blames::blames, crate::proofs::Wells::wells))]
fn say<O: Sink>(alloc: Global, event: &Event, out: &mut O) -> Result<(), Ending>
    requires { IsWellFormed event.now }
    ensures said { MatchResult result
        (λ _. SaidAll (O.taken out.old) (O.taken out.new) (event.now ∷ []))
        (λ e. HaltsAmid e (O.taken out.old) (O.taken out.new) (event.now ∷ [])) }
    ensures later { O.faults out.old ≤ O.faults out.new }
    ensures blame { IfErr result (λ e. (n : ℕ)
        → WriteBlamed e (O.faults out.old) (O.faults out.new) n n) }
    ensures no_usage { result ≢ Err Ending.Usage }
    ensures out_well { result ≢ Err Ending.OutFault →
        GoesWell (sink_seen O.Sink out.old) (sink_seen O.Sink out.new) }
{
    let line = match line_of(alloc, event) {
        Ok(line) => line,
        Err(NoMemory) => return Err(Ending::NoMemory),
    };
    match write_flushed(out, line.as_slice()) {
        Ok(()) => Ok(()),
        Err(Failed) => Err(Ending::OutFault),
    }
}

/// Writes the line of an event, where the meaning is one that may stand here.
#[tactic(auto, using(crate::proofs::Sayings::sayings, crate::proofs::Blames::blames, crate::proofs::Wells::wells))]
fn say_meaning<O: Sink>(
    alloc: Global,
    meaning: &Meaning,
    begun: bool,
    out: &mut O,
) -> Result<(), Ending>
    requires { FormedIn meaning.now }
    ensures said { MatchResult result
        (λ _. SaidAll (O.taken out.old) (O.taken out.new) (said_of (placed_line begun meaning.now)))
        (λ e. HaltsAmid e (O.taken out.old) (O.taken out.new) (said_of (placed_line begun meaning.now))) }
    ensures later { O.faults out.old ≤ O.faults out.new }
    ensures blame { IfErr result (λ e. (n : ℕ)
        → WriteBlamed e (O.faults out.old) (O.faults out.new) n n) }
    ensures no_usage { result ≢ Err Ending.Usage }
    ensures out_well { result ≢ Err Ending.OutFault →
        GoesWell (sink_seen O.Sink out.old) (sink_seen O.Sink out.new) }
{
    match meaning {
        Meaning::Nothing => Ok(()),
        Meaning::Gives(_) => Ok(()),
        Meaning::Says(event) => {
            if may_stand(begun, event) {
                return say(alloc, event, out);
            }
            Ok(())
        }
        Meaning::Wrong => Ok(()),
    }
}

/// Tells what is wrong with a line, or may be.
#[tactic(auto, using(crate::proofs::Sayings::sayings, crate::proofs::Blames::blames, crate::proofs::Wells::wells))]
fn explain<E: Sink>(
    alloc: Global,
    explainer: &mut Explainer,
    meaning: &Meaning,
    line: &[u8],
    err: &mut E,
) -> Result<(), Ending>
    requires { explainer.old.leaves_out ≡ true }
    ensures heard { OnOk result (explainer.new ≡ hearing_after explainer.old meaning.now) }
    ensures halts { IfErr result (λ e. (a b : Option Text)
        (all : List Event) → SaidAll a b all → HaltsAmid e a b all) }
    ensures err_later { E.faults err.old ≤ E.faults err.new }
    ensures blame { IfErr result (λ e. (n : ℕ)
        → WriteBlamed e n n (E.faults err.old) (E.faults err.new)) }
    ensures no_usage { result ≢ Err Ending.Usage }
    ensures err_well { result ≢ Err Ending.OutFault →
        GoesWell (sink_seen E.Sink err.old) (sink_seen E.Sink err.new) }
{
    match explainer.explain(alloc, meaning, line) {
        Ok(()) => {}
        Err(NoMemory) => return Err(Ending::NoMemory),
    }
    match write_flushed(err, explainer.text()) {
        Ok(()) => {}
        Err(Failed) => return Err(Ending::OutFault),
    }
    explainer.clear();
    Ok(())
}

/// Takes a line.
#[tactic(auto, using(crate::proofs::Sayings::sayings, crate::proofs::Blames::blames, crate::proofs::Wells::wells))]
fn take_line<O: Sink, E: Sink>(
    alloc: Global,
    explainer: &mut Explainer,
    line: &[u8],
    out: &mut O,
    err: &mut E,
) -> Result<(), Ending>
    requires { explainer.old.leaves_out ≡ true }
    ensures said { MatchResult result
        (λ _. SaidAll (O.taken out.old) (O.taken out.new) (said_by_line explainer.old line.now))
        (λ e. HaltsAmid e (O.taken out.old) (O.taken out.new) (said_by_line explainer.old line.now)) }
    ensures heard { OnOk result
        (explainer.new ≡ hearing_after explainer.old (meant explainer.old.names line.now)) }
    ensures later { O.faults out.old ≤ O.faults out.new }
    ensures err_later { E.faults err.old ≤ E.faults err.new }
    ensures blame { IfErr result (λ e. WriteBlamed e (O.faults out.old) (O.faults out.new)
        (E.faults err.old) (E.faults err.new)) }
    ensures no_usage { result ≢ Err Ending.Usage }
    ensures out_well { result ≢ Err Ending.OutFault →
        GoesWell (sink_seen O.Sink out.old) (sink_seen O.Sink out.new) }
    ensures err_well { result ≢ Err Ending.OutFault →
        GoesWell (sink_seen E.Sink err.old) (sink_seen E.Sink err.new) }
{
    // The check of a meaning that is let go wants the types inside an event named here.
    let _event: Option<Event> = None;
    let _name: Option<Name> = None;
    let _access: Option<AccessSpec> = None;
    let begun = explainer.begun();
    let meaning = match meant(alloc, explainer.names(), line) {
        Ok(meaning) => meaning,
        Err(NoMemory) => return Err(Ending::NoMemory),
    };
    match say_meaning(alloc, &meaning, begun, out) {
        Ok(()) => explain(alloc, explainer, &meaning, line, err),
        Err(ending) => Err(ending),
    }
}

/// The line that has begun, without the mark that may stand in front of the first.
fn whole_line<'a>(explainer: &Explainer, line: &'a [u8]) -> &'a [u8]
    ensures { result.now ≡ line_without_mark explainer.now line.now }
{
    if explainer.is_new() {
        without_mark(line)
    } else {
        line
    }
}

/// Keeps a byte of the line that has begun, unless enough of it are kept.
fn keep_byte(line: &mut Vec<u8>, byte: u8) -> Result<(), NoMemory>
    ensures { OnOk result (KeepsByte line.old.items line.new.items byte) }
{
    if line.len() >= MOST_KEPT {
        return Ok(());
    }
    line.push(byte)?;
    Ok(())
}

/// Takes a byte: of the line that has begun, or its end.
#[tactic(auto, using(crate::proofs::Sayings::sayings, crate::proofs::Blames::blames, crate::proofs::Wells::wells))]
fn take_byte<O: Sink, E: Sink>(
    alloc: Global,
    explainer: &mut Explainer,
    line: &mut Vec<u8>,
    byte: u8,
    out: &mut O,
    err: &mut E,
) -> Result<(), Ending>
    requires { explainer.old.leaves_out ≡ true }
    ensures said { MatchResult result
        (λ _. Hears explainer.old line.old.items explainer.new line.new.items (byte ∷ [])
        (O.taken out.old) (O.taken out.new))
        (λ e. HaltsTalk e explainer.old line.old.items (byte ∷ []) (O.taken out.old) (O.taken out.new)) }
    ensures later { O.faults out.old ≤ O.faults out.new }
    ensures err_later { E.faults err.old ≤ E.faults err.new }
    ensures blame { IfErr result (λ e. WriteBlamed e (O.faults out.old) (O.faults out.new)
        (E.faults err.old) (E.faults err.new)) }
    ensures no_usage { result ≢ Err Ending.Usage }
    ensures out_well { result ≢ Err Ending.OutFault →
        GoesWell (sink_seen O.Sink out.old) (sink_seen O.Sink out.new) }
    ensures err_well { result ≢ Err Ending.OutFault →
        GoesWell (sink_seen E.Sink err.old) (sink_seen E.Sink err.new) }
{
    if byte == b'\n' {
        let whole = whole_line(explainer, line.as_slice());
        match take_line(alloc, explainer, whole, out, err) {
            Ok(()) => {}
            Err(ending) => return Err(ending),
        }
        line.clear();
        return Ok(());
    }
    match keep_byte(line, byte) {
        Ok(()) => Ok(()),
        Err(NoMemory) => Err(Ending::NoMemory),
    }
}

/// Takes some bytes.
#[tactic(auto, using(crate::proofs::Sayings::sayings, crate::proofs::Blames::blames, crate::proofs::Wells::wells))]
fn take_bytes<O: Sink, E: Sink>(
    alloc: Global,
    explainer: &mut Explainer,
    line: &mut Vec<u8>,
    bytes: &[u8],
    out: &mut O,
    err: &mut E,
) -> Result<(), Ending>
    requires { explainer.old.leaves_out ≡ true }
    ensures said { MatchResult result
        (λ _. Hears explainer.old line.old.items explainer.new line.new.items bytes.now
        (O.taken out.old) (O.taken out.new))
        (λ e. HaltsTalk e explainer.old line.old.items bytes.now (O.taken out.old) (O.taken out.new)) }
    ensures later { O.faults out.old ≤ O.faults out.new }
    ensures err_later { E.faults err.old ≤ E.faults err.new }
    ensures blame { IfErr result (λ e. WriteBlamed e (O.faults out.old) (O.faults out.new)
        (E.faults err.old) (E.faults err.new)) }
    ensures no_usage { result ≢ Err Ending.Usage }
    ensures out_well { result ≢ Err Ending.OutFault →
        GoesWell (sink_seen O.Sink out.old) (sink_seen O.Sink out.new) }
    ensures err_well { result ≢ Err Ending.OutFault →
        GoesWell (sink_seen E.Sink err.old) (sink_seen E.Sink err.new) }
{
    for byte in bytes {
        match take_byte(alloc, explainer, line, *byte, out, err) {
            Ok(()) => {}
            Err(ending) => return Err(ending),
        }
    }
    Ok(())
}

/// Takes what a source gives, to its end.
#[tactic(auto, using(crate::proofs::Sayings::sayings, crate::proofs::Blames::blames, crate::proofs::Wells::wells))]
fn listen<S: Source, O: Sink, E: Sink>(
    alloc: Global,
    explainer: &mut Explainer,
    line: &mut Vec<u8>,
    source: &mut S,
    out: &mut O,
    err: &mut E,
) -> Result<(), Ending>
    requires { explainer.old.leaves_out ≡ true }
    ensures said { MatchResult result
        (λ _. ListensOut (S.left source.old) (S.left source.new) explainer.old line.old.items
        explainer.new line.new.items (O.taken out.old) (O.taken out.new))
        (λ e. StopsTalk e (S.left source.old) (S.left source.new) explainer.old line.old.items
        (O.taken out.old) (O.taken out.new)) }
    ensures later { O.faults out.old ≤ O.faults out.new }
    ensures err_later { E.faults err.old ≤ E.faults err.new }
    ensures blame { IfErr result (λ e. Blamed e (S.faults source.old) (S.faults source.new)
        (O.faults out.old) (O.faults out.new) (E.faults err.old) (E.faults err.new)) }
    ensures source_same { result ≢ Err Ending.ReadFault → result ≢ Err Ending.OutFault →
        S.faults source.new ≡ S.faults source.old }
    ensures no_usage { result ≢ Err Ending.Usage }
    ensures out_well { result ≢ Err Ending.OutFault →
        GoesWell (sink_seen O.Sink out.old) (sink_seen O.Sink out.new) }
    ensures err_well { result ≢ Err Ending.OutFault →
        GoesWell (sink_seen E.Sink err.old) (sink_seen E.Sink err.new) }
{
    let mut buf = [0u8; 4096];
    for _turn in 0..u64::MAX {
        let count = match source.read(&mut buf) {
            Ok(count) => count,
            Err(Failed) => return Err(Ending::ReadFault),
        };
        if count == 0 {
            return Ok(());
        }
        match take_bytes(alloc, explainer, line, &buf[..count], out, err) {
            Ok(()) => {}
            Err(ending) => return Err(ending),
        }
    }
    Err(Ending::TooLong)
}

/// Takes what a source gives, and a last line without its end.
#[tactic(auto, using(crate::proofs::Sayings::sayings, crate::proofs::Blames::blames, crate::proofs::Wells::wells))]
fn hear<S: Source, O: Sink, E: Sink>(
    alloc: Global,
    source: &mut S,
    out: &mut O,
    err: &mut E,
) -> Result<(), Ending>
    ensures said { MatchResult result
        (λ _. Talked Ending.Written (S.left source.old) (S.left source.new)
        (O.taken out.old) (O.taken out.new))
        (λ e. Talked e (S.left source.old) (S.left source.new)
        (O.taken out.old) (O.taken out.new)) }
    ensures blame { IfErr result (λ e. Blamed e (S.faults source.old) (S.faults source.new)
        (O.faults out.old) (O.faults out.new) (E.faults err.old) (E.faults err.new)) }
    ensures source_same { result ≢ Err Ending.ReadFault → result ≢ Err Ending.OutFault →
        S.faults source.new ≡ S.faults source.old }
    ensures no_usage { result ≢ Err Ending.Usage }
    ensures out_well { result ≢ Err Ending.OutFault →
        GoesWell (sink_seen O.Sink out.old) (sink_seen O.Sink out.new) }
    ensures err_well { result ≢ Err Ending.OutFault →
        GoesWell (sink_seen E.Sink err.old) (sink_seen E.Sink err.new) }
{
    let mut explainer = Explainer::new(alloc, true);
    let mut line: Vec<u8> = Vec::new(alloc);
    match listen(alloc, &mut explainer, &mut line, source, out, err) {
        Ok(()) => take_byte(alloc, &mut explainer, &mut line, b'\n', out, err),
        Err(ending) => Err(ending),
    }
}

/// Takes each line as it comes: its event's line is written at once, what is wrong with it is told.
#[tactic(auto, using(crate::proofs::Blames::blames, crate::proofs::Wells::wells))]
pub(crate) fn talk<S: Source, O: Sink, E: Sink>(
    alloc: Global,
    source: &mut S,
    out: &mut O,
    err: &mut E,
) -> Ending
    ensures talked { Talked result (S.left source.old) (S.left source.new)
        (O.taken out.old) (O.taken out.new) }
    ensures blame { Blamed result (S.faults source.old) (S.faults source.new)
        (O.faults out.old) (O.faults out.new) (E.faults err.old) (E.faults err.new) }
    ensures source_same { result ≢ Ending.ReadFault → result ≢ Ending.OutFault →
        S.faults source.new ≡ S.faults source.old }
    ensures no_usage { result ≢ Ending.Usage }
    ensures out_well { result ≢ Ending.OutFault →
        GoesWell (sink_seen O.Sink out.old) (sink_seen O.Sink out.new) }
    ensures err_well { result ≢ Ending.OutFault →
        GoesWell (sink_seen E.Sink err.old) (sink_seen E.Sink err.new) }
{
    match hear(alloc, source, out, err) {
        Ok(()) => Ending::Written,
        Err(ending) => ending,
    }
}
