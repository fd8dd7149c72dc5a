ghost use Rattle.std.specs.Prelude.{◌≡◌, ◌≢◌, ◌⊎◌, ◌≤◌, Option, Some, OnOk, true, map, string_bytes, is_err};
ghost use Rattle.mm_types.specs.{Text, Rose};
ghost use Rattle.mm_io.specs.{CountsFaults, Wrote};
ghost use Rattle.mm_names.specs.{script_in, is_whole, ScriptEnds, WasReadWhole, CameTo, names_status};
ghost use Rattle.mm_script.specs.{most_lines};
ghost use Rattle.mm_reasons.specs.{Form, GoesWell, names_form, RanAs, WriteBlamed, Blamed};
ghost use Rattle.mm_io.specs.{sink_seen};

use crate::explainers::explained;
use crate::forms::{Form, form_of};
use crate::talks::talk;
use crate::texts::Piece::Number;
use crate::texts::{put, put_form};
use mm_io::{Sink, Source, write_all};
use mm_names::{Ending, Script, read_all, translated};
use mm_types::{Failed, NoMemory};
use std::alloc::Global;

/// The most lines of a script.
const MOST_LINES: usize = 1_000_000;

/// What is told where the words are no form.
const USAGE: &[u8] = b"usage: mmnames < WRITTEN > SCRIPT | mmnames lines | mmnames talk\n";

/// Writes a text and flushes it. Where the flush fails all of the text was taken.
pub(crate) fn write_flushed<O: Sink>(out: &mut O, text: &[u8]) -> Result<(), Failed>
    ensures wrote { Wrote (O.taken out.old) (O.taken out.new) text.now (is_err result) }
    ensures gave { OnOk result (O.given out.new ≡ O.taken out.new) }
    ensures cause { CountsFaults (O.faults out.old) (O.faults out.new) result }
{
    write_all(out, text)?;
    out.flush()
}

/// Tells a text, and ends so.
#[tactic(auto, using(crate::proofs::Wells::wells))]
fn tell<E: Sink>(err: &mut E, text: &[u8], ending: Ending) -> Ending
    ensures ends { (result ≡ ending)
        ⊎ ((result ≡ Ending.OutFault) × Rose (E.faults err.old) (E.faults err.new)) }
    ensures well { result ≢ Ending.OutFault →
        GoesWell (sink_seen E.Sink err.old) (sink_seen E.Sink err.new) }
{
    if text.is_empty() {
        return ending;
    }
    match write_flushed(err, text) {
        Ok(()) => ending,
        Err(Failed) => Ending::OutFault,
    }
}

/// From which written line each line of the script comes.
fn put_line_map(out: &mut Vec<u8>, origins: &[u32]) -> Result<(), NoMemory> {
    let mut number = 0u64;
    for origin in origins {
        number = number.saturating_add(1);
        let line = Number(u64::from(*origin));
        put_form(out, b"# %: line %\n", &[Number(number), line])?;
    }
    Ok(())
}

/// What is told beside a script: the warnings, and where it is asked the map of its lines.
fn notes(alloc: Global, text: &[u8], script: &Script, form: Form) -> Result<Vec<u8>, NoMemory> {
    let explainer = explained(alloc, text)?;
    let mut notes: Vec<u8> = Vec::new(alloc);
    put(&mut notes, explainer.text())?;
    if form == Form::Lines && script.is_whole() {
        put_line_map(&mut notes, script.origins())?;
    }
    Ok(notes)
}

#[tactic(auto, using(crate::proofs::Endings::endings, crate::proofs::Wells::wells))]
/// Writes a script's lines.
fn put_script<O: Sink>(script: &Script, out: &mut O) -> Ending
    ensures came { (left left' : Option Text) (text : Text) → WasReadWhole left left' text
        → ScriptEnds (script_in text) script.now → is_whole script.now ≡ true
        → script.now.lines ≤ most_lines
        → CameTo result left left' (O.taken out.old) (O.taken out.new) }
    ensures blame { (result ≡ Ending.Written)
        ⊎ ((result ≡ Ending.OutFault) × Rose (O.faults out.old) (O.faults out.new)) }
    ensures well { result ≢ Ending.OutFault →
        GoesWell (sink_seen O.Sink out.old) (sink_seen O.Sink out.new) }
{
    match write_flushed(out, script.text()) {
        Ok(()) => Ending::Written,
        Err(Failed) => Ending::OutFault,
    }
}

#[tactic(auto, using(crate::proofs::Endings::endings, crate::proofs::Blames::blames, crate::proofs::Wells::wells))]
/// Ends a run whose file was read: the script is written, or it is told why not.
fn finish<O: Sink, E: Sink>(script: &Script, notes: &[u8], out: &mut O, err: &mut E) -> Ending
    ensures came { (left left' : Option Text) (text : Text) → WasReadWhole left left' text
        → ScriptEnds (script_in text) script.now
        → CameTo result left left' (O.taken out.old) (O.taken out.new) }
    ensures blame { WriteBlamed result (O.faults out.old) (O.faults out.new)
        (E.faults err.old) (E.faults err.new) }
    ensures no_usage { result ≢ Ending.Usage }
    ensures out_well { result ≢ Ending.OutFault →
        GoesWell (sink_seen O.Sink out.old) (sink_seen O.Sink out.new) }
    ensures err_well { result ≢ Ending.OutFault →
        GoesWell (sink_seen E.Sink err.old) (sink_seen E.Sink err.new) }
{
    if !script.is_whole() {
        return tell(err, notes, Ending::Refused);
    }
    if script.origins().len() > MOST_LINES {
        return tell(
            err,
            b"the script has more than 1000000 lines\n",
            Ending::TooLong,
        );
    }
    if tell(err, notes, Ending::Written) == Ending::OutFault {
        return Ending::OutFault;
    }
    put_script(script, out)
}

#[tactic(auto, using(crate::proofs::Endings::endings, crate::proofs::Blames::blames, crate::proofs::Wells::wells))]
/// Translates a file.
fn translate<S: Source, O: Sink, E: Sink>(
    alloc: Global,
    form: Form,
    source: &mut S,
    out: &mut O,
    err: &mut E,
) -> Ending
    ensures came { CameTo result (S.left source.old) (S.left source.new)
        (O.taken out.old) (O.taken out.new) }
    ensures blame { Blamed result (S.faults source.old) (S.faults source.new)
        (O.faults out.old) (O.faults out.new) (E.faults err.old) (E.faults err.new) }
    ensures source_same { result ≢ Ending.ReadFault → result ≢ Ending.OutFault →
        S.faults source.new ≡ S.faults source.old }
    ensures no_usage { result ≢ Ending.Usage }
    ensures out_well { result ≢ Ending.OutFault →
        GoesWell (sink_seen O.Sink out.old) (sink_seen O.Sink out.new) }
    ensures err_well { result ≢ Ending.OutFault →
        GoesWell (sink_seen E.Sink err.old) (sink_seen E.Sink err.new) }
{
    let text = match read_all(alloc, source) {
        Ok(text) => text,
        Err(Ending::ReadFault) => return Ending::ReadFault,
        Err(Ending::TooLong) => {
            return tell(
                err,
                b"the file has more than 100000000 bytes\n",
                Ending::TooLong,
            );
        }
        Err(_) => return Ending::NoMemory,
    };
    let script = match translated(alloc, text.as_slice()) {
        Ok(script) => script,
        Err(NoMemory) => return Ending::NoMemory,
    };
    let notes = match notes(alloc, text.as_slice(), &script, form) {
        Ok(notes) => notes,
        Err(NoMemory) => return Ending::NoMemory,
    };
    finish(&script, notes.as_slice(), out, err)
}

/// The status of an ending.
fn status_of(ending: Ending) -> u8
    ensures { result ≡ names_status ending }
{
    match ending {
        Ending::Written => 0,
        Ending::NoMemory => 1,
        Ending::Usage => 2,
        Ending::Refused => 3,
        Ending::ReadFault => 4,
        Ending::OutFault => 5,
        Ending::TooLong => 8,
    }
}

#[tactic(auto, using(crate::proofs::Endings::endings, crate::proofs::Blames::blames, crate::proofs::Wells::wells))]
/// Reads a written file from the source and writes the script that it means to `out`; what is wrong
/// with it, and what else is told, goes to `err`. No words translate the whole file, or nothing
/// where a line of it means nothing; `lines` tells besides from which line each comes; `talk` takes
/// each line as it comes, and leaves out those that mean nothing. The status is 0, 1 where memory
/// was refused, 2 where the words are no form, 3 where a line means nothing that may stand there, 4
/// and 5 where the source and a sink failed, 8 where the file has more than 100,000,000 bytes or
/// the script more than 1,000,000 lines.
pub fn run_names<S: Source, O: Sink, E: Sink>(
    alloc: Global,
    words: &[String],
    source: &mut S,
    out: &mut O,
    err: &mut E,
) -> u8
    ensures ran { RanAs (names_form (map string_bytes words.now)) (S.left source.old)
        (S.left source.new)
        (O.taken out.old) (O.taken out.new) result }

    // A fault is blamed only where its count rose.
    ensures read_fault { result ≡ 4 → Rose (S.faults source.old) (S.faults source.new) }
    ensures out_fault { result ≡ 5 → Rose (O.faults out.old) (O.faults out.new)
        ⊎ Rose (E.faults err.old) (E.faults err.new) }

    ensures form { (f : Form) → names_form (map string_bytes words.now) ≡ Some f → result ≢ 2 }

    // Where none failed no count is another; and a sink that held nothing back before holds nothing
    // back then. That the words are no form may have been told in vain.
    ensures source_same { result ≢ 4 → result ≢ 5 → S.faults source.new ≡ S.faults source.old }
    ensures out_well { result ≢ 5 →
        GoesWell (sink_seen O.Sink out.old) (sink_seen O.Sink out.new) }
    ensures err_well { result ≢ 2 → result ≢ 5 →
        GoesWell (sink_seen E.Sink err.old) (sink_seen E.Sink err.new) }
{
    match form_of(alloc, words) {
        Err(NoMemory) => 1,
        Ok(None) => {
            let _ = write_flushed(err, USAGE);
            2
        }
        Ok(Some(Form::Talk)) => status_of(talk(alloc, source, out, err)),
        Ok(Some(Form::Script)) => status_of(translate(alloc, Form::Script, source, out, err)),
        Ok(Some(Form::Lines)) => status_of(translate(alloc, Form::Lines, source, out, err)),
    }
}
