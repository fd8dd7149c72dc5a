ghost use Rattle.std.specs.Prelude.{◌≡◌, ◌≢◌, ◌⊎◌, ◌+◌, ◌++◌, ◌∷◌, [], ℕ, List, Option, IfOk, OnOk};
ghost use Rattle.std.specs.Prelude.{Some, map, option_map, string_bytes, None};
ghost use Rattle.mm_types.specs.{Rose};
ghost use Rattle.mm_io.specs.{sink_seen};
ghost use Rattle.mm_log_check.specs.{Shows, IsRefusedLog, ReadsLog, WritesText};
ghost use Rattle.mm_log_walk.specs.{Answers, IsBroken, beside};
ghost use Rattle.mm_show.specs.{Form, form_of, asked_word, files_of, has_script, has_answers, has_observations, form_said, form_sought, form_why};
ghost use Rattle.mm_show.specs.{unread_text, files_at, first_file, IsUnread, show_usage_text};
ghost use Rattle.mm_show.specs.{bad_row_text, FileHas, IfGood, IsRefusedRow, observed, page_read};
ghost use Rattle.mm_show.specs.{IfRead, ShowsForm, files_beside_log, form_answers, form_exactly};

use crate::forms::{Files, Form, asked, asked_word};
use crate::observed::observed;
use crate::pages::{Named, PageTexts, page_teller};
use crate::sums::SumTeller;
use mm_events::EventTeller;
use mm_io::{Sink, Source};
use mm_log_check::write_text;
use mm_log_walk::{FileFault, Lines, Sought, answered, named_bytes, named_lines};
use mm_observations::PackFault;
use mm_reports::{CountsTeller, FaultTeller, HistoryTeller, StateTeller, Style, UseTeller};
use mm_text::{LineBuf, put_decimal};
use mm_transcripts::TranscriptTeller;
use mm_types::NoMemory;
use std::alloc::Global;

/// Writes some words, a name and a line feed.
#[tactic(auto, using(mm_text::proofs::DigitCounts::joined))]
fn put_named(words: &[u8], name: &[u8], text: &mut Vec<u8>) -> Result<(), NoMemory>
    ensures { OnOk result (text.new.items ≡ text.old.items ++ (words.now ++ (name.now
        ++ 10 ∷ []))) }
{
    text.extend_from_slice(words)?;
    text.extend_from_slice(name)?;
    text.push(b'\n')?;
    Ok(())
}

/// What is written where the words are no form.
const USAGE: &[u8] =
    b"usage: mmshow html [SCRIPT [ANSWERS [OBSERVATIONS]]] | tell [SCRIPT [ANSWERS]] \
    | events [SCRIPT [ANSWERS]] | counts [LINE] | counts csv [SCRIPT [ANSWERS]] | state LINE \
    | frame N | key KEY | faults [csv] | sums\n";

/// The status where memory was refused.
const NO_MEMORY: u8 = 1;

fn put_unread(name: &[u8], text: &mut Vec<u8>) -> Result<(), NoMemory>
    ensures { OnOk result (text.new.items ≡ text.old.items ++ unread_text name.now) }
{
    put_named(b"cannot read ", name, text)
}

/// Writes the name of a file that was not read. Answers the status.
fn unread<O: Sink>(alloc: Global, name: &[u8], out: &mut O) -> u8
    ensures says { IsUnread name.now (O.taken out.old) (O.taken out.new) result }
    ensures sink { WritesText IsBroken (sink_seen O.Sink out.old) (sink_seen O.Sink out.new)
        result }
{
    let mut text = Vec::new(alloc);
    match put_unread(name, &mut text) {
        Ok(()) => write_text(out, text.as_slice(), 4),
        Err(NoMemory) => NO_MEMORY,
    }
}

/// Writes the number of a row of observations that is not good.
#[tactic(auto, using(mm_text::proofs::DigitCounts::joined))]
fn put_bad_row(row: u64, text: &mut Vec<u8>) -> Result<(), NoMemory>
    ensures { OnOk result (text.new.items ≡ text.old.items ++ bad_row_text row) }
{
    let mut line = LineBuf::new();
    line.push_slice(b"observation line ");
    put_decimal(&mut line, row);
    line.push(b'\n');
    text.extend_from_slice(line.as_slice())?;
    Ok(())
}

/// Writes which row of observations is not good. Answers the status.
fn refused<O: Sink>(alloc: Global, row: u64, out: &mut O) -> u8
    ensures says { IsRefusedRow row (O.taken out.old) (O.taken out.new) result }
    ensures sink { WritesText IsBroken (sink_seen O.Sink out.old) (sink_seen O.Sink out.new)
        result }
    ensures fault { result ≢ 4 }
{
    let mut text = Vec::new(alloc);
    match put_bad_row(row, &mut text) {
        Ok(()) => write_text(out, text.as_slice(), 6),
        Err(NoMemory) => NO_MEMORY,
    }
}

/// What a log has to have for a form.
fn form_sought(form: Form) -> Sought
    ensures { result ≡ form_sought form }
{
    match form {
        Form::CountsAt(line) => Sought::Line(line),
        Form::StateAt(line) => Sought::Line(line),
        Form::FrameAt(frame) => Sought::Frame(frame),
        _ => Sought::Nothing,
    }
}

/// Shows a log, where the files beside it were read.
fn shown<S: Source, O: Sink>(
    alloc: Global,
    form: Form,
    script: &Option<Lines>,
    answers: &Option<Lines>,
    page: &PageTexts<'_>,
    named: &Named<'_>,
    log: &mut S,
    out: &mut O,
) -> u8
    ensures answers { Answers (S.left log.old) (S.left log.new) (O.taken out.old) (O.taken out.new)
        (beside script.now answers.now) (form_sought form)
        (form_said form (page_read page.now named.now) script.now answers.now) (form_why form)
        result }
    ensures source { ReadsLog (S.faults log.old) (S.faults log.new) result }
    ensures read_fault { result ≡ 4 → Rose (S.faults log.old) (S.faults log.new) }
    ensures sink { WritesText IsBroken (sink_seen O.Sink out.old) (sink_seen O.Sink out.new)
        result }
{
    let sought = form_sought(form);
    match form {
        Form::Html(_) => match page_teller(alloc, page, named, script, answers) {
            Ok(mut teller) => answered(alloc, script, answers, sought, log, &mut teller, out),
            Err(NoMemory) => NO_MEMORY,
        },
        Form::Tell(_) => {
            let mut teller = TranscriptTeller::new(alloc, script, answers);
            answered(alloc, script, answers, sought, log, &mut teller, out)
        }
        Form::Events(_) => {
            let mut teller = EventTeller::new(alloc, script, answers);
            answered(alloc, script, answers, sought, log, &mut teller, out)
        }
        Form::Counts => {
            let mut teller = CountsTeller::new(alloc, Style::Columns, &None, &None);
            answered(alloc, script, answers, sought, log, &mut teller, out)
        }
        Form::CountsCsv(_) => {
            let mut teller = CountsTeller::new(alloc, Style::Csv, script, answers);
            answered(alloc, script, answers, sought, log, &mut teller, out)
        }
        Form::CountsAt(line) => {
            let mut teller = UseTeller::new(alloc, line);
            answered(alloc, script, answers, sought, log, &mut teller, out)
        }
        Form::StateAt(line) => {
            let mut teller = StateTeller::new(alloc, line);
            answered(alloc, script, answers, sought, log, &mut teller, out)
        }
        Form::FrameAt(frame) => {
            let mut teller = HistoryTeller::of_frame(alloc, frame);
            answered(alloc, script, answers, sought, log, &mut teller, out)
        }
        Form::KeyAt(key) => {
            let mut teller = HistoryTeller::of_key(alloc, key);
            answered(alloc, script, answers, sought, log, &mut teller, out)
        }
        Form::Faults(style) => {
            let mut teller = FaultTeller::new(alloc, style);
            answered(alloc, script, answers, sought, log, &mut teller, out)
        }
        Form::Sums => {
            let mut teller = SumTeller::new(alloc);
            answered(alloc, script, answers, sought, log, &mut teller, out)
        }
    }
}

fn files_of(form: Form) -> Files
    ensures { result ≡ files_of form }
{
    match form {
        Form::Html(files) => files,
        Form::Tell(files) => files,
        Form::Events(files) => files,
        Form::CountsCsv(files) => files,
        _ => Files::None,
    }
}

/// The place of the first of a form's files among its words.
fn files_at(form: Form) -> usize
    ensures { result ≡ files_at form }
{
    match form {
        Form::CountsCsv(_) => 2,
        _ => 1,
    }
}

fn has_script(files: Files) -> bool
    ensures { result ≡ has_script files }
{
    match files {
        Files::None => false,
        Files::Script => true,
        Files::Both => true,
        Files::Observed => true,
    }
}

fn has_answers(files: Files) -> bool
    ensures { result ≡ has_answers files }
{
    match files {
        Files::None => false,
        Files::Script => false,
        Files::Both => true,
        Files::Observed => true,
    }
}

fn has_observations(files: Files) -> bool
    ensures { result ≡ has_observations files }
{
    match files {
        Files::Observed => true,
        _ => false,
    }
}

/// The place of the first word that names a file, where the words are a form that names some. An
/// `Err` is memory that was refused.
pub fn first_file(alloc: Global, words: &[String]) -> Result<Option<usize>, NoMemory>
    ensures { IfOk result (λ place. place ≡ first_file (form_of (map string_bytes words.now))) }
{
    match asked(alloc, words)? {
        Some(form) if has_script(files_of(form)) => Ok(Some(files_at(form))),
        _ => Ok(None),
    }
}

/// Shows a log by a form whose script and answers were read, with the observations that it names.
fn show_beside<S: Source, F: Source, O: Sink>(
    alloc: Global,
    form: Form,
    words: &[String],
    log: &mut S,
    script: &Option<Lines>,
    answers: &Option<Lines>,
    observations: &mut Option<F>,
    page: &PageTexts<'_>,
    out: &mut O,
) -> u8
    ensures shows { IfRead F.Source (has_observations (files_of form)) observations.old
        observations.new (asked_word (map string_bytes words.now) (files_at form + 2))
        (O.taken out.old) (O.taken out.new) result
        (((o : Option (List ℕ))
        → FileHas (has_observations (files_of form)) (option_map F.left observations.old) o
        → IfGood (observed script.now answers.now o) (O.taken out.old) (O.taken out.new) result
        (form_answers form page.now (map string_bytes words.now) (S.left log.old) (S.left log.new)
        (O.taken out.old) (O.taken out.new) result script.now answers.now))
        × (result ≡ 4 → Rose (S.faults log.old) (S.faults log.new))) }
    ensures source { ReadsLog (S.faults log.old) (S.faults log.new) result }
    ensures sink { WritesText IsBroken (sink_seen O.Sink out.old) (sink_seen O.Sink out.new)
        result }
{
    let is_named = has_observations(files_of(form));
    let bytes = match named_bytes(alloc, is_named, observations) {
        Ok(bytes) => bytes,
        Err(FileFault::Failed) => return unread(alloc, asked_word(words, files_at(form) + 2), out),
        Err(FileFault::NoMemory) => return NO_MEMORY,
    };
    let packed = match observed(alloc, script, answers, &bytes) {
        Ok(packed) => packed,
        Err(PackFault::Row(row)) => return refused(alloc, row, out),
        Err(PackFault::NoMemory) => return NO_MEMORY,
    };
    let named = Named {
        name: asked_word(words, 1),
        observations: packed.as_slice(),
    };
    shown(alloc, form, script, answers, page, &named, log, out)
}

/// Shows a log by a form, with the files that it names.
fn show_form<S: Source, F: Source, O: Sink>(
    alloc: Global,
    form: Form,
    words: &[String],
    log: &mut S,
    script: &mut Option<F>,
    answers: &mut Option<F>,
    observations: &mut Option<F>,
    page: &PageTexts<'_>,
    out: &mut O,
) -> u8
    ensures shows { ShowsForm F.Source form (map string_bytes words.now)
        (files_beside_log script.old answers.old observations.old)
        (files_beside_log script.new answers.new observations.new)
        (form_answers form page.now (map string_bytes words.now) (S.left log.old) (S.left log.new)
        (O.taken out.old) (O.taken out.new) result)
        (S.faults log.old) (S.faults log.new) (O.taken out.old) (O.taken out.new) result }
    ensures source { ReadsLog (S.faults log.old) (S.faults log.new) result }
    ensures sink { WritesText IsBroken (sink_seen O.Sink out.old) (sink_seen O.Sink out.new)
        result }
{
    let files = files_of(form);
    let script = match named_lines(alloc, has_script(files), script) {
        Ok(lines) => lines,
        Err(FileFault::Failed) => return unread(alloc, asked_word(words, files_at(form)), out),
        Err(FileFault::NoMemory) => return NO_MEMORY,
    };
    let answers = match named_lines(alloc, has_answers(files), answers) {
        Ok(lines) => lines,
        Err(FileFault::Failed) => return unread(alloc, asked_word(words, files_at(form) + 1), out),
        Err(FileFault::NoMemory) => return NO_MEMORY,
    };
    show_beside(
        alloc,
        form,
        words,
        log,
        &script,
        &answers,
        observations,
        page,
        out,
    )
}

/// Shows the log that the source gives, writes the text to `out` and flushes it. The words are the
/// name of a form and its values. Where these name a script, its answers and observations, `script`,
/// `answers` and `observations` are those files, none where a file could not be opened; other forms
/// read none. The status is 0 where the log replays, fits the script and its answers and has the line
/// or page frame that is asked for, 1 where memory was refused, 2 where the words are no form, 3
/// where a line is no legal move, 4 where the log or a file failed, 5 where the sink failed, 6 where
/// the script or the answers do not fit, a row of the observations is not good or the log has no such
/// line or page frame, 8 where the log has more than 1,000,000,000,000 bytes.
pub fn run_show<S: Source, F: Source, O: Sink>(
    alloc: Global,
    words: &[String],
    log: &mut S,
    script: &mut Option<F>,
    answers: &mut Option<F>,
    observations: &mut Option<F>,
    page: &PageTexts<'_>,
    out: &mut O,
) -> u8
    ensures shows { (f : Form) → form_of (map string_bytes words.now) ≡ Some f
        → ShowsForm F.Source f (map string_bytes words.now)
        (files_beside_log script.old answers.old observations.old)
        (files_beside_log script.new answers.new observations.new)
        (form_exactly f page.now (map string_bytes words.now) (S.left log.old)
        (O.taken out.old) (O.taken out.new) result)
        (S.faults log.old) (S.faults log.new) (O.taken out.old) (O.taken out.new) result }
    ensures usage { form_of (map string_bytes words.now) ≡ None
        → (S.left log.new ≡ S.left log.old)
        × (Shows (O.taken out.old) (O.taken out.new) show_usage_text 2 result
        ⊎ IsRefusedLog (O.taken out.old) (O.taken out.new) result) }
    ensures source { ReadsLog (S.faults log.old) (S.faults log.new) result }
    ensures sink { WritesText IsBroken (sink_seen O.Sink out.old) (sink_seen O.Sink out.new)
        result }
{
    match asked(alloc, words) {
        Ok(Some(form)) => show_form(
            alloc,
            form,
            words,
            log,
            script,
            answers,
            observations,
            page,
            out,
        ),
        Ok(None) => write_text(out, USAGE, 2),
        Err(NoMemory) => NO_MEMORY,
    }
}
