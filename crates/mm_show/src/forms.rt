ghost use Rattle.std.specs.Prelude.{◌≡◌, map, option_map, string_bytes, IfOk};
ghost use Rattle.mm_text.specs.{number_of};
ghost use Rattle.mm_arguments.specs.{texts};
ghost use Rattle.mm_show.specs.declared.forms.Form.TheVariants as form;
ghost use Rattle.mm_show.specs.Forms.{asked_word, files_beside, page_files, alone, form_in, form_of};
ghost use Rattle.mm_show.specs.Forms.{is_csv, with_one, counts_with, faults_with, line_asked_for};
ghost use Rattle.mm_show.specs.Forms.{key_asked};

use crate::keys::{key, line};
use mm_arguments::read_words;
use mm_reports::Style;
use mm_script::is_text;
use mm_text::number;
use mm_types::{Key, NoMemory};
use std::alloc::Global;

/// What is shown of a log.
#[derive(Clone, Copy, PartialEq, Eq)]
pub enum Form {
    /// One page for a browser, with so many files beside the log.
    Html(Files),
    /// The lines, and in words what each did, with so many files beside the log.
    Tell(Files),
    /// A row of csv for each move, with so many files beside the log.
    Events(Files),
    /// A row of counts after each line.
    Counts,
    /// The same by the rule of csv, with the working sets and the charge, and so many files beside
    /// the log.
    CountsCsv(Files),
    /// What the page frames are used for after a line, 1 to 1,000,000.
    CountsAt(u32),
    /// All that stands after a line, 1 to 1,000,000.
    StateAt(u32),
    /// What became of a page frame.
    FrameAt(u32),
    /// What became of a page.
    KeyAt(Key),
    /// The faults by process and page.
    Faults(Style),
    /// How many moves are of each class, and how many lines of each kind.
    Sums,
}

/// Which files are named beside the log.
#[derive(Clone, Copy, PartialEq, Eq)]
pub enum Files {
    None,
    /// The script.
    Script,
    /// The script, and its answers.
    Both,
    /// The script, its answers, and observations of them.
    Observed,
}

/// A word by its place; the empty text where there is none.
pub(crate) fn asked_word(words: &[String], place: usize) -> &[u8]
    ensures { result.now ≡ asked_word (map string_bytes words.now) place }
{
    match words.get(place) {
        Some(word) => word.as_bytes(),
        None => &[],
    }
}

/// The first of a form's values; the empty text where there is none.
fn value<'a>(values: &[&'a str]) -> &'a [u8]
    ensures { result.now ≡ asked_word (texts values.now) 0 }
{
    match values.get(0) {
        Some(value) => value.as_bytes(),
        None => &[],
    }
}

/// The files that so many values name.
fn files_beside(count: usize) -> Option<Files>
    ensures { result ≡ files_beside count }
{
    if count == 0 {
        Some(Files::None)
    } else if count == 1 {
        Some(Files::Script)
    } else if count == 2 {
        Some(Files::Both)
    } else {
        None
    }
}

/// The files that so many values of a page name.
fn page_files(count: usize) -> Option<Files>
    ensures { result ≡ page_files count }
{
    if count == 3 {
        Some(Files::Observed)
    } else {
        files_beside(count)
    }
}

fn html_form(count: usize) -> Option<Form>
    ensures { result ≡ option_map form.Html (page_files count) }
{
    match page_files(count) {
        Some(files) => Some(Form::Html(files)),
        None => None,
    }
}

fn tell_form(count: usize) -> Option<Form>
    ensures { result ≡ option_map form.Tell (files_beside count) }
{
    match files_beside(count) {
        Some(files) => Some(Form::Tell(files)),
        None => None,
    }
}

fn events_form(count: usize) -> Option<Form>
    ensures { result ≡ option_map form.Events (files_beside count) }
{
    match files_beside(count) {
        Some(files) => Some(Form::Events(files)),
        None => None,
    }
}

fn alone(form: Form, count: usize) -> Option<Form>
    ensures { result ≡ alone form count }
{
    if count == 0 { Some(form) } else { None }
}

fn is_csv(value: &[u8]) -> bool
    ensures { result ≡ is_csv value.now }
{
    is_text(value, b"csv")
}

fn counts_csv_form(count: usize) -> Option<Form>
    ensures { result ≡ option_map form.CountsCsv (files_beside count) }
{
    match files_beside(count) {
        Some(files) => Some(Form::CountsCsv(files)),
        None => None,
    }
}

fn counts_form(first: &[u8], count: usize) -> Option<Form>
    ensures { result ≡ counts_with first.now count }
{
    if count == 0 {
        return Some(Form::Counts);
    }
    if is_csv(first) {
        return counts_csv_form(count - 1);
    }
    if count != 1 {
        return None;
    }
    match line(first) {
        Some(line) => Some(Form::CountsAt(line)),
        None => None,
    }
}

fn faults_form(first: &[u8], count: usize) -> Option<Form>
    ensures { result ≡ faults_with first.now count }
{
    if count == 0 {
        Some(Form::Faults(Style::Columns))
    } else if count == 1 && is_csv(first) {
        Some(Form::Faults(Style::Csv))
    } else {
        None
    }
}

fn state_form(first: &[u8], count: usize) -> Option<Form>
    ensures { result ≡ with_one form.StateAt (line_asked_for first.now) count }
{
    if count != 1 {
        return None;
    }
    match line(first) {
        Some(line) => Some(Form::StateAt(line)),
        None => None,
    }
}

fn frame_form(first: &[u8], count: usize) -> Option<Form>
    ensures { result ≡ with_one form.FrameAt (number_of first.now) count }
{
    if count != 1 {
        return None;
    }
    match number(first) {
        Some(frame) => Some(Form::FrameAt(frame)),
        None => None,
    }
}

fn key_form(first: &[u8], count: usize) -> Option<Form>
    ensures { result ≡ with_one form.KeyAt (key_asked first.now) count }
{
    if count != 1 {
        return None;
    }
    match key(first) {
        Some(key) => Some(Form::KeyAt(key)),
        None => None,
    }
}

/// The form of this name with these values.
#[tactic(auto, using(crate::proofs::Worded::worded))]
fn form_in(name: &[u8], values: &[&str]) -> Option<Form>
    ensures { result ≡ form_in name.now (texts values.now) }
{
    let first = value(values);
    let count = values.len();
    if is_text(name, b"html") {
        html_form(count)
    } else if is_text(name, b"tell") {
        tell_form(count)
    } else if is_text(name, b"events") {
        events_form(count)
    } else if is_text(name, b"counts") {
        counts_form(first, count)
    } else if is_text(name, b"state") {
        state_form(first, count)
    } else if is_text(name, b"frame") {
        frame_form(first, count)
    } else if is_text(name, b"key") {
        key_form(first, count)
    } else if is_text(name, b"faults") {
        faults_form(first, count)
    } else if is_text(name, b"sums") {
        alone(Form::Sums, count)
    } else {
        None
    }
}

/// A name, and between how many values may stand behind it.
fn words_form(name: &'static str, least: usize, most: usize) -> mm_arguments::Form<'static>
    ensures name { result.name.now ≡ name.entry.now }
    ensures least { result.least ≡ least }
    ensures most { result.most ≡ most }
{
    mm_arguments::Form { name, least, most }
}

/// What the words ask, where they are a form. An `Err` is memory that was refused.
pub(crate) fn asked(alloc: Global, words: &[String]) -> Result<Option<Form>, NoMemory>
    ensures { IfOk result (λ r. r ≡ form_of (map string_bytes words.now)) }
{
    let forms = [
        words_form("html", 0, 3),
        words_form("tell", 0, 2),
        words_form("events", 0, 2),
        words_form("counts", 0, 3),
        words_form("state", 1, 1),
        words_form("frame", 1, 1),
        words_form("key", 1, 1),
        words_form("faults", 0, 1),
        words_form("sums", 0, 0),
    ];
    let said = match read_words(alloc, &forms, words)? {
        Some(said) => said,
        None => return Ok(None),
    };
    Ok(form_in(said.name.as_bytes(), said.values.as_slice()))
}
