//! Shows a log of moves on standard input, as a page for a browser and as texts for the terminal.
#![tactic(auto)]

use clap::{Arg, ArgAction, Command};
use mm_help::{asks, described, tell};
use mm_html::{
    UP_TO_ANSWERS, UP_TO_CLASSES, UP_TO_END, UP_TO_MOVES, UP_TO_NAME, UP_TO_OBSERVATIONS,
    UP_TO_SCRIPT,
};
use mm_io::{StdSink, StdSource, buffered, exit_code, words};
use mm_show::{PageTexts, first_file, run_show};
use mm_types::NoMemory;
use std::alloc::Global;
use std::fs::File;
use std::process::ExitCode;
use std::{fs, io};

/// The status of words that are no form.
const USAGE: u8 = 2;

const ABOUT: &str = "Shows a log of page frames.";

const AFTER: &str = "\
The log is read from standard input. SCRIPT and ANSWERS are files, whose lines stand beside the
moves; of OBSERVATIONS, as melzudek observe writes them, a page has address spaces and the charge:
  mmshow tell examples/first.mm examples/first.out < first.log

Statuses: 0 shown; 1 memory was refused; 2 the words are no form; 3 a line of the log is no legal
move; 4 the log or a file could not be read; 5 the text could not be written; 6 a file does not fit
the log, or the log has no such line or page frame; 8 the log has more than 1,000,000,000,000
bytes.";

/// The form that has at most three files behind it.
fn with_observations<'a>(
    alloc: Global,
    name: &'a str,
    about: &'a str,
) -> Result<Command<'a>, NoMemory> {
    let observations = Arg::new(alloc, "OBSERVATIONS").help("The file of its observations");
    let command = with_files(alloc, name, about)?.arg(observations)?;
    Ok(command)
}

/// A form that has at most two files behind it.
fn with_files<'a>(alloc: Global, name: &'a str, about: &'a str) -> Result<Command<'a>, NoMemory> {
    let script = Arg::new(alloc, "SCRIPT").help("The file of the script");
    let answers = Arg::new(alloc, "ANSWERS").help("The file of its answers");
    let command = Command::new(alloc, name)
        .about(about)
        .arg(script)?
        .arg(answers)?;
    Ok(command)
}

/// A form that has a value behind it.
fn with_value<'a>(
    alloc: Global,
    name: &'a str,
    about: &'a str,
    value: &'a str,
) -> Result<Command<'a>, NoMemory> {
    let value = Arg::new(alloc, value).action(ArgAction::Set).required(true);
    let command = Command::new(alloc, name).about(about).arg(value)?;
    Ok(command)
}

/// The counts, line by line or after one; behind the word `csv` stand two files at most.
fn counts<'a>(alloc: Global) -> Result<Command<'a>, NoMemory> {
    let what = Arg::new(alloc, "LINE").help("A line, or the word csv for all by the rule of csv");
    let script = Arg::new(alloc, "SCRIPT").help("Behind csv: the file of the script");
    let answers = Arg::new(alloc, "ANSWERS").help("Behind csv: the file of its answers");
    let command = Command::new(alloc, "counts")
        .about("The lists, line by line or after one")
        .arg(what)?
        .arg(script)?
        .arg(answers)?;
    Ok(command)
}

/// The faults, in columns or by the rule of csv.
fn faults<'a>(alloc: Global) -> Result<Command<'a>, NoMemory> {
    let style = Arg::new(alloc, "csv").help("The word csv, for a table by the rule of csv");
    let command = Command::new(alloc, "faults")
        .about("The faults by process and page")
        .arg(style)?;
    Ok(command)
}

/// The program's forms, as its help and its mistakes tell them.
fn command<'a>(alloc: Global) -> Result<Command<'a>, NoMemory> {
    let html = with_observations(alloc, "html", "One page for a browser")?;
    let tells = with_files(alloc, "tell", "Each line, and in words what moved")?;
    let events = with_files(alloc, "events", "A row of csv for each move")?;
    let counts = counts(alloc)?;
    let state = with_value(
        alloc,
        "state",
        "Every page frame and page after a line",
        "LINE",
    )?;
    let frame = with_value(alloc, "frame", "What became of a page frame", "N")?;
    let key = with_value(alloc, "key", "What became of a page, as p1.16", "KEY")?;
    let faults = faults(alloc)?;
    let sums = Command::new(alloc, "sums").about("How many moves of each class");
    let command = described(alloc, "mmshow", ABOUT, AFTER)
        .subcommand_required(true)
        .subcommand(html)?
        .subcommand(tells)?
        .subcommand(events)?
        .subcommand(counts)?
        .subcommand(state)?
        .subcommand(frame)?
        .subcommand(key)?
        .subcommand(faults)?
        .subcommand(sums)?;
    Ok(command)
}

/// The file that the word at a place behind others names, if there is such a word and the file can
/// be opened.
fn named(
    rt: &HostRuntime,
    words: &[String],
    first: Option<usize>,
    behind: usize,
) -> Option<StdSource<File>> {
    let place = first?.checked_add(behind)?;
    match words.get(place) {
        Some(name) => match fs::open(rt, name.as_str()) {
            Ok(file) => Some(StdSource::new(file)),
            Err(_) => None,
        },
        None => None,
    }
}

/// Opens the folder of all files. Where a standard stream is closed it takes that one's number, so
/// that no file does: what reads from it or writes to it fails.
fn barred(rt: &HostRuntime) -> Option<File> {
    match fs::open(rt, "/") {
        Ok(folder) => Some(folder),
        Err(_) => None,
    }
}

fn texts() -> PageTexts<'static> {
    PageTexts {
        up_to_classes: UP_TO_CLASSES.as_bytes(),
        up_to_moves: UP_TO_MOVES.as_bytes(),
        up_to_script: UP_TO_SCRIPT.as_bytes(),
        up_to_answers: UP_TO_ANSWERS.as_bytes(),
        up_to_name: UP_TO_NAME.as_bytes(),
        up_to_observations: UP_TO_OBSERVATIONS.as_bytes(),
        up_to_end: UP_TO_END.as_bytes(),
    }
}

/// Says what is wrong with words that are no form, where there is memory for it.
fn explain(rt: &HostRuntime, alloc: Global, words: &[String]) {
    if let Ok(command) = command(alloc) {
        let _ = tell(rt, command, words);
    }
}

/// Shows the log on standard input, and answers the status. The text is flushed by then.
fn show(rt: &HostRuntime) -> Result<u8, NoMemory> {
    let words = words(rt)?;
    let alloc: Global = rt.alloc();
    if asks(&words) {
        return tell(rt, command(alloc)?, &words);
    }
    let _streams = [barred(rt), barred(rt), barred(rt)];
    let first = first_file(alloc, &words)?;
    let mut script = named(rt, &words, first, 0);
    let mut answers = named(rt, &words, first, 1);
    let mut observations = named(rt, &words, first, 2);
    let mut log = StdSource::new(rt.reader());
    let mut out = StdSink::new(buffered(alloc, io::writer(rt))?);
    let status = run_show(
        alloc,
        &words,
        &mut log,
        &mut script,
        &mut answers,
        &mut observations,
        &texts(),
        &mut out,
    );
    if status == USAGE {
        explain(rt, alloc, &words);
    }
    Ok(status)
}

fn main(rt: HostRuntime) -> ExitCode {
    exit_code(show(&rt))
}
