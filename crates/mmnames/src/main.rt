//! Writes the script that a file means as people write it: Windows' names, sums, comments, and a
//! reason for every refusal.
#![tactic(auto)]

use clap::Command;
use mm_help::{asks, described, tell};
use mm_io::{StdSink, StdSource, buffered, exit_code, words};
use mm_reasons::run_names;
use mm_types::NoMemory;
use std::alloc::Global;
use std::io;
use std::process::ExitCode;

/// The status of words that are no form.
const USAGE: u8 = 2;

const ABOUT: &str = "Writes the plain script of a script as people write it.";

const AFTER: &str = "\
The written script is read from standard input, the plain one is written to standard output, and
what is wrong to standard error. Without a word the whole file is translated:
  mmnames < examples/lab.txt | mmsim run

Statuses: 0 the script was written; 1 memory was refused; 2 the words are no form; 3 a line means
nothing that may stand there; 4 the file could not be read; 5 the script could not be written; 8 the
file has more than 100,000,000 bytes, or the script more than 1,000,000 lines.";

/// The program's forms, as its help and its mistakes tell them.
fn command<'a>(alloc: Global) -> Result<Command<'a>, NoMemory> {
    let lines = Command::new(alloc, "lines").about(
        "Also tells which written line each line of the script comes from",
    );
    let talk = Command::new(alloc, "talk").about("Takes each line as it comes");
    let command = described(alloc, "mmnames", ABOUT, AFTER)
        .subcommand(lines)?
        .subcommand(talk)?;
    Ok(command)
}

/// Says what is wrong with words that are no form, where there is memory for it.
fn explain(rt: &HostRuntime, alloc: Global, words: &[String]) {
    if let Ok(command) = command(alloc) {
        let _ = tell(rt, command, words);
    }
}

/// Translates standard input to standard output, and tells on standard error.
fn translate(rt: &HostRuntime) -> Result<u8, NoMemory> {
    let words = words(rt)?;
    let alloc: Global = rt.alloc();
    if asks(&words) {
        return tell(rt, command(alloc)?, &words);
    }
    let mut source = StdSource::new(rt.reader());
    let mut out = StdSink::new(buffered(alloc, io::writer(rt))?);
    let mut err = StdSink::new(buffered(alloc, rt.stderr())?);
    let status = run_names(alloc, &words, &mut source, &mut out, &mut err);
    if status == USAGE {
        explain(rt, alloc, &words);
    }
    Ok(status)
}

fn main(rt: HostRuntime) -> ExitCode {
    exit_code(translate(&rt))
}
