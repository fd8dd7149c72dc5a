//! Checks a log of moves on standard input: whether it replays, and its counts, or where a page
//! stands at its end.
#![tactic(auto)]

use clap::{Arg, Command};
use mm_help::{asks, described, tell};
use mm_io::{StdSink, StdSource, buffered, exit_code, words};
use mm_log_check::run_log;
use mm_types::NoMemory;
use std::alloc::Global;
use std::io;
use std::process::ExitCode;

/// The status of words that are no form.
const USAGE: u8 = 2;

const ABOUT: &str = "Checks a log of page frames.";

const AFTER: &str = "\
The log is read from standard input:
  mmlog check < first.log

Statuses: 0 the log replays; 1 memory was refused; 2 the words are no form; 3 a line is no legal
move; 4 the log could not be read; 5 the answer could not be written; 8 the log has more than
1,000,000,000,000 bytes.";

/// The program's forms, as its help and its mistakes tell them.
fn command<'a>(alloc: Global) -> Result<Command<'a>, NoMemory> {
    let check = Command::new(alloc, "check").about("Whether the log replays, and its counts");
    let key = Arg::new(alloc, "KEY")
        .required(true)
        .help("A page: p1.16 of a process, s1.16 of a section");
    let where_is = Command::new(alloc, "where")
        .about("Where the bytes of a page stand at the log's end")
        .arg(key)?;
    let command = described(alloc, "mmlog", ABOUT, AFTER)
        .subcommand_required(true)
        .subcommand(check)?
        .subcommand(where_is)?;
    Ok(command)
}

/// Says what is wrong with words that are no form, where there is memory for it.
fn explain(rt: &HostRuntime, alloc: Global, words: &[String]) {
    if let Ok(command) = command(alloc) {
        let _ = tell(rt, command, words);
    }
}

/// Checks the log on standard input, and answers the status. The answer is flushed by then.
fn check(rt: &HostRuntime) -> Result<u8, NoMemory> {
    let words = words(rt)?;
    let alloc: Global = rt.alloc();
    if asks(&words) {
        return tell(rt, command(alloc)?, &words);
    }
    let mut source = StdSource::new(rt.reader());
    let mut out = StdSink::new(buffered(alloc, io::writer(rt))?);
    let status = run_log(alloc, &words, &mut source, &mut out);
    if status == USAGE {
        explain(rt, alloc, &words);
    }
    Ok(status)
}

fn main(rt: HostRuntime) -> ExitCode {
    exit_code(check(&rt))
}
