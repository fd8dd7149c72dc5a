//! Simulates the memory manager of 32-bit Windows: a script on standard input, its answers on
//! standard output, the moves of its page frames on standard error.
#![tactic(auto)]

use clap::{Arg, Command, value_parser};
use mm_devices::MemBlocks;
use mm_help::{asks, described, tell};
use mm_io::{StdSink, StdSource, buffered, exit_code, words};
use mm_run::run;
use mm_types::NoMemory;
use std::alloc::Global;
use std::io;
use std::process::ExitCode;

/// The status of words that are no form.
const USAGE: u8 = 2;

const ABOUT: &str = "Simulates the memory manager of 32-bit Windows.";

const AFTER: &str = "\
A script is read from standard input. Answers are written to standard output, a line for each, and
the log of page frames to standard error:
  mmsim run < examples/first.mm 2> first.log

Statuses: 0 ended well; 1 memory was refused; 2 the words are no form; 3 a line is no line of a
script; 4 the script could not be read; 5 the answers could not be written; 6 the log could not be
written; 7 a device could not be opened; 8 a line has more than 256 bytes, or the script more than
1,000,000 lines.";

/// The program's forms, as its help and its mistakes tell them.
fn command<'a>(alloc: Global) -> Result<Command<'a>, NoMemory> {
    let run = Command::new(alloc, "run").about("Runs the script on standard input");
    let seed = Arg::new(alloc, "SEED")
        .required(true)
        .help("What the lines are drawn from");
    let count = Arg::new(alloc, "COUNT")
        .required(true)
        .value_parser(value_parser!(u32).range(0..=100_000))
        .help("How many lines are drawn, at most 100,000");
    let bulk = Command::new(alloc, "bulk")
        .about("Runs a script that is drawn from a number")
        .arg(seed)?
        .arg(count)?;
    let command = described(alloc, "mmsim", ABOUT, AFTER)
        .subcommand_required(true)
        .subcommand(run)?
        .subcommand(bulk)?;
    Ok(command)
}

/// A device in memory that fails no call and tells no log.
fn device(alloc: Global) -> Result<MemBlocks, NoMemory> {
    MemBlocks::new(alloc, Vec::new(alloc), 0)
}

/// Says what is wrong with words that are no form, where there is memory for it.
fn explain(rt: &HostRuntime, alloc: Global, words: &[String]) {
    if let Ok(command) = command(alloc) {
        let _ = tell(rt, command, words);
    }
}

/// Runs the program's words on standard input and output; the moves are written to standard error.
fn simulate(rt: &HostRuntime) -> Result<u8, NoMemory> {
    let words = words(rt)?;
    let alloc: Global = rt.alloc();
    if asks(&words) {
        return tell(rt, command(alloc)?, &words);
    }
    let mut paging = device(alloc)?;
    let mut files = device(alloc)?;
    let mut source = StdSource::new(rt.reader());
    let mut out = StdSink::new(buffered(alloc, io::writer(rt))?);
    let mut moves = StdSink::new(buffered(alloc, rt.stderr())?);
    let status = run(
        alloc,
        &words,
        &mut source,
        &mut out,
        &mut moves,
        &mut paging,
        &mut files,
    );
    if status == USAGE {
        explain(rt, alloc, &words);
    }
    Ok(status)
}

fn main(rt: HostRuntime) -> ExitCode {
    exit_code(simulate(&rt))
}
