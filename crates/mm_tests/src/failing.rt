use mm_devices::MemBlocks;
use mm_io::{MemSink, MemSource};
use mm_log_check::run_log;
use mm_run::run;
use std::alloc::{AllocError, Global};
use std::process::Abort;
use std::test::Fail;

pub(super) const RUN: &[&str] = &["run"];

/// What fails in a run: one call of the source, of a sink or of a device each, counted from 1; none
/// where it is 0.
#[derive(Clone, Copy)]
pub(super) struct Failing {
    pub read: u32,
    pub answer: u32,
    pub note: u32,
    pub paging: u32,
    pub file: u32,
}

pub(super) const NOTHING: Failing = Failing {
    read: 0,
    answer: 0,
    note: 0,
    paging: 0,
    file: 0,
};

/// What a run came to: its status, what was written, and the first two bytes of the file device.
#[derive(Drop)]
pub(super) struct Ended {
    pub status: u8,
    pub answers: String,
    pub moves: String,
    pub first: [u8; 2],
}

fn device(alloc: Global, fails: u32) -> Result<MemBlocks, Fail> {
    let device = MemBlocks::new(alloc, vec![in alloc; fails]?, 1000);
    Ok(device.map_err(|_| "no room for a device")?)
}

fn sink(alloc: Global, room: u32, fails: u32) -> Result<MemSink, Fail> {
    let sink = MemSink::new(alloc, room, vec![in alloc; fails]?);
    Ok(sink.map_err(|_| "no room for a sink")?)
}

fn source(alloc: Global, text: &str, fails: u32) -> Result<MemSource, Fail> {
    let bytes = Vec::from_slice(alloc, text.as_bytes())?;
    Ok(MemSource::new(bytes, vec![in alloc; fails]?))
}

fn owned(alloc: Global, texts: &[&str]) -> Result<Vec<String>, Fail> {
    let mut words: Vec<String> = Vec::new(alloc);
    for text in texts {
        words.push(String::from_str(alloc, *text)?)?;
    }
    Ok(words)
}

/// The first bytes of a device; zeros where it was not opened.
fn first_bytes(device: &MemBlocks) -> [u8; 2] {
    if device.count() == 0 {
        return [0, 0];
    }
    let block = device.block(0);
    [block[0], block[1]]
}

fn text_of(alloc: Global, sink: &MemSink) -> Result<String, Fail> {
    let text = str::from_utf8(sink.bytes())?;
    Ok(String::from_str(alloc, text)?)
}

/// The status of a run; what else its contract says is not handed on.
fn status_of(
    alloc: Global,
    words: &[String],
    source: &mut MemSource,
    out: &mut MemSink,
    moves: &mut MemSink,
    paging: &mut MemBlocks,
    files: &mut MemBlocks,
) -> u8 {
    run(alloc, words, source, out, moves, paging, files)
}

/// What a run over these comes to.
fn ended_over(
    alloc: Global,
    words: &[String],
    source: &mut MemSource,
    out: &mut MemSink,
    moves: &mut MemSink,
    paging: &mut MemBlocks,
    files: &mut MemBlocks,
) -> Result<Ended, Fail> {
    let status = status_of(alloc, words, source, out, moves, paging, files);
    Ok(Ended {
        status,
        answers: text_of(alloc, out)?,
        moves: text_of(alloc, moves)?,
        first: first_bytes(files),
    })
}

/// Runs a script by these words, where one call of the outside fails.
pub(super) fn outcome(
    alloc: Global,
    words: &[&str],
    script: &str,
    failing: Failing,
) -> Result<Ended, Fail> {
    let form = owned(alloc, words)?;
    let mut source = source(alloc, script, failing.read)?;
    let mut out = sink(alloc, 4096, failing.answer)?;
    let mut moves = sink(alloc, 65536, failing.note)?;
    let mut paging = device(alloc, failing.paging)?;
    let mut files = device(alloc, failing.file)?;
    ended_over(
        alloc,
        form.as_slice(),
        &mut source,
        &mut out,
        &mut moves,
        &mut paging,
        &mut files,
    )
}

/// The status of a check of a log; what else its contract says is not handed on.
fn log_status(alloc: Global, words: &[String], source: &mut MemSource, out: &mut MemSink) -> u8 {
    run_log(alloc, words, source, out)
}

/// Has the checker of logs read these moves, where one call of its source or its sink fails: its
/// status, and how many bytes it wrote.
pub(super) fn checked(
    alloc: Global,
    moves: &str,
    read_fails: u32,
    write_fails: u32,
) -> Result<(u8, usize), Fail> {
    let form = owned(alloc, &["check"])?;
    let mut source = source(alloc, moves, read_fails)?;
    let mut out = sink(alloc, 300, write_fails)?;
    let status = log_status(alloc, form.as_slice(), &mut source, &mut out);
    Ok((status, out.bytes().len()))
}

/// Asserts that the checker of logs accepts these moves.
fn assert_log(rt: &impl Abort, alloc: Global, moves: &str) -> Result<(), Fail> {
    let (status, _) = checked(alloc, moves, 0, 0)?;
    assert_eq!(rt; status, 0);
    Ok(())
}

/// Asserts with which status and answers a run ended, and that its log is accepted.
pub(super) fn assert_ended(
    rt: &impl Abort,
    alloc: Global,
    ended: &Ended,
    status: u8,
    answers: &str,
) -> Result<(), Fail> {
    assert_eq!(rt; ended.status, status);
    assert_eq!(rt; ended.answers.as_str(), answers);
    assert_log(rt, alloc, ended.moves.as_str())
}

/// The first lines of a text.
pub(super) fn first_lines(alloc: Global, text: &str, n: usize) -> Result<String, AllocError> {
    let mut first = String::new(alloc);
    for (place, line) in text.lines().enumerate() {
        if place < n {
            first.push_str(line)?;
            first.push_str("\n")?;
        }
    }
    Ok(first)
}
