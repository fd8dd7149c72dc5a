use crate::failing::{Ended, Failing, NOTHING, RUN, assert_ended, first_lines, outcome};
use std::alloc::Global;
use std::process::Abort;
use std::test::Fail;

/// A page is written, given up, and committed again.
const SCRIPT: &str =
    "machine 8 4 1 0\nprocess 1 8\nalloc 1 0 0x1000 0x3000 0x04\nwrite 1 0x10000 5A5A\n\
free 1 0x10000 0x1000 0x4000\nread 1 0x10000 2\nalloc 1 0x10000 0x1000 0x1000 0x04\n\
read 1 0x10000 2\n";

const ANSWERS: &str =
    "ok 8\nok 1\nok 0x00010000\nok\nok\nraise 0xC0000005\nok 0x00010000\nok 0000\n";

/// The page that comes again gets the next frame: the one that it had before is the last of the
/// free ones then.
const MOVES: &str =
    "at 1 machine 8 4 1 0\nat 2 process 1 1 8\nat 3 call\nadd p1.16 zero\nat 4 access 1\nclear 0\n\
give 0 p1.16\nmap 0 1.16\nat 5 unbind 1\nunmap 1.16\ndrop p1.16\nat 6 access 1\nat 7 call\n\
add p1.16 zero\nat 8 access 1\nclear 1\ngive 1 p1.16\nmap 1 1.16\n";

fn script() -> &'static str {
    SCRIPT
}

/// The answers of the first lines.
fn answers(alloc: Global, lines: usize) -> Result<String, Fail> {
    Ok(first_lines(alloc, ANSWERS, lines)?)
}

/// Runs the script, with more behind it, where one call fails, and asserts its status and that the
/// answers of so many of its lines were given on.
fn assert_run(
    rt: &impl Abort,
    alloc: Global,
    behind: &str,
    failing: Failing,
    told: (u8, usize),
) -> Result<Ended, Fail> {
    let mut text = String::from_str(alloc, script())?;
    text.push_str(behind)?;
    let ended = outcome(alloc, RUN, text.as_str(), failing)?;
    let wanted = answers(alloc, told.1)?;
    assert_ended(rt, alloc, &ended, told.0, wanted.as_str())?;
    Ok(ended)
}

/// The first read gives the whole script, the second one its end.
#[test]
fn a_source_that_fails(rt: HostRuntime) -> Result<(), Fail> {
    for (read, lines) in [(1, 0), (2, 8)] {
        let failing = Failing { read, ..NOTHING };
        let _ended = assert_run(&rt, rt.alloc(), "", failing, (4, lines))?;
    }
    Ok(())
}

/// The answers that are kept are one write, and the last text is another. After one that is not
/// taken nothing is written.
#[test]
fn answers_that_are_not_taken(rt: HostRuntime) -> Result<(), Fail> {
    for (behind, answer, told) in [
        ("", 1, (5, 0)),
        ("", 2, (0, 8)),
        ("x\n", 1, (5, 0)),
        ("x\n", 2, (5, 8)),
    ] {
        let failing = Failing { answer, ..NOTHING };
        let _ended = assert_run(&rt, rt.alloc(), behind, failing, told)?;
    }
    Ok(())
}

/// Each move is one write. Where one is not taken, no answer since the last flush is given on, and
/// all were read at once.
#[test]
fn moves_that_are_not_taken(rt: HostRuntime) -> Result<(), Fail> {
    let alloc = rt.alloc();
    for taken in 0..19u32 {
        let failing = Failing {
            note: taken + 1,
            ..NOTHING
        };
        let told = if taken < 18 { (6, 0) } else { (0, 8) };
        let ended = assert_run(&rt, alloc, "", failing, told)?;
        let moves = first_lines(alloc, MOVES, taken as usize)?;
        assert_eq!(rt; ended.moves.as_str(), moves.as_str());
    }
    Ok(())
}

/// A run whose devices are not both opened answers nothing and notes nothing.
#[test]
fn devices_that_are_not_opened(rt: HostRuntime) -> Result<(), Fail> {
    for (paging, file) in [(1, 0), (0, 1)] {
        let failing = Failing {
            paging,
            file,
            ..NOTHING
        };
        let ended = assert_run(&rt, rt.alloc(), "", failing, (7, 0))?;
        assert_eq!(rt; ended.moves.as_str(), "");
    }
    Ok(())
}

/// A text with 600 times the same line behind it.
fn longer(alloc: Global, text: &str, line: &str) -> Result<String, Fail> {
    let mut longer = String::from_str(alloc, text)?;
    for _ in 0..600 {
        longer.push_str(line)?;
    }
    Ok(longer)
}

/// How many lines of a script its first read gives.
fn first_read(script: &str) -> Result<usize, Fail> {
    let (first, _) = script.split_at_checked(4096).ok_or("no second read")?;
    Ok(first.bytes().filter(|byte| *byte == b'\n').count())
}

/// A line of a script that takes two reads has its move not taken: the answers of the first read
/// alone are given on.
#[test]
fn moves_behind_a_flush(rt: HostRuntime) -> Result<(), Fail> {
    let alloc = rt.alloc();
    let script = longer(alloc, script(), "charge\n")?;
    let answers = longer(alloc, ANSWERS, "ok 1 8\n")?;
    let whole = first_read(script.as_str())?;
    // The first eight lines make 18 moves, each later one makes one.
    let behind = (whole.min(4_096) as u32).saturating_add(11);
    for (note, told) in [(behind - 1, 0), (behind, whole), (behind + 9, whole)] {
        let failing = Failing { note, ..NOTHING };
        let ended = outcome(alloc, RUN, script.as_str(), failing)?;
        let wanted = first_lines(alloc, answers.as_str(), told)?;
        assert_eq!(rt; ended.status, 6);
        assert_eq!(rt; ended.answers.as_str(), wanted.as_str());
    }
    Ok(())
}

/// A generated script has four lines of answers, of which none is given on.
#[test]
fn a_generated_script_whose_streams_fail(rt: HostRuntime) -> Result<(), Fail> {
    for (note, answer, status) in [(1, 0, 6), (2, 0, 6), (30, 0, 6), (0, 1, 5)] {
        let failing = Failing {
            note,
            answer,
            ..NOTHING
        };
        let ended = outcome(rt.alloc(), &["bulk", "7", "20"], "", failing)?;
        assert_eq!(rt; ended.status, status);
        assert_eq!(rt; ended.answers.as_str(), "");
    }
    Ok(())
}
