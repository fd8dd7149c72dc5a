use crate::failing::{Failing, NOTHING, RUN, assert_ended, outcome};
use std::alloc::Global;
use std::process::Abort;
use std::test::Fail;

/// A page goes to its slot, loses its frame and is read in again, and the paging file grows twice.
const SWAPPING: &str =
    "machine 6 8 1 0\nprocess 0 8\nalloc 1 0 0x7000 0x3000 0x04\nwrite 1 0x10000 5A\ntrim 1 1\n\
writer 1\nio 1\nwrite 1 0x11000 01\nwrite 1 0x12000 02\nwrite 1 0x13000 03\n\
write 1 0x14000 04\nwrite 1 0x15000 05\nwrite 1 0x16000 06\nread 1 0x10000 1\n\
grow 2\ngrow 3\n";

const SWAPPED: &str =
    "ok 10\nok 1\nok 0x00010000\nok\nok\nok\nok\nok\nok\nok\nok\nok\nok\nok 5A\nok 12\nok 15\n";

const NOT_WRITTEN: &str =
    "ok 10\nok 1\nok 0x00010000\nok\nok\nok\nfault\nok\nok\nok\nok\nok\nok\nok 5A\nok 12\nok 15\n";

const NOT_BACK: &str =
    "ok 10\nok 1\nok 0x00010000\nok\nok\nok\nok\nok\nok\nok\nok\nok\nok\nraise 0xC0000006\n\
ok 12\nok 15\n";

const NOT_GROWN: &str =
    "ok 10\nok 1\nok 0x00010000\nok\nok\nok\nok\nok\nok\nok\nok\nok\nok\nok 5A\nfault\nok 13\n";

const GROWN_ONCE: &str =
    "ok 10\nok 1\nok 0x00010000\nok\nok\nok\nok\nok\nok\nok\nok\nok\nok\nok 5A\nok 12\nfault\n";

/// A file is made, written in a view, flushed twice, and read.
const FLUSHING: &str =
    "machine 8 8 1 4\nfile a 2 1\nprocess 0 4\ncreatefile 1 a 0x04 -\nmap 1 4 6 0 0 0\n\
write 1 0x10000 FF\nflush 1 0x10000 0\nflush 1 0x10000 0\nread 1 0x10000 2\n";

const FLUSHED: &str = "ok 12\nok\nok 1\nok 4 0\nok 0x00010000\nok\nok\nok\nok FF01\n";

const NOT_MADE: &str =
    "ok 12\nfault\nok 1\nerror 2\nerror 6\nraise 0xC0000005\nerror 487\nerror 487\n\
raise 0xC0000005\n";

const NOT_READ: &str =
    "ok 12\nok\nok 1\nok 4 0\nok 0x00010000\nraise 0xC0000006\nok\nok\nok 0101\n";

const FLUSHED_LATER: &str = "ok 12\nok\nok 1\nok 4 0\nok 0x00010000\nok\nfault\nok\nok FF01\n";

/// Asserts what a script comes to where one call of a device fails: its answers, and the first two
/// bytes of the file device.
fn assert_failing(
    rt: &impl Abort,
    alloc: Global,
    script: &str,
    failing: Failing,
    answers: &str,
    first: [u8; 2],
) -> Result<(), Fail> {
    let ended = outcome(alloc, RUN, script, failing)?;
    assert_ended(rt, alloc, &ended, 0, answers)?;
    assert_eq!(rt; ended.first, first);
    Ok(())
}

/// The first call opens the device, one writes the page, one writes another to make room, one reads
/// the page, two make the paging file grow. Where the first write fails, the page is written again
/// for want of frames; where the second does, another page is written in its place.
#[test]
fn each_call_of_the_paging_device_fails_once(rt: HostRuntime) -> Result<(), Fail> {
    for (paging, answers) in [
        (2, NOT_WRITTEN),
        (3, SWAPPED),
        (4, NOT_BACK),
        (5, NOT_GROWN),
        (6, GROWN_ONCE),
        (7, SWAPPED),
    ] {
        let failing = Failing { paging, ..NOTHING };
        assert_failing(&rt, rt.alloc(), SWAPPING, failing, answers, [0, 0])?;
    }
    Ok(())
}

/// The first call opens the device, two write the file, one reads its first page, one flushes it:
/// the second flush makes none.
#[test]
fn each_call_of_a_flushed_file_fails_once(rt: HostRuntime) -> Result<(), Fail> {
    for (file, answers, first) in [
        (2, NOT_MADE, [0, 0]),
        (3, NOT_MADE, [1, 1]),
        (4, NOT_READ, [1, 1]),
        (5, FLUSHED_LATER, [0xFF, 1]),
        (6, FLUSHED, [0xFF, 1]),
    ] {
        let failing = Failing { file, ..NOTHING };
        assert_failing(&rt, rt.alloc(), FLUSHING, failing, answers, first)?;
    }
    Ok(())
}
