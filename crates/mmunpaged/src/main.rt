//! Runs a script on standard input over pages that never leave memory, and writes its answers: those
//! that paging must not change. A program for comparisons; it tells no moves.
#![tactic(auto)]

ghost use Rattle.std.specs.Prelude.{◌≡◌, ◌≤◌, ◌<◌, ◌+◌, false, OnOk, IfOk, IfSome, length, replicate};
ghost use Rattle.mm_devices.specs.{empty_block};
ghost use Rattle.mm_script.specs.{IsWellFormed};
ghost use Rattle.mm_store.specs.{IsNew};
ghost use Rattle.mm_dispatch.specs.{line_number};
ghost use Rattle.mm_script.specs.{is_machine};

use mm_devices::{BlockDevice, Injected, MemBlocks};
use mm_dispatch::{World, is_machine};
use mm_io::{Found, InputBuffer, Sink, Source, StdSink, StdSource, buffered, exit_code, write_all};
use mm_script::parse_line;
use mm_store::PageStore;
use mm_text::{LineBuf, spell};
use mm_types::{Answer, Event, Machine, NoMemory};
use mm_unpaged::Unpaged;
use std::alloc::Global;
use std::io;
use std::process::ExitCode;

// The statuses of `mmsim`.
const NO_MEMORY: u8 = 1;

const BAD_LINE: u8 = 3;

const READ_FAULT: u8 = 4;

const OUT_FAULT: u8 = 5;

const TOO_LONG: u8 = 8;

/// The event of the next line, `None` at the script's end; or the status that the run ends with.
fn next_event<S: Source>(held: &mut InputBuffer, source: &mut S) -> Result<Option<Event>, u8>
    requires { length held.old < 4096 }
    ensures few { OnOk result (length held.new < 4096) }
    ensures event { IfOk result (λ e. IfSome e (λ e. IsWellFormed e)) }
{
    match held.next(source) {
        Ok(Found::Line(len)) => {
            let line = parse_line(&held.bytes()[..len]);
            held.skip(len + 1);
            match line {
                Ok(event) => Ok(Some(event)),
                Err(_) => Err(BAD_LINE),
            }
        }
        Ok(Found::Long) => Err(BAD_LINE),
        Ok(Found::End) => {
            if held.bytes().is_empty() {
                Ok(None)
            } else {
                Err(BAD_LINE)
            }
        }
        Err(_) => Err(READ_FAULT),
    }
}

/// Writes an answer.
fn tell<O: Sink>(answer: &Answer, out: &mut O) -> Result<(), u8> {
    let mut text = LineBuf::new();
    spell(answer, &mut text);
    write_all(out, text.as_slice()).map_err(|_| OUT_FAULT)
}

/// Decides line `n` and writes its answer; or the status that the run ends with.
fn decide_line<G: PageStore, O: Sink>(
    alloc: Global,
    world: &mut World<G>,
    n: u32,
    event: &Event,
    out: &mut O,
) -> Result<(), u8>
    requires well_formed { IsWellFormed event.now }
    requires next { n ≡ line_number world.old + 1 }
    requires few { n ≤ 1000000 }
    requires ready { world.old.spent ≡ false }
    ensures line { OnOk result (line_number world.new ≡ n) }
    ensures ready { OnOk result (world.new.spent ≡ false) }
{
    if is_machine(event) {
        return Err(BAD_LINE);
    }
    let mut answer = Answer::Ok;
    if world.step(alloc, n, event, &mut answer).is_err() {
        return Err(NO_MEMORY);
    }
    tell(&answer, out)
}

/// Decides the lines behind the first; the status of their end.
fn decide_lines<G: PageStore, S: Source, O: Sink>(
    alloc: Global,
    world: &mut World<G>,
    held: &mut InputBuffer,
    source: &mut S,
    out: &mut O,
) -> u8
    requires first { line_number world.old ≡ 1 }
    requires ready { world.old.spent ≡ false }
    requires room { length held.old < 4096 }
{
    for n in 2..1_000_001 {
        let event = match next_event(held, source) {
            Ok(Some(event)) => event,
            Ok(None) => return 0,
            Err(status) => return status,
        };
        if let Err(status) = decide_line(alloc, world, n, &event, out) {
            return status;
        }
    }
    TOO_LONG
}

/// Decides all lines over the store of a new machine; the status of their end.
fn over_store<G: PageStore, S: Source, O: Sink>(
    alloc: Global,
    machine: Machine,
    store: G,
    held: &mut InputBuffer,
    source: &mut S,
    out: &mut O,
) -> (u8, G)
    requires new { IsNew machine (G.contents store) (G.store store) }
    requires room { length held.old < 4096 }
{
    let mut world = World::new(alloc, machine, store);
    if let Err(status) = tell(&Answer::Limit(machine.limit()), out) {
        return (status, world.finish());
    }
    let status = decide_lines(alloc, &mut world, held, source, out);
    (status, world.finish())
}

/// Decides all lines of a machine whose file device is made for it; the status of their end.
fn over_machine<S: Source, O: Sink>(
    alloc: Global,
    machine: Machine,
    held: &mut InputBuffer,
    source: &mut S,
    out: &mut O,
) -> u8
    requires few { machine.blocks ≤ 262144 }
    requires room { length held.old < 4096 }
{
    let Ok(mut files) = MemBlocks::new(alloc, Vec::new(alloc), 0) else {
        return NO_MEMORY;
    };
    if files.open(machine.blocks()).is_err() {
        return NO_MEMORY;
    }
    match Unpaged::new(alloc, machine, Injected::new(&mut files)) {
        Ok(store) => {
            let (status, store) = over_store(alloc, machine, store, held, source, out);
            let _files = store.finish();
            status
        }
        Err(_) => NO_MEMORY,
    }
}

/// Decides all lines, of which the first names the machine; the status of their end.
fn run_lines<S: Source, O: Sink>(
    alloc: Global,
    held: &mut InputBuffer,
    source: &mut S,
    out: &mut O,
) -> u8
    requires room { length held.old < 4096 }
{
    let event = match next_event(held, source) {
        Ok(Some(event)) => event,
        Ok(None) => return 0,
        Err(status) => return status,
    };
    match &event {
        Event::Machine(machine) => over_machine(alloc, *machine, held, source, out),
        _ => BAD_LINE,
    }
}

/// Runs the script on standard input; the status of its end. The answers are flushed by then.
fn simulate(rt: &HostRuntime) -> Result<u8, NoMemory> {
    let alloc: Global = rt.alloc();
    let mut source = StdSource::new(rt.reader());
    let mut out = StdSink::new(buffered(alloc, io::writer(rt))?);
    let mut held = InputBuffer::new();
    let status = run_lines(alloc, &mut held, &mut source, &mut out);
    match out.flush() {
        Ok(()) => Ok(status),
        Err(_) => Ok(OUT_FAULT),
    }
}

fn main(rt: HostRuntime) -> ExitCode {
    exit_code(simulate(&rt))
}
