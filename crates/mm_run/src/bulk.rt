ghost use Rattle.std.specs.Prelude.{◌≡◌, ◌<◌, ◌≤◌, ◌+◌, ◌*◌, ℕ, false, ◌∷◌, List, Option, length, cond};
ghost use Rattle.mm_types.specs.declared.events.Event.TheVariants as event;
ghost use Rattle.mm_generate.specs.{script_of};
ghost use Rattle.mm_dispatch.specs.{loans, world_behind, scene};
ghost use Rattle.mm_run.specs.Scenes.{Outset, NotBegun, Running, outset};
ghost use Rattle.mm_run.specs.Steps.{MachineIsMade};
ghost use Rattle.mm_run.specs.Ran.{around};
ghost use Rattle.mm_run.specs.Story.{fault_counts_with};
ghost use Rattle.mm_run.specs.Faults.{IsAccounted};
ghost use Rattle.mm_run.specs.Bulk.{BulkRan, begins_ok, is_no_answer, four_lines};
ghost use Rattle.mm_run.specs.Batch.{AreLater, Finished, BatchRan, AccountsMoves, BatchEnds};
ghost use Rattle.mm_run.specs.Moments.{HasBegunLines};
ghost use Rattle.mm_run.specs.Settings.{AreOpened};
ghost use Rattle.mm_run.specs.Starting.{StartsFrom, HasStart, left_behind};
ghost use Rattle.mm_run.specs.Seen.{device_seen, left_seen, open_failed, world_seen};

use crate::decisions::decide;
use crate::endings::Ending;
use crate::machines::open_devices;
use crate::top::{put_number, write_both};
use mm_devices::{BlockDevice, Injected};
use mm_dispatch::World;
use mm_generate::script;
use mm_io::Sink;
use mm_log_writer::Recorder;
use mm_pager::Pager;
use mm_state::State;
use mm_state_calls::StateCalls;
use mm_store::FlushesMoves;
use mm_text::LineBuf;
use mm_types::{Answer, Event, Machine};
use std::alloc::Global;

/// What the four lines at the end of a generated script tell.
#[derive(Clone, Copy)]
pub(crate) struct Tally {
    /// The events.
    lines: u32,
    /// The answers that begin with `ok`.
    ok: u32,
    /// The answers `none`.
    none: u32,
    /// The commit charge in pages.
    charge: u32,
    /// The commit limit in pages.
    limit: u32,
}

/// Whether the text of an answer begins with `ok`.
fn begins_ok(answer: &Answer) -> bool
    ensures { result ≡ begins_ok answer.now }
{
    match answer {
        Answer::Error(_)
        | Answer::Raised(_)
        | Answer::Pending(_)
        | Answer::Nothing
        | Answer::Busy
        | Answer::Full
        | Answer::Fault => false,
        _ => true,
    }
}

/// Whether an answer is `none`.
fn is_no_answer(answer: &Answer) -> bool
    ensures { result ≡ is_no_answer answer.now }
{
    matches!(answer, Answer::Nothing)
}

/// 1 where a test holds.
fn one_if(test: bool) -> u32
    ensures value { result ≡ cond test 1 0 }
    ensures most { result ≤ 1 }
{
    if test { 1 } else { 0 }
}

/// Decides all events over the world that the first one made, once its move is written.
fn decide_events<G: FlushesMoves>(
    alloc: Global,
    machine: Machine,
    events: &[Event],
    world: &mut World<G>,
) -> Result<Tally, Ending>
    requires later { AreLater events.now }
    requires few { length events.now < 1000000 }
    requires begun { HasBegunLines 1 (world_seen world.old) }
    ensures came { (o : Outset) → MachineIsMade machine o (scene world.old) →
        Finished (NotBegun o) (event.Machine machine ∷ events.now) result
        (Running (scene world.new)) }
    ensures faults { (o : Outset) → MachineIsMade machine o (scene world.old) →
        o.log.failed ≡ false →
        AccountsMoves result ⊥ o.log.faults (world_behind world.new).log.faults }
    ensures loans { loans world.new ≡ loans world.old }
{
    if world.pages.moves_failed() {
        return Err(Ending::MovesFault);
    }
    let mut n = 1u32;
    let mut ok = 0u32;
    let mut none = 0u32;
    let mut answer = Answer::Ok;
    for event in events {
        n += 1;
        match decide(alloc, n, event, world, &mut answer) {
            Ok(()) => {
                ok += one_if(begins_ok(&answer));
                none += one_if(is_no_answer(&answer));
            }
            Err(ending) => return Err(ending),
        }
    }
    let (charge, limit) = world.charge();
    Ok(Tally {
        lines: n,
        ok: ok + 1,
        none,
        charge,
        limit,
    })
}

/// Decides all events over the world of a state that starts, and gives the state back.
fn decide_over<T: StateCalls>(
    alloc: Global,
    machine: Machine,
    events: &[Event],
    state: T,
) -> (Result<Tally, Ending>, T)
    requires later { AreLater events.now }
    requires few { length events.now < 1000000 }
    requires starts { HasStart machine (T.shown state) }
    ensures came { (o : Outset) → StartsFrom machine o (T.shown state) → BatchRan (NotBegun o)
        (event.Machine machine ∷ events.now) result.0 (left_behind (T.shown result.1)) }
    ensures faults { (o : Outset) → StartsFrom machine o (T.shown state) →
        AccountsMoves result.0 ⊥ o.log.faults (T.shown result.1).log.faults }
    ensures loans { T.loans result.1 ≡ T.loans state }
{
    let mut world = World::new(alloc, machine, Pager::over(state));
    let decided = decide_events(alloc, machine, events, &mut world);
    (decided, world.finish().finish())
}

/// Decides all events over devices that were opened for their machine.
fn run_events<M: Sink, P: BlockDevice, F: BlockDevice>(
    alloc: Global,
    machine: Machine,
    events: &[Event],
    moves: &mut M,
    paging: &mut P,
    files: &mut F,
) -> Result<Tally, Ending>
    requires later { AreLater events.now }
    requires few { length events.now < 1000000 }
    requires opened { AreOpened machine
        (device_seen P.BlockDevice paging.old) (device_seen F.BlockDevice files.old) }
    ensures came { (p f : ℕ) → p ≤ P.faults paging.old → f ≤ F.faults files.old → BatchRan
        (NotBegun (outset p f (M.taken moves.old) (M.given moves.old) (M.faults moves.old)))
        (event.Machine machine ∷ events.now) result
        (left_seen M.Sink P.BlockDevice F.BlockDevice moves.new paging.new files.new) }
    ensures faults { AccountsMoves result ⊥ (M.faults moves.old) (M.faults moves.new) }
{
    let made = State::new(
        alloc,
        machine,
        Injected::new(paging),
        Injected::new(files),
        Recorder::new(moves),
    );
    let state = match made {
        Ok(state) => state,
        Err(unmade) => {
            let (paging, files, moves) = unmade.back;
            let _ = paging.finish();
            let _ = files.finish();
            let _ = moves.finish();
            return Err(Ending::NoMemory);
        }
    };
    let (decided, state) = decide_over(alloc, machine, events, state);
    let (paging, files, moves) = state.finish();
    let _ = paging.finish();
    let _ = files.finish();
    let _ = moves.finish();
    decided
}

/// Opens the devices of a generated script's machine, and decides its events over them.
fn decide_script<M: Sink, P: BlockDevice, F: BlockDevice>(
    alloc: Global,
    seed: u64,
    count: u32,
    moves: &mut M,
    paging: &mut P,
    files: &mut F,
) -> Result<Tally, Ending>
    requires few { count ≤ 100000 }
    ensures ends { BatchEnds (script_of seed count) result
        (left_seen M.Sink P.BlockDevice F.BlockDevice moves.old paging.old files.old)
        (left_seen M.Sink P.BlockDevice F.BlockDevice moves.new paging.new files.new) }
{
    let events = match script(alloc, seed, count) {
        Ok(events) => events,
        Err(_) => return Err(Ending::NoMemory),
    };
    let events = events.as_slice();
    let machine = match &events[0] {
        Event::Machine(machine) => *machine,
        _ => unreachable!(),
    };
    match open_devices(machine, paging, files) {
        Ok(()) => run_events(alloc, machine, &events[1..], moves, paging, files),
        Err(ending) => Err(ending),
    }
}

/// The four lines of a tally.
fn spell_tally(tally: Tally) -> LineBuf
    ensures { result ≡ four_lines tally.lines tally.ok tally.none tally.charge tally.limit }
{
    let mut text = LineBuf::new();
    text.push_slice(b"lines ");
    put_number(&mut text, tally.lines);
    text.push_slice(b"\nok ");
    put_number(&mut text, tally.ok);
    text.push_slice(b"\nnone ");
    put_number(&mut text, tally.none);
    text.push_slice(b"\ncharge ");
    put_number(&mut text, tally.charge);
    text.push_slice(b" ");
    put_number(&mut text, tally.limit);
    text.push(b'\n');
    text
}

/// Runs a generated script: decides its events, gives on their moves, and then the four lines.
pub(crate) fn bulk<O: Sink, M: Sink, P: BlockDevice, F: BlockDevice>(
    alloc: Global,
    seed: u64,
    count: u32,
    out: &mut O,
    moves: &mut M,
    paging: &mut P,
    files: &mut F,
) -> u8
    requires few { count ≤ 100000 }
    ensures ran { (left : Option (List ℕ)) → BulkRan
        (around left (O.taken out.old) (O.given out.old)
        (left_seen M.Sink P.BlockDevice F.BlockDevice moves.old paging.old files.old))
        (around left (O.taken out.new) (O.given out.new)
        (left_seen M.Sink P.BlockDevice F.BlockDevice moves.new paging.new files.new))
        (script_of seed count) result }
    ensures faults { (s : ℕ) → IsAccounted result
        (open_failed P.BlockDevice F.BlockDevice paging.old paging.new files.old files.new)
        (fault_counts_with s (O.faults out.old) (M.faults moves.old))
        (fault_counts_with s (O.faults out.new) (M.faults moves.new)) }
{
    let decided = decide_script(alloc, seed, count, moves, paging, files);
    match moves.flush() {
        Ok(()) => {}
        Err(_) => return 6,
    }
    match decided {
        Ok(tally) => match write_both(out, b"", spell_tally(tally).as_slice()) {
            Ok(()) => Ending::Done.status(),
            Err(_) => Ending::OutFault.status(),
        },
        Err(ending) => ending.status(),
    }
}
