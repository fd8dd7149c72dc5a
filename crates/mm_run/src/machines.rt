ghost use Rattle.std.specs.Prelude.{◌≡◌, ◌≢◌, ◌⊎◌, ◌≤◌, ◌+◌, ℕ, true, false, [], length, IfErr, OnOk};
ghost use Rattle.mm_dispatch.specs.{loans, world_behind, scene};
ghost use Rattle.mm_run.specs.{Outset, NotBegun, Running, outset, MachineIsMade, CameToEnd, Comes, IsBlamed, stand, fault_counts_with, HasBegunLines, IsStill};
ghost use Rattle.mm_run.specs.{HoldsMachine, AreOpened, StartsFrom, HasStart, left_behind, ComesTo, counts_seen, device_seen, left_seen, open_failed};
ghost use Rattle.mm_run.specs.{outside_seen, setting, world_seen};

use crate::answers::Kept;
use crate::decisions::{decide_rest, next_line, tell};
use crate::endings::Ending;
use crate::readings::read_first;
use mm_devices::{BlockDevice, Injected};
use mm_dispatch::World;
use mm_io::{InputBuffer, Sink, Source};
use mm_log_writer::Recorder;
use mm_pager::Pager;
use mm_state::State;
use mm_state_calls::StateCalls;
use mm_store::FlushesMoves;
use mm_types::{Answer, Event, Machine, OpenFault};
use std::alloc::Global;

/// What a device that was not opened makes a run come to.
fn not_opened(fault: OpenFault) -> Ending
    ensures failed { fault ≡ OpenFault.Failed → result ≡ Ending.SetupFault }
    ensures memory { fault ≡ OpenFault.Memory → result ≡ Ending.NoMemory }
{
    match fault {
        OpenFault::Memory => Ending::NoMemory,
        OpenFault::Failed => Ending::SetupFault,
    }
}

/// Opens both devices of a machine, the paging device first.
pub(crate) fn open_devices<P: BlockDevice, F: BlockDevice>(
    machine: Machine,
    paging: &mut P,
    files: &mut F,
) -> Result<(), Ending>
    ensures opened { OnOk result
        (AreOpened machine (device_seen P.BlockDevice paging.new) (device_seen F.BlockDevice files.new)) }
    ensures ends { IfErr result (λ e. (e ≡ Ending.NoMemory) ⊎ (e ≡ Ending.SetupFault)) }
    ensures blame { IfErr result (λ e. e ≡ Ending.SetupFault →
        open_failed P.BlockDevice F.BlockDevice paging.old paging.new files.old files.new) }
    ensures paging_later { P.faults paging.old ≤ P.faults paging.new }
    ensures files_later { F.faults files.old ≤ F.faults files.new }
{
    match paging.open(machine.slots()) {
        Ok(()) => {}
        Err(fault) => return Err(not_opened(fault)),
    }
    match files.open(machine.blocks()) {
        Ok(()) => Ok(()),
        Err(fault) => Err(not_opened(fault)),
    }
}

/// Keeps the answer of the first line, once its move is written, and decides the others.
fn answer_all<G: FlushesMoves, S: Source, O: Sink>(
    alloc: Global,
    held: &mut InputBuffer,
    len: usize,
    machine: Machine,
    world: &mut World<G>,
    kept: &mut Kept,
    source: &mut S,
    out: &mut O,
) -> Ending
    requires line { HoldsMachine held.old len machine }
    requires room { length kept.old + 256 ≤ 65536 }
    requires begun { HasBegunLines 1 (world_seen world.old) }
    ensures came { (o : Outset) → MachineIsMade machine o (scene world.old) → CameToEnd
        (outside_seen S.Source O.Sink source.old out.old kept.old)
        (outside_seen S.Source O.Sink source.new out.new kept.new)
        (stand held.old 0 (NotBegun o)) result (Running (scene world.new)) }
    ensures faults { (o : Outset) → MachineIsMade machine o (scene world.old) →
        o.log.failed ≡ false →
        IsBlamed result ⊥ (fault_counts_with (S.faults source.old) (O.faults out.old) o.log.faults)
        (fault_counts_with (S.faults source.new) (O.faults out.new)
        (world_behind world.new).log.faults) }
    ensures idle { S.idle source.new ≤ S.idle source.old + S.last_idle source.new }
    ensures form { result ≢ Ending.Usage }
    ensures still { result ≡ Ending.ReadFault → IsStill kept.new (O.given out.new) (O.taken out.new)
        (world_behind world.new).log.given (world_behind world.new).log.bytes }
    ensures loans { loans world.new ≡ loans world.old }
{
    if world.pages.moves_failed() {
        return Ending::MovesFault;
    }
    tell(held, len, &Answer::Limit(machine.limit()), kept);
    decide_rest(alloc, held, world, kept, source, out)
}

/// Decides the lines over the world of a state that starts, and gives the state back.
fn answer_over<T: StateCalls, S: Source, O: Sink>(
    alloc: Global,
    held: &mut InputBuffer,
    len: usize,
    machine: Machine,
    state: T,
    kept: &mut Kept,
    source: &mut S,
    out: &mut O,
) -> (Ending, T)
    requires line { HoldsMachine held.old len machine }
    requires room { length kept.old + 256 ≤ 65536 }
    requires starts { HasStart machine (T.shown state) }
    ensures came { (o : Outset) → StartsFrom machine o (T.shown state) → Comes
        (outside_seen S.Source O.Sink source.old out.old kept.old)
        (outside_seen S.Source O.Sink source.new out.new kept.new)
        (stand held.old 0 (NotBegun o)) result.0 (left_behind (T.shown result.1)) }
    ensures faults { (o : Outset) → StartsFrom machine o (T.shown state) →
        IsBlamed result.0 ⊥
        (fault_counts_with (S.faults source.old) (O.faults out.old) o.log.faults)
        (fault_counts_with (S.faults source.new) (O.faults out.new)
        (T.shown result.1).log.faults) }
    ensures idle { S.idle source.new ≤ S.idle source.old + S.last_idle source.new }
    ensures form { result.0 ≢ Ending.Usage }
    ensures still { result.0 ≡ Ending.ReadFault → IsStill kept.new (O.given out.new)
        (O.taken out.new) (T.shown result.1).log.given (T.shown result.1).log.bytes }
    ensures loans { T.loans result.1 ≡ T.loans state }
{
    let mut world = World::new(alloc, machine, Pager::over(state));
    let ending = answer_all(alloc, held, len, machine, &mut world, kept, source, out);
    (ending, world.finish().finish())
}

/// Runs a machine over devices that were opened for it.
fn run_machine<S: Source, O: Sink, M: Sink, P: BlockDevice, F: BlockDevice>(
    alloc: Global,
    held: &mut InputBuffer,
    len: usize,
    machine: Machine,
    kept: &mut Kept,
    source: &mut S,
    out: &mut O,
    moves: &mut M,
    paging: &mut P,
    files: &mut F,
) -> Ending
    requires line { HoldsMachine held.old len machine }
    requires room { length kept.old + 256 ≤ 65536 }
    requires opened { AreOpened machine
        (device_seen P.BlockDevice paging.old) (device_seen F.BlockDevice files.old) }
    ensures came { (p f : ℕ) → p ≤ P.faults paging.old → f ≤ F.faults files.old → Comes
        (outside_seen S.Source O.Sink source.old out.old kept.old)
        (outside_seen S.Source O.Sink source.new out.new kept.new)
        (stand held.old 0
        (NotBegun (outset p f (M.taken moves.old) (M.given moves.old) (M.faults moves.old))))
        result (left_seen M.Sink P.BlockDevice F.BlockDevice moves.new paging.new files.new) }
    ensures faults { IsBlamed result ⊥
        (counts_seen S.Source O.Sink M.Sink source.old out.old moves.old)
        (counts_seen S.Source O.Sink M.Sink source.new out.new moves.new) }
    ensures idle { S.idle source.new ≤ S.idle source.old + S.last_idle source.new }
    ensures form { result ≢ Ending.Usage }
    ensures still { result ≡ Ending.ReadFault → IsStill kept.new (O.given out.new)
        (O.taken out.new) (M.given moves.new) (M.taken moves.new) }
{
    let made = State::new(
        alloc,
        machine,
        Injected::new(paging),
        Injected::new(files),
        Recorder::new(moves),
    );
    let state = match made {
        Ok(state) => state,
        Err(unmade) => {
            let (paging, files, moves) = unmade.back;
            let _ = paging.finish();
            let _ = files.finish();
            let _ = moves.finish();
            return Ending::NoMemory;
        }
    };
    let (ending, state) = answer_over(alloc, held, len, machine, state, kept, source, out);
    let (paging, files, moves) = state.finish();
    let _ = paging.finish();
    let _ = files.finish();
    let _ = moves.finish();
    ending
}

/// Decides the lines of a source, and gives on or keeps their answers. Where the words of the run
/// are no form, it comes to usage.
pub(crate) fn decide_all<S: Source, O: Sink, M: Sink, P: BlockDevice, F: BlockDevice>(
    alloc: Global,
    is_form: bool,
    kept: &mut Kept,
    source: &mut S,
    out: &mut O,
    moves: &mut M,
    paging: &mut P,
    files: &mut F,
) -> Ending
    requires room { length kept.old + 256 ≤ 65536 }
    ensures ends { ComesTo []
        (setting S.Source O.Sink M.Sink P.BlockDevice F.BlockDevice
        source.old out.old kept.old moves.old paging.old files.old)
        (setting S.Source O.Sink M.Sink P.BlockDevice F.BlockDevice
        source.new out.new kept.new moves.new paging.new files.new) result }
    ensures form { is_form ≡ true → result ≢ Ending.Usage }
    ensures no_form { (is_form ≡ true → ⊥) → result ≡ Ending.Usage }

    // Where a read failed, nothing was held back when it was asked for.
    ensures none { kept.old ≡ [] → result ≡ Ending.ReadFault → kept.new ≡ [] }
    ensures gave { O.given out.old ≡ O.taken out.old → result ≡ Ending.ReadFault
        → O.given out.new ≡ O.taken out.new }
    ensures moves { M.given moves.old ≡ M.taken moves.old → result ≡ Ending.ReadFault
        → M.given moves.new ≡ M.taken moves.new }
{
    if !is_form {
        return Ending::Usage;
    }
    let mut held = InputBuffer::new();
    let len = match next_line(&mut held, 0, source) {
        Ok(len) => len,
        Err(ending) => return ending,
    };
    let event = match read_first(&held.bytes()[..len]) {
        Ok(event) => event,
        Err(column) => return Ending::Script(1, column),
    };
    let machine = match &event {
        Event::Machine(machine) => *machine,
        _ => unreachable!(),
    };
    match open_devices(machine, paging, files) {
        Ok(()) => {
            run_machine(
                alloc, &mut held, len, machine, kept, source, out, moves, paging, files,
            )
        }
        Err(ending) => ending,
    }
}
