ghost use Rattle.std.specs.Prelude.{◌≡◌, ◌≤◌, ◌+◌, ◌-◌, false, length, IfOk, IsOk, OnErr};
ghost use Rattle.mm_world.specs.{is_success, grow, new_process, most_processes, exit};
ghost use Rattle.mm_store.specs.{begun, NotesIn};
ghost use Rattle.mm_calls.specs.{GrowsBy, BeginsRelease, AnswersCall, ChangesNothing, LosesPages, AnswersGrow};
ghost use Rattle.mm_object_tables.specs.{FitsTables, StartsProcess, StaysIdle};

use mm_object_tables::Tables;
use mm_store::PageStore;
use mm_types::{Answer, Code, GrowFault, LineKind, NoMemory, Pid};
use std::alloc::Global;

/// The most page-file slots of a machine.
const SLOTS: u32 = 262_144;

/// `process` (CreateProcess): a new process without regions. It gets the next pid, which
/// `Tables::next_pid` found; the store's line has begun, with that pid and the least and the greatest
/// size of its working set.
///
/// After `NoMemory` tables and store are as before, and no call of this line can follow.
#[tactic(auto, using(mm_store::proofs::Passed::turns_same))]
pub fn new_process<G: PageStore>(
    allocator: Global,
    t: &mut Tables,
    g: &mut G,
    pid: Pid,
    min: u32,
    max: u32,
) -> Result<Answer, NoMemory>
    requires few { length t.old.processes ≤ most_processes }
    requires next { pid.0 ≡ length t.old.processes }
    requires starts { StartsProcess G.PageStore pid min max t.old g.old }
    ensures done { IfOk result (λ a. AnswersCall G.PageStore (new_process t.old) t.old g.old a t.new
        g.new) }
    ensures broke { OnErr result (ChangesNothing G.PageStore t.old g.old t.new g.new) }
    ensures idles { StaysIdle G.PageStore g.old g.new }
{
    t.add_process(allocator, g, pid, min, max)?;
    Ok(Answer::NewProcess(pid))
}

/// `exit` (ExitProcess): the process's handles are closed, its views unmapped, its private regions
/// released, and with them the stacks of threads in it; what threads keep of it is dropped.
///
/// `InvalidHandle` for a process that does not live.
#[tactic(auto, using(mm_store::proofs::Passed::turns_same))]
pub fn end_process<G: PageStore>(t: &mut Tables, g: &mut G, pid: Pid) -> Answer
    requires begins { BeginsRelease G.PageStore pid t.old g.old }
    ensures done { AnswersCall G.PageStore (exit t.old pid.0) t.old g.old result t.new g.new }
    ensures loses { LosesPages G.PageStore pid t.old t.new g.old g.new }
{
    if !t.has(pid) {
        return Answer::Error(Code::InvalidHandle);
    }
    t.end_process(g, pid);
    Answer::Ok
}

/// `grow` (own): the paging file grows by `n` slots, and the commit limit with it. The call notes
/// its own line.
///
/// `Full` exactly where the machine would have more than 262,144 slots, and then no device is
/// asked; `Fault` only where the paging device failed. `NoMemory`, after which no line has begun,
/// comes only where it is not `Full`.
pub fn grow_paging<G: PageStore>(
    t: &mut Tables,
    g: &mut G,
    line: u32,
    n: u32,
) -> Result<Answer, NoMemory>
    requires fits { FitsTables t.old (G.contents g.old) (G.store g.old) }
    requires next { line ≡ (G.store g.old).line + 1 }
    requires some { 1 ≤ n }
    ensures done { IfOk result (λ a. AnswersGrow G.PageStore line n t.old g.old a t.new g.new) }
    ensures broke { OnErr result (ChangesNothing G.PageStore t.old g.old t.new g.new) }
    ensures no_memory { is_success (grow t.old n).answer ≡ false → IsOk result }
    ensures notes { NotesIn G.unpaged (GrowsBy line n result) (G.behind g.old) (G.behind g.new) }
    ensures loans { G.loans g.new ≡ G.loans g.old }
{
    if n > SLOTS || t.machine().slots() > SLOTS - n {
        g.line(line, LineKind::Call);
        return Ok(Answer::Full);
    }
    match g.grow(line, n) {
        Ok(()) => {
            t.add_slots(n);
            Ok(Answer::Limit(t.charge().1))
        }
        Err(GrowFault::Memory) => Err(NoMemory),
        Err(GrowFault::Failed) => Ok(Answer::Fault),
    }
}
