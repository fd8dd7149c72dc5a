ghost use Rattle.std.specs.Prelude.{◌≡◌, ◌≤◌, ◌<◌, ◌+◌, ◌-◌, true, false, is_some, min, Some, IsOk, IfOk, OnOk, OnErr};
ghost use Rattle.mm_types.specs.{address_of, commit_type};
ghost use Rattle.mm_types.specs.declared.answers.Answer.TheVariants as answer;
ghost use Rattle.mm_types.specs.declared.moves.LineKind.TheVariants as line_kind;
ghost use Rattle.mm_world.specs.{ProcessOf, process_of, set_stack, alloc, charge, limit, Committed, committed_at, guard_off, blank, probe};
ghost use Rattle.mm_world.specs.{is_overflow};
ghost use Rattle.mm_calls.specs.{grows, guard_lowered, BeginsCall, AnswersCall, LacksMemory, StaysFit};
ghost use Rattle.mm_object_tables.specs.{IsReadyFor, MakesPages, SettlesTables};

use crate::commit;
use mm_address_spaces::PageRange;
use mm_object_tables::{Tables, ThreadStack};
use mm_store::PageStore;
use mm_types::{Access, Answer, NoMemory, PAGE_SIZE, Prot, Raise, Tid, permits};

/// Whether a stack cannot grow any more: the page below its guard page is its lowest one, or is not
/// committed and the charge is the limit.
fn is_overflow(t: &Tables, stack: &ThreadStack) -> bool
    ensures { (p : ProcessOf (Unit {0})) → process_of t.now stack.now.pid ≡ Some p →
        result ≡ is_overflow t.now p stack.now }
{
    let next = stack.guard_page - 1;
    let (charge, limit) = t.charge();
    next == stack.base || t.committed_row(stack.pid, next).is_none() && charge == limit
}

/// What the keys come to at most when one page more is committed, as far as the limit allows it.
fn total_with_one(t: &Tables) -> u32
    ensures total { result ≡ min (charge t.now + 1) (limit t.now) }
    ensures within { result ≤ limit t.now }
{
    let (charge, limit) = t.charge();
    if charge < limit { charge + 1 } else { limit }
}

/// Commits the page below the guard page of a stack with its guard on, and takes the guard of the
/// guard page off. After `NoMemory` tables and bytes are as before.
#[tactic(auto, using(mm_store::proofs::Passed::idle_before))]
fn grow<G: PageStore>(t: &mut Tables, g: &mut G, stack: &ThreadStack) -> Result<(), NoMemory>
    requires ready { IsReadyFor G.PageStore line_kind.Call (record { 0 = stack.now.pid }) t.old g.old }
    requires committed { (p : ProcessOf (Unit {0})) → process_of t.old stack.now.pid ≡ Some p →
        is_some (committed_at t.old p.regions stack.now.guard_page) ≡ true }
    ensures ok { OnOk result ((p : ProcessOf (Unit {0})) (c : Committed (Unit {0})) →
        process_of t.old stack.now.pid ≡ Some p →
        committed_at t.old p.regions stack.now.guard_page ≡ Some c
        → t.new ≡ (alloc blank (guard_off t.old stack.now.pid p c stack.now.guard_page)
        stack.now.pid (address_of (stack.now.guard_page - 1)) 1 commit_type 0x104).world) }
    ensures settles { SettlesTables G.PageStore result t.old t.new g.old g.new }
    ensures makes { MakesPages G.PageStore result g.old g.new }
{
    t.sound();
    let total = total_with_one(t);
    g.reserve(total)?;
    let guard_page = stack.guard_page;
    t.take_guard_off(stack.pid, guard_page);
    let next = PageRange::of((guard_page - 1) * PAGE_SIZE, 1);
    let Ok(_) = commit(t, g, stack.pid, next, Prot::READWRITE.0 + Prot::GUARD.0) else {
        unreachable!()
    };
    Ok(())
}

/// The guard page of a thread's stack is one page lower; it was not the lowest page. Tells the
/// answer to the `probe` line.
fn lower(t: &mut Tables, tid: Tid, stack: &ThreadStack) -> Answer
    requires above { stack.now.base + 1 < stack.now.guard_page }
    ensures answer { result ≡ answer.At (address_of (stack.now.guard_page - 1)) }
    ensures lowered { t.new ≡ set_stack t.old tid.0 (guard_lowered stack.now) }
    ensures fits { StaysFit t.old t.new }
{
    let guard_page = stack.guard_page - 1;
    t.set_stack(
        tid,
        ThreadStack {
            pid: stack.pid,
            base: stack.base,
            guard_page,
        },
    );
    Answer::At(guard_page * PAGE_SIZE)
}

/// `probe`: the touch that a compiled function makes before it uses a page of its stack
/// (`__chkstk`). It looks at no byte. A probe of the guard page moves it one page down. The answer
/// is the address of the guard page; this profile's own.
///
/// The first that holds: `Nothing` for a thread without a stack; `AccessViolation` where the page
/// is not committed; `GuardPage` for the guard of another page, and `StackOverflow` where the stack
/// cannot grow, which take that guard off; the guard page moves; `AccessViolation` where the page
/// permits no read. `NoMemory` comes only where the stack grows; then nothing has changed.
#[tactic(auto, using(mm_store::proofs::Passed::turns_same))]
pub fn probe<G: PageStore>(
    t: &mut Tables,
    g: &mut G,
    tid: Tid,
    addr: u32,
) -> Result<Answer, NoMemory>
    requires begins { BeginsCall G.PageStore t.old g.old }
    ensures done { IfOk result (λ a. AnswersCall G.PageStore (probe blank t.old tid.0 addr) t.old g.old
        a t.new g.new) }
    ensures broke { OnErr result (LacksMemory G.PageStore t.old g.old t.new g.new) }
    ensures no_memory { grows blank t.old tid.0 addr ≡ false → IsOk result }
    ensures makes { MakesPages G.PageStore result g.old g.new }
{
    let stack = match t.stack_of(tid) {
        Some(stack) => stack,
        None => return Ok(Answer::Nothing),
    };
    if !t.has(stack.pid) {
        return Ok(Answer::Nothing);
    }
    let page = addr / PAGE_SIZE;
    let row = match t.committed_row(stack.pid, page) {
        Some(row) => row,
        None => return Ok(Answer::Raised(Raise::AccessViolation)),
    };
    if !row.guard {
        if !permits(row.prot, Access::Read) {
            return Ok(Answer::Raised(Raise::AccessViolation));
        }
        return Ok(Answer::At(stack.guard_page * PAGE_SIZE));
    }
    if page != stack.guard_page {
        t.take_guard_off(stack.pid, page);
        return Ok(Answer::Raised(Raise::GuardPage));
    }
    if is_overflow(t, &stack) {
        t.take_guard_off(stack.pid, stack.guard_page);
        return Ok(Answer::Raised(Raise::StackOverflow));
    }
    grow(t, g, &stack)?;
    Ok(lower(t, tid, &stack))
}
