ghost use Rattle.std.specs.Prelude.{◌≡◌, ◌≤◌, ◌+◌, ◌-◌, ◌/◌, true, false, Some, IfOk, IsOk, OnOk, OnErr};
ghost use Rattle.mm_types.specs.{address_of, end_of, end_of_user_pages};
ghost use Rattle.mm_types.specs.declared.answers.Answer.TheVariants as answer;
ghost use Rattle.mm_types.specs.declared.moves.LineKind.TheVariants as line_kind;
ghost use Rattle.mm_world.specs.{ProcessOf, process_of, add_region, set_regions, set_region, set_stack, charge, limit, blank, is_success};
ghost use Rattle.mm_world.specs.{is_protection_among, private_protections, change_rows, reserve_pages, stack, stack_region, commit as committed_row};
ghost use Rattle.mm_world.specs.Stack.{commit_pages};
ghost use Rattle.mm_store.specs.{Turn, MakesStack, guard_told};
ghost use Rattle.mm_object_tables.specs.{Settled, IsNewPlace, IsNewRange, IsReadyFor, PassesAs, SettlesTables, StaysIdle};
ghost use Rattle.mm_calls.specs.{IsUncommitted, IsReserved, reserved_region, IsTallEnough, BeginsCall, AnswersCall, LacksMemory, StaysFit};
ghost use Rattle.mm_calls.specs.{HasRoomFor, MakesInRange, MakesStackPages};

use mm_address_spaces::{PageRange, pages_for};
use mm_object_tables::{Tables, ThreadStack};
use mm_store::PageStore;
use mm_types::{AllocFlags, Answer, Code, GRANULE_PAGES, NoMemory, PAGE_SIZE, Pid, Prot, Tid};
use std::alloc::Global;

/// The pages of a stack for which `size` bytes are reserved: whole granules.
fn reserve_pages(size: u32) -> u32
    ensures pages { result ≡ reserve_pages size }
    ensures few { result ≤ 0x100000 }
{
    (pages_for(size) + 15) / GRANULE_PAGES * GRANULE_PAGES
}

/// The pages of a stack of which `size` bytes are committed: at least one.
fn commit_pages(size: u32) -> u32
    ensures pages { result ≡ commit_pages size }
    ensures some { 1 ≤ result }
    ensures few { result ≤ 0x100000 }
{
    if size == 0 { 1 } else { pages_for(size) }
}

/// `stack`: makes a region for a stack in a living process and gives it to a thread. Its size is
/// `reserve` bytes, made up to whole granules; its top `commit` bytes, at least one page, are
/// committed, and the page below them is the guard page. The answer is the address of the region,
/// its size in bytes, and the address of the guard page. Like the stack that CreateThread makes;
/// this profile's own.
///
/// In this order: `InvalidHandle` for a process that does not live; `Busy` where the thread has a
/// stack; `InvalidParameter` for no bytes, or where the committed pages, the guard page and one
/// page more do not fit; `InvalidAddress` where there is no gap; `CommitmentLimit` where the charge
/// would pass the limit. After each of these, and after `NoMemory`, which none of them comes to,
/// nothing has changed.
#[tactic(auto, using(mm_store::proofs::Passed::turns_same))]
pub fn stack<G: PageStore>(
    alloc: Global,
    t: &mut Tables,
    g: &mut G,
    tid: Tid,
    pid: Pid,
    reserve: u32,
    commit: u32,
) -> Result<Answer, NoMemory>
    requires begins { BeginsCall G.PageStore t.old g.old }
    ensures done { IfOk result (λ a. AnswersCall G.PageStore
        (stack blank t.old tid.0 pid.0 reserve commit) t.old g.old a t.new g.new) }
    ensures broke { OnErr result (LacksMemory G.PageStore t.old g.old t.new g.new) }
    ensures no_memory { is_success (stack blank t.old tid.0 pid.0 reserve commit).answer ≡ false →
        IsOk result }
    ensures passes { IfOk result (λ a. PassesAs G.PageStore (MakesStack (guard_told a)) g.old g.new) }
    ensures idle { OnErr result ((turn : Turn) → PassesAs G.PageStore turn g.old g.new) }
    ensures loans { G.loans g.new ≡ G.loans g.old }
{
    if !t.has(pid) {
        return Ok(Answer::Error(Code::InvalidHandle));
    }
    if t.stack_of(tid).is_some() {
        return Ok(Answer::Busy);
    }
    let pages = reserve_pages(reserve);
    let top = commit_pages(commit);
    if reserve == 0 || top + 2 > pages {
        return Ok(Answer::Error(Code::InvalidParameter));
    }
    let range = match t.space(pid).gap_for_view(0, pages) {
        Some(range) => range,
        None => return Ok(Answer::Error(Code::InvalidAddress)),
    };
    if !t.can_charge(top + 1) {
        return Ok(Answer::Error(Code::CommitmentLimit));
    }
    make_region(alloc, t, g, pid, range, top)?;
    Ok(begin(t, tid, pid, range, top))
}

/// A thread has the stack that was made of these pages, the top `top` of them committed. Tells the
/// answer to its `stack` line.
fn begin(t: &mut Tables, tid: Tid, pid: Pid, range: PageRange, top: u32) -> Answer
    requires tall { IsTallEnough top range }
    requires user { end_of range ≤ end_of_user_pages }
    ensures answer { result ≡ answer.Stack (address_of range.first) (address_of range.count)
        (address_of (range.first + range.count - (top + 1))) }
    ensures begun { t.new ≡ set_stack t.old tid.0 (record {
      pid = pid.0;
      base = range.first;
      guard_page = range.first + range.count - (top + 1);
    }) }
    ensures fits { StaysFit t.old t.new }
{
    let guard_page = range.first + range.count - (top + 1);
    t.set_stack(
        tid,
        ThreadStack {
            pid,
            base: range.first,
            guard_page,
        },
    );
    Answer::Stack(
        range.first * PAGE_SIZE,
        range.count * PAGE_SIZE,
        guard_page * PAGE_SIZE,
    )
}

/// Makes the region of a stack of free pages: the top `top` of them are committed, and the page
/// below these, its guard page. The limit allows them. After `NoMemory` tables and bytes are as
/// before.
#[tactic(auto, using(mm_store::proofs::Passed::idle_before))]
fn make_region<G: PageStore>(
    alloc: Global,
    t: &mut Tables,
    g: &mut G,
    pid: Pid,
    range: PageRange,
    top: u32,
) -> Result<(), NoMemory>
    requires ready { IsReadyFor G.PageStore line_kind.Call pid t.old g.old }
    requires new { (p : ProcessOf (Unit {0})) → process_of t.old pid.0 ≡ Some p →
        IsNewPlace p.regions range }
    requires tall { IsTallEnough top range }
    requires limit { charge t.old + (top + 1) ≤ limit t.old }
    ensures ok { OnOk result ((p : ProcessOf (Unit {0})) → process_of t.old pid.0 ≡ Some p →
        t.new ≡ set_regions t.old pid.0 p
        (add_region (stack_region blank range.first range.count top) p.regions)) }
    ensures settles { SettlesTables G.PageStore result t.old t.new g.old g.new }
    ensures makes { MakesStackPages G.PageStore (range.first + range.count - (top + 1)) result g.old
        g.new }
{
    reserve_region(alloc, t, g, pid, range, top + 1)?;
    commit_ends(t, g, pid, range, top);
    Ok(())
}

/// Reserves free pages for a stack, and takes room for `n` keys more, which the limit allows. After
/// `NoMemory` tables and bytes are as before.
#[tactic(auto, using(mm_store::proofs::Passed::turns_same))]
fn reserve_region<G: PageStore>(
    alloc: Global,
    t: &mut Tables,
    g: &mut G,
    pid: Pid,
    range: PageRange,
    n: u32,
) -> Result<(), NoMemory>
    requires ready { IsReadyFor G.PageStore line_kind.Call pid t.old g.old }
    requires new { (p : ProcessOf (Unit {0})) → process_of t.old pid.0 ≡ Some p →
        IsNewRange p.regions range }
    requires limit { charge t.old + n ≤ limit t.old }
    ensures ok { OnOk result ((p : ProcessOf (Unit {0})) → process_of t.old pid.0 ≡ Some p →
        t.new ≡ set_regions t.old pid.0 p (add_region (reserved_region range) p.regions)) }
    ensures room { OnOk result (charge t.old + n ≤ (G.store g.new).room) }
    ensures settles { SettlesTables G.PageStore result t.old t.new g.old g.new }
    ensures idles { StaysIdle G.PageStore g.old g.new }
{
    let (charge, _) = t.charge();
    g.reserve(charge + n)?;
    t.reserve(
        alloc,
        g,
        pid,
        range,
        false,
        AllocFlags::RESERVE.0,
        Prot::READWRITE.0,
    )?;
    Ok(())
}

/// Commits the top `top` pages of a region of which no page is committed, and makes the page below
/// them its guard page; there is room for them.
fn commit_ends<G: PageStore>(t: &mut Tables, g: &mut G, pid: Pid, range: PageRange, top: u32)
    requires begins { BeginsCall G.PageStore t.old g.old }
    requires reserved { IsReserved t.old pid.0 range }
    requires tall { IsTallEnough top range }
    requires room { HasRoomFor G.PageStore (top + 1) t.old g.old }
    ensures changed { (h : IsReserved t.old pid.0 range) →
        t.new ≡ set_region t.old pid.0 h.process h.place
        (stack_region blank range.first range.count top) }
    ensures settled { Settled t.new (G.contents g.old) (G.contents g.new) (G.store g.old)
        (G.store g.new) }
    ensures passes { PassesAs G.PageStore (MakesStack (range.first + range.count - (top + 1))) g.old
        g.new }
    ensures loans { G.loans g.new ≡ G.loans g.old }
{
    t.sound();
    let guard = guard_of(range, top);
    commit_new(t, g, pid, pages(guard + 1, top), Prot::READWRITE.0);
    t.sound();
    commit_new(
        t,
        g,
        pid,
        pages(guard, 1),
        Prot::READWRITE.0 + Prot::GUARD.0,
    );
}

/// Commits pages of a private region of which none is committed; there is room for them.
fn commit_new<G: PageStore>(t: &mut Tables, g: &mut G, pid: Pid, range: PageRange, prot: u32)
    requires begins { BeginsCall G.PageStore t.old g.old }
    requires free { IsUncommitted t.old pid.0 range }
    requires prot { is_protection_among private_protections prot ≡ true }
    requires room { HasRoomFor G.PageStore range.count t.old g.old }
    ensures changed { (h : IsUncommitted t.old pid.0 range) →
        t.new ≡ set_region t.old pid.0 h.process h.region.place
        (change_rows (committed_row tt prot) range h.region.thing) }
    ensures settled { Settled t.new (G.contents g.old) (G.contents g.new) (G.store g.old)
        (G.store g.new) }
    ensures makes { MakesInRange G.PageStore range g.old g.new }
{
    let n = range.count;
    let Ok(()) = t.commit(g, pid, range, prot, n) else {
        unreachable!()
    };
}

/// Some pages in a row, at least one.
fn pages(first: u32, count: u32) -> PageRange
    requires some { 1 ≤ count }
    ensures pages { result ≡ record { first = first; count = count } }
{
    PageRange { first, count }
}

/// The guard page of a new stack.
fn guard_of(range: PageRange, top: u32) -> u32
    requires tall { IsTallEnough top range }
    requires user { end_of range ≤ end_of_user_pages }
    ensures guard { result ≡ range.first + range.count - (top + 1) }
{
    range.first + range.count - (top + 1)
}
