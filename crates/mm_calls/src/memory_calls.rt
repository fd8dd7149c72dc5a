#![tactic(auto, using(mm_store::proofs::Passed::turns_same))]

ghost use Rattle.std.specs.Prelude.{◌≡◌, ◌≤◌, ◌<◌, true, false, is_some, Some, IsOk, IfOk, OnErr, option_map};
ghost use Rattle.mm_types.specs.declared.moves.LineKind.TheVariants as line_kind;
ghost use Rattle.mm_types.specs.declared.views.Kind.TheVariants as view_kind;
ghost use Rattle.mm_world.specs.{RegionOf, ProcessOf, Found, charge, process_of, region_around, blank, alloc, reserve, free, protect};
ghost use Rattle.mm_world.specs.{is_protection_among, private_protections, all_protections, is_committed_at, every_page};
ghost use Rattle.mm_address_spaces.specs.{found_info, IsAsked};
ghost use Rattle.mm_object_tables.specs.{new_marks, IsReadyFor, MakesPages, StaysIdle};
ghost use Rattle.mm_calls.specs.{allocates_anew, protect_pages, marks_anew, freed_pages, BeginsCall, BeginsRelease, AnswersCall, DecidesIn, MakesIn};
ghost use Rattle.mm_calls.specs.{LacksMemory, LosesPages, CommitsRange};

use crate::parameters::{
    are_alloc_parameters, are_free_parameters, are_protect_parameters, is_reserving,
    is_watched_type, plain_type,
};
use mm_address_spaces::{AddressSpace, PageRange, ProtectInfo};
use mm_object_tables::{Tables, new_pages};
use mm_store::PageStore;
use mm_types::{AllocFlags, Answer, Code, Kind, NoMemory, PAGE_SIZE, Pid, Prot, View};
use std::alloc::Global;

/// `alloc` (VirtualAlloc): reserves pages, commits reserved ones, or both. The answer is the
/// address of the first. With MEM_WRITE_WATCH (0x202000, 0x203000) the new region is watched.
///
/// In this order: `InvalidHandle` for a process that does not live; `InvalidParameter` for a type,
/// a size or a protection that no private page can have; `InvalidAddress` where pages to be
/// reserved are not free, or pages to be committed do not all lie in one private region or one view
/// of a page-file section; `InvalidParameter` where a page of a view does not accept the
/// protection; `CommitmentLimit` where the charge would pass the limit. `NoMemory` comes only where
/// a region is made, or a page committed that was not; then tables and pages are as before.
pub fn valloc<G: PageStore>(
    allocator: Global,
    t: &mut Tables,
    g: &mut G,
    pid: Pid,
    addr: u32,
    size: u32,
    kind: u32,
    prot: u32,
) -> Result<Answer, NoMemory>
    requires begins { BeginsCall G.PageStore t.old g.old }
    ensures done { IfOk result (λ a. AnswersCall G.PageStore
        (alloc blank t.old pid.0 addr size kind prot) t.old g.old a t.new g.new) }
    ensures broke { OnErr result (LacksMemory G.PageStore t.old g.old t.new g.new) }
    ensures no_memory { allocates_anew blank t.old pid.0 addr size kind prot ≡ false → IsOk result }
    ensures makes { MakesPages G.PageStore result g.old g.new }
{
    if !t.has(pid) {
        return Ok(Answer::Error(Code::InvalidHandle));
    }
    let plain = plain_type(kind);
    if !are_alloc_parameters(size, plain, prot) {
        return Ok(Answer::Error(Code::InvalidParameter));
    }
    if is_reserving(addr, plain) {
        let watched = is_watched_type(kind);
        reserve(allocator, t, g, pid, addr, size, watched, plain, prot)
    } else {
        commit(t, g, pid, PageRange::of(addr, size), prot)
    }
}

/// Reserves pages of a living process, watched or not, and commits them where the type says so.
fn reserve<G: PageStore>(
    allocator: Global,
    t: &mut Tables,
    g: &mut G,
    pid: Pid,
    addr: u32,
    size: u32,
    watched: bool,
    kind: u32,
    prot: u32,
) -> Result<Answer, NoMemory>
    requires ready { IsReadyFor G.PageStore line_kind.Call pid t.old g.old }
    requires some { 1 ≤ size }
    requires prot { is_protection_among private_protections prot ≡ true }
    ensures made { MakesIn G.PageStore pid (λ p.
        reserve blank t.old pid.0 p addr size watched kind prot) result t.old g.old t.new g.new }
    ensures makes { MakesPages G.PageStore result g.old g.new }
{
    let range = match t.space(pid).gap(addr, size) {
        Some(range) => range,
        None => return Ok(Answer::Error(Code::InvalidAddress)),
    };
    if !t.can_charge(new_pages(kind, range)) {
        return Ok(Answer::Error(Code::CommitmentLimit));
    }
    match t.reserve(allocator, g, pid, range, watched, kind, prot) {
        Ok(()) => Ok(Answer::At(range.first * PAGE_SIZE)),
        Err(NoMemory) => Err(NoMemory),
    }
}

/// Commits pages of a living process, in a private region or in a view, as `valloc` does.
/// `NoMemory` comes only where the store has no room for them.
pub fn commit<G: PageStore>(
    t: &mut Tables,
    g: &mut G,
    pid: Pid,
    range: PageRange,
    prot: u32,
) -> Result<Answer, NoMemory>
    requires ready { IsReadyFor G.PageStore line_kind.Call pid t.old g.old }
    requires prot { is_protection_among private_protections prot ≡ true }
    ensures { CommitsRange G.PageStore pid range prot result t.old g.old t.new g.new }
{
    let space = t.space(pid);
    let region = match space.region_around(range) {
        Some(region) => region,
        None => return Ok(Answer::Error(Code::InvalidAddress)),
    };
    match region.kind {
        Kind::Private => {
            t.sound();
            let n = range.count - space.owned(range);
            if !t.can_charge(n) {
                return Ok(Answer::Error(Code::CommitmentLimit));
            }
            match t.commit(g, pid, range, prot, n) {
                Ok(()) => Ok(Answer::At(range.first * PAGE_SIZE)),
                Err(NoMemory) => Err(NoMemory),
            }
        }
        Kind::View(view) => commit_view(t, g, pid, range, region.pages, view, prot),
    }
}

/// Commits section pages under pages of the view around them, which has these pages, and gives the
/// view's rows the protection.
fn commit_view<G: PageStore>(
    t: &mut Tables,
    g: &mut G,
    pid: Pid,
    range: PageRange,
    pages: PageRange,
    view: View,
    prot: u32,
) -> Result<Answer, NoMemory>
    requires ready { IsReadyFor G.PageStore line_kind.Call pid t.old g.old }
    requires around { (p : ProcessOf (Unit {0})) → process_of t.old pid.0 ≡ Some p →
        option_map found_info (region_around p.regions range) ≡ Some (record {
          pages = pages;
          kind = view_kind.View view;
        }) }
    requires prot { is_protection_among private_protections prot ≡ true }
    ensures { CommitsRange G.PageStore pid range prot result t.old g.old t.new g.new }
{
    t.sound();
    let area = t.area(view.area);
    if area.first_block().is_some() {
        return Ok(Answer::Error(Code::InvalidAddress));
    }
    if !t.space(pid).accepts(range, prot) {
        return Ok(Answer::Error(Code::InvalidParameter));
    }
    // The section's pages are numbered in 32 bits, and so are those of its view.
    let _total = area.len();
    let n = area.uncommitted(view.first + (range.first - pages.first), range.count);
    if !t.can_charge(n) {
        return Ok(Answer::Error(Code::CommitmentLimit));
    }
    match t.commit_view(g, pid, range, prot, n) {
        Ok(()) => Ok(Answer::At(range.first * PAGE_SIZE)),
        Err(NoMemory) => Err(NoMemory),
    }
}

/// `free` (VirtualFree): decommits pages, or releases a region, whose keys and places go.
///
/// In this order: `InvalidHandle` for a process that does not live; `InvalidParameter` for a type
/// that is neither, or a release with a size; `InvalidAddress` where no private region begins at
/// the address (a release, or size 0), or the pages do not all lie in one.
#[tactic(auto, using(crate::proofs::Exits::loses_none))]
pub fn vfree<G: PageStore>(
    t: &mut Tables,
    g: &mut G,
    pid: Pid,
    addr: u32,
    size: u32,
    kind: u32,
) -> Answer
    requires begins { BeginsRelease G.PageStore pid t.old g.old }
    ensures done { AnswersCall G.PageStore (free t.old pid.0 addr size kind) t.old g.old result t.new
        g.new }
    ensures loses { LosesPages G.PageStore pid t.old t.new g.old g.new }
{
    if !t.has(pid) {
        return Answer::Error(Code::InvalidHandle);
    }
    if !are_free_parameters(size, kind) {
        return Answer::Error(Code::InvalidParameter);
    }
    t.sound();
    let range = match freed_pages(t, pid, addr, size) {
        Some(range) => range,
        None => return Answer::Error(Code::InvalidAddress),
    };
    if kind == AllocFlags::RELEASE.0 {
        t.release(g, pid, addr, range);
        return Answer::Ok;
    }
    t.decommit(g, pid, range);
    Answer::Ok
}

/// The pages that a `free` means: of size 0 all of the private region that begins at the address,
/// else those of the range, which lie in one.
fn freed_pages(t: &Tables, pid: Pid, addr: u32, size: u32) -> Option<PageRange>
    requires lives { is_some (process_of t.now pid.0) ≡ true }
    ensures { (p : ProcessOf (Unit {0})) → process_of t.now pid.0 ≡ Some p →
        result ≡ freed_pages p.regions addr size }
{
    if size == 0 {
        return t.space(pid).private_at(addr);
    }
    let range = PageRange::of(addr, size);
    if t.space(pid).is_in_private(range) {
        Some(range)
    } else {
        None
    }
}

/// `protect` (VirtualProtect): another protection for committed pages. The answer is what the first
/// page had.
///
/// In this order: `InvalidHandle` for a process that does not live; `InvalidParameter` for a size
/// of 0 or what is no protection; `InvalidAddress` where the pages are not all committed in one
/// region; `InvalidParameter` for a protection that one of them does not accept. `CommitmentLimit`
/// where the charge of new marks would pass the limit. `NoMemory` comes only where WRITECOPY marks
/// a page of a view that has no mark yet; then tables and bytes are as before.
pub fn protect<G: PageStore>(
    t: &mut Tables,
    g: &mut G,
    pid: Pid,
    addr: u32,
    size: u32,
    prot: u32,
) -> Result<Answer, NoMemory>
    requires begins { BeginsCall G.PageStore t.old g.old }
    ensures done { IfOk result (λ a. AnswersCall G.PageStore (protect t.old pid.0 addr size prot) t.old
        g.old a t.new g.new) }
    ensures broke { OnErr result (LacksMemory G.PageStore t.old g.old t.new g.new) }
    ensures no_memory { marks_anew t.old pid.0 addr size prot ≡ false → IsOk result }
    ensures idles { StaysIdle G.PageStore g.old g.new }
{
    if !t.has(pid) {
        return Ok(Answer::Error(Code::InvalidHandle));
    }
    if !are_protect_parameters(size, prot) {
        return Ok(Answer::Error(Code::InvalidParameter));
    }
    protect_range(t, g, pid, PageRange::of(addr, size), prot)
}

/// Gives pages of a living process another protection, which a page can have.
fn protect_range<G: PageStore>(
    t: &mut Tables,
    g: &mut G,
    pid: Pid,
    range: PageRange,
    prot: u32,
) -> Result<Answer, NoMemory>
    requires ready { IsReadyFor G.PageStore line_kind.Call pid t.old g.old }
    requires prot { is_protection_among all_protections prot ≡ true }
    ensures done { IfOk result (λ a. DecidesIn G.PageStore pid (λ p.
        protect_pages t.old pid.0 p range prot) t.old g.old a t.new g.new) }
    ensures broke { OnErr result (LacksMemory G.PageStore t.old g.old t.new g.new) }
    ensures marks { OnErr result ((p : ProcessOf (Unit {0})) → process_of t.old pid.0 ≡ Some p
        → charge t.old < charge (protect_pages t.old pid.0 p range prot).world) }
    ensures idles { StaysIdle G.PageStore g.old g.new }
{
    let space = t.space(pid);
    let asked = match space.protect_info(range, prot) {
        Some(asked) => asked,
        None => return Ok(Answer::Error(Code::InvalidAddress)),
    };
    if !are_committed(t, pid, range, asked) {
        return Ok(Answer::Error(Code::InvalidAddress));
    }
    if !asked.accepted {
        return Ok(Answer::Error(Code::InvalidParameter));
    }
    let n = marks(space, range, asked.kind, prot);
    if !t.can_charge(n) {
        return Ok(Answer::Error(Code::CommitmentLimit));
    }
    match t.protect(g, pid, range, prot, n) {
        Ok(()) => Ok(Answer::OldProt(asked.before)),
        Err(NoMemory) => Err(NoMemory),
    }
}

/// Whether all pages of a range are committed, of which this was asked.
fn are_committed(t: &Tables, pid: Pid, range: PageRange, asked: ProtectInfo) -> bool
    requires lives { is_some (process_of t.now pid.0) ≡ true }
    requires asked { (p : ProcessOf (Unit {0})) → process_of t.now pid.0 ≡ Some p →
        IsAsked p.regions range asked }
    ensures { (p : ProcessOf (Unit {0})) (r : Found (RegionOf (Unit {0}))) →
        process_of t.now pid.0 ≡ Some p → region_around p.regions range ≡ Some r
        → result ≡ every_page (is_committed_at t.now r.thing) range }
{
    t.sound();
    match asked.kind {
        Kind::Private => asked.owned,
        Kind::View(view) => t.space(pid).are_committed(range, t.area(view.area)),
    }
}

/// How many pages of a range, which lies in one region, the protection marks.
fn marks(space: &AddressSpace, range: PageRange, kind: Kind, prot: u32) -> u32
    requires around { option_map (λ r. r.thing.kind) (region_around space.now.regions range) ≡
        Some kind }
    ensures { result ≡ new_marks space.now.regions range prot }
{
    match kind {
        Kind::View(_) if prot % Prot::GUARD.0 == Prot::WRITECOPY.0 => space.unmarked(range),
        _ => 0,
    }
}
