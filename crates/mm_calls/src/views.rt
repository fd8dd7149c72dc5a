#![tactic(auto, using(mm_store::proofs::Passed::turns_same))]

ghost use Rattle.std.specs.Prelude.{◌≡◌, ◌≤◌, ◌+◌, true, false, Some, if◌then◌else◌, IfOk, IfSome, IsOk, OnErr};
ghost use Rattle.mm_types.specs.{is_granule_address};
ghost use Rattle.mm_types.specs.declared.codes.Code.TheVariants as code;
ghost use Rattle.mm_types.specs.declared.moves.LineKind.TheVariants as line_kind;
ghost use Rattle.mm_types.specs.declared.views.Kind.TheVariants as view_kind;
ghost use Rattle.mm_world.specs.{ProcessOf, SectionOf, Found, process_of, section_of, is_private, is_success, find_or, handle_section, is_copy};
ghost use Rattle.mm_world.specs.{map_view, unmap, ViewFits};
ghost use Rattle.mm_object_tables.specs.{IsReadyFor, SettlesTables, StaysIdle};
ghost use Rattle.mm_calls.specs.{are_viewed, place_view, map_section, BeginsCall, BeginsRelease, AnswersCall, MakesIn, LacksMemory, LosesPages};

use crate::parameters::{is_granule_address, may_view, view_access};
use mm_address_spaces::pages_for;
use mm_object_tables::Tables;
use mm_store::PageStore;
use mm_types::{Answer, Code, Kind, NoMemory, PAGE_SIZE, Pid, View, ViewAccess};
use std::alloc::Global;

/// `map` (MapViewOfFile, and MapViewOfFileEx where an address is given): a view of a section from
/// `offset` bytes on, of `view_length` bytes, or to the section's end where that is 0. The answer
/// is its address.
///
/// In this order: `InvalidHandle` for a process that does not live; `InvalidParameter` for the
/// access; `InvalidHandle` for the handle; `AccessDenied` for a write view of a section that is not
/// READWRITE; `Misaligned` where offset or address is not that of a granule; `InvalidAddress` where
/// the view does not lie within its section, or its pages are not free user pages;
/// `CommitmentLimit` where the charge of a copy view would pass the limit. After `NoMemory`, which
/// none of these comes to, tables and pages are as before.
pub fn map<G: PageStore>(
    allocator: Global,
    t: &mut Tables,
    g: &mut G,
    pid: Pid,
    handle: u32,
    access: u32,
    offset: u32,
    view_length: u32,
    addr: u32,
) -> Result<Answer, NoMemory>
    requires begins { BeginsCall G.PageStore t.old g.old }
    ensures done { IfOk result (λ a. AnswersCall G.PageStore
        (map_view t.old pid.0 handle access offset view_length addr) t.old g.old a t.new g.new) }
    ensures broke { OnErr result (LacksMemory G.PageStore t.old g.old t.new g.new) }
    ensures no_memory { is_success (map_view t.old pid.0 handle access offset view_length
        addr).answer ≡ false
        → IsOk result }
    ensures idles { StaysIdle G.PageStore g.old g.new }
{
    if !t.has(pid) {
        return Ok(Answer::Error(Code::InvalidHandle));
    }
    match view_access(access) {
        Some(access) => {
            map_handle(
                allocator,
                t,
                g,
                pid,
                handle,
                access,
                offset,
                view_length,
                addr,
            )
        }
        None => Ok(Answer::Error(Code::InvalidParameter)),
    }
}

/// Maps a view of the section of a handle of a living process.
fn map_handle<G: PageStore>(
    allocator: Global,
    t: &mut Tables,
    g: &mut G,
    pid: Pid,
    handle: u32,
    access: ViewAccess,
    offset: u32,
    view_length: u32,
    addr: u32,
) -> Result<Answer, NoMemory>
    requires ready { IsReadyFor G.PageStore line_kind.Call pid t.old g.old }
    ensures made { MakesIn G.PageStore pid (λ p.
        find_or t.old code.InvalidHandle (handle_section t.old p handle)
        (λ s. map_section t.old pid.0 p s access offset view_length addr)) result t.old g.old t.new
        g.new }
    ensures idles { StaysIdle G.PageStore g.old g.new }
{
    t.sound();
    let section = match t.section_at(pid, handle) {
        Some(section) => section,
        None => return Ok(Answer::Error(Code::InvalidHandle)),
    };
    if !may_view(access, section.prot) {
        return Ok(Answer::Error(Code::AccessDenied));
    }
    if !is_granule_address(offset) || !is_granule_address(addr) {
        return Ok(Answer::Error(Code::Misaligned));
    }
    let first = offset / PAGE_SIZE;
    let count = match viewed_pages(t.area(section.area).len(), first, view_length) {
        Some(count) => count,
        None => return Ok(Answer::Error(Code::InvalidAddress)),
    };
    let view = View {
        section: section.id,
        area: section.area,
        first,
        access,
    };
    place_view(allocator, t, g, pid, view, count, addr)
}

/// How many pages a view has of a section of `total` pages, from the page `first` on; length 0
/// means to the section's end. None where it does not lie within the section.
fn viewed_pages(total: u32, first: u32, view_length: u32) -> Option<u32>
    ensures viewed { result ≡ are_viewed total first view_length }
    ensures within { IfSome result (λ count. (1 ≤ count) × (first + count ≤ total)) }
{
    if first >= total {
        return None;
    }
    let count = if view_length == 0 {
        total - first
    } else {
        pages_for(view_length)
    };
    if count > total - first {
        return None;
    }
    Some(count)
}

/// Places a view of `count` pages, which lies within its section.
fn place_view<G: PageStore>(
    allocator: Global,
    t: &mut Tables,
    g: &mut G,
    pid: Pid,
    view: View,
    count: u32,
    addr: u32,
) -> Result<Answer, NoMemory>
    requires ready { IsReadyFor G.PageStore line_kind.Call pid t.old g.old }
    requires section { ViewFits t.old view count }
    requires some { 1 ≤ count }
    requires granule { is_granule_address addr ≡ true }
    ensures ok { IfOk result (λ a. (p : ProcessOf (Unit {0})) (s : Found SectionOf) →
        process_of t.old pid.0 ≡ Some p → s.place ≡ view.section.0 →
        section_of t.old s.place ≡ Some s.thing →
        place_view t.old pid.0 p s view.access view.first count addr ≡ record {
          answer = a;
          world = t.new;
        }) }
    ensures succeeds { OnErr result ((p : ProcessOf (Unit {0})) (s : Found SectionOf)
        → process_of t.old pid.0 ≡ Some p
        → is_success (place_view t.old pid.0 p s view.access view.first count addr).answer ≡ true) }
    ensures settles { SettlesTables G.PageStore result t.old t.new g.old g.new }
    ensures idles { StaysIdle G.PageStore g.old g.new }
{
    let range = match t.space(pid).gap_for_view(addr, count) {
        Some(range) => range,
        None => return Ok(Answer::Error(Code::InvalidAddress)),
    };
    if !t.can_charge(charged_pages(view.access, range.count)) {
        return Ok(Answer::Error(Code::CommitmentLimit));
    }
    match t.add_view(allocator, g, pid, range, view) {
        Ok(()) => Ok(Answer::At(range.first * PAGE_SIZE)),
        Err(NoMemory) => Err(NoMemory),
    }
}

/// How many of `count` pages of a new view are charged: each page of a copy view is, from its
/// mapping on.
fn charged_pages(access: ViewAccess, count: u32) -> u32
    ensures { result ≡ (if is_copy access then count else 0) }
{
    match access {
        ViewAccess::Copy => count,
        ViewAccess::Read | ViewAccess::Write => 0,
    }
}

/// `unmap` (UnmapViewOfFile): the view is gone, with its copied pages and its marks. A section to
/// which neither handle nor view refers ends.
///
/// `InvalidHandle` for a process that does not live; `InvalidAddress` where no view has the address
/// as its base, to the byte.
pub fn unmap<G: PageStore>(t: &mut Tables, g: &mut G, pid: Pid, addr: u32) -> Answer
    requires begins { BeginsRelease G.PageStore pid t.old g.old }
    ensures done { AnswersCall G.PageStore (unmap t.old pid.0 addr) t.old g.old result t.new g.new }
    ensures loses { LosesPages G.PageStore pid t.old t.new g.old g.new }
{
    if !t.has(pid) {
        return Answer::Error(Code::InvalidHandle);
    }
    let region = match t.space(pid).view_at(addr) {
        Some(region) => region,
        None => return Answer::Error(Code::InvalidAddress),
    };
    let view = view_of(region.kind);
    t.remove_view(g, pid, addr, region.pages, view);
    Answer::Ok
}

/// The view that a region is.
pub(crate) fn view_of(kind: Kind) -> View
    requires view { is_private kind ≡ false }
    ensures view { kind ≡ view_kind.View result }
{
    match kind {
        Kind::View(view) => view,
        Kind::Private => unreachable!(),
    }
}
