ghost use Rattle.std.specs.Prelude.{◌≡◌, ◌≤◌, ◌<◌, ◌+◌, ◌-◌, ◌^◌, ℕ, true, false, is_some, if◌then◌else◌, Some, None, IsOk, OnOk, OnErr, length, slice_set};
ghost use Rattle.mm_types.specs.declared.moves.LineKind.TheVariants as line_kind;
ghost use Rattle.mm_types.specs.{View};
ghost use Rattle.mm_types.specs.declared.views.Kind.TheVariants as kind;
ghost use Rattle.mm_world.specs.{RegionOf, ProcessOf, SectionOf, Found, process_of, section_of, region_around, add_region, set_region, set_regions};
ghost use Rattle.mm_world.specs.{set_area, area_at, is_private, commit_shared, charge, limit, blank, protected, change_rows, view_region, is_copy};
ghost use Rattle.mm_world.specs.{ViewFits};
ghost use Rattle.mm_store.specs.{MakesFrom};
ghost use Rattle.mm_object_tables.specs.{CommitsInView, IsNewPlace, IsReadyFor, CanBind, PassesAs, StaysIdle, IdlesOver, MakesPages, BindsPlaces};
ghost use Rattle.mm_object_tables.specs.{SettlesTables, SharesPages, region_of_view, listed_area, MoreRoom, CanShare, Shares};

use crate::Tables;
use crate::private_pages::{grow_for_region, take};
use crate::tables::space_of;
use mm_address_spaces::{AddressSpace, NewRegion, PageRange};
use mm_sections::SectionPages;
use mm_store::PageStore;
use mm_types::{Area, Key, Kind, NoMemory, Pid, View, ViewAccess};
use std::alloc::Global;

/// How many pages of a new view are charged: all of a copy view, each of which has a mark.
fn marked_pages(view: View, range: PageRange) -> u32
    ensures charged { result ≡ (if is_copy view.access then range.count else 0) }
    ensures some { 1 ≤ range.count }
{
    let pages = range.count;
    match view.access {
        ViewAccess::Copy => pages,
        ViewAccess::Read | ViewAccess::Write => 0,
    }
}

/// Makes a view of free pages in an address space. `total` is what all keys come to at most. After
/// `NoMemory` there may be more room, and nothing else is other.
#[tactic(auto, using(mm_store::proofs::Passed::turns_same))]
fn make_view<G: PageStore>(
    alloc: Global,
    space: &mut AddressSpace,
    g: &mut G,
    pid: Pid,
    range: PageRange,
    view: View,
    total: u32,
) -> Result<(), NoMemory>
    requires new { IsNewPlace space.old.regions range }
    requires bind { CanBind G.PageStore pid range total g.old }
    ensures regions { OnOk result (space.new.regions ≡
        add_region (region_of_view view range) space.old.regions) }
    ensures binds { OnOk result (BindsPlaces G.PageStore pid range total g.old g.new) }
    ensures idles { IdlesOver G.PageStore g.old g.new }
    ensures kept { OnErr result (space.new.regions ≡ space.old.regions) }
    ensures err { OnErr result (MoreRoom (G.store g.old) (G.store g.new)) }
{
    let region = NewRegion::view(alloc, view, range)?;
    match grow_for_region(space, g, pid, range, total) {
        Ok(()) => {
            space.add(region);
            Ok(())
        }
        Err(NoMemory) => Err(NoMemory),
    }
}

/// How many pages of a region stand before a range of it.
fn pages_before(pages: PageRange, range: PageRange) -> u32
    requires { pages.first ≤ range.first }
    ensures { result ≡ range.first - pages.first }
{
    range.first - pages.first
}

/// The view in which the pages of a range lie, and how many of its pages stand before them.
fn view_of(space: &AddressSpace, range: PageRange) -> (View, u32)
    requires inside { is_some (region_around space.now.regions range) ≡ true }
    requires view { (r : Found (RegionOf (Unit {0}))) →
        region_around space.now.regions range ≡ Some r → is_private r.thing.kind ≡ false }
    ensures { (r : Found (RegionOf (Unit {0}))) → region_around space.now.regions range ≡ Some r →
        (r.thing.kind ≡ kind.View result.0) × (result.1 ≡ range.first - r.thing.base) }
{
    match space.region_around(range) {
        Some(region) => match region.kind {
            Kind::View(view) => (view, pages_before(region.pages, range)),
            Kind::Private => unreachable!(),
        },
        None => unreachable!(),
    }
}

/// Adds the key of a section's page if it is not committed.
#[tactic(auto, using(mm_store::proofs::Passed::turns_same))]
fn share_page<G: PageStore>(g: &mut G, pages: &SectionPages, area: Area, index: u32)
    requires inside { index < length pages.now.pages }
    requires can { CanShare area index 1 pages.now (G.contents g.old) (G.store g.old) }
    ensures shares { Shares area index 1 pages.now (G.contents g.old) (G.contents g.new)
        (G.store g.old) (G.store g.new) }
    ensures passes { (from to : ℕ) → from ≤ index → index < to →
        PassesAs G.PageStore (MakesFrom from to) g.old g.new }
    ensures loans { G.loans g.new ≡ G.loans g.old }
{
    if !pages.is_committed(index) {
        g.add(Key::Shared(area, index));
    }
}

/// Adds the keys of those of a section's pages that are not committed, in rising order.
#[tactic(auto, using(mm_store::proofs::Passed::turns_same))]
fn share_range<G: PageStore>(g: &mut G, pages: &SectionPages, area: Area, first: u32, count: u32)
    requires end { first + count < 2 ^ 32 }
    requires can { CanShare area first count pages.now (G.contents g.old) (G.store g.old) }
    ensures { SharesPages G.PageStore area first count pages.now g.old g.new }
{
    for i in 0..count {
        share_page(g, pages, area, first + i);
    }
}

/// The index of the section's page that stands `offset` pages after another.
fn index_behind(pages: &SectionPages, first: u32, offset: u32) -> u32
    requires inside { first + offset < length pages.now.pages }
    ensures index { result ≡ first + offset }
    ensures few { length pages.now.pages < 2 ^ 32 }
{
    let pages = pages.len();
    // So the sum passes no u32.
    prove!(offset < pages - first);
    first + offset
}

/// Commits pages of a section, from the page that stands `offset` pages after the first of a view.
fn share_in<G: PageStore>(pages: &mut SectionPages, g: &mut G, view: View, offset: u32, count: u32)
    requires some { 1 ≤ count }
    requires can { CanShare view.area (view.first + offset) count pages.old (G.contents g.old)
        (G.store g.old) }
    ensures pages { pages.new ≡ commit_shared blank (view.first + offset) count pages.old }
    ensures shared { SharesPages G.PageStore view.area (view.first + offset) count
        pages.old g.old g.new }
{
    let first = index_behind(pages, view.first, offset);
    share_range(g, pages, view.area, first, count);
    pages.commit(first, count);
}

/// Commits pages of the control area of a view.
fn share_pages<G: PageStore>(
    areas: &mut Vec<SectionPages>,
    g: &mut G,
    view: View,
    offset: u32,
    count: u32,
)
    requires some { 1 ≤ count }
    requires can { CanShare view.area (view.first + offset) count
        (listed_area areas.old.items view.area.0) (G.contents g.old) (G.store g.old) }
    ensures areas { areas.new.items ≡
        slice_set areas.old.items view.area.0
        (commit_shared blank (view.first +
        offset) count (listed_area areas.old.items view.area.0)) }
    ensures shared { SharesPages G.PageStore view.area (view.first + offset) count
        (listed_area areas.old.items view.area.0) g.old g.new }
{
    share_in(&mut areas[view.area.0 as usize], g, view, offset, count);
}

impl Tables {
    /// Commits the section pages under a range of one view of a page-file section, and gives the
    /// view's rows the protection, which they accept. `n` of the section pages are not committed,
    /// and the limit allows them. After `NoMemory`, which does not come where the store has room
    /// for them, tables and bytes are as before.
    #[tactic(auto, using(mm_store::proofs::Passed::idle_before))]
    pub fn commit_view<G: PageStore>(
        &mut self,
        g: &mut G,
        pid: Pid,
        range: PageRange,
        prot: u32,
        n: u32,
    ) -> Result<(), NoMemory>
        requires ready { IsReadyFor G.PageStore line_kind.Call pid self.old g.old }
        requires can { CommitsInView pid range prot n self.old }
        requires room { charge self.old + n ≤ limit self.old }
        ensures ok { OnOk result ((p : ProcessOf (Unit {0})) (r : Found (RegionOf (Unit {0})))
            (v : View) → process_of self.old pid.0 ≡ Some p →
            region_around p.regions range ≡ Some r → r.thing.kind ≡ kind.View v →
            self.new ≡ set_area
            (set_region self.old pid.0 p r.place
            (change_rows (protected r.thing.kind prot) range r.thing)) v.area.0
            (commit_shared blank (v.first + (range.first - r.thing.base)) range.count
            (area_at self.old v.area.0))) }
        ensures enough { charge self.old + n ≤ (G.store g.old).room → IsOk result }
        ensures settles { SettlesTables G.PageStore result self.old self.new g.old g.new }
        ensures makes { MakesPages G.PageStore result g.old g.new }
    {
        let (view, offset) = view_of(self.space(pid), range);
        let total = self.commit.now() + n;
        g.reserve(total)?;
        share_pages(&mut self.areas, g, view, offset, range.count);
        space_of(&mut self.processes[pid.0 as usize - 1]).protect(range, prot);
        take(&mut self.commit, n);
        Ok(())
    }

    /// Makes a view of free pages, which lies within its section; a copy view's pages are charged,
    /// and the limit allows them. After `NoMemory` tables and bytes are as before.
    pub fn add_view<G: PageStore>(
        &mut self,
        alloc: Global,
        g: &mut G,
        pid: Pid,
        range: PageRange,
        view: View,
    ) -> Result<(), NoMemory>
        requires ready { IsReadyFor G.PageStore line_kind.Call pid self.old g.old }
        requires new { (p : ProcessOf (Unit {0})) → process_of self.old pid.0 ≡ Some p →
            IsNewPlace p.regions range }
        requires section { ViewFits self.old view range.count }
        requires room { charge self.old + (if is_copy view.access then range.count else 0) ≤ limit
            self.old }
        ensures ok { OnOk result ((p : ProcessOf (Unit {0})) (s : Found SectionOf) →
            process_of self.old pid.0 ≡ Some p → s.place ≡ view.section.0 →
            section_of self.old s.place ≡ Some s.thing →
            self.new ≡ set_regions self.old pid.0 p
            (add_region (view_region s view.access view.first range) p.regions)) }
        ensures settles { SettlesTables G.PageStore result self.old self.new g.old g.new }
        ensures idles { StaysIdle G.PageStore g.old g.new }
    {
        let charged = marked_pages(view, range);
        let total = self.commit.now() + charged;
        let space = space_of(&mut self.processes[pid.0 as usize - 1]);
        make_view(alloc, space, g, pid, range, view, total)?;
        self.directory.add_view(view.section);
        take(&mut self.commit, charged);
        Ok(())
    }
}
