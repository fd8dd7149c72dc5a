ghost use Rattle.std.specs.Prelude.{◌≡◌, ◌+◌, ◌-◌, ◌<◌, ◌≤◌, ◌^◌, true, false, is_some, length, drop, map, slice_get, IfSome, IfNone, None, Some};
ghost use Rattle.mm_types.specs.{Kind, View, is_user_page, end_of_user_pages};
ghost use Rattle.mm_types.specs.declared.views.Kind.TheVariants as kind;
ghost use Rattle.mm_vad.specs.{Row};
ghost use Rattle.mm_world.specs.{RegionOf, WorldOf, Found, region_with, region_around, area_at, is_private, page_info, region_info, free_info};
ghost use Rattle.mm_world.specs.{page_states, first_run, next_base, protection_at, every_page, every_page_from, accepts, same_state, row_state};
ghost use Rattle.mm_world.specs.{with_guard, Each, ViewRowFits};
ghost use Rattle.mm_address_spaces.specs.Shown.{shown_row};
ghost use Rattle.mm_address_spaces.specs.Kept.{IsAround, IsRegionAt};
ghost use Rattle.mm_address_spaces.specs.Asked.{IsAsked};
ghost use Rattle.mm_address_spaces.specs.PageInfos.{IfTold, IfInView, LiesInView};
ghost use Rattle.mm_address_spaces.specs.ViewStates.{is_area_page, view_state, states_in, state_told};

use crate::rows::RowTest;
use crate::{AddressSpace, PageRange};
use mm_sections::SectionPages;
use mm_types::{AllocFlags, END_OF_USER_PAGES, Kind, PAGE_SIZE, Prot, QueryInfo, View, Vpn};
use mm_vad::{Region, Row, Rows};

const FREE: u32 = 0x10000;

const PRIVATE: u32 = 0x20000;

const MAPPED: u32 = 0x40000;

/// What VirtualQuery tells of a page, where its region alone says it.
#[derive(Clone, Copy)]
pub enum PageInfo {
    /// All of it: the page is free or lies in a private region.
    Told(QueryInfo),
    /// The page lies in this view, whose control area says which pages are committed.
    InView(View),
}

/// What is asked of pages of one region before they get another protection.
#[derive(Clone, Copy, PartialEq, Eq)]
pub struct ProtectInfo {
    /// What the region is.
    pub kind: Kind,
    /// Each of the pages has bytes of its own: of a private region, each is committed.
    pub owned: bool,
    /// Each can have the new protection, guard aside.
    pub accepted: bool,
    /// The protection of the first page, guard included.
    pub before: Prot,
}

impl AddressSpace {
    /// What VirtualQuery tells of a user page that is free or lies in a private region: of a page
    /// in a region the longest run of pages from it on, in its region, that are alike in state and
    /// protection; of a free page where the next region begins. Of another page which view it lies
    /// in.
    pub fn info(&self, page: u32) -> PageInfo
        requires user { is_user_page page ≡ true }
        ensures told { (w : WorldOf (Unit {0})) → IfTold result (λ info.
            info ≡ page_info w self.now.regions page (region_with self.now.regions page)) }
        ensures view { IfInView result (λ view. LiesInView self.now.regions page view) }
    {
        let Some(region) = self.region_at(page) else {
            return PageInfo::Told(self.free_info(page));
        };
        match region.kind {
            Kind::Private => PageInfo::Told(self.region_info(page, region)),
            Kind::View(view) => PageInfo::InView(view),
        }
    }

    /// What VirtualQuery tells of a page of a view, whose control area has these pages.
    pub fn view_info(&self, page: u32, pages: &SectionPages) -> QueryInfo
        requires user { is_user_page page ≡ true }
        requires inside { is_some (region_with self.now.regions page) ≡ true }
        requires view { (r : Found (RegionOf (Unit {0}))) →
            region_with self.now.regions page ≡ Some r → is_private r.thing.kind ≡ false }
        ensures { (w : WorldOf (Unit {0})) (r : Found (RegionOf (Unit {0}))) (v : View) →
            region_with self.now.regions page ≡ Some r → r.thing.kind ≡ kind.View v
            → area_at w v.area.0 ≡ pages.now →
            result ≡ page_info w self.now.regions page (region_with self.now.regions page) }
    {
        let Some(region) = self.region_at(page) else {
            unreachable!()
        };
        let Kind::View(view) = region.kind else {
            unreachable!()
        };
        let index = page - region.base.0;
        let told = state_in_view(&region.rows, view, index, pages);
        QueryInfo {
            base: page * PAGE_SIZE,
            alloc_base: region.base.0 * PAGE_SIZE,
            alloc_prot: region.alloc_prot.0,
            size: run_in_view(&region.rows, view, index, pages) * PAGE_SIZE,
            state: told.state,
            prot: told.prot,
            kind: MAPPED,
        }
    }

    fn region_info(&self, page: u32, region: &Region) -> QueryInfo
        requires user { is_user_page page ≡ true }
        requires at { IsRegionAt self.now.regions page region.now }
        requires private { region.now.kind ≡ kind.Private }
        ensures { (w : WorldOf (Unit {0})) (r : Found (RegionOf (Unit {0}))) →
            region_with self.now.regions page ≡ Some r
            → result ≡ region_info w r.thing page }
    {
        let index = page - region.base.0;
        let row = region.rows.get(index);
        let told = told_of_row(row, row.committed);
        QueryInfo {
            base: page * PAGE_SIZE,
            alloc_base: region.base.0 * PAGE_SIZE,
            alloc_prot: region.alloc_prot.0,
            size: region.rows.run_from(index) * PAGE_SIZE,
            state: told.state,
            prot: told.prot,
            kind: PRIVATE,
        }
    }

    fn free_info(&self, page: u32) -> QueryInfo
        requires { is_user_page page ≡ true }
        ensures { result ≡ free_info self.now.regions page }
    {
        QueryInfo {
            base: page * PAGE_SIZE,
            alloc_base: 0,
            alloc_prot: 0,
            size: (self.next_base(page) - page) * PAGE_SIZE,
            state: FREE,
            prot: Prot::NOACCESS.0,
            kind: 0,
        }
    }

    // Where the next region begins after the page, or the user pages end.
    fn next_base(&self, page: u32) -> u32
        requires { is_user_page page ≡ true }
        ensures next { result ≡ next_base self.now.regions page }
        ensures behind { page ≤ result }
        ensures within { result ≤ end_of_user_pages }
    {
        match self.space.next_region(Vpn(page + 1)) {
            Some(region) => region.base.0,
            None => END_OF_USER_PAGES,
        }
    }

    /// What is asked of the pages of the range before they get the protection `prot`, by one
    /// look-up. None exactly where they do not lie in one region.
    pub fn protect_info(&self, range: PageRange, prot: u32) -> Option<ProtectInfo>
        ensures some { IfSome result (λ asked. IsAsked self.now.regions range asked) }
        ensures accepted { IfSome result (λ asked. (r : Found (RegionOf (Unit {0})))
            → region_around self.now.regions range ≡ Some r
            → asked.accepted ≡ every_page (accepts r.thing prot) range) }
        ensures none { IfNone result (region_around self.now.regions range ≡ None) }
    {
        let region = self.around(range)?;
        Some(ProtectInfo {
            kind: region.kind,
            owned: self.do_all_pass(region, range, RowTest::Owned),
            accepted: self.do_all_pass(region, range, RowTest::Accepts(prot)),
            before: self.protection_at(region, range),
        })
    }

    // The protection of the first page of the range, guard included. The range lies in this region.
    fn protection_at(&self, region: &Region, range: PageRange) -> Prot
        requires around { IsAround self.now.regions range region.now }
        ensures { (r : Found (RegionOf (Unit {0}))) → region_around self.now.regions range ≡ Some r
            → result ≡ protection_at r.thing range.first }
    {
        let row = region.rows.get(range.first - region.base.0);
        Prot(protection_of_row(row))
    }
}

// ---- what is told of rows

/// What is told of a page: its state (MEM_COMMIT or MEM_RESERVE) and its protection, guard
/// included.
#[derive(Clone, Copy)]
pub(crate) struct ToldState {
    pub state: u32,
    pub prot: u32,
}

impl ToldState {
    fn is_like(self, other: ToldState) -> bool
        ensures { result ≡ same_state (state_told self) (state_told other) }
    {
        self.state == other.state && self.prot == other.prot
    }
}

/// The protection of a row, guard included.
pub(crate) fn protection_of_row(row: Row) -> u32
    requires { row.prot.0 < 0x100 }
    ensures { result ≡ with_guard row.prot.0 row.guard }
{
    if row.guard {
        row.prot.0 + Prot::GUARD.0
    } else {
        row.prot.0
    }
}

/// What is told of a page with this row; one that is not committed has protection 0.
pub(crate) fn told_of_row(row: Row, committed: bool) -> ToldState
    requires { row.prot.0 < 0x100 }
    ensures { (k : Kind) → state_told result ≡ row_state committed (shown_row k row) }
{
    if committed {
        ToldState {
            state: AllocFlags::COMMIT.0,
            prot: protection_of_row(row),
        }
    } else {
        ToldState {
            state: AllocFlags::RESERVE.0,
            prot: 0,
        }
    }
}

/// Whether the page of a view is committed, which stands at this place in the view.
pub(crate) fn is_page_committed(view: View, index: u32, pages: &SectionPages) -> bool
    ensures { result ≡ is_area_page pages.now view index }
{
    let place = u64::from(view.first) + u64::from(index);
    if place < u64::from(pages.len()) {
        pages.is_committed(place as u32)
    } else {
        false
    }
}

/// Whether `count` pages of a view are committed, the first of which stands at the place `first` in
/// the view.
pub(crate) fn are_pages_committed(view: View, first: u32, count: u32, pages: &SectionPages) -> bool
    requires fits { first + count < 2 ^ 32 }
    ensures { result ≡ every_page_from (is_area_page pages.now view) first count }
{
    for i in 0..count {
        if !is_page_committed(view, first + i, pages) {
            return false;
        }
    }
    true
}

/// What is told of the page of a view that stands at this place in it.
pub(crate) fn state_in_view(rows: &Rows, view: View, index: u32, pages: &SectionPages) -> ToldState
    requires inside { index < length rows.now }
    requires fit { Each (ViewRowFits view.access) (map (shown_row (kind.View view)) rows.now) }
    ensures { (row : Row) → slice_get rows.now index ≡ Some row
        → state_told result ≡ view_state pages.now view index (shown_row (kind.View view) row) }
{
    let row = rows.get(index);
    told_of_row(row, is_page_committed(view, index, pages))
}

/// How many pages of a view, from the place `index` on, are alike in what is told of them.
pub(crate) fn run_in_view(rows: &Rows, view: View, index: u32, pages: &SectionPages) -> u32
    requires inside { index < length rows.now }
    requires fit { Each (ViewRowFits view.access) (map (shown_row (kind.View view)) rows.now) }
    ensures run { result ≡ (first_run (drop index (states_in pages.now view rows.now))).1 }
    ensures within { index + result ≤ length rows.now }
{
    let len = rows.len();
    let first = state_in_view(rows, view, index, pages);
    let mut end = index + 1;
    while end < len && first.is_like(state_in_view(rows, view, end, pages)) {
        end += 1;
    }
    end - index
}
