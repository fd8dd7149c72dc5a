ghost use Rattle.std.specs.Prelude.{◌≡◌, ◌≤◌, ◌+◌, ◌%◌, true, false, [], is_some, length, not, if◌then◌else◌, IfSome, IfNone, None, Some, option_map, slice_get, count_by};
ghost use Rattle.std.specs.List.{list_all};
ghost use Rattle.mm_types.specs.{Range, pages_for, page_of, granule_range_of, are_user_pages, is_free, is_granule_address, View};
ghost use Rattle.mm_types.specs.declared.views.Kind.TheVariants as kind;
ghost use Rattle.mm_world.specs.{RegionOf, WorldOf, pages_of, Found, ranges_of, region_with, region_around, placed, area_at, is_private, private_at};
ghost use Rattle.mm_world.specs.{private_around, view_at, view_around, own_page, every_page, accepts, is_committed_at, IsSpace};
ghost use Rattle.mm_address_spaces.specs.Shown.{region_of};
ghost use Rattle.mm_address_spaces.specs.Kept.{IsRegionAt, IsAround, NoneAround, IsBased, NoneBased};
ghost use Rattle.mm_address_spaces.specs.Tables.{info_of, found_info, told_page_row, owned_in, unmarked_in, marked_in, rows_in_range};
ghost use Rattle.mm_address_spaces.specs.RowTests.{passes};

use crate::PageRange;
use crate::queries::are_pages_committed;
use crate::ranges::pages_for;
use crate::rows::{RowTest, count_rows, has_own};
use mm_sections::SectionPages;
use mm_types::{Kind, PAGE_SIZE, Prot, Vpn};
use mm_vad::{Region, Space};
use std::alloc::Global;
use std::marker::Model;

// Below every region.
const LOWEST: Vpn = Vpn(0);

/// What is told of a region: its pages, and what it is.
#[derive(Clone, Copy, PartialEq, Eq)]
pub struct RegionInfo {
    /// Its pages.
    pub pages: PageRange,
    /// Private memory, or a view with its section.
    pub kind: Kind,
}

/// What is told of a page that lies in a region.
#[derive(Clone, Copy, PartialEq, Eq)]
pub struct PageRow {
    /// What its region is.
    pub kind: Kind,
    /// How many pages of the region stand before it.
    pub index: u32,
    /// The base protection.
    pub prot: Prot,
    /// The first access raises an alarm and takes the guard off (PAGE_GUARD).
    pub guard: bool,
    /// A write to a page of a view makes a copy.
    pub marked: bool,
    /// It has bytes of its own: a private page where it is committed, one of a view where it was
    /// copied.
    pub owned: bool,
    /// Its region is watched (MEM_WRITE_WATCH).
    pub watched: bool,
}

/// The regions of one process: no page lies in two, and each begins on a granule.
#[derive(Drop)]
pub struct AddressSpace {
    pub(crate) space: Space,
}

impl Model for AddressSpace {
    ghost use Rattle.mm_address_spaces.specs.Tables.{RegionsOf};
    ghost use Rattle.mm_address_spaces.specs.Shown.{shown_regions};
    ghost use Rattle.mm_address_spaces.specs.Finds.{IsKeptSpace};

    ghost Value = { RegionsOf };

    ghost view = { λ s. record { regions = shown_regions s.space.regions; spare = s.space.spare } };

    ghost invariant = { λ s. IsKeptSpace s.space.regions };
}

impl AddressSpace {
    /// No region, and no spare room.
    pub fn new(alloc: Global) -> AddressSpace
        ensures { result ≡ record { regions = []; spare = 0 } }
    {
        AddressSpace {
            space: Space::new(alloc),
        }
    }

    /// Does nothing: the regions are always sound.
    pub fn sound(&self)
        ensures { IsSpace self.now.regions }
    {
        let _ = &self.space;
    }

    // ---- regions

    /// Where `size` bytes are to lie, at least one: for address 0 from the lowest granule whose
    /// pages are free, else from the granule of `addr` to the page of the last byte. None exactly
    /// where those pages are not all free.
    pub fn gap(&self, addr: u32, size: u32) -> Option<PageRange>
        requires some { 1 ≤ size }
        ensures found { result ≡ placed (ranges_of self.now.regions) addr
            (granule_range_of addr size) (pages_for size) }
        ensures free { IfSome result (λ r. (are_user_pages r ≡ true) × (1 ≤ r.count) ×
            (r.first % 16 ≡ 0) × (is_free (ranges_of self.now.regions) r ≡ true)) }
    {
        self.placed(addr, PageRange::from_granule(addr, size), pages_for(size))
    }

    /// Where `count` pages are to lie, at least one: for address 0 from the lowest granule whose
    /// pages are free, else from `addr` on, which is the address of a granule. None exactly where
    /// those pages are not all free.
    pub fn gap_for_view(&self, addr: u32, count: u32) -> Option<PageRange>
        requires some { 1 ≤ count }
        requires granule { is_granule_address addr ≡ true }
        ensures found { result ≡ placed (ranges_of self.now.regions) addr (record {
          first = page_of addr;
          count = count;
        }) count }
        ensures free { IfSome result (λ r. (are_user_pages r ≡ true) × (1 ≤ r.count) ×
            (r.first % 16 ≡ 0) × (is_free (ranges_of self.now.regions) r ≡ true)) }
    {
        let wanted = PageRange {
            first: addr / PAGE_SIZE,
            count,
        };
        self.placed(addr, wanted, count)
    }

    /// The region in which all pages of the range lie. None exactly where there is none.
    pub fn region_around(&self, range: PageRange) -> Option<RegionInfo>
        ensures found { result ≡ option_map found_info (region_around self.now.regions range) }
        ensures sound { IsSpace self.now.regions }
    {
        let region = self.around(range)?;
        Some(info_of_region(region))
    }

    /// Whether all pages of the range lie in one private region.
    pub fn is_in_private(&self, range: PageRange) -> bool
        ensures { result ≡ is_some (private_around self.now.regions range) }
    {
        match self.around(range) {
            Some(region) => is_private(region),
            None => false,
        }
    }

    /// The view in which all pages of the range lie. None exactly where there is none.
    pub fn view_around(&self, range: PageRange) -> Option<RegionInfo>
        ensures found { result ≡ option_map found_info (view_around self.now.regions range) }
        ensures sound { IsSpace self.now.regions }
    {
        info_of_view(self.around(range)?)
    }

    /// The pages of the private region whose base is the address, to the byte. None exactly where
    /// there is none.
    pub fn private_at(&self, addr: u32) -> Option<PageRange>
        ensures found { result ≡ option_map (λ r. pages_of r.thing)
            (private_at self.now.regions addr) }
        ensures sound { IsSpace self.now.regions }
    {
        let region = self.based_at(addr)?;
        if is_private(region) {
            Some(info_of_region(region).pages)
        } else {
            None
        }
    }

    /// The view whose base is the address, to the byte. None exactly where there is none.
    pub fn view_at(&self, addr: u32) -> Option<RegionInfo>
        ensures found { result ≡ option_map found_info (view_at self.now.regions addr) }
        ensures sound { IsSpace self.now.regions }
    {
        info_of_view(self.based_at(addr)?)
    }

    /// The lowest region. None exactly where there is no region.
    pub fn lowest(&self) -> Option<RegionInfo>
        ensures found { result ≡ option_map info_of (slice_get self.now.regions 0) }
        ensures sound { IsSpace self.now.regions }
    {
        let region = self.space.next_region(LOWEST)?;
        Some(info_of_region(region))
    }

    // ---- pages

    /// What is told of a page. None exactly where it lies in no region.
    pub fn row(&self, page: u32) -> Option<PageRow>
        ensures row { result ≡ told_page_row self.now.regions page }
        ensures sound { IsSpace self.now.regions }
    {
        let region = self.region_at(page)?;
        let index = page - region.base.0;
        let row = region.rows.get(index);
        Some(PageRow {
            kind: region.kind,
            index,
            prot: row.prot,
            guard: row.guard,
            marked: row.marked,
            owned: has_own(region.kind, row),
            watched: region.watched.is_some(),
        })
    }

    /// Whether the page has bytes of its own.
    pub fn is_owned(&self, page: u32) -> bool
        ensures { result ≡ is_some (own_page self.now.regions page) }
    {
        match self.row(page) {
            Some(row) => row.owned,
            None => false,
        }
    }

    /// Whether each page of the range can have the protection `prot`, guard aside. The range lies
    /// in one region.
    pub fn accepts(&self, range: PageRange, prot: u32) -> bool
        requires inside { is_some (region_around self.now.regions range) ≡ true }
        ensures { (r : Found (RegionOf (Unit {0}))) → region_around self.now.regions range ≡ Some r
            → result ≡ every_page (accepts r.thing prot) range }
    {
        let Some(region) = self.around(range) else {
            unreachable!()
        };
        self.do_all_pass(region, range, RowTest::Accepts(prot))
    }

    /// How many pages of the range, which lies in one region, have bytes of their own.
    pub fn owned(&self, range: PageRange) -> u32
        requires inside { is_some (region_around self.now.regions range) ≡ true }
        ensures { result ≡ owned_in self.now.regions range }
    {
        self.count_passing(range, RowTest::Owned)
    }

    /// How many pages of the range, which lies in one region, have no mark.
    pub fn unmarked(&self, range: PageRange) -> u32
        requires inside { is_some (region_around self.now.regions range) ≡ true }
        ensures { result ≡ unmarked_in self.now.regions range }
    {
        self.count_passing(range, RowTest::Unmarked)
    }

    /// How many pages of the range, which lies in one region, have a mark.
    pub fn marked(&self, range: PageRange) -> u32
        requires inside { is_some (region_around self.now.regions range) ≡ true }
        ensures { result ≡ marked_in self.now.regions range }
    {
        self.count_passing(range, RowTest::Marked)
    }

    /// Whether all pages of the range, which lies in one view, are committed; the view's control
    /// area has these pages.
    pub fn are_committed(&self, range: PageRange, pages: &SectionPages) -> bool
        requires inside { is_some (region_around self.now.regions range) ≡ true }
        requires view { (r : Found (RegionOf (Unit {0}))) →
            region_around self.now.regions range ≡ Some r → is_private r.thing.kind ≡ false }
        ensures { (w : WorldOf (Unit {0})) (r : Found (RegionOf (Unit {0}))) (v : View) →
            region_around self.now.regions range ≡ Some r → r.thing.kind ≡ kind.View v
            → area_at w v.area.0 ≡ pages.now →
            result ≡ every_page (is_committed_at w r.thing) range }
    {
        let Some(region) = self.around(range) else {
            unreachable!()
        };
        let Kind::View(view) = region.kind else {
            unreachable!()
        };
        are_pages_committed(view, range.first - region.base.0, range.count, pages)
    }

    // Where `count` pages are to lie: at the lowest gap for address 0, else as wanted, if that is
    // free.
    fn placed(&self, addr: u32, wanted: PageRange, count: u32) -> Option<PageRange>
        requires some { 1 ≤ count }
        ensures { result ≡ placed (ranges_of self.now.regions) addr wanted count }
    {
        if addr == 0 {
            let first = self.space.lowest_gap(count)?;
            return Some(PageRange {
                first: first.0,
                count,
            });
        }
        if self.space.is_free(Vpn(wanted.first), wanted.count) {
            Some(wanted)
        } else {
            None
        }
    }

    // How many rows of a range, which lies in one region, pass.
    fn count_passing(&self, range: PageRange, test: RowTest) -> u32
        requires inside { is_some (region_around self.now.regions range) ≡ true }
        ensures { (r : Found (RegionOf (Unit {0}))) → region_around self.now.regions range ≡ Some r
            → result ≡ count_by (passes test r.thing.kind) (rows_in_range self.now.regions range) }
    {
        let Some(region) = self.around(range) else {
            unreachable!()
        };
        self.count_in(region, range, test)
    }

    // The same of a range that lies in this region.
    fn count_in(&self, region: &Region, range: PageRange, test: RowTest) -> u32
        requires around { IsAround self.now.regions range region.now }
        ensures { (r : Found (RegionOf (Unit {0}))) → region_around self.now.regions range ≡ Some r
            → result ≡ count_by (passes test r.thing.kind) (rows_in_range self.now.regions range) }
    {
        let first = range.first - region.base.0;
        count_rows(&region.rows, region.kind, first, range.count, test)
    }

    // Whether all of them pass.
    pub(crate) fn do_all_pass(&self, region: &Region, range: PageRange, test: RowTest) -> bool
        requires around { IsAround self.now.regions range region.now }
        ensures { (r : Found (RegionOf (Unit {0}))) → region_around self.now.regions range ≡ Some r
            → result ≡ list_all (passes test r.thing.kind) (rows_in_range self.now.regions range) }
    {
        self.count_in(region, range, test) == range.count
    }

    // ---- look-ups

    // The region in which a page lies.
    pub(crate) fn region_at(&self, page: u32) -> Option<&Region>
        ensures some { IfSome result (λ r. IsRegionAt self.now.regions page r.now) }
        ensures none { IfNone result (region_with self.now.regions page ≡ None) }
        ensures sound { IsSpace self.now.regions }
    {
        self.space.find(Vpn(page))
    }

    // The region in which all pages of the range lie.
    pub(crate) fn around(&self, range: PageRange) -> Option<&Region>
        ensures some { IfSome result (λ r. IsAround self.now.regions range r.now) }
        ensures none { IfNone result (NoneAround self.now.regions range) }
        ensures sound { IsSpace self.now.regions }
    {
        let region = self.region_at(range.first)?;
        if range.end() <= end_of_region(region) {
            Some(region)
        } else {
            None
        }
    }

    // The region whose base is the address, to the byte.
    fn based_at(&self, addr: u32) -> Option<&Region>
        ensures some { IfSome result (λ r. IsBased self.now.regions addr r.now) }
        ensures none { IfNone result (NoneBased self.now.regions addr) }
        ensures sound { IsSpace self.now.regions }
    {
        let region = self.region_at(addr / PAGE_SIZE)?;
        if region.base.0 * PAGE_SIZE == addr {
            Some(region)
        } else {
            None
        }
    }
}

// The page after the last of a region.
fn end_of_region(region: &Region) -> u64
    ensures { result ≡ region.now.base.0 + region.now.pages }
{
    u64::from(region.base.0) + u64::from(region.pages)
}

// What is told of a region.
fn info_of_region(region: &Region) -> RegionInfo
    requires rows { length region.now.rows ≡ region.now.pages }
    requires some { 1 ≤ region.now.pages }
    ensures { result ≡ info_of (region_of region.now) }
{
    RegionInfo {
        pages: PageRange {
            first: region.base.0,
            count: region.pages,
        },
        kind: region.kind,
    }
}

// What is told of a view; None of private memory.
fn info_of_view(region: &Region) -> Option<RegionInfo>
    requires rows { length region.now.rows ≡ region.now.pages }
    requires some { 1 ≤ region.now.pages }
    ensures { result ≡ if not (is_private region.now.kind) then
        Some (info_of (region_of region.now)) else None }
{
    if is_private(region) {
        None
    } else {
        Some(info_of_region(region))
    }
}

fn is_private(region: &Region) -> bool
    ensures { result ≡ is_private region.now.kind }
{
    matches!(region.kind, Kind::Private)
}
