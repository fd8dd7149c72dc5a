ghost use Rattle.std.specs.Prelude.{◌≡◌, ◌⊎◌, ◌-◌, ◌%◌, ◌+◌, ◌≤◌, true, false, length, is_some, OnOk, OnErr, Some, remove, slice_set};
ghost use Rattle.mm_types.specs.{is_free, granule_pages};
ghost use Rattle.mm_world.specs.{RowOf, RegionOf, pages_of, Found, ranges_of, region_with, region_around, add_region, is_private, private_at};
ghost use Rattle.mm_world.specs.{view_at, row_at, is_protection_among, private_protections, all_protections, every_page, accepts, reserved_row};
ghost use Rattle.mm_world.specs.{commit, protected, change_rows, RowsFit};
ghost use Rattle.mm_address_spaces.specs.{owned_in, IsInRegion, CanChangeRow, CanChangeRows, RowChanged, RowsChanged};

use crate::rows::{RowChange, change_rows};
use crate::{AddressSpace, NewRegion, PageRange};
use mm_types::{NoMemory, PAGE_SIZE, Vpn};

impl AddressSpace {
    // ---- regions

    /// Sees that there is room for one more region at least. `NoMemory` only where there was none
    /// and a request for memory was refused.
    pub fn reserve(&mut self) -> Result<(), NoMemory>
        ensures same { self.new.regions ≡ self.old.regions }
        ensures later { self.old.spare ≤ self.new.spare }
        ensures ok { OnOk result (1 ≤ self.new.spare) }
        ensures cause { OnErr result (self.old.spare ≡ 0) }
    {
        self.space.reserve()
    }

    /// Adds a region of free user pages that begins on a granule.
    pub fn add(&mut self, region: NewRegion)
        requires free { is_free (ranges_of self.old.regions) (pages_of region) ≡ true }
        requires granule { region.base % granule_pages ≡ 0 }
        requires some { 1 ≤ length region.rows }
        requires rows { RowsFit region }
        requires room { 1 ≤ self.old.spare }
        ensures added { self.new.regions ≡ add_region region self.old.regions }
        ensures room { self.old.spare ≤ self.new.spare + 1 }
    {
        self.space.add(region.region);
    }

    /// Takes the region out whose base is the address, to the byte.
    pub fn remove(&mut self, addr: u32)
        requires there { (is_some (private_at self.old.regions addr) ≡ true) ⊎
            (is_some (view_at self.old.regions addr) ≡ true) }
        ensures private { (r : Found (RegionOf (Unit {0}))) →
            private_at self.old.regions addr ≡ Some r
            → self.new.regions ≡ remove self.old.regions r.place }
        ensures view { (r : Found (RegionOf (Unit {0}))) → view_at self.old.regions addr ≡ Some r
            → self.new.regions ≡ remove self.old.regions r.place }
        ensures room { self.old.spare ≤ self.new.spare }
    {
        let _ = self.space.take_out(Vpn(addr / PAGE_SIZE));
    }

    // ---- rows

    /// Commits the pages of the range, which lies in one private region, with the protection
    /// `prot`, guard (0x100) included (VirtualAlloc with MEM_COMMIT). A page that is committed gets
    /// the protection too.
    pub fn commit(&mut self, range: PageRange, prot: u32)
        requires inside { is_some (region_around self.old.regions range) ≡ true }
        requires private { (r : Found (RegionOf (Unit {0}))) →
            region_around self.old.regions range ≡ Some r → is_private r.thing.kind ≡ true }
        requires prot { is_protection_among private_protections prot ≡ true }
        ensures changed { (r : Found (RegionOf (Unit {0}))) →
            region_around self.old.regions range ≡ Some r
            → self.new.regions ≡
            slice_set self.old.regions r.place (change_rows (commit tt prot) range r.thing) }
        ensures room { self.new.spare ≡ self.old.spare }
    {
        self.change(range, RowChange::Commit(prot));
    }

    /// Makes the pages of the range, which lies in one private region, reserved alone (VirtualFree
    /// with MEM_DECOMMIT). Pages that are not committed are no failure.
    pub fn decommit(&mut self, range: PageRange)
        requires inside { is_some (region_around self.old.regions range) ≡ true }
        requires private { (r : Found (RegionOf (Unit {0}))) →
            region_around self.old.regions range ≡ Some r → is_private r.thing.kind ≡ true }
        ensures changed { (r : Found (RegionOf (Unit {0}))) →
            region_around self.old.regions range ≡ Some r
            → self.new.regions ≡
            slice_set self.old.regions r.place (change_rows (λ row. reserved_row) range r.thing) }
        ensures room { self.new.spare ≡ self.old.spare }
    {
        self.change(range, RowChange::Decommit);
    }

    /// Gives the pages of the range, which lies in one region, the protection `prot`, guard (0x100)
    /// included, which each of them accepts (VirtualProtect); the pages of a private region are
    /// committed. In a view WRITECOPY marks the pages.
    pub fn protect(&mut self, range: PageRange, prot: u32)
        requires inside { is_some (region_around self.old.regions range) ≡ true }
        requires prot { is_protection_among all_protections prot ≡ true }
        requires accepted { (r : Found (RegionOf (Unit {0}))) →
            region_around self.old.regions range ≡ Some r →
            every_page (accepts r.thing prot) range ≡ true }
        requires committed { (r : Found (RegionOf (Unit {0}))) →
            region_around self.old.regions range ≡ Some r → is_private r.thing.kind ≡ true →
            owned_in self.old.regions range ≡ range.count }
        ensures changed { (r : Found (RegionOf (Unit {0}))) →
            region_around self.old.regions range ≡ Some r
            → self.new.regions ≡
            slice_set self.old.regions r.place
            (change_rows (protected r.thing.kind prot) range r.thing) }
        ensures room { self.new.spare ≡ self.old.spare }
    {
        self.change(range, RowChange::Protect(prot));
    }

    /// Takes the guard off a page that lies in a region.
    pub fn take_guard_off(&mut self, page: u32)
        requires there { is_some (region_with self.old.regions page) ≡ true }
        ensures changed { (r : Found (RegionOf (Unit {0}))) (row : RowOf (Unit {0})) →
            region_with self.old.regions page ≡ Some r
            → row_at r.thing page ≡ Some row
            → self.new.regions ≡ slice_set self.old.regions r.place (record r.thing {
              rows = slice_set r.thing.rows (page - r.thing.base) (record row { guard = false });
            }) }
        ensures room { self.new.spare ≡ self.old.spare }
    {
        self.change_one(page, RowChange::GuardOff);
    }

    /// The page of a view, which has a mark and was not copied, has bytes of its own from now on,
    /// and the protection READWRITE.
    pub fn copy_page(&mut self, page: u32)
        requires there { is_some (region_with self.old.regions page) ≡ true }
        requires marked { (r : Found (RegionOf (Unit {0}))) (row : RowOf (Unit {0})) →
            region_with self.old.regions page ≡ Some r → row_at r.thing page ≡ Some row
            → (is_private r.thing.kind ≡ false) × (row.marked ≡ true) }
        ensures changed { (r : Found (RegionOf (Unit {0}))) (row : RowOf (Unit {0})) →
            region_with self.old.regions page ≡ Some r
            → row_at r.thing page ≡ Some row
            → self.new.regions ≡ slice_set self.old.regions r.place (record r.thing {
              rows = slice_set r.thing.rows (page - r.thing.base)
                  (record row { own = Some tt; prot = 0x04 });
            }) }
        ensures room { self.new.spare ≡ self.old.spare }
    {
        self.change_one(page, RowChange::Copy);
    }

    // Changes the rows of a range that lies in one region.
    fn change(&mut self, range: PageRange, change: RowChange)
        requires inside { IsInRegion self.old.regions range }
        requires can { CanChangeRows change self.old.regions range }
        ensures changed { RowsChanged change range self.old.regions self.new.regions }
        ensures room { self.new.spare ≡ self.old.spare }
    {
        change_rows(&mut self.space, range.first, range.count, change);
    }

    // Changes the row of a page that lies in a region.
    fn change_one(&mut self, page: u32, change: RowChange)
        requires there { is_some (region_with self.old.regions page) ≡ true }
        requires can { CanChangeRow change self.old.regions page }
        ensures changed { RowChanged change page self.old.regions self.new.regions }
        ensures room { self.new.spare ≡ self.old.spare }
    {
        self.change(
            PageRange {
                first: page,
                count: 1,
            },
            change,
        );
    }
}
