ghost use Rattle.std.specs.Prelude.{◌≡◌, ◌+◌, ◌-◌, ◌≤◌, true, false, is_some, length, map, take, drop, None, Some, option_map, slice_set};
ghost use Rattle.mm_types.specs.{address_of, end_of_user_pages};
ghost use Rattle.mm_world.specs.{RegionOf, Found, region_with, change_flags, mark_written, one_page, written_from, written_in, unwritten};
ghost use Rattle.mm_world.specs.{watched_around, IsSpace};

use crate::{AddressSpace, PageRange};
use mm_types::{PAGE_SIZE, PageList, Vpn};
use mm_vad::Bits;

// The addresses of the lowest written pages among the `n` from `first` on, at most `count`. The
// flags are those of the pages from `base` on.
fn list(flags: &Bits, base: u32, first: u32, n: u32, count: u32) -> PageList
    requires low { base ≤ first }
    requires high { first - base + n ≤ length flags.now }
    requires user { base + length flags.now ≤ end_of_user_pages }
    requires few { count ≤ 16 }
    ensures { result
        ≡ map address_of
        (take count (written_from first (take n (drop (first - base) flags.now)))) }
{
    let mut at = first - base;
    let end = at + n;
    let mut pages = PageList::new();
    for _told in 0..count {
        let Some(i) = flags.next(at, end) else {
            break;
        };
        pages.push((base + i) * PAGE_SIZE);
        at = i + 1;
    }
    pages
}

impl AddressSpace {
    /// The addresses of the lowest written pages of the range, at most `count` (1 to 16), in rising
    /// order (GetWriteWatch). None exactly where the range does not lie in one watched region.
    pub fn written(&self, range: PageRange, count: u32) -> Option<PageList>
        requires few { count ≤ 16 }
        ensures found { result ≡ option_map (λ r. map address_of (written_in r.thing range count))
            (watched_around self.now.regions range) }
        ensures sound { IsSpace self.now.regions }
    {
        let region = self.around(range)?;
        match &region.watched {
            Some(flags) => Some(list(flags, region.base.0, range.first, range.count, count)),
            None => None,
        }
    }

    /// The same, and the pages that it gives are unwritten from now on (GetWriteWatch with
    /// WRITE_WATCH_FLAG_RESET).
    pub fn take_written(&mut self, range: PageRange, count: u32) -> Option<PageList>
        requires few { count ≤ 16 }
        ensures found { result ≡ option_map (λ r. map address_of (written_in r.thing range count))
            (watched_around self.old.regions range) }
        ensures changed { (r : Found (RegionOf (Unit {0})))
            → watched_around self.old.regions range ≡ Some r
            → self.new.regions ≡ slice_set self.old.regions r.place
            (change_flags (unwritten r.thing.base (written_in r.thing range count)) r.thing) }
        ensures none { watched_around self.old.regions range ≡ None
            → self.new.regions ≡ self.old.regions }
        ensures room { self.new.spare ≡ self.old.spare }
    {
        let pages = self.written(range, count)?;
        self.space.unwrite(Vpn(range.first), &pages);
        Some(pages)
    }

    /// The pages of the range are unwritten from now on (ResetWriteWatch). None exactly where they
    /// do not lie in one watched region, and then nothing changes.
    pub fn reset_written(&mut self, range: PageRange) -> Option<()>
        ensures found { is_some result ≡ is_some (watched_around self.old.regions range) }
        ensures changed { (r : Found (RegionOf (Unit {0})))
            → watched_around self.old.regions range ≡ Some r
            → self.new.regions ≡ slice_set self.old.regions r.place
            (mark_written false range r.thing) }
        ensures none { watched_around self.old.regions range ≡ None
            → self.new.regions ≡ self.old.regions }
        ensures room { self.new.spare ≡ self.old.spare }
    {
        if !self.is_watched(range) {
            return None;
        }
        self.space.clear_marks(Vpn(range.first), range.count);
        Some(())
    }

    /// A write to the page, which lies in a region, was done: the page is written from now on,
    /// where the region is watched.
    pub fn mark(&mut self, page: u32)
        requires there { is_some (region_with self.old.regions page) ≡ true }
        ensures changed { (r : Found (RegionOf (Unit {0}))) →
            region_with self.old.regions page ≡ Some r
            → self.new.regions ≡ slice_set self.old.regions r.place
            (mark_written true (one_page page) r.thing) }
        ensures room { self.new.spare ≡ self.old.spare }
    {
        self.space.mark(Vpn(page));
    }

    // Whether all pages of the range lie in one watched region.
    fn is_watched(&self, range: PageRange) -> bool
        ensures { result ≡ is_some (watched_around self.now.regions range) }
    {
        match self.around(range) {
            Some(region) => region.watched.is_some(),
            None => false,
        }
    }
}
