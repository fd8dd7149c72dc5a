ghost use Rattle.std.specs.Prelude.{◌≡◌, ◌+◌, ◌-◌, ◌<◌, ◌≤◌, true, false, [], length, IsTrue, IsSome, IfSome, Some, OnOk, OnErr, option_map};
ghost use Rattle.std.specs.Option.{option_copied};
ghost use Rattle.mm_types.specs.{is_free, lowest_gap};
ghost use Rattle.mm_vad.specs.Ranges.{page_number};

use crate::regions::Change;
use crate::{Gaps, Region, Row, Steps, Uncounted};
use mm_types::{FIRST_USER_PAGE, GRANULE_PAGES, NoMemory, PageList, Vpn};
use std::alloc::Global;
use std::collections::HashMap;
use std::marker::Model;

// Among so many regions the way down the tree is short.
const FEW_REGIONS: usize = 16;

/// The regions of one address space, no page in two of them.
#[derive(Drop)]
pub struct Space {
    // The pages of the regions, in order.
    taken: Gaps,
    // The regions by their bases, which are the first pages of the ranges.
    regions: HashMap<u32, Region>,
}

impl Model for Space {
    ghost use Rattle.std.specs.Prelude.{nat_eq};
    ghost use Rattle.std.specs.HashMap.{get, spare};
    ghost use Rattle.mm_vad.specs.Regions.{SpaceOf};
    ghost use Rattle.mm_vad.specs.Index.{space_of, IsIndex};

    ghost Value = { SpaceOf };

    ghost view = { λ s. space_of (get nat_eq s.regions) s.taken (spare s.regions) };

    ghost invariant = { λ s. IsIndex (get nat_eq s.regions) s.taken.ranges };
}

impl Space {
    ghost use Rattle.mm_vad.specs.Regions.{IsSpace, region_ranges, region_range, region_at, region_from, region_with_base, HasFlags, LieInRegion, LieWithPage, add_region, remove_region, change_region, fill_rows, set_marks, with_unwritten};
    ghost use Rattle.mm_vad.specs.Changes.{CanChangeAt, change_by};

    /// No region, and no spare room.
    pub fn new(alloc: Global) -> Space
        ensures { result ≡ record { regions = []; spare = 0 } }
    {
        Space {
            taken: Gaps::new(alloc),
            regions: HashMap::new(alloc),
        }
    }

    /// The region in which page `v` lies. None exactly where it lies in none.
    pub fn find(&self, v: Vpn) -> Option<&Region>
        ensures found { option_copied result ≡ region_at self.now.regions v.0 }
        ensures sound { IsSpace self.now.regions }
    {
        let taken = &self.taken;
        if let Some(region) = self.begun_with_granule(v) {
            return Some(region);
        }
        let (base, _) = taken.at(v)?;
        self.regions.get(&base.0)
    }

    // Among many regions the one that begins with the granule of page `v`, where the page lies in
    // it: small regions are found so, without a walk down the tree.
    #[inline(always)]
    fn begun_with_granule(&self, v: Vpn) -> Option<&Region>
        ensures { IfSome result (λ r. Some r.now ≡ region_at self.now.regions v.0) }
    {
        if self.regions.len() <= FEW_REGIONS {
            return None;
        }
        let at = v.0 % GRANULE_PAGES;
        let Some(region) = self.regions.get(&(v.0 - at)) else {
            return None;
        };
        if at < region.pages {
            Some(region)
        } else {
            None
        }
    }

    /// The first region whose base is page `v` or above it. None exactly where none begins there.
    pub fn next_region(&self, v: Vpn) -> Option<&Region>
        ensures found { option_copied result ≡ region_from self.now.regions v.0 }
        ensures sound { IsSpace self.now.regions }
    {
        let (base, _) = self.taken.first_from(v)?;
        self.regions.get(&base.0)
    }

    // Changes the region in which page `v` lies.
    #[inline(always)] // each caller knows which change it is
    fn change(&mut self, v: Vpn, change: Change)
        requires { CanChangeAt change self.old.regions v.0 }
        ensures after { self.new ≡ record self.old {
          regions = change_region (change_by change.entry v.0) self.old.regions v.0;
        } }
        ensures sound { IsSpace self.new.regions }
    {
        let Some(found) = self.find(v) else {
            unreachable!()
        };
        let base = found.base;
        let Some(region) = self.regions.get_mut(&base.0) else {
            unreachable!()
        };
        region.change(v, change);
    }

    /// Writes `row` over the rows of the `n` pages from `first` on, which lie in one region.
    pub fn fill_rows(&mut self, first: Vpn, n: u32, row: Row)
        requires { LieInRegion self.old.regions first.0 n }
        ensures after { self.new ≡ record self.old {
          regions = fill_rows self.old.regions first.0 n row;
        } }
        ensures sound { IsSpace self.new.regions }
    {
        self.change(first, Change::FillRows(n, row));
    }

    /// A write to page `v`, which lies in a region, was done: the page is written from now on,
    /// where the region is watched.
    pub fn mark(&mut self, v: Vpn)
        requires { IsSome (region_at self.old.regions v.0) }
        ensures after { self.new ≡ record self.old {
          regions = set_marks true self.old.regions v.0 1;
        } }
        ensures sound { IsSpace self.new.regions }
    {
        self.change(v, Change::Mark);
    }

    /// The `n` pages from `first` on, which lie in one region, are unwritten from now on, where the
    /// region is watched.
    pub fn clear_marks(&mut self, first: Vpn, n: u32)
        requires { LieInRegion self.old.regions first.0 n }
        ensures after { self.new ≡ record self.old {
          regions = set_marks false self.old.regions first.0 n;
        } }
        ensures sound { IsSpace self.new.regions }
    {
        self.change(first, Change::ClearMarks(n));
    }

    /// The pages at these addresses, all of them in the region of page `first`, are unwritten from
    /// now on, where that region is watched.
    pub fn unwrite(&mut self, first: Vpn, pages: &PageList)
        requires { LieWithPage self.old.regions first.0 pages.now }
        ensures after { self.new ≡ record self.old {
          regions = change_region (with_unwritten pages.now) self.old.regions first.0;
        } }
        ensures sound { IsSpace self.new.regions }
    {
        self.change(first, Change::Unwrite(pages));
    }

    /// The lowest granule from which `n` user pages are free, as its first page. None exactly where
    /// there is none.
    pub fn lowest_gap(&self, n: u32) -> Option<Vpn>
        ensures found { result ≡ option_map page_number
            (lowest_gap (region_ranges self.now.regions) n) }
        ensures sound { IsSpace self.now.regions }
    {
        let taken = &self.taken;
        if n == 0 {
            // no page at all is free from there on, whatever is taken
            return Some(Vpn(FIRST_USER_PAGE));
        }
        taken.lowest_gap(n, &mut Steps::new(Uncounted))
    }

    /// Whether the `n` pages from `first` on are user pages that lie in no region.
    pub fn is_free(&self, first: Vpn, n: u32) -> bool
        requires { 0 < n }
        ensures { result ≡ is_free (region_ranges self.now.regions) (record {
          first = first.0;
          count = n;
        }) }
    {
        self.taken.is_free(first, n)
    }

    /// Sees that there is room for one more region at least. `NoMemory` only where there was none
    /// and a request for memory was refused; then the regions are as they were.
    pub fn reserve(&mut self) -> Result<(), NoMemory>
        ensures regions { self.new.regions ≡ self.old.regions }
        ensures room { OnOk result (1 ≤ self.new.spare) }
        ensures kept { self.old.spare ≤ self.new.spare }
        ensures cause { OnErr result (self.old.spare ≡ 0) }
    {
        self.taken.reserve()?;
        self.regions.reserve(1)?;
        Ok(())
    }

    /// Adds a region of free user pages.
    pub fn add(&mut self, region: Region)
        requires some { 0 < region.pages }
        requires free { IsTrue (is_free (region_ranges self.old.regions) (region_range region)) }
        requires whole { length region.rows ≡ region.pages }
        requires flags { HasFlags region.pages region }
        requires room { 1 ≤ self.old.spare }
        ensures after { self.new.regions ≡ add_region self.old.regions region }
        ensures room { self.old.spare ≤ self.new.spare + 1 }
        ensures sound { IsSpace self.new.regions }
    {
        self.taken.insert(region.base, region.pages);
        let Ok(_) = self.regions.insert(region.base.0, region) else {
            unreachable!()
        };
    }

    /// Takes the region out whose base is `base`, which is there.
    pub fn take_out(&mut self, base: Vpn) -> Option<Region>
        requires { IsSome (region_with_base self.old.regions base.0) }
        ensures removed { result ≡ region_with_base self.old.regions base.0 }
        ensures after { self.new.regions ≡ remove_region self.old.regions base.0 }
        ensures room { self.old.spare ≤ self.new.spare }
        ensures sound { IsSpace self.new.regions }
    {
        self.taken.remove(base);
        self.regions.remove(&base.0)
    }
}
