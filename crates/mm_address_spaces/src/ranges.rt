ghost use Rattle.std.specs.Prelude.{◌≡◌, ◌+◌, ◌-◌, ◌/◌, ◌≤◌};
ghost use Rattle.mm_types.specs.{range_of, granule_range_of, end_of, pages_for};

use mm_types::{GRANULE_PAGES, GRANULE_SIZE, PAGE_SIZE};
use std::marker::Model;

/// Some pages in a row, at least one.
#[derive(Clone, Copy, PartialEq, Eq)]
pub struct PageRange {
    /// The first page's number.
    pub first: u32,
    /// How many pages there are.
    pub count: u32,
}

impl Model for PageRange {
    ghost use Rattle.std.specs.Prelude.{◌≤◌};
    ghost use Rattle.mm_types.specs.{Range};

    ghost Value = { Range };

    ghost view = { λ r. record { first = r.first; count = r.count } };

    ghost invariant = { λ r. 1 ≤ r.count };

    ghost inverse = { λ d. record { first = d.first; count = d.count } };
}

// The page after the one of the last of `size` bytes. The sum of an address and a size may be
// larger than any address.
fn end_page(addr: u32, size: u32) -> u32
    requires some { 1 ≤ size }
    ensures { result ≡ (addr + size - 1) / 4096 + 1 }
{
    ((u64::from(addr) + u64::from(size) - 1) / u64::from(PAGE_SIZE)) as u32 + 1
}

impl PageRange {
    /// The pages that hold one of the `size` bytes from the address `addr` on; `size` is at least
    /// 1.
    pub fn of(addr: u32, size: u32) -> PageRange
        requires some { 1 ≤ size }
        ensures { result ≡ range_of addr size }
    {
        let first = addr / PAGE_SIZE;
        PageRange {
            first,
            count: end_page(addr, size) - first,
        }
    }

    /// The same pages, and those before them from the granule of `addr` on.
    pub(crate) fn from_granule(addr: u32, size: u32) -> PageRange
        requires some { 1 ≤ size }
        ensures { result ≡ granule_range_of addr size }
    {
        let first = addr / GRANULE_SIZE * GRANULE_PAGES;
        PageRange {
            first,
            count: end_page(addr, size) - first,
        }
    }

    /// The page after the last.
    pub(crate) fn end(self) -> u64
        ensures end { result ≡ end_of self }
        ensures some { 1 ≤ self.count }
    {
        u64::from(self.first) + u64::from(self.count)
    }
}

/// How many pages `size` bytes take.
pub fn pages_for(size: u32) -> u32
    ensures pages { result ≡ pages_for size }
    ensures some { 1 ≤ size → 1 ≤ result }
    ensures few { result ≤ 0x100000 }
{
    ((u64::from(size) + 4095) / u64::from(PAGE_SIZE)) as u32
}
