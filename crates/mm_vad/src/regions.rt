ghost use Rattle.std.specs.Prelude.{◌≡◌, map, length};
ghost use Rattle.mm_types.specs.{page_of};
ghost use Rattle.mm_world.specs.{unwritten};
ghost use Rattle.mm_vad.specs.Regions.{LieAmong};
ghost use Rattle.mm_vad.specs.Changes.{FitsRegion, change_by};

use crate::{Bits, Row, Rows};
use mm_types::{Kind, PAGE_SIZE, PageList, Prot, Vpn};

/// One reservation or one view (a VAD): some pages in a row, with a row for each.
#[derive(Drop)]
pub struct Region {
    /// The first page.
    pub base: Vpn,
    /// How many pages there are, at least one.
    pub pages: u32,
    /// The protection that was given when the region was made, guard included.
    pub alloc_prot: Prot,
    pub kind: Kind,
    /// The row of page `base + i` is row `i`.
    pub rows: Rows,
    /// Of a watched region (MEM_WRITE_WATCH): whether page `base + i` was written is bit `i`.
    pub watched: Option<Bits>,
}

// Clears the flags of the pages at these addresses, all of them pages from `base` on that have a
// flag.
fn clear_pages(flags: &mut Bits, base: u32, addresses: &[u32])
    requires among { LieAmong base (length flags.old) addresses.now }
    ensures { flags.new ≡ unwritten base (map page_of addresses.now) flags.old }
{
    for address in addresses {
        flags.clear(*address / PAGE_SIZE - base, 1);
    }
}

/// What becomes of some pages of a region, from one of them on.
#[derive(Clone, Copy)]
pub(crate) enum Change<'a> {
    /// So many pages have this row.
    FillRows(u32, Row),
    /// The page is written, where the region is watched.
    Mark,
    /// So many pages are unwritten, where it is watched.
    ClearMarks(u32),
    /// The pages at these addresses are, wherever they are in the region.
    Unwrite(&'a PageList),
}

impl Region {
    // Changes pages of the region, the first of them page `v`.
    #[inline(always)] // each caller knows which change it is
    pub(crate) fn change(&mut self, v: Vpn, change: Change)
        requires { FitsRegion change v.0 self.old }
        ensures { self.new ≡ change_by change.entry v.0 self.old }
    {
        match change {
            Change::FillRows(n, row) => self.rows.fill(v.0 - self.base.0, n, row),
            Change::Mark => {
                if let Some(flags) = &mut self.watched {
                    flags.set(v.0 - self.base.0);
                }
            }
            Change::ClearMarks(n) => {
                if let Some(flags) = &mut self.watched {
                    flags.clear(v.0 - self.base.0, n);
                }
            }
            Change::Unwrite(pages) => {
                if let Some(flags) = &mut self.watched {
                    clear_pages(flags, self.base.0, pages.as_slice());
                }
            }
        }
    }
}
