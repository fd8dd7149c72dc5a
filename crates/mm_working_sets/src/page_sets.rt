ghost use Rattle.std.specs.Prelude.{◌≡◌, ◌^◌, ◌<◌, ℕ, true, false, IfOk, IfSome};
ghost use Rattle.mm_bits.specs.{have_bit, PutsBits};
ghost use Rattle.mm_working_sets.specs.InOrder.{IsNextFrom};

use mm_bits::BitSet;
use mm_types::{NoMemory, Vpn};
use std::alloc::Global;
use std::marker::Model;

/// How many pages there are below 2 GiB.
const PAGES: u32 = 1 << 19;

/// A set of pages below 2 GiB, whose pages come in order.
#[derive(Drop)]
pub struct PageSet {
    pages: BitSet,
}

impl Model for PageSet {
    ghost use Rattle.std.specs.Prelude.{◌≡◌, ◌^◌, List, ℕ};

    ghost Value = { List ℕ };

    ghost view = { λ s. s.pages.words };

    ghost invariant = { λ s. s.pages.room ≡ 2 ^ 19 };
}

impl PageSet {
    /// An empty set.
    pub fn new(alloc: Global) -> Result<PageSet, NoMemory>
        ensures { IfOk result (λ s. (v : ℕ) → have_bit s v ≡ false) }
    {
        let pages = BitSet::new(alloc, PAGES)?;
        Ok(PageSet { pages })
    }

    /// Whether the set has the page.
    pub fn has(&self, page: u32) -> bool
        ensures { result ≡ have_bit self.now page }
    {
        self.pages.has(page)
    }

    /// Puts a page in.
    pub fn insert(&mut self, page: u32)
        requires { page < 2 ^ 19 }
        ensures { PutsBits true self.old self.new page }
    {
        self.pages.insert(page);
    }

    /// Takes a page out.
    pub fn remove(&mut self, page: u32)
        requires { have_bit self.old page ≡ true }
        ensures { PutsBits false self.old self.new page }
    {
        self.pages.remove(page);
    }

    /// The lowest page at `from` or above.
    pub fn next(&self, from: u32) -> Option<Vpn>
        ensures is { IsNextFrom (have_bit self.now) from result }
        ensures low { IfSome result (λ v. v.0 < 2 ^ 19) }
    {
        match self.pages.next(from) {
            Some(page) => Some(Vpn(page)),
            None => None,
        }
    }
}
