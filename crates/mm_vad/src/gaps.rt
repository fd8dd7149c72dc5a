ghost use Rattle.std.specs.Prelude.{◌≡◌, ◌+◌, ◌-◌, ◌<◌, ◌≤◌, ℕ, [], length, max, IsTrue, OnOk, OnErr, option_map, find, nat_le};
ghost use Rattle.mm_types.specs.{holds_page, is_free, first_user_page, lowest_gap};
ghost use Rattle.mm_vad.specs.Ranges.{GapsOf, LieApart, range_at, add_range, remove_range, is_begun_at, page_number, first_and_count};
ghost use Rattle.mm_vad.specs.Visits.{VisitsFew};

use crate::trees::{Node, TakenRange, Tree};
use crate::{Ledger, Steps};
use mm_types::{END_OF_USER_PAGES, FIRST_USER_PAGE, NoMemory, Vpn};
use std::alloc::Global;
use std::marker::Model;
use std::mem;

/// The ranges of user pages that are taken, in a balanced tree, and some spare nodes for more.
/// Windows keeps the like for each process: its tree of virtual address descriptors (VAD).
#[derive(Drop)]
pub struct Gaps {
    tree: Tree,
    /// Nodes for ranges to come.
    stock: Vec<Box<Node>>,
    /// The node of a range that went, for one to come.
    used: Option<Box<Node>>,
    alloc: Global,
}

impl Model for Gaps {
    ghost use Rattle.std.specs.Prelude.{vec_len};
    ghost use Rattle.mm_types.specs.{first_user_page};
    ghost use Rattle.mm_vad.specs.Ranges.{GapsOf, LieApart};

    ghost Value = { GapsOf };

    ghost view = { λ g. record { ranges = g.tree.ranges; spare = vec_len g.stock } };

    ghost invariant = { λ g. LieApart first_user_page g.tree.ranges };
}

impl Gaps {
    /// No range is taken, and there is no spare room.
    pub fn new(alloc: Global) -> Gaps
        ensures { result ≡ record { ranges = []; spare = 0 } }
    {
        Gaps {
            tree: Tree::new(),
            stock: Vec::new(alloc),
            used: None,
            alloc,
        }
    }

    /// Sees that there is room for one more range at least. `NoMemory` where there was none and no
    /// memory for it.
    pub fn reserve(&mut self) -> Result<(), NoMemory>
        ensures ok { OnOk result (self.new ≡ record self.old { spare = max 1 self.old.spare }) }
        ensures err { OnErr result (self.new ≡ self.old) }
        ensures cause { OnErr result (self.old.spare ≡ 0) }
    {
        if self.stock.is_empty() {
            let node = match mem::replace(&mut self.used, None) {
                Some(node) => node,
                None => Box::new(self.alloc, Node::blank())?,
            };
            self.stock.push(node)?;
        }
        Ok(())
    }

    /// Takes the `n` pages from `first` on.
    pub fn insert(&mut self, first: Vpn, n: u32)
        requires some { 0 < n }
        requires free { IsTrue (is_free self.old.ranges (range_at first.0 n)) }
        requires room { 0 < self.old.spare }
        ensures after { self.new ≡ record {
          ranges = add_range (range_at first.0 n) self.old.ranges;
          spare = self.old.spare - 1;
        } }
        ensures apart { LieApart first_user_page self.new.ranges }
    {
        let Some(mut node) = self.stock.pop() else {
            unreachable!()
        };
        node.pages = TakenRange {
            first: first.0,
            count: n,
        };
        self.tree.insert(node);
    }

    /// Gives the range that begins at `first` free. Its node is kept for `reserve`, and the spare
    /// room stays as it was.
    pub fn remove(&mut self, first: Vpn)
        requires { IsTrue (is_begun_at first.0 self.old.ranges) }
        ensures after { self.new ≡ record self.old {
          ranges = remove_range first.0 self.old.ranges;
        } }
        ensures apart { LieApart first_user_page self.new.ranges }
    {
        let (node, _) = self.tree.remove(first.0);
        self.used = Some(node);
    }

    /// The range that holds page `v`: its first page, and how many pages it has. None exactly where
    /// no range does.
    pub fn at(&self, v: Vpn) -> Option<(Vpn, u32)>
        ensures found { result ≡ option_map first_and_count
            (find (λ r. holds_page r v.0) self.now.ranges) }
        ensures apart { LieApart first_user_page self.now.ranges }
    {
        self.tree.at(v.0)
    }

    /// The first range that begins at page `v` or above it. None exactly where no range does.
    pub fn first_from(&self, v: Vpn) -> Option<(Vpn, u32)>
        ensures found { result ≡ option_map first_and_count
            (find (λ r. nat_le v.0 r.first) self.now.ranges) }
        ensures apart { LieApart first_user_page self.now.ranges }
    {
        self.tree.first_from(v.0)
    }

    /// Whether the `n` pages from `first` on are user pages and none of them is taken: whether
    /// `insert` may take them.
    pub fn is_free(&self, first: Vpn, n: u32) -> bool
        requires { 0 < n }
        ensures { result ≡ is_free self.now.ranges (range_at first.0 n) }
    {
        if first.0 < FIRST_USER_PAGE
            || first.0 > END_OF_USER_PAGES
            || n > END_OF_USER_PAGES - first.0
        {
            return false;
        }
        if self.at(first).is_some() {
            return false;
        }
        match self.first_from(first) {
            None => true,
            Some((next, _)) => first.0 + n <= next.0,
        }
    }

    /// Whether a range begins at `first`: whether `remove` may be called there.
    pub fn is_begun_at(&self, first: Vpn) -> bool
        ensures { result ≡ is_begun_at first.0 self.now.ranges }
    {
        match self.first_from(first) {
            None => false,
            Some((next, _)) => next.0 == first.0,
        }
    }

    /// The lowest granule from which `n` user pages are free, as its first page: where
    /// `VirtualAlloc` and `MapViewOfFile` go when no address is asked for. None exactly where there
    /// is none.
    pub fn lowest_gap<L: Ledger>(&self, n: u32, steps: &mut Steps<L>) -> Option<Vpn>
        requires { 0 < n }
        ensures found { result ≡ option_map page_number (lowest_gap self.now.ranges n) }
        ensures few { VisitsFew L.stepped steps.old.ledger steps.new.ledger
            (length self.now.ranges) }
        ensures apart { LieApart first_user_page self.now.ranges }
    {
        match self
            .tree
            .lowest_gap(FIRST_USER_PAGE, END_OF_USER_PAGES, n, steps)
        {
            None => None,
            Some(page) => Some(Vpn(page)),
        }
    }
}
