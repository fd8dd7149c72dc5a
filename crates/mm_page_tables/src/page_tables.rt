ghost use Rattle.std.specs.Prelude.{◌≡◌, ◌==◌, ◌+◌, ◌*◌, ◌/◌, ◌≤◌, ◌<◌, ℕ, List, [], length, Option, Some, None, IsSome, OnOk, OnErr, is_some, if◌then◌else◌, unwrap_or};
ghost use Rattle.std.specs.Ordering.{nat_cmp};
ghost use Rattle.std.specs.FinMap as finite;
ghost use Rattle.mm_types.specs.{first_user_page, end_of_user_pages};
ghost use Rattle.mm_page_tables.specs.Pages.{pages, Reserves, Releases, AreReserved};
ghost use Rattle.mm_page_tables.specs.LeafWords.{word_when};
ghost use Rattle.mm_page_tables.specs.Directory.{word_in, IsInLeaf, HavePlaces, KeepsPlaces, PlacesMore, Changes, IsPart, with_leaf_word, IsDirectory, end_of_pages, most_leaves};

use crate::leaves::{LEAF_PAGES, Leaf};
use mm_types::{NoMemory, Vpn};
use std::alloc::Global;
use std::marker::Model;

/// How many leaves have words for all pages below 2^19.
const LEAVES: usize = (1 << 19) / LEAF_PAGES;

/// The page-table words of one address space: a word for each reserved user page.
///
/// The directory is taken with the first reservation, a leaf with the first of one
/// of its pages. Leaves keep their room until `give_back`.
#[derive(Drop)]
pub struct Table {
    alloc: Global,
    leaves: Vec<Leaf>,
}

impl Model for Table {
    ghost use Rattle.std.specs.Prelude.{ℕ};
    ghost use Rattle.std.specs.Ordering.{nat_cmp};
    ghost use Rattle.std.specs.FinMap as finite;
    ghost use Rattle.std.specs.Coded.{coded_ℕ};
    ghost use Rattle.mm_page_tables.specs.Directory.{directory_words, IsDirectory};

    ghost Value = { finite.FinMap nat_cmp ℕ };

    ghost coded = { finite.code coded_ℕ coded_ℕ };

    ghost view = { λ t. directory_words t.leaves.items };

    ghost invariant = { λ t. IsDirectory t.leaves.items };
}

/// The word at a reserved page.
fn word_at(leaves: &[Leaf], page: u32) -> u64
    requires { IsSome (word_in leaves.now page) }
    ensures { word_in leaves.now page ≡ Some result }
{
    leaves[page as usize / LEAF_PAGES].get(page as usize % LEAF_PAGES)
}

/// Sets the word at a reserved page.
fn set_at(leaves: &mut Vec<Leaf>, page: u32, word: u64)
    requires { IsSome (word_in leaves.old.items page) }
    ensures { leaves.new.items ≡ with_leaf_word leaves.old.items page (Some word) }
{
    let leaf = &mut leaves[page as usize / LEAF_PAGES];
    leaf.set(page as usize % LEAF_PAGES, word);
}

/// Where those of the pages from `page` up to `end` end that lie in the leaf of `page`.
fn end_in_leaf(page: u32, end: u32) -> u32
    requires some { page < end }
    requires within { end ≤ end_of_pages }
    ensures part { IsPart page result }
    ensures within { result ≤ end }
{
    end.min((page / LEAF_PAGES as u32 + 1) * LEAF_PAGES as u32)
}

/// Gives each page of a part of one leaf a word of 0 if it has none, or takes their words away.
fn put_part(leaves: &mut Vec<Leaf>, page: u32, end: u32, on: bool)
    requires part { IsPart page end }
    requires place { IsInLeaf leaves.old.items page }
    requires directory { IsDirectory leaves.old.items }
    ensures changes { Changes (word_when on) leaves.old.items leaves.new.items page end }
    ensures places { KeepsPlaces leaves.old.items leaves.new.items }
{
    let from = page as usize % LEAF_PAGES;
    let leaf = &mut leaves[page as usize / LEAF_PAGES];
    leaf.put(from, from + (end - page) as usize, on);
}

/// Gives each page from `first` up to `end` a word of 0 if it has none, or takes their words away.
fn put_words(leaves: &mut Vec<Leaf>, first: u32, end: u32, on: bool)
    requires order { first ≤ end }
    requires end { end ≤ end_of_pages }
    requires places { HavePlaces leaves.old.items first end }
    requires directory { IsDirectory leaves.old.items }
    ensures { Changes (word_when on) leaves.old.items leaves.new.items first end }
{
    let mut page = first;
    while page < end {
        let next = end_in_leaf(page, end);
        put_part(leaves, page, next, on);
        page = next;
    }
}

/// Makes the page's leaf present.
fn place_leaf(alloc: Global, leaves: &mut Vec<Leaf>, page: u32) -> Result<(), NoMemory>
    requires within { page < end_of_pages }
    requires directory { IsDirectory leaves.old.items }
    requires whole { length leaves.old.items ≡ most_leaves }
    ensures placed { PlacesMore leaves.old.items leaves.new.items }
    ensures place { OnOk result (IsInLeaf leaves.new.items page) }
    ensures count { length leaves.new.items ≡ length leaves.old.items }
{
    let at = page as usize / LEAF_PAGES;
    if !leaves[at].is_present() {
        leaves[at] = Leaf::unreserved(alloc)?;
    }
    Ok(())
}

/// Makes the leaves of the pages from `first` up to `end` present.
fn place_leaves(alloc: Global, leaves: &mut Vec<Leaf>, first: u32, end: u32) -> Result<(), NoMemory>
    requires order { first ≤ end }
    requires end { end ≤ end_of_pages }
    requires directory { IsDirectory leaves.old.items }
    requires whole { length leaves.old.items ≡ most_leaves }
    ensures placed { PlacesMore leaves.old.items leaves.new.items }
    ensures places { OnOk result (HavePlaces leaves.new.items first end) }
{
    let mut page = first;
    while page < end {
        place_leaf(alloc, leaves, page)?;
        page = end_in_leaf(page, end);
    }
    Ok(())
}

/// Makes the directory whole.
fn take_directory(alloc: Global, leaves: &mut Vec<Leaf>) -> Result<(), NoMemory>
    requires { IsDirectory leaves.old.items }
    ensures placed { PlacesMore leaves.old.items leaves.new.items }
    ensures whole { OnOk result (length leaves.new.items ≡ most_leaves) }
{
    for _ in leaves.len()..LEAVES {
        leaves.push(Leaf::absent(alloc))?;
    }
    Ok(())
}

impl Table {
    /// A table of no reserved page; it takes memory with its first reservation.
    pub fn new(alloc: Global) -> Table
        ensures { result ≡ finite.empty }
    {
        Table {
            alloc,
            leaves: Vec::new(alloc),
        }
    }

    /// The word at a reserved page.
    pub fn get(&self, v: Vpn) -> u64
        requires { IsSome (finite.get self.now v.0) }
        ensures { finite.get self.now v.0 ≡ Some result }
    {
        word_at(&self.leaves, v.0)
    }

    /// Sets the word at a reserved page.
    pub fn set(&mut self, v: Vpn, word: u64)
        requires { IsSome (finite.get self.old v.0) }
        ensures { self.new ≡ finite.insert self.old v.0 word }
    {
        set_at(&mut self.leaves, v.0, word);
    }

    /// Reserves `n` user pages from `first` on. Those that were not reserved have a word of 0, the
    /// others keep theirs. After `NoMemory` nothing has changed.
    pub fn reserve(&mut self, first: Vpn, n: u32) -> Result<(), NoMemory>
        requires low { first_user_page ≤ first.0 }
        requires high { first.0 + n ≤ end_of_user_pages }
        ensures ok { OnOk result (Reserves self.old self.new (pages first.0 n)) }
        ensures err { OnErr result (self.new ≡ self.old) }
    {
        take_directory(self.alloc, &mut self.leaves)?;
        let end = first.0 + n;
        place_leaves(self.alloc, &mut self.leaves, first.0, end)?;
        put_words(&mut self.leaves, first.0, end, true);
        Ok(())
    }

    /// Takes the words of `n` reserved pages from `first` on away; they are not reserved from now
    /// on.
    pub fn release(&mut self, first: Vpn, n: u32)
        requires { AreReserved self.old (pages first.0 n) }
        ensures { Releases self.old self.new (pages first.0 n) }
    {
        if n == 0 {
            return;
        }
        put_words(&mut self.leaves, first.0, first.0 + n, false);
    }

    /// Gives the memory of a table without a reserved page back.
    pub fn give_back(&mut self)
        requires { (page : ℕ) → finite.get self.old page ≡ None }
        ensures { self.new ≡ self.old }
    {
        *self = Table::new(self.alloc);
    }
}
