ghost use Rattle.std.specs.Prelude.{◌≡◌, ◌+◌, ◌-◌, ◌<◌, ◌≤◌, ◌++◌, ◌↔◌, ℕ, List, [], length, IsTrue, Option, Some, None, IfOk, IsSome, replicate, slice_index, slice_set, vec_len, vec_capacity};
ghost use Rattle.mm_bits.specs.{have_bit, Becomes, SameWordsFrom};
ghost use Rattle.mm_page_tables.specs.LeafWords.{leaf_pages, bit_numbers, leaf_numbers, leaf_word, Changed, word_when, number_when};

use mm_bits::{extend, put_bits, reach};
use mm_types::NoMemory;
use std::alloc::Global;
use std::marker::Model;

/// How many pages a leaf has words for.
pub const LEAF_PAGES: usize = 4096;

/// How many numbers it takes to have a bit for each page.
const BIT_NUMBERS: usize = LEAF_PAGES / 64;

/// The words of `LEAF_PAGES` pages in a row, each there while its page is reserved; or nothing at
/// all.
///
/// Which pages are reserved are bits. Their words are written as far as one of them was ever set;
/// behind these each is 0. So no word is written where pages are reserved, and none that was never
/// set where they go.
#[derive(Drop)]
pub struct Leaf {
    /// First the bits of all pages, then words from the first page on. There is room for the words
    /// of all.
    numbers: Vec<u64>,
}

impl Model for Leaf {
    ghost use Rattle.std.specs.Prelude.{ℕ, List, Option, vec_capacity};
    ghost use Rattle.mm_page_tables.specs.LeafWords.{shown_leaf, IsLeaf};

    ghost Value = { List (Option ℕ) };

    ghost view = { λ l. shown_leaf l.numbers.items };

    ghost invariant = { λ l. IsLeaf (vec_capacity l.numbers) l.numbers.items };
}

/// The bits of all pages are like this from now on.
fn put_all(numbers: &mut Vec<u64>, on: bool)
    requires { bit_numbers ≤ length numbers.old.items }
    ensures put { Becomes on (have_bit numbers.old.items) (have_bit numbers.new.items)
        0 leaf_pages }
    ensures rest { SameWordsFrom leaf_pages numbers.old.items numbers.new.items }
    ensures kept { length numbers.new.items ≡ length numbers.old.items }
    ensures capacity { vec_capacity numbers.new ≡ vec_capacity numbers.old }
{
    let bits = if on { u64::MAX } else { 0 };
    numbers[0..BIT_NUMBERS].fill(bits);
}

/// The bits of the pages from index `from` up to `to` are like this from now on.
fn mark(numbers: &mut Vec<u64>, from: usize, to: usize, on: bool)
    requires some { from < to }
    requires within { to ≤ leaf_pages }
    requires there { bit_numbers ≤ length numbers.old.items }
    ensures put { Becomes on (have_bit numbers.old.items) (have_bit numbers.new.items) from to }
    ensures rest { SameWordsFrom leaf_pages numbers.old.items numbers.new.items }
    ensures kept { length numbers.new.items ≡ length numbers.old.items }
    ensures capacity { vec_capacity numbers.new ≡ vec_capacity numbers.old }
{
    if to - from == LEAF_PAGES {
        put_all(numbers, on);
    } else {
        put_bits(numbers, from, to, on);
    }
}

/// Unless the pages are reserved, those of the numbers from `from` up to `to` that are there are 0
/// from now on.
fn settle_numbers(numbers: &mut Vec<u64>, from: usize, to: usize, on: bool)
    requires { from ≤ to }
    ensures settled { Changed (number_when on) (slice_index numbers.old.items)
        (slice_index numbers.new.items) from to }
    ensures kept { length numbers.new.items ≡ length numbers.old.items }
    ensures capacity { vec_capacity numbers.new ≡ vec_capacity numbers.old }
{
    if !on {
        let end = to.min(numbers.len());
        numbers[from.min(end)..end].fill(0);
    }
}

impl Leaf {
    /// A leaf that takes no memory.
    pub fn absent(alloc: Global) -> Leaf
        ensures { result ≡ [] }
    {
        Leaf {
            numbers: Vec::new(alloc),
        }
    }

    /// A leaf with room for its words, none of whose pages is reserved.
    pub fn unreserved(alloc: Global) -> Result<Leaf, NoMemory>
        ensures { IfOk result (λ l. l ≡ replicate leaf_pages None) }
    {
        let mut numbers = Vec::with_capacity(alloc, BIT_NUMBERS + LEAF_PAGES)?;
        extend(&mut numbers, BIT_NUMBERS)?;
        Ok(Leaf { numbers })
    }

    /// Whether the leaf has room for its words.
    pub fn is_present(&self) -> bool
        ensures { IsTrue result ↔ (0 < length self.now) }
    {
        self.numbers.len() > 0
    }

    /// The word at the index of a reserved page.
    pub fn get(&self, at: usize) -> u64
        requires { IsSome (leaf_word self.now at) }
        ensures { leaf_word self.now at ≡ Some result }
    {
        let numbers = &self.numbers;
        let i = BIT_NUMBERS + at;
        if i < numbers.len() { numbers[i] } else { 0 }
    }

    /// Sets the word at the index of a reserved page.
    pub fn set(&mut self, at: usize, word: u64)
        requires { IsSome (leaf_word self.old at) }
        ensures { self.new ≡ slice_set self.old at (Some word) }
    {
        reach(
            &mut self.numbers,
            BIT_NUMBERS + at,
            BIT_NUMBERS + LEAF_PAGES,
        );
        self.numbers[BIT_NUMBERS + at] = word;
    }

    /// Reserves the pages from index `from` up to `to`, of which those that were not reserved have
    /// a word of 0; or takes their words away. The leaf keeps its room.
    pub fn put(&mut self, from: usize, to: usize, on: bool)
        requires some { from < to }
        requires within { to ≤ length self.old }
        ensures words { Changed (word_when on) (leaf_word self.old) (leaf_word self.new) from to }
        ensures room { length self.new ≡ length self.old }
    {
        mark(&mut self.numbers, from, to, on);
        settle_numbers(&mut self.numbers, BIT_NUMBERS + from, BIT_NUMBERS + to, on);
    }
}
