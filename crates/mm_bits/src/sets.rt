ghost use Rattle.std.specs.Prelude.{◌≡◌, ℕ, ◌*◌, ◌/◌, ◌^◌, ◌<◌, ◌≤◌, true, false, max, length, vec_capacity, OnOk, OnErr, IfOk, IfSome, MatchOption};
ghost use Rattle.mm_bits.specs.Bits.{have_bit, PutsBits, NoneFrom, IsLowestFrom};
ghost use Rattle.mm_bits.specs.Sets.{AreSummed, Sums, whole_room};

use crate::bits::{BITS, extend, lowest_in, next_in_word, put_bit, reach};
use std::alloc::{AllocError, Global};
use std::marker::Model;

/// How many numbers one word of the second row stands for.
const NUMBERS: usize = BITS * BITS;

/// A set of numbers below a bound, of which the next one from any on is found in a few steps.
///
/// It is a row of bits. Each bit of a second row says that a word of the first has one that is set,
/// and each bit of a third the same of the second; one word of the third stands for 262,144
/// numbers. Contracts see the words of the first row, `words`, and `room`: the numbers below it may
/// be put in.
#[derive(Drop)]
pub struct BitSet {
    /// A bit for each number. There is room for all; words are written as far as one was ever put.
    bits: Vec<u64>,
    /// A bit for each word of `bits`.
    words: Vec<u64>,
    /// A bit for each word of `words`.
    tops: Vec<u64>,
}

impl Model for BitSet {
    ghost use Rattle.std.specs.Prelude.{◌*◌, length, vec_capacity};
    ghost use Rattle.mm_bits.specs.Sets.{BitSetOf, IsBitSet};

    ghost Value = { BitSetOf };

    ghost view = { λ s. record { words = s.bits.items; room = 4096 * length s.words.items } };

    ghost invariant = { λ s.
        IsBitSet (vec_capacity s.bits) s.bits.items s.words.items s.tops.items };
}

/// One bit of the second row is like this from now on, and where its word becomes or was 0 the one
/// above it too.
#[inline(always)] // `on` is known where it is called
fn put_above(words: &mut Vec<u64>, tops: &mut Vec<u64>, w: usize, on: bool)
    requires within { w / 64 < length words.old.items }
    requires reach { length words.old.items ≤ 64 * length tops.old.items }
    requires sums { Sums words.old.items tops.old.items }
    ensures puts { PutsBits on words.old.items words.new.items w }
    ensures sums { Sums words.new.items tops.new.items }
    ensures words { length words.new.items ≡ length words.old.items }
    ensures tops { length tops.new.items ≡ length tops.old.items }
{
    if put_bit(words, w, on) {
        put_bit(tops, w / BITS, on);
    }
}

/// One number is in or not from now on.
#[inline(always)] // `on` is known where it is called
fn put_number(bits: &mut Vec<u64>, words: &mut Vec<u64>, tops: &mut Vec<u64>, i: usize, on: bool)
    requires within { i / 64 < length bits.old.items }
    requires summed { AreSummed bits.old.items words.old.items tops.old.items }
    ensures puts { PutsBits on bits.old.items bits.new.items i }
    ensures summed { AreSummed bits.new.items words.new.items tops.new.items }
    ensures words { length words.new.items ≡ length words.old.items }
    ensures capacity { vec_capacity bits.new ≡ vec_capacity bits.old }
{
    if put_bit(bits, i, on) {
        put_above(words, tops, i / BITS, on);
    }
}

/// The lowest bit that is set at `from` or above in the last row, of which most sets have a word or
/// two.
fn next_top(tops: &Vec<u64>, from: usize) -> Option<usize>
    requires small { length tops.now.items ≤ 2 ^ 14 }
    requires low { from ≤ 2 ^ 31 }
    ensures { MatchOption result
        (NoneFrom (have_bit tops.now.items) from)
        (IsLowestFrom (have_bit tops.now.items) from) }
{
    if let Some(top) = next_in_word(tops, from) {
        return Some(top);
    }
    let mut w = from / BITS + 1;
    while w < tops.len() {
        if tops[w] != 0 {
            return Some(lowest_in(tops, w));
        }
        w += 1;
    }
    None
}

/// The lowest word that is not 0 at `from` or above, by the rows above.
fn next_word(words: &Vec<u64>, tops: &Vec<u64>, from: usize) -> Option<usize>
    requires sums { Sums words.now.items tops.now.items }
    requires small { length tops.now.items ≤ 2 ^ 14 }
    requires low { from < 2 ^ 31 }
    ensures { MatchOption result
        (NoneFrom (have_bit words.now.items) from)
        (IsLowestFrom (have_bit words.now.items) from) }
{
    if let Some(word) = next_in_word(words, from) {
        return Some(word);
    }
    match next_top(tops, from / BITS + 1) {
        Some(top) => Some(lowest_in(words, top)),
        None => None,
    }
}

impl BitSet {
    /// The empty set, with room for the numbers below `end`.
    pub fn new(alloc: Global, end: u32) -> Result<BitSet, AllocError>
        ensures empty { IfOk result (λ s. (i : ℕ) → have_bit s.words i ≡ false) }
        ensures room { IfOk result (λ s. s.room ≡ whole_room end) }
    {
        let mut set = BitSet {
            bits: Vec::new(alloc),
            words: Vec::new(alloc),
            tops: Vec::new(alloc),
        };
        set.reserve(end)?;
        Ok(set)
    }

    /// Makes room for the numbers below `end`. After an error nothing has changed.
    pub fn reserve(&mut self, end: u32) -> Result<(), AllocError>
        ensures same { self.new.words ≡ self.old.words }
        ensures ok { OnOk result (self.new.room ≡ max self.old.room (whole_room end)) }
        ensures err { OnErr result (self.new ≡ self.old) }
    {
        let n = (end as usize + (NUMBERS - 1)) / NUMBERS;
        if n <= self.words.len() {
            return Ok(());
        }
        self.bits.reserve(BITS * n - self.bits.len())?;
        extend(&mut self.tops, (n + (BITS - 1)) / BITS)?;
        extend(&mut self.words, n)
    }

    /// Whether a number is in the set.
    pub fn has(&self, i: u32) -> bool
        ensures { result ≡ have_bit self.now.words i }
    {
        let w = i as usize / BITS;
        if w >= self.bits.len() {
            return false;
        }
        self.bits[w] >> (i as usize % BITS) & 1 == 1
    }

    /// Puts a number in.
    pub fn insert(&mut self, i: u32)
        requires { i < self.old.room }
        ensures puts { PutsBits true self.old.words self.new.words i }
        ensures room { self.new.room ≡ self.old.room }
    {
        let i = i as usize;
        reach(&mut self.bits, i / BITS, BITS * self.words.len());
        put_number(&mut self.bits, &mut self.words, &mut self.tops, i, true);
    }

    /// Takes a number out.
    pub fn remove(&mut self, i: u32)
        requires { have_bit self.old.words i ≡ true }
        ensures puts { PutsBits false self.old.words self.new.words i }
        ensures room { self.new.room ≡ self.old.room }
    {
        put_number(
            &mut self.bits,
            &mut self.words,
            &mut self.tops,
            i as usize,
            false,
        );
    }

    /// The lowest number of the set at `from` or above.
    pub fn next(&self, from: u32) -> Option<u32>
        ensures is { MatchOption result
            (NoneFrom (have_bit self.now.words) from)
            (IsLowestFrom (have_bit self.now.words) from) }
        ensures low { IfSome result (λ i. i < self.now.room) }
    {
        let from = from as usize;
        if let Some(i) = next_in_word(&self.bits, from) {
            return Some(i as u32);
        }
        match next_word(&self.words, &self.tops, from / BITS + 1) {
            Some(word) => Some(lowest_in(&self.bits, word) as u32),
            None => None,
        }
    }
}
