ghost use Rattle.std.specs.Prelude.{◌≡◌, ℕ, ◌+◌, ◌-◌, ◌*◌, ◌/◌, ◌^◌, ◌<◌, ◌≤◌, ◌++◌, true, length, replicate, vec_len, vec_capacity, OnOk, OnErr, IfSome, IfNone, MatchOption};
ghost use Rattle.std.specs.Int.{bit_at};
ghost use Rattle.mm_bits.specs.{have_bit, is_filled, Becomes, WordBecomes, SameWordsFrom, PutsBit, NoneWithin, IsLowestFrom, word_end};

use std::alloc::AllocError;

/// How many bits a word has.
pub(crate) const BITS: usize = 64;

/// The bits of a word from `low` on and below `high`.
fn mask(low: usize, high: usize) -> u64
    requires ordered { low < high }
    requires within { high ≤ 64 }
    ensures inside { (i : ℕ) → low ≤ i → i < high → bit_at result i ≡ 1 }
    ensures below { (i : ℕ) → i < low → bit_at result i ≡ 0 }
    ensures above { (i : ℕ) → high ≤ i → bit_at result i ≡ 0 }
{
    (u64::MAX << low) & (u64::MAX >> (BITS - high))
}

/// The word whose bits from `low` on and below `high` are all like this.
fn put(word: u64, low: usize, high: usize, on: bool) -> u64
    requires ordered { low < high }
    requires within { high ≤ 64 }
    ensures { WordBecomes on word result low high }
{
    let bits = mask(low, high);
    if on { word | bits } else { word & !bits }
}

/// The bits of words, one word after another, from `first` on and below `end` are all like this
/// from now on.
pub fn put_bits(words: &mut Vec<u64>, first: usize, end: usize, on: bool)
    requires ordered { first ≤ end }
    requires within { end ≤ 64 * length words.old.items }
    requires small { end ≤ 2 ^ 32 }
    ensures put { Becomes on (have_bit words.old.items) (have_bit words.new.items) first end }
    ensures rest { SameWordsFrom end words.old.items words.new.items }
    ensures kept { length words.new.items ≡ length words.old.items }
    ensures capacity { vec_capacity words.new ≡ vec_capacity words.old }
{
    let mut at = first;
    while at < end {
        let word = at / BITS;
        let stop = end.min((word + 1) * BITS);
        words[word] = put(words[word], at % BITS, stop - word * BITS, on);
        at = stop;
    }
}

/// One bit is like this from now on. Whether its word was 0 before the bit was set, or is 0 after
/// it was cleared.
#[inline(always)] // `on` is known where it is called
pub fn put_bit(words: &mut Vec<u64>, i: usize, on: bool) -> bool
    requires { i / 64 < length words.old.items }
    ensures puts { PutsBit on words.old.items words.new.items i result }
    ensures kept { length words.new.items ≡ length words.old.items }
    ensures capacity { vec_capacity words.new ≡ vec_capacity words.old }
{
    let word = words[i / BITS];
    if on {
        words[i / BITS] = word | 1 << (i % BITS);
        return word == 0;
    }
    let rest = word & !(1 << (i % BITS));
    words[i / BITS] = rest;
    rest == 0
}

/// The lowest bit that is set at `from` or above, of those in its word.
pub(crate) fn next_in_word(words: &Vec<u64>, from: usize) -> Option<usize>
    requires { from ≤ 2 ^ 32 }
    ensures { MatchOption result
        (NoneWithin (have_bit words.now.items) from (word_end from))
        (IsLowestFrom (have_bit words.now.items) from) }
{
    let i = from / BITS;
    if i >= words.len() {
        return None;
    }
    let rest = words[i] >> (from % BITS);
    if rest == 0 {
        None
    } else {
        Some(from + rest.trailing_zeros() as usize)
    }
}

/// The lowest bit of a word that is not 0.
pub(crate) fn lowest_in(words: &Vec<u64>, w: usize) -> usize
    requires filled { is_filled words.now.items w ≡ true }
    requires small { w < 2 ^ 32 }
    ensures { IsLowestFrom (have_bit words.now.items) (64 * w) result }
{
    BITS * w + words[w].trailing_zeros() as usize
}

/// The lowest bit that is set from `first` on and below `end`, by looking at one word at a time.
pub fn next_bit(words: &Vec<u64>, first: usize, end: usize) -> Option<usize>
    requires { end ≤ 2 ^ 32 }
    ensures found { IfSome result (IsLowestFrom (have_bit words.now.items) first) }
    ensures within { IfSome result (λ i. i < end) }
    ensures none { IfNone result (NoneWithin (have_bit words.now.items) first end) }
{
    let mut at = first;
    while at < end {
        if let Some(next) = next_in_word(words, at) {
            return if next < end { Some(next) } else { None };
        }
        at = (at / BITS + 1) * BITS;
    }
    None
}

/// Adds zeros at the end until there are `n` words, if there are fewer.
pub fn extend(words: &mut Vec<u64>, n: usize) -> Result<(), AllocError>
    ensures ok { OnOk result (words.new.items
        ≡ words.old.items ++ replicate (n - vec_len words.old) 0) }
    ensures err { OnErr result (words.new.items ≡ words.old.items) }
    ensures full { OnErr result (vec_capacity words.old < n) }
    ensures capacity { vec_capacity words.old ≤ vec_capacity words.new }
{
    if words.len() < n {
        words.resize(n, 0)?;
    }
    Ok(())
}

/// The same, of words for which there is room.
#[cold]
#[inline(never)]
fn extend_within(words: &mut Vec<u64>, n: usize)
    requires { n ≤ vec_capacity words.old }
    ensures items { words.new.items ≡ words.old.items ++ replicate (n - vec_len words.old) 0 }
    ensures capacity { vec_capacity words.old ≤ vec_capacity words.new }
{
    match extend(words, n) {
        Ok(()) => {}
        Err(_) => unreachable!(),
    }
}

/// Adds zeros at the end, if need be, so that there is a word at this index, and at most `most`
/// words.
#[inline(always)] // nearly always it is there
pub fn reach(words: &mut Vec<u64>, i: usize, most: usize)
    requires within { i < most }
    requires room { most ≤ vec_capacity words.old }
    requires few { length words.old.items ≤ most }
    ensures items { words.new.items
        ≡ words.old.items ++ replicate (vec_len words.new - vec_len words.old) 0 }
    ensures there { i < length words.new.items }
    ensures few { length words.new.items ≤ most }
    ensures capacity { vec_capacity words.old ≤ vec_capacity words.new }
{
    if i >= words.len() {
        extend_within(words, (i + 64).min(most));
    }
}
