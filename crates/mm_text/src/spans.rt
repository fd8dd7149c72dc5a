ghost use Rattle.std.specs.Prelude.{◌≡◌, ◌≤◌, ◌<◌, ◌+◌, ◌^◌, ◌∷◌, [], true, length, drop};
ghost use Rattle.std.specs.Prelude.{slice_range, MatchOption, IfNone, IfSome};
ghost use Rattle.mm_text.specs.Word.{WordsOf, words_of, words_from, rest_from};
ghost use Rattle.mm_text.specs.Place.{word_at};
ghost use Rattle.mm_text.specs.Run.{IsRun, IsNumberAt, EndsWord, BeginsHex, TakesNumber};
ghost use Rattle.mm_text.specs.Run.{is_unspaced, IsWordAt, TakesText};

use crate::fields::digit;
use std::marker::Model;

/// The place of a word in a line: from its first byte up to the byte after it, counted from 0.
#[derive(Clone, Copy, PartialEq, Eq)]
pub struct Span {
    pub from: u32,
    pub to: u32,
}

impl Span {
    /// The bytes of the word in its line.
    pub fn of(self, line: &[u8]) -> &[u8]
        requires order { self.from ≤ self.to }
        requires within { self.to ≤ length line.now }
        ensures { result.now ≡ slice_range line.now self.from self.to }
    {
        &line[self.from as usize..self.to as usize]
    }
}

/// A number that is a word of a line, and the place of the word's first byte, counted from 0.
#[derive(Clone, Copy, PartialEq, Eq)]
pub struct Numbered {
    pub from: u32,
    pub value: u32,
}

/// The words of a line from left to right. Each space ends a word and begins the next, so two
/// spaces side by side enclose an empty word, a space at the end is followed by one, and an empty
/// line is one.
#[derive(Drop)]
pub struct Words<'a> {
    line: &'a [u8],
    at: u32,
}

impl<'a> Model for Words<'a> {
    ghost use Rattle.std.specs.Prelude.{length, ◌≤◌, ◌<◌, ◌+◌, ◌^◌};
    ghost use Rattle.mm_text.specs.Word.{WordsOf, rest_from};

    ghost Value = { WordsOf };

    ghost view = { λ w. record { line = w.line.now; left = rest_from w.at w.line.now } };

    ghost invariant = { λ w. (w.at ≤ length w.line.now + 1) × (length w.line.now + 1 < 2 ^ 32) };
}

impl<'a> Words<'a> {
    /// The words of a line of fewer than 2^32 - 1 bytes.
    pub fn new(line: &'a [u8]) -> Words<'a>
        requires { length line.now + 1 < 2 ^ 32 }
        ensures { result ≡ record { line = line.now; left = words_of line.now } }
    {
        Words { line, at: 0 }
    }

    /// The next word as a number, in one pass. `None` leaves the word, which may be a number all
    /// the same.
    #[inline(always)]
    #[tactic(auto, using(crate::proofs::Runs::taken))]
    pub fn next_number(&mut self) -> Option<Numbered>
        ensures some { IfSome result (λ n. TakesNumber self.old self.new n.from n.value) }
        ensures none { IfNone result (self.new ≡ self.old) }
    {
        let from = self.at as usize;
        if from > self.line.len() {
            return None;
        }
        let (value, to) = number_at(self.line, from)?;
        self.at = to as u32 + 1;
        Some(Numbered {
            from: from as u32,
            value,
        })
    }

    /// Takes the next word where it is this one, which has no space in it, and tells where it
    /// begins. `None` leaves it.
    #[inline(always)]
    #[tactic(auto, using(crate::proofs::Texts::texts))]
    pub fn next_is(&mut self, text: &[u8]) -> Option<u32>
        requires word { is_unspaced text.now ≡ true }
        ensures some { IfSome result (λ from. TakesText self.old self.new from text.now) }
        ensures none { IfNone result (self.new ≡ self.old) }
    {
        let from = self.at as usize;
        if from > self.line.len() {
            return None;
        }
        let to = text_at(self.line, from, text)?;
        self.at = to as u32 + 1;
        Some(from as u32)
    }

    /// The place of the next word; `None` where no word is left.
    #[inline(always)]
    #[tactic(auto, using(crate::proofs::Splits::splits))]
    pub fn next(&mut self) -> Option<Span>
        ensures line { self.new.line ≡ self.old.line }
        ensures word { MatchOption result (self.old.left ≡ [])
            (λ s. self.old.left ≡ word_at self.old.line s ∷ self.new.left) }
        ensures none { IfNone result (self.new.left ≡ []) }
        ensures order { IfSome result (λ s. s.from ≤ s.to) }
        ensures within { IfSome result (λ s. s.to ≤ length self.old.line) }
    {
        let from = self.at as usize;
        if from > self.line.len() {
            return None;
        }
        let to = end_of_word(self.line, from);
        self.at = to as u32 + 1;
        Some(Span {
            from: from as u32,
            to: to as u32,
        })
    }
}

/// Where the word ends that begins at `from`: at the next space, or at the line's end. Four bytes a
/// turn, then the last ones.
#[inline(always)]
#[tactic(auto, using(crate::proofs::Splits::fours))]
fn end_of_word(line: &[u8], from: usize) -> usize
    requires { from ≤ length line.now }
    ensures order { from ≤ result }
    ensures within { result ≤ length line.now }
    ensures word { words_from from [] (drop from line.now) ≡ record {
      from = from;
      text = slice_range line.now from result;
    } ∷ rest_from (result + 1) line.now }
{
    let mut to = from;
    'fours: while line.len() - to >= 4 {
        if line[to] == b' ' {
            return to;
        }
        if line[to + 1] == b' ' {
            return to + 1;
        }
        if line[to + 2] == b' ' {
            return to + 2;
        }
        if line[to + 3] == b' ' {
            return to + 3;
        }
        to += 4;
    }
    'last: while to < line.len() && line[to] != b' ' {
        to += 1;
    }
    to
}

/// Whether a word ends at a place.
#[inline(always)]
fn ends_word(line: &[u8], at: usize) -> bool
    ensures { result ≡ true → EndsWord line.now at }
{
    at >= line.len() || line[at] == b' '
}

/// Whether a text stands at a place.
#[inline(always)]
#[tactic(auto, using(crate::proofs::Texts::begun))]
fn begins(line: &[u8], from: usize, text: &[u8]) -> bool
    requires { from + length text.now ≤ length line.now }
    ensures { result ≡ true → slice_range line.now from (from + length text.now) ≡ text.now }
{
    for i in 0..text.len() {
        if line[from + i] != text[i] {
            return false;
        }
    }
    true
}

/// Where the word ends that begins at a place, if it is this text.
#[inline(always)]
#[tactic(auto, using(crate::proofs::Texts::texts))]
fn text_at(line: &[u8], from: usize, text: &[u8]) -> Option<usize>
    requires within { from ≤ length line.now }
    requires word { is_unspaced text.now ≡ true }
    ensures { IfSome result (λ to. IsWordAt line.now from to text.now) }
{
    if line.len() - from < text.len() {
        return None;
    }
    if !begins(line, from, text) || !ends_word(line, from + text.len()) {
        return None;
    }
    Some(from + text.len())
}

/// Whether `0x` stands at a place.
#[inline(always)]
fn begins_hex(line: &[u8], at: usize) -> bool
    requires { at ≤ length line.now }
    ensures { result ≡ true → BeginsHex line.now at }
{
    line.len() - at >= 2 && line[at] == b'0' && line[at + 1] == b'x'
}

/// The number of 1 to `most` digits of a base from a place on, up to the end of the word, and
/// where that is. `None` where the word is anything else.
#[inline(always)]
#[tactic(auto, using(crate::proofs::Runs::runs))]
fn run(base: u8, most: usize, line: &[u8], start: usize) -> Option<(u32, usize)>
    requires low { 1 ≤ base }
    requires high { base ≤ 16 }
    requires few { most ≤ 10 }
    requires within { start ≤ length line.now }
    requires short { length line.now + 1 < 2 ^ 32 }
    ensures { IfSome result (λ r. IsRun base most line.now start r.1 r.0) }
{
    let end = line.len().min(start + most);
    let mut to = start;
    let mut sum = 0u64;
    while to < end {
        let digit = digit(line[to]);
        if digit >= base {
            break;
        }
        sum = sum * u64::from(base) + u64::from(digit);
        to += 1;
    }
    if to == start || sum > 0xFFFF_FFFF || !ends_word(line, to) {
        return None;
    }
    Some((sum as u32, to))
}

/// The digit that is all of the word that begins at a place, and where the word ends.
#[inline(always)]
#[tactic(auto, using(crate::proofs::Runs::digits))]
fn one_digit(line: &[u8], from: usize) -> Option<(u32, usize)>
    requires { from ≤ length line.now }
    ensures { IfSome result (λ r. IsNumberAt line.now from r.1 r.0) }
{
    if from == line.len() {
        return None;
    }
    let digit = digit(line[from]);
    if digit >= 10 || !ends_word(line, from + 1) {
        return None;
    }
    Some((u32::from(digit), from + 1))
}

/// The number of digits that the word is that begins at a place, and where the word ends.
#[inline(always)]
#[tactic(auto, using(crate::proofs::Runs::numbers))]
fn digits_at(line: &[u8], from: usize) -> Option<(u32, usize)>
    requires within { from ≤ length line.now }
    requires short { length line.now + 1 < 2 ^ 32 }
    ensures { IfSome result (λ r. IsNumberAt line.now from r.1 r.0) }
{
    if begins_hex(line, from) {
        run(16, 8, line, from + 2)
    } else {
        run(10, 10, line, from)
    }
}

/// The number that the word is that begins at a place, and where the word ends; `None` where
/// this pass does not tell it.
#[inline(always)]
fn number_at(line: &[u8], from: usize) -> Option<(u32, usize)>
    requires within { from ≤ length line.now }
    requires short { length line.now + 1 < 2 ^ 32 }
    ensures { IfSome result (λ r. IsNumberAt line.now from r.1 r.0) }
{
    match one_digit(line, from) {
        Some(found) => Some(found),
        None => digits_at(line, from),
    }
}
