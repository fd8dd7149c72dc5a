ghost use Rattle.std.specs.Prelude.{◌≡◌, ◌^◌, ◌<◌, ◌≤◌, ◌&&◌, None, Some, OnOk, IfOk};
ghost use Rattle.std.specs.List.{list_any};
ghost use Rattle.mm_text.specs.{below_limit};
ghost use Rattle.mm_names.specs.Numbers.{scale_of, byte_before_end, unit_len, scaled, factor_value, joined_factor, joined_term, nothing_yet, product_of, total_of, with_term, with_factor, at_head, with_minus, behind_less, with_less, letter_behind, with_letter, sum_with, sum_with_all, is_shift, is_arithmetic, mixes_shift, value_of};

use crate::names::{Names, windows_value};
use mm_text::number;
use mm_types::NoMemory;
use std::alloc::Global;
use std::marker::Model;

/// How a term of a number goes with those before it.
#[derive(Clone, Copy, PartialEq, Eq)]
pub enum Operator {
    Sum,
    Difference,
    Union,
}

/// How a factor of a term goes with those before it.
#[derive(Clone, Copy, PartialEq, Eq)]
pub enum Join {
    Times,
    /// The first `<` of a shift was read.
    HalfShift,
    Shift,
}

/// What a unit K, M or G multiplies by; 1 for another byte.
fn scale_of(byte: u8) -> u64
    ensures scale { result ≡ scale_of byte }
    ensures most { result ≤ 2 ^ 30 }
{
    match byte {
        b'K' | b'k' => 1024,
        b'M' | b'm' => 1_048_576,
        b'G' | b'g' => 1_073_741_824,
        _ => 1,
    }
}

/// A number where 32 bits hold it.
fn below_limit(n: u64) -> Option<u32>
    ensures { result ≡ below_limit n }
{
    if n > 0xFFFF_FFFF {
        return None;
    }
    Some(n as u32)
}

/// The last byte but so many; 0 where there is none.
fn byte_before_end(n: usize, word: &[u8]) -> u8
    ensures { result ≡ byte_before_end n word.now }
{
    if n >= word.len() {
        return 0;
    }
    word[word.len() - 1 - n]
}

/// How many bytes at the end say the unit: K, M or G, with B behind it or without.
fn unit_len(word: &[u8]) -> usize
    ensures len { result ≡ unit_len word.now }
{
    let last = byte_before_end(0, word);
    if scale_of(last) != 1 {
        return 1;
    }
    if last != b'B' && last != b'b' {
        return 0;
    }
    if scale_of(byte_before_end(1, word)) == 1 {
        0
    } else {
        2
    }
}

/// The number that a word is: one as plain scripts have it, or such a one before a unit.
fn scaled(word: &[u8]) -> Option<u32>
    ensures { result ≡ scaled word.now }
{
    let unit = unit_len(word).min(word.len());
    let n = number(&word[..word.len() - unit])?;
    let scale = scale_of(byte_before_end(unit.saturating_sub(1), word));
    below_limit(u64::from(n) * scale)
}

/// The number that a factor is: a name of Windows, a name that the script gave, or a number.
fn factor_value(names: &Names, word: &[u8]) -> Option<u32>
    ensures { result ≡ factor_value names.now word.now }
{
    match windows_value(word) {
        Some(value) => Some(value),
        None => match names.value(word) {
            Some(value) => Some(value),
            None => scaled(word),
        },
    }
}

/// A factor behind others.
fn joined_factor(join: Join, a: u32, b: u32) -> Option<u32>
    ensures { result ≡ joined_factor join a b }
{
    match join {
        Join::Times => below_limit(u64::from(a) * u64::from(b)),
        Join::HalfShift => None,
        Join::Shift => {
            if b >= 32 {
                return None;
            }
            below_limit(u64::from(a) << b)
        }
    }
}

/// A term behind others.
fn joined_term(operator: Operator, a: u32, b: u32) -> Option<u32>
    ensures { result ≡ joined_term operator a b }
{
    match operator {
        Operator::Sum => below_limit(u64::from(a) + u64::from(b)),
        Operator::Difference => a.checked_sub(b),
        Operator::Union => Some(a | b),
    }
}

/// A number of several terms, as far as it was read.
#[derive(Drop)]
struct Sum {
    total: Option<u32>,
    operator: Operator,
    product: Option<u32>,
    join: Join,
    factor: Vec<u8>,
}

impl Model for Sum {
    ghost use Rattle.mm_names.specs.Numbers.{SumOf};

    ghost Value = { SumOf };

    ghost view = { λ s. record {
      total = s.total;
      operator = s.operator;
      product = s.product;
      join = s.join;
      factor = s.factor.items;
    } };
}

impl Sum {
    /// No term was read.
    fn new(alloc: Global) -> Sum
        ensures { result ≡ nothing_yet }
    {
        Sum {
            total: Some(0),
            operator: Operator::Sum,
            product: Some(1),
            join: Join::Times,
            factor: Vec::new(alloc),
        }
    }

    /// The value of the term with the factor that was read last.
    fn product(&self, names: &Names) -> Option<u32>
        ensures { result ≡ product_of names.now self.now }
    {
        let before = self.product?;
        let last = factor_value(names, self.factor.as_slice())?;
        joined_factor(self.join, before, last)
    }

    /// The value with the term that was read last.
    fn total(&self, names: &Names) -> Option<u32>
        ensures { result ≡ total_of names.now self.now }
    {
        let before = self.total?;
        let last = self.product(names)?;
        joined_term(self.operator, before, last)
    }

    /// The term ends, and the next goes so with it.
    fn end_term(&mut self, names: &Names, next: Operator)
        ensures { self.new ≡ with_term names.now self.old next }
    {
        self.total = self.total(names);
        self.operator = next;
        self.product = Some(1);
        self.join = Join::Times;
        self.factor.clear();
    }

    /// The factor ends, and the next goes so with it.
    fn end_factor(&mut self, names: &Names, next: Join)
        ensures { self.new ≡ with_factor names.now self.old next }
    {
        self.product = self.product(names);
        self.join = next;
        self.factor.clear();
    }

    /// A `-` at the head of a term.
    fn take_away(&mut self)
        ensures { self.new ≡ at_head self.old.operator self.old }
    {
        if self.operator == Operator::Sum {
            self.operator = Operator::Difference;
        } else {
            self.product = None;
        }
    }

    /// A `-`: at the head of a term it takes the term away.
    fn take_minus(&mut self) -> Result<(), NoMemory>
        ensures { OnOk result (self.new ≡ with_minus self.old) }
    {
        if self.factor.is_empty() {
            self.take_away();
        } else {
            self.factor.push(b'-')?;
        }
        Ok(())
    }

    /// A `<` with no factor before it.
    fn shift(&mut self)
        ensures { self.new ≡ behind_less self.old.join self.old }
    {
        if self.join == Join::HalfShift {
            self.join = Join::Shift;
        } else {
            self.product = None;
        }
    }

    /// A `<`, of which two are a shift.
    fn take_less(&mut self, names: &Names)
        ensures { self.new ≡ with_less names.now self.old }
    {
        if self.factor.is_empty() {
            self.shift();
        } else {
            self.end_factor(names, Join::HalfShift);
        }
    }

    /// A letter of a factor; `0X` is read as `0x`.
    fn take_letter(&mut self, byte: u8) -> Result<(), NoMemory>
        ensures { OnOk result (self.new ≡ with_letter self.old byte) }
    {
        let letter = if byte == b'X' && self.factor.as_slice() == b"0".as_slice() {
            b'x'
        } else {
            byte
        };
        self.factor.push(letter)?;
        Ok(())
    }

    /// A byte more.
    fn take(&mut self, names: &Names, byte: u8) -> Result<(), NoMemory>
        ensures { OnOk result (self.new ≡ sum_with names.now self.old byte) }
    {
        match byte {
            b'+' => self.end_term(names, Operator::Sum),
            b'|' => self.end_term(names, Operator::Union),
            b'*' => self.end_factor(names, Join::Times),
            b'<' => self.take_less(names),
            b'-' => self.take_minus()?,
            _ => self.take_letter(byte)?,
        }
        Ok(())
    }
}

/// Whether a number has a shift beside a sum or a product.
fn mixes_shift(word: &[u8]) -> bool
    ensures { result ≡ mixes_shift word.now }
{
    has_shift(word) && has_arithmetic(word)
}

/// Whether a number has a shift.
fn has_shift(word: &[u8]) -> bool
    ensures { result ≡ list_any is_shift word.now }
{
    for byte in word {
        if *byte == b'<' {
            return true;
        }
    }
    false
}

/// Whether a number has a sum, a difference or a product.
fn has_arithmetic(word: &[u8]) -> bool
    ensures { result ≡ list_any is_arithmetic word.now }
{
    for byte in word {
        if *byte == b'+' || *byte == b'*' {
            return true;
        }
    }
    false
}

/// The number that a word is: the sum, difference or union of its terms, each the product or the
/// shift of its factors. None where a factor is no number, they pass 32 bits, or a shift stands
/// beside a sum or a product.
pub fn value_of(alloc: Global, names: &Names, word: &[u8]) -> Result<Option<u32>, NoMemory>
    ensures { IfOk result (λ n. n ≡ value_of names.now word.now) }
{
    if mixes_shift(word) {
        return Ok(None);
    }
    let mut sum = Sum::new(alloc);
    for byte in word {
        sum.take(names, *byte)?;
    }
    Ok(sum.total(names))
}
