ghost use Rattle.std.specs.Prelude.{◌≡◌, ◌∷◌, ◌++◌, [], length, OnOk, IfOk, if◌then◌else◌};
ghost use Rattle.mm_types.specs.{byte_pairs};
ghost use Rattle.mm_names.specs.Tidy.{sign_of, sign_at, is_slashed, word_follows, is_parted, added, last_after, with_byte, untouched, with_bytes};

use mm_text::{LineBuf, put_bytes};
use mm_types::NoMemory;
use std::alloc::Global;
use std::marker::Model;

/// What a byte of a written line is.
#[derive(Clone, Copy, PartialEq, Eq)]
pub enum Sign {
    /// Parts words: a space, a tab, a parenthesis or a comma.
    Blank,
    /// Begins a comment: `#`, `;` or `//`.
    Hash,
    Quote,
    /// Joins the parts of a number: `+`, `|`, `*` or `<`.
    Operator,
    /// A `-` between words parted by spaces.
    Minus,
    Equals,
    Letter,
}

/// What came last in a written line.
#[derive(Clone, Copy, PartialEq, Eq)]
pub enum Last {
    Nothing,
    Word,
    Blank,
    Operator,
    /// A quote that is open.
    Quote,
    Comment,
}

/// What a byte is by itself.
fn sign_of(byte: u8) -> Sign
    ensures { result ≡ sign_of byte }
{
    match byte {
        b' ' | b'\t' | b'(' | b')' | b',' => Sign::Blank,
        b'#' | b';' => Sign::Hash,
        b'"' => Sign::Quote,
        b'+' | b'|' | b'*' | b'<' => Sign::Operator,
        b'=' => Sign::Equals,
        _ => Sign::Letter,
    }
}

/// Whether a slash follows.
fn is_slashed(rest: &[u8]) -> bool
    ensures { result ≡ is_slashed rest.now }
{
    match rest {
        [first, ..] => *first == b'/',
        [] => false,
    }
}

/// Whether a word follows behind spaces.
fn word_follows(rest: &[u8]) -> bool
    ensures { result ≡ word_follows rest.now }
{
    for byte in rest {
        if *byte != b' ' && *byte != b'\t' {
            return sign_of(*byte) == Sign::Letter;
        }
    }
    false
}

/// Whether a space follows, and behind it a word.
fn is_parted(rest: &[u8]) -> bool
    ensures { result ≡ is_parted rest.now }
{
    match rest {
        [b' ' | b'\t', behind @ ..] => word_follows(behind),
        _ => false,
    }
}

/// What a byte is, with these behind it.
fn sign_at(byte: u8, rest: &[u8]) -> Sign
    ensures { result ≡ sign_at byte rest.now }
{
    if byte == b'/' && is_slashed(rest) {
        return Sign::Hash;
    }
    if byte == b'-' && is_parted(rest) {
        return Sign::Minus;
    }
    sign_of(byte)
}

/// What came last, after a byte of this sign.
fn last_after(last: Last, sign: Sign) -> Last
    ensures { result ≡ last_after last sign }
{
    match (last, sign) {
        (Last::Comment, _) => Last::Comment,
        (Last::Quote, Sign::Quote) => Last::Blank,
        (Last::Quote, _) => Last::Quote,
        (Last::Nothing, Sign::Blank) => Last::Nothing,
        (Last::Operator, Sign::Blank) => Last::Operator,
        (_, Sign::Blank) => Last::Blank,
        (_, Sign::Hash) => Last::Comment,
        (_, Sign::Quote) => Last::Quote,
        (_, Sign::Operator) => Last::Operator,
        (_, Sign::Equals) => Last::Blank,
        (_, Sign::Letter) => Last::Word,
        (Last::Blank, Sign::Minus) => Last::Operator,
        (_, Sign::Minus) => Last::Word,
    }
}

/// A byte behind a gap, where one is wanted.
fn push_behind(text: &mut Vec<u8>, gap: bool, byte: u8) -> Result<(), NoMemory>
    ensures { OnOk result (text.new.items
        ≡ text.old.items ++ ((if gap then 0x20 ∷ [] else []) ++ byte ∷ [])) }
{
    if gap {
        text.push(b' ')?;
    }
    text.push(byte)?;
    Ok(())
}

/// A `-` as a sum with what is taken away.
fn push_minus(text: &mut Vec<u8>, byte: u8) -> Result<(), NoMemory>
    ensures { OnOk result (text.new.items ≡ text.old.items ++ (0x2B ∷ byte ∷ [])) }
{
    text.push(b'+')?;
    text.push(byte)?;
    Ok(())
}

/// A byte as a pair of hexadecimal digits.
fn push_pair(text: &mut Vec<u8>, byte: u8) -> Result<(), NoMemory>
    ensures { OnOk result (text.new.items ≡ text.old.items ++ byte_pairs (byte ∷ [])) }
{
    let mut pair = LineBuf::new();
    put_bytes(&mut pair, &[byte]);
    text.extend_from_slice(pair.as_slice())?;
    Ok(())
}

/// What a byte of this sign adds.
fn push_added(text: &mut Vec<u8>, last: Last, sign: Sign, byte: u8) -> Result<(), NoMemory>
    ensures { OnOk result (text.new.items ≡ text.old.items ++ added last sign byte) }
{
    match (last, sign) {
        (Last::Comment, _) => Ok(()),
        (Last::Quote, Sign::Quote) => Ok(()),
        (Last::Quote, _) => push_pair(text, byte),
        (_, Sign::Blank) => Ok(()),
        (_, Sign::Hash) => Ok(()),
        (_, Sign::Operator) => push_behind(text, false, byte),
        (Last::Blank, Sign::Minus) => push_minus(text, byte),
        (Last::Word, Sign::Equals) => push_behind(text, true, byte),
        (Last::Blank, _) => push_behind(text, true, byte),
        (_, _) => push_behind(text, false, byte),
    }
}

/// A line's words with one space between each and the next, as far as it was read, and the column
/// of each byte in the written line.
#[derive(Drop)]
pub struct Tidy {
    text: Vec<u8>,
    columns: Vec<u32>,
    last: Last,
}

impl Model for Tidy {
    ghost use Rattle.mm_names.specs.Tidy.{TidyOf};

    ghost Value = { TidyOf };

    ghost view = { λ t. record { text = t.text.items; last = t.last } };
}

impl Tidy {
    /// Nothing of a line was read.
    pub fn new(alloc: Global) -> Tidy
        ensures { result ≡ untouched }
    {
        Tidy {
            text: Vec::new(alloc),
            columns: Vec::new(alloc),
            last: Last::Nothing,
        }
    }

    /// The words so far.
    pub fn text(&self) -> &[u8]
        ensures { result.now ≡ self.now.text }
    {
        self.text.as_slice()
    }

    /// What came last.
    pub fn last(&self) -> Last
        ensures { result ≡ self.now.last }
    {
        self.last
    }

    /// The column in the written line of a byte of the words.
    pub fn column(&self, at: usize) -> u32 {
        match self.columns.get(at) {
            Some(column) => *column,
            None => 1,
        }
    }

    /// A byte more, of this sign, which stands in this column.
    fn take(&mut self, byte: u8, sign: Sign, column: u32) -> Result<(), NoMemory>
        ensures { OnOk result (self.new ≡ with_byte self.old byte sign) }
    {
        push_added(&mut self.text, self.last, sign, byte)?;
        self.columns.resize(self.text.len(), column)?;
        self.last = last_after(self.last, sign);
        Ok(())
    }
}

/// Reads a line.
pub fn tidied(alloc: Global, line: &[u8]) -> Result<Tidy, NoMemory>
    ensures { IfOk result (λ t. t ≡ with_bytes untouched line.now) }
{
    let mut tidy = Tidy::new(alloc);
    let mut column = 0u32;
    let mut left = line;
    while let [byte, rest @ ..] = left {
        column = column.saturating_add(1);
        tidy.take(*byte, sign_at(*byte, rest), column)?;
        left = rest;
    }
    Ok(tidy)
}
