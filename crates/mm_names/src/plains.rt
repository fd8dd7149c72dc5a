ghost use Rattle.std.specs.Prelude.{◌≡◌, ◌<◌, ◌+◌, ◌^◌, ◌++◌, ◌∷◌, length, IfOk, OnOk, Option, None, Some, option_map, if◌then◌else◌};
ghost use Rattle.mm_text.specs.{hex_short, WordsOf, words_of};
ghost use Rattle.mm_names.specs.{unquoted, plain_word, plain_from, plain_of, with_word};

use crate::names::Names;
use crate::numbers::value_of;
use crate::words::{Kind, Verb, kind_at, lowered, next_number, verb_after, verb_of};
use mm_text::{LineBuf, Words, put_hex_short};
use mm_types::NoMemory;
use std::alloc::Global;

/// What stood in quotes, or the word.
fn unquoted(word: &[u8]) -> &[u8]
    ensures { result.now ≡ unquoted word.now }
{
    match word {
        [b'"', bytes @ ..] => bytes,
        _ => word,
    }
}

/// A number as a plain word.
#[tactic(auto, using(mm_text::proofs::Spelled::lengths))]
fn number_word(alloc: Global, n: u32) -> Result<Vec<u8>, NoMemory>
    ensures { IfOk result (λ w. w.items ≡ hex_short n) }
{
    let mut word = LineBuf::new();
    put_hex_short(&mut word, n);
    let bytes = Vec::from_slice(alloc, word.as_slice())?;
    Ok(bytes)
}

/// The plain word for a number.
fn plain_number(alloc: Global, names: &Names, word: &[u8]) -> Result<Option<Vec<u8>>, NoMemory>
    ensures { IfOk result (λ w. option_map (λ v. v.items) w
        ≡ plain_word names.now Kind.Number word.now) }
{
    match value_of(alloc, names, word)? {
        None => Ok(None),
        Some(n) => Ok(Some(number_word(alloc, n)?)),
    }
}

/// The plain word for a written one of this kind.
fn plain_word(
    alloc: Global,
    names: &Names,
    kind: Kind,
    word: &[u8],
) -> Result<Option<Vec<u8>>, NoMemory>
    ensures { IfOk result (λ w. option_map (λ v. v.items) w ≡ plain_word names.now kind word.now) }
{
    match kind {
        Kind::Number => plain_number(alloc, names, word),
        Kind::Name => Ok(Some(Vec::from_slice(alloc, word)?)),
        Kind::Keyword => Ok(Some(lowered(alloc, word)?)),
        Kind::Bytes => Ok(Some(Vec::from_slice(alloc, unquoted(word))?)),
    }
}

/// Writes a space and the plain word for a written one behind a line. False, and the line is as it
/// was, where it stands for none.
fn push_word(
    line: &mut Vec<u8>,
    alloc: Global,
    names: &Names,
    kind: Kind,
    word: &[u8],
) -> Result<bool, NoMemory>
    ensures { IfOk result (λ ok. with_word line.old.items (plain_word names.now kind word.now)
        ≡ (if ok then Some line.new.items else None)) }
{
    match plain_word(alloc, names, kind, word)? {
        None => Ok(false),
        Some(plain) => {
            line.push(b' ')?;
            line.extend_from_slice(plain.as_slice())?;
            Ok(true)
        }
    }
}

/// The plain line of a keyword and the words behind it, of which the next has the number 2. None
/// where a word stands for none.
pub fn plain_of(
    alloc: Global,
    names: &Names,
    keyword: &[u8],
    text: &[u8],
    words: &mut Words,
) -> Result<Option<Vec<u8>>, NoMemory>
    requires { words.old.line ≡ text.now }
    ensures { IfOk result (λ l. option_map (λ v. v.items) l
        ≡ plain_of names.now keyword.now words.old.left) }
{
    let mut line = Vec::from_slice(alloc, keyword)?;
    let mut verb = verb_of(keyword);
    let mut number = 2u32;
    while let Some(span) = words.next() {
        let word = span.of(text);
        if !push_word(&mut line, alloc, names, kind_at(verb, number), word)? {
            return Ok(None);
        }
        verb = verb_after(alloc, verb, number, word)?;
        number = next_number(number);
    }
    Ok(Some(line))
}
