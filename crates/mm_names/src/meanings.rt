ghost use Rattle.std.specs.Prelude.{◌≡◌, ◌<◌, ◌+◌, ◌^◌, ◌∷◌, length, IfOk, Option, None, Some};
ghost use Rattle.mm_text.specs.{WordsOf, words_of, name_of};
ghost use Rattle.mm_script.specs.{without_return};
ghost use Rattle.mm_names.specs.Meaning.{meant, meant_by, phrase, sentence, let_of, given_under, said_in, FormedIn};
ghost use Rattle.mm_names.specs.Tidy.{tidy_of};

use crate::names::{Given, Names, windows_value};
use crate::numbers::value_of;
use crate::plains::plain_of;
use crate::tidy::{Last, tidied};
use crate::words::{keyword_for, lowered};
use mm_script::{is_text, parse_line, without_return};
use mm_text::{Words, name};
use mm_types::{Event, NoMemory};
use std::alloc::Global;

/// What a written line means.
#[derive(Drop)]
pub enum Meaning {
    /// Blank, or a comment.
    Nothing,
    /// A name for a number.
    Gives(Given),
    Says(Event),
    /// It means nothing.
    Wrong,
}

/// The meaning of a plain line.
fn said_in(line: &[u8]) -> Meaning
    ensures { result ≡ said_in (Some line.now) }
{
    if line.len() > 256 {
        return Meaning::Wrong;
    }
    match parse_line(line) {
        Ok(event) => Meaning::Says(event),
        Err(_) => Meaning::Wrong,
    }
}

/// What stands behind `let`: a name, `=` and a number.
fn let_of(alloc: Global, names: &Names, text: &[u8], words: &mut Words) -> Result<Meaning, NoMemory>
    requires { words.old.line ≡ text.now }
    ensures { IfOk result (λ m. m ≡ let_of names.now words.old.left) }
{
    let Some(word) = words.next() else {
        return Ok(Meaning::Wrong);
    };
    let Some(equals) = words.next() else {
        return Ok(Meaning::Wrong);
    };
    let Some(number) = words.next() else {
        return Ok(Meaning::Wrong);
    };
    if words.next().is_some() || !is_text(equals.of(text), b"=") {
        return Ok(Meaning::Wrong);
    }
    given_to(alloc, names, word.of(text), number.of(text))
}

/// A name for the number that a word is.
fn given_to(alloc: Global, names: &Names, word: &[u8], number: &[u8]) -> Result<Meaning, NoMemory>
    ensures { IfOk result (λ m. m ≡ given_under names.now (name_of word.now) number.now) }
{
    let Some(name) = name(word) else {
        return Ok(Meaning::Wrong);
    };
    if windows_value(word).is_some() {
        return Ok(Meaning::Wrong);
    }
    match value_of(alloc, names, number)? {
        None => Ok(Meaning::Wrong),
        Some(value) => Ok(Meaning::Gives(Given { name, value })),
    }
}

/// The meaning of a line's words.
fn sentence(alloc: Global, names: &Names, text: &[u8]) -> Result<Meaning, NoMemory>
    requires { length text.now + 1 < 2 ^ 32 }
    ensures { IfOk result (λ m. m ≡ sentence names.now (words_of text.now)) }
{
    let mut words = Words::new(text);
    let Some(span) = words.next() else {
        return Ok(Meaning::Wrong);
    };
    let first = lowered(alloc, span.of(text))?;
    if is_text(first.as_slice(), b"let") {
        return let_of(alloc, names, text, &mut words);
    }
    match plain_of(
        alloc,
        names,
        keyword_for(first.as_slice()),
        text,
        &mut words,
    )? {
        None => Ok(Meaning::Wrong),
        Some(line) => Ok(said_in(line.as_slice())),
    }
}

/// The meaning of a line's words, of which there may be none.
fn phrase(alloc: Global, names: &Names, text: &[u8]) -> Result<Meaning, NoMemory>
    requires { length text.now + 1 < 2 ^ 32 }
    ensures { IfOk result (λ m. m ≡ phrase names.now text.now) }
{
    if text.is_empty() {
        return Ok(Meaning::Nothing);
    }
    sentence(alloc, names, text)
}

/// The most bytes of a line, as written and with one space between its words.
const MOST_LINE: usize = 65536;

/// The meaning of a line that is not plain.
fn meant_by(alloc: Global, names: &Names, line: &[u8]) -> Result<Meaning, NoMemory>
    ensures { IfOk result (λ m. m ≡ meant_by names.now (tidy_of line.now)) }
{
    let tidy = tidied(alloc, line)?;
    if tidy.last() == Last::Quote || tidy.text().len() > MOST_LINE {
        return Ok(Meaning::Wrong);
    }
    phrase(alloc, names, tidy.text())
}

/// What a line means.
#[tactic(auto, unfolding(crate::specs::Meaning::meant))]
fn meaning_of(alloc: Global, names: &Names, line: &[u8]) -> Result<Meaning, NoMemory>
    ensures { IfOk result (λ m. m ≡ meant names.now line.now) }
{
    if line.len() > MOST_LINE {
        return Ok(Meaning::Wrong);
    }
    match parse_line(line) {
        Ok(event) => Ok(Meaning::Says(event)),
        Err(_) => meant_by(alloc, names, without_return(line)),
    }
}

/// What a line means, without its line feed, where these names were given: a plain line what it
/// means to `mmsim`, another what its words stand for.
#[tactic(auto, using(crate::proofs::Formed::formed))]
pub fn meant(alloc: Global, names: &Names, line: &[u8]) -> Result<Meaning, NoMemory>
    ensures value { IfOk result (λ m. m ≡ meant names.now line.now) }
    ensures formed { IfOk result (λ m. FormedIn m) }
{
    meaning_of(alloc, names, line)
}
