ghost use Rattle.std.specs.Prelude.{◌≡◌, IfOk, option_map, if◌then◌else◌};
ghost use Rattle.mm_names.specs.Words.{lower, lowered, text_among, memory_calls, section_calls, keyword_for, verb_of, kind_at, next_number, verb_after};

use crate::texts::among;
use mm_script::is_text;
use mm_types::NoMemory;
use std::alloc::Global;

/// Which words behind a keyword are no numbers.
#[derive(Clone, Copy, PartialEq, Eq)]
pub enum Verb {
    File,
    Create,
    CreateFile,
    Open,
    Write,
    Begin,
    /// `begin`, once its fourth word was `write`.
    BeginWrite,
    Fail,
    Other,
}

/// What a word stands for.
#[derive(Clone, Copy, PartialEq, Eq)]
pub enum Kind {
    Number,
    Name,
    /// `read`, `write`, `paging` or `file`.
    Keyword,
    Bytes,
}

/// A letter in lower case, another byte as it is.
fn lower(byte: u8) -> u8
    ensures { result ≡ lower byte }
{
    match byte {
        b'A'..=b'Z' => byte + 0x20,
        _ => byte,
    }
}

/// A word in lower case.
pub fn lowered(alloc: Global, word: &[u8]) -> Result<Vec<u8>, NoMemory>
    ensures { IfOk result (λ w. w.items ≡ lowered word.now) }
{
    let low = word.iter().map(|byte| lower(*byte)).collect(alloc)?;
    Ok(low)
}

/// The keyword for one of Windows' calls on memory.
fn memory_call(word: &[u8]) -> Option<&'static [u8]>
    ensures { option_map (λ x. x.now) result ≡ text_among memory_calls word.now }
{
    among!(word,
        b"virtualalloc" => b"alloc",
        b"virtualallocex" => b"alloc",
        b"virtualfree" => b"free",
        b"virtualfreeex" => b"free",
        b"virtualprotect" => b"protect",
        b"virtualprotectex" => b"protect",
        b"virtualquery" => b"query",
        b"virtualqueryex" => b"query",
        b"getwritewatch" => b"watch",
        b"resetwritewatch" => b"resetwatch",
        b"exitprocess" => b"exit",
    )
}

/// The keyword for one of Windows' calls on sections.
fn section_call(word: &[u8]) -> Option<&'static [u8]>
    ensures { option_map (λ x. x.now) result ≡ text_among section_calls word.now }
{
    among!(word,
        b"createfilemapping" => b"create",
        b"createfilemappinga" => b"create",
        b"createfilemappingw" => b"create",
        b"openfilemapping" => b"open",
        b"openfilemappinga" => b"open",
        b"openfilemappingw" => b"open",
        b"closehandle" => b"close",
        b"mapviewoffile" => b"map",
        b"mapviewoffileex" => b"map",
        b"unmapviewoffile" => b"unmap",
        b"flushviewoffile" => b"flush",
    )
}

/// The keyword for a word in lower case: that of a call of Windows, or the word itself.
pub fn keyword_for(word: &[u8]) -> &[u8]
    ensures { result.now ≡ keyword_for word.now }
{
    match memory_call(word) {
        Some(keyword) => keyword,
        None => match section_call(word) {
            Some(keyword) => keyword,
            None => word,
        },
    }
}

/// Which words behind a keyword are no numbers.
pub fn verb_of(keyword: &[u8]) -> Verb
    ensures { result ≡ verb_of keyword.now }
{
    if is_text(keyword, b"file") {
        return Verb::File;
    }
    if is_text(keyword, b"create") {
        return Verb::Create;
    }
    if is_text(keyword, b"createfile") {
        return Verb::CreateFile;
    }
    if is_text(keyword, b"open") {
        return Verb::Open;
    }
    if is_text(keyword, b"write") {
        return Verb::Write;
    }
    if is_text(keyword, b"begin") {
        return Verb::Begin;
    }
    if is_text(keyword, b"fail") {
        return Verb::Fail;
    }
    Verb::Other
}

/// A name at this place, a number at others.
fn name_if(is_name: bool) -> Kind
    ensures { result ≡ (if is_name then Kind.Name else Kind.Number) }
{
    if is_name { Kind::Name } else { Kind::Number }
}

/// Bytes at this place, a number at others.
fn bytes_if(are_bytes: bool) -> Kind
    ensures { result ≡ (if are_bytes then Kind.Bytes else Kind.Number) }
{
    if are_bytes { Kind::Bytes } else { Kind::Number }
}

/// A keyword at this place, a number at others.
fn keyword_if(is_keyword: bool) -> Kind
    ensures { result ≡ (if is_keyword then Kind.Keyword else Kind.Number) }
{
    if is_keyword {
        Kind::Keyword
    } else {
        Kind::Number
    }
}

/// What the word of this number is, the keyword being the first.
pub fn kind_at(verb: Verb, number: u32) -> Kind
    ensures { result ≡ kind_at verb number }
{
    match verb {
        Verb::File => name_if(number == 2),
        Verb::Create => name_if(number == 5),
        Verb::CreateFile => name_if(number == 3 || number == 5),
        Verb::Open => name_if(number == 3),
        Verb::Write => bytes_if(number == 4),
        Verb::Begin => keyword_if(number == 4),
        Verb::BeginWrite => bytes_if(number == 6),
        Verb::Fail => keyword_if(number == 2 || number == 3),
        Verb::Other => Kind::Number,
    }
}

/// The number of the next word; from the seventh on it stays.
pub fn next_number(number: u32) -> u32
    ensures { result ≡ next_number number }
{
    if number < 7 { number + 1 } else { number }
}

/// A `begin` whose fourth word is `write` has bytes behind it.
fn begin_after(alloc: Global, number: u32, word: &[u8]) -> Result<Verb, NoMemory>
    ensures { IfOk result (λ v. v ≡ verb_after Verb.Begin number word.now) }
{
    if number != 4 {
        return Ok(Verb::Begin);
    }
    let low = lowered(alloc, word)?;
    if is_text(low.as_slice(), b"write") {
        return Ok(Verb::BeginWrite);
    }
    Ok(Verb::Begin)
}

/// Which words are no numbers, behind a word of this number.
pub fn verb_after(alloc: Global, verb: Verb, number: u32, word: &[u8]) -> Result<Verb, NoMemory>
    ensures { IfOk result (λ v. v ≡ verb_after verb number word.now) }
{
    match verb {
        Verb::Begin => begin_after(alloc, number, word),
        _ => Ok(verb),
    }
}
