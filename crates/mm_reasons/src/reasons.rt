ghost use Rattle.std.specs.Prelude.{◌≤◌, length};

use crate::lines::WordLine;
use crate::nearest::nearest_keyword;
use crate::numbers::{is_known, put_no_number};
use crate::texts::Piece::{Hex, Number, Place, Text, Usage, Word};
use crate::texts::{put, put_form};
use crate::usages::{field_at, fields_of, range_of};
use mm_names::{
    Kind, Last, Names, Verb, keyword_for, kind_at, lowered, next_number, plain_of, value_of,
    verb_after, verb_of, windows_value,
};
use mm_script::{is_text, parse_line};
use mm_text::{Words, name};
use mm_types::NoMemory;
use std::alloc::Global;

/// That the first word is no keyword.
fn put_no_keyword(
    out: &mut Vec<u8>,
    alloc: Global,
    line: &WordLine,
    word: &[u8],
) -> Result<(), NoMemory> {
    let place = Place(line.column_behind(0, 0));
    let first = Word(line.word(0));
    match nearest_keyword(alloc, word)? {
        Some(near) => put_form(
            out,
            b"%no such word '%'; is '%' meant?",
            &[place, first, Word(near)],
        ),
        None => put_form(out, b"%no such word '%'", &[place, first]),
    }
}

/// How a name is given.
fn put_let_form(out: &mut Vec<u8>) -> Result<(), NoMemory> {
    put(out, b": a name is given so: let NAME = NUMBER")
}

/// That a line does not keep its answer, or how a name is given.
fn put_assignment(out: &mut Vec<u8>, alloc: Global, line: &WordLine) -> Result<(), NoMemory> {
    let third = lowered(alloc, line.word(2))?;
    if fields_of(keyword_for(third.as_slice())).is_none() {
        return put_let_form(out);
    }
    put_form(
        out,
        b"%a line gives no name to its answer; write the call alone",
        &[Place(line.column_behind(0, 0))],
    )
}

/// What is wrong with a line that begins with `let`.
fn put_bad_let(
    out: &mut Vec<u8>,
    alloc: Global,
    names: &Names,
    line: &WordLine,
) -> Result<(), NoMemory> {
    if line.count() != 4 || !is_text(line.word(2), b"=") {
        return put_let_form(out);
    }
    let word = line.word(1);
    if name(word).is_none() {
        return put_bad_name(out, line, 1);
    }
    if windows_value(word).is_some() {
        return put_form(
            out,
            b"%% is a name of Windows",
            &[Place(line.column_behind(1, 0)), Word(word)],
        );
    }
    put_no_number(out, alloc, names, line, 3)
}

/// That a word is no name.
fn put_bad_name(out: &mut Vec<u8>, line: &WordLine, at: usize) -> Result<(), NoMemory> {
    put_form(
        out,
        b"%'%' is no name: a letter, and at most 31 letters, digits, '_', '.' or '-'",
        &[Place(line.column_behind(at, 0)), Word(line.word(at))],
    )
}

/// The number of a word; 0 where it has none.
fn number_at(alloc: Global, names: &Names, line: &WordLine, at: usize) -> Result<u32, NoMemory> {
    match value_of(alloc, names, line.word(at))? {
        Some(n) => Ok(n),
        None => Ok(0),
    }
}

/// That an access leaves its page.
fn put_leaves(out: &mut Vec<u8>, access: &[u8], address: u32, len: u64) -> Result<(), NoMemory> {
    put_form(
        out,
        b": a % of % bytes at % leaves its page",
        &[Text(access), Number(len), Hex(address)],
    )
}

/// That a machine has too few frames for its depth.
fn put_few_frames(
    out: &mut Vec<u8>,
    alloc: Global,
    names: &Names,
    line: &WordLine,
) -> Result<(), NoMemory> {
    let frames = number_at(alloc, names, line, 1)?;
    let depth = number_at(alloc, names, line, 3)?;
    put_form(
        out,
        b": frames % are fewer than 2 * depth + 4 = %",
        &[Number(u64::from(frames)), Number(2 * u64::from(depth) + 4)],
    )
}

/// That a working set has a maximum below its minimum.
fn put_few_pages(
    out: &mut Vec<u8>,
    alloc: Global,
    names: &Names,
    line: &WordLine,
) -> Result<(), NoMemory> {
    let min = number_at(alloc, names, line, 1)?;
    let max = number_at(alloc, names, line, 2)?;
    put_form(
        out,
        b": max % is less than min %",
        &[Number(u64::from(max)), Number(u64::from(min))],
    )
}

/// The digits of a word of bytes, with or without the mark of a quote.
fn bytes_in(word: &[u8]) -> u64 {
    let digits = match word {
        [b'"', digits @ ..] => digits.len(),
        _ => word.len(),
    };
    digits as u64 / 2
}

/// Which fields do not go together, each being good by itself.
fn put_joint(
    out: &mut Vec<u8>,
    alloc: Global,
    names: &Names,
    line: &WordLine,
    keyword: &[u8],
    is_write: bool,
) -> Result<(), NoMemory> {
    if is_text(keyword, b"machine") {
        return put_few_frames(out, alloc, names, line);
    }
    if is_text(keyword, b"process") {
        return put_few_pages(out, alloc, names, line);
    }
    let last = line.count().saturating_sub(1);
    let address = number_at(alloc, names, line, last.saturating_sub(1))?;
    if is_write {
        return put_leaves(out, b"write", address, bytes_in(line.word(last)));
    }
    let len = number_at(alloc, names, line, last)?;
    put_leaves(out, b"read", address, u64::from(len))
}

/// What is wrong with a field of numbers.
fn put_bad_range(
    out: &mut Vec<u8>,
    line: &WordLine,
    at: usize,
    field: &[u8],
    value: u32,
) -> Result<(), NoMemory> {
    let (least, most) = range_of(field);
    put_form(
        out,
        b"%% is %, and goes from % to %",
        &[
            Place(line.column_behind(at, 0)),
            Text(field),
            Number(u64::from(value)),
            Number(u64::from(least)),
            Number(u64::from(most)),
        ],
    )
}

/// Whether a number is in the range of its field.
fn is_in_range(field: &[u8], value: u32) -> bool {
    let (least, most) = range_of(field);
    least <= value && value <= most
}

/// Whether a word, with or without the mark of a quote, is bytes.
fn is_bytes(word: &[u8]) -> bool {
    let digits = match word {
        [b'"', digits @ ..] => digits,
        _ => word,
    };
    mm_text::bytes(digits).is_some()
}

/// The field of numbers that a field is, or may be.
fn number_field(field: &'static [u8]) -> &'static [u8] {
    if is_text(field, b"LENGTH|BYTES") {
        b"LENGTH"
    } else {
        field
    }
}

/// Whether the word of a field is good by itself.
fn is_good(
    alloc: Global,
    names: &Names,
    line: &WordLine,
    at: usize,
    field: &'static [u8],
    kind: Kind,
) -> Result<bool, NoMemory> {
    match kind {
        Kind::Name | Kind::Keyword => Ok(false),
        Kind::Bytes => Ok(is_bytes(line.word(at))),
        Kind::Number => {
            let value = number_at(alloc, names, line, at)?;
            Ok(is_in_range(number_field(field), value))
        }
    }
}

/// What is wrong with the word of a field.
fn put_bad_word(
    out: &mut Vec<u8>,
    alloc: Global,
    names: &Names,
    line: &WordLine,
    at: usize,
    field: &'static [u8],
    kind: Kind,
) -> Result<(), NoMemory> {
    match kind {
        Kind::Name => put_bad_name(out, line, at),
        Kind::Keyword => put_no_choice(out, line, at, field),
        Kind::Bytes => put_bad_bytes(out, line, at),
        Kind::Number => {
            let value = number_at(alloc, names, line, at)?;
            put_bad_range(out, line, at, number_field(field), value)
        }
    }
}

/// That a word is none of those that a field may be.
fn put_no_choice(
    out: &mut Vec<u8>,
    line: &WordLine,
    at: usize,
    field: &'static [u8],
) -> Result<(), NoMemory> {
    put_form(
        out,
        b"%'%' is none of %",
        &[
            Place(line.column_behind(at, 0)),
            Word(line.word(at)),
            Text(field),
        ],
    )
}

/// That a word is no bytes.
fn put_bad_bytes(out: &mut Vec<u8>, line: &WordLine, at: usize) -> Result<(), NoMemory> {
    put_form(
        out,
        b"%bytes are 1 to 64 pairs of hexadecimal digits, or text in quotes",
        &[Place(line.column_behind(at, 0))],
    )
}

/// What is wrong with the fields behind a keyword, each of which has the form of its kind; the
/// first bad word has this number, counted from 0.
fn put_bad_field(
    out: &mut Vec<u8>,
    alloc: Global,
    names: &Names,
    line: &WordLine,
    keyword: &[u8],
    fields: &'static str,
    at: usize,
) -> Result<(), NoMemory> {
    let usage = Usage(keyword, fields);
    let Some(field) = field_at(fields, at.saturating_sub(1)) else {
        return put_form(
            out,
            b"%a word too many: %",
            &[Place(line.column_behind(at, 0)), usage],
        );
    };
    if at >= line.count() {
        return put_form(out, b": a word is missing: %", &[usage]);
    }
    put_bad_place(out, alloc, names, line, keyword, at, field)
}

/// What is wrong with the word of a field, or with it and others.
fn put_bad_place(
    out: &mut Vec<u8>,
    alloc: Global,
    names: &Names,
    line: &WordLine,
    keyword: &[u8],
    at: usize,
    field: &'static [u8],
) -> Result<(), NoMemory> {
    let verb = verb_at(alloc, line, keyword, at)?;
    let number = if at < 6 { at as u32 + 1 } else { 7 };
    let kind = kind_at(verb, number);
    if is_good(alloc, names, line, at, field, kind)? {
        return put_joint(out, alloc, names, line, keyword, is_write(verb));
    }
    put_bad_word(out, alloc, names, line, at, field, kind)
}

/// Whether a line writes bytes.
fn is_write(verb: Verb) -> bool {
    verb == Verb::BeginWrite || verb == Verb::Write
}

/// Which words are no numbers, at a word of this number, counted from 0.
fn verb_at(alloc: Global, line: &WordLine, keyword: &[u8], at: usize) -> Result<Verb, NoMemory> {
    let mut verb = verb_of(keyword);
    let mut number = 2u32;
    for i in 1..at {
        verb = verb_after(alloc, verb, number, line.word(i))?;
        number = next_number(number);
    }
    Ok(verb)
}

/// The first number behind a keyword that has no value.
fn bad_number(
    alloc: Global,
    names: &Names,
    line: &WordLine,
    keyword: &[u8],
) -> Result<Option<usize>, NoMemory> {
    let mut verb = verb_of(keyword);
    let mut number = 2u32;
    for at in 1..line.count() {
        if kind_at(verb, number) == Kind::Number
            && value_of(alloc, names, line.word(at))?.is_none()
        {
            return Ok(Some(at));
        }
        verb = verb_after(alloc, verb, number, line.word(at))?;
        number = next_number(number);
    }
    Ok(None)
}

/// The plain line of a line whose numbers have values.
fn plain_line(
    alloc: Global,
    names: &Names,
    line: &WordLine,
    keyword: &[u8],
) -> Result<Option<Vec<u8>>, NoMemory> {
    let text = line.tidy().text();
    if text.len() > 65536 {
        return Ok(None);
    }
    let mut words = Words::new(text);
    if words.next().is_none() {
        return Ok(None);
    }
    plain_of(alloc, names, keyword, text, &mut words)
}

/// The first bad word of a plain line, counted from 0.
fn bad_word(line: &[u8]) -> Option<usize>
    requires { length line.now ≤ 256 }
{
    match parse_line(line) {
        Ok(_) => None,
        Err(fault) => Some(fault.word.saturating_sub(1) as usize),
    }
}

/// Whether the size of a section is the name of a file.
fn is_file_name(keyword: &[u8], word: &[u8]) -> bool {
    is_text(keyword, b"create") && name(word).is_some() && !is_known(word)
}

/// What is wrong with the words behind a keyword.
fn put_bad_fields(
    out: &mut Vec<u8>,
    alloc: Global,
    names: &Names,
    line: &WordLine,
    keyword: &[u8],
    fields: &'static str,
) -> Result<(), NoMemory> {
    if let Some(at) = bad_number(alloc, names, line, keyword)? {
        if at == 2 && is_file_name(keyword, line.word(at)) {
            return put_form(
                out,
                b"%a section of a file is written: createfile PID NAME FLAGS NAME|-",
                &[Place(line.column_behind(at, 0))],
            );
        }
        return put_no_number(out, alloc, names, line, at);
    }
    let plain = match plain_line(alloc, names, line, keyword)? {
        Some(plain) => plain,
        None => Vec::new(alloc),
    };
    if plain.len() > 256 {
        return put(out, b": a line of a script has at most 256 bytes");
    }
    match bad_word(plain.as_slice()) {
        None => put(out, b": no line of a script"),
        Some(at) => put_bad_field(out, alloc, names, line, keyword, fields, at),
    }
}

/// Whether the first word of a line is `machine`, or near to it.
pub(crate) fn is_near_machine(alloc: Global, line: &[u8]) -> Result<bool, NoMemory> {
    let words = WordLine::new(alloc, line)?;
    let first = lowered(alloc, words.word(0))?;
    match nearest_keyword(alloc, first.as_slice())? {
        Some(near) => Ok(is_text(near, b"machine")),
        None => Ok(false),
    }
}

/// Why a line means nothing: ` column N: REASON` or `: REASON`.
pub(crate) fn put_reason(
    out: &mut Vec<u8>,
    alloc: Global,
    names: &Names,
    line: &[u8],
) -> Result<(), NoMemory> {
    let words = WordLine::new(alloc, line)?;
    put_line_reason(out, alloc, names, line.len(), &words)
}

/// The same, of the words of a line of this many bytes.
fn put_line_reason(
    out: &mut Vec<u8>,
    alloc: Global,
    names: &Names,
    len: usize,
    line: &WordLine,
) -> Result<(), NoMemory> {
    if line.tidy().last() == Last::Quote {
        return put(out, b": a quote is not closed");
    }
    if line.tidy().text().len() > 65536 || len > 65536 {
        return put(out, b": a line has at most 65536 bytes");
    }
    let first = lowered(alloc, line.word(0))?;
    put_bad_line(out, alloc, names, line, first.as_slice())
}

/// What is wrong with a line of which this is the first word, in lower case.
fn put_bad_line(
    out: &mut Vec<u8>,
    alloc: Global,
    names: &Names,
    line: &WordLine,
    first: &[u8],
) -> Result<(), NoMemory> {
    if is_text(first, b"let") {
        return put_bad_let(out, alloc, names, line);
    }
    if is_text(line.word(1), b"=") {
        return put_assignment(out, alloc, line);
    }
    let keyword = keyword_for(first);
    match fields_of(keyword) {
        None => put_no_keyword(out, alloc, line, first),
        Some(fields) => put_bad_fields(out, alloc, names, line, keyword, fields),
    }
}
