//! Why a word is no number.
use crate::lines::WordLine;
use crate::nearest::{nearest_given_name, nearest_windows_name};
use crate::texts::Piece::{self, Place, Text, Word};
use crate::texts::put_form;
use crate::usages::is_left_out;
use mm_names::{Names, value_of};
use mm_script::is_text;
use mm_types::NoMemory;
use std::alloc::Global;

/// Where a factor of a number begins and ends.
#[derive(Clone, Copy)]
struct Factor {
    from: usize,
    to: usize,
}

/// Whether a byte joins factors or terms.
fn is_operator(byte: u8) -> bool {
    byte == b'+' || byte == b'|' || byte == b'*' || byte == b'<'
}

/// The place behind a `-` that takes a term away.
fn behind_minus(word: &[u8], from: usize) -> usize {
    match word.get(from) {
        Some(b'-') => {
            if from > 0 {
                from.saturating_add(1)
            } else {
                from
            }
        }
        _ => from,
    }
}

/// A part of a word.
fn part(word: &[u8], factor: Factor) -> &[u8] {
    match word.get(factor.from..factor.to) {
        Some(part) => part,
        None => b"",
    }
}

/// Whether a factor has no value.
fn is_bad(alloc: Global, names: &Names, word: &[u8], factor: Factor) -> Result<bool, NoMemory> {
    let value = value_of(alloc, names, part(word, factor))?;
    Ok(value.is_none())
}

/// The first factor of a number that has no value; none where each has one.
fn bad_factor(alloc: Global, names: &Names, word: &[u8]) -> Result<Option<Factor>, NoMemory> {
    let mut from = 0usize;
    let mut skips = false;
    for (i, byte) in word.iter().enumerate() {
        let second = *byte == b'<' && skips;
        skips = *byte == b'<' && !second;
        if is_operator(*byte) && !second {
            let factor = Factor { from, to: i };
            if is_bad(alloc, names, word, factor)? {
                return Ok(Some(factor));
            }
        }
        if is_operator(*byte) {
            from = behind_minus(word, i.saturating_add(1));
        }
    }
    let last = Factor {
        from,
        to: word.len(),
    };
    if is_bad(alloc, names, word, last)? {
        return Ok(Some(last));
    }
    Ok(None)
}

/// Whether a word stood in quotes.
fn is_quoted(word: &[u8]) -> bool {
    match word {
        [first, ..] => *first == b'"',
        [] => false,
    }
}

/// Whether a word begins as a number does.
fn begins_as_number(word: &[u8]) -> bool {
    match word {
        [first, ..] => first.is_ascii_digit(),
        [] => false,
    }
}

/// Whether a word is hexadecimal digits.
fn is_hexadecimal(word: &[u8]) -> bool {
    for byte in word {
        if !byte.is_ascii_hexdigit() {
            return false;
        }
    }
    !word.is_empty()
}

/// Whether a word is decimal digits.
fn is_decimal(word: &[u8]) -> bool {
    for byte in word {
        if !byte.is_ascii_digit() {
            return false;
        }
    }
    !word.is_empty()
}

/// The hexadecimal digits of a word that has no `0x` before them, perhaps with `h` behind them.
fn bare_digits(word: &[u8]) -> Option<&[u8]> {
    let digits = match word {
        [digits @ .., b'h' | b'H'] => digits,
        _ => word,
    };
    if !is_hexadecimal(digits) || is_decimal(word) || digits.len() > 8 {
        return None;
    }
    Some(digits)
}

/// That a word is no number.
pub(crate) fn put_no_number(
    out: &mut Vec<u8>,
    alloc: Global,
    names: &Names,
    line: &WordLine,
    at: usize,
) -> Result<(), NoMemory> {
    let word = line.word(at);
    match bad_factor(alloc, names, word)? {
        Some(factor) => {
            let bad = part(word, factor);
            let place = Place(line.column_behind(at, factor.from));
            if bad.is_empty() {
                return put_form(
                    out,
                    b"%a number stands on each side of an operator",
                    &[Place(line.column_behind(at, 0))],
                );
            }
            put_no_value(out, alloc, names, place, bad)
        }
        None => put_not_joined(out, Place(line.column_behind(at, 0)), word),
    }
}

/// That the parts of a number do not go together.
fn put_not_joined(out: &mut Vec<u8>, place: Piece, word: &[u8]) -> Result<(), NoMemory> {
    for byte in word {
        if *byte == b'<' {
            return put_form(
                out,
                b"%a shift is written A<<B, and goes with '|' alone",
                &[place],
            );
        }
    }
    put_form(out, b"%this number is not from 0 to 4294967295", &[place])
}

/// Whether a word is a name of no number that a program's author may write for one.
pub(crate) fn is_known(word: &[u8]) -> bool {
    is_text(word, b"NULL") || is_text(word, b"INVALID_HANDLE_VALUE") || is_left_out(word)
}

/// Why a word that a program's author may write has no value here, if it is one.
fn put_known(out: &mut Vec<u8>, place: Piece, word: &[u8]) -> Result<bool, NoMemory> {
    if is_text(word, b"NULL") || is_text(word, b"nullptr") {
        put_form(
            out,
            b"%NULL is written 0; a call's first argument is the process",
            &[place],
        )?;
        return Ok(true);
    }
    if is_text(word, b"INVALID_HANDLE_VALUE") {
        put_form(
            out,
            b"%INVALID_HANDLE_VALUE is left out: this call makes a section of the paging file",
            &[place],
        )?;
        return Ok(true);
    }
    if is_left_out(word) {
        put_form(
            out,
            b"%% is left out of this profile: docs/PROFILE.md, first page",
            &[place, Word(word)],
        )?;
        return Ok(true);
    }
    put_marked(out, place, word)
}

/// Why a word with a mark in front has no value, if it has one.
fn put_marked(out: &mut Vec<u8>, place: Piece, word: &[u8]) -> Result<bool, NoMemory> {
    match word {
        [b'&', ..] => {
            put_form(
                out,
                b"%% is left out: what a call gives back stands in its answer",
                &[place, Word(word)],
            )?;
            Ok(true)
        }
        [b'-', ..] => {
            put_form(
                out,
                b"%% is no number: none is negative, and a difference is written A - B",
                &[place, Word(word)],
            )?;
            Ok(true)
        }
        _ => Ok(false),
    }
}

/// Whether a word has this byte.
fn has_byte(word: &[u8], wanted: u8) -> bool {
    for byte in word {
        if *byte == wanted {
            return true;
        }
    }
    false
}

/// Why digits have no value.
fn put_bad_digits(out: &mut Vec<u8>, place: Piece, word: &[u8]) -> Result<(), NoMemory> {
    if has_byte(word, b'-') {
        return put_form(
            out,
            b"%% is no number: a difference is written A - B, with blanks round the '-'",
            &[place, Word(word)],
        );
    }
    match bare_digits(word) {
        Some(digits) => put_form(
            out,
            b"%% is no number; is 0x% meant?",
            &[place, Word(word), Word(digits)],
        ),
        None => put_form(
            out,
            b"%% is no number below 4294967296",
            &[place, Word(word)],
        ),
    }
}

/// That a word at a place has no value.
fn put_no_value(
    out: &mut Vec<u8>,
    alloc: Global,
    names: &Names,
    place: Piece,
    word: &[u8],
) -> Result<(), NoMemory> {
    let said = Word(word);
    if is_quoted(word) {
        return put_form(out, b"%a number is wanted, and here is text", &[place]);
    }
    if has_byte(word, b'"') {
        return put_form(
            out,
            b"%a blank is missing before the text in quotes",
            &[place],
        );
    }
    if put_known(out, place, word)? {
        return Ok(());
    }
    if begins_as_number(word) {
        return put_bad_digits(out, place, word);
    }
    if let Some(near) = nearest_windows_name(alloc, word)? {
        return put_form(out, b"%% is no name; %?", &[place, said, Word(near)]);
    }
    match nearest_given_name(alloc, names, word)? {
        Some(near) => {
            let near = Text(near.as_slice());
            put_form(out, b"%% is no name; %?", &[place, said, near])
        }
        None => put_form(out, b"%% is no name", &[place, said]),
    }
}
