use mm_text::{LineBuf, put_decimal, put_hex_short};
use mm_types::NoMemory;

/// A part of a sentence.
#[derive(Clone, Copy)]
pub(crate) enum Piece<'a> {
    Text(&'a [u8]),
    /// A word of a written file.
    Word(&'a [u8]),
    Number(u64),
    Hex(u32),
    /// The place of a word.
    Place(Option<u32>),
    /// The form of a line: its keyword, and the fields behind it.
    Usage(&'a [u8], &'a str),
}

/// A sentence: a form, with the pieces in the places of its `%`.
pub(crate) fn put_form(out: &mut Vec<u8>, form: &[u8], pieces: &[Piece]) -> Result<(), NoMemory> {
    let mut number = 0usize;
    for byte in form {
        if *byte == b'%' {
            put_piece(out, pieces.get(number))?;
            number = number.saturating_add(1);
        } else {
            out.push(*byte)?;
        }
    }
    Ok(())
}

/// A piece, where there is one.
fn put_piece(out: &mut Vec<u8>, piece: Option<&Piece>) -> Result<(), NoMemory> {
    match piece {
        Some(Piece::Text(text)) => put(out, text),
        Some(Piece::Word(word)) => put_word(out, word),
        Some(Piece::Number(n)) => put_number(out, *n),
        Some(Piece::Hex(n)) => put_hex(out, *n),
        Some(Piece::Place(column)) => put_place(out, *column),
        Some(Piece::Usage(keyword, fields)) => put_usage(out, keyword, fields.as_bytes()),
        None => Ok(()),
    }
}

/// A column, where there is one, and the mark before a reason.
fn put_place(out: &mut Vec<u8>, column: Option<u32>) -> Result<(), NoMemory> {
    if let Some(column) = column {
        put(out, b" column ")?;
        put_number(out, u64::from(column))?;
    }
    put(out, b": ")
}

/// The form of a line.
fn put_usage(out: &mut Vec<u8>, keyword: &[u8], fields: &[u8]) -> Result<(), NoMemory> {
    put(out, keyword)?;
    if fields.is_empty() {
        return Ok(());
    }
    put(out, b" ")?;
    put(out, fields)
}

/// A text at the end of another.
pub(crate) fn put(out: &mut Vec<u8>, text: &[u8]) -> Result<(), NoMemory> {
    out.extend_from_slice(text)?;
    Ok(())
}

/// The most bytes that are shown of a word.
const MOST_SHOWN: usize = 64;

/// A word of a written file, with `?` for each byte that a terminal may not show, up to a quote:
/// what stands there became digits that nobody wrote. A long word is cut.
fn put_word(out: &mut Vec<u8>, word: &[u8]) -> Result<(), NoMemory> {
    for (i, byte) in word.iter().enumerate() {
        if i >= MOST_SHOWN {
            return put(out, b"..");
        }
        match *byte {
            b'"' => return Ok(()),
            0x21..=0x7E => out.push(*byte)?,
            _ => out.push(b'?')?,
        }
    }
    Ok(())
}

/// A number in decimal.
#[tactic(auto, using(mm_text::proofs::Spelled::lengths))]
fn put_number(out: &mut Vec<u8>, n: u64) -> Result<(), NoMemory> {
    let mut digits = LineBuf::new();
    put_decimal(&mut digits, n);
    put(out, digits.as_slice())
}

/// A number in hexadecimal.
#[tactic(auto, using(mm_text::proofs::Spelled::lengths))]
fn put_hex(out: &mut Vec<u8>, n: u32) -> Result<(), NoMemory> {
    let mut digits = LineBuf::new();
    put_hex_short(&mut digits, n);
    put(out, digits.as_slice())
}
