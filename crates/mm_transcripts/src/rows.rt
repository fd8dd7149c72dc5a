#![tactic(auto, using(mm_sentences::proofs::Joined::joined))]

ghost use Rattle.std.specs.Prelude.{◌≡◌, ◌-◌, ◌≤◌, ◌++◌, OnOk, replicate, option_map, true};
ghost use Rattle.mm_replay.specs.Standing.{life as life_of};
ghost use Rattle.mm_transcripts.specs.{words_if, trimmed, printable, printed_byte, padded_column, answered_row, asked_row, said_text, names_text, line_row};
ghost use Rattle.mm_transcripts.specs.{class_sentence_row};

use crate::reasons::{Reason, put_reason};
use crate::remarks::put_remark;
use mm_move_classes::Class;
use mm_replay::Life;
use mm_sentences::{Facts, put_kind, put_number, put_sentence, put_words};
use mm_types::{LineKind, NoMemory};

/// A line without the spaces at its end.
#[tactic(auto, using(crate::proofs::Trimming::trimming))]
fn trimmed(line: &[u8]) -> &[u8]
    ensures { result.now ≡ trimmed line.now }
{
    let mut end = line.len();
    while end > 0 && line[end - 1] == b' ' {
        end -= 1;
    }
    &line[..end]
}

/// As many spaces as a line has columns.
static SPACES: [u8; 46] = [b' '; 46];

/// Writes so many spaces.
#[tactic(auto, using(crate::proofs::Trimming::spaces))]
fn put_spaces(count: usize, text: &mut Vec<u8>) -> Result<(), NoMemory>
    requires { count ≤ 46 }
    ensures { OnOk result (text.new.items ≡ text.old.items ++ replicate count 32) }
{
    text.extend_from_slice(&SPACES[..count])?;
    Ok(())
}

/// A byte of a file as a terminal shows it: a control byte, or one that is no ASCII, as `?`.
fn printed_byte(byte: u8) -> u8
    ensures { result ≡ printed_byte byte }
{
    if byte >= 32 && byte <= 126 {
        byte
    } else {
        b'?'
    }
}

/// Whether a terminal shows each byte as it is.
fn is_plain(bytes: &[u8]) -> bool
    ensures { result ≡ true → printable bytes.now ≡ bytes.now }
{
    for byte in bytes {
        if printed_byte(*byte) != *byte {
            return false;
        }
    }
    true
}

/// Writes bytes one by one as a terminal shows them.
fn put_replaced(bytes: &[u8], text: &mut Vec<u8>) -> Result<(), NoMemory>
    ensures { OnOk result (text.new.items ≡ text.old.items ++ printable bytes.now) }
{
    for byte in bytes {
        text.push(printed_byte(*byte))?;
    }
    Ok(())
}

/// Writes the bytes of a line or of an answer as a terminal shows them.
fn put_printed(bytes: &[u8], text: &mut Vec<u8>) -> Result<(), NoMemory>
    ensures { OnOk result (text.new.items ≡ text.old.items ++ printable bytes.now) }
{
    if !is_plain(bytes) {
        return put_replaced(bytes, text);
    }
    text.extend_from_slice(bytes)?;
    Ok(())
}

/// Writes a line, and spaces up to a width of 46.
fn put_padded(line: &[u8], text: &mut Vec<u8>) -> Result<(), NoMemory>
    ensures { OnOk result (text.new.items ≡ text.old.items ++ padded_column line.now) }
{
    put_printed(line, text)?;
    put_spaces(46usize.saturating_sub(line.len()), text)
}

/// Writes a line with its answer, if it has one.
fn put_answered(line: &[u8], said: &[u8], text: &mut Vec<u8>) -> Result<(), NoMemory>
    ensures { OnOk result (text.new.items ≡ text.old.items ++ answered_row line.now said.now) }
{
    if said.is_empty() {
        return put_printed(trimmed(line), text);
    }
    put_padded(line, text)?;
    put_words(b"  ", text)?;
    put_printed(said, text)
}

/// The answer without the spaces at its end; nothing where there is none.
fn said_text(said: Option<&[u8]>) -> &[u8]
    ensures { result.now ≡ said_text (option_map (λ s. s.now) said.entry) }
{
    match said {
        Some(said) => trimmed(said),
        None => b"",
    }
}

/// Writes the line of the script with its answer; where no script is named, what the line is to the
/// frames.
fn put_asked(
    kind: LineKind,
    line: Option<&[u8]>,
    said: Option<&[u8]>,
    text: &mut Vec<u8>,
) -> Result<(), NoMemory>
    ensures { OnOk result (text.new.items ≡ text.old.items
        ++ asked_row (option_map (λ s. s.now) line.entry) (option_map (λ s. s.now) said.entry)
        kind) }
{
    match line {
        Some(line) => put_answered(line, said_text(said), text),
        None => put_kind(kind, text),
    }
}

/// Writes Windows' names of the numbers of a line and of its answer.
fn put_names(line: Option<&[u8]>, said: Option<&[u8]>, text: &mut Vec<u8>) -> Result<(), NoMemory>
    ensures { OnOk result (text.new.items ≡ text.old.items
        ++ names_text (option_map (λ s. s.now) line.entry) (option_map (λ s. s.now) said.entry)) }
{
    match line {
        Some(line) => put_remark(line, said, text),
        None => Ok(()),
    }
}

/// Writes the row of a line.
pub(crate) fn put_line_row(
    number: u32,
    kind: LineKind,
    line: Option<&[u8]>,
    said: Option<&[u8]>,
    text: &mut Vec<u8>,
) -> Result<(), NoMemory>
    ensures { OnOk result (text.new.items ≡ text.old.items ++ line_row number kind
        (option_map (λ s. s.now) line.entry) (option_map (λ s. s.now) said.entry)) }
{
    put_number(u64::from(number), text)?;
    text.push(b' ')?;
    text.push(b' ')?;
    put_asked(kind, line, said, text)?;
    put_names(line, said, text)?;
    text.push(b'\n')?;
    Ok(())
}

/// Writes why a page left its working set, where that is known.
fn put_reason_if(class: Class, reason: &Option<Reason>, text: &mut Vec<u8>) -> Result<(), NoMemory>
    ensures { OnOk result (text.new.items ≡ text.old.items ++ words_if class reason.now) }
{
    match reason {
        Some(reason) => put_reason(class, reason, text),
        None => Ok(()),
    }
}

/// Writes the row of a move, if it is of a class; `after` is the state after it.
pub(crate) fn put_class_row(
    addressed: bool,
    class: Option<Class>,
    facts: &Facts,
    reason: &Option<Reason>,
    after: &Life,
    text: &mut Vec<u8>,
) -> Result<(), NoMemory>
    ensures { OnOk result (text.new.items ≡ text.old.items
        ++ class_sentence_row addressed class facts.now reason.now (life_of after.now)) }
{
    match class {
        Some(class) => {
            put_words(b"     ", text)?;
            put_sentence(class, facts, addressed, after, text)?;
            put_reason_if(class, reason, text)?;
            text.push(b'\n')?;
            Ok(())
        }
        None => Ok(()),
    }
}
