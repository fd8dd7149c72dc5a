ghost use Rattle.std.specs.Prelude.{◌≡◌, ◌+◌, ◌*◌, ◌<◌, ◌∷◌, ◌++◌, [], drop, OnOk, true};
ghost use Rattle.std.specs.List.{list_all};
ghost use Rattle.mm_types.specs.{Text};
ghost use Rattle.mm_log_walk.specs.{is_hex_digit, shown_line};
ghost use Rattle.mm_replay.specs.{is_digit};
ghost use Rattle.mm_reports.specs.{before, after_byte};
ghost use Rattle.mm_show.specs.{digit_value, pair_text, digits_text, are_digits, are_divided, is_access, letter_of, access_row, is_capital};
ghost use Rattle.mm_show.specs.{plain_row, script_row, script_rows, script_file, told_row, answer_row, answer_rows, answers_file, is_shown};

use mm_log_walk::{Lines, put_line};
use mm_reports::before;
use mm_script::is_text;
use mm_types::NoMemory;

#[inline(always)]
fn is_digit(byte: u8) -> bool
    ensures { result ≡ is_digit byte }
{
    byte >= b'0' && byte <= b'9'
}

#[inline(always)]
fn is_hex_digit(byte: u8) -> bool
    ensures { result ≡ is_hex_digit byte }
{
    is_digit(byte) || (byte >= b'A' && byte <= b'F')
}

#[inline(always)]
fn digit_value(byte: u8) -> u8
    ensures value { result ≡ digit_value byte }
    ensures few { result < 16 }
{
    if byte < b'0' {
        0
    } else if byte < 58 {
        byte - b'0'
    } else if byte < b'A' {
        0
    } else if byte < 71 {
        byte - 55
    } else {
        0
    }
}

#[inline(always)]
fn put_byte(byte: u8, text: &mut Vec<u8>) -> Result<(), NoMemory>
    ensures { OnOk result (text.new.items ≡ text.old.items ++ byte ∷ []) }
{
    text.push(byte)?;
    Ok(())
}

/// Writes a number in two bytes.
#[inline(always)]
fn put_pair(n: u32, text: &mut Vec<u8>) -> Result<(), NoMemory>
    requires { n < 4356 }
    ensures { OnOk result (text.new.items ≡ text.old.items ++ pair_text n) }
{
    text.push(61 + (n / 66) as u8)?;
    text.push(61 + (n % 66) as u8)?;
    Ok(())
}

#[inline(always)]
fn put_two(a: u8, b: u8, text: &mut Vec<u8>) -> Result<(), NoMemory>
    ensures { OnOk result (text.new.items ≡ text.old.items
        ++ pair_text (4096 + 16 * digit_value a + digit_value b)) }
{
    let high = u32::from(digit_value(a));
    let low = u32::from(digit_value(b));
    put_pair(4096 + 16 * high + low, text)
}

#[inline(always)]
fn put_three(a: u8, b: u8, c: u8, text: &mut Vec<u8>) -> Result<(), NoMemory>
    ensures { OnOk result (text.new.items ≡ text.old.items
        ++ pair_text (256 * digit_value a + 16 * digit_value b + digit_value c)) }
{
    let high = u32::from(digit_value(a));
    let middle = u32::from(digit_value(b));
    let low = u32::from(digit_value(c));
    put_pair(256 * high + 16 * middle + low, text)
}

/// Writes digits, three in two bytes, and how many are left behind them.
#[tactic(auto, using(mm_text::proofs::DigitCounts::joined))]
fn put_digits(digits: &[u8], text: &mut Vec<u8>) -> Result<(), NoMemory>
    ensures { OnOk result (text.new.items ≡ text.old.items ++ digits_text digits.now) }
{
    match digits {
        [a, b, c, rest @ ..] => {
            put_three(*a, *b, *c, text)?;
            put_digits(rest, text)
        }
        [a, b] => put_two(*a, *b, text),
        [a] => put_byte(39 + digit_value(*a), text),
        [] => put_byte(b'!', text),
    }
}

fn are_hex_digits(bytes: &[u8]) -> bool
    ensures { result ≡ list_all is_hex_digit bytes.now }
{
    bytes.iter().all(|byte| is_hex_digit(*byte))
}

/// Whether these are digits, and so few that writing them ends soon.
fn are_digits(bytes: &[u8]) -> bool
    ensures { result ≡ are_digits bytes.now }
{
    bytes.len() <= 256 && are_hex_digits(bytes)
}

fn are_divided(bytes: &[u8]) -> bool
    ensures { result ≡ are_divided bytes.now }
{
    let front = before(b' ', bytes);
    front.len() < bytes.len() && are_digits(front) && are_digits(behind(front.len(), bytes))
}

/// What stands behind a byte at this place.
#[inline(always)]
#[tactic(auto, using(crate::proofs::Rowed::nothing_behind))]
fn behind(place: usize, bytes: &[u8]) -> &[u8]
    ensures { result.now ≡ drop (place + 1) bytes.now }
{
    if place < bytes.len() {
        &bytes[place + 1..]
    } else {
        &[]
    }
}

/// Whether this stands behind the word of an access that is written in few bytes.
fn is_access(rest: &[u8]) -> bool
    ensures { result ≡ is_access rest.now }
{
    match rest {
        [pid, space, zero, x, digits @ ..] => {
            is_digit(*pid) && *space == b' ' && *zero == b'0' && *x == b'x' && are_divided(digits)
        }
        _ => false,
    }
}

#[inline(always)]
fn letter_of(is_write: bool, pid: u8) -> u8
    ensures { result ≡ letter_of is_write pid }
{
    let first = if is_write { b'K' } else { b'A' };
    first + digit_value(pid)
}

/// Writes the digits in front of a space, and those behind it.
#[tactic(auto, using(mm_text::proofs::DigitCounts::joined))]
fn put_divided(digits: &[u8], text: &mut Vec<u8>) -> Result<(), NoMemory>
    ensures { OnOk result (text.new.items ≡ text.old.items
        ++ (digits_text (before 32 digits.now) ++ digits_text (after_byte 32 digits.now))) }
{
    let front = before(b' ', digits);
    put_digits(front, text)?;
    put_digits(behind(front.len(), digits), text)
}

/// Writes an access: a letter for its word and its process, the address, and what is behind it.
#[tactic(auto, using(mm_text::proofs::DigitCounts::joined))]
fn put_access(is_write: bool, rest: &[u8], text: &mut Vec<u8>) -> Result<(), NoMemory>
    ensures { OnOk result (text.new.items ≡ text.old.items ++ access_row is_write rest.now) }
{
    match rest {
        [pid, _, _, _, digits @ ..] => {
            text.push(letter_of(is_write, *pid))?;
            put_divided(digits, text)
        }
        _ => Ok(()),
    }
}

fn is_capital(line: &[u8]) -> bool
    ensures { result ≡ is_capital line.now }
{
    match line {
        [first, ..] => *first >= b'A' && *first <= b'T',
        [] => false,
    }
}

/// Writes a line behind a tab.
#[tactic(auto, using(mm_text::proofs::DigitCounts::joined))]
fn put_behind_tab(line: &[u8], text: &mut Vec<u8>) -> Result<(), NoMemory>
    ensures { OnOk result (text.new.items ≡ text.old.items ++ 9 ∷ shown_line line.now) }
{
    text.push(b'\t')?;
    put_line(line, text)
}

fn put_plain_row(line: &[u8], text: &mut Vec<u8>) -> Result<(), NoMemory>
    ensures { OnOk result (text.new.items ≡ text.old.items ++ plain_row line.now) }
{
    if is_capital(line) {
        put_behind_tab(line, text)
    } else {
        put_line(line, text)
    }
}

fn put_script_row(line: &[u8], text: &mut Vec<u8>) -> Result<(), NoMemory>
    ensures { OnOk result (text.new.items ≡ text.old.items ++ script_row line.now) }
{
    let word = before(b' ', line);
    let rest = behind(word.len(), line);
    if is_text(word, b"read") && is_access(rest) {
        put_access(false, rest, text)
    } else if is_text(word, b"write") && is_access(rest) {
        put_access(true, rest, text)
    } else {
        put_plain_row(line, text)
    }
}

#[tactic(auto, using(crate::proofs::Rowed::rowed))]
fn put_script_rows(lines: &Lines, text: &mut Vec<u8>) -> Result<(), NoMemory>
    ensures { OnOk result (text.new.items ≡ text.old.items ++ script_rows lines.now) }
{
    for i in 0..lines.len() {
        let Some(line) = lines.get(i) else {
            return Ok(());
        };
        put_script_row(line, text)?;
    }
    Ok(())
}

/// Writes the lines of a script, if it is named.
pub(crate) fn put_script_file(script: &Option<Lines>, text: &mut Vec<u8>) -> Result<(), NoMemory>
    ensures { OnOk result (text.new.items ≡ text.old.items ++ script_file script.now) }
{
    match script {
        Some(lines) => put_script_rows(lines, text),
        None => Ok(()),
    }
}

/// Writes what stands behind `ok `.
#[tactic(auto, using(mm_text::proofs::DigitCounts::joined))]
fn put_told(told: &[u8], text: &mut Vec<u8>) -> Result<(), NoMemory>
    ensures { OnOk result (text.new.items ≡ text.old.items ++ told_row told.now) }
{
    if are_digits(told) {
        put_digits(told, text)
    } else {
        text.push(b' ')?;
        put_line(told, text)
    }
}

fn put_answer_row(answer: &[u8], text: &mut Vec<u8>) -> Result<(), NoMemory>
    ensures { OnOk result (text.new.items ≡ text.old.items ++ answer_row answer.now) }
{
    match answer {
        [b'o', b'k'] => put_byte(b'\n', text),
        [b'o', b'k', b' ', told @ ..] => put_told(told, text),
        _ => put_behind_tab(answer, text),
    }
}

#[tactic(auto, using(crate::proofs::Rowed::rowed))]
fn put_answer_rows(answers: &Lines, text: &mut Vec<u8>) -> Result<(), NoMemory>
    ensures { OnOk result (text.new.items ≡ text.old.items ++ answer_rows answers.now) }
{
    for i in 0..answers.len() {
        let Some(answer) = answers.get(i) else {
            return Ok(());
        };
        put_answer_row(answer, text)?;
    }
    Ok(())
}

/// Writes the answers, if they are named.
pub(crate) fn put_answers_file(answers: &Option<Lines>, text: &mut Vec<u8>) -> Result<(), NoMemory>
    ensures { OnOk result (text.new.items ≡ text.old.items ++ answers_file answers.now) }
{
    match answers {
        Some(answers) => put_answer_rows(answers, text),
        None => Ok(()),
    }
}

/// From the rows of a script and of its answers the lines can be read again, whatever stands behind
/// a row: of those that have at most 256 bytes, each of which stands for itself.
pub fn rows_are_read_again()
    ensures script { (a b x y : Text) → is_shown a ≡ true → is_shown b ≡ true
        → script_row a ++ x ≡ script_row b ++ y → (a ≡ b) × (x ≡ y) }
    ensures answers { (a b x y : Text) → is_shown a ≡ true → is_shown b ≡ true
        → answer_row a ++ x ≡ answer_row b ++ y → (a ≡ b) × (x ≡ y) }
{}
