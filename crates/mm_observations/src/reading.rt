ghost use Rattle.std.specs.Prelude.{◌≡◌, MatchOption, length, Some, None, if◌then◌else◌, option_map};
ghost use Rattle.mm_observations.specs.{parse_row, seen_in, row_numbers, seen_charge, seen_region, TakesFirstNumber, HasNoNumber};

use crate::rows::{Row, Seen};
use mm_script::is_text;
use mm_text::{Words, number};
use mm_types::QueryInfo;

/// The most bytes of a row.
const LONGEST_ROW: usize = 256;

/// The next word as a number.
fn next_number(line: &[u8], words: &mut Words<'_>) -> Option<u32>
    requires { words.old.line ≡ line.now }
    ensures line { words.new.line ≡ words.old.line }
    ensures number { MatchOption result (HasNoNumber words.old.left)
        (λ n. TakesFirstNumber words.old.left n words.new.left) }
{
    match words.next() {
        Some(span) => number(span.of(line)),
        None => None,
    }
}

/// The numbers that the words are, if they are as many as there is room for.
#[tactic(auto, using(crate::proofs::Numbers::numbers))]
fn read_numbers(line: &[u8], words: &mut Words<'_>, numbers: &mut [u32]) -> bool
    requires { words.old.line ≡ line.now }
    ensures { row_numbers (length numbers.old) words.old.left
        ≡ (if result then Some numbers.new else None) }
{
    for i in 0..numbers.len() {
        match next_number(line, words) {
            Some(n) => numbers[i] = n,
            None => return false,
        }
    }
    match words.next() {
        None => true,
        Some(_) => false,
    }
}

/// The charge that the words behind `charge` are.
fn read_charge(line: &[u8], words: &mut Words<'_>) -> Option<Seen>
    requires { words.old.line ≡ line.now }
    ensures { result ≡ option_map seen_charge (row_numbers 2 words.old.left) }
{
    let mut numbers = [0; 2];
    if !read_numbers(line, words, &mut numbers) {
        return None;
    }
    let [charged, limit] = numbers;
    Some(Seen::Charge(charged, limit))
}

/// The region that the words behind `region` are.
fn read_region(line: &[u8], words: &mut Words<'_>) -> Option<Seen>
    requires { words.old.line ≡ line.now }
    ensures { result ≡ option_map seen_region (row_numbers 8 words.old.left) }
{
    let mut numbers = [0; 8];
    if !read_numbers(line, words, &mut numbers) {
        return None;
    }
    let [pid, base, size, state, kind, prot, alloc_base, alloc_prot] = numbers;
    Some(Seen::Region(
        pid,
        QueryInfo {
            base,
            alloc_base,
            alloc_prot,
            size,
            state,
            prot,
            kind,
        },
    ))
}

/// What the words behind this one are.
fn read_seen(word: &[u8], line: &[u8], words: &mut Words<'_>) -> Option<Seen>
    requires { words.old.line ≡ line.now }
    ensures { result ≡ seen_in word.now words.old.left }
{
    if is_text(word, b"charge") {
        read_charge(line, words)
    } else if is_text(word, b"region") {
        read_region(line, words)
    } else {
        None
    }
}

/// The row that a text is.
pub(crate) fn parse_row(text: &[u8]) -> Option<Row>
    ensures { result ≡ parse_row text.now }
{
    if text.len() > LONGEST_ROW {
        return None;
    }
    let mut words = Words::new(text);
    let Some(line) = words.next() else {
        return None;
    };
    let Some(word) = words.next() else {
        return None;
    };
    let seen = read_seen(word.of(text), text, &mut words);
    match (number(line.of(text)), seen) {
        (Some(line), Some(seen)) => Some(Row { line, seen }),
        _ => None,
    }
}
