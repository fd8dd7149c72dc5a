ghost use Rattle.std.specs.Prelude.{◌≡◌, false, option_map, true};
ghost use Rattle.mm_log_walk.specs.{all_can, can_answer, fitting_answers, other_answers, ten, is_hex_digit, is_list_byte, stands_for};
ghost use Rattle.mm_replay.specs.{is_digit};
ghost use Rattle.mm_log_walk.specs.{is_run, behind_run, behind_byte, fits_form, has_number, has_address, has_two_numbers, long_form, ok_form};
ghost use Rattle.mm_log_walk.specs.{is_done, is_error, is_own_word, is_raise, is_wait, may_raise, may_find_nothing, may_be_busy, may_be_full};
ghost use Rattle.mm_log_walk.specs.{may_fault, is_refused, is_left};

use crate::words::{is_access_word, is_thread_word};
use mm_script::is_text;

fn is_digit(byte: u8) -> bool
    ensures { result ≡ is_digit byte }
{
    byte >= b'0' && byte <= b'9'
}

fn is_hex_digit(byte: u8) -> bool
    ensures { result ≡ is_hex_digit byte }
{
    is_digit(byte) || (byte >= b'A' && byte <= b'F')
}

/// A byte of a list of addresses.
fn is_list_byte(byte: u8) -> bool
    ensures { result ≡ is_list_byte byte }
{
    is_hex_digit(byte) || byte == b' ' || byte == b'x'
}

/// Whether a byte of a form stands for a byte of a text: `H` and `*` for a hexadecimal digit, `#`
/// for a decimal one, `~` for a byte of a list, any other for itself.
fn stands_for(form: u8, byte: u8) -> bool
    ensures { result ≡ stands_for form byte }
{
    if form == b'#' {
        is_digit(byte)
    } else if form == b'H' || form == b'*' {
        is_hex_digit(byte)
    } else if form == b'~' {
        is_list_byte(byte)
    } else {
        form == byte
    }
}

/// Whether a byte of a form stands for as many bytes as there are.
fn is_run(form: u8) -> bool
    ensures { result ≡ is_run form }
{
    form == b'#' || form == b'*' || form == b'~'
}

/// What is behind the bytes in front that this byte of a form stands for.
fn behind_run(form: u8, text: &[u8]) -> &[u8]
    ensures { result.now ≡ behind_run form text.now }
{
    let mut left = text;
    while let [byte, rest @ ..] = left {
        if !stands_for(form, *byte) {
            return left;
        }
        left = rest;
    }
    left
}

/// What is behind that for which a byte of a form stands; none where the text does not begin so.
fn behind_byte(form: u8, text: &[u8]) -> Option<&[u8]>
    ensures { option_map (λ t. t.now) result ≡ behind_byte form text.now }
{
    match text {
        [byte, rest @ ..] => {
            if !stands_for(form, *byte) {
                return None;
            }
            if is_run(form) {
                Some(behind_run(form, rest))
            } else {
                Some(rest)
            }
        }
        _ => None,
    }
}

/// Whether a text is of a form.
fn fits_form(form: &[u8], text: &[u8]) -> bool
    ensures { result ≡ fits_form form.now text.now }
{
    let mut left = form;
    let mut rest = text;
    while let [byte, more @ ..] = left {
        match behind_byte(*byte, rest) {
            Some(behind) => rest = behind,
            None => return false,
        }
        left = more;
    }
    rest.is_empty()
}

fn has_number(word: &[u8]) -> bool
    ensures { result ≡ has_number word.now }
{
    is_text(word, b"machine")
        || is_text(word, b"process")
        || is_text(word, b"grow")
        || is_text(word, b"open")
}

fn has_address(word: &[u8]) -> bool
    ensures { result ≡ has_address word.now }
{
    is_text(word, b"alloc")
        || is_text(word, b"map")
        || is_text(word, b"probe")
        || is_text(word, b"protect")
}

fn has_two_numbers(word: &[u8]) -> bool
    ensures { result ≡ has_two_numbers word.now }
{
    is_text(word, b"create") || is_text(word, b"createfile") || is_text(word, b"charge")
}

/// The form of an answer that has more, or nothing, behind its `ok`.
fn long_form(word: &[u8]) -> &'static [u8]
    ensures { result.now ≡ long_form word.now }
{
    if is_text(word, b"query") {
        b"ok 0xHHHHHHHH 0xHHHHHHHH 0xHHHHHHHH 0xHHHHHHHH 0xHHHHHHHH 0xHHHHHHHH 0xHHHHHHHH"
    } else if is_text(word, b"counts") {
        b"ok # # # # # # # #"
    } else if is_text(word, b"stack") {
        b"ok 0xHHHHHHHH 0xHHHHHHHH 0xHHHHHHHH"
    } else if is_text(word, b"read") {
        b"ok *"
    } else if is_text(word, b"watch") {
        b"ok # ~"
    } else {
        b"ok"
    }
}

/// The form of the answer to a line that is done.
fn ok_form(word: &[u8]) -> &'static [u8]
    ensures { result.now ≡ ok_form word.now }
{
    if has_number(word) {
        b"ok #"
    } else if has_address(word) {
        b"ok 0xHHHHHHHH"
    } else if has_two_numbers(word) {
        b"ok # #"
    } else {
        long_form(word)
    }
}

fn is_done(word: &[u8], answer: &[u8]) -> bool
    ensures { result ≡ is_done word.now answer.now }
{
    fits_form(ok_form(word), answer)
        || (is_thread_word(word) && fits_form(b"ok *", answer))
        || (is_text(word, b"watch") && fits_form(b"ok #", answer))
}

fn is_error(answer: &[u8]) -> bool
    ensures { result ≡ is_error answer.now }
{
    is_text(answer, b"error 2")
        || is_text(answer, b"error 5")
        || is_text(answer, b"error 6")
        || is_text(answer, b"error 87")
        || is_text(answer, b"error 183")
        || is_text(answer, b"error 487")
        || is_text(answer, b"error 1132")
        || is_text(answer, b"error 1455")
}

/// Whether lines with this first word name no process.
fn is_own_word(word: &[u8]) -> bool
    ensures { result ≡ is_own_word word.now }
{
    is_text(word, b"machine")
        || is_text(word, b"process")
        || is_text(word, b"grow")
        || is_text(word, b"resume")
        || is_text(word, b"io")
        || is_text(word, b"writer")
        || is_text(word, b"zeroer")
        || is_text(word, b"fail")
        || is_text(word, b"charge")
        || is_text(word, b"counts")
        || is_text(word, b"probe")
}

fn is_raise(answer: &[u8]) -> bool
    ensures { result ≡ is_raise answer.now }
{
    is_text(answer, b"raise 0x80000001")
        || is_text(answer, b"raise 0xC0000005")
        || is_text(answer, b"raise 0xC0000006")
        || is_text(answer, b"raise 0xC00000FD")
}

fn may_raise(word: &[u8]) -> bool
    ensures { result ≡ may_raise word.now }
{
    is_access_word(word) || is_thread_word(word) || is_text(word, b"probe")
}

fn is_wait(answer: &[u8]) -> bool
    ensures { result ≡ is_wait answer.now }
{
    is_text(answer, b"pending read")
        || is_text(answer, b"pending frame")
        || is_text(answer, b"pending full")
}

fn may_find_nothing(word: &[u8]) -> bool
    ensures { result ≡ may_find_nothing word.now }
{
    is_text(word, b"resume") || is_text(word, b"io") || is_text(word, b"probe")
}

fn may_be_busy(word: &[u8]) -> bool
    ensures { result ≡ may_be_busy word.now }
{
    is_text(word, b"begin") || is_text(word, b"stack")
}

fn may_be_full(word: &[u8]) -> bool
    ensures { result ≡ may_be_full word.now }
{
    is_text(word, b"process")
        || is_text(word, b"file")
        || is_text(word, b"fail")
        || is_text(word, b"grow")
}

fn may_fault(word: &[u8]) -> bool
    ensures { result ≡ may_fault word.now }
{
    is_text(word, b"file")
        || is_text(word, b"flush")
        || is_text(word, b"io")
        || is_text(word, b"grow")
}

fn is_refused(word: &[u8], answer: &[u8]) -> bool
    ensures { result ≡ is_refused word.now answer.now }
{
    (!is_own_word(word) && is_error(answer))
        || (may_raise(word) && is_raise(answer))
        || (is_thread_word(word) && is_wait(answer))
}

fn is_left(word: &[u8], answer: &[u8]) -> bool
    ensures { result ≡ is_left word.now answer.now }
{
    (may_find_nothing(word) && is_text(answer, b"none"))
        || (may_be_busy(word) && is_text(answer, b"busy"))
        || (may_be_full(word) && is_text(answer, b"full"))
        || (may_fault(word) && is_text(answer, b"fault"))
}

/// Whether this is a read or a write that is done.
#[tactic(auto, using(crate::proofs::AnswersWorked::plainly))]
fn is_done_plainly(word: &[u8], answer: &[u8]) -> bool
    ensures { result ≡ true → can_answer word.now answer.now ≡ true }
{
    if is_text(word, b"read") {
        return fits_form(b"ok *", answer);
    }
    is_text(word, b"write") && is_text(answer, b"ok")
}

/// Whether a line with this first word can have this answer. Reads and writes that are done, most
/// lines, are told first.
pub(crate) fn can_answer(word: &[u8], answer: &[u8]) -> bool
    ensures { result ≡ can_answer word.now answer.now }
{
    if is_done_plainly(word, answer) {
        return true;
    }
    is_done(word, answer) || is_refused(word, answer) || is_left(word, answer)
}

/// Ten answers that lines can have, and ten that they cannot.
#[tactic(auto, using(crate::proofs::AnswersWorked::worked))]
pub fn answers_are_told_apart()
    ensures fit { all_can fitting_answers ≡ ten true }
    ensures others { all_can other_answers ≡ ten false }
{}
