ghost use Rattle.std.specs.Prelude.{◌≡◌, ◌++◌, List, ◌<◌, ◌+◌, ◌^◌, OnOk, IfOk, false, codes};
ghost use Rattle.std.specs.Prelude.{length, option_map, unwrap_or, [], ◌∷◌, Some};
ghost use Rattle.std.specs.List.{list_any};
ghost use Rattle.mm_text.specs.{number_of, words_of};
ghost use Rattle.mm_transcripts.specs.{Number, has_name, named_numbers, bracketed, numbers_said, told_names, told_remark, bracketed_or, answer_remark};
ghost use Rattle.mm_transcripts.specs.{event_remark, remark_by, remark_text, begins_plainly, is_plain_answer};

use crate::failures::failure_name;
use crate::numbers::{Number, NumberPlace, has_name, put_name};
use mm_script::parse_line;
use mm_text::{Words, number};
use mm_types::{Event, NoMemory};

fn at(place: NumberPlace, value: u32) -> Number
    ensures { result ≡ record { place = place; value = value } }
{
    Number { place, value }
}

/// The number that a word is; what is no number counts as 0, which has no name.
fn number_at(place: NumberPlace, word: &[u8]) -> Number
    ensures { result ≡ record { place = place; value = unwrap_or (number_of word.now) 0 } }
{
    at(place, number(word).unwrap_or(0))
}

/// Whether one of some numbers has a name.
fn any_has_name(numbers: &[Number]) -> bool
    ensures { result ≡ list_any has_name numbers.now }
{
    numbers.iter().any(|number| has_name(*number))
}

/// Writes the name of a number that has one, behind a comma where another stands before it.
/// Answers whether a name stands there now.
#[tactic(auto, using(crate::proofs::Joins::joins))]
fn put_listed(after: bool, number: Number, text: &mut Vec<u8>) -> Result<bool, NoMemory>
    ensures { IfOk result (λ b. (rest : List Number) → text.new.items ++ named_numbers b rest
        ≡ text.old.items ++ named_numbers after (number ∷ rest)) }
{
    if !has_name(number) {
        return Ok(after);
    }
    if after {
        text.extend_from_slice(b", ")?;
    }
    put_name(number, text)?;
    Ok(true)
}

/// Writes the names of those numbers that have one, between them a comma.
fn put_names(numbers: &[Number], text: &mut Vec<u8>) -> Result<(), NoMemory>
    ensures { OnOk result (text.new.items ≡ text.old.items ++ named_numbers false numbers.now) }
{
    let mut after = false;
    for number in numbers {
        let next = put_listed(after, *number, text)?;
        after = next;
    }
    Ok(())
}

/// Writes the names of those numbers that have one in brackets, behind these bytes.
#[tactic(auto, using(crate::proofs::Joins::joins))]
fn put_bracketed(front: &[u8], numbers: &[Number], text: &mut Vec<u8>) -> Result<(), NoMemory>
    ensures { OnOk result (text.new.items ≡ text.old.items ++ bracketed front.now numbers.now) }
{
    if !any_has_name(numbers) {
        return Ok(());
    }
    text.extend_from_slice(front)?;
    text.push(b'[')?;
    put_names(numbers, text)?;
    text.push(b']')?;
    Ok(())
}

/// Writes the names of a line's numbers.
fn put_line_names(event: &Event, text: &mut Vec<u8>) -> Result<(), NoMemory>
    ensures { OnOk result (text.new.items
        ≡ text.old.items ++ bracketed (codes "  ") (numbers_said event.now)) }
{
    match event {
        Event::Alloc { form, prot, .. } => {
            let form = at(NumberPlace::Allocation, *form);
            put_bracketed(b"  ", &[form, at(NumberPlace::Protection, *prot)], text)
        }
        Event::Free { form, .. } => {
            put_bracketed(b"  ", &[at(NumberPlace::Allocation, *form)], text)
        }
        Event::Protect { prot, .. } => {
            put_bracketed(b"  ", &[at(NumberPlace::Protection, *prot)], text)
        }
        Event::Create { flags, .. } => {
            put_bracketed(b"  ", &[at(NumberPlace::Section, *flags)], text)
        }
        Event::CreateFile { flags, .. } => {
            put_bracketed(b"  ", &[at(NumberPlace::Section, *flags)], text)
        }
        Event::Map { access, .. } => {
            put_bracketed(b"  ", &[at(NumberPlace::Access, *access)], text)
        }
        _ => Ok(()),
    }
}

/// Writes the names of the state, the protection and the type that a `query` is told.
fn put_told_names(answer: &[u8], text: &mut Vec<u8>) -> Result<(), NoMemory>
    requires { length answer.now + 1 < 2 ^ 32 }
    ensures { OnOk result (text.new.items ≡ text.old.items ++ told_names (words_of answer.now)) }
{
    let mut words = Words::new(answer);
    let Some(_) = words.next() else {
        return Ok(());
    };
    let Some(_) = words.next() else {
        return Ok(());
    };
    let Some(_) = words.next() else {
        return Ok(());
    };
    let Some(_) = words.next() else {
        return Ok(());
    };
    let Some(_) = words.next() else {
        return Ok(());
    };
    let Some(state) = words.next() else {
        return Ok(());
    };
    let Some(prot) = words.next() else {
        return Ok(());
    };
    let Some(form) = words.next() else {
        return Ok(());
    };
    let numbers = [
        number_at(NumberPlace::State, state.of(answer)),
        number_at(NumberPlace::Protection, prot.of(answer)),
        number_at(NumberPlace::Type, form.of(answer)),
    ];
    put_bracketed(b" ", &numbers, text)
}

/// Writes the names of what an answer tells of a page that was asked for.
fn put_told(event: &Event, answer: &[u8], text: &mut Vec<u8>) -> Result<(), NoMemory>
    ensures { OnOk result (text.new.items
        ≡ text.old.items ++ told_remark event.now answer.now) }
{
    match event {
        Event::Query { .. } if answer.len() <= 256 => put_told_names(answer, text),
        _ => Ok(()),
    }
}

/// Writes the name of an answer's error or status, or the names of what it tells.
#[tactic(auto, using(crate::proofs::Joins::joins))]
fn put_answer_names(event: &Event, answer: &[u8], text: &mut Vec<u8>) -> Result<(), NoMemory>
    ensures { OnOk result (text.new.items
        ≡ text.old.items ++ answer_remark event.now (Some answer.now)) }
{
    let Some(name) = failure_name(answer) else {
        return put_told(event, answer, text);
    };
    text.extend_from_slice(b" [")?;
    text.extend_from_slice(name)?;
    text.push(b']')?;
    Ok(())
}

/// Writes what stands behind an event and its answer.
#[tactic(auto, using(crate::proofs::Joins::joins))]
fn put_event_remark(
    event: &Event,
    answer: Option<&[u8]>,
    text: &mut Vec<u8>,
) -> Result<(), NoMemory>
    ensures { OnOk result (text.new.items ≡ text.old.items
        ++ event_remark event.now (option_map (λ a. a.now) answer.entry)) }
{
    if let Some(answer) = answer {
        put_answer_names(event, answer, text)?;
    }
    put_line_names(event, text)
}

/// Whether a line begins as reads and writes do.
fn begins_plainly(line: &[u8]) -> bool
    ensures { result ≡ begins_plainly line.now }
{
    match line {
        [first, ..] => *first == b'r' || *first == b'w',
        _ => false,
    }
}

/// Whether an answer begins as `ok` does.
fn is_plain_answer(answer: Option<&[u8]>) -> bool
    ensures { result ≡ is_plain_answer (option_map (λ a. a.now) answer.entry) }
{
    match answer {
        Some([first, ..]) => *first == b'o',
        _ => false,
    }
}

/// Writes what stands behind a line and its answer: the line is read.
#[tactic(auto, unfolding(crate::specs::Remarks::remark_text))]
fn put_read_remark(line: &[u8], answer: Option<&[u8]>, text: &mut Vec<u8>) -> Result<(), NoMemory>
    ensures { OnOk result (text.new.items ≡ text.old.items
        ++ remark_text line.now (option_map (λ a. a.now) answer.entry)) }
{
    if line.len() > 256 {
        return Ok(());
    }
    match parse_line(line) {
        Ok(event) => put_event_remark(&event, answer, text),
        Err(_) => Ok(()),
    }
}

/// Writes what stands behind a line of a script and its answer, if it has one: in brackets the
/// name of the answer where it is an error or a status, or the names of what a `query` is told;
/// and then, behind two spaces, the names of the line's numbers. Nothing where the line is none of
/// a script. The only error is that memory is refused; then a part may have been written.
#[tactic(auto, using(crate::proofs::Unnamed::unnamed))]
pub(crate) fn put_remark(
    line: &[u8],
    answer: Option<&[u8]>,
    text: &mut Vec<u8>,
) -> Result<(), NoMemory>
    ensures { OnOk result (text.new.items ≡ text.old.items
        ++ remark_text line.now (option_map (λ a. a.now) answer.entry)) }
{
    // (most lines, which are not read for it)
    if begins_plainly(line) && is_plain_answer(answer) {
        return Ok(());
    }
    put_read_remark(line, answer, text)
}
