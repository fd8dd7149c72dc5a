ghost use Rattle.std.specs.Prelude.{◌≡◌, ◌++◌, ◌+◌, OnOk, option_map, codes, is_some};
ghost use Rattle.mm_log_walk.specs.{beside, line_numbered};
ghost use Rattle.mm_transcripts.specs.{cut_text, run_end_text, ending_text, line_words};

use mm_log_walk::{Lines, is_bad_text, is_long_text};
use mm_sentences::{put_number, put_words};
use mm_types::NoMemory;

/// Writes what a line is.
#[tactic(auto, using(mm_sentences::proofs::Joined::joined))]
fn put_line_is(n: u64, words: &[u8], text: &mut Vec<u8>) -> Result<(), NoMemory>
    ensures { OnOk result (text.new.items ≡ text.old.items ++ line_words n words.now) }
{
    put_words(b"line ", text)?;
    put_number(n, text)?;
    put_words(words, text)?;
    put_words(b"\n", text)
}

fn put_cut(more: bool, n: u64, text: &mut Vec<u8>) -> Result<(), NoMemory>
    ensures { OnOk result (text.new.items ≡ text.old.items ++ cut_text more n) }
{
    if more {
        put_line_is(n, b" was not reached: the run ended before it", text)
    } else {
        Ok(())
    }
}

/// Writes why the run ended before this line, by what it wrote behind the answers, if anything;
/// `more` is whether the script goes on with this line.
fn put_end(more: bool, n: u64, answer: Option<&[u8]>, text: &mut Vec<u8>) -> Result<(), NoMemory>
    ensures { OnOk result (text.new.items ≡ text.old.items
        ++ run_end_text more n (option_map (λ a. a.now) answer.entry)) }
{
    let Some(answer) = answer else {
        return put_cut(more, n, text);
    };
    if is_bad_text(n, answer) {
        return put_line_is(n, b" is no line: the run ended here", text);
    }
    if is_long_text(n, answer) {
        return put_line_is(n, b" is too long: the run ended here", text);
    }
    put_cut(more, n, text)
}

/// The line behind so many.
fn line_behind(lines: &Option<Lines>, count: u32) -> Option<&[u8]>
    ensures { option_map (λ l. l.now) result ≡ line_numbered lines.now (count + 1) }
{
    match lines {
        Some(lines) => lines.get(count as usize),
        None => None,
    }
}

/// Writes what is said behind a log that is whole and has so many lines.
pub(crate) fn put_ending(
    script: &Option<Lines>,
    answers: &Option<Lines>,
    whole: bool,
    count: u32,
    text: &mut Vec<u8>,
) -> Result<(), NoMemory>
    ensures { OnOk result (text.new.items ≡ text.old.items
        ++ ending_text (beside script.now answers.now) whole count) }
{
    if !whole {
        return Ok(());
    }
    let more = line_behind(script, count).is_some();
    put_end(
        more,
        u64::from(count) + 1,
        line_behind(answers, count),
        text,
    )
}
