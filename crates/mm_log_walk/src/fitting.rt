ghost use Rattle.std.specs.Prelude.{◌≡◌, true, false, MatchOption, option_map};
ghost use Rattle.mm_types.specs.declared.moves.Move.TheVariants as move;
ghost use Rattle.mm_log_walk.specs.{is_ending_word, is_section_word, is_memory_word, is_system_word, is_refusable_word, is_call_word, fits_word};
ghost use Rattle.mm_log_walk.specs.{fits_line, fits, IsMisfit, beside, end_closing, fits_answer, fits_script, is_answered, is_bad_text, is_long_text};
ghost use Rattle.mm_log_walk.specs.{line_numbered, misfit_closing, surplus, surplus_among};

use crate::answer_forms::can_answer;
use crate::closings::Closing;
use crate::lines::Lines;
use crate::words::{first_word, is_access_word, is_thread_word};
use mm_log_check::Ending;
use mm_script::is_text;
use mm_text::{LineBuf, put_decimal};
use mm_types::{LineKind, Move};

fn is_ending_word(word: &[u8]) -> bool
    ensures { result ≡ is_ending_word word.now }
{
    is_text(word, b"exit") || is_text(word, b"free") || is_text(word, b"unmap")
}

fn is_section_word(word: &[u8]) -> bool
    ensures { result ≡ is_section_word word.now }
{
    is_text(word, b"create")
        || is_text(word, b"createfile")
        || is_text(word, b"open")
        || is_text(word, b"close")
        || is_text(word, b"map")
        || is_text(word, b"flush")
        || is_text(word, b"file")
}

fn is_memory_word(word: &[u8]) -> bool
    ensures { result ≡ is_memory_word word.now }
{
    is_text(word, b"alloc")
        || is_text(word, b"protect")
        || is_text(word, b"query")
        || is_text(word, b"watch")
        || is_text(word, b"resetwatch")
        || is_text(word, b"stack")
        || is_text(word, b"probe")
}

fn is_system_word(word: &[u8]) -> bool
    ensures { result ≡ is_system_word word.now }
{
    is_text(word, b"age")
        || is_text(word, b"fail")
        || is_text(word, b"charge")
        || is_text(word, b"counts")
}

fn is_refusable_word(word: &[u8]) -> bool
    ensures { result ≡ is_refusable_word word.now }
{
    is_text(word, b"process")
        || is_text(word, b"grow")
        || is_text(word, b"trim")
        || is_ending_word(word)
        || is_access_word(word)
        || is_thread_word(word)
}

fn is_call_word(word: &[u8]) -> bool
    ensures { result ≡ is_call_word word.now }
{
    is_refusable_word(word) || is_section_word(word) || is_memory_word(word) || is_system_word(word)
}

fn fits_word(word: &[u8], kind: LineKind) -> bool
    ensures { result ≡ fits_word word.now kind }
{
    match kind {
        LineKind::Machine(..) => is_text(word, b"machine"),
        LineKind::Process(..) => is_text(word, b"process"),
        LineKind::Grow(_) => is_text(word, b"grow"),
        LineKind::Unbind(_) => is_ending_word(word),
        LineKind::Access(_) => is_access_word(word),
        LineKind::Thread(_) => is_thread_word(word),
        LineKind::Trim(_) => is_text(word, b"trim"),
        LineKind::Writer => is_text(word, b"writer"),
        LineKind::Zeroer => is_text(word, b"zeroer"),
        LineKind::Io => is_text(word, b"io"),
        LineKind::Call => is_call_word(word),
    }
}

/// Whether the line of a script, if it has that line, can be of this kind.
fn fits_line(line: Option<&[u8]>, kind: LineKind) -> bool
    ensures { result ≡ fits_line (option_map (λ l. l.now) line.entry) kind }
{
    match line {
        Some(line) => fits_word(first_word(line), kind),
        None => false,
    }
}

/// Whether the line of this number is one of the script's lines, of a form that it can have.
fn fits_script(script: &Option<Lines>, n: u32, kind: LineKind) -> bool
    ensures { result ≡ fits_script script.now n kind }
{
    match script {
        Some(lines) => fits_line(lines.get((n as usize).saturating_sub(1)), kind),
        None => true,
    }
}

/// The line of this number, counted from 1.
fn line_of(script: &Option<Lines>, n: u32) -> Option<&[u8]>
    ensures { option_map (λ l. l.now) result ≡ line_numbered script.now n }
{
    match script {
        Some(lines) => lines.get((n as usize).saturating_sub(1)),
        None => None,
    }
}

/// Whether a line has an answer that it can have.
fn fits_answer(line: Option<&[u8]>, answer: Option<&[u8]>) -> bool
    ensures { result ≡ fits_answer (option_map (λ l. l.now) line.entry)
        (option_map (λ a. a.now) answer.entry) }
{
    match (line, answer) {
        (_, None) => false,
        (None, Some(_)) => true,
        (Some(line), Some(answer)) => can_answer(first_word(line), answer),
    }
}

fn is_answered(script: &Option<Lines>, answers: &Option<Lines>, n: u32) -> bool
    ensures { result ≡ is_answered (beside script.now answers.now) n }
{
    match answers {
        Some(lines) => {
            fits_answer(
                line_of(script, n),
                lines.get((n as usize).saturating_sub(1)),
            )
        }
        None => true,
    }
}

/// How a line of this kind does not fit, where it does not.
fn line_misfit(
    script: &Option<Lines>,
    answers: &Option<Lines>,
    n: u32,
    kind: LineKind,
) -> Option<Closing>
    ensures { MatchOption result (fits (beside script.now answers.now) (move.At n kind) ≡ true)
        (λ c. (fits (beside script.now answers.now) (move.At n kind) ≡ false)
        × (c ≡ misfit_closing (beside script.now answers.now) n kind)) }
{
    if !fits_script(script, n, kind) {
        return Some(Closing::Misfit(n));
    }
    if is_answered(script, answers, n) {
        None
    } else {
        Some(Closing::Answer(u64::from(n)))
    }
}

/// Why a move leaves the log no room beside its script and its answers: it begins a line that the
/// script does not have, or with a first word that a line of this kind does not begin with; or the
/// line has no answer, or one that it cannot have.
pub(crate) fn misfit(script: &Option<Lines>, answers: &Option<Lines>, m: &Move) -> Option<Closing>
    ensures { MatchOption result (fits (beside script.now answers.now) m.now ≡ true)
        (IsMisfit (beside script.now answers.now) m.now) }
{
    match *m {
        Move::At(n, kind) => line_misfit(script, answers, n, kind),
        _ => None,
    }
}

/// Whether a run writes this behind the answers where the line of this number is too long.
#[tactic(auto, using(mm_text::proofs::DigitCounts::joined))]
pub fn is_long_text(n: u64, text: &[u8]) -> bool
    ensures { result ≡ is_long_text n text.now }
{
    let mut line = LineBuf::new();
    line.push_slice(b"too long line ");
    put_decimal(&mut line, n);
    is_text(text, line.as_slice())
}

/// Whether a run writes this behind the answers where the line of this number is none.
#[tactic(auto, using(mm_text::proofs::DigitCounts::joined))]
pub fn is_bad_text(n: u64, text: &[u8]) -> bool
    ensures { result ≡ is_bad_text n text.now }
{
    let mut line = LineBuf::new();
    line.push_slice(b"bad line ");
    put_decimal(&mut line, n);
    line.push_slice(b" column ");
    text.starts_with(line.as_slice())
}

/// The first answer that is one too many, of the two behind those of so many lines.
fn surplus_among(n: u32, first: Option<&[u8]>, second: Option<&[u8]>) -> Option<u64>
    ensures { result ≡ surplus_among n (option_map (λ t. t.now) first.entry)
        (option_map (λ t. t.now) second.entry) }
{
    let Some(text) = first else {
        return None;
    };
    let next = u64::from(n) + 1;
    if !is_bad_text(next, text) && !is_long_text(next, text) {
        return Some(next);
    }
    if second.is_some() {
        Some(next + 1)
    } else {
        None
    }
}

/// The first answer that is one too many, where the log has so many lines.
fn surplus(answers: &Option<Lines>, n: u32) -> Option<u64>
    ensures { result ≡ surplus answers.now n }
{
    match answers {
        Some(lines) => surplus_among(n, lines.get(n as usize), lines.get(n as usize + 1)),
        None => None,
    }
}

/// How the log closes that ends so, after so many lines.
pub(crate) fn end_closing(answers: &Option<Lines>, n: u32, ending: Ending) -> Closing
    ensures { result ≡ end_closing answers.now n ending }
{
    match ending {
        Ending::Yes => match surplus(answers, n) {
            Some(line) => Closing::Surplus(line),
            None => Closing::Ended(Ending::Yes),
        },
        other => Closing::Ended(other),
    }
}
