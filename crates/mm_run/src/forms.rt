ghost use Rattle.std.specs.Prelude.{◌≡◌, ◌≤◌, ℕ, Some, IfOk, MatchOption};
ghost use Rattle.mm_text.specs.{digit_value};
ghost use Rattle.mm_run.specs.Bulk.{word_value};
ghost use Rattle.mm_run.specs.WordForms.{SaysForm};

use mm_arguments::{Form, read_words};
use mm_types::NoMemory;
use std::alloc::Global;

/// The most events that a generated script draws.
const MOST_DRAWN: u64 = 100_000;

/// The form that the words of a run are.
#[derive(Clone, Copy)]
pub(crate) enum WordsForm {
    /// `run`: the script is read.
    Run,
    /// `bulk SEED COUNT`: the script is generated of these two numbers.
    Bulk { seed: u64, count: u32 },
}

/// The value of a hexadecimal digit of either case, or 16 for another byte.
fn digit(byte: u8) -> u8
    ensures value { result ≡ digit_value byte }
    ensures most { result ≤ 16 }
{
    match byte {
        b'0'..=b'9' => byte - b'0',
        b'A'..=b'F' => byte - b'A' + 10,
        b'a'..=b'f' => byte - b'a' + 10,
        _ => 16,
    }
}

/// The number below 2^64 of 1 to `most` decimal digits.
#[tactic(auto, using(crate::proofs::Numbers::numbers))]
fn value(most: usize, digits: &[u8]) -> Option<u64>
    ensures { result ≡ word_value most digits.now }
{
    if digits.is_empty() || digits.len() > most {
        return None;
    }
    let mut sum = 0u128;
    for byte in digits {
        let digit = digit(*byte);
        if digit >= 10 {
            return None;
        }
        sum = sum * 10 + u128::from(digit);
        if sum > 0xFFFF_FFFF_FFFF_FFFF {
            return None;
        }
    }
    Some(sum as u64)
}

/// A seed and a count, where the words are these.
fn numbers(seed: &[u8], count: &[u8]) -> Option<(u64, u32)>
    ensures { MatchOption result
        ((s n : ℕ) → word_value 20 seed.now ≡ Some s → word_value 6 count.now ≡ Some n →
        n ≤ 100000 → ⊥)
        (λ r. (word_value 20 seed.now ≡ Some r.0) × (word_value 6 count.now ≡ Some r.1)
        × (r.1 ≤ 100000)) }
{
    let seed = match value(20, seed) {
        Some(seed) => seed,
        None => return None,
    };
    let count = match value(6, count) {
        Some(count) => count,
        None => return None,
    };
    if count > MOST_DRAWN {
        None
    } else {
        Some((seed, count as u32))
    }
}

/// The form that the words are, told by how many values it has; `None` where they are none. No word
/// of a form begins with `-`. An `Err` is memory that was refused.
pub(crate) fn words_form(alloc: Global, words: &[String]) -> Result<Option<WordsForm>, NoMemory>
    ensures { IfOk result (λ r. MatchOption r
        ((f : WordsForm) → SaysForm words.now f → ⊥)
        (SaysForm words.now)) }
{
    let forms = [
        Form {
            name: "run",
            least: 0,
            most: 0,
        },
        Form {
            name: "bulk",
            least: 2,
            most: 2,
        },
    ];
    let said = match read_words(alloc, &forms, words)? {
        Some(said) => said,
        None => return Ok(None),
    };
    match said.values.as_slice() {
        [] => Ok(Some(WordsForm::Run)),
        [seed, count] => match numbers(seed.as_bytes(), count.as_bytes()) {
            Some((seed, count)) => Ok(Some(WordsForm::Bulk { seed, count })),
            None => Ok(None),
        },
        _ => Ok(None),
    }
}
