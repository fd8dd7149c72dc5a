ghost use Rattle.std.specs.Prelude.{◌≡◌, ◌++◌, OnOk, replicate};
ghost use Rattle.mm_types.specs.{decimal};
ghost use Rattle.mm_text.specs.{left_in, right_in, numbers_in};

use crate::{LineBuf, put_decimal};
use mm_types::NoMemory;

/// Writes some spaces.
fn put_spaces(count: usize, text: &mut Vec<u8>) -> Result<(), NoMemory>
    ensures { OnOk result (text.new.items ≡ text.old.items ++ replicate count 32) }
{
    for n in 0..count {
        text.push(b' ')?;
    }
    Ok(())
}

/// Writes a word at the right end of a column of this width.
#[tactic(auto, using(crate::proofs::DigitCounts::joined), unfolding(crate::specs::Columns::right_in))]
pub fn put_right(width: usize, word: &[u8], text: &mut Vec<u8>) -> Result<(), NoMemory>
    ensures { OnOk result (text.new.items ≡ text.old.items ++ right_in width word.now) }
{
    put_spaces(width.saturating_sub(word.len()), text)?;
    text.extend_from_slice(word)?;
    Ok(())
}

/// Writes a word at the left end of a column of this width.
#[tactic(auto, using(crate::proofs::DigitCounts::joined), unfolding(crate::specs::Columns::left_in))]
pub fn put_left(width: usize, word: &[u8], text: &mut Vec<u8>) -> Result<(), NoMemory>
    ensures { OnOk result (text.new.items ≡ text.old.items ++ left_in width word.now) }
{
    text.extend_from_slice(word)?;
    put_spaces(width.saturating_sub(word.len()), text)
}

/// Writes a number at the right end of a column of this width.
#[tactic(auto, using(crate::proofs::DigitCounts::joined))]
pub fn put_right_number(width: usize, n: u64, text: &mut Vec<u8>) -> Result<(), NoMemory>
    ensures { OnOk result (text.new.items ≡ text.old.items ++ right_in width (decimal n)) }
{
    let mut line = LineBuf::new();
    put_decimal(&mut line, n);
    put_right(width, line.as_slice(), text)
}

/// Writes numbers, each in a column of this width.
pub fn put_numbers(width: usize, numbers: &[u64], text: &mut Vec<u8>) -> Result<(), NoMemory>
    ensures { OnOk result (text.new.items ≡ text.old.items ++ numbers_in width numbers.now) }
{
    for n in numbers {
        put_right_number(width, *n, text)?;
    }
    Ok(())
}
