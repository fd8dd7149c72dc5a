ghost use Rattle.std.specs.Prelude.{◌≡◌, ◌≤◌};
ghost use Rattle.std.specs.List.{list_all};
ghost use Rattle.mm_text.specs.{digit_value, is_letter, is_name_byte, limited, digits_in, number_of, pair_of, bytes_of_pairs, is_name, name_of};

use mm_types::{ByteBuf, Name};

/// The value of each byte as a hexadecimal digit of either case, or 16.
#[rattlefmt::skip]
static DIGIT_VALUES: [u8; 256] = [
    16, 16, 16, 16, 16, 16, 16, 16, 16, 16, 16, 16, 16, 16, 16, 16,
    16, 16, 16, 16, 16, 16, 16, 16, 16, 16, 16, 16, 16, 16, 16, 16,
    16, 16, 16, 16, 16, 16, 16, 16, 16, 16, 16, 16, 16, 16, 16, 16,
     0,  1,  2,  3,  4,  5,  6,  7,  8,  9, 16, 16, 16, 16, 16, 16, // 0 to 9
    16, 10, 11, 12, 13, 14, 15, 16, 16, 16, 16, 16, 16, 16, 16, 16, // A to F
    16, 16, 16, 16, 16, 16, 16, 16, 16, 16, 16, 16, 16, 16, 16, 16,
    16, 10, 11, 12, 13, 14, 15, 16, 16, 16, 16, 16, 16, 16, 16, 16, // a to f
    16, 16, 16, 16, 16, 16, 16, 16, 16, 16, 16, 16, 16, 16, 16, 16,
    16, 16, 16, 16, 16, 16, 16, 16, 16, 16, 16, 16, 16, 16, 16, 16,
    16, 16, 16, 16, 16, 16, 16, 16, 16, 16, 16, 16, 16, 16, 16, 16,
    16, 16, 16, 16, 16, 16, 16, 16, 16, 16, 16, 16, 16, 16, 16, 16,
    16, 16, 16, 16, 16, 16, 16, 16, 16, 16, 16, 16, 16, 16, 16, 16,
    16, 16, 16, 16, 16, 16, 16, 16, 16, 16, 16, 16, 16, 16, 16, 16,
    16, 16, 16, 16, 16, 16, 16, 16, 16, 16, 16, 16, 16, 16, 16, 16,
    16, 16, 16, 16, 16, 16, 16, 16, 16, 16, 16, 16, 16, 16, 16, 16,
    16, 16, 16, 16, 16, 16, 16, 16, 16, 16, 16, 16, 16, 16, 16, 16,
];

/// The value of a hexadecimal digit of either case, or 16 for another byte.
#[inline(always)]
pub(crate) fn digit(byte: u8) -> u8
    ensures value { result ≡ digit_value byte }
    ensures most { result ≤ 16 }
{
    DIGIT_VALUES[byte as usize]
}

/// The number below 2^32 of 1 to `most` digits of a base. No more than ten digits of base 16 or
/// below fit a `u64`, so that the limit is tested once, after the last.
#[inline(always)]
#[tactic(auto, using(crate::proofs::Values::values))]
fn value(base: u8, most: usize, digits: &[u8]) -> Option<u32>
    requires low { 1 ≤ base }
    requires high { base ≤ 16 }
    requires few { most ≤ 10 }
    ensures { result ≡ limited (digits_in base most digits.now) }
{
    if digits.is_empty() || digits.len() > most {
        return None;
    }
    let mut sum = 0u64;
    for byte in digits {
        let digit = digit(*byte);
        if digit >= base {
            return None;
        }
        sum = sum * u64::from(base) + u64::from(digit);
    }
    if sum > 0xFFFF_FFFF {
        return None;
    }
    Some(sum as u32)
}

/// The number that a word is: decimal, of 1 to 10 digits, or `0x` and 1 to 8 hexadecimal digits of
/// either case; leading zeros are allowed. `None` where the word is another, or the number is 2^32
/// or more.
#[inline(always)]
pub fn number(word: &[u8]) -> Option<u32>
    ensures { result ≡ number_of word.now }
{
    match word {
        [b'0', b'x', digits @ ..] => value(16, 8, digits),
        _ => value(10, 10, word),
    }
}

/// The byte of two hexadecimal digits; `None` where one of them is none.
#[inline(always)]
fn pair(high: u8, low: u8) -> Option<u8>
    ensures { result ≡ pair_of high low }
{
    let high = digit(high);
    let low = digit(low);
    if high < 16 && low < 16 {
        Some(16 * high + low)
    } else {
        None
    }
}

/// The bytes that a word is: 1 to 64 pairs of hexadecimal digits of either case; `None` where it is
/// not that.
#[inline(always)]
#[tactic(auto, using(crate::proofs::Pairs::pairs))]
pub fn bytes(word: &[u8]) -> Option<ByteBuf>
    ensures { result ≡ bytes_of_pairs word.now }
{
    if word.len() > 128 {
        return None;
    }
    let mut room = [0u8; 64];
    let mut len = 0;
    let mut rest = word;
    while let [high, low, others @ ..] = rest {
        room[len] = pair(*high, *low)?;
        len += 1;
        rest = others;
    }
    if !rest.is_empty() {
        return None;
    }
    ByteBuf::from_slice(&room[..len])
}

fn is_letter(byte: u8) -> bool
    ensures { result ≡ is_letter byte }
{
    matches!(byte, b'A'..=b'Z' | b'a'..=b'z')
}

fn is_name_byte(byte: u8) -> bool
    ensures { result ≡ is_name_byte byte }
{
    is_letter(byte) || matches!(byte, b'0'..=b'9' | b'_' | b'.' | b'-')
}

fn are_name_bytes(bytes: &[u8]) -> bool
    ensures { result ≡ list_all is_name_byte bytes.now }
{
    bytes.iter().all(|byte| is_name_byte(*byte))
}

/// Whether a word is a letter, and letters, digits, `_`, `.` or `-` after it.
#[tactic(auto, using(crate::proofs::Made::made))]
fn is_name(word: &[u8]) -> bool
    ensures { result ≡ is_name word.now }
{
    match word {
        [first, others @ ..] => is_letter(*first) && are_name_bytes(others),
        [] => false,
    }
}

/// The name that a word is: a letter, and at most 31 letters, digits, `_`, `.` or `-` after it, in
/// ASCII; `None` where it is not that.
#[tactic(auto, using(crate::proofs::Made::made))]
pub fn name(word: &[u8]) -> Option<Name>
    ensures { result ≡ name_of word.now }
{
    if is_name(word) {
        Name::from_slice(word)
    } else {
        None
    }
}
