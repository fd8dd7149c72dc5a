#![tactic(auto, using(crate::proofs::Digits::digits))]

ghost use Rattle.std.specs.Prelude.{◌≡◌, ◌≤◌, ◌<◌, ◌+◌, ◌*◌, ◌++◌, [], length, take, drop};
ghost use Rattle.mm_types.specs.{glyph, decimal, hex_onto, hex8, byte_pairs};
ghost use Rattle.mm_text.specs.{digits_onto, hex_short};

use crate::LineBuf;
use itoa::Buffer;

/// The digits below 16 as bytes, with upper-case letters from ten on.
static GLYPHS: [u8; 16] = [
    b'0', b'1', b'2', b'3', b'4', b'5', b'6', b'7', b'8', b'9', b'A', b'B', b'C', b'D', b'E', b'F',
];

/// A digit below 16 as a byte.
#[inline(always)]
fn glyph(digit: u8) -> u8
    requires { digit < 16 }
    ensures { result ≡ glyph digit }
{
    GLYPHS[digit as usize]
}

/// Writes at most 64 bytes as pairs of hexadecimal digits in upper case at the front of `room`, and
/// tells where they end.
#[inline(always)]
pub fn fill_pairs(bytes: &[u8], room: &mut [u8; 128]) -> usize
    requires { length bytes.now ≤ 64 }
    ensures pairs { take result room.new ≡ byte_pairs bytes.now }
    ensures few { result ≤ 128 }
{
    let mut end = 0;
    for byte in bytes {
        room[end] = glyph(*byte / 16);
        room[end + 1] = glyph(*byte % 16);
        end += 2;
    }
    end
}

/// Writes a number's hexadecimal digits at the end of `digits`, without leading zeros, and answers
/// where they begin.
#[inline]
fn fill_short(n: u32, digits: &mut [u8]) -> usize
    ensures digits { digits_onto 16 (length digits.old) n [] ≡ drop result digits.new }
    ensures within { result ≤ length digits.old }
{
    let mut at = digits.len();
    let mut rest = n;
    while at > 0 {
        at -= 1;
        digits[at] = glyph((rest % 16) as u8);
        if rest < 16 {
            return at;
        }
        rest /= 16;
    }
    at
}

/// Writes the last hexadecimal digits of a number, as many as `digits` has places.
fn fill_hex(n: u32, digits: &mut [u8])
    ensures { digits.new ≡ hex_onto (length digits.old) n [] }
{
    let mut at = digits.len();
    let mut rest = n;
    while at > 0 {
        at -= 1;
        digits[at] = glyph((rest % 16) as u8);
        rest /= 16;
    }
}

/// Writes a number in decimal, without leading zeros, at the end of a line.
pub fn put_decimal(out: &mut LineBuf, n: u64)
    requires { length out.old + length (decimal n) ≤ 256 }
    ensures { out.new ≡ out.old ++ decimal n }
{
    let mut digits = Buffer::new();
    out.push_slice(digits.format(n).as_bytes());
}

/// Writes `0x` and a number's hexadecimal digits in upper case, without leading zeros, at the end
/// of a line.
pub fn put_hex_short(out: &mut LineBuf, n: u32)
    requires { length out.old + length (hex_short n) ≤ 256 }
    ensures { out.new ≡ out.old ++ hex_short n }
{
    let mut digits = [0u8; 8];
    let from = fill_short(n, &mut digits);
    out.push_slice(b"0x");
    out.push_slice(&digits[from..]);
}

/// Writes `0x` and eight hexadecimal digits in upper case at the end of a line.
pub fn put_hex8(out: &mut LineBuf, n: u32)
    requires { length out.old + 10 ≤ 256 }
    ensures { out.new ≡ out.old ++ hex8 n }
{
    let mut digits = [0u8; 8];
    fill_hex(n, &mut digits);
    out.push_slice(b"0x");
    out.push_slice(&digits);
}

/// Writes each byte as a pair of hexadecimal digits in upper case at the end of a line.
pub fn put_bytes(out: &mut LineBuf, bytes: &[u8])
    requires { length out.old + 2 * length bytes.now ≤ 256 }
    ensures { out.new ≡ out.old ++ byte_pairs bytes.now }
{
    for byte in bytes {
        out.push(glyph(*byte / 16));
        out.push(glyph(*byte % 16));
    }
}
