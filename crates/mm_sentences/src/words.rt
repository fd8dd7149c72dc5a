#![tactic(auto, using(crate::proofs::Joined::joined))]

ghost use Rattle.std.specs.Prelude.{◌≡◌, ◌<◌, ◌^◌, ◌++◌, ◌∷◌, [], OnOk, codes};
ghost use Rattle.mm_types.specs.{decimal, glyph};
ghost use Rattle.mm_move_rules.specs.{numbered, kind_onto, place_onto};
ghost use Rattle.mm_text.specs.{hex_short};
ghost use Rattle.mm_sentences.specs.{two_digits, three_digits, key_text, kind_text, address_text, addressed, place_text};
ghost use Rattle.mm_types.specs.declared.moves.LineKind.TheVariants as kind_of;

use mm_text::{LineBuf, put_hex_short};
use mm_types::{Key, LineKind, NoMemory, Pid, Place, Vpn};

/// Writes some words.
pub fn put_words(words: &[u8], text: &mut Vec<u8>) -> Result<(), NoMemory>
    ensures { OnOk result (text.new.items ≡ text.old.items ++ words.now) }
{
    text.extend_from_slice(words)?;
    Ok(())
}

/// A digit below 10.
#[inline(always)]
#[tactic(auto, using(crate::proofs::Decimals::decimals))]
fn digit(n: u64) -> u8
    requires { n < 10 }
    ensures { result ≡ glyph n }
{
    b'0' + n as u8
}

/// Writes the digits of a number below 100, of which the first may be 0.
#[tactic(auto, using(crate::proofs::Decimals::decimals))]
fn put_two(n: u64, text: &mut Vec<u8>) -> Result<(), NoMemory>
    requires { n < 100 }
    ensures { OnOk result (text.new.items ≡ text.old.items ++ two_digits n) }
{
    text.push(digit(n / 10))?;
    text.push(digit(n % 10))?;
    Ok(())
}

/// Writes the digits of a number below 1,000, of which the first may be 0.
#[tactic(auto, using(crate::proofs::Decimals::decimals))]
fn put_three(n: u64, text: &mut Vec<u8>) -> Result<(), NoMemory>
    requires { n < 1000 }
    ensures { OnOk result (text.new.items ≡ text.old.items ++ three_digits n) }
{
    text.push(digit(n / 100))?;
    text.push(digit(n / 10 % 10))?;
    text.push(digit(n % 10))?;
    Ok(())
}

/// Writes a number in decimal, three digits at a time.
#[tactic(auto, using(crate::proofs::Decimals::decimals))]
pub fn put_number(n: u64, text: &mut Vec<u8>) -> Result<(), NoMemory>
    ensures { OnOk result (text.new.items ≡ text.old.items ++ decimal n) }
{
    if n < 10 {
        text.push(digit(n))?;
        return Ok(());
    }
    if n < 100 {
        return put_two(n, text);
    }
    if n < 1000 {
        return put_three(n, text);
    }
    put_number(n / 1000, text)?;
    put_three(n % 1000, text)
}

/// Writes words and a number.
pub fn put_counted(words: &[u8], n: u64, text: &mut Vec<u8>) -> Result<(), NoMemory>
    ensures { OnOk result (text.new.items ≡ text.old.items ++ (words.now ++ decimal n)) }
{
    put_words(words, text)?;
    put_number(n, text)
}

/// Writes words, a number, and words.
pub fn put_numbered(words: &[u8], n: u64, behind: &[u8], text: &mut Vec<u8>) -> Result<(), NoMemory>
    ensures { OnOk result (text.new.items ≡ text.old.items ++ numbered words.now n behind.now) }
{
    put_counted(words, n, text)?;
    put_words(behind, text)
}

/// Writes two numbers, each behind words, and words behind them.
pub fn put_pair(
    words: &[u8],
    first: u64,
    between: &[u8],
    second: u64,
    behind: &[u8],
    text: &mut Vec<u8>,
) -> Result<(), NoMemory>
    ensures { OnOk result (text.new.items ≡ text.old.items
        ++ numbered words.now first (numbered between.now second behind.now)) }
{
    put_counted(words, first, text)?;
    put_numbered(between, second, behind, text)
}

/// Writes two numbers, and a point between them.
fn put_pointed(first: u32, second: u32, text: &mut Vec<u8>) -> Result<(), NoMemory>
    ensures { OnOk result (text.new.items ≡ text.old.items
        ++ numbered [] first (numbered (codes ".") second [])) }
{
    put_number(u64::from(first), text)?;
    text.push(b'.')?;
    put_number(u64::from(second), text)
}

/// Writes a key as logs spell it: `p1.17`, `s0.3`.
pub fn put_key(key: Key, text: &mut Vec<u8>) -> Result<(), NoMemory>
    ensures { OnOk result (text.new.items ≡ text.old.items ++ key_text key) }
{
    match key {
        Key::Private(pid, vpn) => {
            text.push(b'p')?;
            put_pointed(u32::from(pid.0), vpn.0, text)
        }
        Key::Shared(area, index) => {
            text.push(b's')?;
            put_pointed(area.0, index, text)
        }
    }
}

/// Writes a number in hexadecimal.
#[tactic(auto, using(mm_text::proofs::Spelled::lengths))]
fn put_hex(n: u32, text: &mut Vec<u8>) -> Result<(), NoMemory>
    ensures { OnOk result (text.new.items ≡ text.old.items ++ hex_short n) }
{
    let mut line = LineBuf::new();
    put_hex_short(&mut line, n);
    text.extend_from_slice(line.as_slice())?;
    Ok(())
}

/// Writes the address of a page, in parentheses behind a space.
fn put_address(vpn: Vpn, text: &mut Vec<u8>) -> Result<(), NoMemory>
    requires { vpn.0 < 2 ^ 20 }
    ensures { OnOk result (text.new.items ≡ text.old.items ++ address_text vpn.0) }
{
    text.push(b' ')?;
    text.push(b'(')?;
    put_hex(vpn.0 * 4096, text)?;
    text.push(b')')?;
    Ok(())
}

fn put_addressed(vpn: Vpn, text: &mut Vec<u8>) -> Result<(), NoMemory>
    ensures { OnOk result (text.new.items ≡ text.old.items ++ addressed vpn.0) }
{
    if vpn.0 < 1048576 {
        put_address(vpn, text)
    } else {
        Ok(())
    }
}

fn put_plain_place(place: Place, text: &mut Vec<u8>) -> Result<(), NoMemory>
    ensures { OnOk result (text.new.items ≡ text.old.items ++ place_onto place []) }
{
    put_pointed(u32::from(place.pid.0), place.vpn.0, text)
}

/// Writes a place as logs spell it, `1.17`, and where asked its address behind it: `1.17
/// (0x11000)`.
pub fn put_place(address: bool, place: Place, text: &mut Vec<u8>) -> Result<(), NoMemory>
    ensures { OnOk result (text.new.items ≡ text.old.items ++ place_text address place) }
{
    if address {
        put_plain_place(place, text)?;
        put_addressed(place.vpn, text)
    } else {
        put_plain_place(place, text)
    }
}

/// Writes a word and a number.
fn put_kind_number(word: &[u8], n: u32, text: &mut Vec<u8>) -> Result<(), NoMemory>
    ensures { OnOk result (text.new.items ≡ text.old.items ++ numbered word.now n []) }
{
    put_numbered(word, u64::from(n), b"", text)
}

/// Writes the numbers of a machine.
fn put_machine(
    frames: u32,
    slots: u32,
    depth: u32,
    blocks: u32,
    text: &mut Vec<u8>,
) -> Result<(), NoMemory>
    ensures { OnOk result (text.new.items ≡ text.old.items
        ++ kind_text (kind_of.Machine frames slots depth blocks)) }
{
    put_kind_number(b"machine ", frames, text)?;
    put_kind_number(b" ", slots, text)?;
    put_kind_number(b" ", depth, text)?;
    put_kind_number(b" ", blocks, text)
}

/// Writes the numbers of a process.
fn put_new_process(pid: Pid, min: u32, max: u32, text: &mut Vec<u8>) -> Result<(), NoMemory>
    ensures { OnOk result (text.new.items ≡ text.old.items
        ++ kind_text (kind_of.Process pid min max)) }
{
    put_kind_number(b"process ", u32::from(pid.0), text)?;
    put_kind_number(b" ", min, text)?;
    put_kind_number(b" ", max, text)
}

/// Writes what a line is to the frames, as logs spell it: `access 1`.
pub fn put_kind(kind: LineKind, text: &mut Vec<u8>) -> Result<(), NoMemory>
    ensures { OnOk result (text.new.items ≡ text.old.items ++ kind_text kind) }
{
    match kind {
        LineKind::Machine(frames, slots, depth, blocks) => {
            put_machine(frames, slots, depth, blocks, text)
        }
        LineKind::Process(pid, min, max) => put_new_process(pid, min, max, text),
        LineKind::Unbind(pid) => put_kind_number(b"unbind ", u32::from(pid.0), text),
        LineKind::Access(pid) => put_kind_number(b"access ", u32::from(pid.0), text),
        LineKind::Thread(pid) => put_kind_number(b"thread ", u32::from(pid.0), text),
        LineKind::Trim(pid) => put_kind_number(b"trim ", u32::from(pid.0), text),
        LineKind::Writer => put_words(b"writer", text),
        LineKind::Zeroer => put_words(b"zeroer", text),
        LineKind::Io => put_words(b"io", text),
        LineKind::Call => put_words(b"call", text),
        LineKind::Grow(count) => put_kind_number(b"grow ", count, text),
    }
}
