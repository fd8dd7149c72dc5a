ghost use Rattle.std.specs.Prelude.{◌≡◌, ◌/◌, option_map};
ghost use Rattle.mm_show.specs.{line_asked_for, pid_of, private_key_asked, shared_key_asked, page_asked, key_asked};

use mm_reports::{after_byte, before};
use mm_text::number;
use mm_types::{Area, Key, Pid, Vpn};

/// The number of a line that a word is, 1 to 1,000,000.
pub(crate) fn line(word: &[u8]) -> Option<u32>
    ensures { result ≡ line_asked_for word.now }
{
    match number(word) {
        Some(n) => {
            if n >= 1 && n <= 1_000_000 {
                Some(n)
            } else {
                None
            }
        }
        None => None,
    }
}

/// The number of a process that a word is, below 256.
fn pid(word: &[u8]) -> Option<Pid>
    ensures { option_map (λ p. p.0) result ≡ pid_of word.now }
{
    match number(word) {
        Some(n) => { if n < 256 { Some(Pid(n as u8)) } else { None } }
        None => None,
    }
}

fn private_key_asked(pid: Option<Pid>, page: Option<u32>) -> Option<Key>
    ensures { result ≡ private_key_asked (option_map (λ p. p.0) pid) page }
{
    match (pid, page) {
        (Some(pid), Some(page)) => Some(Key::Private(pid, Vpn(page))),
        _ => None,
    }
}

fn shared_key_asked(area: Option<u32>, index: Option<u32>) -> Option<Key>
    ensures { result ≡ shared_key_asked area index }
{
    match (area, index) {
        (Some(area), Some(index)) => Some(Key::Shared(Area(area), index)),
        _ => None,
    }
}

/// The page that holds the address that a word is.
fn page_asked(word: &[u8]) -> Option<u32>
    ensures { result ≡ page_asked word.now }
{
    match number(word) {
        Some(address) => Some(address / 4096),
        None => None,
    }
}

/// The page that a word names: `p1.16` and `s0.2` as a log has them, or a process and an address,
/// `1:0x11000`. Each number may be decimal, or hexadecimal behind `0x`.
pub(crate) fn key(word: &[u8]) -> Option<Key>
    ensures { result ≡ key_asked word.now }
{
    match word {
        [b'p', rest @ ..] => private_key_asked(
            pid(before(b'.', rest)),
            number(after_byte(b'.', rest)),
        ),
        [b's', rest @ ..] => shared_key_asked(
            number(before(b'.', rest)),
            number(after_byte(b'.', rest)),
        ),
        _ => private_key_asked(pid(before(b':', word)), page_asked(after_byte(b':', word))),
    }
}
