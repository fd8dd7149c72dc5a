ghost use Rattle.std.specs.Prelude.{◌≡◌, bytes_eq, if◌then◌else◌};
ghost use Rattle.mm_script.specs.{read, NameOrDash, DeviceWord, DirectionWord};

use mm_text::name;
use mm_types::{Device, Direction, Name};

/// Whether a word is a text. A comparison in place of the call makes each chain of tests dear to
/// prove.
#[inline(always)]
pub fn is_text(word: &[u8], text: &[u8]) -> bool
    ensures { result ≡ bytes_eq word.now text.now }
{
    word == text
}

/// A name, or `-` for none.
#[tactic(auto, unfolding(crate::specs::Shape::read))]
pub fn name_or_dash(word: &[u8]) -> Option<Option<Name>>
    ensures { result ≡ read NameOrDash word.now }
{
    if is_text(word, b"-") {
        return Some(None);
    }
    Some(Some(name(word)?))
}

/// One of two values, each by its word.
fn either<T: Copy>(word: &[u8], first: &[u8], x: T, second: &[u8], y: T) -> Option<T>
    ensures { result ≡ (if bytes_eq word.now first.now then Some x else
        if bytes_eq word.now second.now then Some y else None) }
{
    if is_text(word, first) {
        return Some(x);
    }
    if is_text(word, second) {
        return Some(y);
    }
    None
}

/// `paging` or `file`.
#[tactic(auto, unfolding(crate::specs::Shape::read))]
pub fn device(word: &[u8]) -> Option<Device>
    ensures { result ≡ read DeviceWord word.now }
{
    either(word, b"paging", Device::Paging, b"file", Device::File)
}

/// `read` or `write`.
#[tactic(auto, unfolding(crate::specs::Shape::read))]
pub fn direction(word: &[u8]) -> Option<Direction>
    ensures { result ≡ read DirectionWord word.now }
{
    either(word, b"read", Direction::Read, b"write", Direction::Write)
}
