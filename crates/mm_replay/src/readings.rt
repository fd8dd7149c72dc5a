ghost use Rattle.std.specs.Prelude.{◌≡◌, ◌^◌, ℕ, List, Option, IfSome, Some, [], codes, option_map};
ghost use Rattle.mm_types.specs.{Move, Key};
ghost use Rattle.mm_move_rules.specs.{move_text, key_onto, IsMove, IsKey, move_onto};
ghost use Rattle.mm_replay.specs.{strip, number_from, below, read_number, number_behind, read_pid, read_place, read_key, read_frame, read_plain_kind};
ghost use Rattle.mm_replay.specs.{read_kind, read_end, read_taking, read_text, read_private, read_shared, home_behind, key_behind, past};
ghost use Rattle.mm_replay.specs.{place_behind, stored_behind};

use mm_types::{Area, Block, Frame, Key, LineKind, Move, Pid, Place, Slot, Stored, Vpn};

/// What stands after a word, where the text begins with it.
fn behind<'a>(text: &'a [u8], word: &[u8]) -> Option<&'a [u8]>
    ensures { option_map (λ x. x.now) result ≡ strip word.now text.now }
{
    let mut left = word;
    let mut rest = text;
    while let [wanted, others @ ..] = left {
        match rest {
            [byte, more @ ..] if *byte == *wanted => {
                rest = more;
                left = others;
            }
            _ => return None,
        }
    }
    Some(rest)
}

/// Goes on with a number by the digits in front of a text. The number stays below 2^32.
#[tactic(auto, using(crate::proofs::Numbers::numbers))]
fn digits(first: u8, text: &[u8]) -> Option<(u32, &[u8])>
    ensures { option_map (λ p. (p.0, p.1.now)) result
        ≡ below (2 ^ 32) (number_from first text.now) }
{
    let mut rest = text;
    let mut sum = u64::from(first);
    while let [byte, more @ ..] = rest {
        if *byte < b'0' || *byte > b'9' {
            break;
        }
        sum = 10 * sum + u64::from(*byte - b'0');
        if sum > 0xFFFF_FFFF {
            return None;
        }
        rest = more;
    }
    Some((sum as u32, rest))
}

/// The number below 2^32 in front of a text, and what stands after it. No zero stands in front of
/// another digit.
fn number(text: &[u8]) -> Option<(u32, &[u8])>
    ensures { option_map (λ p. (p.0, p.1.now)) result ≡ read_number text.now }
{
    let [byte, rest @ ..] = text else {
        return None;
    };
    if *byte < b'0' || *byte > b'9' {
        return None;
    }
    if *byte > b'0' {
        return digits(*byte - b'0', rest);
    }
    Some((0, rest))
}

/// The number after a word.
fn number_behind<'a>(text: &'a [u8], word: &[u8]) -> Option<(u32, &'a [u8])>
    ensures { option_map (λ p. (p.0, p.1.now)) result ≡ number_behind word.now text.now }
{
    let rest = behind(text, word)?;
    number(rest)
}

fn pid(text: &[u8]) -> Option<(Pid, &[u8])>
    ensures { option_map (λ p. (p.0, p.1.now)) result ≡ read_pid text.now }
{
    let (number, rest) = number(text)?;
    if number < 256 {
        Some((Pid(number as u8), rest))
    } else {
        None
    }
}

fn frame(text: &[u8]) -> Option<(Frame, &[u8])>
    ensures { option_map (λ p. (p.0, p.1.now)) result ≡ read_frame text.now }
{
    let (number, rest) = number(text)?;
    Some((Frame(number), rest))
}

fn place(text: &[u8]) -> Option<(Place, &[u8])>
    ensures { option_map (λ p. (p.0, p.1.now)) result ≡ read_place text.now }
{
    let (pid, rest) = pid(text)?;
    let (vpn, last) = number_behind(rest, b".")?;
    Some((Place { pid, vpn: Vpn(vpn) }, last))
}

fn private_key(text: &[u8]) -> Option<(Key, &[u8])>
    ensures { option_map (λ p. (p.0, p.1.now)) result ≡ read_private text.now }
{
    let (pid, rest) = pid(text)?;
    let (vpn, last) = number_behind(rest, b".")?;
    Some((Key::Private(pid, Vpn(vpn)), last))
}

fn shared_key(text: &[u8]) -> Option<(Key, &[u8])>
    ensures { option_map (λ p. (p.0, p.1.now)) result ≡ read_shared text.now }
{
    let (area, rest) = number(text)?;
    let (index, last) = number_behind(rest, b".")?;
    Some((Key::Shared(Area(area), index), last))
}

/// The key in front of a text, and what stands after it.
fn key(text: &[u8]) -> Option<(Key, &[u8])>
    ensures { option_map (λ p. (p.0, p.1.now)) result ≡ read_key text.now }
{
    if let Some(rest) = behind(text, b"p") {
        return private_key(rest);
    }
    let rest = behind(text, b"s")?;
    shared_key(rest)
}

/// The key after a blank.
fn key_behind(text: &[u8]) -> Option<(Key, &[u8])>
    ensures { option_map (λ p. (p.0, p.1.now)) result ≡ key_behind text.now }
{
    let rest = behind(text, b" ")?;
    key(rest)
}

/// The place after a blank.
fn place_behind(text: &[u8]) -> Option<(Place, &[u8])>
    ensures { option_map (λ p. (p.0, p.1.now)) result ≡ place_behind text.now }
{
    let rest = behind(text, b" ")?;
    place(rest)
}

/// Each of these words, one after another: where the text begins with it, what it makes of the one
/// or two parts that stand behind it, and what stands after them. Behind a comma stand the names of
/// further numbers, each behind a blank.
macro_rules! words {
    ($text:ident, $($word:literal => $make:path
        $(: $part:ident $($other:ident)? $(, $($number:ident)*)?)?;)*) => {
        $(
            if let Some(rest) = behind($text, $word) {
                $(
                    let Some(($part, rest)) = $part(rest) else { return None };
                    $(let Some(($other, rest)) = $other(rest) else { return None };)?
                    $($(
                        let Some(($number, rest)) = number_behind(rest, b" ") else { return None };
                    )*)?
                )?
                return Some(($make $(($part $(, $other)? $($(, $number)*)?))?, rest));
            }
        )*
    };
}

/// A kind of line that names no process.
fn plain_kind(text: &[u8]) -> Option<(LineKind, &[u8])>
    ensures { option_map (λ p. (p.0, p.1.now)) result ≡ read_plain_kind text.now }
{
    words!(text,
        b"call" => LineKind::Call;
        b"writer" => LineKind::Writer;
        b"zeroer" => LineKind::Zeroer;
        b"io" => LineKind::Io;
        b"machine " => LineKind::Machine: number, slots depth blocks;
        b"grow " => LineKind::Grow: number;
    );
    None
}

fn kind(text: &[u8]) -> Option<(LineKind, &[u8])>
    ensures { option_map (λ p. (p.0, p.1.now)) result ≡ read_kind text.now }
{
    words!(text,
        b"access " => LineKind::Access: pid;
        b"thread " => LineKind::Thread: pid;
        b"unbind " => LineKind::Unbind: pid;
        b"trim " => LineKind::Trim: pid;
        b"process " => LineKind::Process: pid, min max;
    );
    plain_kind(text)
}

/// The kind after a blank.
fn kind_behind(text: &[u8]) -> Option<(LineKind, &[u8])>
    ensures { option_map (λ p. (p.0, p.1.now)) result
        ≡ past (strip (codes " ") text.now) read_kind }
{
    let rest = behind(text, b" ")?;
    kind(rest)
}

/// The ends of requests, and `soil`.
fn end_move(text: &[u8]) -> Option<(Move, &[u8])>
    ensures { option_map (λ p. (p.0, p.1.now)) result ≡ read_end text.now }
{
    words!(text,
        b"wrote " => Move::Wrote: frame;
        b"got " => Move::Got: frame;
        b"soil " => Move::Soil: frame;
        b"lost " => Move::Lost: frame;
        b"bad " => Move::Bad: frame;
    );
    None
}

/// A write of a frame, of which stands in front where to.
fn stored_move(frame: Frame, text: &[u8]) -> Option<(Move, &[u8])>
    ensures { option_map (λ p. (p.0, p.1.now)) result ≡ stored_behind frame text.now }
{
    if let Some(rest) = behind(text, b" slot ") {
        let (slot, last) = number(rest)?;
        return Some((Move::Write(frame, Stored::Slot(Slot(slot))), last));
    }
    let (block, last) = number_behind(text, b" block ")?;
    Some((Move::Write(frame, Stored::Block(Block(block))), last))
}

/// The moves by which a frame is found and used.
fn taking_move(text: &[u8]) -> Option<(Move, &[u8])>
    ensures { option_map (λ p. (p.0, p.1.now)) result ≡ read_taking text.now }
{
    words!(text,
        b"give " => Move::Give: frame key_behind;
        b"clear " => Move::Clear: frame;
        b"read " => Move::Read: frame key_behind;
        b"steal " => Move::Steal: frame;
    );
    if let Some(rest) = behind(text, b"write ") {
        let Some((frame, rest)) = frame(rest) else {
            return None
        };
        return stored_move(frame, rest);
    }
    end_move(text)
}

/// A page added, of which stands in front where from.
fn home_move(key: Key, text: &[u8]) -> Option<(Move, &[u8])>
    ensures { option_map (λ p. (p.0, p.1.now)) result ≡ home_behind key text.now }
{
    if let Some(last) = behind(text, b" zero") {
        return Some((Move::Add(key, None), last));
    }
    let (block, last) = number_behind(text, b" block ")?;
    Some((Move::Add(key, Some(Block(block))), last))
}

/// The move in front of a text, and what stands after it.
fn move_in_front(text: &[u8]) -> Option<(Move, &[u8])>
    ensures { option_map (λ p. (p.0, p.1.now)) result ≡ read_text text.now }
{
    words!(text,
        b"at " => Move::At: number kind_behind;
        b"map " => Move::Map: frame place_behind;
        b"unmap " => Move::Unmap: place;
    );
    if let Some(rest) = behind(text, b"add ") {
        let Some((key, rest)) = key(rest) else {
            return None
        };
        return home_move(key, rest);
    }
    words!(text, b"drop " => Move::Drop: key;);
    taking_move(text)
}

/// The move that a line is, without its line feed; `None` where it is none. A number has no leading
/// zeros.
pub fn read_move(line: &[u8]) -> Option<Move>
    ensures spelled { IfSome result (λ m. move_text m ≡ line.now) }
    ensures in_range { IfSome result IsMove }
    ensures again { (m : Move) → IsMove m → move_text m ≡ line.now → result ≡ Some m }
{
    let (m, rest) = move_in_front(line)?;
    if rest.is_empty() { Some(m) } else { None }
}

/// The key that a word is; `None` where it is none. A number has no leading zeros.
pub fn read_key(word: &[u8]) -> Option<Key>
    ensures spelled { IfSome result (λ k. key_onto k [] ≡ word.now) }
    ensures in_range { IfSome result IsKey }
    ensures again { (k : Key) → IsKey k → key_onto k [] ≡ word.now → result ≡ Some k }
{
    let (key, rest) = key(word)?;
    if rest.is_empty() { Some(key) } else { None }
}

ghost use Rattle.std.specs.Prelude.{◌∷◌};

/// The lines of a log determine its moves: two lines in front of two texts that are equal are the
/// same move's.
pub fn lines_determine_moves()
    ensures { (m n : Move) (a b : List ℕ) → IsMove m → IsMove n →
        move_onto m (10 ∷ a) ≡ move_onto n (10 ∷ b) → (m ≡ n) × (a ≡ b) }
{}
