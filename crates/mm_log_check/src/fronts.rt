ghost use Rattle.std.specs.Prelude.{◌≡◌, ◌∷◌, ◌++◌, IfSome, codes};
ghost use Rattle.mm_types.specs.{decimal};
ghost use Rattle.mm_move_rules.specs.{place_onto, key_onto, stored_onto};
ghost use Rattle.mm_log_check.specs.{StandsInFront, KindInFront};

use mm_types::{Area, Block, Frame, Key, LineKind, Move, Pid, Place, Slot, Stored, Vpn};

/// The code of the digit 0.
const ZERO: u32 = 48;

/// The number in front of a text, and what stands after it. `None` also where the text ends with
/// it, and where it may have more than nine digits.
#[inline(always)]
#[tactic(auto, using(crate::proofs::InFront::fronts))]
fn number(text: &[u8]) -> Option<(u32, &[u8])>
    ensures { IfSome result (λ p. decimal p.0 ++ p.1.now ≡ text.now) }
{
    let [first, after @ ..] = text else {
        return None;
    };
    let first = u32::from(*first);
    if first == ZERO {
        return Some((0, after));
    }
    if first < ZERO || first > ZERO + 9 {
        return None;
    }
    let mut sum = first - ZERO;
    let mut rest = after;
    while let [byte, more @ ..] = rest {
        let byte = u32::from(*byte);
        if byte < ZERO || byte > ZERO + 9 {
            return Some((sum, rest));
        }
        if sum > 99_999_999 {
            return None;
        }
        sum = 10 * sum + (byte - ZERO);
        rest = more;
    }
    None
}

#[inline(always)]
fn pid(text: &[u8]) -> Option<(Pid, &[u8])>
    ensures { IfSome result (λ p. decimal p.0.0 ++ p.1.now ≡ text.now) }
{
    let (number, rest) = number(text)?;
    if number < 256 {
        Some((Pid(number as u8), rest))
    } else {
        None
    }
}

/// The number after a byte.
#[inline(always)]
fn number_behind(byte: u8, text: &[u8]) -> Option<(u32, &[u8])>
    ensures { IfSome result (λ p. byte ∷ (decimal p.0 ++ p.1.now) ≡ text.now) }
{
    match text {
        [first, rest @ ..] if *first == byte => number(rest),
        _ => None,
    }
}

#[inline(always)]
fn place(text: &[u8]) -> Option<(Place, &[u8])>
    ensures { IfSome result (λ p. place_onto p.0 p.1.now ≡ text.now) }
{
    let (pid, rest) = pid(text)?;
    let (vpn, rest) = number_behind(b'.', rest)?;
    Some((Place { pid, vpn: Vpn(vpn) }, rest))
}

#[inline(always)]
fn private_key(text: &[u8]) -> Option<(Key, &[u8])>
    ensures { IfSome result (λ p. key_onto p.0 p.1.now ≡ codes "p" ++ text.now) }
{
    let (pid, rest) = pid(text)?;
    let (vpn, rest) = number_behind(b'.', rest)?;
    Some((Key::Private(pid, Vpn(vpn)), rest))
}

#[inline(always)]
fn shared_key(text: &[u8]) -> Option<(Key, &[u8])>
    ensures { IfSome result (λ p. key_onto p.0 p.1.now ≡ codes "s" ++ text.now) }
{
    let (area, rest) = number(text)?;
    let (index, rest) = number_behind(b'.', rest)?;
    Some((Key::Shared(Area(area), index), rest))
}

#[inline(always)]
fn key(text: &[u8]) -> Option<(Key, &[u8])>
    ensures { IfSome result (λ p. key_onto p.0 p.1.now ≡ text.now) }
{
    match text {
        [b'p', rest @ ..] => private_key(rest),
        [b's', rest @ ..] => shared_key(rest),
        _ => None,
    }
}

/// What stands after a line feed.
#[inline(always)]
fn end(text: &[u8]) -> Option<&[u8]>
    ensures { IfSome result (λ rest. 10 ∷ rest.now ≡ text.now) }
{
    match text {
        [b'\n', rest @ ..] => Some(rest),
        _ => None,
    }
}

/// The number in front of a text and a line feed, and what stands after them.
#[inline(always)]
fn last_number(text: &[u8]) -> Option<(u32, &[u8])>
    ensures { IfSome result (λ p. decimal p.0 ++ 10 ∷ p.1.now ≡ text.now) }
{
    let (number, rest) = number(text)?;
    let rest = end(rest)?;
    Some((number, rest))
}

/// The number of a frame, and what stands after its line feed.
#[inline(always)]
fn last_frame(text: &[u8]) -> Option<(Frame, &[u8])>
    ensures { IfSome result (λ p. decimal p.0.0 ++ 10 ∷ p.1.now ≡ text.now) }
{
    let (frame, rest) = last_number(text)?;
    Some((Frame(frame), rest))
}

/// A frame and a key, and what stands after the line feed.
#[inline(always)]
fn frame_and_key(text: &[u8]) -> Option<(Frame, Key, &[u8])>
    ensures { IfSome result (λ p. decimal p.0.0 ++ 32 ∷ key_onto p.1 (10 ∷ p.2.now) ≡ text.now) }
{
    let (frame, rest) = number(text)?;
    let rest = behind(rest, b" ")?;
    let (key, rest) = key(rest)?;
    let rest = end(rest)?;
    Some((Frame(frame), key, rest))
}

/// What stands after some words in front of a text. The first byte is compared apart, since most
/// calls end there.
#[inline(always)]
fn behind<'a>(text: &'a [u8], words: &[u8]) -> Option<&'a [u8]>
    ensures { IfSome result (λ rest. words.now ++ rest.now ≡ text.now) }
{
    let [first, others @ ..] = words else {
        return None;
    };
    match text {
        [byte, rest @ ..] if *byte == *first => rest.strip_prefix(others),
        _ => None,
    }
}

/// The process and the line feed of a kind's line, and what stands after them.
#[inline(always)]
fn last_pid(text: &[u8]) -> Option<(Pid, &[u8])>
    ensures { IfSome result (λ p. decimal p.0.0 ++ 10 ∷ p.1.now ≡ text.now) }
{
    let (pid, rest) = pid(text)?;
    let rest = end(rest)?;
    Some((pid, rest))
}

/// The kind of a line by its words, and what stands after the line feed; the rare ones are left
/// out.
#[inline(always)]
fn kind(text: &[u8]) -> Option<(LineKind, &[u8])>
    ensures { IfSome result (λ p. KindInFront p.0 p.1.now text.now) }
{
    if let Some(rest) = behind(text, b"access ") {
        let (pid, rest) = last_pid(rest)?;
        return Some((LineKind::Access(pid), rest));
    }
    if let Some(rest) = behind(text, b"thread ") {
        let (pid, rest) = last_pid(rest)?;
        return Some((LineKind::Thread(pid), rest));
    }
    if let Some(rest) = behind(text, b"io\n") {
        return Some((LineKind::Io, rest));
    }
    if let Some(rest) = behind(text, b"writer\n") {
        return Some((LineKind::Writer, rest));
    }
    if let Some(rest) = behind(text, b"call\n") {
        return Some((LineKind::Call, rest));
    }
    None
}

#[inline(always)]
fn at_move<'a>(text: &'a [u8], m: &mut Move) -> Option<&'a [u8]>
    ensures { IfSome result (λ rest. StandsInFront m.new rest.now (codes "at " ++ text.now)) }
{
    let (line, rest) = number(text)?;
    let rest = behind(rest, b" ")?;
    let (kind, rest) = kind(rest)?;
    *m = Move::At(line, kind);
    Some(rest)
}

#[inline(always)]
fn map_move<'a>(text: &'a [u8], m: &mut Move) -> Option<&'a [u8]>
    ensures { IfSome result (λ rest. StandsInFront m.new rest.now (codes "map " ++ text.now)) }
{
    let (frame, rest) = number(text)?;
    let rest = behind(rest, b" ")?;
    let (place, rest) = place(rest)?;
    *m = Move::Map(Frame(frame), place);
    end(rest)
}

/// Where a page is written to.
#[inline(always)]
fn stored(text: &[u8]) -> Option<(Stored, &[u8])>
    ensures { IfSome result (λ p. stored_onto p.0 (10 ∷ p.1.now) ≡ text.now) }
{
    if let Some(rest) = behind(text, b" slot ") {
        let (slot, rest) = last_number(rest)?;
        return Some((Stored::Slot(Slot(slot)), rest));
    }
    let rest = behind(text, b" block ")?;
    let (block, rest) = last_number(rest)?;
    Some((Stored::Block(Block(block)), rest))
}

#[inline(always)]
fn write_move<'a>(text: &'a [u8], m: &mut Move) -> Option<&'a [u8]>
    ensures { IfSome result (λ rest. StandsInFront m.new rest.now (codes "write " ++ text.now)) }
{
    let (frame, rest) = number(text)?;
    let (stored, rest) = stored(rest)?;
    *m = Move::Write(Frame(frame), stored);
    Some(rest)
}

/// A page of zeros.
#[inline(always)]
fn add_move<'a>(text: &'a [u8], m: &mut Move) -> Option<&'a [u8]>
    ensures { IfSome result (λ rest. StandsInFront m.new rest.now (codes "add " ++ text.now)) }
{
    let (key, rest) = key(text)?;
    let rest = behind(rest, b" zero\n")?;
    *m = Move::Add(key, None);
    Some(rest)
}

/// The rest of the moves that a page makes.
#[inline(always)]
fn other_move<'a>(text: &'a [u8], m: &mut Move) -> Option<&'a [u8]>
    ensures { IfSome result (λ rest. StandsInFront m.new rest.now text.now) }
{
    if let Some(rest) = behind(text, b"got ") {
        let (frame, rest) = last_frame(rest)?;
        *m = Move::Got(frame);
        return Some(rest);
    }
    if let Some(rest) = behind(text, b"write ") {
        return write_move(rest, m);
    }
    if let Some(rest) = behind(text, b"wrote ") {
        let (frame, rest) = last_frame(rest)?;
        *m = Move::Wrote(frame);
        return Some(rest);
    }
    if let Some(rest) = behind(text, b"soil ") {
        let (frame, rest) = last_frame(rest)?;
        *m = Move::Soil(frame);
        return Some(rest);
    }
    if let Some(rest) = behind(text, b"clear ") {
        let (frame, rest) = last_frame(rest)?;
        *m = Move::Clear(frame);
        return Some(rest);
    }
    if let Some(rest) = behind(text, b"add ") {
        return add_move(rest, m);
    }
    let rest = behind(text, b"give ")?;
    let (frame, key, rest) = frame_and_key(rest)?;
    *m = Move::Give(frame, key);
    Some(rest)
}

/// Reads the move whose line stands in front of a text, and answers what stands after the line.
/// `None` where none stands there, and also where the line is rare or its end is not there yet.
#[inline(always)]
pub(crate) fn front_move<'a>(text: &'a [u8], m: &mut Move) -> Option<&'a [u8]>
    ensures { IfSome result (λ rest. StandsInFront m.new rest.now text.now) }
{
    if let Some(rest) = behind(text, b"at ") {
        return at_move(rest, m);
    }
    if let Some(rest) = behind(text, b"map ") {
        return map_move(rest, m);
    }
    if let Some(rest) = behind(text, b"unmap ") {
        let (place, rest) = place(rest)?;
        *m = Move::Unmap(place);
        return end(rest);
    }
    if let Some(rest) = behind(text, b"steal ") {
        let (frame, rest) = last_frame(rest)?;
        *m = Move::Steal(frame);
        return Some(rest);
    }
    if let Some(rest) = behind(text, b"read ") {
        let (frame, key, rest) = frame_and_key(rest)?;
        *m = Move::Read(frame, key);
        return Some(rest);
    }
    other_move(text, m)
}
