ghost use Rattle.std.specs.Prelude.{◌≡◌, ◌+◌, ◌-◌, ◌*◌, ◌<◌, ◌≤◌, ◌∷◌, ◌++◌, [], length, map};
ghost use Rattle.mm_move_classes.specs.{digits_of, number_text, numbers_text, key_numbers, block_numbers, stored_number, kind_numbers, kind_code};
ghost use Rattle.mm_move_classes.specs.{move_numbers, head_text, move_data, mark_data, numbers_of, code_of};

use crate::classes::Class;
use crate::words::code;
use mm_text::LineBuf;
use mm_types::{Block, Counts, Frame, Key, LineKind, Move, Stored};

/// Writes a number in digits to the base 32, the lowest first, at the end of a line.
#[tactic(auto, using(crate::proofs::Digits::digits))]
pub fn put_number(out: &mut LineBuf, n: u64)
    requires { length out.old + 13 ≤ 256 }
    ensures text { out.new ≡ out.old ++ number_text n }
    ensures few { length out.new ≤ length out.old + 13 }
{
    let mut rest = n;
    let mut places = 13u32;
    while places > 0 {
        places -= 1;
        if rest < 32 {
            out.push(63 + rest as u8);
            return;
        }
        out.push(95 + (rest % 32) as u8);
        rest /= 32;
    }
}

/// Writes numbers, one right after another.
#[tactic(auto, using(crate::proofs::Digits::digits))]
fn put_numbers(out: &mut LineBuf, numbers: &[u64])
    requires { length out.old + 13 * length numbers.now ≤ 256 }
    ensures text { out.new ≡ out.old ++ numbers_text numbers.now }
    ensures few { length out.new ≤ length out.old + 13 * length numbers.now }
{
    for n in numbers {
        put_number(out, *n);
    }
}

/// Writes the two numbers of a key: which process or control area, and which page of it.
fn put_key(out: &mut LineBuf, key: Key)
    requires { length out.old + 26 ≤ 256 }
    ensures text { out.new ≡ out.old ++ numbers_text (key_numbers key) }
    ensures few { length out.new ≤ length out.old + 26 }
{
    match key {
        Key::Private(pid, vpn) => {
            put_numbers(out, &[2 * u64::from(pid.0), u64::from(vpn.0)]);
        }
        Key::Shared(area, index) => {
            put_numbers(out, &[2 * u64::from(area.0) + 1, u64::from(index)]);
        }
    }
}

/// Writes a frame's number and those of a key.
#[tactic(auto, using(crate::proofs::Digits::digits))]
fn put_frame_and_key(out: &mut LineBuf, frame: Frame, key: Key)
    requires { length out.old + 39 ≤ 256 }
    ensures text { out.new ≡ out.old ++ numbers_text (frame.0 ∷ key_numbers key) }
    ensures few { length out.new ≤ length out.old + 39 }
{
    put_number(out, u64::from(frame.0));
    put_key(out, key);
}

/// Writes the numbers of an `add`.
#[tactic(auto, using(crate::proofs::Digits::digits))]
fn put_added(out: &mut LineBuf, key: Key, block: Option<Block>)
    requires { length out.old + 39 ≤ 256 }
    ensures text { out.new ≡ out.old ++ numbers_text (key_numbers key ++ block_numbers block) }
    ensures few { length out.new ≤ length out.old + 39 }
{
    put_key(out, key);
    match block {
        Some(block) => put_number(out, u64::from(block.0)),
        None => {}
    }
}

fn stored_number(stored: Stored) -> u64
    ensures { result ≡ stored_number stored }
{
    match stored {
        Stored::Slot(slot) => 2 * u64::from(slot.0),
        Stored::Block(block) => 2 * u64::from(block.0) + 1,
    }
}

/// Writes the numbers of a line's kind.
fn put_kind(out: &mut LineBuf, kind: LineKind)
    requires { length out.old + 52 ≤ 256 }
    ensures text { out.new ≡ out.old ++ numbers_text (kind_numbers kind) }
    ensures few { length out.new ≤ length out.old + 52 }
{
    match kind {
        LineKind::Machine(frames, slots, depth, blocks) => put_numbers(
            out,
            &[
                u64::from(frames),
                u64::from(slots),
                u64::from(depth),
                u64::from(blocks),
            ],
        ),
        LineKind::Process(pid, min, max) => put_numbers(
            out,
            &[u64::from(pid.0), u64::from(min), u64::from(max)],
        ),
        LineKind::Unbind(pid)
        | LineKind::Access(pid)
        | LineKind::Thread(pid)
        | LineKind::Trim(pid) => put_numbers(out, &[u64::from(pid.0)]),
        LineKind::Grow(count) => put_numbers(out, &[u64::from(count)]),
        LineKind::Writer | LineKind::Zeroer | LineKind::Io | LineKind::Call => {}
    }
}

/// Writes the numbers of a move.
fn put_move_numbers(out: &mut LineBuf, m: &Move)
    requires { length out.old + 52 ≤ 256 }
    ensures text { out.new ≡ out.old ++ numbers_text (move_numbers m.now) }
    ensures few { length out.new ≤ length out.old + 52 }
{
    match *m {
        Move::At(_, kind) => put_kind(out, kind),
        Move::Add(key, block) => put_added(out, key, block),
        Move::Drop(key) => put_key(out, key),
        Move::Give(frame, key) | Move::Read(frame, key) => put_frame_and_key(out, frame, key),
        Move::Map(frame, place) => put_numbers(
            out,
            &[
                u64::from(frame.0),
                u64::from(place.pid.0),
                u64::from(place.vpn.0),
            ],
        ),
        Move::Unmap(place) => put_numbers(out, &[u64::from(place.pid.0), u64::from(place.vpn.0)]),
        Move::Write(frame, stored) => put_numbers(
            out,
            &[u64::from(frame.0), stored_number(stored)],
        ),
        Move::Clear(frame)
        | Move::Steal(frame)
        | Move::Got(frame)
        | Move::Bad(frame)
        | Move::Soil(frame)
        | Move::Wrote(frame)
        | Move::Lost(frame) => put_numbers(out, &[u64::from(frame.0)]),
    }
}

/// The letter of a line's kind, as the data of a page has it.
pub fn kind_code(kind: LineKind) -> u8
    ensures { result ≡ kind_code kind }
{
    match kind {
        LineKind::Machine(_, _, _, _) => b'M',
        LineKind::Process(_, _, _) => b'P',
        LineKind::Unbind(_) => b'u',
        LineKind::Access(_) => b'a',
        LineKind::Thread(_) => b't',
        LineKind::Trim(_) => b'r',
        LineKind::Writer => b'w',
        LineKind::Zeroer => b'z',
        LineKind::Io => b'i',
        LineKind::Call => b'c',
        LineKind::Grow(_) => b'N',
    }
}

/// Writes what a move of this class begins with.
fn put_head(out: &mut LineBuf, class: Option<Class>, m: &Move)
    requires { length out.old + 2 ≤ 256 }
    ensures text { out.new ≡ out.old ++ head_text class m.now }
    ensures few { length out.new ≤ length out.old + 2 }
{
    match *m {
        Move::At(_, kind) => out.push_slice(&[b'\n', kind_code(kind)]),
        _ => match class {
            Some(class) => out.push(code(class)),
            None => {}
        },
    }
}

/// Writes a move with its class at the end of a line, in at most 54 bytes: for `at` a line feed
/// and the letter of its kind, for any other move the letter of its class; then its numbers. The
/// number of a line is not written, since it is the place of the line. None of the bytes is `<`
/// or `&`.
#[tactic(auto, using(crate::proofs::Digits::digits))]
pub fn put_move(out: &mut LineBuf, class: Option<Class>, m: &Move)
    requires { length out.old + 54 ≤ 256 }
    ensures text { out.new ≡ out.old ++ move_data class m.now }
    ensures few { length out.new ≤ length out.old + 54 }
{
    put_head(out, class, m);
    put_move_numbers(out, m);
}

/// The eight counts of a state.
pub fn counts_in(counts: Counts) -> [u64; 8]
    ensures { result ≡ numbers_of counts }
{
    [
        u64::from(counts.zeroed),
        u64::from(counts.free),
        u64::from(counts.standby),
        u64::from(counts.modified),
        u64::from(counts.active),
        u64::from(counts.transition),
        u64::from(counts.free_slots),
        u64::from(counts.requests),
    ]
}

/// Writes a mark at the end of a line, in at most 105 bytes: `=` and the eight counts of a state.
#[tactic(auto, using(crate::proofs::Digits::digits))]
pub fn put_mark(out: &mut LineBuf, counts: Counts)
    requires { length out.old + 105 ≤ 256 }
    ensures text { out.new ≡ out.old ++ mark_data counts }
    ensures few { length out.new ≤ length out.old + 105 }
{
    out.push(b'=');
    put_numbers(out, &counts_in(counts));
}
