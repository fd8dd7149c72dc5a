ghost use Rattle.std.specs.Prelude.{◌≡◌, ◌≤◌, ◌<◌, ◌+◌, ◌/◌, ◌%◌, ◌∷◌, ◌++◌, ℕ, List, [], true, length, take, IfOk, OnOk};
ghost use Rattle.mm_types.specs.{glyph, spelling};
ghost use Rattle.mm_io.specs.{CountsFaults};
ghost use Rattle.mm_run.specs.Texts.{WroteText};

use mm_io::{Sink, write_all};
use mm_text::{LineBuf, spell};
use mm_types::{Answer, ByteBuf, Failed, NoMemory};
use std::alloc::Global;
use std::marker::Model;

/// So many bytes of answers are kept at most.
const ROOM: usize = 65536;

/// The digits below 16 as bytes, with upper-case letters from ten on.
static GLYPHS: [u8; 16] = [
    b'0', b'1', b'2', b'3', b'4', b'5', b'6', b'7', b'8', b'9', b'A', b'B', b'C', b'D', b'E', b'F',
];

/// A digit below 16 as a byte.
#[inline(always)]
fn digit_at(digit: u8) -> u8
    requires { digit < 16 }
    ensures { result ≡ glyph digit }
{
    GLYPHS[digit as usize]
}

/// Writes a byte, and tells where it ends.
#[inline(always)]
fn put_byte(out: &mut [u8], at: usize, byte: u8) -> usize
    requires { at < length out.old }
    ensures text { take result out.new ≡ take at out.old ++ byte ∷ [] }
    ensures end { result ≡ at + 1 }
    ensures room { length out.new ≡ length out.old }
{
    out[at] = byte;
    at + 1
}

/// Writes a byte as two digits.
#[inline(always)]
fn put_pair(out: &mut [u8], at: usize, byte: u8) -> usize
    requires { at + 2 ≤ length out.old }
    ensures text { take result out.new
        ≡ (take at out.old ++ glyph (byte / 16) ∷ []) ++ glyph (byte % 16) ∷ [] }
    ensures end { result ≡ at + 2 }
    ensures room { length out.new ≡ length out.old }
{
    let next = put_byte(out, at, digit_at(byte / 16));
    put_byte(out, next, digit_at(byte % 16))
}

/// Writes the answer that a read gives, and tells where it ends.
#[inline(always)]
#[tactic(auto, using(crate::proofs::Pairs::reads))]
fn put_read(out: &mut [u8], at: usize, bytes: &[u8]) -> usize
    requires room { at + 256 ≤ length out.old }
    requires few { length bytes.now ≤ 64 }
    ensures text { take result out.new ≡ take at out.old ++ spelling (Answer.Bytes bytes.now) }
    ensures few { result ≤ at + 256 }
    ensures room { length out.new ≡ length out.old }
{
    let next = put_byte(out, at, b'o');
    let next = put_byte(out, next, b'k');
    let mut end = put_byte(out, next, b' ');
    for byte in bytes {
        end = put_pair(out, end, *byte);
    }
    put_byte(out, end, b'\n')
}

/// Writes a text, and tells where it ends.
fn put_text(out: &mut [u8], at: usize, text: &[u8]) -> usize
    requires { at + length text.now ≤ length out.old }
    ensures text { take result out.new ≡ take at out.old ++ text.now }
    ensures end { result ≡ at + length text.now }
    ensures room { length out.new ≡ length out.old }
{
    let end = at + text.len();
    out[at..end].copy_from_slice(text);
    end
}

/// The answers that are kept until the moves of their lines are given on. Their room is taken at
/// the start.
#[derive(Drop)]
pub(crate) struct Kept {
    room: Vec<u8>,
    len: usize,
}

impl Model for Kept {
    ghost Value = { List ℕ };

    ghost view = { λ k. take k.len k.room.items };

    ghost invariant = { λ k. (length k.room.items ≡ 65536) × (k.len ≤ 65536) };
}

impl Kept {
    pub(crate) fn new(alloc: Global) -> Result<Kept, NoMemory>
        ensures none { IfOk result (λ k. k ≡ []) }
    {
        let room = vec![in alloc; 0; ROOM]?;
        Ok(Kept { room, len: 0 })
    }

    pub(crate) fn bytes(&self) -> &[u8]
        ensures { result.now ≡ self.now }
    {
        &self.room.as_slice()[..self.len]
    }

    /// No more bytes are kept than have room.
    pub(crate) fn fits(&self)
        ensures { length self.now ≤ 65536 }
    {
        let _room = &self.room;
    }

    /// Whether one more answer surely has room.
    pub(crate) fn has_room(&self) -> bool
        ensures { result ≡ true → length self.now + 256 ≤ 65536 }
    {
        self.len <= ROOM - 256
    }

    fn clear(&mut self)
        ensures { self.new ≡ [] }
    {
        self.len = 0;
    }

    /// Keeps the answer `ok`.
    #[inline(always)]
    fn keep_ok(&mut self)
        requires { length self.old + 256 ≤ 65536 }
        ensures { self.new ≡ self.old ++ spelling Answer.Ok }
    {
        let room = self.room.as_mut_slice();
        let next = put_byte(room, self.len, b'o');
        let next = put_byte(room, next, b'k');
        self.len = put_byte(room, next, b'\n');
    }

    /// Keeps the answer that a read gives.
    #[inline(always)]
    fn keep_bytes(&mut self, bytes: &ByteBuf)
        requires { length self.old + 256 ≤ 65536 }
        ensures { self.new ≡ self.old ++ spelling (Answer.Bytes bytes.now) }
    {
        self.len = put_read(self.room.as_mut_slice(), self.len, bytes.as_slice());
    }

    /// Keeps an answer of another kind, which is spelled in a buffer of its own.
    #[inline(never)]
    fn keep_other(&mut self, answer: &Answer)
        requires { length self.old + 256 ≤ 65536 }
        ensures { self.new ≡ self.old ++ spelling answer.now }
    {
        let mut line = LineBuf::new();
        spell(answer, &mut line);
        self.len = put_text(self.room.as_mut_slice(), self.len, line.as_slice());
    }

    /// Keeps an answer. The commonest two take no line, which would be cleared.
    pub(crate) fn keep(&mut self, answer: &Answer)
        requires { length self.old + 256 ≤ 65536 }
        ensures { self.new ≡ self.old ++ spelling answer.now }
    {
        match answer {
            Answer::Ok => self.keep_ok(),
            Answer::Bytes(bytes) => self.keep_bytes(bytes),
            _ => self.keep_other(answer),
        }
    }

    /// Writes the answers, and has the sink give them on. None is kept then.
    pub(crate) fn give_on<O: Sink>(&mut self, out: &mut O) -> Result<(), Failed>
        ensures none { self.new ≡ [] }
        ensures few { length self.old ≤ 65536 }
        ensures wrote { WroteText result (O.taken out.old) (O.taken out.new) self.old }
        ensures gave { OnOk result (O.given out.new ≡ O.taken out.new) }
        ensures cause { CountsFaults (O.faults out.old) (O.faults out.new) result }
    {
        self.fits();
        let wrote = write_all(out, self.bytes());
        self.clear();
        match wrote {
            Ok(()) => out.flush(),
            Err(e) => Err(e),
        }
    }
}
