ghost use Rattle.std.specs.Prelude.{◌≡◌, ◌≤◌, ◌<◌, length};
ghost use Rattle.mm_types.specs.declared.moves.Move.TheVariants as move;
ghost use Rattle.mm_move_rules.specs.{spelling_of_move, IsMove};
ghost use Rattle.mm_log_writer.specs.Counted.{HasNumber};

use crate::spellings::{EMPTY, Line, put_bytes, put_numbered, put_tail};
use mm_types::LineKind;
use std::marker::Model;

/// The line of a move `at`. Its number ends at a place that stays, so that a number that is one
/// more is mostly one digit more.
#[derive(Drop)]
pub(crate) struct AtLine {
    room: Line,
    number: u32,
    start: usize,
    end: usize,
}

impl Model for AtLine {
    ghost use Rattle.std.specs.Prelude.{List, ℕ, take, drop};
    ghost use Rattle.mm_log_writer.specs.Counted.{IsAtLine};

    ghost Value = { List ℕ };

    ghost view = { λ l. drop l.start (take l.end l.room) };

    ghost invariant = { λ l. IsAtLine l.room l.start l.end l.number };
}

impl AtLine {
    pub(crate) fn new() -> AtLine {
        let mut room = EMPTY;
        let start = begin(&mut room, 0);
        AtLine {
            room,
            number: 0,
            start,
            end: 13,
        }
    }

    /// Makes it the line of this number and kind.
    #[inline(always)]
    pub(crate) fn spell(&mut self, n: u32, kind: LineKind)
        ensures line { self.new ≡ spelling_of_move (move.At n kind) }
        ensures some { 0 < length self.new }
        ensures in_range { IsMove (move.At n kind) }
    {
        self.start = renumber(&mut self.room, self.start, self.number, n);
        self.number = n;
        self.end = put_tail(&mut self.room, kind);
    }

    /// Its bytes.
    pub(crate) fn text(&self) -> &[u8]
        ensures { result.now ≡ self.now }
    {
        &self.room[self.start..self.end]
    }
}

/// Writes a number that follows on another, and tells where the line starts.
#[inline(always)]
fn renumber(room: &mut Line, start: usize, number: u32, n: u32) -> usize
    requires { HasNumber room.old start number }
    ensures { HasNumber room.new result n }
{
    let last = room[12];
    if n > number && n - number == 1 && last < b'9' {
        room[12] = last + 1;
        start
    } else {
        begin(room, n)
    }
}

/// Writes a number anew, and tells where the line starts.
#[inline(never)]
fn begin(room: &mut Line, n: u32) -> usize
    ensures { HasNumber room.new result n }
{
    let mut text = EMPTY;
    let end = put_numbered(&mut text, 0, b"at ", n);
    put_bytes(room, 13 - end, &text[..end]);
    13 - end
}
