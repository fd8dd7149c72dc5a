ghost use Rattle.std.specs.Prelude.{◌≡◌, ◌≤◌, ◌<◌, ◌+◌, ◌-◌, ℕ, List, [], length, take, drop};
ghost use Rattle.mm_io.specs.Io.{CountsFaults, spare_read};
ghost use Rattle.mm_io.specs.Filling.{Filled, ReadOnce, Finds, FindsMore, spare_found, spare_more};
ghost use Rattle.mm_io.specs.Looking.{Looks};

use crate::Source;
use crate::looks::{Look, look_at};
use mm_types::Failed;
use std::marker::Model;

/// At most 256 bytes of a line, and what one read gives.
const ROOM: usize = 4352;

/// What stands in front of the bytes that a source gives.
#[derive(Clone, Copy)]
pub enum Found {
    /// A line of so many bytes, and its line feed.
    Line(usize),
    /// More bytes than a line may have.
    Long,
    /// The end, after the bytes that are held.
    End,
}

/// The bytes that were taken from a source and not used yet.
#[derive(Drop)]
pub struct InputBuffer {
    bytes: [u8; ROOM],
    start: usize,
    end: usize,
}

impl Model for InputBuffer {
    ghost Value = { List ℕ };

    ghost view = { λ h. take (h.end - h.start) (drop h.start h.bytes) };

    ghost invariant = { λ h. (h.start ≤ h.end) × (h.end ≤ 4352) };
}

/// Moves n bytes to the front.
fn move_front(bytes: &mut [u8; ROOM], start: usize, n: usize)
    requires { start + n ≤ 4352 }
    ensures { take n bytes.new ≡ take n (drop start bytes.old) }
{
    for i in 0..n {
        bytes[i] = bytes[start + i];
    }
}

impl InputBuffer {
    pub fn new() -> InputBuffer
        ensures { result ≡ [] }
    {
        InputBuffer {
            bytes: [0; ROOM],
            start: 0,
            end: 0,
        }
    }

    /// The bytes held.
    pub fn bytes(&self) -> &[u8]
        ensures { result.now ≡ self.now }
    {
        &self.bytes[self.start..self.end]
    }

    /// What stands in front of the bytes held, without a read.
    pub fn look(&self) -> Look
        ensures { Looks result self.now }
    {
        look_at(self.bytes())
    }

    /// Lets the first n go.
    pub fn skip(&mut self, n: usize)
        requires { n ≤ length self.old }
        ensures { self.new ≡ drop n self.old }
    {
        self.start += n;
    }

    /// Takes up to 4,096 bytes from the source.
    fn read_more<S: Source>(&mut self, source: &mut S) -> Result<usize, Failed>
        requires { length self.old ≤ 256 }
        ensures filled { Filled (S.left source.old) (S.left source.new) self.old self.new }
        ensures read { ReadOnce (S.left source.old) (S.left source.new) self.old self.new result }
        ensures cause { CountsFaults (S.faults source.old) (S.faults source.new) result }
        ensures idle { S.idle source.new ≤ S.idle source.old + (spare_read result) }
        ensures last { S.last_idle source.new ≡ spare_read result }
        ensures loans { S.loans source.new ≡ S.loans source.old }
    {
        let n = self.end - self.start;
        move_front(&mut self.bytes, self.start, n);
        self.start = 0;
        self.end = n;
        match source.read(&mut self.bytes[n..n + 4096]) {
            Ok(count) => {
                self.end = n + count;
                Ok(count)
            }
            Err(failed) => Err(failed),
        }
    }

    #[tactic(auto, using(crate::proofs::Fillings::filling))]
    /// Reads until it is known what stands in front.
    pub fn next<S: Source>(&mut self, source: &mut S) -> Result<Found, Failed>
        requires { length self.old < 4096 }
        ensures filled { Filled (S.left source.old) (S.left source.new) self.old self.new }
        ensures finds { Finds result (S.left source.new) self.new }
        ensures cause { CountsFaults (S.faults source.old) (S.faults source.new) result }
        ensures idle { S.idle source.new ≤ S.idle source.old + (spare_found result) }
        ensures last { spare_found result ≤ S.last_idle source.new }
        ensures loans { S.loans source.new ≡ S.loans source.old }
    {
        loop {
            match self.look() {
                Look::Line(n) => return Ok(Found::Line(n)),
                Look::Long => return Ok(Found::Long),
                Look::Open => {}
            }
            match self.read_more(source) {
                Ok(0) => return Ok(Found::End),
                Ok(_) => {}
                Err(failed) => return Err(failed),
            }
        }
    }

    #[tactic(auto, using(crate::proofs::Fillings::filling))]
    /// Whether there is a byte more.
    pub fn has_more<S: Source>(&mut self, source: &mut S) -> Result<bool, Failed>
        requires { length self.old < 4096 }
        ensures filled { Filled (S.left source.old) (S.left source.new) self.old self.new }
        ensures finds { FindsMore result (S.left source.new) self.new }
        ensures cause { CountsFaults (S.faults source.old) (S.faults source.new) result }
        ensures idle { S.idle source.new ≤ S.idle source.old + spare_more result }
        ensures last { spare_more result ≤ S.last_idle source.new }
        ensures loans { S.loans source.new ≡ S.loans source.old }
    {
        if self.start < self.end {
            return Ok(true);
        }
        Ok(self.read_more(source)? != 0)
    }
}
