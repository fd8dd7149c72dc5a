ghost use Rattle.std.specs.Prelude.{◌≡◌, ◌<◌, false, length};
ghost use Rattle.mm_types.specs.{Loans, Loan};
ghost use Rattle.mm_move_rules.specs.{Log, Grew, Flushed, spelling_of_move, IsMove};
ghost use Rattle.mm_log_writer.specs.Recorded.{FailsExactly, log_of};

use crate::at_lines::AtLine;
use crate::spellings::{EMPTY, Line, put_line};
use mm_io::{Sink, write_all};
use mm_types::{Failed, Move};

/// Takes note of moves, one after another.
pub trait Moves {
    /// The bytes written and those that were given on, where told; whether writing has failed; the
    /// count of faults, which never falls.
    ghost log: { Self → Log };

    /// The references that it holds.
    ghost loans: { Self → Loans };

    /// Writes the move's line. Where a call of the sink fails a front of the line is written that
    /// is not all of it, and the recorder has failed: from then on nothing is written.
    fn note(&mut self, m: Move)
        ensures grew { Grew (log self.old) (log self.new) (spelling_of_move m) }
        ensures exact { FailsExactly (log self.old) (log self.new) (spelling_of_move m) }
        ensures in_range { IsMove m }
        ensures loans { loans self.new ≡ loans self.old };

    /// Gives on the lines that were written. Where that fails the result alone says so: the bytes
    /// written stay, and so does whether a note failed.
    fn flush(&mut self) -> Result<(), Failed>
        ensures flushed { Flushed (log self.old) (log self.new) result }
        ensures loans { loans self.new ≡ loans self.old };

    /// Whether a note failed.
    fn failed(&self) -> bool
        ensures { result ≡ (log self.now).failed };
}

/// Writes a line, unless a call failed before; tells whether one has failed.
#[inline(always)]
#[tactic(auto, using(crate::proofs::Growing::growing))]
fn write_line<K: Sink>(sink: &mut K, failed: bool, line: &[u8]) -> bool
    requires some { 0 < length line.now }
    ensures grew { Grew
        (log_of (K.taken sink.old) (K.given sink.old) failed (K.faults sink.old))
        (log_of (K.taken sink.new) (K.given sink.new) result (K.faults sink.new)) line.now }
    ensures exact { FailsExactly
        (log_of (K.taken sink.old) (K.given sink.old) failed (K.faults sink.old))
        (log_of (K.taken sink.new) (K.given sink.new) result (K.faults sink.new)) line.now }
    ensures loans { K.loans sink.new ≡ K.loans sink.old }
{
    if failed {
        return true;
    }
    match write_all(sink, line) {
        Ok(()) => false,
        Err(Failed) => true,
    }
}

/// Writes the moves that it is told to a sink that was lent to it. It keeps none of them.
#[derive(Drop)]
pub struct Recorder<'a, K: Sink> {
    sink: &'a mut K,
    /// Room for the line of a move. It is kept, since a new one would be cleared for each move.
    line: Line,
    /// That of a move `at`, which is written for most lines.
    at: AtLine,
    failed: bool,
}

impl<'a, K: Sink> Recorder<'a, K> {
    /// A recorder that has not failed.
    pub fn new(sink: &'a mut K) -> Recorder<'a, K>
        ensures same_reference { result.sink.ghost_name ≡ sink.entry.ghost_name }
        ensures sink { result.sink.now ≡ sink.old }
        ensures fresh { result.failed ≡ false }
    {
        Recorder {
            sink,
            line: EMPTY,
            at: AtLine::new(),
            failed: false,
        }
    }

    /// Gives the sink back as it stands.
    pub fn finish(self) -> &'a mut K
        ensures same_reference { result.ghost_name ≡ self.entry.sink.ghost_name }
        ensures sink { result.now ≡ self.entry.sink.now }
    {
        let Recorder {
            sink,
            line: _,
            at: _,
            failed: _,
        } = self;
        sink
    }
}

impl<'a, K: Sink> Moves for Recorder<'a, K> {
    ghost log = { λ r. record {
      bytes = K.taken r.sink.now;
      given = K.given r.sink.now;
      failed = r.failed;
      faults = K.faults r.sink.now;
    } };

    ghost loans = { λ r. Loan r.sink.ghost_name };

    #[inline(always)] // where it is called the move is known, and then nothing asks which it is
    fn note(&mut self, m: Move) {
        match m {
            Move::At(n, kind) => {
                self.at.spell(n, kind);
                self.failed = write_line(self.sink, self.failed, self.at.text());
            }
            _ => {
                let end = put_line(&mut self.line, &m);
                self.failed = write_line(self.sink, self.failed, &self.line[..end]);
            }
        }
    }

    fn flush(&mut self) -> Result<(), Failed> {
        self.sink.flush()
    }

    fn failed(&self) -> bool {
        self.failed
    }
}
