ghost use Rattle.std.specs.Prelude.{◌≡◌, ◌≢◌, ◌+◌, ◌<◌, ◌≤◌, true, false, [], ℕ, List, Option, MatchResult, IfOk, length, Err, None};
ghost use Rattle.mm_move_rules.specs.{IsLegal};
ghost use Rattle.mm_types.specs.{Rose, Move};
ghost use Rattle.mm_io.specs.{HasLine};
ghost use Rattle.mm_replay.specs.Standing.{life as life_of};
ghost use Rattle.mm_log_check.specs.Verdict.{most_log_bytes};
ghost use Rattle.mm_log_check.specs.Reading.{IsReadyToRead, Reading, ReadsMoves, Stops, TakesNext};

use crate::endings::Ending;
use crate::fronts::front_move;
use mm_io::{Found, InputBuffer, Source};
use mm_replay::{Life, read_move};
use mm_types::{Failed, Move};

/// The most bytes that a log may have.
const MOST_BYTES: u64 = 1_000_000_000_000;

/// More lines than there are bytes that a log may have.
pub const MOST_LINES: u64 = 1_000_000_000_001;

/// A log that is read line by line. It holds one line, and what one read gives.
#[derive(Drop)]
pub struct LogReader {
    held: InputBuffer,
    /// How many lines were taken.
    lines: u64,
    /// How many bytes were taken from the source.
    bytes: u64,
}

impl LogReader {
    /// Nothing was read.
    pub fn new() -> LogReader
        ensures ready { IsReadyToRead result }
        ensures lines { result.lines ≡ 0 }
        ensures none { (left : Option (List ℕ)) → Reading left left result [] }
    {
        LogReader {
            held: InputBuffer::new(),
            lines: 0,
            bytes: 0,
        }
    }

    /// Takes the next line, a move that is legal in this state. An ending comes where there is
    /// none: at the end of the log, at a line of no such move, and after a byte too many or a read
    /// that failed. After an ending it reads no more.
    #[inline(never)]
    #[tactic(auto, using(crate::proofs::Readings::readings))]
    pub fn next_move<S: Source>(&mut self, life: &Life, source: &mut S) -> Result<Move, Ending>
        requires { IsReadyToRead self.old }
        ensures read { (left : Option (List ℕ)) (moves : List Move) →
            Reading left (S.left source.old) self.old moves
            → MatchResult result
            (λ m. ReadsMoves left (S.left source.new) self.new moves (life_of life.now) m)
            (λ e. Stops left (S.left source.new) moves (life_of life.now) e) }
        ensures legal { IfOk result (λ m. IsLegal m (life_of life.now)) }
        ensures ready { MatchResult result (λ m. IsReadyToRead self.new ×
            (self.new.lines ≡ self.old.lines + 1)) (λ e. Unit {0}) }
        ensures later { S.faults source.old ≤ S.faults source.new }
        ensures blame { result ≡ Err Ending.ReadFault →
            Rose (S.faults source.old) (S.faults source.new) }
        ensures same { result ≢ Err Ending.ReadFault →
            S.faults source.new ≡ S.faults source.old }
    {
        let before = held_len(&self.held);
        let found = match self.held.next(source) {
            Ok(found) => found,
            Err(Failed) => return Err(Ending::ReadFault),
        };
        let taken = held_len(&self.held) - before;
        self.bytes += taken as u64;
        if self.bytes > MOST_BYTES {
            return Err(Ending::TooLong);
        }
        match found {
            Found::Line(len) => self.take_line(len, life),
            Found::Long => Err(Ending::No(self.lines + 1, None)),
            Found::End => Err(last_line(&self.held, self.lines)),
        }
    }

    /// Takes the line in front of the bytes held, where it is read without seeking its end and is
    /// a move that is legal in this state. Else it takes nothing.
    #[tactic(auto, using(crate::proofs::Readings::readings))]
    fn take_front(&mut self, life: &Life, m: &mut Move) -> bool
        requires { IsReadyToRead self.old }
        ensures read { result ≡ true → (left left' : Option (List ℕ)) (moves : List Move) →
            Reading left left' self.old moves
            → ReadsMoves left left' self.new moves (life_of life.now) m.new }
        ensures legal { result ≡ true → IsLegal m.new (life_of life.now) }
        ensures ready { result ≡ true → IsReadyToRead self.new ×
            (self.new.lines ≡ self.old.lines + 1) }
        ensures none { result ≡ false → self.new ≡ self.old }
    {
        let bytes = self.held.bytes();
        let Some(rest) = front_move(bytes, m) else {
            return false;
        };
        let len = bytes.len() - rest.len();
        if !life.is_legal(m) {
            return false;
        }
        self.held.skip(len);
        self.lines += 1;
        true
    }

    /// Takes the next line as `next_move` does, and writes its move. After an error what stands in
    /// `m` is not told.
    #[inline(always)]
    pub fn take_next<S: Source>(
        &mut self,
        life: &Life,
        source: &mut S,
        m: &mut Move,
    ) -> Result<(), Ending>
        requires { IsReadyToRead self.old }
        ensures read { (left : Option (List ℕ)) (moves : List Move) →
            Reading left (S.left source.old) self.old moves
            → MatchResult result
            (λ u. ReadsMoves left (S.left source.new) self.new moves (life_of life.now) m.new)
            (λ e. Stops left (S.left source.new) moves (life_of life.now) e) }
        ensures legal { IfOk result (λ u. IsLegal m.new (life_of life.now)) }
        ensures ready { MatchResult result (λ u. IsReadyToRead self.new ×
            (self.new.lines ≡ self.old.lines + 1)) (λ e. Unit {0}) }
        ensures later { S.faults source.old ≤ S.faults source.new }
        ensures blame { result ≡ Err Ending.ReadFault →
            Rose (S.faults source.old) (S.faults source.new) }
        ensures same { result ≢ Err Ending.ReadFault →
            S.faults source.new ≡ S.faults source.old }
    {
        if self.take_front(life, m) {
            return Ok(());
        }
        *m = self.next_move(life, source)?;
        Ok(())
    }

    /// Takes the line of `len` bytes that stands in front of those held.
    #[tactic(auto, using(crate::proofs::Readings::readings))]
    fn take_line(&mut self, len: usize, life: &Life) -> Result<Move, Ending>
        requires line { HasLine self.old.held len }
        requires few { self.old.bytes ≤ most_log_bytes }
        requires lines { self.old.lines + length self.old.held ≤ self.old.bytes }
        requires held { length self.old.held < len + 1 + 4096 }
        ensures { TakesNext self.old self.new len (life_of life.now) result }
    {
        let Some(m) = read_move(&self.held.bytes()[..len]) else {
            return Err(Ending::No(self.lines + 1, None));
        };
        if !life.is_legal(&m) {
            return Err(Ending::No(self.lines + 1, Some(m)));
        }
        self.held.skip(len + 1);
        self.lines += 1;
        Ok(m)
    }
}

/// How many bytes are held.
fn held_len(held: &InputBuffer) -> usize
    ensures { result ≡ length held.now }
{
    held.bytes().len()
}

/// The end of a log, after so many whole lines: nothing may be left.
fn last_line(held: &InputBuffer, lines: u64) -> Ending
    requires { lines ≤ most_log_bytes }
    ensures whole { held.now ≡ [] → result ≡ Ending.Yes }
    ensures cut { 0 < length held.now → result ≡ Ending.No (lines + 1) None }
{
    if held.bytes().is_empty() {
        Ending::Yes
    } else {
        Ending::No(lines + 1, None)
    }
}
