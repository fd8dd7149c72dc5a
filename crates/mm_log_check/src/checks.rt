ghost use Rattle.std.specs.Prelude.{◌≡◌, ◌≢◌, ◌+◌, ◌<◌, ◌≤◌, ◌^◌, ℕ, List, Option, MatchResult, OnOk, OnErr, Err};
ghost use Rattle.mm_types.specs.{Rose};
ghost use Rattle.mm_move_rules.specs.{unstarted, IsLegal};
ghost use Rattle.mm_replay.specs.Standing.{life};
ghost use Rattle.mm_log_check.specs.Counting.{CountsNothing};
ghost use Rattle.mm_log_check.specs.Verdict.{Came};
ghost use Rattle.mm_log_check.specs.Stepping.{Steps, Halts, MovesWereTaken};
ghost use Rattle.mm_log_check.specs.Reading.{IsReadyToRead};

use crate::endings::Ending;
use crate::readers::{LogReader, MOST_LINES};
use crate::tallies::Tally;
use mm_io::Source;
use mm_replay::Life;
use mm_types::{Frame, Move, NoMemory};
use std::alloc::Global;

/// The state of a replay, and what was counted on the way.
#[derive(Drop)]
pub(crate) struct Checker {
    pub(crate) life: Life,
    pub(crate) tally: Tally,
}

impl Checker {
    pub(crate) fn new(alloc: Global) -> Checker
        ensures life { life result.life ≡ unstarted }
        ensures tally { CountsNothing result.tally }
    {
        Checker {
            life: Life::new(alloc),
            tally: Tally::new(alloc),
        }
    }

    /// Makes the next move, which is legal, and counts it.
    fn take(&mut self, m: &Move) -> Result<(), NoMemory>
        requires legal { IsLegal m.now (life self.old.life) }
        requires few { self.old.tally.counts.moves + 1 < 2 ^ 63 }
        ensures ok { OnOk result (Steps m.now (life self.old.life) self.old.tally
            (life self.new.life) self.new.tally) }
        ensures err { OnErr result (Halts m.now (life self.old.life) (life self.new.life)) }
    {
        self.life.make(m)?;
        self.tally.count(m)
    }

    /// Reads the next move, makes it and counts it.
    fn next<S: Source>(&mut self, reader: &mut LogReader, source: &mut S) -> Result<(), Ending>
        requires ready { IsReadyToRead reader.old }
        requires few { self.old.tally.counts.moves + 1 < 2 ^ 63 }
        ensures went { (left : Option (List ℕ)) →
            MovesWereTaken left (S.left source.old) reader.old (life self.old.life) self.old.tally
            → MatchResult result
            (λ u. MovesWereTaken left (S.left source.new) reader.new (life self.new.life)
            self.new.tally)
            (λ e. Came left (S.left source.new) e (life self.new.life) self.new.tally.counts) }
        ensures ready { OnOk result
            (IsReadyToRead reader.new × (reader.new.lines ≡ reader.old.lines + 1)) }
        ensures later { S.faults source.old ≤ S.faults source.new }
        ensures blame { result ≡ Err Ending.ReadFault →
            Rose (S.faults source.old) (S.faults source.new) }
        ensures same { result ≢ Err Ending.ReadFault →
            S.faults source.new ≡ S.faults source.old }
    {
        let mut m = Move::Clear(Frame(0));
        match reader.take_next(&self.life, source, &mut m) {
            Ok(()) => {}
            Err(e) => return Err(e),
        }
        match self.take(&m) {
            Ok(()) => Ok(()),
            Err(NoMemory) => Err(Ending::NoMemory),
        }
    }
}

/// Checks a log from its first line to its end, or to the first line that is none of a legal move.
#[tactic(auto, using(crate::proofs::Stories::stories))]
pub(crate) fn check_log<S: Source>(checker: &mut Checker, source: &mut S) -> Ending
    requires life { life checker.old.life ≡ unstarted }
    requires tally { CountsNothing checker.old.tally }
    ensures came { Came (S.left source.old) (S.left source.new) result (life checker.new.life)
        checker.new.tally.counts }
    ensures later { S.faults source.old ≤ S.faults source.new }
    ensures blame { result ≡ Ending.ReadFault → Rose (S.faults source.old) (S.faults source.new) }
    ensures same { result ≢ Ending.ReadFault → S.faults source.new ≡ S.faults source.old }
{
    let mut reader = LogReader::new();
    for n in 0..MOST_LINES {
        match checker.next(&mut reader, source) {
            Ok(()) => {}
            Err(e) => return e,
        }
    }
    Ending::TooLong
}
