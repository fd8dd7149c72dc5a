ghost use Rattle.std.specs.Prelude.{◌≡◌, ◌+◌, ◌<◌, ◌≤◌, ◌^◌, OnOk, if◌then◌else◌};
ghost use Rattle.mm_log_check.specs.Counting.{CountsNothing, Counts};

use crate::marks::Brought;
use mm_types::{Move, NoMemory};
use std::alloc::Global;
use std::marker::Model;

/// The counts of the moves so far, and the frames that have a `give` or a `got` since the line's
/// `at`.
#[derive(Drop)]
pub(crate) struct Tally {
    pub(crate) moves: u64,
    pub(crate) zero_fills: u64,
    pub(crate) soft_faults: u64,
    pub(crate) hard_faults: u64,
    pub(crate) steals: u64,
    pub(crate) write_outs: u64,
    brought: Brought,
}

impl Model for Tally {
    ghost use Rattle.std.specs.Prelude.{◌≤◌, ◌+◌};
    ghost use Rattle.mm_log_check.specs.Counting.{TallyOf};

    ghost Value = { TallyOf };

    ghost view = { λ t. record {
      counts = record {
        moves = t.moves;
        zero_fills = t.zero_fills;
        soft_faults = t.soft_faults;
        hard_faults = t.hard_faults;
        steals = t.steals;
        write_outs = t.write_outs;
      };
      brought = t.brought;
    } };

    ghost invariant = { λ t. (t.zero_fills ≤ t.moves) × (t.soft_faults ≤ t.moves)
        × (t.hard_faults ≤ t.moves) × (t.steals ≤ t.moves) × (t.write_outs ≤ t.moves)
        × (t.brought.line ≤ t.moves + 1) };
}

fn one_if(b: bool) -> u64
    ensures value { result ≡ (if b then 1 else 0) }
    ensures few { result ≤ 1 }
{
    if b { 1 } else { 0 }
}

impl Tally {
    /// No move was counted.
    pub(crate) fn new(alloc: Global) -> Tally
        ensures { CountsNothing result }
    {
        Tally {
            moves: 0,
            zero_fills: 0,
            soft_faults: 0,
            hard_faults: 0,
            steals: 0,
            write_outs: 0,
            brought: Brought::new(alloc),
        }
    }

    /// Counts a move.
    #[tactic(auto, using(crate::proofs::Marked::marked))]
    pub(crate) fn count(&mut self, m: &Move) -> Result<(), NoMemory>
        requires { self.old.counts.moves + 1 < 2 ^ 63 }
        ensures { OnOk result (Counts m.now self.old self.new) }
    {
        match *m {
            Move::At(_, _) => self.brought.begin_line(),
            Move::Map(frame, _) => self.soft_faults += one_if(!self.brought.has(frame.0)),
            Move::Steal(_) => self.steals += 1,
            Move::Read(_, _) => self.hard_faults += 1,
            Move::Got(frame) => self.brought.add(frame.0)?,
            Move::Wrote(_) => self.write_outs += 1,
            Move::Give(frame, _) => {
                self.brought.add(frame.0)?;
                self.zero_fills += 1;
            }
            _ => {}
        }
        self.moves += 1;
        Ok(())
    }
}
