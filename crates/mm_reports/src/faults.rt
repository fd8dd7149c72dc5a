ghost use Rattle.std.specs.Prelude.{◌≡◌, Bool, List, Option, None};
ghost use Rattle.mm_types.specs.{Move};
ghost use Rattle.mm_move_rules.specs.{unstarted};
ghost use Rattle.mm_move_classes.specs.{class_of, marks_of};
ghost use Rattle.mm_replay.specs.Standing.{life as life_of};
ghost use Rattle.mm_reports.specs.FaultRows.{fault_rows};
ghost use Rattle.mm_reports.specs.FaultRest.{fault_rest};
ghost use Rattle.mm_sentences.specs.{why_not};

use crate::counters::Counters;
use crate::fault_tables::put_tally;
use crate::styles::Style;
use mm_log_walk::Teller;
use mm_move_classes::{Class, Marks, class_of};
use mm_replay::Life;
use mm_sentences::put_why;
use mm_types::{Move, NoMemory};
use std::alloc::Global;

/// The class of a move, before the next is known. Only that of an `unmap`, which is no fault, may
/// yet be another.
fn class_so_far(life: &Life, marks: &Marks, before: Option<Move>, m: &Move) -> Option<Class>
    ensures { result ≡ class_of (life_of life.now) (marks_of marks.now) before m.now None }
{
    match before {
        Some(before) => class_of(life, marks, Some(&before), m, None),
        None => class_of(life, marks, None, m, None),
    }
}

/// Tells the faults of a log by process and page, and the traffic of its devices.
#[derive(Drop)]
pub struct FaultTeller {
    style: Style,
    marks: Marks,
    before: Option<Move>,
    counters: Counters,
}

impl FaultTeller {
    /// A teller at the beginning of a log, which counts the faults of each page and process.
    pub fn new(alloc: Global, style: Style) -> FaultTeller
        ensures { (whole : Bool) (moves : List Move)
            → fault_rest result whole unstarted moves ≡ fault_rows style whole moves }
    {
        FaultTeller {
            style,
            marks: Marks::new(alloc),
            before: None,
            counters: Counters::new(alloc),
        }
    }
}

impl Teller for FaultTeller {
    ghost rest = { fault_rest };

    ghost counted = { λ t. 0 };

    ghost why = { why_not };

    fn take(&mut self, life: &Life, m: &Move, _text: &mut Vec<u8>) -> Result<(), NoMemory> {
        let class = class_so_far(life, &self.marks, self.before, m);
        self.counters.count_move(life, m, class)?;
        self.marks.follow(m)?;
        self.before = Some(*m);
        Ok(())
    }

    fn finish(&mut self, whole: bool, _life: &Life, text: &mut Vec<u8>) -> Result<(), NoMemory> {
        if whole {
            put_tally(self.style, &self.counters, text)
        } else {
            Ok(())
        }
    }

    fn tell_why(&self, life: &Life, m: &Move, text: &mut Vec<u8>) -> Result<(), NoMemory> {
        put_why(life, m, text)
    }
}
