ghost use Rattle.std.specs.Prelude.{◌≡◌, ◌++◌, ◌∷◌, [], MatchResult, Ok};
ghost use Rattle.mm_observations.specs.Packing.{none_before};
ghost use Rattle.mm_observations.specs.Packed.{packed, RefusesFile};
ghost use Rattle.mm_observations.specs.Packs.{Packs};

use crate::checking::good_row;
use crate::packing::{Before, put_row};
use crate::run_lines::RunLines;
use mm_script::without_return;
use mm_text::LineBuf;
use mm_types::NoMemory;
use std::alloc::Global;

/// Why a file of observations was not packed.
#[derive(Clone, Copy)]
pub enum PackFault {
    /// The number, from 1 on, of the first row that is not good.
    Row(u64),
    NoMemory,
}

/// Rows that were packed so far.
#[derive(Drop)]
pub(crate) struct Packing {
    before: Before,
    line: LineBuf,
    text: Vec<u8>,
}

impl Packing {
    /// No row was packed.
    fn new(alloc: Global) -> Packing
        ensures before { result.before ≡ none_before }
        ensures text { result.text.items ≡ [] }
    {
        Packing {
            before: Before::none(),
            line: LineBuf::new(),
            text: Vec::new(alloc),
        }
    }

    /// Packs the next row, which has this number.
    #[tactic(auto, using(crate::proofs::Files::rows_packed))]
    fn take(&mut self, number: u64, row: &[u8], run: &RunLines) -> Result<(), PackFault>
        ensures { Packs run.now self.old number row.now result self.new }
    {
        let Some(row) = good_row(run, self.before.line, row) else {
            return Err(PackFault::Row(number));
        };
        self.line.clear();
        put_row(self.before, &row, &mut self.line);
        match self.text.extend_from_slice(self.line.as_slice()) {
            Ok(()) => {}
            Err(_) => return Err(PackFault::NoMemory),
        }
        self.before = self.before.after(&row);
        Ok(())
    }
}

/// Ends the text of rows that were packed.
fn ended(packing: Packing) -> Result<Vec<u8>, PackFault>
    ensures { MatchResult result (λ v. v.items ≡ packing.text.items ++ 10 ∷ [])
        (λ f. f ≡ PackFault.NoMemory) }
{
    let Packing {
        before: _,
        line: _,
        mut text,
    } = packing;
    match text.push(b'\n') {
        Ok(()) => Ok(text),
        Err(_) => Err(PackFault::NoMemory),
    }
}

/// The rows of a file, packed.
#[tactic(auto, using(crate::proofs::Files::files_packed))]
pub fn packed(alloc: Global, bytes: &[u8], run: &RunLines) -> Result<Vec<u8>, PackFault>
    ensures { MatchResult result (λ v. packed run.now bytes.now ≡ Ok v.items)
        (RefusesFile (packed run.now bytes.now)) }
{
    let mut packing = Packing::new(alloc);
    let mut number = 1u64;
    let mut start = 0;
    for i in 0..bytes.len() {
        if bytes[i] == b'\n' {
            match packing.take(number, without_return(&bytes[start..i]), run) {
                Ok(()) => {}
                Err(fault) => return Err(fault),
            }
            number += 1;
            start = i + 1;
        }
    }
    if start < bytes.len() {
        return Err(PackFault::Row(number));
    }
    ended(packing)
}
