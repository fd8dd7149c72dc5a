ghost use Rattle.std.specs.Prelude.{◌≡◌, ◌<◌, ◌+◌, IfOk, IfSome, OnOk, length};
ghost use Rattle.mm_replay.specs.Standing.{life as life_of};
ghost use Rattle.mm_reports.specs.FaultRest.{tally_of};
ghost use Rattle.mm_reports.specs.Tallies.{counted, no_tally, one_in_column};
ghost use Rattle.mm_reports.specs.Kept.{counts_at};
ghost use Rattle.mm_reports.specs.Tallies.{plus_one, tally_after, with_class, with_end, with_fault};

use crate::kinds::{
    FaultPlace, column_in, is_first_use, is_hard, is_on_paging_file, is_soft, is_zero_fill,
    page_faulted, place_of, process_of_line, request_end,
};
use mm_move_classes::Class;
use mm_replay::Life;
use mm_types::{Key, Move, NoMemory};
use std::alloc::Global;
use std::collections::BTreeMap;

/// All that is counted of the moves of a log.
#[derive(Drop)]
pub(crate) struct Counters {
    /// The faults of each page, by column.
    pub(crate) pages: BTreeMap<FaultPlace, [u64; 8]>,
    /// Those of each process.
    pub(crate) processes: BTreeMap<u8, [u64; 8]>,
    /// How requests on the paging file ended, and on files.
    pub(crate) paging_file: [u64; 4],
    pub(crate) files: [u64; 4],
    /// As a check of a log counts.
    pub(crate) zero_fills: u64,
    pub(crate) hard: u64,
    pub(crate) soft: u64,
    pub(crate) first_uses: u64,
}

/// One more, unless it could no longer be counted.
fn next_number(n: u64) -> Result<u64, NoMemory>
    ensures { IfOk result (λ r. r ≡ n + 1) }
{
    if n == u64::MAX {
        return Err(NoMemory);
    }
    Ok(n + 1)
}

/// One more, if so.
fn plus_one(so: bool, n: u64) -> Result<u64, NoMemory>
    ensures { IfOk result (λ r. r ≡ plus_one so n) }
{
    if so { next_number(n) } else { Ok(n) }
}

/// One more in a column.
fn add_one(counts: &mut [u64], column: usize) -> Result<(), NoMemory>
    requires { column < length counts.old }
    ensures { OnOk result (counts.new ≡ one_in_column counts.old column) }
{
    counts[column] = next_number(counts[column])?;
    Ok(())
}

/// What is counted of one row.
fn counts_at<K: Ord + Copy>(table: &BTreeMap<K, [u64; 8]>, key: K) -> [u64; 8]
    ensures { result ≡ counts_at K.cmp table.now.entries key }
{
    match table.get(&key).copied() {
        Some(counts) => counts,
        None => [0; 8],
    }
}

/// One more in a column of a row.
fn count<K: Ord + Copy + Drop>(
    table: &mut BTreeMap<K, [u64; 8]>,
    key: K,
    column: usize,
) -> Result<(), NoMemory>
    requires { column < 8 }
    ensures { OnOk result (table.new.entries ≡ counted K.cmp table.old.entries key column) }
{
    let mut counts = counts_at(table, key);
    add_one(&mut counts, column)?;
    table.insert(key, counts)?;
    Ok(())
}

impl Counters {
    /// Nothing was counted.
    pub(crate) fn new(alloc: Global) -> Counters
        ensures { tally_of result ≡ no_tally }
    {
        Counters {
            pages: BTreeMap::new(alloc),
            processes: BTreeMap::new(alloc),
            paging_file: [0; 4],
            files: [0; 4],
            zero_fills: 0,
            hard: 0,
            soft: 0,
            first_uses: 0,
        }
    }

    /// Counts a fault of a process, if there are a page and a column.
    fn count_fault(
        &mut self,
        pid: u8,
        key: Option<Key>,
        column: Option<usize>,
    ) -> Result<(), NoMemory>
        requires { IfSome column (λ c. c < 8) }
        ensures { OnOk result (tally_of self.new ≡ with_fault (tally_of self.old) pid key column) }
    {
        match (key, column) {
            (Some(key), Some(column)) => {
                count(&mut self.pages, place_of(pid, key), column)?;
                count(&mut self.processes, pid, column)?;
                Ok(())
            }
            _ => Ok(()),
        }
    }

    /// Counts a class as a check of a log does.
    fn count_class(&mut self, class: Option<Class>) -> Result<(), NoMemory>
        ensures { OnOk result (tally_of self.new ≡ with_class (tally_of self.old) class) }
    {
        self.zero_fills = plus_one(is_zero_fill(class), self.zero_fills)?;
        self.hard = plus_one(is_hard(class), self.hard)?;
        self.soft = plus_one(is_soft(class), self.soft)?;
        self.first_uses = plus_one(is_first_use(class), self.first_uses)?;
        Ok(())
    }

    /// Counts the end of a request, if there is one.
    fn count_end(&mut self, paged: bool, how: Option<usize>) -> Result<(), NoMemory>
        requires { IfSome how (λ c. c < 4) }
        ensures { OnOk result (tally_of self.new ≡ with_end (tally_of self.old) paged how) }
    {
        match how {
            None => Ok(()),
            Some(how) => {
                if paged {
                    add_one(&mut self.paging_file, how)
                } else {
                    add_one(&mut self.files, how)
                }
            }
        }
    }

    /// Counts a move of this class. Out of memory comes too where a number could no longer be
    /// counted.
    pub(crate) fn count_move(
        &mut self,
        life: &Life,
        m: &Move,
        class: Option<Class>,
    ) -> Result<(), NoMemory>
        ensures { OnOk result (tally_of self.new
            ≡ tally_after (tally_of self.old) (life_of life.now) m.now class) }
    {
        self.count_fault(
            process_of_line(life.kind()),
            page_faulted(life, m),
            column_in(class),
        )?;
        self.count_class(class)?;
        self.count_end(is_on_paging_file(life, m), request_end(m))
    }
}
