ghost use Rattle.std.specs.Prelude.{◌≡◌, ◌+◌, ◌-◌, ◌<◌, ◌≤◌, length, replicate, slice_get, Some, IfOk, take, drop};

use crate::written::WrittenRows;
use mm_types::{NoMemory, Prot};
use std::alloc::Global;
use std::marker::Model;

/// What a region knows of one of its pages (the software side of a page-table entry).
#[derive(Clone, Copy, PartialEq, Eq)]
pub struct Row {
    /// The base protection; the guard stands beside it.
    pub prot: Prot,
    /// A private page is committed. In a view, its section page is.
    pub committed: bool,
    /// The first access raises an alarm and takes the guard off (PAGE_GUARD).
    pub guard: bool,
    /// A page of a view has bytes of its own.
    pub copied: bool,
    /// A write to a page of a view makes a copy.
    pub marked: bool,
}

impl Row {
    ghost use Rattle.mm_vad.specs.Looks.{are_alike};

    /// Whether VirtualQuery tells the same of both pages: their state, and where they are committed
    /// their protection and guard.
    fn is_like(self, other: Row) -> bool
        ensures { result ≡ are_alike self other }
    {
        if self.committed {
            other.committed && self.prot == other.prot && self.guard == other.guard
        } else {
            !other.committed
        }
    }
}

/// The rows of a region, one for each page, in the order of its pages.
#[derive(Drop)]
pub struct Rows {
    // The row that all are equal to, where they are not written out.
    equal: Option<Row>,
    // The rows once they are written out; room for all of them is there from the beginning.
    written: WrittenRows,
}

impl Model for Rows {
    ghost use Rattle.std.specs.Prelude.{List};
    ghost use Rattle.mm_vad.specs.declared.pages.Row.{Row};
    ghost use Rattle.mm_vad.specs.Chunks.{rows_of, AreAll};

    ghost Value = { List Row };

    ghost view = { λ r. rows_of r.equal r.written };

    ghost invariant = { λ r. AreAll r.equal r.written };
}

impl Rows {
    ghost use Rattle.mm_vad.specs.Looks.{run_from};
    ghost use Rattle.mm_vad.specs.Chunks.{filled_rows, FilledSome};

    /// `n` rows, each equal to `row`. `NoMemory` where a request for memory was refused.
    pub fn new(alloc: Global, n: u32, row: Row) -> Result<Rows, NoMemory>
        ensures { IfOk result (λ rows. rows ≡ replicate n row) }
    {
        let written = WrittenRows::new(alloc, n)?;
        Ok(Rows {
            equal: Some(row),
            written,
        })
    }

    /// How many rows there are.
    pub fn len(&self) -> u32
        ensures { result ≡ length self.now }
    {
        self.written.room()
    }

    /// Row `i`, counted from 0.
    pub fn get(&self, i: u32) -> Row
        requires { i < length self.now }
        ensures { slice_get self.now i ≡ Some result }
    {
        match self.equal {
            Some(row) => row,
            None => self.written.get(i),
        }
    }

    /// Row `i`, and how many rows from it on are known to be equal to it: at least one, at most
    /// `most`, and none behind the end of its chunk where the rows are written out.
    pub fn equal_from(&self, i: u32, most: u32) -> (Row, u32)
        requires inside { i + most ≤ length self.now }
        requires asked { 0 < most }
        ensures some { 0 < result.1 }
        ensures within { result.1 ≤ most }
        ensures equal { take result.1 (drop i self.now) ≡ replicate result.1 result.0 }
    {
        match self.equal {
            Some(row) => (row, most),
            None => self.written.equal_from(i, most),
        }
    }

    /// The `n` rows from row `first` on become `row`.
    pub fn fill(&mut self, first: u32, n: u32, row: Row)
        requires { first + n ≤ length self.old }
        ensures { self.new ≡ filled_rows self.old first n row }
    {
        let mut done = 0;
        while done < n {
            done += self.fill_some(first + done, n - done, row);
        }
    }

    // The rows from row `first` on become `row`, at most `n` of them; how many. Rows that come to
    // differ are written out, and of those that are, one call changes none behind a chunk's end.
    fn fill_some(&mut self, first: u32, n: u32, row: Row) -> u32
        requires inside { first + n ≤ length self.old }
        requires some { 0 < n }
        ensures { FilledSome self.old self.new first n row result }
    {
        if n == self.len() {
            self.equal = Some(row);
            return n;
        }
        match self.equal {
            None => self.written.fill_some(first, n, row),
            Some(before) => {
                if before == row {
                    return n;
                }
                self.equal = None;
                self.written.write_out(before, first, n, row)
            }
        }
    }

    /// How many rows from row `i` on are alike in state, protection and guard; at least one. A page
    /// that is not committed counts as one of protection 0 without a guard.
    pub fn run_from(&self, i: u32) -> u32
        requires { i < length self.now }
        ensures run { result ≡ run_from self.now i }
        ensures within { i + result ≤ length self.now }
    {
        let len = self.len();
        let (first, equal) = self.equal_from(i, len - i);
        let mut end = i + equal;
        while end < len {
            let (row, equal) = self.equal_from(end, len - end);
            if !first.is_like(row) {
                return end - i;
            }
            end += equal;
        }
        end - i
    }
}
