ghost use Rattle.std.specs.Prelude.{◌≡◌, ◌+◌, ◌<◌, ◌≤◌, [], length, replicate, slice_get, Some, IfOk};

use crate::Row;
use crate::chunks::{CHUNK, Chunks, equal_in, fill_in, refill};
use mm_types::NoMemory;
use std::alloc::Global;
use std::marker::Model;

/// Rows that are written out, in whole chunks and the rows behind the last of these; none of them
/// at first. The room for all is taken ahead and stays.
#[derive(Drop)]
pub(crate) struct WrittenRows {
    // How many rows there is room for.
    room: u32,
    chunks: Chunks,
    // The rows behind the last whole chunk.
    rest: Vec<Row>,
}

impl Model for WrittenRows {
    ghost use Rattle.mm_vad.specs.Chunks.{WrittenOf, rows_joined, AreInRoom};

    ghost Value = { WrittenOf };

    ghost view = { λ w. record { rows = rows_joined w.chunks.rows w.rest.items; room = w.room } };

    ghost invariant = { λ w. AreInRoom w.room w.chunks w.rest };
}

impl WrittenRows {
    ghost use Rattle.mm_vad.specs.Chunks.{FilledSome, StartsRun};

    /// No row, and room for `n`. `NoMemory` where a request for memory was refused.
    pub(crate) fn new(alloc: Global, n: u32) -> Result<WrittenRows, NoMemory>
        ensures { IfOk result (λ written. written ≡ record { rows = []; room = n }) }
    {
        let chunks = Chunks::new(alloc, n as usize / CHUNK)?;
        let rest = Vec::with_capacity(alloc, n as usize % CHUNK)?;
        Ok(WrittenRows {
            room: n,
            chunks,
            rest,
        })
    }

    /// How many rows there is room for.
    pub(crate) fn room(&self) -> u32
        ensures { result ≡ self.now.room }
    {
        self.room
    }

    /// Row `i`, counted from 0.
    pub(crate) fn get(&self, i: u32) -> Row
        requires { i < length self.now.rows }
        ensures { slice_get self.now.rows i ≡ Some result }
    {
        let (index, at) = (i as usize / CHUNK, i as usize % CHUNK);
        let whole = self.chunks.count();
        if index < whole {
            self.chunks.get(index, at)
        } else {
            self.rest[i as usize - whole * CHUNK]
        }
    }

    /// Row `i`, and how many rows from it on are known to be equal to it: at least one, at most
    /// `most`, and none behind the end of its chunk.
    pub(crate) fn equal_from(&self, i: u32, most: u32) -> (Row, u32)
        requires inside { i + most ≤ length self.now.rows }
        requires asked { 0 < most }
        ensures { StartsRun self.now.rows i most result.0 result.1 }
    {
        let (index, at) = (i as usize / CHUNK, i as usize % CHUNK);
        let whole = self.chunks.count();
        if index < whole {
            let (row, n) = self
                .chunks
                .equal_from(index, at, (most as usize).min(CHUNK - at));
            return (row, n as u32);
        }
        let (row, n) = equal_in(&self.rest, i as usize - whole * CHUNK, most as usize);
        (row, n as u32)
    }

    /// The rows from row `first` on become `row`, up to the end of its chunk, at most `n`; how
    /// many.
    pub(crate) fn fill_some(&mut self, first: u32, n: u32, row: Row) -> u32
        requires inside { first + n ≤ length self.old.rows }
        requires some { 0 < n }
        ensures filled { FilledSome self.old.rows self.new.rows first n row result }
        ensures room { self.new.room ≡ self.old.room }
    {
        let (index, at) = (first as usize / CHUNK, first as usize % CHUNK);
        let whole = self.chunks.count();
        if index >= whole {
            fill_in(
                &mut self.rest,
                first as usize - whole * CHUNK,
                n as usize,
                row,
            );
            return n;
        }
        let some = (n as usize).min(CHUNK - at);
        self.chunks.fill(index, at, some, row);
        some as u32
    }

    /// As many rows equal to `before` as there is room for, of which some are filled as by
    /// `fill_some`.
    #[cold] // the first change that leaves a region's rows unlike
    #[inline(never)]
    pub(crate) fn write_out(&mut self, before: Row, first: u32, n: u32, row: Row) -> u32
        requires inside { first + n ≤ self.old.room }
        requires some { 0 < n }
        ensures filled { FilledSome (replicate self.old.room before) self.new.rows first n row
            result }
        ensures room { self.new.room ≡ self.old.room }
    {
        let (whole, behind) = (self.room as usize / CHUNK, self.room as usize % CHUNK);
        self.chunks.renew(whole, before);
        refill(&mut self.rest, behind, before);
        self.fill_some(first, n, row)
    }
}
