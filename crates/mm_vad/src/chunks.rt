ghost use Rattle.std.specs.Prelude.{◌≡◌, ◌+◌, ◌<◌, ◌≤◌, ◌^◌, [], Some, None, IfOk, IfSome, length, replicate, slice_get, slice_set, slice_index_or, vec_len, vec_capacity};
ghost use Rattle.mm_vad.specs.Chunks.{own_place, place_after, places_after, filled_rows, StartsRun};

use crate::Row;
use mm_types::NoMemory;
use std::alloc::Global;
use std::marker::Model;

/// How many rows a chunk has.
pub(crate) const CHUNK: usize = 512;

/// The rows of one chunk.
#[derive(Clone, Copy)]
enum Chunk {
    /// All are equal to this one. A chunk that was written out once keeps its place.
    Equal(Row, Option<u32>),
    /// They are written out at this place.
    Each(u32),
}

impl Chunk {
    fn own_place(self) -> Option<u32>
        ensures { result ≡ own_place self }
    {
        match self {
            Chunk::Equal(_, place) => place,
            Chunk::Each(place) => Some(place),
        }
    }
}

/// Rows in chunks, of which only those whose rows differ are written out.
///
/// Contracts see the list of all chunks' rows, and for how many chunks there is room. The room to
/// write out every chunk is taken ahead and left unwritten, so the system maps it as it is first
/// touched, and no write needs memory.
#[derive(Drop)]
pub(crate) struct Chunks {
    chunks: Vec<Chunk>,
    places: Vec<[Row; CHUNK]>,
}

impl Model for Chunks {
    ghost use Rattle.std.specs.Prelude.{vec_capacity};
    ghost use Rattle.mm_vad.specs.Chunks.{ChunksOf, chunks_seen, AreWritten};

    ghost Value = { ChunksOf };

    ghost view = { λ c. chunks_seen c.chunks c.places };

    ghost invariant = { λ c. AreWritten c.chunks.items c.places.items (vec_capacity c.places) };
}

impl Chunks {
    /// No chunk, and room for `count`. `NoMemory` where a request for memory was refused.
    pub(crate) fn new(alloc: Global, count: usize) -> Result<Chunks, NoMemory>
        ensures rows { IfOk result (λ chunks. chunks.rows ≡ []) }
        ensures room { IfOk result (λ chunks. count ≤ chunks.room) }
    {
        let chunks = Vec::with_capacity(alloc, count)?;
        let places = Vec::with_capacity(alloc, count)?;
        Ok(Chunks { chunks, places })
    }

    /// There are `count` chunks of rows equal to `row` from now on, within the room.
    pub(crate) fn renew(&mut self, count: usize, row: Row)
        requires few { count < 2 ^ 32 }
        requires room { count ≤ self.old.room }
        ensures rows { self.new.rows ≡ replicate count (replicate 512 row) }
        ensures room { self.old.room ≤ self.new.room }
    {
        self.places.clear();
        refill(&mut self.chunks, count, Chunk::Equal(row, None));
    }

    /// How many chunks there are.
    pub(crate) fn count(&self) -> usize
        ensures { result ≡ length self.now.rows }
    {
        self.chunks.len()
    }

    /// Row `at` of chunk `index`, both counted from 0.
    pub(crate) fn get(&self, index: usize, at: usize) -> Row
        requires there { index < length self.now.rows }
        requires inside { at < 512 }
        requires whole { length (slice_index_or self.now.rows index []) ≡ 512 }
        ensures { slice_get (slice_index_or self.now.rows index []) at ≡ Some result }
    {
        match self.chunks[index] {
            Chunk::Equal(row, _) => row,
            Chunk::Each(place) => self.places[place as usize][at],
        }
    }

    /// Row `at` of chunk `index`, and how many rows from it on are known to be equal to it: at
    /// least one, at most `most`.
    pub(crate) fn equal_from(&self, index: usize, at: usize, most: usize) -> (Row, usize)
        requires there { index < length self.now.rows }
        requires inside { at + most ≤ 512 }
        requires asked { 0 < most }
        requires whole { length (slice_index_or self.now.rows index []) ≡ 512 }
        ensures { StartsRun (slice_index_or self.now.rows index []) at most result.0 result.1 }
    {
        match self.chunks[index] {
            Chunk::Equal(row, _) => (row, most),
            Chunk::Each(place) => equal_in(&self.places[place as usize], at, most),
        }
    }

    /// The `n` rows of chunk `index` from row `at` on become `row`.
    pub(crate) fn fill(&mut self, index: usize, at: usize, n: usize, row: Row)
        requires there { index < length self.old.rows }
        requires inside { at + n ≤ 512 }
        requires whole { length (slice_index_or self.old.rows index []) ≡ 512 }
        ensures { self.new ≡ record self.old {
          rows = slice_set self.old.rows index
              (filled_rows (slice_index_or self.old.rows index []) at n row);
        } }
    {
        let chunk = self.chunks[index];
        if n == CHUNK {
            self.chunks[index] = Chunk::Equal(row, chunk.own_place());
            return;
        }
        match chunk {
            Chunk::Each(place) => fill_in(&mut self.places[place as usize], at, n, row),
            Chunk::Equal(before, place) => {
                if before != row {
                    let place = write_out(&mut self.places, place, before, at, n, row);
                    self.chunks[index] = Chunk::Each(place);
                }
            }
        }
    }
}

/// Row `at`, and how many rows from it on, up to the first other one, are equal to it: at most
/// `most`.
pub(crate) fn equal_in(rows: &[Row], at: usize, most: usize) -> (Row, usize)
    requires inside { at + most ≤ length rows.now }
    requires asked { 0 < most }
    ensures { StartsRun rows.now at most result.0 result.1 }
{
    let row = rows[at];
    let mut n = 1;
    while n < most && rows[at + n] == row {
        n += 1;
    }
    (row, n)
}

/// The `n` rows from row `at` on become `row`.
pub(crate) fn fill_in(rows: &mut [Row], at: usize, n: usize, row: Row)
    requires { at + n ≤ length rows.old }
    ensures { rows.new ≡ filled_rows rows.old at n row }
{
    rows[at..at + n].fill(row);
}

/// The list has `n` things equal to `value` from now on, within its room.
pub(crate) fn refill<T: Copy>(list: &mut Vec<T>, n: usize, value: T)
    requires { n ≤ vec_capacity list.old }
    ensures items { list.new.items ≡ replicate n value }
    ensures capacity { vec_capacity list.old ≤ vec_capacity list.new }
{
    list.clear();
    match list.resize(n, value) {
        Ok(()) => {}
        Err(_) => unreachable!(),
    }
}

// Writes a chunk's rows to its place, or to the next where it has none, and gives its place: rows
// equal to `before` but for the `n` rows from row `at` on. A function of its own, since its array
// is cleared at each call.
fn write_out(
    places: &mut Vec<[Row; CHUNK]>,
    place: Option<u32>,
    before: Row,
    at: usize,
    n: usize,
    row: Row,
) -> u32
    requires inside { at + n ≤ 512 }
    requires few { vec_len places.old < 2 ^ 32 }
    requires there { IfSome place (λ k. k < vec_len places.old) }
    requires room { place ≡ None → vec_len places.old < vec_capacity places.old }
    ensures place { result ≡ place_after places.old.items place }
    ensures items { places.new.items
        ≡ places_after places.old.items place (filled_rows (replicate 512 before) at n row) }
    ensures capacity { vec_capacity places.new ≡ vec_capacity places.old }
{
    let mut rows = [before; CHUNK];
    fill_in(&mut rows, at, n, row);
    match place {
        Some(place) => {
            places[place as usize] = rows;
            place
        }
        None => {
            let place = places.len() as u32;
            places.push_reserved(rows);
            place
        }
    }
}
