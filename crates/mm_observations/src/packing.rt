ghost use Rattle.std.specs.Prelude.{◌≡◌, ◌+◌, ◌≤◌, ◌++◌, ◌∷◌, length};
ghost use Rattle.mm_move_classes.specs.{numbers_text};
ghost use Rattle.mm_observations.specs.Packing.{step_number, region_letter, place_numbers, allocation_numbers, protection_numbers};
ghost use Rattle.mm_observations.specs.Packing.{line_data, seen_data, row_data, after_row, none_before};
ghost use Rattle.mm_types.specs.{page_of};

use crate::checking::{COMMITTED, FREE, PRIVATE, RESERVED};
use crate::rows::{Row, Seen};
use mm_move_classes::put_number;
use mm_text::LineBuf;
use mm_types::{PAGE_SIZE, QueryInfo};

/// What is kept of the rows before: the line of the last, and the page behind the last region.
#[derive(Clone, Copy)]
pub(crate) struct Before {
    pub(crate) line: u32,
    pub(crate) end: u32,
}

/// The page behind a region.
fn end_of(base: u32, size: u32) -> u32
    ensures { result ≡ page_of base + page_of size }
{
    base / PAGE_SIZE + size / PAGE_SIZE
}

impl Before {
    /// Before the first row.
    pub(crate) fn none() -> Before
        ensures { result ≡ none_before }
    {
        Before { line: 0, end: 0 }
    }

    /// Behind this row.
    pub(crate) fn after(self, row: &Row) -> Before
        ensures { result ≡ after_row self row.now }
    {
        let end = match &row.seen {
            Seen::Charge(_, _) => self.end,
            Seen::Region(_, r) => end_of(r.base, r.size),
        };
        Before {
            line: row.line,
            end,
        }
    }
}

/// A step from one page to another as a number: twice the step forwards, odd backwards.
fn step_number(end: u32, page: u32) -> u64
    ensures { result ≡ step_number end page }
{
    if end <= page {
        2 * u64::from(page - end)
    } else {
        2 * u64::from(end - page) - 1
    }
}

/// The letter of a region, by its state and its type.
fn region_letter(r: &QueryInfo) -> u8
    ensures { result ≡ region_letter r.now }
{
    if r.state == FREE {
        b'f'
    } else if r.state == RESERVED {
        if r.kind == PRIVATE { b'r' } else { b'R' }
    } else if r.kind == PRIVATE {
        b'c'
    } else {
        b'C'
    }
}

/// Writes where a region lies.
fn put_place(pid: u32, end: u32, r: &QueryInfo, out: &mut LineBuf)
    requires { length out.old + 39 ≤ 256 }
    ensures text { out.new ≡ out.old ++ numbers_text (place_numbers pid end r.now) }
    ensures few { length out.new ≤ length out.old + 39 }
{
    put_number(out, u64::from(pid));
    put_number(out, step_number(end, r.base / PAGE_SIZE));
    put_number(out, u64::from(r.size / PAGE_SIZE));
}

/// Writes what a region was allocated as, unless it is free.
fn put_allocation(r: &QueryInfo, out: &mut LineBuf)
    requires { length out.old + 26 ≤ 256 }
    ensures text { out.new ≡ out.old ++ numbers_text (allocation_numbers r.now) }
    ensures few { length out.new ≤ length out.old + 26 }
{
    if r.state != FREE {
        put_number(
            out,
            u64::from((r.base / PAGE_SIZE).saturating_sub(r.alloc_base / PAGE_SIZE)),
        );
        put_number(out, u64::from(r.alloc_prot));
    }
}

/// Writes the protection of a region whose pages are committed.
fn put_protection(r: &QueryInfo, out: &mut LineBuf)
    requires { length out.old + 13 ≤ 256 }
    ensures text { out.new ≡ out.old ++ numbers_text (protection_numbers r.now) }
    ensures few { length out.new ≤ length out.old + 13 }
{
    if r.state == COMMITTED {
        put_number(out, u64::from(r.prot));
    }
}

/// Writes what a row tells, where the region before ends at a page.
fn put_seen(end: u32, seen: &Seen, out: &mut LineBuf)
    requires { length out.old + 79 ≤ 256 }
    ensures text { out.new ≡ out.old ++ seen_data end seen.now }
{
    match seen {
        Seen::Charge(charged, limit) => {
            out.push(b'q');
            put_number(out, u64::from(*charged));
            put_number(out, u64::from(*limit));
        }
        Seen::Region(pid, r) => {
            out.push(region_letter(r));
            put_place(*pid, end, r, out);
            put_allocation(r, out);
            put_protection(r, out);
        }
    }
}

/// Writes the beginning of a line, if the row before is of another.
fn put_line(before: u32, line: u32, out: &mut LineBuf)
    requires { length out.old + 14 ≤ 256 }
    ensures text { out.new ≡ out.old ++ line_data before line }
    ensures few { length out.new ≤ length out.old + 14 }
{
    if before != line {
        out.push(b'\n');
        put_number(out, u64::from(line.saturating_sub(before)));
    }
}

/// Writes a row behind those before.
pub(crate) fn put_row(before: Before, row: &Row, out: &mut LineBuf)
    requires { length out.old + 93 ≤ 256 }
    ensures { out.new ≡ out.old ++ row_data before row.now }
{
    put_line(before.line, row.line, out);
    put_seen(before.end, &row.seen, out);
}
