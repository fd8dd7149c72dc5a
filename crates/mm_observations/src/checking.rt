ghost use Rattle.std.specs.Prelude.{◌≡◌};
ghost use Rattle.mm_observations.specs.{is_plain_protection, is_protection, is_within_user, is_free_region, is_allocated, is_reserved_region, is_committed_region};
ghost use Rattle.mm_observations.specs.{is_region, is_good_seen, is_good_row, good_row};

use crate::reading::parse_row;
use crate::rows::{Row, Seen};
use crate::run_lines::RunLines;
use mm_types::{END_OF_USER_PAGES, FIRST_USER_PAGE, PAGE_SIZE, QueryInfo};

/// The states of MEMORY_BASIC_INFORMATION.
pub(crate) const FREE: u32 = 0x10000;

pub(crate) const RESERVED: u32 = 0x2000;

pub(crate) const COMMITTED: u32 = 0x1000;

/// Its types.
pub(crate) const PRIVATE: u32 = 0x20000;

pub(crate) const MAPPED: u32 = 0x40000;

const NOACCESS: u32 = 0x01;

const GUARD: u32 = 0x100;

/// The first address of the user's, and the one behind the last.
const FIRST_USER: u32 = FIRST_USER_PAGE * PAGE_SIZE;

const END_OF_USER: u32 = END_OF_USER_PAGES * PAGE_SIZE;

fn is_plain_protection(n: u32) -> bool
    ensures { result ≡ is_plain_protection n }
{
    n == 0x01
        || n == 0x02
        || n == 0x04
        || n == 0x08
        || n == 0x10
        || n == 0x20
        || n == 0x40
        || n == 0x80
}

/// Whether a number is a protection of pages, with a guard or without.
fn is_protection(n: u32) -> bool
    ensures { result ≡ is_protection n }
{
    is_plain_protection(n) || n >= GUARD && is_plain_protection(n - GUARD)
}

/// Whether a region is whole pages of the user's.
fn is_within_user(r: &QueryInfo) -> bool
    ensures { result ≡ is_within_user r.now }
{
    r.base % PAGE_SIZE == 0
        && r.size % PAGE_SIZE == 0
        && r.size != 0
        && r.base >= FIRST_USER
        && u64::from(r.base) + u64::from(r.size) <= u64::from(END_OF_USER)
}

fn is_free_region(r: &QueryInfo) -> bool
    ensures { result ≡ is_free_region r.now }
{
    r.state == FREE && r.kind == 0 && r.prot == NOACCESS && r.alloc_base == 0 && r.alloc_prot == 0
}

/// Whether a region says what it was allocated as.
fn is_allocated(r: &QueryInfo) -> bool
    ensures { result ≡ is_allocated r.now }
{
    (r.kind == PRIVATE || r.kind == MAPPED)
        && r.alloc_base % PAGE_SIZE == 0
        && r.alloc_base >= FIRST_USER
        && r.alloc_base <= r.base
        && is_protection(r.alloc_prot)
}

fn is_reserved_region(r: &QueryInfo) -> bool
    ensures { result ≡ is_reserved_region r.now }
{
    r.state == RESERVED && r.prot == 0 && is_allocated(r)
}

fn is_committed_region(r: &QueryInfo) -> bool
    ensures { result ≡ is_committed_region r.now }
{
    r.state == COMMITTED && is_protection(r.prot) && is_allocated(r)
}

fn is_region(r: &QueryInfo) -> bool
    ensures { result ≡ is_region r.now }
{
    is_within_user(r) && (is_free_region(r) || is_reserved_region(r) || is_committed_region(r))
}

/// Whether this can have been seen after a line of the run.
fn is_good_seen(run: &RunLines, line: u32, seen: &Seen) -> bool
    ensures { result ≡ is_good_seen run.now line seen.now }
{
    match seen {
        Seen::Charge(charged, limit) => *charged <= *limit,
        Seen::Region(pid, r) => run.is_made(*pid, line) && is_region(r),
    }
}

/// Whether a row is good behind one of the line `before`.
fn is_good_row(run: &RunLines, before: u32, row: &Row) -> bool
    ensures { result ≡ is_good_row run.now before row.now }
{
    row.line >= 1
        && row.line >= before
        && u64::from(row.line) <= run.count()
        && is_good_seen(run, row.line, &row.seen)
}

/// The row that a text is, where it is good behind one of the line `before`.
pub(crate) fn good_row(run: &RunLines, before: u32, text: &[u8]) -> Option<Row>
    ensures { result ≡ good_row run.now before text.now }
{
    match parse_row(text) {
        Some(row) => {
            if is_good_row(run, before, &row) {
                Some(row)
            } else {
                None
            }
        }
        None => None,
    }
}
