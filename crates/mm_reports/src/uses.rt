ghost use Rattle.std.specs.Prelude.{◌≡◌, ◌≤◌, ◌<◌, ◌^◌, length, count_by, filter, sum};
ghost use Rattle.mm_move_rules.specs.{is_active, is_in_transition};
ghost use Rattle.mm_replay.specs.Standing.{life as life_of};
ghost use Rattle.mm_reports.specs.Listing.{AreListsOf, AreFew};
ghost use Rattle.mm_reports.specs.Uses.{use_by, row_of_use, is_use, cells, listed_records};

use crate::lists::FrameLists;
use mm_move_classes::has_request;
use mm_replay::Life;
use mm_types::{Frame, Key, Record, Request};

/// What a page frame is used for.
#[derive(Clone, Copy, PartialEq, Eq)]
pub enum Use {
    /// A page of one process.
    ProcessPrivate,
    /// A page of a section of the paging file.
    PageFileSection,
    /// A page of a mapped file.
    MappedFile,
    /// The request of a page that was deleted meanwhile.
    Deleted,
    /// Nothing: it is zeroed or free.
    Unused,
}

/// How a page frame stands.
#[derive(Clone, Copy, PartialEq, Eq)]
pub enum Column {
    /// Its page is valid somewhere.
    Active,
    Standby,
    Modified,
    /// It has a request, and holds no page that is valid anywhere.
    Transition,
    Zeroed,
    Free,
}

/// What a frame is used for, by its page and its request.
fn use_by(life: &Life, owner: Option<Key>, request: Request) -> Use
    ensures { result ≡ use_by (life_of life.now) owner request }
{
    match owner {
        Some(Key::Private(_, _)) => Use::ProcessPrivate,
        Some(Key::Shared(area, index)) => {
            if life.is_paging(Key::Shared(area, index)) {
                Use::PageFileSection
            } else {
                Use::MappedFile
            }
        }
        None => {
            if has_request(request) {
                Use::Deleted
            } else {
                Use::Unused
            }
        }
    }
}

fn row_of_use(usage: Use) -> u8
    ensures { result ≡ row_of_use usage }
{
    match usage {
        Use::ProcessPrivate => 0,
        Use::PageFileSection => 1,
        Use::MappedFile => 2,
        Use::Deleted => 3,
        Use::Unused => 4,
    }
}

/// Whether a frame with this record is used so.
fn is_use(life: &Life, usage: Use, r: &Record) -> bool
    ensures { result ≡ is_use (life_of life.now) usage r.now }
{
    row_of_use(use_by(life, r.owner, r.request)) == row_of_use(usage)
}

fn is_active(r: &Record) -> bool
    ensures { result ≡ is_active r.now }
{
    r.shares > 0
}

fn is_in_transition(r: &Record) -> bool
    ensures { result ≡ is_in_transition r.now }
{
    r.shares == 0 && has_request(r.request)
}

/// How many frames of this use hold a page that is valid somewhere.
#[tactic(auto, using(crate::proofs::Cells::cells))]
fn count_active(life: &Life, usage: Use, records: &[Record]) -> u64
    ensures value { result
        ≡ count_by (is_use (life_of life.now) usage) (filter is_active records.now) }
    ensures few { result ≤ count_by is_active records.now }
{
    let mut count = 0;
    for r in records {
        if is_active(r) && is_use(life, usage, r) {
            count += 1;
        }
    }
    count
}

/// How many frames of this use are in transition.
#[tactic(auto, using(crate::proofs::Cells::cells))]
fn count_in_transition(life: &Life, usage: Use, records: &[Record]) -> u64
    ensures value { result ≡ count_by (is_use (life_of life.now) usage)
        (filter is_in_transition records.now) }
    ensures few { result ≤ count_by is_in_transition records.now }
{
    let mut count = 0;
    for r in records {
        if is_in_transition(r) && is_use(life, usage, r) {
            count += 1;
        }
    }
    count
}

/// How many of these frames are used so.
fn count_listed(life: &Life, usage: Use, frames: &[u32]) -> u64
    ensures value { result ≡ count_by (is_use (life_of life.now) usage)
        (listed_records (life_of life.now) frames.now) }
    ensures few { result ≤ length frames.now }
{
    let mut count = 0;
    for frame in frames {
        if is_use(life, usage, &life.record(Frame(*frame))) {
            count += 1;
        }
    }
    count
}

/// What a replay keeps: no count is too great for 32 bits. It does nothing.
fn keeps_few(life: &Life)
    ensures { AreFew (life_of life.now).frames }
{
    let _known = life.counts();
}

/// How many frames of this use stand in each way, where these are the frames on the lists. Takes
/// time in proportion to the frames.
pub(crate) fn cells(life: &Life, lists: &FrameLists, usage: Use) -> [u64; 6]
    requires { AreListsOf (life_of life.now).frames lists.now }
    ensures value { result ≡ cells (life_of life.now) usage }
    ensures few { sum result < 2 ^ 64 }
{
    keeps_few(life);
    [
        count_active(life, usage, life.records()),
        count_listed(life, usage, lists.standby.as_slice()),
        count_listed(life, usage, lists.modified.as_slice()),
        count_in_transition(life, usage, life.records()),
        count_listed(life, usage, lists.zeroed.as_slice()),
        count_listed(life, usage, lists.free.as_slice()),
    ]
}
