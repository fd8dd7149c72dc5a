ghost use Rattle.std.specs.Prelude.{◌≡◌, ◌≤◌, ◌+◌, ◌%◌, Option, IfSome, IfNone, length};
ghost use Rattle.mm_types.specs.declared.events.Event.TheVariants as event;
ghost use Rattle.mm_types.specs.declared.protections.Access.TheVariants as access_kind;
ghost use Rattle.mm_types.specs.{Key, page_of};
ghost use Rattle.mm_world.specs.{Page, Attempt, ReadOf, WriteOf, Execute, access_of};
ghost use Rattle.mm_store.specs.{place_at, touch, StoreOf};
ghost use Rattle.mm_object_tables.specs.{FitsTables};
ghost use Rattle.mm_dispatch.specs.{Admits, Marks, AnswersLine, IsNext, LieInPage, CanAccess, AccessDone, EntersLine, access_line, row_need};

use crate::beginning::begin_on;
use crate::fetching::{fetch, put, put_copy, read_bytes};
use crate::refusals::admit;
use mm_object_tables::{CommittedRow, Tables};
use mm_store::PageStore;
use mm_types::{Access, Answer, ByteBuf, Code, LineKind, PAGE_SIZE, Pid, Raise};

/// Reads 1 to 64 bytes, which the row of their page permits.
#[inline(always)]
pub(crate) fn read_at<G: PageStore>(
    t: &Tables,
    g: &mut G,
    pid: Pid,
    addr: u32,
    row: CommittedRow,
    len: u32,
    answer: &mut Answer,
)
    requires can { CanAccess G.PageStore access_kind.Read t.now pid addr row (touch row.key) g.old }
    requires some { 1 ≤ len }
    requires lie { LieInPage addr len }
    ensures done { AccessDone G.PageStore (ReadOf len) pid addr (touch row.key) t.now g.old
        answer.new t.now g.new }
    ensures loans { G.loans g.new ≡ G.loans g.old }
{
    match read_bytes(t, g, pid, addr, row.key, len) {
        Ok(bytes) => *answer = Answer::Bytes(bytes),
        Err(_) => *answer = Answer::Raised(Raise::InPageError),
    }
}

/// The page of an address, whose own bytes were written, is written from now on, where its region
/// is watched.
#[inline(always)]
fn mark_written(t: &mut Tables, pid: Pid, addr: u32, row: CommittedRow)
    requires admitted { Admits t.old pid.0 addr access_kind.Write row }
    ensures marks { Marks t.old pid.0 (page_of addr) row t.new }
    ensures fits { (contents : Key → Option Page) (s : StoreOf) →
        FitsTables t.old contents s → FitsTables t.new contents s }
{
    if row.watched {
        t.mark(pid, addr / PAGE_SIZE);
    }
}

/// Writes bytes, which the row of their page permits: where they are, so that a page of a watched
/// region is written from then on, or to a copy, which is the page's own from then on.
#[inline(always)]
pub(crate) fn write_row<G: PageStore>(
    t: &mut Tables,
    g: &mut G,
    pid: Pid,
    addr: u32,
    row: CommittedRow,
    bytes: &ByteBuf,
    answer: &mut Answer,
)
    requires can { CanAccess G.PageStore access_kind.Write t.old pid addr row
        (row_need access_kind.Write row (place_at pid (page_of addr))) g.old }
    requires inside { addr % 4096 + length bytes.now ≤ 4096 }
    ensures done { AccessDone G.PageStore (WriteOf bytes.now) pid addr
        (row_need access_kind.Write row (place_at pid (page_of addr))) t.old g.old answer.new
        t.new g.new }
    ensures loans { G.loans g.new ≡ G.loans g.old }
{
    if row.copies {
        match put_copy(t, g, pid, addr, row, bytes.as_slice()) {
            Ok(()) => *answer = Answer::Ok,
            Err(_) => *answer = Answer::Raised(Raise::InPageError),
        }
    } else {
        match put(t, g, pid, addr, row.key, bytes.as_slice()) {
            Ok(()) => {
                mark_written(t, pid, addr, row);
                *answer = Answer::Ok;
            }
            Err(_) => *answer = Answer::Raised(Raise::InPageError),
        }
    }
}

/// Begins the line of an access, and tells the row of its page that permits it. Of one that is
/// refused the answer is written.
#[inline(always)]
fn enter<G: PageStore>(
    t: &mut Tables,
    g: &mut G,
    line: u32,
    pid: Pid,
    addr: u32,
    wanted: Access,
    answer: &mut Answer,
) -> Option<CommittedRow>
    requires next { IsNext G.PageStore line t.old g.old }
    ensures refused { IfNone result ((what : Attempt) → access_of what ≡ wanted →
        AnswersLine G.PageStore (access_line pid addr what) line t.old g.old answer.new t.new g.new) }
    ensures entered { IfSome result
        (λ row. EntersLine G.PageStore wanted line pid addr row t.old g.old t.new g.new) }
    ensures loans { G.loans g.new ≡ G.loans g.old }
{
    t.sound();
    if !begin_on(t, g, line, pid, LineKind::Access(pid)) {
        *answer = Answer::Error(Code::InvalidHandle);
        return None;
    }
    match admit(t, pid, addr, wanted) {
        Ok(row) => Some(row),
        Err(why) => {
            *answer = Answer::Raised(why);
            None
        }
    }
}

/// Decides a `read` line.
#[inline(always)]
pub(crate) fn read_line<G: PageStore>(
    t: &mut Tables,
    g: &mut G,
    line: u32,
    pid: Pid,
    addr: u32,
    len: u32,
    answer: &mut Answer,
)
    requires next { IsNext G.PageStore line t.old g.old }
    requires some { 1 ≤ len }
    requires few { len ≤ 64 }
    requires inside { addr % 4096 + len ≤ 4096 }
    ensures done { AnswersLine G.PageStore (event.Read pid addr len) line t.old g.old answer.new
        t.new g.new }
    ensures loans { G.loans g.new ≡ G.loans g.old }
{
    match enter(t, g, line, pid, addr, Access::Read, answer) {
        Some(row) => read_at(t, g, pid, addr, row, len, answer),
        None => {}
    }
}

/// Decides a `write` line.
#[inline(always)]
pub(crate) fn write_line<G: PageStore>(
    t: &mut Tables,
    g: &mut G,
    line: u32,
    pid: Pid,
    addr: u32,
    bytes: &ByteBuf,
    answer: &mut Answer,
)
    requires next { IsNext G.PageStore line t.old g.old }
    requires inside { addr % 4096 + length bytes.now ≤ 4096 }
    ensures done { AnswersLine G.PageStore (event.Write pid addr bytes.now) line t.old g.old
        answer.new t.new g.new }
    ensures loans { G.loans g.new ≡ G.loans g.old }
{
    match enter(t, g, line, pid, addr, Access::Write, answer) {
        Some(row) => write_row(t, g, pid, addr, row, bytes, answer),
        None => {}
    }
}

/// Decides an `exec` line. No byte is read, but a page that cannot be had raises as for a read.
pub(crate) fn exec_line<G: PageStore>(
    t: &mut Tables,
    g: &mut G,
    line: u32,
    pid: Pid,
    addr: u32,
    answer: &mut Answer,
)
    requires next { IsNext G.PageStore line t.old g.old }
    ensures done { AnswersLine G.PageStore (event.Exec pid addr) line t.old g.old answer.new t.new
        g.new }
    ensures loans { G.loans g.new ≡ G.loans g.old }
{
    let row = match enter(t, g, line, pid, addr, Access::Execute, answer) {
        Some(row) => row,
        None => return,
    };
    match fetch(t, g, pid, addr, row.key, &mut []) {
        Ok(()) => *answer = Answer::Ok,
        Err(_) => *answer = Answer::Raised(Raise::InPageError),
    }
}
