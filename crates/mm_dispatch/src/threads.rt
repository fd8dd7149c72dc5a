ghost use Rattle.std.specs.Prelude.{◌≡◌, true, is_some, IfOk, IfErr};
ghost use Rattle.mm_types.specs.{Place};
ghost use Rattle.mm_types.specs.declared.protections.Access.TheVariants as access_kind;
ghost use Rattle.mm_world.specs.{Attempt, access_of, address_in, attempt_in, process_of};
ghost use Rattle.mm_store.specs.declared.outcomes.Need.TheVariants as at_hand;
ghost use Rattle.mm_store.specs.{need_for};
ghost use Rattle.mm_object_tables.specs.{FitsPage};
ghost use Rattle.mm_dispatch.specs.AccessPromises.{CanTurn, ReadyFor, TurnsAccess, row_need};

use crate::access_lines::{read_at, write_row};
use crate::fetching::place_of;
use crate::refusals::admit;
use mm_object_tables::{CommittedRow, Tables};
use mm_store::{Need, PageStore, Start};
use mm_types::{Access, AccessSpec, Answer, Pid, Tid, Why};

/// How an access of a thread went.
pub(crate) enum Threaded {
    /// It is refused, or met a guard.
    Refused(Answer),
    /// It is permitted, and the read that the thread waited for has failed.
    Failed,
    /// It had what it needs, and was made.
    Made(Answer),
    /// It has to wait.
    Waiting(Why),
}

/// What an access of this kind of a page with this row is to find at hand.
fn needed(row: CommittedRow, wanted: Access) -> Need
    ensures told { (place : Place) → need_for result row.key place ≡ row_need wanted row place }
    ensures copies { result ≡ at_hand.Copy → row.copies ≡ true }
    ensures writes { result ≡ at_hand.Copy → wanted ≡ access_kind.Write }
{
    match wanted {
        Access::Write => { if row.copies { Need::Copy } else { Need::Touch } }
        Access::Read => Need::Touch,
        Access::Execute => Need::Touch,
    }
}

/// The row at which an access of a thread is made now, or how the access went that is not: it is
/// refused, its wait has failed, and the store is not asked, or it has to wait.
fn ready_row<G: PageStore>(
    t: &mut Tables,
    g: &mut G,
    tid: Tid,
    pid: Pid,
    addr: u32,
    wanted: Access,
    failed: bool,
) -> Result<CommittedRow, Threaded>
    requires lives { is_some (process_of t.old pid.0) ≡ true }
    requires can { CanTurn G.PageStore t.old pid g.old }
    ensures ready { IfOk result
        (λ row. ReadyFor G.PageStore wanted tid.0 pid addr row failed t.old g.old t.new g.new) }
    ensures turned { IfErr result (λ how. (what : Attempt) → access_of what ≡ wanted →
        TurnsAccess G.PageStore what tid.0 pid addr failed t.old g.old how t.new g.new) }
{
    t.sound();
    let row = match admit(t, pid, addr, wanted) {
        Ok(row) => row,
        Err(why) => return Err(Threaded::Refused(Answer::Raised(why))),
    };
    if failed {
        return Err(Threaded::Failed);
    }
    g.sound();
    match g.start(tid, place_of(pid, addr), row.key, needed(row, wanted)) {
        Start::Pending(why) => Err(Threaded::Waiting(why)),
        Start::Ready => Ok(row),
    }
}

/// A thread reads or writes.
pub(crate) fn access_on<G: PageStore>(
    t: &mut Tables,
    g: &mut G,
    tid: Tid,
    pid: Pid,
    what: &AccessSpec,
    failed: bool,
) -> Threaded
    requires lives { is_some (process_of t.old pid.0) ≡ true }
    requires can { CanTurn G.PageStore t.old pid g.old }
    requires fits { FitsPage what.now }
    ensures { TurnsAccess G.PageStore (attempt_in what.now) tid.0 pid (address_in what.now) failed
        t.old g.old result t.new g.new }
{
    match what {
        AccessSpec::Read { addr, len } => {
            let row = match ready_row(t, g, tid, pid, *addr, Access::Read, failed) {
                Ok(row) => row,
                Err(how) => return how,
            };
            let mut answer = Answer::Ok;
            read_at(t, g, pid, *addr, row, *len, &mut answer);
            Threaded::Made(answer)
        }
        AccessSpec::Write { addr, bytes } => {
            let row = match ready_row(t, g, tid, pid, *addr, Access::Write, failed) {
                Ok(row) => row,
                Err(how) => return how,
            };
            let mut answer = Answer::Ok;
            write_row(t, g, pid, *addr, row, bytes, &mut answer);
            Threaded::Made(answer)
        }
    }
}
