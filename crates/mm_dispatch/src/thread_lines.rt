ghost use Rattle.std.specs.Prelude.{◌≡◌, ℕ, true};
ghost use Rattle.mm_types.specs.declared.answers.Wait.TheVariants as wait;
ghost use Rattle.mm_types.specs.declared.events.Event.TheVariants as event;
ghost use Rattle.mm_world.specs.{wait_failed};
ghost use Rattle.mm_object_tables.specs.{FitsPage};
ghost use Rattle.mm_dispatch.specs.{EndsWaits, KeepsOver, AnswersLine, IsNext, EndsAccess};

use crate::beginning::{begin, begin_on};
use crate::threads::{Threaded, access_on};
use mm_object_tables::Tables;
use mm_store::PageStore;
use mm_types::{AccessSpec, Answer, Code, LineKind, Pid, Raise, Tid, Wait};

/// Decides a `begin` line (own): an access of a thread that waits for no device. The thread keeps
/// an access that has to wait.
pub(crate) fn begin_line<G: PageStore>(
    t: &mut Tables,
    g: &mut G,
    line: u32,
    tid: Tid,
    pid: Pid,
    what: &AccessSpec,
) -> Answer
    requires next { IsNext G.PageStore line t.old g.old }
    requires fits { FitsPage what.now }
    ensures done { AnswersLine G.PageStore (event.Begin tid pid what.now) line t.old g.old result
        t.new g.new }
    ensures loans { G.loans g.new ≡ G.loans g.old }
{
    if t.kept(tid).is_some() {
        begin(g, line, LineKind::Call);
        if t.has(pid) {
            return Answer::Busy;
        }
        return Answer::Error(Code::InvalidHandle);
    }
    if !begin_on(t, g, line, pid, LineKind::Thread(pid)) {
        return Answer::Error(Code::InvalidHandle);
    }
    match access_on(t, g, tid, pid, what, false) {
        Threaded::Refused(answer) => answer,
        Threaded::Made(answer) => answer,
        Threaded::Failed => unreachable!(),
        Threaded::Waiting(why) => {
            t.keep(tid, pid, what);
            Answer::Pending(why)
        }
    }
}

/// Whether the read that a thread waited for has failed.
fn has_failed<G: PageStore>(g: &G, tid: Tid) -> bool
    ensures { result ≡ wait_failed ((G.store g.now).report.wait tid.0) }
{
    match g.outcome(tid) {
        Wait::Failed => true,
        _ => false,
    }
}

/// A thread's access has ended: it keeps none, and waits for nothing.
fn end_access<G: PageStore>(t: &mut Tables, g: &mut G, tid: Tid)
    requires keeps { KeepsOver G.PageStore t.old g.old }
    ensures { EndsAccess G.PageStore tid.0 t.old g.old t.new g.new }
{
    g.forget(tid);
    t.end_kept(tid);
}

/// Decides a `resume` line (own): the access that a thread keeps is decided anew, in the world that
/// there is now. Any answer but `pending` ends it.
pub(crate) fn resume_line<G: PageStore>(t: &mut Tables, g: &mut G, line: u32, tid: Tid) -> Answer
    requires next { IsNext G.PageStore line t.old g.old }
    requires idle { G.unpaged ≡ true → (n : ℕ) → (G.store g.old).report.wait n ≡ wait.None }
    ensures done { AnswersLine G.PageStore (event.Resume tid) line t.old g.old result t.new g.new }
    ensures waits { EndsWaits t.old (event.Resume tid) result (G.store g.new).report }
    ensures loans { G.loans g.new ≡ G.loans g.old }
{
    let kept = match t.kept(tid) {
        Some(kept) => kept,
        None => {
            begin(g, line, LineKind::Call);
            g.forget(tid);
            return Answer::Nothing;
        }
    };
    begin(g, line, LineKind::Thread(kept.pid));
    let failed = has_failed(g, tid);
    match access_on(t, g, tid, kept.pid, &kept.access, failed) {
        Threaded::Waiting(why) => Answer::Pending(why),
        Threaded::Made(answer) => {
            end_access(t, g, tid);
            answer
        }
        Threaded::Refused(answer) => {
            end_access(t, g, tid);
            answer
        }
        Threaded::Failed => {
            end_access(t, g, tid);
            Answer::Raised(Raise::InPageError)
        }
    }
}
