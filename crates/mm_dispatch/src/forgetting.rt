ghost use Rattle.std.specs.Prelude.{◌≡◌, false};
ghost use Rattle.mm_world.specs.{kept_by};
ghost use Rattle.mm_dispatch.specs.{Forgot, is_of_process, waits_but, waited, IdlesIn, IdlesBut};

use mm_object_tables::Tables;
use mm_store::PageStore;
use mm_types::{Pid, THREADS, Tid};

/// Whether a thread keeps an access of the process.
fn keeps_of(t: &Tables, tid: Tid, pid: Pid) -> bool
    ensures { result ≡ is_of_process pid.0 (kept_by t.now tid.0) }
{
    match t.kept(tid) {
        Some(kept) => kept.pid.0 == pid.0,
        None => false,
    }
}

/// A thread waits for nothing any more, if it keeps an access of the process.
fn forget_wait<G: PageStore>(t: &Tables, g: &mut G, tid: Tid, pid: Pid)
    ensures waits { (G.store g.new).report.wait ≡
        waits_but t.now pid.0 tid.0 (G.store g.old).report.wait }
    ensures rest { G.store g.new ≡ waited (G.store g.old) (G.store g.new) }
    ensures contents { G.contents g.new ≡ G.contents g.old }
    ensures passes { G.unpaged ≡ false →
        IdlesBut t.now pid.0 tid.0 (G.behind g.old) (G.behind g.new) }
    ensures loans { G.loans g.new ≡ G.loans g.old }
{
    if keeps_of(t, tid, pid) {
        g.forget(tid);
    }
}

/// No thread that keeps an access of the process waits any more.
pub(crate) fn forget_waits<G: PageStore>(t: &Tables, g: &mut G, pid: Pid)
    ensures forgot { Forgot t.now pid.0 256 (G.store g.old) (G.store g.new) }
    ensures contents { G.contents g.new ≡ G.contents g.old }
    ensures passes { IdlesIn G.unpaged t.now pid.0 256 (G.behind g.old) (G.behind g.new) }
    ensures loans { G.loans g.new ≡ G.loans g.old }
{
    for tid in 0..THREADS {
        forget_wait(t, g, Tid(tid as u8), pid);
    }
}
