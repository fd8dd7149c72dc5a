ghost use Rattle.std.specs.Prelude.{◌≡◌, ℕ, true, is_some, map, replicate, Option, Some, None, option_map};
ghost use Rattle.mm_types.specs.{Key};
ghost use Rattle.mm_world.specs.{Page, KeptOf, process_of, kept_of_others, threads, kept_by, keep};
ghost use Rattle.mm_store.specs.{StoreOf};
ghost use Rattle.mm_object_tables.specs.{FitsTables, NobodyKeeps, FitsPage, kept_of, shown_accesses, unless_of};

use crate::Tables;
use crate::waiting::Kept;
use mm_types::{AccessSpec, Pid, THREADS, Tid};

/// What a thread keeps that has no pending access.
const NOTHING: Option<Kept> = None;

/// No thread keeps an access.
pub(crate) fn no_accesses() -> [Option<Kept>; THREADS]
    ensures { shown_accesses result ≡ replicate threads None }
{
    [NOTHING; THREADS]
}

/// The same access.
fn same_access(access: &AccessSpec) -> AccessSpec
    ensures { result ≡ access.now }
{
    match access {
        AccessSpec::Read { addr, len } => AccessSpec::Read {
            addr: *addr,
            len: *len,
        },
        AccessSpec::Write { addr, bytes } => AccessSpec::Write {
            addr: *addr,
            bytes: *bytes,
        },
    }
}

/// What a thread keeps.
fn kept_access(pid: Pid, access: &AccessSpec) -> Kept
    requires { FitsPage access.now }
    ensures { kept_of result ≡ record { pid = pid.0; access = access.now } }
{
    Kept {
        pid,
        access: same_access(access),
    }
}

/// Lets go of an access of the process.
fn drop_access(kept: &mut Option<Kept>, pid: Pid)
    ensures { kept.new ≡ unless_of pid.0 kept.old }
{
    let drops = match kept {
        Some(kept) => kept.pid.0 == pid.0,
        None => false,
    };
    if drops {
        *kept = None;
    }
}

/// Lets go of each access of the process.
fn drop_accesses(kept: &mut [Option<Kept>; THREADS], pid: Pid)
    ensures { shown_accesses kept.new ≡ map (kept_of_others pid.0) (shown_accesses kept.old) }
{
    for tid in 0..THREADS {
        drop_access(&mut kept[tid], pid);
    }
}

impl Tables {
    /// The access that a thread keeps, of a process that lives. None exactly where it keeps none.
    pub fn kept(&self, tid: Tid) -> Option<Kept>
        ensures kept { option_map kept_of result ≡ kept_by self.now tid.0 }
        ensures lives { (k : KeptOf) → kept_by self.now tid.0 ≡ Some k →
            is_some (process_of self.now k.pid) ≡ true }
    {
        let kept = self.kept[tid.0 as usize].as_ref()?;
        Some(kept_access(kept.pid, &kept.access))
    }

    /// A thread keeps this access of a living process, which lies in one page, in the place of what
    /// it kept.
    pub fn keep(&mut self, tid: Tid, pid: Pid, access: &AccessSpec)
        requires lives { is_some (process_of self.old pid.0) ≡ true }
        requires fits { FitsPage access.now }
        ensures kept { self.new ≡ keep self.old tid.0 (Some (record {
          pid = pid.0;
          access = access.now;
        })) }
        ensures fits { (c : Key → Option Page) (s : StoreOf) → FitsTables self.old c s →
            FitsTables self.new c s }
    {
        self.kept[tid.0 as usize] = Some(kept_access(pid, access));
    }

    /// A thread keeps no access any more.
    pub fn end_kept(&mut self, tid: Tid)
        ensures ended { self.new ≡ keep self.old tid.0 None }
        ensures fits { (c : Key → Option Page) (s : StoreOf) → FitsTables self.old c s →
            FitsTables self.new c s }
    {
        self.kept[tid.0 as usize] = None;
    }

    /// No thread keeps an access of this process any more.
    pub(crate) fn drop_kept(&mut self, pid: Pid)
        ensures dropped { self.new ≡ record self.old {
          kept = map (kept_of_others pid.0) self.old.kept;
        } }
        ensures nobody { NobodyKeeps pid.0 self.new }
        ensures fits { (c : Key → Option Page) (s : StoreOf) → FitsTables self.old c s →
            FitsTables self.new c s }
    {
        drop_accesses(&mut self.kept, pid);
    }
}
