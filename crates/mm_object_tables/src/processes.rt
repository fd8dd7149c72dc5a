ghost use Rattle.std.specs.Prelude.{◌==◌, ◌≡◌, ◌≤◌, ◌+◌, ◌-◌, ◌++◌, [], ◌∷◌, true, false, is_some, Some, IsOk, OnOk, OnErr, vec_len, vec_capacity, ◌<◌, length, Option, IsSomeAnd};
ghost use Rattle.mm_types.specs.{limit_of, Key};
ghost use Rattle.mm_world.specs.{RegionOf, Found, region_around, protected, change_rows, no_regions, with_slots, most_slots, Page, ProcessOf};
ghost use Rattle.mm_world.specs.{process_of, set_region, charge, limit, Committed, committed_at, guard_off, set_row, private_key, same_key};
ghost use Rattle.mm_world.specs.{most_processes, most_fails};
ghost use Rattle.mm_store.specs.{place_at, StoreOf};
ghost use Rattle.mm_move_rules.specs.{changed};
ghost use Rattle.mm_object_tables.specs.{Roomier, FitsTables, extended, copied, CanCopy, NamesAtMostOne, StaysIdle, IdlesOver, CanProtectAll, IsReadyFor};
ghost use Rattle.mm_object_tables.specs.{StartsProcess, SettlesTables, shown_processes};
ghost use Rattle.mm_types.specs.declared.moves.LineKind.TheVariants as line_kind;

use crate::Tables;
use crate::private_pages::take;
use crate::tables::{Process, space_of};
use mm_address_spaces::{AddressSpace, PageRange};
use mm_sections::Handles;
use mm_store::PageStore;
use mm_types::{Machine, NoMemory, Pid};
use std::alloc::Global;

/// Sees that there is room for `total` keys, as there was where `n` is 0. After `NoMemory`, which
/// comes only where it is not, there may be more room.
#[tactic(auto, using(mm_store::proofs::Passed::turns_same))]
fn grow_for_marks<G: PageStore>(g: &mut G, n: u32, total: u32) -> Result<(), NoMemory>
    requires within { total ≤ limit_of (G.store g.old).machine }
    requires enough { n ≡ 0 → total ≤ (G.store g.old).room }
    ensures room { OnOk result (total ≤ (G.store g.new).room) }
    ensures some { n ≡ 0 → IsOk result }
    ensures more { Roomier (G.contents g.old) (G.contents g.new) (G.store g.old) (G.store g.new) }
    ensures idles { StaysIdle G.PageStore g.old g.new }
{
    if n > 0 {
        g.reserve(total)?;
    }
    Ok(())
}

/// Puts a process without regions and handles at the end, for which there is room.
fn push_empty(processes: &mut Vec<Option<Process>>, allocator: Global)
    requires room { vec_len processes.old + 1 ≤ vec_capacity processes.old }
    ensures { shown_processes processes.new.items ≡
        shown_processes processes.old.items ++ Some no_regions ∷ [] }
{
    processes.push_reserved(Some(Process {
        space: AddressSpace::new(allocator),
        handles: Handles::new(allocator),
    }));
}

/// Makes a process without regions in the store, at the end of those that there are. After
/// `NoMemory` nothing has changed.
#[tactic(auto, using(mm_store::proofs::Passed::turns_same))]
fn push_process<G: PageStore>(
    processes: &mut Vec<Option<Process>>,
    allocator: Global,
    g: &mut G,
    pid: Pid,
    min: u32,
    max: u32,
) -> Result<(), NoMemory>
    requires new { (G.store g.old).is_open pid.0 ≡ false }
    requires kind { (G.store g.old).kind ≡ line_kind.Process pid min max }
    ensures added { OnOk result (shown_processes processes.new.items ≡
        shown_processes processes.old.items ++ Some no_regions ∷ []) }
    ensures same { OnErr result (processes.new.items ≡ processes.old.items) }
    ensures store { OnOk result (G.store g.new ≡ record (G.store g.old) {
      is_open = changed ◌==◌ (G.store g.old).is_open pid.0 true;
    }) }
    ensures kept { OnErr result (G.store g.new ≡ G.store g.old) }
    ensures idles { IdlesOver G.PageStore g.old g.new }
{
    processes.reserve(1)?;
    g.open_process(pid, min, max)?;
    push_empty(processes, allocator);
    Ok(())
}

/// The machine with `n` page-file slots more.
fn with_slots(machine: Machine, n: u32) -> Machine
    requires most { machine.slots + n ≤ most_slots }
    ensures made { result ≡ with_slots machine n }
    ensures limit { limit_of (with_slots machine n) ≡ limit_of machine + n }
{
    Machine::new(
        machine.frames(),
        machine.slots() + n,
        machine.depth(),
        machine.blocks(),
    )
}

impl Tables {
    // ---- processes and what is counted

    /// Makes the next process, without regions, in tables and store. After `NoMemory` nothing has
    /// changed.
    pub fn add_process<G: PageStore>(
        &mut self,
        allocator: Global,
        g: &mut G,
        pid: Pid,
        min: u32,
        max: u32,
    ) -> Result<(), NoMemory>
        requires few { length self.old.processes ≤ most_processes }
        requires next { pid.0 ≡ length self.old.processes }
        requires starts { StartsProcess G.PageStore pid min max self.old g.old }
        ensures ok { OnOk result (self.new ≡ record self.old {
          processes = self.old.processes ++ Some no_regions ∷ [];
        }) }
        ensures store { OnOk result (G.store g.new ≡ record (G.store g.old) {
          is_open = changed ◌==◌ (G.store g.old).is_open pid.0 true;
        }) }
        ensures fits { OnOk result (FitsTables self.new (G.contents g.new) (G.store g.new)) }
        ensures kept { OnErr result ((self.new ≡ self.old) × (G.store g.new ≡ G.store g.old)) }
        ensures idles { IdlesOver G.PageStore g.old g.new }
    {
        push_process(&mut self.processes, allocator, g, pid, min, max)?;
        Ok(())
    }

    /// The paging file has grown by `n` slots.
    pub fn add_slots(&mut self, n: u32)
        requires most { self.old.machine.slots + n ≤ most_slots }
        ensures grown { self.new ≡ record self.old { machine = with_slots self.old.machine n } }
        ensures fits { (contents : Key → Option Page) (s z : StoreOf) →
            FitsTables self.old contents s →
            z ≡ extended s z → z.machine ≡ with_slots s.machine n → s.room ≤ z.room →
            FitsTables self.new contents z }
    {
        self.machine = with_slots(self.machine, n);
        self.commit.raise(n);
    }

    /// One more `fail` line was taken.
    pub fn take_fail(&mut self)
        requires most { self.old.fails_taken < most_fails }
        ensures taken { self.new ≡ record self.old { fails_taken = self.old.fails_taken + 1 } }
        ensures fits { (contents : Key → Option Page) (s z : StoreOf) →
            FitsTables self.old contents s →
            NamesAtMostOne s z → FitsTables self.new contents z }
    {
        self.fails_taken += 1;
    }

    // ---- rows of any region

    /// Turns the guard of a committed page of a living process off.
    pub fn take_guard_off(&mut self, pid: Pid, page: u32)
        requires lives { is_some (process_of self.old pid.0) ≡ true }
        requires committed { (p : ProcessOf (Unit {0})) → process_of self.old pid.0 ≡ Some p →
            is_some (committed_at self.old p.regions page) ≡ true }
        ensures off { (p : ProcessOf (Unit {0})) (c : Committed (Unit {0})) →
            process_of self.old pid.0 ≡ Some p → committed_at self.old p.regions page ≡ Some c →
            self.new ≡ guard_off self.old pid.0 p c page }
        ensures fits { (contents : Key → Option Page) (s : StoreOf) →
            FitsTables self.old contents s →
            FitsTables self.new contents s }
    {
        space_of(&mut self.processes[pid.0 as usize - 1]).take_guard_off(page);
    }

    /// A committed page of a view with a mark, which was not copied, has bytes of its own from now
    /// on, and the protection READWRITE.
    pub fn copy_page(&mut self, pid: Pid, page: u32)
        requires lives { is_some (process_of self.old pid.0) ≡ true }
        requires marked { (p : ProcessOf (Unit {0})) → process_of self.old pid.0 ≡ Some p →
            IsSomeAnd (committed_at self.old p.regions page) (λ c. CanCopy c) }
        ensures copied { (p : ProcessOf (Unit {0})) (c : Committed (Unit {0})) →
            process_of self.old pid.0 ≡ Some p → committed_at self.old p.regions page ≡ Some c →
            self.new ≡ set_row self.old pid.0 p c.region page (record c.row {
              own = Some tt;
              prot = 0x04;
            }) }
        ensures fits { (contents : Key → Option Page) (s : StoreOf) (bytes : Page) →
            FitsTables self.old contents s →
            FitsTables self.new (changed same_key contents (private_key pid.0 page) (Some bytes))
            (copied (place_at pid page) s) }
    {
        space_of(&mut self.processes[pid.0 as usize - 1]).copy_page(page);
    }

    /// Gives a range of committed pages of one region of a process another protection, which they
    /// accept; in a view WRITECOPY marks `n` of them, and the limit allows these. `NoMemory` comes
    /// only where pages are marked; then tables and bytes are as before.
    pub fn protect<G: PageStore>(
        &mut self,
        g: &mut G,
        pid: Pid,
        range: PageRange,
        prot: u32,
        n: u32,
    ) -> Result<(), NoMemory>
        requires ready { IsReadyFor G.PageStore line_kind.Call pid self.old g.old }
        requires can { CanProtectAll pid range prot n self.old }
        requires room { charge self.old + n ≤ limit self.old }
        ensures ok { OnOk result ((p : ProcessOf (Unit {0})) (r : Found (RegionOf (Unit {0}))) →
            process_of self.old pid.0 ≡ Some p → region_around p.regions range ≡ Some r →
            self.new ≡ set_region self.old pid.0 p r.place
            (change_rows (protected r.thing.kind prot) range r.thing)) }
        ensures settles { SettlesTables G.PageStore result self.old self.new g.old g.new }
        ensures some { n ≡ 0 → IsOk result }
        ensures idles { StaysIdle G.PageStore g.old g.new }
    {
        let total = self.commit.now() + n;
        grow_for_marks(g, n, total)?;
        space_of(&mut self.processes[pid.0 as usize - 1]).protect(range, prot);
        take(&mut self.commit, n);
        Ok(())
    }
}
