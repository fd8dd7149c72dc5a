ghost use Rattle.std.specs.Prelude.{◌≡◌, ◌≤◌, ◌+◌, ◌-◌, ◌==◌, ℕ, true, false, is_some, Some, IsOk, OnOk, OnErr, remove, ◌^◌, option_map};
ghost use Rattle.mm_types.specs.{end_of, end_of_user_pages, are_user_pages, holds_page, reserve_type};
ghost use Rattle.mm_world.specs.{RegionOf, Found, region_around, add_region, is_private, private_region, blank, private_at, is_protection_among};
ghost use Rattle.mm_world.specs.{private_protections, commit, reserved_row, change_rows, ProcessOf, pages_of, process_of, set_region, set_regions};
ghost use Rattle.mm_world.specs.{end_stacks, charge, limit, is_stack_at};
ghost use Rattle.mm_store.specs.{MakesFrom};
ghost use Rattle.mm_move_rules.specs.{changed};
ghost use Rattle.mm_object_tables.specs.{Makes, Leaves, RangeStored, Roomier, CanMake, keys_of, new_pages, IsNewRange, CanBind, PassesAs, IdlesOver};
ghost use Rattle.mm_object_tables.specs.{MakesWithin, AddsKeys, BindsPlaces, CommitsPages, IsReadyFor, SettlesTables, Frees, CanAdd, StandsFrom};
ghost use Rattle.mm_object_tables.specs.{is_page_live, MoreRoom, Less};
ghost use Rattle.mm_types.specs.declared.moves.LineKind.TheVariants as line_kind;

use crate::tables::space_of;
use crate::{Tables, keys};
use mm_address_spaces::{AddressSpace, NewRegion, PageRange};
use mm_commit_charge::Commit;
use mm_store::PageStore;
use mm_types::{NoMemory, Pid, Vpn};
use std::alloc::Global;

/// MEM_RESERVE.
const RESERVE_TYPE: u32 = 0x2000;

/// How many pages of a new region are committed.
pub fn new_pages(kind: u32, range: PageRange) -> u32
    ensures { result ≡ new_pages kind range }
{
    if kind == RESERVE_TYPE { 0 } else { range.count }
}

/// Charges pages for which there is room.
pub(crate) fn take(commit: &mut Commit, n: u32)
    requires { commit.old.charge + n ≤ commit.old.limit }
    ensures { commit.new ≡ record commit.old { charge = commit.old.charge + n } }
{
    match commit.charge(n) {
        Ok(()) => {}
        Err(_) => unreachable!(),
    }
}

/// What a new region takes of an address space and of the store: room for it and for all keys, and
/// its places. After `NoMemory` there may be more room.
#[tactic(auto, using(mm_store::proofs::Passed::turns_same))]
pub(crate) fn grow_for_region<G: PageStore>(
    space: &mut AddressSpace,
    g: &mut G,
    pid: Pid,
    range: PageRange,
    total: u32,
) -> Result<(), NoMemory>
    requires user { are_user_pages range ≡ true }
    requires bind { CanBind G.PageStore pid range total g.old }
    ensures regions { space.new.regions ≡ space.old.regions }
    ensures spare { OnOk result (1 ≤ space.new.spare) }
    ensures binds { OnOk result (BindsPlaces G.PageStore pid range total g.old g.new) }
    ensures err { OnErr result (MoreRoom (G.store g.old) (G.store g.new)) }
    ensures idles { IdlesOver G.PageStore g.old g.new }
{
    space.reserve()?;
    g.reserve(total)?;
    g.bind(pid, Vpn(range.first), range.count)
}

/// Adds the keys of a new region's pages, where its pages are committed.
#[tactic(auto, using(mm_store::proofs::Passed::turns_same))]
fn fill_region<G: PageStore>(space: &AddressSpace, g: &mut G, pid: Pid, range: PageRange, kind: u32)
    requires end { end_of range ≤ end_of_user_pages }
    requires can { (kind == reserve_type) ≡ false →
        CanAdd pid range space.now.regions (G.contents g.old) (G.store g.old) }
    requires dead { (page : ℕ) → holds_page range page ≡ true →
        is_page_live pid (G.contents g.old) page ≡ false }
    ensures stored { RangeStored pid range (keys_of kind) Leaves false (G.contents g.old)
        (G.contents g.new) (G.store g.old) (G.store g.new) }
    ensures counted { (G.store g.new).paging_keys ≡ (G.store g.old).paging_keys + new_pages kind
        range }
    ensures room { (G.store g.new).room ≡ (G.store g.old).room }
    ensures passes { (from to : ℕ) → ((kind == reserve_type) ≡ false → StandsFrom from to range) →
        PassesAs G.PageStore (MakesFrom from to) g.old g.new }
    ensures loans { G.loans g.new ≡ G.loans g.old }
{
    if kind != RESERVE_TYPE {
        keys::add_pages(g, space, pid, range, Some(false));
    }
}

/// Makes a private region of free pages, and adds its keys where it is committed. `total` is what
/// all keys then come to at most. After `NoMemory` there may be more room.
#[tactic(auto, using(mm_store::proofs::Passed::turns_same, mm_store::proofs::Passed::idle_before))]
fn make_region<G: PageStore>(
    alloc: Global,
    space: &mut AddressSpace,
    g: &mut G,
    pid: Pid,
    range: PageRange,
    watched: bool,
    kind: u32,
    prot: u32,
    total: u32,
) -> Result<(), NoMemory>
    requires new { IsNewRange space.old.regions range }
    requires prot { is_protection_among private_protections prot ≡ true }
    requires can { CanMake pid range kind total space.old.regions (G.contents g.old)
        (G.store g.old) }
    ensures changed { OnOk result (space.new.regions ≡
        add_region (private_region blank watched kind prot range) space.old.regions) }
    ensures adds { OnOk result (AddsKeys G.PageStore pid range (keys_of kind) Makes true
        (new_pages kind range) total g.old g.new) }
    ensures makes { MakesWithin G.PageStore (λ from to.
        (kind == reserve_type) ≡ false → StandsFrom from to range) result g.old g.new }
    ensures kept { OnErr result (space.new.regions ≡ space.old.regions) }
    ensures err { OnErr result (Roomier (G.contents g.old) (G.contents g.new) (G.store g.old)
        (G.store g.new)) }
{
    let region = NewRegion::private(alloc, watched, kind, prot, range)?;
    match grow_for_region(space, g, pid, range, total) {
        Ok(()) => {
            fill_region(space, g, pid, range, kind);
            space.add(region);
            Ok(())
        }
        Err(NoMemory) => Err(NoMemory),
    }
}

impl Tables {
    /// Commits a range of one private region of a process; `n` of its pages are not committed, and
    /// the limit allows them. After `NoMemory`, which does not come where the store has room for
    /// them, tables and bytes are as before.
    pub fn commit<G: PageStore>(
        &mut self,
        g: &mut G,
        pid: Pid,
        range: PageRange,
        prot: u32,
        n: u32,
    ) -> Result<(), NoMemory>
        requires ready { IsReadyFor G.PageStore line_kind.Call pid self.old g.old }
        requires can { CommitsPages pid range prot n self.old }
        requires room { charge self.old + n ≤ limit self.old }
        ensures ok { OnOk result ((p : ProcessOf (Unit {0})) (r : Found (RegionOf (Unit {0}))) →
            process_of self.old pid.0 ≡ Some p → region_around p.regions range ≡ Some r →
            self.new ≡ set_region self.old pid.0 p r.place
            (change_rows (commit tt prot) range r.thing)) }
        ensures enough { charge self.old + n ≤ (G.store g.old).room → IsOk result }
        ensures makes { MakesWithin G.PageStore (λ from to. StandsFrom from to range) result g.old
            g.new }
        ensures settles { SettlesTables G.PageStore result self.old self.new g.old g.new }
        ensures among { StandsFrom 0 (2 ^ 32) range }
    {
        let total = self.commit.now() + n;
        g.reserve(total)?;
        let space = space_of(&mut self.processes[pid.0 as usize - 1]);
        keys::add_pages(g, space, pid, range, None);
        space.commit(range, prot);
        take(&mut self.commit, n);
        Ok(())
    }

    /// Makes a private region of free pages, committed where the type says so, watched or not; the
    /// limit allows them. After `NoMemory` tables and bytes are as before.
    pub fn reserve<G: PageStore>(
        &mut self,
        alloc: Global,
        g: &mut G,
        pid: Pid,
        range: PageRange,
        watched: bool,
        kind: u32,
        prot: u32,
    ) -> Result<(), NoMemory>
        requires ready { IsReadyFor G.PageStore line_kind.Call pid self.old g.old }
        requires new { (p : ProcessOf (Unit {0})) → process_of self.old pid.0 ≡ Some p →
            IsNewRange p.regions range }
        requires prot { is_protection_among private_protections prot ≡ true }
        requires room { charge self.old + new_pages kind range ≤ limit self.old }
        ensures ok { OnOk result ((p : ProcessOf (Unit {0})) → process_of self.old pid.0 ≡ Some p →
            self.new ≡ set_regions self.old pid.0 p
            (add_region (private_region blank watched kind prot range) p.regions)) }
        ensures makes { MakesWithin G.PageStore (λ from to.
            (kind == reserve_type) ≡ false → StandsFrom from to range) result g.old g.new }
        ensures settles { SettlesTables G.PageStore result self.old self.new g.old g.new }
        ensures among { StandsFrom 0 (2 ^ 32) range }
    {
        let pages = new_pages(kind, range);
        let total = self.commit.now() + pages;
        let space = space_of(&mut self.processes[pid.0 as usize - 1]);
        make_region(alloc, space, g, pid, range, watched, kind, prot, total)?;
        take(&mut self.commit, pages);
        Ok(())
    }

    /// Decommits a range of one private region of a process.
    pub fn decommit<G: PageStore>(&mut self, g: &mut G, pid: Pid, range: PageRange)
        requires ready { IsReadyFor G.PageStore (line_kind.Unbind pid) pid self.old g.old }
        requires inside { (p : ProcessOf (Unit {0})) → process_of self.old pid.0 ≡ Some p →
            is_some (region_around p.regions range) ≡ true }
        requires private { (p : ProcessOf (Unit {0})) (r : Found (RegionOf (Unit {0}))) →
            process_of self.old pid.0 ≡ Some p → region_around p.regions range ≡ Some r →
            is_private r.thing.kind ≡ true }
        ensures changed { (p : ProcessOf (Unit {0})) (r : Found (RegionOf (Unit {0}))) →
            process_of self.old pid.0 ≡ Some p → region_around p.regions range ≡ Some r →
            self.new ≡ set_region self.old pid.0 p r.place
            (change_rows (λ row. reserved_row) range r.thing) }
        ensures frees { Frees G.PageStore pid range self.old self.new g.old g.new }
    {
        let space = space_of(&mut self.processes[pid.0 as usize - 1]);
        let owned = keys::release_pages(g, space, pid, range, false);
        space.decommit(range);
        self.commit.refund(owned);
    }

    /// `release`, before the stack is looked at that may have had the region. Keys that live on
    /// keep their bytes.
    pub(crate) fn release_region<G: PageStore>(
        &mut self,
        g: &mut G,
        pid: Pid,
        addr: u32,
        range: PageRange,
    )
        requires ready { IsReadyFor G.PageStore (line_kind.Unbind pid) pid self.old g.old }
        requires there { (p : ProcessOf (Unit {0})) → process_of self.old pid.0 ≡ Some p →
            option_map (λ r. pages_of r.thing) (private_at p.regions addr) ≡ Some range }
        ensures changed { (p : ProcessOf (Unit {0})) (r : Found (RegionOf (Unit {0}))) →
            process_of self.old pid.0 ≡ Some p → private_at p.regions addr ≡ Some r →
            self.new ≡ set_regions self.old pid.0 p (remove p.regions r.place) }
        ensures less { Less (G.contents g.old) (G.contents g.new) }
        ensures frees { Frees G.PageStore pid range self.old self.new g.old g.new }
    {
        let space = space_of(&mut self.processes[pid.0 as usize - 1]);
        let freed = keys::release_pages(g, space, pid, range, true);
        space.remove(addr);
        self.commit.refund(freed);
    }

    /// Releases the private region of a process that begins at the address and has these pages.
    /// Where it was a thread's stack, the thread has none any more.
    pub fn release<G: PageStore>(&mut self, g: &mut G, pid: Pid, addr: u32, range: PageRange)
        requires ready { IsReadyFor G.PageStore (line_kind.Unbind pid) pid self.old g.old }
        requires there { (p : ProcessOf (Unit {0})) → process_of self.old pid.0 ≡ Some p →
            option_map (λ r. pages_of r.thing) (private_at p.regions addr) ≡ Some range }
        ensures changed { (p : ProcessOf (Unit {0})) (r : Found (RegionOf (Unit {0}))) →
            process_of self.old pid.0 ≡ Some p → private_at p.regions addr ≡ Some r →
            self.new ≡ end_stacks (set_regions self.old pid.0 p (remove p.regions r.place))
            (is_stack_at pid.0 addr) }
        ensures frees { Frees G.PageStore pid range self.old self.new g.old g.new }
    {
        self.release_region(g, pid, addr, range);
        self.end_stack_at(pid, addr);
    }
}
