ghost use Rattle.std.specs.Option.{ForSome};
ghost use Rattle.std.specs.Prelude.{ℕ, ◌≡◌, ◌≤◌, ◌/◌, true, is_some, Some, None, IsSomeAnd, option_map, slice_set, remove, ◌<◌, ◌+◌, Bool, ◌^◌, ◌==◌, [], map, IfSome, position, slice_get};
ghost use Rattle.mm_world.specs.{RegionOf, ProcessOf, numbered, Found, view_at, process_of, set_regions, set_process, handle_section, settle};
ghost use Rattle.mm_world.specs.{end_stacks, kept_of_others};
ghost use Rattle.mm_sections.specs.{one_handle_less, one_view_less, held, handle_at};
ghost use Rattle.mm_address_spaces.specs.{found_info, info_of};
ghost use Rattle.mm_object_tables.specs.{LosesReference, IsReadyFor, PassesAs, Shrinks, Nears, FitsTables, Settled, is_uncommitted, AreUnbound, IsRankFor};
ghost use Rattle.mm_object_tables.specs.{Fewer, HasNoHandle, IsTidy, NobodyKeeps};
ghost use Rattle.mm_types.specs.declared.moves.LineKind.TheVariants as line_kind;
ghost use Rattle.mm_types.specs.declared.views.Kind.TheVariants as kind;
ghost use Rattle.mm_types.specs.{Place, end_of, end_of_user_pages};
ghost use Rattle.mm_store.specs.{Goes, leaving, AreAmong, IsReleasing, place_at, Turn, page_rank};
ghost use Rattle.mm_store.specs.Housekeeping.{Ends};
ghost use Rattle.mm_store.specs.Leaving.{Leaving};
ghost use Rattle.mm_world.specs.WellFormed.{WellFormed};

use crate::Tables;
use crate::keys::{end_area, release_pages};
use crate::tables::{Process, handles_of, space_of};
use mm_address_spaces::{PageRange, RegionInfo};
use mm_sections::Directory;
use mm_store::PageStore;
use mm_types::{Area, Kind, PAGE_SIZE, Pid, SectionId, View};

/// One handle less refers to a section. Tells its control area, where it ended.
fn drop_handle_of(directory: &mut Directory, id: SectionId) -> Option<Area>
    requires lives { IsSomeAnd (numbered directory.old.entries id.0) (λ c. 1 ≤ c.handles) }
    ensures { LosesReference one_handle_less id.0 directory.old directory.new result }
{
    let section = directory.section(id)?;
    directory.drop_handle(id).then_some(section.area)
}

/// One view less refers to a section. Tells its control area, where it ended.
fn drop_view_of(directory: &mut Directory, id: SectionId) -> Option<Area>
    requires lives { IsSomeAnd (numbered directory.old.entries id.0) (λ c. 1 ≤ c.views) }
    ensures { LosesReference one_view_less id.0 directory.old directory.new result }
{
    let section = directory.section(id)?;
    directory.drop_view(id).then_some(section.area)
}

/// The place of a process is empty from now on.
fn empty_place(process: &mut Option<Process>)
    ensures { process.new ≡ None }
{
    *process = None;
}

impl Tables {
    /// `drop_handle`, which also tells that keys that live on keep their bytes.
    #[tactic(auto, using(mm_store::proofs::Passed::turns_same))]
    fn close_handle<G: PageStore>(&mut self, g: &mut G, pid: Pid, handle: u32)
        requires fits { FitsTables self.old (G.contents g.old) (G.store g.old) }
        requires kind { IsReleasing (G.store g.old).kind }
        requires lives { is_some (process_of self.old pid.0) ≡ true }
        requires there { (p : ProcessOf (Unit {0})) → process_of self.old pid.0 ≡ Some p →
            is_some (handle_section self.old p handle) ≡ true }
        ensures closed { (p : ProcessOf (Unit {0})) → process_of self.old pid.0 ≡ Some p →
            self.new ≡ settle (set_process self.old pid.0 (Some (record p {
              handles = slice_set p.handles (handle / 4) None;
            }))) }
        ensures shrinks { Shrinks G.PageStore self.new g.old g.new }
        ensures passes { (held : Leaving) (from to : ℕ) → IsRankFor held.rank pid.0 self.old
            → from ≤ handle / 4 + 1 → handle / 4 + 1 < to →
            PassesAs G.PageStore (Ends held from to) g.old g.new }
    {
        let handles = handles_of(&mut self.processes[pid.0 as usize - 1]);
        let Some(id) = handles.section(handle) else {
            unreachable!()
        };
        handles.close(handle);
        let ended = drop_handle_of(&mut self.directory, id);
        if let Some(area) = ended {
            let pages = &mut self.areas[area.0 as usize];
            end_area(g, pages, &mut self.commit, area);
        }
    }

    /// `remove_view`, which also tells that keys that live on keep their bytes.
    fn unmap_view<G: PageStore>(
        &mut self,
        g: &mut G,
        pid: Pid,
        addr: u32,
        range: PageRange,
        view: View,
    )
        requires ready { IsReadyFor G.PageStore (line_kind.Unbind pid) pid self.old g.old }
        requires there { (p : ProcessOf (Unit {0})) → process_of self.old pid.0 ≡ Some p →
            option_map found_info (view_at p.regions addr) ≡ Some (record {
              pages = range;
              kind = kind.View view;
            }) }
        ensures removed { (p : ProcessOf (Unit {0})) (r : Found (RegionOf (Unit {0}))) →
            process_of self.old pid.0 ≡ Some p → view_at p.regions addr ≡ Some r →
            self.new ≡ settle (set_regions self.old pid.0 p (remove p.regions r.place)) }
        ensures shrinks { Shrinks G.PageStore self.new g.old g.new }
        ensures unbound { AreUnbound pid range (G.store g.new) }
        ensures passes { (held : Leaving) (from to : ℕ) → IsRankFor held.rank pid.0 self.old
            → AreAmong held from to pid range → PassesAs G.PageStore (Ends held from to) g.old g.new }
    {
        let space = space_of(&mut self.processes[pid.0 as usize - 1]);
        let marked = space.marked(range);
        release_pages(g, space, pid, range, true);
        space.remove(addr);
        self.commit.refund(marked);
        let ended = drop_view_of(&mut self.directory, view.section);
        if let Some(area) = ended {
            let pages = &mut self.areas[area.0 as usize];
            end_area(g, pages, &mut self.commit, area);
        }
    }

    /// Closes a handle that a process has. A section to which nothing refers any more ends, and
    /// with a page-file section its pages; a name is gone with the section's last handle.
    pub fn drop_handle<G: PageStore>(&mut self, g: &mut G, pid: Pid, handle: u32)
        requires fits { FitsTables self.old (G.contents g.old) (G.store g.old) }
        requires kind { IsReleasing (G.store g.old).kind }
        requires lives { is_some (process_of self.old pid.0) ≡ true }
        requires there { (p : ProcessOf (Unit {0})) → process_of self.old pid.0 ≡ Some p →
            is_some (handle_section self.old p handle) ≡ true }
        ensures closed { (p : ProcessOf (Unit {0})) → process_of self.old pid.0 ≡ Some p →
            self.new ≡ settle (set_process self.old pid.0 (Some (record p {
              handles = slice_set p.handles (handle / 4) None;
            }))) }
        ensures settled { Settled self.new (G.contents g.old) (G.contents g.new) (G.store g.old)
            (G.store g.new) }
        ensures passes { (places : Place → Bool) →
            PassesAs G.PageStore (Goes (leaving self.old pid.0 places)) g.old g.new }
        ensures loans { G.loans g.new ≡ G.loans g.old }
    {
        self.sound();
        self.close_handle(g, pid, handle);
    }

    /// Unmaps the view of a process that begins at the address and has these pages. A section to
    /// which nothing refers any more ends, and with a page-file section its pages.
    pub fn remove_view<G: PageStore>(
        &mut self,
        g: &mut G,
        pid: Pid,
        addr: u32,
        range: PageRange,
        view: View,
    )
        requires ready { IsReadyFor G.PageStore (line_kind.Unbind pid) pid self.old g.old }
        requires there { (p : ProcessOf (Unit {0})) → process_of self.old pid.0 ≡ Some p →
            option_map found_info (view_at p.regions addr) ≡ Some (record {
              pages = range;
              kind = kind.View view;
            }) }
        ensures removed { (p : ProcessOf (Unit {0})) (r : Found (RegionOf (Unit {0}))) →
            process_of self.old pid.0 ≡ Some p → view_at p.regions addr ≡ Some r →
            self.new ≡ settle (set_regions self.old pid.0 p (remove p.regions r.place)) }
        ensures settled { Settled self.new (G.contents g.old) (G.contents g.new) (G.store g.old)
            (G.store g.new) }
        ensures passes { PassesAs G.PageStore (Goes (leaving self.old pid.0 (is_uncommitted self.new)))
            g.old g.new }
        ensures loans { G.loans g.new ≡ G.loans g.old }
    {
        self.sound();
        self.unmap_view(g, pid, addr, range, view);
    }

    /// The lowest handle of a living process. None exactly where it has no handle.
    fn lowest_handle(&self, pid: Pid) -> Option<u32>
        requires lives { is_some (process_of self.now pid.0) ≡ true }
        ensures within { IfSome result (λ handle. handle < 2 ^ 32) }
        ensures found { (p : ProcessOf (Unit {0})) → process_of self.now pid.0 ≡ Some p →
            result ≡ option_map handle_at (position is_some p.handles) }
        ensures sound { WellFormed self.now }
        ensures tidy { IsTidy self.now }
    {
        self.process(pid).handles.lowest()
    }

    /// The lowest region of a living process. None exactly where it has no region.
    fn lowest(&self, pid: Pid) -> Option<RegionInfo>
        requires lives { is_some (process_of self.now pid.0) ≡ true }
        ensures found { (p : ProcessOf (Unit {0})) → process_of self.now pid.0 ≡ Some p →
            result ≡ option_map info_of (slice_get p.regions 0) }
        ensures within { IfSome result (λ info. end_of info.pages ≤ end_of_user_pages) }
        ensures sound { WellFormed self.now }
    {
        self.process(pid).space.lowest()
    }

    /// Closes all handles of a process, in rising order.
    #[tactic(auto, using(mm_store::proofs::Passed::turns_same))]
    fn close_handles<G: PageStore>(&mut self, g: &mut G, pid: Pid)
        requires ready { IsReadyFor G.PageStore (line_kind.Unbind pid) pid self.old g.old }
        ensures nears { Nears G.PageStore pid self.old self.new g.old g.new }
        ensures closed { ForSome (process_of self.new pid.0) (λ p. HasNoHandle p) }
        ensures passes { (held : Leaving) → IsRankFor held.rank pid.0 self.old →
            PassesAs G.PageStore (Ends held 1 (page_rank 0)) g.old g.new }
    {
        while let Some(handle) = self.lowest_handle(pid) {
            self.close_handle(g, pid, handle);
        }
    }

    /// Releases or unmaps the lowest region of a process, of which this is told.
    fn drop_lowest<G: PageStore>(&mut self, g: &mut G, pid: Pid, info: RegionInfo)
        requires ready { IsReadyFor G.PageStore (line_kind.Unbind pid) pid self.old g.old }
        requires there { (p : ProcessOf (Unit {0})) → process_of self.old pid.0 ≡ Some p →
            option_map info_of (slice_get p.regions 0) ≡ Some info }
        requires within { end_of info.pages ≤ end_of_user_pages }
        requires closed { ForSome (process_of self.old pid.0) (λ p. HasNoHandle p) }
        ensures nears { Nears G.PageStore pid self.old self.new g.old g.new }
        ensures fewer { (p q : ProcessOf (Unit {0})) → process_of self.old pid.0 ≡ Some p →
            process_of self.new pid.0 ≡ Some q → Fewer p q }
        ensures passes { (held : Leaving) (from to : ℕ) → IsRankFor held.rank pid.0 self.old
            → AreAmong held from to pid info.pages →
            PassesAs G.PageStore (Ends held from to) g.old g.new }
    {
        let range = info.pages;
        let addr = range.first * PAGE_SIZE;
        match info.kind {
            Kind::Private => self.release_region(g, pid, addr, range),
            Kind::View(view) => self.unmap_view(g, pid, addr, range, view),
        }
    }

    /// Releases and unmaps all regions of a process, from the lowest on.
    #[tactic(auto, using(mm_store::proofs::Passed::turns_same))]
    fn drop_regions<G: PageStore>(&mut self, g: &mut G, pid: Pid)
        requires ready { IsReadyFor G.PageStore (line_kind.Unbind pid) pid self.old g.old }
        requires closed { ForSome (process_of self.old pid.0) (λ p. HasNoHandle p) }
        ensures nears { Nears G.PageStore pid self.old self.new g.old g.new }
        ensures closed { ForSome (process_of self.new pid.0) (λ p. HasNoHandle p) }
        ensures empty { ForSome (process_of self.new pid.0) (λ p. p.regions ≡ []) }
        ensures passes { (held : Leaving) → IsRankFor held.rank pid.0 self.old
            → ((page : ℕ) → held.places (place_at pid page) ≡ true) →
            PassesAs G.PageStore (Ends held (page_rank 0) (page_rank end_of_user_pages)) g.old g.new }
    {
        while let Some(info) = self.lowest(pid) {
            self.drop_lowest(g, pid, info);
        }
    }

    /// Ends a process that has no handle and no region.
    fn close_process<G: PageStore>(&mut self, g: &mut G, pid: Pid)
        requires fits { FitsTables self.old (G.contents g.old) (G.store g.old) }
        requires lives { is_some (process_of self.old pid.0) ≡ true }
        requires closed { ForSome (process_of self.old pid.0) (λ p. HasNoHandle p) }
        requires empty { ForSome (process_of self.old pid.0) (λ p. p.regions ≡ []) }
        requires nobody { NobodyKeeps pid.0 self.old }
        ensures ended { self.new ≡ settle (set_process self.old pid.0 None) }
        ensures shrinks { Shrinks G.PageStore self.new g.old g.new }
        ensures passes { (turn : Turn) → PassesAs G.PageStore turn g.old g.new }
    {
        g.close_process(pid);
        empty_place(&mut self.processes[pid.0 as usize - 1]);
    }

    /// Ends a living process: what threads keep of it and its stacks are gone, its handles are
    /// closed in rising order, then its regions unmapped or released from the lowest on.
    pub fn end_process<G: PageStore>(&mut self, g: &mut G, pid: Pid)
        requires ready { IsReadyFor G.PageStore (line_kind.Unbind pid) pid self.old g.old }
        ensures ended { self.new ≡ settle (set_process (end_stacks (record self.old {
          kept = map (kept_of_others pid.0) self.old.kept;
        }) (λ s. s.pid == pid.0)) pid.0 None) }
        ensures settled { Settled self.new (G.contents g.old) (G.contents g.new) (G.store g.old)
            (G.store g.new) }
        ensures passes { (places : Place → Bool) →
            ((page : ℕ) → places (place_at pid page) ≡ true) →
            PassesAs G.PageStore (Goes (leaving self.old pid.0 places)) g.old g.new }
        ensures loans { G.loans g.new ≡ G.loans g.old }
    {
        self.sound();
        self.drop_kept(pid);
        self.end_stacks_in(pid);
        self.close_handles(g, pid);
        self.drop_regions(g, pid);
        self.close_process(g, pid);
    }
}
