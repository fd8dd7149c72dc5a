ghost use Rattle.std.specs.Prelude.{◌≡◌, ◌≤◌, true, false, is_some, map, Some, None, option_map, Option};
ghost use Rattle.mm_types.specs.{address_of, Key};
ghost use Rattle.mm_world.specs.{RegionOf, Found, change_flags, mark_written, one_page, watched_around, written_in, unwritten, Page, ProcessOf};
ghost use Rattle.mm_world.specs.{process_of, set_region, Committed, committed_at};
ghost use Rattle.mm_object_tables.specs.{FitsTables};
ghost use Rattle.mm_store.specs.{StoreOf};

use crate::Tables;
use crate::tables::space_of;
use mm_address_spaces::PageRange;
use mm_types::{PageList, Pid};

impl Tables {
    /// A write to a committed page of a living process was done: it is written from now on, where
    /// its region is watched.
    pub fn mark(&mut self, pid: Pid, page: u32)
        requires lives { is_some (process_of self.old pid.0) ≡ true }
        requires committed { (p : ProcessOf (Unit {0})) → process_of self.old pid.0 ≡ Some p
            → is_some (committed_at self.old p.regions page) ≡ true }
        ensures marked { (p : ProcessOf (Unit {0})) (c : Committed (Unit {0}))
            → process_of self.old pid.0 ≡ Some p → committed_at self.old p.regions page ≡ Some c
            → self.new ≡ set_region self.old pid.0 p c.region.place
            (mark_written true (one_page page) c.region.thing) }
        ensures fits { (contents : Key → Option Page) (s : StoreOf)
            → FitsTables self.old contents s → FitsTables self.new contents s }
    {
        space_of(&mut self.processes[pid.0 as usize - 1]).mark(page);
    }

    /// The addresses of the lowest written pages of the range, at most `count` (1 to 16), in rising
    /// order, which are unwritten from now on (GetWriteWatch with WRITE_WATCH_FLAG_RESET). None
    /// exactly where the range lies in no watched region of the living process; then nothing
    /// changes.
    pub fn take_written(&mut self, pid: Pid, range: PageRange, count: u32) -> Option<PageList>
        requires lives { is_some (process_of self.old pid.0) ≡ true }
        requires few { count ≤ 16 }
        ensures found { (p : ProcessOf (Unit {0})) → process_of self.old pid.0 ≡ Some p
            → result ≡ option_map (λ r. map address_of (written_in r.thing range count))
            (watched_around p.regions range) }
        ensures taken { (p : ProcessOf (Unit {0})) (r : Found (RegionOf (Unit {0})))
            → process_of self.old pid.0 ≡ Some p → watched_around p.regions range ≡ Some r
            → self.new ≡ set_region self.old pid.0 p r.place
            (change_flags (unwritten r.thing.base (written_in r.thing range count)) r.thing) }
        ensures none { (p : ProcessOf (Unit {0})) → process_of self.old pid.0 ≡ Some p
            → watched_around p.regions range ≡ None → self.new ≡ self.old }
        ensures fits { (contents : Key → Option Page) (s : StoreOf)
            → FitsTables self.old contents s → FitsTables self.new contents s }
    {
        space_of(&mut self.processes[pid.0 as usize - 1]).take_written(range, count)
    }

    /// The pages of the range are unwritten from now on (ResetWriteWatch). None exactly where it
    /// lies in no watched region of the living process; then nothing changes.
    pub fn reset_written(&mut self, pid: Pid, range: PageRange) -> Option<()>
        requires lives { is_some (process_of self.old pid.0) ≡ true }
        ensures found { (p : ProcessOf (Unit {0})) → process_of self.old pid.0 ≡ Some p
            → is_some result ≡ is_some (watched_around p.regions range) }
        ensures reset { (p : ProcessOf (Unit {0})) (r : Found (RegionOf (Unit {0})))
            → process_of self.old pid.0 ≡ Some p → watched_around p.regions range ≡ Some r
            → self.new ≡ set_region self.old pid.0 p r.place (mark_written false range r.thing) }
        ensures none { (p : ProcessOf (Unit {0})) → process_of self.old pid.0 ≡ Some p
            → watched_around p.regions range ≡ None → self.new ≡ self.old }
        ensures fits { (contents : Key → Option Page) (s : StoreOf)
            → FitsTables self.old contents s → FitsTables self.new contents s }
    {
        space_of(&mut self.processes[pid.0 as usize - 1]).reset_written(range)
    }
}
