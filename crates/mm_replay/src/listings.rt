ghost use Rattle.std.specs.Prelude.{◌≡◌, ◌<◌, [], true, false, is_some, IfOk, Some, None};
ghost use Rattle.mm_move_rules.specs.{record_at, is_idle, off_lists, with_record, settled, to_free, free_table, numbers_from};
ghost use Rattle.mm_page_lists.specs.{number_at};
ghost use Rattle.mm_replay.specs.Listed.{AreLists, free_alone, belongs, is_owned, first_taken, put_behind};

use crate::four_lists::{FREE, FrameLists, MODIFIED, STANDBY};
use crate::records::{blank, is_idle};
use crate::values::set_at;
use mm_types::{NoMemory, Record};
use std::alloc::Global;

/// A record for each frame, and the lists that the idle frames stand on.
#[derive(Drop)]
pub(crate) struct Listing {
    pub(crate) records: Vec<Record>,
    pub(crate) lists: FrameLists<4>,
}

/// All frames go to the free list, in rising order.
fn push_all(lists: &mut FrameLists<4>, n: u32)
    requires empty { lists.old ≡ record { numbers = n; lists = free_alone [] } }
    requires kept { AreLists 4 lists.old }
    ensures pushed { lists.new ≡ record { numbers = n; lists = free_alone (numbers_from 0 n) } }
    ensures kept { AreLists 4 lists.new }
{
    for f in 0..n {
        lists.push_back(FREE, f);
    }
}

impl Listing {
    ghost use Rattle.mm_replay.specs.Listings.{listed_table, IsListingKept, IsOff};

    /// No frames, and no memory.
    pub(crate) fn none(alloc: Global) -> Listing
        ensures kept { IsListingKept result }
        ensures table { listed_table result ≡ free_table 0 }
    {
        Listing {
            records: Vec::new(alloc),
            lists: FrameLists::none(),
        }
    }

    /// All frames are free, in rising order.
    pub(crate) fn new(alloc: Global, frames: u32) -> Result<Listing, NoMemory>
        ensures kept { IfOk result IsListingKept }
        ensures table { IfOk result (λ s. listed_table s ≡ free_table frames) }
    {
        let records = vec![in alloc; blank(); frames as usize]?;
        let mut lists = FrameLists::new(alloc, frames)?;
        push_all(&mut lists, frames);
        Ok(Listing { records, lists })
    }

    /// The record of a frame; that of a frame that holds nothing, where there is no such frame.
    pub(crate) fn record(&self, f: u32) -> Record
        ensures { result ≡ record_at (listed_table self.now) f }
    {
        match self.records.get(f as usize) {
            Some(r) => *r,
            None => blank(),
        }
    }

    /// A frame that is on no list has this record from now on.
    pub(crate) fn set(&mut self, f: u32, r: Record)
        requires { IsOff self.old f }
        ensures off { IsOff self.new f }
        ensures table { listed_table self.new ≡ with_record (listed_table self.old) f r }
        ensures now { record_at (listed_table self.new) f ≡ r }
    {
        set_at(&mut self.records, f, r);
    }

    /// The first frame of a list, which is `f`, leaves it.
    pub(crate) fn take_first(&mut self, list: u32, f: u32)
        requires kept { IsListingKept self.old }
        requires inside { list < 4 }
        requires first { number_at self.old.lists.lists list 0 ≡ Some f }
        ensures off { IsOff self.new f }
        ensures belongs { belongs (record_at (listed_table self.new) f) list ≡ true }
        ensures table { listed_table self.new ≡ first_taken (listed_table self.old) list }
    {
        self.lists.pop_front(list);
    }

    /// A frame with an owner leaves its list, if it is on one.
    pub(crate) fn leave(&mut self, f: u32)
        requires kept { IsListingKept self.old }
        requires owned { is_some (record_at (listed_table self.old) f).owner ≡ true }
        ensures off { IsOff self.new f }
        ensures table { listed_table self.new ≡ off_lists (listed_table self.old) f }
    {
        if is_idle(&self.record(f)) {
            self.lists.unlink(f);
        }
    }

    /// A frame that is on no list goes to the end of the list where it belongs.
    pub(crate) fn put(&mut self, list: u32, f: u32)
        requires off { IsOff self.old f }
        requires inside { list < 4 }
        requires belongs { belongs (record_at (listed_table self.old) f) list ≡ true }
        ensures kept { IsListingKept self.new }
        ensures table { listed_table self.new ≡ put_behind (listed_table self.old) list f }
    {
        self.lists.push_back(list, f);
    }

    /// A frame that is on no list has this record from now on, with which it is on none.
    pub(crate) fn keep_busy(&mut self, f: u32, r: Record)
        requires off { IsOff self.old f }
        requires busy { is_idle r ≡ false }
        requires owned { is_owned r ≡ true }
        ensures kept { IsListingKept self.new }
        ensures table { listed_table self.new ≡ with_record (listed_table self.old) f r }
    {
        self.set(f, r);
    }

    /// A frame that is on no list becomes free.
    pub(crate) fn free(&mut self, f: u32)
        requires off { IsOff self.old f }
        ensures kept { IsListingKept self.new }
        ensures table { listed_table self.new ≡ to_free (listed_table self.old) f }
    {
        self.set(f, blank());
        self.put(FREE, f);
    }

    /// A frame that is on no list has this record from now on, and settles.
    pub(crate) fn settle(&mut self, f: u32, r: Record)
        requires off { IsOff self.old f }
        requires owner { is_some r.owner ≡ true }
        requires owned { is_owned r ≡ true }
        ensures kept { IsListingKept self.new }
        ensures table { listed_table self.new
            ≡ settled (with_record (listed_table self.old) f r) f }
    {
        self.set(f, r);
        if is_idle(&r) {
            if r.changed {
                self.put(MODIFIED, f);
            } else {
                self.put(STANDBY, f);
            }
        }
    }
}
