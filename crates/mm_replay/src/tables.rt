ghost use Rattle.std.specs.Prelude.{◌≡◌, ◌+◌, ◌<◌, ◌≤◌, ◌^◌, ◌&&◌, ◌||◌, true, false, if◌then◌else◌, is_some, length, IfOk, slice_get};
ghost use Rattle.mm_replay.specs.Looking.{frames_on, IsBehind};
ghost use Rattle.mm_move_rules.specs.{record_at, is_first, is_empty, is_on, is_read, has_request, taken_for_read, after_clear, after_steal, after_give};
ghost use Rattle.mm_move_rules.specs.{after_read, after_bad, after_map, after_unmap, after_soil, after_write, after_drop, free_table, settled, to_free};
ghost use Rattle.mm_move_rules.specs.{with_record};
ghost use Rattle.mm_replay.specs.Listings.{listed_table, IsListingKept, IsOff};
ghost use Rattle.mm_replay.specs.Sound.{Listed};

use crate::four_lists::{FREE, FrameList, MODIFIED, STANDBY, ZEROED};
use crate::listings::Listing;
use crate::records::{blank, has_request, is_changed_page, is_idle, shared, soiled};
use crate::values::framed;
use mm_types::{Backing, Frame, Key, NoMemory, Record, Request};
use std::alloc::Global;
use std::marker::Model;

/// The frame database: a record for each frame, and the four lists. Each call takes constant time,
/// and none but `new` takes memory.
#[derive(Drop)]
pub(crate) struct Table {
    listing: Listing,
}

impl Model for Table {
    ghost use Rattle.mm_move_rules.specs.{FrameTable};
    ghost use Rattle.mm_replay.specs.Listings.{listed_table, IsListingKept};

    ghost Value = { FrameTable };

    ghost view = { λ t. listed_table t.listing };

    ghost invariant = { λ t. IsListingKept t.listing };
}

#[tactic(auto, using(crate::proofs::Placing::placing))]
impl Table {
    /// A table of no frame.
    pub(crate) fn empty(alloc: Global) -> Table
        ensures { result ≡ free_table 0 }
    {
        Table {
            listing: Listing::none(alloc),
        }
    }

    /// All frames are free, in rising order.
    pub(crate) fn new(alloc: Global, frames: u32) -> Result<Table, NoMemory>
        ensures { IfOk result (λ t. t ≡ free_table frames) }
    {
        let listing = Listing::new(alloc, frames)?;
        Ok(Table { listing })
    }

    /// The record of a frame; that of a frame that holds nothing, where there is no such frame.
    pub(crate) fn record(&self, f: u32) -> Record
        ensures { result ≡ record_at self.now f }
    {
        self.listing.record(f)
    }

    /// The record of each frame.
    pub(crate) fn records(&self) -> &[Record]
        ensures { result.now ≡ self.now.records }
    {
        &self.listing.records
    }

    /// How many frames are on a list.
    pub(crate) fn len(&self, list: FrameList) -> u32
        ensures { result ≡ length (frames_on self.now list) }
    {
        match list {
            FrameList::Zeroed => self.listing.lists.len(ZEROED),
            FrameList::Free => self.listing.lists.len(FREE),
            FrameList::Standby => self.listing.lists.len(STANDBY),
            FrameList::Modified => self.listing.lists.len(MODIFIED),
        }
    }

    /// The first frame of a list, if any.
    #[inline]
    pub(crate) fn first(&self, list: FrameList) -> Option<u32>
        ensures { result ≡ slice_get (frames_on self.now list) 0 }
    {
        match list {
            FrameList::Zeroed => self.listing.lists.front(ZEROED),
            FrameList::Free => self.listing.lists.front(FREE),
            FrameList::Standby => self.listing.lists.front(STANDBY),
            FrameList::Modified => self.listing.lists.front(MODIFIED),
        }
    }

    /// The frame after `f` on its list, if `f` is on one and is not the last.
    pub(crate) fn next(&self, f: u32) -> Option<Frame>
        ensures { IsBehind (frames_on self.now) f result }
    {
        if f as usize >= self.listing.records.len() || !is_idle(&self.listing.record(f)) {
            return None;
        }
        framed(self.listing.lists.next(f))
    }

    /// Whether a list is empty.
    #[inline]
    pub(crate) fn is_empty(&self, list: FrameList) -> bool
        ensures { result ≡ is_empty (frames_on self.now list) }
    {
        self.first(list).is_none()
    }

    /// Whether a frame is the first of a list.
    #[inline]
    pub(crate) fn is_first(&self, list: FrameList, f: u32) -> bool
        ensures { result ≡ is_first f (frames_on self.now list) }
    {
        self.first(list) == Some(f)
    }

    /// Whether a frame is on the modified list.
    pub(crate) fn is_modified(&self, f: u32) -> bool
        ensures { result ≡ is_on f self.now.modified }
    {
        is_changed_page(&self.listing.record(f))
    }

    /// What the lists say of the records. It does nothing.
    pub(crate) fn keeps_lists(&self)
        ensures { Listed self.now }
    {
        let _listing = &self.listing;
    }

    /// The first free frame is zeroed.
    pub(crate) fn clear(&mut self, f: u32)
        requires { is_first f self.old.free ≡ true }
        ensures { self.new ≡ after_clear self.old f }
    {
        self.listing.take_first(FREE, f);
        self.listing.put(ZEROED, f);
    }

    /// The first standby frame becomes free.
    pub(crate) fn steal(&mut self, f: u32)
        requires { is_first f self.old.standby ≡ true }
        ensures { self.new ≡ after_steal self.old f }
    {
        self.listing.take_first(STANDBY, f);
        self.listing.free(f);
    }

    /// The first zeroed frame is given to a page.
    pub(crate) fn give(&mut self, f: u32, key: Key)
        requires { is_first f self.old.zeroed ≡ true }
        ensures { self.new ≡ after_give self.old f key }
    {
        self.listing.take_first(ZEROED, f);
        let r = Record {
            owner: Some(key),
            changed: true,
            ..blank()
        };
        self.listing.set(f, r);
        self.listing.put(MODIFIED, f);
    }

    /// A read into the first free frame begins, or where none is free into the first zeroed one.
    pub(crate) fn read(&mut self, f: u32, key: Key, home: Backing)
        requires { (is_first f self.old.free ||
            (is_empty self.old.free && is_first f self.old.zeroed)) ≡ true }
        ensures { self.new ≡ after_read self.old f key home }
    {
        take_for_read(&mut self.listing, f);
        let r = Record {
            owner: Some(key),
            backing: home,
            request: Request::Read,
            ..blank()
        };
        self.listing.keep_busy(f, r);
    }

    /// A request has ended, after which the page, where it still lives, has this record.
    pub(crate) fn end(&mut self, f: u32, r: Record)
        requires busy { has_request (record_at self.old f).request ≡ true }
        requires owner { r.owner ≡ (record_at self.old f).owner }
        requires not_read { is_read r.request ≡ false }
        ensures { self.new ≡ (if is_some r.owner then settled (with_record self.old f r) f
            else to_free self.old f) }
    {
        if r.owner.is_some() {
            self.listing.settle(f, r);
        } else {
            self.listing.free(f);
        }
    }

    /// A read failed.
    pub(crate) fn bad(&mut self, f: u32)
        requires { is_read (record_at self.old f).request ≡ true }
        ensures { self.new ≡ after_bad self.old f }
    {
        self.listing.free(f);
    }

    /// A page is valid at one place more. Its frame has fewer than 2^32 - 1 shares.
    pub(crate) fn map(&mut self, f: u32)
        requires owned { is_some (record_at self.old f).owner ≡ true }
        requires not_read { is_read (record_at self.old f).request ≡ false }
        requires room { (record_at self.old f).shares + 1 < 2 ^ 32 }
        ensures { self.new ≡ after_map self.old f }
    {
        let r = self.listing.record(f);
        self.listing.leave(f);
        self.listing.keep_busy(f, shared(r));
    }

    /// A page is valid at one place fewer.
    pub(crate) fn unmap(&mut self, f: u32)
        requires { 1 ≤ (record_at self.old f).shares }
        ensures { self.new ≡ after_unmap self.old f }
    {
        let r = self.listing.record(f);
        let shares = r.shares.saturating_sub(1);
        self.listing.settle(f, Record { shares, ..r });
    }

    /// A page that is valid somewhere is changed.
    pub(crate) fn soil(&mut self, f: u32)
        requires { 1 ≤ (record_at self.old f).shares }
        ensures { self.new ≡ after_soil self.old f }
    {
        let r = self.listing.record(f);
        self.listing.keep_busy(f, soiled(r));
    }

    /// A write of a page to this home begins.
    pub(crate) fn write(&mut self, f: u32, home: Backing)
        requires { is_some (record_at self.old f).owner ≡ true }
        ensures { self.new ≡ after_write self.old f home }
    {
        let r = self.listing.record(f);
        self.listing.leave(f);
        let r = Record {
            backing: home,
            request: Request::Write,
            ..r
        };
        self.listing.keep_busy(f, r);
    }

    /// The page of a frame, which is valid nowhere, is no more.
    pub(crate) fn drop_page(&mut self, f: u32)
        requires owned { is_some (record_at self.old f).owner ≡ true }
        requires unmapped { (record_at self.old f).shares ≡ 0 }
        ensures { self.new ≡ after_drop self.old f }
    {
        let r = self.listing.record(f);
        if has_request(r.request) {
            self.listing.keep_busy(f, Record { owner: None, ..r });
        } else {
            self.listing.leave(f);
            self.listing.free(f);
        }
    }
}

/// The frame of a read leaves its list: the first free one, or where none is free the first zeroed
/// one.
#[tactic(auto, using(crate::proofs::Placing::placing))]
fn take_for_read(listing: &mut Listing, f: u32)
    requires kept { IsListingKept listing.old }
    requires first { (is_first f (listed_table listing.old).free ||
        (is_empty (listed_table listing.old).free
        && is_first f (listed_table listing.old).zeroed)) ≡ true }
    ensures off { IsOff listing.new f }
    ensures table { listed_table listing.new ≡ taken_for_read (listed_table listing.old) }
{
    if listing.lists.front(FREE).is_none() {
        listing.take_first(ZEROED, f);
    } else {
        listing.take_first(FREE, f);
    }
}
