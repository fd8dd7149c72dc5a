ghost use Rattle.std.specs.Prelude.{◌≡◌, ◌≢◌, ℕ, List, ◌≤◌, ◌^◌, true, false, Some, IsSome, IfSome, ◌<◌, ◌+◌, ◌++◌, ◌∷◌, [], length, replicate, count_by, None, IfOk, OnOk, OnErr, is_ok, option_map, slice_get, slice_set, slice_index};
ghost use Rattle.mm_move_rules.specs.{blank, record_at, is_idle, is_on, is_read, is_write, has_request, with_record, off_lists, settled, after_map};
ghost use Rattle.mm_move_rules.specs.{after_unmap, after_soil, after_write, after_got, after_bad, after_wrote, after_lost, slot_after_soil};
ghost use Rattle.mm_move_rules.specs.{slot_after_read, slot_after_drop, free_table, is_active, is_in_transition, numbers_from};
ghost use Rattle.mm_page_lists.specs.{AreApart};
ghost use Rattle.mm_pfn_database.specs.Placing.{free_only, is_kept, is_bound, ArePlaced, CanStand, IsAtRest, places, stood};
ghost use Rattle.mm_ram.specs.{bytes_of, bytes_from, overwritten, page_at, with_page, zero_page};
ghost use Rattle.mm_types.specs.{page_size};
ghost use Rattle.mm_devices.specs.{WasRead};
ghost use Rattle.mm_pfn_database.specs.Base.{FramesOf, has_block, modified_with_block, zeroed_taken, free_taken, standby_taken, zeroed_put, free_put, now_cleared, given_to, reading_into, IsBlank, IsDirty, can_be_soiled, can_go_to, read_ended, write_ended, slot_after_write, forgotten, stands_with, gone_free, ended_with};

use crate::placing::{
    FREE, MODIFIED, STANDBY, WITH_BLOCK, ZEROED, has_request, is_modified, list_for, relist,
    second_list_for, slot_after_read, slot_after_soil, slot_after_write, slot_of, soiled, written,
};
use crate::records::{BLANK, Records};
use crate::{Blank, Dirty, Ended, Standing, Stolen};
use mm_devices::Inject;
use mm_page_lists::Lists;
use mm_ram::Ram;
use mm_types::{Backing, Failed, Frame, Key, NoMemory, Record, Request, Slot};
use std::alloc::Global;
use std::marker::Model;

/// The frame database.
#[derive(Drop)]
pub struct Frames {
    records: Records,
    standing: Vec<Standing>,
    lists: Lists,
    /// One list: the modified frames whose page has a block, in the order of modified.
    with_block: Lists,
    ram: Ram,
}

impl Model for Frames {
    ghost use Rattle.mm_pfn_database.specs.Base.{FramesOf};
    ghost use Rattle.mm_pfn_database.specs.Placing.{AreKept, table_of};

    ghost Value = { FramesOf };

    ghost view = { λ s. record {
      table = table_of s.records s.lists.lists;
      bytes = s.ram;
      standing = s.standing.items;
    } };

    ghost invariant = { λ s. AreKept s.records s.standing.items s.lists s.with_block s.ram };
}

/// How many frames stand where.
#[derive(Clone, Copy)]
pub struct FrameCounts {
    pub zeroed: u32,
    pub free: u32,
    pub standby: u32,
    pub modified: u32,
    pub active: u32,
    pub transition: u32,
}

/// All frames go to the free list, in rising order.
fn push_all(lists: &mut Lists, n: u32)
    requires empty { lists.old ≡ record { numbers = n; lists = free_only [] } }
    requires apart { AreApart lists.old }
    ensures pushed { lists.new ≡ record { numbers = n; lists = free_only (numbers_from 0 n) } }
    ensures apart { AreApart lists.new }
{
    for f in 0..n {
        lists.push_back(FREE, f);
    }
}

fn all_free(alloc: Global, n: u32) -> Result<Vec<Standing>, NoMemory>
    ensures { IfOk result (λ v. v.items ≡ replicate n Standing.Free) }
{
    Ok(vec![in alloc; Standing::Free; n as usize]?)
}

impl Frames {
    /// What the frame database keeps of a frame.
    #[inline(always)]
    pub fn look(&self, f: Frame) -> Record
        requires { f.0 < length self.now.table.records }
        ensures { result ≡ record_at self.now.table f.0 }
    {
        self.records.get(f.0)
    }

    /// How many frames stand where.
    pub fn counts(&self) -> FrameCounts
        ensures { result ≡ record {
          zeroed = length self.now.table.zeroed;
          free = length self.now.table.free;
          standby = length self.now.table.standby;
          modified = length self.now.table.modified;
          active = count_by is_active self.now.table.records;
          transition = count_by is_in_transition self.now.table.records;
        } }
    {
        FrameCounts {
            zeroed: self.lists.len(ZEROED),
            free: self.lists.len(FREE),
            standby: self.lists.len(STANDBY),
            modified: self.lists.len(MODIFIED),
            active: self.records.active(),
            transition: self.records.transition(),
        }
    }

    /// The first zeroed frame, `None` exactly where none is zeroed.
    pub fn front_zeroed(&self) -> Option<Frame>
        ensures { option_map (λ f. f.0) result ≡ slice_get self.now.table.zeroed 0 }
    {
        Some(Frame(self.lists.front(ZEROED)?))
    }

    /// The first free frame, `None` exactly where none is free.
    pub fn front_free(&self) -> Option<Frame>
        ensures { option_map (λ f. f.0) result ≡ slice_get self.now.table.free 0 }
    {
        Some(Frame(self.lists.front(FREE)?))
    }

    /// The first frame on standby, `None` exactly where none is there.
    pub fn front_standby(&self) -> Option<Frame>
        ensures { option_map (λ f. f.0) result ≡ slice_get self.now.table.standby 0 }
    {
        Some(Frame(self.lists.front(STANDBY)?))
    }

    /// The first modified frame, `None` exactly where none is modified.
    pub fn front_modified(&self) -> Option<Frame>
        ensures first { option_map (λ f. f.0) result ≡ slice_get self.now.table.modified 0 }
        ensures there { IfSome result (λ f. f.0 < length self.now.table.records) }
        ensures rests { IfSome result (λ f. IsAtRest true (record_at self.now.table f.0)) }
    {
        Some(Frame(self.lists.front(MODIFIED)?))
    }

    /// How many modified frames have a block as backing. The others are written to slots.
    pub fn modified_with_block(&self) -> u32
        ensures count { result ≡ length (modified_with_block self.now.table) }
        ensures most { result ≤ length self.now.table.modified }
    {
        self.with_block.len(WITH_BLOCK)
    }

    /// The first modified frame that has a block as backing, `None` exactly where none has.
    pub fn front_modified_with_block(&self) -> Option<Frame>
        ensures first { option_map (λ f. f.0) result ≡
            slice_get (modified_with_block self.now.table) 0 }
        ensures there { IfSome result (λ f. f.0 < length self.now.table.records) }
        ensures rests { IfSome result (λ f. IsAtRest true (record_at self.now.table f.0)) }
        ensures block { IfSome result
            (λ f. has_block (record_at self.now.table f.0).backing ≡ true) }
    {
        Some(Frame(self.with_block.front(WITH_BLOCK)?))
    }

    /// Whether the frame is on modified.
    pub fn is_modified(&self, f: Frame) -> bool
        requires { f.0 < length self.now.table.records }
        ensures { result ≡ is_on f.0 self.now.table.modified }
    {
        is_modified(&self.records.get(f.0))
    }

    /// Takes the first zeroed frame, `None` exactly where none is zeroed. Its bytes are all zero.
    pub fn take_zeroed(&mut self) -> Option<Blank>
        ensures first { result ≡ slice_get self.old.table.zeroed 0 }
        ensures front { IfSome result (λ f. f ≡ slice_index self.old.table.zeroed 0) }
        ensures zero { IfSome result (λ f. page_at self.new.bytes f ≡ Some zero_page) }
        ensures there { IfSome result (λ f. f < length self.old.table.records) }
        ensures in_hand { IfSome result (λ f. IsBlank self.new f) }
        ensures taken { self.new ≡ zeroed_taken self.old }
    {
        let frame = self.front_zeroed()?;
        self.stand(frame, BLANK, Standing::Cleared);
        Some(Blank { frame })
    }

    /// Takes the first free frame, `None` exactly where none is free.
    pub fn take_free(&mut self) -> Option<Dirty>
        ensures first { result ≡ slice_get self.old.table.free 0 }
        ensures front { IfSome result (λ f. f ≡ slice_index self.old.table.free 0) }
        ensures there { IfSome result (λ f. f < length self.old.table.records) }
        ensures in_hand { IfSome result (λ f. IsDirty self.new f) }
        ensures taken { self.new ≡ free_taken self.old }
    {
        let frame = self.front_free()?;
        self.stand(frame, BLANK, Standing::Taken);
        Some(Dirty { frame })
    }

    /// Takes the first frame on standby from its page (the move `steal`, with the frame in hand in
    /// place of on free); `None` exactly where none is on standby.
    pub fn take_standby(&mut self) -> Option<Stolen>
        ensures first { option_map (λ s. s.dirty) result ≡ slice_get self.old.table.standby 0 }
        ensures front { IfSome result (λ s. s.dirty ≡ slice_index self.old.table.standby 0) }
        ensures rests { IfSome result (λ s. IsAtRest false (record_at self.old.table s.dirty)) }
        ensures key { IfSome result (λ s. (record_at self.old.table s.dirty).owner ≡ Some s.key) }
        ensures backing { IfSome result
            (λ s. (record_at self.old.table s.dirty).backing ≡ s.backing) }
        ensures there { IfSome result (λ s. s.dirty < length self.old.table.records) }
        ensures in_hand { IfSome result (λ s. IsDirty self.new s.dirty) }
        ensures taken { self.new ≡ standby_taken self.old }
    {
        let frame = Frame(self.lists.front(STANDBY)?);
        let r = self.records.get(frame.0);
        let key = r.owner.unwrap();
        self.stand(frame, BLANK, Standing::Taken);
        Some(Stolen {
            dirty: Dirty { frame },
            key,
            backing: r.backing,
        })
    }

    /// Spends a blank: its frame goes to the end of the zeroed list.
    pub fn put_zeroed(&mut self, b: Blank)
        requires { IsBlank self.old b }
        ensures { self.new ≡ zeroed_put self.old b }
    {
        let Blank { frame } = b;
        self.stand(frame, BLANK, Standing::Zeroed);
    }

    /// Spends a dirty frame: it goes to the end of the free list.
    pub fn put_free(&mut self, d: Dirty)
        requires { IsDirty self.old d }
        ensures { self.new ≡ free_put self.old d }
    {
        let Dirty { frame } = d;
        self.stand(frame, BLANK, Standing::Free);
    }

    /// Writes zeros over a frame in hand.
    pub fn clear(&mut self, d: Dirty) -> Blank
        requires { IsDirty self.old d }
        ensures same { result ≡ d }
        ensures in_hand { IsBlank self.new result }
        ensures cleared { self.new ≡ now_cleared self.old d }
    {
        let Dirty { frame } = d;
        self.ram.zero(frame);
        self.stand(frame, BLANK, Standing::Cleared);
        Blank { frame }
    }

    /// A blank taken for dirty, as for a frame that is read into.
    pub fn soil_blank(&mut self, b: Blank) -> Dirty
        requires { IsBlank self.old b }
        ensures same { result ≡ b }
        ensures in_hand { IsDirty self.new result }
        ensures soiled { self.new
            ≡ record self.old { standing = slice_set self.old.standing b Standing.Taken } }
    {
        let Blank { frame } = b;
        self.stand(frame, BLANK, Standing::Taken);
        Dirty { frame }
    }

    /// Spends a blank: its frame becomes that of a demand-zero page, and goes to modified (the move
    /// `assign`).
    pub fn bind(&mut self, b: Blank, key: Key) -> Frame
        requires { IsBlank self.old b }
        ensures same { result.0 ≡ b }
        ensures bound { self.new ≡ given_to self.old b key }
        ensures zero { page_at self.new.bytes b ≡ Some zero_page }
    {
        let Blank { frame } = b;
        let given = Record {
            owner: Some(key),
            changed: true,
            ..BLANK
        };
        self.stand(frame, given, Standing::Bound);
        frame
    }

    /// Spends a dirty frame: the page is being read into it (the move `read`).
    pub fn bind_read(&mut self, d: Dirty, key: Key, backing: Backing) -> Frame
        requires { IsDirty self.old d }
        ensures same { result.0 ≡ d }
        ensures bound { self.new ≡ reading_into self.old d key backing }
    {
        let Dirty { frame } = d;
        let being_read = Record {
            owner: Some(key),
            backing,
            request: Request::Read,
            ..BLANK
        };
        self.stand(frame, being_read, Standing::Bound);
        frame
    }

    /// `n` frames, all free, in rising order.
    pub fn new(alloc: Global, n: u32) -> Result<Frames, NoMemory>
        ensures { IfOk result (λ v. v
            ≡ record {
              table = free_table n;
              bytes = replicate n None;
              standing = replicate n Standing.Free;
            }) }
    {
        let mut lists = Lists::new(alloc, n, 4)?;
        push_all(&mut lists, n);
        Ok(Frames {
            records: Records::new(alloc, n)?,
            standing: all_free(alloc, n)?,
            lists,
            with_block: Lists::new(alloc, n, 1)?,
            ram: Ram::new(alloc, n)?,
        })
    }

    /// Reads bytes of a frame that has an owner and no read request: its page has 4,096 bytes.
    pub fn read(&self, f: Frame, off: u16, out: &mut [u8])
        requires owned { IsSome (record_at self.now.table f.0).owner }
        requires not_read { is_read (record_at self.now.table f.0).request ≡ false }
        requires inside { off + length out.old ≤ page_size }
        ensures bytes { out.new ≡ bytes_from (bytes_of self.now.bytes f.0) off (length out.old) }
        ensures page { (page : List ℕ) → page_at self.now.bytes f.0 ≡ Some page
            → out.new ≡ bytes_from page off (length out.old) }
        ensures written { page_at self.now.bytes f.0 ≡ Some (bytes_of self.now.bytes f.0) }
        ensures whole { length (bytes_of self.now.bytes f.0) ≡ page_size }
    {
        self.ram.read(f, off, out);
    }

    /// All bytes of a frame that has an owner or a write request, and no read request, where they
    /// are.
    pub fn page(&self, f: Frame) -> &[u8; 4096]
        requires kept { is_bound (record_at self.now.table f.0) ≡ true }
        requires not_read { is_read (record_at self.now.table f.0).request ≡ false }
        ensures bytes { result.now ≡ bytes_of self.now.bytes f.0 }
        ensures page { page_at self.now.bytes f.0 ≡ Some result.now }
    {
        self.ram.page(f)
    }

    /// Writes bytes of a frame that has an owner and no read request.
    pub fn write(&mut self, f: Frame, off: u16, bytes: &[u8])
        requires owned { IsSome (record_at self.old.table f.0).owner }
        requires not_read { is_read (record_at self.old.table f.0).request ≡ false }
        requires inside { off + length bytes.now ≤ page_size }
        ensures wrote { self.new ≡ record self.old {
          bytes = with_page self.old.bytes f.0
              (overwritten (bytes_of self.old.bytes f.0) off bytes.now);
        } }
        ensures page { (page : List ℕ) → page_at self.old.bytes f.0 ≡ Some page
            → page_at self.new.bytes f.0 ≡ Some (overwritten page off bytes.now) }
        ensures written { page_at self.old.bytes f.0 ≡ Some (bytes_of self.old.bytes f.0) }
        ensures others { (g : ℕ) → g ≢ f.0
            → page_at self.new.bytes g ≡ page_at self.old.bytes g }
    {
        self.ram.write(f, off, bytes);
    }

    /// Copies the bytes of one frame to another; both have an owner and no read request.
    pub fn copy(&mut self, from: Frame, to: Frame)
        requires from_owned { IsSome (record_at self.old.table from.0).owner }
        requires from_not_read { is_read (record_at self.old.table from.0).request ≡ false }
        requires to_owned { IsSome (record_at self.old.table to.0).owner }
        requires to_not_read { is_read (record_at self.old.table to.0).request ≡ false }
        requires other { from.0 ≢ to.0 }
        ensures copied { self.new ≡ record self.old {
          bytes = with_page self.old.bytes to.0
              (bytes_of self.old.bytes from.0);
        } }
        ensures page { page_at self.new.bytes to.0 ≡ page_at self.old.bytes from.0 }
        ensures written { page_at self.old.bytes from.0 ≡ Some (bytes_of self.old.bytes from.0) }
        ensures others { (g : ℕ) → g ≢ to.0
            → page_at self.new.bytes g ≡ page_at self.old.bytes g }
    {
        self.ram.copy(from, to);
    }

    /// One more valid entry names the frame, which has an owner and no read request (the move
    /// `map`).
    pub fn share(&mut self, f: Frame)
        requires owned { IsSome (record_at self.old.table f.0).owner }
        requires not_read { is_read (record_at self.old.table f.0).request ≡ false }
        requires room { (record_at self.old.table f.0).shares + 1 < 2 ^ 32 }
        ensures { self.new ≡ record self.old { table = after_map self.old.table f.0 } }
    {
        let r = self.look(f);
        let shared = Record {
            shares: r.shares + 1,
            ..r
        };
        self.rebind(f, shared);
    }

    /// A valid entry names the frame no more: without shares and request it settles (the move
    /// `unmap`).
    pub fn unshare(&mut self, f: Frame)
        requires { 1 ≤ (record_at self.old.table f.0).shares }
        ensures { self.new ≡ record self.old { table = after_unmap self.old.table f.0 } }
    {
        let r = self.look(f);
        let unshared = Record {
            shares: r.shares - 1,
            ..r
        };
        self.rebind(f, unshared);
    }

    /// The page of a frame with shares is changed (the move `soil`): a slot that backed it is given
    /// back. It was not changed, or it is being written and was not changed since that began.
    pub fn set_dirty(&mut self, f: Frame) -> Option<Slot>
        requires shared { 1 ≤ (record_at self.old.table f.0).shares }
        requires clean { can_be_soiled (record_at self.old.table f.0) ≡ true }
        ensures slot { option_map (λ s. s.0) result
            ≡ slot_after_soil (record_at self.old.table f.0) }
        ensures soiled { self.new ≡ record self.old { table = after_soil self.old.table f.0 } }
    {
        let r = self.look(f);
        self.rebind(f, soiled(&r));
        slot_after_soil(&r)
    }

    /// A write of a changed frame without a request begins (the move `write`): it leaves its list,
    /// if any. It goes to the block that backs the frame, or for a modified frame without one to a
    /// slot.
    pub fn start_write(&mut self, f: Frame, backing: Backing)
        requires changed { (record_at self.old.table f.0).changed ≡ true }
        requires target { can_go_to backing (record_at self.old.table f.0) ≡ true }
        requires owned { IsSome (record_at self.old.table f.0).owner }
        requires no_request { has_request (record_at self.old.table f.0).request ≡ false }
        ensures { self.new ≡ record self.old { table = after_write self.old.table f.0 backing } }
    {
        let r = self.look(f);
        let written = Record {
            backing,
            request: Request::Write,
            ..r
        };
        self.rebind(f, written);
    }

    /// The frame leaves its list, if it is on one. From now on it has this record and stands there,
    /// at the end of the list that these two say, if any.
    #[inline(always)]
    fn stand(&mut self, f: Frame, r: Record, standing: Standing)
        requires { ArePlaced self.old → CanStand self.old f.0 r standing }
        ensures stood { self.new ≡ stood self.old f.0 r standing }
        ensures placed { ArePlaced self.old }
    {
        let old = self.records.get(f.0);
        let listed = list_for(self.standing[f.0 as usize], &old);
        relist(&mut self.lists, f.0, listed, list_for(standing, &r));
        relist(
            &mut self.with_block,
            f.0,
            second_list_for(&old),
            second_list_for(&r),
        );
        self.records.set(f.0, r);
        self.standing[f.0 as usize] = standing;
    }

    /// A bound frame has this record now, and settles.
    #[inline(always)]
    fn rebind(&mut self, f: Frame, r: Record)
        requires bound { record_at self.old.table f.0 ≢ blank }
        requires kept { is_kept (record_at self.old.table f.0) ≡ true → is_kept r ≡ true }
        requires written { is_read r.request ≡ false
            → is_read (record_at self.old.table f.0).request ≡ true
            → IsSome (page_at self.old.bytes f.0) }
        ensures left { is_idle r ≡ false → self.new ≡ record self.old {
          table = with_record (off_lists self.old.table f.0) f.0 r;
        } }
        ensures settled { is_idle (record_at self.old.table f.0) ≡ false
            → self.new ≡ record self.old {
              table = settled (with_record self.old.table f.0 r) f.0;
            } }
        ensures stays { is_idle (record_at self.old.table f.0) ≡ false → is_idle r ≡ false
            → self.new ≡ record self.old { table = with_record self.old.table f.0 r } }
    {
        self.stand(f, r, Standing::Bound);
    }

    /// A bound frame leaves its list, if it is on one, and goes to free with an empty record.
    #[inline(always)]
    fn free(&mut self, f: Frame)
        requires { record_at self.old.table f.0 ≢ blank }
        ensures freed { self.new ≡ gone_free self.old f.0 }
        ensures busy { is_idle (record_at self.old.table f.0) ≡ false
            → off_lists self.old.table f.0 ≡ self.old.table }
    {
        self.stand(f, BLANK, Standing::Free);
    }

    /// The request of a frame ends and leaves this record: without an owner the frame goes to free.
    #[inline(always)]
    fn end_request(&mut self, f: Frame, r: Record)
        requires bound { record_at self.old.table f.0 ≢ blank }
        requires busy { is_idle (record_at self.old.table f.0) ≡ false }
        requires bytes { IsSome (page_at self.old.bytes f.0) }
        ensures { self.new ≡ record self.old {
          table = ended_with r self.old.table f.0;
          standing = stands_with r.owner self.old.standing f.0;
        } }
    {
        if r.owner.is_some() {
            self.rebind(f, r);
        } else {
            self.free(f);
        }
    }

    /// Reads a block of a device into a frame whose page is being read. After an error all is as
    /// before.
    pub fn fill_from<D: Inject>(
        &mut self,
        f: Frame,
        device: &mut D,
        block: u32,
    ) -> Result<(), Failed>
        requires reading { is_read (record_at self.old.table f.0).request ≡ true }
        requires block { block < length (D.blocks device.old) }
        ensures ok { OnOk result (self.new ≡ record self.old {
          bytes = slice_set self.old.bytes f.0 (slice_get (D.blocks device.old) block);
        }) }
        ensures written { OnOk result (IsSome (page_at self.new.bytes f.0)) }
        ensures err { OnErr result (self.new ≡ self.old) }
        ensures read { WasRead D.Inject block (is_ok result) device.old device.new }
    {
        self.ram.fill_from(f, device, block)
    }

    /// The read request of a frame ends: well, when the frame holds the page's bytes (the move
    /// `got`), or not (the move `bad`).
    ///
    /// Answers the page that the frame was read for, if it still lives, the slot to give back, and
    /// the backing that was read: after a failure the page's home.
    pub fn end_read(&mut self, f: Frame, ok: bool) -> Ended
        requires reading { is_read (record_at self.old.table f.0).request ≡ true }
        requires written { ok ≡ true → IsSome (page_at self.old.bytes f.0) }
        ensures owner { result.owner ≡ (record_at self.old.table f.0).owner }
        ensures slot { option_map (λ s. s.0) result.slot ≡
            slot_after_read (record_at self.old.table f.0) }
        ensures home { result.home ≡ (record_at self.old.table f.0).backing }
        ensures ended { self.new ≡ read_ended self.old f.0 ok }
        ensures got { ok ≡ true → self.new.table ≡ after_got self.old.table f.0 }
        ensures bad { ok ≡ false → self.new.table ≡ after_bad self.old.table f.0 }
        ensures bytes { self.new.bytes ≡ self.old.bytes }
    {
        let r = self.records.get(f.0);
        let ended = Ended {
            owner: r.owner,
            slot: slot_after_read(&r),
            home: r.backing,
        };
        if ok {
            let left = Record {
                request: Request::None,
                ..r
            };
            self.end_request(f, left);
        } else {
            self.free(f);
        }
        ended
    }

    /// The write request of a frame ends: well (the move `wrote`), or not (the move `lost`).
    ///
    /// Answers the page that the frame holds, if it still lives, the slot to give back, and the
    /// backing that was written.
    pub fn end_write(&mut self, f: Frame, ok: bool) -> Ended
        requires writing { is_write (record_at self.old.table f.0).request ≡ true }
        ensures owner { result.owner ≡ (record_at self.old.table f.0).owner }
        ensures slot { option_map (λ s. s.0) result.slot
            ≡ slot_after_write ok (record_at self.old.table f.0) }
        ensures home { result.home ≡ (record_at self.old.table f.0).backing }
        ensures ended { self.new ≡ write_ended self.old f.0 ok }
        ensures wrote { ok ≡ true → self.new.table ≡ after_wrote self.old.table f.0 }
        ensures lost { ok ≡ false → self.new.table ≡ after_lost self.old.table f.0 }
        ensures bytes { self.new.bytes ≡ self.old.bytes }
    {
        let r = self.records.get(f.0);
        self.end_request(f, written(&r, ok));
        Ended {
            owner: r.owner,
            slot: slot_after_write(&r, ok),
            home: r.backing,
        }
    }

    /// The page of a frame without shares is no more (the move `drop`). Answers the slot to give
    /// back: a frame with a request keeps its slot, and goes to free only as the request ends.
    pub fn forget(&mut self, f: Frame) -> Option<Slot>
        requires owned { IsSome (record_at self.old.table f.0).owner }
        requires unshared { (record_at self.old.table f.0).shares ≡ 0 }
        ensures slot { option_map (λ s. s.0) result
            ≡ slot_after_drop (record_at self.old.table f.0) }
        ensures forgotten { self.new ≡ forgotten self.old f.0 }
    {
        let r = self.look(f);
        if has_request(&r) {
            self.rebind(f, Record { owner: None, ..r });
            return None;
        }
        self.free(f);
        slot_of(r.backing)
    }

    /// A law, which does nothing: each frame is on exactly one list, active, in transition, or in
    /// one token in hand; and `ArePlaced`, all that the type keeps.
    pub fn every_frame_has_one_place(&self)
        ensures placed { ArePlaced self.now }
        ensures one { (f : ℕ) → f < length self.now.table.records → places self.now f ≡ 1 }
    {
        let _ = &self.records;
    }

    /// A law, which does nothing: what the frames on each list hold, and on which list a page at
    /// rest is.
    pub fn lists_hold_what_they_say(&self)
        ensures zeroed { (k f : ℕ) → slice_get self.now.table.zeroed k ≡ Some f
            → record_at self.now.table f ≡ blank }
        ensures free { (k f : ℕ) → slice_get self.now.table.free k ≡ Some f
            → record_at self.now.table f ≡ blank }
        ensures standby { (k f : ℕ) → slice_get self.now.table.standby k ≡ Some f
            → IsAtRest false (record_at self.now.table f) }
        ensures modified { (k f : ℕ) → slice_get self.now.table.modified k ≡ Some f
            → IsAtRest true (record_at self.now.table f) }
        ensures on_standby { (f : ℕ) → is_on f self.now.table.standby ≡ true
            → IsAtRest false (record_at self.now.table f) }
        ensures on_modified { (f : ℕ) → is_on f self.now.table.modified ≡ true
            → IsAtRest true (record_at self.now.table f) }
        ensures clean { (f : ℕ) → IsAtRest false (record_at self.now.table f)
            → is_on f self.now.table.standby ≡ true }
        ensures changed { (f : ℕ) → IsAtRest true (record_at self.now.table f)
            → is_on f self.now.table.modified ≡ true }
    {
        let _ = &self.records;
    }

    /// A law, which does nothing: the bytes of each zeroed frame, and of a blank in hand, are all
    /// zero.
    pub fn zeroed_frames_are_zero(&self)
        ensures zeroed { (k f : ℕ) → slice_get self.now.table.zeroed k ≡ Some f
            → page_at self.now.bytes f ≡ Some zero_page }
        ensures on_zeroed { (f : ℕ) → is_on f self.now.table.zeroed ≡ true
            → page_at self.now.bytes f ≡ Some zero_page }
        ensures blank { (f : ℕ) → IsBlank self.now f → page_at self.now.bytes f ≡ Some zero_page }
    {
        let _ = &self.records;
    }

    /// A law, which does nothing: each frame that was written has 4,096 bytes; a frame that has an
    /// owner or a write request, and no read request, was written.
    pub fn written_frames_are_whole(&self)
        ensures whole { (f : ℕ) (page : List ℕ) → page_at self.now.bytes f ≡ Some page
            → length page ≡ page_size }
        ensures written { (f : ℕ) → is_bound (record_at self.now.table f) ≡ true
            → is_read (record_at self.now.table f).request ≡ false
            → page_at self.now.bytes f ≡ Some (bytes_of self.now.bytes f) }
    {
        self.ram.pages_are_whole();
    }
}
