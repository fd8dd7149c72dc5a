ghost use Rattle.std.specs.Prelude.{◌≡◌, ◌≢◌, ◌<◌, Some, IsSome, OnOk, OnErr, true, false, is_ok, length, map, slice_get, slice_set};
ghost use Rattle.mm_types.specs.declared.moves.Move.TheVariants as move;
ghost use Rattle.mm_move_rules.specs.{record_at, is_read, is_write, is_empty, taken_for_read, IsLegal};
ghost use Rattle.mm_devices.specs.{WasRead};
ghost use Rattle.mm_ram.specs.{page_at};
ghost use Rattle.mm_pfn_database.specs.{IsDirty, has_block};
ghost use Rattle.mm_requests.specs.{ended};
ghost use Rattle.mm_parts.specs.{parts_after, own_after, own_ended, front_or, front_for_read, end_of_read, write_end, write_target, CanBegin};
ghost use Rattle.mm_parts.specs.{words_sent, CanSend, goes_to, lowest_free_slot, slots_to};
ghost use Rattle.mm_page_tables.specs.Shown as tables;
ghost use Rattle.mm_slots.specs.{free_count};

use crate::backings::{backing_of, give_back, home, target};
use crate::parts::Parts;
use crate::requests::{begin_request, end_request};
use mm_devices::Inject;
use mm_page_tables::{Entry, Words};
use mm_pfn_database::{Dirty, Frames};
use mm_slots::Slots;
use mm_types::{Backing, Failed, Frame, Key, Stored};

/// The frame that a page is read into is taken: the first free one, or where none is free the first
/// zeroed one.
#[tactic(auto, using(crate::proofs::Reading::taken_free, crate::proofs::Reading::taken_zeroed))]
fn take_for_read(frames: &mut Frames) -> Dirty
    requires { is_empty frames.old.table.free ≡ true → is_empty frames.old.table.zeroed ≡ false }
    ensures first { result ≡ (front_or frames.old.table.free frames.old.table.zeroed).0 }
    ensures table { frames.new.table ≡ taken_for_read frames.old.table }
    ensures bytes { frames.new.bytes ≡ frames.old.bytes }
    ensures in_hand { IsDirty frames.new result }
{
    match frames.take_free() {
        Some(dirty) => dirty,
        None => match frames.take_zeroed() {
            Some(blank) => frames.soil_blank(blank),
            None => unreachable!(),
        },
    }
}

/// The page of a frame, if it lives, is where it was read from.
fn send_home(words: &mut Words, owner: Option<Key>, backing: Backing)
    requires { CanSend (tables.words words.old) owner backing }
    ensures words { tables.words words.new ≡ words_sent owner backing (tables.words words.old) }
    ensures ages { tables.place_ages words.new ≡ tables.place_ages words.old }
{
    if let Some(key) = owner {
        words.set_word(key, home(backing));
    }
}

/// Where a page is written to: the block that backs its frame, else the lowest free slot, which is
/// taken.
#[tactic(auto, using(crate::proofs::Conditions::lowest_is))]
fn take_target(slots: &mut Slots, backing: Backing) -> Stored
    requires { has_block backing ≡ false → free_count slots.old.free ≢ 0 }
    ensures to { result ≡ goes_to backing (lowest_free_slot slots.old.free) }
    ensures slots { slots.new.free ≡ slots_to result slots.old.free }
{
    match backing {
        Backing::Block(b) => Stored::Block(b),
        _ => match slots.take() {
            Some(s) => Stored::Slot(s),
            None => unreachable!(),
        },
    }
}

impl Parts {
    ghost use Rattle.mm_parts.specs.{shown_parts};

    /// A read of a page begins, into the first free frame, or where none is free the first zeroed
    /// one.
    pub fn start_read(&mut self, key: Key) -> Frame
        requires legal { IsLegal (move.Read (front_for_read (shown_parts self.old).life) key)
            (shown_parts self.old).life }
        requires room { CanBegin (shown_parts self.old).life.kind (shown_parts self.old).own }
        ensures frame { result ≡ front_for_read (shown_parts self.old).life }
        ensures made { shown_parts self.new ≡
            record (parts_after (shown_parts self.old) (move.Read result key)) {
              own =
                  own_after (shown_parts self.old).life.kind (shown_parts self.old).own result;
            } }
    {
        self.words.words_hold();
        let backing = backing_of(self.words.word(key));
        let dirty = take_for_read(&mut self.frames);
        let f = self.frames.bind_read(dirty, key, backing);
        self.words.set_word(key, Entry::Transition(f));
        begin_request(&mut self.flight, &mut self.own, self.kind, f);
        f
    }

    /// Reads a block of a device into a frame whose page is being read. After an error all is as
    /// before.
    pub fn fill_from<D: Inject>(
        &mut self,
        f: Frame,
        device: &mut D,
        block: u32,
    ) -> Result<(), Failed>
        requires reading { is_read (record_at (shown_parts self.old).life.frames f.0).request
            ≡ true }
        requires block { block < length (D.blocks device.old) }
        ensures ok { OnOk result (shown_parts self.new ≡ record (shown_parts self.old) {
          bytes = slice_set (shown_parts self.old).bytes f.0
              (slice_get (D.blocks device.old) block);
        }) }
        ensures written { OnOk result (IsSome (page_at (shown_parts self.new).bytes f.0)) }
        ensures err { OnErr result (shown_parts self.new ≡ shown_parts self.old) }
        ensures read { WasRead D.Inject block (is_ok result) device.old device.new }
    {
        self.frames.fill_from(f, device, block)
    }

    /// A read has ended: well, when the frame has the bytes of the page, or not. The waits for it
    /// have ended too.
    pub fn end_read(&mut self, f: Frame, ok: bool)
        requires legal { IsLegal (end_of_read ok f) (shown_parts self.old).life }
        requires written { ok ≡ true → IsSome (page_at (shown_parts self.old).bytes f.0) }
        ensures made { shown_parts self.new ≡
            record (parts_after (shown_parts self.old) (end_of_read ok f)) {
              waits = map (ended f.0 ok) (shown_parts self.old).waits;
              own = own_ended (shown_parts self.old).own f.0;
            } }
    {
        self.words.words_hold();
        let ended = self.frames.end_read(f, ok);
        give_back(&mut self.slots, ended.slot);
        end_request(&mut self.flight, &mut self.own, f, ok);
        if !ok {
            send_home(&mut self.words, ended.owner, ended.home);
        }
    }

    /// A write of a page begins: to the block that backs its frame, or for a page of the paging
    /// file to the lowest free slot.
    pub fn start_write(&mut self, f: Frame) -> Stored
        requires legal { IsLegal (move.Write f (write_target (shown_parts self.old).life f))
            (shown_parts self.old).life }
        requires room { CanBegin (shown_parts self.old).life.kind (shown_parts self.old).own }
        ensures to { result ≡ write_target (shown_parts self.old).life f }
        ensures made { shown_parts self.new ≡
            record (parts_after (shown_parts self.old) (move.Write f result)) {
              own =
                  own_after (shown_parts self.old).life.kind (shown_parts self.old).own f;
            } }
    {
        let to = take_target(&mut self.slots, self.frames.look(f).backing);
        self.frames.start_write(f, target(to));
        begin_request(&mut self.flight, &mut self.own, self.kind, f);
        to
    }

    /// The bytes of a frame that is being written, where they are.
    pub fn page(&self, f: Frame) -> &[u8; 4096]
        requires { is_write (record_at (shown_parts self.now).life.frames f.0).request ≡ true }
        ensures { page_at (shown_parts self.now).bytes f.0 ≡ Some result.now }
    {
        self.frames.page(f)
    }

    /// A write has ended, well or not.
    pub fn end_write(&mut self, f: Frame, ok: bool)
        requires legal { IsLegal (write_end ok f) (shown_parts self.old).life }
        ensures made { shown_parts self.new ≡
            record (parts_after (shown_parts self.old) (write_end ok f)) {
              own =
                  own_ended (shown_parts self.old).own f.0;
            } }
    {
        let ended = self.frames.end_write(f, ok);
        give_back(&mut self.slots, ended.slot);
        end_request(&mut self.flight, &mut self.own, f, ok);
    }
}
