ghost use Rattle.std.specs.Prelude.{◌≡◌, ◌<◌, ◌^◌, false, count_by, length, slice_index_or};
ghost use Rattle.mm_move_rules.specs.{record_at, is_empty, is_on, counts_of, is_active, is_in_transition, is_live, set_of};
ghost use Rattle.mm_replay.specs.{frames_on, frame_at, IsBehind};
ghost use Rattle.mm_move_laws.specs.{counted_frames};

use crate::conditions::{is_dead, set_of};
use crate::four_lists::FrameList;
use crate::lives::Life;
use crate::records::has_request;
use crate::values::framed;
use mm_move_rules::ResidentSet;
use mm_types::{Counts, Frame, Held, Key, LineKind, Pid, Place, Record, Slot};

/// How many of the frames hold a page that is valid somewhere.
fn count_active(records: &[Record]) -> u32
    requires { length records.now < 2 ^ 32 }
    ensures { result ≡ count_by is_active records.now }
{
    records.iter().filter(|r| r.shares > 0).count() as u32
}

/// How many of the frames have a request, and hold no page that is valid anywhere.
fn count_in_transition(records: &[Record]) -> u32
    requires { length records.now < 2 ^ 32 }
    ensures { result ≡ count_by is_in_transition records.now }
{
    records
        .iter()
        .filter(|r| r.shares == 0 && has_request(r.request))
        .count() as u32
}

/// What a replay tells of its state. Each takes constant time but `counts`, and none takes memory.
impl Life {
    ghost use Rattle.mm_replay.specs.Standing.{life};

    /// The line that began last, counted from 1; 0 before the first.
    pub fn line(&self) -> u32
        ensures { result ≡ (life self.now).line }
    {
        self.state.line
    }

    /// What that line is to the frames; `Call` before the first.
    pub fn kind(&self) -> LineKind
        ensures { result ≡ (life self.now).kind }
    {
        self.state.kind
    }

    /// The page frames of the machine; 0 before the first line.
    pub fn frames(&self) -> u32
        ensures { result ≡ (life self.now).machine.frames }
    {
        self.state.frames
    }

    /// The page-file slots that there are now, free or not.
    pub fn slots(&self) -> u32
        ensures { result ≡ (life self.now).machine.slots }
    {
        self.state.slots
    }

    /// The most requests in flight that a line may begin with.
    pub fn depth(&self) -> u32
        ensures { result ≡ (life self.now).machine.depth }
    {
        self.state.depth
    }

    /// The blocks of the file device.
    pub fn blocks(&self) -> u32
        ensures { result ≡ (life self.now).machine.blocks }
    {
        self.state.blocks
    }

    /// The frame database: the record of each frame, by its number.
    pub fn records(&self) -> &[Record]
        ensures { result.now ≡ (life self.now).frames.records }
    {
        self.state.table.records()
    }

    /// The record of a frame; that of a frame that holds nothing, where there is no such frame.
    pub fn record(&self, frame: Frame) -> Record
        ensures { result ≡ record_at (life self.now).frames frame.0 }
    {
        self.state.table.record(frame.0)
    }

    /// How many frames are on a list.
    pub fn list_len(&self, list: FrameList) -> u32
        ensures { result ≡ length (frames_on (life self.now).frames list) }
    {
        self.state.table.len(list)
    }

    /// Whether a list is empty.
    pub fn is_list_empty(&self, list: FrameList) -> bool
        ensures { result ≡ is_empty (frames_on (life self.now).frames list) }
    {
        self.state.table.is_empty(list)
    }

    /// The frame that stands on a list longest, if any.
    pub fn first_on(&self, list: FrameList) -> Option<Frame>
        ensures { result ≡ frame_at (frames_on (life self.now).frames list) 0 }
    {
        framed(self.state.table.first(list))
    }

    /// The frame right after this one on its list; `None` where it is the last, or on no list.
    pub fn next_on_list(&self, frame: Frame) -> Option<Frame>
        ensures { IsBehind (frames_on (life self.now).frames) frame.0 result }
    {
        self.state.table.next(frame.0)
    }

    /// Whether a frame is on the modified list.
    pub fn is_on_modified(&self, frame: Frame) -> bool
        ensures { result ≡ is_on frame.0 (life self.now).frames.modified }
    {
        self.state.table.is_modified(frame.0)
    }

    /// How many requests are in flight.
    pub fn requests(&self) -> u32
        ensures { result ≡ length (life self.now).flight }
    {
        self.state.flight.len()
    }

    /// The frame of the oldest request in flight, if any.
    pub fn first_request(&self) -> Option<Frame>
        ensures { result ≡ frame_at (life self.now).flight 0 }
    {
        framed(self.state.flight.first())
    }

    /// The frame of the request that began right after that of this frame; `None` where it is the
    /// youngest, or the frame has none.
    pub fn next_request(&self, frame: Frame) -> Option<Frame>
        ensures { IsBehind {A = Unit {0}} (λ _. (life self.now).flight) frame.0 result }
    {
        framed(self.state.flight.next(frame.0))
    }

    /// The frame that a place is valid for, if any.
    pub fn frame_of(&self, place: Place) -> Option<Frame>
        ensures { result ≡ (life self.now).valid place }
    {
        self.state.places.get(place)
    }

    /// Whether a slot is there and free.
    pub fn is_slot_free(&self, slot: Slot) -> bool
        ensures { result ≡ slice_index_or (life self.now).free_slots slot.0 false }
    {
        self.state.free_slots.is_free(slot.0)
    }

    /// How many slots are free.
    pub fn free_slots(&self) -> u32
        ensures { result ≡ count_by (λ b. b) (life self.now).free_slots }
    {
        self.state.free_slots.count()
    }

    /// The working sets, of pid 1, 2, ..
    pub fn sets(&self) -> &[ResidentSet]
        ensures { result.now ≡ (life self.now).sets }
    {
        &self.state.sets
    }

    /// The working set of a process, if there is such a process.
    pub fn set_of(&self, pid: Pid) -> Option<ResidentSet>
        ensures { result ≡ set_of (life self.now) pid.0 }
    {
        set_of(&self.state.sets, pid)
    }

    /// The frame of a key, or where it has none its home; `Dead` where it is not live.
    pub fn standing(&self, key: Key) -> Held
        ensures { result ≡ (life self.now).stands key }
    {
        self.state.keys.held(key)
    }

    /// Whether a key is live.
    pub fn is_live(&self, key: Key) -> bool
        ensures { result ≡ is_live (life self.now) key }
    {
        !is_dead(self.state.keys.held(key))
    }

    /// Whether a key is live and was added with `zero`: a page of the paging file.
    pub fn is_paging(&self, key: Key) -> bool
        ensures { result ≡ (life self.now).paging key }
    {
        self.state.keys.is_paging(key)
    }

    /// How many live keys were added with `zero`.
    pub fn paging_keys(&self) -> u64
        ensures { result ≡ (life self.now).paging_keys }
    {
        self.state.paging_keys
    }

    /// What a replay keeps of its frames: there are as many as the machine has, each counted once.
    /// It does nothing.
    fn keeps_frames(&self)
        ensures few { length (life self.now).frames.records < 2 ^ 32 }
        ensures sum { counted_frames (counts_of (life self.now)) ≡ (life self.now).machine.frames }
    {
        let frames = self.frames();
        let _known = frames;
    }

    /// The eight numbers that `counts` tells, of which six add up to the frames. Takes time in
    /// proportion to the frames.
    pub fn counts(&self) -> Counts
        ensures value { result ≡ counts_of (life self.now) }
        ensures sum { counted_frames result ≡ (life self.now).machine.frames }
    {
        self.keeps_frames();
        let records = self.records();
        Counts {
            zeroed: self.list_len(FrameList::Zeroed),
            free: self.list_len(FrameList::Free),
            standby: self.list_len(FrameList::Standby),
            modified: self.list_len(FrameList::Modified),
            active: count_active(records),
            transition: count_in_transition(records),
            free_slots: self.free_slots(),
            requests: self.requests(),
        }
    }
}
