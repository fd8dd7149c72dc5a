ghost use Rattle.std.specs.Prelude.{◌≡◌, ◌≢◌, ◌≤◌, ◌<◌, ◌+◌, ℕ, List, Some, None, true, false, is_some, length, count_by, slice_get};
ghost use Rattle.mm_types.specs.{limit_of, Frame, Key, Pid, Vpn, Place, Block, LineKind, Move};
ghost use Rattle.mm_types.specs.declared.numbers.Key.TheVariants.{Private};
ghost use Rattle.mm_types.specs.declared.frames.Backing.TheVariants as backing;
ghost use Rattle.mm_types.specs.declared.frames.Held.TheVariants as held;
ghost use Rattle.mm_types.specs.declared.moves.Move.TheVariants as move;
ghost use Rattle.mm_move_rules.specs.{ResidentSet, blank, record_at, has_request, is_on, FrameLife, counts_of, is_live, key_of_place, set_of, unstarted};
ghost use Rattle.mm_move_rules.specs.{is_legal, IsLegal, is_access, is_call, after_move, Replays};
ghost use Rattle.mm_move_laws.specs.{one_if, times, is_first_line, standings, counted_frames, IsStandby, IsModified, Holder, slot_held, CountsPlaces};
ghost use Rattle.mm_move_laws.specs.{CountsKeys, is_file_key, is_home_for, is_backing_for, block_held, IsAdded, may_begin, ReachedByMoves};
ghost use Rattle.mm_move_laws.specs.Sound.{Sound};

/// Each legal move keeps what `Sound` says, so it holds of each state that a replay reaches.
pub fn moves_keep_what_holds()
    ensures start { Sound unstarted }
    ensures kept { (x : Move) (l : FrameLife) → Sound l → IsLegal x l → Sound (after_move l x) }
    ensures reached { (l : FrameLife) → ReachedByMoves l → Sound l }
{}

/// Before the first line nothing is legal but the line of a machine with numbers in range.
pub fn a_machine_comes_first()
    ensures { (x : Move) → is_legal unstarted x ≡ is_first_line x }
{}

/// Each frame of the machine stands in one place, once: on one of the four lists, active or in
/// transition. No other number stands anywhere, and the six counts are the frames.
pub fn frames_stand_once()
    ensures once { (l : FrameLife) → Sound l → (f : ℕ) → f < l.machine.frames →
        standings l.frames f ≡ 1 }
    ensures no_other { (l : FrameLife) → Sound l → (f : ℕ) → l.machine.frames ≤ f →
        standings l.frames f ≡ 0 }
    ensures counted { (l : FrameLife) → Sound l → counted_frames (counts_of l) ≡ l.machine.frames }
{}

/// A zeroed or free frame holds nothing. A standby frame holds a live page that is unchanged and on
/// a device, a modified frame a live page that was changed and has no slot; both are shared by no
/// place and have no request.
pub fn lists_hold_their_frames()
    ensures zeroed { (l : FrameLife) → Sound l → (f : ℕ) → is_on f l.frames.zeroed ≡ true →
        record_at l.frames f ≡ blank }
    ensures free { (l : FrameLife) → Sound l → (f : ℕ) → is_on f l.frames.free ≡ true →
        record_at l.frames f ≡ blank }
    ensures standby { (l : FrameLife) → Sound l → (f : ℕ) → is_on f l.frames.standby ≡ true →
        IsStandby (record_at l.frames f) }
    ensures modified { (l : FrameLife) → Sound l → (f : ℕ) → is_on f l.frames.modified ≡ true →
        IsModified (record_at l.frames f) }
{}

/// A free slot has no holder, and each other slot has exactly one: a key whose home it is, or a
/// frame whose backing it is. What is held is there and is not free.
pub fn slots_have_one_holder()
    ensures free { (l : FrameLife) → Sound l → (s : ℕ) (h : Holder) →
        slice_get l.free_slots s ≡ Some true → slot_held l h ≢ Some s }
    ensures held { (l : FrameLife) → Sound l → (s : ℕ) → slice_get l.free_slots s ≡ Some false →
        (h : Holder) × (slot_held l h ≡ Some s) }
    ensures one { (l : FrameLife) → Sound l → (s : ℕ) (g h : Holder) → slot_held l g ≡ Some s →
        slot_held l h ≡ Some s → g ≡ h }
    ensures there { (l : FrameLife) → Sound l → (s : ℕ) (h : Holder) → slot_held l h ≡ Some s →
        s < l.machine.slots }
    ensures taken { (l : FrameLife) → Sound l → (s : ℕ) (h : Holder) → slot_held l h ≡ Some s →
        slice_get l.free_slots s ≡ Some false }
    ensures slots { (l : FrameLife) → Sound l → length l.free_slots ≡ l.machine.slots }
{}

/// A frame has a key exactly where the key stands in it. So a key with a frame has one frame and no
/// home, two frames never have one owner, and an owner is live.
pub fn keys_stand_once()
    ensures in_frame { (l : FrameLife) → Sound l → (k : Key) (f : Frame) →
        l.stands k ≡ held.Frame f → (record_at l.frames f.0).owner ≡ Some k }
    ensures of_frame { (l : FrameLife) → Sound l → (k : Key) (f : Frame) →
        (record_at l.frames f.0).owner ≡ Some k → l.stands k ≡ held.Frame f }
    ensures one { (l : FrameLife) → Sound l → (k : Key) (f g : ℕ) →
        (record_at l.frames f).owner ≡ Some k → (record_at l.frames g).owner ≡ Some k → f ≡ g }
    ensures live { (l : FrameLife) → Sound l → (k : Key) (f : ℕ) →
        (record_at l.frames f).owner ≡ Some k → is_live l k ≡ true }
    ensures there { (l : FrameLife) → Sound l → (k : Key) (f : Frame) → l.stands k ≡ held.Frame f →
        f.0 < l.machine.frames }
{}

/// The shares of a frame are the places that are valid for it, and the size of a working set is the
/// valid places of its process, at most its max. A valid place's frame has an owner and shares; a
/// private owner is the key of that very place.
pub fn shares_are_valid_places()
    ensures counted { (l : FrameLife) → Sound l → CountsPlaces l }
    ensures shared { (l : FrameLife) → Sound l → (p : Place) (f : Frame) → l.valid p ≡ Some f →
        1 ≤ (record_at l.frames f.0).shares }
    ensures owned { (l : FrameLife) → Sound l → (p : Place) (f : Frame) → l.valid p ≡ Some f →
        is_some (record_at l.frames f.0).owner ≡ true }
    ensures own { (l : FrameLife) → Sound l → (p : Place) (f : Frame) (q : Pid) (v : Vpn) →
        l.valid p ≡ Some f → (record_at l.frames f.0).owner ≡ Some (Private q v) →
        Private q v ≡ key_of_place p }
    ensures within { (l : FrameLife) → Sound l → (pid : ℕ) (s : ResidentSet) →
        set_of l pid ≡ Some s → s.resident ≤ s.max }
{}

/// The requests in flight are the frames whose records have one, each once.
pub fn requests_are_those_of_records()
    ensures once { (l : FrameLife) → Sound l → (f : ℕ) →
        times f l.flight ≡ one_if (has_request (record_at l.frames f).request) }
    ensures counted { (l : FrameLife) → Sound l →
        length l.flight ≡ count_by (λ r. has_request r.request) l.frames.records }
{}

/// A line begins with at most depth requests in flight, and a move adds at most one, and none where
/// none may begin: so only plain accesses and calls pass the depth, and they can.
pub fn requests_are_within_the_depth()
    ensures at_lines { (l : FrameLife) → Sound l → (n : ℕ) (k : LineKind) →
        IsLegal (move.At n k) l →
        length (after_move l (move.At n k)).flight ≤ (after_move l (move.At n k)).machine.depth }
    ensures one_more { (l : FrameLife) (x : Move) → IsLegal x l →
        length (after_move l x).flight ≤ length l.flight + one_if (may_begin l) }
    ensures other_lines { (l : FrameLife) → Sound l → is_access l.kind ≡ false →
        is_call l.kind ≡ false → length l.flight ≤ l.machine.depth }
{}

/// The page-file keys are as many as the state says, and at most the limit. They live. Their bytes
/// are on no block of a file, and those of a file key in no slot. A file key stays live, whatever
/// moves follow.
pub fn page_file_keys_are_within_the_limit()
    ensures within { (l : FrameLife) → Sound l → l.paging_keys ≤ limit_of l.machine }
    ensures counted { (l : FrameLife) → Sound l → CountsKeys l }
    ensures homes { (l : FrameLife) → Sound l → (k : Key) →
        is_home_for (l.paging k) (l.stands k) ≡ true }
    ensures backings { (l : FrameLife) → Sound l → (k : Key) (f : ℕ) →
        (record_at l.frames f).owner ≡ Some k →
        is_backing_for (l.paging k) (record_at l.frames f).backing ≡ true }
    ensures live { (l : FrameLife) → Sound l → (k : Key) → l.paging k ≡ true → is_live l k ≡ true }
    ensures some { (l : FrameLife) → Sound l → (k : Key) → l.paging k ≡ true → 1 ≤ l.paging_keys }
    ensures file_keys_stay { (l m : FrameLife) → ReachedByMoves l → (moves : List Move) →
        Replays moves l m → (k : Key) → is_file_key l k ≡ true → is_file_key m k ≡ true }
{}

/// A file key has a block, its home or the backing of its frame, and keeps it whatever moves
/// follow. A page-file key has none. No two keys have one block, and a block that a key has is
/// there and was added.
pub fn file_keys_keep_their_blocks()
    ensures has { (l : FrameLife) → Sound l → (k : Key) → is_file_key l k ≡ true →
        is_some (block_held l k) ≡ true }
    ensures stays { (l m : FrameLife) → ReachedByMoves l → (moves : List Move) → Replays moves l m →
        (k : Key) → is_file_key l k ≡ true → block_held m k ≡ block_held l k }
    ensures none { (l : FrameLife) → Sound l → (k : Key) → l.paging k ≡ true →
        block_held l k ≡ None }
    ensures one { (l : FrameLife) → ReachedByMoves l → (j k : Key) (b : ℕ) →
        block_held l j ≡ Some b →
        block_held l k ≡ Some b → j ≡ k }
    ensures added { (l : FrameLife) → ReachedByMoves l → (k : Key) (b : ℕ) →
        block_held l k ≡ Some b →
        IsAdded l b }
{}

/// A file page in a frame has a block, whatever list the frame is on. A changed page-file page that
/// is not being written is on no device. A frame whose page lives no more, and whose request has
/// not ended, is on no block.
pub fn backings_fit_their_pages()
    ensures file { (l : FrameLife) → Sound l → (f : ℕ) (k : Key) →
        (record_at l.frames f).owner ≡ Some k → l.paging k ≡ false → (b : Block) ×
        ((record_at l.frames f).backing ≡ backing.Block b) }
    ensures changed { (l : FrameLife) → Sound l → (f : ℕ) (k : Key) →
        (record_at l.frames f).owner ≡ Some k → l.paging k ≡ true →
        (record_at l.frames f).changed ≡ true → has_request (record_at l.frames f).request ≡ false →
        (record_at l.frames f).backing ≡ backing.None }
    ensures ownerless { (l : FrameLife) → Sound l → (f : ℕ) → (record_at l.frames f).owner ≡ None →
        (b : Block) → (record_at l.frames f).backing ≢ backing.Block b }
{}
