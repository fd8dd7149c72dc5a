ghost use Rattle.std.specs.Prelude.{◌≡◌, ◌≢◌, ◌-◌, ℕ, Some, true, false, ◌||◌, is_some, ◌++◌, ◌∷◌, []};
ghost use Rattle.std.specs.List.{list_any};
ghost use Rattle.mm_types.specs.{Frame, Key, Place, Stored};
ghost use Rattle.mm_types.specs.declared.moves.Move.TheVariants as move;
ghost use Rattle.mm_move_rules.specs.{record_at, has_request, is_on, without, being_written, FrameLife, set_of, ResidentSet, IsLegal, is_access, is_writer};
ghost use Rattle.mm_move_rules.specs.{has_depth, is_short, trims, touches, is_above_min, is_at_max, after_move, can_be_written};
ghost use Rattle.mm_move_laws.specs.Sound.{Sound};
ghost use Rattle.mm_move_laws.specs.{times, block_of, ListsAre};
ghost use Rattle.mm_frame_laws.specs.{Writable, Unmapped, backing_to, after_written, after_failed, put_last};

/// What the unmap of a place leaves. A frame that the place alone showed, without a request, joins
/// standby where it is clean and modified where it is changed; any other stays on no list. One
/// place fewer is valid, and the same frames can be written.
pub fn unmapped_frames_join_a_list()
    ensures unmapped { (l : FrameLife) → Sound l → (place : Place) (f : Frame) →
        l.valid place ≡ Some f → Unmapped l (after_move l (move.Unmap place)) place f.0 }
    ensures clean { (l : FrameLife) → Sound l → (place : Place) (f : Frame) →
        l.valid place ≡ Some f → (record_at l.frames f.0).shares ≡ 1 →
        has_request (record_at l.frames f.0).request ≡ false →
        (record_at l.frames f.0).changed ≡ false →
        ListsAre (after_move l (move.Unmap place)).frames l.frames.zeroed l.frames.free
        (l.frames.standby ++ f.0 ∷ []) l.frames.modified }
    ensures changed { (l : FrameLife) → Sound l → (place : Place) (f : Frame) →
        l.valid place ≡ Some f → (record_at l.frames f.0).shares ≡ 1 →
        has_request (record_at l.frames f.0).request ≡ false →
        (record_at l.frames f.0).changed ≡ true →
        ListsAre (after_move l (move.Unmap place)).frames l.frames.zeroed l.frames.free
        l.frames.standby (l.frames.modified ++ f.0 ∷ []) }
{}

/// A modified frame is on its list once. One that was written is the last of standby. One whose
/// write failed is the last of modified, and all else is as it was before the write.
pub fn written_frames_join_standby()
    ensures once { (l : FrameLife) → Sound l → (f : Frame) → is_on f.0 l.frames.modified ≡ true →
        times f.0 l.frames.modified ≡ 1 }
    ensures written { (l : FrameLife) → Sound l → (f : Frame) → is_on f.0 l.frames.modified ≡ true →
        (home : Stored) →
        ListsAre (after_written l f home).frames l.frames.zeroed l.frames.free
        (l.frames.standby ++ f.0 ∷ []) (without f.0 l.frames.modified) }
    ensures found { (l : FrameLife) → Sound l → (f : Frame) → is_on f.0 l.frames.modified ≡ true →
        (home : Stored) → is_short (after_written l f home) ≡ false }
    ensures flight { (l : FrameLife) → Sound l → (f : Frame) → is_on f.0 l.frames.modified ≡ true →
        (home : Stored) → (after_written l f home).flight ≡ l.flight }
    ensures failed { (l : FrameLife) → Sound l → (f : Frame) → is_on f.0 l.frames.modified ≡ true →
        (home : Stored) → IsLegal (move.Write f home) l → after_failed l f home ≡ put_last l f.0 }
{}

/// In an access line a modified frame that can be written has a place on a device to be written to,
/// and its request can be ended. Where the lists are empty each valid place can go.
pub fn searches_are_legal()
    ensures unmap { (l : FrameLife) (place : Place) (f : Frame) → is_access l.kind ≡ true →
        is_short l ≡ true → l.valid place ≡ Some f → IsLegal (move.Unmap place) l }
    ensures write { (l : FrameLife) → Sound l → is_access l.kind ≡ true → (f : Frame) →
        Writable l f.0 → (home : Stored) × IsLegal (move.Write f home) l }
    ensures wrote { (l : FrameLife) → Sound l → is_access l.kind ≡ true → (f : Frame) →
        is_on f.0 l.frames.modified ≡ true → (home : Stored) →
        IsLegal (move.Wrote f) (after_move l (move.Write f home)) }
    ensures lost { (l : FrameLife) → Sound l → is_access l.kind ≡ true → (f : Frame) →
        is_on f.0 l.frames.modified ≡ true → (home : Stored) →
        IsLegal (move.Lost f) (after_move l (move.Write f home)) }
{}

/// Which modified frames can be written: those with a block, and where a slot is free all. In a
/// line of the writer with fewer than depth requests one that can be written has a place on a
/// device to be written to. A write that has begun takes its frame off the list, and all other
/// frames and lists stay.
pub fn modified_frames_can_be_written()
    ensures which { (l : FrameLife) → Sound l → (f : ℕ) → is_on f l.frames.modified ≡ true →
        can_be_written l f ≡ is_some (block_of (record_at l.frames f).backing) ||
        list_any (λ b. b) l.free_slots }
    ensures file { (l : FrameLife) (f : ℕ) (k : Key) → (record_at l.frames f).owner ≡ Some k →
        l.paging k ≡ false → can_be_written l f ≡ true }
    ensures paged { (l : FrameLife) (f : ℕ) (k : Key) → (record_at l.frames f).owner ≡ Some k →
        l.paging k ≡ true → can_be_written l f ≡ list_any (λ b. b) l.free_slots }
    ensures writer { (l : FrameLife) → Sound l → is_writer l.kind ≡ true → has_depth l ≡ true →
        (f : Frame) → Writable l f.0 → (home : Stored) × IsLegal (move.Write f home) l }
    ensures lists { (l : FrameLife) → Sound l → (f : Frame) → is_on f.0 l.frames.modified ≡ true →
        (home : Stored) →
        ListsAre (after_move l (move.Write f home)).frames l.frames.zeroed l.frames.free
        l.frames.standby (without f.0 l.frames.modified) }
    ensures record { (l : FrameLife) → Sound l → (f : Frame) → is_on f.0 l.frames.modified ≡ true →
        (home : Stored) →
        record_at (after_move l (move.Write f home)).frames f.0 ≡
        being_written (backing_to home) (record_at l.frames f.0) }
    ensures others { (l : FrameLife) (f : Frame) (home : Stored) (g : ℕ) → g ≢ f.0 →
        record_at (after_move l (move.Write f home)).frames g ≡ record_at l.frames g }
{}

/// In a line that trims a process above its minimum, and in an access of a process whose set is
/// full, each of its valid places can go. Its set has one page fewer then, and all other sets stay.
pub fn sets_shrink_by_one()
    ensures trim { (l : FrameLife) (place : Place) (f : Frame) → trims place.pid.0 l.kind ≡ true →
        is_above_min (set_of l place.pid.0) ≡ true → l.valid place ≡ Some f →
        IsLegal (move.Unmap place) l }
    ensures full { (l : FrameLife) (place : Place) (f : Frame) → touches place.pid.0 l.kind ≡ true →
        is_at_max (set_of l place.pid.0) ≡ true → l.valid place ≡ Some f →
        IsLegal (move.Unmap place) l }
    ensures one { (l : FrameLife) (place : Place) (f : Frame) (s : ResidentSet) →
        l.valid place ≡ Some f → set_of l place.pid.0 ≡ Some s →
        set_of (after_move l (move.Unmap place)) place.pid.0 ≡ Some (record s {
          resident = s.resident - 1;
        }) }
    ensures others { (l : FrameLife) (place : Place) (f : Frame) (pid : ℕ) →
        l.valid place ≡ Some f → pid ≢ place.pid.0 →
        set_of (after_move l (move.Unmap place)) pid ≡ set_of l pid }
{}
