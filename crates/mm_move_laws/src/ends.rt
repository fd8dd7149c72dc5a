ghost use Rattle.std.specs.Prelude.{◌≡◌, Some};
ghost use Rattle.mm_types.specs.{Frame, Place};
ghost use Rattle.mm_types.specs.declared.moves.Move.TheVariants as move;
ghost use Rattle.mm_move_rules.specs.{blank, record_at, read_done, write_done, write_lost, unshared, FrameLife, IsLegal, after_move};
ghost use Rattle.mm_move_laws.specs.{ended_as, Settles};
ghost use Rattle.mm_move_laws.specs.Sound.{Sound};

/// The end of a request changes the record of its frame alone. A frame whose page lives goes after
/// all others of standby or modified, unless a place is valid for it; one whose page lives no more
/// goes to free.
pub fn ended_requests_settle_one_frame()
    ensures got { (l : FrameLife) → Sound l → (f : Frame) → IsLegal (move.Got f) l →
        Settles l.frames (after_move l (move.Got f)).frames f.0
        (ended_as read_done (record_at l.frames f.0)) }
    ensures bad { (l : FrameLife) → Sound l → (f : Frame) → IsLegal (move.Bad f) l →
        Settles l.frames (after_move l (move.Bad f)).frames f.0 blank }
    ensures wrote { (l : FrameLife) → Sound l → (f : Frame) → IsLegal (move.Wrote f) l →
        Settles l.frames (after_move l (move.Wrote f)).frames f.0
        (ended_as write_done (record_at l.frames f.0)) }
    ensures lost { (l : FrameLife) → Sound l → (f : Frame) → IsLegal (move.Lost f) l →
        Settles l.frames (after_move l (move.Lost f)).frames f.0
        (ended_as write_lost (record_at l.frames f.0)) }
{}

/// The unmap of a place takes one share from its frame, which without shares and without a request
/// goes after all others of standby or modified.
pub fn unmaps_settle_one_frame()
    ensures { (l : FrameLife) → Sound l → (place : Place) (f : Frame) → l.valid place ≡ Some f →
        Settles l.frames (after_move l (move.Unmap place)).frames f.0
        (unshared (record_at l.frames f.0)) }
{}
