ghost use Rattle.std.specs.Prelude.{◌≡◌, ◌+◌, ℕ, List, Option, Some, true, false, ◌++◌, ◌∷◌, []};
ghost use Rattle.mm_types.specs.{IsMachine, Frame, Place, Stored, Move};
ghost use Rattle.mm_types.specs.declared.moves.Move.TheVariants as move;
ghost use Rattle.mm_move_rules.specs.{is_on, FrameLife, IsLegal, is_access, is_short, after_move, Replays, can_be_written, Ages, IsVictim};
ghost use Rattle.mm_move_laws.specs.Sound.{Sound};
ghost use Rattle.mm_frame_laws.specs.{NoneMayGo, IsWithinDepth, after_failed, failed_write, lost_in, Walking, Emptying, AreSteps, InOrder, InWalk};
ghost use Rattle.mm_move_laws.specs.{valid_places};

/// The modified list is walked from its front, each frame once: frames that cannot be written are
/// passed over, one whose write failed goes to the end. After it each modified frame that can be
/// written has a failed write among the moves.
pub fn the_modified_list_is_walked()
    ensures begins { (l : FrameLife) → Walking l l [] l.frames.modified [] [] }
    ensures listed { (start l : FrameLife) (passed left lost : List ℕ) (moves : List Move)
        (f : Frame) → Walking start l passed (f.0 ∷ left) lost moves →
        is_on f.0 l.frames.modified ≡ true }
    ensures passes { (start l : FrameLife) (passed left lost : List ℕ) (moves : List Move)
        (f : Frame) → Walking start l passed (f.0 ∷ left) lost moves →
        can_be_written l f.0 ≡ false → Walking start l (passed ++ f.0 ∷ []) left lost moves }
    ensures passes_all { (start l : FrameLife) (passed more left lost : List ℕ)
        (moves : List Move) → Walking start l passed (more ++ left) lost moves →
        ((g : ℕ) → is_on g more ≡ true → can_be_written l g ≡ false) →
        Walking start l (passed ++ more) left lost moves }
    ensures fails { (start l : FrameLife) (passed left lost : List ℕ) (moves : List Move)
        (f : Frame) → Walking start l passed (f.0 ∷ left) lost moves → Sound l → (home : Stored) →
        IsLegal (move.Write f home) l →
        Walking start (after_failed l f home) passed left (lost ++ f.0 ∷ [])
        (moves ++ failed_write f home) }
    ensures ends { (start l : FrameLife) (passed lost : List ℕ) (moves : List Move) →
        Walking start l passed [] lost moves → Replays moves start l → IsMachine l.machine →
        is_access l.kind ≡ true → is_short l ≡ true → IsWithinDepth l → Emptying start l moves }
{}

/// Then places are unmapped, one a turn. A turn gives a frame; or it leaves the search as it was
/// with one place fewer, whether its frame could not be written or its write failed.
pub fn places_are_unmapped_in_turn()
    ensures kept { (start l : FrameLife) → Sound start → (moves : List Move) →
        Emptying start l moves → (place : Place) (f : Frame) → l.valid place ≡ Some f →
        is_short (after_move l (move.Unmap place)) ≡ true →
        (is_on f.0 (after_move l (move.Unmap place)).frames.modified ≡ true →
        can_be_written (after_move l (move.Unmap place)) f.0 ≡ false) →
        Emptying start (after_move l (move.Unmap place)) (moves ++ move.Unmap place ∷ []) }
    ensures failed { (start l : FrameLife) → Sound start → (moves : List Move) →
        Emptying start l moves → (place : Place) (f : Frame) → l.valid place ≡ Some f →
        is_short (after_move l (move.Unmap place)) ≡ true →
        is_on f.0 (after_move l (move.Unmap place)).frames.modified ≡ true → (home : Stored) →
        IsLegal (move.Write f home) (after_move l (move.Unmap place)) →
        Emptying start (after_failed (after_move l (move.Unmap place)) f home)
        (moves ++ move.Unmap place ∷ failed_write f home) }
    ensures fewer { (start l : FrameLife) → Sound start → (moves : List Move) →
        Emptying start l moves → (place : Place) (f : Frame) → l.valid place ≡ Some f →
        valid_places (after_move l (move.Unmap place)) + 1 ≡ valid_places l }
    ensures fewer_failed { (start l : FrameLife) → Sound start → (moves : List Move) →
        Emptying start l moves → (place : Place) (f : Frame) → l.valid place ≡ Some f →
        is_on f.0 (after_move l (move.Unmap place)).frames.modified ≡ true → (home : Stored) →
        IsLegal (move.Write f home) (after_move l (move.Unmap place)) →
        valid_places (after_failed (after_move l (move.Unmap place)) f home) + 1 ≡ valid_places l }
{}

/// A search that has no place left to unmap and has no frame made a write that failed: where no
/// write fails, a frame is found.
pub fn a_search_without_failed_writes_finds_a_frame()
    ensures { (start l : FrameLife) → Sound start → (moves : List Move) → Emptying start l moves →
        (pinned : Option Frame) → NoneMayGo l pinned → (f : ℕ) × (lost_in moves f ≡ true) }
{}

/// A search makes its moves in its order: each write is of the first modified frame that can be
/// written and was not tried, and a place is unmapped only where there is no such frame, and is the
/// one that goes first. What each step adds keeps to it.
pub fn searches_keep_their_order()
    ensures begins { (l : FrameLife) (ages : Ages) (pinned : Option Frame) →
        InWalk l ages pinned [] [] }
    ensures walk_failed { (start l : FrameLife) (ages : Ages) (pinned : Option Frame)
        (passed left lost : List ℕ) (moves : List Move) (f : Frame) →
        Walking start l passed (f.0 ∷ left) lost moves → InWalk start ages pinned lost moves →
        Sound l → Replays moves start l → can_be_written l f.0 ≡ true → (home : Stored) →
        InWalk start ages pinned (lost ++ f.0 ∷ []) (moves ++ failed_write f home) }
    ensures walk_wrote { (start l : FrameLife) (ages : Ages) (pinned : Option Frame)
        (passed left lost : List ℕ) (moves : List Move) (f : Frame) →
        Walking start l passed (f.0 ∷ left) lost moves → InWalk start ages pinned lost moves →
        Sound l → Replays moves start l → can_be_written l f.0 ≡ true → (home : Stored) →
        AreSteps start ages pinned [] (moves ++ move.Write f home ∷ move.Wrote f ∷ []) }
    ensures walk_ends { (start l : FrameLife) (ages : Ages) (pinned : Option Frame)
        (passed lost : List ℕ) (moves : List Move) → Walking start l passed [] lost moves →
        InWalk start ages pinned lost moves → InOrder start l ages pinned moves }
    ensures turn { (start l : FrameLife) (ages : Ages) (pinned : Option Frame) (moves : List Move) →
        Sound start → Emptying start l moves → InOrder start l ages pinned moves →
        (place : Place) (f : Frame) → l.valid place ≡ Some f → IsVictim l ages pinned place →
        InOrder start (after_move l (move.Unmap place)) ages pinned
        (moves ++ move.Unmap place ∷ []) }
    ensures turn_wrote { (start l : FrameLife) (ages : Ages) (pinned : Option Frame)
        (moves : List Move) → Sound start → Emptying start l moves →
        InOrder start l ages pinned moves → (place : Place) (f : Frame) → l.valid place ≡ Some f →
        IsVictim l ages pinned place →
        is_on f.0 (after_move l (move.Unmap place)).frames.modified ≡ true →
        can_be_written (after_move l (move.Unmap place)) f.0 ≡ true → (home : Stored) →
        AreSteps start ages pinned []
        (moves ++ move.Unmap place ∷ move.Write f home ∷ move.Wrote f ∷ []) }
    ensures turn_failed { (start l : FrameLife) (ages : Ages) (pinned : Option Frame)
        (moves : List Move) → Sound start → Emptying start l moves →
        InOrder start l ages pinned moves → (place : Place) (f : Frame) → l.valid place ≡ Some f →
        IsVictim l ages pinned place →
        is_on f.0 (after_move l (move.Unmap place)).frames.modified ≡ true →
        can_be_written (after_move l (move.Unmap place)) f.0 ≡ true →
        Sound (after_move l (move.Unmap place)) → (home : Stored) →
        IsLegal (move.Write f home) (after_move l (move.Unmap place)) →
        InOrder start (after_failed (after_move l (move.Unmap place)) f home) ages pinned
        (moves ++ move.Unmap place ∷ failed_write f home) }
{}
