ghost use Rattle.std.specs.Prelude.{◌≡◌, ◌⊎◌, ℕ, Option, true};
ghost use Rattle.mm_types.specs.{IsMachine, Frame, Place};
ghost use Rattle.mm_move_rules.specs.{FrameLife, is_short, may_go};
ghost use Rattle.mm_move_laws.specs.Sound.{Sound};
ghost use Rattle.mm_frame_laws.specs.{NoneMayGo, NoneWritable, Writable, IsWithinDepth};

/// Where zeroed, free and standby are empty and at most depth requests are in flight, a modified
/// frame can be written, or a place is valid for a frame other than the pinned one. So a search
/// that has neither left never comes about. The machine's numbers are in range from line 1 on
/// (`mm_move_laws`).
pub fn a_frame_can_be_found()
    ensures may_go { (l : FrameLife) → Sound l → IsMachine l.machine → IsWithinDepth l →
        is_short l ≡ true → (pinned : Option Frame) → NoneWritable l → (place : Place) ×
        (may_go l pinned place ≡ true) }
    ensures either { (l : FrameLife) → Sound l → IsMachine l.machine → IsWithinDepth l →
        is_short l ≡ true → (pinned : Option Frame) → ((f : ℕ) × Writable l f) ⊎
        ((place : Place) × (may_go l pinned place ≡ true)) }
    ensures never { (l : FrameLife) → Sound l → IsMachine l.machine → IsWithinDepth l →
        is_short l ≡ true → (pinned : Option Frame) → NoneWritable l → NoneMayGo l pinned → ⊥ }
{}
