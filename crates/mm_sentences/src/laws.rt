ghost use Rattle.std.specs.Prelude.{◌≡◌, false, Some};
ghost use Rattle.mm_types.specs.{Move};
ghost use Rattle.mm_move_rules.specs.{is_legal, FrameLife};
ghost use Rattle.mm_sentences.specs.{part_holds, parts_of, refusal, all_hold, Part};

/// A move is legal exactly where each part of its condition holds, and the part that is told fails.
#[tactic(auto, using(crate::proofs::Legally::parted))]
pub fn parts_make_the_condition()
    ensures whole { (l : FrameLife) (m : Move) → is_legal l m ≡ all_hold l (parts_of m) }
    ensures fails { (l : FrameLife) (m : Move) (p : Part) → refusal l m ≡ Some p
        → part_holds l p ≡ false }
{}
