ghost use Rattle.std.specs.Prelude.{◌≡◌, ◌+◌, ◌<◌, ◌≤◌, ◌++◌, ◌∷◌, ◌^◌, [], ℕ, Bool, List, OnOk};
ghost use Rattle.mm_types.specs.{Move};
ghost use Rattle.mm_move_rules.specs.{FrameLife, IsLegal, after_move};
ghost use Rattle.mm_replay.specs.Standing.{life as life_of};

use mm_replay::Life;
use mm_types::{Move, NoMemory};

/// What writes a text of a log, told its moves one after another.
pub trait Teller {
    /// The text that is still to come from this state on, where these moves follow; and then the
    /// log's end, or a line that is no legal move.
    ghost rest: { Self → Bool → FrameLife → List Move → List ℕ };

    /// How much was counted so far.
    ghost counted: { Self → ℕ };

    /// What is said behind the number of a line that spells a move which is not legal in this
    /// state.
    ghost why: { FrameLife → Move → List ℕ };

    /// Takes the next move, which is legal in this state.
    fn take(&mut self, life: &Life, m: &Move, text: &mut Vec<u8>) -> Result<(), NoMemory>
        requires legal { IsLegal m.now (life_of life.now) }
        requires few { counted self.old + 1 < 2 ^ 63 }
        ensures text { OnOk result ((whole : Bool) (ms : List Move) → text.new.items
            ++ rest self.new whole (after_move (life_of life.now) m.now) ms
            ≡ text.old.items ++ rest self.old whole (life_of life.now) (m.now ∷ ms)) }
        ensures counted { counted self.new ≤ counted self.old + 1 };

    /// Writes what is left to write at the log's end, or in front of a line that is no legal move.
    fn finish(&mut self, whole: bool, life: &Life, text: &mut Vec<u8>) -> Result<(), NoMemory>
        ensures { OnOk result (text.new.items ≡ text.old.items
            ++ rest self.old whole (life_of life.now) []) };

    /// Writes why a move is not legal in this state, behind the number of its line: nothing, or
    /// `: `, the move, `: ` and the reason.
    fn tell_why(&self, life: &Life, m: &Move, text: &mut Vec<u8>) -> Result<(), NoMemory>
        ensures { OnOk result (text.new.items ≡ text.old.items ++ why (life_of life.now) m.now) };
}
