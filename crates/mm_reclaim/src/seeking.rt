ghost use Rattle.std.specs.Prelude.{◌≡◌, ◌||◌, ◌==◌, not, is_some, true};
ghost use Rattle.mm_move_rules.specs.{is_on, can_be_written as writable};
ghost use Rattle.mm_move_laws.specs.{block_of};
ghost use Rattle.mm_frame_laws.specs.{Writable};
ghost use Rattle.mm_reclaim.specs.{IsUnderWay, Tries, Tried};

use mm_state_calls::StateCalls;
use mm_types::{Backing, Frame};

/// Whether a page of that backing has a block, or a slot where so many are free.
fn has_home(backing: Backing, free_slots: u32) -> bool
    ensures { result ≡ is_some (block_of backing) || not (free_slots == 0) }
{
    match backing {
        Backing::Block(_) => true,
        _ => free_slots != 0,
    }
}

/// Whether a modified frame can be written: to its block, or to a slot where one is free.
#[tactic(auto, using(crate::proofs::Writing::modified_low, crate::proofs::Writing::writable_is))]
fn can_be_written<T: StateCalls>(state: &T, f: Frame) -> bool
    requires { is_on f.0 (T.shown state.now).life.frames.modified ≡ true }
    ensures { result ≡ writable (T.shown state.now).life f.0 }
{
    let backing = state.look(f).backing;
    let room = state.free_slots();
    has_home(backing, room)
}

/// A modified frame that can be written is, in an access. Answers whether the write succeeded.
#[tactic(auto, using(crate::proofs::Writing::target_legal, crate::proofs::Writing::end_legal))]
pub(crate) fn write_frame<T: StateCalls>(state: &mut T, f: Frame) -> bool
    requires begun { IsUnderWay (T.shown state.old) }
    requires writable { Writable (T.shown state.old).life f.0 }
    ensures tries { Tries f result (T.shown state.old) (T.shown state.new) }
    ensures loans { T.loans state.new ≡ T.loans state.old }
{
    let _to = state.start_write(f);
    state.end_write(f)
}

/// A modified frame is written where it can be, in a plain access: to its block, or to the lowest
/// free slot. Answers whether it was written, and so stands on standby. Takes no memory itself.
#[tactic(auto, using(crate::proofs::Writing::can_write))]
pub fn try_frame<T: StateCalls>(state: &mut T, f: Frame) -> bool
    requires begun { IsUnderWay (T.shown state.old) }
    requires modified { is_on f.0 (T.shown state.old).life.frames.modified ≡ true }
    ensures tried { Tried f result (T.shown state.old) (T.shown state.new) }
    ensures loans { T.loans state.new ≡ T.loans state.old }
{
    if !can_be_written(state, f) {
        return false;
    }
    write_frame(state, f)
}
