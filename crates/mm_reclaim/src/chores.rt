ghost use Rattle.std.specs.Prelude.{◌≡◌, true};
ghost use Rattle.mm_types.specs.declared.moves.LineKind.TheVariants as kind;
ghost use Rattle.mm_move_rules.specs.{clearings, writes_begun};
ghost use Rattle.mm_state_calls.specs.{moved, DoesMoves};
ghost use Rattle.mm_reclaim.specs.{TrimsOne, Trimmed, Rounds, writings};

use crate::searching::first_writable;
use mm_state_calls::StateCalls;
use mm_types::{Pid, Place};

/// Unmaps the oldest page of an open process that has more than its minimum. Answers whether it
/// had.
#[tactic(auto, using(crate::proofs::ChoreMoves::some_page, crate::proofs::ChoreMoves::trim_legal, crate::proofs::ChoreMoves::unmaps))]
fn trim_one<T: StateCalls>(state: &mut T, pid: Pid) -> bool
    requires open { (T.shown state.old).is_open pid.0 ≡ true }
    requires kind { (T.shown state.old).life.kind ≡ kind.Trim pid }
    ensures trims { TrimsOne pid result (T.shown state.old) (T.shown state.new) }
    ensures loans { T.loans state.new ≡ T.loans state.old }
{
    if !state.is_above_min(pid) {
        return false;
    }
    match state.oldest(pid, None) {
        None => false,
        Some(vpn) => {
            state.unmap(Place { pid, vpn });
            true
        }
    }
}

/// Unmaps at most `n` places of an open process, the oldest first, and leaves the least number of
/// its working set.
pub fn trim<T: StateCalls>(state: &mut T, pid: Pid, n: u32)
    requires open { (T.shown state.old).is_open pid.0 ≡ true }
    requires kind { (T.shown state.old).life.kind ≡ kind.Trim pid }
    ensures trimmed { Trimmed pid n (T.shown state.old) (T.shown state.new) }
    ensures loans { T.loans state.new ≡ T.loans state.old }
{
    for _trimmed in 0..n {
        if !trim_one(state, pid) {
            return;
        }
    }
}

/// Clears the first free frame. Answers whether there was one.
#[tactic(auto, using(crate::proofs::ChoreMoves::clear_legal, crate::proofs::ChoreMoves::clears, crate::proofs::ChoreMoves::clears_none))]
fn clear_one<T: StateCalls>(state: &mut T) -> bool
    requires kind { (T.shown state.old).life.kind ≡ kind.Zeroer }
    ensures clears { Rounds clearings result (T.shown state.old) (T.shown state.new) }
    ensures loans { T.loans state.new ≡ T.loans state.old }
{
    if state.no_free() {
        return false;
    }
    state.clear();
    true
}

/// Clears at most `n` free frames, from the front of their list.
pub fn zero<T: StateCalls>(state: &mut T, n: u32)
    requires kind { (T.shown state.old).life.kind ≡ kind.Zeroer }
    ensures cleared { DoesMoves (clearings n (T.shown state.old).life) (T.shown state.old)
        (T.shown state.new) }
    ensures rest { T.shown state.new ≡ moved (T.shown state.old) (T.shown state.new) }
    ensures loans { T.loans state.new ≡ T.loans state.old }
{
    for _cleared in 0..n {
        if !clear_one(state) {
            return;
        }
    }
}

/// The write of the first modified frame that can be written begins, while fewer requests than the
/// depth are in flight. Answers whether it did.
#[tactic(auto, using(crate::proofs::Writing::writer_legal, crate::proofs::Writing::writes_none, crate::proofs::Writing::writes_full))]
fn write_one<T: StateCalls>(state: &mut T) -> bool
    requires kind { (T.shown state.old).life.kind ≡ kind.Writer }
    ensures writes { Rounds writings result (T.shown state.old) (T.shown state.new) }
    ensures loans { T.loans state.new ≡ T.loans state.old }
{
    if !state.has_depth() {
        return false;
    }
    match first_writable(state) {
        None => false,
        Some(f) => {
            let _to = state.start_write(f);
            true
        }
    }
}

/// Begins writes of at most `n` modified frames, from the front of their list, while fewer requests
/// than the depth are in flight. Each goes to its block, or to the lowest free slot.
pub fn write_out<T: StateCalls>(state: &mut T, n: u32)
    requires kind { (T.shown state.old).life.kind ≡ kind.Writer }
    ensures begun { DoesMoves (writes_begun n (T.shown state.old).life
        (T.shown state.old).life.frames.modified) (T.shown state.old) (T.shown state.new) }
    ensures rest { T.shown state.new ≡ moved (T.shown state.old) (T.shown state.new) }
    ensures loans { T.loans state.new ≡ T.loans state.old }
{
    for _begun in 0..n {
        if !write_one(state) {
            return;
        }
    }
}
