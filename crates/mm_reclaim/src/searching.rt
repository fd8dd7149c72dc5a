ghost use Rattle.std.specs.Prelude.{◌≡◌, ◌≤◌, ◌<◌, ◌&&◌, ◌==◌, not, is_some, is_ok, length, option_map, slice_get, true, false, Some, None};
ghost use Rattle.std.specs.Bool.{OnTrue, OnFalse};
ghost use Rattle.mm_types.specs.{Frame};
ghost use Rattle.mm_move_rules.specs.{record_at, is_on, has_request, is_access, is_short as lists_are_empty, may_go as goes};
ghost use Rattle.mm_state_calls.specs.{Searched};
ghost use Rattle.mm_reclaim.specs.Seeking.{IsUnderWay, Seeking, writable_modified};
ghost use Rattle.mm_reclaim.specs.Searching.{TookVictim};

use crate::choosing::victim;
use crate::seeking::{try_frame, write_frame};
use mm_state_calls::StateCalls;
use mm_types::{Frame, Place, Record, Request};

/// No frame was found: a device write failed in the search, none succeeded, and no page may go but
/// those of the pinned frame.
#[derive(Clone, Copy)]
pub struct NoFrame;

/// Whether no frame can be taken at once: zeroed, free and standby are empty.
pub fn is_starved<T: StateCalls>(state: &T) -> bool
    ensures { result ≡ lists_are_empty (T.shown state.now).life }
{
    state.no_zeroed() && state.no_free() && state.no_standby()
}

/// Whether no request holds a frame.
fn is_quiet(request: Request) -> bool
    ensures { result ≡ not (has_request request) }
{
    match request {
        Request::None => true,
        _ => false,
    }
}

/// Whether a record is that of a modified frame: of a page, changed, without shares and without a
/// request.
fn is_of_modified(r: &Record) -> bool
    ensures { result ≡ (is_some r.now.owner &&
        ((r.now.shares == 0) && not (has_request r.now.request) && r.now.changed)) }
{
    r.owner.is_some() && r.shares == 0 && is_quiet(r.request) && r.changed
}

/// Whether a frame is modified.
#[tactic(auto, using(crate::proofs::Writing::modified_is))]
fn is_modified<T: StateCalls>(state: &T, f: Frame) -> bool
    requires { f.0 < (T.shown state.now).life.machine.frames }
    ensures { result ≡ is_on f.0 (T.shown state.now).life.frames.modified }
{
    let r = state.look(f);
    is_of_modified(&r)
}

/// How many modified frames can be written: all of them where a slot is free, else those that have
/// a block.
#[tactic(auto, using(crate::proofs::Writing::all_writable, crate::proofs::Writing::blocks_writable))]
fn writable_count<T: StateCalls>(state: &T) -> u32
    ensures { result ≡ length (writable_modified (T.shown state.now).life) }
{
    if state.free_slots() != 0 {
        state.counts().modified
    } else {
        state.modified_with_block()
    }
}

/// The first modified frame that can be written.
#[tactic(auto, using(crate::proofs::Writing::all_writable, crate::proofs::Writing::blocks_writable))]
pub(crate) fn first_writable<T: StateCalls>(state: &T) -> Option<Frame>
    ensures { option_map (λ f. f.0) result ≡ slice_get (writable_modified (T.shown state.now).life)
        0 }
{
    if state.free_slots() != 0 {
        state.front_modified()
    } else {
        state.front_modified_with_block()
    }
}

/// Each modified frame that can be written is, from the front on, until a write succeeds: a frame
/// whose write fails goes to the list's end. Answers whether one did.
fn walk<T: StateCalls>(state: &mut T, pinned: Option<Frame>) -> bool
    requires begun { IsUnderWay (T.shown state.old) }
    requires short { lists_are_empty (T.shown state.old).life ≡ true }
    requires pinned { (f : Frame) → pinned ≡ Some f →
        1 ≤ (record_at (T.shown state.old).life.frames f.0).shares }
    ensures found { OnTrue result (Searched pinned true (T.shown state.old) (T.shown state.new)) }
    ensures rest { OnFalse result (Seeking pinned (T.shown state.old) (T.shown state.new)) }
    ensures loans { T.loans state.new ≡ T.loans state.old }
{
    let n = writable_count(state);
    for i in 0..n {
        match first_writable(state) {
            None => unreachable!(),
            Some(f) => {
                if write_frame(state, f) {
                    return true;
                }
            }
        }
    }
    false
}

/// A page goes, and its frame is written where it can be. Answers whether there is a frame.
#[tactic(auto, using(crate::proofs::Phases::may_unmap, crate::proofs::Phases::begun_after, crate::proofs::Phases::low_after))]
fn turn<T: StateCalls>(state: &mut T, place: Place, f: Frame) -> bool
    requires begun { IsUnderWay (T.shown state.old) }
    requires short { lists_are_empty (T.shown state.old).life ≡ true }
    requires there { (T.shown state.old).life.valid place ≡ Some f }
    ensures turned { TookVictim place f result (T.shown state.old) (T.shown state.new) }
    ensures loans { T.loans state.new ≡ T.loans state.old }
{
    state.unmap(place);
    if !is_starved(state) {
        return true;
    }
    if !is_modified(state, f) {
        return false;
    }
    try_frame(state, f)
}

/// The frame of a page that may go.
#[tactic(auto, using(crate::proofs::Phases::goes_bound, crate::proofs::Phases::goes_some))]
fn frame_of<T: StateCalls>(state: &T, pinned: Option<Frame>, place: Place) -> Frame
    requires { goes (T.shown state.now).life pinned place ≡ true }
    ensures { (T.shown state.now).life.valid place ≡ Some result }
{
    match state.valid(place) {
        None => unreachable!(),
        Some(f) => f,
    }
}

/// The modified list and then pages are gone through until there is a frame.
fn search<T: StateCalls>(state: &mut T, pinned: Option<Frame>) -> bool
    requires begun { IsUnderWay (T.shown state.old) }
    requires pinned { (f : Frame) → pinned ≡ Some f →
        1 ≤ (record_at (T.shown state.old).life.frames f.0).shares }
    ensures searched { Searched pinned result (T.shown state.old) (T.shown state.new) }
    ensures loans { T.loans state.new ≡ T.loans state.old }
{
    if !is_starved(state) {
        return true;
    }
    if walk(state, pinned) {
        return true;
    }
    'turns: loop {
        match victim(state, pinned) {
            None => return false,
            Some(place) => {
                let f = frame_of(state, pinned, place);
                if turn(state, place, f) {
                    return true;
                }
            }
        }
    }
}

/// A frame for a page, in a plain access without a request of its own: afterwards zeroed, free or
/// standby has one. Else each modified frame that can be written was tried, and no page may go but
/// those of the pinned frame.
///
/// The modified frames that can be written are, from the first on, until a write succeeds; then
/// pages go, the oldest of the first process each time, and a frame that this leaves modified is
/// written where it can be. It takes no memory itself.
pub fn find_frame<T: StateCalls>(state: &mut T, pinned: Option<Frame>) -> Result<(), NoFrame>
    requires access { is_access (T.shown state.old).life.kind ≡ true }
    requires few { length (T.shown state.old).life.flight ≤ (T.shown state.old).life.machine.depth }
    requires pinned { (f : Frame) → pinned ≡ Some f →
        1 ≤ (record_at (T.shown state.old).life.frames f.0).shares }
    requires done { (T.shown state.old).own ≡ None }
    ensures searched { Searched pinned (is_ok result) (T.shown state.old) (T.shown state.new) }
    ensures loans { T.loans state.new ≡ T.loans state.old }
{
    if search(state, pinned) {
        Ok(())
    } else {
        Err(NoFrame)
    }
}
