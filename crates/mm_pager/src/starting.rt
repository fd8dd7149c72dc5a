ghost use Rattle.std.specs.Prelude.{◌≡◌, ◌⊎◌, ◌==◌, ◌&&◌, true, false, None, Some};
ghost use Rattle.mm_types.specs.{Why};
ghost use Rattle.mm_types.specs.declared.answers.Why.TheVariants as why;
ghost use Rattle.mm_types.specs.declared.frames.Held.TheVariants as held;
ghost use Rattle.mm_types.specs.declared.moves.LineKind.TheVariants as kind;
ghost use Rattle.mm_move_rules.specs.{is_live, is_zero, is_stored, is_short, is_thread};
ghost use Rattle.mm_store.specs.{wait_begun};
ghost use Rattle.mm_move_rules.specs.{changed};
ghost use Rattle.mm_store.specs.declared.outcomes.Need.TheVariants as wanted;
ghost use Rattle.mm_store.specs.declared.outcomes.Start.TheVariants as start_of;
ghost use Rattle.mm_pager.specs.{ready_at, MayUse, AccessBegun, IsBeingRead, answered, ready_after};

use crate::completing::is_reading;
use crate::faults::{assign, free_frame, put};
use crate::pager::Wanted;
use mm_reclaim::is_starved;
use mm_state_calls::StateCalls;
use mm_store::{Need, Start};
use mm_types::{Frame, Held, Key, Place, Tid, Why};

/// The access of a page that has a frame: the page becomes valid, unless it is being read.
fn start_in_frame<T: StateCalls>(state: &mut T, key: Key, f: Frame, place: Place) -> Start
    requires thread { (T.shown state.old).life.kind ≡ kind.Thread place.pid }
    requires stands { (T.shown state.old).life.stands key ≡ held.Frame f }
    requires usable { MayUse key place (T.shown state.old) }
    requires free { (T.shown state.old).life.valid place ≡ None }
    ensures begun { AccessBegun wanted.Touch key place result (T.shown state.old)
        (T.shown state.new) }
    ensures loans { T.loans state.new ≡ T.loans state.old }
{
    let r = state.look(f);
    if is_reading(&r) {
        return Start::Pending(Why::Read);
    }
    put(state, key, f, place);
    Start::Ready
}

/// The access of a demand-zero page: it gets a frame, if there is one, and becomes valid.
fn start_zero<T: StateCalls>(state: &mut T, key: Key, place: Place) -> Start
    requires thread { (T.shown state.old).life.kind ≡ kind.Thread place.pid }
    requires zero { is_zero ((T.shown state.old).life.stands key) ≡ true }
    requires usable { MayUse key place (T.shown state.old) }
    requires free { (T.shown state.old).life.valid place ≡ None }
    ensures begun { AccessBegun wanted.Touch key place result (T.shown state.old)
        (T.shown state.new) }
    ensures loans { T.loans state.new ≡ T.loans state.old }
{
    if is_starved(state) {
        return Start::Pending(Why::Frame);
    }
    let f = assign(state, key);
    put(state, key, f, place);
    Start::Ready
}

/// The access of a page on a device: a read of it begins, into the first free frame, or else the
/// first zeroed one, if there is room for a request and a frame.
fn start_stored<T: StateCalls>(state: &mut T, key: Key) -> Start
    requires thread { is_thread (T.shown state.old).life.kind ≡ true }
    requires stored { is_stored ((T.shown state.old).life.stands key) ≡ true }
    ensures begun { (place : Place) → (T.shown state.old).life.valid place ≡ None
        → AccessBegun wanted.Touch key place result (T.shown state.old) (T.shown state.new) }
    ensures loans { T.loans state.new ≡ T.loans state.old }
{
    if !state.has_depth() {
        return Start::Pending(Why::Full);
    }
    if is_starved(state) {
        return Start::Pending(Why::Frame);
    }
    free_frame(state);
    state.start_read(key);
    Start::Pending(Why::Read)
}

/// The access of a page that is not valid at its place.
fn start_fault<T: StateCalls>(state: &mut T, key: Key, place: Place) -> Start
    requires thread { (T.shown state.old).life.kind ≡ kind.Thread place.pid }
    requires live { is_live (T.shown state.old).life key ≡ true }
    requires usable { MayUse key place (T.shown state.old) }
    requires free { (T.shown state.old).life.valid place ≡ None }
    ensures begun { AccessBegun wanted.Touch key place result (T.shown state.old)
        (T.shown state.new) }
    ensures loans { T.loans state.new ≡ T.loans state.old }
{
    match state.stands(key) {
        Held::Frame(f) => start_in_frame(state, key, f, place),
        Held::Zero => start_zero(state, key, place),
        _ => start_stored(state, key),
    }
}

/// The access of a page, which needs no device where it is valid already.
fn start_page<T: StateCalls>(state: &mut T, key: Key, place: Place) -> Start
    requires thread { (T.shown state.old).life.kind ≡ kind.Thread place.pid }
    requires live { is_live (T.shown state.old).life key ≡ true }
    requires usable { MayUse key place (T.shown state.old) }
    requires named { ((T.shown state.old).names place ≡ None)
        ⊎ ((T.shown state.old).names place ≡ Some key) }
    ensures begun { AccessBegun wanted.Touch key place result (T.shown state.old)
        (T.shown state.new) }
    ensures loans { T.loans state.new ≡ T.loans state.old }
{
    match state.valid(place) {
        Some(_) => Start::Ready,
        None => start_fault(state, key, place),
    }
}

/// For a copy there must be a frame, once its page is had.
fn with_frame<T: StateCalls>(state: &T, need: Need, began: Start) -> Start
    ensures { result ≡ answered need began (is_short (T.shown state.now).life) }
{
    match need {
        Need::Touch => began,
        Need::Copy => match began {
            Start::Ready => {
                if is_starved(state) {
                    return Start::Pending(Why::Frame);
                }
                Start::Ready
            }
            Start::Pending(_) => began,
        },
    }
}

/// The access of a page, or of a page that is to be copied.
pub(crate) fn start_key<T: StateCalls>(state: &mut T, place: Place, key: Key, need: Need) -> Start
    requires thread { (T.shown state.old).life.kind ≡ kind.Thread place.pid }
    requires live { is_live (T.shown state.old).life key ≡ true }
    requires usable { MayUse key place (T.shown state.old) }
    requires named { ((T.shown state.old).names place ≡ None)
        ⊎ ((T.shown state.old).names place ≡ Some key) }
    ensures begun { AccessBegun need key place result (T.shown state.old) (T.shown state.new) }
    ensures loans { T.loans state.new ≡ T.loans state.old }
{
    let page = start_page(state, key, place);
    with_frame(state, need, page)
}

/// The thread waits for a read of its page that is in flight, or for nothing.
pub(crate) fn set_wait<T: StateCalls>(state: &mut T, tid: Tid, key: Key, began: Start)
    requires reading { began ≡ start_of.Pending why.Read → IsBeingRead key (T.shown state.old) }
    requires own { (T.shown state.old).own ≡ None }
    ensures rest { T.shown state.new ≡ record (T.shown state.old) {
      waits = changed ◌==◌ (T.shown state.old).waits tid.0
          (wait_begun began ((T.shown state.old).life.stands key));
    } }
    ensures loans { T.loans state.new ≡ T.loans state.old }
{
    match began {
        Start::Pending(Why::Read) => match state.stands(key) {
            Held::Frame(f) => state.wait(tid, f),
            _ => unreachable!(),
        },
        Start::Pending(Why::Frame) => state.forget(tid),
        Start::Pending(Why::Full) => state.forget(tid),
        Start::Ready => state.forget(tid),
    }
}

/// What is ready, once an access has begun.
pub(crate) fn ready_for(began: Start, place: Place, key: Key, need: Need) -> Option<Wanted>
    ensures { ready_at result ≡ ready_after began need key place }
{
    match began {
        Start::Ready => Some(Wanted { place, key, need }),
        Start::Pending(_) => None,
    }
}
