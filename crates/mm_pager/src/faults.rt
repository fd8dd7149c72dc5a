ghost use Rattle.std.specs.Prelude.{◌≡◌, ◌≤◌, not, ◌&&◌, ◌||◌, true, false, None, Some, OnOk, IfOk, IfErr};
ghost use Rattle.mm_types.specs.declared.frames.Held.TheVariants as held;
ghost use Rattle.mm_move_rules.specs.{is_empty, record_at, is_write, is_again, has_request, is_live, set_of, is_access, is_touch, touches, is_zero};
ghost use Rattle.mm_move_rules.specs.{is_short, is_below_max};
ghost use Rattle.mm_store.specs.{Aim};
ghost use Rattle.mm_state_calls.specs.{Made, Searched};
ghost use Rattle.mm_types.specs.{Frame, Place};
ghost use Rattle.mm_frame_laws.specs.{IsSoiled};
ghost use Rattle.mm_types.specs.declared.moves.Move.TheVariants as move;
ghost use Rattle.mm_pager.specs.{Went, PutsFor, InQuietFrame, Soils, FindsNone, FreeNow, Readies, MayReadIn, MayUse, HasFullSet, MayFault, GivesFrame, Brings};
ghost use Rattle.mm_pager.specs.{FailsToBring, PutsAtPlace, Faulted, FaultsToWrite};

use mm_reclaim::{NoFrame, find_frame, is_starved};
use mm_state_calls::StateCalls;
use mm_types::{Frame, Held, Key, PageFault, Place, Record, Request};

/// Sees that there is a frame to be taken, beside a pinned one.
pub(crate) fn find<T: StateCalls>(state: &mut T, pinned: Option<Frame>) -> Result<(), PageFault>
    requires access { is_short (T.shown state.old).life ≡ true
        → is_access (T.shown state.old).life.kind ≡ true }
    requires shares { (f : Frame) → pinned ≡ Some f →
        1 ≤ (record_at (T.shown state.old).life.frames f.0).shares }
    requires own { (T.shown state.old).own ≡ None }
    ensures ok { OnOk result (Searched pinned true (T.shown state.old) (T.shown state.new)) }
    ensures err { IfErr result
        (λ e. FindsNone pinned e (T.shown state.old) (T.shown state.new)) }
    ensures loans { T.loans state.new ≡ T.loans state.old }
{
    state.sound();
    if !is_starved(state) {
        return Ok(());
    }
    match find_frame(state, pinned) {
        Ok(()) => Ok(()),
        Err(NoFrame) => Err(PageFault::NoFrame),
    }
}

/// Sees that a frame is free or zeroed: without one the first on standby is taken.
pub(crate) fn free_frame<T: StateCalls>(state: &mut T)
    requires touch { is_touch (T.shown state.old).life.kind ≡ true }
    requires some { is_short (T.shown state.old).life ≡ false }
    ensures frees { FreeNow (T.shown state.old) (T.shown state.new) }
    ensures some { is_empty (T.shown state.new).life.frames.zeroed ≡ true
        → is_empty (T.shown state.new).life.frames.free ≡ false }
    ensures loans { T.loans state.new ≡ T.loans state.old }
{
    if state.no_zeroed() {
        if state.no_free() {
            state.repurpose();
        }
    }
}

/// Sees that a frame is zeroed: without one the first that is free is cleared.
pub(crate) fn ready_frame<T: StateCalls>(state: &mut T)
    requires touch { is_touch (T.shown state.old).life.kind ≡ true }
    requires some { is_short (T.shown state.old).life ≡ false }
    ensures readies { Readies (T.shown state.old) (T.shown state.new) }
    ensures zeroed { is_empty (T.shown state.new).life.frames.zeroed ≡ false }
    ensures loans { T.loans state.new ≡ T.loans state.old }
{
    if !state.no_zeroed() {
        return;
    }
    free_frame(state);
    state.clear();
}

/// A demand-zero page gets a frame, where there is one.
pub(crate) fn assign<T: StateCalls>(state: &mut T, key: Key) -> Frame
    requires touch { is_touch (T.shown state.old).life.kind ≡ true }
    requires zero { is_zero ((T.shown state.old).life.stands key) ≡ true }
    requires some { is_short (T.shown state.old).life ≡ false }
    ensures gave { GivesFrame key result (T.shown state.old) (T.shown state.new) }
    ensures loans { T.loans state.new ≡ T.loans state.old }
{
    ready_frame(state);
    state.assign(key)
}

/// A page's frame, which is found where it has none.
fn bring<T: StateCalls>(state: &mut T, key: Key) -> Result<Frame, PageFault>
    requires access { is_access (T.shown state.old).life.kind ≡ true }
    requires live { is_live (T.shown state.old).life key ≡ true }
    requires own { (T.shown state.old).own ≡ None }
    requires aside { (T.shown state.old).aside ≡ None }
    ensures ok { IfOk result (λ f. Brings key f (T.shown state.old) (T.shown state.new)) }
    ensures err { IfErr result (λ e. FailsToBring key e (T.shown state.old) (T.shown state.new)) }
    ensures loans { T.loans state.new ≡ T.loans state.old }
{
    match state.stands(key) {
        Held::Frame(f) => settle(state, key, f),
        Held::Zero => bring_zero(state, key),
        _ => bring_stored(state, key),
    }
}

/// A frame that a page is in: where a read of it is in flight, that is completed.
fn settle<T: StateCalls>(state: &mut T, key: Key, f: Frame) -> Result<Frame, PageFault>
    requires access { is_access (T.shown state.old).life.kind ≡ true }
    requires stands { (T.shown state.old).life.stands key ≡ held.Frame f }
    requires own { (T.shown state.old).own ≡ None }
    ensures ok { IfOk result (λ g. Brings key g (T.shown state.old) (T.shown state.new)) }
    ensures err { IfErr result (λ e. FailsToBring key e (T.shown state.old) (T.shown state.new)) }
    ensures loans { T.loans state.new ≡ T.loans state.old }
{
    if state.look(f).request == Request::Read {
        if !state.end_read(f) {
            return Err(PageFault::Read);
        }
    }
    Ok(f)
}

/// A demand-zero page gets a frame that is found for it.
fn bring_zero<T: StateCalls>(state: &mut T, key: Key) -> Result<Frame, PageFault>
    requires access { is_access (T.shown state.old).life.kind ≡ true }
    requires zero { is_zero ((T.shown state.old).life.stands key) ≡ true }
    requires own { (T.shown state.old).own ≡ None }
    ensures ok { IfOk result (λ f. Brings key f (T.shown state.old) (T.shown state.new)) }
    ensures err { IfErr result (λ e. FailsToBring key e (T.shown state.old) (T.shown state.new)) }
    ensures loans { T.loans state.new ≡ T.loans state.old }
{
    find(state, None)?;
    Ok(assign(state, key))
}

/// A page on a device is read into a frame that is found for it: the first free one, or else the
/// first zeroed one.
fn bring_stored<T: StateCalls>(state: &mut T, key: Key) -> Result<Frame, PageFault>
    requires may { MayReadIn key (T.shown state.old) }
    ensures ok { IfOk result (λ f. Brings key f (T.shown state.old) (T.shown state.new)) }
    ensures err { IfErr result (λ e. FailsToBring key e (T.shown state.old) (T.shown state.new)) }
    ensures loans { T.loans state.new ≡ T.loans state.old }
{
    find(state, None)?;
    free_frame(state);
    let f = state.start_read(key);
    if state.end_read(f) {
        Ok(f)
    } else {
        Err(PageFault::Read)
    }
}

/// A page becomes valid at a place, in a set that is not full.
fn put_below<T: StateCalls>(state: &mut T, key: Key, f: Frame, place: Place)
    requires touch { touches place.pid.0 (T.shown state.old).life.kind ≡ true }
    requires frame { InQuietFrame key f (T.shown state.old) }
    requires usable { MayUse key place (T.shown state.old) }
    requires free { (T.shown state.old).life.valid place ≡ None }
    requires below { is_below_max (set_of (T.shown state.old).life place.pid.0) ≡ true }
    ensures made { Made (move.Map f place) (T.shown state.old) (T.shown state.new) }
    ensures puts { PutsAtPlace key f place (T.shown state.old) (T.shown state.new) }
    ensures loans { T.loans state.new ≡ T.loans state.old }
{
    state.map(f, place);
}

/// A page becomes valid at a place, in a full set: its oldest page goes right before.
fn put_full<T: StateCalls>(state: &mut T, key: Key, f: Frame, place: Place)
    requires touch { touches place.pid.0 (T.shown state.old).life.kind ≡ true }
    requires frame { InQuietFrame key f (T.shown state.old) }
    requires usable { MayUse key place (T.shown state.old) }
    requires free { (T.shown state.old).life.valid place ≡ None }
    requires set { HasFullSet (T.shown state.old).life place.pid.0 }
    ensures went { (a : Aim) → PutsFor a key place (T.shown state.old)
        → Went a 0 (T.shown state.old) (T.shown state.new) }
    ensures puts { PutsAtPlace key f place (T.shown state.old) (T.shown state.new) }
    ensures loans { T.loans state.new ≡ T.loans state.old }
{
    match state.oldest(place.pid, None) {
        Some(vpn) => {
            let old = Place {
                pid: place.pid,
                vpn,
            };
            state.unmap(old);
            put_below(state, key, f, place);
        }
        None => unreachable!(),
    }
}

/// A page becomes valid at a place.
pub(crate) fn put<T: StateCalls>(state: &mut T, key: Key, f: Frame, place: Place)
    requires touch { touches place.pid.0 (T.shown state.old).life.kind ≡ true }
    requires frame { InQuietFrame key f (T.shown state.old) }
    requires usable { MayUse key place (T.shown state.old) }
    requires free { (T.shown state.old).life.valid place ≡ None }
    ensures went { (a : Aim) → PutsFor a key place (T.shown state.old)
        → Went a 0 (T.shown state.old) (T.shown state.new) }
    ensures puts { PutsAtPlace key f place (T.shown state.old) (T.shown state.new) }
    ensures loans { T.loans state.new ≡ T.loans state.old }
{
    if state.is_full(place.pid) {
        put_full(state, key, f, place);
    } else {
        put_below(state, key, f, place);
    }
}

/// A page that is not valid at a place becomes so, in this frame.
pub(crate) fn fault<T: StateCalls>(
    state: &mut T,
    key: Key,
    place: Place,
) -> Result<Frame, PageFault>
    requires may { MayFault key place (T.shown state.old) }
    ensures ok { IfOk result (λ f. Faulted key f place (T.shown state.old) (T.shown state.new)) }
    ensures err { IfErr result (λ e. FailsToBring key e (T.shown state.old) (T.shown state.new)) }
    ensures loans { T.loans state.new ≡ T.loans state.old }
{
    let f = bring(state, key)?;
    put(state, key, f, place);
    Ok(f)
}

/// Whether a page that is valid must be soiled before it is written.
fn must_set_dirty(r: &Record) -> bool
    ensures { result ≡ ((not r.now.changed && not (has_request r.now.request)) ||
        (is_write r.now.request && not (is_again r.now.request))) }
{
    match r.request {
        Request::None => !r.changed,
        Request::Write => true,
        _ => false,
    }
}

/// A page that is valid can be written then: it is soiled, where it is not yet.
pub(crate) fn set_dirty<T: StateCalls>(state: &mut T, place: Place, f: Frame)
    requires touch { is_touch (T.shown state.old).life.kind ≡ true }
    requires valid { (T.shown state.old).life.valid place ≡ Some f }
    ensures soils { Soils f (T.shown state.old) (T.shown state.new) }
    ensures soiled { IsSoiled (record_at (T.shown state.new).life.frames f.0) }
    ensures loans { T.loans state.new ≡ T.loans state.old }
{
    let r = state.look(f);
    if must_set_dirty(&r) {
        state.set_dirty(f);
    }
}

/// A page that is not valid at a place becomes so, and can be written.
pub(crate) fn fault_to_write<T: StateCalls>(
    state: &mut T,
    key: Key,
    place: Place,
) -> Result<(), PageFault>
    requires may { MayFault key place (T.shown state.old) }
    ensures ok { OnOk result (FaultsToWrite key place (T.shown state.old) (T.shown state.new)) }
    ensures err { IfErr result (λ e. FailsToBring key e (T.shown state.old) (T.shown state.new)) }
    ensures loans { T.loans state.new ≡ T.loans state.old }
{
    let f = fault(state, key, place)?;
    set_dirty(state, place, f);
    Ok(())
}
