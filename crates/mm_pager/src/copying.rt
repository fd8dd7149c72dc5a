ghost use Rattle.std.specs.Prelude.{◌≡◌, ◌<◌, ◌⊎◌, true, false, None, Some, OnOk, OnErr, IfOk, IfErr};
ghost use Rattle.mm_types.specs.{limit_of};
ghost use Rattle.mm_types.specs.declared.moves.LineKind.TheVariants as kind;
ghost use Rattle.mm_move_rules.specs.{key_of_place, is_access, touches, shows_shared, is_short};
ghost use Rattle.mm_store.specs.{Aim};
ghost use Rattle.mm_pager.specs.{Went, InQuietFrame, FailsToBring, FindsNone, Readied, Pins, CopyMapped, MayHold, NeedsAccess, MayCopyHeld, MayCopy};
ghost use Rattle.mm_pager.specs.{CopyGiven, CopyPut, CopiesPage, FailsToCopyPage};

use crate::faults::{fault, find, ready_frame};
use mm_state_calls::StateCalls;
use mm_types::{Frame, Key, PageFault, Place};

/// The page to be copied is valid at the place, in this frame: a fault brings it where it is not.
fn hold_shared<T: StateCalls>(state: &mut T, place: Place, from: Key) -> Result<Frame, PageFault>
    requires access { (T.shown state.old).life.valid place ≡ None
        → (T.shown state.old).life.kind ≡ kind.Access place.pid }
    requires may { MayHold from place (T.shown state.old) }
    requires named { ((T.shown state.old).names place ≡ None)
        ⊎ ((T.shown state.old).names place ≡ Some from) }
    ensures readied { IfOk result
        (λ f. Readied from f place (T.shown state.old) (T.shown state.new)) }
    ensures err { IfErr result (λ e. FailsToBring from e (T.shown state.old) (T.shown state.new)) }
    ensures free { OnErr result ((T.shown state.old).life.valid place ≡ None) }
    ensures loans { T.loans state.new ≡ T.loans state.old }
{
    match state.valid(place) {
        Some(f) => Ok(f),
        None => fault(state, from, place),
    }
}

/// A frame is zeroed, then the place's own page comes to be beside the tables and gets it.
fn assign_copy<T: StateCalls>(state: &mut T, place: Place) -> Frame
    requires touch { touches place.pid.0 (T.shown state.old).life.kind ≡ true }
    requires may { MayCopy place (T.shown state.old) }
    requires some { is_short (T.shown state.old).life ≡ false }
    ensures gave { CopyGiven place result (T.shown state.old) (T.shown state.new) }
    ensures loans { T.loans state.new ≡ T.loans state.old }
{
    let own = Key::Private(place.pid, place.vpn);
    ready_frame(state);
    state.add_zero(own);
    state.assign(own)
}

/// The place's own page becomes valid there: the page that it is a copy of is so no more.
fn put_copy<T: StateCalls>(state: &mut T, place: Place, f: Frame)
    requires touch { touches place.pid.0 (T.shown state.old).life.kind ≡ true }
    requires frame { InQuietFrame (key_of_place place) f (T.shown state.old) }
    requires bound { (T.shown state.old).bound place ≡ true }
    requires shows { shows_shared (T.shown state.old).life place ≡ true }
    requires aside { (T.shown state.old).aside ≡ Some place }
    ensures put { CopyPut place f (T.shown state.old) (T.shown state.new) }
    ensures loans { T.loans state.new ≡ T.loans state.old }
{
    state.unmap(place);
    state.map(f, place);
}

/// The page in a frame, which is valid at the place, is copied to the place's own page, if there is
/// a frame for that.
fn copy_held<T: StateCalls>(
    state: &mut T,
    place: Place,
    from: Key,
    f: Frame,
) -> Result<(), PageFault>
    requires access { is_short (T.shown state.old).life ≡ true
        → is_access (T.shown state.old).life.kind ≡ true }
    requires touch { touches place.pid.0 (T.shown state.old).life.kind ≡ true }
    requires may { MayCopyHeld from f place (T.shown state.old) }
    ensures went { OnOk result ((a : Aim) → Pins a place f (T.shown state.old)
        → Went a 0 (T.shown state.old) (T.shown state.new)) }
    ensures copied { OnOk result (CopyMapped from place (T.shown state.old) (T.shown state.new)) }
    ensures err { IfErr result
        (λ e. FindsNone (Some f) e (T.shown state.old) (T.shown state.new)) }
    ensures loans { T.loans state.new ≡ T.loans state.old }
{
    find(state, Some(f))?;
    let own = assign_copy(state, place);
    put_copy(state, place, own);
    state.copy(f, own);
    Ok(())
}

/// A page is copied to the place's own.
pub(crate) fn copy_page<T: StateCalls>(
    state: &mut T,
    place: Place,
    from: Key,
) -> Result<(), PageFault>
    requires needs { NeedsAccess place (T.shown state.old) }
    requires touch { touches place.pid.0 (T.shown state.old).life.kind ≡ true }
    requires may { MayHold from place (T.shown state.old) }
    requires named { ((T.shown state.old).names place ≡ None)
        ⊎ ((T.shown state.old).names place ≡ Some from) }
    requires room { (T.shown state.old).life.paging_keys
        < limit_of (T.shown state.old).life.machine }
    ensures ok { OnOk result (CopiesPage from place (T.shown state.old) (T.shown state.new)) }
    ensures err { IfErr result
        (λ e. FailsToCopyPage from place e (T.shown state.old) (T.shown state.new)) }
    ensures loans { T.loans state.new ≡ T.loans state.old }
{
    let f = hold_shared(state, place, from)?;
    copy_held(state, place, from, f)
}
