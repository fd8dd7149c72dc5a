ghost use Rattle.std.specs.Prelude.{◌≡◌, ◌≤◌, ◌<◌, ◌+◌, ◌-◌, ◌^◌, ℕ, Bool, true, None, Some};
ghost use Rattle.mm_types.specs.declared.numbers.Key.TheVariants.{Private};
ghost use Rattle.mm_types.specs.{Place};
ghost use Rattle.mm_store.specs.{AreAmong, place_at};
ghost use Rattle.mm_store.specs.Leaving.{Leaving};
ghost use Rattle.mm_pager.specs.{LetGo, LetsGo, MayLetGo, MayLetOwnGo, NextGone, OwnLetGo, Thins};

use mm_state_calls::StateCalls;
use mm_types::{Key, Pid, Place, Vpn};

/// A bound place is valid no more.
fn let_go<T: StateCalls>(state: &mut T, place: Place)
    requires bound { (T.shown state.old).bound place ≡ true }
    requires may { MayLetGo place (T.shown state.old) }
    ensures gone { LetGo place (T.shown state.old) (T.shown state.new) }
    ensures loans { T.loans state.new ≡ T.loans state.old }
{
    match state.valid(place) {
        Some(_) => state.unmap(place),
        None => (),
    }
}

/// The own place of a private key is valid no more.
pub(crate) fn let_own_go<T: StateCalls>(state: &mut T, key: Key)
    requires may { MayLetOwnGo key (T.shown state.old) }
    ensures gone { OwnLetGo key (T.shown state.old) (T.shown state.new) }
    ensures loans { T.loans state.new ≡ T.loans state.old }
{
    match key {
        Key::Private(pid, vpn) => let_go(state, Place { pid, vpn }),
        Key::Shared(_, _) => (),
    }
}

/// The lowest valid page of an open process from `from` up to `end` is valid no more. Answers the
/// page after it; or `end`, where none is valid.
fn let_next_go<T: StateCalls>(state: &mut T, pid: Pid, from: u32, end: u32) -> u32
    requires some { from < end }
    requires open { (T.shown state.old).is_open pid.0 ≡ true }
    requires may { (page : ℕ) → from ≤ page → page < end
        → MayLetGo (place_at pid page) (T.shown state.old) }
    ensures gone { NextGone pid from end result (T.shown state.old) (T.shown state.new) }
    ensures loans { T.loans state.new ≡ T.loans state.old }
{
    match state.next_valid(pid, Vpn(from)) {
        None => end,
        Some(vpn) => {
            if vpn.0 < end {
                state.unmap(Place { pid, vpn });
                vpn.0 + 1
            } else {
                end
            }
        }
    }
}

/// The pages of an open process in a range are valid no more, in rising order. Only those that are
/// valid are gone through.
pub(crate) fn let_all_go<T: StateCalls>(state: &mut T, pid: Pid, first: Vpn, n: u32)
    requires open { (T.shown state.old).is_open pid.0 ≡ true }
    requires may { (page : ℕ) → first.0 ≤ page → page < first.0 + n
        → MayLetGo (place_at pid page) (T.shown state.old) }
    requires low { first.0 + n < 2 ^ 32 }
    ensures went { (held : Leaving) (from to : ℕ)
        → AreAmong held from to pid (record { first = first.0; count = n })
        → LetsGo held from to (T.shown state.old) (T.shown state.new) }
    ensures thins { Thins (T.shown state.old) (T.shown state.new) }
    ensures invalid { (page : ℕ) → first.0 ≤ page → page < first.0 + n
        → (T.shown state.new).life.valid (place_at pid page) ≡ None }
    ensures loans { T.loans state.new ≡ T.loans state.old }
{
    let mut from = first.0;
    while from < first.0 + n {
        from = let_next_go(state, pid, from, first.0 + n);
    }
}
