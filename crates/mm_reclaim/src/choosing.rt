ghost use Rattle.std.specs.Prelude.{◌≡◌, ◌+◌, ℕ, true, false, Some, None, MatchOption};
ghost use Rattle.std.specs.Option.{ForSome};
ghost use Rattle.mm_types.specs.{Place};
ghost use Rattle.mm_move_rules.specs.{may_go as goes, IsOldest, IsVictim};
ghost use Rattle.mm_frame_laws.specs.{NoneMayGo, takes_over as takes, BestBelow};
ghost use Rattle.mm_reclaim.specs.{NoneIn};

use mm_state_calls::StateCalls;
use mm_types::{Frame, Pid, Place, Vpn};

/// Whether the page at a bound place may go: it is valid there, in a frame that is not pinned.
fn may_go<T: StateCalls>(state: &T, pinned: Option<Frame>, place: Place) -> bool
    requires { (T.shown state.now).bound place ≡ true }
    ensures { result ≡ goes (T.shown state.now).life pinned place }
{
    match state.valid(place) {
        None => false,
        Some(f) => match pinned {
            None => true,
            Some(g) => f.0 != g.0,
        },
    }
}

/// The oldest page of an open process that may go.
fn oldest_to_go<T: StateCalls>(state: &T, pinned: Option<Frame>, pid: Pid) -> Option<Place>
    requires { (T.shown state.now).is_open pid.0 ≡ true }
    ensures oldest { MatchOption result (NoneIn (T.shown state.now).life pinned pid.0)
        (λ v. IsOldest (T.shown state.now).life (T.shown state.now).ages pinned v) }
    ensures of { ForSome result (λ v. v.pid ≡ pid) }
{
    let mut after = None;
    'pages: loop {
        match state.oldest(pid, after) {
            None => return None,
            Some(v) => {
                let place = Place { pid, vpn: v };
                if may_go(state, pinned, place) {
                    return Some(place);
                }
                after = Some(v);
            }
        }
    }
}

/// Whether a process whose page may go takes over from the best so far.
#[tactic(auto, using(crate::proofs::ChoreMoves::has_set))]
fn takes_over<T: StateCalls>(state: &T, pid: Pid, best: Option<Place>) -> bool
    requires open { (T.shown state.now).is_open pid.0 ≡ true }
    requires best { ForSome best (λ v. (T.shown state.now).is_open v.pid.0 ≡ true) }
    ensures { result ≡ takes (T.shown state.now).life pid.0 best }
{
    match best {
        None => true,
        Some(v) => state.is_above_min(pid) && !state.is_above_min(v.pid),
    }
}

/// The first page to go of the processes up to a pid, from that of those below it. A process that
/// cannot take over is not looked through.
fn better<T: StateCalls>(
    state: &T,
    pinned: Option<Frame>,
    pid: Pid,
    best: Option<Place>,
) -> Option<Place>
    requires below { BestBelow (T.shown state.now).life (T.shown state.now).ages pinned pid.0 best }
    requires open { ForSome best (λ v. (T.shown state.now).is_open v.pid.0 ≡ true) }
    ensures below { BestBelow (T.shown state.now).life (T.shown state.now).ages pinned (pid.0 + 1)
        result }
    ensures open { ForSome result (λ v. (T.shown state.now).is_open v.pid.0 ≡ true) }
{
    if !state.is_open(pid) {
        return best;
    }
    if !takes_over(state, pid, best) {
        return best;
    }
    match oldest_to_go(state, pinned, pid) {
        None => best,
        Some(place) => Some(place),
    }
}

/// Whether no later process takes over from the best so far: its process is above its minimum.
#[tactic(auto, using(crate::proofs::ChoreMoves::has_set, crate::proofs::ChoreMoves::settled))]
fn is_settled<T: StateCalls>(state: &T, best: Option<Place>) -> bool
    requires open { ForSome best (λ v. (T.shown state.now).is_open v.pid.0 ≡ true) }
    ensures { result ≡ true → (n : ℕ) → takes (T.shown state.now).life n best ≡ false }
{
    match best {
        None => false,
        Some(v) => state.is_above_min(v.pid),
    }
}

/// The page that a search unmaps: the oldest that may go in the first process that holds one, those
/// above their minimum first, then the lowest pid. None exactly where no page may go.
#[tactic(auto, using(crate::proofs::ChoreMoves::begins))]
pub fn victim<T: StateCalls>(state: &T, pinned: Option<Frame>) -> Option<Place>
    ensures { MatchOption result (NoneMayGo (T.shown state.now).life pinned)
        (λ v. IsVictim (T.shown state.now).life (T.shown state.now).ages pinned v) }
{
    let mut best = None;
    for n in 1..65 {
        best = better(state, pinned, Pid(n), best);
        if is_settled(state, best) {
            return best;
        }
    }
    best
}
