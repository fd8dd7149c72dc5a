ghost use Rattle.std.specs.Prelude.{◌≡◌, ◌≤◌, ◌<◌, true, false, None};
ghost use Rattle.mm_types.specs.declared.moves.LineKind.TheVariants as kind;
ghost use Rattle.mm_move_rules.specs.{record_at, is_read, has_request, ending};
ghost use Rattle.mm_state_calls.specs.{Made, moved_with_call};
ghost use Rattle.mm_pager.specs.{EndsAs};

use mm_state_calls::StateCalls;
use mm_store::Done;
use mm_types::{Frame, Record, Request};

/// Whether the request of a frame is a read.
pub(crate) fn is_reading(r: &Record) -> bool
    ensures { result ≡ is_read r.now.request }
{
    match r.request {
        Request::Read => true,
        _ => false,
    }
}

/// The request of a frame ends: its device is called. True where the call succeeded.
fn end_request<T: StateCalls>(state: &mut T, f: Frame) -> bool
    requires io { (T.shown state.old).life.kind ≡ kind.Io }
    requires request { has_request (record_at (T.shown state.old).life.frames f.0).request ≡ true }
    requires low { f.0 < (T.shown state.old).life.machine.frames }
    requires own { (T.shown state.old).own ≡ None }
    ensures made { Made (ending (record_at (T.shown state.old).life.frames f.0) f result)
        (T.shown state.old) (T.shown state.new) }
    ensures same { (T.shown state.new) ≡ moved_with_call (T.shown state.old) (T.shown state.new) }
    ensures loans { T.loans state.new ≡ T.loans state.old }
{
    let r = state.look(f);
    if is_reading(&r) {
        return state.end_read(f);
    }
    state.end_write(f)
}

/// The i-th oldest request, counted from 1, ends, if there are so many.
pub(crate) fn complete_request<T: StateCalls>(state: &mut T, i: u32) -> Done
    requires some { 1 ≤ i }
    requires io { (T.shown state.old).life.kind ≡ kind.Io }
    requires own { (T.shown state.old).own ≡ None }
    ensures ends { EndsAs i result (T.shown state.old) (T.shown state.new) }
    ensures loans { T.loans state.new ≡ T.loans state.old }
{
    match state.nth(i) {
        None => Done::None,
        Some(f) => {
            if end_request(state, f) {
                return Done::Ok;
            }
            Done::Failed
        }
    }
}
