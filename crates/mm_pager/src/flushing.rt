ghost use Rattle.std.specs.Prelude.{◌≡◌, ◌<◌, false, Some, None, IsSome, is_ok};
ghost use Rattle.mm_types.specs.declared.frames.Backing.TheVariants as backing;
ghost use Rattle.mm_types.specs.declared.moves.LineKind.TheVariants as kind;
ghost use Rattle.mm_types.specs.{Block};
ghost use Rattle.mm_move_rules.specs.{record_at, is_write};
ghost use Rattle.mm_store.specs.{wrote, backed_by, block_at};
ghost use Rattle.mm_state_calls.specs.{backing_of_frame};
ghost use Rattle.mm_pager.specs.{HoldsFilePage, EndsFlight, WritesChanged, FlushesFrame, FlushedOnePage};

use mm_state_calls::StateCalls;
use mm_types::{Frame, Held, Key, Record, Request, WriteFault};

/// Whether the request of a frame is a write.
fn is_writing(r: &Record) -> bool
    ensures { result ≡ is_write r.now.request }
{
    match r.request {
        Request::Write | Request::WriteAgain => true,
        _ => false,
    }
}

/// A write of a page's frame that is in flight ends. False where it failed.
fn end_flight<T: StateCalls>(state: &mut T, f: Frame) -> bool
    requires kind { (T.shown state.old).life.kind ≡ kind.Call }
    requires filed { HoldsFilePage f (T.shown state.old) }
    requires own { (T.shown state.old).own ≡ None }
    ensures ended { (b : Block) → backing_of_frame (T.shown state.old) f ≡ backing.Block b
        → EndsFlight b f result (T.shown state.old) (T.shown state.new) }
    ensures loans { T.loans state.new ≡ T.loans state.old }
{
    let r = state.look(f);
    if !is_writing(&r) {
        return true;
    }
    state.end_write(f)
}

/// A page that is changed, and not being written, is written. False where that failed.
fn write_changed<T: StateCalls>(state: &mut T, f: Frame) -> bool
    requires kind { (T.shown state.old).life.kind ≡ kind.Call }
    requires filed { HoldsFilePage f (T.shown state.old) }
    requires still { is_write (record_at (T.shown state.old).life.frames f.0).request ≡ false }
    requires own { (T.shown state.old).own ≡ None }
    ensures wrote { (b : Block) → backing_of_frame (T.shown state.old) f ≡ backing.Block b
        → WritesChanged b f result (T.shown state.old) (T.shown state.new) }
    ensures loans { T.loans state.new ≡ T.loans state.old }
{
    let changed = state.look(f).changed;
    if !changed {
        return true;
    }
    state.start_write(f);
    state.end_write(f)
}

/// The page of a frame is in its block then, unless a write failed.
fn flush_frame<T: StateCalls>(state: &mut T, f: Frame) -> Result<(), WriteFault>
    requires kind { (T.shown state.old).life.kind ≡ kind.Call }
    requires filed { HoldsFilePage f (T.shown state.old) }
    requires own { (T.shown state.old).own ≡ None }
    ensures flushed { (b : Block) → backing_of_frame (T.shown state.old) f ≡ backing.Block b
        → FlushesFrame b f (is_ok result) (T.shown state.old) (T.shown state.new) }
    ensures loans { T.loans state.new ≡ T.loans state.old }
{
    if !end_flight(state, f) {
        return Err(WriteFault);
    }
    if !write_changed(state, f) {
        return Err(WriteFault);
    }
    Ok(())
}

/// A page of a file is in its block then, unless a write failed. Where it is in no frame it is
/// there already.
pub(crate) fn flush_page<T: StateCalls>(state: &mut T, key: Key) -> Result<(), WriteFault>
    requires kind { (T.shown state.old).life.kind ≡ kind.Call }
    requires filed { IsSome (block_at (backed_by
        (T.shown state.old).life ((T.shown state.old).life.stands key))) }
    requires own { (T.shown state.old).own ≡ None }
    ensures flushed { (b : Block) → block_at (backed_by
        (T.shown state.old).life ((T.shown state.old).life.stands key)) ≡ Some b.0
        → FlushedOnePage key b (is_ok result) (T.shown state.old) (T.shown state.new) }
    ensures loans { T.loans state.new ≡ T.loans state.old }
{
    match state.stands(key) {
        Held::Frame(f) => flush_frame(state, f),
        _ => Ok(()),
    }
}
