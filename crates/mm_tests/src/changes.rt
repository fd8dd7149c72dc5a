ghost use Rattle.std.specs.Prelude.{◌≡◌, false, IsSome, IfSome};
ghost use Rattle.std.specs.Bool.{OnTrue};
ghost use Rattle.mm_move_rules.specs.{record_at};
ghost use Rattle.mm_world.specs.{Tables};
ghost use Rattle.mm_frame_laws.specs.{IsSoiled};
ghost use Rattle.mm_state.specs.{shown_state};
ghost use Rattle.mm_pager.specs.Store as paged;
ghost use Rattle.mm_object_tables.specs.{FitsTables};
ghost use Rattle.mm_dispatch.specs.{line_number};
ghost use Rattle.mm_tests.specs.Behind.{BytesChanged, NoneBacked};

use crate::behind::{write_block, write_frame, write_slot};
use mm_devices::Inject;
use mm_dispatch::World;
use mm_log_writer::Moves;
use mm_pager::Pager;
use mm_state::State;
use mm_state_calls::StateCalls;
use mm_types::{Backing, Block, Frame, Request, Slot};

/// What is changed behind a layer: the first byte of frame 0, or all bytes of slot 0 or block 0.
#[derive(Clone, Copy)]
pub(crate) enum Change {
    Frame,
    Slot,
    Block,
}

/// The byte that stands there then.
const BYTE: u8 = 0x77;

/// Frame 0, where it holds a modified page that is in no request.
fn soiled_frame<T: StateCalls>(state: &T) -> Option<Frame>
    ensures owned { IfSome result
        (λ f. IsSome (record_at (T.shown state.now).life.frames f.0).owner) }
    ensures soiled { IfSome result (λ f. IsSoiled (record_at (T.shown state.now).life.frames f.0)) }
{
    let f = Frame(0);
    if f.0 >= state.machine().frames() {
        return None;
    }
    let r = state.look(f);
    match (r.owner, r.changed, r.request) {
        (Some(_), true, Request::None) => Some(f),
        _ => None,
    }
}

/// Whether no frame has a slot or a block behind it.
fn none_backed<T: StateCalls>(state: &T) -> bool
    ensures { OnTrue result (NoneBacked (T.shown state.now).life) }
{
    for f in 0..state.machine().frames() {
        match state.look(Frame(f)).backing {
            Backing::None => {}
            _ => return false,
        }
    }
    true
}

/// Frame 0 is changed behind the state. False where it holds no modified page.
#[tactic(auto, using(crate::proofs::Changed::nothing_changed))]
fn change_frame<P: Inject, F: Inject, M: Moves>(state: &mut State<P, F, M>) -> bool
    ensures { BytesChanged (shown_state state.old) (shown_state state.new) }
{
    match soiled_frame(state) {
        Some(f) => {
            write_frame(state, f, &[BYTE]);
            true
        }
        None => false,
    }
}

/// Slot 0 is changed behind the state. False where a frame is backed, or the device failed.
#[tactic(auto, using(crate::proofs::Changed::nothing_changed))]
fn change_slot<P: Inject, F: Inject, M: Moves>(state: &mut State<P, F, M>) -> bool
    ensures { BytesChanged (shown_state state.old) (shown_state state.new) }
{
    if state.machine().slots() == 0 {
        return false;
    }
    if !none_backed(state) {
        return false;
    }
    write_slot(state, Slot(0), BYTE)
}

/// Block 0 is changed behind the state. False where a frame is backed, or the device failed.
#[tactic(auto, using(crate::proofs::Changed::nothing_changed))]
fn change_block<P: Inject, F: Inject, M: Moves>(state: &mut State<P, F, M>) -> bool
    ensures { BytesChanged (shown_state state.old) (shown_state state.new) }
{
    if state.machine().blocks() == 0 {
        return false;
    }
    if !none_backed(state) {
        return false;
    }
    write_block(state, Block(0), BYTE)
}

/// The change behind the state. False where it could not be made.
fn change_state<P: Inject, F: Inject, M: Moves>(state: &mut State<P, F, M>, change: Change) -> bool
    ensures { BytesChanged (shown_state state.old) (shown_state state.new) }
{
    match change {
        Change::Frame => change_frame(state),
        Change::Slot => change_slot(state),
        Change::Block => change_block(state),
    }
}

/// The same behind the store.
fn change_store<P: Inject, F: Inject, M: Moves>(
    store: &mut Pager<State<P, F, M>>,
    change: Change,
) -> bool
    ensures fits { (t : Tables) → FitsTables t (paged.contents store.old) (paged.store store.old)
        → FitsTables t (paged.contents store.new) (paged.store store.new) }
    ensures line { (paged.store store.new).line ≡ (paged.store store.old).line }
{
    change_state(&mut store.state, change)
}

/// The same behind a world.
pub(crate) fn change_world<P: Inject, F: Inject, M: Moves>(
    world: &mut World<Pager<State<P, F, M>>>,
    change: Change,
) -> bool
    requires ready { world.old.spent ≡ false }
    ensures line { line_number world.new ≡ line_number world.old }
    ensures ready { world.new.spent ≡ false }
{
    change_store(&mut world.pages, change)
}
