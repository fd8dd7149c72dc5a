ghost use Rattle.std.specs.Prelude.{◌≡◌, ◌≤◌, ◌<◌, false, length, map, slice_get};
ghost use Rattle.std.specs.Bool.{OnTrue};
ghost use Rattle.mm_move_rules.specs.{is_empty, IsLegal};
ghost use Rattle.mm_requests.specs.{ended};
ghost use Rattle.mm_parts.specs.PartsShown as parts_of;
ghost use Rattle.mm_parts.specs.{parts_after, front, own_ended, end_of_read, write_end};
ghost use Rattle.mm_devices.specs.{WasRead};
ghost use Rattle.mm_types.specs.declared.moves.Move.TheVariants as move;
ghost use Rattle.mm_state.specs.{filled_if};

use mm_devices::Inject;
use mm_parts::Parts;
use mm_types::{Failed, Frame, Move, NoMemory};

/// Takes the memory for further slots, if it is there. Nothing changes but how many can be added.
pub(crate) fn reserve(parts: &mut Parts, n: u32) -> bool
    ensures shown { parts_of.shown_parts parts.new ≡ parts_of.shown_parts parts.old }
    ensures spare { OnTrue result (n ≤ parts_of.spare_slots parts.new) }
{
    match parts.reserve_slots(n) {
        Ok(()) => true,
        Err(NoMemory) => false,
    }
}

/// The first free frame, where there is one.
pub(crate) fn first_free(parts: &Parts) -> Frame
    requires { is_empty (parts_of.shown_parts parts.now).life.frames.free ≡ false }
    ensures { result ≡ front (parts_of.shown_parts parts.now).life.frames.free }
{
    match parts.front_free() {
        Some(f) => f,
        None => unreachable!(),
    }
}

/// The first frame on standby, where there is one.
pub(crate) fn first_standby(parts: &Parts) -> Frame
    requires { is_empty (parts_of.shown_parts parts.now).life.frames.standby ≡ false }
    ensures { result ≡ front (parts_of.shown_parts parts.now).life.frames.standby }
{
    match parts.front_standby() {
        Some(f) => f,
        None => unreachable!(),
    }
}

/// The move with which a read ends.
pub(crate) fn read_move(f: Frame, ok: bool) -> Move
    ensures { result ≡ end_of_read ok f }
{
    if ok { Move::Got(f) } else { Move::Bad(f) }
}

/// The move with which a write ends.
pub(crate) fn write_move(f: Frame, ok: bool) -> Move
    ensures { result ≡ write_end ok f }
{
    if ok { Move::Wrote(f) } else { Move::Lost(f) }
}

/// A page is read from a block of a device into its frame, and the read ends: true where the device
/// call succeeded.
pub(crate) fn read_from<B: Inject>(parts: &mut Parts, f: Frame, device: &mut B, block: u32) -> bool
    requires legal { IsLegal (move.Got f) (parts_of.shown_parts parts.old).life }
    requires block { block < length (B.blocks device.old) }
    ensures shown { parts_of.shown_parts parts.new ≡ record
        (parts_after (parts_of.shown_parts parts.old) (end_of_read result f)) {
          bytes = filled_if result f.0 (slice_get (B.blocks device.old) block)
              (parts_of.shown_parts parts.old).bytes;
          waits = map (ended f.0 result) (parts_of.shown_parts parts.old).waits;
          own = own_ended (parts_of.shown_parts parts.old).own f.0;
        } }
    ensures read { WasRead B.Inject block result device.old device.new }
{
    match parts.fill_from(f, device, block) {
        Ok(()) => {
            parts.end_read(f, true);
            true
        }
        Err(Failed) => {
            parts.end_read(f, false);
            false
        }
    }
}
