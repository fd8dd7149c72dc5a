ghost use Rattle.std.specs.Prelude.{◌≡◌, ◌<◌, ℕ, true, Some, IsSome, length, map, slice_set};
ghost use Rattle.std.specs.Bool.{OnTrue, OnFalse};
ghost use Rattle.mm_types.specs.declared.devices.Direction.TheVariants as way;
ghost use Rattle.mm_types.specs.declared.moves.Move.TheVariants as move;
ghost use Rattle.mm_move_rules.specs.{slot_of, home_at, bytes_at, IsLegal};
ghost use Rattle.mm_move_laws.specs.{is_backed, block_of};
ghost use Rattle.mm_devices.specs.{is_next_named, Serves, device_with};
ghost use Rattle.mm_frame_laws.specs.{slots_written, blocks_written};
ghost use Rattle.mm_state_calls.specs.{CalledFor, written_if};
ghost use Rattle.mm_requests.specs.{ended};
ghost use Rattle.mm_parts.specs.PartsShown as parts_of;
ghost use Rattle.mm_parts.specs.{parts_after, own_ended, end_of_read};
ghost use Rattle.mm_state.specs.{filled_if};
ghost use Rattle.std.specs.Prelude.{[]};

use crate::on_parts::read_from;
use mm_devices::Inject;
use mm_parts::Parts;
use mm_types::{Backing, Failed, Frame};

/// One write of a device: true where it succeeded.
pub(crate) fn write_device<B: Inject>(device: &mut B, block: u32, page: &[u8; 4096]) -> bool
    requires { block < length (B.blocks device.old) }
    ensures ok { OnTrue result
        (B.blocks device.new ≡ slice_set (B.blocks device.old) block page.now) }
    ensures err { OnFalse result (B.blocks device.new ≡ B.blocks device.old) }
    ensures served { Serves (record {
      way = way.Write;
      block = block;
      succeeded = result;
      named = is_next_named way.Write (B.named device.old);
    })
        (device_with (B.log device.old) (B.named device.old) (B.faults device.old))
        (device_with (B.log device.new) (B.named device.new) (B.faults device.new)) }
    ensures loans { B.loans device.new ≡ B.loans device.old }
{
    match device.write(block, page) {
        Ok(()) => true,
        Err(Failed) => false,
    }
}

/// A page is read from where its frame is backed, and the read ends: true where the device call
/// succeeded.
pub(crate) fn read_page<P: Inject, F: Inject>(
    parts: &mut Parts,
    paging: &mut P,
    files: &mut F,
    f: Frame,
    home: Backing,
) -> bool
    requires legal { IsLegal (move.Got f) (parts_of.shown_parts parts.old).life }
    requires backed { is_backed home ≡ true }
    requires there { ((s : ℕ) → slot_of home ≡ Some s → s < length (P.blocks paging.old))
        × ((b : ℕ) → block_of home ≡ Some b → b < length (F.blocks files.old)) }
    ensures shown { parts_of.shown_parts parts.new ≡ record
        (parts_after (parts_of.shown_parts parts.old) (end_of_read result f)) {
          bytes = filled_if result f.0
              (bytes_at [] (P.blocks paging.old) (F.blocks files.old) (home_at home))
              (parts_of.shown_parts parts.old).bytes;
          waits = map (ended f.0 result) (parts_of.shown_parts parts.old).waits;
          own = own_ended (parts_of.shown_parts parts.old).own f.0;
        } }
    ensures page { IsSome
        (bytes_at [] (P.blocks paging.old) (F.blocks files.old) (home_at home)) }
    ensures blocks { (P.blocks paging.new ≡ P.blocks paging.old)
        × (F.blocks files.new ≡ F.blocks files.old) }
    ensures called { CalledFor way.Read home result
        (device_with (P.log paging.old) (P.named paging.old) (P.faults paging.old))
        (device_with (F.log files.old) (F.named files.old) (F.faults files.old))
        (device_with (P.log paging.new) (P.named paging.new) (P.faults paging.new))
        (device_with (F.log files.new) (F.named files.new) (F.faults files.new)) }
    ensures loans { (P.loans paging.new ≡ P.loans paging.old)
        × (F.loans files.new ≡ F.loans files.old) }
{
    match home {
        Backing::Slot(s) => read_from(parts, f, paging, s.0),
        Backing::Block(b) => read_from(parts, f, files, b.0),
        Backing::None => unreachable!(),
    }
}

/// Writes a page to where a frame is backed: true where the device call succeeded.
pub(crate) fn put_page<P: Inject, F: Inject>(
    paging: &mut P,
    files: &mut F,
    home: Backing,
    page: &[u8; 4096],
) -> bool
    requires backed { is_backed home ≡ true }
    requires slot { (s : ℕ) → slot_of home ≡ Some s → s < length (P.blocks paging.old) }
    requires block { (b : ℕ) → block_of home ≡ Some b → b < length (F.blocks files.old) }
    ensures slots { P.blocks paging.new
        ≡ written_if result (slots_written home page.now) (P.blocks paging.old) }
    ensures blocks { F.blocks files.new
        ≡ written_if result (blocks_written home page.now) (F.blocks files.old) }
    ensures called { CalledFor way.Write home result
        (device_with (P.log paging.old) (P.named paging.old) (P.faults paging.old))
        (device_with (F.log files.old) (F.named files.old) (F.faults files.old))
        (device_with (P.log paging.new) (P.named paging.new) (P.faults paging.new))
        (device_with (F.log files.new) (F.named files.new) (F.faults files.new)) }
    ensures loans { (P.loans paging.new ≡ P.loans paging.old)
        × (F.loans files.new ≡ F.loans files.old) }
{
    match home {
        Backing::Slot(s) => write_device(paging, s.0, page),
        Backing::Block(b) => write_device(files, b.0, page),
        Backing::None => unreachable!(),
    }
}
