ghost use Rattle.std.specs.Prelude.{◌≡◌, ◌≤◌, ◌<◌, false, length, IsSome, slice_set};
ghost use Rattle.std.specs.Bool.{OnTrue, OnFalse};
ghost use Rattle.mm_types.specs.declared.devices.Direction.TheVariants as way;
ghost use Rattle.mm_devices.specs.{is_next_named, Serves, device_with};
ghost use Rattle.mm_move_rules.specs.{record_at, is_read};
ghost use Rattle.mm_ram.specs.{bytes_of, overwritten, with_page};
ghost use Rattle.mm_frame_laws.specs.{IsSoiled};
ghost use Rattle.mm_parts.specs.PartsShown as parts_of;
ghost use Rattle.mm_state.specs.{shown_state};
ghost use Rattle.mm_tests.specs.{BytesChanged, NoneBacked};

use mm_devices::Inject;
use mm_log_writer::Moves;
use mm_parts::Parts;
use mm_state::State;
use mm_types::{Block, Failed, Frame, Slot};

/// One write of a device: true where it succeeded.
fn write_device<B: Inject>(device: &mut B, block: u32, page: &[u8; 4096]) -> bool
    requires { block < length (B.blocks device.old) }
    ensures ok { OnTrue result
        (B.blocks device.new ≡ slice_set (B.blocks device.old) block page.now) }
    ensures err { OnFalse result (B.blocks device.new ≡ B.blocks device.old) }
    ensures served { Serves (record {
      way = way.Write;
      block = block;
      succeeded = result;
      named = is_next_named way.Write (B.named device.old);
    })
        (device_with (B.log device.old) (B.named device.old) (B.faults device.old))
        (device_with (B.log device.new) (B.named device.new) (B.faults device.new)) }
{
    match device.write(block, page) {
        Ok(()) => true,
        Err(Failed) => false,
    }
}

/// The first bytes of a frame that has an owner are changed behind the parts.
fn write_in_parts(parts: &mut Parts, f: Frame, bytes: &[u8])
    requires owned { IsSome (record_at (parts_of.shown_parts parts.old).life.frames f.0).owner }
    requires calm { is_read (record_at (parts_of.shown_parts parts.old).life.frames f.0).request
        ≡ false }
    requires inside { length bytes.now ≤ 4096 }
    ensures made { parts_of.shown_parts parts.new ≡ record (parts_of.shown_parts parts.old) {
      bytes = with_page (parts_of.shown_parts parts.old).bytes f.0
          (overwritten (bytes_of (parts_of.shown_parts parts.old).bytes f.0) 0 bytes.now);
    } }
{
    parts.frames.write(f, 0, bytes);
}

/// The first bytes of a modified page that is in no request are changed behind the state, in its
/// frame.
pub(crate) fn write_frame<P: Inject, F: Inject, M: Moves>(
    state: &mut State<P, F, M>,
    f: Frame,
    bytes: &[u8],
)
    requires owned { IsSome (record_at (shown_state state.old).life.frames f.0).owner }
    requires soiled { IsSoiled (record_at (shown_state state.old).life.frames f.0) }
    requires inside { length bytes.now ≤ 4096 }
    ensures { BytesChanged (shown_state state.old) (shown_state state.new) }
{
    write_in_parts(&mut state.parts, f, bytes);
}

/// A slot is written behind the state, while no frame is backed. False where the device failed.
pub(crate) fn write_slot<P: Inject, F: Inject, M: Moves>(
    state: &mut State<P, F, M>,
    s: Slot,
    byte: u8,
) -> bool
    requires there { s.0 < (shown_state state.old).life.machine.slots }
    requires none { NoneBacked (shown_state state.old).life }
    ensures { BytesChanged (shown_state state.old) (shown_state state.new) }
{
    let page = [byte; 4096];
    write_device(&mut state.paging, s.0, &page)
}

/// A block is written behind the state, while no frame is backed. False where the device failed.
pub(crate) fn write_block<P: Inject, F: Inject, M: Moves>(
    state: &mut State<P, F, M>,
    b: Block,
    byte: u8,
) -> bool
    requires there { b.0 < (shown_state state.old).life.machine.blocks }
    requires none { NoneBacked (shown_state state.old).life }
    ensures { BytesChanged (shown_state state.old) (shown_state state.new) }
{
    let page = [byte; 4096];
    write_device(&mut state.files, b.0, &page)
}
