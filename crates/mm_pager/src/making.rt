ghost use Rattle.std.specs.Prelude.{◌≡◌, ◌≤◌, ◌<◌, ◌+◌, ◌%◌, ◌^◌, ℕ, false, Some, None};
ghost use Rattle.mm_types.specs.declared.frames.Held.TheVariants as held;
ghost use Rattle.mm_types.specs.declared.moves.LineKind.TheVariants as kind;
ghost use Rattle.mm_types.specs.declared.numbers.Key.TheVariants.{Shared};
ghost use Rattle.mm_store.specs.{Makes};
ghost use Rattle.mm_pager.specs.{BlocksWritten, PagesAdded, BuiltAs};

use mm_state_calls::StateCalls;
use mm_types::{Area, Block, Key, MakeFault, NoMemory};

/// The byte that page `i` of a file holds throughout, where page 0 holds `byte`.
fn page_byte(byte: u8, i: u32) -> u8
    ensures { result ≡ (byte + i) % 256 }
{
    byte.wrapping_add((i % 256) as u8)
}

/// Writes the blocks of a new file in order, up to the first write that fails. False where one did.
fn write_blocks<T: StateCalls>(state: &mut T, first: Block, n: u32, byte: u8) -> bool
    requires room { first.0 + n ≤ (T.shown state.old).life.machine.blocks }
    requires new { (b : ℕ) → first.0 ≤ b → (T.shown state.old).life.added b ≡ false }
    ensures written { BlocksWritten first.0 n byte result (T.shown state.old) (T.shown state.new) }
    ensures loans { T.loans state.new ≡ T.loans state.old }
{
    for i in 0..n {
        let block = Block(first.0 + i);
        if !state.write_block(block, page_byte(byte, i)) {
            return false;
        }
    }
    true
}

/// The pages of a new file come to be, each in its block.
fn add_pages<T: StateCalls>(state: &mut T, area: Area, first: Block, n: u32)
    requires kind { (T.shown state.old).life.kind ≡ kind.Call }
    requires open { (T.shown state.old).areas area.0 ≡ Some n }
    requires dead { (i : ℕ) → (T.shown state.old).life.stands (Shared area i) ≡ held.Dead }
    requires room { first.0 + n ≤ (T.shown state.old).life.machine.blocks }
    requires new { (b : ℕ) → first.0 ≤ b → (T.shown state.old).life.added b ≡ false }
    ensures added { PagesAdded area.0 first.0 n (T.shown state.old) (T.shown state.new) }
    ensures loans { T.loans state.new ≡ T.loans state.old }
{
    for i in 0..n {
        state.add_block(Key::Shared(area, i), Block(first.0 + i));
    }
}

/// Makes a file in an area that is not open. After an error the area is closed, and no page is
/// there.
pub(crate) fn build_file<T: StateCalls>(
    state: &mut T,
    area: Area,
    first: Block,
    n: u32,
    byte: u8,
) -> Result<(), MakeFault>
    requires kind { (T.shown state.old).life.kind ≡ kind.Call }
    requires closed { (T.shown state.old).areas area.0 ≡ None }
    requires few { area.0 < 2 ^ 28 }
    requires room { first.0 + n ≤ (T.shown state.old).life.machine.blocks }
    requires new { (b : ℕ) → first.0 ≤ b → (T.shown state.old).life.added b ≡ false }
    ensures built { BuiltAs area.0 first.0 n byte result (T.shown state.old) (T.shown state.new) }
    ensures loans { T.loans state.new ≡ T.loans state.old }
{
    if let Err(NoMemory) = state.open_area(area, n) {
        return Err(MakeFault::Memory);
    }
    if !write_blocks(state, first, n, byte) {
        state.close_area(area);
        return Err(MakeFault::Write);
    }
    add_pages(state, area, first, n);
    Ok(())
}
