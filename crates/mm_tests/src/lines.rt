ghost use Rattle.std.specs.Prelude.{◌≡◌, ◌≤◌, ◌+◌, false, OnOk, IfOk, replicate};
ghost use Rattle.mm_devices.specs.{empty_block};
ghost use Rattle.mm_script.specs.{IsWellFormed};
ghost use Rattle.mm_dispatch.specs.{line_number};
ghost use Rattle.mm_script.specs.{is_machine};

use mm_devices::{BlockDevice, MemBlocks};
use mm_dispatch::{World, is_machine};
use mm_script::parse_line;
use mm_store::PageStore;
use mm_text::{LineBuf, spell};
use mm_types::{Answer, Event, NoMemory};
use std::alloc::Global;

/// Why a row was not gone through to its end.
#[derive(PartialEq, Eq, Debug, Drop)]
pub enum Stopped {
    /// Memory was refused.
    Memory,
    /// Not a line that a world decides.
    Form,
    /// Nothing could be changed behind the world.
    Change,
    /// The answer is another than the row's, at this line.
    Answer(u32),
    /// The row has more lines than are gone through.
    Long,
}

/// One line, of which its number alone is told, so that what follows is proved with little at hand.
fn decide<G: PageStore>(
    alloc: Global,
    world: &mut World<G>,
    line: u32,
    event: &Event,
) -> Result<Answer, NoMemory>
    requires well_formed { IsWellFormed event.now }
    requires later { is_machine event.now ≡ false }
    requires next { line ≡ line_number world.old + 1 }
    requires few { line ≤ 1000000 }
    requires ready { world.old.spent ≡ false }
    ensures line { OnOk result (line_number world.new ≡ line) }
    ensures ready { OnOk result (world.new.spent ≡ false) }
{
    let mut answer = Answer::Ok;
    world.step(alloc, line, event, &mut answer)?;
    Ok(answer)
}

/// Whether an answer is spelled so.
fn is_spelled(answer: &Answer, wanted: &[u8]) -> bool {
    let mut out = LineBuf::new();
    spell(answer, &mut out);
    match out.as_slice() {
        [text @ .., b'\n'] => text == wanted,
        _ => false,
    }
}

/// Decides line `n`, as it is written, whose answer has to be the one that is wanted. `Form` comes
/// for what is no line after the first, `Memory` where memory was refused, `Answer` for another
/// answer.
pub fn read_line<G: PageStore>(
    alloc: Global,
    world: &mut World<G>,
    n: u32,
    line: &[u8],
    wanted: &[u8],
) -> Result<(), Stopped>
    requires next { n ≡ line_number world.old + 1 }
    requires few { n ≤ 1000000 }
    requires ready { world.old.spent ≡ false }
    ensures line { OnOk result (line_number world.new ≡ n) }
    ensures ready { OnOk result (world.new.spent ≡ false) }
{
    if line.len() > 256 {
        return Err(Stopped::Form);
    }
    let Ok(event) = parse_line(line) else {
        return Err(Stopped::Form);
    };
    if is_machine(&event) {
        return Err(Stopped::Form);
    }
    let Ok(answer) = decide(alloc, world, n, &event) else {
        return Err(Stopped::Memory);
    };
    if is_spelled(&answer, wanted) {
        Ok(())
    } else {
        Err(Stopped::Answer(n))
    }
}

/// A device in memory that was opened with `n` blocks, or `Memory` where that was refused.
pub fn opened(alloc: Global, n: u32) -> Result<MemBlocks, Stopped>
    requires { n ≤ 262144 }
    ensures { IfOk result (λ d. d.blocks ≡ replicate n empty_block) }
{
    let Ok(mut device) = MemBlocks::new(alloc, Vec::new(alloc), 0) else {
        return Err(Stopped::Memory);
    };
    match device.open(n) {
        Ok(()) => Ok(device),
        Err(_) => Err(Stopped::Memory),
    }
}
