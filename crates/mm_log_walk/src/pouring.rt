ghost use Rattle.std.specs.Prelude.{OnOk, OnErr, true};
ghost use Rattle.mm_io.specs.{CountsFaults, Wrote};
ghost use Rattle.mm_log_walk.specs.{Poured};

use mm_io::{Sink, write_all};
use mm_types::Failed;

/// How many bytes of a text are kept before they are written.
const MOST_KEPT: usize = 32_768;

/// Writes the text that is kept, where there is much of it.
#[tactic(auto, using(crate::proofs::Tellings::poured))]
pub(crate) fn pour<O: Sink>(text: &mut Vec<u8>, out: &mut O) -> Result<(), Failed>
    ensures poured { OnOk result (Poured (O.taken out.old) (O.taken out.new) text.old.items
        text.new.items) }
    ensures cut { OnErr result (Wrote (O.taken out.old) (O.taken out.new) text.old.items true) }
    ensures cause { CountsFaults (O.faults out.old) (O.faults out.new) result }
{
    if text.len() < MOST_KEPT {
        return Ok(());
    }
    write_all(out, text.as_slice())?;
    text.clear();
    Ok(())
}
