ghost use Rattle.std.specs.Prelude.{◌≡◌, is_err, OnErr};
ghost use Rattle.mm_io.specs.{CountsFaults, GivesOn, IsCut, Wrote};

use crate::Sink;
use mm_types::Failed;

/// Writes all of a text, or a front of it that is not all where the sink fails.
pub fn write_all<O: Sink>(out: &mut O, text: &[u8]) -> Result<(), Failed>
    ensures wrote { Wrote (O.taken out.old) (O.taken out.new) text.now (is_err result) }
    ensures cut { OnErr result (IsCut (O.taken out.old) (O.taken out.new) text.now) }
    ensures given { GivesOn (O.given out.old) (O.given out.new)
        (O.taken out.old) (O.taken out.new) }
    ensures cause { CountsFaults (O.faults out.old) (O.faults out.new) result }
    ensures loans { O.loans out.new ≡ O.loans out.old }
{
    let mut rest = text;
    while !rest.is_empty() {
        match out.write(rest) {
            Ok(n) => rest = &rest[n..],
            Err(failed) => return Err(failed),
        }
    }
    Ok(())
}
