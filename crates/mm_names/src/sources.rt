ghost use Rattle.std.specs.Prelude.{◌≡◌, ◌≤◌, Option, length, IfOk, IfErr, IsErrOf};
ghost use Rattle.mm_types.specs.{Rose, Text};
ghost use Rattle.mm_names.specs.{WasReadWhole, CameTo, most_bytes};

use crate::endings::Ending;
use mm_io::Source;
use mm_types::Failed;
use std::alloc::Global;

/// The most bytes of a written file.
const MOST_BYTES: usize = 100_000_000;

#[tactic(auto, using(crate::proofs::ReadWhole::read_whole))]
/// All that a source gives: no more than a written file may have.
pub fn read_all<S: Source>(alloc: Global, source: &mut S) -> Result<Vec<u8>, Ending>
    ensures read { IfOk result (λ text.
        WasReadWhole (S.left source.old) (S.left source.new) text.items) }
    ensures few { IfOk result (λ text. length text.items ≤ most_bytes) }
    ensures err { IfErr result (λ e. (took : Option Text)
        → CameTo e (S.left source.old) (S.left source.new) took took) }
    ensures later { S.faults source.old ≤ S.faults source.new }
    ensures blame { IsErrOf result Ending.ReadFault
        → Rose (S.faults source.old) (S.faults source.new) }
    ensures same { (IsErrOf result Ending.ReadFault → ⊥)
        → S.faults source.new ≡ S.faults source.old }
{
    let mut text: Vec<u8> = Vec::new(alloc);
    let mut buf = [0u8; 4096];
    for n in 0..MOST_BYTES + 1 {
        let count = match source.read(&mut buf) {
            Ok(count) => count,
            Err(Failed) => return Err(Ending::ReadFault),
        };
        if count == 0 {
            return Ok(text);
        }
        if text.extend_from_slice(&buf[..count]).is_err() {
            return Err(Ending::NoMemory);
        }
        if text.len() > MOST_BYTES {
            return Err(Ending::TooLong);
        }
    }
    Err(Ending::TooLong)
}
