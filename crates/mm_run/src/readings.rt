ghost use Rattle.std.specs.Prelude.{◌≡◌, ◌≤◌, ◌<◌, ◌+◌, ◌^◌, length, Ok, Err, IfOk, IfErr, OnOk, OnErr, MatchResult};
ghost use Rattle.mm_types.specs.{Event};
ghost use Rattle.mm_script.specs.{IsLine, IsWellFormed};
ghost use Rattle.mm_run.specs.{IsLaterEvent, IsMisplaced, reading_of, is_machine_word};

use mm_dispatch::is_machine;
use mm_script::{parse_into, parse_line, without_return};
use mm_types::Event;

/// Whether the first word of a line is `machine`.
fn is_machine_word(line: &[u8]) -> bool
    ensures { result ≡ is_machine_word line.now }
{
    match line {
        b"machine" => true,
        [b'm', b'a', b'c', b'h', b'i', b'n', b'e', b' ', ..] => true,
        _ => false,
    }
}

/// The event of the first line, or the column of its fault.
pub(crate) fn read_first(line: &[u8]) -> Result<Event, u32>
    requires given { length line.now ≤ 256 }
    ensures reads { result ≡ reading_of 0 line.now }
    ensures well_formed { IfOk result (λ e. IsWellFormed e) }
    ensures grammar { IfOk result (λ e. IsLine line.now e) }
    ensures refused { IfErr result (λ _. (e : Event) → IsLine line.now e → IsMisplaced 0 e) }
{
    match parse_line(line) {
        Ok(event) => {
            if is_machine(&event) {
                Ok(event)
            } else {
                Err(1)
            }
        }
        Err(fault) => {
            if is_machine_word(without_return(line)) {
                Err(fault.column)
            } else {
                Err(1)
            }
        }
    }
}

/// Writes the event of a later line where it is wanted; else tells the column of the line's fault.
pub(crate) fn later_event(line: &[u8], event: &mut Event) -> Result<(), u32>
    requires given { length line.now + 1 < 2 ^ 32 }
    ensures reads { MatchResult result (λ _. reading_of 1 line.now ≡ Ok event.new)
        (λ column. reading_of 1 line.now ≡ Err column) }
    ensures later { OnOk result (IsLaterEvent event.new) }
    ensures grammar { OnOk result (IsLine line.now event.new) }
    ensures refused { OnErr result ((e : Event) → IsLine line.now e → IsMisplaced 1 e) }
{
    match parse_into(line, event) {
        Ok(()) => { if is_machine(event) { Err(1) } else { Ok(()) } }
        Err(fault) => {
            if is_machine_word(without_return(line)) {
                Err(1)
            } else {
                Err(fault.column)
            }
        }
    }
}
