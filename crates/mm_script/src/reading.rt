ghost use Rattle.std.specs.Prelude.{◌≡◌, ◌+◌, ◌^◌, ◌<◌, ◌≤◌, ℕ, List, length, IfOk, IfErr, OnOk, OnErr, Ok};
ghost use Rattle.mm_types.specs.{Event};
ghost use Rattle.mm_script.specs.{IsLine, IsWellFormed, without_return, fault_place, line_of, parse, IsPut};

mod accesses;
mod numbers;
mod setup;

use crate::LineFault;
use crate::fields::Fields;
use crate::keywords::Keyword;
use mm_types::Event;

/// The words after a keyword.
#[inline(never)]
fn fields_after(keyword: Keyword, fields: &mut Fields, event: &mut Event) -> Result<(), LineFault>
    requires { fields.old.number ≡ 2 }
    ensures { IsPut result event.old event.new (line_of keyword fields.old) }
{
    match keyword {
        Keyword::Machine => setup::machine(fields, event),
        Keyword::Process => setup::process(fields, event),
        Keyword::File => setup::file(fields, event),
        Keyword::Fail => setup::fail(fields, event),
        Keyword::Create => setup::create(fields, event),
        Keyword::CreateFile => setup::create_file(fields, event),
        Keyword::Open => setup::open(fields, event),
        Keyword::Read => accesses::read(fields, event),
        Keyword::Write => accesses::write(fields, event),
        Keyword::Begin => accesses::begin(fields, event),
        _ => numbers::numbers(keyword, fields, event),
    }
}

/// A line without the one carriage return that may stand at its end.
pub fn without_return(line: &[u8]) -> &[u8]
    ensures body { result.now ≡ without_return line.now }
    ensures short { length result.now ≤ length line.now }
{
    match line.strip_suffix(b"\r".as_slice()) {
        Some(body) => body,
        None => line,
    }
}

/// Reads and writes, most lines of a script, are told apart here, and read by functions of their
/// own.
#[inline(always)]
#[tactic(auto, unfolding(crate::specs::Reading::parse))]
fn put_event(line: &[u8], event: &mut Event) -> Result<(), LineFault>
    requires { length line.now + 1 < 2 ^ 32 }
    ensures { IsPut result event.old event.new (parse line.now) }
{
    let mut fields = Fields::new(without_return(line));
    match fields.keyword()? {
        Keyword::Read => accesses::read(&mut fields, event),
        Keyword::Write => accesses::write(&mut fields, event),
        keyword => fields_after(keyword, &mut fields, event),
    }
}

/// The event of a line, from its bytes before the line feed, written where it is wanted; one
/// carriage return at their end is taken off. `Err` exactly where the grammar has no event for the
/// line: the place of its first fault. After an `Err` the event is as it was.
#[inline(always)]
pub fn parse_into(line: &[u8], event: &mut Event) -> Result<(), LineFault>
    requires { length line.now + 1 < 2 ^ 32 }
    // What is written is the line's event, with its fields in their ranges.
    ensures ok { OnOk result (IsLine line.now event.new) }
    ensures well_formed { OnOk result (IsWellFormed event.new) }
    // A line of the grammar is accepted.
    ensures only { (e : Event) → IsLine line.now e → (result ≡ Ok tt) × (event.new ≡ e) }
    // The place of the first fault, where there is no event.
    ensures fault { IfErr result (λ f. f ≡ fault_place line.now) }
    ensures none { OnErr result ((e : Event) → IsLine line.now e → ⊥) }
    ensures same { OnErr result (event.new ≡ event.old) }
    // The same, to compute with.
    ensures exact { IsPut result event.old event.new (parse line.now) }
{
    put_event(line, event)
}

/// The same, with the event in a place of its own.
#[inline(always)]
pub fn parse_line(line: &[u8]) -> Result<Event, LineFault>
    requires { length line.now + 1 < 2 ^ 32 }
    // What is answered is the line's event, with its fields in their ranges.
    ensures ok { IfOk result (λ e. IsLine line.now e) }
    ensures well_formed { IfOk result (λ e. IsWellFormed e) }
    // A line of the grammar is accepted.
    ensures only { (e : Event) → IsLine line.now e → result ≡ Ok e }
    // The place of the first fault, where there is no event.
    ensures fault { IfErr result (λ f. f ≡ fault_place line.now) }
    ensures none { IfErr result (λ _. (e : Event) → IsLine line.now e → ⊥) }
    // The same, to compute with.
    ensures exact { result ≡ parse line.now }
{
    let mut event = Event::Charge;
    parse_into(line, &mut event)?;
    Ok(event)
}

/// No line stands for two events.
pub fn one_event()
    ensures { (text : List ℕ) (d e : Event) → IsLine text d → IsLine text e → d ≡ e }
{}
