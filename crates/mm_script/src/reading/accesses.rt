#![tactic(auto, unfolding(crate::specs::Reading::line_of))]

ghost use Rattle.std.specs.Prelude.{◌≡◌, ◌<◌};
ghost use Rattle.mm_types.specs.declared.events.AccessSpec.TheVariants as spec;
ghost use Rattle.mm_types.specs.declared.events.Event.TheVariants as line;
ghost use Rattle.mm_script.specs.declared.keywords.Keyword.TheVariants as keyword;
ghost use Rattle.mm_script.specs.{lies_in_page, Then, End, AnyNumber, Number, ByteWord, event_in, line_of, IsPut};

use crate::LineFault;
use crate::fields::Fields;
use mm_types::{AccessSpec, Direction, Event, PAGE_SIZE, Pid, Tid};

/// Whether bytes from an address on lie inside one page.
fn lies_in_page(addr: u32, len: u32) -> bool
    requires { len < 4096 }
    ensures { result ≡ lies_in_page addr len }
{
    addr % PAGE_SIZE + len <= PAGE_SIZE
}

/// `read <pid> <addr> <len>`
#[inline(never)]
pub fn read(fields: &mut Fields, event: &mut Event) -> Result<(), LineFault>
    requires { fields.old.number ≡ 2 }
    ensures { IsPut result event.old event.new (line_of keyword.Read fields.old) }
{
    let pid = fields.pid()?;
    let addr = fields.number()?;
    let len = fields.number_in(1, 64)?;
    fields.end()?;
    if !lies_in_page(addr, len) {
        return Err(fields.fault());
    }
    *event = Event::Read { pid, addr, len };
    Ok(())
}

/// `write <pid> <addr> <bytes>`
#[inline(never)]
pub fn write(fields: &mut Fields, event: &mut Event) -> Result<(), LineFault>
    requires { fields.old.number ≡ 2 }
    ensures { IsPut result event.old event.new (line_of keyword.Write fields.old) }
{
    let pid = fields.pid()?;
    let addr = fields.number()?;
    let bytes = fields.bytes()?;
    fields.end()?;
    if !lies_in_page(addr, bytes.as_slice().len() as u32) {
        return Err(fields.fault());
    }
    *event = Event::Write { pid, addr, bytes };
    Ok(())
}

/// `begin <tid> <pid> read <addr> <len>`, `begin <tid> <pid> write <addr> <bytes>`
pub fn begin(fields: &mut Fields, event: &mut Event) -> Result<(), LineFault>
    requires { fields.old.number ≡ 2 }
    ensures { IsPut result event.old event.new (line_of keyword.Begin fields.old) }
{
    let tid = fields.tid()?;
    let pid = fields.pid()?;
    match fields.direction()? {
        Direction::Read => begin_read(fields, tid, pid, event),
        Direction::Write => begin_write(fields, tid, pid, event),
    }
}

/// The words of a read that is begun, after `read`.
fn begin_read(fields: &mut Fields, tid: Tid, pid: Pid, event: &mut Event) -> Result<(), LineFault>
    requires { fields.old.number ≡ 5 }
    ensures { IsPut result event.old event.new
        (event_in keyword.Begin (Then AnyNumber (Then (Number 1 64) End))
        (λ addr len. line.Begin tid pid (spec.Read addr len)) fields.old) }
{
    let addr = fields.number()?;
    let len = fields.number_in(1, 64)?;
    fields.end()?;
    if !lies_in_page(addr, len) {
        return Err(fields.fault());
    }
    *event = Event::Begin {
        tid,
        pid,
        access: AccessSpec::Read { addr, len },
    };
    Ok(())
}

/// The words of a write that is begun, after `write`.
fn begin_write(fields: &mut Fields, tid: Tid, pid: Pid, event: &mut Event) -> Result<(), LineFault>
    requires { fields.old.number ≡ 5 }
    ensures { IsPut result event.old event.new
        (event_in keyword.Begin (Then AnyNumber (Then ByteWord End))
        (λ addr bytes. line.Begin tid pid (spec.Write addr bytes)) fields.old) }
{
    let addr = fields.number()?;
    let bytes = fields.bytes()?;
    fields.end()?;
    if !lies_in_page(addr, bytes.as_slice().len() as u32) {
        return Err(fields.fault());
    }
    *event = Event::Begin {
        tid,
        pid,
        access: AccessSpec::Write { addr, bytes },
    };
    Ok(())
}
