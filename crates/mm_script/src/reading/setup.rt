#![tactic(auto, unfolding(crate::specs::Reading::line_of))]

ghost use Rattle.std.specs.Prelude.{◌≡◌};
ghost use Rattle.mm_script.specs.declared.keywords.Keyword.TheVariants as keyword;
ghost use Rattle.mm_script.specs.{line_of, IsPut};

use crate::LineFault;
use crate::fields::Fields;
use mm_types::{Event, Machine};

/// `machine <frames> <slots> <depth> <blocks>`
pub fn machine(fields: &mut Fields, event: &mut Event) -> Result<(), LineFault>
    requires { fields.old.number ≡ 2 }
    ensures { IsPut result event.old event.new (line_of keyword.Machine fields.old) }
{
    let frames = fields.number_in(6, 262_144)?;
    let slots = fields.number_in(0, 262_144)?;
    let depth = fields.number_in(1, 64)?;
    let blocks = fields.number_in(0, 65_536)?;
    fields.end()?;
    if 2 * depth + 4 > frames {
        // The frames word stands right after `machine `.
        return Err(LineFault { column: 9, word: 2 });
    }
    *event = Event::Machine(Machine::new(frames, slots, depth, blocks));
    Ok(())
}

/// `process <min> <max>`
pub fn process(fields: &mut Fields, event: &mut Event) -> Result<(), LineFault>
    requires { fields.old.number ≡ 2 }
    ensures { IsPut result event.old event.new (line_of keyword.Process fields.old) }
{
    let min = fields.number_in(0, 65_536)?;
    let max = fields.number_in(1, 65_536)?;
    fields.end()?;
    if min > max {
        return Err(fields.fault());
    }
    *event = Event::Process { min, max };
    Ok(())
}

/// `file <name> <pages> <byte>`
pub fn file(fields: &mut Fields, event: &mut Event) -> Result<(), LineFault>
    requires { fields.old.number ≡ 2 }
    ensures { IsPut result event.old event.new (line_of keyword.File fields.old) }
{
    let name = fields.name()?;
    let pages = fields.number_in(1, 65_536)?;
    let byte = fields.byte()?;
    fields.end()?;
    *event = Event::File { name, pages, byte };
    Ok(())
}

/// `fail <paging|file> <read|write> <k> <n>`
pub fn fail(fields: &mut Fields, event: &mut Event) -> Result<(), LineFault>
    requires { fields.old.number ≡ 2 }
    ensures { IsPut result event.old event.new (line_of keyword.Fail fields.old) }
{
    let device = fields.device()?;
    let direction = fields.direction()?;
    let k = fields.number_in(1, 1_000_000)?;
    let n = fields.number_in(1, 1_000_000)?;
    fields.end()?;
    *event = Event::Fail {
        device,
        direction,
        nth: k,
        count: n,
    };
    Ok(())
}

/// `create <pid> <size> <flags> <name|->`
pub fn create(fields: &mut Fields, event: &mut Event) -> Result<(), LineFault>
    requires { fields.old.number ≡ 2 }
    ensures { IsPut result event.old event.new (line_of keyword.Create fields.old) }
{
    let pid = fields.pid()?;
    let size = fields.number()?;
    let flags = fields.number()?;
    let name = fields.name_or_dash()?;
    fields.end()?;
    *event = Event::Create {
        pid,
        size,
        flags,
        name,
    };
    Ok(())
}

/// `createfile <pid> <file name> <flags> <name|->`
pub fn create_file(fields: &mut Fields, event: &mut Event) -> Result<(), LineFault>
    requires { fields.old.number ≡ 2 }
    ensures { IsPut result event.old event.new (line_of keyword.CreateFile fields.old) }
{
    let pid = fields.pid()?;
    let file = fields.name()?;
    let flags = fields.number()?;
    let name = fields.name_or_dash()?;
    fields.end()?;
    *event = Event::CreateFile {
        pid,
        file,
        flags,
        name,
    };
    Ok(())
}

/// `open <pid> <name>`
pub fn open(fields: &mut Fields, event: &mut Event) -> Result<(), LineFault>
    requires { fields.old.number ≡ 2 }
    ensures { IsPut result event.old event.new (line_of keyword.Open fields.old) }
{
    let pid = fields.pid()?;
    let name = fields.name()?;
    fields.end()?;
    *event = Event::Open { pid, name };
    Ok(())
}
