ghost use Rattle.std.specs.Prelude.{◌≡◌, true};
ghost use Rattle.mm_dispatch.specs.{is_call_line, CanDecide, TakesLine};

use crate::beginning::begin_call;
use mm_calls::{
    close, create, create_file, map, open_section, probe, protect, query, reset_watch, stack,
    valloc, watch,
};
use mm_object_tables::Tables;
use mm_store::PageStore;
use mm_types::{Answer, Event, NoMemory};
use std::alloc::Global;

/// Decides a line that is one call.
pub(crate) fn decide_call<G: PageStore>(
    alloc: Global,
    t: &mut Tables,
    g: &mut G,
    line: u32,
    event: &Event,
) -> Result<Answer, NoMemory>
    requires can { CanDecide G.PageStore event.now line t.old g.old }
    requires call { is_call_line event.now ≡ true }
    ensures { TakesLine G.PageStore event.now line t.old g.old (λ a. a) result t.new g.new }
{
    begin_call(t, g, line);
    match event {
        Event::Alloc {
            pid,
            addr,
            size,
            form,
            prot,
        } => valloc(alloc, t, g, *pid, *addr, *size, *form, *prot),
        Event::Protect {
            pid,
            addr,
            size,
            prot,
        } => protect(t, g, *pid, *addr, *size, *prot),
        Event::Query { pid, addr } => Ok(query(t, *pid, *addr)),
        Event::Charge => {
            let (charge, limit) = t.charge();
            Ok(Answer::Charge(charge, limit))
        }
        Event::Create {
            pid,
            size,
            flags,
            name,
        } => create(alloc, t, g, *pid, *size, *flags, *name),
        Event::CreateFile {
            pid,
            file,
            flags,
            name,
        } => create_file(t, *pid, file, *flags, *name),
        Event::Open { pid, name } => open_section(t, *pid, name),
        Event::Close { pid, handle } => Ok(close(t, g, *pid, *handle)),
        Event::Map {
            pid,
            handle,
            access,
            offset,
            length: size,
            addr,
        } => map(alloc, t, g, *pid, *handle, *access, *offset, *size, *addr),
        Event::Counts => Ok(Answer::Counts(g.counts())),
        Event::Stack {
            tid,
            pid,
            reserve,
            commit,
        } => stack(alloc, t, g, *tid, *pid, *reserve, *commit),
        Event::Probe { tid, addr } => probe(t, g, *tid, *addr),
        Event::Watch {
            pid,
            reset: unwrites,
            addr,
            size,
            count,
        } => Ok(watch(t, *pid, *unwrites, *addr, *size, *count)),
        Event::ResetWatch { pid, addr, size } => Ok(reset_watch(t, *pid, *addr, *size)),
        _ => unreachable!(),
    }
}
