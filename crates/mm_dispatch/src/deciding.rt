ghost use Rattle.std.specs.Prelude.{◌≡◌, ◌≤◌, false};
ghost use Rattle.mm_types.specs.declared.events.Event.TheVariants as event;
ghost use Rattle.mm_dispatch.specs.{is_access_line, CanDecide, IsNext, MakesLine, TakesLine};

use crate::access_lines::{exec_line, read_line, write_line};
use crate::beginning::{begin_call, begin_release};
use crate::calling::decide_call;
use crate::forgetting::forget_waits;
use crate::paging_lines::paging_line;
use crate::thread_lines::{begin_line, resume_line};
use mm_calls::{end_process, flush_view, grow_paging, new_file, new_process, unmap, vfree};
use mm_object_tables::Tables;
use mm_store::PageStore;
use mm_types::{Answer, Event, LineKind, NoMemory};
use std::alloc::Global;

/// Decides a `process` line.
fn process_line<G: PageStore>(
    alloc: Global,
    t: &mut Tables,
    g: &mut G,
    line: u32,
    min: u32,
    max: u32,
) -> Result<Answer, NoMemory>
    requires next { IsNext G.PageStore line t.old g.old }
    requires ordered { min ≤ max }
    requires some { 1 ≤ max }
    requires most { max ≤ 65536 }
    ensures { MakesLine G.PageStore (event.Process min max) line t.old g.old result t.new g.new }
{
    t.sound();
    let pid = match t.next_pid() {
        Some(pid) => pid,
        None => {
            begin_call(t, g, line);
            return Ok(Answer::Full);
        }
    };
    g.line(line, LineKind::Process(pid, min, max));
    new_process(alloc, t, g, pid, min, max)
}

/// Decides a line that a world decides, and that makes no access itself.
#[tactic(auto, using(crate::proofs::Readiness::fits_page))]
fn decide_other<G: PageStore>(
    alloc: Global,
    t: &mut Tables,
    g: &mut G,
    line: u32,
    event: &Event,
) -> Result<Answer, NoMemory>
    requires can { CanDecide G.PageStore event.now line t.old g.old }
    requires other { is_access_line event.now ≡ false }
    ensures { TakesLine G.PageStore event.now line t.old g.old (λ a. a) result t.new g.new }
{
    match event {
        Event::Process { min, max } => process_line(alloc, t, g, line, *min, *max),
        Event::Exit { pid } => {
            // Threads that keep an access of the process wait no more, before the line begins.
            forget_waits(t, g, *pid);
            begin_release(t, g, line, *pid);
            Ok(end_process(t, g, *pid))
        }
        Event::Free {
            pid,
            addr,
            size,
            form,
        } => {
            begin_release(t, g, line, *pid);
            Ok(vfree(t, g, *pid, *addr, *size, *form))
        }
        // The call notes its own line.
        Event::Grow { slots } => grow_paging(t, g, line, *slots),
        Event::File { name, pages, byte } => {
            begin_call(t, g, line);
            new_file(alloc, t, g, name, *pages, *byte)
        }
        Event::Unmap { pid, addr } => {
            begin_release(t, g, line, *pid);
            Ok(unmap(t, g, *pid, *addr))
        }
        Event::Flush { pid, addr, size } => {
            begin_call(t, g, line);
            Ok(flush_view(t, g, *pid, *addr, *size))
        }
        Event::Begin { tid, pid, access } => Ok(begin_line(t, g, line, *tid, *pid, access)),
        Event::Resume { tid } => Ok(resume_line(t, g, line, *tid)),
        Event::Trim { .. }
        | Event::Age { .. }
        | Event::Zeroer { .. }
        | Event::Writer { .. }
        | Event::Io { .. }
        | Event::Fail { .. } => Ok(paging_line(t, g, line, event)),
        _ => decide_call(alloc, t, g, line, event),
    }
}

/// Decides a line that makes no access itself, and writes its answer where it is wanted. It is not
/// inlined, so that an access does not pay for the room that a call's answer takes.
#[inline(never)]
fn answer_other<G: PageStore>(
    alloc: Global,
    t: &mut Tables,
    g: &mut G,
    line: u32,
    event: &Event,
    answer: &mut Answer,
) -> Result<(), NoMemory>
    requires can { CanDecide G.PageStore event.now line t.old g.old }
    requires other { is_access_line event.now ≡ false }
    ensures { TakesLine G.PageStore event.now line t.old g.old (λ _. answer.new) result t.new g.new }
{
    match decide_other(alloc, t, g, line, event) {
        Ok(given) => {
            *answer = given;
            Ok(())
        }
        Err(e) => Err(e),
    }
}

/// Decides a line that a world decides, and writes its answer where it is wanted. Accesses come
/// first, since they are the commonest.
pub(crate) fn decide<G: PageStore>(
    alloc: Global,
    t: &mut Tables,
    g: &mut G,
    line: u32,
    event: &Event,
    answer: &mut Answer,
) -> Result<(), NoMemory>
    requires can { CanDecide G.PageStore event.now line t.old g.old }
    ensures { TakesLine G.PageStore event.now line t.old g.old (λ _. answer.new) result t.new g.new }
{
    match event {
        Event::Read { pid, addr, len } => {
            read_line(t, g, line, *pid, *addr, *len, answer);
            Ok(())
        }
        Event::Write { pid, addr, bytes } => {
            write_line(t, g, line, *pid, *addr, bytes, answer);
            Ok(())
        }
        Event::Exec { pid, addr } => {
            exec_line(t, g, line, *pid, *addr, answer);
            Ok(())
        }
        _ => answer_other(alloc, t, g, line, event, answer),
    }
}
