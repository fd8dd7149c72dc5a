ghost use Rattle.std.specs.Prelude.{◌≡◌, true, Ok};
ghost use Rattle.mm_dispatch.specs.{is_paging_line, CanDecide, TakesLine};

use crate::beginning::{begin, begin_call, begin_on};
use mm_object_tables::Tables;
use mm_store::{Done, PageStore};
use mm_types::{Answer, Code, Event, LineKind};

/// How many `fail` lines a run takes.
const MOST_FAILS: u32 = 64;

/// Decides a line that asks for a step of paging, or names device calls to come that fail.
pub(crate) fn paging_line<G: PageStore>(
    t: &mut Tables,
    g: &mut G,
    line: u32,
    event: &Event,
) -> Answer
    requires can { CanDecide G.PageStore event.now line t.old g.old }
    requires paging { is_paging_line event.now ≡ true }
    ensures { TakesLine G.PageStore event.now line t.old g.old (λ a. a) (Ok result) t.new g.new }
{
    match *event {
        // Pages of the process's working set, the oldest first, are taken from it.
        Event::Trim { pid, count: n } => {
            if !begin_on(t, g, line, pid, LineKind::Trim(pid)) {
                return Answer::Error(Code::InvalidHandle);
            }
            g.trim(pid, n);
            Answer::Ok
        }
        // The pages of the process's working set are older.
        Event::Age { pid } => {
            begin_call(t, g, line);
            if !t.has(pid) {
                return Answer::Error(Code::InvalidHandle);
            }
            g.age(pid);
            Answer::Ok
        }
        // Free frames are cleared.
        Event::Zeroer { count } => {
            begin(g, line, LineKind::Zeroer);
            g.zero(count);
            Answer::Ok
        }
        // Modified pages begin to be written, from the front of their list.
        Event::Writer { count } => {
            begin(g, line, LineKind::Writer);
            g.write_out(count);
            Answer::Ok
        }
        // The `index`-th oldest request is completed, and its device called.
        Event::Io { index } => {
            begin(g, line, LineKind::Io);
            match g.complete(index) {
                Done::None => Answer::Nothing,
                Done::Ok => Answer::Ok,
                Done::Failed => Answer::Fault,
            }
        }
        // Device calls to come are named to fail, while fewer than 64 such lines were taken.
        Event::Fail {
            device,
            direction,
            nth,
            count,
        } => {
            begin_call(t, g, line);
            if t.fails_taken() >= MOST_FAILS {
                return Answer::Full;
            }
            g.fail(device, direction, nth, count);
            t.take_fail();
            Answer::Ok
        }
        _ => unreachable!(),
    }
}
