ghost use Rattle.std.specs.Prelude.{◌≡◌, ◌≤◌, ◌++◌, [], length};
ghost use Rattle.mm_types.specs.declared.events.Event.TheVariants as line;
ghost use Rattle.mm_script.specs.{IfTrue, IsLine, IsWellFormed, printed, is_about_access, is_memory, is_view};

use crate::pieces::Piece::{Bytes, Decimal, Device, Direction, Hex, Name, NameOrDash, Small};
use crate::pieces::put_line;
use mm_text::LineBuf;
use mm_types::{AccessSpec, Direction as Way, Event, Pid, Tid};

/// A row for each form of a line: its event, and what is printed of it, the keyword and the words
/// behind it. Lines of other subjects are printed by other functions.
macro_rules! print_as {
    (
        $out:expr, $event:expr,
        $($form:pat => $keyword:literal $pieces:tt,)*
        $(; $other:pat => $call:expr)*
    ) => {
        match $event {
            $($form => put_line($out, $keyword, &$pieces),)*
            $($other => $call,)*
        }
    };
}

fn print_begin(out: &mut LineBuf, tid: Tid, pid: Pid, access: &AccessSpec)
    requires { length out.old ≤ 96 }
    ensures { out.new ≡ out.old ++ printed (line.Begin tid pid access.now) }
{
    print_as!(out, access,
        AccessSpec::Read { addr, len } => b"begin"
            [Small(tid.0), Small(pid.0), Direction(Way::Read), Hex(*addr), Decimal(*len)],
        AccessSpec::Write { addr, bytes } => b"begin"
            [Small(tid.0), Small(pid.0), Direction(Way::Write), Hex(*addr), Bytes(bytes)],
    )
}

/// The lines of memory of its own.
fn print_memory(event: &Event, out: &mut LineBuf)
    requires { length out.old ≤ 96 }
    ensures { IfTrue (is_memory event.now) (out.new ≡ out.old ++ printed event.now) }
{
    print_as!(out, event,
        Event::Alloc { pid, addr, size, form, prot } => b"alloc"
            [Small(pid.0), Hex(*addr), Hex(*size), Hex(*form), Hex(*prot)],
        Event::Free { pid, addr, size, form } => b"free"
            [Small(pid.0), Hex(*addr), Hex(*size), Hex(*form)],
        Event::Protect { pid, addr, size, prot } => b"protect"
            [Small(pid.0), Hex(*addr), Hex(*size), Hex(*prot)],
        Event::Query { pid, addr } => b"query" [Small(pid.0), Hex(*addr)],
        Event::Watch { pid, reset, addr, size, count } => b"watch"
            [Small(pid.0), Small(u8::from(*reset)), Hex(*addr), Hex(*size), Decimal(*count)],
        Event::ResetWatch { pid, addr, size } => b"resetwatch"
            [Small(pid.0), Hex(*addr), Hex(*size)],
        Event::Stack { tid, pid, reserve, commit } => b"stack"
            [Small(tid.0), Small(pid.0), Hex(*reserve), Hex(*commit)],
        ; _ => {}
    )
}

/// The lines of sections and their views.
fn print_view(event: &Event, out: &mut LineBuf)
    requires { length out.old ≤ 96 }
    ensures { IfTrue (is_view event.now) (out.new ≡ out.old ++ printed event.now) }
{
    print_as!(out, event,
        Event::Create { pid, size, flags, name } => b"create"
            [Small(pid.0), Hex(*size), Hex(*flags), NameOrDash(name)],
        Event::CreateFile { pid, file, flags, name } => b"createfile"
            [Small(pid.0), Name(file), Hex(*flags), NameOrDash(name)],
        Event::Open { pid, name } => b"open" [Small(pid.0), Name(name)],
        Event::Close { pid, handle } => b"close" [Small(pid.0), Decimal(*handle)],
        Event::Map { pid, handle, access, offset, length: len, addr } => b"map"
            [Small(pid.0), Decimal(*handle), Hex(*access), Hex(*offset), Hex(*len), Hex(*addr)],
        Event::Unmap { pid, addr } => b"unmap" [Small(pid.0), Hex(*addr)],
        Event::Flush { pid, addr, size } => b"flush" [Small(pid.0), Hex(*addr), Hex(*size)],
        ; _ => {}
    )
}

/// The lines of accesses, and of what threads wait for.
fn print_access(event: &Event, out: &mut LineBuf)
    requires { length out.old ≤ 96 }
    ensures { IfTrue (is_about_access event.now) (out.new ≡ out.old ++ printed event.now) }
{
    print_as!(out, event,
        Event::Read { pid, addr, len } => b"read" [Small(pid.0), Hex(*addr), Decimal(*len)],
        Event::Write { pid, addr, bytes } => b"write" [Small(pid.0), Hex(*addr), Bytes(bytes)],
        Event::Exec { pid, addr } => b"exec" [Small(pid.0), Hex(*addr)],
        Event::Probe { tid, addr } => b"probe" [Small(tid.0), Hex(*addr)],
        Event::Resume { tid } => b"resume" [Small(tid.0)],
        Event::Io { index: i } => b"io" [Decimal(*i)],
        ; Event::Begin { tid, pid, access } => print_begin(out, *tid, *pid, access)
        ; _ => {}
    )
}

/// The lines of the machine, its processes and its devices, and those of other subjects.
fn print(event: &Event, out: &mut LineBuf)
    requires { length out.old ≤ 96 }
    ensures { out.new ≡ out.old ++ printed event.now }
{
    print_as!(out, event,
        Event::Machine(m) => b"machine"
            [Decimal(m.frames()), Decimal(m.slots()), Decimal(m.depth()), Decimal(m.blocks())],
        Event::Process { min, max } => b"process" [Decimal(*min), Decimal(*max)],
        Event::Exit { pid } => b"exit" [Small(pid.0)],
        Event::File { name, pages, byte } => b"file" [Name(name), Decimal(*pages), Small(*byte)],
        Event::Trim { pid, count: n } => b"trim" [Small(pid.0), Decimal(*n)],
        Event::Age { pid } => b"age" [Small(pid.0)],
        Event::Writer { count: n } => b"writer" [Decimal(*n)],
        Event::Zeroer { count: n } => b"zeroer" [Decimal(*n)],
        Event::Fail { device, direction, nth: k, count: n } => b"fail"
            [Device(*device), Direction(*direction), Decimal(*k), Decimal(*n)],
        Event::Charge => b"charge" [],
        Event::Counts => b"counts" [],
        Event::Grow { slots: n } => b"grow" [Decimal(*n)],
        ; Event::Alloc { .. } | Event::Free { .. } | Event::Protect { .. } | Event::Query { .. }
            | Event::Watch { .. } | Event::ResetWatch { .. } | Event::Stack { .. }
            => print_memory(event, out)
        ; Event::Create { .. } | Event::CreateFile { .. } | Event::Open { .. }
            | Event::Close { .. } | Event::Map { .. } | Event::Unmap { .. } | Event::Flush { .. }
            => print_view(event, out)
        ; _ => print_access(event, out)
    )
}

/// Writes the shortest line of an event at the end of `out`, without a line feed: hexadecimal with
/// upper-case digits for address, size, offset, length of a view, type, protection, flags and
/// access, decimal for the rest, bytes in upper case. It takes at most 160 bytes.
pub fn print_event(event: &Event, out: &mut LineBuf)
    requires { length out.old ≤ 96 }
    ensures text { out.new ≡ out.old ++ printed event.now }
    // What is written is a line for the event, so reading it gives the event again.
    ensures again { out.old ≡ [] → IsWellFormed event.now → IsLine out.new event.now }
{
    print(event, out);
}
