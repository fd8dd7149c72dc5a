ghost use Rattle.std.specs.Prelude.{◌≡◌};
ghost use Rattle.mm_move_rules.specs.{has_request, is_again, is_read, is_write, is_access, is_call, is_thread, is_touch, is_unbind, is_writer, touches};
ghost use Rattle.mm_move_rules.specs.{trims};

use mm_types::{LineKind, Pid, Request};

// ---- lines

/// Whether a line is a call.
pub fn is_call(kind: LineKind) -> bool
    ensures { result ≡ is_call kind }
{
    matches!(kind, LineKind::Call)
}

/// Whether a line is an access of a process.
pub fn is_access(kind: LineKind) -> bool
    ensures { result ≡ is_access kind }
{
    matches!(kind, LineKind::Access(_))
}

/// Whether a line is a step of a thread.
pub fn is_thread(kind: LineKind) -> bool
    ensures { result ≡ is_thread kind }
{
    matches!(kind, LineKind::Thread(_))
}

/// Whether a line is an access or a step of a thread.
pub fn is_touch(kind: LineKind) -> bool
    ensures { result ≡ is_touch kind }
{
    matches!(kind, LineKind::Access(_) | LineKind::Thread(_))
}

/// Whether a line ends pages or places.
pub fn is_unbind(kind: LineKind) -> bool
    ensures { result ≡ is_unbind kind }
{
    matches!(kind, LineKind::Unbind(_))
}

/// Whether a line is one of the modified page writer.
pub fn is_writer(kind: LineKind) -> bool
    ensures { result ≡ is_writer kind }
{
    matches!(kind, LineKind::Writer)
}

/// Whether a line touches pages of this process.
pub fn touches(pid: Pid, kind: LineKind) -> bool
    ensures { result ≡ touches pid.0 kind }
{
    match kind {
        LineKind::Access(p) | LineKind::Thread(p) => p.0 == pid.0,
        _ => false,
    }
}

/// Whether a line trims the working set of this process.
pub fn trims(pid: Pid, kind: LineKind) -> bool
    ensures { result ≡ trims pid.0 kind }
{
    match kind {
        LineKind::Trim(p) => p.0 == pid.0,
        _ => false,
    }
}

// ---- requests

/// Whether a frame is being read or written.
pub fn has_request(request: Request) -> bool
    ensures { result ≡ has_request request }
{
    !matches!(request, Request::None)
}

/// Whether a frame is being read.
pub fn is_read(request: Request) -> bool
    ensures { result ≡ is_read request }
{
    matches!(request, Request::Read)
}

/// Whether a frame is being written.
pub fn is_write(request: Request) -> bool
    ensures { result ≡ is_write request }
{
    matches!(request, Request::Write | Request::WriteAgain)
}

/// Whether a frame is being written, and was changed since the write began.
pub fn is_again(request: Request) -> bool
    ensures { result ≡ is_again request }
{
    matches!(request, Request::WriteAgain)
}
