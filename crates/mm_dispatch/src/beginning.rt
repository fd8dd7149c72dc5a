ghost use Rattle.std.specs.Prelude.{◌≡◌, ◌+◌, true, if◌then◌else◌};
ghost use Rattle.mm_types.specs.declared.moves.LineKind.TheVariants as line_kind;
ghost use Rattle.mm_dispatch.specs.{is_plain_kind, IsNext, StartsLine, StartsCall, StartsOn, StartsRelease};

use mm_object_tables::Tables;
use mm_store::PageStore;
use mm_types::{LineKind, Pid};

/// Begins a line that names no numbers of its own.
#[inline(always)]
pub(crate) fn begin<G: PageStore>(g: &mut G, line: u32, form: LineKind)
    requires next { line ≡ (G.store g.old).line + 1 }
    requires plain { is_plain_kind form ≡ true }
    ensures starts { StartsLine G.PageStore line form g.old g.new }
    ensures form { (G.store g.new).kind ≡ form }
{
    g.line(line, form);
}

/// Begins the line of a call.
pub(crate) fn begin_call<G: PageStore>(t: &Tables, g: &mut G, line: u32)
    requires next { IsNext G.PageStore line t.now g.old }
    ensures { StartsCall G.PageStore line t.now g.old g.new }
{
    t.sound();
    begin(g, line, LineKind::Call);
}

/// The kind of a line that goes by a process; where that does not live, the line is a call.
fn kind_if(lives: bool, form: LineKind) -> LineKind
    ensures is { result ≡ (if lives then form else line_kind.Call) }
    ensures plain { is_plain_kind form ≡ true → is_plain_kind result ≡ true }
{
    if lives { form } else { LineKind::Call }
}

/// Begins a line that goes by a process, and tells whether that lives.
#[inline(always)]
pub(crate) fn begin_on<G: PageStore>(
    t: &Tables,
    g: &mut G,
    line: u32,
    pid: Pid,
    form: LineKind,
) -> bool
    requires next { IsNext G.PageStore line t.now g.old }
    requires plain { is_plain_kind form ≡ true }
    ensures { StartsOn G.PageStore line t.now pid form result g.old g.new }
{
    let lives = t.has(pid);
    begin(g, line, kind_if(lives, form));
    lives
}

/// Begins a line that may unbind pages of a process, if it lives.
pub(crate) fn begin_release<G: PageStore>(t: &Tables, g: &mut G, line: u32, pid: Pid)
    requires next { IsNext G.PageStore line t.now g.old }
    ensures { StartsRelease G.PageStore line t.now pid g.old g.new }
{
    t.sound();
    begin_on(t, g, line, pid, LineKind::Unbind(pid));
}
