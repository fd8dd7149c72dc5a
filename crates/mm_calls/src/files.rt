ghost use Rattle.std.specs.Prelude.{[], false, is_some, ◌≡◌, ◌==◌, ◌≤◌, ◌<◌, ◌+◌, ◌^◌, nat_lt, if◌then◌else◌, length, IfOk, IsOk, OnOk, OnErr};
ghost use Rattle.mm_types.specs.declared.answers.Answer.TheVariants as answer;
ghost use Rattle.mm_types.specs.declared.moves.LineKind.TheVariants as line_kind;
ghost use Rattle.mm_types.specs.{range_of};
ghost use Rattle.mm_world.specs.{area_at, blank, is_success, new_file};
ghost use Rattle.mm_store.specs.{Turns, Makes, Flushes, PassesIn, NotesIn};
ghost use Rattle.mm_object_tables.specs.{IsFew, BlocksHold, flush_told, file_block_in};
ghost use Rattle.mm_calls.specs.{AreHeld, InBlocks, keys_from, keys_of_flush, BeginsWrites, ChangesNothing, AnswersFile, AnswersFlush, FlushesBlocks};
ghost use Rattle.mm_calls.specs.{HoldsPages, FailsWrite};

use crate::views::view_of;
use mm_address_spaces::PageRange;
use mm_object_tables::Tables;
use mm_store::PageStore;
use mm_types::{Answer, Area, Block, Code, Key, MakeFault, Name, NoMemory, Pid, View, WriteFault};
use std::alloc::Global;

/// `file` (CreateFile): a file of `pages` pages, in the lowest blocks that no file uses; page i
/// holds the byte `byte + i` throughout. It is the line's first call of devices.
///
/// In this order: `AlreadyExists` where a file has the name; `Full` where fewer blocks are left;
/// `Fault` exactly where a write of the file device failed, and then there is no file. After
/// `NoMemory`, which neither refusal comes to, nothing has changed.
#[tactic(auto, using(mm_object_tables::proofs::Turning::notes_nothing, mm_store::proofs::Served::served_none))]
pub fn new_file<G: PageStore>(
    allocator: Global,
    t: &mut Tables,
    g: &mut G,
    name: &Name,
    pages: u32,
    byte: u8,
) -> Result<Answer, NoMemory>
    requires begins { BeginsWrites G.PageStore t.old g.old }
    requires few { IsFew t.old }
    requires some { 1 ≤ pages }
    ensures done { IfOk result (λ a. AnswersFile G.PageStore name.now pages byte t.old g.old a t.new
        g.new) }
    ensures broke { OnErr result (ChangesNothing G.PageStore t.old g.old t.new g.new) }
    ensures no_memory { is_success (new_file blank t.old name.now pages byte).answer ≡ false
        → IsOk result }
    ensures notes { NotesIn G.unpaged (Turns Makes) (G.behind g.old) (G.behind g.new) }
    ensures loans { G.loans g.new ≡ G.loans g.old }
{
    if t.file_named(name).is_some() {
        return Ok(Answer::Error(Code::AlreadyExists));
    }
    if t.machine().blocks() - t.blocks_used() < pages {
        return Ok(Answer::Full);
    }
    match t.add_file(allocator, g, *name, pages, byte) {
        Ok(()) => Ok(Answer::Ok),
        Err(MakeFault::Memory) => Err(NoMemory),
        Err(MakeFault::Write) => Ok(Answer::Fault),
    }
}

/// `flush` (FlushViewOfFile): of each page of the range, in rising order, whose section is a file,
/// the block holds the shared page's bytes from now on; size 0 means to the view's end. It is the
/// line's first call of devices. The tables stay.
///
/// In this order: `InvalidHandle` for a process that does not live; `InvalidAddress` where the
/// range does not lie in one view; `Fault` exactly where a write of the file device failed; the
/// pages before it were written.
#[tactic(auto, using(mm_store::proofs::Served::served_none))]
pub fn flush_view<G: PageStore>(t: &Tables, g: &mut G, pid: Pid, addr: u32, size: u32) -> Answer
    requires begins { BeginsWrites G.PageStore t.now g.old }
    ensures outcome { flush_told t.now pid.0 addr size (G.store g.new).report ≡ record {
      answer = result;
      world = t.now;
    } }
    ensures done { AnswersFlush G.PageStore t.now result g.old g.new }
    ensures holds { result ≡ answer.Ok →
        BlocksHold t.now (G.contents g.new) (G.store g.new).file_blocks pid.0 addr size }
    ensures passes { PassesIn G.unpaged (Flushes (keys_of_flush t.now pid.0 addr size))
        (G.store g.old) (G.store g.new) (G.behind g.old) (G.behind g.new) }
{
    if !t.has(pid) {
        return Answer::Error(Code::InvalidHandle);
    }
    t.sound();
    let meant = meant_range(addr, size);
    let region = match t.space(pid).view_around(meant) {
        Some(region) => region,
        None => return Answer::Error(Code::InvalidAddress),
    };
    let view = view_of(region.kind);
    let before = meant.first - region.pages.first;
    let count = flushed_count(size, region.pages.count - before, meant.count);
    flush_view_pages(t, g, view, before, count)
}

/// The pages that a view must have to be flushed: of size 0 the first one.
fn meant_range(addr: u32, size: u32) -> PageRange
    ensures { result ≡ range_of addr (if size == 0 then 1 else size) }
{
    if size == 0 {
        PageRange::of(addr, 1)
    } else {
        PageRange::of(addr, size)
    }
}

/// How many pages are flushed: of size 0 all that are left of the view.
fn flushed_count(size: u32, left: u32, meant: u32) -> u32
    ensures { result ≡ (if size == 0 then left else meant) }
{
    if size == 0 { left } else { meant }
}

/// Flushes `count` pages of a view from its page `before` on; those of a page-file section have no
/// blocks.
#[tactic(auto, using(mm_store::proofs::Served::served_none))]
fn flush_view_pages<G: PageStore>(
    t: &Tables,
    g: &mut G,
    view: View,
    before: u32,
    count: u32,
) -> Answer
    requires begins { BeginsWrites G.PageStore t.now g.old }
    requires area { view.area.0 < length t.now.areas }
    requires within { view.first + before + count ≤ length (area_at t.now view.area.0).pages }
    ensures answer { (if nat_lt 0 (G.store g.new).report.file_writes.failed then answer.Fault else
        answer.Ok) ≡ result }
    ensures done { AnswersFlush G.PageStore t.now result g.old g.new }
    ensures held { result ≡ answer.Ok →
        AreHeld (λ k. file_block_in t.now k) (G.contents g.new) (G.store g.new).file_blocks
        view.area.0
        (view.first + before) count }
    ensures passes { PassesIn G.unpaged
        (Flushes (if is_some (area_at t.now view.area.0).file_block then
        keys_from view.area.0 (view.first + before) count else [])) (G.store g.old) (G.store g.new)
        (G.behind g.old) (G.behind g.new) }
{
    t.sound();
    let area = t.area(view.area);
    // The section's pages are numbered in 32 bits, and so are those of its view.
    let _total = area.len();
    match area.first_block() {
        None => Answer::Ok,
        Some(block) => match flush_pages(g, view.area, view.first + before, count, block) {
            Ok(()) => Answer::Ok,
            Err(WriteFault) => Answer::Fault,
        },
    }
}

/// Flushes `count` pages of a file's area from the index `first` on, in rising order, up to the
/// first that is not written. The pages have blocks in a row, the page with the index i the block
/// `block + i`.
fn flush_pages<G: PageStore>(
    g: &mut G,
    area: Area,
    first: u32,
    count: u32,
    block: Block,
) -> Result<(), WriteFault>
    requires kind { (G.store g.old).kind ≡ line_kind.Call }
    requires few { first + count < 2 ^ 32 }
    requires begun { (G.store g.old).report.file_writes.failed ≡ 0 }
    requires blocks { InBlocks (G.store g.old).block_of area.0 first count block.0 }
    ensures flushes { FlushesBlocks G.PageStore g.old g.new }
    ensures held { OnOk result (HoldsPages G.PageStore area.0 first count g.old g.new) }
    ensures broke { OnErr result (FailsWrite G.PageStore g.old g.new) }
    ensures passes { PassesIn G.unpaged (Flushes (keys_from area.0 first count)) (G.store g.old)
        (G.store g.new) (G.behind g.old) (G.behind g.new) }
{
    for i in 0..count {
        g.flush(Key::Shared(area, first + i))?;
    }
    Ok(())
}
