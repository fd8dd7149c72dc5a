ghost use Rattle.std.specs.Prelude.{◌≡◌, ◌≤◌, true, is_some, map, Option, Some, None, option_map};
ghost use Rattle.mm_types.specs.{Key, address_of, is_user_page};
ghost use Rattle.mm_world.specs.{Page, RegionOf, ProcessOf, Found, process_of, region_with, query, page_info, watch, reset_watch, watched_around};
ghost use Rattle.mm_world.specs.{written_in};
ghost use Rattle.mm_store.specs.{StoreOf};
ghost use Rattle.mm_object_tables.specs.{FitsTables, Called};
ghost use Rattle.mm_calls.specs.{after_watch, StaysFit};

use crate::parameters::is_user_page;
use mm_address_spaces::{PageInfo, PageRange};
use mm_object_tables::Tables;
use mm_types::{Answer, Code, PAGE_SIZE, PageList, Pid, QueryInfo};

/// `query` (VirtualQuery): what is told of the pages that are alike from the one of the address on.
/// Nothing changes.
///
/// `InvalidHandle` for a process that does not live, `InvalidParameter` for an address outside the
/// user pages.
pub fn query(t: &Tables, pid: Pid, addr: u32) -> Answer
    ensures { query t.now pid.0 addr ≡ record { answer = result; world = t.now } }
{
    if !t.has(pid) {
        return Answer::Error(Code::InvalidHandle);
    }
    let page = addr / PAGE_SIZE;
    if !is_user_page(page) {
        return Answer::Error(Code::InvalidParameter);
    }
    Answer::Info(page_info(t, pid, page))
}

/// What is told of a user page of a living process.
fn page_info(t: &Tables, pid: Pid, page: u32) -> QueryInfo
    requires lives { is_some (process_of t.now pid.0) ≡ true }
    requires user { is_user_page page ≡ true }
    ensures { (p : ProcessOf (Unit {0})) → process_of t.now pid.0 ≡ Some p →
        result ≡ page_info t.now p.regions page (region_with p.regions page) }
{
    t.sound();
    let space = t.space(pid);
    match space.info(page) {
        PageInfo::Told(info) => info,
        PageInfo::InView(view) => space.view_info(page, t.area(view.area)),
    }
}

/// `watch` (GetWriteWatch): the lowest pages of a range that were written, at most `count` (1 to
/// 16). They are unwritten from now on, where that is asked for (WRITE_WATCH_FLAG_RESET). It takes
/// no memory.
///
/// In this order: `InvalidHandle` for a process that does not live; `InvalidParameter` for a size
/// of 0, or pages that do not all lie in one watched region.
pub fn watch(t: &mut Tables, pid: Pid, unwrites: bool, addr: u32, size: u32, count: u32) -> Answer
    requires few { count ≤ 16 }
    ensures called { (contents : Key → Option Page) (s : StoreOf) → FitsTables t.old contents s
        → Called (watch t.old pid.0 unwrites addr size count)
        t.old contents result t.new contents }
    ensures fits { StaysFit t.old t.new }
{
    if !t.has(pid) {
        return Answer::Error(Code::InvalidHandle);
    }
    if size == 0 {
        return Answer::Error(Code::InvalidParameter);
    }
    match written_pages(t, pid, unwrites, PageRange::of(addr, size), count) {
        Some(pages) => Answer::Watched(pages),
        None => Answer::Error(Code::InvalidParameter),
    }
}

/// The addresses of the lowest written pages of a range of a living process, at most `count`. They
/// are unwritten from now on, where that is asked for. None exactly where the range lies in no
/// watched region.
#[tactic(auto, using(crate::proofs::Decided::after_taken, crate::proofs::Decided::after_told))]
fn written_pages(
    t: &mut Tables,
    pid: Pid,
    unwrites: bool,
    range: PageRange,
    count: u32,
) -> Option<PageList>
    requires lives { is_some (process_of t.old pid.0) ≡ true }
    requires few { count ≤ 16 }
    ensures found { (p : ProcessOf (Unit {0})) → process_of t.old pid.0 ≡ Some p
        → result ≡ option_map (λ r. map address_of (written_in r.thing range count))
        (watched_around p.regions range) }
    ensures after { (p : ProcessOf (Unit {0})) (r : Found (RegionOf (Unit {0})))
        → process_of t.old pid.0 ≡ Some p → watched_around p.regions range ≡ Some r
        → t.new ≡ after_watch t.old pid.0 p r unwrites range count }
    ensures none { (p : ProcessOf (Unit {0})) → process_of t.old pid.0 ≡ Some p
        → watched_around p.regions range ≡ None → t.new ≡ t.old }
    ensures fits { StaysFit t.old t.new }
{
    if unwrites {
        t.take_written(pid, range, count)
    } else {
        t.space(pid).written(range, count)
    }
}

/// `resetwatch` (ResetWriteWatch): the pages of a range are unwritten from now on. It takes no
/// memory.
///
/// Its refusals are those of `watch`.
pub fn reset_watch(t: &mut Tables, pid: Pid, addr: u32, size: u32) -> Answer
    ensures called { (contents : Key → Option Page) (s : StoreOf) → FitsTables t.old contents s
        → Called (reset_watch t.old pid.0 addr size) t.old contents result t.new contents }
    ensures fits { StaysFit t.old t.new }
{
    if !t.has(pid) {
        return Answer::Error(Code::InvalidHandle);
    }
    if size == 0 {
        return Answer::Error(Code::InvalidParameter);
    }
    match t.reset_written(pid, PageRange::of(addr, size)) {
        Some(()) => Answer::Ok,
        None => Answer::Error(Code::InvalidParameter),
    }
}
