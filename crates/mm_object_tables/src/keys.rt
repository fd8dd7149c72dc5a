ghost use Rattle.std.specs.Prelude.{◌≡◌, ◌≤◌, ◌<◌, ◌+◌, ℕ, is_some, if◌then◌else◌, true, ◌&&◌, ◌-◌, None, length, count_by};
ghost use Rattle.mm_types.specs.{end_of, end_of_user_pages};
ghost use Rattle.mm_object_tables.specs.{low_half, high_half, CanAdd, one_page_range, KnownAt, KnownIn, is_owned_at, CanGo, CanGoAll, Gone, is_owned_among};
ghost use Rattle.mm_object_tables.specs.{owned_among, shared_at, is_committed_in, CanGiveUp, GivenUp, CanRelease, CanEnd, Emptied, ended_area, EndsArea};
ghost use Rattle.mm_object_tables.specs.{AddsOwn, GivesUpPages, GivesUpOwn, PassesAs};
ghost use Rattle.mm_store.specs.{IsAmong, place_at, page_rank};
ghost use Rattle.mm_world.specs.{own_page, area_charge, same_key, no_area, region_around};
ghost use Rattle.mm_store.specs.Housekeeping.{Ends};
ghost use Rattle.mm_store.specs.Leaving.{Leaving};
ghost use Rattle.mm_address_spaces.specs.{owned_in};

use mm_address_spaces::{AddressSpace, PageRange};
use mm_commit_charge::Commit;
use mm_sections::SectionPages;
use mm_store::PageStore;
use mm_types::{Area, Key, Pid, Vpn};

/// So many pages are gone through one by one, where some have bytes of their own.
const FEW_PAGES: u32 = 16;

/// The first half of a range of two pages or more.
fn low_half(range: PageRange) -> PageRange
    requires some { 2 ≤ range.count }
    ensures { result ≡ low_half range }
{
    PageRange {
        first: range.first,
        count: range.count / 2,
    }
}

/// The other half.
fn high_half(range: PageRange) -> PageRange
    requires some { 2 ≤ range.count }
    requires end { end_of range ≤ end_of_user_pages }
    ensures { result ≡ high_half range }
{
    let low = range.count / 2;
    PageRange {
        first: range.first + low,
        count: range.count - low,
    }
}

/// Whether a page has bytes of its own, of which this is known: only where nothing is, it is looked
/// up.
fn is_owned(space: &AddressSpace, page: u32, known: Option<bool>) -> bool
    requires known { KnownAt known space.now.regions page }
    ensures { result ≡ is_some (own_page space.now.regions page) }
{
    match known {
        Some(owned) => owned,
        None => space.is_owned(page),
    }
}

/// Adds the page's key if it is not committed, of which this is known.
#[tactic(auto, using(mm_store::proofs::Passed::turns_same))]
fn add_page<G: PageStore>(g: &mut G, space: &AddressSpace, pid: Pid, page: u32, known: Option<bool>)
    requires known { KnownAt known space.now.regions page }
    requires can { CanAdd pid (one_page_range page) space.now.regions (G.contents g.old)
        (G.store g.old) }
    ensures { AddsOwn G.PageStore pid (one_page_range page) g.old g.new }
{
    if !is_owned(space, page, known) {
        g.add(Key::Private(pid, Vpn(page)));
    }
}

/// Adds the keys of those pages of the range that are not committed, of which this is known, in
/// rising order.
#[tactic(auto, using(mm_store::proofs::Passed::turns_same))]
pub(crate) fn add_pages<G: PageStore>(
    g: &mut G,
    space: &AddressSpace,
    pid: Pid,
    range: PageRange,
    known: Option<bool>,
)
    requires known { KnownIn known space.now.regions range }
    requires end { end_of range ≤ end_of_user_pages }
    requires can { CanAdd pid range space.now.regions (G.contents g.old) (G.store g.old) }
    ensures { AddsOwn G.PageStore pid range g.old g.new }
{
    for i in 0..range.count {
        add_page(g, space, pid, range.first + i, known);
    }
}

/// Removes a key if it is owned.
#[tactic(auto, using(mm_store::proofs::Passed::turns_same))]
fn remove_if<G: PageStore>(g: &mut G, owned: bool, key: Key)
    requires can { CanGo key owned (G.store g.old) }
    ensures gone { Gone (λ k. owned && same_key k key) (if owned then 1 else 0) (G.contents g.old)
        (G.contents g.new) (G.store g.old) (G.store g.new) }
    ensures passes { (held : Leaving) (from to : ℕ) → IsAmong (G.contents g.old) held from to key →
        PassesAs G.PageStore (Ends held from to) g.old g.new }
    ensures loans { G.loans g.new ≡ G.loans g.old }
{
    if owned {
        g.remove(key);
    }
}

/// Removes the keys of an area's committed pages, in rising order.
#[tactic(auto, using(mm_store::proofs::Passed::turns_same))]
fn remove_shared<G: PageStore>(g: &mut G, pages: &SectionPages, area: Area)
    requires can { CanGoAll (shared_at area) (is_committed_in pages.now) (length pages.now.pages)
        (G.store g.old) }
    requires live { (i : ℕ) → is_some (G.contents g.old (shared_at area i)) ≡
        is_committed_in pages.now i }
    ensures gone { Gone (is_owned_among (shared_at area) (is_committed_in pages.now)
        (length pages.now.pages)) (owned_among (is_committed_in pages.now) (length pages.now.pages))
        (G.contents g.old) (G.contents g.new) (G.store g.old) (G.store g.new) }
    ensures passes { (held : Leaving) (from to : ℕ) → from ≤ held.rank area.0 →
        held.rank area.0 < to → PassesAs G.PageStore (Ends held from to) g.old g.new }
    ensures loans { G.loans g.new ≡ G.loans g.old }
{
    let count = pages.len();
    for i in 0..count {
        remove_if(g, pages.is_committed(i), Key::Shared(area, i));
    }
}

/// Gives up one page of a process: its key, where it has bytes of its own, of which this is known,
/// and then its place, if places go.
#[tactic(auto, using(mm_store::proofs::Passed::turns_same))]
fn release_page<G: PageStore>(
    g: &mut G,
    space: &AddressSpace,
    pid: Pid,
    page: u32,
    known: Option<bool>,
    goes: bool,
)
    requires known { KnownAt known space.now.regions page }
    requires can { CanGiveUp goes pid page (is_some (own_page space.now.regions page))
        (G.contents g.old) (G.store g.old) }
    ensures given_up { GivenUp goes pid (one_page_range page)
        (if is_some (own_page space.now.regions page) then 1 else 0) (G.contents g.old)
        (G.contents g.new) (G.store g.old) (G.store g.new) }
    ensures passes { (held : Leaving) (from to : ℕ) → held.places (place_at pid page) ≡ true →
        from ≤ page_rank page → page_rank (page + 1) ≤ to →
        PassesAs G.PageStore (Ends held from to) g.old g.new }
    ensures loans { G.loans g.new ≡ G.loans g.old }
{
    remove_if(
        g,
        is_owned(space, page, known),
        Key::Private(pid, Vpn(page)),
    );
    if goes {
        g.unbind(pid, Vpn(page), 1);
    }
}

/// Gives up pages of a process one by one in rising order, each with its key before the next; of
/// each this is known.
fn release_each<G: PageStore>(
    g: &mut G,
    space: &AddressSpace,
    pid: Pid,
    range: PageRange,
    known: Option<bool>,
    goes: bool,
)
    requires known { KnownIn known space.now.regions range }
    requires end { end_of range ≤ end_of_user_pages }
    requires can { CanRelease goes pid range space.now.regions (G.contents g.old) (G.store g.old) }
    ensures { GivesUpOwn G.PageStore space.now.regions goes pid range g.old g.new }
{
    for i in 0..range.count {
        release_page(g, space, pid, range.first + i, known, goes);
    }
}

/// Gives up pages of a process of which none has bytes of its own, all at once.
#[tactic(auto, using(mm_store::proofs::Passed::turns_same))]
fn release_empty<G: PageStore>(
    g: &mut G,
    space: &AddressSpace,
    pid: Pid,
    range: PageRange,
    goes: bool,
)
    requires can { CanRelease goes pid range space.now.regions (G.contents g.old) (G.store g.old) }
    requires none { owned_among (is_owned_at space.now.regions range.first) range.count ≡ 0 }
    ensures { GivesUpOwn G.PageStore space.now.regions goes pid range g.old g.new }
{
    if goes {
        g.unbind(pid, Vpn(range.first), range.count);
    }
}

/// Gives up pages of one region of a process in rising order, each key before its place; `owned` of
/// them have bytes of their own. Pages without are passed over by runs, found by halving.
fn release_some<G: PageStore>(
    g: &mut G,
    space: &AddressSpace,
    pid: Pid,
    range: PageRange,
    owned: u32,
    goes: bool,
)
    requires end { end_of range ≤ end_of_user_pages }
    requires around { is_some (region_around space.now.regions range) ≡ true }
    requires owned { owned ≡ owned_in space.now.regions range }
    requires can { CanRelease goes pid range space.now.regions (G.contents g.old) (G.store g.old) }
    ensures { GivesUpOwn G.PageStore space.now.regions goes pid range g.old g.new }
{
    space.sound();
    if owned == 0 {
        release_empty(g, space, pid, range, goes);
    } else if owned == range.count {
        release_each(g, space, pid, range, Some(true), goes);
    } else if range.count <= FEW_PAGES {
        release_each(g, space, pid, range, None, goes);
    } else {
        let low = low_half(range);
        let high = high_half(range);
        let low_owned = space.owned(low);
        release_some(g, space, pid, low, low_owned, goes);
        release_some(g, space, pid, high, owned - low_owned, goes);
    }
}

/// Gives up pages of one region of a process in rising order, each with its key before the next,
/// and their places, or these stay bound. Tells how many had bytes of their own.
pub(crate) fn release_pages<G: PageStore>(
    g: &mut G,
    space: &AddressSpace,
    pid: Pid,
    range: PageRange,
    goes: bool,
) -> u32
    requires end { end_of range ≤ end_of_user_pages }
    requires around { is_some (region_around space.now.regions range) ≡ true }
    requires can { CanRelease goes pid range space.now.regions (G.contents g.old) (G.store g.old) }
    ensures owned { result ≡ owned_in space.now.regions range }
    ensures gives_up { GivesUpPages G.PageStore goes pid range g.old g.new }
{
    let owned = space.owned(range);
    release_some(g, space, pid, range, owned, goes);
    owned
}

/// Closes the area of a page-file section that has ended.
fn empty_area<G: PageStore>(g: &mut G, pages: &mut SectionPages, commit: &mut Commit, area: Area)
    requires can { CanEnd area pages.old (G.contents g.old) (G.store g.old) }
    requires charged { count_by is_some pages.old.pages ≤ commit.old.charge }
    ensures ended { pages.new ≡ no_area }
    ensures refunded { commit.new ≡ record commit.old {
      charge = commit.old.charge - count_by is_some pages.old.pages;
    } }
    ensures emptied { Emptied area pages.old (G.contents g.old) (G.contents g.new) (G.store g.old)
        (G.store g.new) }
    ensures passes { (held : Leaving) (from to : ℕ) → from ≤ held.rank area.0 →
        held.rank area.0 < to → PassesAs G.PageStore (Ends held from to) g.old g.new }
    ensures loans { G.loans g.new ≡ G.loans g.old }
{
    let freed = pages.committed();
    remove_shared(g, pages, area);
    g.close_area(area);
    pages.end();
    commit.refund(freed);
}

/// The section of an area has ended: with a page-file section end its pages, a file's stay.
#[tactic(auto, using(mm_store::proofs::Passed::turns_same))]
pub(crate) fn end_area<G: PageStore>(
    g: &mut G,
    pages: &mut SectionPages,
    commit: &mut Commit,
    area: Area,
)
    requires can { pages.old.file_block ≡ None →
        CanEnd area pages.old (G.contents g.old) (G.store g.old) }
    requires charged { area_charge pages.old ≤ commit.old.charge }
    ensures ended { pages.new ≡ ended_area pages.old }
    ensures refunded { commit.new ≡ record commit.old {
      charge = commit.old.charge - area_charge pages.old;
    } }
    ensures ends { EndsArea area pages.old (G.contents g.old) (G.contents g.new) (G.store g.old)
        (G.store g.new) }
    ensures passes { (held : Leaving) (from to : ℕ)
        → (pages.old.file_block ≡ None → (from ≤ held.rank area.0) × (held.rank area.0 < to)) →
        PassesAs G.PageStore (Ends held from to) g.old g.new }
    ensures loans { G.loans g.new ≡ G.loans g.old }
{
    if pages.first_block().is_none() {
        empty_area(g, pages, commit, area);
    }
}
