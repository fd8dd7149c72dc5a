ghost use Rattle.std.specs.Prelude.{◌≡◌, ◌+◌, ◌<◌, ◌≤◌, ◌^◌, IsSome, true, is_some, length, map, take, drop, count_by, Some};
ghost use Rattle.mm_types.specs.{base_of};
ghost use Rattle.mm_types.specs.declared.views.Kind.TheVariants as kind;
ghost use Rattle.mm_vad.specs.{IsSpace as IsVad, range_at};
ghost use Rattle.mm_world.specs.{RowOf, region_with, has_guard, marked_prot, protected, is_one_of, private_protections, marked_protections};
ghost use Rattle.mm_world.specs.{view_protections};
ghost use Rattle.mm_address_spaces.specs.Shown.{has_own, shown_row, shown_regions};
ghost use Rattle.mm_address_spaces.specs.RowTests.{passes};
ghost use Rattle.mm_address_spaces.specs.RowChanges.{changed_row, RunChanged, RowsChanged, IsInRegion};

use mm_types::{Kind, Prot, View, ViewAccess, Vpn};
use mm_vad::{Row, Rows, Space};

// ---- what is asked of rows

/// What is asked of a page's row.
#[derive(Clone, Copy)]
pub(crate) enum RowTest {
    /// The page has bytes of its own.
    Owned,
    /// It has no mark.
    Unmarked,
    /// It has a mark.
    Marked,
    /// It can have this protection, guard aside.
    Accepts(u32),
}

// Whether the page has bytes of its own.
pub(crate) fn has_own(region_kind: Kind, row: Row) -> bool
    ensures { result ≡ has_own region_kind row }
{
    match region_kind {
        Kind::Private => row.committed,
        Kind::View(_) => row.copied,
    }
}

// Whether a private page can have the protection, guard aside.
fn is_private_protection(prot: u32) -> bool
    ensures { result ≡ is_one_of private_protections (base_of prot) }
{
    matches!(prot % 0x100, 0x01 | 0x02 | 0x04 | 0x10 | 0x20 | 0x40)
}

// Whether a marked page can.
fn is_marked_protection(prot: u32) -> bool
    ensures { result ≡ is_one_of marked_protections (base_of prot) }
{
    matches!(prot % 0x100, 0x01 | 0x02 | 0x04 | 0x08)
}

// Whether a page without a mark can, in a view of this access.
fn is_view_protection(access: ViewAccess, prot: u32) -> bool
    ensures { result ≡ is_one_of (view_protections access) (base_of prot) }
{
    match access {
        ViewAccess::Read => matches!(prot % 0x100, 0x01 | 0x02 | 0x08),
        ViewAccess::Write => matches!(prot % 0x100, 0x01 | 0x02 | 0x04 | 0x08),
        ViewAccess::Copy => is_marked_protection(prot),
    }
}

impl RowTest {
    /// Whether the row passes, in a region of this kind.
    fn holds(self, region_kind: Kind, row: Row) -> bool
        ensures { result ≡ passes self region_kind (shown_row region_kind row) }
    {
        match self {
            RowTest::Owned => has_own(region_kind, row),
            RowTest::Unmarked => !row.marked,
            RowTest::Marked => row.marked,
            RowTest::Accepts(prot) => match region_kind {
                Kind::Private => is_private_protection(prot),
                Kind::View(_) if row.marked => is_marked_protection(prot),
                Kind::View(view) => is_view_protection(view.access, prot),
            },
        }
    }
}

/// How many of `count` rows of a region of this kind, from row `first` on, pass.
pub(crate) fn count_rows(
    rows: &Rows,
    region_kind: Kind,
    first: u32,
    count: u32,
    test: RowTest,
) -> u32
    requires inside { first + count ≤ length rows.now }
    requires fits { first + count < 2 ^ 32 }
    ensures { result ≡ count_by (passes test region_kind)
        (take count (drop first (map (shown_row region_kind) rows.now))) }
{
    let mut passing = 0;
    let mut done = 0;
    while done < count {
        let (row, n) = rows.equal_from(first + done, count - done);
        if test.holds(region_kind, row) {
            passing += n;
        }
        done += n;
    }
    passing
}

// ---- how rows change

/// What a call makes of the row of a page. Protections are as callers give them: a base protection,
/// with PAGE_GUARD (0x100) or without.
#[derive(Clone, Copy)]
pub(crate) enum RowChange {
    /// The page has bytes of its own and this protection (VirtualAlloc with MEM_COMMIT).
    Commit(u32),
    /// The page is reserved alone (VirtualFree with MEM_DECOMMIT).
    Decommit,
    /// The page gets this protection (VirtualProtect). In a view WRITECOPY marks it.
    Protect(u32),
    /// The page's guard is taken off, as by the first access.
    GuardOff,
    /// A marked page of a view was written to: it has bytes of its own.
    Copy,
}

/// The row of a page that is reserved alone.
pub(crate) const RESERVED: Row = Row {
    committed: false,
    prot: Prot(0),
    guard: false,
    copied: false,
    marked: false,
};

pub(crate) fn base_protection(prot: u32) -> Prot
    ensures { result.0 ≡ base_of prot }
{
    Prot(prot % Prot::GUARD.0)
}

pub(crate) fn is_guarded(prot: u32) -> bool
    ensures { result ≡ has_guard prot }
{
    prot / Prot::GUARD.0 == 1
}

// The row, with bytes of its own.
fn with_bytes(region_kind: Kind, row: Row) -> Row
    ensures { shown_row region_kind result ≡ record (shown_row region_kind row) { own = Some tt } }
{
    match region_kind {
        Kind::Private => Row {
            committed: true,
            ..row
        },
        Kind::View(_) => Row {
            copied: true,
            ..row
        },
    }
}

// Of a marked page READWRITE and WRITECOPY are one request.
fn marked_protection(copied: bool, base: u32) -> u32
    ensures { result ≡ marked_prot copied base }
{
    if base == Prot::READWRITE.0 || base == Prot::WRITECOPY.0 {
        if copied {
            Prot::READWRITE.0
        } else {
            Prot::WRITECOPY.0
        }
    } else {
        base
    }
}

// The row of a page of a view, with the protection.
fn protected_in_view(view: View, row: Row, prot: u32) -> Row
    ensures { shown_row (kind.View view) result ≡
        protected (kind.View view) prot (shown_row (kind.View view) row) }
{
    let base = prot % Prot::GUARD.0;
    let marked = row.marked || base == Prot::WRITECOPY.0;
    Row {
        prot: Prot(if marked {
            marked_protection(row.copied, base)
        } else {
            base
        }),
        guard: is_guarded(prot),
        marked,
        ..row
    }
}

// The row with the protection, in a region of this kind.
fn protected_row(region_kind: Kind, row: Row, prot: u32) -> Row
    ensures { shown_row region_kind result ≡ protected region_kind prot
        (shown_row region_kind row) }
{
    match region_kind {
        Kind::Private => Row {
            prot: base_protection(prot),
            guard: is_guarded(prot),
            ..row
        },
        Kind::View(view) => protected_in_view(view, row, prot),
    }
}

impl RowChange {
    /// The row after the change, in a region of this kind.
    fn of(self, region_kind: Kind, row: Row) -> Row
        ensures { shown_row region_kind result ≡ changed_row self region_kind
            (shown_row region_kind row) }
    {
        match self {
            RowChange::Commit(prot) => with_bytes(
                region_kind,
                Row {
                    prot: base_protection(prot),
                    guard: is_guarded(prot),
                    ..RESERVED
                },
            ),
            RowChange::Decommit => RESERVED,
            RowChange::Protect(prot) => protected_row(region_kind, row, prot),
            RowChange::GuardOff => Row {
                guard: false,
                ..row
            },
            RowChange::Copy => with_bytes(
                region_kind,
                Row {
                    prot: Prot(Prot::READWRITE.0),
                    ..row
                },
            ),
        }
    }
}

// Changes the rows of pages from `page` on, which lies in a region: those that are known to be
// equal, at least one and at most `count`. How many.
fn change_some(space: &mut Space, page: u32, count: u32, change: RowChange) -> u32
    requires there { IsSome (region_with (shown_regions space.old.regions) page) }
    requires some { 0 < count }
    ensures some { 0 < result }
    ensures within { result ≤ count }
    ensures after { RunChanged change (range_at page result) (shown_regions space.old.regions)
        (shown_regions space.new.regions) }
    ensures spare { space.new.spare ≡ space.old.spare }
    ensures kept { IsVad space.new.regions }
{
    let Some(region) = space.find(Vpn(page)) else {
        unreachable!()
    };
    let index = page - region.base.0;
    let most = count.min(region.pages - index);
    let (row, n) = region.rows.equal_from(index, most);
    let row = change.of(region.kind, row);
    space.fill_rows(Vpn(page), n, row);
    n
}

/// Changes the rows of `count` pages from `first` on, all of them in one region.
pub(crate) fn change_rows(space: &mut Space, first: u32, count: u32, change: RowChange)
    requires inside { IsInRegion (shown_regions space.old.regions) (range_at first count) }
    requires sound { IsVad space.old.regions }
    ensures after { RowsChanged change (range_at first count) (shown_regions space.old.regions)
        (shown_regions space.new.regions) }
    ensures spare { space.new.spare ≡ space.old.spare }
    ensures kept { IsVad space.new.regions }
{
    let mut done = 0;
    while done < count {
        done += change_some(space, first + done, count - done, change);
    }
}
