ghost use Rattle.std.specs.Prelude.{◌≡◌, ◌==◌, ◌&&◌, not, nat_le};
ghost use Rattle.mm_types.specs.{is_granule_address, is_user_page};
ghost use Rattle.mm_world.specs.{are_alloc_parameters, is_reserving, is_watched_type, plain_type, are_free_parameters, are_protect_parameters};
ghost use Rattle.mm_world.specs.{is_protection_among, private_protections, all_protections, are_section_flags, section_prot, is_reserve};
ghost use Rattle.mm_world.specs.{largest_section, view_access, may_view};

use mm_types::{AllocFlags, END_OF_USER_PAGES, FIRST_USER_PAGE, GRANULE_SIZE, Prot, ViewAccess};

/// MEM_WRITE_WATCH and MEM_RESERVE.
const WATCHED_RESERVE: u32 = AllocFlags::WRITE_WATCH.0 + AllocFlags::RESERVE.0;

/// PAGE_NOACCESS with PAGE_GUARD, which no page can have.
const GUARDED_NO_ACCESS: u32 = 0x101;

/// The largest page-file section, in bytes.
const LARGEST_SECTION: u32 = 0x7FFE0000;

/// SEC_RESERVE; SEC_COMMIT is twice that.
const RESERVE_FLAG: u32 = 0x4000000;

/// Whether private pages can have the protection, guard included.
fn is_private_protection(prot: u32) -> bool
    ensures { result ≡ is_protection_among private_protections prot }
{
    matches!(
        prot % Prot::GUARD.0,
        0x01 | 0x02 | 0x04 | 0x10 | 0x20 | 0x40
    ) && prot < 0x200
        && prot != GUARDED_NO_ACCESS
}

/// Whether any page can have the protection, guard included.
fn is_protection(prot: u32) -> bool
    ensures { result ≡ is_protection_among all_protections prot }
{
    matches!(
        prot % Prot::GUARD.0,
        0x01 | 0x02 | 0x04 | 0x08 | 0x10 | 0x20 | 0x40 | 0x80
    ) && prot < 0x200
        && prot != GUARDED_NO_ACCESS
}

/// Whether an `alloc` of this type makes a watched region: MEM_WRITE_WATCH together with
/// MEM_RESERVE.
pub(crate) fn is_watched_type(kind: u32) -> bool
    ensures { result ≡ is_watched_type kind }
{
    kind == WATCHED_RESERVE || kind == WATCHED_RESERVE + AllocFlags::COMMIT.0
}

/// The type without MEM_WRITE_WATCH, where it makes a watched region; any other type as it is.
pub(crate) fn plain_type(kind: u32) -> u32
    ensures { result ≡ plain_type kind }
{
    if is_watched_type(kind) {
        kind - AllocFlags::WRITE_WATCH.0
    } else {
        kind
    }
}

/// Whether an `alloc` with these can be tried.
pub(crate) fn are_alloc_parameters(size: u32, kind: u32, prot: u32) -> bool
    ensures { result ≡ are_alloc_parameters size kind prot }
{
    (kind == AllocFlags::COMMIT.0
        || kind == AllocFlags::RESERVE.0
        || kind == AllocFlags::COMMIT.0 + AllocFlags::RESERVE.0)
        && size != 0
        && is_private_protection(prot)
}

/// Whether an `alloc` makes a new region.
pub(crate) fn is_reserving(addr: u32, kind: u32) -> bool
    ensures { result ≡ is_reserving addr kind }
{
    addr == 0 || kind != AllocFlags::COMMIT.0
}

/// Whether a `free` with these can be tried.
pub(crate) fn are_free_parameters(size: u32, kind: u32) -> bool
    ensures { result ≡ are_free_parameters size kind }
{
    kind == AllocFlags::DECOMMIT.0 || kind == AllocFlags::RELEASE.0 && size == 0
}

/// Whether a `protect` with these can be tried.
pub(crate) fn are_protect_parameters(size: u32, prot: u32) -> bool
    ensures { result ≡ are_protect_parameters size prot }
{
    size != 0 && is_protection(prot)
}

/// Whether the page is a user page.
pub(crate) fn is_user_page(page: u32) -> bool
    ensures { result ≡ is_user_page page }
{
    FIRST_USER_PAGE <= page && page < END_OF_USER_PAGES
}

/// Whether the flags are a section's protection, alone, with SEC_COMMIT or with SEC_RESERVE.
pub(crate) fn are_section_flags(flags: u32) -> bool
    ensures { result ≡ are_section_flags flags }
{
    matches!(flags % RESERVE_FLAG, 0x02 | 0x04 | 0x08) && flags / RESERVE_FLAG <= 2
}

/// Whether a page-file section of this size can be made with these flags.
pub(crate) fn are_section_parameters(size: u32, flags: u32) -> bool
    ensures { result ≡ (are_section_flags flags && not (size == 0) && nat_le size largest_section) }
{
    are_section_flags(flags) && size != 0 && size <= LARGEST_SECTION
}

/// The protection among the flags.
pub(crate) fn section_prot(flags: u32) -> Prot
    ensures { result ≡ record { 0 = section_prot flags } }
{
    Prot(flags % RESERVE_FLAG)
}

/// Whether SEC_RESERVE is among the flags: no page is committed yet.
pub(crate) fn is_reserve(flags: u32) -> bool
    ensures { result ≡ is_reserve flags }
{
    flags / RESERVE_FLAG == 1
}

/// What a view is mapped for, by the FILE_MAP flags.
pub(crate) fn view_access(access: u32) -> Option<ViewAccess>
    ensures { result ≡ view_access access }
{
    match access {
        1 => Some(ViewAccess::Copy),
        4 => Some(ViewAccess::Read),
        2 | 6 | 0xF001F => Some(ViewAccess::Write),
        _ => None,
    }
}

/// Whether a section with this protection can be viewed so.
pub(crate) fn may_view(access: ViewAccess, prot: Prot) -> bool
    ensures { result ≡ may_view access prot.0 }
{
    match access {
        ViewAccess::Read | ViewAccess::Copy => true,
        ViewAccess::Write => prot.0 == Prot::READWRITE.0,
    }
}

/// Whether the address, or the offset, is that of a granule.
pub(crate) fn is_granule_address(addr: u32) -> bool
    ensures { result ≡ is_granule_address addr }
{
    addr % GRANULE_SIZE == 0
}
