ghost use Rattle.std.specs.Prelude.{◌≡◌, ◌≤◌, true, IfOk};
ghost use Rattle.mm_world.specs.{blank, private_region, new_row, is_protection_among, private_protections, RowsFit, SectionOf, pages_of, Found};
ghost use Rattle.mm_world.specs.{view_region, first_protection};
ghost use Rattle.mm_address_spaces.specs.Shown.{shown_row, new_flags, new_view_row};
ghost use Rattle.mm_types.specs.declared.views.Kind.TheVariants as kind;

use crate::PageRange;
use crate::rows::{RESERVED, base_protection, is_guarded};
use mm_types::{AllocFlags, Kind, NoMemory, Prot, View, ViewAccess, Vpn};
use mm_vad::{Bits, Region, Row, Rows};
use std::alloc::Global;
use std::marker::Model;

/// A region with its rows, ready to be added to an address space.
#[derive(Drop)]
pub struct NewRegion {
    pub(crate) region: Region,
}

impl Model for NewRegion {
    ghost use Rattle.mm_world.specs.{RegionOf};
    ghost use Rattle.mm_address_spaces.specs.Shown.{region_of};
    ghost use Rattle.mm_address_spaces.specs.Finds.{IsWholeRegion};

    ghost Value = { RegionOf (Unit {0}) };

    ghost view = { λ n. region_of n.region };

    ghost invariant = { λ n. IsWholeRegion n.region };
}

// The row of each page of a new private region.
fn new_row(alloc_type: u32, prot: u32) -> Row
    ensures { shown_row kind.Private result ≡ new_row blank alloc_type prot }
{
    if alloc_type == AllocFlags::RESERVE.0 {
        RESERVED
    } else {
        Row {
            committed: true,
            prot: base_protection(prot),
            guard: is_guarded(prot),
            ..RESERVED
        }
    }
}

// The first protection of a view's pages.
fn first_prot(access: ViewAccess) -> u32
    ensures { result ≡ first_protection access }
{
    match access {
        ViewAccess::Read => Prot::READONLY.0,
        ViewAccess::Write => Prot::READWRITE.0,
        ViewAccess::Copy => Prot::WRITECOPY.0,
    }
}

// The row of each page of a new view.
fn view_row(view: View) -> Row
    ensures { shown_row (kind.View view) result ≡ new_view_row view.access }
{
    Row {
        prot: Prot(first_prot(view.access)),
        marked: matches!(view.access, ViewAccess::Copy),
        ..RESERVED
    }
}

// The flags of a region of `n` pages, none of them written, where it is watched.
fn new_flags(alloc: Global, watched: bool, n: u32) -> Result<Option<Bits>, NoMemory>
    ensures { IfOk result (λ flags. flags ≡ new_flags watched n) }
{
    if watched {
        Ok(Some(Bits::new(alloc, n)?))
    } else {
        Ok(None)
    }
}

impl NewRegion {
    /// A private region: its pages are reserved where `alloc_type` is MEM_RESERVE (0x2000) alone,
    /// and committed otherwise, with the protection `prot`, guard (0x100) included. Where it is
    /// watched, none of its pages is written. `NoMemory` where a request for memory was refused.
    pub fn private(
        alloc: Global,
        watched: bool,
        alloc_type: u32,
        prot: u32,
        range: PageRange,
    ) -> Result<NewRegion, NoMemory>
        requires prot { is_protection_among private_protections prot ≡ true }
        ensures ok { IfOk result (λ r. r ≡ private_region blank watched alloc_type prot range) }
        ensures pages { IfOk result (λ r. pages_of r ≡ range) }
        ensures fit { IfOk result (λ r. RowsFit r) }
    {
        let rows = Rows::new(alloc, range.count, new_row(alloc_type, prot))?;
        let flags = new_flags(alloc, watched, range.count)?;
        Ok(NewRegion {
            region: Region {
                base: Vpn(range.first),
                pages: range.count,
                alloc_prot: Prot(prot),
                kind: Kind::Private,
                rows,
                watched: flags,
            },
        })
    }

    /// A view of a section, each of whose pages has the first protection of the view's access and,
    /// in a copy view, a mark. `NoMemory` where a request for memory was refused.
    pub fn view(alloc: Global, view: View, range: PageRange) -> Result<NewRegion, NoMemory>
        ensures ok { IfOk result (λ r. (s : Found SectionOf) → s.place ≡ view.section.0 →
            s.thing.area ≡ view.area.0 → r ≡ view_region s view.access view.first range) }
        ensures kind { IfOk result (λ r. r.kind ≡ kind.View view) }
        ensures pages { IfOk result (λ r. pages_of r ≡ range) }
        ensures fit { IfOk result (λ r. RowsFit r) }
    {
        let rows = Rows::new(alloc, range.count, view_row(view))?;
        Ok(NewRegion {
            region: Region {
                base: Vpn(range.first),
                pages: range.count,
                alloc_prot: Prot(first_prot(view.access)),
                kind: Kind::View(view),
                rows,
                watched: None,
            },
        })
    }
}
