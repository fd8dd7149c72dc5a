//! What a directory keeps of one section, and the names by which sections are found.
ghost use Rattle.std.specs.Prelude.{◌≡◌, ◌≤◌, ◌+◌, true, is_some, IsSomeAnd, option_map, option_and_then};
ghost use Rattle.indexmap.specs.IndexMap.{spare};
ghost use Rattle.mm_types.specs.{Text};
ghost use Rattle.mm_sections.specs.Directories.{section_settled, recounted, CanRecount};
ghost use Rattle.mm_sections.specs.Names.{counted_section, found_by, name_lost, without_name, with_name};

use crate::name_keys::NameKey;
use indexmap::IndexMap;
use mm_types::{Area, Name, Prot, SectionId};

/// A section that lives, with how many handles and views refer to it.
#[derive(Drop)]
pub(crate) struct Entry {
    pub(crate) prot: Prot,
    pub(crate) name: Option<Name>,
    pub(crate) area: Area,
    pub(crate) handles: u64,
    pub(crate) views: u64,
}

/// One handle or one view more refers to a section, or one less.
#[derive(Clone, Copy)]
pub(crate) enum ReferenceChange {
    HandleMore,
    ViewMore,
    HandleLess,
    ViewLess,
}

/// One reference more or less to a section that lives.
pub(crate) fn recount(section: &mut Option<Entry>, change: ReferenceChange)
    requires counts { IsSomeAnd (option_map counted_section section.old) (CanRecount change) }
    ensures { option_map counted_section section.new ≡
        option_map (recounted change) (option_map counted_section section.old) }
{
    let Some(entry) = section else { unreachable!() };
    match change {
        ReferenceChange::HandleMore => entry.handles += 1,
        ReferenceChange::ViewMore => entry.views += 1,
        ReferenceChange::HandleLess => entry.handles -= 1,
        ReferenceChange::ViewLess => entry.views -= 1,
    }
}

/// A section that lives loses its name where no handle refers to it, and ends where no view does
/// either. Gives the name that it lost.
pub(crate) fn settle(section: &mut Option<Entry>) -> Option<Name>
    requires lives { is_some section.old ≡ true }
    ensures settled { option_map counted_section section.new ≡
        option_and_then section_settled (option_map counted_section section.old) }
    ensures name { result ≡ option_and_then name_lost (option_map counted_section section.old) }
{
    let Some(entry) = section else { unreachable!() };
    if entry.handles > 0 {
        return None;
    }
    let name = entry.name;
    if entry.views > 0 {
        entry.name = None;
    } else {
        *section = None;
    }
    name
}

/// A section is found by its name, if it has one.
pub(crate) fn remember(names: &mut IndexMap<NameKey, SectionId>, name: &Option<Name>, id: SectionId)
    requires room { 1 ≤ spare names.old }
    ensures found { (t : Text) →
        found_by names.new t ≡ with_name name.now id.0 (found_by names.old) t }
    ensures room { spare names.old ≤ spare names.new + 1 }
{
    if let Some(name) = name {
        let Ok(_) = names.insert(NameKey::new(name), id) else {
            unreachable!()
        };
    }
}

/// No section is found by a name that was lost.
pub(crate) fn forget(names: &mut IndexMap<NameKey, SectionId>, name: &Option<Name>)
    ensures found { (t : Text) →
        found_by names.new t ≡ without_name name.now (found_by names.old) t }
    ensures room { spare names.old ≤ spare names.new }
{
    if let Some(name) = name {
        names.swap_remove(&NameKey::new(name));
    }
}
