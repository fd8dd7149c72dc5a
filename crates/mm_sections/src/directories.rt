ghost use Rattle.std.specs.Prelude.{◌≡◌, ◌≤◌, ◌<◌, ◌+◌, ◌^◌, ◌++◌, [], ◌∷◌, true, is_none, is_some, length, Some, None, IfSome, OnOk, option_map, option_and_then, IsSomeAnd, slice_set, find, position, bytes_eq};
ghost use Rattle.mm_world.specs.{numbered, is_named};
ghost use Rattle.mm_sections.specs.Directories.{CountedSection, sections_of, told_of_section, section_settled, new_entry, one_handle_more, one_view_more, one_handle_less, one_view_less, recounted, CanRecount, id_of, area_of};

use crate::entries::{Entry, ReferenceChange, forget, recount, remember, settle};
use crate::name_keys::NameKey;
use indexmap::IndexMap;
use mm_types::{Area, Name, NoMemory, Prot, SectionId};
use std::alloc::Global;
use std::marker::Model;

/// What is told of a section: the protection that it was made with, and its control area.
#[derive(Clone, Copy, PartialEq, Eq)]
pub struct Section {
    pub prot: Prot,
    pub area: Area,
}

/// The sections of a machine and their names, with how many handles and views refer to each, and
/// its files. Sections are numbered from 0 as they are made, and never again.
#[derive(Drop)]
pub struct Directory {
    sections: Vec<Option<Entry>>,
    // The sections that have names, by them.
    names: IndexMap<NameKey, SectionId>,
    // The control areas of the files, in the order in which these were made.
    files: IndexMap<NameKey, Area>,
    // For how many sections and files each collection has room.
    room: usize,
}

impl Model for Directory {
    ghost use Rattle.std.specs.Prelude.{map, option_map, length, ◌≤◌, ◌-◌, ◌^◌};
    ghost use Rattle.std.specs.Vec.{vec_capacity, vec_len};
    ghost use Rattle.indexmap.specs.IndexMap.{spare};
    ghost use Rattle.mm_sections.specs.Directories.{DirectoryOf, sections_of};
    ghost use Rattle.mm_sections.specs.Names.{counted_section, file_of, found_by, IsNameIndex, IsRoom};

    ghost Value = { DirectoryOf };

    ghost view = { λ d. record {
      entries = map (option_map counted_section) d.sections.items;
      files = map file_of d.files.entries;
      spare = d.room;
    } };

    ghost invariant = { λ d. (length d.sections.items ≤ 2 ^ 28) ×
        IsNameIndex (found_by d.names)
        (sections_of (map (option_map counted_section) d.sections.items)) ×
        IsRoom d.room (vec_capacity d.sections - vec_len d.sections)
        (spare d.names) (spare d.files) };
}

impl Directory {
    /// No section, no file.
    pub fn new(alloc: Global) -> Directory
        ensures { result ≡ record { entries = []; files = []; spare = 0 } }
    {
        Directory {
            sections: Vec::new(alloc),
            names: IndexMap::new(alloc),
            files: IndexMap::new(alloc),
            room: 0,
        }
    }

    /// Sees that there is room for one section and one file more at least. After `NoMemory` all is
    /// as before.
    pub fn reserve(&mut self) -> Result<(), NoMemory>
        ensures same { self.new ≡ record self.old { spare = self.new.spare } }
        ensures later { self.old.spare ≤ self.new.spare }
        ensures ok { OnOk result (1 ≤ self.new.spare) }
    {
        if self.room > 0 {
            return Ok(());
        }
        self.sections.reserve(1)?;
        self.names.reserve(1)?;
        self.files.reserve(1)?;
        self.room = 1;
        Ok(())
    }

    /// How many sections were made: the number of the next one.
    pub fn made(&self) -> u32
        ensures made { result ≡ length self.now.entries }
        ensures few { result ≤ 2 ^ 28 }
    {
        self.sections.len() as u32
    }

    /// The section with this number. None exactly where it was never made, or has ended.
    pub fn section(&self, id: SectionId) -> Option<Section>
        ensures { result ≡ option_map told_of_section (numbered self.now.entries id.0) }
    {
        match self.sections.get(id.0 as usize) {
            Some(Some(entry)) => Some(Section {
                prot: entry.prot,
                area: entry.area,
            }),
            _ => None,
        }
    }

    /// The section with this name. None exactly where none has it.
    pub fn named(&self, name: &Name) -> Option<SectionId>
        ensures { result ≡ option_map id_of
            (position (is_named name.now) (sections_of self.now.entries)) }
    {
        self.names.get(&NameKey::new(name)).copied()
    }

    /// The control area of the file with this name. None exactly where no file has it.
    pub fn file(&self, name: &Name) -> Option<Area>
        ensures { result
            ≡ option_map area_of (find (λ f. bytes_eq f.name name.now) self.now.files) }
    {
        self.files.get(&NameKey::new(name)).copied()
    }

    /// Makes a section of this control area, to which nothing refers yet; no section has the name,
    /// if one is given. There is room, and fewer than 2^28 were made. The number is that of the
    /// sections made before.
    pub fn add_section(&mut self, prot: Prot, name: Option<Name>, area: Area) -> SectionId
        requires room { 1 ≤ self.old.spare }
        requires few { length self.old.entries < 2 ^ 28 }
        requires unnamed { IfSome name (λ n. position (is_named n) (sections_of self.old.entries) ≡
            None) }
        ensures number { result.0 ≡ length self.old.entries }
        ensures added { self.new ≡ record self.old {
          entries = self.old.entries ++ Some (new_entry prot.0 name area.0) ∷ [];
          spare = self.new.spare;
        } }
        ensures room { self.old.spare ≤ self.new.spare + 1 }
    {
        let id = SectionId(self.made());
        let entry = Entry {
            prot,
            name,
            area,
            handles: 0,
            views: 0,
        };
        let Ok(()) = self.sections.push(Some(entry)) else {
            unreachable!()
        };
        remember(&mut self.names, &name, id);
        self.room -= 1;
        id
    }

    /// Makes a file of this control area; no file has the name. There is room for it.
    pub fn add_file(&mut self, name: Name, area: Area)
        requires room { 1 ≤ self.old.spare }
        requires unnamed { find (λ f. bytes_eq f.name name) self.old.files ≡ None }
        ensures added { self.new ≡ record self.old {
          files = self.old.files ++ record { name = name; area = area.0 } ∷ [];
          spare = self.new.spare;
        } }
        ensures room { self.old.spare ≤ self.new.spare + 1 }
    {
        let Ok(_) = self.files.insert(NameKey::new(&name), area) else {
            unreachable!()
        };
        self.room -= 1;
    }

    /// One more handle refers to a section that lives.
    pub fn add_handle(&mut self, id: SectionId)
        requires lives { is_some (numbered self.old.entries id.0) ≡ true }
        requires few { IfSome (numbered self.old.entries id.0) (λ c. c.handles < 2 ^ 60) }
        ensures { self.new ≡ record self.old {
          entries = slice_set self.old.entries id.0
              (option_map one_handle_more (numbered self.old.entries id.0));
        } }
    {
        self.recount(id, ReferenceChange::HandleMore);
    }

    /// One more view refers to a section that lives.
    pub fn add_view(&mut self, id: SectionId)
        requires lives { is_some (numbered self.old.entries id.0) ≡ true }
        requires few { IfSome (numbered self.old.entries id.0) (λ c. c.views < 2 ^ 60) }
        ensures { self.new ≡ record self.old {
          entries = slice_set self.old.entries id.0
              (option_map one_view_more (numbered self.old.entries id.0));
        } }
    {
        self.recount(id, ReferenceChange::ViewMore);
    }

    /// One handle less refers to a section to which one does: where it was the last its name is
    /// gone, and where no view refers to it either the section ends. Tells whether it ended.
    pub fn drop_handle(&mut self, id: SectionId) -> bool
        requires lives { IsSomeAnd (numbered self.old.entries id.0) (λ c. 1 ≤ c.handles) }
        ensures dropped { self.new ≡ record self.old {
          entries = slice_set self.old.entries id.0
              (option_and_then (λ c. section_settled (one_handle_less c))
              (numbered self.old.entries id.0));
        } }
        ensures ended { result ≡ is_none (numbered self.new.entries id.0) }
    {
        self.recount(id, ReferenceChange::HandleLess);
        self.settle(id)
    }

    /// One view less refers to a section to which one does: where no handle and no other view
    /// refers to it the section ends. Tells whether it ended.
    pub fn drop_view(&mut self, id: SectionId) -> bool
        requires lives { IsSomeAnd (numbered self.old.entries id.0) (λ c. 1 ≤ c.views) }
        ensures dropped { self.new ≡ record self.old {
          entries = slice_set self.old.entries id.0
              (option_and_then (λ c. section_settled (one_view_less c))
              (numbered self.old.entries id.0));
        } }
        ensures ended { result ≡ is_none (numbered self.new.entries id.0) }
    {
        self.recount(id, ReferenceChange::ViewLess);
        self.settle(id)
    }

    // One reference more or less to a section that lives.
    fn recount(&mut self, id: SectionId, change: ReferenceChange)
        requires counts { IsSomeAnd (numbered self.old.entries id.0) (CanRecount change) }
        ensures { self.new ≡ record self.old {
          entries = slice_set self.old.entries id.0
              (option_map (recounted change) (numbered self.old.entries id.0));
        } }
    {
        recount(&mut self.sections[id.0 as usize], change);
    }

    // The section with this number without the name and without the life to which nothing refers
    // any more. Tells whether it ended.
    fn settle(&mut self, id: SectionId) -> bool
        requires lives { is_some (numbered self.old.entries id.0) ≡ true }
        ensures settled { self.new ≡ record self.old {
          entries = slice_set self.old.entries id.0
              (option_and_then section_settled (numbered self.old.entries id.0));
        } }
        ensures ended { result ≡ is_none (numbered self.new.entries id.0) }
    {
        let section = &mut self.sections[id.0 as usize];
        let name = settle(section);
        let ended = section.is_none();
        forget(&mut self.names, &name);
        ended
    }
}
