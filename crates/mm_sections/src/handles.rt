ghost use Rattle.std.specs.Prelude.{◌≡◌, ◌≤◌, ◌<◌, ◌+◌, ◌*◌, ◌/◌, ◌^◌, ◌++◌, [], ◌∷◌, ℕ, true, is_some, length, Some, None, OnOk, nat_eq, option_map, position, slice_set};
ghost use Rattle.indexmap.specs.IndexMap.{get};
ghost use Rattle.mm_sections.specs.Handles.{held, handle_at, section_number};

use indexmap::IndexMap;
use mm_types::{NoMemory, SectionId};
use std::alloc::Global;
use std::marker::Model;

/// The handles of a process. The k-th that it gets is 4 * k, and no number is given again (own).
#[derive(Drop)]
pub struct Handles {
    // The sections of the open handles, by these.
    sections: IndexMap<u32, SectionId>,
    // A fourth of the lowest open handle; of the next one where none is open.
    lowest: u32,
    // A fourth of the next handle.
    next: u32,
}

impl Model for Handles {
    ghost use Rattle.std.specs.Prelude.{map, nat_eq};
    ghost use Rattle.std.specs.List.{range_with_len};
    ghost use Rattle.indexmap.specs.IndexMap.{get, spare};
    ghost use Rattle.mm_sections.specs.Handles.{HandlesOf, AreOpen, section_by_handle};

    ghost Value = { HandlesOf };

    ghost view = { λ h. record {
      entries = map (section_by_handle (get nat_eq h.sections)) (range_with_len 0 h.next);
      spare = spare h.sections;
    } };

    ghost invariant = { λ h. AreOpen (get nat_eq h.sections) h.lowest h.next };
}

impl Handles {
    /// No handle.
    pub fn new(alloc: Global) -> Handles
        ensures { result.entries ≡ None ∷ [] }
    {
        Handles {
            sections: IndexMap::new(alloc),
            lowest: 1,
            next: 1,
        }
    }

    /// Sees that there is room for one handle more at least. After `NoMemory` the handles are as
    /// before.
    pub fn reserve(&mut self) -> Result<(), NoMemory>
        ensures same { self.new.entries ≡ self.old.entries }
        ensures later { self.old.spare ≤ self.new.spare }
        ensures ok { OnOk result (1 ≤ self.new.spare) }
    {
        self.sections.reserve(1)?;
        Ok(())
    }

    /// The next handle, to this section. There is room for it, and fewer than 2^28 were given.
    pub fn add(&mut self, id: SectionId) -> u32
        requires room { 1 ≤ self.old.spare }
        requires few { length self.old.entries < 2 ^ 28 }
        ensures handle { result ≡ 4 * length self.old.entries }
        ensures added { self.new.entries ≡ self.old.entries ++ Some id.0 ∷ [] }
        ensures room { self.old.spare ≤ self.new.spare + 1 }
    {
        let handle = 4 * self.next;
        let Ok(_) = self.sections.insert(handle, id) else {
            unreachable!()
        };
        self.next += 1;
        handle
    }

    /// The section of a handle. None exactly where the process has no such handle.
    pub fn section(&self, handle: u32) -> Option<SectionId>
        ensures { option_map section_number result ≡ held self.now.entries handle }
    {
        self.sections.get(&handle).copied()
    }

    /// The lowest handle that the process has. None exactly where it has none.
    pub fn lowest(&self) -> Option<u32>
        ensures { result ≡ option_map handle_at (position is_some self.now.entries) }
    {
        if self.lowest < self.next {
            Some(4 * self.lowest)
        } else {
            None
        }
    }

    /// Closes a handle that the process has (CloseHandle).
    pub fn close(&mut self, handle: u32)
        requires { is_some (held self.old.entries handle) ≡ true }
        ensures closed { self.new.entries ≡ slice_set self.old.entries (handle / 4) None }
        ensures room { self.old.spare ≤ self.new.spare }
    {
        let Handles {
            sections,
            lowest,
            next,
        } = self;
        sections.swap_remove(&handle);
        *lowest = first_open(sections, *lowest, *next);
    }
}

/// A fourth of the lowest open handle from `4 * from` on, and `end` where none is below `4 * end`.
fn first_open(sections: &IndexMap<u32, SectionId>, from: u32, end: u32) -> u32
    requires within { from ≤ end }
    requires few { end ≤ 2 ^ 28 }
    ensures from { from ≤ result }
    ensures end { result ≤ end }
    ensures before { (i : ℕ) → from ≤ i → i < result → get nat_eq sections.now (4 * i) ≡ None }
    ensures found { result < end → is_some (get nat_eq sections.now (4 * result)) ≡ true }
{
    let mut index = from;
    while index < end && !sections.contains_key(&(4 * index)) {
        index += 1;
    }
    index
}
