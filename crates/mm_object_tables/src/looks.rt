ghost use Rattle.std.specs.Option.{ForSome};
ghost use Rattle.std.specs.Prelude.{◌≡◌, ◌≤◌, ◌<◌, ◌+◌, true, is_some, length, Some, None, option_map, if◌then◌else◌, nat_le};
ghost use Rattle.mm_world.specs.{ProcessOf, process_of, section_named, area_at, most_processes, file_named, shared_page, home_in, key_of};
ghost use Rattle.mm_sections.specs.{id_of, area_of};
ghost use Rattle.mm_types.specs.{View};
ghost use Rattle.mm_types.specs.declared.views.Kind.TheVariants as kind;
ghost use Rattle.mm_types.specs.declared.numbers.Key.TheVariants as Key;
ghost use Rattle.mm_world.specs.WellFormed.{WellFormed};
ghost use Rattle.mm_object_tables.specs.Looks.{committed_row, section_at};
ghost use Rattle.mm_object_tables.specs.References.{IsTidy};
ghost use Rattle.mm_object_tables.specs.Shown.{shown_process};

use crate::Tables;
use crate::tables::Process;
use mm_address_spaces::{AddressSpace, PageRow};
use mm_sections::{Handles, SectionPages};
use mm_types::{Area, Key, Kind, Name, Pid, Prot, SectionId, View, Vpn};

/// What an access asks of a committed page.
#[derive(Clone, Copy, PartialEq, Eq)]
pub struct CommittedRow {
    /// The base protection.
    pub prot: Prot,
    /// The first access raises an alarm and takes the guard off (PAGE_GUARD).
    pub guard: bool,
    /// The key of its bytes.
    pub key: Key,
    /// A write makes a private copy.
    pub copies: bool,
    /// A write marks it: it has bytes of its own in a watched region (MEM_WRITE_WATCH).
    pub watched: bool,
}

/// The section of a handle: its number, the protection that it was made with, and its control area.
#[derive(Clone, Copy, PartialEq, Eq)]
pub struct HandleSection {
    pub id: SectionId,
    pub prot: Prot,
    pub area: Area,
}

/// The most processes of a run.
const PROCESSES: usize = 64;

impl Tables {
    /// Whether the process lives.
    pub fn has(&self, pid: Pid) -> bool
        ensures { result ≡ is_some (process_of self.now pid.0) }
    {
        if pid.0 == 0 || pid.0 as usize > self.processes.len() {
            return false;
        }
        self.processes[pid.0 as usize - 1].is_some()
    }

    /// The pid that the next process gets. None exactly where 64 were made.
    pub fn next_pid(&self) -> Option<Pid>
        ensures { result ≡ (if nat_le (length self.now.processes) most_processes then Some (record {
          0 = length self.now.processes;
        }) else None) }
    {
        let made = self.processes.len();
        if made >= PROCESSES {
            return None;
        }
        Some(Pid(made as u8 + 1))
    }

    /// A living process.
    pub(crate) fn process(&self, pid: Pid) -> &Process
        requires lives { is_some (process_of self.now pid.0) ≡ true }
        ensures shown { ForSome (process_of self.now pid.0) (λ p. shown_process result.now ≡ p) }
        ensures sound { WellFormed self.now }
        ensures tidy { IsTidy self.now }
    {
        match &self.processes[pid.0 as usize - 1] {
            Some(process) => process,
            None => unreachable!(),
        }
    }

    /// The regions of a living process.
    pub fn space(&self, pid: Pid) -> &AddressSpace
        requires { is_some (process_of self.now pid.0) ≡ true }
        ensures { (p : ProcessOf (Unit {0})) → process_of self.now pid.0 ≡ Some p →
            result.now.regions ≡ p.regions }
    {
        &self.process(pid).space
    }

    /// The handles of a living process.
    pub(crate) fn handles(&self, pid: Pid) -> &Handles
        requires { is_some (process_of self.now pid.0) ≡ true }
        ensures { ForSome (process_of self.now pid.0) (λ p. result.now.entries ≡ p.handles) }
    {
        &self.process(pid).handles
    }

    /// The key of the page `index` of a view, which lies in its control area. None exactly where it
    /// is not committed.
    fn shared_key(&self, view: View, index: u32) -> Option<Key>
        requires inside { view.first + index < length (area_at self.now view.area.0).pages }
        ensures { result ≡ option_map (λ page. Key.Shared view.area (view.first + index))
            (shared_page self.now view.area.0 (view.first + index)) }
    {
        let pages = self.area(view.area);
        // Their number bounds the sum.
        let _ = pages.len();
        let page = view.first + index;
        if pages.is_committed(page) {
            Some(Key::Shared(view.area, page))
        } else {
            None
        }
    }

    /// The key of a row's bytes. None exactly where the row is not committed.
    fn key_of_row(&self, pid: Pid, page: u32, row: &PageRow) -> Option<Key>
        requires inside { (v : View) → row.now.kind ≡ kind.View v →
            v.first + row.now.index < length (area_at self.now v.area.0).pages }
        ensures { result ≡ option_map (key_of pid.0 page)
            (home_in self.now row.now.index row.now.kind
            (if row.now.owned then Some tt else None)) }
    {
        if row.owned {
            return Some(Key::Private(pid, Vpn(page)));
        }
        match row.kind {
            Kind::Private => None,
            Kind::View(view) => self.shared_key(view, row.index),
        }
    }

    /// What an access asks of a page. None exactly where the process does not live or the page has
    /// no committed row.
    pub fn committed_row(&self, pid: Pid, page: u32) -> Option<CommittedRow>
        ensures { result ≡ committed_row self.now pid.0 page }
    {
        if !self.has(pid) {
            return None;
        }
        self.sound();
        let row = self.space(pid).row(page)?;
        let key = self.key_of_row(pid, page, &row)?;
        Some(CommittedRow {
            prot: row.prot,
            guard: row.guard,
            key,
            copies: row.marked && !row.owned,
            watched: row.watched && row.owned,
        })
    }

    /// The section of a handle of a process. None exactly where the process does not live or has no
    /// such handle.
    pub fn section_at(&self, pid: Pid, handle: u32) -> Option<HandleSection>
        ensures { result ≡ section_at self.now pid.0 handle }
    {
        if !self.has(pid) {
            return None;
        }
        let id = self.handles(pid).section(handle)?;
        let section = self.directory.section(id)?;
        Some(HandleSection {
            id,
            prot: section.prot,
            area: section.area,
        })
    }

    /// The section with this name. None exactly where none has it.
    pub fn section_named(&self, name: &Name) -> Option<SectionId>
        ensures { result ≡ option_map id_of (section_named self.now name.now) }
    {
        self.directory.named(name)
    }

    /// The control area of the file with this name. None exactly where no file has it.
    pub fn file_named(&self, name: &Name) -> Option<Area>
        ensures { result ≡ option_map area_of (file_named self.now name.now) }
    {
        self.directory.file(name)
    }

    /// The pages of a control area that was made.
    pub fn area(&self, area: Area) -> &SectionPages
        requires { area.0 < length self.now.areas }
        ensures { result.now ≡ area_at self.now area.0 }
    {
        &self.areas[area.0 as usize]
    }

    /// The first block that no file uses: as many as are used.
    pub fn blocks_used(&self) -> u32
        ensures used { result ≡ self.now.blocks_used }
        ensures within { self.now.blocks_used ≤ self.now.machine.blocks }
    {
        self.blocks_used
    }

    /// How many `fail` lines were taken.
    pub fn fails_taken(&self) -> u32
        ensures { result ≡ self.now.fails_taken }
    {
        self.fails_taken
    }
}
