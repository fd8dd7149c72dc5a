ghost use Rattle.std.specs.Prelude.{◌≡◌, ◌≤◌, ◌<◌, ◌+◌, ◌*◌, ◌^◌, ◌++◌, [], ◌∷◌, true, false, is_some, length, replicate, if◌then◌else◌, Option, Some, None, IfOk, OnOk, OnErr, IfSome, position, vec_len, vec_capacity, find, bytes_eq};
ghost use Rattle.mm_types.specs.declared.answers.Answer.TheVariants as answer;
ghost use Rattle.mm_types.specs.{Key, limit_of};
ghost use Rattle.mm_world.specs.{Page, ProcessOf, process_of, section_of, section_named, area_at, is_named, charge, limit, next_handle, with_handle};
ghost use Rattle.mm_world.specs.{new_section};
ghost use Rattle.mm_store.specs.{Makes, StoreOf};
ghost use Rattle.mm_sections.specs.{sections_of, new_entry, one_handle_more, page_if};
ghost use Rattle.mm_object_tables.specs.{Come, IsFew, IsReadyFor, PassesAs, MakesPages, SettlesTables, CanFill, Opens, IsListedAs, IsNewArea, is_page_of};
ghost use Rattle.mm_object_tables.specs.{Roomier, FitsTables, Settled, IsNewFile, MakesFile, StoresFile, BlamesDevice, NotesFile, CanGive};
ghost use Rattle.mm_types.specs.declared.moves.LineKind.TheVariants as line_kind;

use crate::Tables;
use crate::private_pages::take;
use crate::tables::handles_of;
use mm_sections::{Directory, Handles, SectionPages};
use mm_store::PageStore;
use mm_types::{Area, Block, Key, MakeFault, Name, NoMemory, Pid, Prot, SectionId};
use std::alloc::Global;

/// Sees that there is room for one section more and a handle to it. After `NoMemory` all is as
/// before but for room.
fn grow_for_section(directory: &mut Directory, handles: &mut Handles) -> Result<(), NoMemory>
    ensures same { handles.new.entries ≡ handles.old.entries }
    ensures listed { IsListedAs directory.old directory.new }
    ensures spare { OnOk result (1 ≤ directory.new.spare) }
    ensures room { OnOk result (1 ≤ handles.new.spare) }
{
    directory.reserve()?;
    handles.reserve()
}

/// Makes a section to which one handle of the process refers, which is answered. There is room for
/// both.
fn list_section(
    directory: &mut Directory,
    handles: &mut Handles,
    area: Area,
    prot: Prot,
    name: Option<Name>,
) -> u32
    requires can { CanGive handles.old }
    requires spare { 1 ≤ directory.old.spare }
    requires few { length directory.old.entries < 2 ^ 28 }
    requires unnamed { IfSome name (λ n. position (is_named n) (sections_of directory.old.entries) ≡
        None) }
    ensures handle { result ≡ 4 * length handles.old.entries }
    ensures given { handles.new.entries ≡
        handles.old.entries ++ Some (length directory.old.entries) ∷ [] }
    ensures entries { directory.new.entries ≡ directory.old.entries ++
        Some (one_handle_more (new_entry prot.0 name area.0)) ∷ [] }
    ensures files { directory.new.files ≡ directory.old.files }
{
    let id = directory.add_section(prot, name, area);
    directory.add_handle(id);
    handles.add(id)
}

/// What a page-file section takes beside keys: room for it and a handle, and its control area.
fn grow_for_paging(
    alloc: Global,
    directory: &mut Directory,
    handles: &mut Handles,
    areas: &mut Vec<SectionPages>,
    pages: u32,
    committed: bool,
) -> Result<SectionPages, NoMemory>
    ensures made { IfOk result (λ a. a ≡ record {
      file_block = None;
      pages = replicate pages (page_if committed);
    }) }
    ensures same { handles.new.entries ≡ handles.old.entries }
    ensures listed { IsListedAs directory.old directory.new }
    ensures areas { areas.new.items ≡ areas.old.items }
    ensures spare { OnOk result (1 ≤ directory.new.spare) }
    ensures room { OnOk result (1 ≤ handles.new.spare) }
    ensures space { OnOk result (vec_len areas.new + 1 ≤ vec_capacity areas.new) }
{
    grow_for_section(directory, handles)?;
    areas.reserve(1)?;
    SectionPages::of_paging_file(alloc, pages, committed)
}

/// Adds the keys of the first `n` pages of an open area.
#[tactic(auto, using(mm_store::proofs::Passed::turns_same))]
fn fill_area<G: PageStore>(g: &mut G, area: Area, n: u32)
    requires can { CanFill area n (G.contents g.old) (G.store g.old) }
    ensures fills { Come (is_page_of area n) n (G.contents g.old) (G.contents g.new)
        (G.store g.old) (G.store g.new) }
    ensures passes { PassesAs G.PageStore Makes g.old g.new }
    ensures loans { G.loans g.new ≡ G.loans g.old }
{
    for i in 0..n {
        g.add(Key::Shared(area, i));
    }
}

/// Opens an area of the store, and adds the keys of its first `n` pages. `total` is what all keys
/// then come to at most. After `NoMemory` there may be more room.
#[tactic(auto, using(mm_store::proofs::Passed::turns_same, mm_store::proofs::Passed::idle_before))]
fn open_paging_area<G: PageStore>(
    g: &mut G,
    area: Area,
    pages: u32,
    n: u32,
    total: u32,
) -> Result<(), NoMemory>
    requires new { IsNewArea area pages n (G.contents g.old) (G.store g.old) }
    requires limit { total ≤ limit_of (G.store g.old).machine }
    requires keys { (G.store g.old).paging_keys + n ≤ total }
    requires kind { (G.store g.old).kind ≡ line_kind.Call }
    ensures ok { OnOk result (Opens area pages n (G.contents g.old) (G.contents g.new)
        (G.store g.old) (G.store g.new)) }
    ensures room { OnOk result (total ≤ (G.store g.new).room) }
    ensures err { OnErr result
        (Roomier (G.contents g.old) (G.contents g.new) (G.store g.old) (G.store g.new)) }
    ensures makes { MakesPages G.PageStore result g.old g.new }
{
    g.reserve(total)?;
    g.open_area(area, pages)?;
    fill_area(g, area, n);
    Ok(())
}

/// How many pages of a new area are committed.
fn pages_if(pages: u32, committed: bool) -> u32
    ensures { result ≡ (if committed then pages else 0) }
{
    if committed { pages } else { 0 }
}

/// What a file takes beside its blocks: room for it, and its control area.
fn grow_for_file(
    alloc: Global,
    directory: &mut Directory,
    areas: &mut Vec<SectionPages>,
    first: Block,
    pages: u32,
) -> Result<SectionPages, NoMemory>
    ensures made { IfOk result (λ a. a ≡ record {
      file_block = Some first.0;
      pages = replicate pages (Some tt);
    }) }
    ensures listed { IsListedAs directory.old directory.new }
    ensures areas { areas.new.items ≡ areas.old.items }
    ensures spare { OnOk result (1 ≤ directory.new.spare) }
    ensures space { OnOk result (vec_len areas.new + 1 ≤ vec_capacity areas.new) }
{
    directory.reserve()?;
    areas.reserve(1)?;
    SectionPages::of_file(alloc, first, pages)
}

/// Lists a file of the next area. There is room for both.
fn list_file(
    directory: &mut Directory,
    areas: &mut Vec<SectionPages>,
    area: Area,
    made: SectionPages,
    name: Name,
)
    requires spare { 1 ≤ directory.old.spare }
    requires space { vec_len areas.old + 1 ≤ vec_capacity areas.old }
    requires unnamed { find (λ f. bytes_eq f.name name) directory.old.files ≡ None }
    ensures entries { directory.new.entries ≡ directory.old.entries }
    ensures files { directory.new.files ≡ directory.old.files ++ record {
      name = name;
      area = area.0;
    } ∷ [] }
    ensures areas { areas.new.items ≡ areas.old.items ++ made ∷ [] }
{
    directory.add_file(name, area);
    areas.push_reserved(made);
}

impl Tables {
    /// Makes a page-file section with a control area of its own, and a handle to it, which is
    /// answered. No section has the name, if one is given; where its pages are committed the limit
    /// allows them. After `NoMemory` tables and bytes are as before.
    #[tactic(auto, using(mm_store::proofs::Passed::turns_same))]
    pub fn add_paging_section<G: PageStore>(
        &mut self,
        alloc: Global,
        g: &mut G,
        pid: Pid,
        pages: u32,
        committed: bool,
        prot: Prot,
        name: Option<Name>,
    ) -> Result<u32, NoMemory>
        requires ready { IsReadyFor G.PageStore line_kind.Call pid self.old g.old }
        requires few { IsFew self.old }
        requires some { 1 ≤ pages }
        requires unnamed { IfSome name (λ n. section_named self.old n ≡ None) }
        requires room { charge self.old + (if committed then pages else 0) ≤ limit self.old }
        ensures ok { IfOk result (λ handle. (p : ProcessOf (Unit {0})) →
            process_of self.old pid.0 ≡ Some p →
            new_section (record self.old {
              areas = self.old.areas ++
                  record { file_block = None; pages = replicate pages (page_if committed) } ∷ [];
            }) pid.0 p (record { prot = prot.0; name = name; area = length self.old.areas })
            ≡ record { answer = answer.Created handle false; world = self.new }) }
        ensures settles { SettlesTables G.PageStore result self.old self.new g.old g.new }
        ensures makes { MakesPages G.PageStore result g.old g.new }
    {
        let area = Area(self.areas.len() as u32);
        let n = pages_if(pages, committed);
        let total = self.commit.now() + n;
        let handles = handles_of(&mut self.processes[pid.0 as usize - 1]);
        let made = grow_for_paging(
            alloc,
            &mut self.directory,
            handles,
            &mut self.areas,
            pages,
            committed,
        )?;
        open_paging_area(g, area, pages, n, total)?;
        let handle = list_section(&mut self.directory, handles, area, prot, name);
        self.areas.push_reserved(made);
        take(&mut self.commit, n);
        Ok(handle)
    }

    /// Makes a section of a file, and a handle to it, which is answered. No section has the name,
    /// if one is given. After `NoMemory` the tables are as before.
    pub fn add_file_section(
        &mut self,
        pid: Pid,
        area: Area,
        prot: Prot,
        name: Option<Name>,
    ) -> Result<u32, NoMemory>
        requires lives { is_some (process_of self.old pid.0) ≡ true }
        requires few { IsFew self.old }
        requires file { is_some (area_at self.old area.0).file_block ≡ true }
        requires unnamed { IfSome name (λ n. section_named self.old n ≡ None) }
        ensures ok { IfOk result (λ handle. (p : ProcessOf (Unit {0})) →
            process_of self.old pid.0 ≡ Some p →
            new_section self.old pid.0 p (record {
              prot = prot.0;
              name = name;
              area = area.0;
            }) ≡ record { answer = answer.Created handle false; world = self.new }) }
        ensures err { OnErr result (self.new ≡ self.old) }
        ensures settled { (c : Key → Option Page) (s : StoreOf) → FitsTables self.old c s →
            Settled self.new c c s s }
    {
        let handles = handles_of(&mut self.processes[pid.0 as usize - 1]);
        grow_for_section(&mut self.directory, handles)?;
        Ok(list_section(&mut self.directory, handles, area, prot, name))
    }

    /// A new handle to a section that lives. After `NoMemory` the tables are as before.
    pub fn add_handle(&mut self, pid: Pid, id: SectionId) -> Result<u32, NoMemory>
        requires lives { is_some (process_of self.old pid.0) ≡ true }
        requires few { IsFew self.old }
        requires section { is_some (section_of self.old id.0) ≡ true }
        ensures ok { IfOk result (λ handle. (p : ProcessOf (Unit {0})) →
            process_of self.old pid.0 ≡ Some p →
            (handle ≡ next_handle p) × (self.new ≡ with_handle self.old pid.0 p id.0)) }
        ensures err { OnErr result (self.new ≡ self.old) }
        ensures settled { (c : Key → Option Page) (s : StoreOf) → FitsTables self.old c s →
            Settled self.new c c s s }
    {
        let handles = handles_of(&mut self.processes[pid.0 as usize - 1]);
        handles.reserve()?;
        self.directory.add_handle(id);
        Ok(handles.add(id))
    }

    /// Makes a file of `pages` pages in the lowest blocks that no file uses; no file has the name.
    /// Page i holds the byte `byte + i` throughout. `Write` where a write of a block failed: then
    /// there is no file. After an error the tables are as before.
    pub fn add_file<G: PageStore>(
        &mut self,
        alloc: Global,
        g: &mut G,
        name: Name,
        pages: u32,
        byte: u8,
    ) -> Result<(), MakeFault>
        requires fits { FitsTables self.old (G.contents g.old) (G.store g.old) }
        requires kind { (G.store g.old).kind ≡ line_kind.Call }
        requires few { IsFew self.old }
        requires new { IsNewFile name pages self.old }
        ensures files { MakesFile G.PageStore name pages byte result self.old self.new g.old g.new }
        ensures stored { StoresFile G.PageStore result self.new g.old g.new }
        ensures fails { BlamesDevice G.PageStore result g.old g.new }
        ensures notes { NotesFile G.PageStore self.old.blocks_used pages result g.old g.new }
    {
        let area = Area(self.areas.len() as u32);
        let first = Block(self.blocks_used);
        let grown = grow_for_file(alloc, &mut self.directory, &mut self.areas, first, pages);
        let made = match grown {
            Ok(made) => made,
            Err(NoMemory) => return Err(MakeFault::Memory),
        };
        match g.make_file(area, first, pages, byte) {
            Ok(()) => {
                list_file(&mut self.directory, &mut self.areas, area, made, name);
                self.blocks_used += pages;
                Ok(())
            }
            Err(fault) => Err(fault),
        }
    }
}
