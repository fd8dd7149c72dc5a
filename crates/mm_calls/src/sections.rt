#![tactic(auto, using(mm_store::proofs::Passed::turns_same))]

ghost use Rattle.std.specs.Prelude.{◌≡◌, ◌≤◌, Bool, true, false, is_some, Option, Some, None, IfOk, IsOk, OnErr, option_map, option_and_then};
ghost use Rattle.mm_types.specs.{Place};
ghost use Rattle.mm_types.specs.declared.answers.Answer.TheVariants as answer;
ghost use Rattle.mm_types.specs.declared.moves.LineKind.TheVariants as line_kind;
ghost use Rattle.mm_world.specs.{ProcessOf, process_of, section_of, section_named, area_at, blank, is_success, done, next_handle, with_handle};
ghost use Rattle.mm_world.specs.{new_section, section_prot, create, create_file, open_section, close};
ghost use Rattle.mm_store.specs.{Goes, leaving};
ghost use Rattle.mm_sections.specs.{id_of};
ghost use Rattle.mm_object_tables.specs.{IsFew, IsReadyFor, MakesPages, PassesAs};
ghost use Rattle.mm_calls.specs.{make_section, BeginsCall, AnswersCall, MakesIn, LacksMemory, StaysSettled};

use crate::parameters::{are_section_flags, are_section_parameters, is_reserve, section_prot};
use mm_address_spaces::pages_for;
use mm_object_tables::Tables;
use mm_store::PageStore;
use mm_types::{Answer, Area, Code, Name, NoMemory, Pid, SectionId};
use std::alloc::Global;

/// `create` (CreateFileMapping on the paging file): a new section of `size` bytes with a control
/// area of its own, or a handle to the section that has the name. The answer is a handle, and
/// whether the section was there.
///
/// In this order: `InvalidHandle` for a process that does not live; `InvalidParameter` for flags
/// that are no protection with or without SEC_COMMIT or SEC_RESERVE, a size of 0 or of more than
/// 0x7FFE0000; `CommitmentLimit` where the charge of a new section's pages would pass the limit.
/// After `NoMemory`, which none of these comes to, tables and pages are as before.
pub fn create<G: PageStore>(
    allocator: Global,
    t: &mut Tables,
    g: &mut G,
    pid: Pid,
    size: u32,
    flags: u32,
    name: Option<Name>,
) -> Result<Answer, NoMemory>
    requires begins { BeginsCall G.PageStore t.old g.old }
    requires few { IsFew t.old }
    ensures done { IfOk result (λ a. AnswersCall G.PageStore (create blank t.old pid.0 size flags name)
        t.old g.old a t.new g.new) }
    ensures broke { OnErr result (LacksMemory G.PageStore t.old g.old t.new g.new) }
    ensures no_memory { is_success (create blank t.old pid.0 size flags name).answer ≡ false
        → IsOk result }
    ensures makes { MakesPages G.PageStore result g.old g.new }
{
    if !t.has(pid) {
        return Ok(Answer::Error(Code::InvalidHandle));
    }
    if !are_section_parameters(size, flags) {
        return Ok(Answer::Error(Code::InvalidParameter));
    }
    match section_with(t, &name) {
        Some(id) => add_existing(t, pid, id),
        None => add_paging_section(allocator, t, g, pid, size, flags, name),
    }
}

/// `createfile` (CreateFileMapping on a file): a section of the whole file, or a handle to the
/// section that has the name. No store sees it.
///
/// In this order: `InvalidHandle` for a process that does not live; `InvalidParameter` for the
/// flags; `NotFound` where no file has the file name. After `NoMemory`, which none of these comes
/// to, the tables are as before.
pub fn create_file(
    t: &mut Tables,
    pid: Pid,
    file: &Name,
    flags: u32,
    name: Option<Name>,
) -> Result<Answer, NoMemory>
    requires few { IsFew t.old }
    ensures ok { IfOk result (λ a. create_file t.old pid.0 file.now flags name ≡ record {
      answer = a;
      world = t.new;
    }) }
    ensures err { OnErr result (t.new ≡ t.old) }
    ensures no_memory { is_success (create_file t.old pid.0 file.now flags name).answer ≡ false
        → IsOk result }
    ensures settled { StaysSettled t.old t.new }
{
    if !t.has(pid) {
        return Ok(Answer::Error(Code::InvalidHandle));
    }
    if !are_section_flags(flags) {
        return Ok(Answer::Error(Code::InvalidParameter));
    }
    t.sound();
    let area = match t.file_named(file) {
        Some(area) => area,
        None => return Ok(Answer::Error(Code::NotFound)),
    };
    match section_with(t, &name) {
        Some(id) => add_existing(t, pid, id),
        None => add_file_section(t, pid, area, flags, name),
    }
}

/// `open` (OpenFileMapping): a new handle to the section with the name. No store sees it.
///
/// In this order: `InvalidHandle` for a process that does not live; `NotFound` where no section has
/// the name. After `NoMemory`, which none of these comes to, the tables are as before.
pub fn open_section(t: &mut Tables, pid: Pid, name: &Name) -> Result<Answer, NoMemory>
    requires few { IsFew t.old }
    ensures ok { IfOk result (λ a. open_section t.old pid.0 name.now ≡ record {
      answer = a;
      world = t.new;
    }) }
    ensures err { OnErr result (t.new ≡ t.old) }
    ensures no_memory { is_success (open_section t.old pid.0 name.now).answer ≡ false
        → IsOk result }
    ensures settled { StaysSettled t.old t.new }
{
    if !t.has(pid) {
        return Ok(Answer::Error(Code::InvalidHandle));
    }
    let id = match t.section_named(name) {
        Some(id) => id,
        None => return Ok(Answer::Error(Code::NotFound)),
    };
    let handle = t.add_handle(pid, id)?;
    Ok(Answer::Opened(handle))
}

/// `close` (CloseHandle): the handle is gone. A section's name is gone with its last handle; a
/// section to which neither handle nor view refers ends, and a page-file section's pages with it.
///
/// `InvalidHandle` for a process that does not live, or has no such handle.
pub fn close<G: PageStore>(t: &mut Tables, g: &mut G, pid: Pid, handle: u32) -> Answer
    requires begins { BeginsCall G.PageStore t.old g.old }
    ensures done { AnswersCall G.PageStore (close t.old pid.0 handle) t.old g.old result t.new g.new }
    ensures passes { (places : Place → Bool) →
        PassesAs G.PageStore (Goes (leaving t.old pid.0 places)) g.old g.new }
    ensures loans { G.loans g.new ≡ G.loans g.old }
{
    if !t.has(pid) || t.section_at(pid, handle).is_none() {
        return Answer::Error(Code::InvalidHandle);
    }
    t.drop_handle(g, pid, handle);
    Answer::Ok
}

/// The section with the name that is given, if one is.
fn section_with(t: &Tables, name: &Option<Name>) -> Option<SectionId>
    ensures { result ≡ option_map id_of (option_and_then (section_named t.now) name.now) }
{
    match name {
        Some(name) => t.section_named(name),
        None => None,
    }
}

/// A new handle to a section that was there.
fn add_existing(t: &mut Tables, pid: Pid, id: SectionId) -> Result<Answer, NoMemory>
    requires lives { is_some (process_of t.old pid.0) ≡ true }
    requires few { IsFew t.old }
    requires section { is_some (section_of t.old id.0) ≡ true }
    ensures ok { IfOk result (λ a. (p : ProcessOf (Unit {0})) → process_of t.old pid.0 ≡ Some p →
        done (answer.Created (next_handle p) true) (with_handle t.old pid.0 p id.0) ≡ record {
          answer = a;
          world = t.new;
        }) }
    ensures err { OnErr result (t.new ≡ t.old) }
    ensures settled { StaysSettled t.old t.new }
{
    let handle = t.add_handle(pid, id)?;
    Ok(Answer::Created(handle, true))
}

/// A new section of the paging file; no section has its name.
fn add_paging_section<G: PageStore>(
    allocator: Global,
    t: &mut Tables,
    g: &mut G,
    pid: Pid,
    size: u32,
    flags: u32,
    name: Option<Name>,
) -> Result<Answer, NoMemory>
    requires ready { IsReadyFor G.PageStore line_kind.Call pid t.old g.old }
    requires few { IsFew t.old }
    requires some { 1 ≤ size }
    requires unnamed { option_and_then (section_named t.old) name ≡ None }
    ensures made { MakesIn G.PageStore pid (λ p. make_section t.old pid.0 p size flags name) result
        t.old g.old t.new g.new }
    ensures makes { MakesPages G.PageStore result g.old g.new }
{
    let pages = pages_for(size);
    let committed = !is_reserve(flags);
    if !t.can_charge(if committed { pages } else { 0 }) {
        return Ok(Answer::Error(Code::CommitmentLimit));
    }
    let handle = t.add_paging_section(
        allocator,
        g,
        pid,
        pages,
        committed,
        section_prot(flags),
        name,
    )?;
    Ok(Answer::Created(handle, false))
}

/// A new section of a file; no section has its name.
fn add_file_section(
    t: &mut Tables,
    pid: Pid,
    area: Area,
    flags: u32,
    name: Option<Name>,
) -> Result<Answer, NoMemory>
    requires lives { is_some (process_of t.old pid.0) ≡ true }
    requires few { IsFew t.old }
    requires file { is_some (area_at t.old area.0).file_block ≡ true }
    requires unnamed { option_and_then (section_named t.old) name ≡ None }
    ensures ok { IfOk result (λ a. (p : ProcessOf (Unit {0})) → process_of t.old pid.0 ≡ Some p →
        new_section t.old pid.0 p (record {
          prot = section_prot flags;
          name = name;
          area = area.0;
        }) ≡ record { answer = a; world = t.new }) }
    ensures err { OnErr result (t.new ≡ t.old) }
    ensures settled { StaysSettled t.old t.new }
{
    let handle = t.add_file_section(pid, area, section_prot(flags), name)?;
    Ok(Answer::Created(handle, false))
}
