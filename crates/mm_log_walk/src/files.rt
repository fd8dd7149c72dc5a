ghost use Rattle.std.specs.Prelude.{◌≡◌, ℕ, List, Option, true, false, Some, None};
ghost use Rattle.std.specs.Prelude.{option_map, IfOk, Ok, OnOk};
ghost use Rattle.mm_types.specs.{IsEnd, Took};
ghost use Rattle.mm_log_walk.specs.Files.{CountsFileFaults, IsRead, ReadsNamed, ReadsOn, HasBytes};
ghost use Rattle.mm_log_walk.specs.Files.{HasLines};

use crate::lines::Lines;
use mm_io::Source;
use mm_types::{Failed, NoMemory};
use std::alloc::Global;

/// Why a file was not read to its end.
#[derive(Clone, Copy, PartialEq, Eq)]
pub enum FileFault {
    Failed,
    NoMemory,
}

/// Reads once more, up to 4,096 bytes. Answers whether there were any.
#[tactic(auto, using(crate::proofs::FileReads::file_reads))]
fn read_more<F: Source>(bytes: &mut Vec<u8>, file: &mut F) -> Result<bool, FileFault>
    ensures more { (left : Option (List ℕ)) → Took left (F.left file.old) bytes.old.items
        → IfOk result (ReadsOn left (F.left file.new) bytes.new.items) }
    ensures counts { CountsFileFaults (F.faults file.old) (F.faults file.new) result }
{
    let mut room = [0; 4096];
    let count = match file.read(&mut room) {
        Ok(count) => count,
        Err(Failed) => return Err(FileFault::Failed),
    };
    match bytes.extend_from_slice(&room[..count]) {
        Ok(()) => Ok(count > 0),
        Err(_) => Err(FileFault::NoMemory),
    }
}

/// The bytes of a file from here to its end.
#[tactic(auto, using(mm_types::proofs::Bytes::took_none))]
fn read_all<F: Source>(alloc: Global, file: &mut F) -> Result<Vec<u8>, FileFault>
    ensures read { IfOk result (λ v. IsRead (F.left file.old) (F.left file.new) v.items) }
    ensures counts { CountsFileFaults (F.faults file.old) (F.faults file.new) result }
{
    let mut bytes = Vec::new(alloc);
    for _n in 0..u64::MAX {
        match read_more(&mut bytes, file) {
            Ok(true) => {}
            Ok(false) => return Ok(bytes),
            Err(fault) => return Err(fault),
        }
    }
    Err(FileFault::NoMemory)
}

/// The lines of a file, if it is named; none in `file` stands for one that could not be opened.
pub fn named_lines<F: Source>(
    alloc: Global,
    is_named: bool,
    file: &mut Option<F>,
) -> Result<Option<Lines>, FileFault>
    ensures none { is_named ≡ false → result ≡ Ok None }
    ensures lines { is_named ≡ true → IfOk result (HasLines (option_map F.left file.old)) }
    ensures file { ReadsNamed F.Source is_named file.old file.new result }
{
    if !is_named {
        return Ok(None);
    }
    let Some(file) = file else {
        return Err(FileFault::Failed);
    };
    match lines_in(alloc, file) {
        Ok(lines) => Ok(lines),
        Err(fault) => Err(fault),
    }
}

/// The bytes of a file, if it is named; none in `file` stands for one that could not be opened.
pub fn named_bytes<F: Source>(
    alloc: Global,
    is_named: bool,
    file: &mut Option<F>,
) -> Result<Option<Vec<u8>>, FileFault>
    ensures none { is_named ≡ false → result ≡ Ok None }
    ensures bytes { is_named ≡ true → IfOk result (λ o. HasBytes (option_map F.left file.old)
        (option_map (λ v. v.items) o)) }
    ensures file { ReadsNamed F.Source is_named file.old file.new result }
{
    if !is_named {
        return Ok(None);
    }
    let Some(file) = file else {
        return Err(FileFault::Failed);
    };
    match read_all(alloc, file) {
        Ok(bytes) => Ok(Some(bytes)),
        Err(fault) => Err(fault),
    }
}

/// The lines of a file from here to its end.
fn lines_in<F: Source>(alloc: Global, file: &mut F) -> Result<Option<Lines>, FileFault>
    ensures lines { IfOk result (HasLines (Some (F.left file.old))) }
    ensures end { OnOk result (IsEnd (F.left file.new)) }
    ensures counts { CountsFileFaults (F.faults file.old) (F.faults file.new) result }
{
    let bytes = read_all(alloc, file)?;
    match Lines::of(alloc, bytes) {
        Ok(lines) => Ok(Some(lines)),
        Err(NoMemory) => Err(FileFault::NoMemory),
    }
}
