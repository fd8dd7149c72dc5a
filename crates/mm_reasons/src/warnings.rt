use crate::lines::WordLine;
use crate::texts::Piece::{Hex, Word};
use crate::texts::{put, put_form};
use crate::usages::{field_at, fields_of};
use mm_names::{keyword_for, lowered};
use mm_script::is_text;
use mm_types::{Event, NoMemory, Pid};
use std::alloc::Global;

/// Why `mmsim` would answer an error to a protection, if it would.
fn put_protection(out: &mut Vec<u8>, prot: u32) -> Result<(), NoMemory> {
    if prot == 0x101 {
        return put(out, b"PAGE_NOACCESS does not go with PAGE_GUARD");
    }
    match prot & 0xFFFF_FEFF {
        0x01 | 0x02 | 0x04 | 0x08 | 0x10 | 0x20 | 0x40 | 0x80 => Ok(()),
        _ => put_form(
            out,
            b"% is no protection: one of PAGE_NOACCESS to PAGE_EXECUTE_WRITECOPY, \
                or with PAGE_GUARD",
            &[Hex(prot)],
        ),
    }
}

/// Why it would answer an error to an allocation, if it would.
fn put_allocation(out: &mut Vec<u8>, size: u32, form: u32, prot: u32) -> Result<(), NoMemory> {
    if size == 0 {
        return put(out, b"a size of 0");
    }
    match form {
        0x1000 | 0x2000 | 0x3000 | 0x20_2000 | 0x20_3000 => put_protection(out, prot),
        _ => put_form(
            out,
            b"% is no type: MEM_COMMIT, MEM_RESERVE or both; MEM_WRITE_WATCH with MEM_RESERVE",
            &[Hex(form)],
        ),
    }
}

/// Why it would answer an error to a release, if it would.
fn put_release(out: &mut Vec<u8>, size: u32, form: u32) -> Result<(), NoMemory> {
    match form {
        0x4000 => Ok(()),
        0x8000 => {
            if size == 0 {
                Ok(())
            } else {
                put(out, b"MEM_RELEASE goes with a size of 0")
            }
        }
        _ => put_form(
            out,
            b"% is no type: MEM_DECOMMIT or MEM_RELEASE",
            &[Hex(form)],
        ),
    }
}

/// Why it would answer an error to the flags of a section, if it would.
fn put_flags(out: &mut Vec<u8>, flags: u32) -> Result<(), NoMemory> {
    match flags {
        0x02 | 0x04 | 0x08 => Ok(()),
        0x400_0002 | 0x400_0004 | 0x400_0008 => Ok(()),
        0x800_0002 | 0x800_0004 | 0x800_0008 => Ok(()),
        _ => put_form(
            out,
            b"% are no flags: PAGE_READONLY, PAGE_READWRITE or PAGE_WRITECOPY, \
                or with SEC_COMMIT or SEC_RESERVE",
            &[Hex(flags)],
        ),
    }
}

/// Why it would answer an error to a view, if it would.
fn put_view(out: &mut Vec<u8>, access: u32, offset: u32, addr: u32) -> Result<(), NoMemory> {
    match access {
        1 | 2 | 4 | 6 | 0xF_001F => {}
        _ => {
            return put_form(
                out,
                b"% is no access: FILE_MAP_COPY, FILE_MAP_READ, FILE_MAP_WRITE \
                or FILE_MAP_ALL_ACCESS",
                &[Hex(access)],
            );
        }
    }
    if offset % 0x1_0000 != 0 || addr % 0x1_0000 != 0 {
        return put(
            out,
            b"the offset and the address of a view are multiples of 64K",
        );
    }
    Ok(())
}

/// The process that a line names as its own, if it names one.
fn process_of(event: &Event) -> Option<Pid> {
    match event {
        Event::Alloc { pid, .. } => Some(*pid),
        Event::Free { pid, .. } => Some(*pid),
        Event::Protect { pid, .. } => Some(*pid),
        Event::Query { pid, .. } => Some(*pid),
        Event::Create { pid, .. } => Some(*pid),
        Event::CreateFile { pid, .. } => Some(*pid),
        Event::Open { pid, .. } => Some(*pid),
        Event::Map { pid, .. } => Some(*pid),
        Event::Unmap { pid, .. } => Some(*pid),
        Event::Flush { pid, .. } => Some(*pid),
        Event::Read { pid, .. } => Some(*pid),
        Event::Write { pid, .. } => Some(*pid),
        Event::Exec { pid, .. } => Some(*pid),
        Event::Exit { pid, .. } => Some(*pid),
        _ => None,
    }
}

/// Whether a word is a decimal number that looks like a hexadecimal address: five digits or more,
/// with three zeros at the end.
fn looks_hexadecimal(word: &[u8]) -> bool {
    match word {
        [_, _, .., b'0', b'0', b'0'] => {
            for byte in word {
                if !byte.is_ascii_digit() {
                    return false;
                }
            }
            word[0] != b'0'
        }
        _ => false,
    }
}

/// What is doubtful in how a line is written: a decimal address that looks hexadecimal.
pub(crate) fn put_line_warning(
    out: &mut Vec<u8>,
    alloc: Global,
    line: &[u8],
) -> Result<(), NoMemory> {
    let words = WordLine::new(alloc, line)?;
    let first = lowered(alloc, words.word(0))?;
    let Some(fields) = fields_of(keyword_for(first.as_slice())) else {
        return Ok(());
    };
    for at in 1..words.count() {
        let word = words.word(at);
        let Some(field) = field_at(fields, at - 1) else {
            return Ok(());
        };
        if is_text(field, b"ADDRESS") && looks_hexadecimal(word) {
            return put_form(
                out,
                b"the address % is decimal; is 0x% meant?",
                &[Word(word), Word(word)],
            );
        }
    }
    Ok(())
}

/// Why `mmsim` would answer an error to an event whatever came before; nothing where it may take
/// it.
pub(crate) fn put_warning(out: &mut Vec<u8>, event: &Event) -> Result<(), NoMemory> {
    if let Some(Pid(0)) = process_of(event) {
        return put(out, b"no process has the number 0; the first is 1");
    }
    put_call_warning(out, event)
}

/// Why it would answer an error to the numbers of a call.
fn put_call_warning(out: &mut Vec<u8>, event: &Event) -> Result<(), NoMemory> {
    match event {
        Event::Alloc {
            size,
            form,
            prot,
            ..
        } => put_allocation(out, *size, *form, *prot),
        Event::Free { size, form, .. } => put_release(out, *size, *form),
        Event::Protect { prot, .. } => put_protection(out, *prot),
        Event::Create { flags, .. } => put_flags(out, *flags),
        Event::CreateFile { flags, .. } => put_flags(out, *flags),
        Event::Map {
            access,
            offset,
            addr,
            ..
        } => put_view(out, *access, *offset, *addr),
        _ => Ok(()),
    }
}
