ghost use Rattle.std.specs.Prelude.{◌≡◌, ◌+◌, ◌*◌, ◌%◌, ◌<◌, ◌≤◌, ◌++◌, ◌∷◌, [], length, codes, IfOk, vec_len, vec_capacity};
ghost use Rattle.mm_types.specs.declared.events.Event.TheVariants as line;
ghost use Rattle.mm_types.specs.{reserve_and_commit_type, readwrite};
ghost use Rattle.rand_pcg.specs.Lcg.{advance};
ghost use Rattle.rand_pcg.specs.Pcg.{multiplier_64};
ghost use Rattle.mm_generate.specs.{outputs, address_drawn, write_drawn, read_drawn, Draws, fixed_events, script_of};

use crate::words::draw;
use mm_types::{
    AccessSpec, AllocFlags, ByteBuf, Event, Machine, Name, NoMemory, PAGE_SIZE, Pid, Prot,
};
use rand_pcg::Lcg64Xsh32;
use std::alloc::Global;

/// The stream of the generator.
const STREAM: u64 = 54;

const FIXED_EVENTS: usize = 11;

/// The name of these bytes.
fn name(bytes: &[u8]) -> Name
    requires some { 1 ≤ length bytes.now }
    requires few { length bytes.now ≤ 32 }
    ensures { result ≡ bytes.now }
{
    match Name::from_slice(bytes) {
        Some(name) => name,
        None => unreachable!(),
    }
}

/// One byte.
fn one_byte(byte: u8) -> ByteBuf
    ensures { result ≡ byte ∷ [] }
{
    match ByteBuf::from_slice(&[byte]) {
        Some(bytes) => bytes,
        None => unreachable!(),
    }
}

/// The address of a page drawn among `pages`, at most 160, from 0x10000 on.
fn address(words: &mut Lcg64Xsh32, pages: u32) -> u32
    requires some { 0 < pages }
    requires few { pages ≤ 160 }
    ensures drawn { result ≡ address_drawn (outputs words.old 0) pages }
    ensures after { words.new ≡ advance 64 multiplier_64 1 words.old }
{
    0x10000 + PAGE_SIZE * draw(words, pages)
}

/// A write of one drawn byte to a drawn page of process `pid`.
fn write(words: &mut Lcg64Xsh32, pid: u8, pages: u32) -> Event
    requires some { 0 < pages }
    requires few { pages ≤ 160 }
    ensures drawn { result ≡ write_drawn pid pages (outputs words.old 0) (outputs words.old 1) }
    ensures after { words.new ≡ advance 64 multiplier_64 2 words.old }
{
    let address = address(words, pages);
    let byte = draw(words, 256) as u8;
    Event::Write {
        pid: Pid(pid),
        addr: address,
        bytes: one_byte(byte),
    }
}

/// A read of one byte of a drawn page of process `pid`.
fn read(words: &mut Lcg64Xsh32, pid: u8, pages: u32) -> Event
    requires some { 0 < pages }
    requires few { pages ≤ 160 }
    ensures drawn { result ≡ read_drawn pid pages (outputs words.old 0) }
    ensures after { words.new ≡ advance 64 multiplier_64 1 words.old }
{
    Event::Read {
        pid: Pid(pid),
        addr: address(words, pages),
        len: 1,
    }
}

/// The event that the next outputs draw.
fn event(words: &mut Lcg64Xsh32) -> Event
    ensures { Draws words.old result words.new }
{
    match draw(words, 8) {
        0 | 1 => write(words, 1, 160),
        2 => read(words, 1, 160),
        3 => write(words, 2, 64),
        4 => read(words, 2, 64),
        5 => Event::Trim {
            pid: Pid(1 + draw(words, 2) as u8),
            count: 8,
        },
        6 => Event::Writer { count: 4 },
        _ => Event::Io { index: 1 },
    }
}

/// One event more, after the others.
fn push(events: &mut Vec<Event>, event: Event)
    requires { vec_len events.old < vec_capacity events.old }
    ensures items { events.new.items ≡ events.old.items ++ event ∷ [] }
    ensures len { vec_len events.new ≡ vec_len events.old + 1 }
    ensures capacity { vec_capacity events.new ≡ vec_capacity events.old }
{
    // The check of a vector of events wants the types inside an event named here.
    let _name: Option<Name> = None;
    let _access: Option<AccessSpec> = None;
    events.push_reserved(event);
}

/// A view of a whole section, at the lowest gap.
fn map_whole(pid: u8, handle: u32, access: u32) -> Event
    ensures { result ≡ line.Map (record { 0 = pid }) handle access 0x0 0x0 0x0 }
{
    Event::Map {
        pid: Pid(pid),
        handle,
        access,
        offset: 0x0,
        length: 0x0,
        addr: 0x0,
    }
}

/// The file, and the region of the first process.
fn push_memory(events: &mut Vec<Event>)
    requires { vec_len events.old + 2 ≤ vec_capacity events.old }
    ensures fixed { events.new.items ≡ events.old.items ++ line.File (codes "data") 32 1 ∷
        line.Alloc (record {
          0 = 1;
        }) 0x0 0x80000 reserve_and_commit_type readwrite ∷ [] }
    ensures len { vec_len events.new ≡ vec_len events.old + 2 }
    ensures capacity { vec_capacity events.new ≡ vec_capacity events.old }
{
    let file = Event::File {
        name: name(b"data"),
        pages: 32,
        byte: 1,
    };
    push(events, file);
    let region = Event::Alloc {
        pid: Pid(1),
        addr: 0x0,
        size: 0x80000,
        form: AllocFlags::RESERVE.0 + AllocFlags::COMMIT.0,
        prot: Prot::READWRITE.0,
    };
    push(events, region);
}

/// The events that every script begins with: two processes on a small machine, that share a section
/// and the pages of a file.
fn push_fixed(events: &mut Vec<Event>)
    requires { vec_len events.old + FIXED_EVENTS ≤ vec_capacity events.old }
    ensures fixed { events.new.items ≡ events.old.items ++ fixed_events }
    ensures len { vec_len events.new ≡ vec_len events.old + FIXED_EVENTS }
    ensures capacity { vec_capacity events.new ≡ vec_capacity events.old }
{
    push(events, Event::Machine(Machine::new(64, 256, 4, 32)));
    push(events, Event::Process { min: 8, max: 48 });
    push(events, Event::Process { min: 8, max: 48 });
    push_memory(events);
    let section = Event::Create {
        pid: Pid(1),
        size: 0x20000,
        flags: Prot::READWRITE.0,
        name: Some(name(b"pool")),
    };
    push(events, section);
    let opened = Event::Open {
        pid: Pid(2),
        name: name(b"pool"),
    };
    push(events, opened);
    push(events, map_whole(1, 4, 0x2));
    push(events, map_whole(2, 4, 0x2));
    let of_file = Event::CreateFile {
        pid: Pid(2),
        file: name(b"data"),
        flags: Prot::READWRITE.0,
        name: None,
    };
    push(events, of_file);
    push(events, map_whole(2, 8, 0x1));
}

/// The events of a generated script (`mmsim bulk SEED COUNT`): eleven fixed ones and `count` drawn
/// ones, by PCG32 from `seed` on. `NoMemory` where a request for memory was refused.
pub fn script(alloc: Global, seed: u64, count: u32) -> Result<Vec<Event>, NoMemory>
    ensures { IfOk result (λ events. events.items ≡ script_of seed count) }
{
    let mut events = Vec::with_capacity(alloc, FIXED_EVENTS + count as usize)?;
    push_fixed(&mut events);
    let mut words = Lcg64Xsh32::new(seed, STREAM);
    for _drawn in 0..count {
        push(&mut events, event(&mut words));
    }
    Ok(events)
}
