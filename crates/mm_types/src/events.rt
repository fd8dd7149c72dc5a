use crate::{ByteBuf, Device, Direction, Machine, Name, Pid, Tid};

/// What a thread's access does: reads so many bytes from an address on, or writes these bytes
/// there.
#[derive(Drop)]
pub enum AccessSpec {
    Read { addr: u32, len: u32 },
    Write { addr: u32, bytes: ByteBuf },
}

/// A line of a script, with its fields in order.
///
/// Addresses, sizes, lengths, `reserve` and `commit` are bytes; `pages`, `min` and `max` count
/// pages; `form` is the allocation type of VirtualAlloc or the free type of VirtualFree.
#[derive(Drop)]
pub enum Event {
    /// `machine <frames> <slots> <depth> <blocks>`
    Machine(Machine),
    /// `process <min> <max>`
    Process {
        min: u32,
        max: u32,
    },
    /// `exit <pid>`
    Exit {
        pid: Pid,
    },
    /// `file <name> <pages> <byte>`
    File {
        name: Name,
        pages: u32,
        byte: u8,
    },
    /// `alloc <pid> <addr> <size> <type> <prot>`
    Alloc {
        pid: Pid,
        addr: u32,
        size: u32,
        form: u32,
        prot: u32,
    },
    /// `free <pid> <addr> <size> <type>`
    Free {
        pid: Pid,
        addr: u32,
        size: u32,
        form: u32,
    },
    /// `protect <pid> <addr> <size> <prot>`
    Protect {
        pid: Pid,
        addr: u32,
        size: u32,
        prot: u32,
    },
    /// `query <pid> <addr>`
    Query {
        pid: Pid,
        addr: u32,
    },
    /// `create <pid> <size> <flags> <name|->`
    Create {
        pid: Pid,
        size: u32,
        flags: u32,
        name: Option<Name>,
    },
    /// `createfile <pid> <file name> <flags> <name|->`
    CreateFile {
        pid: Pid,
        file: Name,
        flags: u32,
        name: Option<Name>,
    },
    /// `open <pid> <name>`
    Open {
        pid: Pid,
        name: Name,
    },
    /// `close <pid> <handle>`
    Close {
        pid: Pid,
        handle: u32,
    },
    /// `map <pid> <handle> <access> <offset> <length> <addr>`
    Map {
        pid: Pid,
        handle: u32,
        access: u32,
        offset: u32,
        length: u32,
        addr: u32,
    },
    /// `unmap <pid> <addr>`
    Unmap {
        pid: Pid,
        addr: u32,
    },
    /// `flush <pid> <addr> <size>`
    Flush {
        pid: Pid,
        addr: u32,
        size: u32,
    },
    /// `read <pid> <addr> <len>`
    Read {
        pid: Pid,
        addr: u32,
        len: u32,
    },
    /// `write <pid> <addr> <bytes>`
    Write {
        pid: Pid,
        addr: u32,
        bytes: ByteBuf,
    },
    /// `exec <pid> <addr>`
    Exec {
        pid: Pid,
        addr: u32,
    },
    /// `begin <tid> <pid> read <addr> <len>`, `begin <tid> <pid> write <addr> <bytes>`
    Begin {
        tid: Tid,
        pid: Pid,
        access: AccessSpec,
    },
    /// `resume <tid>`
    Resume {
        tid: Tid,
    },
    /// `io <i>`: the request that was issued as the `index`-th of those in flight, from 1
    Io {
        index: u32,
    },
    /// `trim <pid> <n>`
    Trim {
        pid: Pid,
        count: u32,
    },
    /// `age <pid>`
    Age {
        pid: Pid,
    },
    /// `writer <n>`
    Writer {
        count: u32,
    },
    /// `zeroer <n>`
    Zeroer {
        count: u32,
    },
    /// `fail <paging|file> <read|write> <k> <n>`
    Fail {
        device: Device,
        direction: Direction,
        nth: u32,
        count: u32,
    },
    /// `charge`
    Charge,
    /// `counts`
    Counts,
    /// `grow <n>`
    Grow {
        slots: u32,
    },
    /// `watch <pid> <flag> <addr> <size> <count>`
    Watch {
        pid: Pid,
        reset: bool,
        addr: u32,
        size: u32,
        count: u32,
    },
    /// `resetwatch <pid> <addr> <size>`
    ResetWatch {
        pid: Pid,
        addr: u32,
        size: u32,
    },
    /// `stack <tid> <pid> <reserve> <commit>`
    Stack {
        tid: Tid,
        pid: Pid,
        reserve: u32,
        commit: u32,
    },
    /// `probe <tid> <addr>`
    Probe {
        tid: Tid,
        addr: u32,
    },
}
