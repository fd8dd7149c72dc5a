//! What a program begins and ends with: its words, a buffer before a stream, its exit code.

use mm_types::NoMemory;
use std::alloc::Global;
use std::io::{BufWriter, Write};
use std::process::ExitCode;
use std::rt::Env;
use std::{env, io};

/// The status where a request for memory was refused.
const NO_MEMORY: u8 = 1;

/// The words after the program's name; where one of them is no text an empty word, which is no
/// form of any program.
pub fn words(rt: &(impl Env + AllocGlobal)) -> Result<Vec<String>, NoMemory> {
    let mut words = Vec::new(rt.alloc());
    match env::args(rt) {
        Ok(args) => words.extend(args.skip(1))?,
        Err(e) if e.kind() == io::ErrorKind::OutOfMemory => return Err(NoMemory),
        Err(_) => words.push(String::new(rt.alloc()))?,
    }
    Ok(words)
}

/// A buffer in front of a standard stream.
pub fn buffered<W: Write + Drop>(alloc: Global, stream: W) -> Result<BufWriter<W>, NoMemory> {
    BufWriter::new(alloc, stream).map_err(|_| NoMemory)
}

/// The exit code of a program that ended with this status, or found no memory.
pub fn exit_code(status: Result<u8, NoMemory>) -> ExitCode {
    ExitCode::from(status.unwrap_or(NO_MEMORY))
}
