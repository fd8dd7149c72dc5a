ghost use Rattle.std.specs.Prelude.{None, length};
ghost use Rattle.mm_io.specs.Io.{CountsFaults, Takes};
ghost use Rattle.mm_types.specs.{NoLoan};

use crate::waiting::Waiting;
use crate::{Sink, Source, write_all};
use mm_types::Failed;
use std::io::{Read, Write};

/// A source over a std reader. It tells nothing of its bytes.
#[derive(Drop)]
pub struct StdSource<R: Read + Drop> {
    reader: R,
    faults: u64,
    idle: u64,
    last_idle: u64,
}

impl<R: Read + Drop> StdSource<R> {
    pub fn new(reader: R) -> StdSource<R> {
        StdSource {
            reader,
            faults: 0,
            idle: 0,
            last_idle: 0,
        }
    }
}

impl<R: Read + Drop> Source for StdSource<R> {
    ghost left = { λ s. None };

    ghost faults = { λ s. s.faults };

    ghost idle = { λ s. s.idle };

    ghost last_idle = { λ s. s.last_idle };

    ghost loans = { λ s. NoLoan };

    fn read(&mut self, buf: &mut [u8]) -> Result<usize, Failed> {
        match self.reader.read(buf) {
            Ok(n) => {
                if n == 0 {
                    self.idle = self.idle.saturating_add(1);
                    self.last_idle = 1;
                } else {
                    self.last_idle = 0;
                }
                Ok(n)
            }
            Err(_) => {
                self.faults = self.faults.saturating_add(1);
                self.idle = self.idle.saturating_add(1);
                self.last_idle = 1;
                Err(Failed)
            }
        }
    }
}

/// A sink over a std writer, with no room of its own. A writer that takes nothing of a piece that is
/// not empty has failed.
#[derive(Drop)]
struct Direct<W: Write + Drop> {
    writer: W,
    faults: u64,
}

impl<W: Write + Drop> Sink for Direct<W> {
    ghost taken = { λ s. None };

    ghost given = { λ s. None };

    ghost faults = { λ s. s.faults };

    ghost loans = { λ s. NoLoan };

    fn write(&mut self, buf: &[u8]) -> Result<usize, Failed> {
        match self.writer.write(buf) {
            Ok(n) if n > 0 || buf.is_empty() => Ok(n),
            _ => {
                self.faults = self.faults.saturating_add(1);
                Err(Failed)
            }
        }
    }

    fn flush(&mut self) -> Result<(), Failed> {
        match self.writer.flush() {
            Ok(()) => Ok(()),
            Err(_) => {
                self.faults = self.faults.saturating_add(1);
                Err(Failed)
            }
        }
    }
}

/// A sink over a std writer. It tells nothing of its bytes. Short pieces wait in a room of its own
/// until it is full or flushed; where the writer fails they are lost.
#[derive(Drop)]
pub struct StdSink<W: Write + Drop> {
    direct: Direct<W>,
    waiting: Waiting,
}

impl<W: Write + Drop> StdSink<W> {
    pub fn new(writer: W) -> StdSink<W> {
        StdSink {
            direct: Direct { writer, faults: 0 },
            waiting: Waiting::new(),
        }
    }

    /// Has the writer take what waits.
    #[inline(never)]
    fn give_on(&mut self) -> Result<(), Failed>
        ensures cause { CountsFaults self.old.direct.faults self.new.direct.faults result }
    {
        let wrote = write_all(&mut self.direct, self.waiting.bytes());
        self.waiting.clear();
        wrote
    }

    /// Takes a piece that has no room.
    #[inline(never)]
    fn write_on(&mut self, buf: &[u8]) -> Result<usize, Failed>
        ensures bytes { Takes None None buf.now result }
        ensures cause { CountsFaults self.old.direct.faults self.new.direct.faults result }
    {
        match self.give_on() {
            Ok(()) => {}
            Err(failed) => return Err(failed),
        }
        if self.waiting.keep(buf) {
            return Ok(buf.len());
        }
        self.direct.write(buf)
    }
}

impl<W: Write + Drop> Sink for StdSink<W> {
    ghost taken = { λ s. None };

    ghost given = { λ s. None };

    ghost faults = { λ s. s.direct.faults };

    ghost loans = { λ s. NoLoan };

    #[inline(always)]
    fn write(&mut self, buf: &[u8]) -> Result<usize, Failed> {
        if self.waiting.keep(buf) {
            return Ok(buf.len());
        }
        self.write_on(buf)
    }

    fn flush(&mut self) -> Result<(), Failed> {
        match self.give_on() {
            Ok(()) => self.direct.flush(),
            Err(failed) => Err(failed),
        }
    }
}
