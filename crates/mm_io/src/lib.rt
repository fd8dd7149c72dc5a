//! Sources and sinks of bytes: the traits, both in memory, and adapters of std's readers and
//! writers. And the lines of a source: its bytes are held until it is known what stands in front.
//!
//! A source and a sink keep a count of faults. It never falls: a call answers `Failed` only where
//! it rose, and leaves it as it was where it does not. What is not told (the bytes of a std reader
//! or writer) has no bytes in its meanings.
#![tactic(auto)]

mod adapters;
mod buffers;
mod failing;
mod looks;
mod mem_sink;
mod mem_source;
mod programs;
mod waiting;
mod write;

ghost use Rattle.std.specs.Prelude.{◌≡◌, ◌≤◌, ◌+◌, List, ℕ, Option, OnOk};
ghost use Rattle.mm_types.specs.{Loans};
ghost use Rattle.mm_io.specs.Io.{CountsFaults, Reads, Takes, GivesOn, spare_read};

pub use adapters::{StdSink, StdSource};
pub use buffers::{Found, InputBuffer};
pub use looks::Look;
pub use mem_sink::MemSink;
pub use mem_source::MemSource;
use mm_types::Failed;
pub use programs::{buffered, exit_code, words};
pub use write::write_all;

/// Gives bytes from the front to the end.
pub trait Source {
    /// The bytes left, where told.
    ghost left: { Self → Option (List ℕ) };

    /// How often it has failed.
    ghost faults: { Self → ℕ };

    /// How many reads gave no byte.
    ghost idle: { Self → ℕ };

    /// 1 where the last read gave no byte.
    ghost last_idle: { Self → ℕ };

    /// The references that it holds.
    ghost loans: { Self → Loans };

    /// Takes the first bytes of those left into the front of `buf`, and says how many. For a `buf`
    /// that is not empty, 0 is the end of the input. After `Failed` none was taken.
    fn read(&mut self, buf: &mut [u8]) -> Result<usize, Failed>
        ensures bytes { Reads (left self.old) (left self.new) buf.new result }
        ensures idle { idle self.new ≤ idle self.old + spare_read result }
        ensures last { last_idle self.new ≡ spare_read result }
        ensures cause { CountsFaults (faults self.old) (faults self.new) result }
        ensures loans { loans self.new ≡ loans self.old };
}

/// Takes bytes, one piece after another.
pub trait Sink {
    /// The bytes taken, where told.
    ghost taken: { Self → Option (List ℕ) };

    /// Those of them that it has given on, where told: the first ones. The others are still held
    /// here.
    ghost given: { Self → Option (List ℕ) };

    /// How often it has failed.
    ghost faults: { Self → ℕ };

    /// The references that it holds.
    ghost loans: { Self → Loans };

    /// Takes the first bytes of the piece, some where there are any, and says how many. After
    /// `Failed` none was taken.
    fn write(&mut self, buf: &[u8]) -> Result<usize, Failed>
        ensures bytes { Takes (taken self.old) (taken self.new) buf.now result }
        ensures given { GivesOn (given self.old) (given self.new)
            (taken self.old) (taken self.new) }
        ensures cause { CountsFaults (faults self.old) (faults self.new) result }
        ensures loans { loans self.new ≡ loans self.old };

    /// Gives on what was taken and is still held here. What was taken stays the same, whatever the
    /// result is.
    fn flush(&mut self) -> Result<(), Failed>
        ensures taken { taken self.new ≡ taken self.old }
        ensures given { GivesOn (given self.old) (given self.new)
            (taken self.old) (taken self.new) }
        ensures all { OnOk result (given self.new ≡ taken self.new) }
        ensures cause { CountsFaults (faults self.old) (faults self.new) result }
        ensures loans { loans self.new ≡ loans self.old };
}
