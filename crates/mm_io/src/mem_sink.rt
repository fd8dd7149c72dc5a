ghost use Rattle.std.specs.Prelude.{◌≡◌, ◌≤◌, ◌<◌, ◌+◌, ◌↔◌, ◌⊎◌, [], List, ℕ, Option, Some, length, vec_len, vec_capacity, Ok, IfOk, OnOk, IsErr};
ghost use Rattle.mm_types.specs.{Loans, NoLoan};
ghost use Rattle.mm_io.specs.Io.{CountsFaults, Takes, GivesOn};
ghost use Rattle.mm_io.specs.Calls.{NextFails, next_call};

use crate::Sink;
use crate::failing::is_to_fail;
use mm_types::{Failed, NoMemory};
use std::alloc::Global;

/// Room in memory, taken when the sink is made. A write fails exactly where its number, counted
/// from 1, is in `fails` or the piece is longer than the room left. Any other write takes the whole
/// piece, and nothing is held back. A flush does not fail, and is not counted.
#[derive(Drop)]
pub struct MemSink {
    pub bytes: Vec<u8>,
    pub fails: Vec<u32>,
    pub room: u32,
    pub calls: u64,
    pub faults: u64,
    ghost has_room: { vec_len bytes + room ≤ vec_capacity bytes },
}

impl MemSink {
    /// A sink with room for so many bytes, of which the calls in `fails` fail.
    pub fn new(alloc: Global, room: u32, fails: Vec<u32>) -> Result<MemSink, NoMemory>
        ensures taken { IfOk result (λ s. ⟦<MemSink as Sink>⟧.taken s ≡ Some []) }
        ensures room { IfOk result (λ s. s.room ≡ room) }
        ensures fails { IfOk result (λ s. s.fails ≡ fails) }
        ensures calls { IfOk result (λ s. s.calls ≡ 0) }
    {
        let bytes = Vec::with_capacity(alloc, room as usize)?;
        Ok(MemSink {
            bytes,
            fails,
            room,
            calls: 0,
            faults: 0,
        })
    }

    /// The bytes taken.
    pub fn bytes(&self) -> &[u8]
        ensures { ⟦<MemSink as Sink>⟧.taken self.now ≡ Some result.now }
    {
        self.bytes.as_slice()
    }
}

impl Sink for MemSink {
    ghost taken = { λ s. Some s.bytes.items };

    ghost given = { λ s. Some s.bytes.items };

    ghost faults = { λ s. s.faults };

    ghost loans = { λ s. NoLoan };

    fn write(&mut self, buf: &[u8]) -> Result<usize, Failed>
        ensures bytes { Takes (Some self.old.bytes.items) (Some self.new.bytes.items)
            buf.now result }
        ensures given { GivesOn (Some self.old.bytes.items) (Some self.new.bytes.items)
            (Some self.old.bytes.items) (Some self.new.bytes.items) }
        ensures cause { CountsFaults self.old.faults self.new.faults result }
        ensures loans { NoLoan ≡ NoLoan }
        ensures fails { IsErr result ↔ (NextFails self.old.fails.items self.old.calls ⊎
            (self.old.room < length buf.now)) }
        ensures whole { IfOk result (λ n. n ≡ length buf.now) }
        ensures room { IfOk result (λ n. self.new.room + n ≡ self.old.room) }
        ensures calls { self.new.calls ≡ next_call self.old.calls }
        ensures same_fails { self.new.fails ≡ self.old.fails }
    {
        self.calls = self.calls.saturating_add(1);
        if buf.len() > self.room as usize || is_to_fail(&self.fails, self.calls) {
            self.faults = self.faults.saturating_add(1);
            return Err(Failed);
        }
        self.room -= buf.len() as u32;
        match self.bytes.extend_from_slice(buf) {
            Ok(()) => Ok(buf.len()),
            Err(_) => unreachable!(),
        }
    }

    /// Does nothing: what was taken stands in memory. It is no call that `fails` counts.
    fn flush(&mut self) -> Result<(), Failed>
        ensures taken { Some self.new.bytes.items ≡ Some self.old.bytes.items }
        ensures given { GivesOn (Some self.old.bytes.items) (Some self.new.bytes.items)
            (Some self.old.bytes.items) (Some self.new.bytes.items) }
        ensures all { OnOk result (Some self.new.bytes.items ≡ Some self.new.bytes.items) }
        ensures cause { CountsFaults self.old.faults self.new.faults result }
        ensures loans { NoLoan ≡ NoLoan }
        ensures same { self.new ≡ self.old }
        ensures ok { result ≡ Ok tt }
    {
        Ok(())
    }
}
