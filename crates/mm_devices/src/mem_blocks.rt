ghost use Rattle.std.specs.Prelude.{◌≡◌, ◌≤◌, ◌<◌, ◌+◌, ◌++◌, ◌↔◌, ◌⊎◌, [], ◌∷◌, Some, None, OnOk, OnErr, IfOk, IfSome, IfNone, IsErr, IsErrOf, length, replicate, slice_get, slice_set, vec_len, vec_capacity};
ghost use Rattle.mm_types.specs.{Loans, NoLoan};
ghost use Rattle.mm_types.specs.declared.devices.Direction.TheVariants as way;
ghost use Rattle.mm_types.specs.declared.faults.OpenFault.TheVariants as fault;
ghost use Rattle.mm_devices.specs.Numbered.{NextFails, next_call, calls_told};
ghost use Rattle.mm_devices.specs.Traffic.{Logged, NoneLogged, HasCallCause, HasOpenCause, made_call, empty_block};

use crate::call_logs::CallLog;
use crate::fail_lists::FailList;
use crate::stores::Store;
use crate::{BlockDevice, DeviceCall};
use mm_types::{Direction, Failed, NoMemory, OpenFault};
use std::alloc::Global;

/// Blocks in memory (own). Its calls are numbered from 1, `open` and `extend` too; those in a list
/// fail, and none but out of memory in `open`, `extend` and `write`. A block takes memory of its own
/// at its first write, so a block that holds other bytes than zeros is written without; a read takes
/// none. It tells its log as long as at most so many reads and writes were made since `open` as it
/// was made with room for.
#[derive(Drop)]
pub struct MemBlocks {
    blocks: Store,
    list: FailList,
    alloc: Global,
    log: CallLog,
}

impl MemBlocks {
    /// A device without blocks, of which the calls in `fails` fail, with room for a log of `log`
    /// calls.
    pub fn new(alloc: Global, fails: Vec<u32>, log: u32) -> Result<MemBlocks, NoMemory>
        ensures blocks { IfOk result (λ d. ⟦<MemBlocks as BlockDevice>⟧.blocks d ≡ []) }
        ensures log { IfOk result (λ d. ⟦<MemBlocks as BlockDevice>⟧.log d ≡ Some []) }
        ensures fails { IfOk result (λ d. d.list.fails ≡ fails) }
        ensures calls { IfOk result (λ d. d.list.calls ≡ 0) }
        ensures room { IfOk result (λ d. d.log.room ≡ log) }
        ensures made { IfOk result (λ d. d.log.made ≡ 0) }
    {
        let log = CallLog::new(alloc, log)?;
        Ok(MemBlocks {
            blocks: Store::new(alloc),
            list: FailList {
                fails,
                calls: 0,
                faults: 0,
            },
            log,
            alloc,
        })
    }

    /// The reads and writes since it was opened, where there was room for all of them.
    pub fn log(&self) -> Option<&[DeviceCall]>
        ensures some { IfSome result
            (λ calls. ⟦<MemBlocks as BlockDevice>⟧.log self.now ≡ Some calls.now) }
        ensures none { IfNone result (⟦<MemBlocks as BlockDevice>⟧.log self.now ≡ None) }
    {
        self.log.calls()
    }

    /// The bytes of block i, counted from 0.
    pub fn block(&self, i: u32) -> &[u8; 4096]
        requires { i < length (⟦<MemBlocks as BlockDevice>⟧.blocks self.now) }
        ensures { slice_get (⟦<MemBlocks as BlockDevice>⟧.blocks self.now) i ≡ Some result.now }
    {
        self.blocks.block(i)
    }

    /// How many blocks it has.
    pub fn count(&self) -> usize
        ensures { result ≡ length (⟦<MemBlocks as BlockDevice>⟧.blocks self.now) }
    {
        self.blocks.count()
    }

    /// Writes block i, counted from 0, and leaves the log as it is.
    fn store(&mut self, i: u32, bytes: &[u8; 4096]) -> Result<(), Failed>
        requires { i < length self.old.blocks }
        ensures ok { OnOk result (self.new.blocks ≡ slice_set self.old.blocks i bytes.now) }
        ensures err { OnErr result (self.new.blocks ≡ self.old.blocks) }
        ensures cause { HasCallCause self.old.list.faults self.new.list.faults result }
        ensures fails { NextFails self.old.list.fails.items self.old.list.calls → IsErr result }
        ensures memory { IsErr result → NextFails self.old.list.fails.items self.old.list.calls ⊎
            (slice_get self.old.blocks i ≡ Some empty_block) }
        ensures calls { self.new.list.calls ≡ next_call self.old.list.calls }
        ensures same_fails { self.new.list.fails ≡ self.old.list.fails }
        ensures same_log { self.new.log ≡ self.old.log }
    {
        if self.list.next_fails() {
            return Err(Failed);
        }
        match self.blocks.put(i, bytes) {
            Ok(()) => Ok(()),
            Err(NoMemory) => {
                self.list.count_fault();
                Err(Failed)
            }
        }
    }
}

impl BlockDevice for MemBlocks {
    ghost blocks = { λ d. d.blocks };

    ghost log = { λ d. calls_told d.log.room d.log.made d.log.calls.items };

    ghost faults = { λ d. d.list.faults };

    ghost loans = { λ d. NoLoan };

    fn open(&mut self, n: u32) -> Result<(), OpenFault>
        ensures ok { OnOk result (self.new.blocks ≡ replicate n empty_block) }
        ensures log { OnOk result (NoneLogged
            (calls_told self.new.log.room self.new.log.made self.new.log.calls.items)) }
        ensures err_log { OnErr result
            (calls_told self.new.log.room self.new.log.made self.new.log.calls.items ≡
            calls_told self.old.log.room self.old.log.made self.old.log.calls.items) }
        ensures cause { HasOpenCause self.old.list.faults self.new.list.faults result }
        ensures loans { NoLoan ≡ NoLoan }
        ensures err { OnErr result (self.new.blocks ≡ self.old.blocks) }
        ensures fails { IsErrOf result fault.Failed ↔ NextFails self.old.list.fails.items
            self.old.list.calls }
        ensures calls { self.new.list.calls ≡ next_call self.old.list.calls }
        ensures same_fails { self.new.list.fails ≡ self.old.list.fails }
        ensures room { self.new.log.room ≡ self.old.log.room }
        ensures made { OnOk result (self.new.log.made ≡ 0) }
    {
        if self.list.next_fails() {
            return Err(OpenFault::Failed);
        }
        let mut blocks = Store::new(self.alloc);
        if blocks.add(n).is_err() {
            return Err(OpenFault::Memory);
        }
        self.blocks = blocks;
        self.log.begin();
        Ok(())
    }

    fn extend(&mut self, n: u32) -> Result<(), OpenFault>
        ensures ok { OnOk result (self.new.blocks ≡ self.old.blocks ++ replicate n empty_block) }
        ensures err { OnErr result (self.new.blocks ≡ self.old.blocks) }
        ensures log { calls_told self.new.log.room self.new.log.made self.new.log.calls.items ≡
            calls_told self.old.log.room self.old.log.made self.old.log.calls.items }
        ensures cause { HasOpenCause self.old.list.faults self.new.list.faults result }
        ensures loans { NoLoan ≡ NoLoan }
        ensures fails { IsErrOf result fault.Failed ↔ NextFails self.old.list.fails.items
            self.old.list.calls }
        ensures calls { self.new.list.calls ≡ next_call self.old.list.calls }
        ensures same_fails { self.new.list.fails ≡ self.old.list.fails }
        ensures same_log { self.new.log ≡ self.old.log }
    {
        if self.list.next_fails() {
            return Err(OpenFault::Failed);
        }
        self.blocks.add(n).map_err(|_| OpenFault::Memory)
    }

    fn read(&mut self, i: u32, out: &mut [u8; 4096]) -> Result<(), Failed>
        requires { i < length self.old.blocks }
        ensures ok { OnOk result (slice_get self.old.blocks i ≡ Some out.new) }
        ensures err { OnErr result (out.new ≡ out.old) }
        ensures blocks { self.new.blocks ≡ self.old.blocks }
        ensures logged { Logged (calls_told self.old.log.room self.old.log.made self.old.log.calls.items)
            (calls_told self.new.log.room self.new.log.made self.new.log.calls.items)
            (made_call way.Read i result ∷ []) }
        ensures cause { HasCallCause self.old.list.faults self.new.list.faults result }
        ensures loans { NoLoan ≡ NoLoan }
        ensures fails { IsErr result ↔ NextFails self.old.list.fails.items self.old.list.calls }
        ensures calls { self.new.list.calls ≡ next_call self.old.list.calls }
        ensures same_fails { self.new.list.fails ≡ self.old.list.fails }
        ensures room { self.new.log.room ≡ self.old.log.room }
        ensures made { self.new.log.made ≡ next_call self.old.log.made }
    {
        let fails = self.list.next_fails();
        self.log.note(DeviceCall {
            direction: Direction::Read,
            block: i,
            succeeded: !fails,
        });
        if fails {
            return Err(Failed);
        }
        *out = *self.blocks.block(i);
        Ok(())
    }

    fn write(&mut self, i: u32, bytes: &[u8; 4096]) -> Result<(), Failed>
        requires { i < length self.old.blocks }
        ensures ok { OnOk result (self.new.blocks ≡ slice_set self.old.blocks i bytes.now) }
        ensures err { OnErr result (self.new.blocks ≡ self.old.blocks) }
        ensures logged { Logged (calls_told self.old.log.room self.old.log.made self.old.log.calls.items)
            (calls_told self.new.log.room self.new.log.made self.new.log.calls.items)
            (made_call way.Write i result ∷ []) }
        ensures cause { HasCallCause self.old.list.faults self.new.list.faults result }
        ensures loans { NoLoan ≡ NoLoan }
        ensures fails { NextFails self.old.list.fails.items self.old.list.calls → IsErr result }
        ensures memory { IsErr result → NextFails self.old.list.fails.items self.old.list.calls ⊎
            (slice_get self.old.blocks i ≡ Some empty_block) }
        ensures calls { self.new.list.calls ≡ next_call self.old.list.calls }
        ensures same_fails { self.new.list.fails ≡ self.old.list.fails }
        ensures room { self.new.log.room ≡ self.old.log.room }
        ensures made { self.new.log.made ≡ next_call self.old.log.made }
    {
        let outcome = self.store(i, bytes);
        self.log.note(DeviceCall {
            direction: Direction::Write,
            block: i,
            succeeded: outcome.is_ok(),
        });
        outcome
    }
}
