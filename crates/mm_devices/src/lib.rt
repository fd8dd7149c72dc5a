//! Devices of blocks of 4,096 bytes: what the simulator asks of one, one in memory, and one whose
//! calls fail where they were named.
#![tactic(auto)]

mod call_logs;
mod device_calls;
mod fail_lists;
mod injections;
mod mem_blocks;
mod plans;
mod stores;

ghost use Rattle.std.specs.Prelude.{◌≡◌, ◌≤◌, ◌<◌, ◌+◌, ◌-◌, ◌++◌, [], ◌∷◌, List, ℕ, Option, Some, OnOk, OnErr, is_ok, length, replicate, slice_get, slice_set};
ghost use Rattle.mm_types.specs.{Loans};
ghost use Rattle.mm_types.specs.declared.devices.Direction.TheVariants as way;
ghost use Rattle.mm_devices.specs.Traffic.{Logged, NoneLogged, HasCallCause, HasOpenCause, made_call, is_next_named, empty_block};
ghost use Rattle.mm_devices.specs.Devices.{Serves, device_with};

pub use device_calls::{DeviceCall, NamedCalls};
pub use injections::Injected;
pub use mem_blocks::MemBlocks;
use mm_types::{Direction, Failed, OpenFault};

/// A device of blocks (own).
pub trait BlockDevice {
    ghost use Rattle.mm_devices.specs.declared.device_calls.DeviceCall.{DeviceCall};

    /// The 4,096 bytes of each block.
    ghost blocks: { Self → List (List ℕ) };

    /// The reads and writes since it was opened, where told.
    ghost log: { Self → Option (List DeviceCall) };

    /// How often it has failed.
    ghost faults: { Self → ℕ };

    /// The references that it holds.
    ghost loans: { Self → Loans };

    /// Opens it with n blocks of zeros, at most 262,144, and an empty log. After an error its log
    /// is as before, and each device says itself what it holds.
    fn open(&mut self, n: u32) -> Result<(), OpenFault>
        requires { n ≤ 262144 }
        ensures ok { OnOk result (blocks self.new ≡ replicate n empty_block) }
        ensures log { OnOk result (NoneLogged (log self.new)) }
        ensures err_log { OnErr result (log self.new ≡ log self.old) }
        ensures cause { HasOpenCause (faults self.old) (faults self.new) result }
        ensures loans { loans self.new ≡ loans self.old };

    /// Adds n blocks of zeros at the end; 262,144 is the most. After an error the blocks are as
    /// before.
    fn extend(&mut self, n: u32) -> Result<(), OpenFault>
        requires { length (blocks self.old) + n ≤ 262144 }
        ensures ok { OnOk result (blocks self.new ≡ blocks self.old ++ replicate n empty_block) }
        ensures err { OnErr result (blocks self.new ≡ blocks self.old) }
        ensures log { log self.new ≡ log self.old }
        ensures cause { HasOpenCause (faults self.old) (faults self.new) result }
        ensures loans { loans self.new ≡ loans self.old };

    /// Reads block i, counted from 0, into `out`. After an error `out` is as before.
    fn read(&mut self, i: u32, out: &mut [u8; 4096]) -> Result<(), Failed>
        requires { i < length (blocks self.old) }
        ensures ok { OnOk result (slice_get (blocks self.old) i ≡ Some out.new) }
        ensures err { OnErr result (out.new ≡ out.old) }
        ensures blocks { blocks self.new ≡ blocks self.old }
        ensures logged { Logged (log self.old) (log self.new) (made_call way.Read i result ∷ []) }
        ensures cause { HasCallCause (faults self.old) (faults self.new) result }
        ensures loans { loans self.new ≡ loans self.old };

    /// Writes block i, counted from 0. After an error the blocks are as before.
    fn write(&mut self, i: u32, bytes: &[u8; 4096]) -> Result<(), Failed>
        requires { i < length (blocks self.old) }
        ensures ok { OnOk result (blocks self.new ≡ slice_set (blocks self.old) i bytes.now) }
        ensures err { OnErr result (blocks self.new ≡ blocks self.old) }
        ensures logged { Logged (log self.old) (log self.new) (made_call way.Write i result ∷ []) }
        ensures cause { HasCallCause (faults self.old) (faults self.new) result }
        ensures loans { loans self.new ≡ loans self.old };
}

/// A device whose reads and writes can be named to fail (own). What each of them does to log, named
/// calls and count of faults is `Serves`.
pub trait Inject {
    ghost use Rattle.mm_devices.specs.declared.device_calls.DeviceCall.{DeviceCall};
    ghost use Rattle.mm_devices.specs.declared.device_calls.NamedCalls.{NamedCalls};

    /// The 4,096 bytes of each block.
    ghost blocks: { Self → List (List ℕ) };

    /// The reads and writes, where told, but those that were named to fail.
    ghost log: { Self → Option (List DeviceCall) };

    /// The calls that are named to fail.
    ghost named: { Self → List NamedCalls };

    /// How often it has failed of itself.
    ghost faults: { Self → ℕ };

    /// The references that it holds.
    ghost loans: { Self → Loans };

    /// Adds n blocks of zeros at the end; 262,144 is the most. After an error the blocks are as
    /// before. No such call is ever named to fail.
    fn extend(&mut self, n: u32) -> Result<(), OpenFault>
        requires { length (blocks self.old) + n ≤ 262144 }
        ensures ok { OnOk result (blocks self.new ≡ blocks self.old ++ replicate n empty_block) }
        ensures err { OnErr result (blocks self.new ≡ blocks self.old) }
        ensures log { log self.new ≡ log self.old }
        ensures named { named self.new ≡ named self.old }
        ensures cause { HasOpenCause (faults self.old) (faults self.new) result }
        ensures loans { loans self.new ≡ loans self.old };

    /// Reads block i, counted from 0, into `out`. It fails where it was named to; after an error
    /// `out` is as before.
    fn read(&mut self, i: u32, out: &mut [u8; 4096]) -> Result<(), Failed>
        requires { i < length (blocks self.old) }
        ensures ok { OnOk result (slice_get (blocks self.old) i ≡ Some out.new) }
        ensures err { OnErr result (out.new ≡ out.old) }
        ensures blocks { blocks self.new ≡ blocks self.old }
        ensures served { Serves (record {
          way = way.Read;
          block = i;
          succeeded = is_ok result;
          named = is_next_named way.Read (named self.old);
        })
            (device_with (log self.old) (named self.old) (faults self.old))
            (device_with (log self.new) (named self.new) (faults self.new)) }
        ensures loans { loans self.new ≡ loans self.old };

    /// Writes block i, counted from 0. It fails where it was named to; after an error the blocks
    /// are as before.
    fn write(&mut self, i: u32, bytes: &[u8; 4096]) -> Result<(), Failed>
        requires { i < length (blocks self.old) }
        ensures ok { OnOk result (blocks self.new ≡ slice_set (blocks self.old) i bytes.now) }
        ensures err { OnErr result (blocks self.new ≡ blocks self.old) }
        ensures served { Serves (record {
          way = way.Write;
          block = i;
          succeeded = is_ok result;
          named = is_next_named way.Write (named self.old);
        })
            (device_with (log self.old) (named self.old) (faults self.old))
            (device_with (log self.new) (named self.new) (faults self.new)) }
        ensures loans { loans self.new ≡ loans self.old };

    /// Of the reads, or of the writes, from now on, the k-th, counted from 1, is the first of n
    /// that fail. At most 64 times: what is named stays in the list once it is spent.
    fn name_calls(&mut self, direction: Direction, k: u32, n: u32)
        requires room { length (named self.old) < 64 }
        requires first { 1 ≤ k }
        requires some { 1 ≤ n }
        ensures named { named self.new ≡ named self.old ++ record {
          direction = direction;
          passes = k - 1;
          fails = n;
        } ∷ [] }
        ensures blocks { blocks self.new ≡ blocks self.old }
        ensures log { log self.new ≡ log self.old }
        ensures faults { faults self.new ≡ faults self.old }
        ensures loans { loans self.new ≡ loans self.old };
}
