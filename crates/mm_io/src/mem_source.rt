ghost use Rattle.std.specs.Prelude.{◌≡◌, ◌≤◌, ◌<◌, ◌+◌, ◌↔◌, List, ℕ, Option, Some, drop, take, length, IsErr};
ghost use Rattle.mm_types.specs.{Loans, NoLoan};
ghost use Rattle.mm_io.specs.Io.{CountsFaults, Reads, spare_read};
ghost use Rattle.mm_io.specs.Calls.{NextFails, next_call};

use crate::Source;
use crate::failing::is_to_fail;
use mm_types::Failed;

/// Bytes in memory. The calls in `fails`, numbered from 1, fail, and no other.
#[derive(Drop)]
pub struct MemSource {
    pub bytes: Vec<u8>,
    pub fails: Vec<u32>,
    pub at: usize,
    pub calls: u64,
    pub faults: u64,
    pub idle: u64,
    pub last_idle: u64,
    ghost within: { at ≤ length bytes.items },
}

impl MemSource {
    /// A source of these bytes, of which the calls in `fails` fail.
    pub fn new(bytes: Vec<u8>, fails: Vec<u32>) -> MemSource
        ensures left { ⟦<MemSource as Source>⟧.left result ≡ Some bytes.items }
        ensures fails { result.fails ≡ fails }
        ensures calls { result.calls ≡ 0 }
    {
        MemSource {
            bytes,
            fails,
            at: 0,
            calls: 0,
            faults: 0,
            idle: 0,
            last_idle: 0,
        }
    }
}

/// Copies the front of `bytes` to the front of `buf`.
fn copy_front(buf: &mut [u8], bytes: &[u8], n: usize)
    requires bytes { n ≤ length bytes.now }
    requires buf { n ≤ length buf.old }
    ensures { take n buf.new ≡ take n bytes.now }
{
    for i in 0..n {
        buf[i] = bytes[i];
    }
}

impl Source for MemSource {
    ghost left = { λ s. Some (drop s.at s.bytes.items) };

    ghost faults = { λ s. s.faults };

    ghost idle = { λ s. s.idle };

    ghost last_idle = { λ s. s.last_idle };

    ghost loans = { λ s. NoLoan };

    fn read(&mut self, buf: &mut [u8]) -> Result<usize, Failed>
        ensures bytes { Reads (Some (drop self.old.at self.old.bytes.items))
            (Some (drop self.new.at self.new.bytes.items)) buf.new result }
        ensures idle { self.new.idle ≤ self.old.idle + spare_read result }
        ensures last { self.new.last_idle ≡ spare_read result }
        ensures cause { CountsFaults self.old.faults self.new.faults result }
        ensures loans { NoLoan ≡ NoLoan }
        ensures fails { IsErr result ↔ NextFails self.old.fails.items self.old.calls }
        ensures calls { self.new.calls ≡ next_call self.old.calls }
        ensures same_fails { self.new.fails ≡ self.old.fails }
    {
        self.calls = self.calls.saturating_add(1);
        if is_to_fail(&self.fails, self.calls) {
            self.faults = self.faults.saturating_add(1);
            self.idle = self.idle.saturating_add(1);
            self.last_idle = 1;
            return Err(Failed);
        }
        let n = buf.len().min(self.bytes.len() - self.at);
        copy_front(buf, &self.bytes[self.at..], n);
        self.at += n;
        self.last_idle = u64::from(n == 0);
        self.idle = self.idle.saturating_add(self.last_idle);
        Ok(n)
    }
}
