ghost use Rattle.std.specs.Prelude.{◌≡◌, ◌+◌, ◌<◌, ◌≤◌, ◌^◌, ◌⊎◌, ℕ, true, OnOk, OnErr, IfOk, is_ok, length, slice_get, slice_set};
ghost use Rattle.mm_types.specs.declared.devices.Direction.TheVariants as way;
ghost use Rattle.mm_devices.specs.{is_next_named, Serves, CallFailed};
ghost use Rattle.mm_world.specs.{filled, written};
ghost use Rattle.mm_store.specs.{with_outcome, no_calls};
ghost use Rattle.mm_unpaged.specs.Files.{IsMade, Stored, WroteDevice, unpaged_device};

use crate::boxes::PageBox;
use mm_devices::Inject;
use mm_types::{Failed, NoMemory};
use std::alloc::Global;
use std::marker::Model;

/// A page of a file, and whether it was changed since its block was last written.
#[derive(Drop)]
pub(crate) struct FilePage {
    pub page: PageBox,
    pub changed: bool,
}

impl FilePage {
    /// Writes bytes from `off` on into the page.
    pub(crate) fn write(&mut self, off: u16, bytes: &[u8])
        requires { off + length bytes.now ≤ 4096 }
        ensures { self.new ≡ record { page = written self.old.page off bytes.now; changed = true } }
    {
        self.page.write(off, bytes);
        self.changed = true;
    }
}

/// The pages of all files, or of one, by block.
pub(crate) type FilePages = Vec<FilePage>;

/// The pages of a new file: page i holds the byte `byte + i` throughout.
pub(crate) fn made_pages(alloc: Global, n: u32, byte: u8) -> Result<FilePages, NoMemory>
    ensures { IfOk result (λ pages. IsMade pages.items n byte) }
{
    let mut pages = Vec::new(alloc);
    for i in 0..n {
        let page = PageBox::filled(alloc, byte.wrapping_add((i % 256) as u8))?;
        pages.push(FilePage {
            page,
            changed: false,
        })?;
    }
    Ok(pages)
}

/// How many writes of the file device succeeded, and how many failed, since the line began. Each
/// count stands still at its type's end.
#[derive(Drop)]
pub(crate) struct Writes {
    succeeded: u64,
    failed: u64,
}

impl Model for Writes {
    ghost use Rattle.mm_world.specs.{Tally};

    ghost Value = { Tally };

    ghost view = { λ w. record { succeeded = w.succeeded; failed = w.failed } };
}

impl Writes {
    /// None yet.
    pub(crate) fn none() -> Writes
        ensures { result ≡ no_calls }
    {
        Writes {
            succeeded: 0,
            failed: 0,
        }
    }

    /// One more.
    pub(crate) fn count(&mut self, succeeded: bool)
        ensures { self.new ≡ with_outcome succeeded self.old }
    {
        if succeeded {
            self.succeeded = self.succeeded.saturating_add(1);
        } else {
            self.failed = self.failed.saturating_add(1);
        }
    }
}

/// Writes a page to a block, and counts the write.
pub(crate) fn write_block<F: Inject>(
    device: &mut F,
    writes: &mut Writes,
    block: u32,
    page: &PageBox,
) -> Result<(), Failed>
    requires { block < length (F.blocks device.old) }
    ensures ok { OnOk result
        (F.blocks device.new ≡ slice_set (F.blocks device.old) block page.now) }
    ensures err { OnErr result (F.blocks device.new ≡ F.blocks device.old) }
    ensures serves { Serves (record {
      way = way.Write;
      block = block;
      succeeded = is_ok result;
      named = is_next_named way.Write (F.named device.old);
    }) (unpaged_device F.Inject device.old) (unpaged_device F.Inject device.new) }
    ensures writes { writes.new ≡ with_outcome (is_ok result) writes.old }
    ensures blamed { OnErr result
        (CallFailed (unpaged_device F.Inject device.old) (unpaged_device F.Inject device.new)) }
    ensures loans { F.loans device.new ≡ F.loans device.old }
{
    let done = device.write(block, page.bytes());
    writes.count(done.is_ok());
    done
}

/// Writes the `n` pages of a new file to the blocks from `first` on, in order, up to the first
/// write that fails.
pub(crate) fn write_file<F: Inject>(
    device: &mut F,
    writes: &mut Writes,
    first: u32,
    n: u32,
    made: &FilePages,
) -> Result<(), Failed>
    requires pages { length made.now.items ≡ n }
    requires inside { first + n ≤ length (F.blocks device.old) }
    requires few { length (F.blocks device.old) < 2 ^ 32 }
    ensures ok { OnOk result (Stored first n made.now.items (F.blocks device.old)
        (F.blocks device.new)) }
    ensures long { length (F.blocks device.new) ≡ length (F.blocks device.old) }
    ensures others { (block : ℕ) → (block < first) ⊎ (first + n ≤ block) →
        slice_get (F.blocks device.new) block ≡ slice_get (F.blocks device.old) block }
    ensures wrote { WroteDevice (unpaged_device F.Inject device.old)
        (unpaged_device F.Inject device.new) writes.old
        writes.new }
    ensures quiet { OnOk result (writes.new.failed ≡ writes.old.failed) }
    ensures failed { OnErr result (0 < writes.new.failed) }
    ensures blamed { OnErr result
        (CallFailed (unpaged_device F.Inject device.old) (unpaged_device F.Inject device.new)) }
    ensures loans { F.loans device.new ≡ F.loans device.old }
{
    for i in 0..n {
        write_block(device, writes, first + i, &made[i as usize].page)?;
    }
    Ok(())
}
