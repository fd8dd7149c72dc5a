ghost use Rattle.std.specs.Prelude.{◌≡◌, ◌≢◌, ℕ, List, ◌+◌, ◌<◌, ◌≤◌, length, replicate, Some, None, IfOk, OnOk, OnErr, IsSome, is_ok, map, slice_get, slice_set};
ghost use Rattle.mm_ram.specs.declared.contents.Contents.TheVariants as contains;
ghost use Rattle.mm_devices.specs.{WasRead};
ghost use Rattle.mm_ram.specs.Frames.{ArePlaces, has_bytes, is_filled, shown};
ghost use Rattle.mm_ram.specs.Places.{IsFilled};
ghost use Rattle.mm_ram.specs.Ram.{page_at, bytes_of, bytes_from, overwritten, with_page, zero_page};
ghost use Rattle.mm_types.specs.{page_size};

use crate::Contents;
use crate::cells::{Base, Cells, Deed, allocate, deallocate};
use mm_devices::Inject;
use mm_types::{Failed, Frame, NoMemory};
use std::alloc::Global;
use std::marker::Model;

/// A page of zeros, and one of ones beside it: from a constant of which all bytes are equal the
/// compiler makes a fill in place of a copy, which takes longer.
static ZEROS_FIRST: [[u8; 4096]; 2] = [[0; 4096], [1; 4096]];

/// The bytes of a machine's page frames.
///
/// Contracts see a list: for each frame its 4,096 bytes, or `None` where it was never written.
pub struct Ram {
    base: Base<[u8; 4096]>,
    cells: Cells<[u8; 4096]>,
    deed: Deed<[u8; 4096], Global>,
    contents: Vec<Contents>,
    alloc: Global,
}

impl Model for Ram {
    ghost use Rattle.std.specs.Prelude.{ℕ, List, Option};
    ghost use Rattle.mm_ram.specs.Frames.{IsRam, shown};

    ghost Value = { List (Option (List ℕ)) };

    ghost view = { λ r. shown r.contents.items r.cells.slots };

    ghost invariant = { λ r. IsRam r.base.ptr r.cells.at r.deed.at r.deed.len r.deed.alloc
        r.alloc r.cells.slots r.contents.items };
}

fn unwritten(alloc: Global, n: usize) -> Result<Vec<Contents>, NoMemory>
    ensures { IfOk result (λ v. v.items ≡ replicate n contains.Unwritten) }
{
    Ok(vec![in alloc; Contents::Unwritten; n]?)
}

/// Reads bytes from a place on.
fn get_bytes(page: &[u8], at: usize, out: &mut [u8])
    requires { at + length out.old ≤ length page.now }
    ensures { out.new ≡ bytes_from page.now at (length out.old) }
{
    let end = at + out.len();
    out.copy_from_slice(&page[at..end]);
}

/// Writes the bytes from a place on.
fn put_bytes(page: &mut [u8], at: usize, new: &[u8])
    requires { at + length new.now ≤ length page.old }
    ensures { page.new ≡ overwritten page.old at new.now }
{
    let end = at + new.len();
    page[at..end].copy_from_slice(new);
}

/// A frame's place has these bytes, and the frame shows them.
fn put_page(
    base: Base<[u8; 4096]>,
    cells: &mut Cells<[u8; 4096]>,
    contents: &mut Vec<Contents>,
    i: usize,
    bytes: &[u8; 4096],
)
    requires at { base.ptr ≡ cells.old.at }
    requires there { i < length cells.old.slots }
    requires filled { map has_bytes contents.old.items ≡ map is_filled cells.old.slots }
    ensures at { cells.new.at ≡ cells.old.at }
    ensures slots { cells.new.slots ≡ slice_set cells.old.slots i (Some bytes.now) }
    ensures contents { contents.new.items ≡ slice_set contents.old.items i contains.Bytes }
{
    if contents[i].has_bytes() {
        *cells.get_mut(base, i) = *bytes;
    } else {
        cells.write(base, i, *bytes);
    }
    contents[i] = Contents::Bytes;
}

/// A frame's place has bytes that can be lent, and all frames show the same as before.
fn fill_place(
    base: Base<[u8; 4096]>,
    cells: &mut Cells<[u8; 4096]>,
    contents: &mut Vec<Contents>,
    i: usize,
)
    requires at { base.ptr ≡ cells.old.at }
    requires low { i < length cells.old.slots }
    requires kept { ArePlaces cells.old.slots contents.old.items }
    ensures at { cells.new.at ≡ cells.old.at }
    ensures long { length cells.new.slots ≡ length cells.old.slots }
    ensures kept { ArePlaces cells.new.slots contents.new.items }
    ensures same { shown contents.new.items cells.new.slots
        ≡ shown contents.old.items cells.old.slots }
    ensures there { IsFilled cells.new.slots i }
{
    let was = contents[i];
    if !was.has_bytes() {
        cells.write(base, i, ZEROS_FIRST[0]);
        contents[i] = was.backed();
    }
}

/// Reads a block of a device into a page.
fn read_page<D: Inject>(device: &mut D, block: u32, page: &mut [u8; 4096]) -> Result<(), Failed>
    requires { block < length (D.blocks device.old) }
    ensures ok { OnOk result (slice_get (D.blocks device.old) block ≡ Some page.new) }
    ensures err { OnErr result (page.new ≡ page.old) }
    ensures whole { length page.new ≡ page_size }
    ensures read { WasRead D.Inject block (is_ok result) device.old device.new }
{
    device.read(block, page)
}

impl Ram {
    /// So many frames, none of which was written.
    pub fn new(alloc: Global, frames: u32) -> Result<Ram, NoMemory>
        ensures { IfOk result (λ r. r ≡ replicate frames None) }
    {
        let frames = frames as usize;
        let contents = unwritten(alloc, frames)?;
        let (base, cells, deed) = allocate(&alloc, frames)?;
        Ok(Ram {
            base,
            cells,
            deed,
            contents,
            alloc,
        })
    }

    /// The frame holds zeros.
    pub fn zero(&mut self, f: Frame)
        requires { f.0 < length self.old }
        ensures { self.new ≡ with_page self.old f.0 zero_page }
    {
        let i = f.0 as usize;
        self.contents[i] = self.contents[i].zeroed();
    }

    /// The frame holds these bytes.
    pub fn fill(&mut self, f: Frame, bytes: &[u8; 4096])
        requires { f.0 < length self.old }
        ensures { self.new ≡ with_page self.old f.0 bytes.now }
    {
        put_page(
            self.base,
            &mut self.cells,
            &mut self.contents,
            f.0 as usize,
            bytes,
        );
    }

    /// Reads a block of a device into a frame, which then holds its bytes; after an error all
    /// frames are as before.
    pub fn fill_from<D: Inject>(
        &mut self,
        f: Frame,
        device: &mut D,
        block: u32,
    ) -> Result<(), Failed>
        requires frame { f.0 < length self.old }
        requires block { block < length (D.blocks device.old) }
        ensures ok { OnOk result
            (self.new ≡ slice_set self.old f.0 (slice_get (D.blocks device.old) block)) }
        ensures err { OnErr result (self.new ≡ self.old) }
        ensures read { WasRead D.Inject block (is_ok result) device.old device.new }
    {
        let i = f.0 as usize;
        fill_place(self.base, &mut self.cells, &mut self.contents, i);
        read_page(device, block, self.cells.get_mut(self.base, i))?;
        self.contents[i] = Contents::Bytes;
        Ok(())
    }

    /// The frame `to` holds the bytes of `from`, which was written.
    pub fn copy(&mut self, from: Frame, to: Frame)
        requires written { IsSome (page_at self.old from.0) }
        requires there { to.0 < length self.old }
        requires other { from.0 ≢ to.0 }
        ensures { self.new ≡ with_page self.old to.0 (bytes_of self.old from.0) }
    {
        let i = from.0 as usize;
        if let Contents::Bytes = self.contents[i] {
            let page = *self.cells.get(self.base, i);
            self.fill(to, &page);
        } else {
            self.zero(to);
        }
    }

    /// Reads bytes of a frame that was written, from an offset on.
    pub fn read(&self, f: Frame, off: u16, out: &mut [u8])
        requires written { IsSome (page_at self.now f.0) }
        requires inside { off + length out.old ≤ page_size }
        ensures bytes { out.new ≡ bytes_from (bytes_of self.now f.0) off (length out.old) }
        ensures whole { length (bytes_of self.now f.0) ≡ page_size }
    {
        get_bytes(self.page(f), off as usize, out);
    }

    /// Writes bytes of a frame that was written, from an offset on.
    pub fn write(&mut self, f: Frame, off: u16, bytes: &[u8])
        requires written { IsSome (page_at self.old f.0) }
        requires inside { off + length bytes.now ≤ page_size }
        ensures { self.new
            ≡ with_page self.old f.0 (overwritten (bytes_of self.old f.0) off bytes.now) }
    {
        let i = f.0 as usize;
        let off = off as usize;
        if let Contents::Bytes = self.contents[i] {
            put_bytes(self.cells.get_mut(self.base, i), off, bytes);
        } else {
            put_page(
                self.base,
                &mut self.cells,
                &mut self.contents,
                i,
                &ZEROS_FIRST[0],
            );
            put_bytes(self.cells.get_mut(self.base, i), off, bytes);
        }
    }

    /// All bytes of a frame that was written, where they are.
    pub fn page(&self, f: Frame) -> &[u8; 4096]
        requires { IsSome (page_at self.now f.0) }
        ensures { result.now ≡ bytes_of self.now f.0 }
    {
        let i = f.0 as usize;
        if let Contents::Bytes = self.contents[i] {
            self.cells.get(self.base, i)
        } else {
            &ZEROS_FIRST[0]
        }
    }

    /// A law, which does nothing: each frame that was written has 4,096 bytes.
    pub fn pages_are_whole(&self)
        ensures { (f : ℕ) (page : List ℕ) → page_at self.now f ≡ Some page →
            length page ≡ page_size }
    {
        let _ = &self.contents;
    }
}

/// Empties each place that has bytes, so that the block may be given back.
fn empty(base: Base<[u8; 4096]>, cells: &mut Cells<[u8; 4096]>, contents: &[Contents])
    requires at { base.ptr ≡ cells.old.at }
    requires filled { map has_bytes contents.now ≡ map is_filled cells.old.slots }
    ensures at { cells.new.at ≡ cells.old.at }
    ensures slots { cells.new.slots ≡ replicate (length contents.now) None }
{
    for i in 0..contents.len() {
        if contents[i].has_bytes() {
            let _ = cells.read(base, i);
        }
    }
}

impl Drop for Ram {
    fn drop(self) {
        let Ram {
            base,
            mut cells,
            deed,
            contents,
            alloc,
        } = self;
        empty(base, &mut cells, &contents);
        deallocate(&alloc, base, contents.len(), cells, deed);
    }
}
