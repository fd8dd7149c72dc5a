ghost use Rattle.std.specs.Prelude.{◌≡◌, ◌+◌, ◌<◌, ◌≤◌, length, replicate, take, drop, IsOk, IfOk, OnOk};
ghost use Rattle.mm_world.specs.{filled, written};
ghost use Rattle.mm_unpaged.specs.Stocks.{StockOf};

use mm_types::NoMemory;
use std::alloc::Global;
use std::marker::Model;

/// The 4,096 bytes of a page, on the heap.
#[derive(Drop)]
pub(crate) struct PageBox {
    bytes: Box<[u8; 4096]>,
}

impl Model for PageBox {
    ghost use Rattle.std.specs.Prelude.{List, ℕ};

    ghost Value = { List ℕ };

    ghost view = { λ p. p.bytes.value };
}

impl PageBox {
    /// A page of which each byte is this one.
    #[tactic(auto, unfolding(mm_world::specs::World::filled))]
    pub(crate) fn filled(alloc: Global, byte: u8) -> Result<PageBox, NoMemory>
        ensures { IfOk result (λ page. page ≡ filled byte) }
    {
        let bytes = Box::new(alloc, [byte; 4096])?;
        Ok(PageBox { bytes })
    }

    /// The page holds the bytes of another from now on.
    pub(crate) fn copy_from(&mut self, from: &PageBox)
        ensures { self.new ≡ from.now }
    {
        *self.bytes = *from.bytes;
    }

    /// All its bytes.
    pub(crate) fn bytes(&self) -> &[u8; 4096]
        ensures { result.now ≡ self.now }
    {
        &*self.bytes
    }

    /// Reads bytes from `off` on.
    pub(crate) fn read(&self, off: u16, out: &mut [u8])
        requires { off + length out.old ≤ 4096 }
        ensures { out.new ≡ take (length out.old) (drop off self.now) }
    {
        let at = off as usize;
        let end = at + out.len();
        out.copy_from_slice(&self.bytes[at..end]);
    }

    /// Writes bytes from `off` on.
    pub(crate) fn write(&mut self, off: u16, bytes: &[u8])
        requires { off + length bytes.now ≤ 4096 }
        ensures { self.new ≡ written self.old off bytes.now }
    {
        let at = off as usize;
        let end = at + bytes.len();
        self.bytes[at..end].copy_from_slice(bytes);
    }
}

/// Boxes for pages that are still to come, and for how many pages in all there is a box.
#[derive(Drop)]
pub(crate) struct Stock {
    alloc: Global,
    boxes: Vec<PageBox>,
    room: u32,
}

impl Model for Stock {
    ghost use Rattle.std.specs.Prelude.{◌≤◌, length};
    ghost use Rattle.std.specs.Vec.{vec_capacity};
    ghost use Rattle.mm_unpaged.specs.Stocks.{StockOf};

    ghost Value = { StockOf };

    ghost view = { λ s. record { boxes = length s.boxes.items; room = s.room } };

    // so that each box that is out finds its place again
    ghost invariant = { λ s. s.room ≤ vec_capacity s.boxes };
}

impl Stock {
    /// No box.
    pub(crate) fn new(alloc: Global) -> Stock
        ensures { result ≡ record { boxes = 0; room = 0 } }
    {
        Stock {
            alloc,
            boxes: Vec::new(alloc),
            room: 0,
        }
    }

    /// Sees that there are boxes for `total` pages in all.
    pub(crate) fn reserve(&mut self, total: u32) -> Result<(), NoMemory>
        requires { self.old.boxes ≤ self.old.room }
        ensures more { self.new.boxes + self.old.room ≡ self.old.boxes + self.new.room }
        ensures later { self.old.room ≤ self.new.room }
        ensures ok { OnOk result (total ≤ self.new.room) }
        ensures enough { total ≤ self.old.room → IsOk result }
    {
        if total <= self.room {
            return Ok(());
        }
        let missing = total as usize - self.boxes.len();
        self.boxes.reserve(missing)?;
        while self.room < total {
            let page = PageBox::filled(self.alloc, 0)?;
            self.boxes.push(page)?;
            self.room += 1;
        }
        Ok(())
    }

    /// Takes a box out, for a page of zeros.
    #[tactic(auto, unfolding(mm_world::specs::World::filled))]
    pub(crate) fn take(&mut self) -> PageBox
        requires { 0 < self.old.boxes }
        ensures page { result ≡ filled 0 }
        ensures boxes { self.new.boxes + 1 ≡ self.old.boxes }
        ensures room { self.new.room ≡ self.old.room }
    {
        let mut page = self.boxes.take_last();
        *page.bytes = [0; 4096];
        page
    }

    /// Puts back the box of a page that is no more.
    pub(crate) fn put(&mut self, page: PageBox)
        requires { self.old.boxes < self.old.room }
        ensures boxes { self.new.boxes ≡ self.old.boxes + 1 }
        ensures room { self.new.room ≡ self.old.room }
    {
        self.boxes.push_reserved(page);
    }
}
