ghost use Rattle.std.specs.Prelude.{◌≡◌, ◌+◌, ◌≤◌, ◌<◌, ◌^◌, ℕ, [], true, false, None, Some, IsOk, IsSome, IfOk, IfErr, OnOk, length, unwrap_or, vec_len, vec_capacity};
ghost use Rattle.mm_types.specs.{IsMachine};
ghost use Rattle.mm_world.specs.{filled, written, same_key};
ghost use Rattle.mm_store.specs.{IsNew, pid_after, nothing_behind, begun};
ghost use Rattle.mm_move_rules.specs.{same_place};
ghost use Rattle.mm_move_rules.specs.{changed};
ghost use Rattle.mm_devices.specs.{no_device};
ghost use Rattle.mm_unpaged.specs.Areas.{area_in, area_block, count_in};
ghost use Rattle.mm_unpaged.specs.Files.{IsMade};
ghost use Rattle.mm_unpaged.specs.Fitting.{Fits, FilesFit};
ghost use Rattle.mm_unpaged.specs.Places.{pages_at};
ghost use Rattle.mm_unpaged.specs.Shown.{unpaged_contents};

use crate::areas::{AreaPages, Areas};
use crate::boxes::{PageBox, Stock};
use crate::files::{FilePages, Writes, made_pages, write_block, write_file};
use crate::places::Places;
use mm_devices::Inject;
use mm_store::{Done, Need, PageStore, Start};
use mm_types::{
    Area, Block, Counts, Device, Direction, GrowFault, Key, LineKind, Machine, MakeFault, NoMemory,
    PageFault, Pid, Place, Tid, Unmade, Vpn, Wait, WriteFault,
};
use std::alloc::Global;

/// An access that needs no device.
#[derive(Clone, Copy)]
pub(crate) struct Wanted {
    place: Place,
    key: Key,
    need: Need,
}

/// A store that pages nothing: the page of each live key is in a box of its own.
///
/// It never waits, and its counts are all 0. It calls a device of blocks for files alone, and only
/// in writing: when a file is made, and when a page that was changed is flushed.
#[derive(Drop)]
pub struct Unpaged<F: Inject> {
    alloc: Global,
    places: Places,
    areas: Areas,
    file_pages: FilePages,
    stock: Stock,
    // Which processes are open, by pid.
    processes: [bool; 256],
    files: F,
    writes: Writes,
    ready: Option<Wanted>,
    // With the slots that there are now.
    machine: Machine,
    line: u32,
    kind: LineKind,
    last_pid: u8,
    ghost fits: { Fits places areas stock },
    ghost files_fit: { FilesFit (area_in areas) file_pages.items
        (F.blocks files) machine.blocks },
    ghost numbers: { IsMachine machine },
}

/// The page of a live key.
fn page_of<'a>(places: &'a Places, areas: &'a Areas, files: &'a FilePages, key: Key) -> &'a PageBox
    requires near { (area index block : ℕ) →
        area_block (area_in areas.now area) index ≡ Some block →
        block < length files.now.items }
    requires few { length files.now.items < 2 ^ 32 }
    requires live { IsSome (unpaged_contents (pages_at places.now) (area_in areas.now)
        files.now.items key) }
    ensures { unpaged_contents (pages_at places.now) (area_in areas.now) files.now.items key
        ≡ Some result.now }
{
    match key {
        Key::Private(pid, vpn) => places.page(Place { pid, vpn }),
        Key::Shared(area, index) => match areas.block(area, index) {
            Some(block) => &files[block as usize].page,
            None => areas.page(area, index),
        },
    }
}

/// Takes all memory that a new file of `n` pages wants: its pages, room for them, and a place for
/// its area.
fn prepare_file(
    alloc: Global,
    areas: &mut Areas,
    files: &mut FilePages,
    area: Area,
    n: u32,
    byte: u8,
) -> Result<FilePages, NoMemory>
    requires { area.0 < 2 ^ 28 }
    ensures areas { area_in areas.new ≡ area_in areas.old }
    ensures count { count_in areas.new ≡ count_in areas.old }
    ensures files { files.new.items ≡ files.old.items }
    ensures place { OnOk result (area.0 < vec_len areas.new.areas) }
    ensures room { OnOk result (length files.new.items + n ≤ vec_capacity files.new) }
    ensures made { IfOk result (λ made. IsMade made.items n byte) }
{
    let made = made_pages(alloc, n, byte)?;
    areas.make_place(area)?;
    files.reserve(n as usize)?;
    Ok(made)
}

impl<F: Inject> Unpaged<F> {
    ghost use Rattle.mm_unpaged.specs.Unpaged.{contents_in, store_in};

    /// A new store of this machine, in line 1, with no process, no bound place, no key and no file,
    /// over a file device that was opened with the machine's blocks and names no call. It takes no
    /// memory yet.
    pub fn new(alloc: Global, machine: Machine, files: F) -> Result<Unpaged<F>, Unmade<F>>
        requires opened { length (F.blocks files) ≡ machine.blocks }
        requires plain { F.named files ≡ [] }
        ensures new { IfOk result (λ s. IsNew machine (contents_in s) (store_in s)) }
        ensures no_room { IfOk result (λ s. (store_in s).room ≡ 0) }
        ensures device { IfOk result (λ s. s.files ≡ files) }
        ensures no_paging_device { IfOk result (λ s. (store_in s).paging_device ≡ no_device) }
        ensures err { IfErr result (λ e. e.back ≡ files) }
        ensures ok { IsOk result }
    {
        let blocks = machine.blocks();
        Ok(Unpaged {
            alloc,
            places: Places::new(alloc),
            areas: Areas::new(alloc),
            file_pages: Vec::new(alloc),
            stock: Stock::new(alloc),
            processes: [false; 256],
            files,
            writes: Writes::none(),
            ready: None,
            machine,
            line: 1,
            kind: LineKind::Machine(machine.frames(), machine.slots(), machine.depth(), blocks),
            last_pid: 0,
        })
    }

    /// Gives the device back as it stands.
    pub fn finish(self) -> F
        ensures { result ≡ self.files }
    {
        let Unpaged { files, .. } = self;
        files
    }

    /// A line begins: nothing is ready, and no device call of it was made.
    fn begin(&mut self, line: u32, kind: LineKind)
        ensures contents { contents_in self.new ≡ contents_in self.old }
        ensures store { store_in self.new ≡ record (store_in self.old) {
          line = line;
          kind = kind;
          ready = None;
          report = begun (store_in self.old).report;
        } }
        ensures files { self.new.files ≡ self.old.files }
    {
        self.line = line;
        self.kind = kind;
        self.ready = None;
        self.writes = Writes::none();
    }

    /// Writes bytes from `off` on into the page of a live key.
    fn write_page(&mut self, key: Key, off: u16, bytes: &[u8])
        requires live { IsSome (contents_in self.old key) }
        requires inside { off + length bytes.now ≤ 4096 }
        ensures contents { contents_in self.new ≡ changed same_key (contents_in self.old) key
            (Some (written (unwrap_or (contents_in self.old key) (filled 0)) off bytes.now)) }
        ensures store { store_in self.new ≡ store_in self.old }
        ensures files { self.new.files ≡ self.old.files }
    {
        match key {
            Key::Private(pid, vpn) => self.places.write(Place { pid, vpn }, off, bytes),
            Key::Shared(area, index) => match self.areas.block(area, index) {
                Some(block) => self.file_pages[block as usize].write(off, bytes),
                None => self.areas.write(area, index, off, bytes),
            },
        }
    }

    /// A bound place names this key from now on.
    fn name_place(&mut self, place: Place, key: Key)
        requires { (store_in self.old).bound place ≡ true }
        ensures contents { contents_in self.new ≡ contents_in self.old }
        ensures store { store_in self.new ≡ record (store_in self.old) {
          names = changed same_place (store_in self.old).names place (Some key);
        } }
        ensures files { self.new.files ≡ self.old.files }
    {
        self.places.name(place, key);
    }
}

impl<F: Inject> PageStore for Unpaged<F> {
    ghost use Rattle.mm_unpaged.specs.Unpaged.{contents_in, store_in};

    ghost contents = { λ s. contents_in s };

    ghost store = { λ s. store_in s };

    ghost behind = { λ s. nothing_behind };

    ghost loans = { λ s. F.loans s.files };

    ghost unpaged = { true };

    fn sound(&self) {}

    fn open_process(&mut self, pid: Pid, _min: u32, _max: u32) -> Result<(), NoMemory> {
        self.processes[pid.0 as usize] = true;
        Ok(())
    }

    fn close_process(&mut self, pid: Pid) {
        self.processes[pid.0 as usize] = false;
    }

    fn bind(&mut self, pid: Pid, first: Vpn, n: u32) -> Result<(), NoMemory> {
        self.places.bind_all(pid, first, n)
    }

    fn unbind(&mut self, pid: Pid, first: Vpn, n: u32) {
        self.places.unbind_all(pid, first, n);
    }

    fn reserve(&mut self, total: u32) -> Result<(), NoMemory> {
        self.stock.reserve(total)
    }

    fn open_area(&mut self, area: Area, n: u32) -> Result<(), NoMemory> {
        self.areas.open(self.alloc, area, n)
    }

    fn close_area(&mut self, area: Area) {
        self.areas.set(area, None);
    }

    fn make_file(&mut self, area: Area, first: Block, n: u32, byte: u8) -> Result<(), MakeFault> {
        let Ok(mut made) = prepare_file(
            self.alloc,
            &mut self.areas,
            &mut self.file_pages,
            area,
            n,
            byte,
        ) else {
            return Err(MakeFault::Memory);
        };
        let Ok(()) = write_file(&mut self.files, &mut self.writes, first.0, n, &made) else {
            return Err(MakeFault::Write);
        };
        let Ok(()) = self.file_pages.append(&mut made) else {
            unreachable!()
        };
        self.areas.set(area, Some(AreaPages::Filed(first.0, n)));
        Ok(())
    }

    fn add(&mut self, key: Key) {
        let page = self.stock.take();
        match key {
            Key::Private(pid, vpn) => self.places.put(Place { pid, vpn }, page),
            Key::Shared(area, index) => {
                let _ = self.areas.replace(area, index, Some(page));
            }
        }
    }

    fn remove(&mut self, key: Key) {
        match key {
            Key::Private(pid, vpn) => {
                let page = self.places.take(Place { pid, vpn });
                self.stock.put(page);
            }
            Key::Shared(area, index) => {
                let Some(page) = self.areas.replace(area, index, None) else {
                    unreachable!()
                };
                self.stock.put(page);
            }
        }
    }

    fn read(&mut self, place: Place, key: Key, off: u16, out: &mut [u8]) -> Result<(), PageFault> {
        page_of(&self.places, &self.areas, &self.file_pages, key).read(off, out);
        self.name_place(place, key);
        Ok(())
    }

    fn write(&mut self, place: Place, key: Key, off: u16, bytes: &[u8]) -> Result<(), PageFault> {
        self.write_page(key, off, bytes);
        self.name_place(place, key);
        Ok(())
    }

    fn copy(&mut self, place: Place, from: Key, to: Key) -> Result<(), PageFault> {
        let mut page = self.stock.take();
        page.copy_from(page_of(&self.places, &self.areas, &self.file_pages, from));
        self.ready = Some(Wanted {
            place,
            key: to,
            need: Need::Touch,
        });
        self.places.put(place, page);
        self.places.name(place, to);
        Ok(())
    }

    fn flush(&mut self, key: Key) -> Result<(), WriteFault> {
        let Key::Shared(area, index) = key else {
            unreachable!()
        };
        let Some(block) = self.areas.block(area, index) else {
            unreachable!()
        };
        if !self.file_pages[block as usize].changed {
            return Ok(());
        }
        let page = &self.file_pages[block as usize].page;
        let Ok(()) = write_block(&mut self.files, &mut self.writes, block, page) else {
            return Err(WriteFault);
        };
        self.file_pages[block as usize].changed = false;
        Ok(())
    }

    fn trim(&mut self, _pid: Pid, _n: u32) {}

    fn age(&mut self, _pid: Pid) {}

    fn start(&mut self, _tid: Tid, place: Place, key: Key, need: Need) -> Start {
        self.ready = Some(Wanted { place, key, need });
        Start::Ready
    }

    fn outcome(&self, _tid: Tid) -> Wait {
        Wait::None
    }

    fn forget(&mut self, _tid: Tid) {}

    fn write_out(&mut self, _n: u32) {}

    fn complete(&mut self, _i: u32) -> Done {
        Done::None
    }

    fn counts(&self) -> Counts {
        Counts {
            zeroed: 0,
            free: 0,
            standby: 0,
            modified: 0,
            active: 0,
            transition: 0,
            free_slots: 0,
            requests: 0,
        }
    }

    fn moves_failed(&self) -> bool {
        false
    }

    fn zero(&mut self, _n: u32) {}

    fn fail(&mut self, device: Device, direction: Direction, k: u32, n: u32) {
        match device {
            Device::File => self.files.name_calls(direction, k, n),
            Device::Paging => {}
        }
    }

    fn line(&mut self, line: u32, kind: LineKind) {
        self.begin(line, kind);
        if let LineKind::Process(pid, _, _) = kind {
            self.last_pid = pid.0;
        }
    }

    fn grow(&mut self, line: u32, n: u32) -> Result<(), GrowFault> {
        let machine = self.machine;
        self.machine = Machine::new(
            machine.frames(),
            machine.slots() + n,
            machine.depth(),
            machine.blocks(),
        );
        self.begin(line, LineKind::Grow(n));
        Ok(())
    }
}
