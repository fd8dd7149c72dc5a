ghost use Rattle.std.specs.Prelude.{false};

use crate::completing::complete_request;
use crate::copying::copy_page;
use crate::faults::{fault, fault_to_write, set_dirty};
use crate::flushing::flush_page;
use crate::making::build_file;
use crate::pager::{Pager, Wanted};
use crate::releasing::{let_all_go, let_own_go};
use crate::starting::{ready_for, set_wait, start_key};
use mm_reclaim::{trim, write_out, zero};
use mm_state_calls::StateCalls;
use mm_store::{Done, FlushesMoves, Need, PageStore, Start};
use mm_types::{
    Area, Block, Counts, Device, Direction, Failed, GrowFault, Key, LineKind, MakeFault, NoMemory,
    PageFault, Pid, Place, Tid, Vpn, Wait, WriteFault,
};

impl<T: StateCalls> PageStore for Pager<T> {
    ghost use Rattle.mm_pager.specs.Store as paged;

    ghost contents = { λ s. paged.contents s };

    ghost store = { λ s. paged.store s };

    ghost behind = { λ s. paged.paged_behind s };

    ghost loans = { λ s. paged.loans s };

    ghost unpaged = { false };

    fn sound(&self) {}

    fn open_process(&mut self, pid: Pid, _min: u32, _max: u32) -> Result<(), NoMemory> {
        self.state.open_process(pid)
    }

    fn close_process(&mut self, pid: Pid) {
        self.state.close_process(pid);
    }

    fn bind(&mut self, pid: Pid, first: Vpn, n: u32) -> Result<(), NoMemory> {
        self.state.bind(pid, first, n)
    }

    fn unbind(&mut self, pid: Pid, first: Vpn, n: u32) {
        if n == 0 {
            return;
        }
        let_all_go(&mut self.state, pid, first, n);
        self.state.unbind(pid, first, n);
    }

    fn reserve(&mut self, _total: u32) -> Result<(), NoMemory> {
        Ok(())
    }

    fn open_area(&mut self, area: Area, n: u32) -> Result<(), NoMemory> {
        self.state.open_area(area, n)
    }

    fn close_area(&mut self, area: Area) {
        self.state.close_area(area);
    }

    fn make_file(&mut self, area: Area, first: Block, n: u32, byte: u8) -> Result<(), MakeFault> {
        let done = build_file(&mut self.state, area, first, n, byte);
        if let Err(why) = done {
            return Err(why);
        }
        self.blocks_used += n;
        Ok(())
    }

    fn add(&mut self, key: Key) {
        self.state.add_zero(key);
    }

    fn remove(&mut self, key: Key) {
        let_own_go(&mut self.state, key);
        self.state.drop_key(key);
    }

    fn read(&mut self, place: Place, key: Key, off: u16, out: &mut [u8]) -> Result<(), PageFault> {
        match self.state.valid(place) {
            Some(_frame) => {
                self.state.read(place, off, out);
                Ok(())
            }
            None => {
                self.ready = None;
                let done = fault(&mut self.state, key, place);
                if let Err(why) = done {
                    return Err(why);
                }
                self.state.read(place, off, out);
                Ok(())
            }
        }
    }

    fn write(&mut self, place: Place, key: Key, off: u16, bytes: &[u8]) -> Result<(), PageFault> {
        match self.state.valid(place) {
            Some(f) => {
                set_dirty(&mut self.state, place, f);
                self.state.write(place, off, bytes);
                Ok(())
            }
            None => {
                self.ready = None;
                let done = fault_to_write(&mut self.state, key, place);
                if let Err(why) = done {
                    return Err(why);
                }
                self.state.write(place, off, bytes);
                Ok(())
            }
        }
    }

    fn copy(&mut self, place: Place, from: Key, to: Key) -> Result<(), PageFault> {
        self.ready = None;
        let done = copy_page(&mut self.state, place, from);
        if let Err(why) = done {
            return Err(why);
        }
        self.ready = Some(Wanted {
            place,
            key: to,
            need: Need::Touch,
        });
        Ok(())
    }

    fn flush(&mut self, key: Key) -> Result<(), WriteFault> {
        flush_page(&mut self.state, key)
    }

    fn trim(&mut self, pid: Pid, n: u32) {
        trim(&mut self.state, pid, n);
    }

    fn age(&mut self, pid: Pid) {
        self.state.age_all(pid);
    }

    fn zero(&mut self, n: u32) {
        zero(&mut self.state, n);
    }

    fn fail(&mut self, device: Device, direction: Direction, k: u32, n: u32) {
        self.state.fail(device, direction, k, n);
    }

    fn line(&mut self, line: u32, kind: LineKind) {
        self.state.sound();
        self.state.at(line, kind);
        self.extended = None;
        self.ready = None;
    }

    fn grow(&mut self, line: u32, n: u32) -> Result<(), GrowFault> {
        self.state.sound();
        let done = self.state.grow(line, n);
        match done {
            Ok(()) => {
                self.extended = Some(true);
                self.ready = None;
            }
            Err(GrowFault::Failed) => {
                self.extended = Some(false);
                self.ready = None;
            }
            Err(GrowFault::Memory) => (),
        }
        done
    }

    fn start(&mut self, tid: Tid, place: Place, key: Key, need: Need) -> Start {
        self.ready = None;
        let began = start_key(&mut self.state, place, key, need);
        set_wait(&mut self.state, tid, key, began);
        self.ready = ready_for(began, place, key, need);
        began
    }

    fn outcome(&self, tid: Tid) -> Wait {
        self.state.outcome(tid)
    }

    fn forget(&mut self, tid: Tid) {
        self.state.forget(tid);
    }

    fn write_out(&mut self, n: u32) {
        write_out(&mut self.state, n);
    }

    fn complete(&mut self, i: u32) -> Done {
        complete_request(&mut self.state, i)
    }

    fn counts(&self) -> Counts {
        self.state.counts()
    }

    fn moves_failed(&self) -> bool {
        self.state.moves_failed()
    }
}

impl<T: StateCalls> FlushesMoves for Pager<T> {
    fn flush_moves(&mut self) -> Result<(), Failed> {
        self.state.flush_moves()
    }
}
