use crate::devices::{put_page, read_page, write_device};
use crate::on_parts::{first_free, first_standby, read_move, reserve, write_move};
use crate::states::State;
use crate::tallies::Tallies;
use mm_devices::Inject;
use mm_log_writer::Moves;
use mm_state_calls::StateCalls;
use mm_types::{
    Area, Backing, Block, Counts, Device, Direction, Failed, Frame, GrowFault, Held, Key, LineKind,
    Machine, Move, NoMemory, OpenFault, Pid, Place, Record, Stored, Tid, Vpn, Wait,
};

// A move is made in the parts, and noted; where it stands for a device call, that call is made and
// counted between the two.
impl<P: Inject, F: Inject, M: Moves> StateCalls for State<P, F, M> {
    ghost use Rattle.mm_state.specs.StateShown as state;
    ghost use Rattle.mm_state.specs.Holding as holding;

    ghost shown = { λ s. state.shown_state s };

    ghost loans = { λ s. state.loans s };

    fn sound(&self) {
        self.parts.parts_hold();
        self.parts.bytes_hold();
    }

    // ---- lines

    fn at(&mut self, line: u32, kind: LineKind) {
        self.parts.at(line, kind);
        self.told = Tallies::none();
        self.moves.note(Move::At(line, kind));
    }

    fn grow(&mut self, line: u32, n: u32) -> Result<(), GrowFault> {
        if !reserve(&mut self.parts, n) {
            return Err(GrowFault::Memory);
        }
        match self.paging.extend(n) {
            Ok(()) => {
                self.parts.grow(line, n);
                self.told = Tallies::none();
                self.moves.note(Move::At(line, LineKind::Grow(n)));
                Ok(())
            }
            Err(OpenFault::Memory) => Err(GrowFault::Memory),
            Err(OpenFault::Failed) => {
                self.parts.at(line, LineKind::Call);
                self.told = Tallies::none();
                self.moves.note(Move::At(line, LineKind::Call));
                Err(GrowFault::Failed)
            }
        }
    }

    // ---- processes, places, areas

    fn open_process(&mut self, pid: Pid) -> Result<(), NoMemory> {
        self.parts.open_process(pid)
    }

    fn close_process(&mut self, pid: Pid) {
        self.parts.close_process(pid);
    }

    fn bind(&mut self, pid: Pid, first: Vpn, n: u32) -> Result<(), NoMemory> {
        self.parts.bind(pid, first, n)
    }

    fn unbind(&mut self, pid: Pid, first: Vpn, n: u32) {
        self.parts.unbind(pid, first, n);
    }

    fn open_area(&mut self, area: Area, n: u32) -> Result<(), NoMemory> {
        self.parts.open_area(area, n)
    }

    fn close_area(&mut self, area: Area) {
        self.parts.close_area(area);
    }

    // ---- keys

    fn add_zero(&mut self, key: Key) {
        self.parts.add_zero(key);
        self.moves.note(Move::Add(key, None));
    }

    fn add_block(&mut self, key: Key, b: Block) {
        self.parts.add_block(key, b);
        self.moves.note(Move::Add(key, Some(b)));
    }

    fn drop_key(&mut self, key: Key) {
        self.parts.drop_key(key);
        self.moves.note(Move::Drop(key));
    }

    // ---- frames

    fn clear(&mut self) {
        let f = first_free(&self.parts);
        self.parts.clear();
        self.moves.note(Move::Clear(f));
    }

    fn repurpose(&mut self) {
        let f = first_standby(&self.parts);
        self.parts.repurpose();
        self.moves.note(Move::Steal(f));
    }

    fn assign(&mut self, key: Key) -> Frame {
        let f = self.parts.assign(key);
        self.told.search();
        self.moves.note(Move::Give(f, key));
        f
    }

    fn map(&mut self, f: Frame, place: Place) {
        self.parts.map(f, place);
        self.moves.note(Move::Map(f, place));
    }

    fn unmap(&mut self, place: Place) {
        self.parts.unmap(place);
        self.moves.note(Move::Unmap(place));
    }

    fn set_dirty(&mut self, f: Frame) {
        self.parts.set_dirty(f);
        self.moves.note(Move::Soil(f));
    }

    // ---- requests and waits

    fn start_read(&mut self, key: Key) -> Frame {
        let f = self.parts.start_read(key);
        self.told.search();
        self.moves.note(Move::Read(f, key));
        f
    }

    fn end_read(&mut self, f: Frame) -> bool {
        let r = self.parts.look(f);
        let ok = read_page(
            &mut self.parts,
            &mut self.paging,
            &mut self.files,
            f,
            r.backing,
        );
        self.told.read(r.backing, r.owner, ok);
        self.moves.note(read_move(f, ok));
        ok
    }

    fn start_write(&mut self, f: Frame) -> Stored {
        let to = self.parts.start_write(f);
        self.moves.note(Move::Write(f, to));
        to
    }

    fn end_write(&mut self, f: Frame) -> bool {
        self.parts.bytes_hold();
        let page = self.parts.page(f);
        let home = self.parts.look(f).backing;
        let ok = put_page(&mut self.paging, &mut self.files, home, page);
        self.parts.end_write(f, ok);
        self.told.wrote(home, ok);
        self.moves.note(write_move(f, ok));
        ok
    }

    fn wait(&mut self, t: Tid, f: Frame) {
        self.parts.wait(t, f);
    }

    fn forget(&mut self, t: Tid) {
        self.parts.forget(t);
    }

    // ---- bytes and ages

    fn read(&mut self, place: Place, off: u16, out: &mut [u8]) {
        self.parts.read(place, off, out);
    }

    fn write(&mut self, place: Place, off: u16, bytes: &[u8]) {
        self.parts.write(place, off, bytes);
    }

    fn copy(&mut self, from: Frame, to: Frame) {
        self.parts.copy(from, to);
    }

    fn age_all(&mut self, pid: Pid) {
        self.parts.age_all(pid);
    }

    // ---- devices

    fn write_block(&mut self, b: Block, byte: u8) -> bool {
        let page = [byte; 4096];
        let ok = write_device(&mut self.files, b.0, &page);
        self.told.wrote(Backing::Block(b), ok);
        ok
    }

    fn fail(&mut self, device: Device, direction: Direction, k: u32, n: u32) {
        match device {
            Device::Paging => self.paging.name_calls(direction, k, n),
            Device::File => self.files.name_calls(direction, k, n),
        }
    }

    fn flush_moves(&mut self) -> Result<(), Failed> {
        self.moves.flush()
    }

    // ---- looking

    fn machine(&self) -> Machine {
        self.parts.machine()
    }

    fn line(&self) -> u32 {
        self.parts.line()
    }

    fn kind(&self) -> LineKind {
        self.parts.kind()
    }

    fn is_open(&self, pid: Pid) -> bool {
        self.parts.is_open(pid)
    }

    fn stands(&self, key: Key) -> Held {
        self.parts.stands(key)
    }

    fn valid(&self, place: Place) -> Option<Frame> {
        self.parts.valid(place)
    }

    fn look(&self, f: Frame) -> Record {
        self.parts.look(f)
    }

    fn no_zeroed(&self) -> bool {
        self.parts.no_zeroed()
    }

    fn no_free(&self) -> bool {
        self.parts.no_free()
    }

    fn no_standby(&self) -> bool {
        self.parts.no_standby()
    }

    fn front_modified(&self) -> Option<Frame> {
        self.parts.front_modified()
    }

    fn modified_with_block(&self) -> u32 {
        self.parts.modified_with_block()
    }

    fn front_modified_with_block(&self) -> Option<Frame> {
        self.parts.front_modified_with_block()
    }

    fn free_slots(&self) -> u32 {
        self.parts.free_slots()
    }

    fn counts(&self) -> Counts {
        self.parts.counts()
    }

    fn valid_places(&self, pid: Pid) -> u32 {
        self.parts.valid_places(pid)
    }

    fn min(&self, pid: Pid) -> u32 {
        self.parts.min(pid)
    }

    fn is_full(&self, pid: Pid) -> bool {
        self.parts.is_full(pid)
    }

    fn is_above_min(&self, pid: Pid) -> bool {
        self.parts.is_above_min(pid)
    }

    fn oldest(&self, pid: Pid, after: Option<Vpn>) -> Option<Vpn> {
        self.parts.oldest(pid, after)
    }

    fn next_valid(&self, pid: Pid, from: Vpn) -> Option<Vpn> {
        self.parts.next_valid(pid, from)
    }

    fn nth(&self, i: u32) -> Option<Frame> {
        self.parts.nth(i)
    }

    fn has_depth(&self) -> bool {
        self.parts.has_depth()
    }

    fn outcome(&self, t: Tid) -> Wait {
        self.parts.outcome(t)
    }

    fn moves_failed(&self) -> bool {
        self.moves.failed()
    }

    ghost holds = { λ s. holding.state_holds s };
}
