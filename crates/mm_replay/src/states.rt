ghost use Rattle.std.specs.Prelude.{◌≡◌, ◌+◌, ◌-◌, true, false, if◌then◌else◌, IfOk, OnOk, OnErr, IfSome, length};
ghost use Rattle.mm_types.specs.declared.moves.Move.TheVariants as move;
ghost use Rattle.mm_types.specs.declared.moves.LineKind.TheVariants as kind;
ghost use Rattle.mm_move_rules.specs.{unstarted, set_in, with_resident, is_dead, IsLegal, is_below_max, after_move, after_at, after_add, home_at};
ghost use Rattle.mm_move_rules.specs.{backing_of, homed};
ghost use Rattle.mm_replay.specs.Sound.{Listed, SoundReplay};

use crate::free_slots::SlotMap;
use crate::holdings::{Keys, Places};
use crate::in_flight::InFlight;
use crate::records::{
    slot_after_read, slot_after_soil, slot_after_wrote, slot_of, write_done, write_lost,
};
use crate::tables::Table;
use crate::values::{flags, put, set_at};
use mm_move_rules::ResidentSet;
use mm_types::{
    Backing, Block, Frame, Held, Key, LineKind, Move, NoMemory, Pid, Place, Record, Request, Stored,
};
use std::alloc::Global;

/// The state of a replay.
#[derive(Drop)]
pub(crate) struct State {
    alloc: Global,
    pub(crate) frames: u32,
    pub(crate) slots: u32,
    pub(crate) depth: u32,
    pub(crate) blocks: u32,
    pub(crate) line: u32,
    pub(crate) kind: LineKind,
    pub(crate) sets: Vec<ResidentSet>,
    pub(crate) table: Table,
    pub(crate) free_slots: SlotMap,
    pub(crate) keys: Keys,
    pub(crate) paging_keys: u64,
    /// Of each block whether a key was ever added with it.
    pub(crate) added: Vec<bool>,
    pub(crate) places: Places,
    pub(crate) flight: InFlight,
    ghost sized: { length added.items ≡ blocks },
    ghost slotted: { length free_slots ≡ slots },
    ghost requested: { flight.frames ≡ frames },
}

impl State {
    ghost use Rattle.mm_replay.specs.Replaying.{life};

    /// The state before the first move: only `at 1 machine` is legal.
    pub(crate) fn new(alloc: Global) -> State
        ensures { life result ≡ unstarted }
    {
        State {
            alloc,
            frames: 0,
            slots: 0,
            depth: 0,
            blocks: 0,
            line: 0,
            kind: LineKind::Call,
            sets: Vec::new(alloc),
            table: Table::empty(alloc),
            free_slots: SlotMap::none(alloc),
            keys: Keys::new(alloc),
            paging_keys: 0,
            added: Vec::new(alloc),
            places: Places::new(alloc),
            flight: InFlight::none(alloc),
        }
    }

    /// Makes a legal move.
    #[inline(always)]
    pub(crate) fn make(&mut self, m: &Move) -> Result<(), NoMemory>
        requires legal { IsLegal m.now (life self.old) }
        requires sound { SoundReplay (life self.old) }
        requires listed { Listed self.old.table }
        ensures ok { OnOk result (life self.new ≡ after_move (life self.old) m.now) }
        ensures err { OnErr result (life self.new ≡ life self.old) }
    {
        match *m {
            Move::At(line, kind) => return self.at(line, kind),
            Move::Add(key, block) => return self.add(key, block),
            Move::Map(frame, place) => return self.map(frame, place),
            Move::Drop(key) => self.drop_key(key),
            Move::Clear(frame) => self.table.clear(frame.0),
            Move::Steal(frame) => self.steal(frame),
            Move::Give(frame, key) => self.give(frame, key),
            Move::Read(frame, key) => self.read(frame, key),
            Move::Got(frame) => self.got(frame),
            Move::Bad(frame) => self.bad(frame),
            Move::Unmap(place) => self.unmap(place),
            Move::Soil(frame) => self.soil(frame),
            Move::Write(frame, stored) => self.write(frame, stored),
            Move::Wrote(frame) => self.wrote(frame),
            Move::Lost(frame) => self.lost(frame),
        }
        Ok(())
    }

    // ---- `at`

    /// The state after the first move, which gives the machine.
    #[tactic(auto, using(crate::proofs::Flags::flags))]
    fn of_machine(
        alloc: Global,
        line: u32,
        frames: u32,
        slots: u32,
        depth: u32,
        blocks: u32,
    ) -> Result<State, NoMemory>
        ensures { IfOk result (λ s. life s ≡
            after_at unstarted line (kind.Machine frames slots depth blocks)) }
    {
        let added = flags(alloc, blocks, false)?;
        let flight = InFlight::new(alloc, frames)?;
        let table = Table::new(alloc, frames)?;
        let free_slots = SlotMap::new(alloc, slots)?;
        let keys = Keys::new(alloc);
        let places = Places::new(alloc);
        Ok(State {
            alloc,
            frames,
            slots,
            depth,
            blocks,
            line,
            kind: LineKind::Machine(frames, slots, depth, blocks),
            sets: Vec::new(alloc),
            table,
            free_slots,
            keys,
            paging_keys: 0,
            added,
            places,
            flight,
        })
    }

    fn at(&mut self, line: u32, kind: LineKind) -> Result<(), NoMemory>
        requires { IsLegal (move.At line kind) (life self.old) }
        ensures ok { OnOk result (life self.new ≡ after_at (life self.old) line kind) }
        ensures err { OnErr result (life self.new ≡ life self.old) }
    {
        match kind {
            LineKind::Machine(frames, slots, depth, blocks) => {
                let alloc = self.alloc;
                let state = State::of_machine(alloc, line, frames, slots, depth, blocks)?;
                put(self, state);
                return Ok(());
            }
            LineKind::Process(_, min, max) => {
                let resident = 0;
                self.sets.push(ResidentSet { min, max, resident })?;
            }
            LineKind::Grow(count) => {
                self.free_slots.grow(self.alloc, count)?;
                self.slots += count;
            }
            _ => {}
        }
        self.line = line;
        self.kind = kind;
        Ok(())
    }

    // ---- keys

    #[tactic(auto, using(crate::proofs::Flags::flags))]
    fn add(&mut self, key: Key, block: Option<Block>) -> Result<(), NoMemory>
        requires { IsLegal (move.Add key block) (life self.old) }
        ensures ok { OnOk result (life self.new ≡ after_add (life self.old) key block) }
        ensures err { OnErr result (life self.new ≡ life self.old) }
    {
        match block {
            None => {
                self.keys.add(key, Held::Zero, true)?;
                self.paging_keys += 1;
                Ok(())
            }
            Some(block) => {
                self.keys.place(key, Held::Block(block))?;
                set_at(&mut self.added, block.0, true);
                Ok(())
            }
        }
    }

    fn drop_key(&mut self, key: Key)
        requires legal { IsLegal (move.Drop key) (life self.old) }
        requires sound { SoundReplay (life self.old) }
        ensures { life self.new ≡ after_move (life self.old) (move.Drop key) }
    {
        match self.keys.held(key) {
            Held::Frame(frame) => {
                let slot = slot_after_soil(&self.table.record(frame.0));
                self.table.drop_page(frame.0);
                self.free_slots.put_back(slot);
            }
            Held::Slot(slot) => self.free_slots.put_back(Some(slot.0)),
            Held::Block(_) | Held::Zero | Held::Dead => {}
        }
        self.keys.remove(key);
        self.paging_keys = self.paging_keys.saturating_sub(1);
    }

    // ---- frames that are found

    /// The owner, if any, has the backing as home from now on.
    fn send_home(&mut self, owner: Option<Key>, home: Backing)
        requires { IfSome owner (λ k. is_dead ((life self.old).stands k) ≡ false) }
        ensures { life self.new ≡ record (life self.old) {
          stands = homed (life self.old) owner home;
        } }
    {
        if let Some(key) = owner {
            self.keys.move_to(key, home_of(home));
        }
    }

    fn steal(&mut self, frame: Frame)
        requires legal { IsLegal (move.Steal frame) (life self.old) }
        requires sound { SoundReplay (life self.old) }
        ensures { life self.new ≡ after_move (life self.old) (move.Steal frame) }
    {
        let r = self.table.record(frame.0);
        self.table.steal(frame.0);
        self.send_home(r.owner, r.backing);
    }

    fn give(&mut self, frame: Frame, key: Key)
        requires { IsLegal (move.Give frame key) (life self.old) }
        ensures { life self.new ≡ after_move (life self.old) (move.Give frame key) }
    {
        self.table.give(frame.0, key);
        self.keys.move_to(key, Held::Frame(frame));
    }

    fn read(&mut self, frame: Frame, key: Key)
        requires legal { IsLegal (move.Read frame key) (life self.old) }
        requires sound { SoundReplay (life self.old) }
        requires listed { Listed self.old.table }
        ensures { life self.new ≡ after_move (life self.old) (move.Read frame key) }
    {
        let home = backing_of(self.keys.held(key));
        self.flight.begin(frame.0);
        self.table.read(frame.0, key, home);
        self.keys.move_to(key, Held::Frame(frame));
    }

    // ---- the ends of requests

    fn got(&mut self, frame: Frame)
        requires { IsLegal (move.Got frame) (life self.old) }
        ensures { life self.new ≡ after_move (life self.old) (move.Got frame) }
    {
        let r = self.table.record(frame.0);
        let request = Request::None;
        self.table.end(frame.0, Record { request, ..r });
        self.free_slots.put_back(slot_after_read(&r));
        self.flight.end(frame.0);
    }

    fn bad(&mut self, frame: Frame)
        requires legal { IsLegal (move.Bad frame) (life self.old) }
        requires sound { SoundReplay (life self.old) }
        ensures { life self.new ≡ after_move (life self.old) (move.Bad frame) }
    {
        let r = self.table.record(frame.0);
        self.table.bad(frame.0);
        self.free_slots.put_back(slot_after_read(&r));
        self.flight.end(frame.0);
        self.send_home(r.owner, r.backing);
    }

    fn wrote(&mut self, frame: Frame)
        requires { IsLegal (move.Wrote frame) (life self.old) }
        ensures { life self.new ≡ after_move (life self.old) (move.Wrote frame) }
    {
        let r = self.table.record(frame.0);
        self.table.end(frame.0, write_done(r));
        self.free_slots.put_back(slot_after_wrote(&r));
        self.flight.end(frame.0);
    }

    fn lost(&mut self, frame: Frame)
        requires { IsLegal (move.Lost frame) (life self.old) }
        ensures { life self.new ≡ after_move (life self.old) (move.Lost frame) }
    {
        let r = self.table.record(frame.0);
        self.table.end(frame.0, write_lost(r));
        self.free_slots.put_back(slot_of(r.backing));
        self.flight.end(frame.0);
    }

    // ---- places

    fn map(&mut self, frame: Frame, place: Place) -> Result<(), NoMemory>
        requires { IsLegal (move.Map frame place) (life self.old) }
        ensures ok { OnOk result
            (life self.new ≡ after_move (life self.old) (move.Map frame place)) }
        ensures err { OnErr result (life self.new ≡ life self.old) }
    {
        if self.table.record(frame.0).shares == u32::MAX {
            return Err(NoMemory);
        }
        self.places.add(place, frame)?;
        self.table.map(frame.0);
        change_resident(&mut self.sets, place.pid, true);
        Ok(())
    }

    fn unmap(&mut self, place: Place)
        requires { SoundReplay (life self.old) }
        ensures { life self.new ≡ after_move (life self.old) (move.Unmap place) }
    {
        if let Some(frame) = self.places.remove(place) {
            self.table.unmap(frame.0);
            change_resident(&mut self.sets, place.pid, false);
        }
    }

    // ---- changed pages

    fn soil(&mut self, frame: Frame)
        requires { IsLegal (move.Soil frame) (life self.old) }
        ensures { life self.new ≡ after_move (life self.old) (move.Soil frame) }
    {
        let slot = slot_after_soil(&self.table.record(frame.0));
        self.table.soil(frame.0);
        self.free_slots.put_back(slot);
    }

    fn write(&mut self, frame: Frame, stored: Stored)
        requires legal { IsLegal (move.Write frame stored) (life self.old) }
        requires sound { SoundReplay (life self.old) }
        requires listed { Listed self.old.table }
        ensures { life self.new ≡ after_move (life self.old) (move.Write frame stored) }
    {
        self.flight.begin(frame.0);
        match stored {
            Stored::Slot(slot) => {
                self.table.write(frame.0, Backing::Slot(slot));
                self.free_slots.take(slot.0);
            }
            Stored::Block(block) => self.table.write(frame.0, Backing::Block(block)),
        }
    }
}

/// The backing that a home is.
fn backing_of(held: Held) -> Backing
    ensures { result ≡ backing_of held }
{
    match held {
        Held::Slot(slot) => Backing::Slot(slot),
        Held::Block(block) => Backing::Block(block),
        Held::Frame(_) | Held::Zero | Held::Dead => Backing::None,
    }
}

/// A pid has one valid place more, or one fewer.
fn change_resident(sets: &mut [ResidentSet], pid: Pid, more: bool)
    requires { more ≡ true → is_below_max (set_in sets.old pid.0) ≡ true }
    ensures { sets.new
        ≡ with_resident sets.old pid.0 (λ n. if more then n + 1 else n - 1) }
{
    if pid.0 == 0 {
        return;
    }
    let at = usize::from(pid.0 - 1);
    if at < sets.len() {
        let set = sets[at];
        let resident = if more {
            set.resident + 1
        } else {
            set.resident.saturating_sub(1)
        };
        sets[at] = ResidentSet { resident, ..set };
    }
}

/// The home that a backing is.
pub(crate) fn home_of(backing: Backing) -> Held
    ensures { result ≡ home_at backing }
{
    match backing {
        Backing::None => Held::Zero,
        Backing::Slot(slot) => Held::Slot(slot),
        Backing::Block(block) => Held::Block(block),
    }
}
