ghost use Rattle.std.specs.Prelude.{◌≡◌, ◌≤◌, None, IfOk, OnOk};
ghost use Rattle.mm_types.specs.declared.moves.LineKind.TheVariants as kind;
ghost use Rattle.mm_types.specs.declared.moves.Move.TheVariants as move;
ghost use Rattle.mm_move_rules.specs.{IsLegal};
ghost use Rattle.mm_page_tables.specs.Shown as tables;
ghost use Rattle.mm_parts.specs.{parts_after, IsPlainLine, words_begun, CanBeginSet, first_parts, first_kind};

use crate::parts::Parts;
use mm_page_tables::Words;
use mm_pfn_database::Frames;
use mm_requests::Flight;
use mm_slots::Slots;
use mm_types::{LineKind, Machine, NoMemory};
use std::alloc::Global;

/// The kind of the first line.
fn kind_of(machine: Machine) -> LineKind
    ensures { result ≡ first_kind machine }
{
    LineKind::Machine(
        machine.frames(),
        machine.slots(),
        machine.depth(),
        machine.blocks(),
    )
}

/// A line begins: a new process has a working set.
fn begin_set(words: &mut Words, kind: LineKind)
    requires { CanBeginSet kind (tables.words words.old) }
    ensures words { tables.words words.new ≡ words_begun kind (tables.words words.old) }
    ensures ages { tables.place_ages words.new ≡ tables.place_ages words.old }
{
    if let LineKind::Process(_, min, max) = kind {
        words.begin_process(min, max);
    }
}

impl Parts {
    ghost use Rattle.mm_parts.specs.{shown_parts, spare_slots};

    /// A machine at rest, whose first line has begun. It takes the memory of all frames, slots,
    /// blocks and requests.
    pub fn new(alloc: Global, machine: Machine) -> Result<Parts, NoMemory>
        ensures { IfOk result (λ p. shown_parts p ≡ first_parts machine) }
    {
        // What takes longest to let go comes last.
        let added = vec![in alloc; false; machine.blocks() as usize]?;
        let flight = Flight::new(alloc, machine.depth())?;
        let words = Words::new(alloc)?;
        let frames = Frames::new(alloc, machine.frames())?;
        let slots = Slots::new(alloc, machine.slots())?;
        let kind = kind_of(machine);
        Ok(Parts {
            machine,
            line: 1,
            kind,
            paging_keys: 0,
            added,
            frames,
            words,
            slots,
            flight,
            own: None,
        })
    }

    /// A line begins, of any kind but one in which the paging file grows. The last line's own
    /// request is done, and nothing stands beside the tables. A process's working set has room for
    /// 1 to 65,536 pages.
    pub fn at(&mut self, line: u32, kind: LineKind)
        requires legal { IsLegal (move.At line kind) (shown_parts self.old).life }
        requires plain { IsPlainLine kind }
        requires done { (shown_parts self.old).own ≡ None }
        requires alone { (shown_parts self.old).aside ≡ None }
        ensures made { shown_parts self.new ≡ parts_after (shown_parts self.old)
            (move.At line kind) }
    {
        self.line = line;
        self.kind = kind;
        begin_set(&mut self.words, kind);
    }

    /// Takes the memory for `n` further slots. Nothing changes but how many can be added.
    pub fn reserve_slots(&mut self, n: u32) -> Result<(), NoMemory>
        ensures shown { shown_parts self.new ≡ shown_parts self.old }
        ensures ok { OnOk result (n ≤ spare_slots self.new) }
        ensures kept { spare_slots self.old ≤ spare_slots self.new }
    {
        self.slots.reserve(n)
    }

    /// A line begins in which the paging file grows by `n` slots, for which there is memory.
    pub fn grow(&mut self, line: u32, n: u32)
        requires legal { IsLegal (move.At line (kind.Grow n)) (shown_parts self.old).life }
        requires spare { n ≤ spare_slots self.old }
        requires done { (shown_parts self.old).own ≡ None }
        requires alone { (shown_parts self.old).aside ≡ None }
        ensures made { shown_parts self.new ≡ parts_after (shown_parts self.old)
            (move.At line (kind.Grow n)) }
    {
        self.line = line;
        self.kind = LineKind::Grow(n);
        let machine = self.machine;
        self.machine = Machine::new(
            machine.frames(),
            machine.slots() + n,
            machine.depth(),
            machine.blocks(),
        );
        self.slots.grow(n);
    }
}
