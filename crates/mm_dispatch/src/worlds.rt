ghost use Rattle.std.specs.Prelude.{◌≡◌, ◌≤◌, ◌+◌, true, false, OnOk, OnErr, IsOk};
ghost use Rattle.mm_world.specs.{filled, first_world, charge, limit};
ghost use Rattle.mm_store.specs.{IsNew};
ghost use Rattle.mm_script.specs.{IsWellFormed};
ghost use Rattle.mm_object_tables.specs.{FitsTables, MadeAtMost};
ghost use Rattle.mm_dispatch.specs.Built.{takes_memory};
ghost use Rattle.mm_script.specs.{is_machine};

use crate::deciding::decide;
use mm_object_tables::Tables;
use mm_store::PageStore;
use mm_types::{Answer, Event, Machine, NoMemory};
use std::alloc::Global;

/// A machine's address spaces over a store of their pages.
///
/// After `NoMemory` it is spent: nothing is to be asked of it but its charge and its store. It is
/// not let go, but given up for its store (`finish`).
pub struct World<G: PageStore> {
    tables: Tables,
    /// The store of the pages.
    pub pages: G,
    spent: bool,
    ghost fits: { spent ≡ false → FitsTables tables (G.contents pages) (G.store pages) },
    ghost few: { spent ≡ false → MadeAtMost (G.store pages).line tables },
}

impl<G: PageStore> World<G> {
    ghost use Rattle.mm_dispatch.specs.Promise.{Decides, Breaks, scene};
    ghost use Rattle.mm_line_moves.specs.{Agrees};
    ghost use Rattle.mm_dispatch.specs.Shown.{world, report, world_behind, line_number, loans};

    /// The world after the `machine` line, over a new store of that machine. Over one that pages
    /// its report is that of the frames behind it.
    pub fn new(alloc: Global, machine: Machine, pages: G) -> World<G>
        requires new { IsNew machine (G.contents pages) (G.store pages) }
        ensures world { world result ≡ first_world machine }
        ensures pages { result.pages ≡ pages }
        ensures agrees { G.unpaged ≡ false →
            Agrees (world result) (report result) (world_behind result) }
        ensures ready { result.spent ≡ false }
    {
        pages.sound();
        World {
            tables: Tables::new(alloc, machine),
            pages,
            spent: false,
        }
    }

    /// Ends the world and gives its store back, as the last line left it.
    pub fn finish(self) -> G
        ensures { result ≡ self.pages }
    {
        let World {
            tables,
            pages,
            spent: _,
        } = self;
        tables.end();
        pages
    }

    /// The commit charge and the commit limit, in pages.
    #[tactic(auto, using(crate::proofs::With::charges))]
    pub fn charge(&self) -> (u32, u32)
        ensures charge { result.0 ≡ charge (world self.now) }
        ensures limit { result.1 ≡ limit (world self.now) }
        ensures within { charge (world self.now) ≤ limit (world self.now) }
    {
        self.tables.charge()
    }

    /// Carries out the next line of a script, such as an `alloc` or a `read`, and writes its answer
    /// into `answer`. `mm_world` defines what each line does to processes, regions and pages and
    /// what it answers; answer and world are those (`Decides`).
    ///
    /// `line` is the line's number in its script. Line 1, `machine`, begins a world and is no line
    /// for this call. Each other form is the Windows call that `mm_calls` names at its function, or
    /// this profile's own.
    ///
    /// `NoMemory`: the host has no memory for the line. It comes only from a `process` for which a
    /// number is left, an `alloc` that makes a region or commits a page that was not, a `protect`
    /// that gives a page its first mark, a `probe` that makes a stack grow, and a `file`, `create`,
    /// `createfile`, `open`, `map`, `grow` or `stack` that is not refused. Then the world is as it
    /// was, `answer` means nothing, and no further line can be decided (`Breaks`).
    ///
    /// A failed access and a `fault` come only where a device's count of faults rose in the line,
    /// or, of a `resume`, where the read that its thread waited for failed before. Over a store
    /// that pages, the line's piece of the log is its `at` and the moves that its form allows
    /// (`ToldBeside`: `line`); after `NoMemory` it is an `at` alone, or empty (`broken`).
    #[tactic(auto, using(crate::proofs::Readiness::idle_in))]
    pub fn step(
        &mut self,
        alloc: Global,
        line: u32,
        event: &Event,
        answer: &mut Answer,
    ) -> Result<(), NoMemory>
        requires well_formed { IsWellFormed event.now }
        requires later { is_machine event.now ≡ false }
        requires next { line ≡ line_number self.old + 1 }
        requires few { line ≤ 1000000 }
        requires ready { self.old.spent ≡ false }
        ensures decided { OnOk result
            (Decides G.unpaged (scene self.old) event.now answer.new (scene self.new)) }
        ensures broke { OnErr result
            (Breaks G.unpaged (scene self.old) event.now (scene self.new)) }
        ensures no_memory { takes_memory filled (world self.old) event.now ≡ false → IsOk result }
        ensures line { OnOk result (line_number self.new ≡ line) }
        ensures ready { OnOk result (self.new.spent ≡ false) }
        ensures spent { OnErr result (self.new.spent ≡ true) }
        ensures loans { loans self.new ≡ loans self.old }
    {
        self.pages.sound();
        let result = decide(
            alloc,
            &mut self.tables,
            &mut self.pages,
            line,
            event,
            answer,
        );
        self.spent = result.is_err();
        self.tables.sound();
        self.pages.sound();
        result
    }
}
