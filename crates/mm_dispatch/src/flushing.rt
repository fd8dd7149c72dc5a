ghost use Rattle.std.specs.Prelude.{◌≡◌};
ghost use Rattle.mm_move_rules.specs.{Flushed};

use crate::worlds::World;
use mm_store::FlushesMoves;
use mm_types::Failed;

impl<G: FlushesMoves> World<G> {
    ghost use Rattle.mm_dispatch.specs.{world, report, world_behind, line_number, paging_device, file_device, file_blocks, loans};

    /// Gives on the moves that were noted, so that whoever reads their log sees those of all lines
    /// decided so far. Nothing else changes but the log's count of faults, where that fails. It may
    /// be asked of a world that is spent.
    pub fn flush_moves(&mut self) -> Result<(), Failed>
        ensures world { world self.new ≡ world self.old }
        ensures report { report self.new ≡ report self.old }
        ensures behind { world_behind self.new ≡ record (world_behind self.old) {
          log = (world_behind self.new).log;
        } }
        ensures line { line_number self.new ≡ line_number self.old }
        ensures paging_device { paging_device self.new ≡ paging_device self.old }
        ensures file_device { file_device self.new ≡ file_device self.old }
        ensures file_blocks { file_blocks self.new ≡ file_blocks self.old }
        ensures spent { self.new.spent ≡ self.old.spent }
        ensures flushed { Flushed (world_behind self.old).log (world_behind self.new).log result }
        ensures loans { loans self.new ≡ loans self.old }
    {
        self.pages.flush_moves()
    }
}
