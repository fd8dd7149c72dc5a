ghost use Rattle.std.specs.Prelude.{◌≡◌};
ghost use Rattle.mm_move_rules.specs.{Flushed};

use crate::PageStore;
use mm_types::Failed;

/// A store of pages that gives on the moves it has noted when it is asked to.
pub trait FlushesMoves: PageStore {
    /// Gives on the moves that were noted. Nothing else changes but the log's count of faults,
    /// where that fails.
    fn flush_moves(&mut self) -> Result<(), Failed>
        ensures contents { Self.contents self.new ≡ Self.contents self.old }
        ensures store { Self.store self.new ≡ Self.store self.old }
        ensures behind { Self.behind self.new ≡ record (Self.behind self.old) {
          log = (Self.behind self.new).log;
        } }
        ensures flushed { Flushed (Self.behind self.old).log (Self.behind self.new).log result }
        ensures loans { Self.loans self.new ≡ Self.loans self.old };
}
