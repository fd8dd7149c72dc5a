ghost use Rattle.std.specs.Prelude.{◌≡◌};
ghost use Rattle.mm_store.specs.{with_outcome, no_calls, none_told, with_write};
ghost use Rattle.mm_state.specs.Tallied.{searched_anew, read_told};

use mm_types::{Backing, Key};
use std::marker::Model;

/// How many calls of a device succeeded, and how many failed. Each count stands still at its type's
/// end.
#[derive(Drop)]
pub(crate) struct Tally {
    succeeded: u64,
    failed: u64,
}

impl Model for Tally {
    ghost use Rattle.mm_world.specs.{Tally};

    ghost Value = { Tally };

    ghost view = { λ t. record { succeeded = t.succeeded; failed = t.failed } };
}

impl Tally {
    /// None yet.
    fn none() -> Tally
        ensures { result ≡ no_calls }
    {
        Tally {
            succeeded: 0,
            failed: 0,
        }
    }

    /// One more.
    fn count(&mut self, succeeded: bool)
        ensures { self.new ≡ with_outcome succeeded self.old }
    {
        if succeeded {
            self.succeeded = self.succeeded.saturating_add(1);
        } else {
            self.failed = self.failed.saturating_add(1);
        }
    }
}

/// The device calls of a line: what a report tells of them.
#[derive(Drop)]
pub(crate) struct Tallies {
    paging_reads: Tally,
    paging_writes: Tally,
    file_reads: Tally,
    file_writes: Tally,
    last_failed_read: Option<Key>,
    // Of the writes since the line began, or since a frame was last taken.
    search_writes: Tally,
}

impl Model for Tallies {
    ghost use Rattle.mm_store.specs.Told.{Told};

    ghost Value = { Told };

    ghost view = { λ t. record {
      paging_reads = t.paging_reads;
      paging_writes = t.paging_writes;
      file_reads = t.file_reads;
      file_writes = t.file_writes;
      last_failed_read = t.last_failed_read;
      search_writes = t.search_writes;
    } };
}

impl Tallies {
    /// None yet.
    pub(crate) fn none() -> Tallies
        ensures { result ≡ none_told }
    {
        Tallies {
            paging_reads: Tally::none(),
            paging_writes: Tally::none(),
            file_reads: Tally::none(),
            file_writes: Tally::none(),
            last_failed_read: None,
            search_writes: Tally::none(),
        }
    }

    /// A search begins anew.
    pub(crate) fn search(&mut self)
        ensures { self.new ≡ searched_anew self.old }
    {
        self.search_writes = Tally::none();
    }

    /// The read of a page from there ended, well or not.
    pub(crate) fn read(&mut self, home: Backing, owner: Option<Key>, ok: bool)
        ensures { self.new ≡ read_told ok home owner self.old }
    {
        match home {
            Backing::Slot(_) => self.paging_reads.count(ok),
            Backing::Block(_) => self.file_reads.count(ok),
            Backing::None => {}
        }
        if !ok {
            self.last_failed_read = owner;
        }
    }

    /// A page was written there, or not.
    pub(crate) fn wrote(&mut self, home: Backing, ok: bool)
        ensures { self.new ≡ with_write ok home self.old }
    {
        match home {
            Backing::Slot(_) => {
                self.paging_writes.count(ok);
                self.search_writes.count(ok);
            }
            Backing::Block(_) => {
                self.file_writes.count(ok);
                self.search_writes.count(ok);
            }
            Backing::None => {}
        }
    }
}
