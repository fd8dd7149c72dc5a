ghost use Rattle.mm_object_tables.specs.Threads.{FitsPage, FitsPage-prop};

use mm_types::{AccessSpec, Pid};

/// An access that a thread could not finish yet.
#[derive(Drop)]
pub struct Kept {
    /// The process that it accesses.
    pub pid: Pid,
    /// What it does there: it lies in one page, and a read is of 1 to 64 bytes.
    pub access: AccessSpec,
    pub ghost fits: { FitsPage access } by { FitsPage-prop access },
}
