use mm_types::{Key, Move};

/// What is asked of a log.
#[derive(Clone, Copy)]
pub enum Asked {
    /// Whether it replays, and its counts.
    Check,
    /// Where the bytes of a key stand at its end.
    Where(Key),
}

/// How a check of a log ends.
#[derive(Clone, Copy)]
pub enum Ending {
    /// The log replays.
    Yes,
    /// In this line stands no move that is legal; lines are counted from 1. Beside it the move that
    /// the line spells, where it spells one.
    No(u64, Option<Move>),
    /// A byte past the last that a log may have was read.
    TooLong,
    /// A read failed.
    ReadFault,
    /// Memory was refused.
    NoMemory,
}
