ghost use Rattle.std.specs.Prelude.{◌≡◌};
ghost use Rattle.mm_run.specs.Texts.{status_of};

/// What ends a run.
#[derive(Clone, Copy, PartialEq, Eq)]
pub enum Ending {
    /// The input ended after a whole line, and every line was decided.
    Done,
    /// A request for memory was refused.
    NoMemory,
    /// The words are no form.
    Usage,
    /// A line is not in the grammar: its number and the column of the fault, both from 1.
    Script(u32, u32),
    /// The source failed.
    ReadFault,
    /// The sink of the answers failed.
    OutFault,
    /// The sink of the moves failed.
    MovesFault,
    /// A device failed where it was opened.
    SetupFault,
    /// A line has more than 256 bytes, or is one too many: its number, from 1.
    TooLong(u32),
}

impl Ending {
    /// The exit status of a run that ends so.
    pub fn status(self) -> u8
        ensures { result ≡ status_of self }
    {
        match self {
            Ending::Done => 0,
            Ending::NoMemory => 1,
            Ending::Usage => 2,
            Ending::Script(..) => 3,
            Ending::ReadFault => 4,
            Ending::OutFault => 5,
            Ending::MovesFault => 6,
            Ending::SetupFault => 7,
            Ending::TooLong(_) => 8,
        }
    }
}
