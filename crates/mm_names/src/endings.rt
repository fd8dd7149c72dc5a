/// How a run ends.
#[derive(Clone, Copy, PartialEq, Eq)]
pub enum Ending {
    /// The script was written.
    Written,
    /// Memory was refused.
    NoMemory,
    /// The words are no form.
    Usage,
    /// A line means nothing that may stand there, or no line means an event.
    Refused,
    /// A read failed.
    ReadFault,
    /// A write failed.
    OutFault,
    /// The file has more than 100,000,000 bytes, or its script more than 1,000,000 lines.
    TooLong,
}
