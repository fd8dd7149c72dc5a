/// Where the first fault of a line stands.
#[derive(Clone, Copy, PartialEq, Eq)]
pub struct LineFault {
    /// The column of the faulty word's first byte, counted from 1; of a missing word the column
    /// after the line's end.
    pub column: u32,
    /// The word's number, counted from 1.
    pub word: u32,
}
