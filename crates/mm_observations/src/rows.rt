use mm_types::QueryInfo;

/// What a row tells.
#[derive(Clone, Copy)]
pub enum Seen {
    /// The commit charge and its limit, in pages.
    Charge(u32, u32),
    /// A region of the address space of a process, or a free stretch of it.
    Region(u32, QueryInfo),
}

/// A row of observations: what was seen after a line of the run.
#[derive(Clone, Copy)]
pub struct Row {
    /// The number of that line, from 1 on.
    pub line: u32,
    pub seen: Seen,
}
