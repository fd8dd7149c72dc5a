/// Where a page frame stands, beside what its record says.
#[derive(Clone, Copy, PartialEq, Eq)]
pub enum Standing {
    /// On the zeroed list.
    Zeroed,
    /// On the free list.
    Free,
    /// It has an owner or a request: active, in transition, on standby or on modified.
    Bound,
    /// In a `Blank` token in hand.
    Cleared,
    /// In a `Dirty` token in hand.
    Taken,
}
