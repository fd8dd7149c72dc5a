/// The working set of a process, as the life of the frames has it.
#[derive(Clone, Copy, PartialEq, Eq)]
pub struct ResidentSet {
    /// The size that a trim leaves at least.
    pub min: u32,
    /// The size that is never passed.
    pub max: u32,
    /// How many of its places are valid now.
    pub resident: u32,
}
