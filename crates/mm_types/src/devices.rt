/// One of the two devices of a machine.
#[derive(Clone, Copy, PartialEq, Eq)]
pub enum Device {
    /// Keeps the page-file slots.
    Paging,
    /// Keeps the blocks of files.
    File,
}

/// What a device is asked to do with a block.
#[derive(Clone, Copy, PartialEq, Eq)]
pub enum Direction {
    Read,
    Write,
}
