use std::alloc::{AllocError, AllocFailed};
use thiserror::Error;

/// A request for memory was refused.
#[derive(Clone, Copy, PartialEq, Eq, Debug)]
pub struct NoMemory;

impl From<AllocError> for NoMemory {
    fn from(_: AllocError) -> Self {
        NoMemory
    }
}

impl<T: Drop> From<AllocFailed<T>> for NoMemory {
    fn from(_: AllocFailed<T>) -> Self {
        NoMemory
    }
}

/// A call of a source, a sink or a device failed. Its count of faults rose in that call.
#[derive(Clone, Copy, PartialEq, Eq)]
pub struct Failed;

/// A page could not be written to its block.
#[derive(Clone, Copy, PartialEq, Eq)]
pub struct WriteFault;

/// Why a device was not opened or extended.
#[derive(Clone, Copy, PartialEq, Eq, Debug, Error)]
pub enum OpenFault {
    #[error("no memory for the device's blocks")]
    Memory,
    #[error("the device failed")]
    Failed,
}

/// Why a file was not made.
#[derive(Clone, Copy, PartialEq, Eq, Debug, Error)]
pub enum MakeFault {
    #[error("a block of the file was not written")]
    Write,
    #[error("no memory for the file's pages")]
    Memory,
}

/// Why an access to a page failed.
#[derive(Clone, Copy, PartialEq, Eq, Debug, Error)]
pub enum PageFault {
    #[error("the page was not read")]
    Read,
    #[error("no frame was found for the page")]
    NoFrame,
}

/// Why the paging file did not grow.
#[derive(Clone, Copy, PartialEq, Eq, Debug, Error)]
pub enum GrowFault {
    #[error("no memory for the new slots")]
    Memory,
    #[error("the paging device failed")]
    Failed,
}

/// Want of memory in a call that was handed values to keep: they are given back unchanged.
#[derive(Drop)]
pub struct Unmade<T> {
    pub back: T,
}
