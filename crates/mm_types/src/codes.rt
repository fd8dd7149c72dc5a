/// A Windows error code, as GetLastError gives it.
#[derive(Clone, Copy, PartialEq, Eq)]
pub enum Code {
    /// ERROR_FILE_NOT_FOUND, 2.
    NotFound,
    /// ERROR_ACCESS_DENIED, 5.
    AccessDenied,
    /// ERROR_INVALID_HANDLE, 6.
    InvalidHandle,
    /// ERROR_INVALID_PARAMETER, 87.
    InvalidParameter,
    /// ERROR_ALREADY_EXISTS, 183.
    AlreadyExists,
    /// ERROR_INVALID_ADDRESS, 487.
    InvalidAddress,
    /// ERROR_MAPPED_ALIGNMENT, 1132.
    Misaligned,
    /// ERROR_COMMITMENT_LIMIT, 1455.
    CommitmentLimit,
}

/// A status that an access raises.
#[derive(Clone, Copy, PartialEq, Eq)]
pub enum Raise {
    /// STATUS_GUARD_PAGE_VIOLATION, 0x80000001.
    GuardPage,
    /// STATUS_ACCESS_VIOLATION, 0xC0000005.
    AccessViolation,
    /// STATUS_IN_PAGE_ERROR, 0xC0000006.
    InPageError,
    /// STATUS_STACK_OVERFLOW, 0xC00000FD.
    StackOverflow,
}
