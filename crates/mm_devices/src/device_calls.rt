use mm_types::Direction;

/// A read or a write that a device was asked for.
#[derive(Clone, Copy)]
pub struct DeviceCall {
    pub direction: Direction,
    /// The block's number, from 0.
    pub block: u32,
    pub succeeded: bool,
}

/// Of the calls of one direction from now on, the first `passes` pass and the next `fails` fail.
#[derive(Clone, Copy)]
pub struct NamedCalls {
    pub direction: Direction,
    pub passes: u32,
    pub fails: u32,
}
