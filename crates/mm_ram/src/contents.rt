ghost use Rattle.std.specs.Prelude.{◌≡◌};
ghost use Rattle.mm_ram.specs.Frames.{backed, has_bytes, zeroed};

/// What a frame shows, and whether its place has bytes.
#[derive(Clone, Copy)]
pub enum Contents {
    /// Nothing: it was never written. Its place is empty.
    Unwritten,
    /// Zeros, over an empty place.
    Zeros,
    /// Zeros, over a place that still has the bytes of before.
    ZerosOver,
    /// The bytes in its place.
    Bytes,
    /// Nothing: it was never written, though its place has bytes.
    Hidden,
}

impl Contents {
    /// Whether the frame's place has bytes.
    pub(crate) fn has_bytes(self) -> bool
        ensures { result ≡ has_bytes self }
    {
        match self {
            Contents::Unwritten | Contents::Zeros => false,
            Contents::ZerosOver | Contents::Bytes | Contents::Hidden => true,
        }
    }

    /// What the frame is once it shows zeros and its place is as before.
    pub(crate) fn zeroed(self) -> Contents
        ensures { result ≡ zeroed self }
    {
        match self {
            Contents::Unwritten | Contents::Zeros => Contents::Zeros,
            Contents::ZerosOver | Contents::Bytes | Contents::Hidden => Contents::ZerosOver,
        }
    }

    /// What the frame is once its empty place has bytes and it shows the same.
    pub(crate) fn backed(self) -> Contents
        ensures { result ≡ backed self }
    {
        match self {
            Contents::Unwritten => Contents::Hidden,
            Contents::Zeros => Contents::ZerosOver,
            Contents::ZerosOver | Contents::Bytes | Contents::Hidden => self,
        }
    }
}
