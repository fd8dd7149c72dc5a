ghost use Rattle.std.specs.Prelude.{◌≡◌};

use mm_types::{Backing, Frame, Key, Slot};
use std::marker::Model;

/// A page frame in hand whose bytes are all zero. It must be spent: `bind`, `soil_blank`,
/// `put_zeroed`.
///
/// Contracts see its frame's number.
pub struct Blank {
    pub(crate) frame: Frame,
}

impl Model for Blank {
    ghost use Rattle.std.specs.Prelude.{ℕ};

    ghost Value = { ℕ };

    ghost view = { λ b. b.frame.0 };
}

impl Blank {
    /// The frame in hand, as it is named in the log of moves.
    pub fn frame(&self) -> Frame
        ensures { result.0 ≡ self.now }
    {
        self.frame
    }
}

/// A page frame in hand with any bytes. It must be spent: `clear`, `bind_read`, `put_free`.
///
/// Contracts see its frame's number.
pub struct Dirty {
    pub(crate) frame: Frame,
}

impl Model for Dirty {
    ghost use Rattle.std.specs.Prelude.{ℕ};

    ghost Value = { ℕ };

    ghost view = { λ d. d.frame.0 };
}

impl Dirty {
    /// The frame in hand, as it is named in the log of moves.
    pub fn frame(&self) -> Frame
        ensures { result.0 ≡ self.now }
    {
        self.frame
    }
}

/// A frame taken from standby, with the page that it held and where that page's bytes stand.
pub struct Stolen {
    pub dirty: Dirty,
    pub key: Key,
    pub backing: Backing,
}

/// What a request left when it ended.
#[derive(Clone, Copy, PartialEq, Eq)]
pub struct Ended {
    /// The page of the frame, if it still had one.
    pub owner: Option<Key>,
    /// A slot to give back.
    pub slot: Option<Slot>,
    /// Where the bytes stood that were read or written.
    pub home: Backing,
}
