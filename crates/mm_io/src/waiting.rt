ghost use Rattle.std.specs.Prelude.{◌≡◌, ◌++◌, [], true, false};

use std::marker::Model;

/// So many bytes wait at most.
const ROOM: usize = 4096;

/// Bytes that wait in front of a writer.
#[derive(Drop)]
pub(crate) struct Waiting {
    bytes: [u8; ROOM],
    len: usize,
}

impl Model for Waiting {
    ghost use Rattle.std.specs.Prelude.{List, ℕ, ◌≤◌, take};

    ghost Value = { List ℕ };

    ghost view = { λ w. take w.len w.bytes };

    ghost invariant = { λ w. w.len ≤ 4096 };
}

impl Waiting {
    pub(crate) fn new() -> Waiting
        ensures { result ≡ [] }
    {
        Waiting {
            bytes: [0; ROOM],
            len: 0,
        }
    }

    /// The bytes that wait.
    pub(crate) fn bytes(&self) -> &[u8]
        ensures { result.now ≡ self.now }
    {
        &self.bytes[..self.len]
    }

    pub(crate) fn clear(&mut self)
        ensures { self.new ≡ [] }
    {
        self.len = 0;
    }

    /// Has a piece wait, where it has room.
    #[inline(always)]
    pub(crate) fn keep(&mut self, piece: &[u8]) -> bool
        ensures kept { result ≡ true → self.new ≡ self.old ++ piece.now }
        ensures full { result ≡ false → self.new ≡ self.old }
    {
        if piece.len() > ROOM - self.len {
            return false;
        }
        let end = self.len + piece.len();
        self.bytes[self.len..end].copy_from_slice(piece);
        self.len = end;
        true
    }
}
