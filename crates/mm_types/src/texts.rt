ghost use Rattle.std.specs.Prelude.{◌≡◌, ◌≤◌, ◌<◌, ◌++◌, ◌∷◌, [], ◌↔◌, length, IsSome, IfSome};

use std::alloc::AllocError;
use std::marker::Model;

/// 1 to 64 bytes in place: what an access reads or writes.
pub struct ByteBuf {
    len: usize,
    bytes: [u8; 64],
}

impl Model for ByteBuf {
    ghost use Rattle.std.specs.Prelude.{List, ℕ, take, length, ◌≤◌};
    ghost use Rattle.mm_types.specs.Padded.{IsPadded, padded, padded-take};

    ghost Value = { List ℕ };

    ghost view = { λ b. take b.len b.bytes };

    ghost invariant = { λ b. (1 ≤ b.len) × IsPadded 64 b.len b.bytes };

    ghost inverse = { λ d. record { len = length d; bytes = padded 64 d } };

    ghost inverse_ok = { λ b h. padded-take (λ n xs. record { len = n; bytes = xs })
        64 b.len b.bytes h.1 };
}

impl Clone for ByteBuf {
    fn clone(&self) -> Result<ByteBuf, AllocError> {
        Ok(*self)
    }
}

impl Copy for ByteBuf {}

impl ByteBuf {
    /// These bytes; `None` where there is none, or more than 64.
    pub fn from_slice(bytes: &[u8]) -> Option<ByteBuf>
        ensures fits { IsSome result ↔ ((1 ≤ length bytes.now) × (length bytes.now ≤ 64)) }
        ensures value { IfSome result (λ b. b ≡ bytes.now) }
    {
        if bytes.is_empty() || bytes.len() > 64 {
            return None;
        }
        let mut room = [0; 64];
        room[..bytes.len()].copy_from_slice(bytes);
        Some(ByteBuf {
            len: bytes.len(),
            bytes: room,
        })
    }

    /// The bytes, 1 to 64.
    pub fn as_slice(&self) -> &[u8]
        ensures bytes { result.now ≡ self.now }
        ensures some { 1 ≤ length self.now }
        ensures few { length self.now ≤ 64 }
    {
        &self.bytes[..self.len]
    }
}

/// 1 to 32 bytes in place: a section's or a file's name.
pub struct Name {
    len: usize,
    bytes: [u8; 32],
}

impl Model for Name {
    ghost use Rattle.std.specs.Prelude.{List, ℕ, take, length, ◌≤◌};
    ghost use Rattle.mm_types.specs.Padded.{IsPadded, padded, padded-take};

    ghost Value = { List ℕ };

    ghost view = { λ n. take n.len n.bytes };

    ghost invariant = { λ n. (1 ≤ n.len) × IsPadded 32 n.len n.bytes };

    ghost inverse = { λ d. record { len = length d; bytes = padded 32 d } };

    ghost inverse_ok = { λ n h. padded-take (λ k xs. record { len = k; bytes = xs })
        32 n.len n.bytes h.1 };
}

impl Clone for Name {
    fn clone(&self) -> Result<Name, AllocError> {
        Ok(*self)
    }
}

impl Copy for Name {}

impl Name {
    /// A name of these bytes; `None` where there is none, or more than 32. Which bytes a name may
    /// have is the grammar's.
    pub fn from_slice(bytes: &[u8]) -> Option<Name>
        ensures fits { IsSome result ↔ ((1 ≤ length bytes.now) × (length bytes.now ≤ 32)) }
        ensures value { IfSome result (λ n. n ≡ bytes.now) }
    {
        if bytes.is_empty() || bytes.len() > 32 {
            return None;
        }
        let mut room = [0; 32];
        room[..bytes.len()].copy_from_slice(bytes);
        Some(Name {
            len: bytes.len(),
            bytes: room,
        })
    }

    /// The bytes of the name, 1 to 32.
    pub fn as_slice(&self) -> &[u8]
        ensures bytes { result.now ≡ self.now }
        ensures some { 1 ≤ length self.now }
        ensures few { length self.now ≤ 32 }
    {
        &self.bytes[..self.len]
    }
}

/// At most 16 addresses in place: what `watch` tells.
pub struct PageList {
    len: usize,
    addresses: [u32; 16],
}

impl Model for PageList {
    ghost use Rattle.std.specs.Prelude.{List, ℕ, take, length};
    ghost use Rattle.mm_types.specs.Padded.{IsPadded, padded, padded-take};

    ghost Value = { List ℕ };

    ghost view = { λ l. take l.len l.addresses };

    ghost invariant = { λ l. IsPadded 16 l.len l.addresses };

    ghost inverse = { λ d. record { len = length d; addresses = padded 16 d } };

    ghost inverse_ok = { λ l h. padded-take (λ k xs. record { len = k; addresses = xs })
        16 l.len l.addresses h };
}

impl Clone for PageList {
    fn clone(&self) -> Result<PageList, AllocError> {
        Ok(*self)
    }
}

impl Copy for PageList {}

impl PageList {
    /// No address.
    pub fn new() -> PageList
        ensures { result ≡ [] }
    {
        PageList {
            len: 0,
            addresses: [0; 16],
        }
    }

    /// One address more, after the others.
    pub fn push(&mut self, address: u32)
        requires { length self.old < 16 }
        ensures { self.new ≡ self.old ++ address ∷ [] }
    {
        self.addresses[self.len] = address;
        self.len += 1;
    }

    /// The addresses, at most 16.
    pub fn as_slice(&self) -> &[u32]
        ensures addresses { result.now ≡ self.now }
        ensures few { length self.now ≤ 16 }
    {
        &self.addresses[..self.len]
    }
}
