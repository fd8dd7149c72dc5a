ghost use Rattle.std.specs.Prelude.{⊤, ◌≡◌, [], ◌∷◌, codes};
ghost use Rattle.mm_types.specs.Protection.{permits as permits_by_table};

use bitflags::{Flag, Flags, bitflag_items};

/// What an access does to a page.
#[derive(Clone, Copy, PartialEq, Eq)]
pub enum Access {
    Read,
    Write,
    Execute,
}

/// A memory protection constant: a base protection, with GUARD beside it or not.
#[derive(Clone, Copy, PartialEq, Eq)]
pub struct Prot(pub u32);

bitflag_items! {
    impl Prot: u32 {
        const NOACCESS = 0x01;
        const READONLY = 0x02;
        const READWRITE = 0x04;
        const WRITECOPY = 0x08;
        const EXECUTE = 0x10;
        const EXECUTE_READ = 0x20;
        const EXECUTE_READWRITE = 0x40;
        const EXECUTE_WRITECOPY = 0x80;
        const GUARD = 0x100;
    }
}

impl Flags for Prot {
    type Bits = u32;

    ghost exact = { ⊤ };

    ghost table = { (codes "NOACCESS", 1) ∷ (codes "READONLY", 2) ∷ (codes "READWRITE", 4) ∷
        (codes "WRITECOPY", 8) ∷ (codes "EXECUTE", 16) ∷ (codes "EXECUTE_READ", 32) ∷
        (codes "EXECUTE_READWRITE", 64) ∷ (codes "EXECUTE_WRITECOPY", 128) ∷
        (codes "GUARD", 256) ∷ [] };

    ghost set_of = { λ p. p.0 };

    fn flags<'a>() -> &'a [Flag<Prot>] {
        Prot::FLAGS
    }

    fn bits(&self) -> u32 {
        self.0
    }

    fn from_bits_retain(bits: u32) -> Prot {
        Prot(bits)
    }
}

/// The allocation type of VirtualAlloc and the free type of VirtualFree.
#[derive(Clone, Copy, PartialEq, Eq)]
pub struct AllocFlags(pub u32);

bitflag_items! {
    impl AllocFlags: u32 {
        const COMMIT = 0x1000;
        const RESERVE = 0x2000;
        const DECOMMIT = 0x4000;
        const RELEASE = 0x8000;
        const WRITE_WATCH = 0x200000;
    }
}

impl Flags for AllocFlags {
    type Bits = u32;

    ghost exact = { ⊤ };

    ghost table = { (codes "COMMIT", 0x1000) ∷ (codes "RESERVE", 0x2000) ∷
        (codes "DECOMMIT", 0x4000) ∷ (codes "RELEASE", 0x8000) ∷
        (codes "WRITE_WATCH", 0x200000) ∷ [] };

    ghost set_of = { λ f. f.0 };

    fn flags<'a>() -> &'a [Flag<AllocFlags>] {
        AllocFlags::FLAGS
    }

    fn bits(&self) -> u32 {
        self.0
    }

    fn from_bits_retain(bits: u32) -> AllocFlags {
        AllocFlags(bits)
    }
}

/// Whether a protection permits an access, by its base protection; the guard is not looked at.
/// A value that is none of the eight permits nothing.
pub fn permits(prot: Prot, access: Access) -> bool
    ensures { result ≡ permits_by_table prot.0 access }
{
    match (prot.0 % 0x100, access) {
        (0x02 | 0x04 | 0x08 | 0x10 | 0x20 | 0x40 | 0x80, Access::Read) => true,
        (0x04 | 0x08 | 0x40 | 0x80, Access::Write) => true,
        (0x10 | 0x20 | 0x40 | 0x80, Access::Execute) => true,
        _ => false,
    }
}
