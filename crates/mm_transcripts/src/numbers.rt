ghost use Rattle.std.specs.Prelude.{◌≡◌, ◌++◌, ◌∷◌, ℕ, List, OnOk, IfOk, false, map};
ghost use Rattle.mm_transcripts.specs.Numbers.{names_at, bits_of, lies_in, is_all_access, has_name};
ghost use Rattle.mm_transcripts.specs.Numbers.{name_behind, union_text, number_name_text};
ghost use Rattle.mm_transcripts.specs.Bits.{bit_row};

use mm_types::NoMemory;

/// Where a number stands, which decides what its bits are called.
#[derive(Clone, Copy)]
pub(crate) enum NumberPlace {
    /// The type of an allocation or of what is freed: MEM_COMMIT, ..
    Allocation,
    /// A protection: PAGE_READWRITE, ..
    Protection,
    /// The flags of a section: a protection, SEC_COMMIT, SEC_RESERVE.
    Section,
    /// The access of a view: FILE_MAP_READ, ..
    Access,
    /// The state of a page that was asked for: MEM_COMMIT, MEM_RESERVE, MEM_FREE.
    State,
    /// The type of a page that was asked for: MEM_PRIVATE, MEM_MAPPED.
    Type,
}

/// A number of a line or of an answer, and where it stands.
#[derive(Clone, Copy)]
pub(crate) struct Number {
    pub(crate) place: NumberPlace,
    pub(crate) value: u32,
}

/// A bit, by its name.
#[derive(Clone, Copy)]
struct NamedBit(&'static [u8], u32);

/// The bits that have names in the flags of a section: those of a protection, and two more.
const SECTION_BITS: [NamedBit; 11] = [
    NamedBit(b"PAGE_NOACCESS", 0x01),
    NamedBit(b"PAGE_READONLY", 0x02),
    NamedBit(b"PAGE_READWRITE", 0x04),
    NamedBit(b"PAGE_WRITECOPY", 0x08),
    NamedBit(b"PAGE_EXECUTE", 0x10),
    NamedBit(b"PAGE_EXECUTE_READ", 0x20),
    NamedBit(b"PAGE_EXECUTE_READWRITE", 0x40),
    NamedBit(b"PAGE_EXECUTE_WRITECOPY", 0x80),
    NamedBit(b"PAGE_GUARD", 0x100),
    NamedBit(b"SEC_RESERVE", 0x400_0000),
    NamedBit(b"SEC_COMMIT", 0x800_0000),
];

/// The bits that have names at a place, in rising order.
fn bits_at(place: NumberPlace) -> &'static [NamedBit]
    ensures { map bit_row result.now ≡ names_at place }
{
    match place {
        NumberPlace::Allocation => &[
            NamedBit(b"MEM_COMMIT", 0x1000),
            NamedBit(b"MEM_RESERVE", 0x2000),
            NamedBit(b"MEM_DECOMMIT", 0x4000),
            NamedBit(b"MEM_RELEASE", 0x8000),
            NamedBit(b"MEM_WRITE_WATCH", 0x20_0000),
        ],
        NumberPlace::Protection => &SECTION_BITS[..9],
        NumberPlace::Section => &SECTION_BITS,
        NumberPlace::Access => &[
            NamedBit(b"FILE_MAP_COPY", 1),
            NamedBit(b"FILE_MAP_WRITE", 2),
            NamedBit(b"FILE_MAP_READ", 4),
        ],
        NumberPlace::State => &[
            NamedBit(b"MEM_COMMIT", 0x1000),
            NamedBit(b"MEM_RESERVE", 0x2000),
            NamedBit(b"MEM_FREE", 0x1_0000),
        ],
        NumberPlace::Type => &[
            NamedBit(b"MEM_PRIVATE", 0x2_0000),
            NamedBit(b"MEM_MAPPED", 0x4_0000),
        ],
    }
}

/// The bits that have names at a place.
fn named_bits(place: NumberPlace) -> u32
    ensures { result ≡ bits_of (names_at place) }
{
    match place {
        NumberPlace::Allocation => 0x20_F000,
        NumberPlace::Protection => 0x1FF,
        NumberPlace::Section => 0xC00_01FF,
        NumberPlace::Access => 0x7,
        NumberPlace::State => 0x1_3000,
        NumberPlace::Type => 0x6_0000,
    }
}

fn is_all_access(number: Number) -> bool
    ensures { result ≡ is_all_access number.place number.value }
{
    match number.place {
        NumberPlace::Access => number.value == 0xF_001F,
        _ => false,
    }
}

fn lies_in(bits: u32, value: u32) -> bool
    ensures { result ≡ lies_in bits value }
{
    bits & value == bits
}

/// Whether a number is not 0 and each of its bits has a name, or the whole has one.
pub(crate) fn has_name(number: Number) -> bool
    ensures { result ≡ has_name number }
{
    is_all_access(number) || (lies_in(number.value, named_bits(number.place)) && number.value != 0)
}

/// Writes a name, behind a mark where another stands before it.
fn put_behind(mark: &[u8], after: bool, name: &[u8], text: &mut Vec<u8>) -> Result<(), NoMemory>
    ensures { OnOk result (text.new.items ≡ text.old.items ++ name_behind mark.now after name.now) }
{
    if after {
        text.extend_from_slice(mark)?;
    }
    text.extend_from_slice(name)?;
    Ok(())
}

/// Writes the name of a bit where the number has it. Answers whether a name stands there now.
#[tactic(auto, using(crate::proofs::Joins::joins))]
fn put_bit(after: bool, bit: NamedBit, value: u32, text: &mut Vec<u8>) -> Result<bool, NoMemory>
    ensures { IfOk result (λ b. (rest : List (List ℕ × ℕ)) → text.new.items
        ++ union_text b rest value
        ≡ text.old.items ++ union_text after (bit_row bit ∷ rest) value) }
{
    if !lies_in(bit.1, value) {
        return Ok(after);
    }
    put_behind(b"|", after, bit.0, text)?;
    Ok(true)
}

/// Writes the names of those of some bits that a number has, between them `|`.
fn put_bits(bits: &[NamedBit], value: u32, text: &mut Vec<u8>) -> Result<(), NoMemory>
    ensures { OnOk result (text.new.items
        ≡ text.old.items ++ union_text false (map bit_row bits.now) value) }
{
    let mut after = false;
    for bit in bits {
        after = put_bit(after, *bit, value, text)?;
    }
    Ok(())
}

/// Writes the name of a number that has one.
pub(crate) fn put_name(number: Number, text: &mut Vec<u8>) -> Result<(), NoMemory>
    ensures { OnOk result (text.new.items ≡ text.old.items ++ number_name_text number) }
{
    if is_all_access(number) {
        text.extend_from_slice(b"FILE_MAP_ALL_ACCESS")?;
        return Ok(());
    }
    put_bits(bits_at(number.place), number.value, text)
}
