ghost use Rattle.std.specs.Prelude.{◌≡◌, Option, ℕ, None, bytes_eq, option_and_then, IfOk, OnOk, if◌then◌else◌};
ghost use Rattle.std.proofs.Common.{ap};
ghost use Rattle.std.specs.Cmp.{partial_equiv_from_equiv};
ghost use Rattle.std.specs.Cmp.Lexicographic.{on_texts_equal, bytes_decides};
ghost use Rattle.std.specs.Hash as fed;
ghost use Rattle.mm_types.specs.{Text};
ghost use Rattle.mm_names.specs.Keys.{given_value, no_names, with_given};
ghost use Rattle.mm_names.specs.Numbers.{value_among, memory_names, page_names, section_names, flag_names, windows_value};

use crate::texts::among;
use indexmap::IndexMap;
use mm_script::is_text;
use mm_text::name;
use mm_types::{Name, NoMemory};
use std::alloc::Global;
use std::hash::{Hash, Hasher};
use std::marker::Model;

/// A name that a script gives to a number.
#[derive(Clone, Copy)]
pub struct Given {
    pub name: Name,
    pub value: u32,
}

/// A name that can be looked up by its hash.
#[derive(Clone, Copy)]
struct NameKey {
    name: Name,
}

impl PartialEq for NameKey {
    ghost eq = { λ a b. bytes_eq a.name b.name };

    ghost laws = { partial_equiv_from_equiv (on_texts_equal (λ k. k.name)) };

    fn eq(&self, other: &NameKey) -> bool {
        self.name.as_slice() == other.name.as_slice()
    }
}

impl Eq for NameKey {
    ghost laws = { on_texts_equal (λ k. k.name) };
}

impl Hash for NameKey {
    ghost hash_input = { λ k. fed.slice fed.u8 k.name };

    ghost respects_eq = { λ a b h. ap (fed.slice fed.u8) ((bytes_decides a.name b.name).0 h) };

    fn hash<H: Hasher>(&self, state: &mut H) {
        self.name.as_slice().hash(state);
    }
}

/// The names that a script gave to numbers, each with the value that it was given last.
#[derive(Drop)]
pub struct Names {
    values: IndexMap<NameKey, u32>,
}

impl Model for Names {
    ghost use Rattle.mm_names.specs.Keys.{NamesOf};

    ghost Value = { NamesOf };

    ghost view = { λ n. n.values.entries };
}

impl Names {
    /// No name was given.
    pub fn new(alloc: Global) -> Names
        ensures { result ≡ no_names }
    {
        Names {
            values: IndexMap::new(alloc),
        }
    }

    /// Gives a name to a number.
    pub fn give(&mut self, given: &Given) -> Result<(), NoMemory>
        ensures { OnOk result (self.new ≡ with_given self.old given.now) }
    {
        self.values
            .insert(NameKey { name: given.name }, given.value)?;
        Ok(())
    }

    /// What the script gave a word last.
    pub fn value(&self, word: &[u8]) -> Option<u32>
        ensures { result ≡ given_value self.now word.now }
    {
        let name = name(word)?;
        self.values.get(&NameKey { name }).copied()
    }

    /// The names.
    pub fn names(&self, alloc: Global) -> Result<Vec<Name>, NoMemory> {
        let mut names = Vec::new(alloc);
        for key in self.values.keys() {
            names.push(key.name)?;
        }
        Ok(names)
    }
}

/// The value of one of Windows' names for kinds of allocation.
fn memory_value(word: &[u8]) -> Option<u32>
    ensures { result ≡ value_among memory_names word.now }
{
    among!(word,
        b"MEM_COMMIT" => 0x1000,
        b"MEM_RESERVE" => 0x2000,
        b"MEM_DECOMMIT" => 0x4000,
        b"MEM_RELEASE" => 0x8000,
        b"MEM_WRITE_WATCH" => 0x20_0000,
    )
}

/// The value of one of Windows' names for protections.
fn page_value(word: &[u8]) -> Option<u32>
    ensures { result ≡ value_among page_names word.now }
{
    among!(word,
        b"PAGE_NOACCESS" => 0x01,
        b"PAGE_READONLY" => 0x02,
        b"PAGE_READWRITE" => 0x04,
        b"PAGE_WRITECOPY" => 0x08,
        b"PAGE_EXECUTE" => 0x10,
        b"PAGE_EXECUTE_READ" => 0x20,
        b"PAGE_EXECUTE_READWRITE" => 0x40,
        b"PAGE_EXECUTE_WRITECOPY" => 0x80,
        b"PAGE_GUARD" => 0x100,
    )
}

/// The value of one of Windows' names for sections and views.
fn section_value(word: &[u8]) -> Option<u32>
    ensures { result ≡ value_among section_names word.now }
{
    among!(word,
        b"SEC_RESERVE" => 0x400_0000,
        b"SEC_COMMIT" => 0x800_0000,
        b"FILE_MAP_COPY" => 1,
        b"FILE_MAP_WRITE" => 2,
        b"FILE_MAP_READ" => 4,
        b"FILE_MAP_ALL_ACCESS" => 0xF001F,
    )
}

/// The value of one of Windows' names for flags of a call.
fn flag_value(word: &[u8]) -> Option<u32>
    ensures { result ≡ value_among flag_names word.now }
{
    among!(word,
        b"WRITE_WATCH_FLAG_RESET" => 1,
    )
}

/// The value of a name of Windows.
pub fn windows_value(word: &[u8]) -> Option<u32>
    ensures { result ≡ windows_value word.now }
{
    match memory_value(word) {
        Some(value) => Some(value),
        None => match page_value(word) {
            Some(value) => Some(value),
            None => match section_value(word) {
                Some(value) => Some(value),
                None => flag_value(word),
            },
        },
    }
}
