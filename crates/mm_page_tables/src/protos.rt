ghost use Rattle.std.specs.Prelude.{◌≡◌, ◌<◌, ◌^◌, None, Some, IsSome, OnOk, OnErr, replicate, slice_set, vec_len};
ghost use Rattle.std.specs.FinMap as finite;
ghost use Rattle.mm_types.specs.{table};
ghost use Rattle.mm_page_tables.specs.Prototypes.{proto_word, area_words, words_in};

use mm_types::{Area, NoMemory};
use std::alloc::Global;
use std::marker::Model;

/// The prototype words of each open area: one for each page of the area.
#[derive(Drop)]
pub struct Protos {
    alloc: Global,
    areas: Vec<Option<Vec<u64>>>,
}

impl Model for Protos {
    ghost use Rattle.std.specs.Prelude.{ℕ, List};
    ghost use Rattle.std.specs.Ordering.{nat_cmp};
    ghost use Rattle.std.specs.FinMap as finite;
    ghost use Rattle.std.specs.Coded.{coded_ℕ, coded_list};
    ghost use Rattle.mm_types.specs.{table};
    ghost use Rattle.mm_page_tables.specs.Prototypes.{words_in};

    ghost Value = { finite.FinMap nat_cmp (List ℕ) };

    ghost coded = { finite.code coded_ℕ (coded_list coded_ℕ) };

    ghost view = { λ p. table words_in p.areas.items };
}

/// Makes room for an area of this number. What is open stays so.
fn make_place(areas: &mut Vec<Option<Vec<u64>>>, a: usize) -> Result<(), NoMemory>
    requires { a < 2 ^ 32 }
    ensures same { table words_in areas.new.items ≡ table words_in areas.old.items }
    ensures place { OnOk result (a < vec_len areas.new) }
{
    for _ in areas.len()..a + 1 {
        areas.push(None)?;
    }
    Ok(())
}

impl Protos {
    /// No area is open; it takes memory with the first that is opened.
    pub fn new(alloc: Global) -> Protos
        ensures { result ≡ finite.empty }
    {
        Protos {
            alloc,
            areas: Vec::new(alloc),
        }
    }

    /// Opens an area that is not open, with `n` words of 0. After `NoMemory` nothing has changed.
    pub fn open(&mut self, a: Area, n: u32) -> Result<(), NoMemory>
        requires { finite.get self.old a.0 ≡ None }
        ensures ok { OnOk result (self.new ≡ finite.insert self.old a.0 (replicate n 0)) }
        ensures err { OnErr result (self.new ≡ self.old) }
    {
        let words = vec![in self.alloc; 0; n as usize]?;
        let at = a.0 as usize;
        make_place(&mut self.areas, at)?;
        self.areas[at] = Some(words);
        Ok(())
    }

    /// Closes an open area; its words are gone.
    pub fn close(&mut self, a: Area)
        requires { IsSome (finite.get self.old a.0) }
        ensures { self.new ≡ finite.remove self.old a.0 }
    {
        self.areas[a.0 as usize] = None;
    }

    /// The word at an index of an open area, within its words.
    pub fn get(&self, a: Area, i: u32) -> u64
        requires { IsSome (proto_word self.now a.0 i) }
        ensures { proto_word self.now a.0 i ≡ Some result }
    {
        match &self.areas[a.0 as usize] {
            Some(words) => words[i as usize],
            None => unreachable!(),
        }
    }

    /// Sets the word at an index of an open area, within its words.
    pub fn set(&mut self, a: Area, i: u32, word: u64)
        requires { IsSome (proto_word self.old a.0 i) }
        ensures { self.new ≡ finite.insert self.old a.0
            (slice_set (area_words self.old a.0) i word) }
    {
        match &mut self.areas[a.0 as usize] {
            Some(words) => words[i as usize] = word,
            None => unreachable!(),
        }
    }
}
