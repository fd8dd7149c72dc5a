ghost use Rattle.std.specs.Prelude.{◌≡◌, ℕ, ◌+◌, ◌*◌, ◌<◌, ◌≤◌, Bool, true, false, length, replicate, IfOk, IfSome, IfNone};
ghost use Rattle.mm_world.specs.{change_range};
ghost use Rattle.mm_bits.specs.{IsLowestFrom, NoneWithin};
ghost use Rattle.mm_vad.specs.Bits.{bit_flag};

use mm_bits::{next_bit, put_bit, put_bits};
use mm_types::NoMemory;
use std::alloc::Global;
use std::marker::Model;

const BITS: usize = 64;

/// A row of bits.
#[derive(Drop)]
pub struct Bits {
    words: Vec<u64>,
    len: u32,
}

impl Model for Bits {
    ghost use Rattle.std.specs.Prelude.{List, Bool, ◌*◌, ◌≤◌, length};
    ghost use Rattle.mm_vad.specs.Bits.{word_flags};

    ghost Value = { List Bool };

    ghost view = { λ b. word_flags b.words.items b.len };

    ghost invariant = { λ b. b.len ≤ 64 * length b.words.items };
}

impl Bits {
    /// `n` bits, none of them set. `NoMemory` where a request for memory was refused.
    pub fn new(alloc: Global, n: u32) -> Result<Bits, NoMemory>
        ensures { IfOk result (λ bits. bits ≡ replicate n false) }
    {
        let words = (n as usize + (BITS - 1)) / BITS;
        Ok(Bits {
            words: vec![in alloc; 0; words]?,
            len: n,
        })
    }

    /// Sets one bit.
    pub fn set(&mut self, i: u32)
        requires { i < length self.old }
        ensures { self.new ≡ change_range (λ _. true) i 1 self.old }
    {
        put_bit(&mut self.words, i as usize, true);
    }

    /// Clears `n` bits from `first` on.
    pub fn clear(&mut self, first: u32, n: u32)
        requires { first + n ≤ length self.old }
        ensures { self.new ≡ change_range (λ _. false) first n self.old }
    {
        let first = first as usize;
        put_bits(&mut self.words, first, first + n as usize, false);
    }

    /// The lowest bit that is set from `first` on and below `end`.
    pub fn next(&self, first: u32, end: u32) -> Option<u32>
        requires { end ≤ length self.now }
        ensures found { IfSome result (IsLowestFrom (bit_flag self.now) first) }
        ensures within { IfSome result (λ i. i < end) }
        ensures none { IfNone result (NoneWithin (bit_flag self.now) first end) }
    {
        match next_bit(&self.words, first as usize, end as usize) {
            Some(i) => Some(i as u32),
            None => None,
        }
    }
}
