ghost use Rattle.std.specs.Prelude.{◌≡◌, ℕ, ◌+◌, ◌<◌, length, map, [], ◌∷◌, ◌++◌, drop, replicate, Some, IfOk, slice_get};
ghost use Rattle.mm_page_lists.specs.Lists.{ListsOf, AreApart, IsOnOne, IsOnNone, list_at, number_at, with_list, without};

use mm_types::NoMemory;
use std::alloc::Global;
use std::marker::Model;

/// Lists over the numbers below a bound.
///
/// Contracts see the bound, `numbers`, and the lists themselves, `lists`.
#[derive(Drop)]
pub struct Lists {
    /// For each number on a list, the one after it.
    next: Vec<u32>,
    /// For each number on a list, the one before it.
    prev: Vec<u32>,
    /// For each number on a list, that list.
    owner: Vec<u32>,
    firsts: Vec<u32>,
    lasts: Vec<u32>,
    lens: Vec<u32>,
}

impl Model for Lists {
    ghost use Rattle.std.specs.Prelude.{length};
    ghost use Rattle.mm_page_lists.specs.Lists.{ListsOf};
    ghost use Rattle.mm_page_lists.specs.Links.{rows, LinksStand};

    ghost Value = { ListsOf };

    ghost view = { λ s. record {
      numbers = length s.next.items;
      lists = rows s.next.items s.firsts.items s.lens.items;
    } };

    ghost invariant = { λ s. LinksStand s.next.items s.prev.items s.owner.items s.firsts.items
        s.lasts.items s.lens.items (rows s.next.items s.firsts.items s.lens.items) };
}

fn zeros(alloc: Global, n: u32) -> Result<Vec<u32>, NoMemory>
    ensures { IfOk result (λ v. v.items ≡ replicate n 0) }
{
    Ok(vec![in alloc; 0; n as usize]?)
}

impl Lists {
    /// `k` empty lists over the numbers below `n`.
    pub fn new(alloc: Global, n: u32, k: u32) -> Result<Lists, NoMemory>
        ensures empty { IfOk result (λ v. v ≡ record { numbers = n; lists = replicate k [] }) }
        ensures apart { IfOk result AreApart }
    {
        Ok(Lists {
            next: zeros(alloc, n)?,
            prev: zeros(alloc, n)?,
            owner: zeros(alloc, n)?,
            firsts: zeros(alloc, k)?,
            lasts: zeros(alloc, k)?,
            lens: zeros(alloc, k)?,
        })
    }

    /// How many numbers are on the list.
    pub fn len(&self, list: u32) -> u32
        requires { list < length self.now.lists }
        ensures count { result ≡ length (list_at self.now.lists list) }
        ensures apart { AreApart self.now }
    {
        self.lens[list as usize]
    }

    /// The first number on the list, `None` exactly where it is empty.
    pub fn front(&self, list: u32) -> Option<u32>
        requires { list < length self.now.lists }
        ensures first { result ≡ number_at self.now.lists list 0 }
        ensures apart { AreApart self.now }
    {
        if self.lens[list as usize] == 0 {
            return None;
        }
        Some(self.firsts[list as usize])
    }

    /// The number after `x` on its list, `None` exactly where `x` is the last.
    pub fn next(&self, x: u32) -> Option<u32>
        requires { IsOnOne self.now.lists x }
        ensures behind { (j k : ℕ) → number_at self.now.lists j k ≡ Some x
            → result ≡ number_at self.now.lists j (k + 1) }
        ensures apart { AreApart self.now }
    {
        let list = self.owner[x as usize];
        if self.lasts[list as usize] == x {
            return None;
        }
        Some(self.next[x as usize])
    }

    /// Puts `x`, which is on no list, at the end of the list.
    pub fn push_back(&mut self, list: u32, x: u32)
        requires list_there { list < length self.old.lists }
        requires below { x < self.old.numbers }
        requires on_none { IsOnNone self.old.lists x }
        ensures pushed { self.new ≡ with_list self.old list
            (list_at self.old.lists list ++ x ∷ []) }
        ensures apart { AreApart self.new }
    {
        let at = list as usize;
        let len = self.lens[at];
        self.owner[x as usize] = list;
        self.lens[at] = len + 1;
        if len == 0 {
            self.firsts[at] = x;
            self.lasts[at] = x;
        } else {
            let last = self.lasts[at];
            self.next[last as usize] = x;
            self.prev[x as usize] = last;
            self.lasts[at] = x;
        }
    }

    /// Takes the first number off the list; `None` exactly where it is empty.
    pub fn pop_front(&mut self, list: u32) -> Option<u32>
        requires { list < length self.old.lists }
        ensures first { result ≡ number_at self.old.lists list 0 }
        ensures popped { self.new ≡ with_list self.old list (drop 1 (list_at self.old.lists list)) }
        ensures apart { AreApart self.new }
    {
        let at = list as usize;
        let len = self.lens[at];
        if len == 0 {
            return None;
        }
        let x = self.firsts[at];
        self.firsts[at] = self.next[x as usize];
        self.lens[at] = len - 1;
        Some(x)
    }

    /// Takes `x` off the list that it is on; the numbers round it close up.
    pub fn unlink(&mut self, x: u32)
        requires { IsOnOne self.old.lists x }
        ensures closed { self.new
            ≡ record self.old { lists = map (without x) self.old.lists } }
        ensures apart { AreApart self.new }
    {
        let list = self.owner[x as usize];
        let at = list as usize;
        let len = self.lens[at];
        self.lens[at] = len - 1;
        if self.firsts[at] == x {
            self.firsts[at] = self.next[x as usize];
        } else if self.lasts[at] == x {
            self.lasts[at] = self.prev[x as usize];
        } else {
            let behind = self.next[x as usize];
            let before = self.prev[x as usize];
            self.next[before as usize] = behind;
            self.prev[behind as usize] = before;
        }
    }
}
