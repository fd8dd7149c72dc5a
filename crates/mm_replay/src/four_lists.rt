ghost use Rattle.std.specs.Prelude.{◌≡◌, ℕ, ◌+◌, ◌++◌, ◌<◌, ◌∷◌, [], IfOk, Some, drop, length, map, replicate};
ghost use Rattle.mm_page_lists.specs.{IsOnOne, IsOnNone, list_at, number_at, with_list, without};
ghost use Rattle.mm_replay.specs.Listed.{AreLists, no_lists};

use mm_page_lists::Lists;
use mm_types::NoMemory;
use std::alloc::Global;
use std::marker::Model;

/// The lists by their numbers.
pub(crate) const ZEROED: u32 = 0;

pub(crate) const FREE: u32 = 1;

pub(crate) const STANDBY: u32 = 2;

pub(crate) const MODIFIED: u32 = 3;

/// A list of page frames that hold no valid page and have no request.
#[derive(Clone, Copy, PartialEq, Eq)]
pub enum FrameList {
    /// Frames of zeros, for pages of zeros.
    Zeroed,
    /// Frames that hold nothing.
    Free,
    /// Frames of pages that are as on their device, to be used again first.
    Standby,
    /// Frames of changed pages, to be written first.
    Modified,
}

/// So many lists over the frames; before the machine is known over none, and without memory.
#[derive(Drop)]
pub(crate) struct FrameLists<const COUNT: u32> {
    lists: Option<Lists>,
}

impl<const COUNT: u32> Model for FrameLists<COUNT> {
    ghost use Rattle.mm_page_lists.specs.{ListsOf};
    ghost use Rattle.mm_replay.specs.Listed.{AreLists, lists_or_empty};

    ghost Value = { ListsOf };

    ghost view = { λ s. lists_or_empty COUNT s.lists };

    ghost invariant = { λ s. AreLists COUNT (lists_or_empty COUNT s.lists) };
}

#[tactic(auto, using(crate::proofs::Fresh::fresh))]
impl<const COUNT: u32> FrameLists<COUNT> {
    pub(crate) fn none() -> FrameLists<COUNT>
        ensures none { result ≡ no_lists COUNT }
        ensures kept { AreLists COUNT result }
    {
        FrameLists { lists: None }
    }

    /// Empty lists over the numbers below `n`.
    pub(crate) fn new(alloc: Global, n: u32) -> Result<FrameLists<COUNT>, NoMemory>
        ensures empty { IfOk result (λ v. v ≡ record { numbers = n; lists = replicate COUNT [] }) }
        ensures kept { IfOk result (AreLists COUNT) }
    {
        let lists = Lists::new(alloc, n, COUNT)?;
        Ok(FrameLists { lists: Some(lists) })
    }

    /// The first number on the list, `None` exactly where it is empty.
    pub(crate) fn front(&self, list: u32) -> Option<u32>
        requires { list < COUNT }
        ensures { result ≡ number_at self.now.lists list 0 }
    {
        match &self.lists {
            Some(lists) => lists.front(list),
            None => None,
        }
    }

    /// How many numbers are on the list.
    pub(crate) fn len(&self, list: u32) -> u32
        requires { list < COUNT }
        ensures { result ≡ length (list_at self.now.lists list) }
    {
        match &self.lists {
            Some(lists) => lists.len(list),
            None => 0,
        }
    }

    /// The number after `x` on its list, `None` exactly where `x` is the last.
    pub(crate) fn next(&self, x: u32) -> Option<u32>
        requires { IsOnOne self.now.lists x }
        ensures { (j k : ℕ) → number_at self.now.lists j k ≡ Some x
            → result ≡ number_at self.now.lists j (k + 1) }
    {
        match &self.lists {
            Some(lists) => lists.next(x),
            None => None,
        }
    }

    /// Takes the first number, if any, off the list.
    pub(crate) fn pop_front(&mut self, list: u32)
        requires { list < COUNT }
        ensures popped { self.new ≡ with_list self.old list (drop 1 (list_at self.old.lists list)) }
        ensures kept { AreLists COUNT self.new }
    {
        if let Some(lists) = &mut self.lists {
            let _first = lists.pop_front(list);
        }
    }

    /// Takes `x` off the list that it is on.
    pub(crate) fn unlink(&mut self, x: u32)
        requires { IsOnOne self.old.lists x }
        ensures closed { self.new ≡ record self.old { lists = map (without x) self.old.lists } }
        ensures kept { AreLists COUNT self.new }
    {
        if let Some(lists) = &mut self.lists {
            lists.unlink(x);
        }
    }

    /// Puts `x`, which is on no list, after the last number of the list.
    pub(crate) fn push_back(&mut self, list: u32, x: u32)
        requires inside { list < COUNT }
        requires below { x < self.old.numbers }
        requires on_none { IsOnNone self.old.lists x }
        ensures pushed { self.new
            ≡ with_list self.old list (list_at self.old.lists list ++ x ∷ []) }
        ensures kept { AreLists COUNT self.new }
    {
        if let Some(lists) = &mut self.lists {
            lists.push_back(list, x);
        }
    }
}
