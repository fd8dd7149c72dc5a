ghost use Rattle.std.specs.Prelude.{◌≡◌, ◌==◌, map, replicate, slice_set, Option, Some, None};
ghost use Rattle.mm_types.specs.{Key};
ghost use Rattle.mm_world.specs.{Page, StackOf, numbered, unless, stack_by, set_stack, end_stacks, is_stack_at, threads};
ghost use Rattle.mm_store.specs.{StoreOf};
ghost use Rattle.mm_object_tables.specs.Fits.{FitsTables};
ghost use Rattle.mm_object_tables.specs.Stacks.{StandBelow, is_stack_of};

use crate::Tables;
use mm_types::{PAGE_SIZE, Pid, THREADS, Tid};
use std::marker::Model;

/// The stack of a thread. Its guard page stands above its lowest page, below the end of the user
/// pages.
#[derive(Clone, Copy, PartialEq, Eq)]
pub struct ThreadStack {
    /// The process in which it lies.
    pub pid: Pid,
    /// The number of its lowest page.
    pub base: u32,
    /// The number of its guard page.
    pub guard_page: u32,
}

impl Model for ThreadStack {
    ghost use Rattle.std.specs.Prelude.{◌<◌};
    ghost use Rattle.mm_types.specs.{end_of_user_pages};
    ghost use Rattle.mm_world.specs.{StackOf};

    ghost Value = { StackOf };

    ghost view = { λ s. record { pid = s.pid.0; base = s.base; guard_page = s.guard_page } };

    ghost invariant = { λ s. (s.base < s.guard_page) × (s.guard_page < end_of_user_pages) };

    ghost inverse = { λ s. record {
      pid = record { 0 = s.pid };
      base = s.base;
      guard_page = s.guard_page;
    } };
}

/// The stacks of the 256 threads.
///
/// Contracts see a list of 256, of each thread its stack or none.
#[derive(Drop)]
pub(crate) struct Stacks {
    places: [Option<ThreadStack>; THREADS],
    /// No thread from this number on has a stack.
    end: usize,
}

impl Model for Stacks {
    ghost use Rattle.mm_world.specs.{Numbered, StackOf};
    ghost use Rattle.mm_object_tables.specs.Stacks.{StandBelow};

    ghost Value = { Numbered StackOf };

    ghost view = { λ s. s.places };

    ghost invariant = { λ s. StandBelow s.end s.places };
}

/// The stack, unless its process is this one and its lowest page has this address.
fn unless_at(pid: Pid, addr: u32, stack: Option<ThreadStack>) -> Option<ThreadStack>
    ensures { result ≡ unless (is_stack_at pid.0 addr) stack }
{
    let kept = stack?;
    if kept.pid.0 == pid.0 && kept.base * PAGE_SIZE == addr {
        None
    } else {
        Some(kept)
    }
}

/// The stack, unless its process is this one.
fn unless_in(pid: Pid, stack: Option<ThreadStack>) -> Option<ThreadStack>
    ensures { result ≡ unless (λ (s : StackOf). s.pid == pid.0) stack }
{
    let kept = stack?;
    if kept.pid.0 == pid.0 {
        None
    } else {
        Some(kept)
    }
}

/// The stack, unless it is one of the process: the one at the address, where one is given, else
/// any.
fn unless_ended(pid: Pid, addr: Option<u32>, stack: Option<ThreadStack>) -> Option<ThreadStack>
    ensures { result ≡ unless (is_stack_of pid.0 addr) stack }
{
    match addr {
        Some(addr) => unless_at(pid, addr, stack),
        None => unless_in(pid, stack),
    }
}

/// No stack is one of those any more; the threads below `end` may have one.
fn drop_ended(places: &mut [Option<ThreadStack>; THREADS], end: usize, pid: Pid, addr: Option<u32>)
    requires below { StandBelow end places.old }
    ensures { places.new ≡ map (unless (is_stack_of pid.0 addr)) places.old }
{
    for tid in 0..end {
        places[tid] = unless_ended(pid, addr, places[tid]);
    }
}

impl Stacks {
    /// No thread has a stack.
    pub(crate) fn new() -> Stacks
        ensures { result ≡ replicate threads None }
    {
        Stacks {
            places: [None; THREADS],
            end: 0,
        }
    }

    /// The stack of the thread. None exactly where it has none.
    fn of(&self, tid: Tid) -> Option<ThreadStack>
        ensures { result ≡ numbered self.now tid.0 }
    {
        self.places[tid.0 as usize]
    }

    /// The thread has this stack from now on.
    fn put(&mut self, tid: Tid, stack: ThreadStack)
        ensures { self.new ≡ slice_set self.old tid.0 (Some stack) }
    {
        let place = tid.0 as usize;
        self.places[place] = Some(stack);
        self.end = self.end.max(place + 1);
    }

    /// The stack of the process whose region begins at the address ends, where one is given, else
    /// each of its stacks.
    fn let_go(&mut self, pid: Pid, addr: Option<u32>)
        ensures { self.new ≡ map (unless (is_stack_of pid.0 addr)) self.old }
    {
        drop_ended(&mut self.places, self.end, pid, addr);
    }
}

impl Tables {
    /// The stack of a thread. None exactly where it has none.
    pub fn stack_of(&self, tid: Tid) -> Option<ThreadStack>
        ensures { result ≡ stack_by self.now tid.0 }
    {
        self.stacks.of(tid)
    }

    /// A thread has this stack from now on, in the place of one that it had.
    pub fn set_stack(&mut self, tid: Tid, stack: ThreadStack)
        ensures set { self.new ≡ set_stack self.old tid.0 stack }
        ensures fits { (c : Key → Option Page) (s : StoreOf) → FitsTables self.old c s →
            FitsTables self.new c s }
    {
        self.stacks.put(tid, stack);
    }

    /// The region of the process that begins at the address is gone: where it was a thread's stack,
    /// the thread has none.
    pub(crate) fn end_stack_at(&mut self, pid: Pid, addr: u32)
        ensures ended { self.new ≡ end_stacks self.old (is_stack_at pid.0 addr) }
        ensures fits { (c : Key → Option Page) (s : StoreOf) → FitsTables self.old c s →
            FitsTables self.new c s }
    {
        self.stacks.let_go(pid, Some(addr));
    }

    /// No thread has a stack in this process any more.
    pub(crate) fn end_stacks_in(&mut self, pid: Pid)
        ensures ended { self.new ≡ end_stacks self.old (λ s. s.pid == pid.0) }
        ensures fits { (c : Key → Option Page) (s : StoreOf) → FitsTables self.old c s →
            FitsTables self.new c s }
    {
        self.stacks.let_go(pid, None);
    }
}
