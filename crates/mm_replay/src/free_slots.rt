ghost use Rattle.std.specs.Prelude.{◌≡◌, ◌+◌, ◌-◌, ◌<◌, ◌≤◌, ◌^◌, true, false, [], ◌++◌, length, replicate, OnOk, OnErr, IfOk, Some, slice_get, slice_index_or, slice_set};
ghost use Rattle.mm_move_rules.specs.{is_lowest, freed};
ghost use Rattle.mm_slots.specs.{free_count};
ghost use Rattle.mm_replay.specs.Slotted.{no_slots, IsLowestIn, without_kept_slot};

use crate::values::{flag_at, flags, put, set_at};
use mm_slots::Slots;
use mm_types::{NoMemory, Slot};
use std::alloc::Global;
use std::marker::Model;

/// Slots in a tree; before the machine is known none, and without memory.
#[derive(Drop)]
pub(crate) struct SlotTree {
    slots: Option<Slots>,
}

impl Model for SlotTree {
    ghost use Rattle.mm_slots.specs.{SlotsOf};
    ghost use Rattle.mm_replay.specs.Slotted.{slots_of};

    ghost Value = { SlotsOf };

    ghost view = { λ s. slots_of s.slots };
}

#[tactic(auto, using(crate::proofs::Slotting::slotting))]
impl SlotTree {
    fn none() -> SlotTree
        ensures { result ≡ no_slots }
    {
        SlotTree { slots: None }
    }

    /// `n` slots, all free.
    fn new(alloc: Global, n: u32) -> Result<SlotTree, NoMemory>
        ensures { IfOk result (λ v. v.free ≡ replicate n true) }
    {
        let slots = Slots::new(alloc, n)?;
        Ok(SlotTree { slots: Some(slots) })
    }

    /// How many slots are free: not all that can be counted.
    fn free_count(&self) -> u32
        ensures value { result ≡ free_count self.now.free }
        ensures few { length self.now.free < 2 ^ 32 }
    {
        match &self.slots {
            Some(slots) => {
                let _all = slots.len();
                slots.free_count()
            }
            None => 0,
        }
    }

    /// Takes the lowest free slot, if any is free.
    fn take(&mut self) -> Option<u32>
        ensures lowest { IsLowestIn self.old.free result }
        ensures taken { self.new.free ≡ without_kept_slot self.old.free result }
    {
        let slot = self.slots.as_mut()?.take()?;
        Some(slot.0)
    }

    /// Gives back a slot that was taken.
    fn put_back(&mut self, slot: u32)
        requires { slice_get self.old.free slot ≡ Some false }
        ensures { self.new.free ≡ slice_set self.old.free slot true }
    {
        if let Some(slots) = &mut self.slots {
            slots.put_back(Slot(slot));
        }
    }

    /// Takes the memory for `n` further slots.
    fn reserve(&mut self, alloc: Global, n: u32) -> Result<(), NoMemory>
        ensures same { self.new.free ≡ self.old.free }
        ensures ok { OnOk result (n ≤ self.new.spare) }
    {
        match &mut self.slots {
            Some(slots) => slots.reserve(n),
            None => {
                let mut slots = Slots::new(alloc, 0)?;
                slots.reserve(n)?;
                put(&mut self.slots, Some(slots));
                Ok(())
            }
        }
    }

    /// `n` free slots after the present ones, with memory that was reserved.
    fn grow(&mut self, n: u32)
        requires spare { n ≤ self.old.spare }
        requires small { length self.old.free + n < 2 ^ 32 }
        ensures { self.new.free ≡ self.old.free ++ replicate n true }
    {
        if let Some(slots) = &mut self.slots {
            slots.grow(n);
        }
    }
}

/// For each slot whether it is free.
#[derive(Drop)]
pub(crate) struct SlotMap {
    free: Vec<bool>,
    /// The lowest free slot.
    lowest: Option<u32>,
    /// The slots, with the lowest free one taken.
    others: SlotTree,
}

impl Model for SlotMap {
    ghost use Rattle.std.specs.Prelude.{List, Bool};
    ghost use Rattle.mm_replay.specs.Slotted.{AreApartFrom};

    ghost Value = { List Bool };

    ghost view = { λ s. s.free.items };

    ghost invariant = { λ s. AreApartFrom s.free.items s.lowest s.others.free };
}

/// Whether a slot is there, and is not free.
fn is_taken(free: &[bool], slot: u32) -> bool
    ensures taken { result ≡ true → slice_get free.now slot ≡ Some false }
    ensures free { result ≡ false → slice_set free.now slot true ≡ free.now }
{
    matches!(free.get(slot as usize), Some(free) if !*free)
}

/// So many flags more that are set.
fn extend(flags: &mut Vec<bool>, count: u32) -> Result<(), NoMemory>
    ensures ok { OnOk result (flags.new.items ≡ flags.old.items ++ replicate count true) }
    ensures err { OnErr result (flags.new.items ≡ flags.old.items) }
{
    let len = flags.len();
    flags.resize(len + count as usize, true)?;
    Ok(())
}

#[tactic(auto, using(crate::proofs::Slotting::slotting))]
impl SlotMap {
    /// All slots are free.
    pub(crate) fn new(alloc: Global, slots: u32) -> Result<SlotMap, NoMemory>
        ensures { IfOk result (λ s. s ≡ replicate slots true) }
    {
        let free = flags(alloc, slots, true)?;
        let mut others = SlotTree::new(alloc, slots)?;
        let lowest = others.take();
        Ok(SlotMap {
            free,
            lowest,
            others,
        })
    }

    pub(crate) fn none(alloc: Global) -> SlotMap
        ensures { result ≡ [] }
    {
        SlotMap {
            free: Vec::new(alloc),
            lowest: None,
            others: SlotTree::none(),
        }
    }

    /// Whether a slot is the lowest free one.
    pub(crate) fn is_lowest(&self, slot: u32) -> bool
        ensures { result ≡ is_lowest slot self.now }
    {
        self.lowest == Some(slot)
    }

    /// Whether a slot is there and free.
    pub(crate) fn is_free(&self, slot: u32) -> bool
        ensures { result ≡ slice_index_or self.now slot false }
    {
        flag_at(&self.free, slot)
    }

    /// How many slots are free.
    pub(crate) fn count(&self) -> u32
        ensures { result ≡ free_count self.now }
    {
        let others = self.others.free_count();
        match self.lowest {
            Some(_) => others + 1,
            None => others,
        }
    }

    /// A slot, if any, is free again.
    pub(crate) fn put_back(&mut self, slot: Option<u32>)
        ensures { self.new ≡ freed self.old slot }
    {
        let Some(slot) = slot else {
            return;
        };
        if is_taken(&self.free, slot) {
            set_at(&mut self.free, slot, true);
            match self.lowest {
                Some(lowest) if lowest < slot => self.others.put_back(slot),
                Some(lowest) => {
                    self.others.put_back(lowest);
                    self.lowest = Some(slot);
                }
                None => self.lowest = Some(slot),
            }
        }
    }

    /// The lowest slot is not free from now on.
    pub(crate) fn take(&mut self, slot: u32)
        requires { is_lowest slot self.old ≡ true }
        ensures { self.new ≡ slice_set self.old slot false }
    {
        set_at(&mut self.free, slot, false);
        self.lowest = self.others.take();
    }

    /// So many free slots more.
    pub(crate) fn grow(&mut self, alloc: Global, count: u32) -> Result<(), NoMemory>
        requires { length self.old + count < 2 ^ 32 }
        ensures ok { OnOk result (self.new ≡ self.old ++ replicate count true) }
        ensures err { OnErr result (self.new ≡ self.old) }
    {
        self.others.reserve(alloc, count)?;
        extend(&mut self.free, count)?;
        self.others.grow(count);
        match self.lowest {
            Some(_) => {}
            None => self.lowest = self.others.take(),
        }
        Ok(())
    }
}
