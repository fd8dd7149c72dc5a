ghost use Rattle.std.specs.Prelude.{◌≡◌, ◌↔◌, ℕ, ◌+◌, ◌-◌, ◌^◌, ◌<◌, ◌≤◌, ◌++◌, true, false, max, length, replicate, Some, None, IfOk, OnOk, OnErr, IfSome, IfNone, slice_get, slice_set};
ghost use Rattle.mm_bits.specs.{have_bit, put_at, IsLowestFrom};
ghost use Rattle.mm_slots.specs.Slots.{SlotsOf, free_count, IsLowest};
ghost use Rattle.mm_slots.specs.Kept.{is_free};

use mm_bits::BitSet;
use mm_types::{NoMemory, Slot};
use std::alloc::Global;
use std::marker::Model;

/// The slots of a paging file, each free or taken.
///
/// Contracts see whether each slot is free, `free`, and how many slots can be added, `spare`.
#[derive(Drop)]
pub struct Slots {
    /// The free slots that were taken before.
    back: BitSet,
    /// No slot from this one on was ever taken.
    fresh: u32,
    slots: u32,
    free: u32,
    spare: u32,
}

impl Model for Slots {
    ghost use Rattle.mm_bits.specs.{have_bit};
    ghost use Rattle.mm_slots.specs.Slots.{SlotsOf};
    ghost use Rattle.mm_slots.specs.Kept.{is_free, flags, AreSlots};

    ghost Value = { SlotsOf };

    ghost view = { λ s. record {
      free = flags (is_free (have_bit s.back.words) s.fresh) s.slots;
      spare = s.spare;
    } };

    ghost invariant = { λ s. AreSlots (have_bit s.back.words) s.back.room s.fresh
        s.slots s.free s.spare };
}

/// Takes the lowest free slot, of which there is one.
fn take_lowest(back: &mut BitSet, fresh: &mut u32) -> u32
    requires some { (i : ℕ) × (is_free (have_bit back.old.words) fresh.old i ≡ true)
        × (i + 1 < 2 ^ 32) }
    requires low { (i : ℕ) → fresh.old ≤ i → have_bit back.old.words i ≡ false }
    ensures lowest { IsLowestFrom (is_free (have_bit back.old.words) fresh.old) 0 result }
    ensures taken { (i : ℕ) → is_free (have_bit back.new.words) fresh.new i
        ≡ put_at false result (is_free (have_bit back.old.words) fresh.old) i }
    ensures low { (i : ℕ) → fresh.new ≤ i → have_bit back.new.words i ≡ false }
    ensures front { fresh.new ≤ max fresh.old (result + 1) }
    ensures room { back.new.room ≡ back.old.room }
{
    match back.next(0) {
        Some(slot) => {
            back.remove(slot);
            slot
        }
        None => {
            let slot = *fresh;
            *fresh = slot + 1;
            slot
        }
    }
}

impl Slots {
    /// `n` slots, all free.
    pub fn new(alloc: Global, n: u32) -> Result<Slots, NoMemory>
        ensures { IfOk result (λ s. s.free ≡ replicate n true) }
    {
        Ok(Slots {
            back: BitSet::new(alloc, n)?,
            fresh: 0,
            slots: n,
            free: n,
            spare: 0,
        })
    }

    /// How many slots there are.
    pub fn len(&self) -> u32
        ensures value { result ≡ length self.now.free }
        ensures fits { length self.now.free < 2 ^ 32 }
    {
        self.slots
    }

    /// How many slots are free.
    pub fn free_count(&self) -> u32
        ensures { result ≡ free_count self.now.free }
    {
        self.free
    }

    /// Takes the lowest free slot; `None` exactly where none is free.
    pub fn take(&mut self) -> Option<Slot>
        ensures lowest { IfSome result (λ s. IsLowest self.old.free s.0) }
        ensures taken { IfSome result (λ s. self.new
            ≡ record self.old { free = slice_set self.old.free s.0 false }) }
        ensures exact { (result ≡ None) ↔ (free_count self.old.free ≡ 0) }
        ensures none { IfNone result (self.new ≡ self.old) }
    {
        if self.free == 0 {
            return None;
        }
        let slot = take_lowest(&mut self.back, &mut self.fresh);
        self.free -= 1;
        Some(Slot(slot))
    }

    /// Gives back a slot that was taken.
    pub fn put_back(&mut self, s: Slot)
        requires { slice_get self.old.free s.0 ≡ Some false }
        ensures { self.new ≡ record self.old { free = slice_set self.old.free s.0 true } }
    {
        self.back.insert(s.0);
        self.free += 1;
    }

    /// Takes the memory for `n` further slots: the spare is at least `n` then.
    pub fn reserve(&mut self, n: u32) -> Result<(), NoMemory>
        ensures slots { self.new.free ≡ self.old.free }
        ensures ok { OnOk result (n ≤ self.new.spare) }
        ensures kept { self.old.spare ≤ self.new.spare }
        ensures err { OnErr result (self.new ≡ self.old) }
    {
        if n <= self.spare {
            return Ok(());
        }
        self.back.reserve(self.slots.saturating_add(n))?;
        self.spare = n;
        Ok(())
    }

    /// `n` free slots after the present ones, with memory that was reserved.
    pub fn grow(&mut self, n: u32)
        requires spare { n ≤ self.old.spare }
        requires small { length self.old.free + n < 2 ^ 32 }
        ensures { self.new
            ≡ record { free = self.old.free ++ replicate n true; spare = self.old.spare - n } }
    {
        self.slots += n;
        self.free += n;
        self.spare -= n;
    }
}
