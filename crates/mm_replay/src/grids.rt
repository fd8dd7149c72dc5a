ghost use Rattle.std.specs.Prelude.{◌≡◌, ◌<◌, ◌≤◌, ◌^◌, ◌↔◌, ◌+◌, ◌/◌, ℕ, true, false, Some, None, IsTrue, OnOk, OnErr, slice_index_or, vec_len};
ghost use Rattle.mm_replay.specs.Grids.{in_leaves, HasPlace, Sets, Same};

use mm_types::NoMemory;
use std::alloc::Global;

/// For how many numbers a leaf has places.
const LEAF: usize = 256;

/// How many leaves a table may have: 64, and one more for each 64 values that were written. So
/// values whose numbers lie far apart take no leaf each.
#[derive(Drop)]
pub(crate) struct Budget {
    pub(crate) values: u32,
    pub(crate) leaves: u32,
    ghost within: { leaves ≤ 64 + values / 64 },
}

impl Budget {
    /// Takes a leaf more, if there may be one.
    pub(crate) fn take(&mut self) -> bool
        ensures taken { result ≡ true → self.new.leaves ≡ self.old.leaves + 1 }
        ensures same { result ≡ false → self.new ≡ self.old }
    {
        if self.leaves >= 64 + self.values / 64 {
            return false;
        }
        self.leaves += 1;
        true
    }
}

/// Values by a number, those of 256 numbers in a leaf; a leaf takes memory from its first value on.
#[derive(Drop)]
pub(crate) struct Grid<T> {
    alloc: Global,
    leaves: Vec<Vec<Option<T>>>,
}

impl<T: Copy + Drop> Grid<T> {
    pub(crate) fn new(alloc: Global) -> Grid<T>
        ensures { (n : ℕ) → in_leaves result.leaves.items n ≡ None }
    {
        Grid {
            alloc,
            leaves: Vec::new(alloc),
        }
    }

    /// Whether the number has a place. Where it has none it has no value.
    pub(crate) fn has_place(&self, n: usize) -> bool
        ensures { IsTrue result ↔ HasPlace self.now.leaves.items n }
    {
        let leaf = n / LEAF;
        let count = self.leaves.len();
        if leaf >= count {
            return false;
        }
        n % LEAF < self.leaves[leaf].len()
    }

    /// The value of a number, if any.
    pub(crate) fn get(&self, n: u32) -> Option<T>
        ensures { result ≡ in_leaves self.now.leaves.items n }
    {
        let n = n as usize;
        if self.has_place(n) {
            self.leaves[n / LEAF][n % LEAF]
        } else {
            None
        }
    }

    /// Writes the value of a number that has a place.
    pub(crate) fn put(&mut self, n: usize, value: Option<T>)
        requires { HasPlace self.old.leaves.items n }
        ensures { Sets (in_leaves self.old.leaves.items) (in_leaves self.new.leaves.items) n value }
    {
        let leaf = &mut self.leaves[n / LEAF];
        leaf[n % LEAF] = value;
    }

    /// Makes a place for a number.
    fn make_place(&mut self, n: usize) -> Result<(), NoMemory>
        requires { n < 2 ^ 32 }
        ensures same { Same (in_leaves self.old.leaves.items) (in_leaves self.new.leaves.items) }
        ensures place { OnOk result (HasPlace self.new.leaves.items n) }
    {
        if self.has_place(n) {
            return Ok(());
        }
        add_leaves(self.alloc, &mut self.leaves, n / LEAF)?;
        let leaf = &mut self.leaves[n / LEAF];
        fill(leaf)
    }

    /// The number has the value from now on.
    pub(crate) fn set(&mut self, n: u32, value: T) -> Result<(), NoMemory>
        ensures ok { OnOk result (Sets (in_leaves self.old.leaves.items)
            (in_leaves self.new.leaves.items) n (Some value)) }
        ensures err { OnErr result
            (Same (in_leaves self.old.leaves.items) (in_leaves self.new.leaves.items)) }
    {
        self.make_place(n as usize)?;
        self.put(n as usize, Some(value));
        Ok(())
    }

    /// The number has no value from now on. Answers the one that it had, if any.
    pub(crate) fn remove(&mut self, n: u32) -> Option<T>
        ensures value { result ≡ in_leaves self.old.leaves.items n }
        ensures removed { Sets (in_leaves self.old.leaves.items) (in_leaves self.new.leaves.items) n
            None }
    {
        let value = self.get(n)?;
        self.put(n as usize, None);
        Some(value)
    }
}

/// Adds leaves without places up to this one.
fn add_leaves<T: Copy + Drop>(
    alloc: Global,
    leaves: &mut Vec<Vec<Option<T>>>,
    at: usize,
) -> Result<(), NoMemory>
    requires { at < 2 ^ 32 }
    ensures same { Same (in_leaves leaves.old.items) (in_leaves leaves.new.items) }
    ensures there { OnOk result (at < vec_len leaves.new) }
{
    for _ in leaves.len()..at + 1 {
        leaves.push(Vec::new(alloc))?;
    }
    Ok(())
}

/// Gives a leaf all its places; those that are new have no value.
fn fill<T: Copy + Drop>(leaf: &mut Vec<Option<T>>) -> Result<(), NoMemory>
    ensures same { (i : ℕ) → slice_index_or leaf.new.items i None ≡
        slice_index_or leaf.old.items i None }
    ensures whole { OnOk result (256 ≤ vec_len leaf.new) }
{
    if leaf.len() < LEAF {
        leaf.resize(LEAF, None)?;
    }
    Ok(())
}
