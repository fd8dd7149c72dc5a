ghost use Rattle.std.specs.Prelude.{◌≡◌, ℕ, Some, None, IsSome, MatchOption, OnOk, OnErr};
ghost use Rattle.mm_replay.specs.Grids.{in_leaves};
ghost use Rattle.mm_replay.specs.Pairs.{near_number, near_part, one_number, Writes};

use crate::grids::{Budget, Grid};
use mm_types::NoMemory;
use std::alloc::Global;
use std::collections::BTreeMap;

/// Values by two numbers each: a process and its page, or an area and an index there. Where the
/// first is below 256 and the second is one that a user page has, they stand in leaves, as far as
/// there may be leaves. All others stand in an ordered map.
#[derive(Drop)]
pub(crate) struct Pairs<T> {
    near: Grid<T>,
    far: BTreeMap<u64, T>,
    budget: Budget,
}

impl<T: Copy + Drop> Pairs<T> {
    ghost use Rattle.mm_replay.specs.Pairs.{near_of, found_pair, Keeps};

    pub(crate) fn new(alloc: Global) -> Pairs<T>
        ensures { (a b : ℕ) → found_pair result a b ≡ None }
    {
        Pairs {
            near: Grid::new(alloc),
            far: BTreeMap::new(alloc),
            budget: Budget {
                values: 0,
                leaves: 0,
            },
        }
    }

    /// The value that two numbers have in a leaf, if any.
    fn near_value(&self, a: u32, b: u32) -> Option<T>
        ensures { result ≡ near_of self.now a b }
    {
        match near_number(a, b) {
            Some(n) => self.near.get(n),
            None => None,
        }
    }

    /// The value of two numbers, if any.
    pub(crate) fn get(&self, a: u32, b: u32) -> Option<T>
        ensures { result ≡ found_pair self.now a b }
    {
        match self.near_value(a, b) {
            Some(value) => Some(value),
            None => self.far.get(&one_number(a, b)).copied(),
        }
    }

    /// Two numbers have the value from now on.
    pub(crate) fn insert(&mut self, a: u32, b: u32, value: T) -> Result<(), NoMemory>
        ensures ok { OnOk result
            (Writes (found_pair self.old) (found_pair self.new) a b (Some value)) }
        ensures err { OnErr result (Keeps (found_pair self.old) (found_pair self.new)) }
    {
        match leaf_number(&self.near, &mut self.budget, a, b) {
            Some(n) => self.near.set(n, value),
            None => {
                self.far.insert(one_number(a, b), value)?;
                Ok(())
            }
        }
    }

    /// Two numbers that have a value have this one from now on.
    pub(crate) fn change(&mut self, a: u32, b: u32, value: T)
        requires { IsSome (found_pair self.old a b) }
        ensures { Writes (found_pair self.old) (found_pair self.new) a b (Some value) }
    {
        match filled_number(&self.near, a, b) {
            Some(n) => self.near.put(n as usize, Some(value)),
            None => {
                let Some(place) = self.far.get_mut(&one_number(a, b)) else {
                    unreachable!()
                };
                *place = value;
            }
        }
    }

    /// Two numbers have no value from now on. Answers the one that they had, if any.
    pub(crate) fn remove(&mut self, a: u32, b: u32) -> Option<T>
        ensures value { result ≡ found_pair self.old a b }
        ensures removed { Writes (found_pair self.old) (found_pair self.new) a b None }
    {
        let far = self.far.remove(&one_number(a, b));
        match remove_near(&mut self.near, a, b) {
            Some(value) => Some(value),
            None => far,
        }
    }
}

/// Two numbers as one, where a value of theirs comes into a leaf.
#[tactic(auto, using(crate::proofs::NearAndFar::parts))]
fn leaf_number<T: Copy + Drop>(near: &Grid<T>, budget: &mut Budget, a: u32, b: u32) -> Option<u32>
    ensures { MatchOption result (near_part (in_leaves near.now.leaves.items) a b ≡ None)
        (λ n. near_number a b ≡ Some n) }
{
    let n = near_number(a, b)?;
    budget.values = budget.values.saturating_add(1);
    if near.has_place(n as usize) || budget.take() {
        Some(n)
    } else {
        None
    }
}

/// Two numbers as one, where they have a value in a leaf.
#[tactic(auto, using(crate::proofs::NearAndFar::parts))]
fn filled_number<T: Copy + Drop>(near: &Grid<T>, a: u32, b: u32) -> Option<u32>
    ensures { MatchOption result (near_part (in_leaves near.now.leaves.items) a b ≡ None)
        (λ n. (near_number a b ≡ Some n) × IsSome (in_leaves near.now.leaves.items n)) }
{
    let n = near_number(a, b)?;
    if near.get(n).is_some() { Some(n) } else { None }
}

/// Takes the value of two numbers out of its leaf, if it is in one.
fn remove_near<T: Copy + Drop>(near: &mut Grid<T>, a: u32, b: u32) -> Option<T>
    ensures value { result ≡ near_part (in_leaves near.old.leaves.items) a b }
    ensures removed { Writes (near_part (in_leaves near.old.leaves.items))
        (near_part (in_leaves near.new.leaves.items)) a b None }
{
    match near_number(a, b) {
        Some(n) => near.remove(n),
        None => None,
    }
}

/// Two numbers as one, whatever they are.
fn one_number(a: u32, b: u32) -> u64
    ensures { result ≡ one_number a b }
{
    u64::from(a) * 0x1_0000_0000 + u64::from(b)
}

/// Two small numbers as one.
fn near_number(a: u32, b: u32) -> Option<u32>
    ensures { result ≡ near_number a b }
{
    if a < 256 && b < 0x8_0000 {
        Some(a * 0x8_0000 + b)
    } else {
        None
    }
}
