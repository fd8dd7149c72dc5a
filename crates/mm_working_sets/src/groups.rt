ghost use Rattle.std.specs.Prelude.{◌≡◌, ◌^◌, ◌<◌, ◌≤◌, ℕ, true, false, length, Some, None, IfOk, IsSome, is_some};
ghost use Rattle.std.specs.FinMap as finite;
ghost use Rattle.mm_working_sets.specs.Ages.{AgesBy, older, GoesBefore};
ghost use Rattle.mm_working_sets.specs.InOrder.{IsNextFrom};
ghost use Rattle.mm_working_sets.specs.Ring.{turned, next_newest};
ghost use Rattle.mm_working_sets.specs.AgeGroups.{is_in, group_in, age_in, ages_by_group, AreGrouped, IsGrouped, NoneOlder, PutsPage, Joins, GoesFirst, IsBelow};

use crate::page_sets::PageSet;
use mm_types::{NoMemory, Vpn};
use std::alloc::Global;

/// How many ages there are, and as many groups.
const AGES: u8 = 8;

/// The group that takes no turns, with the pages of the greatest age.
const OLDEST: usize = 7;

/// The set of all pages, behind those of the groups.
const ALL: usize = 8;

const SETS: usize = 9;

/// The pages of a working set by their ages, of which each group of pages has one.
#[derive(Drop)]
pub struct AgeGroups {
    /// The pages of each of the eight groups, then all pages; no set at all without room.
    sets: Vec<PageSet>,
    /// The group of the pages of age 0.
    newest: u8,
    /// No page is older than this.
    most: u8,
    ghost kept: { IsGrouped newest sets.items },
    ghost young: { NoneOlder most (ages_by_group newest sets.items) },
}

/// Puts a page into a set.
fn put(sets: &mut Vec<PageSet>, set: usize, page: u32)
    requires there { set < length sets.old.items }
    requires low { page < 2 ^ 19 }
    ensures { PutsPage true sets.old.items sets.new.items set page }
{
    sets[set].insert(page);
}

/// Takes a page out of a set.
fn take(sets: &mut Vec<PageSet>, set: usize, page: u32)
    requires { is_in sets.old.items set page ≡ true }
    ensures { PutsPage false sets.old.items sets.new.items set page }
{
    sets[set].remove(page);
}

/// The group of a page that has one; `guess` is tried first.
fn group_of(sets: &Vec<PageSet>, guess: u8, page: u32) -> u8
    requires grouped { AreGrouped sets.now.items (group_in sets.now.items) }
    requires whole { length sets.now.items ≡ 9 }
    requires held { IsSome (group_in sets.now.items page) }
    requires known { guess ≤ 7 }
    ensures { group_in sets.now.items page ≡ Some result }
{
    if sets[guess as usize].has(page) {
        return guess;
    }
    let mut group = 0;
    while group + 1 < AGES {
        if sets[group as usize].has(page) {
            return group;
        }
        group += 1;
    }
    group
}

/// The pages of a group join those of the greatest age.
fn join(sets: &mut Vec<PageSet>, group: usize)
    requires whole { 0 < length sets.old.items → length sets.old.items ≡ 9 }
    requires turning { group < 7 }
    ensures { Joins sets.old.items sets.new.items group (2 ^ 19) }
{
    if sets.len() == 0 {
        return;
    }
    let mut from = 0;
    while let Some(page) = sets[group].next(from) {
        take(sets, group, page.0);
        put(sets, OLDEST, page.0);
        from = page.0 + 1;
    }
}

/// The age of a group while another is the newest, and as well the group of an age.
fn turned(newest: u8, n: u8) -> u8
    requires turning { newest < 7 }
    requires known { n ≤ 7 }
    ensures is { result ≡ turned newest n }
    ensures known { result ≤ 7 }
{
    let last = AGES - 1;
    if n <= newest {
        newest - n
    } else if n < last {
        newest + last - n
    } else {
        n
    }
}

/// The group that becomes the newest after another.
fn next_newest(newest: u8) -> u8
    requires { newest < 7 }
    ensures is { result ≡ next_newest newest }
    ensures turning { result < 7 }
{
    if newest + 2 < AGES { newest + 1 } else { 0 }
}

/// The page that goes first of those whose age is below `limit`: the oldest, and of these the
/// lowest.
fn oldest_below(sets: &Vec<PageSet>, newest: u8, limit: u8) -> Option<Vpn>
    requires grouped { AreGrouped sets.now.items (group_in sets.now.items) }
    requires whole { length sets.now.items ≡ 9 }
    requires turning { newest < 7 }
    requires young { limit ≤ 8 }
    ensures { GoesFirst (age_in newest sets.now.items) (IsBelow limit) result }
{
    let mut age = limit;
    while age > 0 {
        age -= 1;
        if let Some(page) = sets[turned(newest, age) as usize].next(0) {
            return Some(page);
        }
    }
    None
}

impl AgeGroups {
    ghost use Rattle.mm_working_sets.specs.Held.{ages_of, age_of, has_age_room};

    /// No page, and no room for any.
    pub fn unreserved(alloc: Global) -> AgeGroups
        ensures { ages_of result ≡ finite.empty }
    {
        AgeGroups {
            sets: Vec::new(alloc),
            newest: 0,
            most: 0,
        }
    }

    /// No page yet, and room for all.
    pub fn new(alloc: Global) -> Result<AgeGroups, NoMemory>
        ensures ages { IfOk result (λ g. ages_of g ≡ finite.empty) }
        ensures room { IfOk result (λ g. has_age_room g ≡ true) }
    {
        let mut sets = Vec::with_capacity(alloc, SETS)?;
        for _ in 0..SETS {
            sets.push_reserved(PageSet::new(alloc)?);
        }
        Ok(AgeGroups {
            sets,
            newest: 0,
            most: 0,
        })
    }

    /// A page comes, with age 0.
    pub fn insert(&mut self, page: u32)
        requires room { has_age_room self.old ≡ true }
        requires user { page < 2 ^ 19 }
        requires absent { finite.get (ages_of self.old) page ≡ None }
        ensures ages { ages_of self.new ≡ finite.insert (ages_of self.old) page 0 }
        ensures room { has_age_room self.new ≡ has_age_room self.old }
    {
        put(&mut self.sets, self.newest as usize, page);
        put(&mut self.sets, ALL, page);
    }

    /// A page goes. Its age may be this one.
    pub fn remove(&mut self, page: u32, age: u8)
        requires held { IsSome (finite.get (ages_of self.old) page) }
        requires known { age ≤ 7 }
        ensures ages { ages_of self.new ≡ finite.remove (ages_of self.old) page }
        ensures room { has_age_room self.new ≡ has_age_room self.old }
    {
        let group = group_of(&self.sets, turned(self.newest, age), page);
        take(&mut self.sets, group as usize, page);
        take(&mut self.sets, ALL, page);
    }

    /// A page has age 0 again. Its age may have been this one.
    pub fn renew(&mut self, page: u32, age: u8)
        requires held { IsSome (finite.get (ages_of self.old) page) }
        requires known { age ≤ 7 }
        ensures ages { ages_of self.new ≡ finite.insert (ages_of self.old) page 0 }
        ensures room { has_age_room self.new ≡ has_age_room self.old }
    {
        let group = group_of(&self.sets, turned(self.newest, age), page);
        take(&mut self.sets, group as usize, page);
        put(&mut self.sets, self.newest as usize, page);
    }

    /// Each page's age is one more, up to 7.
    pub fn age_all(&mut self)
        ensures ages { AgesBy older (ages_of self.old) (ages_of self.new) }
        ensures room { has_age_room self.new ≡ has_age_room self.old }
    {
        // the group of age 6 joins that of age 7, and is the one of age 0 from now on
        let newest = next_newest(self.newest);
        join(&mut self.sets, newest as usize);
        self.newest = newest;
        self.most = (self.most + 1).min(AGES - 1);
    }

    /// The page that goes first.
    pub fn oldest(&self) -> Option<Vpn>
        ensures { GoesFirst (age_of self.now) (IsBelow 8) result }
    {
        if self.sets.len() == 0 {
            return None;
        }
        oldest_below(&self.sets, self.newest, self.most + 1)
    }

    /// The page that goes next after one of these.
    pub fn next_after(&self, page: u32) -> Option<Vpn>
        requires { IsSome (finite.get (ages_of self.now) page) }
        ensures { (a : ℕ) → age_of self.now page ≡ Some a →
            GoesFirst (age_of self.now) (GoesBefore page a) result }
    {
        // who looks for the next page looks for the oldest ones, most of which have age 7
        let group = group_of(&self.sets, AGES - 1, page);
        if let Some(next) = self.sets[group as usize].next(page + 1) {
            return Some(next);
        }
        oldest_below(&self.sets, self.newest, turned(self.newest, group))
    }

    /// The lowest page at `from` or above.
    pub fn next_from(&self, from: u32) -> Option<Vpn>
        ensures { IsNextFrom (λ v. is_some (finite.get (ages_of self.now) v)) from result }
    {
        if self.sets.len() == 0 {
            return None;
        }
        self.sets[ALL].next(from)
    }
}
