ghost use Rattle.std.specs.Prelude.{◌≡◌, ◌==◌, ◌-◌, ◌^◌, ◌<◌, ◌≤◌, ℕ, true, false, min, Some, None, IfOk, OnOk, OnErr, MatchOption, IsSome, is_some, option_map};
ghost use Rattle.std.specs.Option.{ForSome};
ghost use Rattle.std.specs.FinMap as finite;
ghost use Rattle.mm_working_sets.specs.Ages.{EachAtOnePlace, AgesBy, older, IsOldestInSet, NoneFollowsInSet};
ghost use Rattle.mm_working_sets.specs.InOrder.{IsNextFrom};
ghost use Rattle.mm_working_sets.specs.Held.{last_round};

use crate::groups::AgeGroups;
use mm_types::{NoMemory, Vpn};
use slab::Slab;
use std::alloc::Global;
use std::marker::Model;

/// The greatest age.
const GREATEST_AGE: u64 = 7;

/// A process's working set: its valid pages, each at a place of its own and with an age.
///
/// A page's age is 0 when it becomes valid and at each use, and one more at each `age_all`, up to
/// 7. The room for all pages is taken at once, by `reserve` or when the set is made: no other call
/// takes memory.
#[derive(Drop)]
pub struct WorkingSet {
    alloc: Global,
    min: u32,
    max: u32,
    is_reserved: bool,
    /// The page at each place in use.
    places: Slab<u32>,
    pages: AgeGroups,
    /// How often all pages became older.
    rounds: u64,
    /// For each place the round in which its page was last used.
    used_in: Vec<u64>,
}

impl Model for WorkingSet {
    ghost use Rattle.mm_working_sets.specs.Ages.{WorkingSetOf, working_set_code};
    ghost use Rattle.mm_working_sets.specs.Held.{ages_of, has_age_room, places_of, room_of, IsWorkingSet};

    ghost Value = { WorkingSetOf };

    ghost coded = { working_set_code };

    ghost view = { λ s. record {
      min = s.min;
      max = s.max;
      reserved = s.is_reserved;
      ages = ages_of s.pages;
      places = places_of s.places;
    } };

    ghost invariant = { λ s. IsWorkingSet (room_of s.is_reserved s.max) s.places (ages_of s.pages)
        (has_age_room s.pages) s.rounds s.used_in.items };
}

/// What is kept for a place whose page is used in a round; in the last round it is an earlier one.
fn use_in(round: u64) -> u64
    ensures { result ≡ min round (last_round - 1) }
{
    round.min(u64::MAX - 1)
}

/// How many rounds ago another was, up to 7: the age of a page that was used in it.
fn age_since(rounds: u64, used_in: u64) -> u8
    ensures { result ≤ 7 }
{
    rounds.saturating_sub(used_in).min(GREATEST_AGE) as u8
}

impl WorkingSet {
    /// An empty set without room: it takes no memory, and no page until `reserve`.
    pub fn unreserved(alloc: Global, min: u32, max: u32) -> WorkingSet
        ensures { result ≡ record {
          min = min;
          max = max;
          reserved = false;
          ages = finite.empty;
          places = finite.empty;
        } }
    {
        WorkingSet {
            alloc,
            min,
            max,
            is_reserved: false,
            places: Slab::new(alloc),
            pages: AgeGroups::unreserved(alloc),
            rounds: 0,
            used_in: Vec::new(alloc),
        }
    }

    /// An empty set, with room for `max` pages. `NoMemory` also comes where places could not be
    /// numbered by a `u32`.
    pub fn new(alloc: Global, min: u32, max: u32) -> Result<WorkingSet, NoMemory>
        ensures { IfOk result (λ s. s ≡ record {
          min = min;
          max = max;
          reserved = true;
          ages = finite.empty;
          places = finite.empty;
        }) }
    {
        let mut set = WorkingSet::unreserved(alloc, min, max);
        set.reserve()?;
        Ok(set)
    }

    /// Takes the room for `max` pages, where the set has none yet. After `NoMemory`, which also
    /// comes where places could not be numbered by a `u32`, nothing has changed.
    pub fn reserve(&mut self) -> Result<(), NoMemory>
        ensures ok { OnOk result (self.new ≡ record self.old { reserved = true }) }
        ensures err { OnErr result (self.new ≡ self.old) }
    {
        if self.is_reserved {
            return Ok(());
        }
        let places = Slab::with_capacity(self.alloc, self.max as usize)?;
        let room = places.capacity();
        if room > u32::MAX as usize {
            return Err(NoMemory);
        }
        let used_in = vec![in self.alloc; 0; room]?;
        let pages = AgeGroups::new(self.alloc)?;
        self.places = places;
        self.pages = pages;
        self.used_in = used_in;
        self.is_reserved = true;
        Ok(())
    }

    /// Gives the room of a set without a page back.
    pub fn release(&mut self)
        requires { finite.len self.old.places ≡ 0 }
        ensures { self.new ≡ record self.old { reserved = false } }
    {
        self.places = Slab::new(self.alloc);
        self.pages = AgeGroups::unreserved(self.alloc);
        self.used_in = Vec::new(self.alloc);
        self.is_reserved = false;
    }

    /// Takes a page below 2 GiB in that is not in the set, which has room and fewer than `max`
    /// pages, and answers its place.
    pub fn insert(&mut self, v: Vpn) -> u32
        requires reserved { self.old.reserved ≡ true }
        requires room { finite.len self.old.places < self.old.max }
        requires user { v.0 < 2 ^ 19 }
        requires absent { finite.get self.old.ages v.0 ≡ None }
        ensures vacant { finite.get self.old.places result ≡ None }
        ensures set { self.new ≡ record self.old {
          ages = finite.insert self.old.ages v.0 0;
          places = finite.insert self.old.places result v.0;
        } }
    {
        let place = self.places.insert_reserved(v.0);
        self.pages.insert(v.0);
        self.used_in[place] = use_in(self.rounds);
        place as u32
    }

    /// Takes the page at a place in use out of the set, and answers it.
    pub fn remove(&mut self, place: u32) -> Vpn
        requires { IsSome (finite.get self.old.places place) }
        ensures page { finite.get self.old.places place ≡ Some result.0 }
        ensures set { self.new ≡ record self.old {
          ages = finite.remove self.old.ages result.0;
          places = finite.remove self.old.places place;
        } }
    {
        let place = place as usize;
        let page = self.places.remove(place);
        self.pages
            .remove(page, age_since(self.rounds, self.used_in[place]));
        Vpn(page)
    }

    /// The page at a place in use was used: its age is 0.
    pub fn touch(&mut self, place: u32)
        requires { IsSome (finite.get self.old.places place) }
        ensures { (v : ℕ) → finite.get self.old.places place ≡ Some v → self.new ≡ record self.old {
          ages = finite.insert self.old.ages v 0;
        } }
    {
        let place = place as usize;
        let used_in = self.used_in[place];
        if used_in == self.rounds {
            return;
        }
        let page = self.places[place];
        self.pages.renew(page, age_since(self.rounds, used_in));
        self.used_in[place] = use_in(self.rounds);
    }

    /// Each page's age is one more, up to 7.
    pub fn age_all(&mut self)
        ensures ages { AgesBy older self.old.ages self.new.ages }
        ensures rest { self.new ≡ record self.old { ages = self.new.ages } }
    {
        self.pages.age_all();
        self.rounds = self.rounds.saturating_add(1);
    }

    /// The page that goes first: the greatest age, and among equal ages the lowest page. With a
    /// page of the set, the one that goes next after it. `None` comes exactly where there is none.
    pub fn oldest(&self, after: Option<Vpn>) -> Option<Vpn>
        requires { ForSome after (λ v. IsSome (finite.get self.now.ages v.0)) }
        ensures { MatchOption result (NoneFollowsInSet self.now.ages (option_map (λ w. w.0) after))
            (λ v. IsOldestInSet self.now.ages (option_map (λ w. w.0) after) v.0) }
    {
        match after {
            None => self.pages.oldest(),
            Some(v) => self.pages.next_after(v.0),
        }
    }

    /// The lowest page of the set at `from` or above. `None` comes exactly where there is none.
    pub fn next_from(&self, from: Vpn) -> Option<Vpn>
        ensures { IsNextFrom (λ v. is_some (finite.get self.now.ages v)) from.0 result }
    {
        self.pages.next_from(from.0)
    }

    /// Each page is at one place, no age is above 7, and a set without room has no page.
    pub fn every_page_has_one_place(&self)
        ensures each { EachAtOnePlace self.now }
        ensures none { self.now.reserved ≡ false → finite.len self.now.places ≡ 0 }
    {
        let _whole = &self.places;
    }

    /// How many pages the set has.
    pub fn len(&self) -> u32
        ensures value { result ≡ finite.len self.now.places }
        ensures within { result ≤ self.now.max }
    {
        self.places.len() as u32
    }

    /// Whether the set has no page.
    pub fn is_empty(&self) -> bool
        ensures { result ≡ (finite.len self.now.places == 0) }
    {
        self.places.is_empty()
    }

    /// The fewest pages, down to which the set is trimmed.
    pub fn min(&self) -> u32
        ensures { result ≡ self.now.min }
    {
        self.min
    }

    /// The most pages that the set has.
    pub fn max(&self) -> u32
        ensures { result ≡ self.now.max }
    {
        self.max
    }
}
