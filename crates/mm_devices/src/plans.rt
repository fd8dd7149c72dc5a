ghost use Rattle.std.specs.Prelude.{◌≡◌, ◌≤◌, ◌<◌, ◌+◌, ◌-◌, [], ◌∷◌, ◌++◌, length, take, map};
ghost use Rattle.mm_devices.specs.Traffic.{is_due, is_next_named, after_call, one_further};

use crate::NamedCalls;
use mm_types::Direction;
use std::marker::Model;

/// How often calls may be named.
pub(crate) const ROOM: usize = 64;

/// The calls that are to fail, in the order in which they were named.
#[derive(Drop)]
pub(crate) struct Plan {
    entries: [NamedCalls; ROOM],
    count: usize,
}

impl Model for Plan {
    ghost use Rattle.std.specs.Prelude.{◌≤◌, List, take};
    ghost use Rattle.mm_devices.specs.declared.device_calls.NamedCalls.{NamedCalls};

    ghost Value = { List NamedCalls };

    ghost view = { λ p. take p.count p.entries };

    ghost invariant = { λ p. p.count ≤ 64 };
}

/// Whether the next call of this direction is one of those named.
#[tactic(auto, using(crate::proofs::Fronts::same_way))]
fn is_next(direction: Direction, named: NamedCalls) -> bool
    ensures { result ≡ is_due direction named }
{
    direction == named.direction && named.passes == 0 && named.fails != 0
}

/// One more call of this direction was made.
#[tactic(auto, using(crate::proofs::Fronts::same_way))]
fn go_on(named: &mut NamedCalls, direction: Direction)
    ensures { named.new ≡ one_further direction named.old }
{
    if direction != named.direction {
        return;
    }
    if named.passes == 0 {
        named.fails = named.fails.saturating_sub(1);
    } else {
        named.passes -= 1;
    }
}

/// The first `count` of these, one call of this direction further.
fn move_on(entries: &mut [NamedCalls; ROOM], count: usize, direction: Direction)
    requires { count ≤ 64 }
    ensures { take count entries.new ≡ map (one_further direction) (take count entries.old) }
{
    for i in 0..count {
        go_on(&mut entries[i], direction);
    }
}

/// Whether the next call of this direction is one of the first `count` of these.
fn is_due(entries: &[NamedCalls; ROOM], count: usize, direction: Direction) -> bool
    requires { count ≤ 64 }
    ensures { result ≡ is_next_named direction (take count entries.now) }
{
    entries[..count]
        .iter()
        .any(|named| is_next(direction, *named))
}

impl Plan {
    /// No call is named.
    pub(crate) fn new() -> Plan
        ensures { result ≡ [] }
    {
        let none = NamedCalls {
            direction: Direction::Read,
            passes: 0,
            fails: 0,
        };
        Plan {
            entries: [none; ROOM],
            count: 0,
        }
    }

    /// Of the calls of this direction from now on, the k-th, counted from 1, is the first of n that
    /// fail.
    pub(crate) fn add(&mut self, direction: Direction, k: u32, n: u32)
        requires room { length self.old < 64 }
        requires first { 1 ≤ k }
        ensures { self.new ≡ self.old ++ record {
          direction = direction;
          passes = k - 1;
          fails = n;
        } ∷ [] }
    {
        self.entries[self.count] = NamedCalls {
            direction,
            passes: k - 1,
            fails: n,
        };
        self.count += 1;
    }

    /// One more call of this direction: whether it was named to fail.
    pub(crate) fn fails(&mut self, direction: Direction) -> bool
        ensures due { result ≡ is_next_named direction self.old }
        ensures named { self.new ≡ after_call direction self.old }
    {
        let due = is_due(&self.entries, self.count, direction);
        move_on(&mut self.entries, self.count, direction);
        due
    }
}
