ghost use Rattle.std.specs.Prelude.{◌≡◌, ◌+◌, ◌<◌, ◌^◌, length, replicate, count_by, cond, IfOk, slice_set, slice_index_or};
ghost use Rattle.mm_move_rules.specs.{blank, is_active, is_in_transition};

use mm_types::{Backing, NoMemory, Record, Request};
use std::alloc::Global;
use std::marker::Model;

/// The records of the frames, and how many are active and in transition. Contracts see the records.
#[derive(Drop)]
pub struct Records {
    records: Vec<Record>,
    active: u32,
    transition: u32,
}

impl Model for Records {
    ghost use Rattle.std.specs.Prelude.{◌≡◌, ◌<◌, ◌^◌, List, length, count_by};
    ghost use Rattle.mm_types.specs.{Record};
    ghost use Rattle.mm_move_rules.specs.{is_active, is_in_transition};

    ghost Value = { List Record };

    ghost view = { λ s. s.records.items };

    ghost invariant = { λ s. (s.active ≡ count_by is_active s.records.items) ×
        (s.transition ≡ count_by is_in_transition s.records.items) ×
        (length s.records.items < 2 ^ 32) };
}

/// The record of a frame that was never used, or is free or zeroed.
pub const BLANK: Record = Record {
    owner: None,
    changed: false,
    backing: Backing::None,
    shares: 0,
    request: Request::None,
};

#[inline(always)]
fn active_in(r: &Record) -> u32
    ensures { result ≡ cond (is_active r.now) 1 0 }
{
    if r.shares > 0 { 1 } else { 0 }
}

#[inline(always)]
fn transition_in(r: &Record) -> u32
    ensures { result ≡ cond (is_in_transition r.now) 1 0 }
{
    match r.request {
        Request::None => 0,
        Request::Read | Request::Write | Request::WriteAgain => {
            if r.shares == 0 { 1 } else { 0 }
        }
    }
}

fn blanks(alloc: Global, n: u32) -> Result<Vec<Record>, NoMemory>
    ensures { IfOk result (λ v. v.items ≡ replicate n blank) }
{
    Ok(vec![in alloc; BLANK; n as usize]?)
}

impl Records {
    /// The records of `n` frames that were never used.
    pub fn new(alloc: Global, n: u32) -> Result<Records, NoMemory>
        ensures { IfOk result (λ r. r ≡ replicate n blank) }
    {
        Ok(Records {
            records: blanks(alloc, n)?,
            active: 0,
            transition: 0,
        })
    }

    /// The record of a frame.
    #[inline(always)]
    pub fn get(&self, f: u32) -> Record
        requires { f < length self.now }
        ensures { result ≡ slice_index_or self.now f blank }
    {
        self.records[f as usize]
    }

    /// Gives a frame this record.
    #[inline(always)]
    pub fn set(&mut self, f: u32, r: Record)
        requires { f < length self.old }
        ensures { self.new ≡ slice_set self.old f r }
    {
        let old = self.records[f as usize];
        self.active = self.active - active_in(&old) + active_in(&r);
        self.transition = self.transition - transition_in(&old) + transition_in(&r);
        self.records[f as usize] = r;
    }

    /// How many frames are active.
    pub fn active(&self) -> u32
        ensures { result ≡ count_by is_active self.now }
    {
        self.active
    }

    /// How many frames are in transition.
    pub fn transition(&self) -> u32
        ensures { result ≡ count_by is_in_transition self.now }
    {
        self.transition
    }
}
