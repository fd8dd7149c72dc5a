ghost use Rattle.std.specs.Prelude.{◌≡◌, ◌+◌, ◌-◌, ◌^◌, ◌<◌, ◌≤◌, ◌==◌, if◌then◌else◌, OnOk, OnErr, MatchOption, is_some, option_map, true, false, Some, None, ℕ};
ghost use Rattle.std.specs.FinMap as finite;
ghost use Rattle.mm_move_rules.specs.{changed};
ghost use Rattle.mm_page_tables.specs.Layout.{IsEntry};
ghost use Rattle.mm_page_tables.specs.declared.layout.Entry.TheVariants as entry;
ghost use Rattle.mm_working_sets.specs.{older};
ghost use Rattle.mm_page_tables.specs.Pages.{pages};
ghost use Rattle.mm_types.specs.{holds_page, first_user_page, end_of_user_pages};
ghost use Rattle.mm_page_tables.specs.Entries.{entry_or};
ghost use Rattle.mm_page_tables.specs.Words.{is_valid_entry};
ghost use Rattle.std.specs.Option.{ForSome};
ghost use Rattle.mm_page_tables.specs.Oldest.{NoneBehind, IsOldestOf};
ghost use Rattle.mm_page_tables.specs.Processes.{IsKeptProcess};

use crate::layout::entry_of;
use crate::{Entry, Table, encode};
use mm_types::{Frame, NoMemory, Vpn};
use mm_working_sets::WorkingSet;
use std::alloc::Global;

/// A process's page table and its working set. The set keeps its sizes always, and has room while
/// the process is open.
#[derive(Drop)]
pub struct Process {
    pub table: Table,
    pub set: WorkingSet,
    pub is_open: bool,
    ghost kept: { IsKeptProcess table set is_open },
}

impl Process {
    ghost use Rattle.mm_page_tables.specs.Changes.{bound_of, at_of, age_of, resident_of, EntryBecomes, Rebinds, ProcessBegins, KeepsPages};

    /// The entry of a bound page; the number of a valid one is its place in the working set.
    pub fn entry(&self, v: Vpn) -> Entry
        requires { bound_of self.now v.0 ≡ true }
        ensures { result ≡ entry_or (finite.get self.now.table v.0) }
    {
        entry_of(self.table.get(v))
    }

    /// An entry that is not valid is another that is not.
    pub fn set_entry(&mut self, v: Vpn, e: Entry)
        requires bound { bound_of self.old v.0 ≡ true }
        requires invalid { is_valid_entry (at_of self.old v.0) ≡ false }
        requires other { is_valid_entry e ≡ false }
        requires fits { IsEntry e }
        ensures becomes { EntryBecomes self.old self.new v.0 e }
        ensures set { self.new.set ≡ self.old.set }
    {
        self.table.set(v, encode(e));
    }

    /// A bound page that is not valid becomes valid.
    pub fn make_valid(&mut self, v: Vpn, f: Frame)
        requires bound { bound_of self.old v.0 ≡ true }
        requires invalid { is_valid_entry (at_of self.old v.0) ≡ false }
        requires room { finite.len self.old.set.places < self.old.set.max }
        requires fits { f.0 < 2 ^ 28 }
        ensures becomes { EntryBecomes self.old self.new v.0 (entry.Valid f 0) }
        ensures resident { resident_of self.new ≡ record (resident_of self.old) {
          resident = finite.len self.old.set.places + 1;
        } }
        ensures ages { (q : ℕ) → age_of self.new q ≡ changed ◌==◌ (age_of self.old) v.0 (Some 0) q }
    {
        let place = self.set.insert(v);
        self.table.set(v, encode(Entry::Valid(f, place)));
    }

    /// A valid page is valid no more, and has this entry.
    pub fn make_invalid(&mut self, v: Vpn, e: Entry)
        requires valid { is_valid_entry (at_of self.old v.0) ≡ true }
        requires other { is_valid_entry e ≡ false }
        requires fits { IsEntry e }
        ensures becomes { EntryBecomes self.old self.new v.0 e }
        ensures resident { resident_of self.new ≡ record (resident_of self.old) {
          resident = finite.len self.old.set.places - 1;
        } }
        ensures ages { (q : ℕ) → age_of self.new q ≡ changed ◌==◌ (age_of self.old) v.0 None q }
    {
        match self.entry(v) {
            Entry::Valid(_, place) => {
                self.set.remove(place);
                self.table.set(v, encode(e));
            }
            _ => unreachable!(),
        }
    }

    /// A valid page was used.
    pub fn touch(&mut self, v: Vpn)
        requires { is_valid_entry (at_of self.old v.0) ≡ true }
        ensures ages { (q : ℕ) → age_of self.new q ≡ changed ◌==◌ (age_of self.old) v.0 (Some 0) q }
        ensures table { self.new.table ≡ self.old.table }
        ensures resident { resident_of self.new ≡ resident_of self.old }
        ensures opened { self.new.is_open ≡ self.old.is_open }
    {
        match self.entry(v) {
            Entry::Valid(_, place) => self.set.touch(place),
            _ => unreachable!(),
        }
    }

    /// A closed process without a page, with these sizes of its working set. It takes no memory.
    pub fn begin(alloc: Global, min: u32, max: u32) -> Process
        ensures { ProcessBegins result min max }
    {
        Process {
            table: Table::new(alloc),
            set: WorkingSet::unreserved(alloc, min, max),
            is_open: false,
        }
    }

    /// The process is open, and its working set has room. After `NoMemory` nothing has changed.
    pub fn open(&mut self) -> Result<(), NoMemory>
        ensures ok { OnOk result (self.new.is_open ≡ true) }
        ensures err { OnErr result (self.new.is_open ≡ self.old.is_open) }
        ensures kept { KeepsPages self.old self.new }
    {
        self.set.reserve()?;
        self.is_open = true;
        Ok(())
    }

    /// Binds user pages, which keep their entries. After `NoMemory` nothing has changed.
    pub fn bind(&mut self, first: Vpn, n: u32) -> Result<(), NoMemory>
        requires opened { self.old.is_open ≡ true }
        requires low { first_user_page ≤ first.0 }
        requires high { first.0 + n ≤ end_of_user_pages }
        ensures ok { OnOk result (Rebinds self.old self.new (pages first.0 n) true) }
        ensures at { (q : ℕ) → at_of self.new q ≡ at_of self.old q }
        ensures err { OnErr result (self.new.table ≡ self.old.table) }
        ensures set { self.new.set ≡ self.old.set }
        ensures opened { self.new.is_open ≡ self.old.is_open }
    {
        self.table.reserve(first, n)
    }

    /// Gives bound pages up, none of which is valid.
    pub fn unbind(&mut self, first: Vpn, n: u32)
        requires bound { (q : ℕ) → first.0 ≤ q → q < first.0 + n → bound_of self.old q ≡ true }
        requires invalid { (q : ℕ) → first.0 ≤ q → q < first.0 + n →
            is_valid_entry (at_of self.old q) ≡ false }
        ensures rebinds { Rebinds self.old self.new (pages first.0 n) false }
        ensures at { (q : ℕ) → at_of self.new q ≡
            (if holds_page (pages first.0 n) q then entry.Empty else at_of self.old q) }
    {
        self.table.release(first, n);
    }

    /// A process without a bound page is closed, and gives the room of its page table and of its
    /// working set back.
    pub fn close(&mut self)
        requires { (q : ℕ) → bound_of self.old q ≡ false }
        ensures opened { self.new.is_open ≡ false }
        ensures kept { KeepsPages self.old self.new }
    {
        self.table.give_back();
        self.set.release();
        self.is_open = false;
    }

    /// Each valid page is older.
    pub fn age_all(&mut self)
        ensures ages { (q : ℕ) → age_of self.new q ≡ option_map older (age_of self.old q) }
        ensures table { self.new.table ≡ self.old.table }
        ensures resident { resident_of self.new ≡ resident_of self.old }
        ensures opened { self.new.is_open ≡ self.old.is_open }
    {
        self.set.age_all();
    }
    /// The page that goes first, or the one that goes next after a valid page.
    pub fn oldest(&self, after: Option<Vpn>) -> Option<Vpn>
        requires { ForSome after (λ v. is_some (age_of self.now v.0) ≡ true) }
        ensures { MatchOption result (NoneBehind (age_of self.now) (option_map (λ w. w.0) after))
            (λ v. IsOldestOf (age_of self.now) (option_map (λ w. w.0) after) v.0) }
    {
        self.set.oldest(after)
    }
}
