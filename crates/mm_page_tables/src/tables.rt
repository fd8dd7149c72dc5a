ghost use Rattle.std.specs.Prelude.{◌≡◌, ◌≤◌, ◌<◌, ◌+◌, ◌^◌, ◌++◌, ◌∷◌, [], ◌==◌, ℕ, length, true, false, Some, None, OnOk, OnErr, IfOk, MatchOption, is_some, option_map, if◌then◌else◌, vec_capacity};
ghost use Rattle.mm_move_rules.specs.{ResidentSet, changed, same_place, set_in, is_below_max};
ghost use Rattle.mm_types.specs.declared.numbers.Key.TheVariants.{Private, Shared};
ghost use Rattle.mm_page_tables.specs.Layout.{IsEntry};
ghost use Rattle.mm_page_tables.specs.Words.{key_entry, has_word, own_word, with_own, is_valid_entry, is_there, is_aside, bare, keeps_places, with_entry, with_aside, without_aside, made_valid, made_invalid, changed_in, place_from};
ghost use Rattle.mm_page_tables.specs.declared.layout.Entry.TheVariants as entry;
ghost use Rattle.mm_types.specs.{Key, Place, first_user_page, end_of_user_pages};
ghost use Rattle.mm_working_sets.specs.{older, IsNextFrom};
ghost use Rattle.mm_page_tables.specs.Pages.{pages};
ghost use Rattle.std.specs.Option.{ForSome};
ghost use Rattle.mm_page_tables.specs.Oldest.{ages_in, NoneBehind, IsOldestOf};
ghost use Rattle.mm_page_tables.specs.Tables.{AsideBound, process_in, bound_in};

use crate::aside::Aside;
use crate::layout::entry_of;
use crate::processes::Process;
use crate::{Entry, Protos, encode};
use mm_move_rules::ResidentSet;
use mm_types::{Area, Frame, Key, NoMemory, Pid, Place, Vpn};
use std::alloc::Global;

const MOST_PROCESSES: usize = 64;

/// Page tables, working sets and prototype words, and the one private key whose entry stands beside
/// the tables.
///
/// Contracts see it as `words`, a `WordsOf`: entries of places and keys; and as `place_ages`, the
/// age of each valid place.
#[derive(Drop)]
pub struct Words {
    alloc: Global,
    processes: Vec<Process>,
    protos: Protos,
    aside: Option<Aside>,
    ghost kept: { AsideBound processes.items aside },
    ghost room: { 64 ≤ vec_capacity processes },
}

/// Whether two places are one.
fn is_same(a: Place, b: Place) -> bool
    ensures { result ≡ same_place a b }
{
    a.pid.0 == b.pid.0 && a.vpn.0 == b.vpn.0
}

/// The index of a pid's process.
fn index_of(processes: &Vec<Process>, pid: Pid) -> usize
    requires { is_some (process_in processes.now.items pid.0) ≡ true }
    ensures next { pid.0 ≡ result + 1 }
    ensures within { result < length processes.now.items }
{
    usize::from(pid.0) - 1
}

#[tactic(auto, using(crate::proofs::TableChanges::bound_there, crate::proofs::TableChanges::set_there, crate::proofs::TableChanges::open_there, crate::proofs::TableChanges::proto_there))]
impl Words {
    ghost use Rattle.mm_page_tables.specs.Shown.{words, place_ages, no_words, no_ages};

    /// No process is there, no area is open, and nothing stands beside the tables. It takes the
    /// room for 64 processes.
    pub fn new(alloc: Global) -> Result<Words, NoMemory>
        ensures words { IfOk result (λ w. words w ≡ no_words) }
        ensures ages { IfOk result (λ w. place_ages w ≡ no_ages) }
    {
        let processes = Vec::with_capacity(alloc, MOST_PROCESSES)?;
        Ok(Words {
            alloc,
            processes,
            protos: Protos::new(alloc),
            aside: None,
        })
    }

    /// The next process is there, closed, with these sizes of its working set and no page. It takes
    /// no memory.
    pub fn begin_process(&mut self, min: u32, max: u32)
        requires { length (words self.old).sets < 64 }
        ensures words { words self.new ≡ record (words self.old) {
          sets = (words self.old).sets ++ record { min = min; max = max; resident = 0 } ∷ [];
        } }
        ensures ages { place_ages self.new ≡ place_ages self.old }
    {
        let process = Process::begin(self.alloc, min, max);
        self.processes.push_reserved(process);
    }

    /// Opens a process that has begun, and takes the room of its working set. After `NoMemory`
    /// nothing has changed.
    pub fn open_process(&mut self, pid: Pid) -> Result<(), NoMemory>
        requires { is_some (set_in (words self.old).sets pid.0) ≡ true }
        ensures ok { OnOk result (words self.new ≡ record (words self.old) {
          is_open = changed ◌==◌ (words self.old).is_open pid.0 true;
        }) }
        ensures err { OnErr result (words self.new ≡ words self.old) }
        ensures ages { place_ages self.new ≡ place_ages self.old }
    {
        let at = index_of(&self.processes, pid);
        self.processes[at].open()
    }

    /// Closes an open process that has no bound place, and gives the room of its working set back.
    pub fn close_process(&mut self, pid: Pid)
        requires open { (words self.old).is_open pid.0 ≡ true }
        requires unbound { (v : ℕ) → (words self.old).bound (place_from pid (record {
          0 = v;
        })) ≡ false }
        ensures words { words self.new ≡ record (words self.old) {
          is_open = changed ◌==◌ (words self.old).is_open pid.0 false;
        } }
        ensures ages { place_ages self.new ≡ place_ages self.old }
    {
        let at = index_of(&self.processes, pid);
        self.processes[at].close();
    }

    /// Binds `n` user pages of an open process from `first` on; those that were bound keep their
    /// entries. After `NoMemory` nothing has changed.
    pub fn bind(&mut self, pid: Pid, first: Vpn, n: u32) -> Result<(), NoMemory>
        requires open { (words self.old).is_open pid.0 ≡ true }
        requires low { first_user_page ≤ first.0 }
        requires high { first.0 + n ≤ end_of_user_pages }
        ensures ok { OnOk result (words self.new ≡ record (words self.old) {
          bound = changed_in (words self.old).bound pid.0 (pages first.0 n) true;
        }) }
        ensures err { OnErr result (words self.new ≡ words self.old) }
        ensures ages { place_ages self.new ≡ place_ages self.old }
    {
        let at = index_of(&self.processes, pid);
        self.processes[at].bind(first, n)
    }

    /// Gives `n` bound pages of a process from `first` on up, none of which is valid. Nothing
    /// stands beside the tables.
    pub fn unbind(&mut self, pid: Pid, first: Vpn, n: u32)
        requires open { (words self.old).is_open pid.0 ≡ true }
        requires bound { (v : ℕ) → first.0 ≤ v → v < first.0 + n →
            (words self.old).bound (place_from pid (record {
              0 = v;
            })) ≡ true }
        requires invalid { (v : ℕ) → first.0 ≤ v → v < first.0 + n →
            is_valid_entry ((words self.old).at (place_from pid (record {
              0 = v;
            }))) ≡ false }
        requires none { (words self.old).aside ≡ None }
        ensures words { words self.new ≡ record (words self.old) {
          bound = changed_in (words self.old).bound pid.0 (pages first.0 n) false;
          at = changed_in (words self.old).at pid.0 (pages first.0 n) entry.Empty;
        } }
        ensures ages { place_ages self.new ≡ place_ages self.old }
    {
        let at = index_of(&self.processes, pid);
        self.processes[at].unbind(first, n);
    }

    /// Opens an area that is not open, with `n` words of no entry. After `NoMemory` nothing has
    /// changed.
    pub fn open_area(&mut self, a: Area, n: u32) -> Result<(), NoMemory>
        requires { (words self.old).sizes a.0 ≡ None }
        ensures ok { OnOk result (words self.new ≡ record (words self.old) {
          sizes = changed ◌==◌ (words self.old).sizes a.0 (Some n);
        }) }
        ensures err { OnErr result (words self.new ≡ words self.old) }
        ensures ages { place_ages self.new ≡ place_ages self.old }
    {
        self.protos.open(a, n)
    }

    /// Closes an open area that has no entry.
    pub fn close_area(&mut self, a: Area)
        requires open { is_some ((words self.old).sizes a.0) ≡ true }
        requires none { (i : ℕ) → (words self.old).proto a.0 i ≡ entry.Empty }
        ensures words { words self.new ≡ record (words self.old) {
          sizes = changed ◌==◌ (words self.old).sizes a.0 None;
        } }
        ensures ages { place_ages self.new ≡ place_ages self.old }
    {
        self.protos.close(a);
    }

    /// The entry of a place, whatever stands beside the tables.
    pub fn at(&self, place: Place) -> Entry
        requires { (words self.now).bound place ≡ true }
        ensures { bare result ≡ (words self.now).at place }
    {
        let at = index_of(&self.processes, place.pid);
        self.processes[at].entry(place.vpn)
    }

    /// The entry of a private key, by its place.
    fn own(&self, place: Place) -> Entry
        requires { (words self.now).bound place ≡ true }
        ensures { bare result ≡ own_word (words self.now) place }
    {
        match self.aside {
            Some(a) if is_same(place, a.place) => a.entry,
            _ => self.at(place),
        }
    }

    /// The entry of a key that has a word; the number of a valid entry is its place in the working
    /// set.
    #[inline(always)]
    pub fn word(&self, key: Key) -> Entry
        requires { has_word (words self.now) key ≡ true }
        ensures { bare result ≡ key_entry (words self.now) key }
    {
        match key {
            Key::Private(pid, vpn) => self.own(Place { pid, vpn }),
            Key::Shared(a, i) => entry_of(self.protos.get(a, i)),
        }
    }

    /// A key has a word where it has an entry, and no entry is told with a number.
    pub fn words_hold(&self)
        ensures there { (k : Key) → is_there (key_entry (words self.now) k) ≡ true →
            has_word (words self.now) k ≡ true }
        ensures bound { (p : Place) → is_there ((words self.now).at p) ≡ true →
            (words self.now).bound p ≡ true }
        ensures bare { (p : Place) → bare ((words self.now).at p) ≡ (words self.now).at p }
    {
        let _whole = &self.aside;
    }

    /// Exactly the valid places have an age, at most 7. A bound place is of an open process, an
    /// open process has begun, and no working set has more pages than its greatest size.
    pub fn working_sets_hold(&self)
        ensures aged { (p : Place) →
            is_some (place_ages self.now p) ≡ is_valid_entry ((words self.now).at p) }
        ensures young { (p : Place) (age : ℕ) → place_ages self.now p ≡ Some age → age ≤ 7 }
        ensures open { (p : Place) → (words self.now).bound p ≡ true →
            (words self.now).is_open p.pid.0 ≡ true }
        ensures begun { (pid : ℕ) → (words self.now).is_open pid ≡ true →
            is_some (set_in (words self.now).sets pid) ≡ true }
        ensures within { (pid : ℕ) (s : ResidentSet) → set_in (words self.now).sets pid ≡ Some s →
            s.resident ≤ s.max }
    {
        let _whole = &self.aside;
    }

    /// Whether the key beside the tables is that of the place.
    #[inline(always)]
    fn is_beside(&self, place: Place) -> bool
        ensures { result ≡ is_aside (words self.now).aside place }
    {
        match self.aside {
            Some(a) => is_same(place, a.place),
            None => false,
        }
    }

    /// The entry of a private key becomes another; neither is valid.
    #[inline(always)]
    fn set_own(&mut self, place: Place, e: Entry)
        requires bound { (words self.old).bound place ≡ true }
        requires invalid { is_valid_entry (own_word (words self.old) place) ≡ false }
        requires other { is_valid_entry e ≡ false }
        requires fits { IsEntry e }
        ensures words { words self.new ≡ with_own (is_aside (words self.old).aside place)
            (words self.old) place e }
        ensures ages { place_ages self.new ≡ place_ages self.old }
    {
        if self.is_beside(place) {
            self.aside = Some(Aside { place, entry: e });
            return;
        }
        let at = index_of(&self.processes, place.pid);
        self.processes[at].set_entry(place.vpn, e);
    }

    /// The entry of a key changes; no place comes to be valid or ceases to be.
    #[inline(always)] // where it is called the kind of the key is known, or of the entry
    pub fn set_word(&mut self, key: Key, e: Entry)
        requires has { has_word (words self.old) key ≡ true }
        requires fits { IsEntry e }
        requires plain { bare e ≡ e }
        requires places { keeps_places (words self.old) key e ≡ true }
        ensures words { words self.new ≡ with_entry (words self.old) key e }
        ensures ages { place_ages self.new ≡ place_ages self.old }
    {
        match key {
            Key::Private(pid, vpn) => self.set_own(Place { pid, vpn }, e),
            Key::Shared(a, i) => self.protos.set(a, i, encode(e)),
        }
    }

    /// The entry of a private key is put beside the tables.
    pub fn put_aside(&mut self, place: Place, e: Entry)
        requires none { (words self.old).aside ≡ None }
        requires bound { (words self.old).bound place ≡ true }
        requires plain { bare e ≡ e }
        ensures words { words self.new ≡ with_aside (words self.old) place e }
        ensures ages { place_ages self.new ≡ place_ages self.old }
    {
        let aside = Aside { place, entry: e };
        self.aside = Some(aside);
    }

    /// The key beside the tables, if it is that of the place, is there no more.
    fn forget_aside(&mut self, place: Place)
        ensures words { words self.new ≡ record (words self.old) {
          aside = without_aside (words self.old).aside place;
        } }
        ensures ages { place_ages self.new ≡ place_ages self.old }
    {
        match self.aside {
            Some(a) if is_same(place, a.place) => self.aside = None,
            _ => {}
        }
    }

    /// A place that is bound and not valid becomes valid for a frame.
    pub fn make_valid(&mut self, place: Place, f: Frame)
        requires bound { (words self.old).bound place ≡ true }
        requires invalid { is_valid_entry ((words self.old).at place) ≡ false }
        requires room { is_below_max (set_in (words self.old).sets place.pid.0) ≡ true }
        requires fits { f.0 < 2 ^ 28 }
        ensures words { words self.new ≡ made_valid (words self.old) place f }
        ensures ages { place_ages self.new ≡ changed same_place (place_ages self.old) place
            (Some 0) }
    {
        let at = index_of(&self.processes, place.pid);
        self.processes[at].make_valid(place.vpn, f);
        self.forget_aside(place);
    }

    /// A valid place has this entry now, which is not valid.
    pub fn make_invalid(&mut self, place: Place, e: Entry)
        requires valid { is_valid_entry ((words self.old).at place) ≡ true }
        requires other { is_valid_entry e ≡ false }
        requires fits { IsEntry e }
        ensures words { words self.new ≡ made_invalid (words self.old) place e }
        ensures ages { place_ages self.new ≡ changed same_place (place_ages self.old) place None }
    {
        let at = index_of(&self.processes, place.pid);
        self.processes[at].make_invalid(place.vpn, e);
    }

    /// A valid place was used: its age is 0.
    pub fn touch(&mut self, place: Place)
        requires { is_valid_entry ((words self.old).at place) ≡ true }
        ensures words { words self.new ≡ words self.old }
        ensures ages { place_ages self.new ≡ changed same_place (place_ages self.old) place
            (Some 0) }
    {
        let at = index_of(&self.processes, place.pid);
        self.processes[at].touch(place.vpn);
    }

    /// Each valid place of a process is older.
    pub fn age_all(&mut self, pid: Pid)
        requires { (words self.old).is_open pid.0 ≡ true }
        ensures words { words self.new ≡ words self.old }
        ensures ages { (x : Place) →
            place_ages self.new x ≡
            (if x.pid.0 == pid.0 then option_map older (place_ages self.old x) else place_ages
            self.old x) }
    {
        let at = index_of(&self.processes, pid);
        self.processes[at].age_all();
    }

    /// The valid page of a process that goes first, or with a valid page the one that goes next
    /// after it; none where there is none.
    pub fn oldest(&self, pid: Pid, after: Option<Vpn>) -> Option<Vpn>
        requires open { (words self.now).is_open pid.0 ≡ true }
        requires held { ForSome after (λ v. is_some (ages_in (place_ages self.now) pid v.0)
            ≡ true) }
        ensures { MatchOption result
            (NoneBehind (ages_in (place_ages self.now) pid) (option_map (λ w. w.0) after))
            (λ v. IsOldestOf (ages_in (place_ages self.now) pid) (option_map (λ w. w.0) after)
            v.0) }
    {
        let at = index_of(&self.processes, pid);
        self.processes[at].oldest(after)
    }

    /// The lowest valid page of an open process at `from` or above; none where there is none.
    pub fn next_from(&self, pid: Pid, from: Vpn) -> Option<Vpn>
        requires { (words self.now).is_open pid.0 ≡ true }
        ensures { IsNextFrom (λ v. is_some (ages_in (place_ages self.now) pid v)) from.0 result }
    {
        let at = index_of(&self.processes, pid);
        self.processes[at].set.next_from(from)
    }

    /// The working set of a process: its sizes, and how many of its places are valid.
    pub fn resident(&self, pid: Pid) -> ResidentSet
        requires { is_some (set_in (words self.now).sets pid.0) ≡ true }
        ensures { set_in (words self.now).sets pid.0 ≡ Some result }
    {
        let set = &self.processes[index_of(&self.processes, pid)].set;
        ResidentSet {
            min: set.min(),
            max: set.max(),
            resident: set.len(),
        }
    }

    /// Whether a process of this pid is open.
    pub fn is_open(&self, pid: Pid) -> bool
        ensures { result ≡ (words self.now).is_open pid.0 }
    {
        pid.0 != 0
            && usize::from(pid.0) - 1 < self.processes.len()
            && self.processes[usize::from(pid.0) - 1].is_open
    }
}
