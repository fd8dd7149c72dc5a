ghost use Rattle.std.specs.Prelude.{◌≡◌, ◌<◌, true, Some, length, None, IfSome, MatchOption, is_some, option_map};
ghost use Rattle.mm_types.specs.{Frame};
ghost use Rattle.mm_move_rules.specs.{record_at, set_of, is_at_max, is_above_min, IsOldest};
ghost use Rattle.mm_page_tables.specs.{valid_frame, place_from};
ghost use Rattle.mm_parts.specs.{held_by, HasEntry, after_page, is_own_page};
ghost use Rattle.std.specs.Option.{ForSome};
ghost use Rattle.mm_working_sets.specs.{IsNextFrom};
ghost use Rattle.mm_frame_laws.specs.{IsNextPage, NoPageFollows};

use crate::parts::Parts;
use mm_page_tables::Entry;
use mm_pfn_database::Frames;
use mm_types::{Frame, Held, Key, LineKind, Machine, Pid, Place, Record, Vpn};

/// The frame of a valid entry.
fn frame_of(entry: Entry) -> Option<Frame>
    ensures { result ≡ valid_frame entry }
{
    match entry {
        Entry::Valid(f, _) => Some(f),
        _ => None,
    }
}

/// Where a key stands, by its entry; the frame of a valid one is its own, or is not.
fn held_in(entry: Entry, own: bool) -> Held
    ensures { result ≡ held_by (λ _. own) entry }
{
    match entry {
        Entry::Zero => Held::Zero,
        Entry::Paged(s) => Held::Slot(s),
        Entry::InFile(b) => Held::Block(b),
        Entry::Transition(f) => Held::Frame(f),
        Entry::Valid(f, _) => { if own { Held::Frame(f) } else { Held::Dead } }
        Entry::Empty | Entry::Proto(_, _) => Held::Dead,
    }
}

/// Whether the frame of a valid entry of a key is the key's own: the place of a private key may be
/// valid for a shared page.
fn is_own_page(frames: &Frames, key: Key, entry: Entry) -> bool
    requires { (f : Frame) → valid_frame entry ≡ Some f → f.0 < length frames.now.table.records }
    ensures { (f : Frame) → valid_frame entry ≡ Some f →
        result ≡ is_own_page key (record_at frames.now.table f.0).owner }
{
    match key {
        Key::Private(_, _) => match entry {
            Entry::Valid(f, _) => matches!(frames.look(f).owner, Some(Key::Private(_, _))),
            _ => true,
        },
        Key::Shared(_, _) => true,
    }
}

impl Parts {
    ghost use Rattle.mm_parts.specs.{shown_parts};

    /// The machine, with the slots that there are now.
    pub fn machine(&self) -> Machine
        ensures { result ≡ (shown_parts self.now).life.machine }
    {
        self.machine
    }

    /// The number of the line that began last, counted from 1.
    pub fn line(&self) -> u32
        ensures { result ≡ (shown_parts self.now).life.line }
    {
        self.line
    }

    /// The kind of the line that began last.
    pub fn kind(&self) -> LineKind
        ensures { result ≡ (shown_parts self.now).life.kind }
    {
        self.kind
    }

    /// Whether a process of this pid is open.
    pub fn is_open(&self, pid: Pid) -> bool
        ensures { result ≡ (shown_parts self.now).is_open pid.0 }
    {
        self.words.is_open(pid)
    }

    /// Where the bytes of a key stand, or that it is not live. Its place is bound, or its index is
    /// one of an open area.
    pub fn stands(&self, key: Key) -> Held
        requires { HasEntry (shown_parts self.now).bound (shown_parts self.now).areas key }
        ensures { result ≡ (shown_parts self.now).life.stands key }
    {
        let entry = self.words.word(key);
        let own = is_own_page(&self.frames, key, entry);
        held_in(entry, own)
    }

    /// The frame that a bound place is valid for, if it is valid.
    pub fn valid(&self, place: Place) -> Option<Frame>
        requires { (shown_parts self.now).bound place ≡ true }
        ensures { result ≡ (shown_parts self.now).life.valid place }
    {
        frame_of(self.words.at(place))
    }

    /// What is kept of a frame.
    pub fn look(&self, f: Frame) -> Record
        requires { f.0 < (shown_parts self.now).life.machine.frames }
        ensures { result ≡ record_at (shown_parts self.now).life.frames f.0 }
    {
        self.frames.look(f)
    }

    /// How many places of a process are valid.
    pub fn valid_places(&self, pid: Pid) -> u32
        requires { is_some (set_of (shown_parts self.now).life pid.0) ≡ true }
        ensures { option_map (λ s. s.resident) (set_of (shown_parts self.now).life pid.0) ≡ Some
            result }
    {
        self.words.resident(pid).resident
    }

    /// The fewest pages, down to which a working set is trimmed.
    pub fn min(&self, pid: Pid) -> u32
        requires { is_some (set_of (shown_parts self.now).life pid.0) ≡ true }
        ensures { option_map (λ s. s.min) (set_of (shown_parts self.now).life pid.0) ≡ Some result }
    {
        self.words.resident(pid).min
    }

    /// The most pages that a working set has.
    pub fn max(&self, pid: Pid) -> u32
        requires { is_some (set_of (shown_parts self.now).life pid.0) ≡ true }
        ensures { option_map (λ s. s.max) (set_of (shown_parts self.now).life pid.0) ≡ Some result }
    {
        self.words.resident(pid).max
    }

    /// Whether a working set is full: a page goes before the next comes.
    pub fn is_full(&self, pid: Pid) -> bool
        requires { is_some (set_of (shown_parts self.now).life pid.0) ≡ true }
        ensures { result ≡ is_at_max (set_of (shown_parts self.now).life pid.0) }
    {
        let set = self.words.resident(pid);
        set.resident == set.max
    }

    /// Whether a working set has more pages than its least size.
    pub fn is_above_min(&self, pid: Pid) -> bool
        requires { is_some (set_of (shown_parts self.now).life pid.0) ≡ true }
        ensures { result ≡ is_above_min (set_of (shown_parts self.now).life pid.0) }
    {
        let set = self.words.resident(pid);
        set.min < set.resident
    }

    /// The oldest page of an open process, or with a valid page the one that goes next after it;
    /// none where there is none. Among equal ages the lowest page goes first.
    pub fn oldest(&self, pid: Pid, after: Option<Vpn>) -> Option<Vpn>
        requires open { (shown_parts self.now).is_open pid.0 ≡ true }
        requires held { ForSome after
            (λ v. is_some ((shown_parts self.now).life.valid (place_from pid v)) ≡ true) }
        ensures next { MatchOption result
            (NoPageFollows (shown_parts self.now).life (shown_parts self.now).ages pid.0
            (after_page pid after))
            (λ v. IsNextPage (shown_parts self.now).life (shown_parts self.now).ages
            (after_page pid after)
            (place_from pid v)) }
        ensures first { after ≡ None →
            IfSome result
            (λ v. IsOldest (shown_parts self.now).life (shown_parts self.now).ages None
            (place_from pid v)) }
    {
        self.words.working_sets_hold();
        self.words.oldest(pid, after)
    }

    /// The lowest valid page of an open process at `from` or above; none where there is none.
    pub fn next_valid(&self, pid: Pid, from: Vpn) -> Option<Vpn>
        requires { (shown_parts self.now).is_open pid.0 ≡ true }
        ensures { IsNextFrom (λ v. is_some ((shown_parts self.now).life.valid
            (place_from pid (record {
              0 = v;
            })))) from.0 result }
    {
        self.words.working_sets_hold();
        self.words.next_from(pid, from)
    }
}
