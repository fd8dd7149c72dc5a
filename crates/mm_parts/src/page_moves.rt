ghost use Rattle.std.specs.Prelude.{◌≡◌, Some, None, option_map, true};
ghost use Rattle.mm_move_rules.specs.{IsLegal, record_at, changed, same_place, key_of_place, is_shared, is_dead, owner_is};
ghost use Rattle.mm_ram.specs.{page_at, zero_page, with_page};
ghost use Rattle.mm_parts.specs.{front, parts_after, names_after_give, HasEntry, IsClear, aside_after_add, names_after_drop, table_released};
ghost use Rattle.mm_parts.specs.{slot_released, IsReleased, copy_place, left_by, names_after_map, MayMap, CanName, words_named, CanLeave, words_left};
ghost use Rattle.mm_pfn_database.specs.{FramesOf};
ghost use Rattle.mm_page_tables.specs.{is_valid_entry};
ghost use Rattle.mm_types.specs.declared.moves.Move.TheVariants as move;
ghost use Rattle.mm_page_tables.specs.Shown as tables;

use crate::backings::{give_back, home};
use crate::parts::Parts;
use mm_page_tables::{Entry, Words};
use mm_pfn_database::{Frames, Stolen};
use mm_types::{Block, Frame, Key, LineKind, Place, Slot};

/// The page of an entry is no more: its frame goes, unless a request holds it. Answers the slot to
/// give back.
fn release(frames: &mut Frames, entry: Entry) -> Option<Slot>
    requires { IsReleased entry frames.old.table }
    ensures table { frames.new.table ≡ table_released entry frames.old.table }
    ensures bytes { frames.new.bytes ≡ frames.old.bytes }
    ensures slot { option_map (λ s. s.0) result ≡ slot_released entry frames.old.table }
{
    match entry {
        Entry::Transition(f) => frames.forget(f),
        Entry::Paged(s) => Some(s),
        _ => None,
    }
}

/// The place of a private key that comes to be in an access: it stands beside the tables.
fn copy_place(key: Key, kind: LineKind) -> Option<Place>
    ensures { result ≡ copy_place key kind }
{
    match (key, kind) {
        (Key::Private(pid, vpn), LineKind::Access(_) | LineKind::Thread(_)) => Some(Place {
            pid,
            vpn,
        }),
        _ => None,
    }
}

/// The prototype word of a shared page is valid for its frame.
fn name_frame(words: &mut Words, owner: Option<Key>, f: Frame)
    requires { CanName (tables.words words.old) owner f }
    ensures words { tables.words words.new ≡ words_named owner f (tables.words words.old) }
    ensures ages { tables.place_ages words.new ≡ tables.place_ages words.old }
{
    if let Some(Key::Shared(area, index)) = owner {
        words.set_word(Key::Shared(area, index), Entry::Valid(f, 0));
    }
}

/// A place is valid no more for the frame of a key: for the last place of a shared page its
/// prototype word is in transition.
fn leave_place(words: &mut Words, place: Place, key: Key, f: Frame, last: bool)
    requires valid { is_valid_entry ((tables.words words.old).at place) ≡ true }
    requires can { CanLeave (tables.words words.old) key f }
    ensures words { tables.words words.new ≡ words_left key f last place (tables.words words.old) }
    ensures ages { tables.place_ages words.new ≡ changed same_place (tables.place_ages words.old)
        place None }
{
    match key {
        Key::Private(_, _) => words.make_invalid(place, Entry::Transition(f)),
        Key::Shared(area, index) => {
            words.make_invalid(place, Entry::Proto(area, index));
            if last {
                words.set_word(Key::Shared(area, index), Entry::Transition(f));
            }
        }
    }
}

impl Parts {
    ghost use Rattle.mm_parts.specs.{shown_parts};

    /// The first free frame is cleared, and goes to the end of zeroed.
    pub fn clear(&mut self)
        requires legal { IsLegal (move.Clear (front (shown_parts self.old).life.frames.free))
            (shown_parts self.old).life }
        ensures made { shown_parts self.new ≡
            record (parts_after (shown_parts self.old)
            (move.Clear (front (shown_parts self.old).life.frames.free))) {
              bytes = with_page (shown_parts self.old).bytes
                  (front (shown_parts self.old).life.frames.free).0
                  zero_page;
            } }
    {
        match self.frames.take_free() {
            Some(dirty) => {
                let blank = self.frames.clear(dirty);
                self.frames.put_zeroed(blank);
            }
            None => unreachable!(),
        }
    }

    /// The first zeroed frame is that of a page that reads as zero and has none.
    pub fn assign(&mut self, key: Key) -> Frame
        requires legal { IsLegal (move.Give (front (shown_parts self.old).life.frames.zeroed) key)
            (shown_parts self.old).life }
        ensures frame { result ≡ front (shown_parts self.old).life.frames.zeroed }
        ensures zero { page_at (shown_parts self.new).bytes result.0 ≡ Some zero_page }
        ensures made { shown_parts self.new ≡
            record (parts_after (shown_parts self.old) (move.Give result key)) {
              names =
                  names_after_give (shown_parts self.old).aside (shown_parts self.old).names key;
            } }
    {
        self.words.words_hold();
        match self.frames.take_zeroed() {
            Some(blank) => {
                let f = self.frames.bind(blank, key);
                self.words.set_word(key, Entry::Transition(f));
                f
            }
            None => unreachable!(),
        }
    }

    /// The first frame on standby is taken from its page, and is free: the page is where it was
    /// read from or written to.
    pub fn repurpose(&mut self)
        requires legal { IsLegal (move.Steal (front (shown_parts self.old).life.frames.standby))
            (shown_parts self.old).life }
        ensures made { shown_parts self.new ≡
            parts_after (shown_parts self.old)
            (move.Steal (front (shown_parts self.old).life.frames.standby)) }
    {
        self.words.words_hold();
        match self.frames.take_standby() {
            Some(stolen) => {
                let Stolen {
                    dirty,
                    key,
                    backing,
                } = stolen;
                self.frames.put_free(dirty);
                self.words.set_word(key, home(backing));
            }
            None => unreachable!(),
        }
    }

    /// A page-file key comes to be, and reads as zero. In an access it is that of a copy, and
    /// stands beside the tables, since its place names the page that is copied.
    pub fn add_zero(&mut self, key: Key)
        requires legal { IsLegal (move.Add key None) (shown_parts self.old).life }
        requires home { HasEntry (shown_parts self.old).bound (shown_parts self.old).areas key }
        requires clear { IsClear (shown_parts self.old).life.kind (shown_parts self.old).names
            (shown_parts self.old).aside key }
        ensures made { shown_parts self.new ≡
            record (parts_after (shown_parts self.old) (move.Add key None)) {
              aside =
                  aside_after_add (shown_parts self.old).names (shown_parts self.old).aside key;
            } }
    {
        self.paging_keys += 1;
        match copy_place(key, self.kind) {
            Some(place) => self.words.put_aside(place, Entry::Zero),
            None => self.words.set_word(key, Entry::Zero),
        }
    }

    /// A page of a file comes to be, on its block.
    pub fn add_block(&mut self, key: Key, b: Block)
        requires legal { IsLegal (move.Add key (Some b)) (shown_parts self.old).life }
        requires home { HasEntry (shown_parts self.old).bound (shown_parts self.old).areas key }
        ensures made { shown_parts self.new ≡ parts_after (shown_parts self.old)
            (move.Add key (Some b)) }
    {
        self.words.set_word(key, Entry::InFile(b));
        self.added[b.0 as usize] = true;
    }

    /// A page-file key is no more: its slot is free, and so is its frame unless a request holds it.
    pub fn drop_key(&mut self, key: Key)
        requires legal { IsLegal (move.Drop key) (shown_parts self.old).life }
        ensures made { shown_parts self.new ≡
            record (parts_after (shown_parts self.old) (move.Drop key)) {
              names =
                  names_after_drop (shown_parts self.old).names key;
            } }
    {
        self.words.words_hold();
        let slot = release(&mut self.frames, self.words.word(key));
        give_back(&mut self.slots, slot);
        self.words.set_word(key, Entry::Empty);
        self.paging_keys -= 1;
    }

    /// The page of a frame becomes valid at a place, and has age 0 there. For a shared page the
    /// place's own private key is dead.
    pub fn map(&mut self, f: Frame, place: Place)
        requires legal { IsLegal (move.Map f place) (shown_parts self.old).life }
        requires bound { (shown_parts self.old).bound place ≡ true }
        requires alone { MayMap (shown_parts self.old).life f place }
        ensures made { shown_parts self.new ≡ record
            (parts_after (shown_parts self.old) (move.Map f place)) {
              ages = changed same_place (shown_parts self.old).ages place 0;
              aside = left_by (shown_parts self.old).aside place;
              names = names_after_map (shown_parts self.old).life.frames
                  (shown_parts self.old).names f place;
            } }
    {
        self.words.words_hold();
        let owner = self.frames.look(f).owner;
        self.frames.share(f);
        self.words.make_valid(place, f);
        name_frame(&mut self.words, owner, f);
    }

    /// A place is valid no more. Without shares and without a request the page's frame goes to
    /// standby or modified.
    pub fn unmap(&mut self, place: Place)
        requires legal { IsLegal (move.Unmap place) (shown_parts self.old).life }
        ensures made { shown_parts self.new ≡
            record (parts_after (shown_parts self.old) (move.Unmap place)) {
              ages =
                  changed same_place (shown_parts self.old).ages place 0;
            } }
    {
        self.words.words_hold();
        match self.words.at(place) {
            Entry::Valid(f, _) => {
                let r = self.frames.look(f);
                self.frames.unshare(f);
                let key = r.owner.unwrap();
                leave_place(&mut self.words, place, key, f, r.shares == 1);
            }
            _ => unreachable!(),
        }
    }

    /// A page that is valid somewhere differs from its backing from now on: a slot that backed it
    /// is free. While it is being written, it is to be written again.
    #[tactic(auto, using(mm_move_laws::proofs::Facts::facts_of))]
    pub fn set_dirty(&mut self, f: Frame)
        requires legal { IsLegal (move.Soil f) (shown_parts self.old).life }
        ensures made { shown_parts self.new ≡ parts_after (shown_parts self.old) (move.Soil f) }
    {
        if let Some(slot) = self.frames.set_dirty(f) {
            self.slots.put_back(slot);
        }
    }
}
