ghost use Rattle.std.specs.Prelude.{◌≡◌};
ghost use Rattle.mm_move_rules.specs.{home_at};
ghost use Rattle.mm_replay.specs.Standing.{life as life_of};
ghost use Rattle.mm_sentences.specs.Facts.{slot_in, home_of, facts_away, facts_in, frame_facts};
ghost use Rattle.mm_sentences.specs.Facts.{facts_held, key_facts, valid_facts, no_facts, facts_of};

use mm_replay::Life;
use mm_types::{Backing, Block, Frame, Held, Key, Move, Place, Record, Slot, Stored};

/// What the sentence of a move names, by the state before the move.
#[derive(Clone, Copy)]
pub struct Facts {
    /// The page, if any.
    pub key: Option<Key>,
    /// The frame that the move is about, or that the page is in.
    pub frame: Option<Frame>,
    /// The place that becomes valid, or ends.
    pub place: Option<Place>,
    /// The block of a file's page that comes to be.
    pub block: Option<Block>,
    /// Where the page is read from or written to, or else where its copy on a device stands; `Zero`
    /// where it has none.
    pub home: Held,
    /// The page's slot, if it has one.
    pub slot: Option<Slot>,
}

fn home_at(backing: Backing) -> Held
    ensures { result ≡ home_at backing }
{
    match backing {
        Backing::None => Held::Zero,
        Backing::Slot(slot) => Held::Slot(slot),
        Backing::Block(block) => Held::Block(block),
    }
}

fn home_of(stored: Stored) -> Held
    ensures { result ≡ home_of stored }
{
    match stored {
        Stored::Slot(slot) => Held::Slot(slot),
        Stored::Block(block) => Held::Block(block),
    }
}

fn slot_in(home: Held) -> Option<Slot>
    ensures { result ≡ slot_in home }
{
    match home {
        Held::Slot(slot) => Some(slot),
        Held::Frame(_) | Held::Block(_) | Held::Zero | Held::Dead => None,
    }
}

/// A page that is in no frame.
fn facts_away(key: Option<Key>, home: Held) -> Facts
    ensures { result ≡ facts_away key home }
{
    Facts {
        key,
        frame: None,
        place: None,
        block: None,
        home,
        slot: slot_in(home),
    }
}

fn facts_in(frame: Frame, r: &Record) -> Facts
    ensures { result ≡ facts_in frame r.now }
{
    Facts {
        frame: Some(frame),
        ..facts_away(r.owner, home_at(r.backing))
    }
}

/// A frame, with what is known of its page.
fn frame_facts(life: &Life, frame: Frame) -> Facts
    ensures { result ≡ frame_facts (life_of life.now) frame }
{
    facts_in(frame, &life.record(frame))
}

fn facts_held(life: &Life, key: Key, held: Held) -> Facts
    ensures { result ≡ facts_held (life_of life.now) key held }
{
    match held {
        Held::Frame(frame) => Facts {
            key: Some(key),
            ..frame_facts(life, frame)
        },
        Held::Slot(_) | Held::Block(_) | Held::Zero | Held::Dead => facts_away(Some(key), held),
    }
}

/// A page, where it stands.
fn key_facts(life: &Life, key: Key) -> Facts
    ensures { result ≡ key_facts (life_of life.now) key }
{
    facts_held(life, key, life.standing(key))
}

fn valid_facts(life: &Life, frame: Option<Frame>) -> Facts
    ensures { result ≡ valid_facts (life_of life.now) frame }
{
    match frame {
        Some(frame) => frame_facts(life, frame),
        None => facts_away(None, Held::Dead),
    }
}

/// Of no page and no frame.
pub fn no_facts() -> Facts
    ensures { result ≡ no_facts }
{
    facts_away(None, Held::Dead)
}

/// What the sentence of a move names; `life` is the state before it. Takes constant time.
pub fn facts_of(life: &Life, m: &Move) -> Facts
    ensures { result ≡ facts_of (life_of life.now) m.now }
{
    match *m {
        Move::At(_, _) => no_facts(),
        Move::Add(key, block) => Facts {
            block,
            ..key_facts(life, key)
        },
        Move::Drop(key) => key_facts(life, key),
        Move::Give(frame, key) => Facts {
            key: Some(key),
            ..frame_facts(life, frame)
        },
        Move::Read(frame, key) => Facts {
            key: Some(key),
            home: life.standing(key),
            ..frame_facts(life, frame)
        },
        Move::Map(frame, place) => Facts {
            place: Some(place),
            ..frame_facts(life, frame)
        },
        Move::Unmap(place) => Facts {
            place: Some(place),
            ..valid_facts(life, life.frame_of(place))
        },
        Move::Write(frame, stored) => Facts {
            home: home_of(stored),
            ..frame_facts(life, frame)
        },
        Move::Clear(frame)
        | Move::Steal(frame)
        | Move::Got(frame)
        | Move::Bad(frame)
        | Move::Soil(frame)
        | Move::Wrote(frame)
        | Move::Lost(frame) => frame_facts(life, frame),
    }
}
