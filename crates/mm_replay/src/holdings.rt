ghost use Rattle.std.specs.Prelude.{◌≡◌, IsSome, false, OnOk, OnErr, IfNone, Some, None};
ghost use Rattle.mm_types.specs.declared.frames.Held.TheVariants as held;
ghost use Rattle.mm_move_rules.specs.{changed, same_key, same_place, is_dead};

use crate::pairs::Pairs;
use mm_types::{Frame, Held, Key, NoMemory, Place};
use std::alloc::Global;

/// What is known of a live key: its frame or its home, and whether it was added with `zero`.
#[derive(Clone, Copy)]
pub(crate) struct Alive {
    pub(crate) held: Held,
    pub(crate) paging: bool,
}

/// The live keys.
#[derive(Drop)]
pub(crate) struct Keys {
    /// Of private pages, by their process and page number.
    pages: Pairs<Alive>,
    /// Of shared pages, by their area and index.
    indices: Pairs<Alive>,
}

impl Keys {
    ghost use Rattle.mm_replay.specs.Holdings.{alive_in, Written, Stays, stands_in, paging_in, no_keys, no_paging};

    pub(crate) fn new(alloc: Global) -> Keys
        ensures stands { stands_in result ≡ no_keys }
        ensures paging { paging_in result ≡ no_paging }
    {
        Keys {
            pages: Pairs::new(alloc),
            indices: Pairs::new(alloc),
        }
    }

    /// What is known of the key, if it is live.
    fn alive(&self, key: Key) -> Option<Alive>
        ensures { result ≡ alive_in self.now key }
    {
        match key {
            Key::Private(pid, vpn) => self.pages.get(u32::from(pid.0), vpn.0),
            Key::Shared(area, index) => self.indices.get(area.0, index),
        }
    }

    /// Where the key's page is; `Dead` where the key is not live.
    pub(crate) fn held(&self, key: Key) -> Held
        ensures { result ≡ stands_in self.now key }
    {
        match self.alive(key) {
            Some(alive) => alive.held,
            None => Held::Dead,
        }
    }

    /// Whether the key is live and was added with `zero`.
    pub(crate) fn is_paging(&self, key: Key) -> bool
        ensures { result ≡ paging_in self.now key }
    {
        match self.alive(key) {
            Some(alive) => alive.paging,
            None => false,
        }
    }

    /// This is known of the key from now on.
    fn write(&mut self, key: Key, alive: Alive) -> Result<(), NoMemory>
        ensures ok { OnOk result
            (Written (alive_in self.old) (alive_in self.new) key (Some alive)) }
        ensures err { OnErr result (Stays (alive_in self.old) (alive_in self.new)) }
    {
        match key {
            Key::Private(pid, vpn) => self.pages.insert(u32::from(pid.0), vpn.0, alive),
            Key::Shared(area, index) => self.indices.insert(area.0, index, alive),
        }
    }

    /// This is known of a live key from now on.
    fn rewrite(&mut self, key: Key, alive: Alive)
        requires { IsSome (alive_in self.old key) }
        ensures { Written (alive_in self.old) (alive_in self.new) key (Some alive) }
    {
        match key {
            Key::Private(pid, vpn) => self.pages.change(u32::from(pid.0), vpn.0, alive),
            Key::Shared(area, index) => self.indices.change(area.0, index, alive),
        }
    }

    /// Nothing is known of the key from now on. Answers what was.
    fn forget(&mut self, key: Key) -> Option<Alive>
        ensures { Written (alive_in self.old) (alive_in self.new) key None }
    {
        match key {
            Key::Private(pid, vpn) => self.pages.remove(u32::from(pid.0), vpn.0),
            Key::Shared(area, index) => self.indices.remove(area.0, index),
        }
    }

    /// A key is live from now on.
    pub(crate) fn add(&mut self, key: Key, held: Held, paging: bool) -> Result<(), NoMemory>
        ensures stands { OnOk result (stands_in self.new ≡ changed same_key (stands_in self.old) key
            held) }
        ensures paging { OnOk result (paging_in self.new ≡ changed same_key (paging_in self.old) key
            paging) }
        ensures stands_err { OnErr result (stands_in self.new ≡ stands_in self.old) }
        ensures paging_err { OnErr result (paging_in self.new ≡ paging_in self.old) }
    {
        self.write(key, Alive { held, paging })?;
        Ok(())
    }

    #[tactic(auto, using(crate::proofs::Holding::keeping))]
    /// The page of a key is here from now on; the key is marked as it was.
    pub(crate) fn place(&mut self, key: Key, held: Held) -> Result<(), NoMemory>
        ensures stands { OnOk result (stands_in self.new ≡ changed same_key (stands_in self.old) key
            held) }
        ensures paging { OnOk result (paging_in self.new ≡ paging_in self.old) }
        ensures stands_err { OnErr result (stands_in self.new ≡ stands_in self.old) }
        ensures paging_err { OnErr result (paging_in self.new ≡ paging_in self.old) }
    {
        let paging = self.is_paging(key);
        match self.add(key, held, paging) {
            Ok(()) => Ok(()),
            Err(NoMemory) => Err(NoMemory),
        }
    }

    /// The page of a live key is elsewhere from now on.
    pub(crate) fn move_to(&mut self, key: Key, held: Held)
        requires { is_dead (stands_in self.old key) ≡ false }
        ensures stands { stands_in self.new ≡ changed same_key (stands_in self.old) key held }
        ensures paging { paging_in self.new ≡ paging_in self.old }
    {
        let paging = self.is_paging(key);
        self.rewrite(key, Alive { held, paging });
    }

    /// A key is not live from now on.
    pub(crate) fn remove(&mut self, key: Key)
        ensures stands { stands_in self.new ≡ changed same_key (stands_in self.old) key held.Dead }
        ensures paging { paging_in self.new ≡ changed same_key (paging_in self.old) key false }
    {
        let _ = self.forget(key);
    }
}

/// The valid places.
#[derive(Drop)]
pub(crate) struct Places {
    frames: Pairs<Frame>,
}

impl Places {
    ghost use Rattle.mm_replay.specs.Holdings.{frames_in, no_places};

    pub(crate) fn new(alloc: Global) -> Places
        ensures { frames_in result ≡ no_places }
    {
        Places {
            frames: Pairs::new(alloc),
        }
    }

    /// The frame that the place is valid for, if any.
    pub(crate) fn get(&self, place: Place) -> Option<Frame>
        ensures { result ≡ frames_in self.now place }
    {
        self.frames.get(u32::from(place.pid.0), place.vpn.0)
    }

    /// The place is valid from now on.
    pub(crate) fn add(&mut self, place: Place, frame: Frame) -> Result<(), NoMemory>
        ensures ok { OnOk result (frames_in self.new ≡ changed same_place (frames_in self.old) place
            (Some frame)) }
        ensures err { OnErr result (frames_in self.new ≡ frames_in self.old) }
    {
        self.frames
            .insert(u32::from(place.pid.0), place.vpn.0, frame)?;
        Ok(())
    }

    /// The place is not valid from now on. Answers the frame that it was valid for, if any.
    pub(crate) fn remove(&mut self, place: Place) -> Option<Frame>
        ensures value { result ≡ frames_in self.old place }
        ensures removed { frames_in self.new ≡ changed same_place (frames_in self.old) place None }
        ensures same { IfNone result (frames_in self.new ≡ frames_in self.old) }
    {
        self.frames.remove(u32::from(place.pid.0), place.vpn.0)
    }
}
