ghost use Rattle.std.specs.Prelude.{◌≡◌, ℕ, ◌+◌, ◌++◌, ◌<◌, ◌∷◌, [], IfOk, Some, None, length, slice_get};
ghost use Rattle.mm_move_rules.specs.{without};

use crate::four_lists::FrameLists;
use crate::values::{flag_at, flags, set_at};
use mm_types::NoMemory;
use std::alloc::Global;
use std::marker::Model;

/// The frames with a request, oldest first. Each call takes constant time, and none but `new` takes
/// memory.
#[derive(Drop)]
pub(crate) struct InFlight {
    list: FrameLists<1>,
    /// For each frame whether it is on the list.
    flags: Vec<bool>,
}

impl Model for InFlight {
    ghost use Rattle.mm_replay.specs.Flying.{InFlightOf, flight_of, AreFlagged};

    ghost Value = { InFlightOf };

    ghost view = { λ s. flight_of s.list };

    ghost invariant = { λ s. AreFlagged s.list s.flags.items };
}

impl InFlight {
    pub(crate) fn none(alloc: Global) -> InFlight
        ensures { result ≡ record { frames = 0; requests = [] } }
    {
        InFlight {
            list: FrameLists::none(),
            flags: Vec::new(alloc),
        }
    }

    /// No frame has a request.
    pub(crate) fn new(alloc: Global, frames: u32) -> Result<InFlight, NoMemory>
        ensures { IfOk result (λ v. v ≡ record { frames = frames; requests = [] }) }
    {
        let list = FrameLists::new(alloc, frames)?;
        let flags = flags(alloc, frames, false)?;
        Ok(InFlight { list, flags })
    }

    pub(crate) fn len(&self) -> u32
        ensures { result ≡ length self.now.requests }
    {
        self.list.len(0)
    }

    /// The frame of the oldest request, if there is any.
    pub(crate) fn first(&self) -> Option<u32>
        ensures { result ≡ slice_get self.now.requests 0 }
    {
        self.list.front(0)
    }

    /// The frame of the request after that of `f`, if `f` has one and it is not the youngest.
    pub(crate) fn next(&self, f: u32) -> Option<u32>
        ensures behind { (k : ℕ) → slice_get self.now.requests k ≡ Some f
            → result ≡ slice_get self.now.requests (k + 1) }
        ensures none { ((k : ℕ) → slice_get self.now.requests k ≡ Some f → ⊥) → result ≡ None }
    {
        if flag_at(&self.flags, f) {
            self.list.next(f)
        } else {
            None
        }
    }

    /// The youngest request is of this frame, which had none.
    pub(crate) fn begin(&mut self, f: u32)
        requires low { f < self.old.frames }
        requires none { (k : ℕ) → slice_get self.old.requests k ≡ Some f → ⊥ }
        ensures { self.new ≡ record self.old { requests = self.old.requests ++ f ∷ [] } }
    {
        self.list.push_back(0, f);
        set_at(&mut self.flags, f, true);
    }

    /// A request of this frame has ended.
    pub(crate) fn end(&mut self, f: u32)
        ensures { self.new ≡ record self.old { requests = without f self.old.requests } }
    {
        if flag_at(&self.flags, f) {
            self.list.unlink(f);
            set_at(&mut self.flags, f, false);
        }
    }
}
