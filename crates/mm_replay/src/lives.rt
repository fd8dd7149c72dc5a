ghost use Rattle.std.specs.Prelude.{◌≡◌, ◌↔◌, false, OnOk, OnErr, Err};
ghost use Rattle.mm_move_rules.specs.{unstarted, is_legal, IsLegal, after_move, held_at};
ghost use Rattle.mm_replay.specs.Replaying.{life as life_of};
ghost use Rattle.mm_move_laws.specs.{ReachedByMoves};

use crate::conditions::is_legal;
use crate::records::is_read;
use crate::states::{State, home_of};
use mm_types::{Held, Key, Move, NoMemory};
use std::alloc::Global;

/// Why a move was not applied.
#[derive(Clone, Copy, PartialEq, Eq)]
pub enum ApplyFault {
    /// It is not legal in this state.
    Illegal,
    /// Memory for it was refused.
    Memory,
}

/// The replay of a log as a running check: the state after the moves so far. It keeps none of them.
#[derive(Drop)]
pub struct Life {
    pub(crate) state: State,
    ghost reached: { ∥ ReachedByMoves (life_of state) ∥₁ },
}

impl Life {
    ghost use Rattle.mm_replay.specs.Standing.{life};

    /// The state before the first move: only `at 1 machine` is legal.
    pub fn new(alloc: Global) -> Life
        ensures { life result ≡ unstarted }
    {
        Life {
            state: State::new(alloc),
        }
    }

    /// Where the bytes of a key stand.
    pub fn held(&self, key: Key) -> Held
        ensures { result ≡ held_at (life self.now) key }
    {
        match self.state.keys.held(key) {
            Held::Frame(frame) => {
                let r = self.state.table.record(frame.0);
                if is_read(r.request) {
                    home_of(r.backing)
                } else {
                    Held::Frame(frame)
                }
            }
            held => held,
        }
    }

    /// Whether the next move may be this one.
    #[inline(always)]
    pub fn is_legal(&self, m: &Move) -> bool
        ensures { result ≡ is_legal (life self.now) m.now }
    {
        is_legal(&self.state, m)
    }

    /// Makes a move that is legal in the state so far. Where memory for it was refused nothing has
    /// changed.
    #[inline(always)]
    pub fn make(&mut self, m: &Move) -> Result<(), NoMemory>
        requires legal { IsLegal m.now (life self.old) }
        ensures ok { OnOk result (life self.new ≡ after_move (life self.old) m.now) }
        ensures err { OnErr result (life self.new ≡ life self.old) }
    {
        self.state.table.keeps_lists();
        self.state.make(m)
    }

    /// Takes the next move. `Illegal` comes exactly where the move is not legal in the state so
    /// far, `Memory` where memory for a legal one was refused; after either nothing has changed.
    pub fn apply(&mut self, m: &Move) -> Result<(), ApplyFault>
        ensures ok { OnOk result (life self.new ≡ after_move (life self.old) m.now) }
        ensures legal { OnOk result (IsLegal m.now (life self.old)) }
        ensures illegal { (result ≡ Err ApplyFault.Illegal) ↔
            (is_legal (life self.old) m.now ≡ false) }
        ensures err { OnErr result (life self.new ≡ life self.old) }
    {
        if !self.is_legal(m) {
            return Err(ApplyFault::Illegal);
        }
        match self.make(m) {
            Ok(()) => Ok(()),
            Err(NoMemory) => Err(ApplyFault::Memory),
        }
    }
}
