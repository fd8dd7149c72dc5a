ghost use Rattle.std.specs.Prelude.{◌≡◌, ◌<◌, ℕ, true, false, None};
ghost use Rattle.mm_move_rules.specs.{is_thread};
ghost use Rattle.mm_store.specs.{no_calls};
ghost use Rattle.mm_pager.specs.Shown.{StoreKept, own_of, store_of, behind_of};

use mm_state_calls::StateCalls;
use mm_store::Need;
use mm_types::{Key, Place};

/// An access that needs no device.
#[derive(Clone, Copy)]
pub(crate) struct Wanted {
    pub(crate) place: Place,
    pub(crate) key: Key,
    pub(crate) need: Need,
}

/// A store that pages.
pub struct Pager<T: StateCalls> {
    pub state: T,
    pub(crate) extended: Option<bool>,
    pub(crate) ready: Option<Wanted>,
    pub(crate) blocks_used: u32,
    ghost kept: { StoreKept (T.shown state) (own_of extended ready blocks_used) },
}

impl<T: StateCalls> Pager<T> {
    ghost use Rattle.mm_pager.specs.Store.{contents, store, paged_behind, loans};

    /// A store over a machine's joined state, in which no file uses a block yet. The state has no
    /// request of its own line, and nothing stands beside its tables; where its line is a thread's,
    /// no device write was tried in it.
    pub fn over(state: T) -> Self
        requires own { (T.shown state).own ≡ None }
        requires aside { (T.shown state).aside ≡ None }
        requires unused { (b : ℕ) → (T.shown state).life.added b ≡ false }
        requires calm { is_thread (T.shown state).life.kind ≡ true
            → (T.shown state).told.search_writes ≡ no_calls }
        ensures store { store result ≡ store_of (T.shown state) (own_of None None 0) }
        ensures contents { contents result ≡ (T.shown state).contents }
        ensures behind { paged_behind result ≡ behind_of (T.shown state) }
        ensures loans { loans result ≡ T.loans state }
    {
        Pager {
            state,
            extended: None,
            ready: None,
            blocks_used: 0,
        }
    }

    /// The joined state, as the store leaves it.
    pub fn finish(self) -> T
        ensures state { result ≡ self.state }
        ensures contents { (T.shown result).contents ≡ contents self }
        ensures behind { behind_of (T.shown result) ≡ paged_behind self }
        ensures loans { T.loans result ≡ loans self }
    {
        let Pager {
            state,
            extended: _,
            ready: _,
            blocks_used: _,
        } = self;
        state
    }
}
