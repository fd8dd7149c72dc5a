ghost use Rattle.std.specs.Prelude.{◌≡◌, ◌+◌, ◌<◌, ◌≤◌, ◌^◌, ℕ, Option, Some, None, true, false, IsSome, OnOk, OnErr, length, unwrap_or};
ghost use Rattle.std.specs.HashMap.{spare};
ghost use Rattle.mm_world.specs.{filled, written};
ghost use Rattle.mm_types.specs.{holds_page};
ghost use Rattle.mm_store.specs.{changed_in, place_at};
ghost use Rattle.mm_move_rules.specs.{same_place};
ghost use Rattle.mm_move_rules.specs.{changed};

use crate::boxes::PageBox;
use mm_types::{Key, NoMemory, Pid, Place, Vpn};
use std::alloc::Global;
use std::collections::HashMap;

/// What is kept of a bound place: the key that it names, and the page of the key that is its own.
#[derive(Drop)]
pub(crate) struct BoundPlace {
    named: Option<Key>,
    page: Option<PageBox>,
}

/// The bound places. The page of a private key stands at its own place.
#[derive(Drop)]
pub(crate) struct Places {
    map: HashMap<Place, BoundPlace>,
}

impl Places {
    ghost use Rattle.mm_unpaged.specs.Places.{is_bound_in, names_in, pages_at, pages_in, no_place, no_name, no_page, range_from};

    /// No place is bound.
    pub(crate) fn new(alloc: Global) -> Places
        ensures bound { is_bound_in result ≡ no_place }
        ensures names { names_in result ≡ no_name }
        ensures pages { pages_at result ≡ no_page }
        ensures count { pages_in result ≡ 0 }
    {
        Places {
            map: HashMap::new(alloc),
        }
    }

    /// Sees that so many places more can be bound.
    pub(crate) fn reserve(&mut self, more: u32) -> Result<(), NoMemory>
        ensures ok { OnOk result (more ≤ spare self.new.map) }
        ensures bound { is_bound_in self.new ≡ is_bound_in self.old }
        ensures names { names_in self.new ≡ names_in self.old }
        ensures pages { pages_at self.new ≡ pages_at self.old }
        ensures count { pages_in self.new ≡ pages_in self.old }
    {
        self.map.reserve(more as usize)?;
        Ok(())
    }

    /// Binds a place; it names nothing.
    pub(crate) fn bind(&mut self, place: Place)
        requires unbound { is_bound_in self.old place ≡ false }
        requires room { 0 < spare self.old.map }
        ensures bound { is_bound_in self.new
            ≡ changed same_place (is_bound_in self.old) place true }
        ensures names { names_in self.new ≡ changed same_place (names_in self.old) place None }
        ensures pages { pages_at self.new ≡ pages_at self.old }
        ensures count { pages_in self.new ≡ pages_in self.old }
        ensures room { spare self.old.map ≤ spare self.new.map + 1 }
    {
        let new = BoundPlace {
            named: None,
            page: None,
        };
        let Ok(_) = self.map.insert(place, new) else {
            unreachable!()
        };
    }

    /// Gives up a place without a page.
    pub(crate) fn unbind(&mut self, place: Place)
        requires dead { pages_at self.old place ≡ None }
        ensures bound { is_bound_in self.new
            ≡ changed same_place (is_bound_in self.old) place false }
        ensures names { names_in self.new ≡ changed same_place (names_in self.old) place None }
        ensures pages { pages_at self.new ≡ pages_at self.old }
        ensures count { pages_in self.new ≡ pages_in self.old }
    {
        let _ = self.map.remove(&place);
    }

    /// Binds `n` places of a process from page `first` on; they name nothing. After `NoMemory`
    /// nothing has changed.
    #[tactic(auto, using(crate::proofs::BoundPlaces::paging))]
    pub(crate) fn bind_all(&mut self, pid: Pid, first: Vpn, n: u32) -> Result<(), NoMemory>
        requires inside { first.0 + n ≤ 2 ^ 32 }
        requires unbound { (page : ℕ) → holds_page (range_from first.0 n) page ≡ true →
            is_bound_in self.old (place_at pid page) ≡ false }
        ensures bound { OnOk result
            (is_bound_in self.new
            ≡ changed_in pid (range_from first.0 n) (is_bound_in self.old) true) }
        ensures names { OnOk result
            (names_in self.new ≡ changed_in pid (range_from first.0 n) (names_in self.old) None) }
        ensures still_bound { OnErr result (is_bound_in self.new ≡ is_bound_in self.old) }
        ensures same_names { OnErr result (names_in self.new ≡ names_in self.old) }
        ensures pages { pages_at self.new ≡ pages_at self.old }
        ensures count { pages_in self.new ≡ pages_in self.old }
    {
        self.reserve(n)?;
        for i in 0..n {
            self.bind(Place {
                pid,
                vpn: Vpn(first.0 + i),
            });
        }
        Ok(())
    }

    /// Gives up `n` places of a process from page `first` on that have no page.
    #[tactic(auto, using(crate::proofs::BoundPlaces::paging))]
    pub(crate) fn unbind_all(&mut self, pid: Pid, first: Vpn, n: u32)
        requires inside { first.0 + n ≤ 2 ^ 32 }
        requires dead { (page : ℕ) → first.0 ≤ page → page < first.0 + n →
            pages_at self.old (place_at pid page) ≡ None }
        ensures bound { is_bound_in self.new
            ≡ changed_in pid (range_from first.0 n) (is_bound_in self.old) false }
        ensures names { names_in self.new
            ≡ changed_in pid (range_from first.0 n) (names_in self.old) None }
        ensures pages { pages_at self.new ≡ pages_at self.old }
        ensures count { pages_in self.new ≡ pages_in self.old }
    {
        for i in 0..n {
            self.unbind(Place {
                pid,
                vpn: Vpn(first.0 + i),
            });
        }
    }

    /// A bound place names this key from now on.
    pub(crate) fn name(&mut self, place: Place, key: Key)
        requires { is_bound_in self.old place ≡ true }
        ensures bound { is_bound_in self.new ≡ is_bound_in self.old }
        ensures names { names_in self.new
            ≡ changed same_place (names_in self.old) place (Some key) }
        ensures pages { pages_at self.new ≡ pages_at self.old }
        ensures count { pages_in self.new ≡ pages_in self.old }
    {
        let Some(here) = self.map.get_mut(&place) else {
            unreachable!()
        };
        here.named = Some(key);
    }

    /// A page comes to stand at a bound place that has none.
    pub(crate) fn put(&mut self, place: Place, page: PageBox)
        requires bound { is_bound_in self.old place ≡ true }
        requires empty { pages_at self.old place ≡ None }
        ensures bound { is_bound_in self.new ≡ is_bound_in self.old }
        ensures names { names_in self.new ≡ names_in self.old }
        ensures pages { pages_at self.new
            ≡ changed same_place (pages_at self.old) place (Some page) }
        ensures count { pages_in self.new ≡ pages_in self.old + 1 }
    {
        let Some(here) = self.map.get_mut(&place) else {
            unreachable!()
        };
        here.page = Some(page);
    }

    /// Takes the page of a place, which then names nothing.
    pub(crate) fn take(&mut self, place: Place) -> PageBox
        requires { IsSome (pages_at self.old place) }
        ensures bound { is_bound_in self.new ≡ is_bound_in self.old }
        ensures names { names_in self.new ≡ changed same_place (names_in self.old) place None }
        ensures pages { pages_at self.new ≡ changed same_place (pages_at self.old) place None }
        ensures count { pages_in self.new + 1 ≡ pages_in self.old }
    {
        let Some(here) = self.map.get_mut(&place) else {
            unreachable!()
        };
        here.named = None;
        let Some(page) = here.page.take() else {
            unreachable!()
        };
        page
    }

    /// The page of a place.
    pub(crate) fn page(&self, place: Place) -> &PageBox
        requires { IsSome (pages_at self.now place) }
        ensures { pages_at self.now place ≡ Some result.now }
    {
        let Some(here) = self.map.get(&place) else {
            unreachable!()
        };
        let Some(page) = &here.page else {
            unreachable!()
        };
        page
    }

    /// Writes bytes of the page of a place from `off` on.
    pub(crate) fn write(&mut self, place: Place, off: u16, bytes: &[u8])
        requires live { IsSome (pages_at self.old place) }
        requires inside { off + length bytes.now ≤ 4096 }
        ensures bound { is_bound_in self.new ≡ is_bound_in self.old }
        ensures names { names_in self.new ≡ names_in self.old }
        ensures pages { pages_at self.new ≡ changed same_place (pages_at self.old) place
            (Some (written (unwrap_or (pages_at self.old place) (filled 0)) off bytes.now)) }
        ensures count { pages_in self.new ≡ pages_in self.old }
    {
        let Some(here) = self.map.get_mut(&place) else {
            unreachable!()
        };
        let Some(page) = &mut here.page else {
            unreachable!()
        };
        page.write(off, bytes);
    }
}
