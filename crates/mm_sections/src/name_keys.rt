//! Names as the keys of a map.
ghost use Rattle.std.specs.Prelude.{◌≡◌};
ghost use Rattle.std.proofs.Common.{ap};
ghost use Rattle.std.specs.Str.{bytes_eq};
ghost use Rattle.std.specs.Cmp.{partial_equiv_from_equiv};
ghost use Rattle.std.specs.Cmp.Lexicographic.{on_texts_equal, bytes_decides};
ghost use Rattle.std.specs.Hash as fed;

use mm_types::Name;
use std::hash::{Hash, Hasher};

/// A name that can be looked up by its hash.
#[derive(Clone, Copy)]
pub(crate) struct NameKey {
    name: Name,
}

impl PartialEq for NameKey {
    ghost eq = { λ a b. bytes_eq a.name b.name };

    ghost laws = { partial_equiv_from_equiv (on_texts_equal (λ k. k.name)) };

    fn eq(&self, other: &NameKey) -> bool {
        self.name.as_slice() == other.name.as_slice()
    }
}

impl Eq for NameKey {
    ghost laws = { on_texts_equal (λ k. k.name) };
}

impl Hash for NameKey {
    ghost hash_input = { λ k. fed.slice fed.u8 k.name };

    ghost respects_eq = { λ a b h. ap (fed.slice fed.u8) ((bytes_decides a.name b.name).0 h) };

    fn hash<H: Hasher>(&self, state: &mut H) {
        self.name.as_slice().hash(state);
    }
}

impl NameKey {
    pub(crate) fn new(name: &Name) -> NameKey
        ensures { result.name ≡ name.now }
    {
        NameKey { name: *name }
    }
}
