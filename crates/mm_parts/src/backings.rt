ghost use Rattle.std.specs.Prelude.{◌≡◌, ℕ, Some, false, option_map, slice_get};
ghost use Rattle.mm_move_rules.specs.{freed};
ghost use Rattle.mm_frame_laws.specs.{backing_to};
ghost use Rattle.mm_parts.specs.{home_entry, entry_backing};

use mm_page_tables::Entry;
use mm_slots::Slots;
use mm_types::{Backing, Slot, Stored};

/// The entry of a page that is in no frame, by where its bytes stand.
pub(crate) fn home(backing: Backing) -> Entry
    ensures { result ≡ home_entry backing }
{
    match backing {
        Backing::None => Entry::Zero,
        Backing::Slot(s) => Entry::Paged(s),
        Backing::Block(b) => Entry::InFile(b),
    }
}

/// Where the bytes of a page stand that is in no frame.
pub(crate) fn backing_of(entry: Entry) -> Backing
    ensures { result ≡ entry_backing entry }
{
    match entry {
        Entry::Paged(s) => Backing::Slot(s),
        Entry::InFile(b) => Backing::Block(b),
        _ => Backing::None,
    }
}

/// What backs a frame that is written to there.
pub(crate) fn target(to: Stored) -> Backing
    ensures { result ≡ backing_to to }
{
    match to {
        Stored::Slot(s) => Backing::Slot(s),
        Stored::Block(b) => Backing::Block(b),
    }
}

/// A slot, if any, is free again.
pub(crate) fn give_back(slots: &mut Slots, slot: Option<Slot>)
    requires { (s : ℕ) → option_map (λ t. t.0) slot ≡ Some s →
        slice_get slots.old.free s ≡ Some false }
    ensures { slots.new.free ≡ freed slots.old.free (option_map (λ t. t.0) slot) }
{
    if let Some(s) = slot {
        slots.put_back(s);
    }
}
