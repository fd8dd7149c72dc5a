ghost use Rattle.std.specs.Prelude.{◌≡◌, ◌^◌, ◌<◌, Some, OnSome, IfSome};
ghost use Rattle.mm_page_tables.specs.{first_number};

use mm_page_tables::{Entry, decode, encode};
use mm_types::{Area, Block, Frame, Slot};

/// The entry of an entry's word.
fn there_and_back(entry: Entry) -> Option<Entry>
    requires { first_number entry < 2 ^ 28 }
    ensures { result ≡ Some entry }
{
    decode(encode(entry))
}

/// The word of a word's entry.
fn back_and_there(word: u64) -> Option<u64>
    ensures { IfSome result (λ w. w ≡ word) }
{
    match decode(word) {
        Some(entry) => Some(encode(entry)),
        None => None,
    }
}

/// A word of each kind of entry, and its entry.
const ENTRIES: [(u64, Entry); 7] = [
    (0, Entry::Empty),
    (1, Entry::Zero),
    (0x12, Entry::Paged(Slot(1))),
    (0x23, Entry::InFile(Block(2))),
    (4, Entry::Transition(Frame(0))),
    (0x0000000700000005, Entry::Valid(Frame(0), 7)),
    (0x0000000300000056, Entry::Proto(Area(5), 3)),
];

const NO_ENTRIES: [u64; 3] = [0x17, 0x10, 0x0000000100000012];

#[test]
fn words_of_each_kind(rt: HostRuntime) {
    for (word, entry) in ENTRIES {
        assert!(rt; decode(word) == Some(entry));
        assert_eq!(rt; back_and_there(word), Some(word));
    }
    for word in NO_ENTRIES {
        assert!(rt; decode(word).is_none());
    }
}

#[test]
fn words_and_entries_are_one(rt: HostRuntime) {
    let entry = Entry::Transition(Frame(9));
    assert!(rt; there_and_back(entry) == Some(entry));
}
