ghost use Rattle.std.specs.Prelude.{◌≡◌, ◌+◌, ◌*◌, ◌^◌, ◌<◌, Some, IfSome, MatchOption, is_none};
ghost use Rattle.mm_page_tables.specs.Layout.{entry_word, first_number, IsEntry, is_no_entry};
ghost use Rattle.mm_page_tables.specs.Entries.{entry_in};

use mm_types::{Area, Block, Frame, Slot};

/// What a page-table word or a prototype word says of its page.
#[derive(Clone, Copy, PartialEq, Eq)]
pub enum Entry {
    /// There is no page.
    Empty,
    /// The page is all zero and stands nowhere (a demand-zero entry).
    Zero,
    /// The page stands in this slot of the paging file.
    Paged(Slot),
    /// The page stands in this block of the file device.
    InFile(Block),
    /// The page is in this frame, which no valid entry names for this word.
    Transition(Frame),
    /// The page is in this frame and mapped. In a page table the number is the page's place in its
    /// working set, in a prototype word it is 0.
    Valid(Frame, u32),
    /// The word is that of a control area's page, by its index there.
    Proto(Area, u32),
}

/// The word with this tag, first number and second number.
fn joined(tag: u64, first: u32, second: u32) -> u64
    requires tag { tag < 16 }
    requires first { first < 2 ^ 28 }
    ensures { result ≡ tag + 16 * first + 2 ^ 32 * second }
{
    tag + 16 * u64::from(first) + 0x1_0000_0000 * u64::from(second)
}

/// The word of an entry, whose first number is below 2^28.
pub fn encode(entry: Entry) -> u64
    requires { first_number entry < 2 ^ 28 }
    ensures { result ≡ entry_word entry }
{
    match entry {
        Entry::Empty => 0,
        Entry::Zero => 1,
        Entry::Paged(slot) => joined(2, slot.0, 0),
        Entry::InFile(block) => joined(3, block.0, 0),
        Entry::Transition(frame) => joined(4, frame.0, 0),
        Entry::Valid(frame, place) => joined(5, frame.0, place),
        Entry::Proto(area, index) => joined(6, area.0, index),
    }
}

/// The entry of a word. `None` comes exactly where the tag is above 6, or a number that an entry of
/// that tag does not have is not 0.
#[tactic(auto, unfolding(crate::specs::Entries::entry_in))]
pub fn decode(word: u64) -> Option<Entry>
    ensures value { MatchOption result (entry_in word ≡ Entry.Empty) (λ e. e ≡ entry_in word) }
    ensures entry { (e : Entry) → IsEntry e → word ≡ entry_word e → result ≡ Some e }
    ensures word_again { IfSome result (λ e. IsEntry e × (entry_word e ≡ word)) }
    ensures none { is_none result ≡ is_no_entry word }
{
    let tag = word % 16;
    let first = (word / 16 % 0x1000_0000) as u32;
    let second = (word / 0x1_0000_0000) as u32;
    match tag {
        0 if first == 0 && second == 0 => Some(Entry::Empty),
        1 if first == 0 && second == 0 => Some(Entry::Zero),
        2 if second == 0 => Some(Entry::Paged(Slot(first))),
        3 if second == 0 => Some(Entry::InFile(Block(first))),
        4 if second == 0 => Some(Entry::Transition(Frame(first))),
        5 => Some(Entry::Valid(Frame(first), second)),
        6 => Some(Entry::Proto(Area(first), second)),
        _ => None,
    }
}

/// The entry of a word; a word that no entry has is read as `Empty`.
pub fn entry_of(word: u64) -> Entry
    ensures { result ≡ entry_in word }
{
    match decode(word) {
        Some(entry) => entry,
        None => Entry::Empty,
    }
}
