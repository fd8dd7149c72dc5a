ghost use Rattle.mm_page_tables.specs.Shown as tables;
ghost use Rattle.mm_parts.specs.Kept.{PartsKept};

use mm_page_tables::Words;
use mm_pfn_database::Frames;
use mm_requests::Flight;
use mm_slots::Slots;
use mm_types::{Frame, LineKind, Machine};

/// Frames, words, slots and requests, joined.
///
/// Contracts see what they show: the state of the replay, the bytes of the frames, ages, waits, and
/// which place names which key.
#[derive(Drop)]
pub struct Parts {
    pub(crate) machine: Machine,
    pub(crate) line: u32,
    pub(crate) kind: LineKind,
    pub(crate) paging_keys: u32,
    // For each block whether a key was ever added with it.
    pub(crate) added: Vec<bool>,
    pub frames: Frames,
    pub(crate) words: Words,
    pub(crate) slots: Slots,
    pub(crate) flight: Flight,
    // The line's own request, the youngest.
    pub(crate) own: Option<Frame>,
    ghost kept: { PartsKept (record {
      line = record {
        machine = machine;
        line = line;
        kind = kind;
        paging_keys = paging_keys;
        added = added.items;
      };
      table = frames.table;
      bytes = frames.bytes;
      free = slots.free;
      words = tables.words words;
      ages = tables.place_ages words;
      flight = flight;
      own = own;
    }) },
}
