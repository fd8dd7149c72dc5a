#![tactic(auto, using(crate::proofs::Joined::joined))]

ghost use Rattle.std.specs.Prelude.{◌≡◌, ◌++◌, Bool, OnOk, codes, flat_map};
ghost use Rattle.mm_move_rules.specs.{FrameLife};
ghost use Rattle.mm_replay.specs.Standing.{life as life_of};
ghost use Rattle.mm_sentences.specs.Sentences.{page_text, frame_text, at_text, process_text};
ghost use Rattle.mm_sentences.specs.Sentences.{block_text, home_text, unslot_text, freed_slot};
ghost use Rattle.mm_sentences.specs.Sentences.{freed_text, stays_text, list_text, becomes_text};
ghost use Rattle.mm_sentences.specs.Sentences.{goes_text, sentence_text};
ghost use Rattle.mm_sentences.specs.Pieces.{name_text, piece_text};

use crate::facts::Facts;
use crate::states::{FrameState, put_state, state_of};
use crate::words::{put_counted, put_key, put_number, put_numbered, put_place, put_words};
use mm_move_classes::Class;
use mm_replay::Life;
use mm_types::{Block, Frame, Held, Key, NoMemory, Place, Slot};

// ---- what stands for a name

fn put_page(key: Option<Key>, text: &mut Vec<u8>) -> Result<(), NoMemory>
    ensures { OnOk result (text.new.items ≡ text.old.items ++ page_text key) }
{
    match key {
        Some(key) => put_key(key, text),
        None => put_words(b"-", text),
    }
}

fn put_frame(frame: Option<Frame>, text: &mut Vec<u8>) -> Result<(), NoMemory>
    ensures { OnOk result (text.new.items ≡ text.old.items ++ frame_text frame) }
{
    match frame {
        Some(frame) => put_number(u64::from(frame.0), text),
        None => Ok(()),
    }
}

fn put_at(addressed: bool, place: Option<Place>, text: &mut Vec<u8>) -> Result<(), NoMemory>
    ensures { OnOk result (text.new.items ≡ text.old.items ++ at_text addressed place) }
{
    match place {
        Some(place) => put_place(addressed, place, text),
        None => Ok(()),
    }
}

fn put_process(place: Option<Place>, text: &mut Vec<u8>) -> Result<(), NoMemory>
    ensures { OnOk result (text.new.items ≡ text.old.items ++ process_text place) }
{
    match place {
        Some(place) => put_number(u64::from(place.pid.0), text),
        None => Ok(()),
    }
}

fn put_block(block: Option<Block>, text: &mut Vec<u8>) -> Result<(), NoMemory>
    ensures { OnOk result (text.new.items ≡ text.old.items ++ block_text block) }
{
    match block {
        Some(block) => put_number(u64::from(block.0), text),
        None => Ok(()),
    }
}

fn put_home(home: Held, text: &mut Vec<u8>) -> Result<(), NoMemory>
    ensures { OnOk result (text.new.items ≡ text.old.items ++ home_text home) }
{
    match home {
        Held::Slot(slot) => put_counted(b"slot ", u64::from(slot.0), text),
        Held::Block(block) => put_counted(b"block ", u64::from(block.0), text),
        Held::Frame(_) | Held::Zero | Held::Dead => put_words(b"zeros", text),
    }
}

fn put_unslot(slot: Option<Slot>, text: &mut Vec<u8>) -> Result<(), NoMemory>
    ensures { OnOk result (text.new.items ≡ text.old.items ++ unslot_text slot) }
{
    match slot {
        Some(slot) => put_numbered(b"; its slot ", u64::from(slot.0), b" is free", text),
        None => Ok(()),
    }
}

fn put_freed_slot(slot: Option<Slot>, text: &mut Vec<u8>) -> Result<(), NoMemory>
    ensures { OnOk result (text.new.items ≡ text.old.items ++ freed_slot slot) }
{
    match slot {
        Some(slot) => put_numbered(b"; slot ", u64::from(slot.0), b" is free", text),
        None => Ok(()),
    }
}

fn put_freed(frame: Option<Frame>, slot: Option<Slot>, text: &mut Vec<u8>) -> Result<(), NoMemory>
    ensures { OnOk result (text.new.items ≡ text.old.items ++ freed_text frame slot) }
{
    match frame {
        Some(frame) => put_numbered(b"; frame ", u64::from(frame.0), b" is free", text),
        None => put_freed_slot(slot, text),
    }
}

fn put_stays(place: Option<Place>, text: &mut Vec<u8>) -> Result<(), NoMemory>
    ensures { OnOk result (text.new.items ≡ text.old.items ++ stays_text place) }
{
    match place {
        Some(_) => put_words(b" stays active", text),
        None => Ok(()),
    }
}

fn put_list(state: FrameState, text: &mut Vec<u8>) -> Result<(), NoMemory>
    ensures { OnOk result (text.new.items ≡ text.old.items ++ list_text state) }
{
    put_words(b"; it goes to the ", text)?;
    put_state(state, text)?;
    put_words(b" list", text)
}

fn put_becomes(place: Option<Place>, state: FrameState, text: &mut Vec<u8>) -> Result<(), NoMemory>
    ensures { OnOk result (text.new.items ≡ text.old.items ++ becomes_text place state) }
{
    match state {
        FrameState::Active => put_stays(place, text),
        FrameState::BeingWritten => put_words(b" is being written still", text),
        FrameState::Free | FrameState::Standby | FrameState::Modified => put_list(state, text),
        FrameState::BeingRead | FrameState::Zeroed => Ok(()),
    }
}

/// Writes what becomes of a frame; `after` is the state after the move.
fn put_goes(after: &Life, facts: &Facts, text: &mut Vec<u8>) -> Result<(), NoMemory>
    ensures { OnOk result (text.new.items ≡ text.old.items
        ++ goes_text (life_of after.now) facts.now.place facts.now.frame) }
{
    match facts.frame {
        Some(frame) => put_becomes(facts.place, state_of(after, frame), text),
        None => Ok(()),
    }
}

// ---- each sentence

/// What stands for a name in braces; `End` is nothing.
#[derive(Clone, Copy)]
enum Name {
    Page,
    Frame,
    Place,
    Process,
    Block,
    Home,
    Freed,
    Unslot,
    Goes,
    End,
}

/// Words of a sentence, and the name behind them.
#[derive(Clone, Copy)]
struct Piece(&'static [u8], Name);

/// Writes what stands for a name.
fn put_name(
    name: Name,
    facts: &Facts,
    addressed: bool,
    after: &Life,
    text: &mut Vec<u8>,
) -> Result<(), NoMemory>
    ensures { OnOk result (text.new.items ≡ text.old.items
        ++ name_text addressed facts.now (life_of after.now) name) }
{
    match name {
        Name::Page => put_page(facts.key, text),
        Name::Frame => put_frame(facts.frame, text),
        Name::Place => put_at(addressed, facts.place, text),
        Name::Process => put_process(facts.place, text),
        Name::Block => put_block(facts.block, text),
        Name::Home => put_home(facts.home, text),
        Name::Freed => put_freed(facts.frame, facts.slot, text),
        Name::Unslot => put_unslot(facts.slot, text),
        Name::Goes => put_goes(after, facts, text),
        Name::End => Ok(()),
    }
}

/// Writes words, and what stands for the name behind them.
fn put_piece(
    piece: Piece,
    facts: &Facts,
    addressed: bool,
    after: &Life,
    text: &mut Vec<u8>,
) -> Result<(), NoMemory>
    ensures { OnOk result (text.new.items ≡ text.old.items
        ++ piece_text addressed facts.now (life_of after.now) piece) }
{
    put_words(piece.0, text)?;
    put_name(piece.1, facts, addressed, after, text)
}

/// Writes pieces one after another.
fn put_pieces(
    pieces: &[Piece],
    facts: &Facts,
    addressed: bool,
    after: &Life,
    text: &mut Vec<u8>,
) -> Result<(), NoMemory>
    ensures { OnOk result (text.new.items ≡ text.old.items
        ++ flat_map (piece_text addressed facts.now (life_of after.now)) pieces.now) }
{
    for piece in pieces {
        put_piece(*piece, facts, addressed, after, text)?;
    }
    Ok(())
}

/// The sentence of a class, cut behind each of its names: no brace is sought while a log is told.
fn pieces_of(class: Class) -> &'static [Piece]
    ensures { (addressed : Bool) (x : Facts) (after : FrameLife)
        → flat_map (piece_text addressed x after) result.now
        ≡ sentence_text addressed class x after }
{
    match class {
        Class::DemandZeroAdded => &[
            Piece(b"page ", Name::Page),
            Piece(b" comes to be, demand-zero: no frame yet", Name::End),
        ],
        Class::FilePageAdded => &[
            Piece(b"file page ", Name::Page),
            Piece(b" comes to be, its bytes in file block ", Name::Block),
        ],
        Class::CopyOnWriteFault => &[
            Piece(b"copy-on-write fault: page ", Name::Page),
            Piece(b" becomes private", Name::End),
        ],
        Class::Deleted => &[
            Piece(b"page ", Name::Page),
            Piece(b" is deleted", Name::Freed),
        ],
        Class::DeletedInFlight => &[
            Piece(b"page ", Name::Page),
            Piece(b" is deleted; its I/O keeps frame ", Name::Frame),
            Piece(b" until it ends", Name::End),
        ],
        Class::ZeroedByThread => &[Piece(b"zero page thread clears free frame ", Name::Frame)],
        Class::ZeroedOnDemand => &[
            Piece(b"free frame ", Name::Frame),
            Piece(b" is zeroed on demand", Name::End),
        ],
        Class::StandbyRepurposed => &[
            Piece(b"standby frame ", Name::Frame),
            Piece(b" is repurposed: ", Name::Page),
            Piece(b" is now only in ", Name::Home),
        ],
        Class::DemandZeroFault => &[
            Piece(b"demand-zero fault: ", Name::Page),
            Piece(b" gets zeroed frame ", Name::Frame),
        ],
        Class::FrameForCopy => &[
            Piece(b"zeroed frame ", Name::Frame),
            Piece(b" is taken for the copy ", Name::Page),
        ],
        Class::HardFaultFromPagingFile => &[
            Piece(b"hard fault: ", Name::Page),
            Piece(b" is read from paging-file ", Name::Home),
            Piece(b" into frame ", Name::Frame),
        ],
        Class::HardFaultFromFile => &[
            Piece(b"hard fault: ", Name::Page),
            Piece(b" is read from file ", Name::Home),
            Piece(b" into frame ", Name::Frame),
        ],
        Class::PageInDone => &[
            Piece(b"page-in of ", Name::Page),
            Piece(b" into frame ", Name::Frame),
            Piece(b" is complete", Name::End),
        ],
        Class::CollidedFault => &[
            Piece(b"collided fault: the page-in of ", Name::Page),
            Piece(b" that was in flight completes in frame ", Name::Frame),
        ],
        Class::PageInDoneDeleted => &[
            Piece(b"page-in into frame ", Name::Frame),
            Piece(
                b" is complete; its page was deleted, so the frame is free",
                Name::End,
            ),
        ],
        Class::PageInFailed => &[
            Piece(b"page-in of ", Name::Page),
            Piece(b" FAILED: frame ", Name::Frame),
            Piece(b" is free again", Name::End),
        ],
        Class::PageInFailedDeleted => &[
            Piece(b"page-in into frame ", Name::Frame),
            Piece(
                b" FAILED; its page was deleted, so the frame is free",
                Name::End,
            ),
        ],
        Class::MadeValid => &[
            Piece(b"", Name::Page),
            Piece(b" is valid at ", Name::Place),
            Piece(b": frame ", Name::Frame),
            Piece(b" is active", Name::End),
        ],
        Class::FirstUse => &[
            Piece(b"", Name::Page),
            Piece(b", read in by an earlier line, is valid at ", Name::Place),
            Piece(b": frame ", Name::Frame),
            Piece(b" is active", Name::End),
        ],
        Class::SoftFaultFromStandby => &[
            Piece(b"soft fault: ", Name::Page),
            Piece(b" is found on the standby list, frame ", Name::Frame),
            Piece(b", and valid at ", Name::Place),
        ],
        Class::SoftFaultFromModified => &[
            Piece(b"soft fault: ", Name::Page),
            Piece(b" is found on the modified list, frame ", Name::Frame),
            Piece(b", and valid at ", Name::Place),
        ],
        Class::SoftFaultInTransition => &[
            Piece(b"soft fault: ", Name::Page),
            Piece(
                b" is found in transition (being written), frame ",
                Name::Frame,
            ),
            Piece(b", and valid at ", Name::Place),
        ],
        Class::SoftFaultShared => &[
            Piece(b"soft fault: ", Name::Page),
            Piece(b" is active already, frame ", Name::Frame),
            Piece(b", and now shared at ", Name::Place),
        ],
        Class::PlaceEnds => &[
            Piece(b"", Name::Place),
            Piece(b" ends: frame ", Name::Frame),
            Piece(b" leaves the working set of process ", Name::Process),
            Piece(b"", Name::Goes),
        ],
        Class::Trimmed => &[
            Piece(b"", Name::Place),
            Piece(
                b" is trimmed from the working set of process ",
                Name::Process,
            ),
            Piece(b": frame ", Name::Frame),
            Piece(b"", Name::Goes),
        ],
        Class::TrimmedForWantOfFrames => &[
            Piece(b"", Name::Place),
            Piece(
                b" is trimmed from the working set of process ",
                Name::Process,
            ),
            Piece(b" for want of frames: frame ", Name::Frame),
            Piece(b"", Name::Goes),
        ],
        Class::Replaced => &[
            Piece(b"", Name::Place),
            Piece(b" is replaced: the working set of process ", Name::Process),
            Piece(b" is full: frame ", Name::Frame),
            Piece(b"", Name::Goes),
        ],
        Class::MakesWayForCopy => &[
            Piece(b"at ", Name::Place),
            Piece(b" the shared page ", Name::Page),
            Piece(b" makes way for the copy: frame ", Name::Frame),
            Piece(b"", Name::Goes),
        ],
        Class::FirstWrite => &[
            Piece(b"first write to ", Name::Page),
            Piece(b": frame ", Name::Frame),
            Piece(b" is changed", Name::Unslot),
        ],
        Class::FirstWriteInFlight => &[
            Piece(b"first write to ", Name::Page),
            Piece(b" while it is being written: frame ", Name::Frame),
            Piece(b" will stay changed", Name::End),
        ],
        Class::WriteByWriter => &[
            Piece(b"modified page writer writes ", Name::Page),
            Piece(b": frame ", Name::Frame),
            Piece(b" to ", Name::Home),
        ],
        Class::WriteForWantOfFrames => &[
            Piece(b"write-out for want of frames: ", Name::Page),
            Piece(b", frame ", Name::Frame),
            Piece(b" to ", Name::Home),
        ],
        Class::WriteByFlush => &[
            Piece(b"flush writes ", Name::Page),
            Piece(b": frame ", Name::Frame),
            Piece(b" to ", Name::Home),
        ],
        Class::WriteDone => &[
            Piece(b"write-out of ", Name::Page),
            Piece(b" is complete: frame ", Name::Frame),
            Piece(b" is clean", Name::Goes),
        ],
        Class::WriteDoneChanged => &[
            Piece(b"write-out of ", Name::Page),
            Piece(
                b" is complete, but it was changed meanwhile: frame ",
                Name::Frame,
            ),
            Piece(b" stays changed", Name::Goes),
        ],
        Class::WriteDoneDeleted => &[
            Piece(b"write-out of frame ", Name::Frame),
            Piece(
                b" is complete; its page was deleted, so the frame is free",
                Name::End,
            ),
        ],
        Class::WriteFailed => &[
            Piece(b"write-out of ", Name::Page),
            Piece(b" FAILED: frame ", Name::Frame),
            Piece(b" stays changed", Name::Goes),
        ],
        Class::WriteFailedDeleted => &[
            Piece(b"write-out of frame ", Name::Frame),
            Piece(
                b" FAILED; its page was deleted, so the frame is free",
                Name::End,
            ),
        ],
    }
}

/// Writes a move in words, without a line feed: the sentence of its class, with the facts from the
/// state before it. `after` is the state after it. With `addressed` an address stands behind each
/// place.
pub fn put_sentence(
    class: Class,
    facts: &Facts,
    addressed: bool,
    after: &Life,
    text: &mut Vec<u8>,
) -> Result<(), NoMemory>
    ensures { OnOk result (text.new.items ≡ text.old.items
        ++ sentence_text addressed class facts.now (life_of after.now)) }
{
    put_pieces(pieces_of(class), facts, addressed, after, text)
}
