ghost use Rattle.std.specs.Prelude.{◌≡◌, ◌*◌, ◌^◌, ◌<◌, ◌++◌, OnOk};
ghost use Rattle.mm_csv.specs.{csv_next, csv_nexts};
ghost use Rattle.mm_replay.specs.Standing.{life as life_of};
ghost use Rattle.mm_events.specs.{page_of_key, page_or_key_page, page_of_move, line_process, process_or_line, process_of_move, page_column, option_text, address_column};
ghost use Rattle.mm_events.specs.{page_columns, key_field, frame_column, state_field, state_in, frame_columns};

use mm_csv::put_next;
use mm_replay::Life;
use mm_sentences::{Facts, FrameState, put_key, put_state, state_of};
use mm_text::{LineBuf, put_decimal, put_hex_short};
use mm_types::{Frame, Key, LineKind, NoMemory, Place};

/// The place of a private page.
fn page_of_key(key: Option<Key>) -> Option<Place>
    ensures { result ≡ page_of_key key }
{
    match key {
        Some(Key::Private(pid, vpn)) => Some(Place { pid, vpn }),
        Some(Key::Shared(_, _)) | None => None,
    }
}

/// The virtual page that a move is about.
fn page_of_move(facts: &Facts) -> Option<Place>
    ensures { result ≡ page_of_move facts.now }
{
    match facts.place {
        Some(place) => Some(place),
        None => page_of_key(facts.key),
    }
}

/// The process that a line is of.
fn line_process(kind: LineKind) -> Option<u32>
    ensures { result ≡ line_process kind }
{
    match kind {
        LineKind::Process(pid, _, _)
        | LineKind::Unbind(pid)
        | LineKind::Access(pid)
        | LineKind::Thread(pid)
        | LineKind::Trim(pid) => Some(u32::from(pid.0)),
        _ => None,
    }
}

/// The process of a page, or else of a line.
fn process_or_line(page: Option<Place>, kind: LineKind) -> Option<u32>
    ensures { result ≡ process_or_line page kind }
{
    match page {
        Some(place) => Some(u32::from(place.pid.0)),
        None => line_process(kind),
    }
}

fn page_column(page: Option<Place>) -> Option<u32>
    ensures { result ≡ page_column page }
{
    match page {
        Some(place) => Some(place.vpn.0),
        None => None,
    }
}

fn frame_column(frame: Option<Frame>) -> Option<u32>
    ensures { result ≡ frame_column frame }
{
    match frame {
        Some(frame) => Some(frame.0),
        None => None,
    }
}

/// Writes a number as the next field; none is an empty field.
#[tactic(auto, using(mm_text::proofs::DigitCounts::joined))]
fn put_number(n: Option<u32>, text: &mut Vec<u8>) -> Result<(), NoMemory>
    ensures { OnOk result (text.new.items ≡ text.old.items ++ csv_next (option_text n)) }
{
    let mut line = LineBuf::new();
    if let Some(n) = n {
        put_decimal(&mut line, u64::from(n));
    }
    put_next(line.as_slice(), text)
}

/// Writes the address of a page of this number into an empty line, where it is one of user space.
#[tactic(auto, using(mm_text::proofs::Spelled::lengths))]
fn address_of(page: Option<u32>) -> LineBuf
    ensures { result ≡ address_column page }
{
    let mut line = LineBuf::new();
    if let Some(page) = page {
        if page < 1048576 {
            put_hex_short(&mut line, page * 4096);
        }
    }
    line
}

/// Writes the columns of the page: its process, its number, its address.
#[tactic(auto, using(mm_sentences::proofs::Joined::joined))]
pub(crate) fn put_page(facts: &Facts, kind: LineKind, text: &mut Vec<u8>) -> Result<(), NoMemory>
    ensures { OnOk result (text.new.items
        ≡ text.old.items ++ csv_nexts (page_columns facts.now kind)) }
{
    let page = page_of_move(facts);
    put_number(process_or_line(page, kind), text)?;
    put_number(page_column(page), text)?;
    put_next(address_of(page_column(page)).as_slice(), text)
}

/// Writes a key, if there is one.
fn put_key_field(key: Option<Key>, field: &mut Vec<u8>) -> Result<(), NoMemory>
    ensures { OnOk result (field.new.items ≡ field.old.items ++ key_field key) }
{
    match key {
        Some(key) => put_key(key, field),
        None => Ok(()),
    }
}

/// Writes the state of a frame, if there is one.
fn put_state_field(state: Option<FrameState>, field: &mut Vec<u8>) -> Result<(), NoMemory>
    ensures { OnOk result (field.new.items ≡ field.old.items ++ state_field state) }
{
    match state {
        Some(state) => put_state(state, field),
        None => Ok(()),
    }
}

/// Writes a key as the next field. What was in the room for a field is lost.
fn put_key_next(key: Option<Key>, room: &mut Vec<u8>, text: &mut Vec<u8>) -> Result<(), NoMemory>
    ensures { OnOk result (text.new.items ≡ text.old.items ++ csv_next (key_field key)) }
{
    room.clear();
    put_key_field(key, room)?;
    put_next(room.as_slice(), text)
}

/// Writes a state as the next field.
fn put_state_next(
    state: Option<FrameState>,
    room: &mut Vec<u8>,
    text: &mut Vec<u8>,
) -> Result<(), NoMemory>
    ensures { OnOk result (text.new.items ≡ text.old.items ++ csv_next (state_field state)) }
{
    room.clear();
    put_state_field(state, room)?;
    put_next(room.as_slice(), text)
}

/// The state of a frame, if there is one.
pub(crate) fn state_in(life: &Life, frame: Option<Frame>) -> Option<FrameState>
    ensures { result ≡ state_in (life_of life.now) frame }
{
    match frame {
        Some(frame) => Some(state_of(life, frame)),
        None => None,
    }
}

/// Writes the columns of the frame: the key of its page, its number, its state before the move and
/// after it.
#[tactic(auto, using(mm_sentences::proofs::Joined::joined))]
pub(crate) fn put_frame(
    facts: &Facts,
    was: Option<FrameState>,
    after: &Life,
    room: &mut Vec<u8>,
    text: &mut Vec<u8>,
) -> Result<(), NoMemory>
    ensures { OnOk result (text.new.items
        ≡ text.old.items ++ csv_nexts (frame_columns facts.now was (life_of after.now))) }
{
    put_key_next(facts.key, room, text)?;
    put_number(frame_column(facts.frame), text)?;
    put_state_next(was, room, text)?;
    put_state_next(state_in(after, facts.frame), room, text)
}
