#![tactic(auto, using(crate::proofs::Joined::joined))]

ghost use Rattle.std.specs.Prelude.{◌≡◌, ◌+◌, ◌<◌, ◌^◌, ◌++◌, [], OnOk, codes, if◌then◌else◌, length};
ghost use Rattle.mm_types.specs.{decimal};
ghost use Rattle.mm_replay.specs.Standing.{life as life_of};
ghost use Rattle.mm_replay.specs.{frames_on};
ghost use Rattle.mm_move_rules.specs.{is_read, set_of, move_text, place_onto};
ghost use Rattle.mm_sentences.specs.{name_of_list, about, counted_words, line_is, frame_is, page_is, place_is, first_is, not_first, not_empty};
ghost use Rattle.mm_sentences.specs.{depth_is, stands_text, mapped_at, holds_what, pages_are, set_is, no_process, at_max, at_min, keeps_place};
ghost use Rattle.mm_sentences.specs.{no_paging_text, request_is, not_lowest, not_modified, keeps_block, part_text, part_words, refusal_text, why_not};
ghost use Rattle.mm_sentences.specs.declared.parts.Part.TheVariants as part;

use crate::parts::Part;
use crate::refusals::{limit, refusal};
use crate::states::{FrameState, state_text};
use crate::words::{
    put_counted, put_key, put_kind, put_number, put_numbered, put_place, put_words,
};
use mm_log_writer::spell;
use mm_move_classes::{is_access, is_read, is_thread, is_touch, is_writer, touches, trims};
use mm_move_rules::ResidentSet;
use mm_replay::{FrameList, Life};
use mm_text::LineBuf;
use mm_types::{Block, Frame, Held, Key, Move, NoMemory, Pid, Place, Request, Slot};

// ---- pieces

/// Writes the line, and what it is not.
fn put_line_is(life: &Life, behind: &[u8], text: &mut Vec<u8>) -> Result<(), NoMemory>
    ensures { OnOk result (text.new.items ≡ text.old.items
        ++ line_is (life_of life.now) behind.now) }
{
    put_numbered(b"line ", u64::from(life.line()), b" (", text)?;
    put_kind(life.kind(), text)?;
    put_words(b")", text)?;
    put_words(behind, text)
}

/// Writes the line, what it is not, and a process.
fn put_line_of(life: &Life, words: &[u8], pid: Pid, text: &mut Vec<u8>) -> Result<(), NoMemory>
    ensures { OnOk result (text.new.items ≡ text.old.items
        ++ line_is (life_of life.now) (counted_words words.now pid.0)) }
{
    put_line_is(life, words, text)?;
    put_number(u64::from(pid.0), text)
}

fn put_frame_is(frame: Frame, behind: &[u8], text: &mut Vec<u8>) -> Result<(), NoMemory>
    ensures { OnOk result (text.new.items ≡ text.old.items ++ frame_is frame behind.now) }
{
    put_numbered(b"frame ", u64::from(frame.0), behind, text)
}

fn put_page_is(key: Key, behind: &[u8], text: &mut Vec<u8>) -> Result<(), NoMemory>
    ensures { OnOk result (text.new.items ≡ text.old.items ++ page_is key behind.now) }
{
    put_words(b"page ", text)?;
    put_key(key, text)?;
    put_words(behind, text)
}

/// Writes a page, words and a number.
fn put_page_counted(key: Key, words: &[u8], n: u32, text: &mut Vec<u8>) -> Result<(), NoMemory>
    ensures { OnOk result
        (text.new.items ≡ text.old.items ++ page_is key (counted_words words.now n)) }
{
    put_page_is(key, words, text)?;
    put_number(u64::from(n), text)
}

/// Writes that there is no such page.
fn put_no_page(key: Key, text: &mut Vec<u8>) -> Result<(), NoMemory>
    ensures { OnOk result (text.new.items ≡ text.old.items
        ++ (codes "there is no " ++ page_is key [])) }
{
    put_words(b"there is no ", text)?;
    put_page_is(key, b"", text)
}

fn put_place_is(place: Place, behind: &[u8], text: &mut Vec<u8>) -> Result<(), NoMemory>
    ensures { OnOk result (text.new.items ≡ text.old.items ++ place_is place behind.now) }
{
    put_place(false, place, text)?;
    put_words(behind, text)
}

/// The name of a list.
fn list_name(list: FrameList) -> &'static [u8]
    ensures { result.now ≡ name_of_list list }
{
    match list {
        FrameList::Zeroed => state_text(FrameState::Zeroed),
        FrameList::Free => state_text(FrameState::Free),
        FrameList::Standby => state_text(FrameState::Standby),
        FrameList::Modified => state_text(FrameState::Modified),
    }
}

/// Writes that a list has no frame.
fn put_none(list: FrameList, text: &mut Vec<u8>) -> Result<(), NoMemory>
    ensures { OnOk result (text.new.items ≡ text.old.items
        ++ (codes "; " ++ (name_of_list list ++ codes ": none"))) }
{
    put_words(b"; ", text)?;
    put_words(list_name(list), text)?;
    put_words(b": none", text)
}

/// Writes which frame is the first of a list.
#[tactic(auto, using(crate::proofs::Joined::joined, crate::proofs::Walking::heads))]
fn put_first_is(life: &Life, list: FrameList, text: &mut Vec<u8>) -> Result<(), NoMemory>
    ensures { OnOk result (text.new.items ≡ text.old.items
        ++ first_is (name_of_list list) (frames_on (life_of life.now).frames list)) }
{
    match life.first_on(list) {
        Some(frame) => put_counted(b"; the first is ", u64::from(frame.0), text),
        None => put_none(list, text),
    }
}

/// Writes that a frame is not the first of a list.
fn put_not_first(
    life: &Life,
    list: FrameList,
    frame: Frame,
    text: &mut Vec<u8>,
) -> Result<(), NoMemory>
    ensures { OnOk result (text.new.items ≡ text.old.items
        ++ not_first (name_of_list list) (frames_on (life_of life.now).frames list) frame) }
{
    put_frame_is(frame, b" is not the first ", text)?;
    put_words(list_name(list), text)?;
    put_words(b" frame", text)?;
    put_first_is(life, list, text)
}

/// Writes the name of a list, words, and which frame is its first.
fn put_list_is(
    life: &Life,
    list: FrameList,
    words: &[u8],
    text: &mut Vec<u8>,
) -> Result<(), NoMemory>
    ensures { OnOk result (text.new.items ≡ text.old.items ++ (name_of_list list ++ (words.now
        ++ first_is (name_of_list list) (frames_on (life_of life.now).frames list)))) }
{
    put_words(list_name(list), text)?;
    put_words(words, text)?;
    put_first_is(life, list, text)
}

/// Writes that a list is not empty.
fn put_not_empty(life: &Life, list: FrameList, text: &mut Vec<u8>) -> Result<(), NoMemory>
    ensures { OnOk result (text.new.items ≡ text.old.items
        ++ not_empty (name_of_list list) (frames_on (life_of life.now).frames list)) }
{
    put_list_is(life, list, b" is not empty", text)
}

/// Writes a number, words, and a number.
fn put_two(first: u32, words: &[u8], second: u32, text: &mut Vec<u8>) -> Result<(), NoMemory>
    ensures { OnOk result (text.new.items ≡ text.old.items
        ++ (decimal first ++ counted_words words.now second)) }
{
    put_number(u64::from(first), text)?;
    put_counted(words, u64::from(second), text)
}

/// Writes how many requests are in flight, and the depth.
fn put_depth_is(life: &Life, text: &mut Vec<u8>) -> Result<(), NoMemory>
    ensures { OnOk result (text.new.items ≡ text.old.items ++ depth_is (life_of life.now)) }
{
    put_two(
        life.requests(),
        b" requests are in flight, and the depth is ",
        life.depth(),
        text,
    )
}

/// Writes where a page stands.
fn put_stands(key: Key, held: Held, text: &mut Vec<u8>) -> Result<(), NoMemory>
    ensures { OnOk result (text.new.items ≡ text.old.items ++ stands_text key held) }
{
    match held {
        Held::Frame(frame) => put_page_counted(key, b" is in frame ", frame.0, text),
        Held::Slot(slot) => put_page_counted(key, b" is in slot ", slot.0, text),
        Held::Block(block) => put_page_counted(key, b" is in block ", block.0, text),
        Held::Zero => put_page_is(key, b" is demand-zero", text),
        Held::Dead => put_no_page(key, text),
    }
}

/// Writes at how many places a page is valid.
fn put_mapped(life: &Life, key: Key, held: Held, text: &mut Vec<u8>) -> Result<(), NoMemory>
    ensures { OnOk result (text.new.items ≡ text.old.items
        ++ mapped_at (life_of life.now) key held) }
{
    match held {
        Held::Frame(frame) => {
            let shares = u64::from(life.record(frame).shares);
            put_page_is(key, b" is valid at ", text)?;
            put_numbered(b"", shares, b" places", text)
        }
        Held::Slot(_) | Held::Block(_) | Held::Zero | Held::Dead => Ok(()),
    }
}

/// Writes a page, words and a place.
fn put_page_at(key: Key, words: &[u8], place: Place, text: &mut Vec<u8>) -> Result<(), NoMemory>
    ensures { OnOk result (text.new.items ≡ text.old.items
        ++ page_is key (words.now ++ place_onto place [])) }
{
    put_page_is(key, words, text)?;
    put_place(false, place, text)
}

/// Writes a frame, words, a page, words and a place.
fn put_frame_page(
    frame: Frame,
    front: &[u8],
    key: Key,
    words: &[u8],
    place: Place,
    text: &mut Vec<u8>,
) -> Result<(), NoMemory>
    ensures { OnOk result (text.new.items ≡ text.old.items
        ++ frame_is frame (front.now ++ page_is key (words.now ++ place_onto place []))) }
{
    put_frame_is(frame, front, text)?;
    put_page_at(key, words, place, text)
}

/// Writes a frame, words and a number.
fn put_frame_counted(frame: Frame, words: &[u8], n: u32, text: &mut Vec<u8>) -> Result<(), NoMemory>
    ensures { OnOk result (text.new.items ≡ text.old.items
        ++ frame_is frame (counted_words words.now n)) }
{
    put_frame_is(frame, words, text)?;
    put_number(u64::from(n), text)
}

/// Writes what a frame holds that is no page of this place.
fn put_holds(
    frame: Frame,
    place: Place,
    owner: Option<Key>,
    text: &mut Vec<u8>,
) -> Result<(), NoMemory>
    ensures { OnOk result (text.new.items ≡ text.old.items ++ holds_what frame place owner) }
{
    match owner {
        None => put_frame_is(frame, b" holds no page", text),
        Some(key) => put_frame_page(frame, b" holds ", key, b", no page of ", place, text),
    }
}

/// Writes words, a name, and a number behind ` is `.
fn put_limit(
    words: &[u8],
    name: &[u8],
    link: &[u8],
    limit: u32,
    text: &mut Vec<u8>,
) -> Result<(), NoMemory>
    ensures { OnOk result (text.new.items ≡ text.old.items
        ++ (words.now ++ (name.now ++ counted_words link.now limit))) }
{
    put_words(words, text)?;
    put_words(name, text)?;
    put_counted(link, u64::from(limit), text)
}

/// Writes words, a number, and what `put_limit` writes.
fn put_pages(
    front: &[u8],
    resident: u32,
    words: &[u8],
    name: &[u8],
    link: &[u8],
    limit: u32,
    text: &mut Vec<u8>,
) -> Result<(), NoMemory>
    ensures { OnOk result (text.new.items ≡ text.old.items
        ++ about front.now resident (words.now ++ (name.now ++ counted_words link.now limit))) }
{
    put_counted(front, u64::from(resident), text)?;
    put_limit(words, name, link, limit, text)
}

/// Writes how many pages are in a working set, against one of its two limits.
fn put_pages_are(name: &[u8], resident: u32, limit: u32, text: &mut Vec<u8>) -> Result<(), NoMemory>
    ensures { OnOk result (text.new.items ≡ text.old.items ++ pages_are name.now resident limit) }
{
    put_pages(
        b" has ",
        resident,
        b" pages, and its ",
        name,
        b" is ",
        limit,
        text,
    )
}

/// Writes words, a process, and how many pages are in its working set.
fn put_set_of(
    words: &[u8],
    pid: Pid,
    name: &[u8],
    resident: u32,
    limit: u32,
    text: &mut Vec<u8>,
) -> Result<(), NoMemory>
    ensures { OnOk result (text.new.items ≡ text.old.items
        ++ about words.now pid.0 (pages_are name.now resident limit)) }
{
    put_words(words, text)?;
    put_number(u64::from(pid.0), text)?;
    put_pages_are(name, resident, limit, text)
}

/// Writes a working set against one of its two limits.
fn put_set_is(
    name: &[u8],
    pid: Pid,
    resident: u32,
    limit: u32,
    text: &mut Vec<u8>,
) -> Result<(), NoMemory>
    ensures { OnOk result (text.new.items ≡ text.old.items
        ++ set_is name.now pid.0 resident limit) }
{
    put_set_of(
        b"the working set of process ",
        pid,
        name,
        resident,
        limit,
        text,
    )
}

fn put_no_process(pid: Pid, text: &mut Vec<u8>) -> Result<(), NoMemory>
    ensures { OnOk result (text.new.items ≡ text.old.items ++ no_process pid.0) }
{
    put_counted(b"there is no process ", u64::from(pid.0), text)
}

fn put_at_max(pid: Pid, set: Option<ResidentSet>, text: &mut Vec<u8>) -> Result<(), NoMemory>
    ensures { OnOk result (text.new.items ≡ text.old.items ++ at_max pid.0 set) }
{
    match set {
        Some(set) => put_set_is(b"maximum", pid, set.resident, set.max, text),
        None => put_no_process(pid, text),
    }
}

fn put_at_min(pid: Pid, set: Option<ResidentSet>, text: &mut Vec<u8>) -> Result<(), NoMemory>
    ensures { OnOk result (text.new.items ≡ text.old.items ++ at_min pid.0 set) }
{
    match set {
        Some(set) => put_set_is(b"minimum", pid, set.resident, set.min, text),
        None => put_no_process(pid, text),
    }
}

/// Writes why the line does not end a place of a process.
fn put_keeps_place(life: &Life, pid: Pid, text: &mut Vec<u8>) -> Result<(), NoMemory>
    ensures { OnOk result (text.new.items ≡ text.old.items
        ++ keeps_place (life_of life.now) pid.0) }
{
    let kind = life.kind();
    if trims(pid, kind) {
        put_at_min(pid, life.set_of(pid), text)
    } else if touches(pid, kind) {
        put_at_max(pid, life.set_of(pid), text)
    } else if is_access(kind) {
        put_words(b"frames are left on zeroed, free or standby", text)
    } else {
        put_line_of(life, b" ends no place of process ", pid, text)
    }
}

fn put_no_paging(life: &Life, key: Key, text: &mut Vec<u8>) -> Result<(), NoMemory>
    ensures { OnOk result (text.new.items ≡ text.old.items ++ no_paging_text (life_of life.now) key) }
{
    if life.is_live(key) {
        put_page_is(key, b" is a file's", text)
    } else {
        put_no_page(key, text)
    }
}

fn put_request_is(frame: Frame, request: Request, text: &mut Vec<u8>) -> Result<(), NoMemory>
    ensures { OnOk result (text.new.items ≡ text.old.items
        ++ frame_is frame (request_is (is_read request))) }
{
    if is_read(request) {
        put_frame_is(frame, b" is being read", text)
    } else {
        put_frame_is(frame, b" is being written", text)
    }
}

fn put_not_lowest(life: &Life, slot: Slot, text: &mut Vec<u8>) -> Result<(), NoMemory>
    ensures { OnOk result (text.new.items ≡ text.old.items
        ++ part_text (life_of life.now) (part.LowestSlot slot)) }
{
    if life.is_slot_free(slot) {
        put_numbered(
            b"slot ",
            u64::from(slot.0),
            b" is not the lowest free slot",
            text,
        )
    } else {
        put_numbered(b"slot ", u64::from(slot.0), b" is not free", text)
    }
}

fn put_not_modified(frame: Frame, text: &mut Vec<u8>) -> Result<(), NoMemory>
    ensures { OnOk result (text.new.items ≡ text.old.items ++ not_modified frame) }
{
    put_frame_is(frame, b" is not on the modified list", text)
}

/// Writes why the line does not write a frame to a block.
fn put_keeps_block(life: &Life, frame: Frame, text: &mut Vec<u8>) -> Result<(), NoMemory>
    ensures { OnOk result (text.new.items ≡ text.old.items
        ++ keeps_block (life_of life.now) frame) }
{
    if is_access(life.kind()) {
        return put_not_modified(frame, text);
    }
    if !is_writer(life.kind()) {
        return put_line_is(life, b" is no access, no writer and no call", text);
    }
    if life.is_on_modified(frame) {
        put_depth_is(life, text)
    } else {
        put_not_modified(frame, text)
    }
}

/// Writes how many requests are in flight, where the line may begin one, or else what it is not.
fn put_depth_or(
    life: &Life,
    begins: bool,
    behind: &[u8],
    text: &mut Vec<u8>,
) -> Result<(), NoMemory>
    ensures { OnOk result (text.new.items ≡ text.old.items
        ++ (if begins then depth_is (life_of life.now)
        else line_is (life_of life.now) behind.now)) }
{
    if begins {
        put_depth_is(life, text)
    } else {
        put_line_is(life, behind, text)
    }
}

/// Writes why a frame is not cleared.
fn put_not_zeroing(life: &Life, text: &mut Vec<u8>) -> Result<(), NoMemory>
    ensures { OnOk result (text.new.items ≡ text.old.items
        ++ part_text (life_of life.now) part.Zeroes) }
{
    if is_touch(life.kind()) {
        put_not_empty(life, FrameList::Zeroed, text)
    } else {
        put_line_is(life, b" is no zeroer and no access", text)
    }
}

/// Writes that free is empty, and that a frame is not the first zeroed one.
fn put_none_free(life: &Life, frame: Frame, text: &mut Vec<u8>) -> Result<(), NoMemory>
    ensures { OnOk result (text.new.items ≡ text.old.items ++ (codes "free is empty, and "
        ++ not_first (codes "zeroed") (life_of life.now).frames.zeroed frame)) }
{
    put_words(b"free is empty, and ", text)?;
    put_not_first(life, FrameList::Zeroed, frame, text)
}

/// Writes why a frame is not taken for a read.
fn put_not_to_read(life: &Life, frame: Frame, text: &mut Vec<u8>) -> Result<(), NoMemory>
    ensures { OnOk result (text.new.items ≡ text.old.items
        ++ part_text (life_of life.now) (part.FirstToRead frame)) }
{
    if life.is_list_empty(FrameList::Free) {
        put_none_free(life, frame, text)
    } else {
        put_not_first(life, FrameList::Free, frame, text)
    }
}

/// Writes which process comes next.
fn put_next_process(life: &Life, text: &mut Vec<u8>) -> Result<(), NoMemory>
    ensures { OnOk result (text.new.items ≡ text.old.items
        ++ counted_words (codes "the next process is ") (length (life_of life.now).sets + 1)) }
{
    put_counted(b"the next process is ", life.sets().len() as u64 + 1, text)
}

/// Writes that a frame's page is not a block's.
fn put_not_of_block(frame: Frame, block: Block, text: &mut Vec<u8>) -> Result<(), NoMemory>
    ensures { OnOk result (text.new.items ≡ text.old.items
        ++ frame_is frame (counted_words (codes " holds no page of block ") block.0)) }
{
    put_frame_counted(frame, b" holds no page of block ", block.0, text)
}

// ---- each part

/// Writes why a part of a condition fails.
fn put_part(life: &Life, part: Part, text: &mut Vec<u8>) -> Result<(), NoMemory>
    ensures { OnOk result (text.new.items ≡ text.old.items ++ part_text (life_of life.now) part) }
{
    match part {
        Part::NextLine(_) => put_counted(b"the next line is ", u64::from(life.line()) + 1, text),
        Part::InDepth => put_depth_is(life, text),
        Part::FirstLine => put_words(b"the machine is known already", text),
        Part::MachineRange(_) => put_words(b"its numbers are out of range", text),
        Part::Started => put_words(b"the machine is not known yet", text),
        Part::NextProcess(_) => put_next_process(life, text),
        Part::FewProcesses(_) => put_words(b"there are at most 64 processes", text),
        Part::SomeSlots(_) => put_words(b"it grows by no slot", text),
        Part::FewSlots(_) => put_words(b"there are at most 262144 slots", text),
        Part::NotLive(key) => put_page_is(key, b" is there already", text),
        Part::Commit => put_numbered(
            b"the commit limit of ",
            limit(life),
            b" pages is reached",
            text,
        ),
        Part::CallOrCopy(_) => {
            put_line_is(life, b" is no call, and makes no copy of a page", text)
        }
        Part::Call => put_line_is(life, b" is no call", text),
        Part::OfSection(key) => put_page_is(key, b" is no page of a file", text),
        Part::BlockThere(_) => {
            put_numbered(
                b"there are ",
                u64::from(life.blocks()),
                b" file blocks",
                text,
            )
        }
        Part::BlockNew(block) => {
            put_numbered(
                b"file block ",
                u64::from(block.0),
                b" had a page before",
                text,
            )
        }
        Part::CallOrUnbind => put_line_is(life, b" is no call and no unbind", text),
        Part::OfPagingFile(key) => put_no_paging(life, key, text),
        Part::Unmapped(key) => put_mapped(life, key, life.standing(key), text),
        Part::FirstFree(frame) => put_not_first(life, FrameList::Free, frame, text),
        Part::Zeroes => put_not_zeroing(life, text),
        Part::FirstStandby(frame) => put_not_first(life, FrameList::Standby, frame, text),
        Part::ZeroedEmpty => put_not_empty(life, FrameList::Zeroed, text),
        Part::FreeEmpty => put_not_empty(life, FrameList::Free, text),
        Part::Access => put_line_is(life, b" is no access", text),
        Part::FirstZeroed(frame) => put_not_first(life, FrameList::Zeroed, frame, text),
        Part::DemandZero(key) => put_stands(key, life.standing(key), text),
        Part::FirstToRead(frame) => put_not_to_read(life, frame, text),
        Part::OnDevice(key) => put_stands(key, life.standing(key), text),
        Part::AccessReads => put_depth_or(life, is_thread(life.kind()), b" is no access", text),
        Part::BeingRead(frame) => put_frame_is(frame, b" is not being read", text),
        Part::IoOrAccess => put_line_is(life, b" is no io and no access", text),
        Part::FitsPlace(frame, place) => put_holds(frame, place, life.record(frame).owner, text),
        Part::NotBeingRead(frame) => put_frame_is(frame, b" is being read", text),
        Part::NotValid(place) => put_place_is(place, b" is valid already", text),
        Part::AccessOf(pid) => put_line_of(life, b" is no access of process ", pid, text),
        Part::BelowMax(pid) => put_at_max(pid, life.set_of(pid), text),
        Part::Valid(place) => put_place_is(place, b" is not valid", text),
        Part::MayEnd(place) => put_keeps_place(life, place.pid, text),
        Part::Active(frame) => put_frame_is(frame, b" is valid nowhere", text),
        Part::Clean(frame) => put_frame_is(frame, b" is changed already", text),
        Part::OnModified(frame) => put_not_modified(frame, text),
        Part::HoldsPaging(frame) => {
            put_frame_is(frame, b" holds no page of the paging file", text)
        }
        Part::LowestSlot(slot) => put_not_lowest(life, slot, text),
        Part::WritesSlot => {
            let writes = is_writer(life.kind());
            put_depth_or(life, writes, b" is no access and no writer", text)
        }
        Part::Changed(frame) => put_frame_is(frame, b" is not changed", text),
        Part::Owned(frame) => put_frame_is(frame, b" holds no page", text),
        Part::Quiet(frame) => put_request_is(frame, life.record(frame).request, text),
        Part::OfBlock(frame, block) => put_not_of_block(frame, block, text),
        Part::WritesBlock(frame) => put_keeps_block(life, frame, text),
        Part::BeingWritten(frame) => put_frame_is(frame, b" is not being written", text),
        Part::IoAccessOrCall => put_line_is(life, b" is no io, no access and no call", text),
    }
}

/// Writes why a move is not legal in this state: which part of its condition fails first. Nothing
/// where it is legal.
pub fn put_refusal(life: &Life, m: &Move, text: &mut Vec<u8>) -> Result<(), NoMemory>
    ensures { OnOk result (text.new.items ≡ text.old.items
        ++ refusal_text (life_of life.now) m.now) }
{
    match refusal(life, m) {
        Some(part) => put_part(life, part, text),
        None => Ok(()),
    }
}

/// Writes a move as logs spell it, without its line feed.
#[tactic(auto, using(crate::proofs::Spelling::spelling))]
fn put_move(m: &Move, text: &mut Vec<u8>) -> Result<(), NoMemory>
    ensures { OnOk result (text.new.items ≡ text.old.items ++ move_text m.now) }
{
    let mut line = LineBuf::new();
    spell(m, &mut line);
    let end = line.len() - 1;
    put_words(&line.as_slice()[..end], text)
}

/// Writes what stands behind the number of a line that spells a move that is not legal in this
/// state: the move, and why.
pub fn put_why(life: &Life, m: &Move, text: &mut Vec<u8>) -> Result<(), NoMemory>
    ensures { OnOk result (text.new.items ≡ text.old.items ++ why_not (life_of life.now) m.now) }
{
    put_words(b": ", text)?;
    put_move(m, text)?;
    put_words(b": ", text)?;
    put_refusal(life, m, text)
}
