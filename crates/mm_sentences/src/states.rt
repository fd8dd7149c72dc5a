#![tactic(auto, using(crate::proofs::Joined::joined))]

ghost use Rattle.std.specs.Prelude.{◌≡◌, ◌++◌, OnOk, codes};
ghost use Rattle.mm_types.specs.{decimal};
ghost use Rattle.mm_move_rules.specs.{record_at, is_on};
ghost use Rattle.mm_replay.specs.Standing.{life as life_of};
ghost use Rattle.mm_sentences.specs.States.{list_of, state_by, state_of, state_text, owner_text};
ghost use Rattle.mm_sentences.specs.States.{changed_text, copy_text, request_text, listed_text, frame_row_text};
ghost use Rattle.mm_sentences.specs.States.{frame_row};

use crate::words::{put_counted, put_key, put_numbered, put_words};
use mm_move_classes::{has_request, is_read};
use mm_replay::{FrameList, Life};
use mm_types::{Backing, Frame, Key, NoMemory, Record, Request};

/// What a page frame is: its page is valid somewhere, or it has a request, or it stands on a list.
#[derive(Clone, Copy, PartialEq, Eq)]
pub enum FrameState {
    Active,
    BeingRead,
    BeingWritten,
    Zeroed,
    Free,
    Standby,
    Modified,
}

/// Whether a frame is on the zeroed list. Takes time in proportion to the list.
#[tactic(auto, using(crate::proofs::Walking::walking))]
fn is_zeroed(life: &Life, frame: Frame) -> bool
    ensures { result ≡ is_on frame.0 (life_of life.now).frames.zeroed }
{
    let mut next = life.first_on(FrameList::Zeroed);
    for _i in 0..life.list_len(FrameList::Zeroed) {
        match next {
            Some(other) => {
                if other.0 == frame.0 {
                    return true;
                }
                next = life.next_on_list(other);
            }
            None => return false,
        }
    }
    false
}

fn list_of(life: &Life, frame: Frame, r: &Record) -> FrameState
    ensures { result ≡ list_of (life_of life.now).frames frame.0 r.now }
{
    if r.owner.is_some() {
        if life.is_on_modified(frame) {
            FrameState::Modified
        } else {
            FrameState::Standby
        }
    } else if is_zeroed(life, frame) {
        FrameState::Zeroed
    } else {
        FrameState::Free
    }
}

fn state_by(life: &Life, frame: Frame, r: &Record) -> FrameState
    ensures { result ≡ state_by (life_of life.now).frames frame.0 r.now }
{
    if r.shares > 0 {
        FrameState::Active
    } else if is_read(r.request) {
        FrameState::BeingRead
    } else if has_request(r.request) {
        FrameState::BeingWritten
    } else {
        list_of(life, frame, r)
    }
}

/// The state of a frame. Takes constant time, but for a frame without a page and without a request,
/// which is sought on the zeroed list.
pub fn state_of(life: &Life, frame: Frame) -> FrameState
    ensures { result ≡ state_of (life_of life.now) frame.0 }
{
    state_by(life, frame, &life.record(frame))
}

pub(crate) fn state_text(state: FrameState) -> &'static [u8]
    ensures { result.now ≡ state_text state }
{
    match state {
        FrameState::Active => b"active",
        FrameState::BeingRead => b"being read",
        FrameState::BeingWritten => b"being written",
        FrameState::Zeroed => b"zeroed",
        FrameState::Free => b"free",
        FrameState::Standby => b"standby",
        FrameState::Modified => b"modified",
    }
}

/// Writes a state: `active`, `being read`, `being written`, or the list's name.
pub fn put_state(state: FrameState, text: &mut Vec<u8>) -> Result<(), NoMemory>
    ensures { OnOk result (text.new.items ≡ text.old.items ++ state_text state) }
{
    put_words(state_text(state), text)
}

fn put_owner(owner: Option<Key>, text: &mut Vec<u8>) -> Result<(), NoMemory>
    ensures { OnOk result (text.new.items ≡ text.old.items ++ owner_text owner) }
{
    match owner {
        Some(key) => put_key(key, text),
        None => put_words(b"no page", text),
    }
}

fn changed_text(changed: bool) -> &'static [u8]
    ensures { result.now ≡ changed_text changed }
{
    if changed { b"changed" } else { b"not changed" }
}

fn request_text(request: Request) -> &'static [u8]
    ensures { result.now ≡ request_text request }
{
    match request {
        Request::None => b"no I/O",
        Request::Read => state_text(FrameState::BeingRead),
        Request::Write => state_text(FrameState::BeingWritten),
        Request::WriteAgain => b"being written, changed since",
    }
}

fn put_copy(backing: Backing, text: &mut Vec<u8>) -> Result<(), NoMemory>
    ensures { OnOk result (text.new.items ≡ text.old.items ++ copy_text backing) }
{
    match backing {
        Backing::None => put_words(b"no copy", text),
        Backing::Slot(slot) => put_counted(b"slot ", u64::from(slot.0), text),
        Backing::Block(block) => put_counted(b"block ", u64::from(block.0), text),
    }
}

/// Writes the state of a frame and its page.
fn put_row_front(state: FrameState, r: &Record, text: &mut Vec<u8>) -> Result<(), NoMemory>
    ensures { OnOk result (text.new.items ≡ text.old.items
        ++ (listed_text (state_text state) ++ (listed_text (owner_text r.now.owner)
        ++ listed_text (changed_text r.now.changed)))) }
{
    put_state(state, text)?;
    put_words(b", ", text)?;
    put_owner(r.owner, text)?;
    put_words(b", ", text)?;
    put_words(changed_text(r.changed), text)?;
    put_words(b", ", text)
}

/// Writes its copy, its places and its request.
fn put_row_back(r: &Record, text: &mut Vec<u8>) -> Result<(), NoMemory>
    ensures { OnOk result (text.new.items ≡ text.old.items
        ++ (listed_text (copy_text r.now.backing)
        ++ (listed_text (decimal r.now.shares ++ codes " places")
        ++ request_text r.now.request))) }
{
    put_copy(r.backing, text)?;
    put_words(b", ", text)?;
    put_numbered(b"", u64::from(r.shares), b" places, ", text)?;
    put_words(request_text(r.request), text)
}

/// Writes what is known of a frame in this state, without a line feed: `active, p1.17, changed, no
/// copy, 1 places, no I/O`.
pub fn put_row(state: FrameState, r: &Record, text: &mut Vec<u8>) -> Result<(), NoMemory>
    ensures { OnOk result (text.new.items ≡ text.old.items ++ frame_row_text state r.now) }
{
    put_row_front(state, r, text)?;
    put_row_back(r, text)
}

/// Writes what is known of a frame, without a line feed.
pub fn put_frame_row(life: &Life, frame: Frame, text: &mut Vec<u8>) -> Result<(), NoMemory>
    ensures { OnOk result (text.new.items ≡ text.old.items
        ++ frame_row (life_of life.now) frame.0) }
{
    put_row(state_of(life, frame), &life.record(frame), text)
}
