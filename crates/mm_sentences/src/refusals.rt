ghost use Rattle.std.specs.Prelude.{◌≡◌, ◌∷◌, ◌++◌, [], true, false, Some, is_none};
ghost use Rattle.mm_types.specs.declared.moves.Move.TheVariants as move;
ghost use Rattle.mm_types.specs.{limit_of};
ghost use Rattle.mm_move_rules.specs.{is_first, is_zero, is_stored, owner_is, fits_place, is_block, is_lowest, is_legal, is_shared};
ghost use Rattle.mm_replay.specs.{frames_on};
ghost use Rattle.mm_replay.specs.Standing.{life as life_of};
ghost use Rattle.mm_sentences.specs.{part_holds, parts_of, first_failing, is_clean, refusal, is_tested, are_tested, all_hold, none_free};
ghost use Rattle.mm_sentences.specs.declared.parts.Part.TheVariants as part;

use crate::parts::Part;
use mm_move_classes::{has_request, is_again, is_call, is_read, is_unbind, is_write, touches};
use mm_replay::{FrameList, Life};
use mm_types::{
    Backing, Block, Frame, Held, Key, LineKind, Move, Place, Record, Request, Slot, Stored,
};

// ---- parts of parts

#[tactic(auto, using(crate::proofs::Walking::walking))]
fn is_first(life: &Life, list: FrameList, frame: Frame) -> bool
    ensures { result ≡ is_first frame.0 (frames_on (life_of life.now).frames list) }
{
    match life.first_on(list) {
        Some(first) => first.0 == frame.0,
        None => false,
    }
}

fn is_zero(held: Held) -> bool
    ensures { result ≡ is_zero held }
{
    matches!(held, Held::Zero)
}

fn is_stored(held: Held) -> bool
    ensures { result ≡ is_stored held }
{
    matches!(held, Held::Slot(_) | Held::Block(_))
}

fn is_shared(key: Key) -> bool
    ensures { result ≡ is_shared key }
{
    matches!(key, Key::Shared(_, _))
}

fn fits_place(place: Place, key: Key) -> bool
    ensures { result ≡ fits_place place key }
{
    match key {
        Key::Private(pid, vpn) => pid.0 == place.pid.0 && vpn.0 == place.vpn.0,
        Key::Shared(_, _) => true,
    }
}

fn owner_fits(r: &Record, place: Place) -> bool
    ensures { result ≡ owner_is (fits_place place) r.now }
{
    match r.owner {
        Some(key) => fits_place(place, key),
        None => false,
    }
}

fn is_owner_paging(life: &Life, r: &Record) -> bool
    ensures { result ≡ owner_is (life_of life.now).paging r.now }
{
    match r.owner {
        Some(key) => life.is_paging(key),
        None => false,
    }
}

fn is_clean(r: &Record) -> bool
    ensures { result ≡ is_clean r.now }
{
    let clean = !r.changed && !has_request(r.request);
    let writing = is_write(r.request) && !is_again(r.request);
    clean || writing
}

fn is_block(block: Block, backing: Backing) -> bool
    ensures { result ≡ is_block block.0 backing }
{
    match backing {
        Backing::Block(b) => b.0 == block.0,
        Backing::None | Backing::Slot(_) => false,
    }
}

/// The commit limit, 0 where the reserve is more.
pub(crate) fn limit(life: &Life) -> u64
    ensures { result ≡ limit_of (life_of life.now).machine }
{
    let pages = u64::from(life.frames()) + u64::from(life.slots());
    pages.saturating_sub(2 * u64::from(life.depth()) + 2)
}

/// Whether a frame is the first free one, or where there is none the first zeroed one.
fn is_first_to_read(life: &Life, frame: Frame) -> bool
    ensures { result ≡ part_holds (life_of life.now) (part.FirstToRead frame) }
{
    is_first(life, FrameList::Free, frame)
        || (life.is_list_empty(FrameList::Free) && is_first(life, FrameList::Zeroed, frame))
}

/// Whether none of the slots below this one is free.
#[tactic(auto, using(crate::proofs::Lowest::lowest))]
fn none_below(life: &Life, slot: Slot) -> bool
    ensures { result ≡ none_free slot.0 (life_of life.now).free_slots }
{
    for below in 0..slot.0 {
        if life.is_slot_free(Slot(below)) {
            return false;
        }
    }
    true
}

#[tactic(auto, using(crate::proofs::Lowest::low))]
fn is_lowest(life: &Life, slot: Slot) -> bool
    ensures { result ≡ is_lowest slot.0 (life_of life.now).free_slots }
{
    if !life.is_slot_free(slot) {
        return false;
    }
    none_below(life, slot)
}

// ---- a part

/// Whether a part of a condition holds, where it is not the last part of any.
fn part_holds(life: &Life, part: Part) -> bool
    ensures { is_tested part ≡ true → result ≡ part_holds (life_of life.now) part }
{
    match part {
        Part::NextLine(line) => u64::from(line) == u64::from(life.line()) + 1,
        Part::InDepth => life.requests() <= life.depth(),
        Part::FirstLine => life.line() == 0,
        Part::Started => life.line() > 0,
        Part::NextProcess(pid) => usize::from(pid.0) == life.sets().len() + 1,
        Part::SomeSlots(count) => count >= 1,
        Part::NotLive(key) => !life.is_live(key),
        Part::Commit => life.paging_keys() < limit(life),
        Part::Call => is_call(life.kind()),
        Part::OfSection(key) => is_shared(key),
        Part::BlockThere(block) => block.0 < life.blocks(),
        Part::CallOrUnbind => is_call(life.kind()) || is_unbind(life.kind()),
        Part::OfPagingFile(key) => life.is_paging(key),
        Part::FirstFree(frame) => is_first(life, FrameList::Free, frame),
        Part::FirstStandby(frame) => is_first(life, FrameList::Standby, frame),
        Part::FirstZeroed(frame) => is_first(life, FrameList::Zeroed, frame),
        Part::ZeroedEmpty => life.is_list_empty(FrameList::Zeroed),
        Part::FreeEmpty => life.is_list_empty(FrameList::Free),
        Part::DemandZero(key) => is_zero(life.standing(key)),
        Part::FirstToRead(frame) => is_first_to_read(life, frame),
        Part::OnDevice(key) => is_stored(life.standing(key)),
        Part::BeingRead(frame) => is_read(life.record(frame).request),
        Part::FitsPlace(frame, place) => owner_fits(&life.record(frame), place),
        Part::NotBeingRead(frame) => !is_read(life.record(frame).request),
        Part::NotValid(place) => life.frame_of(place).is_none(),
        Part::AccessOf(pid) => touches(pid, life.kind()),
        Part::Valid(place) => life.frame_of(place).is_some(),
        Part::Active(frame) => life.record(frame).shares > 0,
        Part::Clean(frame) => is_clean(&life.record(frame)),
        Part::OnModified(frame) => life.is_on_modified(frame),
        Part::HoldsPaging(frame) => is_owner_paging(life, &life.record(frame)),
        Part::LowestSlot(slot) => is_lowest(life, slot),
        Part::Changed(frame) => life.record(frame).changed,
        Part::Owned(frame) => life.record(frame).owner.is_some(),
        Part::Quiet(frame) => !has_request(life.record(frame).request),
        Part::OfBlock(frame, block) => is_block(block, life.record(frame).backing),
        Part::BeingWritten(frame) => is_write(life.record(frame).request),
        Part::MachineRange(_)
        | Part::FewProcesses(_)
        | Part::FewSlots(_)
        | Part::CallOrCopy(_)
        | Part::BlockNew(_)
        | Part::Unmapped(_)
        | Part::Zeroes
        | Part::Access
        | Part::AccessReads
        | Part::IoOrAccess
        | Part::BelowMax(_)
        | Part::MayEnd(_)
        | Part::WritesSlot
        | Part::WritesBlock(_)
        | Part::IoAccessOrCall => true,
    }
}

/// The first of these parts that fails, if any, or else the last.
#[tactic(auto, using(crate::proofs::Legally::legally))]
fn first_or(life: &Life, parts: &[Part], last: Part) -> Part
    requires tested { are_tested parts.now ≡ true }
    requires fails { all_hold (life_of life.now) (parts.now ++ last ∷ []) ≡ false }
    ensures { first_failing (life_of life.now) (parts.now ++ last ∷ []) ≡ Some result }
{
    for part in parts {
        if !part_holds(life, *part) {
            return *part;
        }
    }
    last
}

/// The part for which a move is not legal, where these are all the parts of its condition.
#[tactic(auto, using(crate::proofs::Legally::legally))]
fn refused(life: &Life, m: &Move, parts: &[Part], last: Part) -> Option<Part>
    requires tested { are_tested parts.now ≡ true }
    requires parts { parts_of m.now ≡ parts.now ++ last ∷ [] }
    ensures { result ≡ refusal (life_of life.now) m.now }
{
    if life.is_legal(m) {
        return None;
    }
    Some(first_or(life, parts, last))
}

/// The part for which a line that begins is not legal.
fn refused_line(life: &Life, m: &Move, line: u32, kind: LineKind) -> Option<Part>
    requires { m.now ≡ move.At line kind }
    ensures { result ≡ refusal (life_of life.now) m.now }
{
    let number = Part::NextLine(line);
    let depth = Part::InDepth;
    match kind {
        LineKind::Machine(_, _, _, _) => {
            refused(
                life,
                m,
                &[number, depth, Part::FirstLine],
                Part::MachineRange(kind),
            )
        }
        LineKind::Process(pid, _, _) => refused(
            life,
            m,
            &[number, depth, Part::Started, Part::NextProcess(pid)],
            Part::FewProcesses(pid),
        ),
        LineKind::Grow(count) => refused(
            life,
            m,
            &[number, depth, Part::Started, Part::SomeSlots(count)],
            Part::FewSlots(count),
        ),
        LineKind::Unbind(_)
        | LineKind::Access(_)
        | LineKind::Thread(_)
        | LineKind::Trim(_)
        | LineKind::Writer
        | LineKind::Zeroer
        | LineKind::Io
        | LineKind::Call => refused(life, m, &[number, depth], Part::Started),
    }
}

/// The part for which a page does not come to be.
fn refused_add(life: &Life, m: &Move, key: Key, block: Option<Block>) -> Option<Part>
    requires { m.now ≡ move.Add key block }
    ensures { result ≡ refusal (life_of life.now) m.now }
{
    match block {
        None => refused(
            life,
            m,
            &[Part::NotLive(key), Part::Commit],
            Part::CallOrCopy(key),
        ),
        Some(block) => refused(
            life,
            m,
            &[
                Part::Call,
                Part::OfSection(key),
                Part::NotLive(key),
                Part::BlockThere(block),
            ],
            Part::BlockNew(block),
        ),
    }
}

/// The part for which a page does not become valid.
fn refused_map(life: &Life, m: &Move, frame: Frame, place: Place) -> Option<Part>
    requires { m.now ≡ move.Map frame place }
    ensures { result ≡ refusal (life_of life.now) m.now }
{
    refused(
        life,
        m,
        &[
            Part::FitsPlace(frame, place),
            Part::NotBeingRead(frame),
            Part::NotValid(place),
            Part::AccessOf(place.pid),
        ],
        Part::BelowMax(place.pid),
    )
}

/// The part for which a write does not begin.
fn refused_write(life: &Life, m: &Move, frame: Frame, stored: Stored) -> Option<Part>
    requires { m.now ≡ move.Write frame stored }
    ensures { result ≡ refusal (life_of life.now) m.now }
{
    match stored {
        Stored::Slot(slot) => refused(
            life,
            m,
            &[
                Part::OnModified(frame),
                Part::HoldsPaging(frame),
                Part::LowestSlot(slot),
            ],
            Part::WritesSlot,
        ),
        Stored::Block(block) => refused(
            life,
            m,
            &[
                Part::Changed(frame),
                Part::Owned(frame),
                Part::Quiet(frame),
                Part::OfBlock(frame, block),
            ],
            Part::WritesBlock(frame),
        ),
    }
}

/// The part for which a page is not deleted.
fn refused_drop(life: &Life, m: &Move, key: Key) -> Option<Part>
    requires { m.now ≡ move.Drop key }
    ensures { result ≡ refusal (life_of life.now) m.now }
{
    refused(
        life,
        m,
        &[Part::CallOrUnbind, Part::OfPagingFile(key)],
        Part::Unmapped(key),
    )
}

/// The part for which a standby frame is not repurposed.
fn refused_steal(life: &Life, m: &Move, frame: Frame) -> Option<Part>
    requires { m.now ≡ move.Steal frame }
    ensures { result ≡ refusal (life_of life.now) m.now }
{
    refused(
        life,
        m,
        &[
            Part::FirstStandby(frame),
            Part::ZeroedEmpty,
            Part::FreeEmpty,
        ],
        Part::Access,
    )
}

/// The first part of a move's condition that fails, if any.
fn first_refused(life: &Life, m: &Move) -> Option<Part>
    ensures { result ≡ refusal (life_of life.now) m.now }
{
    match *m {
        Move::At(line, kind) => refused_line(life, m, line, kind),
        Move::Add(key, block) => refused_add(life, m, key, block),
        Move::Drop(key) => refused_drop(life, m, key),
        Move::Clear(frame) => refused(life, m, &[Part::FirstFree(frame)], Part::Zeroes),
        Move::Steal(frame) => refused_steal(life, m, frame),
        Move::Give(frame, key) => refused(
            life,
            m,
            &[Part::FirstZeroed(frame), Part::DemandZero(key)],
            Part::Access,
        ),
        Move::Read(frame, key) => refused(
            life,
            m,
            &[Part::FirstToRead(frame), Part::OnDevice(key)],
            Part::AccessReads,
        ),
        Move::Got(frame) | Move::Bad(frame) => {
            refused(life, m, &[Part::BeingRead(frame)], Part::IoOrAccess)
        }
        Move::Map(frame, place) => refused_map(life, m, frame, place),
        Move::Unmap(place) => refused(life, m, &[Part::Valid(place)], Part::MayEnd(place)),
        Move::Soil(frame) => refused(
            life,
            m,
            &[Part::Active(frame), Part::Clean(frame)],
            Part::Access,
        ),
        Move::Write(frame, stored) => refused_write(life, m, frame, stored),
        Move::Wrote(frame) | Move::Lost(frame) => {
            refused(life, m, &[Part::BeingWritten(frame)], Part::IoAccessOrCall)
        }
    }
}

/// The first part of a move's condition that fails, in the order of the rules; `None` exactly where
/// the move is legal. Takes constant time, but for a slot to write to, below which each is looked
/// at.
#[tactic(auto, using(crate::proofs::Legally::exact))]
pub fn refusal(life: &Life, m: &Move) -> Option<Part>
    ensures refusal { result ≡ refusal (life_of life.now) m.now }
    ensures none { is_none result ≡ is_legal (life_of life.now) m.now }
{
    first_refused(life, m)
}
