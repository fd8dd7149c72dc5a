ghost use Rattle.std.specs.Prelude.{◌≡◌, ◌+◌, ◌-◌, ◌*◌, ◌<◌, true, false};
ghost use Rattle.mm_move_rules.specs.{is_call, is_io, is_access, is_writer, is_touch, touches, unbinds, trims, is_valid_machine, is_legal_kind, has_depth};
ghost use Rattle.mm_move_rules.specs.{owner_is, shows_shared, may_copy, is_unmapped, fits_place, is_short, may_unmap, may_write_block, is_legal_add};
ghost use Rattle.mm_move_rules.specs.{is_legal_map, is_legal_soil, is_legal_write, is_legal, is_shared, is_live, is_dead, set_of, set_in};
ghost use Rattle.mm_types.specs.declared.moves.Move.TheVariants as move;

use crate::four_lists::FrameList;
use crate::records::{has_request, is_again, is_read, is_write};
use crate::states::State;
use crate::values::flag_at;
use mm_move_rules::ResidentSet;
use mm_types::{Backing, Block, Frame, Held, Key, LineKind, Move, Pid, Place, Record, Stored};

// ---- kinds of lines

fn is_call(kind: LineKind) -> bool
    ensures { result ≡ is_call kind }
{
    matches!(kind, LineKind::Call)
}

fn is_io(kind: LineKind) -> bool
    ensures { result ≡ is_io kind }
{
    matches!(kind, LineKind::Io)
}

fn is_access(kind: LineKind) -> bool
    ensures { result ≡ is_access kind }
{
    matches!(kind, LineKind::Access(_))
}

fn is_touch(kind: LineKind) -> bool
    ensures { result ≡ is_touch kind }
{
    matches!(kind, LineKind::Access(_) | LineKind::Thread(_))
}

fn is_writer(kind: LineKind) -> bool
    ensures { result ≡ is_writer kind }
{
    matches!(kind, LineKind::Writer)
}

fn touches(pid: Pid, kind: LineKind) -> bool
    ensures { result ≡ touches pid.0 kind }
{
    matches!(kind, LineKind::Access(p) | LineKind::Thread(p) if p.0 == pid.0)
}

fn unbinds(pid: Pid, kind: LineKind) -> bool
    ensures { result ≡ unbinds pid.0 kind }
{
    matches!(kind, LineKind::Unbind(p) if p.0 == pid.0)
}

fn trims(pid: Pid, kind: LineKind) -> bool
    ensures { result ≡ trims pid.0 kind }
{
    matches!(kind, LineKind::Trim(p) if p.0 == pid.0)
}

// ---- keys, records, sets

fn is_machine(frames: u32, slots: u32, depth: u32, blocks: u32) -> bool
    ensures { result ≡ is_valid_machine (record {
      frames = frames;
      slots = slots;
      depth = depth;
      blocks = blocks;
    }) }
{
    6 <= frames
        && frames <= 262144
        && slots <= 262144
        && 1 <= depth
        && depth <= 64
        && blocks <= 65536
        && 2 * depth + 4 <= frames
}

pub(crate) fn is_dead(held: Held) -> bool
    ensures { result ≡ is_dead held }
{
    matches!(held, Held::Dead)
}

fn is_shared(key: Key) -> bool
    ensures { result ≡ is_shared key }
{
    matches!(key, Key::Shared(_, _))
}

fn is_owner_shared(r: &Record) -> bool
    ensures { result ≡ owner_is is_shared r.now }
{
    matches!(r.owner, Some(key) if is_shared(key))
}

fn fits_place(place: Place, key: Key) -> bool
    ensures { result ≡ fits_place place key }
{
    match key {
        Key::Private(pid, vpn) => pid.0 == place.pid.0 && vpn.0 == place.vpn.0,
        Key::Shared(_, _) => true,
    }
}

/// The working set of a pid, where a `process` line gave it.
pub(crate) fn set_of(sets: &[ResidentSet], pid: Pid) -> Option<ResidentSet>
    ensures { result ≡ set_in sets.now pid.0 }
{
    if pid.0 == 0 {
        return None;
    }
    sets.get(usize::from(pid.0 - 1)).copied()
}

// ---- conditions over the state

ghost use Rattle.mm_replay.specs.Replaying.{life};

fn is_legal_kind(l: &State, kind: LineKind) -> bool
    ensures { result ≡ is_legal_kind (life l.now) kind }
{
    match kind {
        LineKind::Machine(frames, slots, depth, blocks) => l.line == 0
            && is_machine(frames, slots, depth, blocks),
        LineKind::Process(pid, _, _) => l.line > 0
            && usize::from(pid.0) == l.sets.len() + 1
            && pid.0 <= 64,
        LineKind::Grow(count) => l.line > 0
            && count >= 1
            && u64::from(l.slots) + u64::from(count) <= 262144,
        _ => l.line > 0,
    }
}

fn has_depth(l: &State) -> bool
    ensures { result ≡ has_depth (life l.now) }
{
    l.flight.len() < l.depth
}

fn is_live(l: &State, key: Key) -> bool
    ensures { result ≡ is_live (life l.now) key }
{
    !is_dead(l.keys.held(key))
}

fn shows_shared(l: &State, place: Place) -> bool
    ensures { result ≡ shows_shared (life l.now) place }
{
    matches!(l.places.get(place), Some(frame) if is_owner_shared(&l.table.record(frame.0)))
}

fn may_copy(l: &State, key: Key) -> bool
    ensures { result ≡ may_copy (life l.now) key }
{
    match key {
        Key::Private(pid, vpn) => touches(pid, l.kind) && shows_shared(l, Place { pid, vpn }),
        Key::Shared(_, _) => false,
    }
}

fn is_unmapped(l: &State, held: Held) -> bool
    ensures { result ≡ is_unmapped (life l.now) held }
{
    match held {
        Held::Frame(frame) => l.table.record(frame.0).shares == 0,
        Held::Slot(_) | Held::Block(_) | Held::Zero | Held::Dead => true,
    }
}

fn is_short(l: &State) -> bool
    ensures { result ≡ is_short (life l.now) }
{
    l.table.is_empty(FrameList::Zeroed)
        && l.table.is_empty(FrameList::Free)
        && l.table.is_empty(FrameList::Standby)
}

fn may_unmap(l: &State, place: Place, r: &Record) -> bool
    ensures { result ≡ may_unmap (life l.now) place r.now }
{
    let set = set_of(&l.sets, place.pid);
    let touching = touches(place.pid, l.kind);
    unbinds(place.pid, l.kind)
        || (trims(place.pid, l.kind) && matches!(set, Some(set) if set.min < set.resident))
        || (touching && matches!(set, Some(set) if set.resident == set.max))
        || (is_access(l.kind) && is_short(l))
        || (touching && is_owner_shared(r) && is_live(l, Key::Private(place.pid, place.vpn)))
}

/// The commit limit of a machine of these numbers, 0 where the reserve is more.
fn limit(frames: u32, slots: u32, depth: u32) -> u64
    ensures { result ≡ (frames + slots) - (2 * depth + 2) }
{
    (u64::from(frames) + u64::from(slots)).saturating_sub(2 * u64::from(depth) + 2)
}

fn is_legal_add(l: &State, key: Key, block: Option<Block>) -> bool
    ensures { result ≡ is_legal_add (life l.now) key block }
{
    match block {
        None => !is_live(l, key)
            && l.paging_keys < limit(l.frames, l.slots, l.depth)
            && (is_call(l.kind) || may_copy(l, key)),
        Some(block) => is_call(l.kind)
            && is_shared(key)
            && !is_live(l, key)
            && block.0 < l.blocks
            && !flag_at(&l.added, block.0),
    }
}

fn is_legal_drop(l: &State, key: Key) -> bool
    ensures { result ≡ is_legal (life l.now) (move.Drop key) }
{
    matches!(l.kind, LineKind::Call | LineKind::Unbind(_))
        && l.keys.is_paging(key)
        && is_unmapped(l, l.keys.held(key))
}

fn is_legal_clear(l: &State, frame: Frame) -> bool
    ensures { result ≡ is_legal (life l.now) (move.Clear frame) }
{
    l.table.is_first(FrameList::Free, frame.0)
        && (matches!(l.kind, LineKind::Zeroer)
            || (is_touch(l.kind) && l.table.is_empty(FrameList::Zeroed)))
}

fn is_legal_steal(l: &State, frame: Frame) -> bool
    ensures { result ≡ is_legal (life l.now) (move.Steal frame) }
{
    l.table.is_first(FrameList::Standby, frame.0)
        && l.table.is_empty(FrameList::Zeroed)
        && l.table.is_empty(FrameList::Free)
        && is_touch(l.kind)
}

fn is_legal_give(l: &State, frame: Frame, key: Key) -> bool
    ensures { result ≡ is_legal (life l.now) (move.Give frame key) }
{
    l.table.is_first(FrameList::Zeroed, frame.0)
        && matches!(l.keys.held(key), Held::Zero)
        && is_touch(l.kind)
}

fn is_legal_read(l: &State, frame: Frame, key: Key) -> bool
    ensures { result ≡ is_legal (life l.now) (move.Read frame key) }
{
    let first = l.table.is_first(FrameList::Free, frame.0)
        || (l.table.is_empty(FrameList::Free) && l.table.is_first(FrameList::Zeroed, frame.0));
    first
        && matches!(l.keys.held(key), Held::Slot(_) | Held::Block(_))
        && (is_access(l.kind) || (matches!(l.kind, LineKind::Thread(_)) && has_depth(l)))
}

fn is_legal_read_end(l: &State, frame: Frame) -> bool
    ensures got { result ≡ is_legal (life l.now) (move.Got frame) }
    ensures bad { result ≡ is_legal (life l.now) (move.Bad frame) }
{
    is_read(l.table.record(frame.0).request) && (is_io(l.kind) || is_access(l.kind))
}

fn is_legal_map(l: &State, frame: Frame, place: Place) -> bool
    ensures { result ≡ is_legal (life l.now) (move.Map frame place) }
{
    let r = l.table.record(frame.0);
    matches!(r.owner, Some(key) if fits_place(place, key))
        && !is_read(r.request)
        && l.places.get(place).is_none()
        && touches(place.pid, l.kind)
        && matches!(set_of(&l.sets, place.pid), Some(set) if set.resident < set.max)
}

fn is_legal_unmap(l: &State, place: Place) -> bool
    ensures { result ≡ is_legal (life l.now) (move.Unmap place) }
{
    matches!(l.places.get(place), Some(frame) if may_unmap(l, place, &l.table.record(frame.0)))
}

fn is_legal_soil(l: &State, frame: Frame) -> bool
    ensures { result ≡ is_legal (life l.now) (move.Soil frame) }
{
    let r = l.table.record(frame.0);
    let clean = !r.changed && !has_request(r.request);
    let writing = is_write(r.request) && !is_again(r.request);
    r.shares > 0 && (clean || writing) && is_touch(l.kind)
}

fn may_write_block(l: &State, frame: u32) -> bool
    ensures { result ≡ may_write_block (life l.now) frame }
{
    let modified = l.table.is_modified(frame);
    (modified && is_access(l.kind))
        || (modified && is_writer(l.kind) && has_depth(l))
        || is_call(l.kind)
}

fn is_legal_write(l: &State, frame: Frame, stored: Stored) -> bool
    ensures { result ≡ is_legal (life l.now) (move.Write frame stored) }
{
    let r = l.table.record(frame.0);
    match stored {
        Stored::Slot(slot) => {
            l.table.is_modified(frame.0)
                && matches!(r.owner, Some(key) if l.keys.is_paging(key))
                && l.free_slots.is_lowest(slot.0)
                && (is_access(l.kind) || (is_writer(l.kind) && has_depth(l)))
        }
        Stored::Block(block) => {
            r.changed
                && r.owner.is_some()
                && !has_request(r.request)
                && matches!(r.backing, Backing::Block(b) if b.0 == block.0)
                && may_write_block(l, frame.0)
        }
    }
}

fn is_legal_write_end(l: &State, frame: Frame) -> bool
    ensures wrote { result ≡ is_legal (life l.now) (move.Wrote frame) }
    ensures lost { result ≡ is_legal (life l.now) (move.Lost frame) }
{
    is_write(l.table.record(frame.0).request)
        && (is_io(l.kind) || is_access(l.kind) || is_call(l.kind))
}

/// Whether a move is legal.
#[inline(always)]
pub(crate) fn is_legal(l: &State, m: &Move) -> bool
    ensures { result ≡ is_legal (life l.now) m.now }
{
    match *m {
        Move::At(line, kind) => u64::from(line) == u64::from(l.line) + 1
            && l.flight.len() <= l.depth
            && is_legal_kind(l, kind),
        Move::Add(key, block) => is_legal_add(l, key, block),
        Move::Drop(key) => is_legal_drop(l, key),
        Move::Clear(frame) => is_legal_clear(l, frame),
        Move::Steal(frame) => is_legal_steal(l, frame),
        Move::Give(frame, key) => is_legal_give(l, frame, key),
        Move::Read(frame, key) => is_legal_read(l, frame, key),
        Move::Got(frame) | Move::Bad(frame) => is_legal_read_end(l, frame),
        Move::Map(frame, place) => is_legal_map(l, frame, place),
        Move::Unmap(place) => is_legal_unmap(l, place),
        Move::Soil(frame) => is_legal_soil(l, frame),
        Move::Write(frame, stored) => is_legal_write(l, frame, stored),
        Move::Wrote(frame) | Move::Lost(frame) => is_legal_write_end(l, frame),
    }
}
