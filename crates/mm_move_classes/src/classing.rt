ghost use Rattle.std.specs.Prelude.{◌≡◌, if◌then◌else◌, is_none, option_map};
ghost use Rattle.mm_move_rules.specs.{is_at_max, shows_shared, is_short, owner_is, is_shared};
ghost use Rattle.mm_replay.specs.Standing.{life};
ghost use Rattle.mm_move_classes.specs.{class_of_add, class_of_drop, class_of_clear, class_of_give, class_of_read, class_of_got, class_of_soft};
ghost use Rattle.mm_move_classes.specs.{class_of_map, class_of_unmap, class_of_soil, class_of_write, class_of_wrote, class_of, is_busy, is_copy_on_write};
ghost use Rattle.mm_move_classes.specs.{makes_way, maps_into, makes_room, reads_into, marks_of};

use crate::classes::Class;
use crate::looks::{has_request, is_access, is_again, is_touch, touches};
use crate::marks::Marks;
use mm_move_rules::ResidentSet;
use mm_replay::{FrameList, Life};
use mm_types::{Block, Frame, Held, Key, LineKind, Move, Pid, Place, Record};

// ---- records, sets and moves

fn is_at_max(set: Option<ResidentSet>) -> bool
    ensures { result ≡ is_at_max set }
{
    match set {
        Some(set) => set.resident == set.max,
        None => false,
    }
}

fn is_owner_shared(r: &Record) -> bool
    ensures { result ≡ owner_is is_shared r.now }
{
    match r.owner {
        Some(Key::Shared(_, _)) => true,
        Some(Key::Private(_, _)) | None => false,
    }
}

/// Whether the move is a read into this frame.
fn reads_into(frame: Frame, m: Option<&Move>) -> bool
    ensures { result ≡ reads_into frame.0 (option_map (λ x. x.now) m.entry) }
{
    match m {
        Some(Move::Read(into, _)) => into.0 == frame.0,
        _ => false,
    }
}

/// Whether the move makes a page valid in the working set of this process.
fn maps_into(pid: Pid, m: Option<&Move>) -> bool
    ensures { result ≡ maps_into pid.0 (option_map (λ x. x.now) m.entry) }
{
    match m {
        Some(Move::Map(_, place)) => place.pid.0 == pid.0,
        _ => false,
    }
}

// ---- one class of a move, for each move that can have several

fn class_of_add(kind: LineKind, block: Option<Block>) -> Class
    ensures { result ≡ class_of_add kind block }
{
    match block {
        Some(_) => Class::FilePageAdded,
        None => {
            if is_touch(kind) {
                Class::CopyOnWriteFault
            } else {
                Class::DemandZeroAdded
            }
        }
    }
}

/// Whether the page that stands so is in a frame that has a request.
fn is_busy(replay: &Life, held: Held) -> bool
    ensures { result ≡ is_busy (life replay.now) held }
{
    match held {
        Held::Frame(frame) => has_request(replay.record(frame).request),
        Held::Slot(_) | Held::Block(_) | Held::Zero | Held::Dead => false,
    }
}

fn class_of_drop(replay: &Life, key: Key) -> Class
    ensures { result ≡ class_of_drop (life replay.now) key }
{
    if is_busy(replay, replay.standing(key)) {
        Class::DeletedInFlight
    } else {
        Class::Deleted
    }
}

fn class_of_clear(kind: LineKind) -> Class
    ensures { result ≡ class_of_clear kind }
{
    match kind {
        LineKind::Zeroer => Class::ZeroedByThread,
        _ => Class::ZeroedOnDemand,
    }
}

/// Whether the place of a private page is valid: for the shared page that it is a copy of.
fn is_copy(replay: &Life, key: Key) -> bool
    ensures { result ≡ is_copy_on_write (life replay.now) key }
{
    match key {
        Key::Private(pid, vpn) => replay.frame_of(Place { pid, vpn }).is_some(),
        Key::Shared(_, _) => false,
    }
}

fn class_of_give(replay: &Life, key: Key) -> Class
    ensures { result ≡ class_of_give (life replay.now) key }
{
    if is_copy(replay, key) {
        Class::FrameForCopy
    } else {
        Class::DemandZeroFault
    }
}

fn class_of_read(held: Held) -> Class
    ensures { result ≡ class_of_read held }
{
    match held {
        Held::Slot(_) => Class::HardFaultFromPagingFile,
        Held::Block(_) | Held::Frame(_) | Held::Zero | Held::Dead => Class::HardFaultFromFile,
    }
}

fn class_of_got(kind: LineKind, r: &Record, own: bool) -> Class
    ensures { result ≡ class_of_got kind r.now own }
{
    if r.owner.is_none() {
        Class::PageInDoneDeleted
    } else if is_access(kind) && !own {
        Class::CollidedFault
    } else {
        Class::PageInDone
    }
}

/// One of two classes, by whether the page of a frame was deleted.
fn by_owner(r: &Record, deleted: Class, owned: Class) -> Class
    ensures { result ≡ (if is_none r.now.owner then deleted else owned) }
{
    if r.owner.is_none() { deleted } else { owned }
}

/// A page is found in a frame: valid elsewhere, being written, or on one of two lists.
fn class_of_soft(replay: &Life, frame: Frame, r: &Record) -> Class
    ensures { result ≡ class_of_soft (life replay.now) frame.0 r.now }
{
    if r.shares > 0 {
        Class::SoftFaultShared
    } else if has_request(r.request) {
        Class::SoftFaultInTransition
    } else if replay.is_on_modified(frame) {
        Class::SoftFaultFromModified
    } else {
        Class::SoftFaultFromStandby
    }
}

fn class_of_map(replay: &Life, marks: &Marks, frame: Frame) -> Class
    ensures { result ≡ class_of_map (life replay.now) (marks_of marks.now) frame.0 }
{
    if marks.is_fresh(frame) {
        Class::MadeValid
    } else if marks.has_arrived(frame) {
        Class::FirstUse
    } else {
        class_of_soft(replay, frame, &replay.record(frame))
    }
}

/// Whether a shared page is valid at the place.
fn shows_shared(replay: &Life, place: Place) -> bool
    ensures { result ≡ shows_shared (life replay.now) place }
{
    match replay.frame_of(place) {
        Some(frame) => is_owner_shared(&replay.record(frame)),
        None => false,
    }
}

/// Whether a shared page is valid where the line's process has a private page, its copy.
fn makes_way(replay: &Life, place: Place) -> bool
    ensures { result ≡ makes_way (life replay.now) place }
{
    touches(place.pid, replay.kind())
        && shows_shared(replay, place)
        && replay.is_live(Key::Private(place.pid, place.vpn))
}

/// Whether zeroed, free and standby are empty.
fn is_short(replay: &Life) -> bool
    ensures { result ≡ is_short (life replay.now) }
{
    replay.is_list_empty(FrameList::Zeroed)
        && replay.is_list_empty(FrameList::Free)
        && replay.is_list_empty(FrameList::Standby)
}

/// Whether the full working set of the line's process makes room for the page that is made valid
/// next.
fn makes_room(replay: &Life, pid: Pid, next: Option<&Move>) -> bool
    ensures { result ≡ makes_room (life replay.now) pid.0 (option_map (λ x. x.now) next.entry) }
{
    touches(pid, replay.kind()) && is_at_max(replay.set_of(pid)) && maps_into(pid, next)
}

fn class_of_unmap(replay: &Life, place: Place, next: Option<&Move>) -> Class
    ensures { result ≡ class_of_unmap (life replay.now) place (option_map (λ x. x.now) next.entry) }
{
    match replay.kind() {
        LineKind::Unbind(_) => Class::PlaceEnds,
        LineKind::Trim(_) => Class::Trimmed,
        kind => {
            if makes_way(replay, place) {
                Class::MakesWayForCopy
            } else if is_access(kind) && is_short(replay) && !makes_room(replay, place.pid, next) {
                Class::TrimmedForWantOfFrames
            } else {
                Class::Replaced
            }
        }
    }
}

fn class_of_soil(r: &Record) -> Class
    ensures { result ≡ class_of_soil r.now }
{
    if has_request(r.request) {
        Class::FirstWriteInFlight
    } else {
        Class::FirstWrite
    }
}

fn class_of_write(kind: LineKind) -> Class
    ensures { result ≡ class_of_write kind }
{
    match kind {
        LineKind::Writer => Class::WriteByWriter,
        LineKind::Access(_) => Class::WriteForWantOfFrames,
        _ => Class::WriteByFlush,
    }
}

fn class_of_wrote(r: &Record) -> Class
    ensures { result ≡ class_of_wrote r.now }
{
    if r.owner.is_none() {
        Class::WriteDoneDeleted
    } else if is_again(r.request) {
        Class::WriteDoneChanged
    } else {
        Class::WriteDone
    }
}

/// The class of a move that comes next in the replay of a log: `replay` and `marks` are as they
/// stand before it, `previous` and `next` are the moves right before and after it in the log, if
/// any. `None` exactly for `at`, which begins a line. Takes constant time.
pub fn class_of(
    replay: &Life,
    marks: &Marks,
    previous: Option<&Move>,
    m: &Move,
    next: Option<&Move>,
) -> Option<Class>
    ensures { result ≡ class_of (life replay.now) (marks_of marks.now)
        (option_map (λ x. x.now) previous.entry) m.now (option_map (λ x. x.now) next.entry) }
{
    let class = match *m {
        Move::At(_, _) => return None,
        Move::Add(_, block) => class_of_add(replay.kind(), block),
        Move::Drop(key) => class_of_drop(replay, key),
        Move::Clear(_) => class_of_clear(replay.kind()),
        Move::Steal(_) => Class::StandbyRepurposed,
        Move::Give(_, key) => class_of_give(replay, key),
        Move::Read(_, key) => class_of_read(replay.standing(key)),
        Move::Got(frame) => class_of_got(
            replay.kind(),
            &replay.record(frame),
            reads_into(frame, previous),
        ),
        Move::Bad(frame) => by_owner(
            &replay.record(frame),
            Class::PageInFailedDeleted,
            Class::PageInFailed,
        ),
        Move::Map(frame, _) => class_of_map(replay, marks, frame),
        Move::Unmap(place) => class_of_unmap(replay, place, next),
        Move::Soil(frame) => class_of_soil(&replay.record(frame)),
        Move::Write(_, _) => class_of_write(replay.kind()),
        Move::Wrote(frame) => class_of_wrote(&replay.record(frame)),
        Move::Lost(frame) => by_owner(
            &replay.record(frame),
            Class::WriteFailedDeleted,
            Class::WriteFailed,
        ),
    };
    Some(class)
}
