ghost use Rattle.std.specs.Prelude.{◌≡◌, ◌<◌, IfSome};
ghost use Rattle.mm_move_classes.specs.{is_class};
ghost use Rattle.mm_replay.specs.Standing.{life as life_of};
ghost use Rattle.mm_reports.specs.Faults.{column_of, process_of_line, page_faulted, place_of, is_zero_fill};
ghost use Rattle.mm_reports.specs.Faults.{is_hard, is_first_use, is_soft, is_paged, request_end};
ghost use Rattle.mm_reports.specs.Faults.{is_on_paging_file};
ghost use Rattle.mm_reports.specs.Tallies.{column_in};

use mm_move_classes::{Class, code};
use mm_replay::Life;
use mm_types::{Backing, Key, LineKind, Move};

/// A page of a process, as the table is ordered: the process, whether its key is of a shared page,
/// and the key's two numbers.
pub(crate) type FaultPlace = (u8, bool, u32, u32);

/// The column in which a class is counted: hard; soft, by where the page was found (standby,
/// modified, transition, active); demand-zero; copy; collided.
fn column_of(class: Class) -> Option<usize>
    ensures value { result ≡ column_of class }
    ensures low { IfSome result (λ c. c < 8) }
{
    match class {
        Class::HardFaultFromPagingFile | Class::HardFaultFromFile => Some(0),
        Class::SoftFaultFromStandby => Some(1),
        Class::SoftFaultFromModified => Some(2),
        Class::SoftFaultInTransition => Some(3),
        Class::SoftFaultShared => Some(4),
        Class::DemandZeroFault => Some(5),
        Class::CopyOnWriteFault => Some(6),
        Class::CollidedFault => Some(7),
        _ => None,
    }
}

/// The column of a class, if there is one.
pub(crate) fn column_in(class: Option<Class>) -> Option<usize>
    ensures value { result ≡ column_in class }
    ensures low { IfSome result (λ c. c < 8) }
{
    match class {
        Some(class) => column_of(class),
        None => None,
    }
}

/// The process whose access the line is.
pub(crate) fn process_of_line(kind: LineKind) -> u8
    ensures { result ≡ process_of_line kind }
{
    match kind {
        LineKind::Access(pid) | LineKind::Thread(pid) => pid.0,
        _ => 0,
    }
}

/// The page that a fault is on.
pub(crate) fn page_faulted(life: &Life, m: &Move) -> Option<Key>
    ensures { result ≡ page_faulted (life_of life.now) m.now }
{
    match *m {
        Move::Add(key, _) | Move::Give(_, key) | Move::Read(_, key) => Some(key),
        Move::Map(frame, _) | Move::Got(frame) => life.record(frame).owner,
        _ => None,
    }
}

pub(crate) fn place_of(pid: u8, key: Key) -> FaultPlace
    ensures { result ≡ place_of pid key }
{
    match key {
        Key::Private(owner, vpn) => (pid, false, u32::from(owner.0), vpn.0),
        Key::Shared(area, index) => (pid, true, area.0, index),
    }
}

/// Whether the class is this one.
fn is_class(wanted: Class, class: Option<Class>) -> bool
    ensures { result ≡ is_class wanted class }
{
    match class {
        Some(class) => code(class) == code(wanted),
        None => false,
    }
}

/// Whether it is a zero fill, as a check of a log counts.
pub(crate) fn is_zero_fill(class: Option<Class>) -> bool
    ensures { result ≡ is_zero_fill class }
{
    is_class(Class::DemandZeroFault, class) || is_class(Class::FrameForCopy, class)
}

pub(crate) fn is_hard(class: Option<Class>) -> bool
    ensures { result ≡ is_hard class }
{
    is_class(Class::HardFaultFromPagingFile, class) || is_class(Class::HardFaultFromFile, class)
}

/// Whether it is the first use of a page that an earlier line read in.
pub(crate) fn is_first_use(class: Option<Class>) -> bool
    ensures { result ≡ is_first_use class }
{
    is_class(Class::FirstUse, class)
}

/// Whether it is a soft fault, as a check of a log counts.
pub(crate) fn is_soft(class: Option<Class>) -> bool
    ensures { result ≡ is_soft class }
{
    is_first_use(class)
        || is_class(Class::SoftFaultFromStandby, class)
        || is_class(Class::SoftFaultFromModified, class)
        || is_class(Class::SoftFaultInTransition, class)
        || is_class(Class::SoftFaultShared, class)
}

/// Whether a request on this copy is one on the paging file.
fn is_paged(backing: Backing) -> bool
    ensures { result ≡ is_paged backing }
{
    match backing {
        Backing::Slot(_) => true,
        Backing::Block(_) | Backing::None => false,
    }
}

/// How a request ends with this move, if one does: read, a read that failed, written, a write that
/// failed.
pub(crate) fn request_end(m: &Move) -> Option<usize>
    ensures value { result ≡ request_end m.now }
    ensures low { IfSome result (λ c. c < 4) }
{
    match *m {
        Move::Got(_) => Some(0),
        Move::Bad(_) => Some(1),
        Move::Wrote(_) => Some(2),
        Move::Lost(_) => Some(3),
        _ => None,
    }
}

/// Whether the request that ends with this move is one on the paging file.
pub(crate) fn is_on_paging_file(life: &Life, m: &Move) -> bool
    ensures { result ≡ is_on_paging_file (life_of life.now) m.now }
{
    match *m {
        Move::Got(frame) | Move::Bad(frame) | Move::Wrote(frame) | Move::Lost(frame) => {
            is_paged(life.record(frame).backing)
        }
        _ => false,
    }
}
