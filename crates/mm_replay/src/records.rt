ghost use Rattle.std.specs.Prelude.{◌≡◌, ◌+◌, ◌-◌, ◌<◌, ◌^◌, true, false, is_some};
ghost use Rattle.mm_move_rules.specs.{blank, shared, soiled, write_done, write_lost, is_again, has_request, is_read, is_write, without_slot, slot_of};
ghost use Rattle.mm_move_rules.specs.{slot_after_soil, slot_after_drop, slot_after_read, slot_after_wrote, is_idle};
ghost use Rattle.mm_replay.specs.{is_changed_page};

use mm_types::{Backing, Record, Request};

/// The record of a frame that holds nothing.
pub(crate) fn blank() -> Record
    ensures { result ≡ blank }
{
    Record {
        owner: None,
        changed: false,
        backing: Backing::None,
        shares: 0,
        request: Request::None,
    }
}

pub(crate) fn has_request(request: Request) -> bool
    ensures { result ≡ has_request request }
{
    !matches!(request, Request::None)
}

pub(crate) fn is_read(request: Request) -> bool
    ensures { result ≡ is_read request }
{
    matches!(request, Request::Read)
}

pub(crate) fn is_write(request: Request) -> bool
    ensures { result ≡ is_write request }
{
    matches!(request, Request::Write | Request::WriteAgain)
}

pub(crate) fn is_again(request: Request) -> bool
    ensures { result ≡ is_again request }
{
    matches!(request, Request::WriteAgain)
}

fn without_slot(backing: Backing) -> Backing
    ensures { result ≡ without_slot backing }
{
    match backing {
        Backing::None | Backing::Slot(_) => Backing::None,
        Backing::Block(block) => Backing::Block(block),
    }
}

pub(crate) fn slot_of(backing: Backing) -> Option<u32>
    ensures { result ≡ slot_of backing }
{
    match backing {
        Backing::None | Backing::Block(_) => None,
        Backing::Slot(slot) => Some(slot.0),
    }
}

// ---- one record

pub(crate) fn soiled(r: Record) -> Record
    ensures { result ≡ soiled r }
{
    if has_request(r.request) {
        Record {
            request: Request::WriteAgain,
            ..r
        }
    } else {
        Record {
            changed: true,
            backing: without_slot(r.backing),
            ..r
        }
    }
}

pub(crate) fn write_done(r: Record) -> Record
    ensures { result ≡ write_done r }
{
    if is_again(r.request) {
        write_lost(r)
    } else {
        Record {
            request: Request::None,
            changed: false,
            ..r
        }
    }
}

pub(crate) fn write_lost(r: Record) -> Record
    ensures { result ≡ write_lost r }
{
    Record {
        request: Request::None,
        backing: without_slot(r.backing),
        ..r
    }
}

pub(crate) fn is_idle(r: &Record) -> bool
    ensures { result ≡ is_idle r.now }
{
    r.shares == 0 && !has_request(r.request)
}

/// Whether this is an idle frame of a changed page.
pub(crate) fn is_changed_page(r: &Record) -> bool
    ensures { result ≡ is_changed_page r.now }
{
    r.owner.is_some() && is_idle(r) && r.changed
}

/// A page that is valid at one place more. Its frame has fewer than 2^32 - 1 shares.
pub(crate) fn shared(r: Record) -> Record
    requires { r.shares + 1 < 2 ^ 32 }
    ensures now { result ≡ shared r }
    ensures busy { is_idle result ≡ false }
    ensures owned { result.owner ≡ r.owner }
{
    Record {
        shares: r.shares + 1,
        ..r
    }
}

// ---- the slots that are given back

pub(crate) fn slot_after_soil(r: &Record) -> Option<u32>
    ensures soil { result ≡ slot_after_soil r.now }
    ensures drop { result ≡ slot_after_drop r.now }
{
    if has_request(r.request) {
        return None;
    }
    slot_of(r.backing)
}

pub(crate) fn slot_after_read(r: &Record) -> Option<u32>
    ensures { result ≡ slot_after_read r.now }
{
    if r.owner.is_some() {
        return None;
    }
    slot_of(r.backing)
}

pub(crate) fn slot_after_wrote(r: &Record) -> Option<u32>
    ensures { result ≡ slot_after_wrote r.now }
{
    if r.owner.is_some() && !is_again(r.request) {
        return None;
    }
    slot_of(r.backing)
}
