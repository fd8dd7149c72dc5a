ghost use Rattle.std.specs.Prelude.{◌≡◌, ℕ, ◌<◌, true, false, length, map, ◌&&◌, Some, is_some, option_map};
ghost use Rattle.mm_page_lists.specs.{IsOnOne, IsOnNone, AreApart, without};
ghost use Rattle.mm_move_rules.specs.{is_idle, has_request, is_write, soiled, write_done, write_lost, without_slot, slot_of, slot_after_soil};
ghost use Rattle.mm_move_rules.specs.{slot_after_read};
ghost use Rattle.mm_pfn_database.specs.{has_block, is_modified_with_block, record_written, slot_after_write, list_for, relisted, second_for};
ghost use Rattle.mm_pfn_database.specs.declared.standing.Standing.TheVariants.{Bound};

use crate::Standing;
use mm_page_lists::Lists;
use mm_types::{Backing, Record, Request, Slot};

/// The lists by their numbers.
pub const ZEROED: u32 = 0;

pub const FREE: u32 = 1;

pub const STANDBY: u32 = 2;

pub const MODIFIED: u32 = 3;

/// The one list of the second lists.
pub const WITH_BLOCK: u32 = 0;

/// Whether a frame has neither shares nor a request.
#[inline(always)]
fn is_idle(r: &Record) -> bool
    ensures { result ≡ is_idle r.now }
{
    match r.request {
        Request::None => r.shares == 0,
        Request::Read | Request::Write | Request::WriteAgain => false,
    }
}

/// Whether a request holds the frame.
#[inline(always)]
pub fn has_request(r: &Record) -> bool
    ensures { result ≡ has_request r.now.request }
{
    match r.request {
        Request::None => false,
        Request::Read | Request::Write | Request::WriteAgain => true,
    }
}

/// Whether the record is that of a frame on modified.
#[inline(always)]
pub fn is_modified(r: &Record) -> bool
    ensures { result ≡ (is_idle r.now && r.now.changed) }
{
    is_idle(r) && r.changed
}

#[inline(always)]
fn has_block(backing: Backing) -> bool
    ensures { result ≡ has_block backing }
{
    match backing {
        Backing::Block(_) => true,
        Backing::None | Backing::Slot(_) => false,
    }
}

/// Whether a frame is on modified, and its page is written to a block of its own.
#[inline(always)]
pub fn is_modified_with_block(r: &Record) -> bool
    ensures { result ≡ is_modified_with_block r.now }
{
    is_idle(r) && r.changed && has_block(r.backing)
}

/// The list that a frame is on which stands there with this record.
#[inline(always)]
pub fn list_for(standing: Standing, r: &Record) -> Option<u32>
    ensures { result ≡ list_for standing r.now }
{
    match standing {
        Standing::Zeroed => Some(ZEROED),
        Standing::Free => Some(FREE),
        Standing::Bound => idle_list_for(r),
        Standing::Cleared | Standing::Taken => None,
    }
}

/// An idle frame is on modified where it is changed, else on standby.
#[inline(always)]
fn idle_list_for(r: &Record) -> Option<u32>
    ensures { result ≡ list_for Bound r.now }
{
    if !is_idle(r) {
        return None;
    }
    Some(if r.changed { MODIFIED } else { STANDBY })
}

/// The second list that a frame with this record is on.
#[inline(always)]
pub fn second_list_for(r: &Record) -> Option<u32>
    ensures { result ≡ second_for r.now }
{
    if is_modified_with_block(r) {
        Some(WITH_BLOCK)
    } else {
        None
    }
}

/// The frame leaves its list, if it is on one.
#[inline(always)]
fn leave(lists: &mut Lists, f: u32, listed: bool)
    requires on_one { listed ≡ true → IsOnOne lists.old.lists f }
    requires on_none { listed ≡ false → IsOnNone lists.old.lists f }
    requires apart { AreApart lists.old }
    ensures left { lists.new ≡ record lists.old { lists = map (without f) lists.old.lists } }
    ensures apart { AreApart lists.new }
{
    if listed {
        lists.unlink(f);
    }
}

/// The frame leaves its list, if it is on one, and goes to the end of another, if any.
#[inline(always)]
pub fn relist(lists: &mut Lists, f: u32, from: Option<u32>, to: Option<u32>)
    requires on_one { is_some from ≡ true → IsOnOne lists.old.lists f }
    requires on_none { is_some from ≡ false → IsOnNone lists.old.lists f }
    requires apart { AreApart lists.old }
    requires below { f < lists.old.numbers }
    requires there { (i : ℕ) → to ≡ Some i → i < length lists.old.lists }
    ensures relisted { lists.new ≡ relisted to lists.old f }
    ensures apart { AreApart lists.new }
{
    leave(lists, f, from.is_some());
    if let Some(list) = to {
        lists.push_back(list, f);
    }
}

/// The record of a frame whose page is changed.
#[inline(always)]
pub fn soiled(r: &Record) -> Record
    ensures { result ≡ soiled r.now }
{
    match r.request {
        Request::None => Record {
            changed: true,
            backing: without_slot(r.backing),
            ..*r
        },
        Request::Read | Request::Write | Request::WriteAgain => Record {
            request: Request::WriteAgain,
            ..*r
        },
    }
}

#[inline(always)]
fn without_slot(backing: Backing) -> Backing
    ensures { result ≡ without_slot backing }
{
    match backing {
        Backing::None | Backing::Slot(_) => Backing::None,
        Backing::Block(b) => Backing::Block(b),
    }
}

/// The slot that is given back as a page is changed.
#[inline(always)]
pub fn slot_after_soil(r: &Record) -> Option<Slot>
    ensures { option_map (λ s. s.0) result ≡ slot_after_soil r.now }
{
    match r.request {
        Request::None => slot_of(r.backing),
        Request::Read | Request::Write | Request::WriteAgain => None,
    }
}

/// The slot that a backing is.
#[inline(always)]
pub fn slot_of(backing: Backing) -> Option<Slot>
    ensures { option_map (λ s. s.0) result ≡ slot_of backing }
{
    match backing {
        Backing::Slot(s) => Some(s),
        Backing::None | Backing::Block(_) => None,
    }
}

/// The slot that is given back as a read ends: that of a page which is no more.
#[inline(always)]
pub fn slot_after_read(r: &Record) -> Option<Slot>
    ensures { option_map (λ s. s.0) result ≡ slot_after_read r.now }
{
    match r.owner {
        Some(_) => None,
        None => slot_of(r.backing),
    }
}

/// The record of a frame whose write ended.
#[inline(always)]
pub fn written(r: &Record, ok: bool) -> Record
    requires { is_write r.now.request ≡ true }
    ensures { result ≡ record_written ok r.now }
{
    if !ok || r.request == Request::WriteAgain {
        let backing = without_slot(r.backing);
        return Record {
            request: Request::None,
            backing,
            ..*r
        };
    }
    Record {
        request: Request::None,
        changed: false,
        ..*r
    }
}

/// The slot that is given back as a write ends: that of a page which is no more, or has to be
/// written again.
#[inline(always)]
pub fn slot_after_write(r: &Record, ok: bool) -> Option<Slot>
    requires { is_write r.now.request ≡ true }
    ensures { option_map (λ s. s.0) result ≡ slot_after_write ok r.now }
{
    if ok && r.request == Request::Write && r.owner.is_some() {
        return None;
    }
    slot_of(r.backing)
}
