ghost use Rattle.std.specs.Prelude.{◌≡◌, ◌<◌, Some, None, true, false, length, ◌+◌, ◌==◌, ℕ, option_map, slice_set};
ghost use Rattle.mm_move_laws.specs.{times};
ghost use Rattle.mm_requests.specs.{is_requested, nth_oldest, place_in};
ghost use Rattle.mm_parts.specs.{requests, own_is, is_own_line, own_after, own_ended, flight_begun, flight_ended, waits_of};
ghost use Rattle.mm_move_rules.specs.{record_at, is_read, changed, has_depth, Idle, ForFrame, wait_of as walked_wait};
ghost use Rattle.mm_requests.specs.declared.flights.Waiting.TheVariants as waiting;

use crate::parts::Parts;
use mm_requests::Flight;
use mm_types::{Frame, LineKind, Tid, Wait};

/// A request begins: the line's own in a plain access and in a call, else one in flight.
pub(crate) fn begin_request(flight: &mut Flight, own: &mut Option<Frame>, kind: LineKind, f: Frame)
    requires fewer { is_own_line kind ≡ false → length flight.old.frames < flight.old.depth }
    requires new { is_own_line kind ≡ false → is_requested f.0 flight.old.frames ≡ false }
    ensures flight { flight.new ≡ flight_begun (is_own_line kind) flight.old f }
    ensures own { own.new ≡ own_after kind own.old f }
{
    match kind {
        LineKind::Access(_) | LineKind::Call => *own = Some(f),
        _ => flight.begin(f),
    }
}

/// Whether the line's own request is that of the frame.
fn is_own(own: &Option<Frame>, f: Frame) -> bool
    ensures { result ≡ own_is own.now f.0 }
{
    match own {
        Some(g) => g.0 == f.0,
        None => false,
    }
}

/// The request of a frame ends, well or not: the line's own, or one in flight.
#[tactic(auto, using(crate::proofs::RequestLists::in_flight, crate::proofs::RequestLists::own_none, crate::proofs::RequestLists::own_other))]
pub(crate) fn end_request(flight: &mut Flight, own: &mut Option<Frame>, f: Frame, ok: bool)
    requires { times f.0 (requests flight.old.frames own.old) ≡ 1 }
    ensures flight { flight.new ≡ flight_ended (own_is own.old f.0) flight.old f.0 ok }
    ensures own { own.new ≡ own_ended own.old f.0 }
{
    if is_own(own, f) {
        *own = None;
    } else {
        flight.end(f, ok);
    }
}

impl Parts {
    ghost use Rattle.mm_parts.specs.{shown_parts};

    /// How many requests there are, the line's own among them.
    pub fn requests(&self) -> u32
        ensures { result ≡ length (shown_parts self.now).life.flight }
    {
        self.flight.requests_hold();
        match self.own {
            Some(_) => self.flight.len() + 1,
            None => self.flight.len(),
        }
    }

    /// Whether there are fewer requests than the depth.
    pub fn has_depth(&self) -> bool
        ensures { result ≡ has_depth (shown_parts self.now).life }
    {
        self.requests() < self.machine.depth()
    }

    /// The frame of the i-th oldest request, counted from 1, the line's own among them. `None`
    /// comes at 0 and past the last.
    pub fn nth(&self, i: u32) -> Option<Frame>
        ensures { option_map (λ f. f.0) result ≡ nth_oldest i (shown_parts self.now).life.flight }
    {
        let len = self.flight.len();
        if len < i {
            return if i - len == 1 { self.own } else { None };
        }
        self.flight.nth(i)
    }

    /// How old the request of a frame is: the i of `nth`. `None` comes exactly where it has none.
    pub fn place_of(&self, f: Frame) -> Option<u32>
        ensures { result ≡ place_in f.0 (shown_parts self.now).life.flight }
    {
        self.flight.requests_hold();
        if is_own(&self.own, f) {
            return Some(self.flight.len() + 1);
        }
        self.flight.place_of(f)
    }

    /// A thread waits for a read in flight, which is not the line's own, from now on.
    pub fn wait(&mut self, t: Tid, f: Frame)
        requires read { is_read (record_at (shown_parts self.old).life.frames f.0).request ≡ true }
        requires other { own_is (shown_parts self.old).own f.0 ≡ false }
        ensures made { shown_parts self.new ≡ record (shown_parts self.old) {
          waits = slice_set (shown_parts self.old).waits t.0 (waiting.For f);
        } }
        ensures walked { (u : ℕ) → waits_of (shown_parts self.new).waits u ≡
            changed ◌==◌ (waits_of (shown_parts self.old).waits) t.0 (ForFrame f.0) u }
    {
        self.flight.wait(t, f);
    }

    /// How a thread's wait stands.
    pub fn outcome(&self, t: Tid) -> Wait
        ensures { result ≡ walked_wait (waits_of (shown_parts self.now).waits t.0) }
    {
        self.flight.outcome(t)
    }

    /// A thread waits for nothing from now on.
    pub fn forget(&mut self, t: Tid)
        ensures made { shown_parts self.new ≡ record (shown_parts self.old) {
          waits = slice_set (shown_parts self.old).waits t.0 waiting.Nothing;
        } }
        ensures walked { (u : ℕ) → waits_of (shown_parts self.new).waits u ≡
            changed ◌==◌ (waits_of (shown_parts self.old).waits) t.0 Idle u }
    {
        self.flight.forget(t);
    }
}
