ghost use Rattle.std.specs.Prelude.{◌≡◌, ◌-◌, ◌<◌, ◌≤◌, [], ◌∷◌, ◌++◌, length, map, not, replicate, IsTrue, IfOk, slice_get, slice_set, Some, option_map, true, false, filter, ◌==◌, vec_len, vec_capacity};
ghost use Rattle.mm_requests.specs.Requests.{FlightOf, HoldsRequests, is_requested, without, nth_oldest, place_in, ended, wait_shown, frame_number, is_for, NoneWaitsFrom};

use mm_types::{Frame, NoMemory, THREADS, Tid, Wait};
use std::alloc::Global;
use std::marker::Model;

/// What a thread waits for.
#[derive(Clone, Copy, PartialEq, Eq)]
pub enum Waiting {
    Nothing,
    /// The request of this frame, which is in flight.
    For(Frame),
    /// Its request was done.
    Done,
    /// Its request failed.
    Failed,
}

/// The frames whose request is in flight, oldest first, and what each thread waits for.
///
/// All room is taken when it is made: no later call takes memory.
#[derive(Drop)]
pub struct Flight {
    depth: u32,
    frames: Vec<Frame>,
    waits: Vec<Waiting>,
    /// No thread from this number on waits for a request, so that the end of a request asks none of
    /// them.
    upto: usize,
}

impl Model for Flight {
    ghost use Rattle.std.specs.Prelude.{map, length, vec_len, vec_capacity, ◌≤◌};
    ghost use Rattle.mm_requests.specs.Requests.{FlightOf, frame_number, HasRoom, IsKept, NoneWaitsFrom};

    ghost Value = { FlightOf };

    ghost view = { λ f. record {
      depth = f.depth;
      frames = map frame_number f.frames.items;
      waits = f.waits.items;
    } };

    ghost invariant = { λ f. record {
      room : HasRoom f.depth (vec_len f.frames) (vec_capacity f.frames) (length f.waits.items);
      kept : IsKept (map frame_number f.frames.items) f.waits.items;
      within : f.upto ≤ 256;
      idle : NoneWaitsFrom f.upto f.waits.items;
    } };
}

impl Flight {
    /// No request is in flight, and no thread waits. At most `depth` requests can be in flight.
    pub fn new(alloc: Global, depth: u32) -> Result<Flight, NoMemory>
        ensures { IfOk result (λ f. f ≡ record {
          depth = depth;
          frames = [];
          waits = replicate 256 Waiting.Nothing;
        }) }
    {
        let frames = Vec::with_capacity(alloc, depth as usize)?;
        let mut waits = Vec::new(alloc);
        waits.resize(THREADS, Waiting::Nothing)?;
        Ok(Flight {
            depth,
            frames,
            waits,
            upto: 0,
        })
    }

    /// A request of a frame that has none begins; there are fewer than the depth.
    pub fn begin(&mut self, f: Frame)
        requires fewer { length self.old.frames < self.old.depth }
        requires new { is_requested f.0 self.old.frames ≡ false }
        ensures { self.new ≡ record self.old { frames = self.old.frames ++ f.0 ∷ [] } }
    {
        match self.frames.push(f) {
            Ok(()) => {}
            Err(_) => unreachable!(),
        }
    }

    /// How many requests are in flight.
    pub fn len(&self) -> u32
        ensures value { result ≡ length self.now.frames }
        ensures within { result ≤ self.now.depth }
    {
        self.frames.len() as u32
    }

    /// Whether no request is in flight.
    pub fn is_empty(&self) -> bool
        ensures { result ≡ (length self.now.frames == 0) }
    {
        self.frames.is_empty()
    }

    /// The frame of the i-th oldest request, counted from 1. `None` comes at 0 and past the last.
    pub fn nth(&self, i: u32) -> Option<Frame>
        ensures { option_map frame_number result ≡ nth_oldest i self.now.frames }
    {
        if i == 0 {
            return None;
        }
        frame_at(&self.frames, i - 1)
    }

    /// That no frame has two requests, that each thread that waits waits for a frame in flight,
    /// that at most depth requests are in flight, and that there are 256 threads. It does nothing.
    pub fn requests_hold(&self)
        ensures holds { HoldsRequests self.now }
        ensures few { length self.now.frames ≤ self.now.depth }
        ensures threads { length self.now.waits ≡ 256 }
    {
        let _frames = &self.frames;
    }

    /// How old the frame's request is: the i of `nth`. `None` comes exactly where it has none.
    pub fn place_of(&self, f: Frame) -> Option<u32>
        ensures { result ≡ place_in f.0 self.now.frames }
    {
        for (i, frame) in self.frames.iter().enumerate() {
            if frame.0 == f.0 {
                return Some(i as u32 + 1);
            }
        }
        None
    }

    /// The request of a frame in flight ends, well or not, and so does the wait of each thread for
    /// it.
    pub fn end(&mut self, f: Frame, ok: bool)
        requires { is_requested f.0 self.old.frames ≡ true }
        ensures { self.new ≡ record self.old {
          frames = without f.0 self.old.frames;
          waits = map (ended f.0 ok) self.old.waits;
        } }
    {
        remove_frame(&mut self.frames, f);
        self.upto = end_waits(&mut self.waits, self.upto, f, ok);
    }

    /// The thread waits for the request of a frame in flight from now on.
    pub fn wait(&mut self, t: Tid, f: Frame)
        requires { is_requested f.0 self.old.frames ≡ true }
        ensures waits { self.new ≡ record self.old {
          waits = slice_set self.old.waits t.0 (Waiting.For f);
        } }
        ensures there { t.0 < length self.old.waits }
    {
        self.waits[t.0 as usize] = Waiting::For(f);
        if self.upto <= t.0 as usize {
            self.upto = t.0 as usize + 1;
        }
    }

    /// How the thread's wait stands.
    pub fn outcome(&self, t: Tid) -> Wait
        ensures { slice_get (map wait_shown self.now.waits) t.0 ≡ Some result }
    {
        match self.waits[t.0 as usize] {
            Waiting::Nothing => Wait::None,
            Waiting::For(_) => Wait::InFlight,
            Waiting::Done => Wait::Done,
            Waiting::Failed => Wait::Failed,
        }
    }

    /// The thread waits for nothing from now on.
    pub fn forget(&mut self, t: Tid)
        ensures waits { self.new ≡ record self.old {
          waits = slice_set self.old.waits t.0 Waiting.Nothing;
        } }
        ensures there { t.0 < length self.old.waits }
    {
        self.waits[t.0 as usize] = Waiting::Nothing;
    }
}

/// The frame at a place of the list, counted from 0.
fn frame_at(frames: &[Frame], i: u32) -> Option<Frame>
    ensures { option_map frame_number result ≡ slice_get (map frame_number frames.now) i }
{
    frames.get(i as usize).copied()
}

/// What a thread waits for once the request of frame `f` has ended.
fn after_end(waiting: Waiting, f: Frame, ok: bool) -> Waiting
    ensures { result ≡ ended f.0 ok waiting }
{
    match waiting {
        Waiting::For(g) if g == f => { if ok { Waiting::Done } else { Waiting::Failed } }
        other => other,
    }
}

/// Whether a thread waits for a request in flight.
fn is_for(waiting: Waiting) -> bool
    ensures { result ≡ is_for waiting }
{
    match waiting {
        Waiting::For(_) => true,
        _ => false,
    }
}

/// Ends each wait for the request of frame `f`, where no thread from `upto` on waits for one.
/// Answers from which thread on none does then.
fn end_waits(waits: &mut Vec<Waiting>, upto: usize, f: Frame, ok: bool) -> usize
    requires within { upto ≤ length waits.old.items }
    requires idle { NoneWaitsFrom upto waits.old.items }
    ensures waits { waits.new.items ≡ map (ended f.0 ok) waits.old.items }
    ensures idle { NoneWaitsFrom result waits.new.items }
    ensures within { result ≤ upto }
{
    let mut from = 0usize;
    for t in 0..upto {
        let after = after_end(waits[t], f, ok);
        waits[t] = after;
        if is_for(after) {
            from = t + 1;
        }
    }
    from
}

/// Takes frame `f` out of the list.
fn remove_frame(frames: &mut Vec<Frame>, f: Frame)
    ensures items { frames.new.items ≡ filter (λ x. not (x.0 == f.0)) frames.old.items }
    ensures len { vec_len frames.new ≤ vec_len frames.old }
    ensures capacity { vec_capacity frames.new ≡ vec_capacity frames.old }
{
    frames.retain(|frame| frame.0 != f.0);
}
