ghost use Rattle.std.specs.Prelude.{◌≡◌, OnOk, IfOk, None, Some, option_map};
ghost use Rattle.mm_replay.specs.Standing.{life as life_of};
ghost use Rattle.mm_move_classes.specs.{class_of, no_marks, marks_after, marks_of};
ghost use Rattle.mm_log_walk.specs.Classing.{next_there, is_made_room, pending_class, class_then, move_of};
ghost use Rattle.mm_log_walk.specs.Classing.{classed};

use mm_move_classes::{Class, Marks, class_of};
use mm_replay::Life;
use mm_types::{Frame, Move, NoMemory};
use std::alloc::Global;

/// A move, and its class as far as it is known before the next move is: an `unmap` may make room
/// for the page that is made valid right after it.
#[derive(Clone, Copy)]
pub struct Pending {
    m: Move,
    /// Its class where the next move is not such a `map`.
    alone: Option<Class>,
    /// And where it is.
    making_room: Option<Class>,
}

/// A move with its class.
#[derive(Clone, Copy)]
pub struct Classed {
    /// The move.
    pub m: Move,
    /// Its class; none for `at`, which begins a line.
    pub class: Option<Class>,
}

/// Whether the next move makes a page valid where this one ends a place of the same process.
fn is_made_room(m: &Move, next: Option<&Move>) -> bool
    ensures { result ≡ is_made_room m.now (option_map (λ n. n.now) next.entry) }
{
    match (*m, next) {
        (Move::Unmap(place), Some(Move::Map(_, other))) => other.pid.0 == place.pid.0,
        _ => false,
    }
}

/// A move with its class, now that the next is known.
fn told(p: &Pending, next: Option<&Move>) -> Classed
    ensures { result ≡ classed p.now (option_map (λ n. n.now) next.entry) }
{
    let class = if is_made_room(&p.m, next) {
        p.making_room
    } else {
        p.alone
    };
    Classed { m: p.m, class }
}

/// A move with its class, if there is one that waits for it, now that the next is known.
fn class_then(pending: &Option<Pending>, next: Option<&Move>) -> Option<Classed>
    ensures { result ≡ class_then pending.now (option_map (λ n. n.now) next.entry) }
{
    match pending {
        Some(p) => Some(told(p, next)),
        None => None,
    }
}

/// The class of a move behind the one that waits.
fn class_between(
    life: &Life,
    marks: &Marks,
    pending: &Option<Pending>,
    m: &Move,
    next: Option<&Move>,
) -> Option<Class>
    ensures { result ≡ class_of (life_of life.now) (marks_of marks.now) (move_of pending.now) m.now
        (option_map (λ n. n.now) next.entry) }
{
    match pending {
        Some(p) => class_of(life, marks, Some(&p.m), m, next),
        None => class_of(life, marks, None, m, next),
    }
}

/// The class of a move where the next makes a page valid in the working set that it leaves. Of
/// other moves than `unmap` it is the class that the move has alone.
fn class_with_room(
    life: &Life,
    marks: &Marks,
    pending: &Option<Pending>,
    m: &Move,
    alone: Option<Class>,
) -> Option<Class>
    requires { alone ≡ class_of (life_of life.now) (marks_of marks.now) (move_of pending.now) m.now
        None }
    ensures { result ≡ class_of (life_of life.now) (marks_of marks.now) (move_of pending.now) m.now
        (next_there m.now) }
{
    match *m {
        Move::Unmap(place) => {
            class_between(life, marks, pending, m, Some(&Move::Map(Frame(0), place)))
        }
        _ => alone,
    }
}

/// Tells the class of each move of a log when the next one comes, since it may depend on that.
#[derive(Drop)]
pub struct Classifier {
    marks: Marks,
    pending: Option<Pending>,
}

impl Classifier {
    /// No move was taken.
    pub fn new(alloc: Global) -> Classifier
        ensures marks { marks_of result.marks ≡ no_marks }
        ensures none { result.pending ≡ None }
    {
        Classifier {
            marks: Marks::new(alloc),
            pending: None,
        }
    }

    /// Takes the next move, which comes in this state. Answers the one before it, with its class.
    pub fn next(&mut self, life: &Life, m: &Move) -> Result<Option<Classed>, NoMemory>
        ensures before { IfOk result (λ r. r ≡ class_then self.old.pending (Some m.now)) }
        ensures pending { OnOk result (self.new.pending
            ≡ Some (pending_class (life_of life.now) (marks_of self.old.marks) (move_of self.old.pending)
            m.now)) }
        ensures marks { OnOk result (marks_of self.new.marks
            ≡ marks_after (marks_of self.old.marks) m.now) }
    {
        let before = class_then(&self.pending, Some(m));
        let alone = class_between(life, &self.marks, &self.pending, m, None);
        let making_room = class_with_room(life, &self.marks, &self.pending, m, alone);
        self.marks.follow(m)?;
        self.pending = Some(Pending {
            m: *m,
            alone,
            making_room,
        });
        Ok(before)
    }

    /// The last move, with its class, where no move comes after it.
    pub fn last(&self) -> Option<Classed>
        ensures { result ≡ class_then self.now.pending None }
    {
        class_then(&self.pending, None)
    }
}
