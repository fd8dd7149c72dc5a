ghost use Rattle.std.specs.Prelude.{◌≡◌, ◌≢◌, ◌<◌, ◌≤◌, ◌+◌, ◌++◌, ℕ, List, [], length, drop, Some, Err, IfNone, IfOk, OnOk, MatchResult};
ghost use Rattle.mm_types.specs.{spelling};
ghost use Rattle.mm_io.specs.{HasLine};
ghost use Rattle.mm_dispatch.specs.{line_number, loans, world_behind, Scene, scene};
ghost use Rattle.mm_run.specs.{Stage, Running, Moved, InputEndsAt, IsLaterEvent, Input, Output, moment, HoldsLine, HasNotedAll, IsBetween, IsStill};
ghost use Rattle.mm_run.specs.{KeepsWorld, IsUnanswered, AccountsMoves, EndsRun, GoesOnOrEnds, FindsLine, StepsBetween, input_seen, output_seen};
ghost use Rattle.mm_run.specs.{world_seen, moment_seen};

use crate::answers::Kept;
use crate::endings::Ending;
use crate::readings::later_event;
use mm_dispatch::World;
use mm_io::{Found, InputBuffer, Look, Sink, Source};
use mm_store::FlushesMoves;
use mm_types::{Answer, Event, NoMemory};
use std::alloc::Global;

/// The lines that a script may have.
pub(crate) const LINES: u32 = 1_000_000;

/// Keeps an answer, and goes past its line.
pub(crate) fn tell(held: &mut InputBuffer, len: usize, answer: &Answer, kept: &mut Kept)
    requires line { HasLine held.old len }
    requires room { length kept.old + 256 ≤ 65536 }
    ensures held { held.new ≡ drop (len + 1) held.old }
    ensures kept { kept.new ≡ kept.old ++ spelling answer.now }
{
    held.skip(len + 1);
    kept.keep(answer);
}

/// Decides a line of a world over a store that pages, which is not the first, and writes its answer
/// where it is wanted: it is told whole, and all its moves are written.
pub(crate) fn decide<G: FlushesMoves>(
    alloc: Global,
    n: u32,
    event: &Event,
    world: &mut World<G>,
    answer: &mut Answer,
) -> Result<(), Ending>
    requires later { IsLaterEvent event.now }
    requires next { n ≡ line_number world.old + 1 }
    requires few { n ≤ 1000000 }
    requires ready { HasNotedAll (line_number world.old) (world_seen world.old) }
    ensures came { MatchResult result
        (λ _. Moved (Running (scene world.old)) event.now answer.new (Running (scene world.new)))
        (λ e. IsUnanswered (scene world.old) event.now e (scene world.new)) }
    ensures faults { AccountsMoves result ⊥
        (world_behind world.old).log.faults (world_behind world.new).log.faults }
    ensures ready { OnOk result (HasNotedAll n (world_seen world.new)) }
    ensures unread { result ≢ Err Ending.ReadFault }
    ensures loans { loans world.new ≡ loans world.old }
{
    let decided = world.step(alloc, n, event, answer);
    world.pages.sound();
    match decided {
        Ok(()) => {}
        Err(NoMemory) => return Err(Ending::NoMemory),
    }
    if world.pages.moves_failed() {
        return Err(Ending::MovesFault);
    }
    Ok(())
}

/// Decides and answers the line in front, which is not the first. Its event is large, and stays
/// in the one place that is kept for events.
fn answer_line<G: FlushesMoves>(
    alloc: Global,
    held: &mut InputBuffer,
    len: usize,
    n: u32,
    event: &mut Event,
    world: &mut World<G>,
    kept: &mut Kept,
) -> Option<Ending>
    requires some { 0 < n }
    requires few { n < 1000000 }
    requires line { HoldsLine held.old len }
    requires room { length kept.old + 256 ≤ 65536 }
    requires ready { HasNotedAll n (world_seen world.old) }
    ensures steps { (input : Input) (out : Output) → GoesOnOrEnds result held.old n held.new (n + 1)
        (moment input out kept.old (Running (scene world.old)))
        (moment input out kept.new (Running (scene world.new))) }
    ensures between { IfNone result (IsBetween (n + 1) held.new (world_seen world.new)) }
    ensures unread { result ≢ Some Ending.ReadFault }
    ensures loans { loans world.new ≡ loans world.old }
{
    let line = &held.bytes()[..len];
    match later_event(line, event) {
        Ok(()) => {}
        Err(column) => return Some(Ending::Script(n + 1, column)),
    }
    let mut answer = Answer::Ok;
    match decide(alloc, n + 1, event, world, &mut answer) {
        Ok(()) => {
            tell(held, len, &answer, kept);
            None
        }
        Err(ending) => Some(ending),
    }
}

/// What a run comes to at the input's end, after n lines and so many bytes.
fn at_end(n: u32, len: usize) -> Ending
    requires short { len ≤ 256 }
    requires few { n < 1000000 }
    ensures { InputEndsAt n len result }
{
    if len == 0 && n > 0 {
        Ending::Done
    } else {
        Ending::Script(n + 1, len as u32 + 1)
    }
}

/// Reads until it is known what stands in front: a line of so many bytes, or what a run comes to
/// there after n lines.
pub(crate) fn next_line<S: Source>(
    held: &mut InputBuffer,
    n: u32,
    source: &mut S,
) -> Result<usize, Ending>
    requires few { n < 1000000 }
    requires held { length held.old < 4096 }
    ensures finds { (out : Output) (kept : List ℕ) (z : Stage) →
        FindsLine result held.old n held.new
        (moment (input_seen S.Source source.old) out kept z)
        (moment (input_seen S.Source source.new) out kept z) }
    ensures line { IfOk result (λ len. HoldsLine held.new len) }
{
    match held.next(source) {
        Ok(Found::Line(len)) => Ok(len),
        Ok(Found::Long) => Err(Ending::TooLong(n + 1)),
        Ok(Found::End) => Err(at_end(n, held.bytes().len())),
        Err(_) => Err(Ending::ReadFault),
    }
}

/// Gives on the moves that were noted, and then the answers that are kept.
fn flush<G: FlushesMoves, O: Sink>(
    world: &mut World<G>,
    kept: &mut Kept,
    out: &mut O,
) -> Option<Ending>
    ensures steps { StepsBetween result (output_seen O.Sink out.old) (output_seen O.Sink out.new)
        kept.old kept.new (Running (scene world.old)) (Running (scene world.new)) }
    ensures still { IfNone result (IsStill kept.new (O.given out.new) (O.taken out.new)
        (world_behind world.new).log.given (world_behind world.new).log.bytes) }
    ensures unread { result ≢ Some Ending.ReadFault }
    ensures keeps { KeepsWorld (world_seen world.old) (world_seen world.new) }
{
    match world.flush_moves() {
        Ok(()) => {}
        Err(_) => return Some(Ending::MovesFault),
    }
    match kept.give_on(out) {
        Ok(()) => None,
        Err(_) => Some(Ending::OutFault),
    }
}

/// Gives on moves and answers where there is no room for one answer more.
fn make_room<G: FlushesMoves, O: Sink>(
    world: &mut World<G>,
    kept: &mut Kept,
    out: &mut O,
) -> Option<Ending>
    ensures steps { StepsBetween result (output_seen O.Sink out.old) (output_seen O.Sink out.new)
        kept.old kept.new (Running (scene world.old)) (Running (scene world.new)) }
    ensures room { IfNone result (length kept.new + 256 ≤ 65536) }
    ensures unread { result ≢ Some Ending.ReadFault }
    ensures keeps { KeepsWorld (world_seen world.old) (world_seen world.new) }
{
    if kept.has_room() {
        return None;
    }
    flush(world, kept, out)
}

/// Finds the line in front, by one search where it is held whole, as most are. Else it reads, with
/// no move or answer held back.
fn find_line<G: FlushesMoves, S: Source, O: Sink>(
    held: &mut InputBuffer,
    n: u32,
    world: &mut World<G>,
    kept: &mut Kept,
    source: &mut S,
    out: &mut O,
) -> Result<usize, Ending>
    requires few { n < 1000000 }
    requires held { length held.old < 4096 }
    requires room { length kept.old + 256 ≤ 65536 }
    ensures finds { FindsLine result held.old n held.new
        (moment_seen S.Source O.Sink source.old out.old kept.old world.old)
        (moment_seen S.Source O.Sink source.new out.new kept.new world.new) }
    ensures line { IfOk result (λ len. HoldsLine held.new len) }
    ensures room { OnOk result (length kept.new + 256 ≤ 65536) }
    ensures still { result ≡ Err Ending.ReadFault → IsStill kept.new (O.given out.new) (O.taken out.new)
        (world_behind world.new).log.given (world_behind world.new).log.bytes }
    ensures keeps { KeepsWorld (world_seen world.old) (world_seen world.new) }
{
    match held.look() {
        Look::Line(len) => Ok(len),
        Look::Long => Err(Ending::TooLong(n + 1)),
        Look::Open => match flush(world, kept, out) {
            Some(ending) => Err(ending),
            None => next_line(held, n, source),
        },
    }
}

/// Reads, decides and answers one line, which is not the first.
fn decide_line<G: FlushesMoves, S: Source, O: Sink>(
    alloc: Global,
    held: &mut InputBuffer,
    n: u32,
    event: &mut Event,
    world: &mut World<G>,
    kept: &mut Kept,
    source: &mut S,
    out: &mut O,
) -> Option<Ending>
    requires some { 0 < n }
    requires few { n < 1000000 }
    requires between { IsBetween n held.old (world_seen world.old) }
    ensures steps { GoesOnOrEnds result held.old n held.new (n + 1)
        (moment_seen S.Source O.Sink source.old out.old kept.old world.old)
        (moment_seen S.Source O.Sink source.new out.new kept.new world.new) }
    ensures still { result ≡ Some Ending.ReadFault → IsStill kept.new (O.given out.new) (O.taken out.new)
        (world_behind world.new).log.given (world_behind world.new).log.bytes }
    ensures between { IfNone result (IsBetween (n + 1) held.new (world_seen world.new)) }
    ensures loans { loans world.new ≡ loans world.old }
{
    match make_room(world, kept, out) {
        Some(ending) => return Some(ending),
        None => {}
    }
    match find_line(held, n, world, kept, source, out) {
        Ok(len) => answer_line(alloc, held, len, n, event, world, kept),
        Err(ending) => Some(ending),
    }
}

/// What a run comes to after the last line that it may have.
fn behind_last<S: Source>(held: &mut InputBuffer, source: &mut S) -> Ending
    requires given { length held.old < 4096 }
    ensures ends { (out : Output) (kept : List ℕ) (z : Scene) → EndsRun held.old LINES
        (moment (input_seen S.Source source.old) out kept (Running z))
        (moment (input_seen S.Source source.new) out kept (Running z)) result }
{
    match held.has_more(source) {
        Ok(true) => Ending::TooLong(LINES + 1),
        Ok(false) => Ending::Done,
        Err(_) => Ending::ReadFault,
    }
}

/// Decides the lines of a source after the first one, and gives on or keeps their answers.
pub(crate) fn decide_rest<G: FlushesMoves, S: Source, O: Sink>(
    alloc: Global,
    held: &mut InputBuffer,
    world: &mut World<G>,
    kept: &mut Kept,
    source: &mut S,
    out: &mut O,
) -> Ending
    requires between { IsBetween 1 held.old (world_seen world.old) }
    ensures ends { EndsRun held.old 1
        (moment_seen S.Source O.Sink source.old out.old kept.old world.old)
        (moment_seen S.Source O.Sink source.new out.new kept.new world.new) result }
    ensures still { result ≡ Ending.ReadFault → IsStill kept.new (O.given out.new) (O.taken out.new)
        (world_behind world.new).log.given (world_behind world.new).log.bytes }
    ensures loans { loans world.new ≡ loans world.old }
{
    let mut event = Event::Charge;
    for n in 1..LINES {
        match decide_line(alloc, held, n, &mut event, world, kept, source, out) {
            Some(ending) => return ending,
            None => {}
        }
    }
    match flush(world, kept, out) {
        Some(ending) => ending,
        None => behind_last(held, source),
    }
}
