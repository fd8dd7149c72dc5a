ghost use Rattle.std.specs.Prelude.{◌≡◌, ◌≢◌, ◌+◌, ◌<◌, ◌≤◌, ◌^◌, ◌++◌, ◌∷◌, [], ℕ, Bool, false, List};
ghost use Rattle.std.specs.Prelude.{Option, MatchResult, OnOk, Err};
ghost use Rattle.mm_types.specs.{Move, Rose};
ghost use Rattle.mm_move_rules.specs.{unstarted, IsLegal, after_move};
ghost use Rattle.mm_replay.specs.Standing.{life as life_of};
ghost use Rattle.mm_log_check.specs.{Ending, IsReadyToRead};
ghost use Rattle.mm_log_walk.specs.{RestOf, Tells, HaltsTelling, beside, is_broken};

use crate::closings::Closing;
use crate::fitting::{end_closing, misfit};
use crate::lines::Lines;
use crate::pouring::pour;
use crate::tellers::Teller;
use mm_io::{Sink, Source};
use mm_log_check::{Ending, LogReader, MOST_LINES};
use mm_replay::Life;
use mm_types::{Failed, Frame, Move, NoMemory};

/// Tells a move that is legal in this state, and makes it.
fn take<T: Teller>(
    life: &mut Life,
    m: &Move,
    teller: &mut T,
    text: &mut Vec<u8>,
) -> Result<(), NoMemory>
    requires legal { IsLegal m.now (life_of life.old) }
    requires few { T.counted teller.old + 1 < 2 ^ 63 }
    ensures told { OnOk result ((whole : Bool) (ms : List Move) → text.new.items
        ++ T.rest teller.new whole (life_of life.new) ms
        ≡ text.old.items ++ T.rest teller.old whole (life_of life.old) (m.now ∷ ms)) }
    ensures after { OnOk result (life_of life.new ≡ after_move (life_of life.old) m.now) }
    ensures counted { T.counted teller.new ≤ T.counted teller.old + 1 }
{
    teller.take(life, m, text)?;
    life.make(m)
}

/// Reads the next move, tells it, makes it, and writes what is kept where that is much.
fn next<S: Source, T: Teller, O: Sink>(
    life: &mut Life,
    reader: &mut LogReader,
    script: &Option<Lines>,
    answers: &Option<Lines>,
    source: &mut S,
    teller: &mut T,
    text: &mut Vec<u8>,
    out: &mut O,
) -> Result<(), Closing>
    requires ready { IsReadyToRead reader.old }
    requires few { T.counted teller.old + 1 < 2 ^ 63 }
    ensures told { (left took : Option (List ℕ)) (rest : RestOf)
        → Tells left (S.left source.old) took (O.taken out.old) (beside script.now answers.now)
        reader.old rest (T.rest teller.old) (life_of life.old) text.old.items
        → MatchResult result
        (λ u. Tells left (S.left source.new) took (O.taken out.new) (beside script.now answers.now)
        reader.new rest (T.rest teller.new) (life_of life.new) text.new.items)
        (λ c. HaltsTelling (is_broken c) left (S.left source.new) took (O.taken out.new)
        (beside script.now answers.now) rest c (T.rest teller.new) (life_of life.new)
        text.new.items) }
    ensures ready { OnOk result
        (IsReadyToRead reader.new × (reader.new.lines ≡ reader.old.lines + 1)) }
    ensures counted { T.counted teller.new ≤ T.counted teller.old + 1 }
    ensures later { (S.faults source.old ≤ S.faults source.new) ×
        (O.faults out.old ≤ O.faults out.new) }
    ensures read_fault { result ≡ Err (Closing.Ended Ending.ReadFault)
        → Rose (S.faults source.old) (S.faults source.new) }
    ensures out_fault { result ≡ Err Closing.OutFault → Rose (O.faults out.old) (O.faults out.new) }
    ensures source_same { result ≢ Err (Closing.Ended Ending.ReadFault)
        → S.faults source.new ≡ S.faults source.old }
    ensures out_same { result ≢ Err Closing.OutFault → O.faults out.new ≡ O.faults out.old }
{
    let mut m = Move::Clear(Frame(0));
    match reader.take_next(life, source, &mut m) {
        Ok(()) => {}
        Err(e) => return Err(end_closing(answers, life.line(), e)),
    }
    match misfit(script, answers, &m) {
        Some(closing) => return Err(closing),
        None => {}
    }
    match take(life, &m, teller, text) {
        Ok(()) => {}
        Err(NoMemory) => return Err(Closing::Ended(Ending::NoMemory)),
    }
    match pour(text, out) {
        Ok(()) => Ok(()),
        Err(Failed) => Err(Closing::OutFault),
    }
}

/// Tells a log from its first line to its end, or to the first line that is none of a legal move,
/// or that the script or its answers do not fit. What it tells is written to `out` in pieces; `text` is what of
/// it is kept yet.
#[tactic(auto, using(crate::proofs::Tellings::tellings))]
pub(crate) fn tell_log<S: Source, T: Teller, O: Sink>(
    life: &mut Life,
    script: &Option<Lines>,
    answers: &Option<Lines>,
    source: &mut S,
    teller: &mut T,
    text: &mut Vec<u8>,
    out: &mut O,
) -> Closing
    requires life { life_of life.old ≡ unstarted }
    requires counted { T.counted teller.old ≡ 0 }
    requires none { text.old.items ≡ [] }
    ensures halts { HaltsTelling (is_broken result) (S.left source.old) (S.left source.new)
        (O.taken out.old) (O.taken out.new) (beside script.now answers.now)
        (T.rest teller.old) result (T.rest teller.new) (life_of life.new) text.new.items }
    ensures later { (S.faults source.old ≤ S.faults source.new) ×
        (O.faults out.old ≤ O.faults out.new) }
    ensures read_fault { result ≡ Closing.Ended Ending.ReadFault
        → Rose (S.faults source.old) (S.faults source.new) }
    ensures out_fault { result ≡ Closing.OutFault → Rose (O.faults out.old) (O.faults out.new) }
    ensures source_same { result ≢ Closing.Ended Ending.ReadFault
        → S.faults source.new ≡ S.faults source.old }
    ensures out_same { result ≢ Closing.OutFault → O.faults out.new ≡ O.faults out.old }
{
    let mut reader = LogReader::new();
    for n in 0..MOST_LINES {
        match next(
            life,
            &mut reader,
            script,
            answers,
            source,
            teller,
            text,
            out,
        ) {
            Ok(()) => {}
            Err(closing) => return closing,
        }
    }
    Closing::Ended(Ending::TooLong)
}
