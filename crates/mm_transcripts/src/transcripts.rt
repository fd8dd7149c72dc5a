ghost use Rattle.std.specs.Prelude.{◌≡◌, ◌++◌, Bool, List, OnOk, Some, option_map};
ghost use Rattle.mm_types.specs.{Move};
ghost use Rattle.mm_move_rules.specs.{unstarted};
ghost use Rattle.mm_replay.specs.Standing.{life as life_of};
ghost use Rattle.mm_log_walk.specs.{line_numbered};
ghost use Rattle.mm_transcripts.specs.Shown.{ages_shown};
ghost use Rattle.mm_transcripts.specs.Rows.{folded_row, move_row_text, row_unless_folded};
ghost use Rattle.mm_transcripts.specs.Transcripts.{has_ages, ages_then, reason_then};
ghost use Rattle.mm_transcripts.specs.Transcripts.{transcript};
ghost use Rattle.mm_transcripts.specs.Writers.{writes_left};
ghost use Rattle.mm_transcripts.specs.Waiting.{classed_row, first_behind, transcript_rest};
ghost use Rattle.mm_sentences.specs.{why_not};

use crate::ages::Ages;
use crate::ends::put_ending;
use crate::folds::{folds_with_next, keep_first, put_fold_row};
use crate::reasons::Reason;
use crate::rows::{put_class_row, put_line_row};
use crate::writers::{put_unwritten_before, put_unwritten_end, writes_asked};
use mm_log_walk::{Classed, Classifier, Lines, Teller};
use mm_replay::Life;
use mm_sentences::{Facts, facts_of, no_facts, put_why};
use mm_types::{LineKind, Move, NoMemory};
use std::alloc::Global;

/// A line of a script or of its answers, if that is named and has it; lines count from 1.
fn line_of(lines: &Option<Lines>, number: u32) -> Option<&[u8]>
    ensures { option_map (λ s. s.now) result ≡ line_numbered lines.now number }
{
    match lines {
        Some(lines) => lines.get(number.saturating_sub(1) as usize),
        None => None,
    }
}

/// Whether ages are known: where the script and its answers are named.
fn has_ages(script: &Option<Lines>, answers: &Option<Lines>) -> bool
    ensures { result ≡ has_ages (record { script = script.now; answers = answers.now }) }
{
    script.is_some() && answers.is_some()
}

/// Takes a line or a move into the ages, where they are known.
pub fn follow_ages(
    script: &Option<Lines>,
    answers: &Option<Lines>,
    m: &Move,
    ages: &mut Ages,
) -> Result<(), NoMemory>
    ensures { OnOk result (ages_shown ages.new
        ≡ ages_then (record { script = script.now; answers = answers.now }) m.now
        (ages_shown ages.old)) }
{
    if !has_ages(script, answers) {
        return Ok(());
    }
    match *m {
        Move::At(number, _) => ages.line(line_of(script, number), line_of(answers, number)),
        _ => ages.moved(m),
    }
}

/// Why a page leaves its working set, where ages are known.
pub fn reason_then(
    script: &Option<Lines>,
    answers: &Option<Lines>,
    ages: &Ages,
    life: &Life,
    m: &Move,
) -> Option<Reason>
    ensures { result ≡ reason_then (record { script = script.now; answers = answers.now })
        (ages_shown ages.now) (life_of life.now) m.now }
{
    if has_ages(script, answers) {
        ages.reason(life, m)
    } else {
        None
    }
}

/// Writes the row of a move.
fn put_row(
    script: &Option<Lines>,
    answers: &Option<Lines>,
    told: &Classed,
    facts: &Facts,
    reason: &Option<Reason>,
    after: &Life,
    text: &mut Vec<u8>,
) -> Result<(), NoMemory>
    ensures { OnOk result (text.new.items ≡ text.old.items
        ++ move_row_text (record { script = script.now; answers = answers.now }) told.now.m
        told.now.class facts.now reason.now (life_of after.now)) }
{
    match told.m {
        Move::At(number, kind) => put_line_row(
            number,
            kind,
            line_of(script, number),
            line_of(answers, number),
            text,
        ),
        _ => put_class_row(script.is_some(), told.class, facts, reason, after, text),
    }
}

/// Writes the row of a move, and with it those of the moves before it from the first on.
fn put_folded(
    script: &Option<Lines>,
    answers: &Option<Lines>,
    first: &Option<Move>,
    told: &Classed,
    facts: &Facts,
    reason: &Option<Reason>,
    after: &Life,
    text: &mut Vec<u8>,
) -> Result<(), NoMemory>
    ensures { OnOk result (text.new.items ≡ text.old.items
        ++ folded_row (record { script = script.now; answers = answers.now }) first.now told.now.m
        told.now.class facts.now reason.now (life_of after.now)) }
{
    match first {
        Some(first) => put_fold_row(first, &told.m, text),
        None => put_row(script, answers, told, facts, reason, after, text),
    }
}

/// Writes the row of a move, but where the next move goes on with it.
#[tactic(auto, using(mm_sentences::proofs::Joined::joined))]
fn put_told(
    script: &Option<Lines>,
    answers: &Option<Lines>,
    first: &Option<Move>,
    next: Option<&Move>,
    told: &Classed,
    facts: &Facts,
    reason: &Option<Reason>,
    after: &Life,
    text: &mut Vec<u8>,
) -> Result<(), NoMemory>
    ensures { OnOk result (text.new.items ≡ text.old.items
        ++ row_unless_folded (record { script = script.now; answers = answers.now }) first.now
        (option_map (λ n. n.now) next.entry) told.now.m told.now.class facts.now reason.now
        (life_of after.now)) }
{
    if folds_with_next(told.class, &told.m, next) {
        return Ok(());
    }
    put_folded(script, answers, first, told, facts, reason, after, text)
}

/// Writes the row of a move, if there is one.
#[tactic(auto, using(mm_sentences::proofs::Joined::joined))]
fn put_classed(
    script: &Option<Lines>,
    answers: &Option<Lines>,
    first: &Option<Move>,
    next: Option<&Move>,
    told: &Option<Classed>,
    facts: &Facts,
    reason: &Option<Reason>,
    after: &Life,
    text: &mut Vec<u8>,
) -> Result<(), NoMemory>
    ensures { OnOk result (text.new.items ≡ text.old.items
        ++ classed_row (record { script = script.now; answers = answers.now }) first.now
        (option_map (λ n. n.now) next.entry) told.now facts.now reason.now (life_of after.now)) }
{
    match told {
        Some(told) => put_told(
            script, answers, first, next, told, facts, reason, after, text,
        ),
        None => Ok(()),
    }
}

/// Keeps the first of the moves whose rows are one with that of the next.
#[inline(always)]
fn keep_first_behind(told: &Option<Classed>, next: &Move, first: &mut Option<Move>)
    ensures { first.new ≡ first_behind told.now (Some next.now) first.old }
{
    match told {
        Some(told) => keep_first(told.class, &told.m, next, first),
        None => *first = None,
    }
}

/// How many write-outs the line may begin yet, after this move.
fn writes_left(script: &Option<Lines>, left: u32, m: &Move) -> u32
    ensures { result ≡ writes_left script.now left m.now }
{
    match *m {
        Move::At(number, LineKind::Writer) => writes_asked(line_of(script, number)),
        Move::At(_, _) => 0,
        Move::Write(_, _) => left.saturating_sub(1),
        _ => left,
    }
}

/// Writes transcripts. The row of a move is written when the next move comes, since its class and
/// what becomes of its frame are known then, and pages that come to be one behind another have one
/// row.
#[derive(Drop)]
pub struct TranscriptTeller<'a> {
    script: &'a Option<Lines>,
    answers: &'a Option<Lines>,
    classifier: Classifier,
    /// The first of the moves whose rows are one with that which is to be written, if it is another.
    first: Option<Move>,
    /// Of the move whose row is to be written.
    facts: Facts,
    reason: Option<Reason>,
    ages: Ages,
    /// How many write-outs the line may begin yet: a `writer`, where a script is named.
    left: u32,
}

impl<'a> TranscriptTeller<'a> {
    /// A teller at the beginning of a log. `script` and `answers` are those of the log's run, if they
    /// are named.
    pub fn new(
        alloc: Global,
        script: &'a Option<Lines>,
        answers: &'a Option<Lines>,
    ) -> TranscriptTeller<'a>
        ensures { (whole : Bool) (moves : List Move) → transcript_rest result whole unstarted moves
            ≡ transcript script.now answers.now whole moves }
    {
        TranscriptTeller {
            script,
            answers,
            classifier: Classifier::new(alloc),
            first: None,
            facts: no_facts(),
            reason: None,
            ages: Ages::new(alloc),
            left: 0,
        }
    }
}

impl<'a> Teller for TranscriptTeller<'a> {
    ghost rest = { transcript_rest };

    ghost counted = { λ t. 0 };

    ghost why = { why_not };

    fn take(&mut self, life: &Life, m: &Move, text: &mut Vec<u8>) -> Result<(), NoMemory> {
        let before = self.classifier.next(life, m)?;
        put_classed(
            self.script,
            self.answers,
            &self.first,
            Some(m),
            &before,
            &self.facts,
            &self.reason,
            life,
            text,
        )?;
        put_unwritten_before(self.left, life, m, text)?;
        self.left = writes_left(self.script, self.left, m);
        keep_first_behind(&before, m, &mut self.first);
        self.facts = facts_of(life, m);
        self.reason = reason_then(self.script, self.answers, &self.ages, life, m);
        follow_ages(self.script, self.answers, m, &mut self.ages)?;
        Ok(())
    }

    fn finish(&mut self, whole: bool, life: &Life, text: &mut Vec<u8>) -> Result<(), NoMemory> {
        put_classed(
            self.script,
            self.answers,
            &self.first,
            None,
            &self.classifier.last(),
            &self.facts,
            &self.reason,
            life,
            text,
        )?;
        put_unwritten_end(whole, self.left, life, text)?;
        put_ending(self.script, self.answers, whole, life.line(), text)?;
        Ok(())
    }

    fn tell_why(&self, life: &Life, m: &Move, text: &mut Vec<u8>) -> Result<(), NoMemory> {
        put_why(life, m, text)
    }
}
