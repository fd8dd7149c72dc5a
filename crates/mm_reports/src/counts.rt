#![tactic(auto, using(mm_text::proofs::DigitCounts::joined))]

ghost use Rattle.std.specs.Prelude.{◌≡◌, ◌++◌, Bool, List, OnOk, flat_map};
ghost use Rattle.mm_types.specs.{Move};
ghost use Rattle.mm_move_rules.specs.{unstarted};
ghost use Rattle.mm_replay.specs.Standing.{life as life_of};
ghost use Rattle.mm_move_classes.specs.{numbers_of};
ghost use Rattle.mm_text.specs.{numbers_in};
ghost use Rattle.mm_reports.specs.Counts.{counts_csv_head, counts_head, counts_head_in, counts_row};
ghost use Rattle.mm_reports.specs.Counts.{counts_row_in, counts_rows, line_rows};
ghost use Rattle.mm_reports.specs.Lines.{ended_line, line_ended_by, said_of_line};
ghost use Rattle.mm_csv.specs.{head_left};
ghost use Rattle.mm_reports.specs.CountsRest.{counts_rest, use_rest};
ghost use Rattle.mm_reports.specs.Uses.{use_rows, use_text};
ghost use Rattle.mm_sentences.specs.{why_not};

use crate::charges::{Charge, charge_ended, charge_ended_by};
use crate::csv_rows::put_counts_fields;
use crate::styles::Style;
use crate::tables::put_use;
use mm_log_walk::{Lines, Teller};
use mm_move_classes::counts_in;
use mm_replay::Life;
use mm_sentences::{put_why, put_words};
use mm_text::{put_numbers, put_right_number};
use mm_types::{Counts, Move, NoMemory};
use std::alloc::Global;

fn put_head(text: &mut Vec<u8>) -> Result<(), NoMemory>
    ensures { OnOk result (text.new.items ≡ text.old.items ++ counts_head) }
{
    put_words(b"   line     zeroed       free    standby   modified", text)?;
    put_words(b"     active transition      slots   requests\n", text)
}

fn put_csv_head(text: &mut Vec<u8>) -> Result<(), NoMemory>
    ensures { OnOk result (text.new.items ≡ text.old.items ++ counts_csv_head) }
{
    put_words(
        b"line,zeroed,free,standby,modified,active,transition,",
        text,
    )?;
    put_words(b"slots,requests,sets,charge,limit\n", text)
}

fn put_head_in(style: Style, text: &mut Vec<u8>) -> Result<(), NoMemory>
    ensures { OnOk result (text.new.items ≡ text.old.items ++ counts_head_in style) }
{
    match style {
        Style::Columns => put_head(text),
        Style::Csv => put_csv_head(text),
    }
}

/// Writes the head, unless it stands.
fn put_head_left(style: Style, begun: bool, text: &mut Vec<u8>) -> Result<(), NoMemory>
    ensures { OnOk result (text.new.items
        ≡ text.old.items ++ head_left begun (counts_head_in style)) }
{
    if begun {
        Ok(())
    } else {
        put_head_in(style, text)
    }
}

/// Writes the eight counts.
fn put_counts(counts: Counts, text: &mut Vec<u8>) -> Result<(), NoMemory>
    ensures { OnOk result (text.new.items ≡ text.old.items ++ numbers_in 11 (numbers_of counts)) }
{
    put_numbers(11, &counts_in(counts), text)
}

/// Writes a line's number, and the counts at its end.
fn put_counts_row(life: &Life, text: &mut Vec<u8>) -> Result<(), NoMemory>
    ensures { OnOk result (text.new.items ≡ text.old.items ++ counts_row (life_of life.now)) }
{
    put_right_number(7, u64::from(life.line()), text)?;
    put_counts(life.counts(), text)?;
    put_words(b"\n", text)
}

/// Writes the row of the line that ends here. What was in the room is lost.
fn put_row(
    style: Style,
    charge: Option<Charge>,
    life: &Life,
    room: &mut Vec<u8>,
    text: &mut Vec<u8>,
) -> Result<(), NoMemory>
    ensures { OnOk result (text.new.items
        ≡ text.old.items ++ counts_row_in style charge (life_of life.now)) }
{
    match style {
        Style::Columns => put_counts_row(life, text),
        Style::Csv => put_counts_fields(charge, life, room, text),
    }
}

/// Writes the row of the line that ends here, if any has begun.
fn put_ended(
    style: Style,
    charge: Option<Charge>,
    life: &Life,
    room: &mut Vec<u8>,
    text: &mut Vec<u8>,
) -> Result<(), NoMemory>
    ensures { OnOk result (text.new.items ≡ text.old.items
        ++ flat_map (counts_row_in style charge) (ended_line (life_of life.now))) }
{
    if life.line() == 0 {
        return Ok(());
    }
    put_row(style, charge, life, room, text)
}

/// Writes the row of the line that ends as this move comes, if any does.
fn put_ended_by(
    style: Style,
    charge: Option<Charge>,
    life: &Life,
    m: &Move,
    room: &mut Vec<u8>,
    text: &mut Vec<u8>,
) -> Result<(), NoMemory>
    ensures { OnOk result (text.new.items ≡ text.old.items
        ++ flat_map (counts_row_in style charge) (line_ended_by (life_of life.now) m.now)) }
{
    match *m {
        Move::At(_, _) => put_ended(style, charge, life, room, text),
        _ => Ok(()),
    }
}

/// Tells the counts after each line.
#[derive(Drop)]
pub struct CountsTeller<'a> {
    style: Style,
    script: &'a Option<Lines>,
    answers: &'a Option<Lines>,
    /// Whether the head stands.
    begun: bool,
    /// The charge that was told last.
    charge: Option<Charge>,
    /// Room for a field, which is not made anew for each line.
    room: Vec<u8>,
}

impl<'a> CountsTeller<'a> {
    /// A teller at the beginning of a log. `script` and `answers` are those of the log's run, if they
    /// are named; the charge that they tell stands in rows of csv.
    pub fn new(
        alloc: Global,
        style: Style,
        script: &'a Option<Lines>,
        answers: &'a Option<Lines>,
    ) -> CountsTeller<'a>
        ensures { (whole : Bool) (moves : List Move) → counts_rest result whole unstarted moves
            ≡ counts_rows style script.now answers.now whole moves }
    {
        CountsTeller {
            style,
            script,
            answers,
            begun: false,
            charge: None,
            room: Vec::new(alloc),
        }
    }

    /// Writes the row of the last line of a whole log.
    fn put_last(&mut self, life: &Life, text: &mut Vec<u8>) -> Result<(), NoMemory>
        ensures { OnOk result (text.new.items ≡ text.old.items
            ++ line_rows self.old.style self.old.script.now self.old.answers.now self.old.charge
            (ended_line (life_of life.now))) }
    {
        let charge = charge_ended(self.script, self.answers, self.charge, life);
        put_ended(self.style, charge, life, &mut self.room, text)
    }
}

impl<'a> Teller for CountsTeller<'a> {
    ghost rest = { counts_rest };

    ghost counted = { λ t. 0 };

    ghost why = { why_not };

    fn take(&mut self, life: &Life, m: &Move, text: &mut Vec<u8>) -> Result<(), NoMemory> {
        put_head_left(self.style, self.begun, text)?;
        self.begun = true;
        self.charge = charge_ended_by(self.script, self.answers, self.charge, life, m);
        put_ended_by(self.style, self.charge, life, m, &mut self.room, text)?;
        Ok(())
    }

    fn finish(&mut self, whole: bool, life: &Life, text: &mut Vec<u8>) -> Result<(), NoMemory> {
        put_head_left(self.style, self.begun, text)?;
        if whole {
            self.put_last(life, text)
        } else {
            Ok(())
        }
    }

    fn tell_why(&self, life: &Life, m: &Move, text: &mut Vec<u8>) -> Result<(), NoMemory> {
        put_why(life, m, text)
    }
}

/// Writes the use of frames, if the line that ends here is this one.
fn put_said(alloc: Global, line: u32, life: &Life, text: &mut Vec<u8>) -> Result<(), NoMemory>
    ensures { OnOk result (text.new.items
        ≡ text.old.items ++ said_of_line line use_text (ended_line (life_of life.now))) }
{
    if life.line() == 0 || life.line() != line {
        return Ok(());
    }
    put_use(alloc, life, text)
}

/// Writes the use of frames, if the line that ends as this move comes is this one.
fn put_said_by(
    alloc: Global,
    line: u32,
    life: &Life,
    m: &Move,
    text: &mut Vec<u8>,
) -> Result<(), NoMemory>
    ensures { OnOk result (text.new.items
        ≡ text.old.items ++ said_of_line line use_text (line_ended_by (life_of life.now) m.now)) }
{
    match *m {
        Move::At(_, _) => put_said(alloc, line, life, text),
        _ => Ok(()),
    }
}

/// Tells what the page frames are used for after one line.
#[derive(Drop)]
pub struct UseTeller {
    alloc: Global,
    line: u32,
}

impl UseTeller {
    /// A teller of what each page frame is used for after this line of the script.
    pub fn new(alloc: Global, line: u32) -> UseTeller
        ensures { (whole : Bool) (moves : List Move)
            → use_rest result whole unstarted moves ≡ use_rows line whole moves }
    {
        UseTeller { alloc, line }
    }
}

impl Teller for UseTeller {
    ghost rest = { use_rest };

    ghost counted = { λ t. 0 };

    ghost why = { why_not };

    fn take(&mut self, life: &Life, m: &Move, text: &mut Vec<u8>) -> Result<(), NoMemory> {
        put_said_by(self.alloc, self.line, life, m, text)?;
        Ok(())
    }

    fn finish(&mut self, whole: bool, life: &Life, text: &mut Vec<u8>) -> Result<(), NoMemory> {
        if whole {
            put_said(self.alloc, self.line, life, text)
        } else {
            Ok(())
        }
    }

    fn tell_why(&self, life: &Life, m: &Move, text: &mut Vec<u8>) -> Result<(), NoMemory> {
        put_why(life, m, text)
    }
}
