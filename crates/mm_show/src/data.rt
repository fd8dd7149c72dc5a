ghost use Rattle.std.specs.Prelude.{◌≡◌, ◌++◌, [], ◌∷◌, List, OnOk, true, if◌then◌else◌};
ghost use Rattle.mm_types.specs.{Move};
ghost use Rattle.mm_move_rules.specs.{unstarted, counts_of};
ghost use Rattle.mm_replay.specs.Standing.{life as life_of};
ghost use Rattle.mm_move_classes.specs.{log_data, is_marked, mark_before, last_mark, mark_data};
ghost use Rattle.mm_show.specs.Data.{classed_data};
ghost use Rattle.mm_show.specs.PageRest.{page_rest};
ghost use Rattle.mm_log_walk.specs.{no_why};

use mm_log_walk::{Classed, Classifier, Teller};
use mm_move_classes::{put_mark, put_move};
use mm_replay::Life;
use mm_text::LineBuf;
use mm_types::{Move, NoMemory};
use std::alloc::Global;

/// Writes a move with its class, as the page's data has it. What was in the room for a line is
/// lost.
#[tactic(auto, using(mm_text::proofs::DigitCounts::joined))]
fn put_classed(
    classed: Option<Classed>,
    line: &mut LineBuf,
    text: &mut Vec<u8>,
) -> Result<(), NoMemory>
    ensures { OnOk result (text.new.items ≡ text.old.items ++ classed_data classed) }
{
    match classed {
        Some(c) => {
            line.clear();
            put_move(line, c.class, &c.m);
            text.extend_from_slice(line.as_slice())?;
            Ok(())
        }
        None => Ok(()),
    }
}

/// Writes the counts of a state, as the page's data has them.
#[tactic(auto, using(mm_text::proofs::DigitCounts::joined))]
fn put_counts(life: &Life, text: &mut Vec<u8>) -> Result<(), NoMemory>
    ensures { OnOk result (text.new.items ≡ text.old.items
        ++ mark_data (counts_of (life_of life.now))) }
{
    let mut line = LineBuf::new();
    put_mark(&mut line, life.counts());
    text.extend_from_slice(line.as_slice())?;
    Ok(())
}

fn is_marked(line: u32) -> bool
    ensures { result ≡ is_marked line }
{
    line >= 1 && line % 64 == 0
}

/// Writes the mark, if any, of the line that ends.
fn put_line_mark(life: &Life, text: &mut Vec<u8>) -> Result<(), NoMemory>
    ensures { OnOk result (text.new.items ≡ text.old.items
        ++ (if is_marked (life_of life.now).line then mark_data (counts_of (life_of life.now)) else
        [])) }
{
    if is_marked(life.line()) {
        put_counts(life, text)
    } else {
        Ok(())
    }
}

/// Writes the mark, if any, that stands before a move.
fn put_mark_before(life: &Life, m: &Move, text: &mut Vec<u8>) -> Result<(), NoMemory>
    ensures { OnOk result (text.new.items ≡ text.old.items
        ++ mark_before (life_of life.now) m.now) }
{
    match *m {
        Move::At(_, _) => put_line_mark(life, text),
        _ => Ok(()),
    }
}

/// Writes the mark after the last line, if there is one, and the end of the data.
#[tactic(auto, using(mm_text::proofs::DigitCounts::joined))]
fn put_end(life: &Life, text: &mut Vec<u8>) -> Result<(), NoMemory>
    ensures { OnOk result (text.new.items ≡ text.old.items ++ (last_mark (life_of life.now) ++ 10
        ∷ [])) }
{
    if life.line() >= 1 {
        put_counts(life, text)?;
    }
    text.push(b'\n')?;
    Ok(())
}

/// Makes a page of a log: what stands in front of its data, the data, and what stands behind them.
#[derive(Drop)]
pub(crate) struct PageTeller {
    classifier: Classifier,
    /// Room for a line, which is not made anew for each move.
    line: LineBuf,
    front: Vec<u8>,
    written: Vec<u8>,
    behind: Vec<u8>,
}

impl PageTeller {
    /// Nothing was told.
    pub(crate) fn new(alloc: Global, front: Vec<u8>, behind: Vec<u8>) -> PageTeller
        ensures { (moves : List Move) → page_rest result true unstarted moves ≡ front.items
            ++ (log_data moves ++ behind.items) }
    {
        PageTeller {
            classifier: Classifier::new(alloc),
            line: LineBuf::new(),
            front,
            written: Vec::new(alloc),
            behind,
        }
    }

    /// Writes the page.
    fn put_page(&mut self, life: &Life, text: &mut Vec<u8>) -> Result<(), NoMemory>
        ensures { OnOk result (text.new.items ≡ text.old.items
            ++ page_rest self.old true (life_of life.now) []) }
    {
        put_classed(self.classifier.last(), &mut self.line, &mut self.written)?;
        put_end(life, &mut self.written)?;
        text.extend_from_slice(self.front.as_slice())?;
        text.extend_from_slice(self.written.as_slice())?;
        text.extend_from_slice(self.behind.as_slice())?;
        Ok(())
    }
}

impl Teller for PageTeller {
    ghost rest = { page_rest };

    ghost why = { no_why };

    ghost counted = { λ t. 0 };

    fn take(&mut self, life: &Life, m: &Move, _text: &mut Vec<u8>) -> Result<(), NoMemory> {
        let before = self.classifier.next(life, m)?;
        put_classed(before, &mut self.line, &mut self.written)?;
        put_mark_before(life, m, &mut self.written)?;
        Ok(())
    }

    fn finish(&mut self, whole: bool, life: &Life, text: &mut Vec<u8>) -> Result<(), NoMemory> {
        if whole {
            self.put_page(life, text)
        } else {
            Ok(())
        }
    }

    fn tell_why(&self, _life: &Life, _m: &Move, _text: &mut Vec<u8>) -> Result<(), NoMemory> {
        Ok(())
    }
}
