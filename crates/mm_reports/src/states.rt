#![tactic(auto, using(mm_text::proofs::DigitCounts::joined))]

ghost use Rattle.std.specs.Prelude.{◌≡◌, ◌||◌, ◌++◌, [], Bool, List, OnOk, flat_map, true};
ghost use Rattle.mm_types.specs.{Move};
ghost use Rattle.mm_move_rules.specs.{unstarted};
ghost use Rattle.mm_replay.specs.Standing.{life as life_of};
ghost use Rattle.mm_reports.specs.Listing.{AreListsOf};
ghost use Rattle.mm_reports.specs.States.{pages_after, valid_page_at, frame_word, list_row, page_word};
ghost use Rattle.mm_reports.specs.States.{process_line, process_lines, slots_line, list_rows};
ghost use Rattle.mm_reports.specs.States.{line_state_text};
ghost use Rattle.mm_reports.specs.States.{state_at, state_ended_by, state_rows};
ghost use Rattle.mm_reports.specs.StateRest.{state_rest};
ghost use Rattle.mm_sentences.specs.{why_not};

use crate::frames::{marked, put_frames};
use crate::lists::{FrameLists, frame_lists, requests};
use mm_log_walk::Teller;
use mm_move_rules::ResidentSet;
use mm_replay::Life;
use mm_sentences::{put_counted, put_numbered, put_pair, put_why, put_words};
use mm_types::{LineKind, Move, NoMemory, Place};
use std::alloc::Global;
use std::collections::BTreeSet;

/// The valid pages, by process and number.
type ValidPages = BTreeSet<(u8, u32)>;

fn valid_page_at(place: Place) -> (u8, u32)
    ensures { result ≡ valid_page_at place }
{
    (place.pid.0, place.vpn.0)
}

/// Follows a move: the pages that are valid after it.
fn follow(pages: &mut ValidPages, m: &Move) -> Result<(), NoMemory>
    ensures { OnOk result (pages.new.keys ≡ pages_after pages.old.keys m.now) }
{
    match *m {
        Move::At(_, LineKind::Machine(_, _, _, _)) => {
            pages.clear();
            Ok(())
        }
        Move::Map(_, place) => {
            pages.insert(valid_page_at(place))?;
            Ok(())
        }
        Move::Unmap(place) => {
            let _ = pages.remove(&valid_page_at(place));
            Ok(())
        }
        _ => Ok(()),
    }
}

fn put_frame_word(frame: u32, text: &mut Vec<u8>) -> Result<(), NoMemory>
    ensures { OnOk result (text.new.items ≡ text.old.items ++ frame_word frame) }
{
    put_counted(b" ", u64::from(frame), text)
}

fn put_frame_words(frames: &[u32], text: &mut Vec<u8>) -> Result<(), NoMemory>
    ensures { OnOk result (text.new.items ≡ text.old.items ++ flat_map frame_word frames.now) }
{
    for frame in frames {
        put_frame_word(*frame, text)?;
    }
    Ok(())
}

/// Writes a name, and frames in order.
fn put_list(name: &[u8], frames: &[u32], text: &mut Vec<u8>) -> Result<(), NoMemory>
    ensures { OnOk result (text.new.items ≡ text.old.items ++ list_row name.now frames.now) }
{
    put_words(name, text)?;
    put_frame_words(frames, text)?;
    put_words(b"\n", text)
}

/// Writes the number of a page, if it is of this process.
fn put_page_word(pid: u64, page: (u8, u32), text: &mut Vec<u8>) -> Result<(), NoMemory>
    ensures { OnOk result (text.new.items ≡ text.old.items ++ page_word pid page) }
{
    if u64::from(page.0) != pid {
        return Ok(());
    }
    put_counted(b" ", u64::from(page.1), text)
}

fn put_page_words(pid: u64, pages: &ValidPages, text: &mut Vec<u8>) -> Result<(), NoMemory>
    ensures { OnOk result (text.new.items ≡ text.old.items
        ++ flat_map (page_word pid) pages.now.keys) }
{
    for page in pages {
        put_page_word(pid, *page, text)?;
    }
    Ok(())
}

/// Writes the working set of the process of this number, and its valid pages.
fn put_process(
    pages: &ValidPages,
    pid: u64,
    set: ResidentSet,
    text: &mut Vec<u8>,
) -> Result<(), NoMemory>
    ensures { OnOk result (text.new.items ≡ text.old.items ++ process_line pages.now.keys pid set) }
{
    let min = u64::from(set.min);
    let max = u64::from(set.max);
    put_counted(b"process ", pid, text)?;
    put_pair(b" min ", min, b" max ", max, b" pages", text)?;
    put_page_words(pid, pages, text)?;
    put_words(b"\n", text)
}

fn put_processes(
    pages: &ValidPages,
    sets: &[ResidentSet],
    text: &mut Vec<u8>,
) -> Result<(), NoMemory>
    ensures { OnOk result (text.new.items ≡ text.old.items
        ++ process_lines pages.now.keys 1 sets.now) }
{
    for i in 0..sets.len() {
        put_process(pages, i as u64 + 1, sets[i], text)?;
    }
    Ok(())
}

fn put_slots(life: &Life, text: &mut Vec<u8>) -> Result<(), NoMemory>
    ensures { OnOk result (text.new.items ≡ text.old.items ++ slots_line (life_of life.now)) }
{
    let free = u64::from(life.free_slots());
    let slots = u64::from(life.slots());
    put_pair(b"slots ", free, b" of ", slots, b" free\n", text)
}

/// Writes the four lists and the requests, where these are the lists.
fn put_lists(
    alloc: Global,
    life: &Life,
    lists: &FrameLists,
    text: &mut Vec<u8>,
) -> Result<(), NoMemory>
    requires { AreListsOf (life_of life.now).frames lists.now }
    ensures { OnOk result (text.new.items ≡ text.old.items ++ list_rows (life_of life.now)) }
{
    let flight = requests(alloc, life)?;
    put_list(b"zeroed", lists.zeroed.as_slice(), text)?;
    put_list(b"free", lists.free.as_slice(), text)?;
    put_list(b"standby", lists.standby.as_slice(), text)?;
    put_list(b"modified", lists.modified.as_slice(), text)?;
    put_list(b"requests", flight.as_slice(), text)
}

/// Writes all that stands at the end of a line. Takes time in proportion to the frames, and to the
/// valid pages times the processes.
fn put_state(
    alloc: Global,
    life: &Life,
    pages: &ValidPages,
    text: &mut Vec<u8>,
) -> Result<(), NoMemory>
    ensures { OnOk result (text.new.items ≡ text.old.items
        ++ line_state_text (life_of life.now) pages.now.keys) }
{
    let lists = frame_lists(alloc, life)?;
    let zeroed = marked(alloc, life.frames() as usize, lists.zeroed.as_slice())?;
    put_numbered(b"after line ", u64::from(life.line()), b"\n", text)?;
    put_lists(alloc, life, &lists, text)?;
    put_frames(alloc, life, zeroed.as_slice(), text)?;
    put_processes(pages, life.sets(), text)?;
    put_slots(life, text)?;
    Ok(())
}

/// Writes the state, if the line that ends here is this one.
fn put_at(
    alloc: Global,
    line: u32,
    life: &Life,
    pages: &ValidPages,
    text: &mut Vec<u8>,
) -> Result<(), NoMemory>
    ensures { OnOk result (text.new.items
        ≡ text.old.items ++ state_at line (life_of life.now) pages.now.keys) }
{
    if life.line() == 0 || life.line() != line {
        return Ok(());
    }
    put_state(alloc, life, pages, text)
}

/// Writes the state, if the line that ends as this move comes is this one.
fn put_before(
    alloc: Global,
    line: u32,
    life: &Life,
    pages: &ValidPages,
    m: &Move,
    text: &mut Vec<u8>,
) -> Result<(), NoMemory>
    ensures { OnOk result (text.new.items
        ≡ text.old.items ++ state_ended_by line (life_of life.now) pages.now.keys m.now) }
{
    match *m {
        Move::At(_, _) => put_at(alloc, line, life, pages, text),
        _ => Ok(()),
    }
}

/// Tells all that stands after one line.
#[derive(Drop)]
pub struct StateTeller {
    alloc: Global,
    line: u32,
    pages: ValidPages,
}

impl StateTeller {
    /// A teller of all page frames, lists and requests as they are after this line of the script.
    pub fn new(alloc: Global, line: u32) -> StateTeller
        ensures { (whole : Bool) (moves : List Move)
            → state_rest result whole unstarted moves ≡ state_rows line whole moves }
    {
        StateTeller {
            alloc,
            line,
            pages: BTreeSet::new(alloc),
        }
    }
}

impl Teller for StateTeller {
    ghost rest = { state_rest };

    ghost counted = { λ t. 0 };

    ghost why = { why_not };

    fn take(&mut self, life: &Life, m: &Move, text: &mut Vec<u8>) -> Result<(), NoMemory> {
        put_before(self.alloc, self.line, life, &self.pages, m, text)?;
        follow(&mut self.pages, m)?;
        Ok(())
    }

    fn finish(&mut self, whole: bool, life: &Life, text: &mut Vec<u8>) -> Result<(), NoMemory> {
        if whole {
            put_at(self.alloc, self.line, life, &self.pages, text)
        } else {
            Ok(())
        }
    }

    fn tell_why(&self, life: &Life, m: &Move, text: &mut Vec<u8>) -> Result<(), NoMemory> {
        put_why(life, m, text)
    }
}
