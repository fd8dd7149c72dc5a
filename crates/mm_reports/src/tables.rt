#![tactic(auto, using(mm_text::proofs::DigitCounts::joined))]

ghost use Rattle.std.specs.Prelude.{◌≡◌, ◌<◌, ◌^◌, ◌++◌, OnOk, sum, flat_map, codes};
ghost use Rattle.mm_replay.specs.Standing.{life as life_of};
ghost use Rattle.mm_reports.specs.{AreListsOf, use_name, sum_row, use_row, use_head, use_table, totals, slots_row, requests_row, working_set_row, set_rows};
ghost use Rattle.mm_reports.specs.{use_text};

use crate::lists::{FrameLists, frame_lists};
use crate::uses::{Use, cells};
use mm_move_rules::ResidentSet;
use mm_replay::Life;
use mm_sentences::{put_counted, put_numbered, put_pair, put_words};
use mm_text::{put_numbers, put_right_number};
use mm_types::{Counts, NoMemory};
use std::alloc::Global;

/// The uses, in the order in which they are told.
const USES: [Use; 5] = [
    Use::ProcessPrivate,
    Use::PageFileSection,
    Use::MappedFile,
    Use::Deleted,
    Use::Unused,
];

fn use_name(usage: Use) -> &'static [u8]
    ensures { result.now ≡ use_name usage }
{
    match usage {
        Use::ProcessPrivate => b"Process private         ",
        Use::PageFileSection => b"Page-file section       ",
        Use::MappedFile => b"Mapped file             ",
        Use::Deleted => b"Deleted, I/O in flight  ",
        Use::Unused => b"Unused                  ",
    }
}

fn sum_of(numbers: &[u64]) -> u64
    requires { sum numbers.now < 2 ^ 64 }
    ensures { result ≡ sum numbers.now }
{
    let mut total = 0;
    for n in numbers {
        total += *n;
    }
    total
}

/// Writes a name, numbers and their sum.
fn put_sum_row(name: &[u8], numbers: &[u64], text: &mut Vec<u8>) -> Result<(), NoMemory>
    requires { sum numbers.now < 2 ^ 64 }
    ensures { OnOk result (text.new.items ≡ text.old.items ++ sum_row name.now numbers.now) }
{
    put_words(name, text)?;
    put_numbers(12, numbers, text)?;
    put_right_number(12, sum_of(numbers), text)?;
    put_words(b"\n", text)
}

/// Writes how the frames of one use stand.
fn put_use_row(
    life: &Life,
    lists: &FrameLists,
    usage: Use,
    text: &mut Vec<u8>,
) -> Result<(), NoMemory>
    requires { AreListsOf (life_of life.now).frames lists.now }
    ensures { OnOk result (text.new.items ≡ text.old.items ++ use_row (life_of life.now) usage) }
{
    let numbers = cells(life, lists, usage);
    put_sum_row(use_name(usage), &numbers, text)
}

fn put_use_rows(
    life: &Life,
    lists: &FrameLists,
    uses: &[Use],
    text: &mut Vec<u8>,
) -> Result<(), NoMemory>
    requires { AreListsOf (life_of life.now).frames lists.now }
    ensures { OnOk result (text.new.items ≡ text.old.items
        ++ flat_map (use_row (life_of life.now)) uses.now) }
{
    for usage in uses {
        put_use_row(life, lists, *usage, text)?;
    }
    Ok(())
}

/// Writes how all frames stand.
fn put_totals(counts: Counts, text: &mut Vec<u8>) -> Result<(), NoMemory>
    ensures { OnOk result (text.new.items ≡ text.old.items
        ++ sum_row (codes "Total                   ") (totals counts)) }
{
    let numbers = [
        u64::from(counts.active),
        u64::from(counts.standby),
        u64::from(counts.modified),
        u64::from(counts.transition),
        u64::from(counts.zeroed),
        u64::from(counts.free),
    ];
    put_sum_row(b"Total                   ", &numbers, text)
}

fn put_head(text: &mut Vec<u8>) -> Result<(), NoMemory>
    ensures { OnOk result (text.new.items ≡ text.old.items ++ use_head) }
{
    put_words(
        b"                              Active     Standby    Modified",
        text,
    )?;
    put_words(b"  Transition      Zeroed        Free       Total\n", text)
}

/// Writes the table.
fn put_table(life: &Life, lists: &FrameLists, text: &mut Vec<u8>) -> Result<(), NoMemory>
    requires { AreListsOf (life_of life.now).frames lists.now }
    ensures { OnOk result (text.new.items ≡ text.old.items ++ use_table (life_of life.now)) }
{
    put_head(text)?;
    put_use_rows(life, lists, &USES, text)?;
    put_totals(life.counts(), text)?;
    Ok(())
}

fn put_slots(life: &Life, text: &mut Vec<u8>) -> Result<(), NoMemory>
    ensures { OnOk result (text.new.items ≡ text.old.items ++ slots_row (life_of life.now)) }
{
    let free = u64::from(life.free_slots());
    let slots = u64::from(life.slots());
    put_pair(
        b"paging-file slots free ",
        free,
        b" of ",
        slots,
        b"\n",
        text,
    )
}

fn put_requests(life: &Life, text: &mut Vec<u8>) -> Result<(), NoMemory>
    ensures { OnOk result (text.new.items ≡ text.old.items ++ requests_row (life_of life.now)) }
{
    let requests = u64::from(life.requests());
    let depth = u64::from(life.depth());
    put_pair(
        b"requests in flight ",
        requests,
        b", depth ",
        depth,
        b"\n",
        text,
    )?;
    Ok(())
}

/// Writes the working set of the process of this number.
fn put_set(pid: u64, set: ResidentSet, text: &mut Vec<u8>) -> Result<(), NoMemory>
    ensures { OnOk result (text.new.items ≡ text.old.items ++ working_set_row pid set) }
{
    let resident = u64::from(set.resident);
    let min = u64::from(set.min);
    let max = u64::from(set.max);
    put_counted(b"working set of process ", pid, text)?;
    put_counted(b": ", resident, text)?;
    put_pair(b" (min ", min, b", max ", max, b")\n", text)?;
    Ok(())
}

/// Writes the working sets of the processes.
fn put_sets(sets: &[ResidentSet], text: &mut Vec<u8>) -> Result<(), NoMemory>
    ensures { OnOk result (text.new.items ≡ text.old.items ++ set_rows 1 sets.now) }
{
    for i in 0..sets.len() {
        put_set(i as u64 + 1, sets[i], text)?;
    }
    Ok(())
}

/// Writes what the frames are used for, and what else is told of a line.
pub(crate) fn put_use(alloc: Global, life: &Life, text: &mut Vec<u8>) -> Result<(), NoMemory>
    ensures { OnOk result (text.new.items ≡ text.old.items ++ use_text (life_of life.now)) }
{
    let lists = frame_lists(alloc, life)?;
    put_numbered(
        b"use of page frames after line ",
        u64::from(life.line()),
        b"\n",
        text,
    )?;
    put_table(life, &lists, text)?;
    put_slots(life, text)?;
    put_requests(life, text)?;
    put_sets(life.sets(), text)?;
    Ok(())
}
