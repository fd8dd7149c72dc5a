#![tactic(auto, using(mm_text::proofs::DigitCounts::joined))]

ghost use Rattle.std.specs.Prelude.{◌≡◌, ◌<◌, ◌≤◌, ◌+◌, ◌*◌, ◌/◌, ◌^◌, ◌++◌, OnOk, flat_map};
ghost use Rattle.std.specs.Prelude.{length};
ghost use Rattle.mm_reports.specs.{tally_of, fault_head, soft_in, share, fault_row, letter, fault_page_text, page_row, process_rows, device_row};
ghost use Rattle.mm_reports.specs.{check_row, tally_text, reads_text, writes_text, hard_text, soft_text, fault_csv_head, fault_row_in};
ghost use Rattle.mm_reports.specs.declared.styles.Style.TheVariants as style;

use crate::counters::Counters;
use crate::csv_rows::put_fault_fields;
use crate::kinds::FaultPlace;
use crate::styles::Style;
use mm_sentences::{put_pair, put_words};
use mm_text::{LineBuf, put_decimal, put_left, put_numbers, put_right_number};
use mm_types::NoMemory;
use std::collections::BTreeMap;

fn put_head(text: &mut Vec<u8>) -> Result<(), NoMemory>
    ensures { OnOk result (text.new.items ≡ text.old.items ++ fault_head) }
{
    put_words(
        b"process   page                hard   standby  modified   writing",
        text,
    )?;
    put_words(
        b"    active  demand-0      copy  collided  hard of hard+soft\n",
        text,
    )
}

/// All that is found in a frame.
fn soft_in(counts: &[u64; 8]) -> u128
    ensures value { result ≡ soft_in counts.now }
    ensures few { result < 2 ^ 66 }
{
    u128::from(counts[1]) + u128::from(counts[2]) + u128::from(counts[3]) + u128::from(counts[4])
}

/// How many of a hundred hard and soft faults are hard.
#[tactic(auto, using(crate::proofs::Shares::shares))]
fn percent(hard: u64, soft: u128) -> u64
    requires some { 0 < hard + soft }
    requires few { soft < 2 ^ 66 }
    ensures { result ≡ 100 * hard / (hard + soft) }
{
    let part = 100 * u128::from(hard) / (u128::from(hard) + soft);
    part as u64
}

/// Writes how many of a hundred hard and soft faults are hard, if there are any.
fn put_share(hard: u64, soft: u128, text: &mut Vec<u8>) -> Result<(), NoMemory>
    requires { soft < 2 ^ 66 }
    ensures { OnOk result (text.new.items ≡ text.old.items ++ share hard soft) }
{
    if u128::from(hard) + soft == 0 {
        return Ok(());
    }
    put_words(b"  ", text)?;
    put_right_number(14, percent(hard, soft), text)?;
    put_words(b" %", text)
}

/// Writes the row of a process and a page, or of all pages, in columns.
fn put_fault_row(
    pid: u8,
    page: &[u8],
    counts: &[u64; 8],
    text: &mut Vec<u8>,
) -> Result<(), NoMemory>
    ensures { OnOk result (text.new.items ≡ text.old.items ++ fault_row pid page.now counts.now) }
{
    let mut process = LineBuf::new();
    put_decimal(&mut process, u64::from(pid));
    put_left(9, process.as_slice(), text)?;
    put_words(b" ", text)?;
    put_left(14, page, text)?;
    put_numbers(10, counts, text)?;
    put_share(counts[0], soft_in(counts), text)?;
    put_words(b"\n", text)
}

/// Writes the row of a process and a page, or of all pages.
fn put_row(
    style: Style,
    pid: u8,
    page: &[u8],
    counts: &[u64; 8],
    text: &mut Vec<u8>,
) -> Result<(), NoMemory>
    ensures { OnOk result (text.new.items
        ≡ text.old.items ++ fault_row_in style pid page.now counts.now) }
{
    match style {
        Style::Columns => put_fault_row(pid, page, counts, text),
        Style::Csv => put_fault_fields(pid, page, counts, text),
    }
}

/// The letter of a key: of a shared page, or of a private one.
fn letter(shared: bool) -> &'static [u8]
    ensures text { result.now ≡ letter shared }
    ensures few { length result.now ≤ 1 }
{
    if shared { b"s" } else { b"p" }
}

/// The key of a page, as logs spell it.
#[tactic(auto, using(mm_text::proofs::Lines::steps))]
fn page_line(place: FaultPlace) -> LineBuf
    ensures { result ≡ fault_page_text place }
{
    let mut line = LineBuf::new();
    line.push_slice(letter(place.1));
    put_decimal(&mut line, u64::from(place.2));
    line.push(b'.');
    put_decimal(&mut line, u64::from(place.3));
    line
}

/// Writes the row of a page, if it is of this process.
fn put_page_row(
    style: Style,
    pid: u8,
    place: FaultPlace,
    counts: &[u64; 8],
    text: &mut Vec<u8>,
) -> Result<(), NoMemory>
    ensures { OnOk result (text.new.items
        ≡ text.old.items ++ page_row style pid (place, counts.now)) }
{
    if place.0 == pid {
        put_row(style, pid, page_line(place).as_slice(), counts, text)
    } else {
        Ok(())
    }
}

/// Writes the rows of the pages of a process.
fn put_page_rows(
    style: Style,
    pages: &BTreeMap<FaultPlace, [u64; 8]>,
    pid: u8,
    text: &mut Vec<u8>,
) -> Result<(), NoMemory>
    ensures { OnOk result (text.new.items
        ≡ text.old.items ++ flat_map (page_row style pid) pages.now.entries) }
{
    for (place, counts) in pages {
        put_page_row(style, pid, *place, counts, text)?;
    }
    Ok(())
}

/// Writes the rows of a process: of all its pages together, and of each.
fn put_process(
    style: Style,
    pages: &BTreeMap<FaultPlace, [u64; 8]>,
    pid: u8,
    counts: &[u64; 8],
    text: &mut Vec<u8>,
) -> Result<(), NoMemory>
    ensures { OnOk result (text.new.items
        ≡ text.old.items ++ process_rows style pages.now.entries (pid, counts.now)) }
{
    put_row(style, pid, b"all", counts, text)?;
    put_page_rows(style, pages, pid, text)
}

/// Writes the rows of all processes.
fn put_processes(
    style: Style,
    pages: &BTreeMap<FaultPlace, [u64; 8]>,
    processes: &BTreeMap<u8, [u64; 8]>,
    text: &mut Vec<u8>,
) -> Result<(), NoMemory>
    ensures { OnOk result (text.new.items
        ≡ text.old.items ++ flat_map (process_rows style pages.now.entries) processes.now.entries) }
{
    for (pid, counts) in processes {
        put_process(style, pages, *pid, counts, text)?;
    }
    Ok(())
}

/// Writes how reads of a device ended.
#[tactic(auto, unfolding(crate::specs::FaultRows::reads_text))]
fn put_reads(read: u64, failed: u64, text: &mut Vec<u8>) -> Result<(), NoMemory>
    ensures { OnOk result (text.new.items ≡ text.old.items ++ reads_text read failed) }
{
    put_pair(b": ", read, b" read, ", failed, b" reads failed, ", text)
}

/// Writes how writes to a device ended.
#[tactic(auto, unfolding(crate::specs::FaultRows::writes_text))]
fn put_writes(written: u64, failed: u64, text: &mut Vec<u8>) -> Result<(), NoMemory>
    ensures { OnOk result (text.new.items ≡ text.old.items ++ writes_text written failed) }
{
    put_pair(
        b"",
        written,
        b" written, ",
        failed,
        b" writes failed\n",
        text,
    )
}

/// Writes how requests on a device ended.
fn put_device(name: &[u8], ends: &[u64; 4], text: &mut Vec<u8>) -> Result<(), NoMemory>
    ensures { OnOk result (text.new.items ≡ text.old.items ++ device_row name.now ends.now) }
{
    put_words(name, text)?;
    put_reads(ends[0], ends[1], text)?;
    put_writes(ends[2], ends[3], text)
}

/// Writes how many zero fills and hard faults a check of the log counts.
#[tactic(auto, unfolding(crate::specs::FaultRows::hard_text))]
fn put_hard(zero_fills: u64, hard: u64, text: &mut Vec<u8>) -> Result<(), NoMemory>
    ensures { OnOk result (text.new.items ≡ text.old.items ++ hard_text zero_fills hard) }
{
    put_pair(
        b"as mmlog check counts: zero fills ",
        zero_fills,
        b", hard ",
        hard,
        b", soft ",
        text,
    )
}

/// Writes how many soft faults it counts, and how many of them are first uses.
#[tactic(auto, unfolding(crate::specs::FaultRows::soft_text))]
fn put_soft(soft: u64, first_uses: u64, text: &mut Vec<u8>) -> Result<(), NoMemory>
    ensures { OnOk result (text.new.items ≡ text.old.items ++ soft_text soft first_uses) }
{
    put_pair(
        b"",
        soft,
        b" (",
        first_uses,
        b" of them first uses of pages that an earlier line read in)\n",
        text,
    )
}

/// Writes what a check of the log counts.
fn put_check(counters: &Counters, text: &mut Vec<u8>) -> Result<(), NoMemory>
    ensures { OnOk result (text.new.items
        ≡ text.old.items ++ check_row (tally_of counters.now)) }
{
    put_hard(counters.zero_fills, counters.hard, text)?;
    put_soft(counters.soft, counters.first_uses, text)
}

/// Writes all that was counted, in columns.
fn put_columns(counters: &Counters, text: &mut Vec<u8>) -> Result<(), NoMemory>
    ensures { OnOk result (text.new.items
        ≡ text.old.items ++ tally_text style.Columns (tally_of counters.now)) }
{
    put_head(text)?;
    put_processes(Style::Columns, &counters.pages, &counters.processes, text)?;
    put_device(b"paging file", &counters.paging_file, text)?;
    put_device(b"files", &counters.files, text)?;
    put_check(counters, text)
}

fn put_csv_head(text: &mut Vec<u8>) -> Result<(), NoMemory>
    ensures { OnOk result (text.new.items ≡ text.old.items ++ fault_csv_head) }
{
    put_words(
        b"process,page,hard,standby,modified,writing,active,demand-zero,copy,collided\n",
        text,
    )
}

/// Writes the faults by the rule of csv.
fn put_csv(counters: &Counters, text: &mut Vec<u8>) -> Result<(), NoMemory>
    ensures { OnOk result (text.new.items
        ≡ text.old.items ++ tally_text style.Csv (tally_of counters.now)) }
{
    put_csv_head(text)?;
    put_processes(Style::Csv, &counters.pages, &counters.processes, text)
}

/// Writes the table of what was counted.
pub(crate) fn put_tally(
    style: Style,
    counters: &Counters,
    text: &mut Vec<u8>,
) -> Result<(), NoMemory>
    ensures { OnOk result (text.new.items
        ≡ text.old.items ++ tally_text style (tally_of counters.now)) }
{
    match style {
        Style::Columns => put_columns(counters, text),
        Style::Csv => put_csv(counters, text),
    }
}
