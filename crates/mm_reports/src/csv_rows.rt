#![tactic(auto, using(mm_text::proofs::DigitCounts::joined))]

ghost use Rattle.std.specs.Prelude.{◌≡◌, ◌++◌, ◌∷◌, [], OnOk, map, flat_map};
ghost use Rattle.mm_types.specs.{decimal};
ghost use Rattle.mm_csv.specs.{csv_field, csv_next, csv_row, fields_behind};
ghost use Rattle.mm_replay.specs.Standing.{life as life_of};
ghost use Rattle.mm_reports.specs.{number_next, resident_word, sets_text, charge_fields, counts_fields, fault_fields};

use crate::charges::Charge;
use mm_csv::{put_field, put_next};
use mm_move_classes::counts_in;
use mm_move_rules::ResidentSet;
use mm_replay::Life;
use mm_sentences::{put_counted, put_words};
use mm_text::{LineBuf, put_decimal};
use mm_types::NoMemory;

/// Writes a number as the first field of a row.
fn put_first_number(n: u64, text: &mut Vec<u8>) -> Result<(), NoMemory>
    ensures { OnOk result (text.new.items ≡ text.old.items ++ csv_field (decimal n)) }
{
    let mut line = LineBuf::new();
    put_decimal(&mut line, n);
    put_field(line.as_slice(), text)
}

/// Writes a number as the next field.
fn put_next_number(n: u64, text: &mut Vec<u8>) -> Result<(), NoMemory>
    ensures { OnOk result (text.new.items ≡ text.old.items ++ number_next n) }
{
    let mut line = LineBuf::new();
    put_decimal(&mut line, n);
    put_next(line.as_slice(), text)
}

fn put_next_numbers(numbers: &[u64], text: &mut Vec<u8>) -> Result<(), NoMemory>
    ensures { OnOk result (text.new.items ≡ text.old.items ++ flat_map number_next numbers.now) }
{
    for n in numbers {
        put_next_number(*n, text)?;
    }
    Ok(())
}

/// Writes the resident pages of some processes, each behind a space.
fn put_resident_words(sets: &[ResidentSet], text: &mut Vec<u8>) -> Result<(), NoMemory>
    ensures { OnOk result (text.new.items ≡ text.old.items ++ flat_map resident_word sets.now) }
{
    for set in sets {
        put_counted(b" ", u64::from(set.resident), text)?;
    }
    Ok(())
}

/// Writes the resident pages of each process, in the order of the processes.
fn put_sets(sets: &[ResidentSet], text: &mut Vec<u8>) -> Result<(), NoMemory>
    ensures { OnOk result (text.new.items ≡ text.old.items ++ sets_text sets.now) }
{
    match sets {
        [] => Ok(()),
        [set, rest @ ..] => {
            put_counted(b"", u64::from(set.resident), text)?;
            put_resident_words(rest, text)
        }
    }
}

/// Writes the resident pages of each process as the next field. What was in the room is lost.
fn put_sets_field(life: &Life, room: &mut Vec<u8>, text: &mut Vec<u8>) -> Result<(), NoMemory>
    ensures { OnOk result (text.new.items
        ≡ text.old.items ++ csv_next (sets_text (life_of life.now).sets)) }
{
    room.clear();
    put_sets(life.sets(), room)?;
    put_next(room.as_slice(), text)
}

/// Writes the charge and its limit as the last fields of a row; empty ones where none was told.
fn put_charge(charge: Option<Charge>, text: &mut Vec<u8>) -> Result<(), NoMemory>
    ensures { OnOk result (text.new.items
        ≡ text.old.items ++ fields_behind (charge_fields charge)) }
{
    match charge {
        None => put_words(b",,\n", text),
        Some(charge) => {
            put_next_number(u64::from(charge.charged), text)?;
            put_next_number(u64::from(charge.limit), text)?;
            put_words(b"\n", text)
        }
    }
}

/// Writes the row of a line that ends here. What was in the room is lost.
pub(crate) fn put_counts_fields(
    charge: Option<Charge>,
    life: &Life,
    room: &mut Vec<u8>,
    text: &mut Vec<u8>,
) -> Result<(), NoMemory>
    ensures { OnOk result (text.new.items
        ≡ text.old.items ++ csv_row (counts_fields charge (life_of life.now))) }
{
    let counts = counts_in(life.counts());
    put_first_number(u64::from(life.line()), text)?;
    put_next_numbers(&counts, text)?;
    put_sets_field(life, room, text)?;
    put_charge(charge, text)?;
    Ok(())
}

/// Writes the row of a process and a page, or of all pages.
pub(crate) fn put_fault_fields(
    pid: u8,
    page: &[u8],
    counts: &[u64; 8],
    text: &mut Vec<u8>,
) -> Result<(), NoMemory>
    ensures { OnOk result (text.new.items
        ≡ text.old.items ++ csv_row (fault_fields pid page.now counts.now)) }
{
    put_first_number(u64::from(pid), text)?;
    put_next(page, text)?;
    put_next_numbers(counts, text)?;
    put_words(b"\n", text)?;
    Ok(())
}
