ghost use Rattle.std.specs.Prelude.{◌≡◌, [], option_map};
ghost use Rattle.mm_replay.specs.Standing.{life as life_of};
ghost use Rattle.mm_reports.specs.Lines.{line_ended_by, ended_line, ends_of_lines};
ghost use Rattle.mm_reports.specs.Charges.{charge_of, charge_in, charge_by, line_at, charge_at};
ghost use Rattle.mm_reports.specs.Charges.{later_charge, charge_after, charge_then};

use crate::splits::{after_byte, before};
use mm_log_walk::Lines;
use mm_replay::Life;
use mm_script::is_text;
use mm_text::number;
use mm_types::Move;

/// What a `charge` line was answered.
#[derive(Clone, Copy)]
pub struct Charge {
    /// The commit charge, in pages.
    pub charged: u32,
    /// Its limit, in pages.
    pub limit: u32,
}

fn charge_of(charged: Option<u32>, limit: Option<u32>) -> Option<Charge>
    ensures { result ≡ charge_of charged limit }
{
    match (charged, limit) {
        (Some(charged), Some(limit)) => Some(Charge { charged, limit }),
        _ => None,
    }
}

/// The charge that an answer tells.
fn charge_in(answer: &[u8]) -> Option<Charge>
    ensures { result ≡ charge_in answer.now }
{
    if !is_text(before(b' ', answer), b"ok") {
        return None;
    }
    let numbers = after_byte(b' ', answer);
    charge_of(
        number(before(b' ', numbers)),
        number(after_byte(b' ', numbers)),
    )
}

/// The charge that a line with this answer tells, if it asks for it.
fn charge_by(line: Option<&[u8]>, answer: Option<&[u8]>) -> Option<Charge>
    ensures { result ≡ charge_by (option_map (λ l. l.now) line.entry)
        (option_map (λ a. a.now) answer.entry) }
{
    match (line, answer) {
        (Some(line), Some(answer)) => {
            if is_text(line, b"charge") {
                charge_in(answer)
            } else {
                None
            }
        }
        _ => None,
    }
}

/// A line of a file by its number from 1 on, if the file is there and has it.
fn line_at(lines: &Option<Lines>, n: u32) -> Option<&[u8]>
    ensures { option_map (λ l. l.now) result ≡ line_at lines.now n }
{
    match lines {
        Some(lines) => lines.get((n as usize).saturating_sub(1)),
        None => None,
    }
}

fn charge_at(script: &Option<Lines>, answers: &Option<Lines>, n: u32) -> Option<Charge>
    ensures { result ≡ charge_at script.now answers.now n }
{
    charge_by(line_at(script, n), line_at(answers, n))
}

fn later_charge(last: Option<Charge>, now: Option<Charge>) -> Option<Charge>
    ensures { result ≡ later_charge last now }
{
    match now {
        Some(charge) => Some(charge),
        None => last,
    }
}

/// The charge that was answered last once a line has ended, where this one was before it.
fn charge_after(
    script: &Option<Lines>,
    answers: &Option<Lines>,
    last: Option<Charge>,
    n: u32,
) -> Option<Charge>
    ensures { result ≡ charge_after script.now answers.now last n }
{
    later_charge(last, charge_at(script, answers, n))
}

/// The same where the line that began last ends, if any has begun.
pub(crate) fn charge_ended(
    script: &Option<Lines>,
    answers: &Option<Lines>,
    last: Option<Charge>,
    life: &Life,
) -> Option<Charge>
    ensures { result ≡ charge_then script.now answers.now last
        (ended_line (life_of life.now)) }
{
    if life.line() == 0 {
        return last;
    }
    charge_after(script, answers, last, life.line())
}

/// The same where a line ends as this move comes, if any does.
pub(crate) fn charge_ended_by(
    script: &Option<Lines>,
    answers: &Option<Lines>,
    last: Option<Charge>,
    life: &Life,
    m: &Move,
) -> Option<Charge>
    ensures { result ≡ charge_then script.now answers.now last
        (line_ended_by (life_of life.now) m.now) }
{
    match *m {
        Move::At(_, _) => charge_ended(script, answers, last, life),
        _ => last,
    }
}
