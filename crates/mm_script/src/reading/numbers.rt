ghost use Rattle.std.specs.Prelude.{◌≡◌, ◌≤◌, true, length, Some};
ghost use Rattle.mm_script.specs.{is_plain, IfTrue, made_with, ranges_for, line_of, IsPut};

use crate::LineFault;
use crate::fields::{Fields, MOST_NUMBERS, Range};
use crate::keywords::Keyword;
use mm_types::{Event, Pid, Tid};

/// The number of a process or of a thread.
const ID: Range = Range(0, 255);

const FLAG: Range = Range(0, 1);

const ANY: Range = Range(0, u32::MAX);
/// How often something is done.
const TIMES: Range = Range(0, 1_000_000);

/// The numbers behind a keyword, where only numbers stand there.
#[inline(always)]
fn ranges_of(keyword: Keyword) -> &'static [Range]
    ensures ranges { IfTrue (is_plain keyword) (result.now ≡ ranges_for keyword) }
    ensures few { length result.now ≤ MOST_NUMBERS }
{
    match keyword {
        Keyword::Exit | Keyword::Age | Keyword::Resume => &[ID],
        Keyword::Query | Keyword::Unmap | Keyword::Exec | Keyword::Close | Keyword::Probe => {
            &[ID, ANY]
        }
        Keyword::Flush | Keyword::ResetWatch => &[ID, ANY, ANY],
        Keyword::Free | Keyword::Protect => &[ID, ANY, ANY, ANY],
        Keyword::Alloc => &[ID, ANY, ANY, ANY, ANY],
        Keyword::Map => &[ID, ANY, ANY, ANY, ANY, ANY],
        Keyword::Stack => &[ID, ID, ANY, ANY],
        Keyword::Watch => &[ID, FLAG, ANY, ANY, Range(1, 16)],
        Keyword::Trim => &[ID, TIMES],
        Keyword::Writer | Keyword::Zeroer => &[TIMES],
        Keyword::Io => &[Range(1, 64)],
        Keyword::Grow => &[Range(1, 262_144)],
        _ => &[],
    }
}

/// A row for each form of numbers alone: its keyword, and where the numbers stand in its event.
macro_rules! put_as {
    ($place:expr, $keyword:expr, $($form:ident => $event:expr,)*) => {
        match $keyword {
            $(Keyword::$form => *$place = $event,)*
            _ => {}
        }
    };
}

/// Writes the event of a keyword and the numbers behind it.
#[inline(always)]
#[tactic(auto, using(crate::proofs::Numbers::made_told))]
fn put_numbers(keyword: Keyword, numbers: &[u32; MOST_NUMBERS], event: &mut Event)
    ensures { IfTrue (is_plain keyword) (made_with keyword numbers.now ≡ Some event.new) }
{
    let [a, b, c, d, e, f] = *numbers;
    // The number of a process or a thread was read as one below 256.
    let pid = Pid((a % 256) as u8);
    let tid = Tid((a % 256) as u8);
    put_as!(event, keyword,
        Exit => Event::Exit { pid },
        Alloc => Event::Alloc { pid, addr: b, size: c, form: d, prot: e },
        Free => Event::Free { pid, addr: b, size: c, form: d },
        Protect => Event::Protect { pid, addr: b, size: c, prot: d },
        Query => Event::Query { pid, addr: b },
        Close => Event::Close { pid, handle: b },
        Map => Event::Map { pid, handle: b, access: c, offset: d, length: e, addr: f },
        Unmap => Event::Unmap { pid, addr: b },
        Flush => Event::Flush { pid, addr: b, size: c },
        Exec => Event::Exec { pid, addr: b },
        Resume => Event::Resume { tid },
        Io => Event::Io { index: a },
        Trim => Event::Trim { pid, count: b },
        Age => Event::Age { pid },
        Writer => Event::Writer { count: a },
        Zeroer => Event::Zeroer { count: a },
        Charge => Event::Charge,
        Counts => Event::Counts,
        Grow => Event::Grow { slots: a },
        Watch => Event::Watch { pid, reset: b == 1, addr: c, size: d, count: e },
        ResetWatch => Event::ResetWatch { pid, addr: b, size: c },
        Stack => Event::Stack { tid, pid: Pid((b % 256) as u8), reserve: c, commit: d },
        Probe => Event::Probe { tid, addr: b },
    );
}

/// The lines of numbers alone, under no joint condition.
#[tactic(auto, using(crate::proofs::Numbers::numbered))]
pub fn numbers(keyword: Keyword, fields: &mut Fields, event: &mut Event) -> Result<(), LineFault>
    requires plain { is_plain keyword ≡ true }
    requires second { fields.old.number ≡ 2 }
    ensures { IsPut result event.old event.new (line_of keyword fields.old) }
{
    let mut numbers = [0; MOST_NUMBERS];
    fields.numbers(ranges_of(keyword), &mut numbers)?;
    fields.end()?;
    put_numbers(keyword, &numbers, event);
    Ok(())
}
