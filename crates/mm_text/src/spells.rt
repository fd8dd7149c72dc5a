#![tactic(auto, using(crate::proofs::Lines::steps))]

ghost use Rattle.std.specs.Prelude.{◌≡◌, ◌≤◌, ◌+◌, ◌*◌, ◌++◌, length, map};
ghost use Rattle.mm_types.specs.{spaced, code_number, status_number, why_text, answer_text, spelling};
ghost use Rattle.mm_text.specs.{following, number_word};

use crate::{LineBuf, put_bytes, put_decimal, put_hex8};
use mm_types::{Answer, Code, Counts, QueryInfo, Raise, Why};

/// The bytes of the longest answer line, which is that of `watch` with 16 addresses.
pub const LONGEST: usize = 182;

/// The number of an error code, as GetLastError gives it.
fn code_number(code: Code) -> u32
    ensures { result ≡ code_number code }
{
    match code {
        Code::NotFound => 2,
        Code::AccessDenied => 5,
        Code::InvalidHandle => 6,
        Code::InvalidParameter => 87,
        Code::AlreadyExists => 183,
        Code::InvalidAddress => 487,
        Code::Misaligned => 1132,
        Code::CommitmentLimit => 1455,
    }
}

/// The number of a status that an access raises (NTSTATUS).
fn status_number(status: Raise) -> u32
    ensures { result ≡ status_number status }
{
    match status {
        Raise::GuardPage => 0x8000_0001,
        Raise::AccessViolation => 0xC000_0005,
        Raise::InPageError => 0xC000_0006,
        Raise::StackOverflow => 0xC000_00FD,
    }
}

/// What a thread's access waits for, as a word.
fn why_word(why: Why) -> &'static [u8]
    ensures word { result.now ≡ why_text why }
    ensures few { length result.now ≤ 5 }
{
    match why {
        Why::Read => b"read",
        Why::Frame => b"frame",
        Why::Full => b"full",
    }
}

/// Writes a number: addresses, sizes and the like by eight hexadecimal digits, others in decimal.
#[inline(always)]
fn put_word(out: &mut LineBuf, hex: bool, n: u32)
    requires { length out.old + 10 ≤ 256 }
    ensures text { out.new ≡ out.old ++ number_word hex n }
    ensures few { length out.new ≤ length out.old + 10 }
{
    if hex {
        put_hex8(out, n);
    } else {
        put_decimal(out, u64::from(n));
    }
}

/// Writes numbers, each after a space.
fn put_words(out: &mut LineBuf, hex: bool, numbers: &[u32])
    requires { length out.old + 11 * length numbers.now ≤ 256 }
    ensures text { out.new ≡ out.old ++ following (map (number_word hex) numbers.now) }
    ensures few { length out.new ≤ length out.old + 11 * length numbers.now }
{
    for number in numbers {
        out.push(b' ');
        put_word(out, hex, *number);
    }
}

/// A word, and numbers after it.
fn line_of(out: &mut LineBuf, hex: bool, word: &[u8], numbers: &[u32])
    requires { length out.old + (length word.now + 11 * length numbers.now) ≤ 256 }
    ensures text { out.new ≡ out.old ++ spaced word.now (map (number_word hex) numbers.now) }
    ensures few { length out.new ≤ length out.old + (length word.now + 11 * length numbers.now) }
{
    out.push_slice(word);
    put_words(out, hex, numbers);
}

/// `ok` and what VirtualQuery tells.
fn line_of_info(out: &mut LineBuf, info: &QueryInfo)
    requires { length out.old + 79 ≤ 256 }
    ensures text { out.new ≡ out.old ++ answer_text (Answer.Info info.now) }
    ensures few { length out.new ≤ length out.old + 79 }
{
    let fields = [
        info.base,
        info.alloc_base,
        info.alloc_prot,
        info.size,
        info.state,
        info.prot,
        info.kind,
    ];
    line_of(out, true, b"ok", &fields);
}

/// `ok` and the eight numbers of `counts`.
fn line_of_counts(out: &mut LineBuf, counts: &Counts)
    requires { length out.old + 90 ≤ 256 }
    ensures text { out.new ≡ out.old ++ answer_text (Answer.Counts counts.now) }
    ensures few { length out.new ≤ length out.old + 90 }
{
    let numbers = [
        counts.zeroed,
        counts.free,
        counts.standby,
        counts.modified,
        counts.active,
        counts.transition,
        counts.free_slots,
        counts.requests,
    ];
    line_of(out, false, b"ok", &numbers);
}

/// Writes an answer's words.
fn put_text(answer: &Answer, out: &mut LineBuf)
    requires { length out.old + 181 ≤ 256 }
    ensures text { out.new ≡ out.old ++ answer_text answer.now }
    ensures few { length out.new ≤ length out.old + 181 }
{
    match answer {
        Answer::Ok => out.push_slice(b"ok"),
        Answer::Limit(limit) => line_of(out, false, b"ok", &[*limit]),
        Answer::NewProcess(pid) => line_of(out, false, b"ok", &[u32::from(pid.0)]),
        Answer::At(address) => line_of(out, true, b"ok", &[*address]),
        Answer::OldProt(prot) => line_of(out, true, b"ok", &[prot.0]),
        Answer::Info(info) => line_of_info(out, info),
        Answer::Created(handle, false) => line_of(out, false, b"ok", &[*handle, 0]),
        Answer::Created(handle, true) => {
            line_of(
                out,
                false,
                b"ok",
                &[*handle, code_number(Code::AlreadyExists)],
            )
        }
        Answer::Opened(handle) => line_of(out, false, b"ok", &[*handle]),
        Answer::Bytes(bytes) => {
            out.push_slice(b"ok ");
            put_bytes(out, bytes.as_slice());
        }
        Answer::Charge(charge, limit) => line_of(out, false, b"ok", &[*charge, *limit]),
        Answer::Counts(counts) => line_of_counts(out, counts),
        Answer::Error(code) => line_of(out, false, b"error", &[code_number(*code)]),
        Answer::Raised(status) => line_of(out, true, b"raise", &[status_number(*status)]),
        Answer::Pending(why) => {
            out.push_slice(b"pending ");
            out.push_slice(why_word(*why));
        }
        Answer::Nothing => out.push_slice(b"none"),
        Answer::Busy => out.push_slice(b"busy"),
        Answer::Full => out.push_slice(b"full"),
        Answer::Fault => out.push_slice(b"fault"),
        Answer::Watched(pages) => {
            let addresses = pages.as_slice();
            out.push_slice(b"ok ");
            put_decimal(out, addresses.len() as u64);
            put_words(out, true, addresses);
        }
        Answer::Stack(base, size, guard) => line_of(out, true, b"ok", &[*base, *size, *guard]),
    }
}

/// Writes an answer's line with its line feed at the end of `out`. Addresses, sizes, protections,
/// states, types and statuses are `0x` and eight upper-case hexadecimal digits, other numbers
/// decimal, bytes pairs of upper-case digits.
pub fn spell(answer: &Answer, out: &mut LineBuf)
    requires { length out.old + LONGEST ≤ 256 }
    ensures line { out.new ≡ out.old ++ spelling answer.now }
    ensures few { length out.new ≤ length out.old + LONGEST }
{
    put_text(answer, out);
    out.push(b'\n');
}
