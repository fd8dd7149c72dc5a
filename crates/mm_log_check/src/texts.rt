ghost use Rattle.std.specs.Prelude.{◌≡◌, ◌≤◌, ◌+◌, ◌∷◌, ◌++◌, [], List, ℕ, length};
ghost use Rattle.mm_move_rules.specs.{numbered};
ghost use Rattle.mm_replay.specs.Standing.{life};
ghost use Rattle.mm_log_check.specs.{check_text, held_text, yes_text, verdict_text, log_status_of};

use crate::checks::Checker;
use crate::endings::{Asked, Ending};
use crate::tallies::Tally;
use mm_text::{LineBuf, put_decimal};
use mm_types::Held;

/// Some words and a number, of at most 20 digits.
#[tactic(auto, using(mm_text::proofs::DigitCounts::joined))]
fn put_numbered(out: &mut LineBuf, word: &[u8], n: u64)
    requires { length out.old + length word.now + 20 ≤ 256 }
    ensures text { (behind : List ℕ) → out.new ++ behind ≡ out.old ++ numbered word.now n behind }
    ensures few { length out.new ≤ length out.old + length word.now + 20 }
{
    out.push_slice(word);
    put_decimal(out, n);
}

/// Some words.
#[tactic(auto, using(mm_text::proofs::DigitCounts::joined))]
fn put_words(out: &mut LineBuf, words: &[u8])
    requires { length out.old + length words.now ≤ 256 }
    ensures text { (behind : List ℕ) → out.new ++ behind ≡ out.old ++ (words.now ++ behind) }
    ensures few { length out.new ≤ length out.old + length words.now }
{
    out.push_slice(words);
}

/// A word, a number and a line feed.
#[tactic(auto, using(crate::proofs::Pieces::texts))]
fn numbered_line(word: &[u8], n: u64) -> LineBuf
    requires { length word.now ≤ 8 }
    ensures { result ≡ numbered word.now n (10 ∷ []) }
{
    let mut out = LineBuf::new();
    put_numbered(&mut out, word, n);
    out.push(b'\n');
    out
}

/// Some words of a line and their line feed.
#[tactic(auto, using(crate::proofs::Pieces::texts))]
fn words_line(words: &[u8]) -> LineBuf
    requires { length words.now ≤ 9 }
    ensures { result ≡ words.now }
{
    let mut out = LineBuf::new();
    out.push_slice(words);
    out
}

#[tactic(auto, using(crate::proofs::Pieces::texts))]
fn check_text(tally: &Tally) -> LineBuf
    ensures { result ≡ check_text tally.now.counts }
{
    let mut out = LineBuf::new();
    put_numbered(&mut out, b"yes\nmoves ", tally.moves);
    put_numbered(&mut out, b"\nzero ", tally.zero_fills);
    put_numbered(&mut out, b"\nsoft ", tally.soft_faults);
    put_numbered(&mut out, b"\nhard ", tally.hard_faults);
    put_numbered(&mut out, b"\nsteals ", tally.steals);
    put_numbered(&mut out, b"\nwrites ", tally.write_outs);
    put_words(&mut out, b"\n");
    out
}

fn held_text(held: Held) -> LineBuf
    ensures { result ≡ held_text held }
{
    match held {
        Held::Frame(frame) => numbered_line(b"frame ", u64::from(frame.0)),
        Held::Slot(slot) => numbered_line(b"slot ", u64::from(slot.0)),
        Held::Block(block) => numbered_line(b"block ", u64::from(block.0)),
        Held::Zero => words_line(b"zero\n"),
        Held::Dead => words_line(b"dead\n"),
    }
}

fn yes_text(asked: Asked, checker: &Checker) -> LineBuf
    ensures { result ≡ yes_text asked checker.now.tally.counts (life checker.now.life) }
{
    match asked {
        Asked::Check => check_text(&checker.tally),
        Asked::Where(key) => held_text(checker.life.held(key)),
    }
}

/// The text of an ending; none where a read failed or memory was refused.
pub(crate) fn text_of(asked: Asked, ending: Ending, checker: &Checker) -> LineBuf
    ensures { result ≡ verdict_text asked ending checker.now.tally.counts (life checker.now.life) }
{
    match ending {
        Ending::Yes => yes_text(asked, checker),
        Ending::No(line, _) => numbered_line(b"no line ", line),
        Ending::TooLong => words_line(b"too long\n"),
        Ending::ReadFault => LineBuf::new(),
        Ending::NoMemory => LineBuf::new(),
    }
}

/// The status of an ending.
pub(crate) fn status_of(ending: Ending) -> u8
    ensures { result ≡ log_status_of ending }
{
    match ending {
        Ending::Yes => 0,
        Ending::No(_, _) => 3,
        Ending::TooLong => 8,
        Ending::ReadFault => 4,
        Ending::NoMemory => 1,
    }
}
