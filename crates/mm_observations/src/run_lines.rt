ghost use Rattle.std.specs.Prelude.{◌≡◌, ◌+◌, ◌<◌, ◌^◌};
ghost use Rattle.mm_observations.specs.RunLines.{leading_word, is_answer, number_answered, process_made, no_lines, run_after, is_made};

use mm_script::is_text;
use mm_text::{Words, number};

/// The most bytes of a line of a script, and of an answer.
const LONGEST_LINE: usize = 256;

/// What observations are checked against: how many lines a run answered, and at which of them each
/// process was made, 0 where none did.
#[derive(Clone, Copy)]
pub struct RunLines {
    count: u64,
    made: [u64; 256],
}

/// The first word of a line, or nothing of one that is too long.
fn leading_word(line: &[u8]) -> &[u8]
    ensures { result.now ≡ leading_word line.now }
{
    if line.len() > LONGEST_LINE {
        return &[];
    }
    match Words::new(line).next() {
        Some(span) => span.of(line),
        None => &[],
    }
}

/// Whether a text answers a line, and does not tell that the line is none.
fn is_answer(text: &[u8]) -> bool
    ensures { result ≡ is_answer text.now }
{
    let word = leading_word(text);
    !(is_text(word, b"bad") || is_text(word, b"too"))
}

/// The number behind `ok `, if the answer is those two words.
fn number_answered(answer: &[u8]) -> Option<u32>
    ensures { result ≡ number_answered answer.now }
{
    match answer {
        [b'o', b'k', b' ', digits @ ..] => number(digits),
        _ => None,
    }
}

/// The process that a line made, by its answer.
fn process_made(line: &[u8], answer: &[u8]) -> Option<u32>
    ensures { result ≡ process_made line.now answer.now }
{
    if is_text(leading_word(line), b"process") {
        number_answered(answer)
    } else {
        None
    }
}

impl RunLines {
    /// Before the first line.
    pub fn new() -> RunLines
        ensures { result ≡ no_lines }
    {
        RunLines {
            count: 0,
            made: [0; 256],
        }
    }

    /// Takes the next line of the script, with its answer.
    pub fn follow(&mut self, line: &[u8], answer: &[u8])
        requires { self.old.count + 1 < 2 ^ 64 }
        ensures { self.new ≡ run_after self.old line.now answer.now }
    {
        if !is_answer(answer) {
            return;
        }
        self.count += 1;
        match process_made(line, answer) {
            Some(pid) => {
                if pid < 256 {
                    self.made[pid as usize] = self.count;
                }
            }
            None => {}
        }
    }

    /// How many lines were answered.
    pub(crate) fn count(&self) -> u64
        ensures { result ≡ self.now.count }
    {
        self.count
    }

    /// Whether a line up to this one made the process.
    pub(crate) fn is_made(&self, pid: u32, line: u32) -> bool
        ensures { result ≡ is_made self.now pid line }
    {
        match self.made.get(pid as usize) {
            Some(made) => *made >= 1 && *made <= u64::from(line),
            None => false,
        }
    }
}
