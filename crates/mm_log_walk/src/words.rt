ghost use Rattle.std.specs.Prelude.{◌≡◌};
ghost use Rattle.mm_log_walk.specs.{first_word, is_access_word, is_thread_word};

use mm_script::is_text;

/// The bytes of a line before its first space.
pub(crate) fn first_word(line: &[u8]) -> &[u8]
    ensures { result.now ≡ first_word line.now }
{
    for i in 0..line.len() {
        if line[i] == b' ' {
            return &line[..i];
        }
    }
    line
}

pub(crate) fn is_access_word(word: &[u8]) -> bool
    ensures { result ≡ is_access_word word.now }
{
    is_text(word, b"read") || is_text(word, b"write") || is_text(word, b"exec")
}

pub(crate) fn is_thread_word(word: &[u8]) -> bool
    ensures { result ≡ is_thread_word word.now }
{
    is_text(word, b"begin") || is_text(word, b"resume")
}
