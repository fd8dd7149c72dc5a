ghost use Rattle.std.specs.Prelude.{◌≡◌, length, bytes_eq, codes};
ghost use Rattle.mm_script.specs.Keywords.{keyword_of, keyword_among};
ghost use Rattle.mm_script.specs.Sorted.{keywords_of_length, four_letter_keywords, five_letter_keywords, six_letter_keywords, other_keywords};

use crate::values::is_text;

/// The first word of a line.
#[derive(Clone, Copy)]
pub enum Keyword {
    Machine,
    Process,
    Exit,
    File,
    Alloc,
    Free,
    Protect,
    Query,
    Create,
    CreateFile,
    Open,
    Close,
    Map,
    Unmap,
    Flush,
    Read,
    Write,
    Exec,
    Begin,
    Resume,
    Io,
    Trim,
    Age,
    Writer,
    Zeroer,
    Fail,
    Charge,
    Counts,
    Grow,
    Watch,
    ResetWatch,
    Stack,
    Probe,
}

impl Keyword {
    /// The keyword that a word is. The commonest two are tested first, with no search.
    pub fn of(word: &[u8]) -> Option<Keyword>
        ensures { result ≡ keyword_of word.now }
    {
        if is_read(word) {
            return Some(Keyword::Read);
        }
        if is_write(word) {
            return Some(Keyword::Write);
        }
        by_length(word)
    }
}

/// Whether a word is `read`.
#[inline(always)]
fn is_read(word: &[u8]) -> bool
    ensures { result ≡ bytes_eq word.now (codes "read") }
{
    matches!(word, b"read")
}

/// Whether a word is `write`.
#[inline(always)]
fn is_write(word: &[u8]) -> bool
    ensures { result ≡ bytes_eq word.now (codes "write") }
{
    matches!(word, b"write")
}

/// The first of some keywords that a word is: one test after another, each with a text that is
/// known when it is compiled.
macro_rules! among {
    ($word:expr, $($text:literal => $keyword:ident,)*) => {{
        $(
            if is_text($word, $text) {
                return Some(Keyword::$keyword);
            }
        )*
        None
    }};
}

/// The keyword that a word is, sought among those of its length.
#[inline(never)]
fn by_length(word: &[u8]) -> Option<Keyword>
    ensures { result ≡ keyword_among (keywords_of_length (length word.now)) word.now }
{
    match word.len() {
        4 => four_letters(word),
        5 => five_letters(word),
        6 => six_letters(word),
        _ => other(word),
    }
}

/// The keyword of four letters that a word is.
fn four_letters(word: &[u8]) -> Option<Keyword>
    ensures { result ≡ keyword_among four_letter_keywords word.now }
{
    among!(word,
        b"read" => Read,
        b"exit" => Exit,
        b"file" => File,
        b"free" => Free,
        b"open" => Open,
        b"exec" => Exec,
        b"trim" => Trim,
        b"fail" => Fail,
        b"grow" => Grow,
    )
}

/// The keyword of five letters that a word is.
fn five_letters(word: &[u8]) -> Option<Keyword>
    ensures { result ≡ keyword_among five_letter_keywords word.now }
{
    among!(word,
        b"write" => Write,
        b"alloc" => Alloc,
        b"query" => Query,
        b"close" => Close,
        b"unmap" => Unmap,
        b"flush" => Flush,
        b"begin" => Begin,
        b"watch" => Watch,
        b"stack" => Stack,
        b"probe" => Probe,
    )
}

/// The keyword of six letters that a word is.
fn six_letters(word: &[u8]) -> Option<Keyword>
    ensures { result ≡ keyword_among six_letter_keywords word.now }
{
    among!(word,
        b"writer" => Writer,
        b"create" => Create,
        b"resume" => Resume,
        b"zeroer" => Zeroer,
        b"charge" => Charge,
        b"counts" => Counts,
    )
}

/// The keyword of another length that a word is.
fn other(word: &[u8]) -> Option<Keyword>
    ensures { result ≡ keyword_among other_keywords word.now }
{
    among!(word,
        b"io" => Io,
        b"map" => Map,
        b"age" => Age,
        b"machine" => Machine,
        b"process" => Process,
        b"protect" => Protect,
        b"createfile" => CreateFile,
        b"resetwatch" => ResetWatch,
    )
}
