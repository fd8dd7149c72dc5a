ghost use Rattle.std.specs.Prelude.{◌≡◌, IfOk, map, string_bytes};
ghost use Rattle.mm_reasons.specs.Forms.{form_named, names_form};

use mm_arguments::{Form as Named, read_words};
use mm_script::is_text;
use mm_types::NoMemory;
use std::alloc::Global;

/// A form of the program's words.
#[derive(Clone, Copy, PartialEq, Eq)]
pub enum Form {
    /// No words: the script of a written file.
    Script,
    /// `lines`: the same, and from which written line each comes.
    Lines,
    /// `talk`: each line as it comes.
    Talk,
}

/// The form of this name.
fn form_named(word: &[u8]) -> Option<Form>
    ensures { result ≡ form_named word.now }
{
    if is_text(word, b"lines") {
        return Some(Form::Lines);
    }
    if is_text(word, b"talk") {
        return Some(Form::Talk);
    }
    None
}

/// Which form the words are. An `Err` is memory that was refused.
pub(crate) fn form_of(alloc: Global, words: &[String]) -> Result<Option<Form>, NoMemory>
    ensures { IfOk result (λ r. r ≡ names_form (map string_bytes words.now)) }
{
    if words.is_empty() {
        return Ok(Some(Form::Script));
    }
    let forms = [
        Named {
            name: "lines",
            least: 0,
            most: 0,
        },
        Named {
            name: "talk",
            least: 0,
            most: 0,
        },
    ];
    match read_words(alloc, &forms, words)? {
        Some(said) => Ok(form_named(said.name.as_bytes())),
        None => Ok(None),
    }
}
