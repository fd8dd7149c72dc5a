use crate::usages::{CALLS, NAMES, USAGES};
use mm_names::{Names, lowered};
use mm_types::{Name, NoMemory};
use std::alloc::Global;
use strsim::generic_levenshtein;

/// The text nearest to a word, and how many edits lead there.
#[derive(Clone, Copy)]
struct Nearest<'a> {
    text: &'a [u8],
    edits: usize,
}

/// The nearer of what was found and a text, letters in either case being one.
fn nearer<'a>(
    alloc: Global,
    found: Nearest<'a>,
    word: &[u8],
    text: &'a [u8],
) -> Result<Nearest<'a>, NoMemory> {
    let low = lowered(alloc, text)?;
    let edits = generic_levenshtein(alloc, word, low.as_slice())?;
    if edits < found.edits {
        Ok(Nearest { text, edits })
    } else {
        Ok(found)
    }
}

/// How many edits are too many: one is allowed to a word of up to three letters, two to a longer
/// one. Words so long that no name is near have none.
fn none<'a>(word: &[u8]) -> Option<Nearest<'a>> {
    if word.len() > 40 {
        return None;
    }
    let edits = if word.len() > 3 { 3 } else { 2 };
    Some(Nearest { text: b"", edits })
}

/// What was found.
fn text_of<'a>(found: Nearest<'a>) -> Option<&'a [u8]> {
    if found.text.is_empty() {
        None
    } else {
        Some(found.text)
    }
}

/// The keyword or call nearest to a word in lower case.
pub(crate) fn nearest_keyword(
    alloc: Global,
    word: &[u8],
) -> Result<Option<&'static [u8]>, NoMemory> {
    let Some(mut found) = none(word) else {
        return Ok(None);
    };
    for usage in &USAGES {
        found = nearer(alloc, found, word, usage.0.as_bytes())?;
    }
    for call in &CALLS {
        found = nearer(alloc, found, word, call.as_bytes())?;
    }
    Ok(text_of(found))
}

/// The name of Windows nearest to a word.
pub(crate) fn nearest_windows_name(
    alloc: Global,
    word: &[u8],
) -> Result<Option<&'static [u8]>, NoMemory> {
    let low = lowered(alloc, word)?;
    let Some(mut found) = none(word) else {
        return Ok(None);
    };
    for name in &NAMES {
        found = nearer(alloc, found, low.as_slice(), name.as_bytes())?;
    }
    Ok(text_of(found))
}

/// The name that the script gave nearest to a word.
pub(crate) fn nearest_given_name(
    alloc: Global,
    names: &Names,
    word: &[u8],
) -> Result<Option<Name>, NoMemory> {
    let low = lowered(alloc, word)?;
    let Some(limit) = none(word) else {
        return Ok(None);
    };
    let mut fewest = limit.edits;
    let mut found = None;
    for name in names.names(alloc)?.as_slice() {
        let given = lowered(alloc, name.as_slice())?;
        let edits = generic_levenshtein(alloc, low.as_slice(), given.as_slice())?;
        if edits < fewest {
            fewest = edits;
            found = Some(*name);
        }
    }
    Ok(found)
}
