use mm_names::{Tidy, tidied};
use mm_script::without_return;
use mm_text::{Span, Words};
use mm_types::NoMemory;
use std::alloc::Global;

/// More words than any line needs.
const MOST_WORDS: usize = 64;

/// A written line by its words.
#[derive(Drop)]
pub(crate) struct WordLine {
    tidy: Tidy,
    spans: Vec<Span>,
}

impl WordLine {
    /// The words of a line.
    pub(crate) fn new(alloc: Global, line: &[u8]) -> Result<WordLine, NoMemory> {
        let tidy = tidied(alloc, without_return(line))?;
        let spans = spans_of(alloc, tidy.text())?;
        Ok(WordLine { tidy, spans })
    }

    /// The whole line, with one space between each word and the next.
    pub(crate) fn tidy(&self) -> &Tidy {
        &self.tidy
    }

    /// How many words the line has; no more than 64 are counted.
    pub(crate) fn count(&self) -> usize {
        self.spans.len()
    }

    /// A word, counted from 0; empty where there is none.
    pub(crate) fn word(&self, at: usize) -> &[u8] {
        match self.spans.get(at) {
            Some(span) => match self.tidy.text().get(span.from as usize..span.to as usize) {
                Some(word) => word,
                None => b"",
            },
            None => b"",
        }
    }

    /// The column in the written line of a byte of a word.
    pub(crate) fn column_behind(&self, at: usize, offset: usize) -> Option<u32> {
        let span = self.spans.get(at)?;
        let place = (span.from as usize).saturating_add(offset);
        Some(self.tidy.column(place))
    }
}

/// The places of the words of a line.
fn spans_of(alloc: Global, text: &[u8]) -> Result<Vec<Span>, NoMemory> {
    let mut spans = Vec::new(alloc);
    if text.len() > 65536 {
        return Ok(spans);
    }
    let mut words = Words::new(text);
    for _ in 0..MOST_WORDS {
        match words.next() {
            Some(span) => spans.push(span)?,
            None => return Ok(spans),
        }
    }
    Ok(spans)
}
