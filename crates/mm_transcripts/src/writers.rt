ghost use Rattle.std.specs.Prelude.{◌≡◌, ◌++◌, OnOk, option_map};
ghost use Rattle.mm_replay.specs.Standing.{life as life_of};
ghost use Rattle.mm_transcripts.specs.{write_outs_asked, writes_read, writes_asked, modified_pages, lacks_slots, unwritten_pages, unwritten_row};
ghost use Rattle.mm_transcripts.specs.{unwritten_text, unwritten_before, unwritten_end};

use mm_replay::{FrameList, Life};
use mm_script::parse_line;
use mm_sentences::{put_number, put_words};
use mm_types::{Event, Move, NoMemory};

fn write_outs_asked(event: &Event) -> u32
    ensures { result ≡ write_outs_asked event.now }
{
    match event {
        Event::Writer { count } => *count,
        _ => 0,
    }
}

/// How many write-outs a line of a script may begin: what its `writer` asks for.
#[tactic(auto, unfolding(crate::specs::Writers::writes_read))]
fn writes_read(line: &[u8]) -> u32
    ensures { result ≡ writes_read line.now }
{
    if line.len() > 256 {
        return 0;
    }
    match parse_line(line) {
        Ok(event) => write_outs_asked(&event),
        Err(_) => 0,
    }
}

/// How many write-outs a line may begin, where the script has it.
pub(crate) fn writes_asked(line: Option<&[u8]>) -> u32
    ensures { result ≡ writes_asked (option_map (λ s. s.now) line.entry) }
{
    match line {
        Some(line) => writes_read(line),
        None => 0,
    }
}

fn modified_pages(life: &Life) -> u32
    ensures { result ≡ modified_pages (life_of life.now) }
{
    life.list_len(FrameList::Modified)
}

/// Whether modified pages are left that have no slot to go to, where the line might begin more
/// write-outs. If so, it has looked at each slot.
fn lacks_slots(left: u32, life: &Life) -> bool
    ensures { result ≡ lacks_slots left (life_of life.now) }
{
    left > 0 && modified_pages(life) > 0 && life.requests() < life.depth() && life.free_slots() == 0
}

#[tactic(auto, using(mm_sentences::proofs::Joined::joined))]
fn put_unwritten_pages(count: u32, text: &mut Vec<u8>) -> Result<(), NoMemory>
    ensures { OnOk result (text.new.items ≡ text.old.items ++ unwritten_pages count) }
{
    put_number(u64::from(count), text)?;
    if count == 1 {
        put_words(b" modified page is", text)
    } else {
        put_words(b" modified pages are", text)
    }
}

#[tactic(auto, using(mm_sentences::proofs::Joined::joined))]
fn put_unwritten_row(count: u32, text: &mut Vec<u8>) -> Result<(), NoMemory>
    ensures { OnOk result (text.new.items ≡ text.old.items ++ unwritten_row count) }
{
    put_words(b"     no slot of the paging file is free: ", text)?;
    put_unwritten_pages(count, text)?;
    put_words(b" not written\n", text)
}

/// Writes how many pages a line that ends in this state left unwritten for want of slots.
fn put_unwritten(left: u32, life: &Life, text: &mut Vec<u8>) -> Result<(), NoMemory>
    ensures { OnOk result (text.new.items
        ≡ text.old.items ++ unwritten_text left (life_of life.now)) }
{
    if lacks_slots(left, life) {
        put_unwritten_row(modified_pages(life), text)
    } else {
        Ok(())
    }
}

/// Writes that in front of a move that begins the next line; `left` is how many write-outs the line
/// may begin yet. The only error is that memory is refused; then a part may have been written.
pub(crate) fn put_unwritten_before(
    left: u32,
    life: &Life,
    m: &Move,
    text: &mut Vec<u8>,
) -> Result<(), NoMemory>
    ensures { OnOk result (text.new.items
        ≡ text.old.items ++ unwritten_before left (life_of life.now) m.now) }
{
    match *m {
        Move::At(_, _) => put_unwritten(left, life, text),
        _ => Ok(()),
    }
}

/// Writes that behind a log that is whole. The only error is that memory is refused; then a part
/// may have been written.
pub(crate) fn put_unwritten_end(
    whole: bool,
    left: u32,
    life: &Life,
    text: &mut Vec<u8>,
) -> Result<(), NoMemory>
    ensures { OnOk result (text.new.items
        ≡ text.old.items ++ unwritten_end whole left (life_of life.now)) }
{
    if whole {
        put_unwritten(left, life, text)
    } else {
        Ok(())
    }
}
