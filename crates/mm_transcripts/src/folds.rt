#![tactic(auto, using(mm_sentences::proofs::Joined::joined))]

ghost use Rattle.std.specs.Prelude.{◌≡◌, ◌++◌, None, OnOk, Some, option_map};
ghost use Rattle.mm_types.specs.declared.moves.Move.TheVariants as move;
ghost use Rattle.mm_transcripts.specs.{is_next_key, is_next_block, adds_next, folds_with_next, first_then, blocks_text, keys_text, fold_text, fold_row};

use mm_move_classes::Class;
use mm_sentences::{put_key, put_number, put_words};
use mm_types::{Block, Key, Move, NoMemory};

/// Whether a page is right behind another, of the same process or control area.
fn is_next_key(key: Key, next: Key) -> bool
    ensures { result ≡ is_next_key key next }
{
    match (key, next) {
        (Key::Private(pid, page), Key::Private(other, behind)) => {
            pid.0 == other.0 && u64::from(page.0) + 1 == u64::from(behind.0)
        }
        (Key::Shared(area, index), Key::Shared(other, behind)) => {
            area.0 == other.0 && u64::from(index) + 1 == u64::from(behind)
        }
        _ => false,
    }
}

/// Whether a block is right behind another, or there are none.
fn is_next_block(block: Option<Block>, next: Option<Block>) -> bool
    ensures { result ≡ is_next_block block next }
{
    match (block, next) {
        (None, None) => true,
        (Some(block), Some(next)) => u64::from(block.0) + 1 == u64::from(next.0),
        _ => false,
    }
}

fn adds_next(m: &Move, next: &Move) -> bool
    ensures { result ≡ adds_next m.now next.now }
{
    match (*m, *next) {
        (Move::Add(key, block), Move::Add(behind, after)) => {
            is_next_key(key, behind) && is_next_block(block, after)
        }
        _ => false,
    }
}

/// Whether a page comes to be by a move of this class, and right behind it the next.
pub(crate) fn folds_with_next(class: Option<Class>, m: &Move, next: Option<&Move>) -> bool
    ensures { result ≡ folds_with_next class m.now (option_map (λ n. n.now) next.entry) }
{
    match (class, next) {
        (Some(Class::DemandZeroAdded), Some(next)) => adds_next(m, next),
        (Some(Class::FilePageAdded), Some(next)) => adds_next(m, next),
        _ => false,
    }
}

/// Keeps the first of the moves whose rows are one with that of the next move. Most moves have a
/// row of their own: nothing is written for them.
#[inline(always)]
pub(crate) fn keep_first(class: Option<Class>, m: &Move, next: &Move, first: &mut Option<Move>)
    ensures { first.new ≡ first_then class m.now (Some next.now) first.old }
{
    if folds_with_next(class, m, Some(next)) {
        *first = Some(first.unwrap_or(*m));
    } else if first.is_some() {
        *first = None;
    }
}

fn put_keys(first: Key, last: Key, text: &mut Vec<u8>) -> Result<(), NoMemory>
    ensures { OnOk result (text.new.items ≡ text.old.items ++ keys_text first last) }
{
    put_key(first, text)?;
    put_words(b" to ", text)?;
    put_key(last, text)
}

fn put_zero_pages(first: Key, last: Key, text: &mut Vec<u8>) -> Result<(), NoMemory>
    ensures { OnOk result (text.new.items ≡ text.old.items
        ++ fold_text (move.Add first None) (move.Add last None)) }
{
    put_words(b"pages ", text)?;
    put_keys(first, last, text)?;
    put_words(b" come to be, demand-zero: no frame yet", text)
}

fn put_blocks(first: Block, last: Block, text: &mut Vec<u8>) -> Result<(), NoMemory>
    ensures { OnOk result (text.new.items ≡ text.old.items ++ blocks_text first last) }
{
    put_number(u64::from(first.0), text)?;
    put_words(b" to ", text)?;
    put_number(u64::from(last.0), text)
}

fn put_file_pages(
    first: Key,
    from: Block,
    last: Key,
    to: Block,
    text: &mut Vec<u8>,
) -> Result<(), NoMemory>
    ensures { OnOk result (text.new.items ≡ text.old.items
        ++ fold_text (move.Add first (Some from)) (move.Add last (Some to))) }
{
    put_words(b"file pages ", text)?;
    put_keys(first, last, text)?;
    put_words(b" come to be, their bytes in file blocks ", text)?;
    put_blocks(from, to, text)
}

/// Writes what is said of the moves from the first to the last, each of which goes on with the one
/// before it.
fn put_fold(first: &Move, last: &Move, text: &mut Vec<u8>) -> Result<(), NoMemory>
    ensures { OnOk result (text.new.items ≡ text.old.items ++ fold_text first.now last.now) }
{
    match (*first, *last) {
        (Move::Add(key, None), Move::Add(behind, None)) => put_zero_pages(key, behind, text),
        (Move::Add(key, Some(from)), Move::Add(behind, Some(to))) => {
            put_file_pages(key, from, behind, to, text)
        }
        _ => Ok(()),
    }
}

/// Writes the row of such moves.
pub(crate) fn put_fold_row(first: &Move, last: &Move, text: &mut Vec<u8>) -> Result<(), NoMemory>
    ensures { OnOk result (text.new.items ≡ text.old.items ++ fold_row first.now last.now) }
{
    put_words(b"     ", text)?;
    put_fold(first, last, text)?;
    put_words(b"\n", text)
}
