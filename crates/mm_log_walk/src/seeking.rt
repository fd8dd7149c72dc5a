ghost use Rattle.std.specs.Prelude.{◌≡◌, ◌++◌, OnOk};
ghost use Rattle.mm_replay.specs.Standing.{life as life_of};
ghost use Rattle.mm_log_walk.specs.Seeking.{lacks, sought_text, sought_words, sought_status};

use crate::answers::put_numbered;
use mm_replay::Life;
use mm_types::NoMemory;

/// What a log has to have for what is asked of it.
#[derive(Clone, Copy)]
pub enum Sought {
    /// Nothing that a log could lack.
    Nothing,
    /// The line of this number, from 1 on.
    Line(u32),
    /// The page frame of this number.
    Frame(u32),
}

/// Whether a log that ends in this state has not what is sought.
pub(crate) fn lacks(sought: Sought, life: &Life) -> bool
    ensures { result ≡ lacks sought (life_of life.now) }
{
    match sought {
        Sought::Nothing => false,
        Sought::Line(n) => life.line() < n,
        Sought::Frame(n) => life.frames() <= n,
    }
}

/// The status of a log that replays and ends in this state.
pub(crate) fn sought_status(sought: Sought, life: &Life) -> u8
    ensures { result ≡ sought_status sought (life_of life.now) }
{
    if lacks(sought, life) { 6 } else { 0 }
}

/// Writes that a log has no such line or page frame.
fn put_sought(sought: Sought, text: &mut Vec<u8>) -> Result<(), NoMemory>
    ensures { OnOk result (text.new.items ≡ text.old.items ++ sought_text sought) }
{
    match sought {
        Sought::Nothing => Ok(()),
        Sought::Line(n) => put_numbered(b"no such line ", u64::from(n), text),
        Sought::Frame(n) => put_numbered(b"no such frame ", u64::from(n), text),
    }
}

/// Writes what a log that ends in this state has not, if it lacks what is sought.
pub(crate) fn put_lacking(sought: Sought, life: &Life, text: &mut Vec<u8>) -> Result<(), NoMemory>
    ensures { OnOk result (text.new.items
        ≡ text.old.items ++ sought_words sought (life_of life.now)) }
{
    if lacks(sought, life) {
        put_sought(sought, text)
    } else {
        Ok(())
    }
}
