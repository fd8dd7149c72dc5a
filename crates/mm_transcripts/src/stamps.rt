ghost use Rattle.std.specs.Prelude.{◌≡◌, OnOk, OnErr, None, Some, slice_index};
ghost use Rattle.indexmap.specs.IndexMap.{get};
ghost use Rattle.mm_move_rules.specs.{same_place};
ghost use Rattle.mm_transcripts.specs.{at_place, at_thread, older_of, AreTouchedBefore, age_by_stamp, one_age_more, same_thread};

use indexmap::IndexMap;
use mm_types::{NoMemory, Pid, Place, Tid};

/// The number that stands beside a page; `None` where it is not valid.
pub(crate) fn stamp_of(stamps: &IndexMap<Place, u64>, place: Place) -> Option<u64>
    ensures { result ≡ get same_place stamps.now place }
{
    stamps.get(&place).copied()
}

/// A page is valid, with this number beside it.
#[tactic(auto, using(crate::proofs::Kept::kept))]
pub(crate) fn set_stamp(
    stamps: &mut IndexMap<Place, u64>,
    place: Place,
    stamp: u64,
) -> Result<(), NoMemory>
    ensures ok { OnOk result (get same_place stamps.new
        ≡ at_place place (Some stamp) (get same_place stamps.old)) }
    ensures err { OnErr result (get same_place stamps.new ≡ get same_place stamps.old) }
{
    stamps.insert(place, stamp)?;
    Ok(())
}

/// A page is valid no more.
#[tactic(auto, using(crate::proofs::Kept::kept))]
pub(crate) fn remove_stamp(stamps: &mut IndexMap<Place, u64>, place: Place)
    ensures { get same_place stamps.new ≡ at_place place None (get same_place stamps.old) }
{
    stamps.swap_remove(&place);
}

/// The page of the access that a thread keeps.
pub(crate) fn kept_by(kept: &IndexMap<Tid, Place>, tid: Tid) -> Option<Place>
    ensures { result ≡ get same_thread kept.now tid }
{
    kept.get(&tid).copied()
}

/// A thread keeps an access to this page.
#[tactic(auto, using(crate::proofs::Kept::kept))]
pub(crate) fn set_kept(
    kept: &mut IndexMap<Tid, Place>,
    tid: Tid,
    place: Place,
) -> Result<(), NoMemory>
    ensures { OnOk result (get same_thread kept.new
        ≡ at_thread tid (Some place) (get same_thread kept.old)) }
{
    kept.insert(tid, place)?;
    Ok(())
}

/// How many `age` lines of a process there were.
pub(crate) fn count_of(counts: &[u64; 256], pid: Pid) -> u64
    ensures { result ≡ slice_index counts.now pid.0 }
{
    counts[pid.0 as usize]
}

/// One more. Memory is refused where they can no longer be counted.
#[tactic(auto, using(crate::proofs::Kept::counted))]
pub(crate) fn count_line(counts: &mut [u64; 256], pid: Pid) -> Result<(), NoMemory>
    ensures ok { OnOk result
        (slice_index counts.new ≡ one_age_more pid.0 (slice_index counts.old)) }
    ensures err { OnErr result (counts.new ≡ counts.old) }
{
    let count = counts[pid.0 as usize];
    if count == u64::MAX {
        return Err(NoMemory);
    }
    counts[pid.0 as usize] = count + 1;
    Ok(())
}

/// A page was touched now.
#[tactic(auto, using(crate::proofs::Aged::aged))]
pub(crate) fn touch_page(
    stamps: &mut IndexMap<Place, u64>,
    counts: &[u64; 256],
    place: Place,
) -> Result<(), NoMemory>
    ensures earlier { AreTouchedBefore (slice_index counts.now) (get same_place stamps.old)
        → AreTouchedBefore (slice_index counts.now) (get same_place stamps.new) }
    ensures age { OnOk result (age_by_stamp (slice_index counts.now) (get same_place stamps.new)
        ≡ at_place place (Some 0)
        (age_by_stamp (slice_index counts.now) (get same_place stamps.old))) }
{
    set_stamp(stamps, place, count_of(counts, place.pid))
}

/// A page is valid no more.
#[tactic(auto, using(crate::proofs::Aged::aged))]
pub(crate) fn drop_page(stamps: &mut IndexMap<Place, u64>, counts: &[u64; 256], place: Place)
    ensures earlier { AreTouchedBefore (slice_index counts.now) (get same_place stamps.old)
        → AreTouchedBefore (slice_index counts.now) (get same_place stamps.new) }
    ensures age { age_by_stamp (slice_index counts.now) (get same_place stamps.new)
        ≡ at_place place None (age_by_stamp (slice_index counts.now) (get same_place stamps.old)) }
{
    remove_stamp(stamps, place);
}

/// The pages of a process are one older.
#[tactic(auto, using(crate::proofs::Aged::aged))]
pub(crate) fn make_older(
    stamps: &IndexMap<Place, u64>,
    counts: &mut [u64; 256],
    pid: Pid,
) -> Result<(), NoMemory>
    ensures earlier { AreTouchedBefore (slice_index counts.old) (get same_place stamps.now)
        → AreTouchedBefore (slice_index counts.new) (get same_place stamps.now) }
    ensures age { AreTouchedBefore (slice_index counts.old) (get same_place stamps.now)
        → OnOk result (age_by_stamp (slice_index counts.new) (get same_place stamps.now)
        ≡ older_of pid (age_by_stamp (slice_index counts.old) (get same_place stamps.now))) }
{
    count_line(counts, pid)
}
