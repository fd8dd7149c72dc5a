ghost use Rattle.std.specs.Prelude.{◌≡◌, IfOk};
ghost use Rattle.mm_replay.specs.{frames_on};
ghost use Rattle.mm_replay.specs.Standing.{life as life_of};
ghost use Rattle.mm_reports.specs.Listing.{AreListsOf};

use mm_replay::{FrameList, Life};
use mm_types::NoMemory;
use std::alloc::Global;

/// The frames on the four lists, the one that stands there longest first.
#[derive(Drop)]
pub(crate) struct FrameLists {
    pub(crate) zeroed: Vec<u32>,
    pub(crate) free: Vec<u32>,
    pub(crate) standby: Vec<u32>,
    pub(crate) modified: Vec<u32>,
}

/// The frames on a list, the one that stands there longest first.
#[tactic(auto, using(crate::proofs::Walks::walks))]
fn frames_on(alloc: Global, life: &Life, list: FrameList) -> Result<Vec<u32>, NoMemory>
    ensures { IfOk result (λ v. v.items ≡ frames_on (life_of life.now).frames list) }
{
    let mut frames = Vec::new(alloc);
    let mut next = life.first_on(list);
    for n in 0..life.list_len(list) {
        match next {
            Some(frame) => {
                frames.push(frame.0)?;
                next = life.next_on_list(frame);
            }
            None => return Ok(frames),
        }
    }
    Ok(frames)
}

/// The frames with a request, the oldest first.
#[tactic(auto, using(crate::proofs::Walks::walks))]
pub(crate) fn requests(alloc: Global, life: &Life) -> Result<Vec<u32>, NoMemory>
    ensures { IfOk result (λ v. v.items ≡ (life_of life.now).flight) }
{
    let mut frames = Vec::new(alloc);
    let mut next = life.first_request();
    for n in 0..life.requests() {
        match next {
            Some(frame) => {
                frames.push(frame.0)?;
                next = life.next_request(frame);
            }
            None => return Ok(frames),
        }
    }
    Ok(frames)
}

/// The four lists.
pub(crate) fn frame_lists(alloc: Global, life: &Life) -> Result<FrameLists, NoMemory>
    ensures { IfOk result (λ s. AreListsOf (life_of life.now).frames s) }
{
    let zeroed = frames_on(alloc, life, FrameList::Zeroed)?;
    let free = frames_on(alloc, life, FrameList::Free)?;
    let standby = frames_on(alloc, life, FrameList::Standby)?;
    let modified = frames_on(alloc, life, FrameList::Modified)?;
    Ok(FrameLists {
        zeroed,
        free,
        standby,
        modified,
    })
}
