ghost use Rattle.std.specs.Prelude.{◌≡◌, false, IfOk, option_map, replicate, slice_index_or, slice_set};
ghost use Rattle.mm_replay.specs.{frame};

use mm_types::{Frame, NoMemory};
use std::alloc::Global;

/// A place has this value from now on.
pub(crate) fn put<T: Drop>(place: &mut T, value: T)
    ensures { place.new ≡ value }
{
    *place = value;
}

/// So many flags, all alike.
pub(crate) fn flags(alloc: Global, count: u32, flag: bool) -> Result<Vec<bool>, NoMemory>
    ensures { IfOk result (λ v. v.items ≡ replicate count flag) }
{
    Ok(vec![in alloc; flag; count as usize]?)
}

/// A flag; that is not set, where there is no such place.
pub(crate) fn flag_at(flags: &[bool], at: u32) -> bool
    ensures { result ≡ slice_index_or flags.now at false }
{
    matches!(flags.get(at as usize), Some(flag) if *flag)
}

/// Sets what stands at a place, where there is such a place.
pub(crate) fn set_at<T: Copy + Drop>(items: &mut Vec<T>, at: u32, value: T)
    ensures { items.new.items ≡ slice_set items.old.items at value }
{
    let at = at as usize;
    if at < items.len() {
        items[at] = value;
    }
}

/// The frame of a number, if there is one.
pub(crate) fn framed(number: Option<u32>) -> Option<Frame>
    ensures { result ≡ option_map frame number }
{
    Some(Frame(number?))
}
