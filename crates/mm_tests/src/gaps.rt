ghost use Rattle.std.specs.Prelude.{◌<◌};

use mm_types::{NoMemory, Vpn};
use mm_vad::{Counter, Gaps, Steps};
use std::process::Abort;

/// Takes `n` pages from `first` on, which are free.
fn take(rt: &impl Abort, gaps: &mut Gaps, first: u32, n: u32) -> Result<(), NoMemory> {
    assert!(rt; 0 < n);
    let free = gaps.is_free(Vpn(first), n);
    assert!(rt; free);
    match gaps.reserve() {
        Ok(()) => gaps.insert(Vpn(first), n),
        Err(e) => return Err(e),
    }
    Ok(())
}

/// Gives the range that begins at `first` free.
fn give(rt: &impl Abort, gaps: &mut Gaps, first: u32) {
    let begun = gaps.is_begun_at(Vpn(first));
    assert!(rt; begun);
    gaps.remove(Vpn(first));
}

fn assert_at(rt: &impl Abort, gaps: &Gaps, page: u32, wanted: Option<(Vpn, u32)>) {
    assert_eq!(rt; gaps.at(Vpn(page)), wanted);
}

fn assert_next(rt: &impl Abort, gaps: &Gaps, page: u32, wanted: Option<(Vpn, u32)>) {
    assert_eq!(rt; gaps.first_from(Vpn(page)), wanted);
}

fn assert_gap(rt: &impl Abort, gaps: &Gaps, steps: &mut Steps<Counter>, n: u32, wanted: u32)
    requires { 0 < n }
{
    assert_eq!(rt; gaps.lowest_gap(n, steps), Some(Vpn(wanted)));
}

#[test]
fn two_ranges(rt: HostRuntime) -> Result<(), NoMemory> {
    let mut gaps = Gaps::new(rt.alloc());
    take(&rt, &mut gaps, 0x10, 16)?;
    take(&rt, &mut gaps, 0x30, 16)?;
    assert_at(&rt, &gaps, 0x1F, Some((Vpn(0x10), 16)));
    assert_at(&rt, &gaps, 0x20, None);
    assert_next(&rt, &gaps, 0x11, Some((Vpn(0x30), 16)));
    assert_next(&rt, &gaps, 0x31, None);
    let mut steps = Steps::new(Counter { steps: 0 });
    assert_gap(&rt, &gaps, &mut steps, 16, 0x20);
    assert_gap(&rt, &gaps, &mut steps, 17, 0x40);
    give(&rt, &mut gaps, 0x10);
    assert_gap(&rt, &gaps, &mut steps, 17, 0x10);
    assert_at(&rt, &gaps, 0x1F, None);
    let visited = steps.finish().steps;
    assert!(rt; 0 < visited && visited < 10);
    Ok(())
}
