ghost use Rattle.std.specs.Prelude.{◌<◌};

use mm_types::{END_OF_USER_PAGES, FIRST_USER_PAGE, NoMemory, Vpn};
use mm_vad::{Counter, Gaps, Steps};
use rand_core::utils::NextWord;
use rand_pcg::Lcg64Xsh32;
use std::process::Abort;
use std::test::Fail;

/// A range as a plain list has it: its first page, and how many pages it has.
type Range = (u32, u32);

/// The range that holds a page.
fn at(ranges: &[Range], page: u32) -> Option<(Vpn, u32)> {
    for &(first, n) in ranges {
        if first <= page && page - first < n {
            return Some((Vpn(first), n));
        }
    }
    None
}

/// The first range that begins at a page or above it.
fn first_from(ranges: &[Range], page: u32) -> Option<(Vpn, u32)> {
    let mut found: Option<Range> = None;
    for &(first, n) in ranges {
        let is_nearer = match found {
            Some((nearest, _)) => first < nearest,
            None => true,
        };
        if page <= first && is_nearer {
            found = Some((first, n));
        }
    }
    found.map(|(first, n)| (Vpn(first), n))
}

/// Whether so many user pages from `first` on are in no range.
fn is_free(ranges: &[Range], first: u32, n: u32) -> bool {
    let end = first.saturating_add(n);
    if first < FIRST_USER_PAGE || end > END_OF_USER_PAGES {
        return false;
    }
    for &(other, m) in ranges {
        if first < other.saturating_add(m) && other < end {
            return false;
        }
    }
    true
}

/// The first page of a granule of 16 pages, at a page or above it.
fn granule(page: u32) -> u32 {
    page.saturating_add(15) / 16 * 16
}

/// The lowest granule from which so many pages are free: a gap begins at the first user page or
/// where a range ends.
fn lowest_gap(ranges: &[Range], n: u32) -> Option<Vpn> {
    let mut lowest: Option<u32> = None;
    if is_free(ranges, FIRST_USER_PAGE, n) {
        return Some(Vpn(FIRST_USER_PAGE));
    }
    for &(first, m) in ranges {
        let page = granule(first.saturating_add(m));
        let is_lower = match lowest {
            Some(found) => page < found,
            None => true,
        };
        if is_lower && is_free(ranges, page, n) {
            lowest = Some(page);
        }
    }
    lowest.map(Vpn)
}

/// Whether a search among n ranges visits few nodes: 2 to the power of the visits is at most the
/// cube of n + 2.
fn are_few(visits: u64, n: usize) -> bool {
    let most = (n as u64).saturating_add(2);
    let mut power = 1u64;
    for _ in 0..visits.min(64) {
        power = power.saturating_mul(2);
    }
    power <= most.saturating_mul(most).saturating_mul(most)
}

/// The tree and the list after some steps, and what the steps are drawn from.
#[derive(Drop)]
struct Drawn {
    gaps: Gaps,
    ranges: Vec<Range>,
    words: Lcg64Xsh32,
}

/// A number below n.
fn draw(words: &mut Lcg64Xsh32, n: u32) -> u32
    requires { 0 < n }
    ensures { result < n }
{
    words.next_word() % n
}

/// Compares what a page and a length answer.
fn compare(rt: &impl Abort, drawn: &Drawn, page: u32, n: u32)
    requires { 0 < n }
{
    let ranges = drawn.ranges.as_slice();
    assert_eq!(rt; drawn.gaps.at(Vpn(page)), at(ranges, page));
    assert_eq!(rt; drawn.gaps.first_from(Vpn(page)), first_from(ranges, page));
    assert_eq!(rt; drawn.gaps.is_free(Vpn(page), n), is_free(ranges, page, n));
    let mut steps = Steps::new(Counter { steps: 0 });
    assert_eq!(rt; drawn.gaps.lowest_gap(n, &mut steps), lowest_gap(ranges, n));
    let visits = steps.finish().steps;
    assert!(rt; are_few(visits, ranges.len()));
}

/// Takes a range where both say that it is free, or gives one free.
fn change(drawn: &mut Drawn, page: u32, n: u32) -> Result<(), NoMemory>
    requires { 0 < n }
{
    if drawn.gaps.is_free(Vpn(page), n) {
        drawn.gaps.reserve()?;
        drawn.gaps.insert(Vpn(page), n);
        drawn.ranges.push((page, n))?;
    } else if let Some((first, _)) = drawn.gaps.at(Vpn(page)) {
        if drawn.gaps.is_begun_at(first) {
            drawn.gaps.remove(first);
            drawn.ranges.retain(|range| range.0 != first.0);
        }
    }
    Ok(())
}

/// Twelve hundred drawn steps among at most 4,096 pages, and among all of them.
#[test]
fn a_tree_is_as_a_plain_list(rt: HostRuntime) -> Result<(), Fail> {
    for seed in 0..4 {
        let mut drawn = Drawn {
            gaps: Gaps::new(rt.alloc()),
            ranges: Vec::new(rt.alloc()),
            words: Lcg64Xsh32::new(seed, 54),
        };
        let span = if seed % 2 == 0 {
            4096
        } else {
            END_OF_USER_PAGES
        };
        for _ in 0..300 {
            let page = draw(&mut drawn.words, span);
            let n = 1 + draw(&mut drawn.words, 24);
            change(&mut drawn, page, n)?;
            compare(&rt, &drawn, page, n);
        }
        assert!(rt; drawn.ranges.len() > 30);
    }
    Ok(())
}
