use mm_commit_charge::{Commit, OverLimit};
use mm_devices::{BlockDevice, MemBlocks};
use mm_page_lists::Lists;
use mm_requests::Flight;
use mm_types::{Failed, Frame, OpenFault, Tid, Wait};
use std::test::Fail;

/// The calls in the list fail, and change nothing.
#[test]
fn a_device_fails_the_calls_in_its_list(rt: HostRuntime) -> Result<(), Fail> {
    let mut fails = Vec::new(rt.alloc());
    for call in [2, 4] {
        fails.push(call)?;
    }
    let mut device = MemBlocks::new(rt.alloc(), fails, 2)?;
    assert!(rt; device.open(3).is_ok());
    assert_eq!(rt; device.extend(1), Err(OpenFault::Failed));
    assert_eq!(rt; device.count(), 3);
    assert!(rt; device.extend(1).is_ok());
    assert_eq!(rt; device.count(), 4);
    assert!(rt; device.write(0, &[7; 4096]) == Err(Failed));
    assert_eq!(rt; device.block(0)[0], 0);
    Ok(())
}

fn over(charge: u32, limit: u32) -> Result<(), OverLimit> {
    Err(OverLimit { charge, limit })
}

/// A charge that would pass the limit is refused whole, also at the ends of the numbers' type.
#[test]
fn a_charge_stops_at_its_limit(rt: HostRuntime) -> Result<(), Fail> {
    let mut commit = Commit::new(10);
    assert!(rt; commit.charge(11) == over(0, 10));
    assert!(rt; commit.charge(10).is_ok());
    assert!(rt; commit.charge(1) == over(10, 10));
    commit.refund(3);
    assert!(rt; commit.charge(4) == over(7, 10));
    commit.raise(1);
    assert!(rt; commit.charge(4).is_ok());
    assert_eq!(rt; (commit.now(), commit.limit()), (11, 11));
    let mut greatest = Commit::new(u32::MAX);
    assert!(rt; greatest.charge(u32::MAX).is_ok());
    assert!(rt; greatest.charge(u32::MAX) == over(u32::MAX, u32::MAX));
    assert!(rt; greatest.charge(0).is_ok());
    Ok(())
}

/// As many requests as the depth allows, the oldest first; a thread waits for one that fails.
#[test]
fn as_many_requests_as_the_depth(rt: HostRuntime) -> Result<(), Fail> {
    let mut flight = Flight::new(rt.alloc(), 2)?;
    flight.begin(Frame(5));
    flight.begin(Frame(3));
    assert_eq!(rt; flight.len(), 2);
    assert!(rt; flight.nth(1) == Some(Frame(5)));
    assert!(rt; flight.nth(2) == Some(Frame(3)));
    assert!(rt; flight.nth(0).is_none() && flight.nth(3).is_none());
    assert_eq!(rt; flight.place_of(Frame(3)), Some(2));
    assert_eq!(rt; flight.place_of(Frame(4)), None);
    flight.wait(Tid(255), Frame(5));
    flight.end(Frame(5), false);
    assert!(rt; flight.outcome(Tid(255)) == Wait::Failed);
    assert!(rt; flight.outcome(Tid(0)) == Wait::None);
    flight.forget(Tid(255));
    assert!(rt; flight.outcome(Tid(255)) == Wait::None);
    flight.begin(Frame(6));
    assert!(rt; flight.nth(1) == Some(Frame(3)));
    Ok(())
}

/// Every number on one list, in the order in which they came.
#[test]
fn all_numbers_on_one_list(rt: HostRuntime) -> Result<(), Fail> {
    let mut lists = Lists::new(rt.alloc(), 3, 2)?;
    assert_eq!(rt; lists.pop_front(1), None);
    lists.push_back(1, 2);
    lists.push_back(1, 0);
    lists.push_back(1, 1);
    assert_eq!(rt; (lists.len(0), lists.len(1)), (0, 3));
    assert_eq!(rt; lists.front(1), Some(2));
    lists.unlink(0);
    lists.push_back(0, 0);
    assert_eq!(rt; lists.pop_front(1), Some(2));
    assert_eq!(rt; lists.pop_front(1), Some(1));
    assert_eq!(rt; lists.pop_front(1), None);
    assert_eq!(rt; lists.front(0), Some(0));
    Ok(())
}
