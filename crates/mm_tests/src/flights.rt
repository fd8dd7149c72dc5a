use mm_requests::Flight;
use std::test::Fail;

/// What no program asks.
#[test]
fn no_request_is_in_flight(rt: HostRuntime) -> Result<(), Fail> {
    let flight = Flight::new(rt.alloc(), 1)?;
    assert!(rt; flight.is_empty());
    Ok(())
}
