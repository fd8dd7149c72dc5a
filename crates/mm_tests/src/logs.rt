use crate::failing::checked;
use std::test::Fail;

/// A log of one line, whose source or sink fails.
#[test]
fn failing_sources_and_sinks(rt: HostRuntime) -> Result<(), Fail> {
    for (read_fails, write_fails, status) in [(1, 0, 4), (2, 0, 4), (0, 1, 5)] {
        let ended = checked(
            rt.alloc(),
            "at 1 machine 6 0 1 0\n",
            read_fails,
            write_fails,
        )?;
        assert_eq!(rt; ended, (status, 0));
    }
    Ok(())
}
