//! Allowed rounds, against numbers from outside.

use crate::allowed;
use std::test::Fail;

#[test]
fn rounds_are_allowed(rt: HostRuntime) -> Result<(), Fail> {
    for (rounds, pages, want) in [
        (1_000_000, 1, 1_000_000),
        (1_000_000, 5, 975_609),
        (1_000_000, 63, 79_207),
        (7, 63, 7),
    ] {
        assert_eq!(rt; allowed(rounds, pages), want, "at {pages}");
    }
    Ok(())
}
