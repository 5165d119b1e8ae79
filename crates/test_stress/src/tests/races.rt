//! The tests of what `testlib_threads` has.
use std::test::Fail;

#[test]
fn lost_hands_cost_what_they_had(rt: HostRuntime) -> Result<(), Fail> {
    testlib_threads::lost_hands_cost_what_they_had(&rt, rt.alloc())
}

#[test]
fn what_is_kept_is_read_beside_two_movers(rt: HostRuntime) -> Result<(), Fail> {
    testlib_threads::what_is_kept_is_read_beside_two_movers(&rt, rt.alloc())
}
