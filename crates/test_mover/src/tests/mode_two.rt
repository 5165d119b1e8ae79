//! The automover's mode 2: an eviction asks for a page for its class.
use super::steps::Step;
use std::test::Fail;
use testlib_hands::{FOUR_CLASSES, run};

#[test]
fn an_eviction_begins_a_move_to_its_class(rt: HostRuntime) -> Result<(), Fail> {
    let steps = [
        Step::Modes(2),
        Step::Sets(1, 5, 61),
        Step::Sets(11, 17, 20),
        Step::Pages(4, 0, false),
        Step::Sets(5, 6, 61),
        Step::Pages(4, 0, true),
        Step::Finishes(5, 4, 1, 0, 0),
        Step::Sets(6, 7, 61),
        Step::Touches(1, false),
        Step::Touches(2, true),
    ];
    run(&rt, rt.alloc(), &FOUR_CLASSES, &steps)
}
