//! Pages that move while their class has other chunks: items are taken there.
use super::steps::Step;
use mc_pages::Reassign;
use std::test::Fail;
use testlib_hands::{FOUR_CLASSES, run};

#[test]
fn an_item_is_taken_to_a_dead_chunk_of_its_class(rt: HostRuntime) -> Result<(), Fail> {
    let steps = [
        Step::Sets(1, 9, 61),
        Step::Deletes(8),
        Step::Reassigns(Some(4), 1, Ok(())),
        Step::Finishes(2, 1, 1, 0, 0),
        Step::Touches(2, true),
        Step::Touches(1, false),
    ];
    run(&rt, rt.alloc(), &FOUR_CLASSES, &steps)
}

#[test]
fn a_rescued_item_keeps_its_words_and_its_age(rt: HostRuntime) -> Result<(), Fail> {
    let steps = [
        Step::Sets(1, 9, 61),
        Step::Deletes(8),
        Step::Reassigns(Some(4), 1, Ok(())),
        Step::Finishes(2, 1, 1, 0, 0),
        Step::Reads(2, 1, 61),
        Step::Sets(9, 10, 61),
        Step::Touches(2, false),
        Step::Touches(3, true),
    ];
    run(&rt, rt.alloc(), &FOUR_CLASSES, &steps)
}

#[test]
fn the_pick_goes_from_class_to_class(rt: HostRuntime) -> Result<(), Fail> {
    let steps = [
        Step::Sets(1, 5, 61),
        Step::Sets(11, 17, 20),
        Step::Reassigns(None, 9, Err(Reassign::BadClass)),
        Step::Reassigns(None, 1, Ok(())),
        Step::Finishes(5, 4, 1, 0, 0),
        Step::Reassigns(None, 1, Ok(())),
        Step::Finishes(2, 0, 2, 0, 0),
        Step::Moved(2, 4, 3, 0),
        Step::Touches(11, false),
        Step::Touches(12, true),
        Step::Touches(15, true),
        Step::Touches(16, true),
    ];
    run(&rt, rt.alloc(), &FOUR_CLASSES, &steps)
}
