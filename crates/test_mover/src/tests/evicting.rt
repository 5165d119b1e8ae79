//! Pages that move while their class has no other chunk: their items are evicted.
ghost use Rattle.testlib_hands.specs.Pairs.{AreReady};

use super::steps::Step;
use mc_classes::{ClassId, Config};
use mc_stripe::Key;
use std::alloc::Global;
use std::sync::Wait;
use std::test::Fail;
use testlib_hands::{FOUR_CLASSES, Two, play_all, play_two, run};

/// The configuration `FOUR_CLASSES`, but a turn looks at one chunk.
const ONE_A_TURN: Config = Config {
    bulk: 1,
    ..FOUR_CLASSES
};

/// Items of the keys from 1 on, before this one, fill pages of class 4, of which one goes to this class or to the pool, without its two
/// items. Then these calls follow.
fn evict_page<R: Wait>(
    rt: &R,
    alloc: Global,
    two: &mut Two,
    end: Key,
    dst: ClassId,
    behind: &[Step],
) -> Result<(), Fail>
    requires { AreReady two.old }
{
    let Two { arena, hand, .. } = two;
    let steps = [
        Step::Sets(1, end, 61),
        Step::Reassigns(Some(4), dst, Ok(())),
        Step::Finishes(2, 0, 2, 0, 0),
    ];
    play_all(rt, alloc, arena, hand, &steps)?;
    play_all(rt, alloc, arena, hand, behind)?;
    Ok(())
}

#[test]
fn a_page_comes_to_another_class(rt: HostRuntime) -> Result<(), Fail> {
    let behind = [
        Step::Pages(4, 0, false),
        Step::Moved(1, 0, 2, 0),
        Step::Has(1, 1, 0, 21),
        Step::Has(2, 0, 0, 0),
        Step::Has(3, 0, 0, 0),
        Step::Has(4, 3, 6, 0),
    ];
    play_two!(rt, evict_page, 9, 1, &behind)
}

#[test]
fn with_bulk_1_a_turn_looks_at_one_chunk(rt: HostRuntime) -> Result<(), Fail> {
    let steps = [
        Step::Sets(1, 9, 61),
        Step::Reassigns(Some(4), 1, Ok(())),
        Step::Goes(1, 0, 1, 0, 0),
        Step::Finishes(1, 0, 1, 0, 0),
    ];
    run(&rt, rt.alloc(), &ONE_A_TURN, &steps)
}

#[test]
fn a_page_of_the_pool_goes_to_the_class_that_needs_one(rt: HostRuntime) -> Result<(), Fail> {
    let behind = [
        Step::Pages(2, 1, false),
        Step::Has(4, 1, 2, 0),
        Step::Sets(9, 10, 3),
        Step::Pages(2, 0, false),
        Step::Has(1, 1, 1, 20),
    ];
    play_two!(rt, evict_page, 5, 0, &behind)
}
