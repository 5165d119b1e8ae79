//! Moves that are refused.
ghost use Rattle.testlib_hands.specs.Pairs.{AreReady};

use super::steps::Step;
use mc_pages::Reassign;
use std::alloc::Global;
use std::sync::Wait;
use std::test::Fail;
use testlib_hands::{FOUR_CLASSES, Two, get_key, play_all, play_two, run};

#[test]
fn refusals_come_in_their_order(rt: HostRuntime) -> Result<(), Fail> {
    let steps = [
        Step::Sets(1, 2, 61),
        Step::Reassigns(Some(4), 4, Err(Reassign::Same)),
        Step::Reassigns(Some(0), 0, Err(Reassign::Same)),
        Step::Reassigns(Some(9), 9, Err(Reassign::Same)),
        Step::Reassigns(Some(9), 1, Err(Reassign::BadClass)),
        Step::Reassigns(Some(0), 1, Err(Reassign::BadClass)),
        Step::Reassigns(Some(4), 9, Err(Reassign::BadClass)),
        Step::Reassigns(None, 1, Err(Reassign::BadClass)),
        Step::Reassigns(Some(4), 1, Err(Reassign::NoSpare)),
        Step::Reassigns(Some(3), 1, Err(Reassign::NoSpare)),
        Step::Idles,
        Step::Pages(1, 0, false),
        Step::Has(4, 1, 1, 1),
    ];
    run(&rt, rt.alloc(), &FOUR_CLASSES, &steps)
}

/// Moves are asked for while one page moves, whose item the reader holds.
fn ask_while_one_moves<R: Wait>(rt: &R, alloc: Global, two: &mut Two) -> Result<(), Fail>
    requires { AreReady two.old }
{
    let Two {
        arena,
        hand,
        other: reader,
    } = two;
    play_all(rt, alloc, arena, hand, &[Step::Sets(1, 9, 61)])?;
    if get_key(rt, arena, reader, 1).is_none() {
        return Err(Fail::new("the key has an item"));
    }
    let steps = [
        Step::Reassigns(Some(4), 1, Ok(())),
        Step::Reassigns(Some(4), 1, Err(Reassign::Busy)),
        Step::Reassigns(Some(4), 4, Err(Reassign::Busy)),
        Step::Reassigns(Some(9), 1, Err(Reassign::Busy)),
        Step::Reassigns(Some(3), 1, Err(Reassign::Busy)),
        Step::Goes(1, 0, 1, 1, 0),
        Step::Reassigns(None, 0, Err(Reassign::Busy)),
        Step::Goes(0, 0, 0, 1, 0),
        Step::Moved(0, 0, 1, 2),
    ];
    play_all(rt, alloc, arena, hand, &steps)?;
    Ok(())
}

#[test]
fn one_page_moves_at_a_time(rt: HostRuntime) -> Result<(), Fail> {
    play_two!(rt, ask_while_one_moves)
}
