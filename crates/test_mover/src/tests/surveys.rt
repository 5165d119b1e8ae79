//! Surveys: which put dead chunks back where that is asked for, and the mode that they read.
ghost use Rattle.testlib_hands.specs.Pairs.{AreReady};

use super::assert_same;
use super::steps::{Step, has_chunks};
use std::alloc::Global;
use std::process::Abort;
use std::sync::Wait;
use std::test::Fail;
use testlib_hands::{Chunks, FOUR_CLASSES, Two, play_all, play_two, run};

/// A page of two chunks, both of which are used.
const USED: Chunks = Chunks {
    pages: 1,
    used: 2,
    free: 0,
};

/// A page of two chunks, one of which is free.
const HALF_FREE: Chunks = Chunks {
    pages: 1,
    used: 1,
    free: 1,
};

/// Surveys with and without a sweep, of a class that has a dead chunk.
fn survey_beside_dead<R: Abort + Wait>(rt: &R, alloc: Global, two: &mut Two) -> Result<(), Fail>
    requires { AreReady two.old }
{
    let Two { arena, hand, other } = two;
    let steps = [Step::Sets(1, 3, 61), Step::Deletes(1)];
    play_all(rt, alloc, arena, hand, &steps)?;
    for (sweep, chunks) in [(false, USED), (true, HALF_FREE), (false, HALF_FREE)] {
        let found = has_chunks(rt, alloc, arena, other, sweep, 4, chunks);
        assert_same(rt, found, true, "class 4");
    }
    Ok(())
}

#[test]
fn a_survey_puts_dead_chunks_back_where_it_is_to(rt: HostRuntime) -> Result<(), Fail> {
    play_two!(rt, survey_beside_dead)
}

#[test]
fn a_survey_tells_the_mode(rt: HostRuntime) -> Result<(), Fail> {
    let steps = [
        Step::Pages(0, 0, false),
        Step::Modes(2),
        Step::Modes(1),
        Step::Modes(0),
    ];
    run(&rt, rt.alloc(), &FOUR_CLASSES, &steps)
}
