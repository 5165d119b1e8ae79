//! Histories that are trimmed: each stripe's new base wants room, and so do the calls behind a trim.
use super::calls::{Answer, Call, ONE_EVICTED, ONE_RESCUED};
use super::rows::{BEHIND, FULL, eight, run_each, run_each_in};
use super::steps::{Step, run};
use mc_classes::{ClassId, Config};
use std::alloc::Global;
use std::process::Abort;
use std::sync::Wait;
use std::test::Fail;
use testlib_values::FOUR_CLASSES;

/// Each stripe is trimmed.
const TRIMS: Step = (Call::Trim, Answer::Done);

/// Trims before, between and behind calls on four stripes.
const TRIMMED: [Step; 12] = [
    TRIMS,
    (Call::Set(1, 3), Answer::Done),
    (Call::Set(2, 3), Answer::Done),
    (Call::Set(3, 3), Answer::Done),
    (Call::Set(5, 3), Answer::Done),
    (Call::Get(4), Answer::There(false)),
    TRIMS,
    (Call::Delete(5), Answer::There(true)),
    TRIMS,
    (Call::Touch(1), Answer::There(true)),
    (Call::Touch(5), Answer::There(false)),
    TRIMS,
];

#[test]
fn stripes_are_trimmed_one_after_another(rt: HostRuntime) -> Result<(), Fail> {
    run(&rt, rt.alloc(), &FOUR_CLASSES, &TRIMMED)
}

/// Trims before, in and behind a move.
const MOVED: [Step; 9] = [
    TRIMS,
    (Call::Delete(8), Answer::There(true)),
    (Call::Reassign(Some(4), 1), Answer::Done),
    TRIMS,
    (Call::Turn, ONE_RESCUED),
    TRIMS,
    (Call::Touch(2), Answer::There(true)),
    (Call::Touch(1), Answer::There(false)),
    (Call::Survey(true), Answer::Surveyed(false, [1, 1, 1, 0])),
];

#[test]
fn a_move_goes_on_behind_trims(rt: HostRuntime) -> Result<(), Fail> {
    run_each(&rt, rt.alloc(), &[&eight(61), &MOVED])
}

/// A page begins to move to this class, or to the pool for 0; then the full histories and the ledger are trimmed.
fn begin_and_trim(dst: ClassId) -> [Step; 2] {
    [(Call::Reassign(Some(4), dst), Answer::Done), TRIMS]
}

/// The turn that ends the move takes no memory behind the trim: the calls that it records have room, and so has the move's end.
/// Without the trim the same turn is refused.
const ENDS: [Step; 2] = [(Call::TurnWithoutMemory, ONE_RESCUED), TRIMS];

/// A page moves to this class, or to the pool for 0, and the move ends by that turn.
fn end_without_memory<R: Abort + Wait + Print>(
    rt: &R,
    alloc: Global,
    dst: ClassId,
) -> Result<(), Fail> {
    let begins = begin_and_trim(dst);
    run_each(rt, alloc, &[&eight(61), &FULL, &begins, &ENDS, &BEHIND])
}

#[test]
fn a_move_to_a_class_ends_without_memory_behind_a_trim(rt: HostRuntime) -> Result<(), Fail> {
    end_without_memory(&rt, rt.alloc(), 1)
}

#[test]
fn a_move_to_the_pool_ends_without_memory_behind_a_trim(rt: HostRuntime) -> Result<(), Fail> {
    end_without_memory(&rt, rt.alloc(), 0)
}

/// The configuration `FOUR_CLASSES`, but a turn looks at one chunk.
const ONE_A_TURN: Config = Config {
    bulk: 1,
    ..FOUR_CLASSES
};

/// Two turns, which take no memory: one rescues an item, and one evicts the other and ends the move. There is a trim behind each.
const CHUNK_BY_CHUNK: [Step; 4] = [
    (Call::TurnWithoutMemory, Answer::Went([1, 1, 0, 0, 0])),
    TRIMS,
    (Call::TurnWithoutMemory, ONE_EVICTED),
    TRIMS,
];

#[test]
fn each_turn_of_a_move_goes_without_memory_behind_a_trim(rt: HostRuntime) -> Result<(), Fail> {
    let alloc = rt.alloc();
    let begins = begin_and_trim(1);
    run_each_in(
        &rt,
        alloc,
        &ONE_A_TURN,
        &[&eight(61), &FULL, &begins, &CHUNK_BY_CHUNK, &BEHIND],
    )
}
