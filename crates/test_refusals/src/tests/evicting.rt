//! Sets that evict: the room for the eviction's call may be refused, and then the room for their own, once the item is gone.
use super::calls::{Answer, Call};
use super::rows::{BEGINS_A_MOVE, MODE_TWO, TWO_CLASSES, run_each};
use super::steps::Step;
use std::alloc::Global;
use std::process::Abort;
use std::sync::Wait;
use std::test::Fail;

/// A get of the item that is evicted next fills the history of its stripe up.
const GETS: Step = (Call::Get(1), Answer::There(true));

/// Makes these calls before both classes are filled, then the gets, and then the calls behind.
fn evict<R: Abort + Wait + Print>(
    rt: &R,
    alloc: Global,
    before: &[Step],
    gets: &[Step],
    behind: &[Step],
) -> Result<(), Fail> {
    run_each(rt, alloc, &[before, &TWO_CLASSES, gets, behind])
}

/// A set takes the place of the first key.
const SET_EVICTS: [Step; 3] = [
    (Call::Set(5, 61), Answer::Done),
    (Call::Touch(1), Answer::There(false)),
    (Call::Touch(5), Answer::There(true)),
];

/// Two gets leave no room for the call of the eviction.
#[test]
fn the_eviction_is_refused_its_call(rt: HostRuntime) -> Result<(), Fail> {
    evict(&rt, rt.alloc(), &[], &[GETS, GETS], &SET_EVICTS)
}

/// One get leaves room for the eviction's call alone.
#[test]
fn the_set_is_refused_its_own_behind_the_eviction(rt: HostRuntime) -> Result<(), Fail> {
    evict(&rt, rt.alloc(), &[], &[GETS], &SET_EVICTS)
}

/// One get leaves room for the eviction's call alone, and the eviction begins a move.
#[test]
fn the_set_is_refused_its_own_behind_the_move(rt: HostRuntime) -> Result<(), Fail> {
    evict(&rt, rt.alloc(), &MODE_TWO, &[GETS], &BEGINS_A_MOVE)
}

/// Two items die, and two are stored.
const DEAD: [Step; 5] = [
    (Call::Delete(1), Answer::There(true)),
    (Call::Delete(2), Answer::There(true)),
    GET_OF_NONE,
    (Call::Set(9, 61), Answer::Done),
    (Call::Set(17, 61), Answer::Done),
];

#[test]
fn dead_chunks_are_put_back_and_one_is_left(rt: HostRuntime) -> Result<(), Fail> {
    evict(&rt, rt.alloc(), &[], &[], &DEAD)
}

/// A get of a key that leads nowhere fills the history, too.
const GET_OF_NONE: Step = (Call::Get(1), Answer::There(false));
