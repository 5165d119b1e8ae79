//! Calls on keys that are refused memory.
use super::calls::{Answer, Call};
use super::steps::{Step, run};
use std::test::Fail;
use testlib_values::FOUR_CLASSES;

/// Calls on keys that have an item, and on keys that have none.
const ON_KEYS: [Step; 10] = [
    (Call::Set(1, 3), Answer::Done),
    (Call::Get(1), Answer::There(true)),
    (Call::Touch(1), Answer::There(true)),
    (Call::Get(2), Answer::There(false)),
    (Call::Delete(1), Answer::There(true)),
    // The dead chunk is put back by a sweep alone that isn't refused.
    (Call::Survey(false), Answer::Surveyed(false, [0, 0, 0, 0])),
    (Call::Survey(true), Answer::Surveyed(false, [0, 0, 0, 0])),
    (Call::Touch(3), Answer::There(false)),
    (Call::Delete(4), Answer::There(false)),
    (Call::Set(4, 61), Answer::Done),
];

#[test]
fn calls_on_keys_are_refused_memory(rt: HostRuntime) -> Result<(), Fail> {
    run(&rt, rt.alloc(), &FOUR_CLASSES, &ON_KEYS)
}

/// Gets that wait for nobody, with an item and without.
const TRIED: [Step; 5] = [
    (Call::TryGet(1), Answer::There(false)),
    (Call::Set(1, 3), Answer::Done),
    (Call::TryGet(1), Answer::There(true)),
    (Call::TryGet(1), Answer::There(true)),
    (Call::TryGet(5), Answer::There(false)),
];

#[test]
fn gets_that_wait_for_nobody_are_refused_memory(rt: HostRuntime) -> Result<(), Fail> {
    run(&rt, rt.alloc(), &FOUR_CLASSES, &TRIED)
}
