//! Deletes of a version, in worked rows: a value goes only by its own version.
use super::made::{with_one_worker, with_resting_worker};
use super::rows::{Call, Reply, Row, play};
use super::rows_within::play_within;
use std::test::Fail;

const BERN: &[u8] = b"Bern";

const CHUR: &[u8] = b"Chur";

/// An older version doesn't delete a newer value. Its own version does so, once.
const VERSIONS: [Row<'static>; 9] = [
    (
        Call::DeleteLast,
        b"city",
        b"",
        Reply::Missing,
        "none was there",
    ),
    (Call::Add, b"city", BERN, Reply::Stored, "it isn't stored"),
    (
        Call::OverLast,
        b"city",
        CHUR,
        Reply::Stored,
        "it isn't stored",
    ),
    (
        Call::DeleteOlder,
        b"city",
        b"",
        Reply::Exists,
        "a newer value was deleted",
    ),
    (Call::Get, b"city", CHUR, Reply::Done, "the value is gone"),
    (
        Call::DeleteLast,
        b"city",
        b"",
        Reply::Done,
        "its version isn't deleted",
    ),
    (Call::Get, b"city", b"", Reply::Absent, "it is there still"),
    (
        Call::DeleteLast,
        b"city",
        b"",
        Reply::Missing,
        "it was deleted twice",
    ),
    (
        Call::DeleteLast,
        b"",
        b"",
        Reply::KeyLength,
        "a key of no byte was taken",
    ),
];

/// A value that comes behind a delete has another version.
const STORED_AGAIN: [Row<'static>; 4] = [
    (Call::Add, b"city", BERN, Reply::Stored, "it isn't stored"),
    (Call::Delete, b"city", b"", Reply::Done, "it isn't deleted"),
    (Call::Add, b"city", BERN, Reply::Stored, "it isn't stored"),
    (
        Call::DeleteOlder,
        b"city",
        b"",
        Reply::Exists,
        "a newer value was deleted",
    ),
];

#[test]
fn a_value_goes_by_its_own_version(rt: HostRuntime) -> Result<(), Fail> {
    let (cache, mut worker, _tender) = with_one_worker(&rt, rt.alloc(), 2)?;
    play(&rt, rt.alloc(), &cache, &mut worker, &VERSIONS)?;
    play(&rt, rt.alloc(), &cache, &mut worker, &STORED_AGAIN)
}

/// The same within one try for the lock, and a delete that is held without a try.
const WITHIN: [(u64, Row<'static>); 8] = [
    (
        1,
        (Call::Add, b"city", BERN, Reply::Stored, "it isn't stored"),
    ),
    (
        1,
        (
            Call::OverLast,
            b"city",
            CHUR,
            Reply::Stored,
            "it isn't stored",
        ),
    ),
    (
        1,
        (
            Call::DeleteOlder,
            b"city",
            b"",
            Reply::Exists,
            "a newer value was deleted",
        ),
    ),
    (
        0,
        (
            Call::DeleteLast,
            b"city",
            b"",
            Reply::Held,
            "a delete without a try wasn't held",
        ),
    ),
    (
        1,
        (Call::Get, b"city", CHUR, Reply::Done, "the value is gone"),
    ),
    (
        1,
        (
            Call::DeleteLast,
            b"city",
            b"",
            Reply::Done,
            "its version isn't deleted",
        ),
    ),
    (
        1,
        (
            Call::DeleteLast,
            b"city",
            b"",
            Reply::Missing,
            "it was deleted twice",
        ),
    ),
    (
        1,
        (
            Call::DeleteLast,
            b"",
            b"",
            Reply::KeyLength,
            "a key of no byte was taken",
        ),
    ),
];

#[test]
fn versions_go_within_one_try(rt: HostRuntime) -> Result<(), Fail> {
    let (cache, mut worker) = with_resting_worker(rt.alloc(), 2)?;
    play_within(rt.alloc(), &cache, &mut worker, &WITHIN)
}
