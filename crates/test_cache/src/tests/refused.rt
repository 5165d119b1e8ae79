//! Sets of values that are too large, and what is left of the old value.
use super::made::{with_one_worker, with_resting_worker};
use super::rows::{Call, Reply, Row, play};
use super::rows_within::play_within;
use std::test::Fail;

/// The longest value beside a key of four bytes in chunks of 1,024 bytes, and one byte more.
const LONGEST: [u8; 976] = [1; 976];

const LARGE: [u8; 977] = [1; 977];

/// A refused set deletes the old value, and `set_or_keep` keeps it. So do a replace and an add.
const REFUSED: [Row<'static>; 9] = [
    (
        Call::Set,
        b"city",
        &LONGEST,
        Reply::Stored,
        "the longest value isn't stored",
    ),
    (
        Call::SetOrKeep,
        b"city",
        &LARGE,
        Reply::TooLarge,
        "a longer one is stored",
    ),
    (
        Call::Replace,
        b"city",
        &LARGE,
        Reply::TooLarge,
        "a longer one is stored",
    ),
    (
        Call::Get,
        b"city",
        &LONGEST,
        Reply::Done,
        "the old value went",
    ),
    (
        Call::Set,
        b"city",
        &LARGE,
        Reply::TooLarge,
        "a longer one is stored",
    ),
    (
        Call::Get,
        b"city",
        b"",
        Reply::Absent,
        "the old value stays",
    ),
    (
        Call::Add,
        b"city",
        &LARGE,
        Reply::TooLarge,
        "a longer one is stored",
    ),
    (
        Call::Set,
        b"city",
        &LARGE,
        Reply::TooLarge,
        "a longer one is stored",
    ),
    (Call::Get, b"city", b"", Reply::Absent, "a value is there"),
];

#[test]
fn a_refused_set_leaves_no_value(rt: HostRuntime) -> Result<(), Fail> {
    let (cache, mut worker, _tender) = with_one_worker(&rt, rt.alloc(), 2)?;
    play(&rt, rt.alloc(), &cache, &mut worker, &REFUSED)
}

/// The same within tries. Without a try the delete is held, and the old value stays.
const WITHIN: [(u64, Row<'static>); 7] = [
    (
        1,
        (
            Call::Set,
            b"city",
            &LONGEST,
            Reply::Stored,
            "the longest value isn't stored",
        ),
    ),
    (
        1,
        (
            Call::SetOrKeep,
            b"city",
            &LARGE,
            Reply::TooLarge,
            "a longer one is stored",
        ),
    ),
    (
        0,
        (
            Call::Set,
            b"city",
            &LARGE,
            Reply::Held,
            "the delete needs no lock",
        ),
    ),
    (
        1,
        (
            Call::Get,
            b"city",
            &LONGEST,
            Reply::Done,
            "the old value went",
        ),
    ),
    (
        1,
        (
            Call::Set,
            b"city",
            &LARGE,
            Reply::TooLarge,
            "a longer one is stored",
        ),
    ),
    (
        1,
        (
            Call::Get,
            b"city",
            b"",
            Reply::Absent,
            "the old value stays",
        ),
    ),
    (
        0,
        (
            Call::SetOrKeep,
            b"city",
            &LARGE,
            Reply::TooLarge,
            "a lock is asked for",
        ),
    ),
];

#[test]
fn a_refused_set_within_tries_leaves_no_value(rt: HostRuntime) -> Result<(), Fail> {
    let (cache, mut worker) = with_resting_worker(rt.alloc(), 2)?;
    play_within(rt.alloc(), &cache, &mut worker, &WITHIN)
}

/// Lengths of keys, and the most bytes of a value beside each, in chunks of 1,024 bytes.
const MOST: [(usize, Option<usize>); 6] = [
    (1, Some(976)),
    (8, Some(976)),
    (9, Some(968)),
    (250, Some(728)),
    (984, Some(0)),
    (985, None),
];

#[test]
fn the_longest_values_are_known(rt: HostRuntime) -> Result<(), Fail> {
    let (cache, _worker, _tender) = with_one_worker(&rt, rt.alloc(), 2)?;
    for (key_len, most) in MOST {
        assert!(rt; cache.max_value(key_len) == most, "the longest value");
    }
    Ok(())
}
