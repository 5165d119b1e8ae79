//! Values of up to 1 MiB in rows: lengths around each bound, refusals and deletes.
ghost use Rattle.mc_cache.specs.Belonging.{BelongsTo};

use super::large_values::{KEY, fill, is_value};
use super::made::{with_one_worker, with_wide_worker};
use mc_cache::{Cache, Worker};
use mc_large::{Large, LargeCallError, LargeSetError};
use std::alloc::Global;
use std::sync::Wait;
use std::test::Fail;

/// The key of the part of number 0.
const FIRST_PART: &[u8] = b"\x01\0\0\0\0key";

/// A key of 246 bytes.
const LONG_KEY: &[u8] = &[b'k'; 246];

/// What is done with the key. A length is that of a value, and a number its bytes.
#[derive(Clone, Copy)]
enum Step {
    /// A set of the value of this number and this length.
    Set(u64, usize),
    /// A get of the value of this number and this length.
    Get(u64, usize),
    /// A get that misses.
    Miss,
    Delete,
    /// A set of a byte under the key of part 0, by the cache's own call.
    Overwrite,
    /// A look whether the cache has part 0.
    Look,
}

/// What a step returns.
#[derive(Clone, Copy, PartialEq, Eq)]
enum Reply {
    Done,
    /// Nothing was got or deleted, or there is no part.
    Nothing,
    TooLarge,
    KeyLength,
    /// The step is refused for another reason, or another value was got.
    Wrong,
}

/// A step, its reply, and what is wrong at another one.
type Row<'a> = (Step, Reply, &'a str);

/// Beside a key of three bytes a root or a part has up to 16,336 bytes, where a chunk has 16,384. A root has a byte before its value.
const LENGTHS: [Row<'static>; 20] = [
    (Step::Set(1, 0), Reply::Done, "no byte was set"),
    (Step::Get(1, 0), Reply::Done, "no byte was got"),
    (Step::Set(2, 1), Reply::Done, "one byte wasn't set"),
    (Step::Get(2, 1), Reply::Done, "one byte wasn't got"),
    (
        Step::Set(3, 16_335),
        Reply::Done,
        "the largest root wasn't set",
    ),
    (Step::Look, Reply::Nothing, "the largest root has a part"),
    (
        Step::Get(3, 16_335),
        Reply::Done,
        "the largest root wasn't got",
    ),
    (
        Step::Set(4, 16_336),
        Reply::Done,
        "one full part wasn't set",
    ),
    (Step::Look, Reply::Done, "one full part is none"),
    (
        Step::Get(4, 16_336),
        Reply::Done,
        "one full part wasn't got",
    ),
    (
        Step::Set(5, 16_337),
        Reply::Done,
        "a part and a byte weren't set",
    ),
    (
        Step::Get(5, 16_337),
        Reply::Done,
        "a part and a byte weren't got",
    ),
    (
        Step::Set(6, 49_008),
        Reply::Done,
        "three full parts weren't set",
    ),
    (
        Step::Get(6, 49_008),
        Reply::Done,
        "three full parts weren't got",
    ),
    (Step::Set(7, 1_048_576), Reply::Done, "1 MiB wasn't set"),
    (Step::Get(7, 1_048_576), Reply::Done, "1 MiB wasn't got"),
    (
        Step::Set(8, 1_048_577),
        Reply::TooLarge,
        "1 MiB and a byte was set",
    ),
    (
        Step::Get(7, 1_048_576),
        Reply::Done,
        "it deleted the old value",
    ),
    (Step::Set(9, 5), Reply::Done, "five bytes weren't set"),
    (Step::Get(9, 5), Reply::Done, "five bytes weren't got"),
];

/// A part that another set stored is none of the value, and stays when that is deleted.
const DELETES: [Row<'static>; 13] = [
    (
        Step::Delete,
        Reply::Nothing,
        "a key without a value was deleted",
    ),
    (Step::Set(1, 40_000), Reply::Done, "no value was set"),
    (Step::Look, Reply::Done, "it has no part"),
    (Step::Delete, Reply::Done, "it wasn't deleted"),
    (Step::Miss, Reply::Nothing, "it is there still"),
    (Step::Look, Reply::Nothing, "its part is there still"),
    (Step::Delete, Reply::Nothing, "it was deleted twice"),
    (Step::Set(2, 40_000), Reply::Done, "no second value was set"),
    (
        Step::Overwrite,
        Reply::Done,
        "no byte was set under a part's key",
    ),
    (
        Step::Miss,
        Reply::Nothing,
        "another part was taken for its own",
    ),
    (Step::Delete, Reply::Done, "the second value wasn't deleted"),
    (Step::Look, Reply::Done, "a newer part was deleted"),
    (
        Step::Miss,
        Reply::Nothing,
        "the second value is there still",
    ),
];

/// Where a chunk has 1,024 bytes, a root has up to 976, and so 120 versions at most. Each part has up to 976 bytes.
const FEW_VERSIONS: [Row<'static>; 4] = [
    (
        Step::Set(1, 975),
        Reply::Done,
        "the largest root wasn't set",
    ),
    (Step::Set(2, 117_121), Reply::TooLarge, "121 parts were set"),
    (
        Step::Get(1, 975),
        Reply::Done,
        "a refused set deleted the value",
    ),
    (Step::Set(3, 117_120), Reply::Done, "120 parts weren't set"),
];

/// A key that isn't one.
const NO_KEY: [Row<'static>; 3] = [
    (Step::Set(1, 5), Reply::KeyLength, "a value was set"),
    (Step::Miss, Reply::KeyLength, "a value was got"),
    (Step::Delete, Reply::KeyLength, "a value was deleted"),
];

/// What a look or a delete returned.
fn reply_of(found: Result<bool, LargeCallError>) -> Reply {
    match found {
        Ok(true) => Reply::Done,
        Ok(false) => Reply::Nothing,
        Err(LargeCallError::KeyLength) => Reply::KeyLength,
        Err(_) => Reply::Wrong,
    }
}

/// Does a step with the key.
fn reply_to<R: Wait>(
    rt: &R,
    cache: &Cache,
    worker: &mut Worker,
    large: &mut Large,
    key: &[u8],
    step: Step,
    room: &mut Vec<u8>,
) -> Reply
    requires { BelongsTo cache.now worker.old }
    ensures { BelongsTo cache.now worker.new }
{
    match step {
        Step::Set(number, len) => {
            if fill(room, number, len).is_err() {
                return Reply::Wrong;
            }
            match large.set(rt, cache, worker, key, room.as_slice()) {
                Ok(()) => Reply::Done,
                Err(LargeSetError::KeyLength) => Reply::KeyLength,
                Err(LargeSetError::TooLarge) => Reply::TooLarge,
                Err(_) => Reply::Wrong,
            }
        }
        Step::Get(number, len) => {
            room.clear();
            match large.get(rt, cache, worker, key, room) {
                Ok(true) if is_value(room.as_slice(), number, len) => Reply::Done,
                _ => Reply::Wrong,
            }
        }
        Step::Miss => {
            let len = room.len();
            let got = large.get(rt, cache, worker, key, room);
            if room.len() != len {
                return Reply::Wrong;
            }
            reply_of(got)
        }
        Step::Delete => reply_of(large.delete(rt, cache, worker, key)),
        Step::Overwrite => match worker.set(rt, cache, FIRST_PART, b"x") {
            Ok(()) => Reply::Done,
            Err(_) => Reply::Wrong,
        },
        Step::Look => match worker.contains(rt, cache, FIRST_PART) {
            Ok(true) => Reply::Done,
            Ok(false) => Reply::Nothing,
            Err(_) => Reply::Wrong,
        },
    }
}

/// Plays the rows, up to the first with another reply.
fn play_by<R: Wait>(
    rt: &R,
    cache: &Cache,
    worker: &mut Worker,
    large: &mut Large,
    room: &mut Vec<u8>,
    key: &[u8],
    rows: &[Row],
) -> Result<(), Fail>
    requires { BelongsTo cache.now worker.old }
    ensures { BelongsTo cache.now worker.new }
{
    for (step, reply, wrong) in rows {
        if reply_to(rt, cache, worker, large, key, *step, room) != *reply {
            return Err(Fail::new(*wrong));
        }
    }
    Ok(())
}

/// The same, by a new store of large values.
fn play<R: Wait>(
    rt: &R,
    alloc: Global,
    cache: &Cache,
    worker: &mut Worker,
    key: &[u8],
    rows: &[Row],
) -> Result<(), Fail>
    requires { BelongsTo cache.now worker.old }
    ensures { BelongsTo cache.now worker.new }
{
    let mut large = Large::new(alloc);
    let mut room = Vec::new(alloc);
    play_by(rt, cache, worker, &mut large, &mut room, key, rows)
}

#[test]
fn values_of_each_length_are_got(rt: HostRuntime) -> Result<(), Fail> {
    let (cache, mut worker) = with_wide_worker(&rt, rt.alloc())?;
    play(&rt, rt.alloc(), &cache, &mut worker, KEY, &LENGTHS)
}

#[test]
fn deletes_leave_newer_parts(rt: HostRuntime) -> Result<(), Fail> {
    let (cache, mut worker) = with_wide_worker(&rt, rt.alloc())?;
    play(&rt, rt.alloc(), &cache, &mut worker, KEY, &DELETES)
}

#[test]
fn too_many_parts_are_refused(rt: HostRuntime) -> Result<(), Fail> {
    let (cache, mut worker) = with_one_worker(&rt, rt.alloc())?;
    play(&rt, rt.alloc(), &cache, &mut worker, KEY, &FEW_VERSIONS)
}

#[test]
fn keys_have_1_to_245_bytes(rt: HostRuntime) -> Result<(), Fail> {
    let (cache, mut worker) = with_one_worker(&rt, rt.alloc())?;
    play(&rt, rt.alloc(), &cache, &mut worker, b"", &NO_KEY)?;
    play(&rt, rt.alloc(), &cache, &mut worker, LONG_KEY, &NO_KEY)?;
    let long = [
        (
            Step::Set(1, 2000),
            Reply::Done,
            "a key of 245 bytes has no value",
        ),
        (Step::Get(1, 2000), Reply::Done, "its value wasn't got"),
    ];
    play(&rt, rt.alloc(), &cache, &mut worker, &LONG_KEY[1..], &long)
}
