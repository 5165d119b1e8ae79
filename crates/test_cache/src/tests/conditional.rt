//! Sets on a condition, in worked rows and in drawn calls of one worker.
ghost use Rattle.std.specs.Prelude.{IfOk};
ghost use Rattle.mc_cache.specs.Belonging.{BelongsTo};

use super::made::{
    HASH_KEY, SMALL, config_of, next_worker, pass_if, with_one_worker, with_resting_worker,
};
use super::rows::{Call, Reply, Row, play};
use super::rows_within::play_within;
use super::values::{Call as Drawn, Trial, key_of, value_of};
use mc_cache::{Cache, CacheConfig, Outcome, SetError, When, Worker};
use mc_classes::Config;
use std::alloc::Global;
use std::sync::Wait;
use std::test::Fail;

/// How many calls are drawn.
const CALLS: u64 = 2000;

/// Whether the value was stored.
fn is_stored(done: Result<Outcome, SetError>) -> bool {
    match done {
        Ok(Outcome::Stored(_version)) => true,
        _ => false,
    }
}

/// A key has no value, then one by an add, and then another one by a replace.
const ADDS_AND_REPLACES: [Row<'static>; 5] = [
    (
        Call::Replace,
        b"city",
        b"Bern",
        Reply::Missing,
        "a replace stored where there is none",
    ),
    (
        Call::Add,
        b"city",
        b"Bern",
        Reply::Stored,
        "an add didn't store",
    ),
    (
        Call::Add,
        b"city",
        b"Basel",
        Reply::Exists,
        "an add stored over a value",
    ),
    (
        Call::Replace,
        b"city",
        b"Chur",
        Reply::Stored,
        "a replace didn't store",
    ),
    (
        Call::Get,
        b"city",
        b"Chur",
        Reply::Done,
        "another value was found",
    ),
];

/// A version is that of the last store. An older one stores nothing, and neither does one of a key that was deleted.
const VERSIONS: [Row<'static>; 6] = [
    (
        Call::Add,
        b"city",
        b"Bern",
        Reply::Stored,
        "an add didn't store",
    ),
    (
        Call::OverLast,
        b"city",
        b"Chur",
        Reply::Stored,
        "it didn't store over its version",
    ),
    (
        Call::OverOlder,
        b"city",
        b"Basel",
        Reply::Exists,
        "it stored over an older version",
    ),
    (
        Call::Get,
        b"city",
        b"Chur",
        Reply::Done,
        "another value was found",
    ),
    (Call::Delete, b"city", b"", Reply::Done, "it isn't deleted"),
    (
        Call::OverLast,
        b"city",
        b"Basel",
        Reply::Missing,
        "it stored over no value",
    ),
];

/// Plays the rows of adds and replaces, and then those of versions where the key has no value.
fn meet_conditions<R: Wait>(
    rt: &R,
    alloc: Global,
    cache: &Cache,
    worker: &mut Worker,
) -> Result<(), Fail>
    requires { BelongsTo cache.now worker.old }
{
    play(rt, alloc, cache, worker, &ADDS_AND_REPLACES)?;
    worker.delete(rt, cache, b"city")?;
    play(rt, alloc, cache, worker, &VERSIONS)
}

#[test]
fn conditions_are_met_row_by_row(rt: HostRuntime) -> Result<(), Fail> {
    let (cache, mut worker, _tender) = with_one_worker(&rt, rt.alloc(), 2)?;
    meet_conditions(&rt, rt.alloc(), &cache, &mut worker)
}

/// Looks for a version before a store and behind it.
fn find_version<R: Wait>(
    rt: &R,
    cache: &Cache,
    worker: &mut Worker,
    bytes: &mut Vec<u8>,
) -> Result<(), Fail>
    requires { BelongsTo cache.now worker.old }
{
    if worker.get_with_version(rt, cache, b"city", bytes) != Ok(None) {
        return Err(Fail::new("a version was found of no value"));
    }
    let Ok(Outcome::Stored(version)) = worker.add(rt, cache, b"city", b"Bern") else {
        return Err(Fail::new("an add didn't store"));
    };
    if worker.get_with_version(rt, cache, b"city", bytes) != Ok(Some(version)) {
        return Err(Fail::new("another version was found"));
    }
    pass_if(
        bytes.as_slice() == b"Bern".as_slice(),
        "another value was found",
    )
}

/// A version that a get returns is that of the store.
#[test]
fn versions_are_found(rt: HostRuntime) -> Result<(), Fail> {
    let (cache, mut worker, _tender) = with_one_worker(&rt, rt.alloc(), 2)?;
    let mut bytes = Vec::new(rt.alloc());
    find_version(&rt, &cache, &mut worker, &mut bytes)
}

/// Keys and values that no set takes.
#[test]
fn lengths_are_tested_first(rt: HostRuntime) -> Result<(), Fail> {
    let (cache, mut worker, _tender) = with_one_worker(&rt, rt.alloc(), 1)?;
    let long = vec![in rt.alloc(); 0; 16385]?;
    let rows = [
        (
            Call::Add,
            b"".as_slice(),
            b"Bern".as_slice(),
            Reply::KeyLength,
            "a key of no byte was taken",
        ),
        (
            Call::Add,
            b"city".as_slice(),
            long.as_slice(),
            Reply::TooLarge,
            "a value was taken that no chunk has room for",
        ),
    ];
    play(&rt, rt.alloc(), &cache, &mut worker, &rows)
}

/// The same calls within one try for each lock, and a set that is held without a try.
const WITHIN: [(u64, Row<'static>); 6] = [
    (
        1,
        (
            Call::Add,
            b"city",
            b"Bern",
            Reply::Stored,
            "an add didn't store",
        ),
    ),
    (
        1,
        (
            Call::OverLast,
            b"city",
            b"Chur",
            Reply::Stored,
            "it didn't store over its version",
        ),
    ),
    (
        1,
        (
            Call::OverOlder,
            b"city",
            b"Basel",
            Reply::Exists,
            "it stored over another version",
        ),
    ),
    (
        1,
        (
            Call::Replace,
            b"street",
            b"Chur",
            Reply::Missing,
            "it stored where there is none",
        ),
    ),
    (
        0,
        (
            Call::Add,
            b"street",
            b"Chur",
            Reply::Held,
            "a set without a try wasn't held",
        ),
    ),
    (
        1,
        (
            Call::Get,
            b"city",
            b"Chur",
            Reply::Done,
            "another value was found",
        ),
    ),
];

#[test]
fn sets_within_one_try_are_compared(rt: HostRuntime) -> Result<(), Fail> {
    let (cache, mut worker) = with_resting_worker(rt.alloc(), 2)?;
    play_within(rt.alloc(), &cache, &mut worker, &WITHIN)?;
    let mut bytes = Vec::new(rt.alloc());
    let found = worker.get_with_version_within(&cache, b"city", 1, &mut bytes);
    assert!(rt; matches!(found, Ok(Some(_))), "no version was found");
    Ok(())
}

/// A cache of one shard with so many pages, whose chunks for long values fill a page each.
fn with_pages<R: Wait>(rt: &R, alloc: Global, pages: u64) -> Result<(Cache, Worker), Fail>
    ensures { IfOk result (λ made. BelongsTo made.0 made.1) }
{
    let limit = pages.wrapping_mul(1024);
    let arena = Config { limit, ..SMALL };
    let config = CacheConfig {
        arena,
        ..config_of(1, 1)
    };
    let (cache, mut workers, _tender) = Cache::new(rt, alloc, &config, HASH_KEY)?;
    match next_worker(&cache, &mut workers) {
        Some(worker) => Ok((cache, worker)),
        None => Err(Fail::new("there is a worker")),
    }
}

/// A value of which a page of 1,024 bytes has one.
const WIDE: [u8; 800] = [1; 800];

/// Where the class has one chunk, a value that is to be replaced stays, and the set is refused.
const ALONE: [Row<'static>; 4] = [
    (Call::Add, b"city", &WIDE, Reply::Stored, "it isn't stored"),
    (
        Call::OverLast,
        b"city",
        &WIDE,
        Reply::NoRoom,
        "it found other room",
    ),
    (
        Call::Replace,
        b"city",
        &WIDE,
        Reply::NoRoom,
        "it found other room",
    ),
    (Call::Get, b"city", &WIDE, Reply::Done, "it was evicted"),
];

#[test]
fn a_value_stays_without_other_room(rt: HostRuntime) -> Result<(), Fail> {
    let (cache, mut worker) = with_pages(&rt, rt.alloc(), 1)?;
    play(&rt, rt.alloc(), &cache, &mut worker, &ALONE)
}

/// Where the class has other chunks, their items go, and not the one that is to be replaced, though it is the oldest.
const BESIDE_OTHERS: [Row<'static>; 4] = [
    (Call::Add, b"city", &WIDE, Reply::Stored, "it isn't stored"),
    (Call::Set, b"river", &WIDE, Reply::Stored, "it isn't stored"),
    (Call::Set, b"lake", &WIDE, Reply::Stored, "it isn't stored"),
    (
        Call::OverLast,
        b"city",
        &WIDE,
        Reply::Stored,
        "its own item was evicted for it",
    ),
];

#[test]
fn others_go_for_a_new_value(rt: HostRuntime) -> Result<(), Fail> {
    let (cache, mut worker) = with_pages(&rt, rt.alloc(), 3)?;
    play(&rt, rt.alloc(), &cache, &mut worker, &BESIDE_OTHERS)
}

/// Adds or replaces the call's version of its key. True if the outcome is one that the key's value allows.
fn store_if<R: Wait>(
    rt: &R,
    cache: &Cache,
    worker: &mut Worker,
    trial: &mut Trial,
    key: &[u8],
    call: Drawn,
    when: When,
) -> Result<bool, Fail>
    requires { BelongsTo cache.now worker.old }
    ensures { BelongsTo cache.now worker.new }
{
    let value = value_of(trial.alloc, call.number, call.version)?;
    let had = trial.has(call.number);
    match worker.set_if(rt, cache, key, &value, when) {
        Ok(Outcome::Stored(_version)) => {
            trial.note(call.number, Some(call.version));
            Ok(had || call.kind != 1)
        }
        Ok(Outcome::Exists) => Ok(had && call.kind != 1),
        Ok(Outcome::Missing) => Ok(call.kind != 0),
        Err(_refused) => Ok(true),
    }
}

/// Gets the key, stores the call's version over what it found, and tries so again. True if the second try stored nothing, and the first one
/// didn't find another version.
fn store_over<R: Wait>(
    rt: &R,
    cache: &Cache,
    worker: &mut Worker,
    trial: &mut Trial,
    key: &[u8],
    call: Drawn,
) -> Result<bool, Fail>
    requires { BelongsTo cache.now worker.old }
    ensures { BelongsTo cache.now worker.new }
{
    let mut bytes = Vec::new(trial.alloc);
    let Ok(Some(version)) = worker.get_with_version(rt, cache, key, &mut bytes) else {
        return Ok(bytes.is_empty());
    };
    if !trial.is_value(call.number, &bytes)? {
        return Ok(false);
    }
    let value = value_of(trial.alloc, call.number, call.version)?;
    let done = worker.compare_and_set(rt, cache, key, &value, version);
    if is_stored(done) {
        trial.note(call.number, Some(call.version));
        return Ok(!is_stored(worker.compare_and_set(rt, cache, key, &value, version)));
    }
    Ok(worker.compare_and_set(rt, cache, key, &value, version) != Ok(Outcome::Exists))
}

/// One drawn call. True if all that was found was right.
fn act<R: Wait>(rt: &R, cache: &Cache, worker: &mut Worker, trial: &mut Trial) -> Result<bool, Fail>
    requires { BelongsTo cache.now worker.old }
    ensures { BelongsTo cache.now worker.new }
{
    let drawn = trial.draw();
    let kind = drawn.kind % 4;
    let call = Drawn { kind, ..drawn };
    let key = key_of(trial.alloc, call.number)?;
    match kind {
        0 => store_if(rt, cache, worker, trial, &key, call, When::Absent),
        1 => store_if(rt, cache, worker, trial, &key, call, When::Present),
        2 => store_over(rt, cache, worker, trial, &key, call),
        _ => {
            if worker.delete(rt, cache, &key).is_ok() {
                trial.note(call.number, None);
            }
            Ok(true)
        }
    }
}

/// All calls, before one that found what is wrong. True if none did.
fn act_often<R: Wait>(
    rt: &R,
    alloc: Global,
    cache: &Cache,
    worker: &mut Worker,
) -> Result<bool, Fail>
    requires { BelongsTo cache.now worker.old }
{
    let mut trial = Trial::new(alloc, 7)?;
    for _ in 0..CALLS {
        if !act(rt, cache, worker, &mut trial)? {
            return Ok(false);
        }
    }
    Ok(true)
}

/// Drawn sets on a condition over four shards, of which each has room for a part of its keys.
#[test]
fn drawn_conditions_are_met(rt: HostRuntime) -> Result<(), Fail> {
    let (cache, mut worker, _tender) = with_one_worker(&rt, rt.alloc(), 4)?;
    let right = act_often(&rt, rt.alloc(), &cache, &mut worker)?;
    assert!(rt;
        right,
        "a set stored against its condition, or didn't store where it was met"
    );
    Ok(())
}
