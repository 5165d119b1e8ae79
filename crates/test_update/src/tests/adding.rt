//! Values that are got, or else made and added.
ghost use Rattle.std.specs.Thread.{IsSync};
ghost use Rattle.mc_cache.specs.Belonging.{BelongsTo};

use super::made::{KEY, SMALL, pass_if, with_one_worker, with_two_workers};
use mc_cache::{Cache, Worker};
use mc_update::{AddError, Source, Updater};
use std::alloc::{AllocError, Global};
use std::sync::Wait;
use std::test::Fail;
use std::thread::{Threads, join};

/// How many keys two threads add: there is room for all of them.
const KEYS: u8 = 60;

/// Gets the key's value, or adds these bytes.
fn get_or_add<R: Wait>(
    rt: &R,
    cache: &Cache,
    worker: &mut Worker,
    updater: &mut Updater,
    key: &[u8],
    bytes: &[u8],
) -> Result<Source, AddError<AllocError>>
    requires { BelongsTo cache.now worker.old }
    ensures { BelongsTo cache.now worker.new }
{
    updater.get_or_add(
        rt,
        cache,
        worker,
        key,
        |room: &mut Vec<u8>| -> Result<(), AllocError> { room.extend_from_slice(bytes) },
    )
}

/// Adds a value and then another one, which isn't stored.
fn add_twice<R: Wait>(
    rt: &R,
    cache: &Cache,
    worker: &mut Worker,
    updater: &mut Updater,
    room: &mut Vec<u8>,
) -> Result<(), Fail>
    requires { BelongsTo cache.now worker.old }
{
    let first = get_or_add(rt, cache, worker, updater, KEY, b"Bern");
    let Ok(Source::Added(version)) = first else {
        return Err(Fail::new("no value was added"));
    };
    if updater.value() != b"Bern".as_slice() {
        return Err(Fail::new("another value was added"));
    }
    let second = get_or_add(rt, cache, worker, updater, KEY, b"Chur");
    if second != Ok(Source::Found) {
        return Err(Fail::new("a value was added over another one"));
    }
    if updater.value() != b"Bern".as_slice() {
        return Err(Fail::new("another value was found"));
    }
    let found = worker.get_with_version(rt, cache, KEY, room);
    if found != Ok(Some(version)) {
        return Err(Fail::new("the value has another version"));
    }
    Ok(())
}

#[test]
fn the_first_value_stands(rt: HostRuntime) -> Result<(), Fail> {
    let (cache, mut worker) = with_one_worker(&rt, rt.alloc())?;
    let mut updater = Updater::new(rt.alloc());
    let mut room = Vec::new(rt.alloc());
    add_twice(&rt, &cache, &mut worker, &mut updater, &mut room)
}

/// Adds a value that no class has chunks for, one under no key, and one that isn't made.
fn add_nothing<R: Wait>(
    rt: &R,
    cache: &Cache,
    worker: &mut Worker,
    updater: &mut Updater,
) -> Result<(), Fail>
    requires { BelongsTo cache.now worker.old }
{
    let wide = [b'x'; 1001];
    let unstored = get_or_add(rt, cache, worker, updater, KEY, &wide);
    if unstored != Ok(Source::Unstored(mc_items::SetError::TooLarge)) {
        return Err(Fail::new("a value without a class was stored"));
    }
    if updater.value() != wide.as_slice() {
        return Err(Fail::new("the value that was made isn't returned"));
    }
    let key = get_or_add(rt, cache, worker, updater, b"", b"x");
    if key != Err(AddError::KeyLength) {
        return Err(Fail::new("a key of no byte was taken"));
    }
    let make = |_room: &mut Vec<u8>| -> Result<(), u64> { Err(7) };
    let unmade = updater.get_or_add(rt, cache, worker, KEY, make);
    if unmade != Err(AddError::Make(7)) {
        return Err(Fail::new("what kept it from being made isn't returned"));
    }
    if worker.contains(rt, cache, KEY) != Ok(false) {
        return Err(Fail::new("the key has a value"));
    }
    Ok(())
}

#[test]
fn no_value_is_added(rt: HostRuntime) -> Result<(), Fail> {
    let (cache, mut worker) = with_one_worker(&rt, rt.alloc())?;
    let mut updater = Updater::new(rt.alloc());
    add_nothing(&rt, &cache, &mut worker, &mut updater)
}

/// Gets or adds each key, and puts what each has behind what was seen.
fn add_each<R: Wait>(
    rt: &R,
    cache: &Cache,
    worker: &mut Worker,
    updater: &mut Updater,
    own: u8,
    seen: &mut Vec<u8>,
) -> Result<(), AllocError>
    requires { BelongsTo cache.now worker.old }
{
    for key in 0..KEYS {
        let _source = get_or_add(rt, cache, worker, updater, &[key], &[own]);
        match updater.value().first() {
            Some(byte) => seen.push(*byte)?,
            None => seen.push(0)?,
        }
    }
    Ok(())
}

/// The same, and returns what each has.
fn add_all<R: Wait>(
    rt: &R,
    alloc: Global,
    cache: &Cache,
    worker: Worker,
    own: u8,
) -> Result<Vec<u8>, AllocError>
    requires { BelongsTo cache.now worker }
{
    let mut worker = worker;
    let mut updater = Updater::new(alloc);
    let mut seen = Vec::new(alloc);
    match add_each(rt, cache, &mut worker, &mut updater, own, &mut seen) {
        Ok(()) => Ok(seen),
        Err(refused) => Err(refused),
    }
}

/// Two threads at once. Where both add a key, the second one gets what the first one added.
#[test]
fn threads_get_one_value_a_key(rt: HostRuntime) -> Result<(), Fail> {
    let (cache, first, second) = with_two_workers(&rt, rt.alloc(), SMALL, 2)?;
    let (one, other) = join(
        &rt,
        || -> Result<Vec<u8>, AllocError>
            requires { BelongsTo cache first }
        { add_all(&rt, rt.alloc(), &cache, first, 1) },
        || -> Result<Vec<u8>, AllocError>
            requires { BelongsTo cache second }
        { add_all(&rt, rt.alloc(), &cache, second, 2) },
    );
    pass_if(saw_one_value(one, other), "a key had two values, or none")
}

/// Whether both saw the same, and each key had a value.
fn saw_one_value(one: Result<Vec<u8>, AllocError>, other: Result<Vec<u8>, AllocError>) -> bool {
    match (one, other) {
        (Ok(one), Ok(other)) => {
            one.as_slice() == other.as_slice() && one.iter().all(|byte| *byte == 1 || *byte == 2)
        }
        _ => false,
    }
}
