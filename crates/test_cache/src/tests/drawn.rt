//! Drawn calls of one worker: what it finds is what was stored last, and absence is allowed.
ghost use Rattle.mc_cache.specs.Belonging.{BelongsTo};

use super::made::with_one_worker;
use super::values::{Call, Trial, key_of, value_of};
use mc_cache::{Cache, CallError, Worker};
use std::alloc::Global;
use std::sync::Wait;
use std::test::Fail;

/// How many calls are made.
const CALLS: u64 = 4000;

/// The key's bytes, by a get or a peek.
fn get_either<R: Wait>(
    rt: &R,
    cache: &Cache,
    worker: &mut Worker,
    key: &[u8],
    peeking: bool,
    into: &mut Vec<u8>,
) -> Result<bool, CallError>
    requires { BelongsTo cache.now worker.old }
    ensures { BelongsTo cache.now worker.new }
{
    if peeking {
        worker.peek(rt, cache, key, into)
    } else {
        worker.get(rt, cache, key, into)
    }
}

/// Stores the call's version of its key, and notes it if that was done.
fn store<R: Wait>(
    rt: &R,
    cache: &Cache,
    worker: &mut Worker,
    trial: &mut Trial,
    key: &[u8],
    call: Call,
) -> Result<(), Fail>
    requires { BelongsTo cache.now worker.old }
    ensures { BelongsTo cache.now worker.new }
{
    let value = value_of(trial.alloc, call.number, call.version)?;
    if worker.set(rt, cache, key, &value) == Ok(()) {
        trial.note(call.number, Some(call.version));
    }
    Ok(())
}

/// Deletes the key. False if it was done, and the key is there then.
fn deletes<R: Wait>(
    rt: &R,
    cache: &Cache,
    worker: &mut Worker,
    trial: &mut Trial,
    key: &[u8],
    number: u64,
) -> bool
    requires { BelongsTo cache.now worker.old }
    ensures { BelongsTo cache.now worker.new }
{
    if worker.delete(rt, cache, key).is_err() {
        return true;
    }
    trial.note(number, None);
    worker.contains(rt, cache, key) != Ok(true)
}

/// Gets the key. True if its bytes are its value, or none where it isn't there.
fn finds<R: Wait>(
    rt: &R,
    cache: &Cache,
    worker: &mut Worker,
    trial: &Trial,
    key: &[u8],
    call: Call,
) -> Result<bool, Fail>
    requires { BelongsTo cache.now worker.old }
    ensures { BelongsTo cache.now worker.new }
{
    let mut bytes = Vec::new(trial.alloc);
    match get_either(rt, cache, worker, key, call.kind == 5, &mut bytes) {
        Ok(true) => Ok(trial.is_value(call.number, &bytes)?),
        _ => Ok(bytes.is_empty()),
    }
}

/// The call on its key. True if all that was found was right.
fn act_on<R: Wait>(
    rt: &R,
    cache: &Cache,
    worker: &mut Worker,
    trial: &mut Trial,
    key: &[u8],
    call: Call,
) -> Result<bool, Fail>
    requires { BelongsTo cache.now worker.old }
    ensures { BelongsTo cache.now worker.new }
{
    match call.kind {
        0 | 1 | 2 => {
            store(rt, cache, worker, trial, key, call)?;
            Ok(true)
        }
        3 => Ok(deletes(rt, cache, worker, trial, key, call.number)),
        4 => {
            let _touched = worker.touch(rt, cache, key);
            Ok(true)
        }
        _ => finds(rt, cache, worker, trial, key, call),
    }
}

/// One drawn call. True if all that was found was right.
fn act<R: Wait>(rt: &R, cache: &Cache, worker: &mut Worker, trial: &mut Trial) -> Result<bool, Fail>
    requires { BelongsTo cache.now worker.old }
    ensures { BelongsTo cache.now worker.new }
{
    let call = trial.draw();
    let key = key_of(trial.alloc, call.number)?;
    act_on(rt, cache, worker, trial, &key, call)
}

/// All calls, before one that found what is wrong. True if none did.
fn act_often<R: Wait>(
    rt: &R,
    alloc: Global,
    cache: &Cache,
    worker: &mut Worker,
) -> Result<bool, Fail>
    requires { BelongsTo cache.now worker.old }
{
    let mut trial = Trial::new(alloc, 1)?;
    for _ in 0..CALLS {
        if !act(rt, cache, worker, &mut trial)? {
            return Ok(false);
        }
    }
    Ok(true)
}

/// Drawn calls over four shards, of which each has room for a part of its keys.
#[test]
fn what_is_there_is_what_was_stored(rt: HostRuntime) -> Result<(), Fail> {
    let (cache, mut worker, _tender) = with_one_worker(&rt, rt.alloc(), 4)?;
    let right = act_often(&rt, rt.alloc(), &cache, &mut worker)?;
    assert!(rt; right, "other bytes were found than were stored");
    Ok(())
}
