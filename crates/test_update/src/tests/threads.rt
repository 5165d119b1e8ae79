//! Two threads that count one value up and add bytes to another: each change is there.
ghost use Rattle.std.specs.Thread.{IsSync};
ghost use Rattle.mc_cache.specs.Belonging.{BelongsTo};

use super::made::{KEY, with_threads_workers};
use mc_cache::{Cache, Worker};
use mc_update::Updater;
use std::alloc::Global;
use std::sync::Wait;
use std::test::Fail;
use std::thread::{Threads, join};

/// How often each thread changes each value.
const ROUNDS: u64 = 300;

/// The key of the bytes.
const BYTES: &[u8] = b"bytes";

/// One change of each value. True if both were done.
fn change_both<R: Wait>(rt: &R, cache: &Cache, worker: &mut Worker, updater: &mut Updater) -> bool
    requires { BelongsTo cache.now worker.old }
    ensures { BelongsTo cache.now worker.new }
{
    let Ok(Some(_count)) = updater.increment(rt, cache, worker, KEY, 3) else {
        return false;
    };
    let Ok(Some(_version)) = updater.append(rt, cache, worker, BYTES, b"+") else {
        return false;
    };
    true
}

/// A thread's rounds. How many of them did less than both changes.
fn change_often<R: Wait>(rt: &R, alloc: Global, cache: &Cache, worker: Worker) -> u64
    requires { BelongsTo cache.now worker }
{
    let mut worker = worker;
    let mut updater = Updater::new(alloc);
    let mut missed: u64 = 0;
    for _ in 0..ROUNDS {
        if !change_both(rt, cache, &mut worker, &mut updater) {
            missed = missed.wrapping_add(1);
        }
    }
    missed
}

/// Whether each change of both is there.
fn has_each_change<R: Wait>(
    rt: &R,
    cache: &Cache,
    worker: &mut Worker,
    updater: &mut Updater,
    bytes: &mut Vec<u8>,
) -> Result<(), Fail>
    requires { BelongsTo cache.now worker.old }
{
    if updater.increment(rt, cache, worker, KEY, 0) != Ok(Some(6 * ROUNDS)) {
        return Err(Fail::new("a count was lost, or one was done twice"));
    }
    let found = worker.get(rt, cache, BYTES, bytes);
    if found == Ok(true) && bytes.len() as u64 == 2 * ROUNDS {
        Ok(())
    } else {
        Err(Fail::new("a byte was lost, or one was added twice"))
    }
}

/// Two threads at once. A lost change would leave the count too small, or the bytes too few.
#[test]
fn no_change_is_lost(rt: HostRuntime) -> Result<(), Fail> {
    let (cache, mut own, (first, second)) = with_threads_workers(&rt, rt.alloc())?;
    let count = own.set(&rt, &cache, KEY, b"0");
    let bytes = own.set(&rt, &cache, BYTES, b"");
    assert!(rt; count.is_ok() && bytes.is_ok(), "no value was set");
    let (one, other) = join(
        &rt,
        || -> u64
            requires { BelongsTo cache first }
        { change_often(&rt, rt.alloc(), &cache, first) },
        || -> u64
            requires { BelongsTo cache second }
        { change_often(&rt, rt.alloc(), &cache, second) },
    );
    assert!(rt; one == 0 && other == 0, "a change wasn't done");
    let mut updater = Updater::new(rt.alloc());
    let mut bytes = Vec::new(rt.alloc());
    has_each_change(&rt, &cache, &mut own, &mut updater, &mut bytes)
}
