//! Two threads that add bytes to one value: each byte that a thread added is there.
ghost use Rattle.std.specs.Thread.{IsSync};
ghost use Rattle.mc_cache.specs.Belonging.{BelongsTo};

use super::made::{pass_if, with_threads_workers};
use mc_cache::{Cache, Outcome, Worker};
use std::alloc::Global;
use std::sync::Wait;
use std::test::Fail;
use std::thread::{Threads, join};

/// How often each thread tries to add a byte.
const ROUNDS: u64 = 300;

/// The key of the value.
const KEY: &[u8] = b"count";

/// Adds a byte to the value, unless the other thread changed it meanwhile. True if it was added.
fn append<R: Wait>(rt: &R, alloc: Global, cache: &Cache, worker: &mut Worker) -> bool
    requires { BelongsTo cache.now worker.old }
    ensures { BelongsTo cache.now worker.new }
{
    let mut bytes = Vec::new(alloc);
    let Ok(Some(version)) = worker.get_with_version(rt, cache, KEY, &mut bytes) else {
        return false;
    };
    if bytes.push(b'+').is_err() {
        return false;
    }
    match worker.compare_and_set(rt, cache, KEY, &bytes, version) {
        Ok(Outcome::Stored(_version)) => true,
        _ => false,
    }
}

/// A thread's rounds: how many bytes it added.
fn append_often<R: Wait>(rt: &R, alloc: Global, cache: &Cache, worker: Worker) -> u64
    requires { BelongsTo cache.now worker }
{
    let mut worker = worker;
    let mut added: u64 = 0;
    for _ in 0..ROUNDS {
        if append(rt, alloc, cache, &mut worker) {
            added = added.wrapping_add(1);
        }
    }
    added
}

/// How many bytes the value has.
fn count<R: Wait>(rt: &R, alloc: Global, cache: &Cache, worker: &mut Worker) -> u64
    requires { BelongsTo cache.now worker.old }
{
    let mut bytes = Vec::new(alloc);
    let _found = worker.get(rt, cache, KEY, &mut bytes);
    bytes.len() as u64
}

/// Two threads at once. A lost byte would be one that a thread added and that isn't there.
#[test]
fn no_byte_is_lost(rt: HostRuntime) -> Result<(), Fail> {
    let (cache, mut own, (first, second)) = with_threads_workers(&rt, rt.alloc(), 1)?;
    let stored = own.set(&rt, &cache, KEY, b"");
    let (one, other) = join(
        &rt,
        || -> u64
            requires { BelongsTo cache first }
        { append_often(&rt, rt.alloc(), &cache, first) },
        || -> u64
            requires { BelongsTo cache second }
        { append_often(&rt, rt.alloc(), &cache, second) },
    );
    let there = count(&rt, rt.alloc(), &cache, &mut own);
    let is_each_there = stored.is_ok() && there == one.wrapping_add(other) && there > 0;
    pass_if(
        is_each_there,
        "a byte was lost, or one was added twice, or none was",
    )
}
