//! Threads whose values are a function of their keys: no thread finds another value.
ghost use Rattle.std.specs.Thread.{IsSync};
ghost use Rattle.mc_cache.specs.Belonging.{BelongsTo};

use super::made::{pass_if, with_two_workers};
use super::values::{KEYS, key_of, value_of};
use mc_cache::{Cache, Worker};
use rand_core::Rng;
use rand_pcg::Pcg32;
use std::alloc::{AllocError, Global};
use std::sync::Wait;
use std::test::Fail;
use std::thread::{Threads, join};

/// How often each thread acts.
const ROUNDS: u64 = 2000;

/// Gets the key by the call that waits, or by that which doesn't. True if it was found.
fn find<R: Wait>(
    rt: &R,
    cache: &Cache,
    worker: &mut Worker,
    key: &[u8],
    into: &mut Vec<u8>,
    waits: bool,
) -> bool
    requires { BelongsTo cache.now worker.old }
    ensures { BelongsTo cache.now worker.new }
{
    if waits {
        worker.get(rt, cache, key, into) == Ok(true)
    } else {
        worker.try_get(cache, key, into) == Ok(true)
    }
}

/// A call of this kind. False if another value was found than the key's.
fn act_on<R: Wait>(
    rt: &R,
    alloc: Global,
    cache: &Cache,
    worker: &mut Worker,
    kind: u64,
    key: &[u8],
    value: &[u8],
) -> bool
    requires { BelongsTo cache.now worker.old }
    ensures { BelongsTo cache.now worker.new }
{
    match kind {
        0 | 1 | 2 => {
            let _stored = worker.set(rt, cache, key, value);
            true
        }
        3 => {
            let _deleted = worker.delete(rt, cache, key);
            true
        }
        _ => {
            let mut bytes = Vec::new(alloc);
            let found = find(rt, cache, worker, key, &mut bytes, kind != 4);
            !found || bytes.as_slice() == value
        }
    }
}

/// One drawn call of a thread. False if another value was found than the key's.
fn act<R: Wait>(
    rt: &R,
    alloc: Global,
    cache: &Cache,
    worker: &mut Worker,
    random: &mut Pcg32,
) -> Result<bool, AllocError>
    requires { BelongsTo cache.now worker.old }
    ensures { BelongsTo cache.now worker.new }
{
    let kind = random.next_u64() % 8;
    let number = random.next_u64() % KEYS;
    let key = key_of(alloc, number)?;
    let value = value_of(alloc, number, 0)?;
    Ok(act_on(rt, alloc, cache, worker, kind, &key, &value))
}

/// A thread's rounds: how many found another value, or wanted memory.
pub fn work<R: Wait>(
    rt: &R,
    alloc: Global,
    cache: &Cache,
    worker: Worker,
    seed: u64,
    rounds: u64,
) -> u64
    requires { BelongsTo cache.now worker }
{
    let mut worker = worker;
    let mut random = Pcg32::new(seed, 0);
    let mut wrong = 0;
    for _ in 0..rounds {
        match act(rt, alloc, cache, &mut worker, &mut random) {
            Ok(true) => {}
            _ => wrong += 1,
        }
    }
    wrong
}

/// Two threads at once over two shards of few pages.
#[test]
fn threads_find_their_values(rt: HostRuntime) -> Result<(), Fail> {
    let (cache, first, second) = with_two_workers(&rt, rt.alloc(), 2)?;
    let (one, other) = join(
        &rt,
        || -> u64
            requires { BelongsTo cache first }
        { work(&rt, rt.alloc(), &cache, first, 1, ROUNDS) },
        || -> u64
            requires { BelongsTo cache second }
        { work(&rt, rt.alloc(), &cache, second, 2, ROUNDS) },
    );
    pass_if(
        one == 0 && other == 0,
        "another value was found, or memory was wanted",
    )
}
