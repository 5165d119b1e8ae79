//! Marks of gets: a value that was got more often stays longer under evictions, up to three uses.
ghost use Rattle.mc_cache.specs.Belonging.{BelongsTo};

use super::made::with_one_worker;
use super::tended::{SHORT, set_many};
use mc_cache::{Cache, Worker};
use std::alloc::Global;
use std::sync::Wait;
use std::test::Fail;

/// How many short values a shard has room for.
const ROOM: u64 = 64;

/// How many sets are made at most.
const MOST_SETS: u64 = 1000;

/// Gets the first value n times.
fn get_often<R: Wait>(rt: &R, alloc: Global, cache: &Cache, worker: &mut Worker, gets: u64)
    requires { BelongsTo cache.now worker.old }
    ensures { BelongsTo cache.now worker.new }
{
    let mut bytes = Vec::new(alloc);
    for _ in 0..gets {
        bytes.clear();
        let _found = worker.get(rt, cache, &0u64.to_le_bytes(), &mut bytes);
    }
}

/// Stores a value under a new key. True if the first value is there still, by a look that marks nothing.
fn stays_behind_set<R: Wait>(
    rt: &R,
    alloc: Global,
    cache: &Cache,
    worker: &mut Worker,
    number: u64,
) -> bool
    requires { BelongsTo cache.now worker.old }
    ensures { BelongsTo cache.now worker.new }
{
    let _stored = worker.set(rt, cache, &number.to_le_bytes(), &SHORT);
    let mut bytes = Vec::new(alloc);
    worker.peek(rt, cache, &0u64.to_le_bytes(), &mut bytes) == Ok(true)
}

/// Stores new keys until the first value is gone. How many were stored; none if it is there behind the last.
fn sets_until_gone<R: Wait>(
    rt: &R,
    alloc: Global,
    cache: &Cache,
    worker: &mut Worker,
) -> Option<u64>
    requires { BelongsTo cache.now worker.old }
{
    for number in 0..MOST_SETS {
        if !stays_behind_set(rt, alloc, cache, worker, ROOM + number) {
            return Some(number + 1);
        }
    }
    None
}

/// A full shard, whose oldest value is got n times: how many sets it stays for.
fn sets_behind<R: Wait>(rt: &R, alloc: Global, gets: u64) -> Result<u64, Fail> {
    let (cache, mut worker, _tender) = with_one_worker(rt, alloc, 1)?;
    set_many(rt, &cache, &mut worker, ROOM, &SHORT);
    get_often(rt, alloc, &cache, &mut worker, gets);
    match sets_until_gone(rt, alloc, &cache, &mut worker) {
        Some(sets) => Ok(sets),
        None => Err(Fail::new("the value is never evicted")),
    }
}

/// A value that was got once stays for more sets than one that wasn't, and one that was got three times for more than that.
#[test]
fn what_is_got_more_often_stays_longer(rt: HostRuntime) -> Result<(), Fail> {
    let none = sets_behind(&rt, rt.alloc(), 0)?;
    let one = sets_behind(&rt, rt.alloc(), 1)?;
    let three = sets_behind(&rt, rt.alloc(), 3)?;
    assert!(rt; none < one, "one get doesn't keep a value");
    assert!(rt; one < three, "three gets keep a value no longer than one");
    Ok(())
}
