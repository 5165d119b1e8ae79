//! Gets mark what they find: it is evicted later, and its bytes are right however often it was asked for.
ghost use Rattle.mc_cache.specs.Belonging.{BelongsTo};

use super::made::{pass_if, with_one_worker};
use super::tended::{SHORT, set_many};
use mc_cache::{Cache, Worker};
use std::alloc::Global;
use std::process::Abort;
use std::sync::Wait;
use std::test::Fail;

/// How many short values a shard has room for.
const ROOM: u64 = 64;

/// How often one value is got.
const GETS: u64 = 5000;

/// Whether a get finds the short value under this key.
fn finds<R: Wait>(rt: &R, alloc: Global, cache: &Cache, worker: &mut Worker, number: u64) -> bool
    requires { BelongsTo cache.now worker.old }
    ensures { BelongsTo cache.now worker.new }
{
    let mut bytes = Vec::new(alloc);
    let found = worker.get(rt, cache, &number.to_le_bytes(), &mut bytes);
    found == Ok(true) && bytes.as_slice() == &SHORT[..]
}

/// The oldest value of a full shard is got, and one value more is stored.
fn assert_next_evicted<R: Abort + Wait>(rt: &R, alloc: Global, cache: &Cache, worker: &mut Worker)
    requires { BelongsTo cache.now worker.old }
{
    let found = finds(rt, alloc, cache, worker, 0);
    let _stored = worker.set(rt, cache, &ROOM.to_le_bytes(), &SHORT);
    assert!(rt; found, "the first value is there");
    let first = worker.contains(rt, cache, &0u64.to_le_bytes());
    let second = worker.contains(rt, cache, &1u64.to_le_bytes());
    assert!(rt; first == Ok(true), "what was got stays");
    assert!(rt; second == Ok(false), "the next one goes");
}

/// A full shard: the oldest value is got, and so the next one goes for one value more.
#[test]
fn what_was_got_is_evicted_later(rt: HostRuntime) -> Result<(), Fail> {
    let (cache, mut worker, _tender) = with_one_worker(&rt, rt.alloc(), 1)?;
    set_many(&rt, &cache, &mut worker, ROOM, &SHORT);
    assert_next_evicted(&rt, rt.alloc(), &cache, &mut worker);
    Ok(())
}

/// Whether each of many gets finds the first value.
fn finds_each_time<R: Wait>(rt: &R, alloc: Global, cache: &Cache, worker: &mut Worker) -> bool
    requires { BelongsTo cache.now worker.old }
{
    for _ in 0..GETS {
        if !finds(rt, alloc, cache, worker, 0) {
            return false;
        }
    }
    true
}

/// One value is got again and again.
#[test]
fn a_value_is_found_each_time(rt: HostRuntime) -> Result<(), Fail> {
    let (cache, mut worker, _tender) = with_one_worker(&rt, rt.alloc(), 1)?;
    set_many(&rt, &cache, &mut worker, 1, &SHORT);
    pass_if(
        finds_each_time(&rt, rt.alloc(), &cache, &mut worker),
        "the value is gone",
    )
}
