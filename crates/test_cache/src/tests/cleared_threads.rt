//! Two threads, of which one clears the cache while the other stores: what each clear takes, and what it leaves.
ghost use Rattle.std.specs.Thread.{IsSync};
ghost use Rattle.mc_cache.specs.Belonging.{BelongsTo};

use super::cleared::{missing_known, store_known};
use super::made::with_threads_workers;
use example_calls::cache::clear_and_count;
use mc_cache::{Cache, Worker};
use std::process::Abort;
use std::sync::Wait;
use std::sync::atomic::{AtomicU64, Ordering};
use std::test::Fail;
use std::thread::{Threads, join};

/// How often one thread clears the cache.
const CLEARS: u64 = 60;

/// How many keys the other thread stores once. Each is one byte, from 100 on. Two shards have room for all keys of the test.
const ONCE: u8 = 40;

/// How many keys it stores behind each of them, again and again. They are the bytes from 200 on.
const OFTEN: u8 = 20;

/// The value of each key.
const VALUE: &[u8] = b"value";

/// A thread's clears, with a note of how many have begun and how many have ended. How many were refused.
fn clear_often<R: Wait>(
    rt: &R,
    cache: &Cache,
    begun: &AtomicU64,
    ended: &AtomicU64,
    worker: Worker,
) -> u64
    requires { BelongsTo cache.now worker }
{
    let mut worker = worker;
    let mut refused: u64 = 0;
    for _ in 0..CLEARS {
        let _begun = begun.fetch_add(1, Ordering::SeqCst);
        if worker.clear(rt, cache).is_err() {
            refused = refused.wrapping_add(1);
        }
        let _ended = ended.fetch_add(1, Ordering::SeqCst);
    }
    refused
}

/// Stores a key and looks for it. True if it is there, or if a clear may have come between: one that hadn't ended, or one that has begun.
fn stores<R: Wait>(
    rt: &R,
    cache: &Cache,
    begun: &AtomicU64,
    ended: &AtomicU64,
    worker: &mut Worker,
    number: u8,
) -> bool
    requires { BelongsTo cache.now worker.old }
    ensures { BelongsTo cache.now worker.new }
{
    let before = ended.load(Ordering::SeqCst);
    let stored = worker.set(rt, cache, &[number], VALUE);
    let found = worker.contains(rt, cache, &[number]);
    let is_cleared = begun.load(Ordering::SeqCst) > before;
    stored == Ok(()) && (is_cleared || found == Ok(true))
}

/// Stores the keys that are stored often. How many went wrong.
fn store_all<R: Wait>(
    rt: &R,
    cache: &Cache,
    begun: &AtomicU64,
    ended: &AtomicU64,
    worker: &mut Worker,
) -> u64
    requires { BelongsTo cache.now worker.old }
    ensures { BelongsTo cache.now worker.new }
{
    let mut wrong: u64 = 0;
    for number in 0..OFTEN {
        if !stores(rt, cache, begun, ended, worker, number.wrapping_add(200)) {
            wrong = wrong.wrapping_add(1);
        }
    }
    wrong
}

/// Stores a key once, and then other keys. True if these went well, and the key is gone where a clear began behind its store and has ended.
fn store_once<R: Wait>(
    rt: &R,
    cache: &Cache,
    begun: &AtomicU64,
    ended: &AtomicU64,
    worker: &mut Worker,
    number: u8,
) -> bool
    requires { BelongsTo cache.now worker.old }
    ensures { BelongsTo cache.now worker.new }
{
    let stored = worker.set(rt, cache, &[number], VALUE);
    let before = begun.load(Ordering::SeqCst);
    let wrong = store_all(rt, cache, begun, ended, worker);
    let is_cleared = ended.load(Ordering::SeqCst) > before;
    let found = worker.contains(rt, cache, &[number]);
    stored == Ok(()) && wrong == 0 && (!is_cleared || found == Ok(false))
}

/// The other thread's stores. How many went wrong.
fn store_often<R: Wait>(
    rt: &R,
    cache: &Cache,
    begun: &AtomicU64,
    ended: &AtomicU64,
    worker: Worker,
) -> u64
    requires { BelongsTo cache.now worker }
{
    let mut worker = worker;
    let mut wrong: u64 = 0;
    for number in 0..ONCE {
        if !store_once(
            rt,
            cache,
            begun,
            ended,
            &mut worker,
            number.wrapping_add(100),
        ) {
            wrong = wrong.wrapping_add(1);
        }
    }
    wrong
}

/// Behind all clears the known keys are gone, what is stored then is there, and one clear more deletes all.
fn assert_cleared<R: Abort + Wait>(rt: &R, cache: &Cache, worker: &mut Worker)
    requires { BelongsTo cache.now worker.old }
{
    let missing = missing_known(rt, cache, worker);
    assert!(rt; missing == 30, "a clear left what was stored before it");
    let stored = worker.set(rt, cache, b"behind", VALUE);
    let found = worker.contains(rt, cache, b"behind");
    assert!(rt;
        stored == Ok(()) && found == Ok(true),
        "what was stored behind a clear is gone"
    );
    let count = worker.len(rt, cache);
    let cleared = clear_and_count(rt, cache, worker);
    assert!(rt; cleared == Ok((count, 0)), "the last clear left a key");
}

/// One thread clears while the other stores. Whatever the schedule, each clear takes what was stored before it, and leaves what comes behind it.
#[test]
fn clears_take_what_was_stored_before(rt: HostRuntime) -> Result<(), Fail> {
    let (cache, mut own, (first, second)) = with_threads_workers(&rt, rt.alloc(), 2)?;
    let unstored = store_known(&rt, &cache, &mut own);
    let (begun, ended) = (AtomicU64::new(0), AtomicU64::new(0));
    let (refused, wrong) = join(
        &rt,
        || -> u64
            requires { BelongsTo cache first }
        { clear_often(&rt, &cache, &begun, &ended, first) },
        || -> u64
            requires { BelongsTo cache second }
        { store_often(&rt, &cache, &begun, &ended, second) },
    );
    assert!(rt; unstored == 0 && refused == 0, "a call was refused");
    assert!(rt; wrong == 0, "a clear took or left another key");
    assert_cleared(&rt, &cache, &mut own);
    Ok(())
}
