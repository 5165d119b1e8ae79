//! Eight threads and a tender at once: each value is a function of its key, and no thread finds another.
ghost use Rattle.std.specs.Prelude.{All};
ghost use Rattle.std.specs.Thread.{IsSync};
ghost use Rattle.mc_cache.specs.Belonging.{BelongsTo};
ghost use Rattle.mc_cache.specs.Tending.{IsTenderOf};

use super::made::{HASH_KEY, config_of};
use super::threads::work;
use mc_cache::{Cache, Tender, Worker};
use std::alloc::{AllocError, Global};
use std::env::{self, Env};
use std::sync::Wait;
use std::sync::atomic::{AtomicU64, Ordering};
use std::test::Fail;
use std::thread::{Threads, join, map_vec};

/// How many calls each thread makes, unless the environment's `CALLS_A_THREAD` sets another number.
const CALLS: u64 = 1250;

/// How many calls each thread is to make.
fn calls_wanted<R: Env + AllocGlobal>(rt: &R) -> u64 {
    match env::var(rt, "CALLS_A_THREAD") {
        Ok(text) => text.parse().unwrap_or(CALLS),
        Err(_) => CALLS,
    }
}

/// One thread's calls: how many found another value, or wanted memory. Each thread draws others.
fn work_apart<R: Wait>(
    rt: &R,
    alloc: Global,
    cache: &Cache,
    calls: u64,
    begun: &AtomicU64,
    worker: Worker,
) -> u64
    requires { BelongsTo cache.now worker }
{
    let seed = begun.fetch_add(1, Ordering::SeqCst);
    work(rt, alloc, cache, worker, seed, calls)
}

/// All threads' calls, of each how many were wrong. Whatever comes of them, it is noted that they are done.
fn work_all<R: Threads + Wait + Sync>(
    rt: &R,
    alloc: Global,
    cache: &Cache,
    calls: u64,
    done: &AtomicU64,
    workers: Vec<Worker>,
) -> Result<Vec<u64>, AllocError>
    requires { All (BelongsTo cache.now) workers.items }
{
    let begun = AtomicU64::new(0);
    let begun = &begun;
    let wrong = map_vec(
        rt,
        workers,
        &|worker: Worker| -> u64
            requires { BelongsTo cache.now worker }
        { work_apart(rt, alloc, cache, calls, begun, worker) },
    );
    done.store(1, Ordering::SeqCst);
    wrong
}

/// Windows until all threads are done, or as many as they make calls: whether none was refused memory.
fn tend_beside<R: Wait>(rt: &R, cache: &Cache, calls: u64, done: &AtomicU64, tender: Tender) -> bool
    requires { IsTenderOf cache.now tender }
{
    let mut tender = tender;
    for _ in 0..calls.saturating_mul(8) {
        if tender.tend(rt, cache).is_err() {
            return false;
        }
        if done.load(Ordering::SeqCst) == 1 {
            return true;
        }
    }
    true
}

/// All threads' calls with the tender's windows beside them: of each thread how many were wrong, and whether no window was refused memory.
fn play_all<R: Threads + Wait + Sync>(
    rt: &R,
    alloc: Global,
    cache: &Cache,
    calls: u64,
    workers: Vec<Worker>,
    tender: Tender,
) -> (Result<Vec<u64>, AllocError>, bool)
    requires workers { All (BelongsTo cache.now) workers.items }
    requires tender { IsTenderOf cache.now tender }
{
    let done = AtomicU64::new(0);
    let done = &done;
    join(
        rt,
        move || -> Result<Vec<u64>, AllocError>
            requires { IsSync R.row × All (BelongsTo cache.now) workers.items }
        { work_all(rt, alloc, cache, calls, done, workers) },
        move || -> bool
            requires { IsSync R.row × IsTenderOf cache.now tender }
        { tend_beside(rt, cache, calls, done, tender) },
    )
}

/// Whether no thread found another value.
fn none_wrong(wrong: &[u64]) -> bool {
    wrong.iter().all(|wrong| *wrong == 0)
}

#[test]
fn no_wrong_byte_beside_a_tender(rt: HostRuntime) -> Result<(), Fail> {
    let calls = calls_wanted(&rt);
    let (cache, workers, mut tender) = Cache::new(&rt, rt.alloc(), &config_of(2, 8), HASH_KEY)?;
    tender.set_automove(&rt, &cache, 2);
    let (wrong, tended) = play_all(&rt, rt.alloc(), &cache, calls, workers, tender);
    drop(cache);
    let wrong = wrong?;
    assert!(rt;
        tended && none_wrong(&wrong),
        "another value was found, or memory was wanted"
    );
    Ok(())
}
